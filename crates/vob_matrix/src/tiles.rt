//! Transposes of matrices by tiles of 64 rows by 64 columns, a word a row.
ghost use Rattle.std.specs.Prelude.{◌≡◌, ◌<◌, ◌≤◌, ◌+◌, ◌*◌, ◌-◌, ℕ, false, length};
ghost use Rattle.vob_matrix.specs.TileRows.{AreTaken, IsLoaded, IsStored};
ghost use Rattle.vob_matrix.specs.Tiles.{AreExchanged, AreTurned, IsMask, IsStage, JoinsFirst, JoinsSecond};

use vob_block::BitBlock;
use vob_rows::BitRows;

/// The bits that a tile has on average from which on it takes less than a walk over them.
const MANY: usize = 256;

/// Returns the word of the first groups of two words: those of `low`, each with that of `high` after it.
/// A group is `group` places, and the mask has the first of each pair of them.
#[inline(always)]
fn join_first(low: usize, high: usize, group: usize, mask: usize) -> usize
    requires { group < 64 }
    ensures { (pairs : ℕ) → pairs * (2 * group) ≡ 64 → IsMask group pairs mask
        → JoinsFirst group pairs low high result }
{
    low.band(mask).bor(high.band(mask).up(group))
}

/// Returns the word of the second groups of two words: those of `low`, each before that of `high`.
#[inline(always)]
fn join_second(low: usize, high: usize, group: usize, mask: usize) -> usize
    requires { group < 64 }
    ensures { (pairs : ℕ) → pairs * (2 * group) ≡ 64 → IsMask group pairs mask
        → JoinsSecond group pairs low high result }
{
    low.down(group).band(mask).bor(high.band(mask.bnot()))
}

/// Exchanges the second groups of the `group` words from `first` on with the first groups of as many
/// words after them.
#[inline(always)]
fn exchange_groups(words: &mut [usize], first: usize, group: usize, mask: usize)
    requires small { group < 64 }
    requires inside { first + 2 * group ≤ length words.old }
    ensures { (pairs : ℕ) → pairs * (2 * group) ≡ 64 → IsMask group pairs mask
        → AreExchanged group pairs first group words.old words.new }
{
    for c in 0..group {
        let low = words[first + c];
        let high = words[first + group + c];
        words[first + c] = join_first(low, high, group, mask);
        words[first + group + c] = join_second(low, high, group, mask);
    }
}

/// Exchanges groups of places so in each pair of groups of words.
#[inline(always)]
fn exchange_all(words: &mut [usize], group: usize, pairs: usize, mask: usize)
    requires length { length words.old ≡ 64 }
    requires small { group < 64 }
    requires whole { pairs * (2 * group) ≡ 64 }
    requires mask { IsMask group pairs mask }
    ensures { IsStage group pairs pairs words.old words.new }
{
    for pair in 0..pairs {
        exchange_groups(words, pair * (2 * group), group, mask);
    }
}

/// Transposes a tile: exchanges halves of 32 by 32 bits, then quarters of those, and so on.
fn turn_words(words: &mut [usize])
    requires { length words.old ≡ 64 }
    ensures { AreTurned words.old words.new }
{
    exchange_all(words, 32, 1, 0x0000_0000_FFFF_FFFF);
    exchange_all(words, 16, 2, 0x0000_FFFF_0000_FFFF);
    exchange_all(words, 8, 4, 0x00FF_00FF_00FF_00FF);
    exchange_all(words, 4, 8, 0x0F0F_0F0F_0F0F_0F0F);
    exchange_all(words, 2, 16, 0x3333_3333_3333_3333);
    exchange_all(words, 1, 32, 0x5555_5555_5555_5555);
}

/// Reads the bits from `start` to below `end` of the rows from `first` to below `last`, a word a row.
fn load_words(
    words: &mut [usize],
    rows: &BitRows,
    first: usize,
    last: usize,
    start: usize,
    end: usize,
)
    requires rows { first ≤ last }
    requires inside { last ≤ length rows.now.rows }
    requires few { last ≤ first + length words.old }
    requires columns { start ≤ end }
    requires width { end ≤ start + 64 }
    requires long { end ≤ rows.now.columns }
    ensures { IsLoaded rows.now.rows first last start end words.new }
{
    for k in 0..last - first {
        words[k] = rows.row(first + k).load(start..end);
    }
}

/// Writes words over the bits from `first` to below `last` of the rows from `start` to below `end`.
fn store_words(
    rows: &mut BitRows,
    words: &[usize],
    start: usize,
    end: usize,
    first: usize,
    last: usize,
)
    requires rows { start ≤ end }
    requires inside { end ≤ length rows.old.rows }
    requires few { end ≤ start + length words.now }
    requires columns { first ≤ last }
    requires width { last ≤ first + 64 }
    requires long { last ≤ rows.old.columns }
    ensures stored { IsStored rows.old.rows words.now first last start end rows.new.rows }
    ensures columns { rows.new.columns ≡ rows.old.columns }
{
    for k in 0..end - start {
        rows.store(start + k, first..last, words[k]);
    }
}

/// Makes the bits from `first` to below `last` of the rows from `start` to below `end` the columns of
/// the rows of `from` with these numbers.
fn turn_tile(
    rows: &mut BitRows,
    from: &BitRows,
    first: usize,
    last: usize,
    start: usize,
    end: usize,
)
    requires rows { first ≤ last }
    requires few { last ≤ first + 64 }
    requires inside { last ≤ length from.now.rows }
    requires columns { start ≤ end }
    requires width { end ≤ start + 64 }
    requires room { end ≤ length rows.old.rows }
    requires long { from.now.columns ≡ length rows.old.rows }
    requires high { rows.old.columns ≡ length from.now.rows }
    ensures taken { AreTaken rows.old.rows from.now.rows first last start end rows.new.rows }
    ensures columns { rows.new.columns ≡ rows.old.columns }
{
    let mut words = [0; 64];
    load_words(&mut words, from, first, last, start, end);
    turn_words(&mut words);
    store_words(rows, &words, start, end, first, last);
}

/// Makes the bits from `first` to below `last` of all rows the columns of the rows of `from` with these
/// numbers, a tile at a time.
fn turn_strip(rows: &mut BitRows, from: &BitRows, first: usize, last: usize)
    requires rows { first ≤ last }
    requires few { last ≤ first + 64 }
    requires inside { last ≤ length from.now.rows }
    requires long { from.now.columns ≡ length rows.old.rows }
    requires high { rows.old.columns ≡ length from.now.rows }
    ensures taken { AreTaken rows.old.rows from.now.rows first last 0 (length rows.old.rows)
        rows.new.rows }
    ensures columns { rows.new.columns ≡ rows.old.columns }
{
    let columns = rows.rows();
    let mut start = 0;
    'tiles: while start < columns {
        let end = start + (columns - start).min(64);
        turn_tile(rows, from, first, last, start, end);
        start = end;
    }
}

/// Makes column i of the rows the row i of others, for each of these.
pub(crate) fn turn_rows(rows: &mut BitRows, from: &BitRows)
    requires long { from.now.columns ≡ length rows.old.rows }
    requires high { rows.old.columns ≡ length from.now.rows }
    ensures taken { AreTaken rows.old.rows from.now.rows 0 (length from.now.rows) 0
        (length rows.old.rows) rows.new.rows }
    ensures columns { rows.new.columns ≡ rows.old.columns }
{
    let mut first = 0;
    'strips: while first < from.rows() {
        let last = first + (from.rows() - first).min(64);
        turn_strip(rows, from, first, last);
        first = last;
    }
}

/// Returns whether rows have so many set bits that tiles take less than a walk over these bits.
pub(crate) fn are_dense(rows: &BitRows) -> bool {
    let tiles = rows
        .rows()
        .div_ceil(64)
        .saturating_mul(rows.columns().div_ceil(64));
    let mut ones: usize = 0;
    for row in 0..rows.rows() {
        ones = ones.saturating_add(rows.row(row).count_ones());
    }
    tiles.saturating_mul(MANY) <= ones
}
