//! Rows of bits in one array of words: one row read, one bit written, and one row added to another.
ghost use Rattle.std.specs.Prelude.{◌≡◌, ◌≢◌, ◌↔◌, ◌+◌, ◌*◌, ◌<◌, ◌≤◌, ◌||◌, length, map, replicate, slice_set, IsTrue};
ghost use Rattle.vob_block.specs.Packing.{unpacking};
ghost use Rattle.vob_rows.specs.Part.{HasRow, IsRowCombined, IsRowPut, blocks_of};
ghost use Rattle.vob_c.specs.Rows.{AreCanonicalRows, HasRowWords};
ghost use Rattle.vob_c.specs.Status.{TellsWords};

use crate::status::{LENGTH, NOT_CANONICAL, OK};
use vob_block::{Blocks, Kernel, Or};
use vob_store::canonical::is_canonical;
use vob_store::room::block_count;
use vob_store::single::write_bit;

/// Returns the words of row `i`, of `count` words a row.
pub(crate) fn words_at(words: &[usize], count: usize, i: usize) -> &[usize]
    requires { i * count + count ≤ length words.now }
    ensures { result.now ≡ blocks_of count words.now i }
{
    let start = i * count;
    &words[start..start + count]
}

/// Returns whether the words of each row are canonical. Rows without words aren't counted through.
pub(crate) fn are_canonical(words: &[usize], rows: usize, columns: usize) -> bool
    requires { HasRowWords rows columns words.now }
    ensures { IsTrue result ↔ AreCanonicalRows rows columns words.now }
{
    if words.len() == 0 {
        return true;
    }
    let count = block_count::<usize>(columns);
    for i in 0..rows {
        if !is_canonical(words_at(words, count, i), columns) {
            return false;
        }
    }
    true
}

/// Returns whether there are as many words as `rows` rows of `columns` bits need.
pub(crate) fn has_row_words(words: &[usize], rows: usize, columns: usize) -> bool
    ensures { IsTrue result ↔ HasRowWords rows columns words.now }
{
    let Some(needed) = rows.checked_mul(block_count::<usize>(columns)) else {
        return false;
    };
    words.len() == needed
}

/// Returns the status of words that are to hold `rows` rows of `columns` bits.
pub(crate) fn status_of_rows(words: &[usize], rows: usize, columns: usize) -> u8
    ensures { TellsWords result (HasRowWords rows columns words.now)
        (AreCanonicalRows rows columns words.now) }
{
    if !has_row_words(words, rows, columns) {
        return LENGTH;
    }
    if are_canonical(words, rows, columns) {
        OK
    } else {
        NOT_CANONICAL
    }
}

/// Makes each word 0.
pub(crate) fn clear(words: &mut [usize])
    ensures { words.new ≡ replicate (length words.old) 0 }
{
    for k in 0..words.len() {
        words[k] = 0;
    }
}

/// Writes bit `j` of row `i`, of `count` words a row.
pub(crate) fn write_at(
    words: &mut [usize],
    count: usize,
    columns: usize,
    i: usize,
    j: usize,
    value: bool,
)
    requires row { HasRow (λ x. x) 64 columns count words.old i }
    requires column { j < columns }
    ensures { IsRowPut (λ x. x) 64 columns count i words.old
        (slice_set (unpacking columns (map (λ x. x) (blocks_of count words.old i)) 64) j value)
        words.new }
{
    let start = i * count;
    write_bit(&mut words[start..start + count], columns, j, value);
}

/// Adds to row `i` the places of other words, and returns whether that changed a word.
pub(crate) fn add_words(words: &mut [usize], count: usize, i: usize, other: &[usize]) -> bool
    requires inside { i * count + count ≤ length words.old }
    requires long { length other.now ≡ count }
    ensures { IsRowCombined (λ x. x) 64 ◌||◌ count i words.old (map (λ x. x) other.now) words.new
        result }
{
    let start = i * count;
    usize::combine_into::<Or>(&mut words[start..start + count], &mut Blocks::new(other))
}

/// Adds the places of row `from` to those of another row, and returns whether that changed a word.
pub(crate) fn add_row(words: &mut [usize], count: usize, into: usize, from: usize) -> bool
    requires into { into * count + count ≤ length words.old }
    requires from { from * count + count ≤ length words.old }
    requires apart { into ≢ from }
    ensures { IsRowCombined (λ x. x) 64 ◌||◌ count into words.old
        (map (λ x. x) (blocks_of count words.old from)) words.new result }
{
    if into < from {
        let (low, high) = words.split_at_mut(from * count);
        add_words(low, count, into, words_at(high, count, 0))
    } else {
        let (low, high) = words.split_at_mut(into * count);
        add_words(high, count, 0, words_at(low, count, from))
    }
}
