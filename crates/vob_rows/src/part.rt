//! Blocks of rows, one row after another, of which one row is written.
ghost use Rattle.std.specs.Prelude.{◌≡◌, ◌≢◌, ◌↔◌, ◌+◌, ◌-◌, ◌*◌, ◌<◌, ◌≤◌, ◌||◌, ◌∷◌, ℕ, List, [], false, not, length, map, replicate, slice_get, slice_set, Some, IsTrue};
ghost use Rattle.vob.specs.Copy.{written_over, IsCopied};
ghost use Rattle.vob_block.specs.Packing.{unpacking};
ghost use Rattle.vob_block.specs.Pointwise.{IsPointwise};
ghost use Rattle.vob_rows.specs.Part.{HasRow, IsRowCombined, IsRowPut, blocks_of};

use std::ops::Range;
use vob_block::{BitBlock, Blocks, Combine, Kernel};
use vob_store::fill::fill;
use vob_store::fused::or_combined;
use vob_store::load_store::write_bits;
use vob_store::mask::negate;
use vob_store::single::write_bit;

/// Returns the blocks of row `i`, of `count` blocks a row.
pub(crate) fn row_blocks<T>(blocks: &[T], count: usize, i: usize) -> &[T]
    requires { i * count + count ≤ length blocks.now }
    ensures { result.now ≡ blocks_of count blocks.now i }
{
    let start = i * count;
    &blocks[start..start + count]
}

/// Writes bit `j` of row `i`, and returns whether it changed.
pub(crate) fn write_at<T: BitBlock>(
    blocks: &mut [T],
    count: usize,
    columns: usize,
    i: usize,
    j: usize,
    value: bool,
) -> bool
    requires row { HasRow T.number T.BITS columns count blocks.old i }
    requires column { j < columns }
    ensures put { IsRowPut T.number T.BITS columns count i blocks.old
        (slice_set (unpacking columns (map T.number (blocks_of count blocks.old i)) T.BITS) j value)
        blocks.new }
    ensures changed { IsTrue result
        ↔ (slice_get (unpacking columns (map T.number (blocks_of count blocks.old i)) T.BITS) j
        ≢ Some value) }
{
    let start = i * count;
    write_bit(&mut blocks[start..start + count], columns, j, value)
}

/// Writes the first places of a block over the bits of row `i` in a range.
pub(crate) fn store_at<T: BitBlock>(
    blocks: &mut [T],
    count: usize,
    columns: usize,
    i: usize,
    range: Range<usize>,
    word: T,
)
    requires row { HasRow T.number T.BITS columns count blocks.old i }
    requires order { range.start ≤ range.end }
    requires inside { range.end ≤ columns }
    requires few { range.end ≤ range.start + T.BITS }
    ensures put { IsRowPut T.number T.BITS columns count i blocks.old (written_over range.start
        (unpacking (range.end - range.start) (T.number word ∷ []) T.BITS)
        (unpacking columns (map T.number (blocks_of count blocks.old i)) T.BITS)) blocks.new }
    ensures copied { IsCopied range.start 0 (range.end - range.start)
        (unpacking columns (map T.number (blocks_of count blocks.old i)) T.BITS)
        (unpacking T.BITS (T.number word ∷ []) T.BITS) (written_over range.start
        (unpacking (range.end - range.start) (T.number word ∷ []) T.BITS)
        (unpacking columns (map T.number (blocks_of count blocks.old i)) T.BITS)) }
{
    let start = i * count;
    word.in_range();
    write_bits(
        &mut blocks[start..start + count],
        range.start,
        word,
        range.end - range.start,
    );
}

/// Makes each bit of row `i` `value`.
pub(crate) fn fill_at<T: BitBlock>(
    blocks: &mut [T],
    count: usize,
    columns: usize,
    i: usize,
    value: bool,
)
    requires { HasRow T.number T.BITS columns count blocks.old i }
    ensures { IsRowPut T.number T.BITS columns count i blocks.old (replicate columns value)
        blocks.new }
{
    let start = i * count;
    fill(&mut blocks[start..start + count], columns, value);
}

/// Negates each bit of row `i`.
pub(crate) fn negate_at<T: BitBlock>(blocks: &mut [T], count: usize, columns: usize, i: usize)
    requires { HasRow T.number T.BITS columns count blocks.old i }
    ensures { IsRowPut T.number T.BITS columns count i blocks.old
        (map not (unpacking columns (map T.number (blocks_of count blocks.old i)) T.BITS))
        blocks.new }
{
    let start = i * count;
    negate(&mut blocks[start..start + count], columns);
}

/// Combines the places of others with those of row `i`, and returns whether that changed a block.
pub(crate) fn combine_at<C: Combine, T: Kernel>(
    blocks: &mut [T],
    count: usize,
    i: usize,
    other: &[T],
) -> bool
    requires inside { i * count + count ≤ length blocks.old }
    requires long { length other.now ≡ count }
    ensures { IsRowCombined T.number T.BITS C.of_bits count i blocks.old (map T.number other.now)
        blocks.new result }
{
    let start = i * count;
    T::combine_into::<C>(&mut blocks[start..start + count], &mut Blocks::new(other))
}

/// Adds to row `i` what the places of two others combine to, and returns whether that changed a block.
pub(crate) fn or_combined_at<C: Combine, T: Kernel>(
    blocks: &mut [T],
    count: usize,
    i: usize,
    first: &[T],
    second: &[T],
) -> bool
    requires inside { i * count + count ≤ length blocks.old }
    requires first { length first.now ≡ count }
    requires second { length second.now ≡ count }
    ensures { (both : List ℕ) → IsPointwise T.BITS C.of_bits (map T.number first.now)
        (map T.number second.now) both → IsRowCombined T.number T.BITS ◌||◌ count i blocks.old both
        blocks.new result }
{
    let start = i * count;
    or_combined::<C, T>(
        &mut blocks[start..start + count],
        &mut Blocks::new(first),
        &mut Blocks::new(second),
    )
}

/// Adds the places of row `from` to those of another row, and returns whether that changed a block.
pub(crate) fn or_rows<T: Kernel>(blocks: &mut [T], count: usize, into: usize, from: usize) -> bool
    requires into { into * count + count ≤ length blocks.old }
    requires from { from * count + count ≤ length blocks.old }
    requires apart { into ≢ from }
    ensures { IsRowCombined T.number T.BITS ◌||◌ count into blocks.old
        (map T.number (blocks_of count blocks.old from)) blocks.new result }
{
    if into < from {
        let (low, high) = blocks.split_at_mut(from * count);
        combine_at::<vob_block::Or, T>(low, count, into, row_blocks(high, count, 0))
    } else {
        let (low, high) = blocks.split_at_mut(into * count);
        combine_at::<vob_block::Or, T>(high, count, 0, row_blocks(low, count, from))
    }
}

/// Adds to a row what the places of row `from` and of others combine to, and returns whether that
/// changed a block.
pub(crate) fn or_rows_combined<C: Combine, T: Kernel>(
    blocks: &mut [T],
    count: usize,
    into: usize,
    from: usize,
    other: &[T],
) -> bool
    requires into { into * count + count ≤ length blocks.old }
    requires from { from * count + count ≤ length blocks.old }
    requires apart { into ≢ from }
    requires other { length other.now ≡ count }
    ensures { (both : List ℕ) → IsPointwise T.BITS C.of_bits
        (map T.number (blocks_of count blocks.old from)) (map T.number other.now) both
        → IsRowCombined T.number T.BITS ◌||◌ count into blocks.old both blocks.new result }
{
    if into < from {
        let (low, high) = blocks.split_at_mut(from * count);
        or_combined_at::<C, T>(low, count, into, row_blocks(high, count, 0), other)
    } else {
        let (low, high) = blocks.split_at_mut(into * count);
        or_combined_at::<C, T>(high, count, 0, row_blocks(low, count, from), other)
    }
}
