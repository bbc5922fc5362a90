//! The next index whose bit has a value, and the previous one. The block of the first index is
//! searched, and then the next block that has such a bit.
ghost use Rattle.std.specs.Prelude.{◌≡◌, ◌==◌, if◌then◌else◌, ◌+◌, ◌-◌, ◌/◌, ◌<◌, ◌≤◌, length, map, max, min, slice_index_or, option_map, unwrap_or, MatchOption};
ghost use Rattle.vob_block.specs.Packing.{need};
ghost use Rattle.vob_walk.specs.Next.{HasNoBit, IsFirstBit, IsLastBit, IsFirstPlace, IsLastPlace, FindsUp, FindsBack};

use crate::block_bits::is_zero;
use crate::skip::{Span, next_other};
use crate::walk::End;
use crate::window::{bits_of_value, block_without};
use vob_block::{BitBlock, Blocks};

/// Returns the first place from `from` on whose bit has the value, or `BITS` if there is none.
#[inline(always)]
fn first_place<T: BitBlock>(block: T, value: bool, from: usize) -> usize
    requires { from < T.BITS }
    ensures { IsFirstPlace T.BITS (T.number block) value from result }
{
    // Tested by the block: where it isn't 0, the count of its zeros is one instruction.
    let head = bits_of_value(block, value).band(T::ONES.up(from));
    if is_zero(head) {
        T::BITS
    } else {
        head.zeros_low()
    }
}

/// Returns one past the last place up to `upto` whose bit has the value, or 0 if there is none.
#[inline(always)]
fn past_last_place<T: BitBlock>(block: T, value: bool, upto: usize) -> usize
    requires { upto < T.BITS }
    ensures { IsLastPlace (T.number block) value (upto + 1) result }
{
    let head = bits_of_value(block, value).band(T::low_mask(upto + 1));
    if is_zero(head) {
        0
    } else {
        T::BITS - head.zeros_high()
    }
}

/// Returns the block of index `from`, at which a walk goes on. That is `hand`, which isn't read again.
/// If `from` is 0, `hand` may be any block, and block 0 is read.
#[inline(always)]
pub fn block_in_hand<T: BitBlock>(blocks: &mut Blocks<'_, T>, hand: T, from: usize) -> T
    requires count { from / T.BITS < length blocks.old.items }
    requires hand { 0 < from → T.number hand
        ≡ slice_index_or (map T.number blocks.old.items) (from / T.BITS) 0 }
    ensures block { T.number result
        ≡ slice_index_or (map T.number blocks.old.items) (from / T.BITS) 0 }
    ensures reads { blocks.new.reads ≡ blocks.old.reads + (if from == 0 then 1 else 0) }
    ensures items { blocks.new.items ≡ blocks.old.items }
{
    if from == 0 { blocks.block(0) } else { hand }
}

/// An index, and the block that holds its bit.
#[derive(Clone, Copy)]
pub struct Found<T: BitBlock> {
    pub index: usize,
    pub block: T,
}

/// Returns the first index from `from` to below `len` whose bit has the value, with its block. If there
/// is none, returns `len`; the block is then unspecified. The block of `from` isn't read again. The
/// blocks after it are read, once each, until one has such a bit.
#[inline(always)]
pub fn next_in_hand<T: BitBlock>(
    blocks: &mut Blocks<'_, T>,
    value: bool,
    len: usize,
    from: Found<T>,
) -> Found<T>
    requires inside { from.index < len }
    requires count { need len T.BITS ≤ length blocks.old.items }
    requires hand { T.number from.block
        ≡ slice_index_or (map T.number blocks.old.items) (from.index / T.BITS) 0 }
    ensures { FindsUp T.BITS T.number value blocks.old blocks.new from.index len result.index
        result.block }
{
    let Found { index, block } = from;
    let k = index / T::BITS;
    let place = first_place(block, value, index % T::BITS);
    if place < T::BITS {
        let at = k * T::BITS;
        let index = at + place.min(len - at);
        return Found { index, block };
    }
    let rest = Span {
        side: End::Front,
        start: k + 1,
        end: len.div_ceil(T::BITS),
    };
    let Some(found) = next_other(blocks, block_without(value), rest) else {
        return Found { index: len, block };
    };
    let (k, block) = found;
    block.in_range();
    let at = k * T::BITS;
    let index = at + first_place(block, value, 0).min(len - at);
    Found { index, block }
}

/// Returns one past the last index from `start` up to that of `from` whose bit has the value, with the
/// block of that last index. If there is none, returns `start`; the block is then unspecified. The
/// block of `from` isn't read again. The blocks before it are read, once each, until one has such a
/// bit.
#[inline(always)]
pub fn previous_in_hand<T: BitBlock>(
    blocks: &mut Blocks<'_, T>,
    value: bool,
    start: usize,
    from: Found<T>,
) -> Found<T>
    requires inside { start ≤ from.index }
    requires fits { from.index < usize.MAX }
    requires count { from.index / T.BITS < length blocks.old.items }
    requires hand { T.number from.block
        ≡ slice_index_or (map T.number blocks.old.items) (from.index / T.BITS) 0 }
    ensures { FindsBack T.BITS T.number value blocks.old blocks.new start from.index result.index
        result.block }
{
    let Found { index, block } = from;
    let k = index / T::BITS;
    let end = past_last_place(block, value, index % T::BITS);
    if end > 0 {
        let index = start.max(k * T::BITS + end);
        return Found { index, block };
    }
    let rest = Span {
        side: End::Back,
        start: start / T::BITS,
        end: k,
    };
    let Some(found) = next_other(blocks, block_without(value), rest) else {
        return Found {
            index: start,
            block,
        };
    };
    let (k, block) = found;
    block.in_range();
    let end = past_last_place(block, value, T::BITS - 1);
    let index = start.max(k * T::BITS + end);
    Found { index, block }
}

/// Returns the first index from `from` to below `len` whose bit has the value. Reads the blocks from
/// that of `from` to that of the index, or to the last one that `len` bits need, at most once each.
/// Reads no block if `from` is at or past `len`. vob 4.0.1 has no public call like it.
#[inline(always)]
pub fn next_index<T: BitBlock>(
    blocks: &mut Blocks<'_, T>,
    value: bool,
    len: usize,
    from: usize,
) -> Option<usize>
    requires { need len T.BITS ≤ length blocks.old.items }
    ensures found { MatchOption result
        (HasNoBit T.BITS (map T.number blocks.old.items) value from len)
        (IsFirstBit T.BITS (map T.number blocks.old.items) value from len) }
    ensures reads { blocks.new.reads ≤ blocks.old.reads
        + (unwrap_or (option_map (λ i. i / T.BITS + 1) result) (need len T.BITS) - from / T.BITS) }
    ensures items { blocks.new.items ≡ blocks.old.items }
{
    if from >= len {
        return None;
    }
    let block = blocks.block(from / T::BITS);
    // If most bits have the value, the next index after a found one is mostly `from` itself. A
    // processor predicts this branch, and so waits for no count of zeros.
    if block.bit(from % T::BITS) == value {
        return Some(from);
    }
    let index = from;
    let next = next_in_hand(blocks, value, len, Found { index, block });
    if next.index < len {
        Some(next.index)
    } else {
        None
    }
}

/// Returns the last index up to `upto` and below `len` whose bit has the value. Reads the blocks from
/// that of the greatest index down to that of the index, or to the first one, at most once each. Reads
/// no block if `len` is 0. vob 4.0.1 has no public call like it.
#[inline(always)]
pub fn previous_index<T: BitBlock>(
    blocks: &mut Blocks<'_, T>,
    value: bool,
    len: usize,
    upto: usize,
) -> Option<usize>
    requires { need len T.BITS ≤ length blocks.old.items }
    ensures found { MatchOption result
        (HasNoBit T.BITS (map T.number blocks.old.items) value 0 (min (upto + 1) len))
        (IsLastBit T.BITS (map T.number blocks.old.items) value (min (upto + 1) len)) }
    ensures reads { blocks.new.reads ≤ blocks.old.reads
        + (need (min (upto + 1) len) T.BITS - unwrap_or (option_map (λ i. i / T.BITS) result) 0) }
    ensures items { blocks.new.items ≡ blocks.old.items }
{
    if len == 0 {
        return None;
    }
    let index = upto.min(len - 1);
    let block = blocks.block(index / T::BITS);
    let end = previous_in_hand(blocks, value, 0, Found { index, block }).index;
    if end > 0 { Some(end - 1) } else { None }
}
