//! Copying: bits of some blocks written over those of others. Each block that is written takes its
//! bits from two neighbours, where the offsets lie apart.
ghost use Rattle.std.specs.Prelude.{◌≡◌, ℕ, ◌+◌, ◌*◌, ◌/◌, ◌%◌, ◌^◌, ◌<◌, ◌≤◌, List, [], ◌∷◌, All, map, length, slice_index_or};
ghost use Rattle.vob_block.specs.Places.{HasPlaces};
ghost use Rattle.vob_block.specs.Packing.{bit_at};
ghost use Rattle.vob_store.specs.Copying.{AreCopied};

use crate::mask::spliced;
use vob_block::{BitBlock, Blocks};

/// What is copied from index `start` on: `count` bits, or bits of `count` whole blocks.
#[derive(Clone, Copy)]
pub struct Stretch {
    pub start: usize,
    pub count: usize,
}

/// Returns block `k`, or an empty one if there is none. It is read once at most.
fn read_or_zero<T: BitBlock>(other: &mut Blocks<'_, T>, k: usize) -> T
    ensures block { T.number result ≡ slice_index_or (map T.number other.old.items) k 0 }
    ensures items { other.new.items ≡ other.old.items }
    ensures reads { other.new.reads ≤ other.old.reads + 1 }
{
    if k < other.len() {
        other.block(k)
    } else {
        T::ZERO
    }
}

/// A block of the bits from index `from` on, false past the end. Two blocks are read at most.
pub fn bits_at<T: BitBlock>(other: &mut Blocks<'_, T>, from: usize) -> T
    ensures places { HasPlaces T.BITS (T.number result)
        (λ j. bit_at (map T.number other.old.items) T.BITS (from + j)) }
    ensures items { other.new.items ≡ other.old.items }
    ensures reads { other.new.reads ≤ other.old.reads + 2 }
{
    let width = T::BITS;
    let k = from / width;
    let places = from % width;
    let low = read_or_zero(other, k);
    if places == 0 {
        return low;
    }
    low.funnel_down(read_or_zero(other, k + 1), places)
}

/// Writes the first `count` places of `bits` over those from index `at` on, in one block.
pub(crate) fn write_part<T: BitBlock>(own: &mut [T], at: usize, bits: T, count: usize)
    requires one { at % T.BITS + count ≤ T.BITS }
    requires inside { at + count ≤ length own.old * T.BITS }
    ensures { (others : List ℕ) (start : ℕ)
        → HasPlaces T.BITS (T.number bits) (λ j. bit_at others T.BITS (start + j))
        → AreCopied T.BITS at start count (map T.number own.old) others (map T.number own.new) }
{
    if count == 0 {
        return;
    }
    let width = T::BITS;
    let k = at / width;
    let used = at % width;
    let block = own[k];
    own[k] = spliced(spliced(block, bits.up(used), used), block, used + count);
}

/// Writes the first `count` places of `word` over the bits from index `at` on, in two blocks at most.
pub fn write_bits<T: BitBlock>(own: &mut [T], at: usize, word: T, count: usize)
    requires few { count ≤ T.BITS }
    requires inside { at + count ≤ length own.old * T.BITS }
    requires fits { at + count ≤ usize.MAX }
    ensures copied { AreCopied T.BITS at 0 count (map T.number own.old) (T.number word ∷ [])
        (map T.number own.new) }
    ensures within { All (λ n. n < 2 ^ T.BITS) (map T.number own.new) }
{
    let width = T::BITS;
    let head = count.min(width - at % width);
    write_part(own, at, word, head);
    if head < count {
        write_part(own, at + head, word.down(head), count - head);
    }
    T::all_in_range(own);
}

/// Writes the bits of a stretch of `other` over those from `at` on, in one block.
fn copy_part<T: BitBlock>(own: &mut [T], at: usize, other: &mut Blocks<'_, T>, cut: Stretch)
    requires one { at % T.BITS + cut.count ≤ T.BITS }
    requires inside { at + cut.count ≤ length own.old * T.BITS }
    ensures copied { AreCopied T.BITS at cut.start cut.count (map T.number own.old)
        (map T.number other.old.items) (map T.number own.new) }
    ensures items { other.new.items ≡ other.old.items }
    ensures reads { other.new.reads ≤ other.old.reads + 2 }
{
    write_part(own, at, bits_at(other, cut.start), cut.count);
}

/// Stores the blocks of a stretch of `other`, from block `first` on.
fn copy_whole<T: BitBlock>(own: &mut [T], first: usize, other: &mut Blocks<'_, T>, blocks: Stretch)
    requires inside { first + blocks.count ≤ length own.old }
    requires fits { blocks.start + blocks.count * T.BITS ≤ usize.MAX }
    ensures copied { AreCopied T.BITS (first * T.BITS) blocks.start (blocks.count * T.BITS)
        (map T.number own.old) (map T.number other.old.items) (map T.number own.new) }
    ensures items { other.new.items ≡ other.old.items }
    ensures reads { other.new.reads ≤ other.old.reads + 2 * blocks.count }
{
    let width = T::BITS;
    for k in 0..blocks.count {
        own[first + k] = bits_at(other, blocks.start + k * width);
    }
}

/// Writes the bits of a stretch of `other` over those from `at` on: to the end of a block, then
/// whole blocks, then the rest. Two blocks are read at most for each written.
pub fn copy_bits<T: BitBlock>(own: &mut [T], at: usize, other: &mut Blocks<'_, T>, cut: Stretch)
    requires inside { at + cut.count ≤ length own.old * T.BITS }
    requires own { at + cut.count ≤ usize.MAX }
    requires other { cut.start + cut.count ≤ usize.MAX }
    ensures copied { AreCopied T.BITS at cut.start cut.count (map T.number own.old)
        (map T.number other.old.items) (map T.number own.new) }
    ensures within { All (λ n. n < 2 ^ T.BITS) (map T.number own.new) }
    ensures items { other.new.items ≡ other.old.items }
    ensures reads { other.new.reads ≤ other.old.reads + 2 * (cut.count / T.BITS + 2) }
{
    let width = T::BITS;
    let Stretch { start, count } = cut;
    let head = count.min(width - at % width);
    copy_part(own, at, other, Stretch { start, count: head });
    let whole = (count - head) / width;
    let blocks = Stretch {
        start: start + head,
        count: whole,
    };
    copy_whole(own, (at + head) / width, other, blocks);
    let done = head + whole * width;
    let rest = Stretch {
        start: start + done,
        count: count - done,
    };
    copy_part(own, at + done, other, rest);
    T::all_in_range(own);
}
