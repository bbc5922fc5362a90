//! Counts of bits by whole blocks: only the first and the last block of a window are masked.
ghost use Rattle.std.specs.Prelude.{◌≡◌, ◌+◌, ◌-◌, ◌*◌, ◌<◌, ◌≤◌, length, map, max, min};
ghost use Rattle.std.specs.declared.ops.Bound.TheVariants.{Included, Excluded};
ghost use Rattle.vob_block.specs.Packing.{need};
ghost use Rattle.vob_walk.specs.Matches.{blocks_met};
ghost use Rattle.vob_walk.specs.Count.{ones_between};
ghost use Rattle.vob_walk.specs.Cursor.{unread};

use crate::range::blocks_of;
use crate::source::Source;
use crate::window::{Window, masked};
use vob_block::{BitBlock, Blocks, Kernel};

/// Counts the set bits from index `start` to below `stop`. Reads each block that holds one of these
/// indices once, and no other. vob 4.0.1 has no public call like it.
pub fn count_ones_in<T: Kernel>(blocks: &mut Blocks<'_, T>, start: usize, stop: usize) -> usize
    requires order { start ≤ stop }
    requires enough { need stop T.BITS ≤ length blocks.old.items }
    ensures ones { result ≡ ones_between T.BITS (map T.number blocks.old.items) start stop }
    ensures most { result ≤ stop - start }
    ensures reads { blocks.new.reads ≡ blocks.old.reads + blocks_met (Included start) (Excluded stop) stop T.BITS }
    ensures items { blocks.new.items ≡ blocks.old.items }
{
    count_ones(blocks, start, stop)
}

/// The same, for blocks without arithmetic.
pub(crate) fn count_ones<T: BitBlock, S: Source<T>>(
    blocks: &mut S,
    start: usize,
    stop: usize,
) -> usize
    requires order { start ≤ stop }
    requires enough { need stop T.BITS ≤ length (S.reading blocks.old).items }
    ensures ones { result ≡ ones_between T.BITS (map T.number (S.reading blocks.old).items)
        start stop }
    ensures reads { (S.reading blocks.new).reads ≡ (S.reading blocks.old).reads
        + blocks_met (Included start) (Excluded stop) stop T.BITS }
    ensures items { (S.reading blocks.new).items ≡ (S.reading blocks.old).items }
{
    let (first, end) = blocks_of::<T>(start, stop);
    if first == end {
        return 0;
    }
    let last = end - 1;
    let head = ones_in_block(blocks, first, start, stop);
    if first == last {
        return head;
    }
    let middle = ones_in_blocks(blocks, first + 1, last);
    let tail = ones_in_block(blocks, last, start, stop);
    head + middle + tail
}

/// How many places of block `k` are true from index `start` to below `stop`, some of which it holds.
fn ones_in_block<T: BitBlock, S: Source<T>>(
    blocks: &mut S,
    k: usize,
    start: usize,
    stop: usize,
) -> usize
    requires count { k < length (S.reading blocks.old).items }
    requires order { start ≤ stop }
    requires begins { start ≤ k * T.BITS + T.BITS }
    requires ends { k * T.BITS < stop }
    ensures ones { result ≡ ones_between T.BITS (map T.number (S.reading blocks.old).items)
        (max start (k * T.BITS)) (min stop (k * T.BITS + T.BITS)) }
    ensures reads { (S.reading blocks.new).reads ≡ (S.reading blocks.old).reads + 1 }
    ensures items { (S.reading blocks.new).items ≡ (S.reading blocks.old).items }
{
    let window = Window {
        value: true,
        start,
        stop,
    };
    masked(blocks.read(k), k, window).ones_in()
}

/// How many places are true in the blocks from `start` to below `end`. Reads each of them once.
fn ones_in_blocks<T: BitBlock, S: Source<T>>(blocks: &mut S, start: usize, end: usize) -> usize
    requires order { start ≤ end }
    requires count { end ≤ length (S.reading blocks.old).items }
    requires fits { end * T.BITS ≤ usize.MAX }
    ensures ones { result ≡ ones_between T.BITS (map T.number (S.reading blocks.old).items)
        (start * T.BITS) (end * T.BITS) }
    ensures reads { (S.reading blocks.new).reads ≡ (S.reading blocks.old).reads + (end - start) }
    ensures items { (S.reading blocks.new).items ≡ (S.reading blocks.old).items }
{
    let half = (end - start) / 2;
    let ones = ones_in_halves(blocks, start, half);
    let last = start + half + half;
    if last < end {
        ones + blocks.read(last).ones_in()
    } else {
        ones
    }
}

/// Counts the true places of twice `half` blocks from `start` on, and reads each block once. Both
/// halves are read side by side, so that no count waits for the one before. A compiler still makes it
/// a loop over vectors, if the processor can count in them.
#[inline(always)]
fn ones_in_halves<T: BitBlock, S: Source<T>>(blocks: &mut S, start: usize, half: usize) -> usize
    requires count { start + half + half ≤ length (S.reading blocks.old).items }
    requires fits { (start + half + half) * T.BITS ≤ usize.MAX }
    ensures ones { result ≡ ones_between T.BITS (map T.number (S.reading blocks.old).items)
        (start * T.BITS) ((start + half + half) * T.BITS) }
    ensures reads { (S.reading blocks.new).reads ≡ (S.reading blocks.old).reads + half + half }
    ensures items { (S.reading blocks.new).items ≡ (S.reading blocks.old).items }
{
    let mut low = 0;
    let mut high = 0;
    for k in start..start + half {
        low += blocks.read(k).ones_in();
        high += blocks.read(k + half).ones_in();
    }
    low + high
}

/// How many indices of the window stand in the blocks from `next` to below `end`.
pub(crate) fn count_between<T: BitBlock, S: Source<T>>(
    blocks: &mut S,
    window: Window,
    next: usize,
    end: usize,
) -> usize
    requires order { next ≤ end }
    requires count { end ≤ length (S.reading blocks.old).items }
    ensures { result ≡ length (unread T.BITS (map T.number (S.reading blocks.old).items)
        window.value window.start window.stop next end) }
{
    // Where a block ends past the greatest index, the window ends before it.
    let below = window.stop.min(end.saturating_mul(T::BITS));
    let from = window.start.max(next.saturating_mul(T::BITS)).min(below);
    let ones = count_ones(blocks, from, below);
    if window.value {
        ones
    } else {
        below - from - ones
    }
}
