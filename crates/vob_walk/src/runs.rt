//! The walk over the runs of some bits, which are their longest stretches of one value, from both ends.
//! vob 4.0.1 has no such walk.
ghost use Rattle.std.specs.Prelude.{◌≡◌, ◌<◌, ◌≤◌, ◌+◌, ◌/◌, if◌then◌else◌, length, map, slice_index_or};
ghost use Rattle.std.specs.Prelude.{IsTrue};
ghost use Rattle.std.specs.Iterator.{item_count};
ghost use Rattle.std.specs.Iterator.Runs.{YieldsInOrder, YieldsInReverse};
ghost use Rattle.std.specs.declared.ops.Bound.TheVariants.{Included, Excluded};
ghost use Rattle.vob_block.specs.Packing.{need, unpacking};
ghost use Rattle.vob_walk.specs.Matches.{blocks_met};
ghost use Rattle.vob_walk.specs.Runs.{AreRuns, GivesRun, runs_of};
ghost use Rattle.vob_walk.specs.RunSteps.{seen, unread_from};
ghost use Rattle.vob_walk.specs.RunsBack.{GivesLastRun};

use crate::next::{Found, block_in_hand, next_in_hand, previous_in_hand};
use std::iter::FusedIterator;
use std::marker::Model;
use std::ops::Range;
use vob_block::{Blocks, Kernel};

/// The runs of some bits, in order and from both ends. A contract sees the runs still to come, the bits
/// whose runs they are, and the end of the last run that `next` returned. It also sees how many blocks
/// are read, are unread and may be read again.
#[derive(Drop)]
pub struct Runs<'a, T: Kernel> {
    blocks: Blocks<'a, T>,
    // The bits of this value make the runs.
    value: bool,
    // The indices from `first` to below `len` are walked over: `len` is the start of the run that the
    // back gave last, once it gave one.
    first: usize,
    len: usize,
    // 0, or the end of the run that the front gave last.
    at: usize,
    // Where the search for the next run begins: `at` or `first`, or the end if no run is left.
    from: usize,
    // The block of index `from`, unless that is 0 or the end.
    hand: T,
    // Whether the back has a block in hand: if so, `back` is that of index `len - 1`.
    ready: bool,
    back: T,
}

impl<'a, T: Kernel> Model for Runs<'a, T> {
    ghost use Rattle.std.specs.Prelude.{if◌then◌else◌, map};
    ghost use Rattle.vob_block.specs.Packing.{unpacking};
    ghost use Rattle.vob_walk.specs.RunSteps.{IsOnRuns, seen, unread_from};
    ghost use Rattle.vob_walk.specs.Runs.{RunWalk, runs_from};

    ghost Value = { RunWalk };

    ghost view = { λ runs. record {
      rest = runs_from (seen runs.value runs.first
          (unpacking runs.len (map T.number runs.blocks.items) T.BITS)) runs.at;
      bits = seen runs.value runs.first
          (unpacking runs.len (map T.number runs.blocks.items) T.BITS);
      at = runs.at;
      reads = runs.blocks.reads;
      left = unread_from T.BITS runs.len runs.from;
      again = if runs.ready then 0 else 1;
    } };

    ghost invariant = { λ runs. IsOnRuns T.BITS (map T.number runs.blocks.items)
        (seen runs.value runs.first
        (unpacking runs.len (map T.number runs.blocks.items) T.BITS))
        runs.len runs.first runs.at runs.from (T.number runs.hand) runs.ready
        (T.number runs.back) };
}

impl<'a, T: Kernel> Runs<'a, T> {
    /// Makes a walk over the runs of the bits with a value, from index `start` to below `stop`, in some
    /// blocks. A run that goes on past these indices is cut there. If `start` is above 0 and below
    /// `stop`, its block is read at once.
    pub fn over(blocks: Blocks<'a, T>, value: bool, start: usize, stop: usize) -> Runs<'a, T>
        requires within { start ≤ stop }
        requires count { need stop T.BITS ≤ length blocks.items }
        ensures bits { result.bits
            ≡ seen value start (unpacking stop (map T.number blocks.entry.items) T.BITS) }
        ensures rest { result.rest ≡ runs_of result.bits }
        ensures each { AreRuns result.bits result.rest }
        ensures runs { YieldsInOrder GivesRun (λ walk. walk.rest) }
        ensures runs_back { YieldsInReverse GivesLastRun (λ walk. walk.rest) }
        ensures start { result.at ≡ 0 }
        ensures again { result.again ≡ 1 }
        ensures reads { result.reads + result.left ≡ blocks.entry.reads
            + blocks_met (Included start) (Excluded stop) stop T.BITS }
        ensures unread { start ≡ 0 → (result.reads ≡ blocks.entry.reads)
            × (result.left ≡ need stop T.BITS) }
    {
        let mut blocks = blocks;
        let hand = hand_at(&mut blocks, start, stop);
        Runs {
            blocks,
            value,
            first: start,
            len: stop,
            at: 0,
            from: start,
            hand,
            ready: false,
            back: T::ZERO,
        }
    }
}

/// Returns the block of index `start`, at which a walk begins. If that is 0, or no index is below
/// `stop`, reads none.
#[inline(always)]
fn hand_at<T: Kernel>(blocks: &mut Blocks<'_, T>, start: usize, stop: usize) -> T
    requires within { start ≤ stop }
    requires count { need stop T.BITS ≤ length blocks.old.items }
    ensures hand { 0 < start → start < stop → T.number result
        ≡ slice_index_or (map T.number blocks.old.items) (start / T.BITS) 0 }
    ensures reads { blocks.new.reads + unread_from T.BITS stop start ≡ blocks.old.reads
        + blocks_met (Included start) (Excluded stop) stop T.BITS }
    ensures unread { start ≡ 0 → blocks.new.reads ≡ blocks.old.reads }
    ensures items { blocks.new.items ≡ blocks.old.items }
{
    if 0 < start && start < stop {
        blocks.block(start / T::BITS)
    } else {
        T::ZERO
    }
}

/// Returns the block of index `index`, at which the back of a walk goes on. If the back is ready, that
/// is `back`, which isn't read again.
#[inline(always)]
fn block_at_back<T: Kernel>(blocks: &mut Blocks<'_, T>, ready: bool, back: T, index: usize) -> T
    requires count { index / T.BITS < length blocks.old.items }
    requires back { IsTrue ready → T.number back
        ≡ slice_index_or (map T.number blocks.old.items) (index / T.BITS) 0 }
    ensures block { T.number result
        ≡ slice_index_or (map T.number blocks.old.items) (index / T.BITS) 0 }
    ensures reads { blocks.new.reads ≡ blocks.old.reads + (if ready then 0 else 1) }
    ensures items { blocks.new.items ≡ blocks.old.items }
{
    if ready {
        back
    } else {
        blocks.block(index / T::BITS)
    }
}

impl<'a, T: Kernel> Iterator for Runs<'a, T> {
    type Item = Range<usize>;

    ghost next_gives = { GivesRun };

    ghost remaining = { item_count (λ walk. walk.rest) };

    #[inline(always)]
    fn next(&mut self) -> Option<Range<usize>> {
        if self.from == self.len {
            return None;
        }
        let index = self.from;
        let value = self.value;
        let block = block_in_hand(&mut self.blocks, self.hand, index);
        let start = next_in_hand(&mut self.blocks, value, self.len, Found { index, block });
        if start.index == self.len {
            self.from = self.len;
            return None;
        }
        let stop = next_in_hand(&mut self.blocks, !value, self.len, start);
        self.at = stop.index;
        self.from = stop.index;
        self.hand = stop.block;
        Some(start.index..stop.index)
    }
}

impl<'a, T: Kernel> DoubleEndedIterator for Runs<'a, T> {
    ghost next_back_gives = { GivesLastRun };

    /// Returns the last of the runs that are left. It overlaps no run that either end returned, and is
    /// never a part of a run. All calls of both ends together read one block again at most.
    #[inline(always)]
    fn next_back(&mut self) -> Option<Range<usize>> {
        if self.from == self.len {
            return None;
        }
        let value = self.value;
        let index = self.len - 1;
        let block = block_at_back(&mut self.blocks, self.ready, self.back, index);
        self.ready = true;
        let end = previous_in_hand(&mut self.blocks, value, self.from, Found { index, block });
        if end.index == self.from {
            self.from = self.len;
            return None;
        }
        let index = end.index - 1;
        let block = end.block;
        let start = previous_in_hand(&mut self.blocks, !value, self.from, Found { index, block });
        self.len = start.index;
        self.back = start.block;
        Some(start.index..end.index)
    }
}

impl<'a, T: Kernel> FusedIterator for Runs<'a, T> {}
