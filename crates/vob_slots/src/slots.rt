//! Slots that are free or taken: a user of bits with summaries, of `next_unset`, of ranges, and of walks.
ghost use Rattle.std.specs.Prelude.{◌≡◌, ◌≢◌, ◌↔◌, ℕ, ◌+◌, ◌<◌, ◌≤◌, ◌++◌, true, false, length, replicate, slice_set, IsTrue, MatchOption, IsOk, IfOk, OnOk, OnErr, Err};
ghost use Rattle.std.specs.Iterator.Runs.{YieldsInOrder, YieldsInReverse};
ghost use Rattle.std.specs.declared.ops.Bound.TheVariants.{Unbounded};
ghost use Rattle.vob.specs.Bits.{count_of};
ghost use Rattle.vob.specs.Ranges.{replaced};
ghost use Rattle.vob.specs.Room.{HasNoRoom, IsFirstRoom, IsRoom};
ghost use Rattle.vob.specs.Sets.{IsBit, IsNext};
ghost use Rattle.vob_block.specs.Packing.{item};
ghost use Rattle.vob_walk.specs.Matches.{matches};
ghost use Rattle.vob_walk.specs.Walk.{GivesFirst, GivesLast};

use crate::search::Search;
use crate::summary::Summarized;
use std::alloc::{AllocError, Global};
use std::marker::Model;
use vob::{IterSetBits, IterUnsetBits, Vob, VobError};

/// Numbered slots, each free or taken. Contracts see the list of whether each is taken.
#[derive(Drop)]
pub struct Slots {
    taken: Summarized,
    free: usize,
    // No `row` slots in a row are free from a slot below `room` on.
    row: usize,
    room: usize,
}

/// Returns the first slot from which `count` in a row are free. No such row may begin below `from`.
fn room_from(taken: &Vob, from: usize, count: usize) -> Option<usize>
    requires some { 0 < count }
    requires below { (j : ℕ) → IsRoom count taken.now.bits j → from ≤ j }
    ensures { MatchOption result (HasNoRoom count taken.now.bits) (IsFirstRoom count taken.now.bits) }
{
    let mut at = from;
    'runs: while let Some(start) = taken.next_unset(at) {
        let end = taken.next_set(start).unwrap_or(taken.len());
        if end - start >= count {
            return Some(start);
        }
        at = end;
    }
    None
}

impl Model for Slots {
    ghost use Rattle.std.specs.Prelude.{Bool, List};
    ghost use Rattle.vob_slots.specs.Slots.{AreKept};

    ghost Value = { List Bool };

    ghost view = { λ slots. slots.taken };

    ghost invariant = { λ slots. AreKept slots.taken slots.free slots.row slots.room };
}

impl Slots {
    /// Makes `count` free slots. Fails if memory runs out.
    pub fn new(alloc: Global, count: usize) -> Result<Slots, AllocError>
        ensures { IfOk result (λ slots. slots ≡ replicate count false) }
    {
        let taken = Summarized::new(alloc, count)?;
        Ok(Slots {
            taken,
            free: count,
            row: 1,
            room: 0,
        })
    }

    /// Returns how many slots there are.
    pub fn len(&self) -> usize
        ensures { result ≡ length self.now }
    {
        self.taken.len()
    }

    /// Returns how many slots are free.
    pub fn free_count(&self) -> usize
        ensures { result ≡ count_of false self.now }
    {
        self.free
    }

    /// Returns whether a slot is taken. No slot past the last one is.
    pub fn is_taken(&self, slot: usize) -> bool
        ensures { result ≡ item self.now slot }
    {
        slot < self.taken.len() && self.taken.bits().get_unchecked(slot)
    }

    /// Returns a search for the first free slot, whose reads contracts count: see `Search::first_unset`.
    pub fn search(&self) -> Search<'_>
        ensures slots { result.bits ≡ self.now }
        ensures reads { result.reads ≡ 0 }
    {
        self.taken.search()
    }

    /// Takes the first free slot and returns it, or `None` if none is free. It is found by `search`.
    pub fn alloc(&mut self) -> Option<usize>
        ensures first { IsNext false self.old 0 result }
        ensures taken { MatchOption result (self.new ≡ self.old)
            (λ slot. self.new ≡ slice_set self.old slot true) }
    {
        let Some(slot) = self.taken.first_unset() else {
            return None;
        };
        self.taken.set(slot, true);
        self.free -= 1;
        Some(slot)
    }

    /// Takes a slot, and returns whether it was free. No slot past the last one is.
    pub fn take(&mut self, slot: usize) -> bool
        ensures slots { self.new ≡ slice_set self.old slot true }
        ensures free { IsTrue result ↔ IsBit false self.old slot }
    {
        if slot >= self.taken.len() || !self.taken.set(slot, true) {
            return false;
        }
        self.free -= 1;
        true
    }

    /// Takes a slot back, and returns whether it was taken. No slot past the last one is.
    pub fn free(&mut self, slot: usize) -> bool
        ensures slots { self.new ≡ slice_set self.old slot false }
        ensures taken { result ≡ item self.old slot }
    {
        if slot >= self.taken.len() || !self.taken.set(slot, false) {
            return false;
        }
        self.free += 1;
        self.room = self.room.min(slot.saturating_sub(self.row));
        true
    }

    /// Takes the first `count` slots in a row that are all free, and returns the lowest of them, or
    /// `None` if there is no such row. If `count` is 0, it takes none and returns 0. The search begins
    /// at the first free slot, or where the last one ended if that was for no more slots. Slots that
    /// are given back or added since move that place down.
    pub fn alloc_run(&mut self, count: usize) -> Option<usize>
        ensures first { MatchOption result (HasNoRoom count self.old) (IsFirstRoom count self.old) }
        ensures taken { MatchOption result (self.new ≡ self.old)
            (λ start. self.new ≡ replaced start (start + count) (replicate count true) self.old) }
    {
        if count == 0 {
            return Some(0);
        }
        let len = self.taken.len();
        let start = room_from(self.taken.bits(), self.least_room(count), count);
        self.row = count;
        let Some(start) = start else {
            self.room = len;
            return None;
        };
        self.taken.set_range(start, start + count, true);
        self.free -= count;
        self.room = start + count;
        Some(start)
    }

    /// Returns a slot below which no `count` slots in a row begin that are free.
    fn least_room(&self, count: usize) -> usize
        requires { 0 < count }
        ensures { (j : ℕ) → IsRoom count self.now j → result ≤ j }
    {
        let first = self.taken.first_unset().unwrap_or(self.taken.len());
        if count < self.row {
            return first;
        }
        first.max(self.room)
    }

    /// Takes `count` slots from `start` on back, whether or not they are taken. So many must be
    /// there.
    pub fn free_run(&mut self, start: usize, count: usize)
        requires { start + count ≤ length self.old }
        ensures { self.new ≡ replaced start (start + count) (replicate count false) self.old }
    {
        // The length is in the range of its type: a proof knows it from this read.
        let _len = self.taken.len();
        let end = start + count;
        let given = self.taken.bits().iter_set_bits(start..end).count();
        self.taken.set_range(start, end, false);
        self.free += given;
        self.room = self.room.min(start.saturating_sub(self.row));
    }

    /// Returns a walk over the numbers of the taken slots, in rising order.
    pub fn taken(&self) -> IterSetBits<'_, usize>
        ensures rest { result.rest ≡ matches self.now true Unbounded Unbounded }
        ensures runs { YieldsInOrder GivesFirst (λ walk. walk.rest) }
        ensures runs_back { YieldsInReverse GivesLast (λ walk. walk.rest) }
    {
        self.taken.bits().iter_set_bits(..)
    }

    /// Returns a walk over the numbers of the free slots, in rising order.
    pub fn free_slots(&self) -> IterUnsetBits<'_, usize>
        ensures rest { result.rest ≡ matches self.now false Unbounded Unbounded }
        ensures runs { YieldsInOrder GivesFirst (λ walk. walk.rest) }
        ensures runs_back { YieldsInReverse GivesLast (λ walk. walk.rest) }
    {
        self.taken.bits().iter_unset_bits(..)
    }

    /// Adds free slots after the others. Fails first if there would be more than a length can count, and
    /// then if memory runs out; the slots stay.
    pub fn grow(&mut self, more: usize) -> Result<(), VobError>
        ensures ok { OnOk result (self.new ≡ self.old ++ replicate more false) }
        ensures err { OnErr result (self.new ≡ self.old) }
        ensures too_long { (result ≡ Err VobError.TooLong) ↔ (usize.MAX < length self.old + more) }
        ensures past_end { result ≢ Err VobError.PastEnd }
        ensures nothing { more ≡ 0 → IsOk result }
    {
        let len = self.taken.len();
        if more > usize::MAX - len {
            return Err(VobError::TooLong);
        }
        self.taken.grow(more)?;
        self.free += more;
        self.room = self.room.min(len.saturating_sub(self.row));
        Ok(())
    }
}
