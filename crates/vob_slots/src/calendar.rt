//! Calendars of slots of time, each free or booked: a user of `set_range` and `runs`.
ghost use Rattle.std.specs.Prelude.{◌≡◌, ◌↔◌, false, true, filter, length, replicate, IfOk, IsTrue};
ghost use Rattle.std.specs.declared.ops.Bound.TheVariants.{Included, Excluded};
ghost use Rattle.vob.specs.Ranges.{IsChangedWithin};
ghost use Rattle.vob_walk.specs.Runs.{runs_of};
ghost use Rattle.vob_slots.specs.Calendar.{AreCommon, AreFree, is_long};

use std::alloc::{AllocError, Global};
use std::marker::Model;
use std::ops::Range;
use vob::Vob;
use vob_laws::sets::runs_are_maximal;

/// The slots of a day or a week, in order. Contracts see the list of whether each is booked.
#[derive(Drop)]
pub struct Calendar {
    booked: Vob,
}

impl Model for Calendar {
    ghost use Rattle.std.specs.Prelude.{Bool, List};

    ghost Value = { List Bool };

    ghost view = { λ calendar. calendar.booked.bits };
}

impl Calendar {
    /// Returns a calendar of `slots` free slots. Fails if memory runs out.
    pub fn new(alloc: Global, slots: usize) -> Result<Calendar, AllocError>
        ensures { IfOk result (λ calendar. calendar ≡ replicate slots false) }
    {
        let booked = Vob::from_elem(alloc, false, slots)?;
        Ok(Calendar { booked })
    }

    /// Returns whether each slot from `start` to below `end` is there and free.
    pub fn is_free(&self, start: usize, end: usize) -> bool
        ensures { IsTrue result ↔ AreFree self.now start end }
    {
        if start >= end {
            return true;
        }
        end <= self.booked.len() && !self.booked.next_set(start).is_some_and(|slot| slot < end)
    }

    /// Books the slots from `start` to below `end`, if each is free, and returns whether they were.
    pub fn book(&mut self, start: usize, end: usize) -> bool
        ensures free { IsTrue result ↔ AreFree self.old start end }
        ensures booked { IsTrue result → IsChangedWithin (λ _. true) (Included start) (Excluded end)
            self.old self.new }
        ensures refused { result ≡ false → self.new ≡ self.old }
        ensures len { length self.new ≡ length self.old }
    {
        if !self.is_free(start, end) {
            return false;
        }
        self.booked.set_range(start..end, true);
        true
    }

    /// Frees the slots from `start` to below `end`, up to the last one.
    pub fn free(&mut self, start: usize, end: usize)
        ensures { IsChangedWithin (λ _. false) (Included start) (Excluded end) self.old self.new }
    {
        self.booked.set_range(start..end, false);
    }
}

/// Returns the runs of at least `least` set bits.
fn long_runs(alloc: Global, free: &Vob, least: usize) -> Result<Vec<Range<usize>>, AllocError>
    ensures { IfOk result (λ runs. runs.items ≡ filter (is_long least) (runs_of free.now.bits)) }
{
    free.runs()
        .filter(|run| least <= run.end.saturating_sub(run.start))
        .collect(alloc)
}

/// Returns the longest stretches that are free in both calendars and have at least `least` slots, in
/// order. Fails if memory runs out.
pub fn common_stretches(
    alloc: Global,
    first: &Calendar,
    second: &Calendar,
    least: usize,
) -> Result<Vec<Range<usize>>, AllocError>
    requires { length first.now ≡ length second.now }
    ensures { IfOk result (λ stretches. AreCommon first.now second.now least stretches.items) }
{
    let mut free = first.booked.clone()?;
    free.or(&second.booked);
    free.negate();
    runs_are_maximal();
    long_runs(alloc, &free, least)
}
