//! The runs of a Vob, which are its longest stretches of set or unset bits; and the first stretch of
//! some length. vob 4.0.1 has none of these calls.
ghost use Rattle.std.specs.Prelude.{◌≡◌, ◌≤◌, ◌+◌, length, map, not, MatchOption};
ghost use Rattle.std.specs.Iterator.Runs.{YieldsInOrder, YieldsInReverse};
ghost use Rattle.vob_block.specs.Packing.{need};
ghost use Rattle.vob_walk.specs.Matches.{ForSomeRange};
ghost use Rattle.vob_walk.specs.Runs.{AreRuns, GivesRun, IsOverRange, runs_of};
ghost use Rattle.vob_walk.specs.RunsBack.{GivesLastRun};
ghost use Rattle.vob.specs.Room.{HasNoRoom, IsFirstRoom};

use crate::vob::Vob;
use std::ops::RangeBounds;
use vob_block::Kernel;
pub use vob_walk::Runs;
use vob_walk::range::cut_range;

impl<T: Kernel> Vob<T> {
    /// Returns a walk over the runs of set bits, in order: each as the range of its indices, as
    /// long as it can be.
    ///
    /// ```
    /// let vob = vob::vob!(alloc; true, false, true, true)?;
    /// let mut runs = vob.runs();
    /// assert_eq!(rt; runs.next(), Some(0..1));
    /// assert_eq!(rt; runs.next(), Some(2..4));
    /// assert_eq!(rt; runs.next(), None);
    /// ```
    pub fn runs(&self) -> Runs<'_, T>
        ensures rest { result.rest ≡ runs_of self.now.bits }
        ensures each { AreRuns self.now.bits result.rest }
        ensures longest { length result.rest ≤ usize.MAX }
        ensures runs { YieldsInOrder GivesRun (λ walk. walk.rest) }
        ensures runs_back { YieldsInReverse GivesLastRun (λ walk. walk.rest) }
        ensures bits { result.bits ≡ self.now.bits }
        ensures start { result.at ≡ 0 }
        ensures again { result.again ≡ 1 }
        ensures reads { result.reads ≡ 0 }
        ensures left { result.left ≡ need (length self.now.bits) T.BITS }
    {
        Runs::over(self.blocks(), true, 0, self.len())
    }

    /// Returns a walk over the runs of unset bits, in order: each as the range of its indices, as
    /// long as it can be. No run goes on past the length.
    ///
    /// ```
    /// let vob = vob::vob!(alloc; true, false, true, false, false)?;
    /// let mut runs = vob.unset_runs();
    /// assert_eq!(rt; runs.next(), Some(1..2));
    /// assert_eq!(rt; runs.next(), Some(3..5));
    /// assert_eq!(rt; runs.next(), None);
    /// ```
    pub fn unset_runs(&self) -> Runs<'_, T>
        ensures rest { result.rest ≡ runs_of (map not self.now.bits) }
        ensures each { AreRuns (map not self.now.bits) result.rest }
        ensures longest { length result.rest ≤ usize.MAX }
        ensures runs { YieldsInOrder GivesRun (λ walk. walk.rest) }
        ensures runs_back { YieldsInReverse GivesLastRun (λ walk. walk.rest) }
        ensures bits { result.bits ≡ map not self.now.bits }
        ensures start { result.at ≡ 0 }
        ensures again { result.again ≡ 1 }
        ensures reads { result.reads ≡ 0 }
        ensures left { result.left ≡ need (length self.now.bits) T.BITS }
    {
        Runs::over(self.blocks(), false, 0, self.len())
    }

    /// Returns a walk over the runs of set bits within a range, in order. A run that goes on past the
    /// range is cut there. Every pair of bounds is accepted, and the range is cut at the length. Each
    /// block that holds an index of the range is read at most once, but one twice if both ends are
    /// pulled. No other is read. That of a start past 0 is read at once.
    ///
    /// ```
    /// let vob = vob::vob!(alloc; true, true, false, true, true)?;
    /// let mut runs = vob.runs_in(1..4);
    /// assert_eq!(rt; runs.next(), Some(1..2));
    /// assert_eq!(rt; runs.next(), Some(3..4));
    /// assert_eq!(rt; runs.next(), None);
    /// ```
    pub fn runs_in<R: RangeBounds<usize>>(&self, range: R) -> Runs<'_, T>
        ensures within { R.has_bounds range
            → IsOverRange (R.start_bound range) (R.end_bound range) self.now.bits T.BITS result }
        ensures some { ForSomeRange (length self.now.bits) (λ low high.
            IsOverRange low high self.now.bits T.BITS result) }
        ensures longest { length result.rest ≤ usize.MAX }
        ensures runs { YieldsInOrder GivesRun (λ walk. walk.rest) }
        ensures runs_back { YieldsInReverse GivesLastRun (λ walk. walk.rest) }
        ensures start { result.at ≡ 0 }
        ensures again { result.again ≡ 1 }
        ensures reads { result.reads + result.left ≤ need (length self.now.bits) T.BITS }
    {
        let (start, stop) = cut_range(&range, self.len());
        Runs::over(self.blocks(), true, start, stop)
    }

    /// Returns the least index at which `n` unset bits in a row stand within the length, or `None` if
    /// there is none. If `n` is 0, it is 0.
    ///
    /// ```
    /// let vob = vob::vob!(alloc; false, true, false, false)?;
    /// assert_eq!(rt; vob.first_unset_run(2), Some(2));
    /// assert_eq!(rt; vob.first_unset_run(3), None);
    /// ```
    pub fn first_unset_run(&self, n: usize) -> Option<usize>
        ensures room { MatchOption result (HasNoRoom n self.now.bits)
            (IsFirstRoom n self.now.bits) }
    {
        if n == 0 {
            return Some(0);
        }
        for run in self.unset_runs() {
            if run.end - run.start >= n {
                return Some(run.start);
            }
        }
        None
    }
}
