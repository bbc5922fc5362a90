//! Bits moved to other indices, in place. vob 4.0.1 has none of these calls.
ghost use Rattle.std.specs.Prelude.{◌≡◌, ◌+◌, ◌-◌, ◌≤◌, ◌++◌, false, drop, length, min, replicate, take};
ghost use Rattle.vob_walk.specs.Matches.{ForSomeRange};
ghost use Rattle.vob.specs.Copy.{written_over, FitsRange, IsCopied, IsRangeCopied};
ghost use Rattle.vob.specs.Drain.{bits_within};
ghost use Rattle.vob.specs.Moves.{IsMovedDown, IsMovedUp};

use crate::vob::Vob;
use std::ops::RangeBounds;
use vob_block::Kernel;
use vob_store::load_store::Stretch;
use vob_store::shift::move_bits;
use vob_walk::range::cut_range;

impl<T: Kernel> Vob<T> {
    /// Moves each bit up by `n` indices. The bits below `n` become unset, and those that pass the
    /// length are dropped. Takes no memory.
    ///
    /// ```
    /// let mut vob = vob::vob!(alloc; true, true, true)?;
    /// vob.shl(1);
    /// assert!(rt; vob == vob::vob!(alloc; false, true, true)?);
    /// ```
    pub fn shl(&mut self, n: usize)
        ensures bits { self.new.bits ≡ take (length self.old.bits) (replicate n false ++ self.old.bits) }
        ensures each { IsMovedUp n self.old.bits self.new.bits }
        ensures capacity { self.new.capacity ≡ self.old.capacity }
    {
        let by = n.min(self.len());
        self.move_between(by, 0, self.len() - by);
        self.set_range(0..by, false);
    }

    /// Moves each bit down by `n` indices. The first `n` bits are dropped, and the last `n` become
    /// unset. Takes no memory.
    ///
    /// ```
    /// let mut vob = vob::vob!(alloc; true, true, true)?;
    /// vob.shr(1);
    /// assert!(rt; vob == vob::vob!(alloc; true, true, false)?);
    /// ```
    pub fn shr(&mut self, n: usize)
        ensures bits { self.new.bits
            ≡ drop n self.old.bits ++ replicate (min n (length self.old.bits)) false }
        ensures each { IsMovedDown n self.old.bits self.new.bits }
        ensures capacity { self.new.capacity ≡ self.old.capacity }
    {
        let by = n.min(self.len());
        let left = self.len() - by;
        self.move_between(0, by, self.len());
        self.set_range(left..left + by, false);
    }

    /// Writes the bits of the range over those from `at` on, as if all of them were read first. Every
    /// pair of bounds is accepted: the range is cut at the length, and is empty if it ends before it
    /// starts. What it holds must fit from `at` on. If the range's type doesn't state its bounds, `at`
    /// must be 0. Takes no memory.
    ///
    /// ```
    /// let mut vob = vob::vob!(alloc; true, false, false)?;
    /// vob.copy_within(0..2, 1);
    /// assert!(rt; vob == vob::vob!(alloc; true, true, false)?);
    /// ```
    pub fn copy_within<R: RangeBounds<usize>>(&mut self, range: R, at: usize)
        requires fits { FitsRange (R.has_bounds range) at (R.start_bound range)
            (R.end_bound range) self.old.bits self.old.bits }
        ensures bits { R.has_bounds range → self.new.bits ≡ written_over at
            (bits_within (R.start_bound range) (R.end_bound range) self.old.bits) self.old.bits }
        ensures each { R.has_bounds range → IsRangeCopied at (R.start_bound range)
            (R.end_bound range) self.old.bits self.old.bits self.new.bits }
        ensures some { ForSomeRange (length self.old.bits) (λ low high.
            IsRangeCopied at low high self.old.bits self.old.bits self.new.bits) }
        ensures len { length self.new.bits ≡ length self.old.bits }
        ensures capacity { self.new.capacity ≡ self.old.capacity }
    {
        let (start, end) = cut_range(&range, self.len());
        self.move_between(at, start, end);
    }

    /// Writes the bits from index `start` to below `end` over those from `at` on, as if all of them were
    /// read first.
    pub(crate) fn move_between(&mut self, at: usize, start: usize, end: usize)
        requires order { start ≤ end }
        requires inside { end ≤ length self.old.bits }
        requires fits { at + (end - start) ≤ length self.old.bits }
        ensures each { IsCopied at start (end - start) self.old.bits self.old.bits self.new.bits }
        ensures capacity { self.new.capacity ≡ self.old.capacity }
    {
        // The length is in the range of its type: a proof knows it from this read.
        let _len = self.len;
        let bits = Stretch {
            start,
            count: end - start,
        };
        move_bits(self.vec.as_mut_slice(), at, bits);
    }
}
