//! Bits copied: those of a range into a new Vob, or over others. vob 4.0.1 has no such call.
ghost use Rattle.std.specs.Prelude.{◌≡◌, ◌≢◌, ◌+◌, ◌-◌, ◌≤◌, [], length, take, drop, IsOk, IfOk, MatchResult};
ghost use Rattle.vob_walk.specs.Matches.{ForSomeRange};
ghost use Rattle.vob.specs.Copy.{written_over, FitsRange, IsCopied, IsRangeCopied};
ghost use Rattle.vob.specs.Drain.{bits_within};

use crate::vob::Vob;
use std::alloc::AllocError;
use std::ops::RangeBounds;
use vob_block::Kernel;
use vob_store::load_store::{Stretch, copy_bits};
use vob_store::split::split_blocks;
use vob_walk::range::cut_range;

impl<T: Kernel> Vob<T> {
    /// Copies the bits of a range into a new Vob. Every pair of bounds is accepted: the range is cut at
    /// the length, and is empty if it ends before it starts. Fails if memory runs out; if the range
    /// holds no bit, none is asked for.
    ///
    /// ```
    /// let vob = vob::vob!(alloc; true, false, true)?;
    /// assert!(rt; vob.slice(1..)? == vob::vob!(alloc; false, true)?);
    /// ```
    pub fn slice<R: RangeBounds<usize>>(&self, range: R) -> Result<Vob<T>, AllocError>
        ensures bits { R.has_bounds range → IfOk result (λ vob. vob.bits
            ≡ bits_within (R.start_bound range) (R.end_bound range) self.now.bits) }
        ensures nothing { R.has_bounds range
            → bits_within (R.start_bound range) (R.end_bound range) self.now.bits ≡ [] → IsOk result }
        ensures some { ForSomeRange (length self.now.bits) (λ low high. MatchResult result
            (λ vob. vob.bits ≡ bits_within low high self.now.bits)
            (λ _. bits_within low high self.now.bits ≢ [])) }
    {
        let (start, end) = cut_range(&range, self.len);
        self.bits_between(start, end)
    }

    /// Returns the bits from index `start` to below `end` in a new Vob. No bits take no memory.
    pub(crate) fn bits_between(&self, start: usize, end: usize) -> Result<Vob<T>, AllocError>
        requires order { start ≤ end }
        requires inside { end ≤ length self.now.bits }
        ensures bits { IfOk result (λ vob. vob.bits ≡ take (end - start) (drop start self.now.bits)) }
        ensures nothing { start ≡ end → IsOk result }
    {
        let alloc = *self.vec.allocator();
        if start == end {
            return Ok(Vob::empty(alloc));
        }
        let vec = split_blocks(alloc, self.vec.as_slice(), end, start)?;
        let len = end - start;
        Ok(Vob { len, vec })
    }

    /// Writes the other's bits of the range over those from `at` on. Every pair of bounds is
    /// accepted: the range is cut at the other's length, and is empty if it ends before it
    /// starts. What it holds must fit from `at` on. If the range's type doesn't state its bounds,
    /// all of the other's bits must fit. Takes no memory.
    pub fn copy_range<R: RangeBounds<usize>>(&mut self, at: usize, other: &Vob<T>, range: R)
        requires fits { FitsRange (R.has_bounds range) at (R.start_bound range)
            (R.end_bound range) other.now.bits self.old.bits }
        ensures bits { R.has_bounds range → self.new.bits ≡ written_over at
            (bits_within (R.start_bound range) (R.end_bound range) other.now.bits) self.old.bits }
        ensures each { R.has_bounds range → IsRangeCopied at (R.start_bound range)
            (R.end_bound range) self.old.bits other.now.bits self.new.bits }
        ensures some { ForSomeRange (length other.now.bits) (λ low high.
            IsRangeCopied at low high self.old.bits other.now.bits self.new.bits) }
        ensures len { length self.new.bits ≡ length self.old.bits }
        ensures capacity { self.new.capacity ≡ self.old.capacity }
    {
        let (start, end) = cut_range(&range, other.len());
        self.copy_between(at, other, start, end);
    }

    /// Writes the other's bits from index `start` to below `end` over those from `at` on.
    fn copy_between(&mut self, at: usize, other: &Vob<T>, start: usize, end: usize)
        requires order { start ≤ end }
        requires inside { end ≤ length other.now.bits }
        requires fits { at + (end - start) ≤ length self.old.bits }
        ensures each { IsCopied at start (end - start) self.old.bits other.now.bits self.new.bits }
        ensures capacity { self.new.capacity ≡ self.old.capacity }
    {
        // The length is in the range of its type: a proof knows it from this read.
        let _len = self.len;
        let bits = Stretch {
            start,
            count: end - start,
        };
        copy_bits(self.vec.as_mut_slice(), at, &mut other.blocks(), bits);
    }
}
