//! The bits of a range made one value, or negated, in place. vob 4.0.1 has none of these calls.
ghost use Rattle.std.specs.Prelude.{◌≡◌, ◌≢◌, ◌↔◌, ℕ, ◌-◌, false, not, map, take, drop, length, replicate, IsTrue};
ghost use Rattle.vob_walk.specs.Matches.{ForSomeRange, IsRangeOf};
ghost use Rattle.vob.specs.Ranges.{replaced, IsChangedWithin};

use crate::vob::Vob;
use std::ops::RangeBounds;
use vob_block::Kernel;
use vob_store::range::{Change, Negate, Set, Unset, change_range};
use vob_walk::range::cut_range;

impl<T: Kernel> Vob<T> {
    /// Sets each bit of the range to `value`, and returns whether a bit changed. The range is cut
    /// at the length. A range that ends before it starts is empty.
    ///
    /// ```
    /// let mut vob = vob::vob!(alloc; false, false, false)?;
    /// assert!(rt; vob.set_range(1.., true));
    /// assert!(rt; !vob.set_range(1..3, true));
    /// assert!(rt; vob == vob::vob!(alloc; false, true, true)?);
    /// ```
    pub fn set_range<R: RangeBounds<usize>>(&mut self, range: R, value: bool) -> bool
        ensures each { R.has_bounds range → IsChangedWithin (λ _. value)
            (R.start_bound range) (R.end_bound range) self.old.bits self.new.bits }
        ensures bits { R.has_bounds range → (start stop : ℕ)
            → IsRangeOf (R.start_bound range) (R.end_bound range) (length self.old.bits) start stop
            → self.new.bits ≡ replaced start stop (replicate (stop - start) value) self.old.bits }
        ensures some { ForSomeRange (length self.old.bits) (λ low high.
            IsChangedWithin (λ _. value) low high self.old.bits self.new.bits) }
        ensures len { length self.new.bits ≡ length self.old.bits }
        ensures changed { IsTrue result ↔ (self.new.bits ≢ self.old.bits) }
        ensures same { result ≡ false → self.new.bits ≡ self.old.bits }
        ensures capacity { self.new.capacity ≡ self.old.capacity }
    {
        if value {
            self.change_within::<Set, R>(range)
        } else {
            self.change_within::<Unset, R>(range)
        }
    }

    /// Negates each bit of the range. The range is cut at the length. A range that ends before it
    /// starts is empty.
    ///
    /// ```
    /// let mut vob = vob::vob!(alloc; true, false, true)?;
    /// vob.negate_range(..2);
    /// assert!(rt; vob == vob::vob!(alloc; false, true, true)?);
    /// ```
    pub fn negate_range<R: RangeBounds<usize>>(&mut self, range: R)
        ensures each { R.has_bounds range → IsChangedWithin not
            (R.start_bound range) (R.end_bound range) self.old.bits self.new.bits }
        ensures bits { R.has_bounds range → (start stop : ℕ)
            → IsRangeOf (R.start_bound range) (R.end_bound range) (length self.old.bits) start stop
            → self.new.bits ≡ replaced start stop
            (map not (take (stop - start) (drop start self.old.bits))) self.old.bits }
        ensures some { ForSomeRange (length self.old.bits) (λ low high.
            IsChangedWithin not low high self.old.bits self.new.bits) }
        ensures len { length self.new.bits ≡ length self.old.bits }
        ensures capacity { self.new.capacity ≡ self.old.capacity }
    {
        self.change_within::<Negate, R>(range);
    }

    /// Changes each bit of the range, and returns whether one changed.
    #[inline(always)]
    fn change_within<C: Change, R: RangeBounds<usize>>(&mut self, range: R) -> bool
        ensures each { R.has_bounds range → IsChangedWithin C.of_bit
            (R.start_bound range) (R.end_bound range) self.old.bits self.new.bits }
        ensures bits { R.has_bounds range → (start stop : ℕ)
            → IsRangeOf (R.start_bound range) (R.end_bound range) (length self.old.bits) start stop
            → self.new.bits ≡ replaced start stop
            (map C.of_bit (take (stop - start) (drop start self.old.bits))) self.old.bits }
        ensures some { ForSomeRange (length self.old.bits) (λ low high.
            IsChangedWithin C.of_bit low high self.old.bits self.new.bits) }
        ensures len { length self.new.bits ≡ length self.old.bits }
        ensures changed { IsTrue result ↔ (self.new.bits ≢ self.old.bits) }
        ensures same { result ≡ false → self.new.bits ≡ self.old.bits }
        ensures capacity { self.new.capacity ≡ self.old.capacity }
    {
        let (start, stop) = cut_range(&range, self.len);
        change_range::<C, T>(&mut self.vec, self.len, start, stop)
    }
}
