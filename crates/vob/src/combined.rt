//! Walks over the indices that are set in a combination of two Vobs. vob 4.0.1 has none of these
//! calls. None of them takes memory, or reads a block until an index is asked for.
ghost use Rattle.std.specs.Prelude.{◌≤◌, ◌&&◌, ◌||◌, true, length};
ghost use Rattle.std.specs.Iterator.Runs.{YieldsInOrder, YieldsInReverse};
ghost use Rattle.std.specs.declared.ops.Bound.TheVariants.{Unbounded};
ghost use Rattle.vob_block.specs.Pointwise.{differ, pointwise, without};
ghost use Rattle.vob_walk.specs.Walk.{IsFresh, GivesFirst, GivesLast};
ghost use Rattle.vob.specs.Vob.{HaveSameLength};

use crate::vob::Vob;
use vob_block::{And, Combine, Kernel, Or, Without, Xor};
use vob_walk::CombinedBits;

impl<T: Kernel> Vob<T> {
    /// Returns a walk over the indices that are set in both, in rising order. The lengths must be
    /// equal. It takes no memory, and reads each block of either at most once. vob 4.0.1 has no
    /// such call.
    ///
    /// ```
    /// let vob = vob::vob!(alloc; true, true, false, true)?;
    /// let other = vob::vob!(alloc; false, true, true, true)?;
    /// let mut indices = vob.intersection(&other);
    /// assert_eq!(rt; indices.next(), Some(1));
    /// assert_eq!(rt; indices.next(), Some(3));
    /// assert_eq!(rt; indices.next(), None);
    /// ```
    pub fn intersection<'a>(&'a self, other: &'a Vob<T>) -> CombinedBits<'a, And, T>
        requires { HaveSameLength self.now other.now }
        ensures fresh { IsFresh result (pointwise ◌&&◌ self.now.bits other.now.bits) true
            Unbounded Unbounded T.BITS }
        ensures most { length result.rest ≤ length self.now.bits }
        ensures longest { length result.rest ≤ usize.MAX }
        ensures greatest { length self.now.bits ≤ usize.MAX }
        ensures runs { YieldsInOrder GivesFirst (λ walk. walk.rest) }
        ensures runs_back { YieldsInReverse GivesLast (λ walk. walk.rest) }
    {
        self.combined_bits::<And>(other)
    }

    /// Returns a walk over the indices that are set in either, in rising order. The lengths must be
    /// equal. It takes no memory, and reads each block of either at most once. vob 4.0.1 has no
    /// such call.
    ///
    /// ```
    /// let vob = vob::vob!(alloc; true, false, false)?;
    /// let other = vob::vob!(alloc; true, false, true)?;
    /// assert_eq!(rt; vob.union(&other).next_back(), Some(2));
    /// assert_eq!(rt; vob.union(&other).count(), 2);
    /// ```
    pub fn union<'a>(&'a self, other: &'a Vob<T>) -> CombinedBits<'a, Or, T>
        requires { HaveSameLength self.now other.now }
        ensures fresh { IsFresh result (pointwise ◌||◌ self.now.bits other.now.bits) true
            Unbounded Unbounded T.BITS }
        ensures most { length result.rest ≤ length self.now.bits }
        ensures longest { length result.rest ≤ usize.MAX }
        ensures greatest { length self.now.bits ≤ usize.MAX }
        ensures runs { YieldsInOrder GivesFirst (λ walk. walk.rest) }
        ensures runs_back { YieldsInReverse GivesLast (λ walk. walk.rest) }
    {
        self.combined_bits::<Or>(other)
    }

    /// Returns a walk over the indices that are set here and not in the other, in rising order. The
    /// lengths must be equal. It takes no memory, and reads each block of either at most once. vob
    /// 4.0.1 has no such call.
    ///
    /// ```
    /// let vob = vob::vob!(alloc; true, true, false)?;
    /// let other = vob::vob!(alloc; true, false, true)?;
    /// let mut indices = vob.difference(&other);
    /// assert_eq!(rt; indices.next(), Some(1));
    /// assert_eq!(rt; indices.next(), None);
    /// ```
    pub fn difference<'a>(&'a self, other: &'a Vob<T>) -> CombinedBits<'a, Without, T>
        requires { HaveSameLength self.now other.now }
        ensures fresh { IsFresh result (pointwise without self.now.bits other.now.bits) true
            Unbounded Unbounded T.BITS }
        ensures most { length result.rest ≤ length self.now.bits }
        ensures longest { length result.rest ≤ usize.MAX }
        ensures greatest { length self.now.bits ≤ usize.MAX }
        ensures runs { YieldsInOrder GivesFirst (λ walk. walk.rest) }
        ensures runs_back { YieldsInReverse GivesLast (λ walk. walk.rest) }
    {
        self.combined_bits::<Without>(other)
    }

    /// Returns a walk over the indices that are set in exactly one, in rising order. The lengths
    /// must be equal. It takes no memory, and reads each block of either at most once. vob 4.0.1
    /// has no such call.
    ///
    /// ```
    /// let vob = vob::vob!(alloc; true, true, false)?;
    /// let other = vob::vob!(alloc; true, false, true)?;
    /// let mut indices = vob.symmetric_difference(&other);
    /// assert_eq!(rt; indices.next(), Some(1));
    /// assert_eq!(rt; indices.next_back(), Some(2));
    /// assert_eq!(rt; indices.next(), None);
    /// ```
    pub fn symmetric_difference<'a>(&'a self, other: &'a Vob<T>) -> CombinedBits<'a, Xor, T>
        requires { HaveSameLength self.now other.now }
        ensures fresh { IsFresh result (pointwise differ self.now.bits other.now.bits) true
            Unbounded Unbounded T.BITS }
        ensures most { length result.rest ≤ length self.now.bits }
        ensures longest { length result.rest ≤ usize.MAX }
        ensures greatest { length self.now.bits ≤ usize.MAX }
        ensures runs { YieldsInOrder GivesFirst (λ walk. walk.rest) }
        ensures runs_back { YieldsInReverse GivesLast (λ walk. walk.rest) }
    {
        self.combined_bits::<Xor>(other)
    }

    /// The walk over the set bits of the combination.
    fn combined_bits<'a, C: Combine>(&'a self, other: &'a Vob<T>) -> CombinedBits<'a, C, T>
        requires { HaveSameLength self.now other.now }
        ensures fresh { IsFresh result (pointwise C.of_bits self.now.bits other.now.bits) true
            Unbounded Unbounded T.BITS }
        ensures most { length result.rest ≤ length self.now.bits }
        ensures longest { length result.rest ≤ usize.MAX }
        ensures greatest { length self.now.bits ≤ usize.MAX }
        ensures runs { YieldsInOrder GivesFirst (λ walk. walk.rest) }
        ensures runs_back { YieldsInReverse GivesLast (λ walk. walk.rest) }
    {
        CombinedBits::over(self.blocks(), other.blocks(), self.len())
    }
}
