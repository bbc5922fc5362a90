//! Calls on all bits at once: made one value, negated, compared, or combined with another Vob's.
ghost use Rattle.std.specs.Prelude.{◌≡◌, ◌≢◌, ◌↔◌, ◌&&◌, ◌||◌, false, not, map, length, replicate, IsTrue, IfOk};
ghost use Rattle.std.proofs.Common.{rules, ap};
ghost use Rattle.std.specs.Cmp.{booleans_Decides};
ghost use Rattle.std.specs.Cmp.Lexicographic.{pointwise_decides};
ghost use Rattle.std.specs.Cmp.Rules.{comparing};
ghost use Rattle.vob_block.specs.Packing.{unpacking, IsCanonical};
ghost use Rattle.vob_block.specs.Pointwise.{differ, pointwise, without};
ghost use Rattle.vob_block.specs.Reading.{AreReadOnce};
ghost use Rattle.vob.specs.Bits.{AreCombined, GainsBits, IsChanged, LosesBits};
ghost use Rattle.vob.specs.Fed.{hash_words};
ghost use Rattle.vob.specs.Same.{same_bits};
ghost use Rattle.vob.specs.Vob.{HaveSameLength, BecomesPointwise};

use crate::vob::Vob;
use std::alloc::AllocError;
use std::hash::{Hash, Hasher};
use std::ops::{BitAnd, BitAndAssign, BitOr, BitOrAssign, BitXor, BitXorAssign, Not, Sub};
use vob_block::{And, Blocks, Combine, Kernel, Or, Xor};
use vob_store::fill::fill;
use vob_store::mask::negate;
use vob_store::same::same_blocks;

impl<T: Kernel> Vob<T> {
    /// Sets every bit to `value`.
    ///
    /// ```
    /// let mut vob = vob::vob!(alloc; true, false)?;
    /// vob.set_all(true);
    /// assert!(rt; vob == vob::vob!(alloc; true, true)?);
    /// ```
    pub fn set_all(&mut self, value: bool)
        ensures bits { self.new.bits ≡ replicate (length self.old.bits) value }
        ensures each { IsChanged (λ _. value) self.old.bits self.new.bits }
        ensures capacity { self.new.capacity ≡ self.old.capacity }
    {
        fill(&mut self.vec, self.len, value);
    }

    /// Negates every bit.
    ///
    /// ```
    /// let mut vob = vob::vob!(alloc; true, false)?;
    /// vob.negate();
    /// assert!(rt; vob == vob::vob!(alloc; false, true)?);
    /// ```
    pub fn negate(&mut self)
        ensures bits { self.new.bits ≡ map not self.old.bits }
        ensures each { IsChanged not self.old.bits self.new.bits }
        ensures capacity { self.new.capacity ≡ self.old.capacity }
    {
        negate(&mut self.vec, self.len);
    }

    /// Keeps the bits that both have, and returns whether a bit changed. The lengths must be
    /// equal; vob 4.0.1 panics if they aren't.
    ///
    /// ```
    /// let mut vob = vob::vob!(alloc; true, true)?;
    /// assert!(rt; vob.and(&vob::vob!(alloc; true, false)?));
    /// assert!(rt; vob == vob::vob!(alloc; true, false)?);
    /// ```
    #[inline]
    pub fn and(&mut self, other: &Vob<T>) -> bool
        requires { HaveSameLength self.old other.now }
        ensures bits { self.new.bits ≡ pointwise ◌&&◌ self.old.bits other.now.bits }
        ensures each { AreCombined ◌&&◌ self.old.bits other.now.bits self.new.bits }
        ensures changed { IsTrue result ↔ (self.new.bits ≢ self.old.bits) }
        ensures fewer { LosesBits result self.old.bits self.new.bits }
        ensures capacity { self.new.capacity ≡ self.old.capacity }
    {
        self.combine::<And>(other)
    }

    /// Adds the bits that the other has, and returns whether a bit changed. The lengths must be
    /// equal; vob 4.0.1 panics if they aren't.
    ///
    /// ```
    /// let mut vob = vob::vob!(alloc; true, false)?;
    /// assert!(rt; vob.or(&vob::vob!(alloc; true, true)?));
    /// assert!(rt; vob == vob::vob!(alloc; true, true)?);
    /// ```
    #[inline]
    pub fn or(&mut self, other: &Vob<T>) -> bool
        requires { HaveSameLength self.old other.now }
        ensures bits { self.new.bits ≡ pointwise ◌||◌ self.old.bits other.now.bits }
        ensures each { AreCombined ◌||◌ self.old.bits other.now.bits self.new.bits }
        ensures changed { IsTrue result ↔ (self.new.bits ≢ self.old.bits) }
        ensures more { GainsBits result self.old.bits self.new.bits }
        ensures capacity { self.new.capacity ≡ self.old.capacity }
    {
        self.combine::<Or>(other)
    }

    /// Adds the bits that `other` holds, which must be as many as these, and returns whether a bit
    /// changed. Reads each block of `other` once. vob 4.0.1 has no such call.
    #[inline]
    pub fn or_blocks(&mut self, other: &mut Blocks<'_, T>) -> bool
        requires { IsCanonical (length self.old.bits) (map T.number other.old.items) T.BITS }
        ensures bits { self.new.bits ≡ pointwise ◌||◌ self.old.bits
            (unpacking (length self.old.bits) (map T.number other.old.items) T.BITS) }
        ensures each { AreCombined ◌||◌ self.old.bits
            (unpacking (length self.old.bits) (map T.number other.old.items) T.BITS) self.new.bits }
        ensures changed { IsTrue result ↔ (self.new.bits ≢ self.old.bits) }
        ensures capacity { self.new.capacity ≡ self.old.capacity }
        ensures read { AreReadOnce other.old other.new }
    {
        self.combine_blocks::<Or>(other)
    }

    /// Keeps the bits that exactly one has, and returns whether a bit changed. The lengths must
    /// be equal; vob 4.0.1 panics if they aren't.
    #[inline]
    pub fn xor(&mut self, other: &Vob<T>) -> bool
        requires { HaveSameLength self.old other.now }
        ensures bits { self.new.bits ≡ pointwise differ self.old.bits other.now.bits }
        ensures each { AreCombined differ self.old.bits other.now.bits self.new.bits }
        ensures changed { IsTrue result ↔ (self.new.bits ≢ self.old.bits) }
        ensures same { result ≡ false → self.new.bits ≡ self.old.bits }
        ensures capacity { self.new.capacity ≡ self.old.capacity }
    {
        self.combine::<Xor>(other)
    }

    /// Combines the bits that some blocks hold into these, and returns whether a bit changed. Reads
    /// each block once.
    #[inline(always)]
    fn combine_blocks<C: Combine>(&mut self, other: &mut Blocks<'_, T>) -> bool
        requires other { IsCanonical (length self.old.bits) (map T.number other.old.items) T.BITS }
        requires none { C.of_bits false false ≡ false }
        ensures bits { self.new.bits ≡ pointwise C.of_bits self.old.bits
            (unpacking (length self.old.bits) (map T.number other.old.items) T.BITS) }
        ensures each { AreCombined C.of_bits self.old.bits
            (unpacking (length self.old.bits) (map T.number other.old.items) T.BITS) self.new.bits }
        ensures changed { IsTrue result ↔ (self.new.bits ≢ self.old.bits) }
        ensures capacity { self.new.capacity ≡ self.old.capacity }
        ensures read { AreReadOnce other.old other.new }
    {
        T::combine_into::<C>(self.vec.as_mut_slice(), other)
    }

    /// Combines the other's bits into these, and returns whether a bit changed. Reads each block
    /// of the other once.
    #[inline(always)]
    pub(crate) fn combine<C: Combine>(&mut self, other: &Vob<T>) -> bool
        requires same { HaveSameLength self.old other.now }
        requires none { C.of_bits false false ≡ false }
        ensures bits { self.new.bits ≡ pointwise C.of_bits self.old.bits other.now.bits }
        ensures each { AreCombined C.of_bits self.old.bits other.now.bits self.new.bits }
        ensures changed { IsTrue result ↔ (self.new.bits ≢ self.old.bits) }
        ensures capacity { self.new.capacity ≡ self.old.capacity }
    {
        self.combine_blocks::<C>(&mut other.blocks())
    }
}

impl<'a, 'b, T: Kernel> BitAnd<&'b Vob<T>> for &'a Vob<T> {
    type Output = Result<Vob<T>, AllocError>;

    ghost can_bitand = { λ vob other. HaveSameLength vob.now other.now };

    ghost bitand_gives = { λ vob other result. IfOk result
        (λ made. made.bits ≡ pointwise ◌&&◌ vob.now.bits other.now.bits) };

    /// Returns the bits that both have, in a new Vob. Fails if memory runs out, where vob 4.0.1
    /// ends the process. The lengths must be equal; vob 4.0.1 panics if they aren't.
    fn bitand(self, other: &'b Vob<T>) -> Result<Vob<T>, AllocError> {
        let mut made = self.clone()?;
        made.and(other);
        Ok(made)
    }
}

impl<'a, 'b, T: Kernel> BitOr<&'b Vob<T>> for &'a Vob<T> {
    type Output = Result<Vob<T>, AllocError>;

    ghost can_bitor = { λ vob other. HaveSameLength vob.now other.now };

    ghost bitor_gives = { λ vob other result. IfOk result
        (λ made. made.bits ≡ pointwise ◌||◌ vob.now.bits other.now.bits) };

    /// Returns the bits that either has, in a new Vob. Fails if memory runs out, where vob 4.0.1
    /// ends the process. The lengths must be equal; vob 4.0.1 panics if they aren't.
    fn bitor(self, other: &'b Vob<T>) -> Result<Vob<T>, AllocError> {
        let mut made = self.clone()?;
        made.or(other);
        Ok(made)
    }
}

impl<'a, 'b, T: Kernel> BitXor<&'b Vob<T>> for &'a Vob<T> {
    type Output = Result<Vob<T>, AllocError>;

    ghost can_bitxor = { λ vob other. HaveSameLength vob.now other.now };

    ghost bitxor_gives = { λ vob other result. IfOk result
        (λ made. made.bits ≡ pointwise differ vob.now.bits other.now.bits) };

    /// Returns the bits that exactly one has, in a new Vob. Fails if memory runs out, where vob
    /// 4.0.1 ends the process. The lengths must be equal; vob 4.0.1 panics if they aren't.
    fn bitxor(self, other: &'b Vob<T>) -> Result<Vob<T>, AllocError> {
        let mut made = self.clone()?;
        made.xor(other);
        Ok(made)
    }
}

impl<'a, 'b, T: Kernel> Sub<&'b Vob<T>> for &'a Vob<T> {
    type Output = Result<Vob<T>, AllocError>;

    ghost can_sub = { λ vob other. HaveSameLength vob.now other.now };

    ghost sub_gives = { λ vob other result. IfOk result
        (λ made. made.bits ≡ pointwise without vob.now.bits other.now.bits) };

    /// Returns the bits that the left one has and the right one hasn't, in a new Vob. Fails if memory
    /// runs out. The lengths must be equal. vob 4.0.1 has no such operator.
    fn sub(self, other: &'b Vob<T>) -> Result<Vob<T>, AllocError> {
        let mut made = self.clone()?;
        made.and_not(other);
        Ok(made)
    }
}

impl<T: Kernel> Not for Vob<T> {
    type Output = Vob<T>;

    ghost not_gives = { λ vob result. (result.bits ≡ map not vob.bits)
        × (result.capacity ≡ vob.capacity) };

    /// Returns every bit negated, in the same blocks. vob 4.0.1 has no such operator.
    fn not(mut self) -> Vob<T> {
        self.negate();
        self
    }
}

impl<'a, T: Kernel> BitAnd<&'a Vob<T>> for Vob<T> {
    type Output = Vob<T>;

    ghost can_bitand = { λ vob other. HaveSameLength vob other.now };

    ghost bitand_gives = { λ vob other result. BecomesPointwise ◌&&◌ vob other.now result };

    /// Returns the bits that both have, in the blocks of the left one. The lengths must be equal;
    /// vob 4.0.1 panics if they aren't.
    fn bitand(mut self, other: &'a Vob<T>) -> Vob<T> {
        self.and(other);
        self
    }
}

impl<'a, T: Kernel> BitAndAssign<&'a Vob<T>> for Vob<T> {
    ghost can_bitand_assign = { λ vob other. HaveSameLength vob other.now };

    ghost bitand_assign_gives = { λ vob other after. BecomesPointwise ◌&&◌ vob other.now after };

    /// Does what `and` does, and returns nothing. The lengths must be equal.
    fn bitand_assign(&mut self, other: &'a Vob<T>) {
        self.and(other);
    }
}

impl<'a, T: Kernel> BitOr<&'a Vob<T>> for Vob<T> {
    type Output = Vob<T>;

    ghost can_bitor = { λ vob other. HaveSameLength vob other.now };

    ghost bitor_gives = { λ vob other result. BecomesPointwise ◌||◌ vob other.now result };

    /// Returns the bits that either has, in the blocks of the left one. The lengths must be
    /// equal; vob 4.0.1 panics if they aren't.
    fn bitor(mut self, other: &'a Vob<T>) -> Vob<T> {
        self.or(other);
        self
    }
}

impl<'a, T: Kernel> BitOrAssign<&'a Vob<T>> for Vob<T> {
    ghost can_bitor_assign = { λ vob other. HaveSameLength vob other.now };

    ghost bitor_assign_gives = { λ vob other after. BecomesPointwise ◌||◌ vob other.now after };

    /// Does what `or` does, and returns nothing. The lengths must be equal.
    fn bitor_assign(&mut self, other: &'a Vob<T>) {
        self.or(other);
    }
}

impl<'a, T: Kernel> BitXor<&'a Vob<T>> for Vob<T> {
    type Output = Vob<T>;

    ghost can_bitxor = { λ vob other. HaveSameLength vob other.now };

    ghost bitxor_gives = { λ vob other result. BecomesPointwise differ vob other.now result };

    /// Returns the bits that exactly one has, in the blocks of the left one. The lengths must be
    /// equal; vob 4.0.1 panics if they aren't.
    fn bitxor(mut self, other: &'a Vob<T>) -> Vob<T> {
        self.xor(other);
        self
    }
}

impl<'a, T: Kernel> BitXorAssign<&'a Vob<T>> for Vob<T> {
    ghost can_bitxor_assign = { λ vob other. HaveSameLength vob other.now };

    ghost bitxor_assign_gives = { λ vob other after. BecomesPointwise differ vob other.now after };

    /// Does what `xor` does, and returns nothing. The lengths must be equal.
    fn bitxor_assign(&mut self, other: &'a Vob<T>) {
        self.xor(other);
    }
}

impl<T: Kernel> PartialEq for Vob<T> {
    ghost eq = { λ vob other. same_bits vob.bits other.bits };

    ghost laws = { Prim.search (comparing, rules) };

    /// Returns whether both have the same bits, and so the same length. The capacities don't
    /// matter.
    fn eq(&self, other: &Vob<T>) -> bool
        ensures answer { result ≡ same_bits self.now.bits other.now.bits }
        ensures lists { IsTrue result ↔ (self.now.bits ≡ other.now.bits) }
    {
        let same_length = self.len == other.len;
        same_length && same_blocks(self.vec.as_slice(), other.vec.as_slice())
    }
}

impl<T: Kernel> Eq for Vob<T> {
    ghost laws = { Prim.search (comparing, rules) };
}

impl<T: Kernel> Hash for Vob<T> {
    ghost hash_input = { λ vob. hash_words T.hash_input T.BitBlock.of_bits T.BITS vob.bits };

    ghost respects_eq = { λ vob other same. ap (hash_words T.hash_input T.BitBlock.of_bits T.BITS)
        ((pointwise_decides booleans_Decides vob.bits other.bits).0 same) };

    /// Feeds the blocks in order, and not the length: `0` and `00` feed a hasher the same.
    fn hash<H: Hasher>(&self, state: &mut H) {
        T::hash_slice(self.vec.as_slice(), state);
    }
}
