//! Two steps in one pass over the blocks, as a dataflow analysis needs them. vob 4.0.1 has none of
//! these calls.
ghost use Rattle.std.specs.Prelude.{◌≡◌, ◌≢◌, ◌↔◌, ◌&&◌, ◌||◌, false, IsTrue};
ghost use Rattle.vob_block.specs.Pointwise.{pointwise, without};
ghost use Rattle.vob.specs.Bits.{AreCombined, GainsBits};
ghost use Rattle.vob.specs.Vob.{HaveSameLength};

use crate::vob::Vob;
use vob_block::{And, Combine, Kernel, Without};
use vob_store::fused::or_combined;

impl<T: Kernel> Vob<T> {
    /// Adds the bits that two others both have, and returns whether a bit changed. The lengths must be
    /// equal. Takes no memory.
    ///
    /// ```
    /// let mut vob = vob::vob!(alloc; true, false, false)?;
    /// let other = vob::vob!(alloc; true, true, false)?;
    /// assert!(rt; vob.or_and(&other, &vob::vob!(alloc; true, true, true)?));
    /// assert!(rt; vob == vob::vob!(alloc; true, true, false)?);
    /// ```
    pub fn or_and(&mut self, first: &Vob<T>, second: &Vob<T>) -> bool
        requires first { HaveSameLength self.old first.now }
        requires second { HaveSameLength self.old second.now }
        ensures bits { self.new.bits
            ≡ pointwise ◌||◌ self.old.bits (pointwise ◌&&◌ first.now.bits second.now.bits) }
        ensures each { AreCombined ◌||◌ self.old.bits
            (pointwise ◌&&◌ first.now.bits second.now.bits) self.new.bits }
        ensures changed { IsTrue result ↔ (self.new.bits ≢ self.old.bits) }
        ensures more { GainsBits result self.old.bits self.new.bits }
        ensures capacity { self.new.capacity ≡ self.old.capacity }
    {
        self.or_combine::<And>(first, second)
    }

    /// Adds the bits that the first other has and the second doesn't, and returns whether a bit changed.
    /// The lengths must be equal. Takes no memory.
    pub fn or_and_not(&mut self, first: &Vob<T>, second: &Vob<T>) -> bool
        requires first { HaveSameLength self.old first.now }
        requires second { HaveSameLength self.old second.now }
        ensures bits { self.new.bits
            ≡ pointwise ◌||◌ self.old.bits (pointwise without first.now.bits second.now.bits) }
        ensures each { AreCombined ◌||◌ self.old.bits
            (pointwise without first.now.bits second.now.bits) self.new.bits }
        ensures changed { IsTrue result ↔ (self.new.bits ≢ self.old.bits) }
        ensures more { GainsBits result self.old.bits self.new.bits }
        ensures capacity { self.new.capacity ≡ self.old.capacity }
    {
        self.or_combine::<Without>(first, second)
    }

    /// Adds the bits of two others combined, and returns whether a bit changed.
    fn or_combine<C: Combine>(&mut self, first: &Vob<T>, second: &Vob<T>) -> bool
        requires first { HaveSameLength self.old first.now }
        requires second { HaveSameLength self.old second.now }
        requires none { C.of_bits false false ≡ false }
        ensures bits { self.new.bits
            ≡ pointwise ◌||◌ self.old.bits (pointwise C.of_bits first.now.bits second.now.bits) }
        ensures each { AreCombined ◌||◌ self.old.bits
            (pointwise C.of_bits first.now.bits second.now.bits) self.new.bits }
        ensures changed { IsTrue result ↔ (self.new.bits ≢ self.old.bits) }
        ensures more { GainsBits result self.old.bits self.new.bits }
        ensures capacity { self.new.capacity ≡ self.old.capacity }
    {
        or_combined::<C, T>(
            self.vec.as_mut_slice(),
            &mut first.blocks(),
            &mut second.blocks(),
        )
    }
}
