//! Single bits negated, exchanged, inserted and removed. vob 4.0.1 has none of these calls.
ghost use Rattle.std.specs.Prelude.{◌≡◌, ◌+◌, ◌<◌, ◌≤◌, ◌∷◌, ◌++◌, OnErr, OnOk, not, drop, length, slice_set, take};
ghost use Rattle.vob_block.specs.Packing.{item};
ghost use Rattle.vob.specs.Bits.{IsWritten};
ghost use Rattle.vob.specs.Extending.{RefusesMore};
ghost use Rattle.vob.specs.Moves.{AreSwapped, IsInserted};

use crate::error::VobError;
use crate::vob::Vob;
use vob_block::Kernel;
use vob_store::single::flip_bit;

impl<T: Kernel> Vob<T> {
    /// Negates bit `index`, and returns its new value. The index must be below the length.
    ///
    /// ```
    /// let mut vob = vob::vob!(alloc; true, false)?;
    /// assert!(rt; vob.flip(1));
    /// assert!(rt; vob == vob::vob!(alloc; true, true)?);
    /// ```
    pub fn flip(&mut self, index: usize) -> bool
        requires in_range { index < length self.old.bits }
        ensures value { result ≡ not (item self.old.bits index) }
        ensures bits { self.new.bits ≡ slice_set self.old.bits index (not (item self.old.bits index)) }
        ensures written { IsWritten self.old.bits index (not (item self.old.bits index)) self.new.bits }
        ensures capacity { self.new.capacity ≡ self.old.capacity }
    {
        flip_bit(&mut self.vec, self.len, index)
    }

    /// Exchanges two bits. Both indices must be below the length.
    ///
    /// ```
    /// let mut vob = vob::vob!(alloc; true, false)?;
    /// vob.swap(0, 1);
    /// assert!(rt; vob == vob::vob!(alloc; false, true)?);
    /// ```
    pub fn swap(&mut self, first: usize, second: usize)
        requires first { first < length self.old.bits }
        requires second { second < length self.old.bits }
        ensures bits { self.new.bits ≡ slice_set (slice_set self.old.bits first
            (item self.old.bits second)) second (item self.old.bits first) }
        ensures each { AreSwapped first second self.old.bits self.new.bits }
        ensures capacity { self.new.capacity ≡ self.old.capacity }
    {
        let bit = self.get_unchecked(first);
        let other = self.get_unchecked(second);
        self.set(first, other);
        self.set(second, bit);
    }

    /// Inserts a bit at `index`; those from there on move up by one. The index must be at most the
    /// length. Fails as `push` does, and then changes no bit.
    ///
    /// ```
    /// let mut vob = vob::vob!(alloc; true, true)?;
    /// vob.insert_bit(1, false)?;
    /// assert!(rt; vob == vob::vob!(alloc; true, false, true)?);
    /// ```
    pub fn insert_bit(&mut self, index: usize, value: bool) -> Result<(), VobError>
        requires in_range { index ≤ length self.old.bits }
        ensures ok { OnOk result (self.new.bits
            ≡ take index self.old.bits ++ value ∷ drop index self.old.bits) }
        ensures each { OnOk result (IsInserted index value self.old.bits self.new.bits) }
        ensures err { OnErr result (self.new.bits ≡ self.old.bits) }
        ensures err_capacity { OnErr result (self.new.capacity ≡ self.old.capacity) }
        ensures refused { RefusesMore T.BITS self.old 1 result }
        ensures capacity { self.old.capacity ≤ self.new.capacity }
    {
        let len = self.len();
        self.push(value)?;
        self.move_between(index + 1, index, len);
        self.set(index, value);
        Ok(())
    }

    /// Removes bit `index` and returns it; those after it close up. The index must be below the
    /// length.
    ///
    /// ```
    /// let mut vob = vob::vob!(alloc; true, false, true)?;
    /// assert!(rt; !vob.remove(1));
    /// assert!(rt; vob == vob::vob!(alloc; true, true)?);
    /// ```
    pub fn remove(&mut self, index: usize) -> bool
        requires in_range { index < length self.old.bits }
        ensures bit { result ≡ item self.old.bits index }
        ensures bits { self.new.bits ≡ take index self.old.bits ++ drop (index + 1) self.old.bits }
        ensures each { IsInserted index result self.new.bits self.old.bits }
        ensures capacity { self.new.capacity ≡ self.old.capacity }
    {
        let bit = self.get_unchecked(index);
        self.remove_from(index, 1);
        bit
    }

    /// Removes `count` bits from index `at` on; those after close up.
    pub(crate) fn remove_from(&mut self, at: usize, count: usize)
        requires inside { at + count ≤ length self.old.bits }
        ensures bits { self.new.bits ≡ take at self.old.bits ++ drop (at + count) self.old.bits }
        ensures capacity { self.new.capacity ≡ self.old.capacity }
    {
        let len = self.len();
        self.move_between(at, at + count, len);
        self.truncate(len - count);
    }
}
