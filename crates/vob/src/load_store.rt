//! Up to `T::BITS` bits at any index, read and written as one block. vob 4.0.1 has none of these calls.
ghost use Rattle.std.specs.Prelude.{◌≡◌, ℕ, ◌+◌, ◌-◌, ◌^◌, ◌<◌, ◌≤◌, [], ◌∷◌, drop, length, take};
ghost use Rattle.vob_block.specs.Packing.{item, unpacking};
ghost use Rattle.vob_block.specs.Places.{place, HasPlaces};
ghost use Rattle.vob.specs.Copy.{written_over, IsCopied};

use crate::vob::Vob;
use std::ops::Range;
use vob_block::Kernel;
use vob_store::load_store::{bits_at, write_bits};

impl<T: Kernel> Vob<T> {
    /// Returns the bits of the range as one block, the first bit in place 0, and the places above them
    /// unset. The range must lie within the length, and hold at most `T::BITS` bits.
    ///
    /// ```
    /// let vob = vob::vob!(alloc; true, false, true, true)?;
    /// assert_eq!(rt; vob.load(1..4), 0b110);
    /// ```
    pub fn load(&self, range: Range<usize>) -> T
        requires order { range.start ≤ range.end }
        requires inside { range.end ≤ length self.now.bits }
        requires few { range.end ≤ range.start + T.BITS }
        ensures places { HasPlaces T.BITS (T.number result)
            (item (take (range.end - range.start) (drop range.start self.now.bits))) }
        ensures each { (j : ℕ) → j < range.end - range.start
            → place j (T.number result) ≡ item self.now.bits (range.start + j) }
        ensures within { T.number result < 2 ^ T.BITS }
    {
        let mask = T::low_mask(range.end - range.start);
        bits_at(&mut self.blocks(), range.start).band(mask)
    }

    /// Writes the first places of a block over the bits of the range, place 0 first. The others are
    /// ignored. The range must lie within the length, and hold at most `T::BITS` bits.
    ///
    /// ```
    /// let mut vob = vob::vob!(alloc; false, false, false, false)?;
    /// vob.store(1..4, 0b110);
    /// assert!(rt; vob == vob::vob!(alloc; false, false, true, true)?);
    /// ```
    pub fn store(&mut self, range: Range<usize>, word: T)
        requires order { range.start ≤ range.end }
        requires inside { range.end ≤ length self.old.bits }
        requires few { range.end ≤ range.start + T.BITS }
        ensures bits { self.new.bits ≡ written_over range.start
            (unpacking (range.end - range.start) (T.number word ∷ []) T.BITS) self.old.bits }
        ensures each { IsCopied range.start 0 (range.end - range.start) self.old.bits
            (unpacking T.BITS (T.number word ∷ []) T.BITS) self.new.bits }
        ensures capacity { self.new.capacity ≡ self.old.capacity }
    {
        // The length and the block are in the range of their types: a proof knows it from these.
        let _len = self.len;
        word.in_range();
        write_bits(
            self.vec.as_mut_slice(),
            range.start,
            word,
            range.end - range.start,
        );
    }
}
