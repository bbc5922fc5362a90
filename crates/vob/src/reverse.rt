//! Bits put in reverse order or rotated, in place. vob 4.0.1 has none of these calls.
ghost use Rattle.std.specs.Prelude.{◌≡◌, ◌-◌, ◌%◌, ◌≤◌, ◌++◌, drop, length, reverse, take};
ghost use Rattle.vob.specs.Moves.{rotated, rotated_back, IsReversed, IsReversedBetween, IsRotated};

use crate::vob::Vob;
use vob_block::Kernel;
use vob_store::reverse::reverse_bits_between;

impl<T: Kernel> Vob<T> {
    /// Reverses the order of the bits: the last one becomes the first. Takes no memory.
    ///
    /// ```
    /// let mut vob = vob::vob!(alloc; true, true, false)?;
    /// vob.reverse();
    /// assert!(rt; vob == vob::vob!(alloc; false, true, true)?);
    /// ```
    pub fn reverse(&mut self)
        ensures bits { self.new.bits ≡ reverse self.old.bits }
        ensures each { IsReversed self.old.bits self.new.bits }
        ensures capacity { self.new.capacity ≡ self.old.capacity }
    {
        self.reverse_between(0, self.len());
    }

    /// Rotates the bits down by `n` indices: the first `n` bits are put after the others. `n` is taken
    /// modulo the length. If it is a multiple of the length, writes no block. Takes no memory.
    ///
    /// ```
    /// let mut vob = vob::vob!(alloc; true, true, false)?;
    /// vob.rotate_left(1);
    /// assert!(rt; vob == vob::vob!(alloc; true, false, true)?);
    /// ```
    pub fn rotate_left(&mut self, n: usize)
        ensures bits { self.new.bits ≡ rotated n self.old.bits }
        ensures each { IsRotated n self.old.bits self.new.bits }
        ensures capacity { self.new.capacity ≡ self.old.capacity }
    {
        let len = self.len();
        if len > 0 {
            self.rotate_by(n % len);
        }
    }

    /// Rotates the bits up by `n` indices: the last `n` bits are put before the others. `n` is taken
    /// modulo the length. If it is a multiple of the length, writes no block. Takes no memory.
    ///
    /// ```
    /// let mut vob = vob::vob!(alloc; true, true, false)?;
    /// vob.rotate_right(1);
    /// assert!(rt; vob == vob::vob!(alloc; false, true, true)?);
    /// ```
    pub fn rotate_right(&mut self, n: usize)
        ensures bits { self.new.bits ≡ rotated_back n self.old.bits }

        ensures moved { IsRotated (length self.old.bits - n % length self.old.bits)
            self.old.bits self.new.bits }

        // Rotated left by `n` again, they are the old ones.
        ensures each { IsRotated n self.new.bits self.old.bits }
        ensures capacity { self.new.capacity ≡ self.old.capacity }
    {
        let len = self.len();
        if len > 0 {
            self.rotate_by(len - n % len);
        }
    }

    /// Puts the first `n` bits after the others: both parts are reversed, and then all bits. If there
    /// is one part alone, writes no block.
    fn rotate_by(&mut self, n: usize)
        requires { n ≤ length self.old.bits }
        ensures bits { self.new.bits ≡ drop n self.old.bits ++ take n self.old.bits }
        ensures capacity { self.new.capacity ≡ self.old.capacity }
    {
        let len = self.len();
        if n == 0 || n == len {
            return;
        }
        self.reverse_between(0, n);
        self.reverse_between(n, len);
        self.reverse_between(0, len);
    }

    /// Reverses the order of the bits from index `start` to below `end`.
    fn reverse_between(&mut self, start: usize, end: usize)
        requires order { start ≤ end }
        requires inside { end ≤ length self.old.bits }
        ensures each { IsReversedBetween start end self.old.bits self.new.bits }
        ensures capacity { self.new.capacity ≡ self.old.capacity }
    {
        // The length is in the range of its type: a proof knows it from this read.
        let _len = self.len;
        reverse_bits_between(self.vec.as_mut_slice(), start, end);
    }
}
