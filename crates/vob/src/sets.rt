//! A Vob as a set of indices, those of its set bits: search, rank and select, and comparison with
//! another set. vob 4.0.1 has none of these calls.
ghost use Rattle.std.specs.Prelude.{◌≡◌, ◌≢◌, ◌↔◌, ℕ, ◌<◌, ◌≤◌, ◌/◌, ◌*◌, ◌&&◌, ◌||◌, true, false, take};
ghost use Rattle.std.specs.Prelude.{length, replicate, slice_index_or, All, Any, Err, IfErr, IfOk, IfSome, IsErr, IsTrue};
ghost use Rattle.std.specs.Prelude.{MatchOption, None, IsOk, OnErr, OnOk, slice_set, ◌+◌, ◌++◌, ◌-◌};
ghost use Rattle.vob_block.specs.Pointwise.{differ, pointwise, without};
ghost use Rattle.vob.specs.Bits.{AreCombined, IsWritten, LosesBits, count_of};
ghost use Rattle.vob.specs.Extending.{RefusesMore};
ghost use Rattle.vob.specs.Indices.{HasSet, IsFirstOutside, IsMadeOf, IsSetAt, MayRefuseIndices};
ghost use Rattle.vob.specs.Sets.{AreDisjoint, HasBit, HasOnly, HasOther, HasShared, IsBit, IsIndexOfRank, IsNext, IsPrevious, IsSubset};
ghost use Rattle.vob.specs.Vob.{HaveSameLength};

use crate::error::{IndicesError, VobError};
use crate::vob::Vob;
use std::alloc::Global;
use vob_block::{And, Combine, Kernel, Or, Without, Xor};
use vob_store::combined::{count_combined, has_none};
use vob_walk::{count_ones_in, index_of_rank, next_index, previous_index};

impl<T: Kernel> Vob<T> {
    /// Makes the Vob of `len` bits of which those at the given indices are set. An index may
    /// stand among them more than once. Fails if an index is at or past `len`, and names the
    /// first one, whether or not there is memory. Fails if memory runs out; length 0 takes none.
    ///
    /// ```
    /// let vob = vob::Vob::<u8>::from_indices(alloc, 3, &[2, 0, 2])?;
    /// assert_eq!(rt; vob.get(1), Some(false));
    /// assert_eq!(rt; vob.get(2), Some(true));
    /// ```
    pub fn from_indices(
        alloc: Global,
        len: usize,
        indices: &[usize],
    ) -> Result<Vob<T>, IndicesError>
        ensures bits { IfOk result (λ vob. IsMadeOf len indices.now vob.bits) }
        ensures out_of_range { (position : ℕ)
            → (result ≡ Err (IndicesError.OutOfRange position))
            ↔ IsFirstOutside len indices.now position }
        ensures nothing { len ≡ 0 → result ≢ Err IndicesError.Memory }
        ensures refused { IfErr result (MayRefuseIndices len indices.now) }
    {
        if let Ok(mut vob) = Vob::from_elem_with_storage_type(alloc, false, len) {
            if vob.set_each(indices) {
                return Ok(vob);
            }
        }
        Err(match first_outside(indices, len) {
            Some(position) => IndicesError::OutOfRange { position },
            None => IndicesError::Memory,
        })
    }

    /// Sets the bits at the given indices. An index may stand among them more than once. Fails if an
    /// index is at or past the length, names the first one, and changes nothing.
    ///
    /// ```
    /// let mut vob = vob::vob!(alloc; true, false, false)?;
    /// vob.set_indices(&[2])?;
    /// assert!(rt; vob == vob::vob!(alloc; true, false, true)?);
    /// ```
    pub fn set_indices(&mut self, indices: &[usize]) -> Result<(), IndicesError>
        ensures set { OnOk result (IsSetAt indices.now self.old.bits self.new.bits) }
        ensures err { OnErr result (self.new.bits ≡ self.old.bits) }
        ensures out_of_range { (position : ℕ)
            → (result ≡ Err (IndicesError.OutOfRange position))
            ↔ IsFirstOutside (length self.old.bits) indices.now position }
        ensures memory { result ≢ Err IndicesError.Memory }
        ensures refused { IfErr result (MayRefuseIndices (length self.old.bits) indices.now) }
        ensures outside { IsErr result ↔ Any (λ i. length self.old.bits ≤ i) indices.now }
        ensures capacity { self.new.capacity ≡ self.old.capacity }
    {
        if let Some(position) = first_outside(indices, self.len()) {
            return Err(IndicesError::OutOfRange { position });
        }
        self.set_each(indices);
        Ok(())
    }

    /// Sets bit `index`. If it is at or past the length, unset bits are appended up to it first. Fails
    /// if the length would exceed `usize::MAX`, or if memory runs out, and then changes no bit.
    ///
    /// ```
    /// let mut vob = vob::vob!(alloc; true)?;
    /// vob.grow_and_set(2)?;
    /// assert!(rt; vob == vob::vob!(alloc; true, false, true)?);
    /// ```
    pub fn grow_and_set(&mut self, index: usize) -> Result<(), VobError>
        ensures ok { OnOk result (self.new.bits ≡ slice_set (self.old.bits
            ++ replicate (index + 1 - length self.old.bits) false) index true) }
        ensures err { OnErr result (self.new.bits ≡ self.old.bits) }
        ensures err_capacity { OnErr result (self.new.capacity ≡ self.old.capacity) }
        ensures refused { RefusesMore T.BITS self.old (index + 1 - length self.old.bits) result }

        // Within the length nothing is asked for.
        ensures inside { index < length self.old.bits
            → IsOk result × (self.new.capacity ≡ self.old.capacity) }
        ensures capacity { self.old.capacity ≤ self.new.capacity }
    {
        if index < self.len() {
            self.set(index, true);
            return Ok(());
        }
        if index == usize::MAX {
            return Err(VobError::TooLong);
        }
        self.resize(index + 1, false)?;
        self.set(index, true);
        Ok(())
    }

    /// Sets the bits at the given indices up to the first one that is past the end. Returns true if
    /// none is.
    fn set_each(&mut self, indices: &[usize]) -> bool
        ensures inside { IsTrue result ↔ All (λ i. i < length self.old.bits) indices.now }
        ensures set { IsTrue result
            → HasSet indices.now (length indices.now) self.old.bits self.new.bits }
        ensures capacity { self.new.capacity ≡ self.old.capacity }
    {
        if !self.set_fours(indices) {
            return false;
        }
        for position in indices.len() / 4 * 4..indices.len() {
            if !self.set_inside(indices[position]) {
                return false;
            }
        }
        true
    }

    /// Does the same with the indices that make whole fours. It takes four a turn: the steps of the
    /// turn cost a third of those of an index.
    fn set_fours(&mut self, indices: &[usize]) -> bool
        ensures inside { IsTrue result
            ↔ ((k : ℕ) → k < length indices.now / 4 * 4
            → slice_index_or indices.now k 0 < length self.old.bits) }
        ensures set { IsTrue result
            → HasSet indices.now (length indices.now / 4 * 4) self.old.bits self.new.bits }
        ensures capacity { self.new.capacity ≡ self.old.capacity }
    {
        for turn in 0..indices.len() / 4 {
            let position = 4 * turn;
            if !(self.set_inside(indices[position])
                && self.set_inside(indices[position + 1])
                && self.set_inside(indices[position + 2])
                && self.set_inside(indices[position + 3]))
            {
                return false;
            }
        }
        true
    }

    /// Sets the bit at an index and returns true, or returns false if it is past the end.
    #[inline(always)]
    fn set_inside(&mut self, index: usize) -> bool
        ensures inside { IsTrue result ↔ index < length self.old.bits }
        ensures written { IsTrue result → IsWritten self.old.bits index true self.new.bits }
        ensures len { length self.new.bits ≡ length self.old.bits }
        ensures capacity { self.new.capacity ≡ self.old.capacity }
    {
        let inside = index < self.len();
        if inside {
            self.set(index, true);
        }
        inside
    }

    /// Returns whether some bit is set; false if there are no bits.
    pub fn any(&self) -> bool
        ensures answer { IsTrue result ↔ HasBit true self.now.bits }
        ensures list { IsTrue result ↔ (self.now.bits ≢ replicate (length self.now.bits) false) }
        ensures unset { result ≡ false → HasOnly false self.now.bits }
    {
        self.first_set().is_some()
    }

    /// Returns whether every bit is set; true if there are no bits.
    pub fn all(&self) -> bool
        ensures answer { IsTrue result ↔ HasOnly true self.now.bits }
        ensures list { IsTrue result ↔ (self.now.bits ≡ replicate (length self.now.bits) true) }
        ensures unset { result ≡ false → HasBit false self.now.bits }
    {
        self.first_unset().is_none()
    }

    /// Returns whether no bit is set.
    pub fn none(&self) -> bool
        ensures answer { IsTrue result ↔ HasOnly false self.now.bits }
        ensures list { IsTrue result ↔ (self.now.bits ≡ replicate (length self.now.bits) false) }
        ensures set { result ≡ false → HasBit true self.now.bits }
    {
        self.first_set().is_none()
    }

    /// Returns the index of the first set bit, or `None` if no bit is set.
    pub fn first_set(&self) -> Option<usize>
        ensures next { IsNext true self.now.bits 0 result }
        ensures inside { IfSome result (λ i. IsBit true self.now.bits i) }
        ensures most { IfSome result (λ i. i ≤ count_of false self.now.bits) }
        ensures none { result ≡ None → count_of false self.now.bits ≡ length self.now.bits }
    {
        self.next_set(0)
    }

    /// Returns the index of the last set bit, or `None` if no bit is set.
    pub fn last_set(&self) -> Option<usize>
        ensures previous { IsPrevious true self.now.bits (length self.now.bits) result }
        ensures inside { IfSome result (λ i. IsBit true self.now.bits i) }
    {
        self.previous_set(self.len())
    }

    /// Returns the index of the first unset bit, or `None` if every bit is set.
    pub fn first_unset(&self) -> Option<usize>
        ensures next { IsNext false self.now.bits 0 result }
        ensures inside { IfSome result (λ i. IsBit false self.now.bits i) }
        ensures most { IfSome result (λ i. i ≤ count_of true self.now.bits) }
        ensures none { result ≡ None → count_of true self.now.bits ≡ length self.now.bits }
    {
        self.next_unset(0)
    }

    /// Returns the index of the last unset bit, or `None` if every bit is set.
    pub fn last_unset(&self) -> Option<usize>
        ensures previous { IsPrevious false self.now.bits (length self.now.bits) result }
        ensures inside { IfSome result (λ i. IsBit false self.now.bits i) }
    {
        self.previous_unset(self.len())
    }

    /// Returns the index of the first set bit at or above `from`, which may be past the end.
    #[inline(always)]
    pub fn next_set(&self, from: usize) -> Option<usize>
        ensures next { IsNext true self.now.bits from result }
        ensures inside { IfSome result (λ i. IsBit true self.now.bits i) }
        ensures above { IfSome result (λ i. (from ≤ i) × (i < usize.MAX)) }
    {
        next_index(&mut self.blocks(), true, self.len(), from)
    }

    /// Returns the index of the first unset bit at or above `from`. From the length on there is
    /// none.
    #[inline(always)]
    pub fn next_unset(&self, from: usize) -> Option<usize>
        ensures next { IsNext false self.now.bits from result }
        ensures inside { IfSome result (λ i. IsBit false self.now.bits i) }
        ensures above { IfSome result (λ i. (from ≤ i) × (i < usize.MAX)) }
    {
        next_index(&mut self.blocks(), false, self.len(), from)
    }

    /// Returns the index of the last set bit at or below `from`, which may be past the end.
    #[inline(always)]
    pub fn previous_set(&self, from: usize) -> Option<usize>
        ensures previous { IsPrevious true self.now.bits from result }
        ensures inside { IfSome result (λ i. IsBit true self.now.bits i) }
        ensures below { IfSome result (λ i. i ≤ from) }
    {
        previous_index(&mut self.blocks(), true, self.len(), from)
    }

    /// Returns the index of the last unset bit at or below `from`. From the length on there is
    /// none.
    #[inline(always)]
    pub fn previous_unset(&self, from: usize) -> Option<usize>
        ensures previous { IsPrevious false self.now.bits from result }
        ensures inside { IfSome result (λ i. IsBit false self.now.bits i) }
        ensures below { IfSome result (λ i. i ≤ from) }
    {
        previous_index(&mut self.blocks(), false, self.len(), from)
    }

    /// Counts the set bits.
    ///
    /// ```
    /// let vob = vob::vob!(alloc; true, false, true)?;
    /// assert_eq!(rt; vob.count_ones(), 2);
    /// ```
    pub fn count_ones(&self) -> usize
        ensures count { result ≡ count_of true self.now.bits }
        ensures most { result ≤ length self.now.bits }
    {
        self.rank(self.len())
    }

    /// Counts the unset bits.
    pub fn count_zeros(&self) -> usize
        ensures count { result ≡ count_of false self.now.bits }
        ensures most { result ≤ length self.now.bits }
    {
        self.len() - self.count_ones()
    }

    /// Counts the set bits below `index`: all of them if it is past the end.
    pub fn rank(&self, index: usize) -> usize
        ensures count { result ≡ count_of true (take index self.now.bits) }
        ensures most { result ≤ length self.now.bits }
        ensures below { result ≤ index }
    {
        count_ones_in(&mut self.blocks(), 0, index.min(self.len()))
    }

    /// Returns the index of the `k`-th set bit, counting from 0, or `None` if there are at most
    /// `k` set bits.
    pub fn select(&self, k: usize) -> Option<usize>
        ensures rank { IsIndexOfRank self.now.bits k result }
        ensures inside { IfSome result (λ i. IsBit true self.now.bits i) }
    {
        // The length is in the range of its type: a proof knows it from this read.
        let _len = self.len;
        index_of_rank(&mut self.blocks(), k)
    }

    /// Removes the bits that the other has, and returns whether a bit changed. The lengths must
    /// be equal. Reads each block of the other once.
    #[inline]
    pub fn and_not(&mut self, other: &Vob<T>) -> bool
        requires { HaveSameLength self.old other.now }
        ensures bits { self.new.bits ≡ pointwise without self.old.bits other.now.bits }
        ensures each { AreCombined without self.old.bits other.now.bits self.new.bits }
        ensures changed { IsTrue result ↔ (self.new.bits ≢ self.old.bits) }
        ensures fewer { LosesBits result self.old.bits self.new.bits }
        ensures capacity { self.new.capacity ≡ self.old.capacity }
    {
        self.combine::<Without>(other)
    }

    /// Returns whether the other has each set bit too. The lengths must be equal.
    pub fn is_subset(&self, other: &Vob<T>) -> bool
        requires { HaveSameLength self.now other.now }
        ensures answer { IsTrue result ↔ IsSubset self.now.bits other.now.bits }
        ensures list { IsTrue result ↔ (pointwise without self.now.bits other.now.bits
            ≡ replicate (length self.now.bits) false) }
        ensures outside { result ≡ false → HasOther self.now.bits other.now.bits }
    {
        has_none::<Without, T>(self.vec.as_slice(), &mut other.blocks())
    }

    /// Returns whether each set bit of the other is set here too. The lengths must be equal.
    pub fn is_superset(&self, other: &Vob<T>) -> bool
        requires { HaveSameLength self.now other.now }
        ensures answer { IsTrue result ↔ IsSubset other.now.bits self.now.bits }
        ensures list { IsTrue result ↔ (pointwise without other.now.bits self.now.bits
            ≡ replicate (length other.now.bits) false) }
        ensures outside { result ≡ false → HasOther other.now.bits self.now.bits }
    {
        other.is_subset(self)
    }

    /// Returns whether no bit is set in both. The lengths must be equal.
    pub fn is_disjoint(&self, other: &Vob<T>) -> bool
        requires { HaveSameLength self.now other.now }
        ensures answer { IsTrue result ↔ AreDisjoint self.now.bits other.now.bits }
        ensures list { IsTrue result ↔ (pointwise ◌&&◌ self.now.bits other.now.bits
            ≡ replicate (length self.now.bits) false) }
        ensures shared { result ≡ false → HasShared self.now.bits other.now.bits }
    {
        has_none::<And, T>(self.vec.as_slice(), &mut other.blocks())
    }

    /// Counts the bits that are set in both. The lengths must be equal.
    pub fn count_and(&self, other: &Vob<T>) -> usize
        requires { HaveSameLength self.now other.now }
        ensures count { result ≡ count_of true (pointwise ◌&&◌ self.now.bits other.now.bits) }
        ensures most { result ≤ length self.now.bits }
    {
        self.combined_count::<And>(other)
    }

    /// Counts the bits that are set in either. The lengths must be equal.
    pub fn count_or(&self, other: &Vob<T>) -> usize
        requires { HaveSameLength self.now other.now }
        ensures count { result ≡ count_of true (pointwise ◌||◌ self.now.bits other.now.bits) }
        ensures most { result ≤ length self.now.bits }
    {
        self.combined_count::<Or>(other)
    }

    /// Counts the bits that are set here and not in the other. The lengths must be equal.
    pub fn count_and_not(&self, other: &Vob<T>) -> usize
        requires { HaveSameLength self.now other.now }
        ensures count { result ≡ count_of true (pointwise without self.now.bits other.now.bits) }
        ensures most { result ≤ length self.now.bits }
    {
        self.combined_count::<Without>(other)
    }

    /// Counts the bits that are set in exactly one. The lengths must be equal.
    pub fn count_xor(&self, other: &Vob<T>) -> usize
        requires { HaveSameLength self.now other.now }
        ensures count { result ≡ count_of true (pointwise differ self.now.bits other.now.bits) }
        ensures most { result ≤ length self.now.bits }
    {
        self.combined_count::<Xor>(other)
    }

    /// Counts the set bits of the combination.
    fn combined_count<C: Combine>(&self, other: &Vob<T>) -> usize
        requires same { HaveSameLength self.now other.now }
        requires none { C.of_bits false false ≡ false }
        ensures count { result ≡ count_of true (pointwise C.of_bits self.now.bits other.now.bits) }
        ensures most { result ≤ length self.now.bits }
    {
        // The length is in the range of its type: a proof knows it from this read.
        let _len = self.len;
        count_combined::<C, T>(self.vec.as_slice(), &mut other.blocks())
    }
}

/// The position of the first index that is at or past `len`.
fn first_outside(indices: &[usize], len: usize) -> Option<usize>
    ensures { MatchOption result (All (λ i. i < len) indices.now)
        (IsFirstOutside len indices.now) }
{
    for position in 0..indices.len() {
        if indices[position] >= len {
            return Some(position);
        }
    }
    None
}
