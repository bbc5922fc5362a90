//! The vector of bits, seen by contracts as its list of bits and its capacity.
ghost use Rattle.std.specs.Prelude.{◌≡◌, ◌↔◌, ◌+◌, ◌<◌, ◌≤◌, [], ◌∷◌, ◌++◌, map, length, slice_get, IsOk, IsSome, IfOk, IfSome, IfErr, OnOk, OnErr, Err, ◌≢◌, ◌==◌, ◌-◌};
ghost use Rattle.std.specs.Prelude.{take, slice_set, false, IsTrue, Some, vec_capacity, ◌^◌, List, Bool, replicate, ℕ, ◌⊎◌, ◌*◌, ◌/◌, ◌%◌};
ghost use Rattle.vob_block.specs.Packing.{item, packing, unpacking, IsCanonical, Stores};
ghost use Rattle.vob_block.specs.Places.{place};
ghost use Rattle.vob_block.specs.Bytes.{bytes_list};
ghost use Rattle.std.specs.Iterator.{IsFinite, Yields, Drains};
ghost use Rattle.std.specs.Iterator.SizeHint.{IsWithinCount};
ghost use Rattle.vob_block.specs.Pointwise.{differ};
ghost use Rattle.vob.specs.Bits.{IsWritten};
ghost use Rattle.vob.specs.Extending.{GivesAll, RefusesItems, RefusesMore};
ghost use Rattle.vob.specs.Vob.{HasRoomFor};

pub use crate::error::VobError;
use crate::iter::StorageIter;
use std::alloc::{AllocError, Global};
use std::marker::Model;
use std::ops::Index;
use vob_block::{Blocks, Kernel};
use vob_store::bytes::byte_blocks;
use vob_store::fill::filled_blocks;
use vob_store::mask::truncate_to;
use vob_store::pack::packed_blocks;
use vob_store::room::reserve_bits;
use vob_store::single::{append_bit, first_place, stored_bit, write_bit};

/// A vector of bits in blocks of the type `T`. Bit `i` stands in block `i / T::BITS`, at the place
/// `i % T::BITS`, and the unused bits of the last block are 0.
#[derive(Drop)]
pub struct Vob<T: Kernel = usize> {
    // In bits.
    pub(crate) len: usize,
    pub(crate) vec: Vec<T>,
}

impl<T: Kernel> Model for Vob<T> {
    ghost use Rattle.std.specs.Prelude.{◌*◌, ◌-◌, ◌^◌, map, min, vec_capacity};
    ghost use Rattle.vob_block.specs.Packing.{unpacking, IsCanonical};
    ghost use Rattle.vob.specs.Vob.{BitVector};

    ghost Value = { BitVector };

    ghost view = { λ v. record {
      bits = unpacking v.len (map T.number v.vec.items) T.BITS;
      capacity = min (vec_capacity v.vec * T.BITS) (2 ^ 64 - 1);
    } };

    ghost invariant = { λ v. IsCanonical v.len (map T.number v.vec.items) T.BITS };
}

impl<T: Kernel> Vob<T> {
    /// Makes an empty Vob with no room.
    pub(crate) fn empty(alloc: Global) -> Vob<T>
        ensures { result.bits ≡ [] }
    {
        Vob {
            len: 0,
            vec: Vec::new(alloc),
        }
    }

    /// Makes an empty Vob with room for `capacity` bits. Fails if memory runs out; capacity 0
    /// takes none. vob 4.0.1 ends the process there.
    pub fn new_with_storage_type(alloc: Global, capacity: usize) -> Result<Vob<T>, AllocError>
        ensures empty { IfOk result (λ vob. vob.bits ≡ []) }
        ensures room { IfOk result (λ vob. capacity ≤ vob.capacity) }
        ensures nothing { capacity ≡ 0 → IsOk result }
    {
        let vec = Vec::with_capacity(alloc, capacity.div_ceil(T::BITS))?;
        Ok(Vob { len: 0, vec })
    }

    /// Makes a Vob of `len` times `value`. Fails if memory runs out; length 0 takes none. vob
    /// 4.0.1 ends the process there.
    pub fn from_elem_with_storage_type(
        alloc: Global,
        value: bool,
        len: usize,
    ) -> Result<Vob<T>, AllocError>
        ensures bits { IfOk result (λ vob. vob.bits ≡ replicate len value) }
        ensures len { IfOk result (λ vob. length vob.bits ≡ len) }
        ensures each { IfOk result (λ vob. (i : ℕ) → i < len → item vob.bits i ≡ value) }
        ensures room { IfOk result (λ vob. len ≤ vob.capacity) }
        ensures nothing { len ≡ 0 → IsOk result }
    {
        let vec = filled_blocks(alloc, value, len)?;
        Ok(Vob { len, vec })
    }

    /// Makes a Vob with the same bits. Fails if memory runs out; an empty Vob takes none. In vob
    /// 4.0.1 this is a method of `Clone`, and ends the process there.
    ///
    /// ```
    /// let vob = vob::vob!(alloc; true, false)?;
    /// assert!(rt; vob.clone()? == vob);
    /// ```
    pub fn clone(&self) -> Result<Vob<T>, AllocError>
        ensures bits { IfOk result (λ vob. vob.bits ≡ self.now.bits) }
        ensures nothing { self.now.bits ≡ [] → IsOk result }
    {
        let mut vec = Vec::with_capacity(*self.vec.allocator(), self.vec.len())?;
        vec.extend_from_slice(self.vec.as_slice())?;
        Ok(Vob { len: self.len, vec })
    }

    /// Returns the number of bits.
    ///
    /// ```
    /// let vob = vob::vob!(alloc; true, false)?;
    /// assert_eq!(rt; vob.len(), 2);
    /// ```
    pub fn len(&self) -> usize
        ensures len { result ≡ length self.now.bits }
        ensures within { result ≤ self.now.capacity }
        ensures greatest { self.now.capacity ≤ usize.MAX }
    {
        self.len
    }

    /// Returns whether there are no bits.
    pub fn is_empty(&self) -> bool
        ensures { result ≡ (length self.now.bits == 0) }
    {
        self.len == 0
    }

    /// Returns how many bits there is room for without memory: the places of all blocks that
    /// there is room for, at most `usize::MAX`. vob 4.0.1 multiplies unchecked.
    pub fn capacity(&self) -> usize
        ensures capacity { result ≡ self.now.capacity }
        ensures within { length self.now.bits ≤ result }
    {
        // The length is in the range of its type: a proof knows it from this read.
        let _len = self.len;
        self.vec.capacity().saturating_mul(T::BITS)
    }

    /// Makes room for `additional` bits more than there are. If there is that room already,
    /// nothing changes. Fails if the length would exceed `usize::MAX`, where vob 4.0.1 panics.
    /// Fails if memory runs out, where it ends the process. vob 4.0.1 counts the missing blocks
    /// from the capacity, and so may make too little room.
    pub fn reserve(&mut self, additional: usize) -> Result<(), VobError>
        ensures ok { OnOk result (length self.old.bits + additional ≤ self.new.capacity) }
        ensures bits { self.new.bits ≡ self.old.bits }
        ensures refused { RefusesMore T.BITS self.old additional result }
        ensures err { OnErr result (self.new.capacity ≡ self.old.capacity) }
        ensures capacity { self.old.capacity ≤ self.new.capacity }
        ensures nothing { additional ≡ 0 → IsOk result }
        ensures room { HasRoomFor self.old additional
            → IsOk result × (self.new.capacity ≡ self.old.capacity) }
    {
        if additional > usize::MAX - self.len {
            return Err(VobError::TooLong);
        }
        reserve_bits(&mut self.vec, self.len + additional)?;
        Ok(())
    }

    /// Gives unused room back, as far as memory allows. The bits stay. vob 4.0.1 ends the process
    /// if memory for the smaller room runs out.
    pub fn shrink_to_fit(&mut self)
        ensures bits { self.new.bits ≡ self.old.bits }
        ensures capacity { self.new.capacity ≤ self.old.capacity }
    {
        self.vec.shrink_to_fit();
    }

    /// Returns bit `index`, or `None` from the length on.
    ///
    /// ```
    /// let vob = vob::vob!(alloc; true, false)?;
    /// assert_eq!(rt; vob.get(1), Some(false));
    /// assert_eq!(rt; vob.get(2), None);
    /// ```
    pub fn get(&self, index: usize) -> Option<bool>
        ensures bit { result ≡ slice_get self.now.bits index }
        ensures inside { IsSome result ↔ (index < length self.now.bits) }
        ensures item { IfSome result (λ bit. bit ≡ item self.now.bits index) }
    {
        if index < self.len {
            Some(stored_bit(self.vec.as_slice(), self.len, index))
        } else {
            None
        }
    }

    /// Returns bit `index`, which must be below the length. The index isn't tested. vob 4.0.1 has
    /// this as an unsafe call.
    pub fn get_unchecked(&self, index: usize) -> bool
        requires in_range { index < length self.now.bits }
        ensures bit { slice_get self.now.bits index ≡ Some result }
        ensures item { result ≡ item self.now.bits index }
    {
        stored_bit(self.vec.as_slice(), self.len, index)
    }

    /// Sets bit `index` to `value`, and returns whether it changed. The index must be below the
    /// length; vob 4.0.1 panics from there on.
    ///
    /// ```
    /// let mut vob = vob::vob!(alloc; true, false)?;
    /// assert!(rt; vob.set(1, true));
    /// assert!(rt; !vob.set(1, true));
    /// ```
    pub fn set(&mut self, index: usize, value: bool) -> bool
        requires in_range { index < length self.old.bits }
        ensures bits { self.new.bits ≡ slice_set self.old.bits index value }
        ensures written { IsWritten self.old.bits index value self.new.bits }
        ensures changed { IsTrue result ↔ (slice_get self.old.bits index ≢ Some value) }
        ensures differs { result ≡ differ (item self.old.bits index) value }
        ensures same { result ≡ false → self.new.bits ≡ self.old.bits }
        ensures capacity { self.new.capacity ≡ self.old.capacity }
    {
        write_bit(&mut self.vec, self.len, index, value)
    }

    /// Does the same as `set`, which doesn't test the index either. vob 4.0.1 has this as an
    /// unsafe call.
    pub fn set_unchecked(&mut self, index: usize, value: bool) -> bool
        requires in_range { index < length self.old.bits }
        ensures bits { self.new.bits ≡ slice_set self.old.bits index value }
        ensures written { IsWritten self.old.bits index value self.new.bits }
        ensures changed { IsTrue result ↔ (slice_get self.old.bits index ≢ Some value) }
        ensures differs { result ≡ differ (item self.old.bits index) value }
        ensures same { result ≡ false → self.new.bits ≡ self.old.bits }
        ensures capacity { self.new.capacity ≡ self.old.capacity }
    {
        self.set(index, value)
    }

    /// Appends `value`. Fails if the length is `usize::MAX`, where vob 4.0.1 panics. Fails if
    /// memory runs out, where it ends the process.
    ///
    /// ```
    /// let mut vob = Vob::new(alloc);
    /// vob.push(true)?;
    /// assert_eq!(rt; vob.get(0), Some(true));
    /// ```
    pub fn push(&mut self, value: bool) -> Result<(), VobError>
        ensures ok { OnOk result (self.new.bits ≡ self.old.bits ++ value ∷ []) }
        ensures err { OnErr result (self.new.bits ≡ self.old.bits) }
        ensures err_capacity { OnErr result (self.new.capacity ≡ self.old.capacity) }

        // The greatest length is refused first, and memory only if there is no room.
        ensures refused { RefusesMore T.BITS self.old 1 result }
        ensures capacity { self.old.capacity ≤ self.new.capacity }
    {
        if self.len == usize::MAX {
            return Err(VobError::TooLong);
        }
        append_bit(&mut self.vec, self.len, value)?;
        self.len += 1;
        Ok(())
    }

    /// Removes the last bit and returns it, or returns `None` if there are no bits.
    ///
    /// ```
    /// let mut vob = vob::vob!(alloc; true, false)?;
    /// assert_eq!(rt; vob.pop(), Some(false));
    /// ```
    pub fn pop(&mut self) -> Option<bool>
        ensures last { result ≡ slice_get self.old.bits (length self.old.bits - 1) }
        ensures bits { self.new.bits ≡ take (length self.old.bits - 1) self.old.bits }
        ensures capacity { self.new.capacity ≡ self.old.capacity }
    {
        if self.len == 0 {
            return None;
        }
        let last = self.len - 1;
        let value = stored_bit(self.vec.as_slice(), self.len, last);
        truncate_to(&mut self.vec, self.len, last);
        self.len = last;
        Some(value)
    }

    /// Removes the bits from `len` on. If there are none, nothing changes.
    ///
    /// ```
    /// let mut vob = vob::vob!(alloc; true, false, true)?;
    /// vob.truncate(1);
    /// assert!(rt; vob == vob::vob!(alloc; true)?);
    /// ```
    pub fn truncate(&mut self, len: usize)
        ensures bits { self.new.bits ≡ take len self.old.bits }
        ensures capacity { self.new.capacity ≡ self.old.capacity }
    {
        if len < self.len {
            truncate_to(&mut self.vec, self.len, len);
            self.len = len;
        }
    }

    /// Removes all bits. The room stays.
    pub fn clear(&mut self)
        ensures bits { self.new.bits ≡ [] }
        ensures capacity { self.new.capacity ≡ self.old.capacity }
    {
        self.truncate(0);
    }

    /// Returns the blocks, the one with bit 0 first. vob 4.0.1 has this with a cargo feature.
    pub fn get_storage(&self) -> &[T]
        ensures { map T.number result.now ≡ packing self.now.bits T.BITS }
    {
        self.vec.as_slice()
    }

    /// Returns the blocks, the one with bit 0 first, as `Blocks`, whose reads contracts count.
    /// vob 4.0.1 has no such call.
    pub fn blocks(&self) -> Blocks<'_, T>
        ensures blocks { map T.number result.items ≡ packing self.now.bits T.BITS }
        ensures canonical { IsCanonical (length self.now.bits) (map T.number result.items) T.BITS }
        ensures reads { result.reads ≡ 0 }
    {
        Blocks::new(self.vec.as_slice())
    }
}

impl Vob<usize> {
    /// Makes an empty Vob of the default block type. Takes no memory.
    ///
    /// ```
    /// let vob = Vob::new(alloc);
    /// assert!(rt; vob.is_empty());
    /// ```
    pub fn new(alloc: Global) -> Vob<usize>
        ensures { result.bits ≡ [] }
    {
        Vob::empty(alloc)
    }

    /// Makes an empty Vob with room for `capacity` bits. Fails if memory runs out; capacity 0
    /// takes none. vob 4.0.1 ends the process there.
    pub fn with_capacity(alloc: Global, capacity: usize) -> Result<Vob<usize>, AllocError>
        ensures empty { IfOk result (λ vob. vob.bits ≡ []) }
        ensures room { IfOk result (λ vob. capacity ≤ vob.capacity) }
        ensures nothing { capacity ≡ 0 → IsOk result }
    {
        Vob::new_with_storage_type(alloc, capacity)
    }

    /// Makes a Vob of `len` times `value`. Fails if memory runs out; length 0 takes none. vob
    /// 4.0.1 ends the process there.
    ///
    /// ```
    /// let vob = Vob::from_elem(alloc, true, 129)?;
    /// assert_eq!(rt; vob.iter_set_bits(..).count(), 129);
    /// ```
    pub fn from_elem(alloc: Global, value: bool, len: usize) -> Result<Vob<usize>, AllocError>
        ensures bits { IfOk result (λ vob. vob.bits ≡ replicate len value) }
        ensures len { IfOk result (λ vob. length vob.bits ≡ len) }
        ensures each { IfOk result (λ vob. (i : ℕ) → i < len → item vob.bits i ≡ value) }
        ensures room { IfOk result (λ vob. len ≤ vob.capacity) }
        ensures nothing { len ≡ 0 → IsOk result }
    {
        Vob::from_elem_with_storage_type(alloc, value, len)
    }

    /// Makes a Vob of the bits of a slice. Fails if memory runs out; no bits take none. vob 4.0.1
    /// has no such call.
    ///
    /// ```
    /// let vob = Vob::from_slice(alloc, &[true, false, true])?;
    /// assert_eq!(rt; vob.get(1), Some(false));
    /// ```
    pub fn from_slice(alloc: Global, bits: &[bool]) -> Result<Vob<usize>, AllocError>
        ensures bits { IfOk result (λ vob. vob.bits ≡ bits.now) }
        ensures nothing { bits.now ≡ [] → IsOk result }
    {
        let vec = packed_blocks(alloc, bits)?;
        Ok(Vob {
            len: bits.len(),
            vec,
        })
    }

    /// Makes a Vob of the bits of some bytes, the most significant bit of each byte first. Fails
    /// if eight times the number of bytes exceeds `usize::MAX`, where vob 4.0.1 panics. Fails if
    /// memory runs out, where it ends the process; no bytes take none.
    pub fn from_bytes(alloc: Global, slice: &[u8]) -> Result<Vob<usize>, VobError>
        ensures bits { IfOk result (λ vob. vob.bits ≡ bytes_list slice.now) }
        ensures too_long { (result ≡ Err VobError.TooLong) ↔ (usize.MAX < 8 * length slice.now) }
        ensures past_end { result ≢ Err VobError.PastEnd }
        ensures nothing { slice.now ≡ [] → IsOk result }
    {
        if slice.len() > usize::MAX / 8 {
            return Err(VobError::TooLong);
        }
        let vec = byte_blocks(alloc, slice)?;
        Ok(Vob {
            len: 8 * slice.len(),
            vec,
        })
    }

    /// Makes a Vob of the items of an iterator that ends. Reserves the lower bound of its size
    /// hint first. Fails if there are more than `usize::MAX` items, where vob 4.0.1 panics. Fails
    /// if memory runs out, where it ends the process.
    pub fn from_iter<I: IntoIterator<Item = bool>>(
        alloc: Global,
        iter: I,
    ) -> Result<Vob<usize>, VobError>
        requires { (it : I.IntoIter) → I.into_iter_gives iter it
            → I.IntoIter.can_next it × IsFinite (I.IntoIter.remaining it) }
        ensures bits { IfOk result (λ vob.
            GivesAll I.into_iter_gives I.IntoIter.next_gives iter vob.bits) }

        // More items than a length can count fail. Memory is asked for only if there is an item or
        // a hint at one.
        ensures refused { RefusesItems I.into_iter_gives I.IntoIter.next_gives
            I.IntoIter.remaining iter result }
    {
        let items = iter.into_iter();
        let (hint, _) = items.size_hint();
        let mut vob = Vob::with_capacity(alloc, hint)?;
        vob.push_all(items)?;
        Ok(vob)
    }
}

impl<T: Kernel> Index<usize> for Vob<T> {
    type Output = bool;

    ghost can_index = { λ vob index. index < length vob.bits };

    ghost index_gives = { λ vob index bit. (slice_get vob.bits index ≡ Some bit)
        × (bit ≡ item vob.bits index) };

    /// Returns bit `index`, which must be below the length. The index isn't tested. vob 4.0.1
    /// panics from the length on.
    fn index(&self, index: usize) -> &bool {
        if self.get_unchecked(index) {
            &true
        } else {
            &false
        }
    }
}
