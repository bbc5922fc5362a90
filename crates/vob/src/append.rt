//! Calls on many bits at once: growing, joining and cutting.
ghost use Rattle.std.specs.Prelude.{Bool, List, ◌≡◌, ◌≢◌, ◌↔◌, ℕ, ◌+◌, ◌-◌, ◌<◌, ◌≤◌, [], ◌++◌, map, length, take, drop, replicate, IsOk, IfOk, IfErr, OnOk, OnErr, Err, MatchResult};
ghost use Rattle.std.specs.Bool.{OnFalse};
ghost use Rattle.std.specs.Iterator.{IsFinite};
ghost use Rattle.std.specs.Iterator.SizeHint.{IsWithinCount};
ghost use Rattle.vob_block.specs.Packing.{need, unpacking, IsCanonical};
ghost use Rattle.vob_block.specs.Reading.{AreReadOnce};
ghost use Rattle.vob_store.specs.Gathering.{Gives, GoesOn};
ghost use Rattle.vob_walk.specs.Matches.{ForSomeRange};
ghost use Rattle.vob.specs.Drain.{bits_within, IsDrained};
ghost use Rattle.vob.specs.Extending.{AddsAll, IsExtended, RefusesItem, RefusesMore};
ghost use Rattle.vob.specs.Refusal.{RefusesPastEnd};
ghost use Rattle.vob.specs.Vob.{HasRoomFor};

use crate::error::VobError;
use crate::vob::Vob;
use std::alloc::AllocError;
use std::mem;
use std::ops::RangeBounds;
use vob_block::{Blocks, Kernel};
use vob_store::append::{join, join_slice};
use vob_store::fill::append_fill;
use vob_store::gather::fill_last;
use vob_store::mask::truncate_to;
use vob_store::pack::append_slice;
use vob_store::room::reserve_bits;
use vob_walk::range::cut_range;

impl<T: Kernel> Vob<T> {
    /// Cuts the bits to `new_len`, or appends bits of `value` up to `new_len`. Fails if memory
    /// runs out, where vob 4.0.1 ends the process. That panics if it appends set bits after whole
    /// blocks.
    ///
    /// ```
    /// let mut vob = vob::vob!(alloc; false)?;
    /// vob.resize(3, true)?;
    /// assert!(rt; vob == vob::vob!(alloc; false, true, true)?);
    /// ```
    pub fn resize(&mut self, new_len: usize, value: bool) -> Result<(), VobError>
        ensures ok { OnOk result (self.new.bits
            ≡ take new_len self.old.bits ++ replicate (new_len - length self.old.bits) value) }
        ensures err { OnErr result (self.new.bits ≡ self.old.bits) }
        ensures err_capacity { OnErr result (self.new.capacity ≡ self.old.capacity) }

        // Memory is asked for only if there is no room, and nothing else is refused.
        ensures memory { OnErr result ((result ≡ Err VobError.Memory) × (self.old.capacity < new_len)
            × (need (length self.old.bits) T.BITS < need new_len T.BITS)) }
        ensures capacity { self.old.capacity ≤ self.new.capacity }
    {
        if new_len <= self.len {
            self.truncate(new_len);
            return Ok(());
        }
        reserve_bits(&mut self.vec, new_len)?;
        append_fill(&mut self.vec, self.len, new_len, value);
        self.len = new_len;
        Ok(())
    }

    /// Appends the bits of a slice. Fails if the length would exceed `usize::MAX`, where vob
    /// 4.0.1 panics after it appended what fits. Fails if memory runs out, where it ends the
    /// process. A failed call changes no bit.
    pub fn extend_from_slice(&mut self, other: &[bool]) -> Result<(), VobError>
        ensures ok { OnOk result (self.new.bits ≡ self.old.bits ++ other.now) }
        ensures err { OnErr result (self.new.bits ≡ self.old.bits) }
        ensures err_capacity { OnErr result (self.new.capacity ≡ self.old.capacity) }

        // A length that is too great fails first. Memory is asked for only if there is no room.
        ensures refused { RefusesMore T.BITS self.old (length other.now) result }
        ensures capacity { self.old.capacity ≤ self.new.capacity }
    {
        if usize::MAX - self.len < other.len() {
            return Err(VobError::TooLong);
        }
        reserve_bits(&mut self.vec, self.len + other.len())?;
        append_slice(&mut self.vec, self.len, other);
        self.len += other.len();
        Ok(())
    }

    /// Appends the items of an iterator that ends. Reserves the lower bound of its size hint
    /// first; if that fails, nothing is appended. If an item fails, those before it stay. Fails
    /// as `push` does, where vob 4.0.1 panics or ends the process.
    pub fn extend<I: IntoIterator<Item = bool>>(&mut self, iter: I) -> Result<(), VobError>
        requires { (it : I.IntoIter) → I.into_iter_gives iter it
            → I.IntoIter.can_next it × IsFinite (I.IntoIter.remaining it) }
        ensures extended { (it : I.IntoIter) × (hint : ℕ) × I.into_iter_gives iter it
            × IsWithinCount hint (I.IntoIter.remaining it)
            × IsExtended I.IntoIter.next_gives it hint self.old self.new result }
        ensures capacity { self.old.capacity ≤ self.new.capacity }
    {
        let items = iter.into_iter();
        let (hint, _) = items.size_hint();
        self.reserve(hint)?;
        self.push_all(items)
    }

    /// Takes items for the places that the last block has left. Returns whether the iterator ended.
    fn fill_last<I: Iterator<Item = bool>>(&mut self, items: &mut I) -> bool
        requires can { I.can_next items.old }
        requires ends { IsFinite (I.remaining items.old) }
        ensures added { (bits : List Bool) × Gives I.next_gives items.old bits items.new result
            × (self.new.bits ≡ self.old.bits ++ bits) }
        ensures goes_on { OnFalse result (GoesOn I.can_next I.remaining items.old items.new) }
        ensures capacity { self.new.capacity ≡ self.old.capacity }
    {
        let taken = fill_last(&mut self.vec, self.len, items);
        self.len += taken.count;
        taken.ended
    }

    /// Pushes the items one after another. If one is refused, those before it stay.
    pub(crate) fn push_all<I: Iterator<Item = bool>>(
        &mut self,
        mut items: I,
    ) -> Result<(), VobError>
        requires ends { I.can_next items × IsFinite (I.remaining items) }
        ensures ok { OnOk result (AddsAll I.next_gives items self.old self.new) }
        ensures err { IfErr result (RefusesItem I.next_gives items self.old self.new 0) }
        ensures capacity { self.old.capacity ≤ self.new.capacity }
    {
        // An item is pushed if it may need a block. Those after it are gathered in a register, up
        // to the end of the block.
        'turns: while let Some(bit) = items.next() {
            self.push(bit)?;
            if self.fill_last(&mut items) {
                return Ok(());
            }
        }
        Ok(())
    }

    /// Appends the `more` bits that `other` holds, in the room that there is. Reads each block of
    /// `other` once. vob 4.0.1 has a private call like it.
    pub fn append_blocks(&mut self, other: &mut Blocks<'_, T>, more: usize)
        requires other { IsCanonical more (map T.number other.old.items) T.BITS }
        requires room { HasRoomFor self.old more }
        ensures bits { self.new.bits ≡ self.old.bits ++ unpacking more (map T.number other.old.items) T.BITS }
        ensures capacity { self.old.capacity ≤ self.new.capacity }
        ensures read { AreReadOnce other.old other.new }
    {
        join(&mut self.vec, self.len, other, more);
        self.len += more;
    }

    /// Appends the bits of `other`. Fails if the length would exceed `usize::MAX`, where vob
    /// 4.0.1 panics. Fails if memory runs out, where it ends the process. A failed call changes
    /// no bit.
    ///
    /// ```
    /// let mut vob = vob::vob!(alloc; true, false)?;
    /// vob.extend_from_vob(&vob::vob!(alloc; true)?)?;
    /// assert!(rt; vob == vob::vob!(alloc; true, false, true)?);
    /// ```
    pub fn extend_from_vob(&mut self, other: &Vob<T>) -> Result<(), VobError>
        ensures ok { OnOk result (self.new.bits ≡ self.old.bits ++ other.now.bits) }
        ensures err { OnErr result (self.new.bits ≡ self.old.bits) }
        ensures err_capacity { OnErr result (self.new.capacity ≡ self.old.capacity) }

        // A length that is too great fails first. Memory is asked for only if there is no room.
        ensures refused { RefusesMore T.BITS self.old (length other.now.bits) result }
        ensures capacity { self.old.capacity ≤ self.new.capacity }
    {
        if usize::MAX - self.len < other.len {
            return Err(VobError::TooLong);
        }
        reserve_bits(&mut self.vec, self.len + other.len)?;
        join_slice(&mut self.vec, self.len, other.vec.as_slice(), other.len);
        self.len += other.len;
        Ok(())
    }

    /// Keeps the bits below `at`, and returns the others. Fails if `at` is above the length,
    /// where vob 4.0.1 returns an empty Vob. Fails if memory runs out, where it ends the process;
    /// if one part is empty, none is asked for. A failed call changes nothing.
    ///
    /// ```
    /// let mut vob = vob::vob!(alloc; true, false, true)?;
    /// let rest = vob.split_off(1)?;
    /// assert!(rt; rest == vob::vob!(alloc; false, true)?);
    /// ```
    pub fn split_off(&mut self, at: usize) -> Result<Vob<T>, VobError>
        ensures rest { IfOk result (λ vob. vob.bits ≡ drop at self.old.bits) }
        ensures ok { OnOk result (self.new.bits ≡ take at self.old.bits) }
        ensures err { OnErr result (self.new.bits ≡ self.old.bits) }

        // An index past the end is refused first, and memory is the only other refusal.
        ensures refused { RefusesPastEnd self.old.bits at result }

        // If one part is empty, no memory is asked for.
        ensures whole { at ≡ 0 → IsOk result }
        ensures nothing { at ≡ length self.old.bits → IsOk result }

        // A cut at 0 gives the storage away.
        ensures capacity { 0 < at → self.new.capacity ≡ self.old.capacity }
        ensures err_capacity { OnErr result (self.new.capacity ≡ self.old.capacity) }
    {
        let len = self.len;
        if at > len {
            return Err(VobError::PastEnd);
        }
        if at == 0 {
            let empty = Vob::empty(*self.vec.allocator());
            return Ok(mem::replace(self, empty));
        }
        let rest = self.take_between(at, len)?;
        Ok(rest)
    }

    /// Removes the bits of a range and returns them; the others close up in order. Every pair of
    /// bounds is accepted. An index belongs to the range if it is below the length and meets both
    /// bounds as whole numbers. Fails if memory runs out, and then changes nothing; if the range
    /// holds no bit, none is asked for. vob 4.0.1 has no such call.
    ///
    /// ```
    /// let mut vob = vob::vob!(alloc; true, false, true)?;
    /// assert!(rt; vob.drain(1..2)? == vob::vob!(alloc; false)?);
    /// assert!(rt; vob == vob::vob!(alloc; true, true)?);
    /// ```
    pub fn drain<R: RangeBounds<usize>>(&mut self, range: R) -> Result<Vob<T>, AllocError>
        ensures ok { R.has_bounds range → IfOk result (λ vob.
            IsDrained (R.start_bound range) (R.end_bound range) self.old.bits vob.bits self.new.bits) }
        ensures err { OnErr result (self.new.bits ≡ self.old.bits) }

        // If the range holds no bit, no memory is asked for.
        ensures nothing { R.has_bounds range
            → bits_within (R.start_bound range) (R.end_bound range) self.old.bits ≡ [] → IsOk result }
        ensures some { ForSomeRange (length self.old.bits) (λ low high. MatchResult result
            (λ vob. IsDrained low high self.old.bits vob.bits self.new.bits)
            (λ _. bits_within low high self.old.bits ≢ [])) }
        ensures capacity { self.new.capacity ≡ self.old.capacity }
    {
        let (start, end) = cut_range(&range, self.len);
        self.take_between(start, end)
    }

    /// Takes the bits from index `start` to below `end` out, and returns them. No bits take no memory.
    fn take_between(&mut self, start: usize, end: usize) -> Result<Vob<T>, AllocError>
        requires order { start ≤ end }
        requires inside { end ≤ length self.old.bits }
        ensures taken { IfOk result (λ vob. vob.bits ≡ take (end - start) (drop start self.old.bits)) }
        ensures left { OnOk result
            (self.new.bits ≡ take start self.old.bits ++ drop end self.old.bits) }
        ensures err { OnErr result (self.new.bits ≡ self.old.bits) }
        ensures nothing { start ≡ end → IsOk result }
        ensures capacity { self.new.capacity ≡ self.old.capacity }
    {
        let taken = self.bits_between(start, end)?;
        if start < end {
            self.remove_from(start, end - start);
        }
        Ok(taken)
    }
}
