//! The walks over a Vob: over its bits from both ends, and over its blocks.
ghost use Rattle.std.specs.Prelude.{◌≡◌, ◌+◌, ◌*◌, ◌^◌, ◌<◌, ◌≤◌, Bool, true, false, map, length, Some, IfSome};
ghost use Rattle.std.specs.Iterator.{YieldsFirst, YieldsLast, item_count, at_most, UpTo};
ghost use Rattle.std.specs.Iterator.SizeHint.{IsWithinCount};
ghost use Rattle.std.specs.Iterator.Runs.{YieldsInOrder, YieldsInReverse};
ghost use Rattle.vob_block.specs.Packing.{packing};
ghost use Rattle.vob_walk.specs.Matches.{ForSomeRange};
ghost use Rattle.vob_walk.specs.Walk.{IsFresh, GivesFirst, GivesLast};

use crate::vob::Vob;
use std::iter::FusedIterator;
use std::marker::Model;
use std::ops::RangeBounds;
use vob_block::Kernel;
use vob_store::single::block_bit;
pub use vob_walk::{CombinedBits, End, IndexWalk, IterSetBits, IterUnsetBits, count_ones_in, deal};

/// A walk over the bits of a Vob, seen as the list of those that are left.
#[derive(Drop)]
pub struct Iter<'a, T: Kernel> {
    pub(crate) blocks: &'a [T],
    // The bits from `next` to below `end` are left.
    pub(crate) next: usize,
    pub(crate) end: usize,
}

impl<'a, T: Kernel> Model for Iter<'a, T> {
    ghost use Rattle.std.specs.Prelude.{◌*◌, ◌≤◌, Bool, List, length, map};
    ghost use Rattle.vob.specs.Rest.{bits_between};

    ghost Value = { List Bool };

    ghost view = { λ walk. bits_between walk.next walk.end (map T.number walk.blocks.now) T.BITS };

    ghost invariant = { λ walk. (walk.next ≤ walk.end)
        × (walk.end ≤ length walk.blocks.now * T.BITS) };
}

impl<T: Kernel> Vob<T> {
    /// Returns a walk over the bits, index 0 first.
    ///
    /// ```
    /// let vob = vob::vob!(alloc; true, false)?;
    /// let mut bits = vob.iter();
    /// assert_eq!(rt; bits.next_back(), Some(false));
    /// ```
    pub fn iter(&self) -> Iter<'_, T>
        ensures bits { result ≡ self.now.bits }
        ensures longest { length result ≤ usize.MAX }

        // It gives them in order, or from the back.
        ensures runs { YieldsInOrder (YieldsFirst {A = Bool} (λ rest. rest)) (λ rest. rest) }
        ensures runs_back { YieldsInReverse (YieldsLast {A = Bool} (λ rest. rest)) (λ rest. rest) }
    {
        Iter {
            blocks: self.vec.as_slice(),
            next: 0,
            end: self.len(),
        }
    }

    /// Returns a walk over the blocks, the one with bit 0 first.
    pub fn iter_storage(&self) -> StorageIter<'_, T>
        ensures { map T.number result ≡ packing self.now.bits T.BITS }
    {
        StorageIter {
            rest: self.vec.as_slice(),
        }
    }

    /// Returns a walk over the indices of the set bits within a range, in rising order. Every
    /// pair of bounds is accepted, and the range is cut at the length. It reads no block until an
    /// index is asked for, and at most one a block that holds an index of the range. With
    /// `usize::MAX` as an included end or an excluded start vob 4.0.1 panics or wraps.
    ///
    /// ```
    /// let vob = vob::vob!(alloc; true, false, true)?;
    /// let mut indices = vob.iter_set_bits(1..);
    /// assert_eq!(rt; indices.next(), Some(2));
    /// assert_eq!(rt; indices.next(), None);
    /// ```
    pub fn iter_set_bits<R: RangeBounds<usize>>(&self, range: R) -> IterSetBits<'_, T>
        ensures fresh { R.has_bounds range
            → IsFresh result self.now.bits true (R.start_bound range) (R.end_bound range) T.BITS }
        ensures some { ForSomeRange (length self.now.bits) (λ low high.
            IsFresh result self.now.bits true low high T.BITS) }
        ensures most { length result.rest ≤ length self.now.bits }
        ensures longest { length result.rest ≤ usize.MAX }
        ensures greatest { length self.now.bits ≤ usize.MAX }
        ensures reads { result.reads ≡ 0 }
        ensures runs { YieldsInOrder GivesFirst (λ walk. walk.rest) }
        ensures runs_back { YieldsInReverse GivesLast (λ walk. walk.rest) }
    {
        IterSetBits::over(self.blocks(), self.len(), range)
    }

    /// Returns a walk over the indices of the unset bits within a range, in rising order. Every
    /// pair of bounds is accepted, and the range is cut at the length. It reads no block until an
    /// index is asked for, and at most one a block that holds an index of the range. With
    /// `usize::MAX` as an included end or an excluded start vob 4.0.1 panics or wraps.
    pub fn iter_unset_bits<R: RangeBounds<usize>>(&self, range: R) -> IterUnsetBits<'_, T>
        ensures fresh { R.has_bounds range
            → IsFresh result self.now.bits false (R.start_bound range) (R.end_bound range) T.BITS }
        ensures some { ForSomeRange (length self.now.bits) (λ low high.
            IsFresh result self.now.bits false low high T.BITS) }
        ensures most { length result.rest ≤ length self.now.bits }
        ensures longest { length result.rest ≤ usize.MAX }
        ensures greatest { length self.now.bits ≤ usize.MAX }
        ensures reads { result.reads ≡ 0 }
        ensures runs { YieldsInOrder GivesFirst (λ walk. walk.rest) }
        ensures runs_back { YieldsInReverse GivesLast (λ walk. walk.rest) }
    {
        IterUnsetBits::over(self.blocks(), self.len(), range)
    }
}

impl<'a, T: Kernel> IntoIterator for &'a Vob<T> {
    type Item = bool;

    type IntoIter = Iter<'a, T>;

    ghost into_iter_gives = { λ vob walk. (walk ≡ vob.now.bits)
        × (length walk < 2 ^ 64)
        × YieldsInOrder (YieldsFirst {A = Bool} (λ rest. rest)) (λ rest. rest)
        × YieldsInReverse (YieldsLast {A = Bool} (λ rest. rest)) (λ rest. rest) };

    fn into_iter(self) -> Iter<'a, T> {
        self.iter()
    }
}

impl<'a, T: Kernel> Iter<'a, T> {
    /// Returns a second walk over the bits that are left. It takes no memory, so it is no method
    /// of `Clone`, which returns a `Result`.
    pub fn clone(&self) -> Iter<'a, T>
        ensures { result ≡ self.now }
    {
        Iter {
            blocks: self.blocks,
            next: self.next,
            end: self.end,
        }
    }

    /// Counts the bits that are left. vob 4.0.1 overrides `Iterator::count` by this number.
    pub fn count(self) -> usize
        ensures { result ≡ length self.entry }
    {
        self.len()
    }
}

impl<'a, T: Kernel> Iterator for Iter<'a, T> {
    type Item = bool;

    ghost next_gives = { YieldsFirst (λ rest. rest) };

    ghost remaining = { item_count (λ rest. rest) };

    fn next(&mut self) -> Option<bool> {
        let index = self.next;
        if index == self.end {
            return None;
        }
        self.next = index + 1;
        Some(block_bit(self.blocks, index))
    }

    /// Returns the number of bits that are left, as both bounds.
    fn size_hint(&self) -> (usize, Option<usize>)
        ensures lower { IsWithinCount result.0 (at_most (length self.now)) }
        ensures upper { IfSome result.1 (UpTo (at_most (length self.now))) }
        ensures exact { result ≡ (length self.now, Some (length self.now)) }
    {
        let left = self.len();
        (left, Some(left))
    }
}

impl<'a, T: Kernel> DoubleEndedIterator for Iter<'a, T> {
    ghost next_back_gives = { YieldsLast (λ rest. rest) };

    fn next_back(&mut self) -> Option<bool> {
        if self.next == self.end {
            return None;
        }
        let last = self.end - 1;
        self.end = last;
        Some(block_bit(self.blocks, last))
    }
}

impl<'a, T: Kernel> ExactSizeIterator for Iter<'a, T> {
    fn len(&self) -> usize {
        self.end - self.next
    }
}

impl<'a, T: Kernel> FusedIterator for Iter<'a, T> {}

/// A walk over the blocks of a Vob, seen as the list of those that are left.
#[derive(Drop)]
pub struct StorageIter<'a, T: Kernel> {
    pub(crate) rest: &'a [T],
}

impl<'a, T: Kernel> Model for StorageIter<'a, T> {
    ghost use Rattle.std.specs.Prelude.{List};

    ghost Value = { List T };

    ghost view = { λ walk. walk.rest.now };
}

impl<'a, T: Kernel> StorageIter<'a, T> {
    /// Returns a second walk over the blocks that are left. It takes no memory, so it is no
    /// method of `Clone`, which returns a `Result`.
    pub fn clone(&self) -> StorageIter<'a, T>
        ensures { result ≡ self.now }
    {
        StorageIter { rest: self.rest }
    }

    /// Counts the blocks that are left. vob 4.0.1 overrides `Iterator::count` by this number.
    pub fn count(self) -> usize
        ensures { result ≡ length self.entry }
    {
        self.rest.len()
    }
}

impl<'a, T: Kernel> Iterator for StorageIter<'a, T> {
    type Item = T;

    ghost next_gives = { YieldsFirst (λ rest. rest) };

    ghost remaining = { item_count (λ rest. rest) };

    fn next(&mut self) -> Option<T> {
        let (first, rest) = self.rest.split_first()?;
        self.rest = rest;
        Some(*first)
    }

    /// Returns the number of blocks that are left, as both bounds.
    fn size_hint(&self) -> (usize, Option<usize>)
        ensures lower { IsWithinCount result.0 (at_most (length self.now)) }
        ensures upper { IfSome result.1 (UpTo (at_most (length self.now))) }
        ensures exact { result ≡ (length self.now, Some (length self.now)) }
    {
        let len = self.rest.len();
        (len, Some(len))
    }
}
