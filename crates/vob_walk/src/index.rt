//! The walks over the indices of set bits and of unset bits within a range, from both ends.
ghost use Rattle.std.specs.Prelude.{◌≡◌, true, false, length, map, IfSome};
ghost use Rattle.std.specs.Iterator.{item_count, at_most, UpTo};
ghost use Rattle.std.specs.Iterator.SizeHint.{IsWithinCount};
ghost use Rattle.std.specs.Iterator.Runs.{YieldsInOrder, YieldsInReverse};
ghost use Rattle.vob_block.specs.Packing.{need, unpacking};
ghost use Rattle.vob_walk.specs.Matches.{ForSomeRange};
ghost use Rattle.vob_walk.specs.Walk.{IsWhole, GivesFirst, GivesLast};

use crate::cursor::Cursor;
use crate::walk::{End, IndexWalk};
use std::iter::FusedIterator;
use std::marker::Model;
use std::ops::RangeBounds;
use vob_block::{Blocks, Kernel};

/// A walk over the indices of the set bits within a range, from both ends. It reads each block that
/// holds an index of the range at most once.
#[derive(Drop)]
pub struct IterSetBits<'a, T: Kernel> {
    cursor: Cursor<T, Blocks<'a, T>>,
}

impl<'a, T: Kernel> Model for IterSetBits<'a, T> {
    ghost use Rattle.vob_walk.specs.Walk.{Walk};

    ghost Value = { Walk };

    ghost view = { λ walk. walk.cursor };
}

impl<'a, T: Kernel> IterSetBits<'a, T> {
    /// Makes a walk over the first `len` bits of some blocks. Every pair of bounds is accepted. An index
    /// belongs to the range if it is below `len` and meets both bounds as whole numbers.
    pub fn over<R: RangeBounds<usize>>(
        blocks: Blocks<'a, T>,
        len: usize,
        range: R,
    ) -> IterSetBits<'a, T>
        requires { length blocks.items ≡ need len T.BITS }
        ensures whole { R.has_bounds range
            → IsWhole result (unpacking len (map T.number blocks.entry.items) T.BITS) true
            (R.start_bound range) (R.end_bound range) T.BITS }
        ensures some { ForSomeRange len (λ low high. IsWhole result
            (unpacking len (map T.number blocks.entry.items) T.BITS) true low high T.BITS) }
        ensures reads { result.reads ≡ blocks.entry.reads }
        ensures runs { YieldsInOrder GivesFirst (λ walk. walk.rest) }
        ensures runs_back { YieldsInReverse GivesLast (λ walk. walk.rest) }
    {
        IterSetBits {
            cursor: Cursor::over(blocks, true, len, &range),
        }
    }

    /// Counts the indices that are left. vob 4.0.1 overrides `Iterator::count` by this number.
    pub fn count(self) -> usize
        ensures { result ≡ length self.entry.rest }
    {
        self.cursor.count()
    }
}

impl<'a, T: Kernel> Iterator for IterSetBits<'a, T> {
    type Item = usize;

    ghost next_gives = { GivesFirst };

    ghost remaining = { item_count (λ walk. walk.rest) };

    #[inline(always)]
    fn next(&mut self) -> Option<usize> {
        self.cursor.next()
    }

    /// Returns no bounds, as vob 4.0.1 does: only a count can say how many indices are left.
    fn size_hint(&self) -> (usize, Option<usize>)
        ensures lower { IsWithinCount result.0 (at_most (length self.now.rest)) }
        ensures upper { IfSome result.1 (UpTo (at_most (length self.now.rest))) }
        ensures exact { result ≡ (0, None) }
    {
        (0, None)
    }
}

impl<'a, T: Kernel> DoubleEndedIterator for IterSetBits<'a, T> {
    ghost next_back_gives = { GivesLast };

    #[inline(always)]
    fn next_back(&mut self) -> Option<usize> {
        self.cursor.next_back()
    }
}

impl<'a, T: Kernel> FusedIterator for IterSetBits<'a, T> {}

impl<'a, T: Kernel> IndexWalk for IterSetBits<'a, T> {
    ghost walk = { λ walk. walk };

    fn pull(&mut self, side: End) -> Option<usize> {
        self.cursor.pull(side)
    }
}

/// A walk over the indices of the unset bits within a range, from both ends. It reads each block that
/// holds an index of the range at most once.
#[derive(Drop)]
pub struct IterUnsetBits<'a, T: Kernel> {
    cursor: Cursor<T, Blocks<'a, T>>,
}

impl<'a, T: Kernel> Model for IterUnsetBits<'a, T> {
    ghost use Rattle.vob_walk.specs.Walk.{Walk};

    ghost Value = { Walk };

    ghost view = { λ walk. walk.cursor };
}

impl<'a, T: Kernel> IterUnsetBits<'a, T> {
    /// Makes a walk over the first `len` bits of some blocks. Every pair of bounds is accepted. An index
    /// belongs to the range if it is below `len` and meets both bounds as whole numbers.
    pub fn over<R: RangeBounds<usize>>(
        blocks: Blocks<'a, T>,
        len: usize,
        range: R,
    ) -> IterUnsetBits<'a, T>
        requires { length blocks.items ≡ need len T.BITS }
        ensures whole { R.has_bounds range
            → IsWhole result (unpacking len (map T.number blocks.entry.items) T.BITS) false
            (R.start_bound range) (R.end_bound range) T.BITS }
        ensures some { ForSomeRange len (λ low high. IsWhole result
            (unpacking len (map T.number blocks.entry.items) T.BITS) false low high T.BITS) }
        ensures reads { result.reads ≡ blocks.entry.reads }
        ensures runs { YieldsInOrder GivesFirst (λ walk. walk.rest) }
        ensures runs_back { YieldsInReverse GivesLast (λ walk. walk.rest) }
    {
        IterUnsetBits {
            cursor: Cursor::over(blocks, false, len, &range),
        }
    }

    /// Counts the indices that are left. vob 4.0.1 overrides `Iterator::count`. It panics or wraps if
    /// the range ends before it starts, and sometimes after `None`.
    pub fn count(self) -> usize
        ensures { result ≡ length self.entry.rest }
    {
        self.cursor.count()
    }
}

impl<'a, T: Kernel> Iterator for IterUnsetBits<'a, T> {
    type Item = usize;

    ghost next_gives = { GivesFirst };

    ghost remaining = { item_count (λ walk. walk.rest) };

    #[inline(always)]
    fn next(&mut self) -> Option<usize> {
        self.cursor.next()
    }

    /// Returns no bounds, as vob 4.0.1 does: only a count can say how many indices are left.
    fn size_hint(&self) -> (usize, Option<usize>)
        ensures lower { IsWithinCount result.0 (at_most (length self.now.rest)) }
        ensures upper { IfSome result.1 (UpTo (at_most (length self.now.rest))) }
        ensures exact { result ≡ (0, None) }
    {
        (0, None)
    }
}

impl<'a, T: Kernel> DoubleEndedIterator for IterUnsetBits<'a, T> {
    ghost next_back_gives = { GivesLast };

    #[inline(always)]
    fn next_back(&mut self) -> Option<usize> {
        self.cursor.next_back()
    }
}

impl<'a, T: Kernel> FusedIterator for IterUnsetBits<'a, T> {}

impl<'a, T: Kernel> IndexWalk for IterUnsetBits<'a, T> {
    ghost walk = { λ walk. walk };

    fn pull(&mut self, side: End) -> Option<usize> {
        self.cursor.pull(side)
    }
}
