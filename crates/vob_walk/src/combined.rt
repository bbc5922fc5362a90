//! The walk over the indices of the set bits of two Vobs combined, from both ends.
ghost use Rattle.std.specs.Prelude.{◌≡◌, true, length, map, max, IfSome};
ghost use Rattle.std.specs.Iterator.{item_count, at_most, UpTo};
ghost use Rattle.std.specs.Iterator.SizeHint.{IsWithinCount};
ghost use Rattle.std.specs.Iterator.Runs.{YieldsInOrder, YieldsInReverse};
ghost use Rattle.std.specs.declared.ops.Bound.TheVariants.{Unbounded};
ghost use Rattle.vob_block.specs.Packing.{need, unpacking};
ghost use Rattle.vob_block.specs.Pointwise.{pointwise};
ghost use Rattle.vob_walk.specs.Walk.{IsWhole, GivesFirst, GivesLast};

use crate::cursor::Cursor;
use crate::pairs::Pairs;
use crate::walk::{End, IndexWalk};
use std::iter::FusedIterator;
use std::marker::Model;
use vob_block::{Blocks, Combine, Kernel};

/// A walk over the indices of the set bits of two Vobs combined, from both ends. It reads the
/// blocks of both pair by pair, each pair at most once. vob 4.0.1 has no walk like it.
#[derive(Drop)]
pub struct CombinedBits<'a, C: Combine, T: Kernel> {
    cursor: Cursor<T, Pairs<'a, C, T>>,
}

impl<'a, C: Combine, T: Kernel> Model for CombinedBits<'a, C, T> {
    ghost use Rattle.vob_walk.specs.Walk.{Walk};

    ghost Value = { Walk };

    ghost view = { λ walk. walk.cursor };
}

impl<'a, C: Combine, T: Kernel> CombinedBits<'a, C, T> {
    /// Makes a walk over the first `len` bits of some blocks, combined with those of other blocks.
    /// Its reads are those of the blocks of which more were read.
    pub fn over(own: Blocks<'a, T>, other: Blocks<'a, T>, len: usize) -> CombinedBits<'a, C, T>
        requires own { length own.items ≡ need len T.BITS }
        requires other { length other.items ≡ need len T.BITS }
        ensures whole { IsWhole result (pointwise C.of_bits
            (unpacking len (map T.number own.entry.items) T.BITS)
            (unpacking len (map T.number other.entry.items) T.BITS)) true Unbounded Unbounded T.BITS }
        ensures reads { result.reads ≡ max own.entry.reads other.entry.reads }
        ensures runs { YieldsInOrder GivesFirst (λ walk. walk.rest) }
        ensures runs_back { YieldsInReverse GivesLast (λ walk. walk.rest) }
    {
        CombinedBits {
            cursor: Cursor::over(Pairs::new(own, other), true, len, &(..)),
        }
    }

    /// Counts the indices that are left.
    pub fn count(self) -> usize
        ensures { result ≡ length self.entry.rest }
    {
        self.cursor.count()
    }
}

impl<'a, C: Combine, T: Kernel> Iterator for CombinedBits<'a, C, T> {
    type Item = usize;

    ghost next_gives = { GivesFirst };

    ghost remaining = { item_count (λ walk. walk.rest) };

    #[inline(always)]
    fn next(&mut self) -> Option<usize> {
        self.cursor.next()
    }

    /// Returns no bounds: only a count can say how many indices are left.
    fn size_hint(&self) -> (usize, Option<usize>)
        ensures lower { IsWithinCount result.0 (at_most (length self.now.rest)) }
        ensures upper { IfSome result.1 (UpTo (at_most (length self.now.rest))) }
        ensures exact { result ≡ (0, None) }
    {
        (0, None)
    }
}

impl<'a, C: Combine, T: Kernel> DoubleEndedIterator for CombinedBits<'a, C, T> {
    ghost next_back_gives = { GivesLast };

    #[inline(always)]
    fn next_back(&mut self) -> Option<usize> {
        self.cursor.next_back()
    }
}

impl<'a, C: Combine, T: Kernel> FusedIterator for CombinedBits<'a, C, T> {}

impl<'a, C: Combine, T: Kernel> IndexWalk for CombinedBits<'a, C, T> {
    ghost walk = { λ walk. walk };

    fn pull(&mut self, side: End) -> Option<usize> {
        self.cursor.pull(side)
    }
}
