//! The indices of one block, at the front end of a walk.
ghost use Rattle.std.specs.Prelude.{◌≡◌, ◌≢◌, ◌↔◌, [], length, IsTrue};
ghost use Rattle.std.specs.Iterator.{YieldsFirst};
ghost use Rattle.vob_walk.specs.Cursor.{block_indices};
ghost use Rattle.vob_walk.specs.InHand.{IsBlockBits};

use crate::block_bits::BlockBits;
use std::marker::Model;
use vob_block::BitBlock;

/// The indices of one block that are still to give, seen as the list of them.
#[derive(Drop)]
pub(crate) struct FrontBits<T: BitBlock> {
    // Those of true places. Beside a run there are none.
    places: BlockBits<T>,
    // Of a block whose places were all true, those that are left: the first one, and how many. So the
    // next one is known before, and a loop waits for no place to be looked for.
    first: usize,
    run: usize,
}

impl<T: BitBlock> Model for FrontBits<T> {
    ghost use Rattle.std.specs.Prelude.{ℕ, List, ◌++◌};
    ghost use Rattle.std.specs.List.{range_with_len};
    ghost use Rattle.vob_walk.specs.InHand.{IsFrontBits};

    ghost Value = { List ℕ };

    ghost view = { λ bits. bits.places ++ range_with_len bits.first bits.run };

    ghost invariant = { λ bits. IsFrontBits T.BITS bits.places bits.first bits.run };
}

impl<T: BitBlock> FrontBits<T> {
    /// No indices.
    pub(crate) fn none() -> FrontBits<T>
        ensures { result ≡ [] }
    {
        FrontBits {
            places: BlockBits::none(),
            first: 0,
            run: 0,
        }
    }

    /// The indices of a block's true places.
    #[inline(always)]
    pub(crate) fn of(word: T, at: usize) -> FrontBits<T>
        requires { IsBlockBits T.BITS at (T.number word) }
        ensures { result ≡ block_indices T.BITS at (T.number word) }
    {
        if word == T::ONES {
            FrontBits {
                places: BlockBits::none(),
                first: at,
                run: T::BITS,
            }
        } else {
            FrontBits {
                places: BlockBits::of(word, at),
                first: 0,
                run: 0,
            }
        }
    }

    /// Whether an index is left that is no part of a run.
    #[inline(always)]
    pub(crate) fn has_places(&self) -> bool
        ensures { IsTrue result → self.now ≢ [] }
    {
        !self.places.is_empty()
    }

    /// Whether no index is left.
    #[inline(always)]
    pub(crate) fn is_empty(&self) -> bool
        ensures { IsTrue result ↔ (self.now ≡ []) }
    {
        self.places.is_empty() && self.run == 0
    }

    /// The block whose true places are the indices that are left, and the index of its place 0.
    #[inline(always)]
    pub(crate) fn block(&self) -> (T, usize)
        ensures bits { IsBlockBits T.BITS result.1 (T.number result.0) }
        ensures same { block_indices T.BITS result.1 (T.number result.0) ≡ self.now }
    {
        if self.run == 0 {
            return self.places.block();
        }
        let gone = T::BITS - self.run;
        (T::ONES.up(gone), self.first - gone)
    }

    /// How many indices are left.
    pub(crate) fn count(&self) -> usize
        ensures { result ≡ length self.now }
    {
        if self.run == 0 {
            self.places.count()
        } else {
            self.run
        }
    }

    /// The first index that is left, taken.
    #[inline(always)]
    pub(crate) fn next(&mut self) -> Option<usize>
        ensures { YieldsFirst (λ rest. rest) self.old result self.new }
    {
        if !self.places.is_empty() {
            return self.places.next();
        }
        if self.run == 0 {
            return None;
        }
        let index = self.first;
        self.first += 1;
        self.run -= 1;
        Some(index)
    }
}
