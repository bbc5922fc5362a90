//! The indices of one block, at the front end of a walk.
ghost use Rattle.std.specs.Prelude.{◌≡◌, ◌↔◌, ℕ, [], length, IsTrue};
ghost use Rattle.std.specs.Iterator.{YieldsFirst};
ghost use Rattle.vob_walk.specs.Cursor.{block_indices};
ghost use Rattle.vob_walk.specs.InHand.{IsBlockBits};

use std::marker::Model;
use vob_block::BitBlock;

/// A block whose true places are indices still to give, seen as the list of them. Place 0 is index
/// `at`.
#[derive(Drop)]
pub(crate) struct BlockBits<T: BitBlock> {
    word: T,
    at: usize,
    // How many are left. A loop ends by this count, which is known long before the last word is.
    left: usize,
    // The first of them, if there is one: so a loop that uses it needn't wait for its place.
    ready: usize,
}

impl<T: BitBlock> Model for BlockBits<T> {
    ghost use Rattle.std.specs.Prelude.{ℕ, List};
    ghost use Rattle.vob_walk.specs.Cursor.{block_indices};
    ghost use Rattle.vob_walk.specs.InHand.{IsReady};

    ghost Value = { List ℕ };

    ghost view = { λ bits. block_indices T.BITS bits.at (T.number bits.word) };

    ghost invariant = { λ bits. IsReady T.BITS bits.at (T.number bits.word) bits.left bits.ready };
}

/// Whether no place is true.
#[inline(always)]
pub(crate) fn is_zero<T: BitBlock>(block: T) -> bool
    ensures { IsTrue result ↔ (T.number block ≡ 0) }
{
    block == T::ZERO
}

impl<T: BitBlock> BlockBits<T> {
    /// No indices.
    pub(crate) fn none() -> BlockBits<T>
        ensures { result ≡ [] }
    {
        BlockBits::counted(T::ZERO, 0, 0)
    }

    /// The indices of a block's true places, which are `left`.
    #[inline(always)]
    fn counted(word: T, at: usize, left: usize) -> BlockBits<T>
        requires bits { IsBlockBits T.BITS at (T.number word) }
        requires count { left ≡ length (block_indices T.BITS at (T.number word)) }
        ensures { result ≡ block_indices T.BITS at (T.number word) }
    {
        // If no place is true, this is no index, and may have wrapped.
        let ready = at.wrapping_add(word.zeros_low());
        BlockBits {
            word,
            at,
            left,
            ready,
        }
    }

    /// The indices of a block's true places.
    #[inline(always)]
    pub(crate) fn of(word: T, at: usize) -> BlockBits<T>
        requires { IsBlockBits T.BITS at (T.number word) }
        ensures { result ≡ block_indices T.BITS at (T.number word) }
    {
        BlockBits::counted(word, at, word.ones_in())
    }

    /// Whether no index is left.
    #[inline(always)]
    pub(crate) fn is_empty(&self) -> bool
        ensures { IsTrue result ↔ (self.now ≡ []) }
    {
        self.left == 0
    }

    /// How many indices are left.
    pub(crate) fn count(&self) -> usize
        ensures { result ≡ length self.now }
    {
        self.left
    }

    /// The block whose true places are the indices that are left, and the index of its place 0.
    #[inline(always)]
    pub(crate) fn block(&self) -> (T, usize)
        ensures bits { IsBlockBits T.BITS result.1 (T.number result.0) }
        ensures same { block_indices T.BITS result.1 (T.number result.0) ≡ self.now }
    {
        (self.word, self.at)
    }

    /// The first index that is left, taken.
    #[inline(always)]
    pub(crate) fn next(&mut self) -> Option<usize>
        ensures { YieldsFirst (λ rest. rest) self.old result self.new }
    {
        if self.left == 0 {
            return None;
        }
        let index = self.ready;
        *self = BlockBits::counted(self.word.without_first(), self.at, self.left - 1);
        Some(index)
    }
}
