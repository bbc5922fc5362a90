//! The indices of one block, at the back end of a walk.
ghost use Rattle.std.specs.Prelude.{◌≡◌, ◌≢◌, ◌==◌, ℕ, ◌↔◌, if◌then◌else◌, true, false, ◌^◌, ◌<◌, [], length, IsTrue};
ghost use Rattle.std.specs.Iterator.{YieldsLast};
ghost use Rattle.vob_block.specs.Places.{place, HasPlaces};
ghost use Rattle.vob_walk.specs.Cursor.{block_indices};
ghost use Rattle.vob_walk.specs.InHand.{IsBlockBits};

use crate::block_bits::is_zero;
use std::marker::Model;
use vob_block::BitBlock;

/// The indices of one block that are still to give, seen as the list of them. Place 0 is index `at`.
#[derive(Drop)]
pub(crate) struct BackBits<T: BitBlock> {
    // The true places are indices still to give. Beside a run there are none.
    word: T,
    at: usize,
    // One past the last index left of a block whose places were all true, and else `at`. So the last
    // index is known before, and a loop waits for no search.
    past: usize,
}

impl<T: BitBlock> Model for BackBits<T> {
    ghost use Rattle.std.specs.Prelude.{ℕ, List};
    ghost use Rattle.vob_walk.specs.InHand.{back_indices, IsBackBits};

    ghost Value = { List ℕ };

    ghost view = { λ bits. back_indices T.BITS bits.at (T.number bits.word) bits.past };

    ghost invariant = { λ bits. IsBackBits T.BITS bits.at (T.number bits.word) bits.past };
}

/// The block with its true place `j` made false.
#[inline(always)]
fn without_place<T: BitBlock>(block: T, j: usize) -> T
    requires inside { j < T.BITS }
    requires there { place j (T.number block) ≡ true }
    ensures places { HasPlaces T.BITS (T.number result)
        (λ i. if i == j then false else place i (T.number block)) }
    ensures within { T.number result < 2 ^ T.BITS }
{
    block.bxor(T::ONE.up(j))
}

impl<T: BitBlock> BackBits<T> {
    /// No indices.
    pub(crate) fn none() -> BackBits<T>
        ensures { result ≡ [] }
    {
        BackBits {
            word: T::ZERO,
            at: 0,
            past: 0,
        }
    }

    /// The indices of a block's true places.
    #[inline(always)]
    pub(crate) fn of(word: T, at: usize) -> BackBits<T>
        requires { IsBlockBits T.BITS at (T.number word) }
        ensures { result ≡ block_indices T.BITS at (T.number word) }
    {
        if word == T::ONES {
            BackBits {
                word: T::ZERO,
                at,
                past: at + T::BITS,
            }
        } else {
            BackBits { word, at, past: at }
        }
    }

    /// Whether the indices that are left follow one another, in a block whose places were all true.
    #[inline(always)]
    pub(crate) fn is_run(&self) -> bool
        ensures { IsTrue result → self.now ≢ [] }
    {
        self.past != self.at
    }

    /// Whether no index is left.
    #[inline(always)]
    pub(crate) fn is_empty(&self) -> bool
        ensures { IsTrue result ↔ (self.now ≡ []) }
    {
        self.past == self.at && is_zero(self.word)
    }

    /// The block whose true places are the indices that are left, and the index of its place 0.
    #[inline(always)]
    pub(crate) fn block(&self) -> (T, usize)
        ensures bits { IsBlockBits T.BITS result.1 (T.number result.0) }
        ensures same { block_indices T.BITS result.1 (T.number result.0) ≡ self.now }
    {
        if self.past == self.at {
            (self.word, self.at)
        } else {
            (T::low_mask(self.past - self.at), self.at)
        }
    }

    /// How many indices are left.
    pub(crate) fn count(&self) -> usize
        ensures { result ≡ length self.now }
    {
        self.block().0.ones_in()
    }

    /// The last index that is left, taken.
    #[inline(always)]
    pub(crate) fn next_back(&mut self) -> Option<usize>
        ensures { YieldsLast (λ rest. rest) self.old result self.new }
    {
        if self.past != self.at {
            self.past -= 1;
            return Some(self.past);
        }
        // Tested by the block: where it isn't 0, the count of its zeros is one instruction.
        let word = self.word;
        if is_zero(word) {
            return None;
        }
        let place = T::BITS - 1 - word.zeros_high();
        self.word = without_place(word, place);
        Some(self.at + place)
    }
}
