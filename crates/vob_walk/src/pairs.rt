//! The blocks of two Vobs combined, for a walk over them.
ghost use Rattle.std.specs.Prelude.{◌≡◌, max};
ghost use Rattle.vob_walk.specs.Pairs.{combined_blocks};

use crate::source::Source;
use std::marker::PhantomData;
use vob_block::{BitBlock, Blocks, Combine};

/// The blocks of two Vobs, which are read and combined pair by pair.
#[derive(Drop)]
pub(crate) struct Pairs<'a, C: Combine, T: BitBlock> {
    own: Blocks<'a, T>,
    other: Blocks<'a, T>,
    way: PhantomData<C>,
}

impl<'a, C: Combine, T: BitBlock> Pairs<'a, C, T> {
    /// The blocks of two Vobs, none of which is read.
    pub(crate) fn new(own: Blocks<'a, T>, other: Blocks<'a, T>) -> Pairs<'a, C, T>
        ensures own { result.own ≡ own.entry }
        ensures other { result.other ≡ other.entry }
    {
        Pairs {
            own,
            other,
            way: PhantomData,
        }
    }
}

impl<'a, C: Combine, T: BitBlock> Source<T> for Pairs<'a, C, T> {
    // The blocks that each pair makes, and how many were read of the Vob of which more were.
    ghost reading = { λ pairs. record {
      items = combined_blocks T.number T.of_bits T.BITS C.of_bits pairs.own.items pairs.other.items;
      reads = max pairs.own.reads pairs.other.reads;
    } };

    #[inline(always)]
    fn read(&mut self, k: usize) -> T {
        let own = self.own.block(k);
        C::block(own, self.other.block(k))
    }
}
