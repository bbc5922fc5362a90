//! Blocks that a walk reads, one at a time: those of one Vob, or those of two combined.
ghost use Rattle.std.specs.Prelude.{◌≡◌, ◌+◌, ◌<◌, length, map, slice_index_or};
ghost use Rattle.vob_block.specs.Reading.{Reading};

use vob_block::{BitBlock, Blocks};

/// Blocks that can be read by their numbers, the one with bit 0 first.
pub(crate) trait Source<T: BitBlock>: Drop {
    // The blocks, and how many were read.
    ghost reading: { Self → Reading T };

    /// Reads block `k`.
    fn read(&mut self, k: usize) -> T
        requires { k < length (reading self.old).items }
        ensures block { T.number result ≡ slice_index_or (map T.number (reading self.old).items) k 0 }
        ensures items { (reading self.new).items ≡ (reading self.old).items }
        ensures reads { (reading self.new).reads ≡ (reading self.old).reads + 1 };
}

impl<'a, T: BitBlock> Source<T> for Blocks<'a, T> {
    ghost reading = { λ blocks. blocks };

    #[inline(always)]
    fn read(&mut self, k: usize) -> T {
        self.block(k)
    }
}
