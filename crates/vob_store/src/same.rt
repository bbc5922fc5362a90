//! Whether two slices of blocks hold the same.
ghost use Rattle.std.specs.Prelude.{◌≡◌, ◌↔◌, length, map, IsTrue};

use crate::combined::has_none;
use vob_block::{BitBlock, Blocks, Xor};

/// Whether all blocks are the same in both: no place is in exactly one of them.
pub fn same_blocks<T: BitBlock>(blocks: &[T], others: &[T]) -> bool
    requires { length blocks.now ≡ length others.now }
    ensures { IsTrue result ↔ (map T.number blocks.now ≡ map T.number others.now) }
{
    T::all_in_range(blocks);
    T::all_in_range(others);
    has_none::<Xor, T>(blocks, &mut Blocks::new(others))
}
