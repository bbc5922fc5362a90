//! Blocks of which nothing is promised: whether they are canonical for a length, and the last one
//! masked.
ghost use Rattle.std.specs.Prelude.{◌≡◌, ◌↔◌, map, length, IsTrue};
ghost use Rattle.vob_block.specs.Packing.{need, unpacking, IsCanonical, packing};

use crate::mask::mask_last;
use vob_block::BitBlock;

/// Returns whether the blocks are as many as `len` bits need, and false from bit `len` on. Only the
/// last block can be otherwise, so no other one is read.
pub fn is_canonical<T: BitBlock>(blocks: &[T], len: usize) -> bool
    ensures { IsTrue result ↔ IsCanonical len (map T.number blocks.now) T.BITS }
{
    T::all_in_range(blocks);
    let width = T::BITS;
    if blocks.len() != len.div_ceil(width) {
        return false;
    }
    let used = len % width;
    if used == 0 {
        return true;
    }
    let last = blocks[len / width];
    last.band(T::low_mask(used)) == last
}

/// Makes every bit from `len` on false, of as many blocks as `len` bits need.
pub fn mask<T: BitBlock>(blocks: &mut [T], len: usize)
    requires { length blocks.old ≡ need len T.BITS }
    ensures { map T.number blocks.new
        ≡ packing (unpacking len (map T.number blocks.old) T.BITS) T.BITS }
{
    mask_last(blocks, len);
}
