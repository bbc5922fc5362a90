//! The last block, where bits stand in it and places are left.
ghost use Rattle.std.specs.Prelude.{◌≢◌, ◌+◌, ◌-◌, ◌%◌, ◌≤◌, ◌++◌, List, Bool, map, length};
ghost use Rattle.vob_block.specs.Places.{HasPlaces};
ghost use Rattle.vob_block.specs.Packing.{item, unpacking, IsCanonical, Stores};

use vob_block::BitBlock;

/// Puts the places of `more` after the bits of the last block: as many as fit there.
pub(crate) fn extend_last<T: BitBlock>(blocks: &mut [T], len: usize, more: T)
    requires canonical { IsCanonical len (map T.number blocks.old) T.BITS }
    requires partial { len % T.BITS ≢ 0 }
    ensures { (bits : List Bool) → len % T.BITS + length bits ≤ T.BITS
        → HasPlaces (T.BITS - len % T.BITS) (T.number more) (item bits)
        → Stores T.BITS (len + length bits) (map T.number blocks.new)
        (unpacking len (map T.number blocks.old) T.BITS ++ bits) }
{
    let width = T::BITS;
    let last = len / width;
    let block = blocks[last];
    blocks[last] = block.bor(more.up(len % width));
}
