//! Blocks made canonical: the last one masked, the bits negated or cut, and the test of both.
ghost use Rattle.std.specs.Prelude.{◌≡◌, ◌≤◌, if◌then◌else◌, nat_lt, not, map, length, take, vec_capacity};
ghost use Rattle.vob_block.specs.Places.{place, HasPlaces};
ghost use Rattle.vob_block.specs.Packing.{need, unpacking, IsCanonical, Stores};

use vob_block::BitBlock;

/// The places of `low` below `from`, and those of `high` from there on.
pub(crate) fn spliced<T: BitBlock>(low: T, high: T, from: usize) -> T
    requires { from ≤ T.BITS }
    ensures places { HasPlaces T.BITS (T.number result)
        (λ j. if nat_lt j from then place j (T.number low) else place j (T.number high)) }
{
    let mask = T::low_mask(from);
    low.band(mask).bor(high.band(mask.bnot()))
}

/// Makes every bit from `len` on false, in as many blocks as `len` bits need. Only the last block
/// can have such a bit.
pub fn mask_last<T: BitBlock>(blocks: &mut [T], len: usize)
    requires { length blocks.old ≡ need len T.BITS }
    ensures { Stores T.BITS len (map T.number blocks.new)
        (unpacking len (map T.number blocks.old) T.BITS) }
{
    T::all_in_range(blocks);
    let width = T::BITS;
    let used = len % width;
    if used != 0 {
        let last = len / width;
        let block = blocks[last];
        blocks[last] = block.band(T::low_mask(used));
    }
}

/// Negates each of the `len` bits.
pub fn negate<T: BitBlock>(blocks: &mut [T], len: usize)
    requires { IsCanonical len (map T.number blocks.old) T.BITS }
    ensures { Stores T.BITS len (map T.number blocks.new)
        (map not (unpacking len (map T.number blocks.old) T.BITS)) }
{
    for k in 0..blocks.len() {
        let block = blocks[k];
        blocks[k] = block.bnot();
    }
    mask_last(blocks, len);
}

/// Takes off the bits from `new_len` on, with the blocks that only they needed.
pub fn truncate_to<T: BitBlock>(blocks: &mut Vec<T>, len: usize, new_len: usize)
    requires count { length blocks.old.items ≡ need len T.BITS }
    requires shorter { new_len ≤ len }
    ensures stores { Stores T.BITS new_len (map T.number blocks.new.items)
        (take new_len (unpacking len (map T.number blocks.old.items) T.BITS)) }
    ensures capacity { vec_capacity blocks.new ≡ vec_capacity blocks.old }
{
    blocks.truncate(new_len.div_ceil(T::BITS));
    mask_last(blocks, new_len);
}
