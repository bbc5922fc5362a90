//! Bits of one value: a block of them, all bits made it, and more of it appended.
ghost use Rattle.std.specs.Prelude.{◌≡◌, ◌-◌, ◌*◌, ◌^◌, ◌≤◌, ◌++◌, if◌then◌else◌, map, length, replicate, vec_capacity, IsOk, IfOk};
ghost use Rattle.vob_block.specs.Packing.{need, unpacking, IsCanonical, Stores};

use crate::last::extend_last;
use crate::mask::mask_last;
use crate::room::block_count;
use std::alloc::{AllocError, Global};
use vob_block::BitBlock;

/// A block whose places are all `value`.
pub fn splat<T: BitBlock>(value: bool) -> T
    ensures { T.number result ≡ (if value then 2 ^ T.BITS - 1 else 0) }
{
    if value { T::ONES } else { T::ZERO }
}

/// Stores `block` in the place of every block.
fn store_all<T: BitBlock>(blocks: &mut [T], block: T)
    ensures { blocks.new ≡ replicate (length blocks.old) block }
{
    for k in 0..blocks.len() {
        blocks[k] = block;
    }
}

/// Makes each place of the blocks `value`.
fn fill_blocks<T: BitBlock>(blocks: &mut [T], value: bool)
    ensures { (splat : T) × (blocks.new ≡ replicate (length blocks.old) splat)
        × (T.number splat ≡ (if value then 2 ^ T.BITS - 1 else 0)) }
{
    // A block that the compiler knows is stored by the machine's own fill.
    if value {
        store_all(blocks, T::ONES);
    } else {
        store_all(blocks, T::ZERO);
    }
}

/// Makes each of the `len` bits `value`.
pub fn fill<T: BitBlock>(blocks: &mut [T], len: usize, value: bool)
    requires { IsCanonical len (map T.number blocks.old) T.BITS }
    ensures { Stores T.BITS len (map T.number blocks.new) (replicate len value) }
{
    fill_blocks(blocks, value);
    mask_last(blocks, len);
}

/// Makes the places that the last block has left `value`.
fn fill_last<T: BitBlock>(blocks: &mut [T], len: usize, value: bool)
    requires { IsCanonical len (map T.number blocks.old) T.BITS }
    ensures { Stores T.BITS (length blocks.old * T.BITS) (map T.number blocks.new)
        (unpacking len (map T.number blocks.old) T.BITS
        ++ replicate (length blocks.old * T.BITS - len) value) }
{
    if value && len % T::BITS != 0 {
        extend_last(blocks, len, T::ONES);
    }
}

/// Appends bits of one `value` to `len` bits until `count` blocks are full, in the room that is
/// there.
pub(crate) fn fill_up<T: BitBlock>(blocks: &mut Vec<T>, len: usize, count: usize, value: bool)
    requires canonical { IsCanonical len (map T.number blocks.old.items) T.BITS }
    requires longer { length blocks.old.items ≤ count }
    requires room { count ≤ vec_capacity blocks.old }
    ensures stores { Stores T.BITS (count * T.BITS) (map T.number blocks.new.items)
        (unpacking len (map T.number blocks.old.items) T.BITS
        ++ replicate (count * T.BITS - len) value) }
    ensures capacity { vec_capacity blocks.old ≤ vec_capacity blocks.new }
{
    fill_last(blocks, len, value);
    // There is room, so this isn't refused.
    let _ = blocks.resize(count, splat(value));
}

/// Appends bits of one `value` to `len` bits, up to `new_len` bits, in the room that is there.
pub fn append_fill<T: BitBlock>(blocks: &mut Vec<T>, len: usize, new_len: usize, value: bool)
    requires canonical { IsCanonical len (map T.number blocks.old.items) T.BITS }
    requires longer { len ≤ new_len }
    requires room { need new_len T.BITS ≤ vec_capacity blocks.old }
    ensures stores { Stores T.BITS new_len (map T.number blocks.new.items)
        (unpacking len (map T.number blocks.old.items) T.BITS ++ replicate (new_len - len) value) }
    ensures capacity { vec_capacity blocks.old ≤ vec_capacity blocks.new }
{
    fill_up(blocks, len, block_count::<T>(new_len), value);
    mask_last(blocks, new_len);
}

/// The blocks of `len` times `value`.
pub fn filled_blocks<T: BitBlock>(
    alloc: Global,
    value: bool,
    len: usize,
) -> Result<Vec<T>, AllocError>
    ensures stores { IfOk result (λ blocks.
        Stores T.BITS len (map T.number blocks.items) (replicate len value)) }
    ensures nothing { len ≡ 0 → IsOk result }
{
    let mut blocks = Vec::with_capacity(alloc, len.div_ceil(T::BITS))?;
    append_fill(&mut blocks, 0, len, value);
    Ok(blocks)
}
