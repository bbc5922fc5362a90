//! Single bits of the blocks that store some bits: read, written, and added at the end.
ghost use Rattle.std.specs.Prelude.{◌≡◌, if◌then◌else◌, ◌+◌, ◌*◌, ◌<◌, ◌≤◌, [], ◌∷◌, ◌++◌, map};
ghost use Rattle.std.specs.Prelude.{length, slice_get, Some, OnOk, OnErr, vec_capacity, ◌≢◌, ◌==◌};
ghost use Rattle.std.specs.Prelude.{◌↔◌, ◌^◌, not, slice_set, IsTrue};
ghost use Rattle.vob_block.specs.Packing.{need, bit_at, unpacking, IsCanonical, Stores};
ghost use Rattle.vob_block.specs.Places.{place, HasPlaces};

use crate::last::extend_last;
use std::alloc::AllocError;
use vob_block::BitBlock;

/// The place of bit `index` in its block. The bits past the length are places too.
pub fn block_bit<T: BitBlock>(blocks: &[T], index: usize) -> bool
    requires { index < length blocks.now * T.BITS }
    ensures { result ≡ bit_at (map T.number blocks.now) T.BITS index }
{
    let width = T::BITS;
    blocks[index / width].bit(index % width)
}

/// Bit `index` of the `len` bits of the blocks.
pub fn stored_bit<T: BitBlock>(blocks: &[T], len: usize, index: usize) -> bool
    requires canonical { IsCanonical len (map T.number blocks.now) T.BITS }
    requires in_range { index < len }
    ensures { slice_get (unpacking len (map T.number blocks.now) T.BITS) index ≡ Some result }
{
    block_bit(blocks, index)
}

/// A block whose first place is `value`, and whose other places are false.
pub fn first_place<T: BitBlock>(value: bool) -> T
    ensures { T.number result ≡ (if value then 1 else 0) }
{
    if value { T::ONE } else { T::ZERO }
}

/// Appends a bit, with a block more if the last one is full. Memory is asked for only if there is no
/// room for it.
pub fn append_bit<T: BitBlock>(
    blocks: &mut Vec<T>,
    len: usize,
    value: bool,
) -> Result<(), AllocError>
    requires { IsCanonical len (map T.number blocks.old.items) T.BITS }
    ensures stores { OnOk result (Stores T.BITS (len + 1) (map T.number blocks.new.items)
        (unpacking len (map T.number blocks.old.items) T.BITS ++ value ∷ [])) }
    ensures err { OnErr result (blocks.new.items ≡ blocks.old.items) }
    ensures err_capacity { OnErr result (vec_capacity blocks.new ≡ vec_capacity blocks.old) }
    ensures full { OnErr result ((vec_capacity blocks.old * T.BITS ≤ len)
        × (need len T.BITS < need (len + 1) T.BITS)) }
    ensures capacity { vec_capacity blocks.old ≤ vec_capacity blocks.new }
{
    let width = T::BITS;
    if len % width == 0 {
        blocks.reserve(1)?;
        blocks.push(first_place(value))?;
    } else {
        // Written for a false bit too: a branch on the value is one that no processor foresees.
        extend_last(blocks, len, first_place(value));
    }
    Ok(())
}

/// The block with `value` at place `j`.
fn with_place<T: BitBlock>(block: T, j: usize, value: bool) -> T
    requires { j < T.BITS }
    ensures places { HasPlaces T.BITS (T.number result)
        (λ i. if i == j then value else place i (T.number block)) }
    ensures within { T.number result < 2 ^ T.BITS }
{
    let mask = T::ONE.up(j);
    if value {
        block.bor(mask)
    } else {
        block.band(mask.bnot())
    }
}

/// Writes bit `index`, and returns whether it changed.
pub fn write_bit<T: BitBlock>(blocks: &mut [T], len: usize, index: usize, value: bool) -> bool
    requires canonical { IsCanonical len (map T.number blocks.old) T.BITS }
    requires in_range { index < len }
    ensures stores { Stores T.BITS len (map T.number blocks.new)
        (slice_set (unpacking len (map T.number blocks.old) T.BITS) index value) }
    ensures changed { IsTrue result
        ↔ (slice_get (unpacking len (map T.number blocks.old) T.BITS) index ≢ Some value) }
{
    let width = T::BITS;
    let k = index / width;
    let place = index % width;
    let block = blocks[k];
    blocks[k] = with_place(block, place, value);
    block.bit(place) != value
}

/// Negates bit `index`, and returns its new value.
pub fn flip_bit<T: BitBlock>(blocks: &mut [T], len: usize, index: usize) -> bool
    requires canonical { IsCanonical len (map T.number blocks.old) T.BITS }
    requires in_range { index < len }
    ensures stores { Stores T.BITS len (map T.number blocks.new)
        (slice_set (unpacking len (map T.number blocks.old) T.BITS) index result) }
    ensures was { slice_get (unpacking len (map T.number blocks.old) T.BITS) index
        ≡ Some (not result) }
{
    let width = T::BITS;
    let k = index / width;
    let place = index % width;
    let block = blocks[k].bxor(T::ONE.up(place));
    blocks[k] = block;
    block.bit(place)
}
