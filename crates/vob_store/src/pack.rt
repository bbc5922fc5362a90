//! Bits of a slice put into blocks: as many as a block holds are packed first, and then stored.
ghost use Rattle.std.specs.Prelude.{◌≡◌, ◌≢◌, ◌+◌, ◌%◌, ◌^◌, ◌<◌, ◌≤◌, ◌++◌, map, length, take, vec_capacity, [], IsOk, IfOk};
ghost use Rattle.vob_block.specs.Places.{HasPlaces};
ghost use Rattle.vob_block.specs.Packing.{item, need, packing, unpacking, IsCanonical, Stores};

use crate::last::extend_last;
use crate::single::first_place;
use std::alloc::{AllocError, Global};
use vob_block::BitBlock;

/// The block whose places are some bits, and false above them.
fn pack_block<T: BitBlock>(bits: &[bool]) -> T
    requires { length bits.now ≤ T.BITS }
    ensures places { HasPlaces T.BITS (T.number result) (item bits.now) }
    ensures within { T.number result < 2 ^ T.BITS }
{
    let mut block = T::ZERO;
    for (place, bit) in bits.iter().enumerate() {
        let mark: T = first_place(*bit);
        block = block.bor(mark.up(place));
    }
    block
}

/// Appends the blocks of some bits, in the room that is there.
pub fn push_packed<T: BitBlock>(blocks: &mut Vec<T>, bits: &[bool])
    requires room { length blocks.old.items + need (length bits.now) T.BITS ≤ vec_capacity blocks.old }
    ensures blocks { map T.number blocks.new.items
        ≡ map T.number blocks.old.items ++ packing bits.now T.BITS }
    ensures capacity { vec_capacity blocks.new ≡ vec_capacity blocks.old }
{
    let width = T::BITS;
    let mut rest = bits;
    while !rest.is_empty() {
        let (first, after) = rest.split_at(rest.len().min(width));
        blocks.push_reserved(pack_block(first));
        rest = after;
    }
}

/// Puts the first of some bits into the places that the last block has left, and returns how many.
fn top_up<T: BitBlock>(blocks: &mut [T], len: usize, bits: &[bool]) -> usize
    requires { IsCanonical len (map T.number blocks.old) T.BITS }
    ensures inside { result ≤ length bits.now }
    ensures stores { Stores T.BITS (len + result) (map T.number blocks.new)
        (unpacking len (map T.number blocks.old) T.BITS ++ take result bits.now) }
    ensures whole { result ≢ length bits.now → (len + result) % T.BITS ≡ 0 }
{
    let width = T::BITS;
    let used = len % width;
    if used == 0 {
        return 0;
    }
    let taken = bits.len().min(width - used);
    extend_last(blocks, len, pack_block(&bits[..taken]));
    taken
}

/// Appends some bits to `len` bits, in the room that is there.
pub fn append_slice<T: BitBlock>(blocks: &mut Vec<T>, len: usize, bits: &[bool])
    requires canonical { IsCanonical len (map T.number blocks.old.items) T.BITS }
    requires room { need (len + length bits.now) T.BITS ≤ vec_capacity blocks.old }
    ensures stores { Stores T.BITS (len + length bits.now) (map T.number blocks.new.items)
        (unpacking len (map T.number blocks.old.items) T.BITS ++ bits.now) }
    ensures capacity { vec_capacity blocks.new ≡ vec_capacity blocks.old }
{
    let taken = top_up(blocks, len, bits);
    push_packed(blocks, &bits[taken..]);
}

/// The blocks of some bits.
pub fn packed_blocks<T: BitBlock>(alloc: Global, bits: &[bool]) -> Result<Vec<T>, AllocError>
    ensures stores { IfOk result (λ blocks.
        Stores T.BITS (length bits.now) (map T.number blocks.items) bits.now) }
    ensures nothing { bits.now ≡ [] → IsOk result }
{
    let mut blocks = Vec::with_capacity(alloc, bits.len().div_ceil(T::BITS))?;
    push_packed(&mut blocks, bits);
    Ok(blocks)
}
