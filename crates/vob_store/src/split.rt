//! Splitting: the blocks of the bits from an index on, each made of two neighbours where the index
//! lies within a block.
ghost use Rattle.std.specs.Prelude.{◌≡◌, ◌+◌, ◌-◌, ◌<◌, ◌≤◌, map, length, drop, slice_index_or, IfOk};
ghost use Rattle.vob_block.specs.Packing.{need, bit_at, unpacking, Stores};
ghost use Rattle.vob_store.specs.Building.{AreBuilt};

use crate::mask::mask_last;
use crate::room::block_count;
use std::alloc::{AllocError, Global};
use vob_block::BitBlock;

/// Returns block `k`, or an empty one if there is none.
fn block_or_zero<T: BitBlock>(blocks: &[T], k: usize) -> T
    ensures { T.number result ≡ slice_index_or (map T.number blocks.now) k 0 }
{
    if k < blocks.len() { blocks[k] } else { T::ZERO }
}

/// Stores the bits from place `from` of the first block on: each block takes its high places from
/// the next one.
fn split_shifted<T: BitBlock>(rest: &mut [T], blocks: &[T], from: usize)
    requires some { 0 < length rest.old }
    requires count { length rest.old ≤ length blocks.now }
    requires positive { 0 < from }
    requires below { from < T.BITS }
    ensures { AreBuilt T.BITS (length rest.old) (map T.number rest.new)
        (λ i. bit_at (map T.number blocks.now) T.BITS (from + i)) }
{
    let last = rest.len() - 1;
    for k in 0..last {
        rest[k] = blocks[k].funnel_down(blocks[k + 1], from);
    }
    rest[last] = blocks[last].funnel_down(block_or_zero(blocks, last + 1), from);
}

/// Stores the bits from place `from` of the first block on.
fn split_into<T: BitBlock>(rest: &mut [T], blocks: &[T], from: usize)
    requires some { 0 < length rest.old }
    requires count { length rest.old ≤ length blocks.now }
    requires below { from < T.BITS }
    ensures { AreBuilt T.BITS (length rest.old) (map T.number rest.new)
        (λ i. bit_at (map T.number blocks.now) T.BITS (from + i)) }
{
    if from == 0 {
        rest.copy_from_slice(&blocks[..rest.len()]);
    } else {
        split_shifted(rest, blocks, from);
    }
}

/// The blocks of the bits from index `at` on, of the first `len` bits.
pub fn split_blocks<T: BitBlock>(
    alloc: Global,
    blocks: &[T],
    len: usize,
    at: usize,
) -> Result<Vec<T>, AllocError>
    requires count { need len T.BITS ≤ length blocks.now }
    requires inside { at < len }
    ensures { IfOk result (λ rest. Stores T.BITS (len - at) (map T.number rest.items)
        (drop at (unpacking len (map T.number blocks.now) T.BITS))) }
{
    let bits = len - at;
    let count = block_count::<T>(bits);
    let mut rest = Vec::with_capacity(alloc, count)?;
    rest.resize(count, T::ZERO)?;
    let width = T::BITS;
    split_into(&mut rest, &blocks[at / width..], at % width);
    // The last block may hold bits of the block after it.
    mask_last(&mut rest, bits);
    Ok(rest)
}
