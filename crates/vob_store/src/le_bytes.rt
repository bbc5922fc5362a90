//! The blocks of some bytes of which the least significant bit is first, and the bytes of some blocks.
//! Bytes are then blocks of eight places.
ghost use Rattle.std.specs.Prelude.{◌≡◌, ℕ, ◌+◌, ◌*◌, ◌^◌, ◌<◌, ◌≤◌, [], ◌++◌, length, slice_index_or, vec_capacity, IsOk, IfOk};
ghost use Rattle.vob_block.specs.Places.{HasPlaces};
ghost use Rattle.vob_block.specs.Packing.{need, bit_at, packing, unpacking, IsCanonical, Stores};

use crate::bytes::eight_bytes;
use std::alloc::{AllocError, Global};

/// The block whose places are the bits of eight bytes.
fn low_word(bytes: [u8; 8]) -> usize
    ensures places { HasPlaces 64 result (bit_at bytes 8) }
    ensures within { result < 2 ^ 64 }
{
    usize::from_le_bytes(bytes)
}

/// Appends the block of up to eight bytes, if any, in the room that is there.
fn push_low_bytes(blocks: &mut Vec<usize>, bytes: &[u8])
    requires few { length bytes.now ≤ 8 }
    requires room { length blocks.old.items + need (8 * length bytes.now) 64 ≤ vec_capacity blocks.old }
    ensures { blocks.new.items
        ≡ blocks.old.items ++ packing (unpacking (8 * length bytes.now) bytes.now 8) 64 }
{
    if !bytes.is_empty() {
        blocks.push_reserved(low_word(eight_bytes(bytes)));
    }
}

/// The blocks of some bytes.
pub fn low_byte_blocks(alloc: Global, bytes: &[u8]) -> Result<Vec<usize>, AllocError>
    ensures stores { IfOk result (λ blocks. Stores 64 (8 * length bytes.now) blocks.items
        (unpacking (8 * length bytes.now) bytes.now 8)) }
    ensures nothing { bytes.now ≡ [] → IsOk result }
{
    let mut blocks = Vec::with_capacity(alloc, bytes.len().div_ceil(8))?;
    let mut rest = bytes;
    while let Some((first, after)) = rest.split_first_chunk::<8>() {
        blocks.push_reserved(low_word(*first));
        rest = after;
    }
    push_low_bytes(&mut blocks, rest);
    Ok(blocks)
}

/// Puts the eight bytes of each block into an empty vector that has room for them.
fn push_low_words(bytes: &mut Vec<u8>, blocks: &[usize])
    requires none { bytes.old.items ≡ [] }
    requires room { 8 * length blocks.now ≤ vec_capacity bytes.old }
    ensures count { length bytes.new.items ≡ 8 * length blocks.now }
    ensures bits { (i : ℕ) → i < 64 * length blocks.now
        → bit_at bytes.new.items 8 i ≡ bit_at blocks.now 64 i }
    ensures within { (k : ℕ) → slice_index_or bytes.new.items k 0 < 2 ^ 8 }
{
    for k in 0..blocks.len() {
        // There is room, so this isn't refused.
        let _ = bytes.extend_from_slice(&blocks[k].to_le_bytes());
    }
}

/// Returns the bytes of `len` bits: as many as they need, the last one filled with false bits.
pub fn low_block_bytes(alloc: Global, blocks: &[usize], len: usize) -> Result<Vec<u8>, AllocError>
    requires { IsCanonical len blocks.now 64 }
    ensures bytes { IfOk result (λ bytes. bytes.items ≡ packing (unpacking len blocks.now 64) 8) }
    ensures nothing { len ≡ 0 → IsOk result }
{
    let mut bytes = Vec::with_capacity(alloc, 8 * blocks.len())?;
    push_low_words(&mut bytes, blocks);
    bytes.truncate(len.div_ceil(8));
    Ok(bytes)
}
