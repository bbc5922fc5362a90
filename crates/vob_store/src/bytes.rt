//! The blocks of some bytes, and the bytes of some blocks.
ghost use Rattle.std.specs.Prelude.{◌≡◌, ℕ, ◌+◌, ◌-◌, ◌*◌, ◌/◌, ◌%◌, ◌^◌, ◌<◌, ◌≤◌, ◌&&◌, ◌||◌};
ghost use Rattle.std.specs.Prelude.{nat_le, nat_lt, false, [], ◌++◌, length, replicate};
ghost use Rattle.std.specs.Prelude.{slice_index, vec_capacity, IsOk, IfOk};
ghost use Rattle.vob_block.specs.Places.{place, HasPlaces};
ghost use Rattle.vob_block.specs.Packing.{item, need, bit_at, packing, unpacking, IsCanonical, Stores};
ghost use Rattle.vob_block.specs.Bytes.{bytes_list};

use std::alloc::{AllocError, Global};
use vob_block::BitBlock;

/// A block with the places of `mask` exchanged for those `by` above them.
pub(crate) fn exchange<T: BitBlock>(block: T, by: usize, mask: T) -> T
    requires { by < T.BITS }
    ensures { HasPlaces T.BITS (T.number result) (λ j.
        ((nat_lt (j + by) T.BITS && place (j + by) (T.number block)) && place j (T.number mask))
        || (nat_le by j
        && (place (j - by) (T.number block) && place (j - by) (T.number mask)))) }
{
    block.down(by).band(mask).bor(block.band(mask).up(by))
}

/// A word with the places of each of its bytes reversed.
fn reverse_each_byte(word: usize) -> usize
    ensures { HasPlaces 64 result (λ j. place (j / 8 * 8 + (7 - j % 8)) word) }
{
    let pairs = exchange(word, 1, 0x5555_5555_5555_5555);
    let halves = exchange(pairs, 2, 0x3333_3333_3333_3333);
    exchange(halves, 4, 0x0f0f_0f0f_0f0f_0f0f)
}

/// The block whose places are the bits of eight bytes.
fn word_of_bytes(bytes: [u8; 8]) -> usize
    ensures places { HasPlaces 64 result (item (bytes_list bytes)) }
    ensures within { result < 2 ^ 64 }
{
    reverse_each_byte(usize::from_le_bytes(bytes))
}

/// Returns up to eight bytes with zeros after them.
pub(crate) fn eight_bytes(bytes: &[u8]) -> [u8; 8]
    requires { length bytes.now ≤ 8 }
    ensures { (k : ℕ) → slice_index result k ≡ slice_index bytes.now k }
{
    let mut all = [0; 8];
    for (k, byte) in bytes.iter().enumerate() {
        all[k] = *byte;
    }
    all
}

/// Appends the block of up to eight bytes, if any, in the room that is there.
fn push_bytes(blocks: &mut Vec<usize>, bytes: &[u8])
    requires few { length bytes.now ≤ 8 }
    requires room { length blocks.old.items + need (8 * length bytes.now) 64 ≤ vec_capacity blocks.old }
    ensures { blocks.new.items ≡ blocks.old.items ++ packing (bytes_list bytes.now) 64 }
{
    if !bytes.is_empty() {
        blocks.push_reserved(word_of_bytes(eight_bytes(bytes)));
    }
}

/// The blocks of some bytes.
pub fn byte_blocks(alloc: Global, bytes: &[u8]) -> Result<Vec<usize>, AllocError>
    ensures stores { IfOk result (λ blocks.
        Stores 64 (8 * length bytes.now) blocks.items (bytes_list bytes.now)) }
    ensures nothing { bytes.now ≡ [] → IsOk result }
{
    let mut blocks = Vec::with_capacity(alloc, bytes.len().div_ceil(8))?;
    let mut rest = bytes;
    while let Some((first, after)) = rest.split_first_chunk::<8>() {
        blocks.push_reserved(word_of_bytes(*first));
        rest = after;
    }
    push_bytes(&mut blocks, rest);
    Ok(blocks)
}

/// The eight bytes whose bits are the places of a block.
fn bytes_of_word(word: usize) -> [u8; 8]
    ensures { HasPlaces 64 word (item (bytes_list result)) }
{
    reverse_each_byte(word).to_le_bytes()
}

/// Puts the eight bytes of each block into an empty vector that has room for them.
fn push_words(bytes: &mut Vec<u8>, blocks: &[usize])
    requires none { bytes.old.items ≡ [] }
    requires room { 8 * length blocks.now ≤ vec_capacity bytes.old }
    ensures count { length bytes.new.items ≡ 8 * length blocks.now }
    ensures bits { (i : ℕ) → i < 64 * length blocks.now
        → item (bytes_list bytes.new.items) i ≡ bit_at blocks.now 64 i }
{
    for k in 0..blocks.len() {
        // There is room, so this isn't refused.
        let _ = bytes.extend_from_slice(&bytes_of_word(blocks[k]));
    }
}

/// Returns the bytes of `len` bits: as many as they need, the last one filled with false bits.
pub fn block_bytes(alloc: Global, blocks: &[usize], len: usize) -> Result<Vec<u8>, AllocError>
    requires { IsCanonical len blocks.now 64 }
    ensures count { IfOk result (λ bytes. length bytes.items ≡ need len 8) }
    ensures bits { IfOk result (λ bytes. bytes_list bytes.items
        ≡ unpacking len blocks.now 64 ++ replicate (8 * need len 8 - len) false) }
    ensures nothing { len ≡ 0 → IsOk result }
{
    let mut bytes = Vec::with_capacity(alloc, 8 * blocks.len())?;
    push_words(&mut bytes, blocks);
    bytes.truncate(len.div_ceil(8));
    Ok(bytes)
}
