//! Bits read from bytes and written into bytes, the least or the most significant bit of a byte first.
ghost use Rattle.std.specs.Prelude.{◌≡◌, ◌≢◌, ◌↔◌, ℕ, ◌+◌, ◌-◌, ◌*◌, ◌<◌, ◌≤◌, if◌then◌else◌, length};
ghost use Rattle.vob_block.specs.Packing.{item, need, bit_at, unpacking, IsCanonical, Stores};
ghost use Rattle.vob_block.specs.Places.{place};
ghost use Rattle.vob_c.specs.Bytes.{bits_of_bytes, byte_bit};
ghost use Rattle.vob_c.specs.Status.{HasWords, TellsWords};

use crate::status::{LENGTH, OK, status_of};
use vob_store::load_store::write_bits;
use vob_store::mask::mask_last;
use vob_store::room::block_count;

/// Returns a byte, with its bits in reverse order if the most significant one comes first.
fn turned(byte: u8, most_first: bool) -> u8
    ensures { (j : ℕ) → j < 8
        → place j result ≡ place (if most_first then 7 - j else j) byte }
{
    if most_first {
        byte.reverse_bits()
    } else {
        byte
    }
}

/// Returns byte `k` of some words, the least significant bit first.
fn low_byte(words: &[usize], k: usize) -> u8
    requires { k < 8 * length words.now }
    ensures { (j : ℕ) → j < 8 → place j result ≡ bit_at words.now 64 (8 * k + j) }
{
    words[k / 8].to_le_bytes()[k % 8]
}

/// Returns the word of eight bytes from byte `at` on, each turned around if its most significant bit comes
/// first.
fn word_at(bytes: &[u8], at: usize, most_first: bool) -> usize
    requires { at + 8 ≤ length bytes.now }
    ensures { (i : ℕ) → i < 64 → place i result ≡ byte_bit most_first bytes.now (8 * at + i) }
{
    let mut eight = [0; 8];
    for j in 0..8 {
        eight[j] = turned(bytes[at + j], most_first);
    }
    usize::from_le_bytes(eight)
}

/// Writes the bits of bytes into words as long as eight are left, and returns of how many.
fn load_words(words: &mut [usize], bytes: &[u8], most_first: bool) -> usize
    requires { length bytes.now ≤ 8 * length words.old }
    ensures most { result ≤ length bytes.now }
    ensures long { length words.new ≡ length words.old }
    ensures each { (i : ℕ) → i < 8 * result
        → bit_at words.new 64 i ≡ byte_bit most_first bytes.now i }
{
    let whole = bytes.len() / 8;
    for k in 0..whole {
        words[k] = word_at(bytes, 8 * k, most_first);
    }
    8 * whole
}

/// Writes the bits of bytes into words.
fn load_bytes(words: &mut [usize], bits: usize, bytes: &[u8], most_first: bool)
    requires words { HasWords bits words.old }
    requires bytes { length bytes.now ≡ need bits 8 }
    ensures { Stores 64 bits words.new (bits_of_bytes most_first bits bytes.now) }
{
    let first = load_words(words, bytes, most_first);
    for k in first..bytes.len() {
        let byte = turned(bytes[k], most_first);
        write_bits(words, 8 * k, usize::from(byte), (bits - 8 * k).min(8));
    }
    mask_last(words, bits);
}

/// Writes the eight bytes of word `at`, each turned around if its most significant bit comes first.
fn store_word(words: &[usize], at: usize, bytes: &mut [u8], most_first: bool)
    requires word { at < length words.now }
    requires bytes { 8 * at + 8 ≤ length bytes.old }
    ensures long { length bytes.new ≡ length bytes.old }
    ensures each { ((i : ℕ) → i < 8 * (8 * at)
        → byte_bit most_first bytes.old i ≡ bit_at words.now 64 i)
        → (i : ℕ) → i < 8 * (8 * at + 8) → byte_bit most_first bytes.new i ≡ bit_at words.now 64 i }
{
    let eight = words[at].to_le_bytes();
    for j in 0..8 {
        bytes[8 * at + j] = turned(eight[j], most_first);
    }
}

/// Writes the bits of words into bytes as long as there is room for eight, and returns of how many.
fn store_words(words: &[usize], bytes: &mut [u8], most_first: bool) -> usize
    requires { length bytes.old ≤ 8 * length words.now }
    ensures most { result ≤ length bytes.old }
    ensures long { length bytes.new ≡ length bytes.old }
    ensures each { (i : ℕ) → i < 8 * result
        → byte_bit most_first bytes.new i ≡ bit_at words.now 64 i }
{
    let whole = bytes.len() / 8;
    for k in 0..whole {
        store_word(words, k, bytes, most_first);
    }
    8 * whole
}

/// Writes the bits of words into bytes.
fn store_bytes(words: &[usize], bits: usize, bytes: &mut [u8], most_first: bool)
    requires canonical { IsCanonical bits words.now 64 }
    requires bytes { length bytes.old ≡ need bits 8 }
    ensures { (i : ℕ) → byte_bit most_first bytes.new i ≡ item (unpacking bits words.now 64) i }
{
    let first = store_words(words, bytes, most_first);
    for k in first..bytes.len() {
        bytes[k] = turned(low_byte(words, k), most_first);
    }
}

/// Writes the first `bits` bits of the bytes into the words, whatever these hold. Bit 0 is the least
/// significant bit of byte 0, or its most significant bit with `most_first`. `bits` bits need
/// (bits + 7) / 8 bytes; what the last byte has past them isn't read.
#[unsafe(no_mangle)]
pub extern "C" fn conthiral_from_bytes(
    words: &mut [usize],
    bits: usize,
    bytes: &[u8],
    most_first: bool,
) -> u8
    ensures ok { (result ≡ 0) ↔ (HasWords bits words.old × (length bytes.now ≡ need bits 8)) }
    ensures length { (result ≡ 1) ↔ (¬ (HasWords bits words.old × (length bytes.now ≡ need bits 8))) }
    ensures bits { result ≡ 0
        → Stores 64 bits words.new (bits_of_bytes most_first bits bytes.now) }
    ensures refused { result ≢ 0 → words.new ≡ words.old }
{
    if words.len() != block_count::<usize>(bits) || bytes.len() != block_count::<u8>(bits) {
        return LENGTH;
    }
    load_bytes(words, bits, bytes, most_first);
    OK
}

/// Writes the bits into the bytes. Bit 0 becomes the least significant bit of byte 0, or its most
/// significant bit with `most_first`. `bits` bits need (bits + 7) / 8 bytes; the last one is filled with
/// false bits.
#[unsafe(no_mangle)]
pub extern "C" fn conthiral_to_bytes(
    words: &[usize],
    bits: usize,
    bytes: &mut [u8],
    most_first: bool,
) -> u8
    ensures status { TellsWords result
        (HasWords bits words.now × (length bytes.old ≡ need bits 8))
        (IsCanonical bits words.now 64) }
    ensures bits { result ≡ 0
        → (i : ℕ) → byte_bit most_first bytes.new i ≡ item (unpacking bits words.now 64) i }
    ensures refused { result ≢ 0 → bytes.new ≡ bytes.old }
{
    if words.len() != block_count::<usize>(bits) || bytes.len() != block_count::<u8>(bits) {
        return LENGTH;
    }
    let status = status_of(words, bits);
    if status != OK {
        return status;
    }
    store_bytes(words, bits, bytes, most_first);
    OK
}
