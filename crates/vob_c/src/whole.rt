//! All bits: made one value, negated; tested, and made canonical.
ghost use Rattle.std.specs.Prelude.{◌≡◌, ◌≢◌, ◌↔◌, map, not, replicate};
ghost use Rattle.vob_block.specs.Packing.{need, packing, unpacking, IsCanonical, Stores};
ghost use Rattle.vob_c.specs.Status.{HasWords, TellsWords};

use crate::status::{LENGTH, OK, status_of};
use vob_store::fill::fill;
use vob_store::mask::{mask_last, negate};
use vob_store::room::block_count;

/// Returns how many words `bits` bits need.
#[unsafe(no_mangle)]
pub extern "C" fn conthiral_word_count(bits: usize) -> usize
    ensures { result ≡ need bits 64 }
{
    block_count::<usize>(bits)
}

/// Tests whether the words hold `bits` bits as each call wants them. Reads the last word alone.
#[unsafe(no_mangle)]
pub extern "C" fn conthiral_check(words: &[usize], bits: usize) -> u8
    ensures { TellsWords result (HasWords bits words.now) (IsCanonical bits words.now 64) }
{
    status_of(words, bits)
}

/// Makes each bit past the last one false, whatever it was. Then the words are canonical.
#[unsafe(no_mangle)]
pub extern "C" fn conthiral_mask(words: &mut [usize], bits: usize) -> u8
    ensures ok { (result ≡ 0) ↔ HasWords bits words.old }
    ensures length { (result ≡ 1) ↔ (¬ HasWords bits words.old) }
    ensures bits { result ≡ 0 → Stores 64 bits words.new (unpacking bits words.old 64) }
    ensures refused { result ≢ 0 → words.new ≡ words.old }
{
    if words.len() != block_count::<usize>(bits) {
        return LENGTH;
    }
    mask_last(words, bits);
    OK
}

/// Makes each bit `value`.
#[unsafe(no_mangle)]
pub extern "C" fn conthiral_fill(words: &mut [usize], bits: usize, value: bool) -> u8
    ensures status { TellsWords result (HasWords bits words.old) (IsCanonical bits words.old 64) }
    ensures bits { result ≡ 0 → Stores 64 bits words.new (replicate bits value) }
    ensures refused { result ≢ 0 → words.new ≡ words.old }
{
    let status = status_of(words, bits);
    if status != OK {
        return status;
    }
    fill(words, bits, value);
    OK
}

/// Negates each bit.
#[unsafe(no_mangle)]
pub extern "C" fn conthiral_negate(words: &mut [usize], bits: usize) -> u8
    ensures status { TellsWords result (HasWords bits words.old) (IsCanonical bits words.old 64) }
    ensures bits { result ≡ 0 → Stores 64 bits words.new (map not (unpacking bits words.old 64)) }
    ensures refused { result ≢ 0 → words.new ≡ words.old }
{
    let status = status_of(words, bits);
    if status != OK {
        return status;
    }
    negate(words, bits);
    OK
}
