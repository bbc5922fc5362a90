//! One bit: read, written or negated.
ghost use Rattle.std.specs.Prelude.{◌≡◌, ◌≢◌, ◌↔◌, ◌<◌, IsTrue, Some, not, slice_get, slice_set};
ghost use Rattle.vob_block.specs.Packing.{unpacking, IsCanonical, Stores};
ghost use Rattle.vob_c.specs.Status.{HasWords, Tells};

use crate::status::{OK, status_within};
use vob_store::single::{flip_bit, stored_bit, write_bit};

/// Reads bit `index` into `value`.
#[tactic(auto, using(crate::proofs::StatusLemmas::tells_less))]
#[unsafe(no_mangle)]
pub extern "C" fn conthiral_get(words: &[usize], bits: usize, index: usize, value: &mut bool) -> u8
    ensures status { Tells result (HasWords bits words.now) (IsCanonical bits words.now 64)
        (index < bits) }
    ensures bit { result ≡ 0 → slice_get (unpacking bits words.now 64) index ≡ Some value.new }
    ensures refused { result ≢ 0 → value.new ≡ value.old }
{
    let status = status_within(words, bits, index < bits);
    if status != OK {
        return status;
    }
    *value = stored_bit(words, bits, index);
    OK
}

/// Writes bit `index`, and says whether it changed.
#[tactic(auto, using(crate::proofs::StatusLemmas::tells_less))]
#[unsafe(no_mangle)]
pub extern "C" fn conthiral_set(
    words: &mut [usize],
    bits: usize,
    index: usize,
    value: bool,
    changed: &mut bool,
) -> u8
    ensures status { Tells result (HasWords bits words.old) (IsCanonical bits words.old 64)
        (index < bits) }
    ensures bits { result ≡ 0 → Stores 64 bits words.new
        (slice_set (unpacking bits words.old 64) index value) }
    ensures changed { result ≡ 0 → IsTrue changed.new
        ↔ (slice_get (unpacking bits words.old 64) index ≢ Some value) }
    ensures refused { result ≢ 0 → (words.new ≡ words.old) × (changed.new ≡ changed.old) }
{
    let status = status_within(words, bits, index < bits);
    if status != OK {
        return status;
    }
    *changed = write_bit(words, bits, index, value);
    OK
}

/// Negates bit `index`, and writes its new value into `value`.
#[tactic(auto, using(crate::proofs::StatusLemmas::tells_less))]
#[unsafe(no_mangle)]
pub extern "C" fn conthiral_flip(
    words: &mut [usize],
    bits: usize,
    index: usize,
    value: &mut bool,
) -> u8
    ensures status { Tells result (HasWords bits words.old) (IsCanonical bits words.old 64)
        (index < bits) }
    ensures bits { result ≡ 0 → Stores 64 bits words.new
        (slice_set (unpacking bits words.old 64) index value.new) }
    ensures was { result ≡ 0 → slice_get (unpacking bits words.old 64) index ≡ Some (not value.new) }
    ensures refused { result ≢ 0 → (words.new ≡ words.old) × (value.new ≡ value.old) }
{
    let status = status_within(words, bits, index < bits);
    if status != OK {
        return status;
    }
    *value = flip_bit(words, bits, index);
    OK
}
