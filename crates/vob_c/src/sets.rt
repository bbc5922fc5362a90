//! Two arrays of words combined, bit by bit.
ghost use Rattle.std.specs.Prelude.{◌≡◌, ◌≢◌, ◌↔◌, ◌&&◌, ◌||◌, false, IsTrue};
ghost use Rattle.vob_block.specs.Packing.{unpacking, IsCanonical, Stores};
ghost use Rattle.vob_block.specs.Pointwise.{differ, pointwise, without};
ghost use Rattle.vob_c.specs.Status.{HasWords, TellsWords};

use crate::status::{OK, status_of_three, status_of_two};
use vob_block::{And, Blocks, Combine, Kernel, Or, Without, Xor};
use vob_store::fused::or_combined;

/// Combines the bits of `other` into those of `own`, and says whether one changed.
fn combine<C: Combine>(own: &mut [usize], other: &[usize], bits: usize, changed: &mut bool) -> u8
    requires none { C.of_bits false false ≡ false }
    ensures status { TellsWords result (HasWords bits own.old × HasWords bits other.now)
        (IsCanonical bits own.old 64 × IsCanonical bits other.now 64) }
    ensures bits { result ≡ 0 → Stores 64 bits own.new
        (pointwise C.of_bits (unpacking bits own.old 64) (unpacking bits other.now 64)) }
    ensures changed { result ≡ 0 → (IsTrue changed.new
        ↔ (unpacking bits own.new 64 ≢ unpacking bits own.old 64)) }
    ensures refused { result ≢ 0 → (own.new ≡ own.old) × (changed.new ≡ changed.old) }
{
    let status = status_of_two(own, bits, other, bits);
    if status != OK {
        return status;
    }
    *changed = usize::combine_into::<C>(own, &mut Blocks::new(other));
    OK
}

/// Keeps the bits that both have.
#[unsafe(no_mangle)]
pub extern "C" fn conthiral_and(
    own: &mut [usize],
    other: &[usize],
    bits: usize,
    changed: &mut bool,
) -> u8
    ensures status { TellsWords result (HasWords bits own.old × HasWords bits other.now)
        (IsCanonical bits own.old 64 × IsCanonical bits other.now 64) }
    ensures bits { result ≡ 0 → Stores 64 bits own.new
        (pointwise ◌&&◌ (unpacking bits own.old 64) (unpacking bits other.now 64)) }
    ensures changed { result ≡ 0 → (IsTrue changed.new
        ↔ (unpacking bits own.new 64 ≢ unpacking bits own.old 64)) }
    ensures refused { result ≢ 0 → (own.new ≡ own.old) × (changed.new ≡ changed.old) }
{
    combine::<And>(own, other, bits, changed)
}

/// Adds the bits that the other has.
#[unsafe(no_mangle)]
pub extern "C" fn conthiral_or(
    own: &mut [usize],
    other: &[usize],
    bits: usize,
    changed: &mut bool,
) -> u8
    ensures status { TellsWords result (HasWords bits own.old × HasWords bits other.now)
        (IsCanonical bits own.old 64 × IsCanonical bits other.now 64) }
    ensures bits { result ≡ 0 → Stores 64 bits own.new
        (pointwise ◌||◌ (unpacking bits own.old 64) (unpacking bits other.now 64)) }
    ensures changed { result ≡ 0 → (IsTrue changed.new
        ↔ (unpacking bits own.new 64 ≢ unpacking bits own.old 64)) }
    ensures refused { result ≢ 0 → (own.new ≡ own.old) × (changed.new ≡ changed.old) }
{
    combine::<Or>(own, other, bits, changed)
}

/// Keeps the bits that exactly one has.
#[unsafe(no_mangle)]
pub extern "C" fn conthiral_xor(
    own: &mut [usize],
    other: &[usize],
    bits: usize,
    changed: &mut bool,
) -> u8
    ensures status { TellsWords result (HasWords bits own.old × HasWords bits other.now)
        (IsCanonical bits own.old 64 × IsCanonical bits other.now 64) }
    ensures bits { result ≡ 0 → Stores 64 bits own.new
        (pointwise differ (unpacking bits own.old 64) (unpacking bits other.now 64)) }
    ensures changed { result ≡ 0 → (IsTrue changed.new
        ↔ (unpacking bits own.new 64 ≢ unpacking bits own.old 64)) }
    ensures refused { result ≢ 0 → (own.new ≡ own.old) × (changed.new ≡ changed.old) }
{
    combine::<Xor>(own, other, bits, changed)
}

/// Removes the bits that the other has.
#[unsafe(no_mangle)]
pub extern "C" fn conthiral_and_not(
    own: &mut [usize],
    other: &[usize],
    bits: usize,
    changed: &mut bool,
) -> u8
    ensures status { TellsWords result (HasWords bits own.old × HasWords bits other.now)
        (IsCanonical bits own.old 64 × IsCanonical bits other.now 64) }
    ensures bits { result ≡ 0 → Stores 64 bits own.new
        (pointwise without (unpacking bits own.old 64) (unpacking bits other.now 64)) }
    ensures changed { result ≡ 0 → (IsTrue changed.new
        ↔ (unpacking bits own.new 64 ≢ unpacking bits own.old 64)) }
    ensures refused { result ≢ 0 → (own.new ≡ own.old) × (changed.new ≡ changed.old) }
{
    combine::<Without>(own, other, bits, changed)
}

/// Adds the bits that two others combined have, and says whether one changed.
fn or_combine<C: Combine>(
    own: &mut [usize],
    first: &[usize],
    second: &[usize],
    bits: usize,
    changed: &mut bool,
) -> u8
    requires none { C.of_bits false false ≡ false }
    ensures status { TellsWords result
        (HasWords bits own.old × HasWords bits first.now × HasWords bits second.now)
        (IsCanonical bits own.old 64 × IsCanonical bits first.now 64
        × IsCanonical bits second.now 64) }
    ensures bits { result ≡ 0 → Stores 64 bits own.new (pointwise ◌||◌ (unpacking bits own.old 64)
        (pointwise C.of_bits (unpacking bits first.now 64) (unpacking bits second.now 64))) }
    ensures changed { result ≡ 0 → (IsTrue changed.new
        ↔ (unpacking bits own.new 64 ≢ unpacking bits own.old 64)) }
    ensures refused { result ≢ 0 → (own.new ≡ own.old) × (changed.new ≡ changed.old) }
{
    let status = status_of_three(own, first, second, bits);
    if status != OK {
        return status;
    }
    *changed = or_combined::<C, usize>(own, &mut Blocks::new(first), &mut Blocks::new(second));
    OK
}

/// Adds the bits that `first` and `second` both have.
#[unsafe(no_mangle)]
pub extern "C" fn conthiral_or_and(
    own: &mut [usize],
    first: &[usize],
    second: &[usize],
    bits: usize,
    changed: &mut bool,
) -> u8
    ensures status { TellsWords result
        (HasWords bits own.old × HasWords bits first.now × HasWords bits second.now)
        (IsCanonical bits own.old 64 × IsCanonical bits first.now 64
        × IsCanonical bits second.now 64) }
    ensures bits { result ≡ 0 → Stores 64 bits own.new (pointwise ◌||◌ (unpacking bits own.old 64)
        (pointwise ◌&&◌ (unpacking bits first.now 64) (unpacking bits second.now 64))) }
    ensures changed { result ≡ 0 → (IsTrue changed.new
        ↔ (unpacking bits own.new 64 ≢ unpacking bits own.old 64)) }
    ensures refused { result ≢ 0 → (own.new ≡ own.old) × (changed.new ≡ changed.old) }
{
    or_combine::<And>(own, first, second, bits, changed)
}

/// Adds the bits that `first` has and `second` hasn't.
#[unsafe(no_mangle)]
pub extern "C" fn conthiral_or_and_not(
    own: &mut [usize],
    first: &[usize],
    second: &[usize],
    bits: usize,
    changed: &mut bool,
) -> u8
    ensures status { TellsWords result
        (HasWords bits own.old × HasWords bits first.now × HasWords bits second.now)
        (IsCanonical bits own.old 64 × IsCanonical bits first.now 64
        × IsCanonical bits second.now 64) }
    ensures bits { result ≡ 0 → Stores 64 bits own.new (pointwise ◌||◌ (unpacking bits own.old 64)
        (pointwise without (unpacking bits first.now 64) (unpacking bits second.now 64))) }
    ensures changed { result ≡ 0 → (IsTrue changed.new
        ↔ (unpacking bits own.new 64 ≢ unpacking bits own.old 64)) }
    ensures refused { result ≢ 0 → (own.new ≡ own.old) × (changed.new ≡ changed.old) }
{
    or_combine::<Without>(own, first, second, bits, changed)
}
