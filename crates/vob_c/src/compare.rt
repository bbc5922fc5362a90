//! Two arrays of words compared, as sets and as lists.
ghost use Rattle.std.specs.Prelude.{◌≡◌, ◌≢◌, ◌↔◌, ◌≤◌, ◌&&◌, ℕ, false, min, IsTrue};
ghost use Rattle.vob_block.specs.Packing.{item, unpacking, IsCanonical};
ghost use Rattle.vob.specs.Order.{IsDifference};
ghost use Rattle.vob.specs.Sets.{AreDisjoint, IsSubset};
ghost use Rattle.vob_c.specs.Found.{found_below};
ghost use Rattle.vob_c.specs.Status.{HasWords, TellsWords};

use crate::status::{OK, status_of_two};
use vob_block::{And, Blocks, Combine, Without, Xor};
use vob_store::combined::has_none;
use vob_store::first::first_combined;
use vob_store::room::block_count;
use vob_store::same::same_blocks;

/// Returns whether no bit of both combined is set.
fn none_of<C: Combine>(own: &[usize], other: &[usize], bits: usize) -> bool
    requires own { IsCanonical bits own.now 64 }
    requires other { IsCanonical bits other.now 64 }
    requires none { C.of_bits false false ≡ false }
    ensures { IsTrue result ↔ ((i : ℕ) → C.of_bits (item (unpacking bits own.now 64) i)
        (item (unpacking bits other.now 64) i) ≡ false) }
{
    has_none::<C, usize>(own, &mut Blocks::new(other))
}

/// Returns whether each set bit is set in the other too.
fn is_subset(own: &[usize], other: &[usize], bits: usize) -> bool
    requires own { IsCanonical bits own.now 64 }
    requires other { IsCanonical bits other.now 64 }
    ensures { IsTrue result
        ↔ IsSubset (unpacking bits own.now 64) (unpacking bits other.now 64) }
{
    none_of::<Without>(own, other, bits)
}

/// Returns whether no bit is set in both.
fn are_disjoint(own: &[usize], other: &[usize], bits: usize) -> bool
    requires own { IsCanonical bits own.now 64 }
    requires other { IsCanonical bits other.now 64 }
    ensures { IsTrue result
        ↔ AreDisjoint (unpacking bits own.now 64) (unpacking bits other.now 64) }
{
    none_of::<And>(own, other, bits)
}

/// Returns whether the bits are the same.
fn are_equal(own: &[usize], other: &[usize], bits: usize) -> bool
    requires own { IsCanonical bits own.now 64 }
    requires other { IsCanonical bits other.now 64 }
    ensures { IsTrue result ↔ (unpacking bits own.now 64 ≡ unpacking bits other.now 64) }
{
    same_blocks(own, other)
}

/// Returns the first index below both numbers of bits at which the bits differ, or the lesser number if
/// there is none.
fn difference_or_end(own: &[usize], bits: usize, other: &[usize], other_bits: usize) -> usize
    requires own { IsCanonical bits own.now 64 }
    requires other { IsCanonical other_bits other.now 64 }
    ensures first { IsDifference (unpacking bits own.now 64) (unpacking other_bits other.now 64)
        (found_below (min bits other_bits) result) }
    ensures most { result ≤ min bits other_bits }
{
    let shorter = bits.min(other_bits);
    let count = block_count::<usize>(shorter);
    let found = first_combined::<Xor, usize>(&own[..count], &mut Blocks::new(&other[..count]));
    found.unwrap_or(shorter).min(shorter)
}

/// Writes into `answer` whether each bit that is set in `own` is set in `other` too.
#[unsafe(no_mangle)]
pub extern "C" fn conthiral_is_subset(
    own: &[usize],
    other: &[usize],
    bits: usize,
    answer: &mut bool,
) -> u8
    ensures status { TellsWords result (HasWords bits own.now × HasWords bits other.now)
        (IsCanonical bits own.now 64 × IsCanonical bits other.now 64) }
    ensures answer { result ≡ 0 → (IsTrue answer.new
        ↔ IsSubset (unpacking bits own.now 64) (unpacking bits other.now 64)) }
    ensures refused { result ≢ 0 → answer.new ≡ answer.old }
{
    let status = status_of_two(own, bits, other, bits);
    if status != OK {
        return status;
    }
    *answer = is_subset(own, other, bits);
    OK
}

/// Writes into `answer` whether no bit is set in both.
#[unsafe(no_mangle)]
pub extern "C" fn conthiral_is_disjoint(
    own: &[usize],
    other: &[usize],
    bits: usize,
    answer: &mut bool,
) -> u8
    ensures status { TellsWords result (HasWords bits own.now × HasWords bits other.now)
        (IsCanonical bits own.now 64 × IsCanonical bits other.now 64) }
    ensures answer { result ≡ 0 → (IsTrue answer.new
        ↔ AreDisjoint (unpacking bits own.now 64) (unpacking bits other.now 64)) }
    ensures refused { result ≢ 0 → answer.new ≡ answer.old }
{
    let status = status_of_two(own, bits, other, bits);
    if status != OK {
        return status;
    }
    *answer = are_disjoint(own, other, bits);
    OK
}

/// Writes into `answer` whether both have the same bits.
#[unsafe(no_mangle)]
pub extern "C" fn conthiral_equal(
    own: &[usize],
    other: &[usize],
    bits: usize,
    answer: &mut bool,
) -> u8
    ensures status { TellsWords result (HasWords bits own.now × HasWords bits other.now)
        (IsCanonical bits own.now 64 × IsCanonical bits other.now 64) }
    ensures answer { result ≡ 0 → (IsTrue answer.new
        ↔ (unpacking bits own.now 64 ≡ unpacking bits other.now 64)) }
    ensures refused { result ≢ 0 → answer.new ≡ answer.old }
{
    let status = status_of_two(own, bits, other, bits);
    if status != OK {
        return status;
    }
    *answer = are_equal(own, other, bits);
    OK
}

/// Writes into `index` the first index below both numbers of bits at which the bits differ, or the lesser
/// number if there is none: then one list begins the other. The order of lists is that of these bits, or
/// else of their numbers.
#[unsafe(no_mangle)]
pub extern "C" fn conthiral_first_difference(
    own: &[usize],
    bits: usize,
    other: &[usize],
    other_bits: usize,
    index: &mut usize,
) -> u8
    ensures status { TellsWords result (HasWords bits own.now × HasWords other_bits other.now)
        (IsCanonical bits own.now 64 × IsCanonical other_bits other.now 64) }
    ensures first { result ≡ 0 → IsDifference (unpacking bits own.now 64)
        (unpacking other_bits other.now 64) (found_below (min bits other_bits) index.new) }
    ensures most { result ≡ 0 → index.new ≤ min bits other_bits }
    ensures refused { result ≢ 0 → index.new ≡ index.old }
{
    let status = status_of_two(own, bits, other, other_bits);
    if status != OK {
        return status;
    }
    *index = difference_or_end(own, bits, other, other_bits);
    OK
}
