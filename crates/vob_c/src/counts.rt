//! How many bits are set, of one array or of two combined, and which index has a rank.
ghost use Rattle.std.specs.Prelude.{◌≡◌, ◌≢◌, ◌≤◌, ◌&&◌, ◌||◌, false, take, true};
ghost use Rattle.vob_block.specs.Packing.{unpacking, IsCanonical};
ghost use Rattle.vob_block.specs.Pointwise.{differ, pointwise, without};
ghost use Rattle.vob.specs.Bits.{count_of};
ghost use Rattle.vob.specs.Sets.{IsIndexOfRank};
ghost use Rattle.vob_c.specs.Found.{found_below};
ghost use Rattle.vob_c.specs.Status.{HasWords, TellsWords};

use crate::status::{OK, status_of, status_of_two};
use vob_block::{And, Blocks, Combine, Or, Without, Xor};
use vob_store::combined::count_combined;
use vob_walk::{count_ones_in, index_of_rank};

/// Returns how many bits are set below `index`.
fn ones_below(words: &[usize], bits: usize, index: usize) -> usize
    requires { IsCanonical bits words.now 64 }
    ensures { result ≡ count_of true (take index (unpacking bits words.now 64)) }
{
    count_ones_in(&mut Blocks::new(words), 0, index.min(bits))
}

/// Returns how many bits are set.
fn ones(words: &[usize], bits: usize) -> usize
    requires { IsCanonical bits words.now 64 }
    ensures { result ≡ count_of true (unpacking bits words.now 64) }
{
    ones_below(words, bits, bits)
}

/// Writes into `count` how many bits are set.
#[unsafe(no_mangle)]
pub extern "C" fn conthiral_count_ones(words: &[usize], bits: usize, count: &mut usize) -> u8
    ensures status { TellsWords result (HasWords bits words.now) (IsCanonical bits words.now 64) }
    ensures count { result ≡ 0 → count.new ≡ count_of true (unpacking bits words.now 64) }
    ensures refused { result ≢ 0 → count.new ≡ count.old }
{
    let status = status_of(words, bits);
    if status != OK {
        return status;
    }
    *count = ones(words, bits);
    OK
}

/// Writes into `count` how many bits are set below `index`: all of them if it is past the last one.
#[unsafe(no_mangle)]
pub extern "C" fn conthiral_rank(
    words: &[usize],
    bits: usize,
    index: usize,
    count: &mut usize,
) -> u8
    ensures status { TellsWords result (HasWords bits words.now) (IsCanonical bits words.now 64) }
    ensures count { result ≡ 0
        → count.new ≡ count_of true (take index (unpacking bits words.now 64)) }
    ensures refused { result ≢ 0 → count.new ≡ count.old }
{
    let status = status_of(words, bits);
    if status != OK {
        return status;
    }
    *count = ones_below(words, bits, index);
    OK
}

/// Returns the index of the set bit of a rank, or `bits` if there is none.
fn rank_index(words: &[usize], bits: usize, rank: usize) -> usize
    requires { IsCanonical bits words.now 64 }
    ensures rank { IsIndexOfRank (unpacking bits words.now 64) rank (found_below bits result) }
    ensures most { result ≤ bits }
{
    let found = index_of_rank(&mut Blocks::new(words), rank);
    found.unwrap_or(bits)
}

/// Writes into `index` the index of the set bit below which `rank` bits are set, or `bits` if at most
/// `rank` bits are set.
#[unsafe(no_mangle)]
pub extern "C" fn conthiral_select(
    words: &[usize],
    bits: usize,
    rank: usize,
    index: &mut usize,
) -> u8
    ensures status { TellsWords result (HasWords bits words.now) (IsCanonical bits words.now 64) }
    ensures rank { result ≡ 0
        → IsIndexOfRank (unpacking bits words.now 64) rank (found_below bits index.new) }
    ensures most { result ≡ 0 → index.new ≤ bits }
    ensures refused { result ≢ 0 → index.new ≡ index.old }
{
    let status = status_of(words, bits);
    if status != OK {
        return status;
    }
    *index = rank_index(words, bits, rank);
    OK
}

/// Returns how many bits of both combined are set.
fn ones_of<C: Combine>(own: &[usize], other: &[usize], bits: usize) -> usize
    requires own { IsCanonical bits own.now 64 }
    requires other { IsCanonical bits other.now 64 }
    requires none { C.of_bits false false ≡ false }
    ensures { result ≡ count_of true
        (pointwise C.of_bits (unpacking bits own.now 64) (unpacking bits other.now 64)) }
{
    count_combined::<C, usize>(own, &mut Blocks::new(other))
}

/// Writes into `count` how many bits of both combined are set.
fn count_both<C: Combine>(own: &[usize], other: &[usize], bits: usize, count: &mut usize) -> u8
    requires none { C.of_bits false false ≡ false }
    ensures status { TellsWords result (HasWords bits own.now × HasWords bits other.now)
        (IsCanonical bits own.now 64 × IsCanonical bits other.now 64) }
    ensures count { result ≡ 0 → count.new ≡ count_of true
        (pointwise C.of_bits (unpacking bits own.now 64) (unpacking bits other.now 64)) }
    ensures refused { result ≢ 0 → count.new ≡ count.old }
{
    let status = status_of_two(own, bits, other, bits);
    if status != OK {
        return status;
    }
    *count = ones_of::<C>(own, other, bits);
    OK
}

/// Writes into `count` how many bits are set in both.
#[unsafe(no_mangle)]
pub extern "C" fn conthiral_count_and(
    own: &[usize],
    other: &[usize],
    bits: usize,
    count: &mut usize,
) -> u8
    ensures status { TellsWords result (HasWords bits own.now × HasWords bits other.now)
        (IsCanonical bits own.now 64 × IsCanonical bits other.now 64) }
    ensures count { result ≡ 0 → count.new ≡ count_of true
        (pointwise ◌&&◌ (unpacking bits own.now 64) (unpacking bits other.now 64)) }
    ensures refused { result ≢ 0 → count.new ≡ count.old }
{
    count_both::<And>(own, other, bits, count)
}

/// Writes into `count` how many bits are set in either.
#[unsafe(no_mangle)]
pub extern "C" fn conthiral_count_or(
    own: &[usize],
    other: &[usize],
    bits: usize,
    count: &mut usize,
) -> u8
    ensures status { TellsWords result (HasWords bits own.now × HasWords bits other.now)
        (IsCanonical bits own.now 64 × IsCanonical bits other.now 64) }
    ensures count { result ≡ 0 → count.new ≡ count_of true
        (pointwise ◌||◌ (unpacking bits own.now 64) (unpacking bits other.now 64)) }
    ensures refused { result ≢ 0 → count.new ≡ count.old }
{
    count_both::<Or>(own, other, bits, count)
}

/// Writes into `count` how many bits are set in exactly one.
#[unsafe(no_mangle)]
pub extern "C" fn conthiral_count_xor(
    own: &[usize],
    other: &[usize],
    bits: usize,
    count: &mut usize,
) -> u8
    ensures status { TellsWords result (HasWords bits own.now × HasWords bits other.now)
        (IsCanonical bits own.now 64 × IsCanonical bits other.now 64) }
    ensures count { result ≡ 0 → count.new ≡ count_of true
        (pointwise differ (unpacking bits own.now 64) (unpacking bits other.now 64)) }
    ensures refused { result ≢ 0 → count.new ≡ count.old }
{
    count_both::<Xor>(own, other, bits, count)
}

/// Writes into `count` how many bits are set in `own` and not in `other`.
#[unsafe(no_mangle)]
pub extern "C" fn conthiral_count_and_not(
    own: &[usize],
    other: &[usize],
    bits: usize,
    count: &mut usize,
) -> u8
    ensures status { TellsWords result (HasWords bits own.now × HasWords bits other.now)
        (IsCanonical bits own.now 64 × IsCanonical bits other.now 64) }
    ensures count { result ≡ 0 → count.new ≡ count_of true
        (pointwise without (unpacking bits own.now 64) (unpacking bits other.now 64)) }
    ensures refused { result ≢ 0 → count.new ≡ count.old }
{
    count_both::<Without>(own, other, bits, count)
}
