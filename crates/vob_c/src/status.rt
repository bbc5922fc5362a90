//! The status that a call returns, and the tests that it comes from.
ghost use Rattle.std.specs.Prelude.{◌≡◌, ◌≢◌, ◌↔◌, ◌+◌, ◌<◌, ◌≤◌, IsTrue};
ghost use Rattle.vob_block.specs.Packing.{need, IsCanonical};
ghost use Rattle.vob_c.specs.Status.{HasWords, Tells, TellsWords};

use vob_store::canonical::is_canonical;
use vob_store::room::block_count;

/// Every condition of the call is met.
pub const OK: u8 = 0;

/// The words are more or fewer than the bits need, or the offsets of a graph don't fit its ends. An array is
/// longer or shorter than a table needs, or there is room for fewer reductions than a parser makes.
pub const LENGTH: u8 = 1;

/// An index or a range is past the bits, or what should be a node of a graph is none. A parser by the
/// arrays of a table would reduce by a rule that isn't there.
pub const RANGE: u8 = 2;

/// Memory ran out. No call on bits asks for any.
pub const MEMORY: u8 = 3;

/// A bit past the last one is set.
pub const NOT_CANONICAL: u8 = 4;

/// The text of a grammar is faulty.
pub const TEXT: u8 = 5;

/// No action of a parser takes a token, or the end.
pub const TOKEN: u8 = 6;

/// Returns the status of words that are to hold `bits` bits.
pub(crate) fn status_of(words: &[usize], bits: usize) -> u8
    ensures { TellsWords result (HasWords bits words.now) (IsCanonical bits words.now 64) }
{
    if words.len() != block_count::<usize>(bits) {
        return LENGTH;
    }
    if is_canonical(words, bits) {
        OK
    } else {
        NOT_CANONICAL
    }
}

/// Returns the status of words that are to hold `bits` bits, and of a range.
pub(crate) fn status_within(words: &[usize], bits: usize, inside: bool) -> u8
    ensures { Tells result (HasWords bits words.now) (IsCanonical bits words.now 64) (IsTrue inside) }
{
    let status = status_of(words, bits);
    if status != OK {
        return status;
    }
    if inside { OK } else { RANGE }
}

/// Returns the status of two arrays of words, each with its number of bits.
pub(crate) fn status_of_two(own: &[usize], bits: usize, other: &[usize], other_bits: usize) -> u8
    ensures { TellsWords result (HasWords bits own.now × HasWords other_bits other.now)
        (IsCanonical bits own.now 64 × IsCanonical other_bits other.now 64) }
{
    if own.len() != block_count::<usize>(bits) || other.len() != block_count::<usize>(other_bits) {
        return LENGTH;
    }
    if is_canonical(own, bits) && is_canonical(other, other_bits) {
        OK
    } else {
        NOT_CANONICAL
    }
}

/// Returns the status of three arrays of words that are to hold `bits` bits each.
pub(crate) fn status_of_three(own: &[usize], first: &[usize], second: &[usize], bits: usize) -> u8
    ensures { TellsWords result
        (HasWords bits own.now × HasWords bits first.now × HasWords bits second.now)
        (IsCanonical bits own.now 64 × IsCanonical bits first.now 64
        × IsCanonical bits second.now 64) }
{
    let count = block_count::<usize>(bits);
    if own.len() != count || first.len() != count || second.len() != count {
        return LENGTH;
    }
    if is_canonical(own, bits) && is_canonical(first, bits) && is_canonical(second, bits) {
        OK
    } else {
        NOT_CANONICAL
    }
}

/// Returns the status of words, and of the indices from `start` to below `stop`.
pub(crate) fn status_between(words: &[usize], bits: usize, start: usize, stop: usize) -> u8
    ensures { Tells result (HasWords bits words.now) (IsCanonical bits words.now 64)
        ((start ≤ stop) × (stop ≤ bits)) }
{
    let status = status_of(words, bits);
    if status != OK {
        return status;
    }
    if start <= stop && stop <= bits {
        OK
    } else {
        RANGE
    }
}

/// Returns whether `count` bits from index `at` on are below `bits`.
pub(crate) fn has_room(at: usize, count: usize, bits: usize) -> bool
    ensures { IsTrue result ↔ (at + count ≤ bits) }
{
    if count > bits {
        return false;
    }
    at <= bits - count
}
