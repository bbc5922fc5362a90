//! The blocks of two slices combined, place by place: counted, or asked for a true place.
ghost use Rattle.std.specs.Prelude.{◌≡◌, ◌↔◌, ◌+◌, ◌-◌, ◌≤◌, map, length, IsTrue};
ghost use Rattle.vob_block.specs.Reading.{AreReadOnce};
ghost use Rattle.vob_store.specs.Combined.{ones_combined, HaveNone, StopsAtChunk};

use vob_block::{BitBlock, Blocks, Combine};

// How many blocks are read for one test. A test after each block takes more than twice as long.
const CHUNK: usize = 64;

/// How many places are true in both combined. Each block of `other` is read once.
pub fn count_combined<C: Combine, T: BitBlock>(own: &[T], other: &mut Blocks<'_, T>) -> usize
    requires count { length own.now ≡ length other.old.items }
    requires fits { ones_combined C.of_bits T.BITS (map T.number own.now)
        (map T.number other.old.items) (length own.now) ≤ usize.MAX }
    ensures ones { result ≡ ones_combined C.of_bits T.BITS (map T.number own.now)
        (map T.number other.old.items) (length own.now) }
    ensures read { AreReadOnce other.old other.new }
{
    let mut ones = 0;
    for k in 0..own.len() {
        ones += C::block(own[k], other.block(k)).ones_in();
    }
    ones
}

/// Whether no place is true in the blocks from `from` to below `to` of both combined. Each of them
/// is read once.
fn none_between<C: Combine, T: BitBlock>(
    own: &[T],
    other: &mut Blocks<'_, T>,
    from: usize,
    to: usize,
) -> bool
    requires order { from ≤ to }
    requires count { to ≤ length own.now }
    requires same { length own.now ≡ length other.old.items }
    ensures none { IsTrue result ↔ HaveNone C.of_bits T.BITS from to (map T.number own.now)
        (map T.number other.old.items) }
    ensures items { other.new.items ≡ other.old.items }
    ensures reads { other.new.reads ≡ other.old.reads + (to - from) }
{
    let mut found = T::ZERO;
    for k in from..to {
        found = found.bor(C::block(own[k], other.block(k)));
    }
    found == T::ZERO
}

/// Whether no place is true in both combined. Each block of `other` is read at most once, and none
/// after the chunk of the first such place. A block that is alone needs no loop.
pub fn has_none<C: Combine, T: BitBlock>(own: &[T], other: &mut Blocks<'_, T>) -> bool
    requires { length own.now ≡ length other.old.items }
    ensures none { IsTrue result ↔ HaveNone C.of_bits T.BITS 0 (length own.now)
        (map T.number own.now) (map T.number other.old.items) }
    ensures reads { other.new.reads ≤ other.old.reads + length other.old.items }
    ensures stops { StopsAtChunk C.of_bits T.BITS (map T.number own.now)
        (map T.number other.old.items) other.old.reads other.new.reads }
{
    if own.len() == 1 {
        return C::block(own[0], other.block(0)) == T::ZERO;
    }
    let whole = own.len() / CHUNK;
    for chunk in 0..whole {
        let from = chunk * CHUNK;
        if !none_between::<C, T>(own, other, from, from + CHUNK) {
            return false;
        }
    }
    none_between::<C, T>(own, other, whole * CHUNK, own.len())
}
