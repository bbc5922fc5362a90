//! Ways to combine two blocks, and the loop that stores what they make.
ghost use Rattle.std.specs.Prelude.{◌≡◌, ◌+◌, ◌-◌, ◌^◌, ◌<◌, ◌≤◌, ◌&&◌, ◌||◌, Bool, length, map};
ghost use Rattle.std.specs.Prelude.{bit_xor};
ghost use Rattle.std.specs.Simd.Lanes.{zip2};
ghost use Rattle.vob_block.specs.Kernel.{Takes};
ghost use Rattle.vob_block.specs.Places.{place, HasPlaces};
ghost use Rattle.vob_block.specs.Pointwise.{IsPointwise, differ, without};

use crate::bit_block::BitBlock;
use crate::blocks::Blocks;
use std::simd::prelude::*;

/// A way to combine two blocks, place by place.
pub trait Combine {
    // What it makes of two bits.
    ghost of_bits: { Bool → Bool → Bool };

    /// Returns what it makes of the places of both blocks.
    fn block<T: BitBlock>(own: T, other: T) -> T
        ensures places { HasPlaces T.BITS (T.number result)
            (λ j. of_bits (place j (T.number own)) (place j (T.number other))) }
        ensures within { T.number result < 2 ^ T.BITS };

    /// Returns what it makes of the blocks in each of eight lanes, and where these differ from `own`:
    /// one may be had from the other with less work.
    fn lanes(own: usizex8, others: usizex8) -> (usizex8, usizex8)
        ensures combined { IsPointwise 64 of_bits own others result.0 }
        ensures differs { result.1 ≡ zip2 bit_xor own result.0 };
}

/// The places that both blocks have.
pub struct And;

impl Combine for And {
    ghost of_bits = { ◌&&◌ };

    #[inline(always)]
    fn block<T: BitBlock>(own: T, other: T) -> T {
        own.band(other)
    }

    #[inline(always)]
    fn lanes(own: usizex8, others: usizex8) -> (usizex8, usizex8) {
        let new = own & others;
        (new, own ^ new)
    }
}

/// The places that either block has.
pub struct Or;

impl Combine for Or {
    ghost of_bits = { ◌||◌ };

    #[inline(always)]
    fn block<T: BitBlock>(own: T, other: T) -> T {
        own.bor(other)
    }

    #[inline(always)]
    fn lanes(own: usizex8, others: usizex8) -> (usizex8, usizex8) {
        let new = own | others;
        (new, own ^ new)
    }
}

/// The places that exactly one of the blocks has.
pub struct Xor;

impl Combine for Xor {
    ghost of_bits = { differ };

    #[inline(always)]
    fn block<T: BitBlock>(own: T, other: T) -> T {
        own.bxor(other)
    }

    #[inline(always)]
    fn lanes(own: usizex8, others: usizex8) -> (usizex8, usizex8) {
        let new = own ^ others;
        (new, own ^ new)
    }
}

/// The places that the first block has and the other doesn't.
pub struct Without;

impl Combine for Without {
    ghost of_bits = { without };

    #[inline(always)]
    fn block<T: BitBlock>(own: T, other: T) -> T {
        own.band(other.bnot())
    }

    #[inline(always)]
    fn lanes(own: usizex8, others: usizex8) -> (usizex8, usizex8) {
        let both = own & others;
        (own ^ both, both)
    }
}

/// Combines block `k`, and returns the changed places with those where it changed.
#[inline(always)]
pub(crate) fn combine_block<C: Combine, T: BitBlock>(
    own: &mut [T],
    other: &mut Blocks<'_, T>,
    k: usize,
    changed: T,
) -> T
    requires own { k < length own.old }
    requires other { k < length other.old.items }
    ensures taken { Takes T.BITS C.of_bits (map T.number other.old.items) (map T.number own.old)
        (map T.number own.new) k 1 (T.number changed) (T.number result) }
    ensures items { other.new.items ≡ other.old.items }
    ensures reads { other.new.reads ≡ other.old.reads + 1 }
{
    changed.in_range();
    let old = own[k];
    old.in_range();
    let new = C::block(old, other.block(k));
    own[k] = new;
    changed.bor(old.bxor(new))
}

/// Combines the blocks from `from` on, and returns the changed places with those where one changed.
#[inline(always)]
pub(crate) fn combine_from<C: Combine, T: BitBlock>(
    own: &mut [T],
    other: &mut Blocks<'_, T>,
    from: usize,
    changed: T,
) -> T
    requires same { length own.old ≡ length other.old.items }
    requires inside { from ≤ length own.old }
    ensures taken { Takes T.BITS C.of_bits (map T.number other.old.items) (map T.number own.old)
        (map T.number own.new) from (length own.old - from) (T.number changed) (T.number result) }
    ensures items { other.new.items ≡ other.old.items }
    ensures reads { other.new.reads + from ≡ other.old.reads + length own.old }
{
    let mut changed = changed;
    for k in from..own.len() {
        changed = combine_block::<C, T>(own, other, k, changed);
    }
    changed
}
