//! The kernels at `usize`, eight blocks at a time.
ghost use Rattle.std.specs.Prelude.{◌≡◌, ◌+◌, ◌*◌, ◌^◌, ◌<◌, ◌≤◌, length, bit_or};
ghost use Rattle.std.specs.Simd.Lanes.{Each1, fold_l};
ghost use Rattle.vob_block.specs.Kernel.{Takes};
ghost use Rattle.vob_block.specs.Pointwise.{IsCombined};
ghost use Rattle.vob_block.specs.Reading.{AreReadOnce};

use crate::blocks::Blocks;
use crate::combine::{Combine, combine_block, combine_from};
use crate::kernel::Kernel;
use std::simd::prelude::*;

// How many blocks a turn takes, as two chunks of eight.
const TURN: usize = 16;

// In so many blocks a loop more, for the rest, takes less than lanes save.
const MANY: usize = 512;

/// Does nothing: lanes at hand are in the range of their type, which a proof sees at a parameter.
#[inline(always)]
fn in_range(lanes: usizex8)
    ensures { Each1 (λ x. x < 2 ^ 64) lanes }
{}

/// Combines the eight blocks from `at` on. Returns `changed` or-ed with where they differ from
/// before.
#[inline(always)]
fn combine_chunk<C: Combine>(
    own: &mut [usize],
    other: &mut Blocks<'_, usize>,
    at: usize,
    changed: usizex8,
) -> usizex8
    requires own { at + 8 ≤ length own.old }
    requires other { at + 8 ≤ length other.old.items }
    ensures taken { Takes 64 C.of_bits other.old.items own.old own.new at 8
        (fold_l bit_or 0 changed) (fold_l bit_or 0 result) }
    ensures items { other.new.items ≡ other.old.items }
    ensures reads { other.new.reads ≡ other.old.reads + 8 }
{
    let old = usizex8::from_slice(&own[at..]);
    let (new, differing) = C::lanes(old, usizex8::from_array(other.chunk(at)));
    in_range(new);
    new.copy_to_slice(&mut own[at..]);
    changed | differing
}

/// Combines the blocks of `turns` turns, and leaves the rest. Returns 0 exactly if none changed.
#[inline(always)]
fn combine_turns<C: Combine>(
    own: &mut [usize],
    other: &mut Blocks<'_, usize>,
    turns: usize,
) -> usize
    requires same { length own.old ≡ length other.old.items }
    requires inside { 16 * turns ≤ length own.old }
    ensures taken { Takes 64 C.of_bits other.old.items own.old own.new 0 (16 * turns) 0 result }
    ensures items { other.new.items ≡ other.old.items }
    ensures reads { other.new.reads ≡ other.old.reads + 16 * turns }
{
    let mut changed = usizex8::splat(0);
    for i in 0..turns {
        let at = TURN * i;
        changed = combine_chunk::<C>(own, other, at, changed);
        changed = combine_chunk::<C>(own, other, at + 8, changed);
    }
    changed.reduce_or()
}

/// Combines blocks of which turns leave a rest, and returns whether one changed: if they are many by
/// turns and then the rest, and else all one at a time, of which a compiler takes four or more at once.
#[inline(always)]
fn combine_with_rest<C: Combine>(own: &mut [usize], other: &mut Blocks<'_, usize>) -> bool
    requires { length own.old ≡ length other.old.items }
    ensures combined { IsCombined 64 C.of_bits own.old other.old.items own.new result }
    ensures read { AreReadOnce other.old other.new }
{
    if own.len() < MANY {
        return combine_from::<C, usize>(own, other, 0, 0) != 0;
    }
    let turns = own.len() / TURN;
    let changed = combine_turns::<C>(own, other, turns);
    combine_from::<C, usize>(own, other, TURN * turns, changed) != 0
}

/// Combines the blocks, and returns whether one changed. A block that is alone needs no loop, and whole
/// turns have a loop of their own.
#[inline(always)]
fn combine_blocks<C: Combine>(own: &mut [usize], other: &mut Blocks<'_, usize>) -> bool
    requires { length own.old ≡ length other.old.items }
    ensures combined { IsCombined 64 C.of_bits own.old other.old.items own.new result }
    ensures read { AreReadOnce other.old other.new }
{
    if own.len() == 1 {
        return combine_block::<C, usize>(own, other, 0, 0) != 0;
    }
    let turns = own.len() / TURN;
    if TURN * turns == own.len() {
        return combine_turns::<C>(own, other, turns) != 0;
    }
    combine_with_rest::<C>(own, other)
}

impl Kernel for usize {
    #[inline(always)]
    fn combine_into<C: Combine>(own: &mut [usize], other: &mut Blocks<'_, usize>) -> bool {
        combine_blocks::<C>(own, other)
    }
}
