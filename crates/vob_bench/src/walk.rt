//! Workloads on the indices of set bits and of unset bits.
ghost use Rattle.std.specs.Iterator.{IsFinite};

use crate::checksum::{checksum, clear, flip, touch};
use crate::rounds::{Missing, each_round};
use std::alloc::{AllocError, Global};
use vob::Vob;
use vob::iter::{End, deal};

/// How many pulls a round of `deal` has.
const PULLS: usize = 1 << 16;

/// The sum of the indices that a walk gives.
#[inline(always)]
fn sum<I: Iterator<Item = usize>>(indices: I) -> u64
    requires ends { I.can_next indices × IsFinite (I.remaining indices) }
{
    let mut sum: u64 = 0;
    for index in indices {
        sum = sum.wrapping_add(index as u64);
    }
    sum
}

/// The sum of indices, each found by a method at or above the one after the last.
macro_rules! sum_up {
    ($vob:ident, $find:ident) => {{
        let mut sum: u64 = 0;
        let mut from: usize = 0;
        for _ in 0..$vob.len() {
            match $vob.$find(from) {
                Some(index) => {
                    sum = sum.wrapping_add(index as u64);
                    from = index.wrapping_add(1);
                }
                None => break,
            }
        }
        sum
    }};
}

/// The same downwards, each found at or below the one before the last.
macro_rules! sum_down {
    ($vob:ident, $find:ident) => {{
        let mut sum: u64 = 0;
        let mut from = $vob.len().saturating_sub(1);
        for _ in 0..$vob.len() {
            match $vob.$find(from) {
                Some(index) => {
                    sum = sum.wrapping_add(index as u64);
                    if index == 0 {
                        break;
                    }
                    from = index - 1;
                }
                None => break,
            }
        }
        sum
    }};
}

/// The sum of the indices of set bits, found upwards.
#[inline(always)]
fn next_sum(vob: &Vob) -> u64 {
    sum_up!(vob, next_set)
}

/// The same downwards.
#[inline(always)]
fn previous_sum(vob: &Vob) -> u64 {
    sum_down!(vob, previous_set)
}

/// The sum of the indices of unset bits, found upwards.
#[inline(always)]
fn next_unset_sum(vob: &Vob) -> u64 {
    sum_up!(vob, next_unset)
}

/// The same downwards.
#[inline(always)]
fn previous_unset_sum(vob: &Vob) -> u64 {
    sum_down!(vob, previous_unset)
}

/// The sum of the lengths and the starts of the runs of set bits.
#[inline(never)]
fn run_sum(vob: &Vob) -> u64 {
    let mut sum: u64 = 0;
    for run in vob.runs() {
        sum = sum
            .wrapping_add(run.start as u64)
            .wrapping_add(run.end as u64);
    }
    sum
}

/// Asks for indices of set bits as the pulls say, and returns their sum.
#[inline(never)]
fn dealt(vob: &Vob, pulls: &[End], out: &mut Vec<Option<usize>>) -> Result<u64, AllocError> {
    out.clear();
    deal(&mut vob.iter_set_bits(..), pulls, out)?;
    let mut sum: u64 = 0;
    for index in out.iter() {
        if let Some(index) = index {
            sum = sum.wrapping_add(*index as u64);
        }
    }
    Ok(sum)
}

/// Pulls from both ends in turn.
fn pulls_in_turn(alloc: Global) -> Result<Vec<End>, AllocError> {
    let mut pulls = Vec::new(alloc);
    for _ in 0..PULLS / 2 {
        pulls.push(End::Front)?;
        pulls.push(End::Back)?;
    }
    Ok(pulls)
}

/// Walks over the set bits. Before each walk of these workloads a bit changes.
#[inline(never)]
fn set_bits(mut vob: Vob, rounds: usize) -> Result<u64, Missing> {
    each_round!(vob, rounds, |round| {
        flip(&mut vob, round);
        sum(vob.iter_set_bits(..))
    })
}

/// Walks over the set bits from the back.
#[inline(never)]
fn set_bits_back(mut vob: Vob, rounds: usize) -> Result<u64, Missing> {
    each_round!(vob, rounds, |round| {
        flip(&mut vob, round);
        sum(vob.iter_set_bits(..).rev())
    })
}

/// Walks over the set bits without 13 at the front and 29 at the back.
#[inline(never)]
fn set_bits_between(mut vob: Vob, rounds: usize) -> Result<u64, Missing> {
    let end = vob.len().saturating_sub(29);
    each_round!(vob, rounds, |round| {
        flip(&mut vob, round);
        sum(vob.iter_set_bits(13..end))
    })
}

/// Walks over the unset bits.
#[inline(never)]
fn unset_bits(mut vob: Vob, rounds: usize) -> Result<u64, Missing> {
    each_round!(vob, rounds, |round| {
        flip(&mut vob, round);
        sum(vob.iter_unset_bits(..))
    })
}

/// Walks over the unset bits from the back.
#[inline(never)]
fn unset_bits_back(mut vob: Vob, rounds: usize) -> Result<u64, Missing> {
    each_round!(vob, rounds, |round| {
        flip(&mut vob, round);
        sum(vob.iter_unset_bits(..).rev())
    })
}

/// Counts the set bits.
#[inline(never)]
fn count(mut vob: Vob, rounds: usize) -> Result<u64, Missing> {
    each_round!(vob, rounds, |round| {
        flip(&mut vob, round);
        vob.iter_set_bits(..).count() as u64
    })
}

/// Finds one set bit after another.
#[inline(never)]
fn next_set(mut vob: Vob, rounds: usize) -> Result<u64, Missing> {
    each_round!(vob, rounds, |round| {
        flip(&mut vob, round);
        next_sum(&vob)
    })
}

/// Finds one set bit before another.
#[inline(never)]
fn previous_set(mut vob: Vob, rounds: usize) -> Result<u64, Missing> {
    each_round!(vob, rounds, |round| {
        flip(&mut vob, round);
        previous_sum(&vob)
    })
}

/// Finds one unset bit after another.
#[inline(never)]
fn next_unset(mut vob: Vob, rounds: usize) -> Result<u64, Missing> {
    each_round!(vob, rounds, |round| {
        flip(&mut vob, round);
        next_unset_sum(&vob)
    })
}

/// Finds one unset bit before another.
#[inline(never)]
fn previous_unset(mut vob: Vob, rounds: usize) -> Result<u64, Missing> {
    each_round!(vob, rounds, |round| {
        flip(&mut vob, round);
        previous_unset_sum(&vob)
    })
}

/// Walks over the runs of set bits.
#[inline(never)]
fn runs(mut vob: Vob, rounds: usize) -> Result<u64, Missing> {
    each_round!(vob, rounds, |round| {
        flip(&mut vob, round);
        run_sum(&vob)
    })
}

/// Deals indices of set bits to pulls from both ends in turn.
#[inline(never)]
fn deal_in_turn(alloc: Global, mut vob: Vob, rounds: usize) -> Result<u64, Missing> {
    let pulls = pulls_in_turn(alloc)?;
    let mut out = Vec::new(alloc);
    each_round!(vob, rounds, |round| {
        flip(&mut vob, round);
        dealt(&vob, &pulls, &mut out)?
    })
}

/// Finds the first unset bit. Before each look of these workloads a bit is set.
#[inline(never)]
fn first_free(mut vob: Vob, rounds: usize) -> Result<u64, Missing> {
    let len = vob.len();
    each_round!(vob, rounds, |round| {
        touch(&mut vob, round);
        vob.first_unset().unwrap_or(len) as u64
    })
}

/// Looks whether all bits are set.
#[inline(never)]
fn all(mut vob: Vob, rounds: usize) -> Result<u64, Missing> {
    each_round!(vob, rounds, |round| {
        touch(&mut vob, round);
        vob.all() as u64
    })
}

/// Counts the set bits below an index past the middle.
#[inline(never)]
fn rank(mut vob: Vob, rounds: usize) -> Result<u64, Missing> {
    let middle = (vob.len() / 2).saturating_add(13);
    each_round!(vob, rounds, |round| {
        touch(&mut vob, round);
        vob.rank(middle) as u64
    })
}

/// Finds the set bit below which half of them stand.
#[inline(never)]
fn select(mut vob: Vob, rounds: usize) -> Result<u64, Missing> {
    let k = vob.iter_set_bits(..).count() / 2;
    each_round!(vob, rounds, |round| {
        touch(&mut vob, round);
        vob.select(k).unwrap_or(0) as u64
    })
}

/// Looks for the last unset bit, which isn't there.
#[inline(never)]
fn last_unset(mut vob: Vob, rounds: usize) -> Result<u64, Missing> {
    each_round!(vob, rounds, |round| {
        touch(&mut vob, round);
        (vob.last_unset() == None) as u64
    })
}

/// Looks whether a bit is set. Before each look of these workloads a bit is unset.
#[inline(never)]
fn any(mut vob: Vob, rounds: usize) -> Result<u64, Missing> {
    each_round!(vob, rounds, |round| {
        clear(&mut vob, round);
        !vob.any() as u64
    })
}

/// Looks for the first set bit, which isn't there.
#[inline(never)]
fn first_set(mut vob: Vob, rounds: usize) -> Result<u64, Missing> {
    each_round!(vob, rounds, |round| {
        clear(&mut vob, round);
        (vob.first_set() == None) as u64
    })
}

/// Looks for the last set bit, which isn't there.
#[inline(never)]
fn last_set(mut vob: Vob, rounds: usize) -> Result<u64, Missing> {
    each_round!(vob, rounds, |round| {
        clear(&mut vob, round);
        (vob.last_set() == None) as u64
    })
}

/// Runs the workload of a name.
pub(crate) fn run(alloc: Global, name: &[u8], bytes: &[u8], rounds: usize) -> Result<u64, Missing> {
    let vob = Vob::from_bytes(alloc, bytes)?;
    match name {
        b"SetBits" => set_bits(vob, rounds),
        b"SetBitsBack" => set_bits_back(vob, rounds),
        b"SetBitsBetween" => set_bits_between(vob, rounds),
        b"UnsetBits" => unset_bits(vob, rounds),
        b"UnsetBitsBack" => unset_bits_back(vob, rounds),
        b"Count" => count(vob, rounds),
        b"NextSet" => next_set(vob, rounds),
        b"PreviousSet" => previous_set(vob, rounds),
        b"NextUnset" => next_unset(vob, rounds),
        b"PreviousUnset" => previous_unset(vob, rounds),
        b"Runs" => runs(vob, rounds),
        b"Deal" => deal_in_turn(alloc, vob, rounds),
        b"FirstFree" => first_free(vob, rounds),
        b"All" => all(vob, rounds),
        b"Rank" => rank(vob, rounds),
        b"Select" => select(vob, rounds),
        b"LastUnset" => last_unset(vob, rounds),
        b"Any" => any(vob, rounds),
        b"FirstSet" => first_set(vob, rounds),
        b"LastSet" => last_set(vob, rounds),
        _ => Err(Missing::Name),
    }
}
