//! Workloads on slots: taken and given back by a script, and of an arena that is full.

use crate::rounds::Missing;
use std::alloc::{AllocError, Global};
use vob_slots::slots::Slots;

/// Of so many steps this many take a slot. The others give back one of those that are held.
const STEPS: usize = 8;

const TAKES: usize = 5;

/// Takes a step of a script, and returns how many slots were taken.
fn step(slots: &mut Slots, held: &mut Vec<usize>, number: usize) -> Result<u64, AllocError> {
    if number % STEPS < TAKES {
        let Some(slot) = slots.alloc() else {
            return Ok(0);
        };
        held.push(slot)?;
        return Ok(1);
    }
    if !held.is_empty() {
        let slot = held.swap_remove(number / STEPS % held.len());
        slots.free(slot);
    }
    Ok(0)
}

/// Takes the steps of a script a round, each time with new slots. Returns how many slots were taken in
/// all, above how many are held at the end.
#[inline(never)]
pub(crate) fn script(
    alloc: Global,
    steps: &[usize],
    count: usize,
    rounds: usize,
) -> Result<u64, Missing> {
    let mut times: u64 = 0;
    let mut held = Vec::new(alloc);
    for _ in 0..rounds {
        let mut slots = Slots::new(alloc, count)?;
        held.clear();
        for number in steps {
            times = times.wrapping_add(step(&mut slots, &mut held, *number)?);
        }
    }
    Ok(
        times
            .wrapping_mul(0x1_0000_0000)
            .wrapping_add(held.len() as u64),
    )
}

/// Returns so many slots, all taken.
fn taken(alloc: Global, count: usize) -> Result<Slots, Missing> {
    let mut slots = Slots::new(alloc, count)?;
    for _ in 0..count {
        slots.alloc();
    }
    Ok(slots)
}

/// Gives back the first and the last of so many slots that are taken, and takes two, a round. Returns
/// the sum of the slots that were taken then.
#[inline(never)]
pub(crate) fn arena(alloc: Global, count: usize, rounds: usize) -> Result<u64, Missing> {
    let mut slots = taken(alloc, count)?;
    let last = count.saturating_sub(1);
    let mut sum: u64 = 0;
    for _ in 0..rounds {
        slots.free(0);
        slots.free(last);
        let first = slots.alloc().unwrap_or(0) as u64;
        let second = slots.alloc().unwrap_or(0) as u64;
        sum = sum.wrapping_add(first).wrapping_add(second);
    }
    Ok(sum)
}
