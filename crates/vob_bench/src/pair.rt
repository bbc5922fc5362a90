//! Workloads on two Vobs, which are as long. If they aren't, nothing is done.

use crate::checksum::{checksum, clear, flip, sample, touch};
use crate::rounds::{Missing, each_round};
use std::alloc::Global;
use vob::Vob;
use vob_filter::rows::{count_rows, select};

/// The bits of a range written over those from `at` on, if they are there and fit.
fn copy_bits(vob: &mut Vob, at: usize, other: &Vob, bounds: (usize, usize)) {
    let (start, end) = bounds;
    if start <= end && end <= other.len() && at <= vob.len() && end - start <= vob.len() - at {
        vob.copy_range(at, other, start..end);
    }
}

/// `is_subset` of a Vob whose bits another has in each round.
#[inline(never)]
fn subset(mut vob: Vob, mut other: Vob, rounds: usize) -> Result<u64, Missing> {
    if other.len() == vob.len() {
        other.or(&vob);
    }
    each_round!(vob, rounds, |round| {
        touch(&mut vob, round);
        touch(&mut other, round);
        (vob.len() == other.len() && vob.is_subset(&other)) as u64
    })
}

/// `is_superset` of a Vob whose bits this one has in each round.
#[inline(never)]
fn superset(mut vob: Vob, mut other: Vob, rounds: usize) -> Result<u64, Missing> {
    if other.len() == vob.len() {
        vob.or(&other);
    }
    each_round!(vob, rounds, |round| {
        touch(&mut vob, round);
        touch(&mut other, round);
        (vob.len() == other.len() && vob.is_superset(&other)) as u64
    })
}

/// `is_disjoint` with a Vob that has none of the bits in each round.
#[inline(never)]
fn disjoint(mut vob: Vob, mut other: Vob, rounds: usize) -> Result<u64, Missing> {
    if other.len() == vob.len() {
        other.and_not(&vob);
    }
    each_round!(vob, rounds, |round| {
        touch(&mut vob, round);
        clear(&mut other, round);
        (vob.len() == other.len() && vob.is_disjoint(&other)) as u64
    })
}

/// `==` of two Vobs that are equal in each round.
#[inline(never)]
fn equal(mut vob: Vob, rounds: usize) -> Result<u64, Missing> {
    let mut other = vob.clone()?;
    each_round!(vob, rounds, |round| {
        touch(&mut vob, round);
        touch(&mut other, round);
        (vob == other) as u64
    })
}

/// `<` of two Vobs that are equal in each round, so that no bit decides.
#[inline(never)]
fn before(mut vob: Vob, rounds: usize) -> Result<u64, Missing> {
    let mut other = vob.clone()?;
    each_round!(vob, rounds, |round| {
        touch(&mut vob, round);
        touch(&mut other, round);
        (vob < other) as u64
    })
}

/// The sum of the indices that two Vobs of one length have both.
#[inline(never)]
fn both(vob: &Vob, other: &Vob) -> u64 {
    let mut sum: u64 = 0;
    if vob.len() == other.len() {
        for index in vob.intersection(other) {
            sum = sum.wrapping_add(index as u64);
        }
    }
    sum
}

/// A walk a round over the indices that both have, of which one changes before.
#[inline(never)]
fn intersection(mut vob: Vob, other: &Vob, rounds: usize) -> Result<u64, Missing> {
    each_round!(vob, rounds, |round| {
        flip(&mut vob, round);
        both(&vob, other)
    })
}

/// A new Vob a round of the bits that one has and another hasn't.
#[inline(never)]
fn minus(mut vob: Vob, other: &Vob, rounds: usize) -> Result<u64, Missing> {
    each_round!(vob, rounds, |round| {
        touch(&mut vob, round);
        if vob.len() == other.len() {
            let made = &vob - other;
            sample(&made?, round) as u64
        } else {
            0
        }
    })
}

/// The others appended to the first `at` bits, in the room that the first round made.
#[inline(never)]
fn extend(mut vob: Vob, other: &Vob, at: usize, rounds: usize) -> Result<u64, Missing> {
    each_round!(vob, rounds, |round| {
        vob.truncate(at);
        vob.extend_from_vob(other)?;
        sample(&vob, round) as u64
    })
}

/// The rows that two columns keep and a third doesn't, and how many they are.
#[inline(never)]
fn filter(mut vob: Vob, other: &Vob, rounds: usize) -> Result<u64, Missing> {
    let mut without = other.clone()?;
    if without.len() == vob.len() {
        without.xor(&vob);
    }
    each_round!(vob, rounds, |round| {
        touch(&mut vob, round);
        if vob.len() == other.len() && vob.len() == without.len() {
            count_rows(&select(&vob, other, &without)?) as u64
        } else {
            0
        }
    })
}

/// The bits from index 13 on, but for the last ones, written over those from index 29 on.
#[inline(never)]
fn copy_range(mut vob: Vob, other: &Vob, rounds: usize) -> Result<u64, Missing> {
    each_round!(vob, rounds, |round| {
        copy_bits(&mut vob, 29, other, (13, other.len().saturating_sub(64)),);
        sample(&vob, round) as u64
    })
}

/// `and` a round.
#[inline(never)]
fn and(mut vob: Vob, other: &Vob, rounds: usize) -> Result<u64, Missing> {
    each_round!(vob, rounds, |_round| {
        (vob.len() == other.len() && vob.and(other)) as u64
    })
}

/// `or` a round.
#[inline(never)]
fn or(mut vob: Vob, other: &Vob, rounds: usize) -> Result<u64, Missing> {
    each_round!(vob, rounds, |_round| {
        (vob.len() == other.len() && vob.or(other)) as u64
    })
}

/// `xor` a round.
#[inline(never)]
fn xor(mut vob: Vob, other: &Vob, rounds: usize) -> Result<u64, Missing> {
    each_round!(vob, rounds, |_round| {
        (vob.len() == other.len() && vob.xor(other)) as u64
    })
}

/// `and_not` a round.
#[inline(never)]
fn and_not(mut vob: Vob, other: &Vob, rounds: usize) -> Result<u64, Missing> {
    each_round!(vob, rounds, |_round| {
        (vob.len() == other.len() && vob.and_not(other)) as u64
    })
}

/// `or` a round, without a look at what is returned.
#[inline(never)]
fn or_dropped(mut vob: Vob, other: &Vob, rounds: usize) -> Result<u64, Missing> {
    each_round!(vob, rounds, |_round| {
        if vob.len() == other.len() {
            vob.or(other);
        }
        0
    })
}

/// `and_not` a round, without a look at what is returned.
#[inline(never)]
fn and_not_dropped(mut vob: Vob, other: &Vob, rounds: usize) -> Result<u64, Missing> {
    each_round!(vob, rounds, |_round| {
        if vob.len() == other.len() {
            vob.and_not(other);
        }
        0
    })
}

/// `count_and` a round.
#[inline(never)]
fn count_and(mut vob: Vob, other: &Vob, rounds: usize) -> Result<u64, Missing> {
    each_round!(vob, rounds, |round| {
        touch(&mut vob, round);
        let fits = vob.len() == other.len();
        (if fits { vob.count_and(other) } else { 0 }) as u64
    })
}

/// `count_or` a round.
#[inline(never)]
fn count_or(mut vob: Vob, other: &Vob, rounds: usize) -> Result<u64, Missing> {
    each_round!(vob, rounds, |round| {
        touch(&mut vob, round);
        let fits = vob.len() == other.len();
        (if fits { vob.count_or(other) } else { 0 }) as u64
    })
}

/// `count_and_not` a round.
#[inline(never)]
fn count_and_not(mut vob: Vob, other: &Vob, rounds: usize) -> Result<u64, Missing> {
    each_round!(vob, rounds, |round| {
        touch(&mut vob, round);
        let fits = vob.len() == other.len();
        (if fits { vob.count_and_not(other) } else { 0 }) as u64
    })
}

/// `count_xor` a round.
#[inline(never)]
fn count_xor(mut vob: Vob, other: &Vob, rounds: usize) -> Result<u64, Missing> {
    each_round!(vob, rounds, |round| {
        touch(&mut vob, round);
        let fits = vob.len() == other.len();
        (if fits { vob.count_xor(other) } else { 0 }) as u64
    })
}

/// Runs the workload of a name.
pub(crate) fn run(
    alloc: Global,
    name: &[u8],
    bytes: &[u8],
    others: &[u8],
    rounds: usize,
) -> Result<u64, Missing> {
    let vob = Vob::from_bytes(alloc, bytes)?;
    let other = Vob::from_bytes(alloc, others)?;
    match name {
        b"Subset" => subset(vob, other, rounds),
        b"Superset" => superset(vob, other, rounds),
        b"Disjoint" => disjoint(vob, other, rounds),
        b"Equal" => equal(vob, rounds),
        b"Order" => before(vob, rounds),
        b"Minus" => minus(vob, &other, rounds),
        b"Intersection" => intersection(vob, &other, rounds),
        b"ExtendAligned" => extend(vob, &other, 64, rounds),
        b"ExtendShifted" => extend(vob, &other, 64 + 13, rounds),
        b"Filter" => filter(vob, &other, rounds),
        b"CopyRange" => copy_range(vob, &other, rounds),
        _ => combine(name, vob, &other, rounds),
    }
}

/// Runs the workload of a name that combines two Vobs in place, or counts what both have.
fn combine(name: &[u8], vob: Vob, other: &Vob, rounds: usize) -> Result<u64, Missing> {
    match name {
        b"And" => and(vob, other, rounds),
        b"Or" => or(vob, other, rounds),
        b"Xor" => xor(vob, other, rounds),
        b"AndNot" => and_not(vob, other, rounds),
        b"OrDropped" => or_dropped(vob, other, rounds),
        b"AndNotDropped" => and_not_dropped(vob, other, rounds),
        b"CountAnd" => count_and(vob, other, rounds),
        b"CountOr" => count_or(vob, other, rounds),
        b"CountAndNot" => count_and_not(vob, other, rounds),
        b"CountXor" => count_xor(vob, other, rounds),
        _ => Err(Missing::Name),
    }
}
