//! Workloads on all bits of a Vob, or on a range of them.

use crate::checksum::{checksum, index_of, sample, touch};
use crate::rounds::{Missing, each_round};
use std::alloc::Global;
use std::hash::{DefaultHasher, Hash, Hasher};
use vob::Vob;

/// How many bits are true, counted by the walk over them.
#[inline(never)]
fn walked(vob: &Vob) -> u64 {
    let mut times: u64 = 0;
    for bit in vob.iter() {
        times = times.wrapping_add(bit as u64);
    }
    times
}

/// The hash of a Vob, by the library's own hasher.
#[inline(never)]
fn hashed(vob: &Vob) -> u64 {
    let mut state = DefaultHasher::new();
    vob.hash(&mut state);
    state.finish()
}

/// Makes a Vob of bytes.
#[inline(never)]
fn from_bytes(alloc: Global, mut vob: Vob, bytes: &[u8], rounds: usize) -> Result<u64, Missing> {
    each_round!(vob, rounds, |round| {
        vob = Vob::from_bytes(alloc, bytes)?;
        sample(&vob, round) as u64
    })
}

/// Walks over all bits.
#[inline(never)]
fn iterate(mut vob: Vob, rounds: usize) -> Result<u64, Missing> {
    each_round!(vob, rounds, |round| {
        touch(&mut vob, round);
        walked(&vob)
    })
}

/// Cuts a Vob to 13 bits, and lets it grow again by true ones, in the room that there is.
#[inline(never)]
fn resize(mut vob: Vob, rounds: usize) -> Result<u64, Missing> {
    let len = vob.len();
    each_round!(vob, rounds, |round| {
        vob.truncate(13);
        vob.resize(len, true)?;
        sample(&vob, round) as u64
    })
}

/// Copies the range without 13 bits at the front and 29 at the back.
#[inline(never)]
fn slice(mut vob: Vob, rounds: usize) -> Result<u64, Missing> {
    let end = vob.len().saturating_sub(29);
    each_round!(vob, rounds, |round| {
        touch(&mut vob, round);
        sample(&vob.slice(13..end)?, round) as u64
    })
}

/// Clones a Vob.
#[inline(never)]
fn clone(mut vob: Vob, rounds: usize) -> Result<u64, Missing> {
    each_round!(vob, rounds, |round| {
        touch(&mut vob, round);
        sample(&vob.clone()?, round) as u64
    })
}

/// Hashes a Vob. Hashes differ between libraries, so how often one is as the last is counted.
#[inline(never)]
fn hash(mut vob: Vob, rounds: usize) -> Result<u64, Missing> {
    let mut last: u64 = 0;
    each_round!(vob, rounds, |round| {
        touch(&mut vob, round);
        let now = hashed(&vob);
        let same = now == last;
        last = now;
        same as u64
    })
}

/// Cuts the first 13 bits off: the others move down, into a new Vob.
#[inline(never)]
fn split_off(mut vob: Vob, rounds: usize) -> Result<u64, Missing> {
    each_round!(vob, rounds, |round| {
        vob = vob.split_off(13)?;
        sample(&vob, round) as u64
    })
}

/// Drains `count` bits from place `from` of a block in the middle, and appends them to the others.
#[inline(never)]
fn drain(mut vob: Vob, rounds: usize, from: usize, count: usize) -> Result<u64, Missing> {
    let start = (vob.len() / 128 * 64).saturating_add(from);
    each_round!(vob, rounds, |round| {
        let part = vob.drain(start..start.saturating_add(count))?;
        vob.extend_from_vob(&part)?;
        sample(&vob, round) as u64
    })
}

/// The bytes of a Vob, of which one is looked at.
fn bytes_of(alloc: Global, vob: &mut Vob, round: usize) -> Result<u64, Missing> {
    touch(vob, round);
    let made = vob.to_bytes(alloc)?;
    let byte = made.get(index_of(vob, round) / 8).copied();
    Ok(byte.unwrap_or(0) as u64)
}

/// Makes bytes of a Vob.
#[inline(never)]
fn to_bytes(alloc: Global, mut vob: Vob, rounds: usize) -> Result<u64, Missing> {
    each_round!(vob, rounds, |round| bytes_of(alloc, &mut vob, round)?)
}

/// Sets or unsets all bits.
#[inline(never)]
fn set_all(mut vob: Vob, rounds: usize) -> Result<u64, Missing> {
    each_round!(vob, rounds, |round| {
        vob.set_all(round % 2 == 1);
        sample(&vob, round) as u64
    })
}

/// Negates all bits.
#[inline(never)]
fn negate(mut vob: Vob, rounds: usize) -> Result<u64, Missing> {
    each_round!(vob, rounds, |round| {
        vob.negate();
        sample(&vob, round) as u64
    })
}

/// Reverses a Vob.
#[inline(never)]
fn reverse(mut vob: Vob, rounds: usize) -> Result<u64, Missing> {
    each_round!(vob, rounds, |round| {
        vob.reverse();
        sample(&vob, round) as u64
    })
}

/// Rotates a Vob by 13.
#[inline(never)]
fn rotate(mut vob: Vob, rounds: usize) -> Result<u64, Missing> {
    each_round!(vob, rounds, |round| {
        vob.rotate_left(13);
        sample(&vob, round) as u64
    })
}

/// Shifts a Vob by 13.
#[inline(never)]
fn shift_up(mut vob: Vob, rounds: usize) -> Result<u64, Missing> {
    each_round!(vob, rounds, |round| {
        vob.shl(13);
        sample(&vob, round) as u64
    })
}

/// A bit put in behind the middle, and one near the front taken out.
fn insert_and_remove(vob: &mut Vob, round: usize) -> Result<u64, Missing> {
    let middle = vob.len() / 2;
    vob.insert_bit(middle, round % 2 == 1)?;
    if 13 < vob.len() {
        vob.remove(13);
    }
    Ok(sample(vob, round) as u64)
}

/// Inserts a bit, and removes one.
#[inline(never)]
fn insert_remove(mut vob: Vob, rounds: usize) -> Result<u64, Missing> {
    each_round!(vob, rounds, |round| insert_and_remove(&mut vob, round)?)
}

/// Sets or unsets all bits but 13 at the front and 29 at the back.
#[inline(never)]
fn set_range(mut vob: Vob, rounds: usize) -> Result<u64, Missing> {
    let end = vob.len().saturating_sub(29);
    each_round!(vob, rounds, |round| {
        vob.set_range(13..end, round % 2 == 1);
        sample(&vob, round) as u64
    })
}

/// Negates the same.
#[inline(never)]
fn negate_range(mut vob: Vob, rounds: usize) -> Result<u64, Missing> {
    let end = vob.len().saturating_sub(29);
    each_round!(vob, rounds, |round| {
        vob.negate_range(13..end);
        sample(&vob, round) as u64
    })
}

/// Runs the workload of a name.
pub(crate) fn run(alloc: Global, name: &[u8], bytes: &[u8], rounds: usize) -> Result<u64, Missing> {
    let vob = Vob::from_bytes(alloc, bytes)?;
    match name {
        b"FromBytes" => from_bytes(alloc, vob, bytes, rounds),
        b"Iterate" => iterate(vob, rounds),
        b"Resize" => resize(vob, rounds),
        b"Slice" => slice(vob, rounds),
        b"Clone" => clone(vob, rounds),
        b"Hash" => hash(vob, rounds),
        b"SplitOff" => split_off(vob, rounds),
        b"DrainAligned" => drain(vob, rounds, 0, 64),
        b"DrainShifted" => drain(vob, rounds, 13, 29),
        b"ToBytes" => to_bytes(alloc, vob, rounds),
        b"SetAll" => set_all(vob, rounds),
        b"Negate" => negate(vob, rounds),
        b"Reverse" => reverse(vob, rounds),
        b"Rotate" => rotate(vob, rounds),
        b"ShiftUp" => shift_up(vob, rounds),
        b"InsertRemove" => insert_remove(vob, rounds),
        b"SetRange" => set_range(vob, rounds),
        b"NegateRange" => negate_range(vob, rounds),
        _ => Err(Missing::Name),
    }
}
