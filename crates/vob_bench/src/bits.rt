//! Workloads on one bit after another, and on slices of bits.

use crate::checksum::{checksum, sample, touch};
use crate::rounds::{Missing, each_round};
use std::alloc::Global;
use vob::{Vob, VobError};

/// The bits, pushed one by one.
#[inline(never)]
fn pushed(alloc: Global, bits: &[bool]) -> Result<Vob, VobError> {
    let mut vob = Vob::new(alloc);
    for bit in bits.iter() {
        vob.push(*bit)?;
    }
    Ok(vob)
}

/// How many of the bits at these indices are true.
#[inline(never)]
fn true_at(vob: &Vob, indices: &[usize]) -> u64 {
    let mut times: u64 = 0;
    for index in indices.iter() {
        let bit = vob.get(*index) == Some(true);
        times = times.wrapping_add(bit as u64);
    }
    times
}

/// Writes a bit at each of these indices, and returns how many changed.
#[inline(never)]
fn write_at(vob: &mut Vob, indices: &[usize], round: usize) -> u64 {
    let mut times: u64 = 0;
    let turn = round % 2;
    for index in indices.iter() {
        if *index < vob.len() {
            let changed = vob.set(*index, *index % 2 == turn);
            times = times.wrapping_add(changed as u64);
        }
    }
    times
}

/// Negates the bit at each of these indices.
#[inline(never)]
fn flip_at(vob: &mut Vob, indices: &[usize]) {
    for index in indices.iter() {
        if *index < vob.len() {
            vob.flip(*index);
        }
    }
}

/// A Vob of the bits at these indices, which grows where it must.
#[inline(never)]
fn grown(alloc: Global, indices: &[usize]) -> Result<Vob, VobError> {
    let mut vob = Vob::new(alloc);
    for index in indices.iter() {
        vob.grow_and_set(*index)?;
    }
    Ok(vob)
}

/// Pushes all bits.
#[inline(never)]
fn push(alloc: Global, mut vob: Vob, bits: &[bool], rounds: usize) -> Result<u64, Missing> {
    each_round!(vob, rounds, |round| {
        vob = pushed(alloc, bits)?;
        sample(&vob, round) as u64
    })
}

/// Makes a Vob of all bits.
#[inline(never)]
fn from_slice(alloc: Global, mut vob: Vob, bits: &[bool], rounds: usize) -> Result<u64, Missing> {
    each_round!(vob, rounds, |round| {
        vob = Vob::from_slice(alloc, bits)?;
        sample(&vob, round) as u64
    })
}

/// Appends all bits to the first 13 of them, in the room that the first round made.
#[inline(never)]
fn extend_from_slice(mut vob: Vob, bits: &[bool], rounds: usize) -> Result<u64, Missing> {
    each_round!(vob, rounds, |round| {
        vob.truncate(13);
        vob.extend_from_slice(bits)?;
        sample(&vob, round) as u64
    })
}

/// Reads bits.
#[inline(never)]
fn get(mut vob: Vob, indices: &[usize], rounds: usize) -> Result<u64, Missing> {
    each_round!(vob, rounds, |round| {
        touch(&mut vob, round);
        true_at(&vob, indices)
    })
}

/// Writes bits.
#[inline(never)]
fn set(mut vob: Vob, indices: &[usize], rounds: usize) -> Result<u64, Missing> {
    each_round!(vob, rounds, |round| write_at(&mut vob, indices, round))
}

/// Negates bits.
#[inline(never)]
fn flip(mut vob: Vob, indices: &[usize], rounds: usize) -> Result<u64, Missing> {
    each_round!(vob, rounds, |round| {
        flip_at(&mut vob, indices);
        sample(&vob, round) as u64
    })
}

/// Sets the bits of a Vob that grows.
#[inline(never)]
fn grow_and_set(
    alloc: Global,
    mut vob: Vob,
    indices: &[usize],
    rounds: usize,
) -> Result<u64, Missing> {
    each_round!(vob, rounds, |round| {
        vob = grown(alloc, indices)?;
        sample(&vob, round) as u64
    })
}

/// Makes a Vob of indices, if they are below the length.
#[inline(never)]
fn from_indices(
    alloc: Global,
    mut vob: Vob,
    indices: &[usize],
    rounds: usize,
) -> Result<u64, Missing> {
    let len = vob.len();
    each_round!(vob, rounds, |round| {
        if let Ok(made) = Vob::from_indices(alloc, len, indices) {
            vob = made;
        }
        sample(&vob, round) as u64
    })
}

/// Runs the workload of a name.
pub(crate) fn run(
    alloc: Global,
    name: &[u8],
    bits: &[bool],
    bytes: &[u8],
    indices: &[usize],
    rounds: usize,
) -> Result<u64, Missing> {
    let vob = Vob::from_bytes(alloc, bytes)?;
    match name {
        b"Push" => push(alloc, vob, bits, rounds),
        b"FromSlice" => from_slice(alloc, vob, bits, rounds),
        b"ExtendFromSlice" => extend_from_slice(vob, bits, rounds),
        b"Get" => get(vob, indices, rounds),
        b"Set" => set(vob, indices, rounds),
        b"Flip" => flip(vob, indices, rounds),
        b"GrowAndSet" => grow_and_set(alloc, vob, indices, rounds),
        b"FromIndices" => from_indices(alloc, vob, indices, rounds),
        _ => Err(Missing::Name),
    }
}
