//! Workloads on two Vobs of `u64`, as long as those of `usize`, which have lanes.

use crate::checksum::checksum;
use crate::rounds::Missing;
use std::alloc::Global;
use vob::Vob;

/// The bits that bytes are, in blocks of `u64`.
fn plain_of(alloc: Global, bytes: &[u8]) -> Result<Vob<u64>, Missing> {
    let mut made: Vob<u64> = Vob::new_with_storage_type(alloc, 0)?;
    for bit in Vob::from_bytes(alloc, bytes)?.iter() {
        made.push(bit)?;
    }
    Ok(made)
}

/// The checksum of how often a bit changed and of the Vob that is left.
fn checksum_of(alloc: Global, vob: &Vob<u64>, times: u64) -> Result<u64, Missing> {
    Ok(checksum(&Vob::from_iter(alloc, vob.iter())?, times))
}

/// `and` of Vobs that are as long.
#[inline(never)]
fn and(alloc: Global, mut vob: Vob<u64>, other: &Vob<u64>, rounds: usize) -> Result<u64, Missing> {
    let mut times: u64 = 0;
    for _ in 0..rounds {
        let changed = vob.len() == other.len() && vob.and(other);
        times = times.wrapping_add(changed as u64);
    }
    checksum_of(alloc, &vob, times)
}

/// `or` of Vobs that are as long.
#[inline(never)]
fn or(alloc: Global, mut vob: Vob<u64>, other: &Vob<u64>, rounds: usize) -> Result<u64, Missing> {
    let mut times: u64 = 0;
    for _ in 0..rounds {
        let changed = vob.len() == other.len() && vob.or(other);
        times = times.wrapping_add(changed as u64);
    }
    checksum_of(alloc, &vob, times)
}

/// `xor` of Vobs that are as long.
#[inline(never)]
fn xor(alloc: Global, mut vob: Vob<u64>, other: &Vob<u64>, rounds: usize) -> Result<u64, Missing> {
    let mut times: u64 = 0;
    for _ in 0..rounds {
        let changed = vob.len() == other.len() && vob.xor(other);
        times = times.wrapping_add(changed as u64);
    }
    checksum_of(alloc, &vob, times)
}

/// Runs the workload of a name. If the Vobs aren't as long, nothing is done.
pub(crate) fn run(
    alloc: Global,
    name: &[u8],
    bytes: &[u8],
    others: &[u8],
    rounds: usize,
) -> Result<u64, Missing> {
    let vob = plain_of(alloc, bytes)?;
    let other = plain_of(alloc, others)?;
    match name {
        b"And" => and(alloc, vob, &other, rounds),
        b"Or" => or(alloc, vob, &other, rounds),
        b"Xor" => xor(alloc, vob, &other, rounds),
        _ => Err(Missing::Name),
    }
}
