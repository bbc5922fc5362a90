//! Checksums that every library of the benchmark can give.

use vob::Vob;
use vob_matrix::matrix::BitMatrix;
use vob_rows::Row;

// A digest looks at every bit of up to this number, and at every second, third .. one of more.
const MOST: usize = 0x10_0000;

/// A digest of the length and of the bits, below 2^32. One wrong bit that it looks at changes it.
fn digest(row: &Row<'_>) -> u64 {
    let len = row.len();
    let mut sum = len as u64;
    let stride = len / (MOST + 1) + 1;
    let mut index: usize = 0;
    for _ in 0..len / stride {
        let bit = row.get(index) == Some(true);
        sum = sum.wrapping_mul(31).wrapping_add(bit as u64);
        index = index.wrapping_add(stride);
    }
    sum % 0x1_0000_0000
}

/// How often something was so, above the digest of what the rounds left.
pub(crate) fn checksum(vob: &Vob, times: u64) -> u64 {
    times
        .wrapping_mul(0x1_0000_0000)
        .wrapping_add(digest(&Row::of(vob)))
}

/// The same above the digests of several.
fn summed(sum: u64, times: u64) -> u64 {
    times
        .wrapping_mul(0x1_0000_0000)
        .wrapping_add(sum % 0x1_0000_0000)
}

/// The same of several Vobs.
pub(crate) fn checksum_all(vobs: &[Vob], times: u64) -> u64 {
    let mut sum: u64 = 0;
    for vob in vobs.iter() {
        sum = sum.wrapping_mul(31).wrapping_add(digest(&Row::of(vob)));
    }
    summed(sum, times)
}

/// The same of the rows of a matrix.
pub(crate) fn checksum_rows(matrix: &BitMatrix, times: u64) -> u64 {
    let mut sum: u64 = 0;
    for row in 0..matrix.rows() {
        sum = sum.wrapping_mul(31).wrapping_add(digest(&matrix.row(row)));
    }
    summed(sum, times)
}

/// The index of the bit that a round looks at or changes.
pub(crate) fn index_of(vob: &Vob, round: usize) -> usize {
    let len = vob.len();
    if len == 0 { 0 } else { round % len }
}

/// Whether the bit that a round looks at is true.
pub(crate) fn sample(vob: &Vob, round: usize) -> bool {
    vob.get(index_of(vob, round)) == Some(true)
}

/// Makes the bit true that a round changes, so that no compiler takes one round for the next.
pub(crate) fn touch(vob: &mut Vob, round: usize) {
    let index = index_of(vob, round);
    if index < vob.len() {
        vob.set(index, true);
    }
}

/// Makes the bit false that a round changes.
pub(crate) fn clear(vob: &mut Vob, round: usize) {
    let index = index_of(vob, round);
    if index < vob.len() {
        vob.set(index, false);
    }
}

/// Makes the bit that a round changes true in one round, and false in the next.
pub(crate) fn flip(vob: &mut Vob, round: usize) {
    let index = index_of(vob, round / 2);
    if index < vob.len() {
        vob.set(index, round % 2 == 0);
    }
}
