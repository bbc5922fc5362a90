//! Bits copied over others, against one bit after another.
use super::support::{check_list, pattern, pattern_bit};
use std::process::Abort;
use vob::Vob;

/// `copy_range` of the bits from `start` to below `end`, where they are there and fit.
fn copy(vob: &mut Vob<u8>, at: usize, other: &Vob<u8>, start: usize, end: usize) {
    let (len, others) = (vob.len(), other.len());
    if start <= end && end <= others && at <= len && end - start <= len - at {
        vob.copy_range(at, other, start..end);
    }
}

/// The bits of pattern 1 of this length, but from `at` on those of pattern 2 from `start` to below `end`.
fn copied(
    rt: &(impl Abort + AllocGlobal),
    len: usize,
    at: usize,
    start: usize,
    end: usize,
) -> Vec<bool> {
    let mut bits = Vec::new(rt.alloc());
    for index in 0..len {
        let from = start.saturating_add(index.saturating_sub(at));
        let bit = if at <= index && from < end {
            pattern_bit(2, from)
        } else {
            pattern_bit(1, index)
        };
        bits.push(bit).expect(rt, "memory");
    }
    bits
}

/// Copies a part over a Vob of this length, from another that is ten bits longer.
fn check_part(rt: &(impl Abort + AllocGlobal), len: usize, at: usize, start: usize, end: usize) {
    let other = pattern::<u8>(rt, 2, len.saturating_add(10));
    let mut vob = pattern::<u8>(rt, 1, len);
    copy(&mut vob, at, &other, start, end);
    check_list(rt, &vob, &copied(rt, len, at, start, end));
}

/// Of a Vob of 130 bits.
fn check_copied(rt: &(impl Abort + AllocGlobal), at: usize, start: usize, count: usize) {
    check_part(rt, 130, at, start, start.saturating_add(count));
}

/// A half of a Vob of this length, at another place of its block.
fn check_half(rt: &(impl Abort + AllocGlobal), len: usize) {
    let start = len / 4;
    check_part(rt, len, len / 3, start, start.saturating_add(len / 2));
}

#[test]
fn stretches_are_copied(rt: HostRuntime) {
    // From places on both sides of a block's end.
    for at in [0, 1, 5, 8, 63, 64, 65, 100] {
        for start in [0, 1, 3, 8, 62, 64, 67, 110] {
            for count in [0, 1, 7, 8, 9, 30] {
                check_copied(&rt, at, start, count);
            }
        }
    }
    // Whole blocks between two parts.
    for at in 0..10 {
        for start in 0..10 {
            check_copied(&rt, at, start, 120);
        }
    }
    for len in 0..130 {
        check_half(&rt, len);
    }
}
