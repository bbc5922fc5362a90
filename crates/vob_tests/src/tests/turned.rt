//! Bits in reverse order, and bits rotated, against one bit after another.
use super::support::{check_bits, check_list, moved, pattern, pattern_list, same, vob_of};
use std::process::Abort;

/// The bits of pattern 1 of this length in reverse order.
fn reversed(rt: &(impl Abort + AllocGlobal), len: usize) -> Vec<bool> {
    moved(rt, len, |index| len.saturating_sub(1).checked_sub(index))
}

fn check_reversed(rt: &(impl Abort + AllocGlobal), len: usize) {
    let mut vob = pattern::<u8>(rt, 1, len);
    let room = vob.capacity();
    vob.reverse();
    check_list(rt, &vob, &reversed(rt, len));
    same(rt, "the capacity", len, vob.capacity(), room);
    vob.reverse();
    check_list(rt, &vob, &pattern_list(rt, 1, 0, len));
}

#[test]
fn bits_of_every_length_are_reversed(rt: HostRuntime) {
    for len in 0..131 {
        check_reversed(&rt, len);
    }
    check_reversed(&rt, 1000);
}

/// The bits of pattern 1 of this length, each taken from the index that is `by` above it, or from the
/// front after the last.
fn rotated(rt: &(impl Abort + AllocGlobal), len: usize, by: usize) -> Vec<bool> {
    moved(rt, len, |index| {
        let far = index.saturating_add(by);
        Some(far.checked_sub(len).unwrap_or(far))
    })
}

/// Rotates to the left by `n`, which is `by` modulo the length.
fn check_left(rt: &(impl Abort + AllocGlobal), len: usize, n: usize, by: usize) {
    let mut vob = pattern::<u8>(rt, 1, len);
    let room = vob.capacity();
    vob.rotate_left(n);
    same(rt, "the capacity", len, vob.capacity(), room);
    check_list(rt, &vob, &rotated(rt, len, by));
}

/// Rotates to the right by `n`, which is `by` modulo the length, and back.
fn check_right(rt: &(impl Abort + AllocGlobal), len: usize, n: usize, by: usize) {
    let mut vob = pattern::<u8>(rt, 1, len);
    vob.rotate_right(n);
    check_list(rt, &vob, &rotated(rt, len, len.saturating_sub(by)));
    vob.rotate_left(n);
    check_list(rt, &vob, &pattern_list(rt, 1, 0, len));
}

/// Both ways.
fn check_rotations(rt: &(impl Abort + AllocGlobal), len: usize, n: usize) {
    let by = n.checked_rem(len).unwrap_or(0);
    check_left(rt, len, n, by);
    check_right(rt, len, n, by);
}

#[test]
fn bits_of_every_length_are_rotated_both_ways(rt: HostRuntime) {
    for len in 0..131 {
        for n in [0, 1, 3, 8, 63, 64, 65, 129, usize::MAX - 1, usize::MAX] {
            check_rotations(&rt, len, n);
        }
        // Multiples of the length turn nothing, and one less turns by one the other way.
        let three = len.saturating_mul(3);
        check_rotations(&rt, len, len);
        check_rotations(&rt, len, three);
        check_rotations(&rt, len, three.saturating_sub(1));
    }
}

#[test]
fn bits_are_turned_as_worked_out_by_hand(rt: HostRuntime) {
    let mut vob = vob_of::<u8>(&rt, "1100100000");
    vob.reverse();
    check_bits(&rt, &vob, "0000010011");
    vob.rotate_left(3);
    check_bits(&rt, &vob, "0010011000");
    vob.rotate_right(4);
    check_bits(&rt, &vob, "1000001001");
    vob.rotate_left(20);
    check_bits(&rt, &vob, "1000001001");
    vob.rotate_right(usize::MAX);
    check_bits(&rt, &vob, "0100110000");
}
