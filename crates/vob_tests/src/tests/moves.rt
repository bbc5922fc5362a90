//! Bits moved to other indices, put in and taken out, and words at any index, against one bit after
//! another.
use super::support::{check_bits, check_list, moved, pattern, pattern_list, same, vob_of};
use std::process::Abort;
use vob::{IndicesError, Vob, VobError};

/// The bits of pattern 1 of this length, `n` indices up.
fn shifted_up(rt: &(impl Abort + AllocGlobal), len: usize, n: usize) -> Vec<bool> {
    moved(rt, len, |index| index.checked_sub(n))
}

/// The bits of pattern 1 of this length, `n` indices down.
fn shifted_down(rt: &(impl Abort + AllocGlobal), len: usize, n: usize) -> Vec<bool> {
    moved(
        rt,
        len,
        |index| index.checked_add(n).filter(|old| *old < len),
    )
}

fn check_shifts(rt: &(impl Abort + AllocGlobal), len: usize, n: usize) {
    let mut vob = pattern::<u8>(rt, 1, len);
    vob.shl(n);
    check_list(rt, &vob, &shifted_up(rt, len, n));
    let mut vob = pattern::<u8>(rt, 1, len);
    vob.shr(n);
    check_list(rt, &vob, &shifted_down(rt, len, n));
}

#[test]
fn bits_are_shifted_both_ways(rt: HostRuntime) {
    for len in [0, 1, 7, 8, 9, 63, 64, 65, 127, 128, 129] {
        for n in [0, 1, 3, 8, 9, 63, 64, 65, 128, usize::MAX] {
            check_shifts(&rt, len, n);
        }
    }
}

/// The bits of pattern 1 of this length, and a true one put in at this index.
fn inserted(rt: &(impl Abort + AllocGlobal), len: usize, index: usize) -> Vec<bool> {
    let mut bits = pattern_list(rt, 1, 0, index);
    bits.push(true).expect(rt, "memory");
    let rest = pattern_list(rt, 1, index, len);
    bits.extend_from_slice(&rest).expect(rt, "memory");
    bits
}

/// Puts a bit in and takes it out again.
fn check_insert(rt: &(impl Abort + AllocGlobal), len: usize, index: usize) {
    let mut vob = pattern::<u8>(rt, 1, len);
    assert!(rt; index <= vob.len());
    vob.insert_bit(index, true).expect(rt, "memory");
    check_list(rt, &vob, &inserted(rt, len, index));
    assert!(rt; index < vob.len());
    same(rt, "the bit", index, vob.remove(index), true);
    check_list(rt, &vob, &pattern_list(rt, 1, 0, len));
}

#[test]
fn a_bit_is_put_in_and_taken_out_at_every_index(rt: HostRuntime) {
    for len in [0, 1, 8, 63, 64, 65, 129] {
        for index in 0..=len {
            check_insert(&rt, len, index);
        }
    }
}

/// `copy_within` of the bits from `start` to below `end`, if they are there and fit.
fn copy(vob: &mut Vob<u8>, at: usize, start: usize, end: usize) -> bool {
    let len = vob.len();
    if start <= end && end <= len && at <= len && end - start <= len - at {
        vob.copy_within(start..end, at);
        return true;
    }
    false
}

/// The bits of pattern 1 of this length, but from `at` on `count` of them that begin at `start`.
fn copied(
    rt: &(impl Abort + AllocGlobal),
    len: usize,
    at: usize,
    start: usize,
    count: usize,
) -> Vec<bool> {
    moved(rt, len, |index| match index.checked_sub(at) {
        Some(past) if past < count => start.checked_add(past),
        _ => Some(index),
    })
}

/// Copies a part of a Vob of 164 bits over another part of it.
fn check_within(rt: &(impl Abort + AllocGlobal), at: usize, start: usize, count: usize) {
    let mut vob = pattern::<u8>(rt, 1, 164);
    let fits = copy(&mut vob, at, start, start.saturating_add(count));
    same(rt, "it fits", at, fits, true);
    check_list(rt, &vob, &copied(rt, 164, at, start, count));
}

#[test]
fn parts_are_copied_over_others_that_they_overlap(rt: HostRuntime) {
    for at in [0, 1, 5, 8, 63, 64, 65, 100] {
        for start in [0, 1, 3, 8, 62, 64, 67] {
            for count in [0, 1, 8, 9, 30, 64] {
                check_within(&rt, at, start, count);
            }
        }
    }
}

/// Reads a byte's worth of bits at an index, and writes it over those at another.
fn check_word(rt: &(impl Abort + AllocGlobal), at: usize, to: usize) {
    let mut vob = pattern::<u8>(rt, 1, 40);
    assert!(rt; at <= 32);
    assert!(rt; to <= 32);
    assert!(rt; vob.len() == 40);
    let word = vob.load(at..at + 8);
    vob.store(to..to + 8, word);
    check_list(rt, &vob, &copied(rt, 40, to, at, 8));
}

#[test]
fn words_are_read_and_written_at_every_index(rt: HostRuntime) {
    for at in 0..33 {
        for to in 0..33 {
            check_word(&rt, at, to);
        }
    }
    let vob = vob_of::<u64>(&rt, "1011011101");
    assert!(rt; vob.len() == 10);
    same(&rt, "load", 0, vob.load(0..0), 0);
    same(&rt, "load", 2, vob.load(2..6), 0b1011);
    same(&rt, "load", 0, vob.load(0..10), 0b10_1110_1101);
}

#[test]
fn single_bits_change_places(rt: HostRuntime) {
    let mut vob = vob_of::<u8>(&rt, "1011011101");
    assert!(rt; vob.len() == 10);
    vob.swap(0, 1);
    vob.swap(9, 4);
    vob.swap(3, 3);
    check_bits(&rt, &vob, "0111111100");
    same(&rt, "flip", 9, vob.flip(9), true);
    same(&rt, "flip", 1, vob.flip(1), false);
    check_bits(&rt, &vob, "0011111101");
    same(&rt, "set", 0, vob.count_ones(), 7);
    same(&rt, "unset", 0, vob.count_zeros(), 3);
}

/// The Vob of `1001000001`, made by indices that are set past the end.
fn grown(rt: &(impl Abort + AllocGlobal)) -> Vob<u8> {
    let mut vob = vob_of::<u8>(rt, "1");
    vob.grow_and_set(9).expect(rt, "memory");
    check_bits(rt, &vob, "1000000001");
    vob.grow_and_set(3).expect(rt, "memory");
    check_bits(rt, &vob, "1001000001");
    let refused = vob.grow_and_set(usize::MAX);
    same(
        rt,
        "past the greatest length",
        0,
        refused,
        Err(VobError::TooLong),
    );
    vob
}

/// Sets indices at once, or none of them.
fn check_set(rt: &(impl Abort + AllocGlobal)) {
    let mut vob = grown(rt);
    vob.set_indices(&[1, 8, 1])
        .expect(rt, "each is below the length");
    check_bits(rt, &vob, "1101000011");
    let refused = vob.set_indices(&[2, 10, 11]);
    let wanted = Err(IndicesError::OutOfRange { position: 1 });
    same(rt, "past the end", 1, refused, wanted);
    check_bits(rt, &vob, "1101000011");
}

#[test]
fn indices_are_set_past_the_end_and_at_once(rt: HostRuntime) {
    check_set(&rt);
}
