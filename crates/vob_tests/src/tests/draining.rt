//! Draining: worked rows, and every range of patterns against lists of bits.
use super::support::{
    check_bits, check_blocks, check_list, copy_of, drained, pattern, pattern_list, same, vob_of,
};
use std::ops::Bound::{Excluded, Included, Unbounded};
use std::ops::RangeBounds;
use std::process::Abort;
use vob::Vob;

#[test]
fn bits_are_drained_from_among_others_and_from_the_end(rt: HostRuntime) {
    let mut vob = vob_of::<u8>(&rt, "1011011101");
    let room = vob.capacity();
    let given = drained(&rt, &mut vob, 2..5);
    check_bits(&rt, &given, "110");
    check_blocks(&rt, &given, 3, &[3]);
    check_bits(&rt, &vob, "1011101");
    check_blocks(&rt, &vob, 7, &[93]);
    same(&rt, "the capacity", 7, vob.capacity(), room);

    let mut vob = vob_of::<u8>(&rt, "1011011101");
    let last = drained(&rt, &mut vob, 9..=usize::MAX);
    check_bits(&rt, &last, "1");
    check_bits(&rt, &vob, "101101110");
    check_blocks(&rt, &vob, 9, &[237, 0]);
    let none = drained(&rt, &mut vob, 3..1);
    check_blocks(&rt, &none, 0, &[]);
    check_blocks(&rt, &vob, 9, &[237, 0]);
    let all = drained(&rt, &mut vob, ..);
    check_bits(&rt, &all, "101101110");
    check_blocks(&rt, &all, 9, &[237, 0]);
    check_blocks(&rt, &vob, 0, &[]);
}

/// What a range takes out of `1011011101`, and what it leaves.
fn check_row<R: RangeBounds<usize>>(
    rt: &(impl Abort + AllocGlobal),
    range: R,
    given: &str,
    left: &str,
) {
    let mut vob = vob_of::<u8>(rt, "1011011101");
    check_bits(rt, &drained(rt, &mut vob, range), given);
    check_bits(rt, &vob, left);
}

#[test]
fn every_pair_of_bounds_is_drained(rt: HostRuntime) {
    let most = usize::MAX;
    check_row(&rt, (Excluded(1), Included(4)), "110", "1011101");
    check_row(&rt, (Excluded(0), Unbounded), "011011101", "1");
    check_row(&rt, (Excluded(8), Excluded(most)), "1", "101101110");
    check_row(&rt, (Excluded(9), Included(most)), "", "1011011101");
    check_row(&rt, (Excluded(most), Unbounded), "", "1011011101");
    check_row(&rt, (Included(most), Included(most)), "", "1011011101");
    check_row(&rt, (Excluded(4), Excluded(5)), "", "1011011101");
    check_row(&rt, ..=most, "1011011101", "");
    check_row(&rt, ..=0, "1", "011011101");
}

/// The bits of the pattern that has its length as its seed, without those of a range.
fn without(rt: &(impl Abort + AllocGlobal), len: usize, from: usize, to: usize) -> Vec<bool> {
    let mut bits = pattern_list(rt, len, 0, from);
    let rest = pattern_list(rt, len, to, len);
    bits.extend_from_slice(&rest).expect(rt, "memory");
    bits
}

/// A range of such a pattern: its bits are drained, and the others left.
fn check_drain(
    rt: &(impl Abort + AllocGlobal),
    whole: &Vob<u8>,
    len: usize,
    from: usize,
    to: usize,
) {
    let mut vob = copy_of(rt, whole);
    let given = drained(rt, &mut vob, from..to);
    check_list(rt, &given, &pattern_list(rt, len, from, to));
    check_list(rt, &vob, &without(rt, len, from, to));
}

/// The ranges from one index on that end at `first` or later.
fn check_drains(rt: &(impl Abort + AllocGlobal), len: usize, from: usize, first: usize) {
    let whole = pattern::<u8>(rt, len, len);
    for to in first..len.saturating_add(1) {
        check_drain(rt, &whole, len, from, to);
    }
}

#[test]
fn drains_give_what_the_list_has_and_leave_what_pushes_leave(rt: HostRuntime) {
    for len in 0..70 {
        for from in 0..len + 1 {
            check_drains(&rt, len, from, from);
        }
    }
    for from in 0..20 {
        check_drains(&rt, 130, from, 60);
    }
}
