//! A Vob as a set of indices, by patterns and by single bits, against one bit after another.
use super::support::{filled, pattern, same, write};
use std::process::Abort;
use vob::{End, Vob};

/// The next index at or above `from` whose bit has the value, or the previous one at or below it.
fn neighbour(vob: &Vob<u8>, value: bool, side: End, from: usize) -> Option<usize> {
    match (value, side) {
        (true, End::Front) => vob.next_set(from),
        (true, End::Back) => vob.previous_set(from),
        (false, End::Front) => vob.next_unset(from),
        (false, End::Back) => vob.previous_unset(from),
    }
}

/// The first and the last one.
fn ends_of(vob: &Vob<u8>, value: bool) -> (Option<usize>, Option<usize>) {
    if value {
        (vob.first_set(), vob.last_set())
    } else {
        (vob.first_unset(), vob.last_unset())
    }
}

/// The indices of the bits of one value, from each index up to two past the end.
fn check_neighbours(rt: &impl Abort, vob: &Vob<u8>, value: bool) {
    let past = vob.len().saturating_add(2);
    let mut last = None;
    for index in 0..past {
        if vob.get(index) == Some(value) {
            last = Some(index);
        }
        let previous = neighbour(vob, value, End::Back, index);
        same(rt, "previous", index, previous, last);
    }
    let mut first = None;
    for index in (0..past).rev() {
        if vob.get(index) == Some(value) {
            first = Some(index);
        }
        let next = neighbour(vob, value, End::Front, index);
        same(rt, "next", index, next, first);
    }
    let most = usize::MAX;
    let next = neighbour(vob, value, End::Front, most);
    same(rt, "next", most, next, None);
    let previous = neighbour(vob, value, End::Back, most);
    same(rt, "previous", most, previous, last);
    same(rt, "ends", vob.len(), ends_of(vob, value), (first, last));
}

/// The rank of each index up to one past the end, whether bits are set, and where those of one
/// value are.
fn check_found(rt: &impl Abort, vob: &Vob<u8>, value: bool) {
    check_neighbours(rt, vob, value);
    let len = vob.len();
    let mut below: usize = 0;
    for index in 0..len {
        same(rt, "rank", index, vob.rank(index), below);
        if vob.get(index) == Some(true) {
            below = below.saturating_add(1);
        }
    }
    same(rt, "rank", len, vob.rank(len), below);
    same(rt, "rank", usize::MAX, vob.rank(usize::MAX), below);
    same(rt, "any", len, vob.any(), below != 0);
    same(rt, "none", len, vob.none(), below == 0);
    same(rt, "all", len, vob.all(), below == len);
}

/// Bits that are all one value but one: it alone is found, and whole blocks are passed over.
fn check_single(rt: &(impl Abort + AllocGlobal), index: usize) {
    for value in [true, false] {
        let mut vob = filled::<u8>(rt, !value, 130);
        write(&mut vob, index, value);
        check_found(rt, &vob, value);
    }
}

/// A pattern of this length, and its bits of both values.
fn check_pattern(rt: &(impl Abort + AllocGlobal), seed: usize, len: usize) {
    let vob = pattern::<u8>(rt, seed, len);
    for value in [true, false] {
        check_found(rt, &vob, value);
    }
}

#[test]
fn bits_of_patterns_and_single_bits_are_found(rt: HostRuntime) {
    for len in 0..130 {
        check_pattern(&rt, 1, len);
        check_pattern(&rt, 2, len);
        check_pattern(&rt, 4, len);
    }
    for index in 0..13 {
        check_single(&rt, index * 10);
    }
}

/// How many indices are set in both of two Vobs of one length, in the first alone, and in the other
/// alone.
fn plain_counts(vob: &Vob<u8>, other: &Vob<u8>) -> (usize, usize, usize) {
    let (mut both, mut first, mut second) = (0usize, 0usize, 0usize);
    for index in 0..vob.len() {
        match (vob.get(index), other.get(index)) {
            (Some(true), Some(true)) => both = both.saturating_add(1),
            (Some(true), _) => first = first.saturating_add(1),
            (_, Some(true)) => second = second.saturating_add(1),
            _ => {}
        }
    }
    (both, first, second)
}

/// Two Vobs of one length, in their order, against one bit after another.
fn check_ordered(rt: &(impl Abort + AllocGlobal), vob: &Vob<u8>, other: &Vob<u8>) {
    let len = vob.len();
    assert!(rt; other.len() == len);
    let (both, first, second) = plain_counts(vob, other);
    same(rt, "both", len, vob.count_and(other), both);
    same(rt, "the first alone", len, vob.count_and_not(other), first);
    let one = first.saturating_add(second);
    same(rt, "one alone", len, vob.count_xor(other), one);
    let some = one.saturating_add(both);
    same(rt, "either", len, vob.count_or(other), some);
    same(rt, "subset", len, vob.is_subset(other), first == 0);
    same(rt, "superset", len, vob.is_superset(other), second == 0);
    same(rt, "disjoint", len, vob.is_disjoint(other), both == 0);
    check_difference(rt, vob, other, both != 0);
}

/// What is left without the bits of another, bit by bit, and whether that is a change.
fn check_difference(
    rt: &(impl Abort + AllocGlobal),
    vob: &Vob<u8>,
    other: &Vob<u8>,
    changed: bool,
) {
    let mut left = vob.clone().expect(rt, "memory");
    assert!(rt; left.len() == other.len());
    same(rt, "changed", vob.len(), left.and_not(other), changed);
    for index in 0..vob.len() {
        let stays = vob.get(index) == Some(true) && other.get(index) == Some(false);
        same(rt, "what is left", index, left.get(index), Some(stays));
    }
    assert!(rt; left.len() == other.len());
    same(rt, "again", vob.len(), left.and_not(other), false);
}

/// Two patterns of a length, a pattern and a part of it, and one and its complement.
fn check_pairs(rt: &(impl Abort + AllocGlobal), seed: usize, len: usize) {
    let vob = pattern::<u8>(rt, seed, len);
    let mut other = pattern::<u8>(rt, len, len);
    check_ordered(rt, &vob, &other);
    assert!(rt; other.len() == vob.len());
    other.and(&vob);
    check_ordered(rt, &other, &vob);
    other.negate();
    check_ordered(rt, &vob, &other);
}

#[test]
fn pairs_are_counted_and_compared(rt: HostRuntime) {
    for len in 0..130 {
        check_pairs(&rt, 1, len);
        check_pairs(&rt, 2, len);
        check_pairs(&rt, 4, len);
    }
    // More blocks than a chunk, with one bit in common, or one that the other hasn't.
    for index in [0, 511, 512, 1023, 1024, 1099] {
        let mut vob = filled::<u8>(&rt, false, 1100);
        let mut other = filled::<u8>(&rt, true, 1100);
        write(&mut other, index, false);
        check_ordered(&rt, &vob, &other);
        write(&mut vob, index, true);
        check_ordered(&rt, &vob, &other);
        other.negate();
        check_ordered(&rt, &vob, &other);
    }
}
