//! Vobs compared as lists, and what two share added to a third.
use super::support::{check_bits, pattern, pattern_bit, same, vob_of};
use std::cmp::Ordering;
use std::process::Abort;

/// How the Vobs of these digits compare: one with the other, the other way round, and by `<`.
fn order_of(
    rt: &(impl Abort + AllocGlobal),
    digits: &str,
    others: &str,
) -> (Ordering, Ordering, bool) {
    let vob = vob_of::<u8>(rt, digits);
    let other = vob_of::<u8>(rt, others);
    (vob.cmp(&other), other.cmp(&vob), vob < other)
}

/// Digits come in the order of the bits that they write.
fn check_order(rt: &impl Abort, digits: &str, others: &str, found: (Ordering, Ordering, bool)) {
    let wanted = (digits.cmp(others), others.cmp(digits), digits < others);
    same(rt, digits, others.len(), found, wanted);
}

#[test]
fn vobs_come_in_the_order_of_their_lists(rt: HostRuntime) {
    let rows = [
        "",
        "0",
        "1",
        "01",
        "10",
        "1011011101",
        "1011011100",
        "10110111010",
    ];
    for digits in rows {
        for others in rows {
            check_order(&rt, digits, others, order_of(&rt, digits, others));
        }
    }
}

/// One bit of a pattern of this length negated.
fn check_difference(rt: &(impl Abort + AllocGlobal), len: usize, at: usize) {
    let vob = pattern::<u8>(rt, 1, len);
    let mut other = pattern::<u8>(rt, 1, 131);
    same(rt, "no difference", len, vob.first_difference(&other), None);
    assert!(rt; at < other.len());
    other.flip(at);
    let wanted = if at < len { Some(at) } else { None };
    same(rt, "difference", at, vob.first_difference(&other), wanted);
    same(rt, "difference", at, other.first_difference(&vob), wanted);
}

#[test]
fn the_first_bit_that_differs_is_found(rt: HostRuntime) {
    for len in [0, 1, 8, 63, 64, 65, 129] {
        for at in [0, 1, 7, 8, 62, 63, 64, 65, 127, 128, 130] {
            check_difference(&rt, len, at);
        }
    }
}

/// Patterns 1, 2 and 4 of this length.
fn check_added(rt: &(impl Abort + AllocGlobal), len: usize) {
    let first = pattern::<u8>(rt, 2, len);
    let second = pattern::<u8>(rt, 4, len);
    let mut both = pattern::<u8>(rt, 1, len);
    let mut rest = pattern::<u8>(rt, 1, len);
    assert!(rt; first.len() == both.len());
    assert!(rt; second.len() == both.len());
    assert!(rt; rest.len() == both.len());
    both.or_and(&first, &second);
    let changed = rest.or_and_not(&first, &second);
    same(rt, "no change", len, both.or_and(&first, &second), false);
    let mut more = false;
    for i in 0..len {
        let (own, one, other) = (pattern_bit(1, i), pattern_bit(2, i), pattern_bit(4, i));
        same(rt, "and", i, both.get(i), Some(own || one && other));
        same(rt, "and not", i, rest.get(i), Some(own || one && !other));
        more = more || !own && one && !other;
    }
    same(rt, "a change", len, changed, more);
}

#[test]
fn what_two_share_is_added_to_a_third(rt: HostRuntime) {
    for len in 0..131 {
        check_added(&rt, len);
    }
}

#[test]
fn operators_give_the_difference_and_the_complement(rt: HostRuntime) {
    let vob = vob_of::<u8>(&rt, "1011011101");
    let other = vob_of::<u8>(&rt, "0110011001");
    assert!(rt; vob.len() == other.len());
    let difference = &vob - &other;
    check_bits(&rt, &difference.expect(&rt, "memory"), "1001000100");
    check_bits(&rt, &!vob, "0100100010");
    let part = other.slice(3..).expect(&rt, "memory");
    check_bits(&rt, &part, "0011001");
    check_bits(&rt, &other.slice(5..2).expect(&rt, "memory"), "");
}
