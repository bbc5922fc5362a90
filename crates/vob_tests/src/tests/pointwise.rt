//! Vobs combined bit by bit, compared and hashed: worked rows, and patterns against lists.
use super::support::{
    check_blocks, check_equal, check_same, listed, pattern, pattern_bit, push, same, same_list,
    vob_of,
};
use std::hash::{DefaultHasher, Hash, Hasher};
use std::process::Abort;
use vob::Vob;
use vob_block::Kernel;

#[derive(Clone, Copy)]
pub(super) enum Call {
    And,
    Or,
    Xor,
    AndNot,
}

pub(super) const CALLS: [Call; 4] = [Call::And, Call::Or, Call::Xor, Call::AndNot];

/// What a call makes of two bits.
pub(super) fn combined_bit(call: Call, bit: bool, other: bool) -> bool {
    match call {
        Call::And => bit && other,
        Call::Or => bit || other,
        Call::Xor => bit != other,
        Call::AndNot => bit && !other,
    }
}

/// `and`, `or`, `xor` or `and_not` of two Vobs of one length.
pub(super) fn combine<T: Kernel>(
    rt: &impl Abort,
    call: Call,
    vob: &mut Vob<T>,
    other: &Vob<T>,
) -> bool {
    assert!(rt; vob.len() == other.len());
    match call {
        Call::And => vob.and(other),
        Call::Or => vob.or(other),
        Call::Xor => vob.xor(other),
        Call::AndNot => vob.and_not(other),
    }
}

/// What the three forms of an operator make of two Vobs of one length. They give a new Vob, the
/// left side in place, which is `assigned`, and the left side itself. `and_not` has no operator.
fn forms(rt: &impl Abort, call: Call, vob: Vob, mut assigned: Vob, other: &Vob) -> (Vob, Vob, Vob) {
    assert!(rt; vob.len() == other.len() && assigned.len() == other.len());
    let made = match call {
        Call::And => &vob & other,
        Call::Or => &vob | other,
        _ => &vob ^ other,
    };
    check_same(rt, &vob, &assigned);
    match call {
        Call::And => assigned &= other,
        Call::Or => assigned |= other,
        _ => assigned ^= other,
    }
    let moved = match call {
        Call::And => vob & other,
        Call::Or => vob | other,
        _ => vob ^ other,
    };
    (made.expect(rt, "memory"), assigned, moved)
}

/// The three forms of an operator.
fn check_forms(rt: &(impl Abort + AllocGlobal), call: Call, left: &str, right: &str, after: &str) {
    let wanted = vob_of::<usize>(rt, after);
    let (vob, like) = (vob_of::<usize>(rt, left), vob_of::<usize>(rt, left));
    let (made, assigned, moved) = forms(rt, call, vob, like, &vob_of(rt, right));
    check_same(rt, &made, &wanted);
    check_same(rt, &assigned, &wanted);
    check_same(rt, &moved, &wanted);
}

#[test]
fn a_call_says_whether_a_bit_changed_and_an_operator_has_three_forms(rt: HostRuntime) {
    for (call, left, right, changed, after) in [
        (Call::And, "100", "110", false, "100"),
        (Call::Or, "100", "010", true, "110"),
        (Call::Xor, "101", "011", true, "110"),
        (Call::And, "", "", false, ""),
    ] {
        let mut vob = vob_of::<usize>(&rt, left);
        let other = vob_of::<usize>(&rt, right);
        same(&rt, left, 0, combine(&rt, call, &mut vob, &other), changed);
        check_same(&rt, &vob, &vob_of(&rt, after));
        check_same(&rt, &other, &vob_of(&rt, right));
    }
    check_forms(&rt, Call::Or, "1010", "1100", "1110");
    check_forms(&rt, Call::And, "1010", "1100", "1000");
    check_forms(&rt, Call::Xor, "1101", "1011", "0110");
}

/// Two Vobs of `len` bits are equal, and differ once bit `index` of one is another.
fn check_equality(rt: &(impl Abort + AllocGlobal), len: usize, index: usize) {
    let one = pattern::<u8>(rt, 0, len);
    let mut other = pattern::<u8>(rt, 0, len);
    check_equal(rt, &one, &other, true);
    if index < len {
        assert!(rt; index < other.len());
        other.set(index, !pattern_bit(0, index));
        check_equal(rt, &one, &other, false);
    }
}

#[test]
fn vobs_are_equal_where_their_lists_are(rt: HostRuntime) {
    let two = vob_of::<usize>(&rt, "10");
    for (digits, equal) in [("10", true), ("11", false), ("101", false), ("", false)] {
        check_equal(&rt, &two, &vob_of(&rt, digits), equal);
    }
    // A capacity that differs doesn't matter.
    let mut roomy = Vob::with_capacity(rt.alloc(), 1000).expect(&rt, "memory");
    push(&rt, &mut roomy, true);
    push(&rt, &mut roomy, false);
    check_equal(&rt, &two, &roomy, true);
    // One bit in any block makes unequal. A chunk of 64 blocks is 512 bits in bytes, and 4096 in
    // words: lengths around one and two chunks.
    for len in [
        0, 7, 8, 511, 512, 513, 1023, 1024, 1025, 4095, 4096, 4097, 8191, 8192, 8193,
    ] {
        for index in [0, 7, 8, 511, 512, 1023, 1024, 4095, 4096, 8191, 8192] {
            check_equality(&rt, len, index);
        }
    }
}

/// Returns the hash of the Vob.
fn hash_of<T: Kernel>(vob: &Vob<T>) -> u64 {
    let mut state = DefaultHasher::new();
    vob.hash(&mut state);
    state.finish()
}

#[test]
fn a_hasher_is_fed_the_blocks_and_not_the_length(rt: HostRuntime) {
    let two = vob_of::<usize>(&rt, "10");
    let like = vob_of::<usize>(&rt, "10");
    same(&rt, "hash of 10", 0, hash_of(&two), hash_of(&like));
    let one = vob_of::<usize>(&rt, "0");
    let two = vob_of::<usize>(&rt, "00");
    check_equal(&rt, &one, &two, false);
    same(&rt, "hash of 0 and 00", 0, hash_of(&one), hash_of(&two));
    let many = pattern::<u8>(&rt, 1, 30);
    let mut state = DefaultHasher::new();
    for block in many.get_storage() {
        state.write_u8(*block);
    }
    let found = hash_of(&many);
    same(&rt, "each block once, in order", 0, found, state.finish());
}

/// The bits that a call makes of two patterns, and whether one changed.
fn combined_list(
    rt: &(impl Abort + AllocGlobal),
    call: Call,
    (left, right): (usize, usize),
    len: usize,
) -> (Vec<bool>, bool) {
    let mut bits = Vec::new(rt.alloc());
    let mut changed = false;
    for index in 0..len {
        let (bit, other) = (pattern_bit(left, index), pattern_bit(right, index));
        let after = combined_bit(call, bit, other);
        changed = changed || after != bit;
        bits.push(after).expect(rt, "memory");
    }
    (bits, changed)
}

/// A call on patterns of `len` bits, against the bits one by one.
fn check_patterns<T: Kernel>(
    rt: &(impl Abort + AllocGlobal),
    call: Call,
    (left, right): (usize, usize),
    len: usize,
) {
    let (wanted, changed) = combined_list(rt, call, (left, right), len);
    let mut vob = pattern::<T>(rt, left, len);
    let other = pattern::<T>(rt, right, len);
    let answer = combine(rt, call, &mut vob, &other);
    same(rt, "the flag", len, answer, changed);
    same_list(rt, "bits", &listed(rt, vob.iter()), &wanted);
}

#[test]
fn patterns_are_combined_as_lists(rt: HostRuntime) {
    for call in CALLS {
        for seeds in [(0, 0), (0, 1), (1, 0), (2, 4)] {
            for len in 0..40 {
                check_patterns::<u8>(&rt, call, seeds, len);
                check_patterns::<usize>(&rt, call, seeds, len);
            }
        }
        for blocks in 0..33 {
            for used in [1, 63, 64] {
                check_patterns::<u8>(&rt, call, (0, 1), 64 * blocks + used);
                check_patterns::<usize>(&rt, call, (0, 1), 64 * blocks + used);
            }
        }
    }
}

#[test]
fn one_bit_in_many_blocks_is_a_change(rt: HostRuntime) {
    let mut nine = pattern::<usize>(&rt, 0, 576);
    let mut other = pattern::<usize>(&rt, 0, 576);
    assert!(rt; 575 < other.len());
    other.set(575, !pattern_bit(0, 575));
    let changed = combine(&rt, Call::Xor, &mut nine, &other);
    same(&rt, "xor", 576, changed, true);
    let blocks = [0, 0, 0, 0, 0, 0, 0, 0, 0x8000_0000_0000_0000];
    check_blocks(&rt, &nine, 576, &blocks);
    let mut eight = pattern::<usize>(&rt, 0, 512);
    let changed = combine(&rt, Call::And, &mut eight, &pattern(&rt, 0, 512));
    same(&rt, "and", 512, changed, false);
}
