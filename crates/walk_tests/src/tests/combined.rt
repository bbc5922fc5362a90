//! Walks over two Vobs combined, from both ends: worked rows, and patterns against lists.
use super::support::{listed, pattern, pattern_bit, same, vob_of};
use std::process::Abort;
use vob::{End, Vob, deal};

/// How bits of two Vobs are combined.
#[derive(Clone, Copy)]
enum Call {
    And,
    Or,
    Xor,
    AndNot,
}

const CALLS: [Call; 4] = [Call::And, Call::Or, Call::Xor, Call::AndNot];

/// What a call makes of two bits.
fn combined_bit(call: Call, bit: bool, other: bool) -> bool {
    match call {
        Call::And => bit && other,
        Call::Or => bit || other,
        Call::Xor => bit != other,
        Call::AndNot => bit && !other,
    }
}

/// Pulls of which so many in three are at the back, and what they give of these indices.
fn pulls_at(
    rt: &(impl Abort + AllocGlobal),
    backs: usize,
    indices: &[usize],
) -> (Vec<End>, Vec<Option<usize>>) {
    let mut left = indices;
    let mut pulls = Vec::new(rt.alloc());
    let mut answers = Vec::new(rt.alloc());
    for turn in 0..indices.len().saturating_add(2) {
        let (end, split) = if turn % 3 < backs {
            (End::Back, left.split_last())
        } else {
            (End::Front, left.split_first())
        };
        pulls.push(end).expect(rt, "memory");
        answers
            .push(split.map(|(index, _)| *index))
            .expect(rt, "memory");
        left = split.map(|(_, rest)| rest).unwrap_or(left);
    }
    (pulls, answers)
}

/// What pulls at the walk of a call over two Vobs of one length give.
fn pulled(
    rt: &(impl Abort + AllocGlobal),
    call: Call,
    (vob, other): (&Vob<u8>, &Vob<u8>),
    pulls: &[End],
) -> Vec<Option<usize>> {
    assert!(rt; vob.len() == other.len());
    let mut answers = Vec::new(rt.alloc());
    let dealt = match call {
        Call::And => deal(&mut vob.intersection(other), pulls, &mut answers),
        Call::Or => deal(&mut vob.union(other), pulls, &mut answers),
        Call::Xor => deal(&mut vob.symmetric_difference(other), pulls, &mut answers),
        Call::AndNot => deal(&mut vob.difference(other), pulls, &mut answers),
    };
    dealt.expect(rt, "memory");
    answers
}

/// How many indices the walk of a call over two Vobs of one length gives.
fn counted(rt: &impl Abort, call: Call, vob: &Vob<u8>, other: &Vob<u8>) -> usize {
    assert!(rt; vob.len() == other.len());
    match call {
        Call::And => vob.intersection(other).count(),
        Call::Or => vob.union(other).count(),
        Call::Xor => vob.symmetric_difference(other).count(),
        Call::AndNot => vob.difference(other).count(),
    }
}

/// The walk of a call over two Vobs of one length gives these indices from either end and from both,
/// and counts them.
fn check_walk(
    rt: &(impl Abort + AllocGlobal),
    call: Call,
    vob: &Vob<u8>,
    other: &Vob<u8>,
    wanted: &[usize],
) {
    for backs in 0..4 {
        let (pulls, answers) = pulls_at(rt, backs, wanted);
        let found = pulled(rt, call, (vob, other), &pulls);
        same(rt, "pulls", backs, found.as_slice(), answers.as_slice());
    }
    let count = counted(rt, call, vob, other);
    same(rt, "the count", 0, count, wanted.len());
}

/// The walk of a call over patterns of `len` bits, against the bits one by one.
fn check_patterns(rt: &(impl Abort + AllocGlobal), call: Call, seeds: (usize, usize), len: usize) {
    let (left, right) = seeds;
    let mut wanted = Vec::new(rt.alloc());
    for index in 0..len {
        if combined_bit(call, pattern_bit(left, index), pattern_bit(right, index)) {
            wanted.push(index).expect(rt, "memory");
        }
    }
    let vob = pattern::<u8>(rt, left, len);
    check_walk(rt, call, &vob, &pattern(rt, right, len), &wanted);
}

#[test]
fn patterns_are_walked_together_as_lists(rt: HostRuntime) {
    for call in CALLS {
        for seeds in [(0, 0), (0, 1), (3, 1), (2, 4)] {
            for len in 0..131 {
                check_patterns(&rt, call, seeds, len);
            }
        }
    }
}

#[test]
fn indices_of_both_are_given(rt: HostRuntime) {
    for (call, left, right, wanted) in [
        (Call::And, "0111000011", "1110000001", [1, 2, 9].as_slice()),
        (Call::Or, "0100000000", "0000000011", &[1, 8, 9]),
        (Call::Xor, "0111000011", "1110000001", &[0, 3, 8]),
        (Call::AndNot, "0111000011", "1010000001", &[1, 3, 8]),
        (Call::AndNot, "0000000000", "1111111111", &[]),
        (Call::Or, "", "", &[]),
    ] {
        let vob = vob_of::<u8>(&rt, left);
        check_walk(&rt, call, &vob, &vob_of(&rt, right), wanted);
    }
}

#[test]
fn a_walk_is_an_iterator_from_both_ends(rt: HostRuntime) {
    let vob = vob_of::<u8>(&rt, "0111000011");
    let other = vob_of::<u8>(&rt, "1110000001");
    assert!(rt; vob.len() == other.len());
    let forth = listed(&rt, vob.union(&other));
    same(&rt, "forth", 0, forth.as_slice(), &[0, 1, 2, 3, 8, 9]);
    let back = listed(&rt, vob.union(&other).rev());
    same(&rt, "back", 0, back.as_slice(), &[9, 8, 3, 2, 1, 0]);
    let mut walk = vob.intersection(&other);
    same(&rt, "the first", 0, walk.next(), Some(1));
    same(&rt, "the last", 0, walk.next_back(), Some(9));
}
