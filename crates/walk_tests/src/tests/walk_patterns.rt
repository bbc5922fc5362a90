//! Walks over indices by patterns, from both ends, against one `get` after another.
ghost use Rattle.std.specs.Prelude.{◌<◌};

use super::support::{pattern, same};
use super::walks::indices_of;
use std::ops::Bound;
use std::process::Abort;
use vob::{End, IndexWalk, Vob, deal};

/// The ends that a walk is pulled at in turn.
const ORDERS: [&[End]; 4] = [
    &[End::Front],
    &[End::Back],
    &[End::Front, End::Back],
    &[End::Back, End::Back, End::Front],
];

/// The indices from `from` to below `to` whose bits have the value.
fn plain_indices(
    rt: &(impl Abort + AllocGlobal),
    vob: &Vob<u8>,
    value: bool,
    from: usize,
    to: usize,
) -> Vec<usize> {
    let mut found = Vec::new(rt.alloc());
    for index in from..to {
        if vob.get(index) == Some(value) {
            found.push(index).expect(rt, "memory");
        }
    }
    found
}

/// What a pull at an end of a list of indices gives, which is no longer in the list.
fn plain_pull(rest: &mut &[usize], side: End) -> Option<usize> {
    let (index, others) = match side {
        End::Front => rest.split_first()?,
        End::Back => rest.split_last()?,
    };
    *rest = others;
    Some(*index)
}

/// Pulls at once, and at a like walk one by one, give what the ends of the list give, up to None at
/// both ends.
fn check_order<W: IndexWalk>(
    rt: &(impl Abort + AllocGlobal),
    walk: &mut W,
    like: &mut W,
    order: &[End],
    indices: &[usize],
) {
    let mut rest = indices;
    let mut pulls = Vec::new(rt.alloc());
    let mut wanted = Vec::new(rt.alloc());
    for _ in 0..indices.len().saturating_add(1) {
        for side in order {
            let answer = plain_pull(&mut rest, *side);
            same(rt, "indices", indices.len(), like.pull(*side), answer);
            pulls.push(*side).expect(rt, "memory");
            wanted.push(answer).expect(rt, "memory");
        }
    }
    let mut answers = Vec::new(rt.alloc());
    deal(walk, &pulls, &mut answers).expect(rt, "memory");
    assert!(rt;
        answers.as_slice() == wanted.as_slice(),
        "{answers:?} is {wanted:?}"
    );
    for side in [End::Front, End::Back] {
        same(rt, "the end of the walk", 0, walk.pull(side), None);
        same(rt, "the end of one like it", 0, like.pull(side), None);
    }
}

/// Both walks of a Vob from `from` to below `to`, by each order of pulls.
fn check_range(rt: &(impl Abort + AllocGlobal), vob: &Vob<u8>, from: usize, to: usize) {
    let range = (Bound::Included(from), Bound::Excluded(to));
    let set = plain_indices(rt, vob, true, from, to);
    let unset = plain_indices(rt, vob, false, from, to);
    for order in ORDERS {
        let (mut walk, mut like) = (vob.iter_set_bits(range), vob.iter_set_bits(range));
        check_order(rt, &mut walk, &mut like, order, &set);
        let (mut walk, mut like) = (vob.iter_unset_bits(range), vob.iter_unset_bits(range));
        check_order(rt, &mut walk, &mut like, order, &unset);
    }
}

/// All pairs of bounds, `step` apart, within patterns of `len` bits, and up to their end.
fn check_ranges(rt: &(impl Abort + AllocGlobal), len: usize, step: usize)
    requires { 0 < step }
{
    for seed in 0..3 {
        let vob = pattern::<u8>(rt, seed, len);
        let end = vob.len().saturating_add(1);
        for from in (0..end).step_by(step) {
            for to in (from..end).step_by(step) {
                check_range(rt, &vob, from, to);
            }
            check_range(rt, &vob, from, vob.len());
        }
    }
}

/// A new walk between the indices that an old one gave last, front and back, gives what is left.
fn check_resumed(rt: &(impl Abort + AllocGlobal), len: usize) {
    let vob = pattern::<u8>(rt, 0, len);
    let mut walk = vob.iter_set_bits(..);
    for _ in 0..len {
        let (Some(first), Some(last)) = (walk.next(), walk.next_back()) else {
            return;
        };
        let between = (Bound::Excluded(first), Bound::Excluded(last));
        let rest = indices_of(rt, &vob, true, between);
        let wanted = plain_indices(rt, &vob, true, first.saturating_add(1), last);
        same(rt, "between both ends", 0, rest.as_slice(), &wanted);
    }
}

#[test]
fn walks_give_what_reads_give(rt: HostRuntime) {
    for len in 0..70 {
        check_ranges(&rt, len, 9);
        check_ranges(&rt, len, 13);
    }
    for len in [127, 128, 129, 193, 257] {
        check_ranges(&rt, len, 29);
        check_ranges(&rt, len, 31);
    }
    // A new walk goes on between both ends of an old one.
    for len in [0, 1, 2, 8, 40, 70, 130] {
        check_resumed(&rt, len);
    }
}
