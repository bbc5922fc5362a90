//! Runs pulled at both ends, against the stretches that one bit after another shows.
use super::support::{filled, pattern, pattern_bit, same, same_list, vob_of};
use std::ops::Range;
use std::process::Abort;
use vob::{Runs, Vob};

/// The stretches of bits of a value from `start` to below `stop`, each by its start and its end.
fn stretches(
    rt: &(impl Abort + AllocGlobal),
    seed: usize,
    value: bool,
    start: usize,
    stop: usize,
) -> Vec<(usize, usize)> {
    let mut found = Vec::new(rt.alloc());
    let mut begun = None;
    for index in start..=stop {
        if index < stop && pattern_bit(seed, index) == value {
            begun = begun.or(Some(index));
        } else if let Some(from) = begun.take() {
            found.push((from, index)).expect(rt, "memory");
        }
    }
    found
}

/// A stretch as the range of its indices.
fn range_of(stretch: Option<&(usize, usize)>) -> Option<Range<usize>> {
    match stretch {
        Some(ends) => Some(ends.0..ends.1),
        None => None,
    }
}

/// Whether a pull is at the front: where the pattern with this seed has a true bit. After `count`
/// pulls both ends take turns.
fn is_front(turns: usize, pull: usize, count: usize) -> bool {
    if pull < count {
        pattern_bit(turns, pull)
    } else {
        pull % 2 == 0
    }
}

/// What pulls at a walk give, four more than there are runs.
fn pulled(
    rt: &(impl Abort + AllocGlobal),
    turns: usize,
    mut runs: Runs<'_, u8>,
    count: usize,
) -> Vec<Option<Range<usize>>> {
    let mut found = Vec::new(rt.alloc());
    for pull in 0..count.saturating_add(4) {
        let run = if is_front(turns, pull, count) {
            runs.next()
        } else {
            runs.next_back()
        };
        found.push(run).expect(rt, "memory");
    }
    found
}

/// What the same pulls at the list of the runs give.
fn given(
    rt: &(impl Abort + AllocGlobal),
    turns: usize,
    wanted: &[(usize, usize)],
) -> Vec<Option<Range<usize>>> {
    let mut left = wanted.iter();
    let mut found = Vec::new(rt.alloc());
    for pull in 0..wanted.len().saturating_add(4) {
        let run = if is_front(turns, pull, wanted.len()) {
            left.next()
        } else {
            left.next_back()
        };
        found.push(range_of(run)).expect(rt, "memory");
    }
    found
}

/// Pulls at both ends until both gave `None`, and once more at each.
fn check_pulls(
    rt: &(impl Abort + AllocGlobal),
    turns: usize,
    runs: Runs<'_, u8>,
    wanted: Vec<(usize, usize)>,
) {
    let found = pulled(rt, turns, runs, wanted.len());
    let answers = given(rt, turns, &wanted);
    same_list(rt, "the runs", found.as_slice(), answers.as_slice());
}

/// The runs of all bits, of the unset ones, and of ranges that cut runs, pulled in five orders.
fn check_orders(rt: &(impl Abort + AllocGlobal), seed: usize, len: usize) {
    let vob = pattern::<u8>(rt, seed, len);
    let (low, high) = (len / 3, len.saturating_sub(len / 4));
    for turns in 0..5 {
        check_pulls(rt, turns, vob.runs(), stretches(rt, seed, true, 0, len));
        check_pulls(
            rt,
            turns,
            vob.unset_runs(),
            stretches(rt, seed, false, 0, len),
        );
        check_pulls(
            rt,
            turns,
            vob.runs_in(low..),
            stretches(rt, seed, true, low, len),
        );
        check_pulls(
            rt,
            turns,
            vob.runs_in(low..high),
            stretches(rt, seed, true, low, high),
        );
    }
}

#[test]
fn both_ends_give_each_run_once(rt: HostRuntime) {
    for len in 0..131 {
        for seed in 0..5 {
            check_orders(&rt, seed, len);
        }
    }
}

/// The stretches of this list that aren't empty.
fn some_of(rt: &(impl Abort + AllocGlobal), stretches: &[(usize, usize)]) -> Vec<(usize, usize)> {
    let mut found = Vec::new(rt.alloc());
    for (start, stop) in stretches {
        if start < stop {
            found.push((*start, *stop)).expect(rt, "memory");
        }
    }
    found
}

/// One stretch of set bits from `start` to below `stop`, among 300: either end gives it whole, and
/// the unset bits before and behind it.
fn check_stretch(rt: &(impl Abort + AllocGlobal), start: usize, stop: usize) {
    let mut vob = filled::<u8>(rt, false, 300);
    vob.set_range(start..stop, true);
    for turns in 0..5 {
        check_pulls(rt, turns, vob.runs(), some_of(rt, &[(start, stop)]));
        let others = some_of(rt, &[(0, start), (stop, 300)]);
        check_pulls(rt, turns, vob.unset_runs(), others);
    }
}

#[test]
fn long_runs_come_whole_from_the_back(rt: HostRuntime) {
    for start in [0, 7, 8, 63, 64, 65, 127, 128, 192] {
        for stop in [193, 199, 200, 255, 256, 257, 299, 300] {
            check_stretch(&rt, start, stop);
        }
    }
}

/// The runs of 0110111001, of which the third is 9..10.
fn check_by_hand(rt: &(impl Abort + AllocGlobal)) {
    let vob = vob_of::<u8>(rt, "0110111001");
    for turns in 0..5 {
        let runs = some_of(rt, &[(1, 3), (4, 7), (9, 10)]);
        check_pulls(rt, turns, vob.runs(), runs);
        // The first of the range is cut at 5.
        check_pulls(
            rt,
            turns,
            vob.runs_in(5..10),
            some_of(rt, &[(5, 7), (9, 10)]),
        );
        let unset = some_of(rt, &[(0, 1), (3, 4), (7, 9)]);
        check_pulls(rt, turns, vob.unset_runs(), unset);
    }
}

#[test]
fn ends_meet_as_worked_out_by_hand(rt: HostRuntime) {
    check_by_hand(&rt);
    // Runs in reverse order, by an adapter.
    let vob = vob_of::<u8>(&rt, "1101100000011");
    let mut reversed = vob.runs().rev();
    same(&rt, "the last", 0, reversed.next(), Some(11..13));
    same(&rt, "the middle one", 1, reversed.next(), Some(3..5));
    same(&rt, "the first", 2, reversed.next(), Some(0..2));
    same(&rt, "none", 3, reversed.next(), None);
    let none = Vob::<u8>::new_with_storage_type(rt.alloc(), 0).expect(&rt, "memory");
    same(&rt, "none of no bits", 0, none.runs().next_back(), None);
}
