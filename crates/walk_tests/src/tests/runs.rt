//! The set bit of a rank, the runs of set and of unset bits, and room for some, against one bit
//! after another.
use super::support::{filled, pattern, same, write};
use std::ops::Bound;
use std::process::Abort;
use vob::{Runs, Vob};

/// Each set bit is selected by its rank, and no greater number selects one.
fn check_select(rt: &impl Abort, vob: &Vob<u8>) {
    let mut below: usize = 0;
    for index in 0..vob.len() {
        if vob.get(index) == Some(true) {
            same(rt, "select", index, vob.select(below), Some(index));
            same(rt, "rank", index, vob.rank(index), below);
            below = below.saturating_add(1);
        }
    }
    same(rt, "select past the last", below, vob.select(below), None);
    same(rt, "select the most", below, vob.select(usize::MAX), None);
}

/// The runs are the stretches of bits of a value from `start` to below `stop` that one bit after
/// another shows, in order.
fn check_stretches(
    rt: &impl Abort,
    what: &str,
    vob: &Vob<u8>,
    value: bool,
    start: usize,
    stop: usize,
    mut runs: Runs<'_, u8>,
) {
    let mut begun = None;
    for index in start..=stop {
        if index < stop && vob.get(index) == Some(value) {
            begun = begun.or(Some(index));
        } else if let Some(from) = begun.take() {
            same(rt, what, from, runs.next(), Some(from..index));
        }
    }
    same(rt, what, vob.len(), runs.next(), None);
    same(rt, what, vob.len(), runs.next(), None);
}

/// The runs of some ranges: within the length, past it, empty and reversed.
fn check_ranges(rt: &impl Abort, vob: &Vob<u8>) {
    let len = vob.len();
    let mid = len / 2;
    for start in [0, 1, len / 3, mid] {
        let start = start.min(mid);
        check_stretches(rt, "in", vob, true, start, mid, vob.runs_in(start..mid));
        check_stretches(rt, "from", vob, true, start, len, vob.runs_in(start..));
        let past = vob.runs_in(start..=usize::MAX);
        check_stretches(rt, "past the end", vob, true, start, len, past);
    }
    check_stretches(rt, "all", vob, true, 0, len, vob.runs_in(..));
    same(rt, "empty", len, vob.runs_in(mid..mid).next(), None);
    same(rt, "reversed", len, vob.runs_in(len..mid).next(), None);
    same(rt, "greatest", len, vob.runs_in(usize::MAX..0).next(), None);
    same(rt, "at the end", len, vob.runs_in(len..).next(), None);
    let behind = (Bound::Excluded(usize::MAX), Bound::Unbounded);
    same(rt, "behind all", len, vob.runs_in(behind).next(), None);
}

/// The first index at which `n` unset bits in a row stand, by one bit after another.
fn room_of(vob: &Vob<u8>, n: usize) -> Option<usize> {
    let mut row: usize = 0;
    if n == 0 {
        return Some(0);
    }
    for index in 0..vob.len() {
        row = if vob.get(index) == Some(true) {
            0
        } else {
            row.saturating_add(1)
        };
        if row == n {
            return Some(index.saturating_add(1).saturating_sub(n));
        }
    }
    None
}

/// Room of several lengths, the extreme ones among them.
fn check_room(rt: &impl Abort, vob: &Vob<u8>) {
    let len = vob.len();
    for n in [0, 1, 2, 3, 7, 8, 9, 16, 64, 65, 128] {
        same(rt, "room", n, vob.first_unset_run(n), room_of(vob, n));
    }
    for n in [len / 2, len, len.saturating_add(1), usize::MAX] {
        same(rt, "much room", n, vob.first_unset_run(n), room_of(vob, n));
    }
}

/// Each call on runs gives what one bit after another shows.
fn check_runs(rt: &impl Abort, vob: &Vob<u8>) {
    let len = vob.len();
    check_select(rt, vob);
    check_stretches(rt, "set", vob, true, 0, len, vob.runs());
    check_stretches(rt, "unset", vob, false, 0, len, vob.unset_runs());
    check_ranges(rt, vob);
    check_room(rt, vob);
}

/// A pattern of each length below 130, and all bits set and none.
fn check_patterns(rt: &(impl Abort + AllocGlobal), seed: usize) {
    for len in 0..130 {
        check_runs(rt, &pattern::<u8>(rt, seed, len));
        check_runs(rt, &filled::<u8>(rt, true, len));
        check_runs(rt, &filled::<u8>(rt, false, len));
        check_negated(rt, pattern::<u8>(rt, seed, len));
    }
}

/// The same of the bits negated, so that stretches of unset bits begin where set ones did.
fn check_negated(rt: &impl Abort, mut vob: Vob<u8>) {
    vob.negate();
    check_runs(rt, &vob);
}

/// One stretch of set bits from `start` to below `stop`, among 300.
fn check_stretch(rt: &(impl Abort + AllocGlobal), start: usize, stop: usize) {
    let mut vob = filled::<u8>(rt, false, 300);
    for index in start..stop {
        write(&mut vob, index, true);
    }
    check_runs(rt, &vob);
    check_negated(rt, vob);
}

#[test]
fn runs_and_ranks_are_those_of_one_bit_after_another(rt: HostRuntime) {
    check_patterns(&rt, 1);
    check_patterns(&rt, 2);
    check_patterns(&rt, 4);
    // Runs that begin and end at the borders of blocks.
    for start in [0, 7, 8, 63, 64, 65, 127, 128, 192] {
        for stop in [8, 64, 65, 127, 128, 129, 256, 299, 300] {
            check_stretch(&rt, start, stop);
        }
    }
}
