//! Walks, counts and searches at each block type, which find the same at each. Other tests are at one
//! type, since a contract says the same of each.
use super::support::{listed, pattern, same_list};
use std::ops::Range;
use std::process::Abort;
use vob_block::Block;

/// What searches from each index of a pattern find.
fn found<T: Block>(rt: &(impl Abort + AllocGlobal), len: usize) -> Vec<Option<usize>> {
    let vob = pattern::<T>(rt, 1, len);
    let mut found = Vec::new(rt.alloc());
    for index in 0..len {
        let answers = [
            vob.next_set(index),
            vob.previous_unset(index),
            vob.select(index),
            vob.first_unset_run(index),
            Some(vob.rank(index)),
        ];
        found.extend_from_slice(&answers).expect(rt, "memory");
    }
    found
}

/// The runs of a pattern, the last one first.
fn runs_back<T: Block>(rt: &(impl Abort + AllocGlobal), len: usize) -> Vec<Range<usize>> {
    let vob = pattern::<T>(rt, 1, len);
    listed(rt, vob.runs().rev())
}

/// The indices of either of two patterns, the last one first, and how many are in the first alone.
fn united<T: Block>(rt: &(impl Abort + AllocGlobal), len: usize) -> Vec<usize> {
    let vob = pattern::<T>(rt, 1, len);
    let other = pattern::<T>(rt, 2, len);
    assert!(rt; vob.len() == other.len());
    let mut indices = listed(rt, vob.union(&other).rev());
    indices.push(vob.count_and_not(&other)).expect(rt, "memory");
    indices
}

#[test]
fn the_same_is_found_at_each_block_type(rt: HostRuntime) {
    for len in [0, 1, 8, 64, 129, 300] {
        let wanted = found::<u8>(&rt, len);
        same_list(&rt, "u16", &found::<u16>(&rt, len), &wanted);
        same_list(&rt, "u32", &found::<u32>(&rt, len), &wanted);
        same_list(&rt, "u64", &found::<u64>(&rt, len), &wanted);
        same_list(&rt, "u128", &found::<u128>(&rt, len), &wanted);
        same_list(&rt, "usize", &found::<usize>(&rt, len), &wanted);
    }
}

#[test]
fn runs_are_the_same_at_each_block_type(rt: HostRuntime) {
    for len in [0, 1, 8, 64, 129, 300] {
        let wanted = runs_back::<u8>(&rt, len);
        same_list(&rt, "u16", &runs_back::<u16>(&rt, len), &wanted);
        same_list(&rt, "u32", &runs_back::<u32>(&rt, len), &wanted);
        same_list(&rt, "u64", &runs_back::<u64>(&rt, len), &wanted);
        same_list(&rt, "u128", &runs_back::<u128>(&rt, len), &wanted);
        same_list(&rt, "usize", &runs_back::<usize>(&rt, len), &wanted);
    }
}

#[test]
fn unions_are_the_same_at_each_block_type(rt: HostRuntime) {
    for len in [0, 1, 8, 64, 129, 300] {
        let wanted = united::<u8>(&rt, len);
        same_list(&rt, "u16", &united::<u16>(&rt, len), &wanted);
        same_list(&rt, "u32", &united::<u32>(&rt, len), &wanted);
        same_list(&rt, "u64", &united::<u64>(&rt, len), &wanted);
        same_list(&rt, "u128", &united::<u128>(&rt, len), &wanted);
        same_list(&rt, "usize", &united::<usize>(&rt, len), &wanted);
    }
}
