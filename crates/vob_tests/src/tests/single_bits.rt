//! Single bits: rows and patterns of pushes, reads, writes and cuts.
use super::block_types::{reads, write_unchecked};
use super::support::{
    check_blocks, check_same, filled, listed, pattern, pattern_bit, push, same, vob_of, write,
};
use std::process::Abort;
use vob::Vob;

#[test]
fn a_popped_bit_leaves_no_trace(rt: HostRuntime) {
    let mut vob = Vob::new(rt.alloc());
    same(&rt, "empty", 0, vob.is_empty(), true);
    push(&rt, &mut vob, false);
    check_blocks(&rt, &vob, 1, &[0]);
    same(&rt, "pop", 0, vob.pop(), Some(false));
    check_blocks(&rt, &vob, 0, &[]);
    push(&rt, &mut vob, true);
    check_blocks(&rt, &vob, 1, &[1]);
    same(&rt, "pop", 1, vob.pop(), Some(true));
    same(&rt, "pop", 2, vob.pop(), None);
    same(&rt, "empty", 0, vob.is_empty(), true);
    // Its room is used again.
    let mut vob = vob_of::<u8>(&rt, "11111111");
    let room = vob.capacity();
    same(&rt, "pop", 0, vob.pop(), Some(true));
    push(&rt, &mut vob, true);
    check_blocks(&rt, &vob, 8, &[255]);
    same(&rt, "no memory was taken", 0, vob.capacity(), room);
}

/// 129 true bits, cut at their length, past it and at 0.
fn check_cuts(rt: &(impl Abort + AllocGlobal), blocks: &[usize]) {
    let mut many = filled::<usize>(rt, true, 129);
    many.truncate(129);
    check_blocks(rt, &many, 129, blocks);
    many.truncate(193);
    check_blocks(rt, &many, 129, blocks);
    many.truncate(0);
    check_blocks(rt, &many, 0, &[]);
    same(rt, "empty", 0, many.is_empty(), true);
}

#[test]
fn truncated_bits_are_gone_from_the_blocks(rt: HostRuntime) {
    let mut vob = vob_of::<u8>(&rt, "11111111111111111");
    for (index, len, blocks) in [
        (17, 17, [255, 255, 1].as_slice()),
        (16, 16, &[255, 255]),
        (11, 11, &[255, 7]),
        (200, 11, &[255, 7]),
        (0, 0, &[]),
    ] {
        vob.truncate(index);
        check_blocks(&rt, &vob, len, blocks);
    }
    check_cuts(&rt, &[usize::MAX, usize::MAX, 1]);
}

/// Both calls write a value at an index of two equal Vobs, and say whether the bit changed.
fn check_write(
    rt: &impl Abort,
    one: &mut Vob<u8>,
    other: &mut Vob<u8>,
    index: usize,
    value: bool,
    changed: bool,
) {
    let set = write(one, index, value);
    let unchecked = write_unchecked(other, index, value);
    same(rt, "both", index, [set, unchecked], [Some(changed); 2]);
    reads(rt, one, index, Some(value));
    reads(rt, other, index, Some(value));
}

/// Two equal Vobs by the pattern: each index read, and written by both calls.
fn check_pattern(rt: &(impl Abort + AllocGlobal), seed: usize, len: usize) {
    let mut one = pattern::<u8>(rt, seed, len);
    let mut other = pattern::<u8>(rt, seed, len);
    for index in 0..len {
        let bit = pattern_bit(seed, index);
        reads(rt, &one, index, Some(bit));
        check_write(rt, &mut one, &mut other, index, false, bit);
        check_write(rt, &mut one, &mut other, index, true, true);
    }
}

#[test]
fn both_ways_of_writing_agree(rt: HostRuntime) {
    for len in 0..128 {
        for seed in 0..3 {
            check_pattern(&rt, seed, len);
        }
    }
}

#[test]
fn the_walk_gives_the_bits_from_both_ends(rt: HostRuntime) {
    let vob = pattern::<u8>(&rt, 1, 19);
    let mut walk = vob.iter();
    same(&rt, "left of the walk", 0, walk.len(), 19);
    same(&rt, "bit", 0, walk.next(), vob.get(0));
    same(&rt, "bit", 18, walk.next_back(), vob.get(18));
    let mut other = walk.clone();
    same(&rt, "bit", 1, other.next(), vob.get(1));
    same(&rt, "bit", 17, other.next_back(), vob.get(17));
    let found = other.size_hint();
    same(&rt, "left of the clone", 0, found, (15, Some(15)));
    same(&rt, "the first walk stays", 0, walk.len(), 17);
    same(&rt, "bit", 1, walk.next(), vob.get(1));
}

#[test]
fn collected_bits_are_those_that_get_reads(rt: HostRuntime) {
    let vob = pattern::<usize>(&rt, 1, 79);
    let bits = listed(&rt, vob.iter());
    let listed = Vob::from_slice(rt.alloc(), &bits).expect(&rt, "memory");
    check_same(&rt, &listed, &vob);
    for (index, bit) in (&vob).into_iter().enumerate() {
        same(&rt, "bit", index, vob.get(index), Some(bit));
        same(&rt, "bit", index, bits.get(index).copied(), Some(bit));
    }
}

#[test]
fn a_cloned_walk_over_blocks_goes_on_from_the_same_place(rt: HostRuntime) {
    let vob = pattern::<u8>(&rt, 1, 19);
    let mut blocks = vob.iter_storage();
    let found = blocks.next();
    same(&rt, "block", 0, found, vob.get_storage().first().copied());
    let others = blocks.clone();
    let found = others.size_hint();
    same(&rt, "left of the clone", 0, found, (2, Some(2)));
    // Of each five bits the second and the last are false; these two blocks begin with the fourth
    // and the second of five.
    let wanted = [0b1011_0101, 0b110];
    let rest = listed(&rt, others);
    same(&rt, "blocks left", 0, rest.as_slice(), &wanted);
    let others = listed(&rt, blocks);
    same(&rt, "blocks", 2, others.as_slice(), &wanted);
}
