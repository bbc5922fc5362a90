//! Growing, joining, cutting and filling: worked rows, and patterns against pushes or lists of bits.
use super::support::{
    Hinted, check_blocks, check_list, check_made, check_same, copy_of, filled, join, pattern,
    pattern_bit, pattern_list, push, resize, same, vob_of,
};
use std::process::Abort;
use vob::{Vob, VobError};
use vob_block::Kernel;

#[test]
fn bits_behind_others_and_all_bits_become_true(rt: HostRuntime) {
    let mut bytes = filled::<u8>(&rt, false, 8);
    resize(&rt, &mut bytes, 9, true);
    check_blocks(&rt, &bytes, 9, &[0, 1]);
    let mut words = vob_of::<usize>(&rt, "0");
    resize(&rt, &mut words, 129, true);
    check_blocks(&rt, &words, 129, &[usize::MAX - 1, usize::MAX, 1]);
    resize(&rt, &mut words, 1, true);
    check_blocks(&rt, &words, 1, &[0]);
    resize(&rt, &mut words, 2, true);
    check_blocks(&rt, &words, 2, &[2]);
    let mut one = Vob::new(rt.alloc());
    resize(&rt, &mut one, 1, true);
    check_blocks(&rt, &one, 1, &[1]);
    let mut bytes = filled::<u8>(&rt, false, 10);
    bytes.set_all(true);
    check_blocks(&rt, &bytes, 10, &[255, 3]);
    bytes.negate();
    check_blocks(&rt, &bytes, 10, &[0, 0]);
}

#[test]
fn resized_bytes_are_negated(rt: HostRuntime) {
    let mut bytes = vob_of::<u8>(&rt, "");
    bytes
        .extend_from_slice(&[true, false, true, true, false])
        .expect(&rt, "memory");
    resize(&rt, &mut bytes, 8, true);
    check_blocks(&rt, &bytes, 8, &[237]);
    resize(&rt, &mut bytes, 17, true);
    check_blocks(&rt, &bytes, 17, &[237, 255, 1]);
    bytes.negate();
    check_blocks(&rt, &bytes, 17, &[18, 0, 0]);
    let mut words = Vob::new(rt.alloc());
    words
        .extend_from_slice(&[true, true, false])
        .expect(&rt, "memory");
    check_blocks(&rt, &words, 3, &[3]);
}

#[test]
fn joined_bits_are_cut_apart_again_and_not_past_the_end(rt: HostRuntime) {
    let mut vob = vob_of::<u8>(&rt, "11111111");
    join(&rt, &mut vob, &vob_of(&rt, "000000000"));
    check_blocks(&rt, &vob, 17, &[255, 0, 0]);

    let mut vob = vob_of::<u8>(&rt, "10110");
    join(&rt, &mut vob, &vob_of(&rt, "11101"));
    check_blocks(&rt, &vob, 10, &[237, 2]);
    check_same(&rt, &vob, &vob_of(&rt, "1011011101"));
    check_made(&rt, vob.split_off(5), 5, &[23]);
    check_blocks(&rt, &vob, 5, &[13]);

    let mut vob = vob_of::<u8>(&rt, "101");
    let refusal = vob.split_off(5).err();
    same(&rt, "past the end", 5, refusal, Some(VobError::PastEnd));
    let number = refusal.map(VobError::number);
    same(&rt, "the number", 5, number, Some(4));
    check_blocks(&rt, &vob, 3, &[5]);
    check_made(&rt, vob.split_off(3), 0, &[]);
    check_blocks(&rt, &vob, 3, &[5]);
}

/// Appends the blocks of another Vob.
fn append<T: Kernel>(rt: &impl Abort, vob: &mut Vob<T>, other: &Vob<T>) {
    let more = other.len();
    vob.reserve(more).expect(rt, "memory");
    vob.append_blocks(&mut other.blocks(), more);
}

/// Two Vobs that are joined, or whose blocks are appended, are what pushes leave; cut apart, they are
/// both again.
fn check_join<T: Kernel>(rt: &impl Abort, one: &Vob<T>, two: &Vob<T>, pushed: &Vob<T>) {
    let mut appended = copy_of(rt, one);
    append(rt, &mut appended, two);
    check_same(rt, &appended, pushed);
    let mut joined = copy_of(rt, one);
    join(rt, &mut joined, two);
    check_same(rt, &joined, pushed);
    let rest = joined.split_off(one.len()).expect(rt, "memory");
    check_same(rt, &joined, one);
    check_same(rt, &rest, two);
}

/// A pattern joined with each of the patterns of the lengths below `end`.
fn check_joins<T: Kernel>(rt: &(impl Abort + AllocGlobal), seed: usize, first: usize, end: usize) {
    let one = pattern::<T>(rt, seed, first);
    let mut two = vob_of::<T>(rt, "");
    let mut pushed = copy_of(rt, &one);
    for second in 0..end {
        check_join(rt, &one, &two, &pushed);
        let bit = pattern_bit(seed, second);
        push(rt, &mut two, bit);
        push(rt, &mut pushed, bit);
    }
}

#[test]
fn joins_leave_what_pushes_leave(rt: HostRuntime) {
    for seed in 0..3 {
        for first in 0..130 {
            check_joins::<u8>(&rt, seed, first, 130);
        }
    }
}

#[test]
fn joins_of_wide_blocks_leave_what_pushes_leave(rt: HostRuntime) {
    for seed in 0..3 {
        for first in [0, 1, 63, 64, 65, 127, 128, 129, 200] {
            check_joins::<u128>(&rt, seed, first, 260);
        }
    }
}

/// A pattern with items appended, by a slice and by an iterator, is what pushes leave.
fn check_growth(rt: &(impl Abort + AllocGlobal), seed: usize, first: usize, items: &[bool]) {
    let mut pushed = pattern::<u8>(rt, seed, first);
    let mut sliced = copy_of(rt, &pushed);
    let mut extended = copy_of(rt, &pushed);
    for bit in items {
        push(rt, &mut pushed, *bit);
    }
    sliced.extend_from_slice(items).expect(rt, "memory");
    check_same(rt, &sliced, &pushed);
    let lower = 0;
    let hinted = Hinted { rest: items, lower };
    extended.extend(hinted).expect(rt, "memory");
    check_same(rt, &extended, &pushed);
}

/// The first bits of pattern 1, and then equal bits.
fn lengthened(
    rt: &(impl Abort + AllocGlobal),
    value: bool,
    first: usize,
    more: usize,
) -> Vec<bool> {
    let mut bits = pattern_list(rt, 1, 0, first);
    for _ in 0..more {
        bits.push(value).expect(rt, "memory");
    }
    bits
}

/// Equal bits come after a pattern; cut off, what was there is left.
fn check_resize(rt: &(impl Abort + AllocGlobal), value: bool, first: usize, more: usize) {
    let bits = lengthened(rt, value, first, more);
    let mut vob = pattern::<u8>(rt, 1, first);
    resize(rt, &mut vob, bits.len(), value);
    check_list(rt, &vob, &bits);
    resize(rt, &mut vob, first, !value);
    check_list(rt, &vob, &pattern_list(rt, 1, 0, first));
}

#[test]
fn growth_leaves_the_bits_of_both(rt: HostRuntime) {
    let mut items = Vec::new(rt.alloc());
    for count in 0..150 {
        for first in 0..68 {
            if first < 40 && count < 40 || first >= 60 {
                check_growth(&rt, first % 3, first, &items);
                check_resize(&rt, true, first, count);
                check_resize(&rt, false, first, count);
            }
        }
        items.push(count % 5 < 2).expect(&rt, "memory");
    }
}
