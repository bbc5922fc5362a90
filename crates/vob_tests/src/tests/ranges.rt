//! Ranges of bits made one value or negated, and Vobs made of indices, against lists of bits.
use super::support::{
    check_bits, check_list, check_same, filled, pattern, pattern_bit, same, vob_of,
};
use std::ops::Bound::{Excluded, Included, Unbounded};
use std::ops::RangeBounds;
use std::process::Abort;
use vob::{IndicesError, Vob};

/// The bits of the pattern of a length, with those of a range made a value or, with none, negated.
/// Returns whether one changed too.
fn changed_bits(
    rt: &(impl Abort + AllocGlobal),
    len: usize,
    (start, stop): (usize, usize),
    value: Option<bool>,
) -> (Vec<bool>, bool) {
    let mut bits = Vec::new(rt.alloc());
    let mut changed = false;
    for index in 0..len {
        let bit = pattern_bit(len, index);
        let inside = start <= index && index < stop;
        let wanted = if inside { value.unwrap_or(!bit) } else { bit };
        changed = changed || wanted != bit;
        bits.push(wanted).expect(rt, "memory");
    }
    (bits, changed)
}

/// A range made a value, which may change bits once and never again; or negated.
fn check_changed(
    rt: &(impl Abort + AllocGlobal),
    len: usize,
    (start, stop): (usize, usize),
    value: Option<bool>,
) {
    let (wanted, changed) = changed_bits(rt, len, (start, stop), value);
    let mut vob = pattern::<u8>(rt, len, len);
    let room = vob.capacity();
    if let Some(value) = value {
        let answer = vob.set_range(start..stop, value);
        same(rt, "changed", start, answer, changed);
        check_list(rt, &vob, &wanted);
        same(rt, "again", start, vob.set_range(start..stop, value), false);
        same(rt, "the capacity", len, vob.capacity(), room);
    } else {
        vob.negate_range(start..stop);
        check_list(rt, &vob, &wanted);
    }
}

#[test]
fn ranges_change_as_pushes_do(rt: HostRuntime) {
    // Some ranges are empty, some end before they start, and some pass the end.
    for len in 0..130 {
        for start in 0..len + 2 {
            let range = (start, (start * 7 + len) % (len + 3));
            for value in [Some(true), Some(false), None] {
                check_changed(&rt, len, range, value);
            }
        }
    }
}

/// What a range makes of `1011011101` where it is set, unset and negated.
fn check_row<R: RangeBounds<usize> + Copy>(
    rt: &(impl Abort + AllocGlobal),
    range: R,
    [set, unset, negated]: [&str; 3],
) {
    let mut vob = vob_of::<u8>(rt, "1011011101");
    let _ = vob.set_range(range, true);
    check_bits(rt, &vob, set);
    let mut vob = vob_of::<u8>(rt, "1011011101");
    let _ = vob.set_range(range, false);
    check_bits(rt, &vob, unset);
    let mut vob = vob_of::<u8>(rt, "1011011101");
    vob.negate_range(range);
    check_bits(rt, &vob, negated);
}

#[test]
fn every_pair_of_bounds_is_changed(rt: HostRuntime) {
    let most = usize::MAX;
    let wanted = ["1011111101", "1000011101", "1000111101"];
    check_row(&rt, (Excluded(1), Included(4)), wanted);
    let wanted = ["1011011101", "1011011100", "1011011100"];
    check_row(&rt, (Excluded(8), Excluded(most)), wanted);
    let wanted = ["1111111111", "1000000000", "1100100010"];
    check_row(&rt, (Included(1), Unbounded), wanted);
    let wanted = ["1111011101", "0011011101", "0111011101"];
    check_row(&rt, (Unbounded, Excluded(2)), wanted);
    let wanted = ["1111111111", "0000000000", "0100100010"];
    check_row(&rt, (Unbounded, Included(most)), wanted);
    let kept = ["1011011101"; 3];
    check_row(&rt, (Excluded(most), Included(most)), kept);
    check_row(&rt, (Included(7), Excluded(3)), kept);
}

/// The Vob of these indices, or the position of the first one that was refused.
fn made_of(
    rt: &(impl Abort + AllocGlobal),
    len: usize,
    indices: &[usize],
) -> Result<Vob<u8>, usize> {
    match Vob::<u8>::from_indices(rt.alloc(), len, indices) {
        Ok(vob) => Ok(vob),
        Err(IndicesError::OutOfRange { position }) => Err(position),
        Err(IndicesError::Memory) => Err(usize::MAX),
    }
}

/// The indices of the true bits of the pattern that has its length as its seed, the last one first.
fn pattern_indices(rt: &(impl Abort + AllocGlobal), len: usize) -> Vec<usize> {
    let mut indices = Vec::new(rt.alloc());
    for index in (0..len).rev() {
        if pattern_bit(len, index) {
            indices.push(index).expect(rt, "memory");
        }
    }
    indices
}

/// The indices of such a pattern give the pattern back.
fn check_indices_of(rt: &(impl Abort + AllocGlobal), len: usize) {
    let made = made_of(rt, len, &pattern_indices(rt, len)).expect(rt, "a Vob");
    check_same(rt, &made, &pattern(rt, len, len));
}

#[test]
fn indices_give_a_vob_or_the_first_one_past_the_end(rt: HostRuntime) {
    let made = made_of(&rt, 10, &[9, 0, 9, 3]).expect(&rt, "a Vob");
    check_bits(&rt, &made, "1001000001");
    let none = made_of(&rt, 9, &[]).expect(&rt, "a Vob");
    check_same(&rt, &none, &filled::<u8>(&rt, false, 9));
    for (len, indices, position) in [
        (10, [9, 10, 11].as_slice(), 1),
        (0, &[0], 0),
        (3, &[0, 1, 2, usize::MAX, 3], 3),
        (9, &[0, 1, 2, 3, 9], 4),
        (9, &[0, 1, 2, 3, 4, 9, 5, 9], 5),
    ] {
        let refused = made_of(&rt, len, indices).err();
        same(&rt, "refused", len, refused, Some(position));
    }
    for len in 0..130 {
        check_indices_of(&rt, len);
    }
}
