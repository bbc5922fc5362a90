//! Walks over the indices of set bits and of unset bits: worked rows.
ghost use Rattle.std.specs.Iterator.{IsFinite};

use super::support::{at_each_block_type, filled, listed, push, same, vob_of, write};
use std::ops::Bound::{Excluded, Included, Unbounded};
use std::ops::{Bound, RangeBounds};
use std::process::Abort;
use vob::{End, IndexWalk, IterSetBits, IterUnsetBits, Vob, deal};
use vob_block::{Blocks, Kernel};

/// The bounds of a range.
pub type Bounds = (Bound<usize>, Bound<usize>);

/// The bounds of a range of all indices.
pub const ALL: Bounds = (Unbounded, Unbounded);

/// The indices of the bits of one value within a range.
pub fn indices_of<T: Kernel>(
    rt: &(impl Abort + AllocGlobal),
    vob: &Vob<T>,
    value: bool,
    range: Bounds,
) -> Vec<usize> {
    if value {
        listed(rt, vob.iter_set_bits(range))
    } else {
        listed(rt, vob.iter_unset_bits(range))
    }
}

/// All that a walk over indices gives, the last one first.
fn listed_back<W: DoubleEndedIterator<Item = usize>>(
    rt: &(impl Abort + AllocGlobal),
    walk: W,
) -> Vec<usize>
    requires ends { W.can_next_back walk × IsFinite (W.remaining walk) }
{
    listed(rt, walk.rev())
}

/// The same indices, the last one first.
fn indices_back<T: Kernel>(
    rt: &(impl Abort + AllocGlobal),
    vob: &Vob<T>,
    value: bool,
    range: Bounds,
) -> Vec<usize> {
    if value {
        listed_back(rt, vob.iter_set_bits(range))
    } else {
        listed_back(rt, vob.iter_unset_bits(range))
    }
}

/// Compares the indices of the bits of one value within a range, from the front and from the back.
fn check_indices<T: Kernel>(
    rt: &(impl Abort + AllocGlobal),
    vob: &Vob<T>,
    value: bool,
    range: Bounds,
    indices: &[usize],
) {
    let forth = indices_of(rt, vob, value, range);
    same(rt, "from the front", 0, forth.as_slice(), indices);
    let mut back = indices_back(rt, vob, value, range);
    back.reverse();
    same(rt, "the last one first", 0, back.as_slice(), indices);
}

/// Compares what pulls at a walk give, as text: F is a pull at the front, and any other letter one
/// at the back.
pub fn check_pulls<W: IndexWalk>(
    rt: &(impl Abort + AllocGlobal),
    walk: &mut W,
    letters: &str,
    wanted: &str,
) {
    let mut pulls = Vec::new(rt.alloc());
    for letter in letters.as_bytes() {
        let end = if *letter == b'F' {
            End::Front
        } else {
            End::Back
        };
        pulls.push(end).expect(rt, "memory");
    }
    let mut answers = Vec::new(rt.alloc());
    deal(walk, &pulls, &mut answers).expect(rt, "memory");
    same(rt, letters, 0, text_of(rt, &answers).as_str(), wanted);
}

/// What a walk gave as text, as in `0 9 none`.
fn text_of(rt: &(impl Abort + AllocGlobal), answers: &[Option<usize>]) -> String {
    let mut text = String::new(rt.alloc());
    for answer in answers {
        let gap = if text.is_empty() { "" } else { " " };
        let written = match answer {
            Some(index) => write!(text, "{gap}{index}"),
            None => write!(text, "{gap}none"),
        };
        written.expect(rt, "memory");
    }
    text
}

/// Compares what pulls give at a walk over the bits of one value within a range.
fn check_walk<T: Kernel, R: RangeBounds<usize>>(
    rt: &(impl Abort + AllocGlobal),
    vob: &Vob<T>,
    (value, range): (bool, R),
    letters: &str,
    wanted: &str,
) {
    if value {
        check_pulls(rt, &mut vob.iter_set_bits(range), letters, wanted);
    } else {
        check_pulls(rt, &mut vob.iter_unset_bits(range), letters, wanted);
    }
}

/// Ten bits, joined of two parts, whose walks are pulled at from both ends in turn.
fn check_turns<T: Kernel>(rt: &(impl Abort + AllocGlobal)) {
    let mut ten = vob_of::<T>(rt, "10110");
    ten.extend_from_vob(&vob_of(rt, "11101"))
        .expect(rt, "memory");
    check_walk(rt, &ten, (true, ..), "FBFBFBFB", "0 9 2 7 3 6 5 none");
    check_walk(rt, &ten, (false, ..), "BFBF", "8 1 4 none");
}

#[test]
fn both_ends_meet_in_the_middle(rt: HostRuntime) {
    at_each_block_type!(check_turns(&rt));
}

#[test]
fn answers_come_behind_those_of_earlier_deals(rt: HostRuntime) {
    let three = vob_of::<usize>(&rt, "111");
    let mut walk = three.iter_set_bits(..);
    let mut answers = Vec::new(rt.alloc());
    answers.push(Some(9)).expect(&rt, "memory");
    deal(&mut walk, &[End::Back], &mut answers).expect(&rt, "memory");
    deal(&mut walk, &[], &mut answers).expect(&rt, "memory");
    deal(&mut walk, &[End::Front; 3], &mut answers).expect(&rt, "memory");
    let text = text_of(&rt, &answers);
    same(&rt, "of 9 and three bits", 0, text.as_str(), "9 2 0 1 none");
}

/// What a walk gives at the front, at the front and at the back.
fn three_items(walk: &mut IterSetBits<'_, u8>) -> [Option<usize>; 3] {
    [walk.next(), walk.next(), walk.next_back()]
}

/// A walk of a Vob without a match gives None, again and from both ends.
fn check_nothing(rt: &(impl Abort + AllocGlobal), len: usize) {
    let vob = filled::<u8>(rt, false, len);
    let mut walk = vob.iter_set_bits(..);
    same(rt, "hint at false bits", len, walk.size_hint(), (0, None));
    same(rt, "false bits", len, three_items(&mut walk), [None; 3]);
    check_walk(rt, &vob, (true, ..), "BF", "none none");
    let room = indices_of(rt, &vob, true, ALL).capacity();
    same(rt, "no memory for none of the bits", len, room, 0);
}

#[test]
fn a_walk_at_its_end_stays_there(rt: HostRuntime) {
    for len in [0, 1, 24, 100, 256] {
        check_nothing(&rt, len);
    }
    let empty = Vob::new(rt.alloc());
    check_walk(&rt, &empty, (false, ..), "FB", "none none");
    let zeros = vob_of::<usize>(&rt, "000");
    check_walk(&rt, &zeros, (false, ..), "FFFFB", "0 1 2 none none");
    let one = vob_of::<usize>(&rt, "1");
    check_walk(&rt, &one, (true, ..), "FFF", "0 none none");
    let zero = vob_of::<usize>(&rt, "0");
    check_walk(&rt, &zero, (false, ..), "FFF", "0 none none");
}

#[test]
fn blocks_are_walked_up_to_a_length(rt: HostRuntime) {
    // The last true place lies past the length.
    let blocks = [13u8];
    let mut set = IterSetBits::over(Blocks::new(&blocks), 3, ..);
    check_pulls(&rt, &mut set, "FFF", "0 2 none");
    let mut unset = IterUnsetBits::over(Blocks::new(&blocks), 3, ..);
    check_pulls(&rt, &mut unset, "FF", "1 none");
    let mut back = IterSetBits::over(Blocks::new(&blocks), 3, ..);
    check_pulls(&rt, &mut back, "B", "2");
}

/// As many bits of one value as `len`, whose walk gives all indices.
fn check_all(rt: &(impl Abort + AllocGlobal), value: bool, len: usize) {
    let vob = filled::<u8>(rt, value, len);
    let indices = listed(rt, 0..len);
    check_indices(rt, &vob, value, ALL, &indices);
    check_indices(rt, &vob, !value, ALL, &[]);
}

#[test]
fn bits_of_one_value_are_all_found(rt: HostRuntime) {
    for value in [false, true] {
        check_all(&rt, value, 24);
        check_all(&rt, value, 131);
    }
    let mut three = vob_of::<usize>(&rt, "010");
    same(&rt, "bit", 2, write(&mut three, 2, true), Some(true));
    check_indices(&rt, &three, true, ALL, &[1, 2]);
    check_indices(&rt, &three, false, ALL, &[0]);
}

/// A range, and the indices of the set bits and of the unset bits within it.
type Row = (Bounds, &'static [usize], &'static [usize]);

/// Extreme bounds, of `101`.
const EXTREMES: [Row; 10] = [
    ((Excluded(0), Included(2)), &[2], &[1]),
    ((Excluded(1), Excluded(1)), &[], &[]),
    ((Excluded(usize::MAX), Excluded(0)), &[], &[]),
    ((Included(usize::MAX), Included(usize::MAX)), &[], &[]),
    ((Excluded(usize::MAX), Unbounded), &[], &[]),
    ((Included(3), Excluded(1)), &[], &[]),
    ((Unbounded, Included(usize::MAX)), &[0, 2], &[1]),
    ((Unbounded, Excluded(usize::MAX)), &[0, 2], &[1]),
    ((Included(0), Excluded(0)), &[], &[]),
    ((Included(2), Included(2)), &[2], &[]),
];

/// 257 bits of which few have the value `wanted`, in blocks far from one another.
fn far_apart<T: Kernel>(rt: &(impl Abort + AllocGlobal), wanted: bool) -> Vob<T> {
    let mut vob = vob_of::<T>(rt, if wanted { "0101" } else { "0100" });
    vob.resize(127, !wanted).expect(rt, "memory");
    push(rt, &mut vob, wanted);
    push(rt, &mut vob, !wanted);
    push(rt, &mut vob, wanted);
    push(rt, &mut vob, wanted);
    vob.resize(256, !wanted).expect(rt, "memory");
    push(rt, &mut vob, wanted);
    same(rt, "the length", 257, vob.len(), 257);
    vob
}

/// Ranges over bits that are far apart.
#[rattlefmt::skip]
const FAR: [Row; 7] = [
    (ALL, &[1, 3, 127, 129, 130, 256], &[0, 2, 3, 127, 129, 130, 256]),
    ((Included(2), Excluded(257)), &[3, 127, 129, 130, 256], &[2, 3, 127, 129, 130, 256]),
    ((Included(2), Unbounded), &[3, 127, 129, 130, 256], &[2, 3, 127, 129, 130, 256]),
    ((Included(2), Excluded(256)), &[3, 127, 129, 130], &[2, 3, 127, 129, 130]),
    ((Included(1), Excluded(255)), &[1, 3, 127, 129, 130], &[2, 3, 127, 129, 130]),
    ((Unbounded, Excluded(3)), &[1], &[0, 2]),
    ((Included(128), Unbounded), &[129, 130, 256], &[129, 130, 256]),
];

/// Extreme bounds, and ranges over bits that are far apart: blocks without a match are passed.
fn check_bounds<T: Kernel>(rt: &(impl Abort + AllocGlobal)) {
    let vob = vob_of::<T>(rt, "101");
    let (sets, unsets) = (far_apart::<T>(rt, true), far_apart::<T>(rt, false));
    for (range, set, unset) in &EXTREMES {
        check_indices(rt, &vob, true, *range, set);
        check_indices(rt, &vob, false, *range, unset);
    }
    for (range, set, unset) in &FAR {
        check_indices(rt, &sets, true, *range, set);
        check_indices(rt, &unsets, false, *range, unset);
    }
}

#[test]
fn every_form_of_range_is_accepted(rt: HostRuntime) {
    let two = vob_of::<usize>(&rt, "10");
    check_walk(&rt, &two, (false, 0..1), "F", "none");
    let three = vob_of::<usize>(&rt, "101");
    check_walk(&rt, &three, (true, ..=usize::MAX), "FFF", "0 2 none");
    check_walk(&rt, &three, (true, 1..), "F", "2");
    check_walk(&rt, &three, (true, 0..=0), "B", "0");
    let four = vob_of::<usize>(&rt, "0100");
    let past = listed(&rt, four.iter_unset_bits(..10));
    same(&rt, "past the length", 0, past.as_slice(), &[0, 2, 3]);
    // A range that ends before its start gives nothing.
    check_walk(&rt, &three, (false, 3..1), "F", "none");
    check_walk(&rt, &three, (true, 3..1), "B", "none");
    // Every pair of bounds is accepted.
    at_each_block_type!(check_bounds(&rt));
}
