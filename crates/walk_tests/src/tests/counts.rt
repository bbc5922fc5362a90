//! Counts: of the items that a walk has left, and of the true places of blocks.
ghost use Rattle.std.specs.Prelude.{◌≡◌, ◌+◌, ◌∷◌, []};

use super::support::{filled, listed, pattern, same, vob_of, write};
use super::walks::indices_of;
use std::mem::size_of;
use std::ops::Bound::{Excluded, Included, Unbounded};
use std::ops::RangeBounds;
use std::process::Abort;
use vob::{Vob, count_ones_in};
use vob_block::Blocks;

/// The count of a walk over the bits of one value within a range.
fn count_of<R: RangeBounds<usize>>(vob: &Vob<u8>, value: bool, range: R) -> usize {
    if value {
        vob.iter_set_bits(range).count()
    } else {
        vob.iter_unset_bits(range).count()
    }
}

#[test]
fn what_is_left_is_counted(rt: HostRuntime) {
    // Nothing is left after the last index.
    let two = vob_of::<u8>(&rt, "10");
    let mut walk = two.iter_unset_bits(0..1);
    same(&rt, "of one bit", 0, walk.next(), None);
    same(&rt, "left of one bit", 0, walk.count(), 0);
    // A range that ends before its start holds nothing.
    let three = vob_of::<u8>(&rt, "101");
    let none = (Excluded(1), Excluded(1));
    for value in [false, true] {
        same(&rt, "3..1", 0, count_of(&three, value, 3..1), 0);
        same(&rt, "between 1 and 1", 0, count_of(&three, value, none), 0);
    }
    // The bits that both have.
    let mut one = filled::<u8>(&rt, false, 256);
    let mut other = filled::<u8>(&rt, false, 256);
    for index in [67, 188] {
        same(&rt, "set", index, write(&mut one, index, true), Some(true));
    }
    same(&rt, "set", 67, write(&mut other, 67, true), Some(true));
    assert!(rt; one.len() == other.len());
    same(&rt, "and", 256, one.and(&other), true);
    same(&rt, "both", 256, count_of(&one, true, ..), 1);
}

/// From index 3 to below 10: five true places, in two reads.
fn count_across_two_blocks(blocks: &mut Blocks<'_, u8>) -> usize
    requires { blocks.old.items ≡ 237 ∷ 2 ∷ [] }
    ensures ones { result ≡ 5 }
    ensures reads { blocks.new.reads ≡ blocks.old.reads + 2 }
    ensures items { blocks.new.items ≡ blocks.old.items }
{
    count_ones_in(blocks, 3, 10)
}

/// From index 0 to below 8: six, in one read.
fn count_in_one_block(blocks: &mut Blocks<'_, u8>) -> usize
    requires { blocks.old.items ≡ 237 ∷ 2 ∷ [] }
    ensures ones { result ≡ 6 }
    ensures reads { blocks.new.reads ≡ blocks.old.reads + 1 }
    ensures items { blocks.new.items ≡ blocks.old.items }
{
    count_ones_in(blocks, 0, 8)
}

/// From index 8 to below 8: none, without a read.
fn count_in_no_block(blocks: &mut Blocks<'_, u8>) -> usize
    requires { blocks.old.items ≡ 237 ∷ 2 ∷ [] }
    ensures ones { result ≡ 0 }
    ensures reads { blocks.new.reads ≡ blocks.old.reads }
    ensures items { blocks.new.items ≡ blocks.old.items }
{
    count_ones_in(blocks, 8, 8)
}

#[test]
fn each_block_of_a_window_is_read_once(rt: HostRuntime) {
    let stored = [237, 2];
    let mut blocks = Blocks::new(&stored);
    let ones = count_across_two_blocks(&mut blocks);
    same(&rt, "from 3 to 10", 0, ones, 5);
    let ones = count_in_one_block(&mut blocks);
    same(&rt, "from 0 to 8", 0, ones, 6);
    let ones = count_in_no_block(&mut blocks);
    same(&rt, "from 8 to 8", 0, ones, 0);
    // That reads are counted takes no memory.
    let slice = size_of::<&[u8]>();
    same(&rt, "size", 8, size_of::<Blocks<'_, u8>>(), slice);
    same(&rt, "size", 128, size_of::<Blocks<'_, u128>>(), slice);
}

/// Counts from one bound to each further one, against how many indices below it `next` gives.
fn check_counts_from(rt: &(impl Abort + AllocGlobal), vob: &Vob<u8>, value: bool, from: usize) {
    let indices = indices_of(rt, vob, value, (Included(from), Unbounded));
    let mut given = 0usize;
    for to in from..=vob.len() {
        let count = count_of(vob, value, from..to);
        same(rt, "bits from any index to", to, count, given);
        if indices.get(given) == Some(&to) {
            given = given.saturating_add(1);
        }
    }
}

/// All four walks of a pattern, the two over indices between each two bounds.
fn check_counts(rt: &(impl Abort + AllocGlobal), vob: &Vob<u8>) {
    let len = vob.len();
    let bits = listed(rt, vob.iter()).len();
    same(rt, "bits", len, vob.iter().count(), bits);
    let blocks = listed(rt, vob.iter_storage()).len();
    same(rt, "blocks", len, vob.iter_storage().count(), blocks);
    for from in 0..=len {
        check_counts_from(rt, vob, true, from);
        check_counts_from(rt, vob, false, from);
    }
}

#[test]
fn a_count_is_what_next_gives(rt: HostRuntime) {
    for seed in 0..3 {
        for len in 0..128 {
            check_counts(&rt, &pattern::<u8>(&rt, seed, len));
        }
    }
}

/// Counts the set bits that are left after pulls at the front and then at the back.
fn set_left(vob: &Vob<u8>, front: usize, back: usize) -> usize {
    let mut walk = vob.iter_set_bits(..);
    for _ in 0..front {
        walk.next();
    }
    for _ in 0..back {
        walk.next_back();
    }
    walk.count()
}

/// Counts the unset bits that are left after pulls at the front and then at the back.
fn unset_left(vob: &Vob<u8>, front: usize, back: usize) -> usize {
    let mut walk = vob.iter_unset_bits(..);
    for _ in 0..front {
        walk.next();
    }
    for _ in 0..back {
        walk.next_back();
    }
    walk.count()
}

/// Both walks over the indices of pattern 0, after pulls at the front and then at the back. The
/// numbers are those of its bits, of the set ones and of the unset ones.
fn check_counts_after(
    rt: &(impl Abort + AllocGlobal),
    (len, set, unset): (usize, usize, usize),
    front: usize,
    back: usize,
) {
    let vob = pattern::<u8>(rt, 0, len);
    let pulled = front.saturating_add(back);
    let found = set_left(&vob, front, back);
    let left = set.saturating_sub(pulled);
    same(rt, "set bits left of", len, found, left);
    let found = unset_left(&vob, front, back);
    let left = unset.saturating_sub(pulled);
    same(rt, "unset bits left of", len, found, left);
}

#[test]
fn pulls_at_both_ends_lower_the_count(rt: HostRuntime) {
    // Of each five bits the third and the fourth are unset.
    for row in [
        (0, 0, 0),
        (1, 1, 0),
        (8, 5, 3),
        (24, 14, 10),
        (70, 42, 28),
        (200, 120, 80),
    ] {
        for front in [0, 1, 2, 5, 40, 100] {
            for back in [0, 1, 3, 6, 100] {
                check_counts_after(&rt, row, front, back);
            }
        }
    }
}
