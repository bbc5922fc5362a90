//! Calls that make a Vob: refused, they say so and leave what they were given.
use crate::tests::support::{FIRST, Hinted, bytes_of, check_blocks, request, same, tell};
use std::alloc::AllocError;
use std::process::Abort;
use vob::{Vob, VobError};
use vob_block::Kernel;

/// Whether a Vob was made, which then has this length and these blocks. If not, there was no memory.
fn is_made<T: Kernel, E: Into<VobError> + Drop>(
    rt: &impl Abort,
    answer: Result<Vob<T>, E>,
    len: usize,
    blocks: &[T],
) -> bool {
    match answer {
        Ok(vob) => {
            check_blocks(rt, &vob, len, blocks);
            true
        }
        Err(refusal) => {
            same(rt, "the refusal", 0, refusal.into(), VobError::Memory);
            false
        }
    }
}

/// Whether a Vob was made, which then has no bits and this room. If not, there was no memory.
fn has_room<T: Kernel>(rt: &impl Abort, answer: Result<Vob<T>, AllocError>, room: usize) -> bool {
    let Ok(vob) = answer else {
        return false;
    };
    check_blocks(rt, &vob, 0, &[]);
    same(rt, "the room", 0, vob.capacity() >= room, true);
    true
}

#[test]
fn room_is_made_or_refused(rt: HostRuntime) {
    request(&rt, FIRST);
    let words = Vob::with_capacity(rt.alloc(), 65);
    let words = has_room(&rt, words, 65);
    let bytes = Vob::<u8>::new_with_storage_type(rt.alloc(), 9);
    let bytes = has_room(&rt, bytes, 9);
    tell(&rt, words && bytes);
}

#[test]
fn repeated_bits_are_made_or_refused(rt: HostRuntime) {
    request(&rt, FIRST);
    let words = Vob::from_elem(rt.alloc(), true, 65);
    let words = is_made(&rt, words, 65, &[usize::MAX, 1]);
    let bytes = Vob::<u8>::from_elem_with_storage_type(rt.alloc(), true, 9);
    let bytes = is_made(&rt, bytes, 9, &[255, 1]);
    tell(&rt, words && bytes);
}

#[test]
fn listed_bits_are_made_or_refused(rt: HostRuntime) {
    request(&rt, FIRST);
    let listed = Vob::from_slice(rt.alloc(), &[true, true, false]);
    let listed = is_made(&rt, listed, 3, &[3]);
    let bytes = Vob::from_bytes(rt.alloc(), &[0b1010_0000]);
    let bytes = is_made(&rt, bytes, 8, &[5]);
    let items = Vob::from_iter(rt.alloc(), [true, true, false]);
    let items = is_made(&rt, items, 3, &[3]);
    tell(&rt, listed && bytes && items);
}

#[test]
fn items_without_a_hint_are_made_or_refused(rt: HostRuntime) {
    request(&rt, FIRST);
    let rest = &[true, true, false];
    let made = Vob::from_iter(rt.alloc(), Hinted { rest, lower: 0 });
    tell(&rt, is_made(&rt, made, 3, &[3]));
}

#[test]
fn a_slice_and_a_difference_are_made_or_refused(rt: HostRuntime) {
    request(&rt, FIRST);
    let Ok(vob) = bytes_of(rt.alloc(), "1011011101") else {
        return;
    };
    let slice = is_made(&rt, vob.slice(2..), 8, &[187]);
    let difference = is_made(&rt, &vob - &vob, 10, &[0, 0]);
    tell(&rt, slice && difference);
    check_blocks(&rt, &vob, 10, &[237, 2]);
}

#[test]
fn a_copy_is_made_or_refused(rt: HostRuntime) {
    request(&rt, FIRST);
    let Ok(vob) = bytes_of(rt.alloc(), "110000001") else {
        return;
    };
    let copy = is_made(&rt, vob.clone(), 9, &[3, 1]);
    check_blocks(&rt, &vob, 9, &[3, 1]);
    tell(&rt, copy);
}

/// Whether ten bits were cut in two. If not, they are as they were.
fn is_cut(rt: &impl Abort, vob: &mut Vob<u8>) -> bool {
    if is_made(rt, vob.split_off(5), 5, &[23]) {
        check_blocks(rt, vob, 5, &[13]);
        true
    } else {
        check_blocks(rt, vob, 10, &[237, 2]);
        false
    }
}

#[test]
fn a_cut_that_is_refused_leaves_all_bits(rt: HostRuntime) {
    request(&rt, FIRST);
    let Ok(mut vob) = bytes_of(rt.alloc(), "1011011101") else {
        return;
    };
    tell(&rt, is_cut(&rt, &mut vob));
}

/// Whether bits were drained from among ten. If not, they are as they were.
fn is_drained(rt: &impl Abort, vob: &mut Vob<u8>) -> bool {
    if is_made(rt, vob.drain(2..5), 3, &[3]) {
        check_blocks(rt, vob, 7, &[93]);
        true
    } else {
        check_blocks(rt, vob, 10, &[237, 2]);
        false
    }
}

#[test]
fn a_drain_that_is_refused_leaves_all_bits(rt: HostRuntime) {
    request(&rt, FIRST);
    let Ok(mut vob) = bytes_of(rt.alloc(), "1011011101") else {
        return;
    };
    tell(&rt, is_drained(&rt, &mut vob));
}

/// Whether each operator on two references made a Vob.
fn are_combined(rt: &impl Abort, one: &Vob<u8>, two: &Vob<u8>) -> bool {
    assert!(rt; one.len() == two.len());
    let both = is_made(rt, one & two, 3, &[1]);
    let either = is_made(rt, one | two, 3, &[7]);
    let differing = is_made(rt, one ^ two, 3, &[6]);
    both && either && differing
}

/// Whether the operators on `101` and `110` succeeded, after `behind` requests.
fn are_operators_answered(rt: &(impl Abort + AllocGlobal), behind: usize) -> bool {
    request(rt, behind);
    let Ok(one) = bytes_of(rt.alloc(), "101") else {
        return false;
    };
    let Ok(two) = bytes_of(rt.alloc(), "110") else {
        return false;
    };
    let combined = are_combined(rt, &one, &two);
    check_blocks(rt, &one, 3, &[5]);
    check_blocks(rt, &two, 3, &[3]);
    combined
}

#[test]
fn operators_make_a_vob_or_are_refused(rt: HostRuntime) {
    tell(&rt, are_operators_answered(&rt, FIRST));
}

#[test]
fn hinted_items_are_made_by_one_request(rt: HostRuntime) {
    request(&rt, FIRST);
    let all = usize::MAX;
    // No fewer items tell: the first of these blocks would come with room for four.
    let blocks = [all, all, all, all, 1];
    let made = Vob::from_iter(rt.alloc(), [true; 257]);
    tell(&rt, is_made(&rt, made, 257, &blocks));
}
