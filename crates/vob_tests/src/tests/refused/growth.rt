//! Calls that make room for more bits: if refused, they leave the bits and the blocks.
use crate::tests::support::{FIRST, Hinted, bytes_of, check_blocks, request, same, tell};
use std::process::Abort;
use vob::{Vob, VobError};

/// Adds a true bit, for which there is room.
fn push(rt: &impl Abort, vob: &mut Vob<u8>) {
    same(rt, "a push", 0, vob.push(true), Ok(()));
}

/// Whether `101` was grown by true bits to this length. If not, there was no memory, and it is as it
/// was.
fn is_grown(rt: &impl Abort, answer: Result<(), VobError>, vob: &Vob<u8>, len: usize) -> bool {
    if answer.is_ok() {
        same(rt, "the length", 0, vob.len(), len);
        same(
            rt,
            "the blocks",
            0,
            vob.get_storage().len(),
            len.div_ceil(8),
        );
        let mut unset = vob.iter_unset_bits(..);
        same(rt, "the unset bit", 0, unset.next(), Some(1));
        same(rt, "another one", 0, unset.next(), None);
        return true;
    }
    same(rt, "the answer", 0, answer, Err(VobError::Memory));
    check_blocks(rt, vob, 3, &[5]);
    false
}

/// Pushes true bits up to the capacity, which is returned.
fn fill(rt: &impl Abort, vob: &mut Vob<u8>) -> usize {
    for _ in vob.len()..vob.capacity() {
        push(rt, vob);
    }
    same(rt, "the capacity", 0, vob.capacity(), vob.len());
    vob.len()
}

/// Compares the first `full` bits, a number of whole blocks, which are all true.
fn check_full(rt: &impl Abort, vob: &Vob<u8>, full: usize) {
    for block in vob.get_storage().iter().take(full / 8) {
        same(rt, "a block", 0, *block, 255);
    }
}

/// A push after as many true bits as the capacity.
fn is_pushed(rt: &impl Abort, vob: &mut Vob<u8>) -> bool {
    let full = fill(rt, vob);
    let answer = vob.push(true);
    check_full(rt, vob, full);
    if answer.is_ok() {
        return true;
    }
    same(rt, "the answer", 0, answer, Err(VobError::Memory));
    same(rt, "the length", 0, vob.len(), full);
    same(rt, "the blocks", 0, vob.get_storage().len(), full / 8);
    false
}

#[test]
fn a_push_asks_for_memory_only_at_the_capacity(rt: HostRuntime) {
    request(&rt, FIRST);
    let Ok(mut vob) = bytes_of(rt.alloc(), "11111111") else {
        return;
    };
    same(&rt, "the last bit", 0, vob.pop(), Some(true));
    push(&rt, &mut vob);
    check_blocks(&rt, &vob, 8, &[255]);
    tell(&rt, is_pushed(&rt, &mut vob));
}

/// An insertion among as many true bits as the capacity.
fn is_inserted(rt: &impl Abort, vob: &mut Vob<u8>) -> bool {
    let full = fill(rt, vob);
    if vob.is_empty() {
        return false;
    }
    let answer = vob.insert_bit(1, false);
    if answer.is_ok() {
        same(rt, "the bit", 0, vob.get(1), Some(false));
        same(rt, "the set bits", 0, vob.count_ones(), full);
        return true;
    }
    same(rt, "the answer", 0, answer, Err(VobError::Memory));
    same(rt, "the length", 0, vob.len(), full);
    check_full(rt, vob, full);
    false
}

#[test]
fn an_insertion_asks_for_memory_only_at_the_capacity(rt: HostRuntime) {
    request(&rt, FIRST);
    let Ok(mut vob) = bytes_of(rt.alloc(), "11111111") else {
        return;
    };
    tell(&rt, is_inserted(&rt, &mut vob));
}

#[test]
fn an_index_past_the_end_that_is_refused_leaves_all_bits(rt: HostRuntime) {
    request(&rt, FIRST);
    let Ok(mut vob) = bytes_of(rt.alloc(), "101") else {
        return;
    };
    let answer = vob.grow_and_set(999);
    if answer.is_ok() {
        same(&rt, "the last bit", 0, vob.last_set(), Some(999));
        same(&rt, "the set bits", 0, vob.count_ones(), 3);
        tell(&rt, true);
        return;
    }
    same(&rt, "the answer", 0, answer, Err(VobError::Memory));
    check_blocks(&rt, &vob, 3, &[5]);
}

/// Joins `11111` to `111`.
fn join_five(rt: &impl Abort, vob: &mut Vob<u8>, five: &Vob<u8>) {
    for _ in 0..3 {
        push(rt, vob);
    }
    same(rt, "a join", 0, vob.extend_from_vob(five), Ok(()));
    check_blocks(rt, vob, 8, &[255]);
}

#[test]
fn a_join_within_the_capacity_takes_no_memory(rt: HostRuntime) {
    request(&rt, FIRST);
    let Ok(mut vob) = Vob::<u8>::new_with_storage_type(rt.alloc(), 8) else {
        return;
    };
    let Ok(five) = bytes_of(rt.alloc(), "11111") else {
        return;
    };
    join_five(&rt, &mut vob, &five);
    tell(&rt, true);
}

#[test]
fn a_join_that_is_refused_leaves_all_bits(rt: HostRuntime) {
    request(&rt, FIRST);
    let Ok(mut vob) = bytes_of(rt.alloc(), "101") else {
        return;
    };
    let Ok(many) = Vob::<u8>::from_elem_with_storage_type(rt.alloc(), true, 999) else {
        return;
    };
    let answer = vob.extend_from_vob(&many);
    tell(&rt, is_grown(&rt, answer, &vob, 1002));
}

/// Whether the room after `101`, for 999 bits, is given back.
fn is_shrunk(rt: &impl Abort, vob: &mut Vob<u8>) -> bool {
    check_blocks(rt, vob, 3, &[5]);
    let room = vob.capacity();
    same(rt, "room for 999 bits more", 0, room >= 1002, true);
    vob.shrink_to_fit();
    check_blocks(rt, vob, 3, &[5]);
    vob.capacity() < room
}

#[test]
fn room_that_is_refused_leaves_all_bits(rt: HostRuntime) {
    request(&rt, FIRST);
    let Ok(mut vob) = bytes_of(rt.alloc(), "101") else {
        return;
    };
    let answer = vob.reserve(999);
    let grown = is_grown(&rt, answer, &vob, 3);
    tell(&rt, grown && is_shrunk(&rt, &mut vob));
}

#[test]
fn equal_bits_that_are_refused_leave_all_bits(rt: HostRuntime) {
    request(&rt, FIRST);
    let Ok(mut vob) = bytes_of(rt.alloc(), "101") else {
        return;
    };
    let answer = vob.resize(999, true);
    tell(&rt, is_grown(&rt, answer, &vob, 999));
}

#[test]
fn a_slice_that_is_refused_leaves_all_bits(rt: HostRuntime) {
    request(&rt, FIRST);
    let Ok(mut vob) = bytes_of(rt.alloc(), "101") else {
        return;
    };
    let answer = vob.extend_from_slice(&[true; 99]);
    tell(&rt, is_grown(&rt, answer, &vob, 102));
}

/// Whether `110` was joined to eight true bits. If not, a prefix of it was.
fn is_extended(rt: &impl Abort, answer: Result<(), VobError>, vob: &Vob<u8>) -> bool {
    if answer.is_ok() {
        check_blocks(rt, vob, 11, &[255, 3]);
        return true;
    }
    same(rt, "the answer", 0, answer, Err(VobError::Memory));
    check_blocks(rt, vob, 8, &[255]);
    false
}

#[test]
fn an_item_that_is_refused_leaves_those_before_it(rt: HostRuntime) {
    request(&rt, FIRST);
    let Ok(mut vob) = Vob::<u8>::new_with_storage_type(rt.alloc(), 8) else {
        return;
    };
    for _ in 0..8 {
        push(&rt, &mut vob);
    }
    let rest = &[true, true, false];
    let answer = vob.extend(Hinted { rest, lower: 0 });
    tell(&rt, is_extended(&rt, answer, &vob));
}

#[test]
fn hinted_items_are_added_by_one_request(rt: HostRuntime) {
    // The request for the Vob is the last that isn't refused.
    request(&rt, FIRST - 1);
    let Ok(mut vob) = bytes_of(rt.alloc(), "101") else {
        return;
    };
    // No fewer items tell: the first block comes with room for eight, and a second request makes 16.
    let answer = vob.extend([true; 126]);
    tell(&rt, is_grown(&rt, answer, &vob, 129));
}
