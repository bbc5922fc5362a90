//! Calls that take no memory: no refusal reaches them.
use crate::tests::support::{FIRST, bytes_of, check_blocks, request, same, same_list, tell};
use std::alloc::AllocError;
use std::fmt::Debug;
use std::hash::{DefaultHasher, Hash, Hasher};
use std::process::Abort;
use vob::{RawVob, Vob, VobError};
use vob_block::Kernel;

/// A Vob that is made without bits, and without room.
fn check_empty<T: Kernel, E: Debug + Drop>(rt: &impl Abort, made: Result<Vob<T>, E>) {
    let vob = made.expect(rt, "no memory is asked for");
    check_blocks(rt, &vob, 0, &[]);
    same(rt, "the capacity", 0, vob.capacity(), 0);
}

#[test]
fn no_bits_take_no_memory(rt: HostRuntime) {
    request(&rt, FIRST);
    let alloc = rt.alloc();
    check_empty(&rt, Vob::new(alloc).clone());
    check_empty(&rt, Vob::with_capacity(alloc, 0));
    check_empty(&rt, Vob::<u8>::new_with_storage_type(alloc, 0));
    check_empty(&rt, Vob::from_elem(alloc, true, 0));
    let bytes = Vob::<u8>::from_elem_with_storage_type(alloc, true, 0);
    check_empty(&rt, bytes);
    check_empty(&rt, Vob::from_slice(alloc, &[]));
    check_empty(&rt, Vob::from_bytes(alloc, &[]));
    check_empty(&rt, Vob::from_le_bytes(alloc, &[]));
    check_empty(&rt, Vob::from_iter(alloc, None));
    tell(&rt, true);
}

#[test]
fn refusals_take_no_memory(rt: HostRuntime) {
    request(&rt, FIRST);
    same(&rt, "its number", 0, VobError::Memory.number(), 2);
    same(
        &rt,
        "its name",
        0,
        VobError::from(AllocError),
        VobError::Memory,
    );
    tell(&rt, true);
}

/// Writes the first two bits of `101`.
fn check_writes(rt: &impl Abort, vob: &mut Vob<u8>) {
    assert!(rt; vob.len() == 3);
    same(rt, "set", 0, vob.set(1, true), true);
    same(rt, "set_unchecked", 0, vob.set_unchecked(0, false), true);
    same(rt, "get_unchecked", 0, vob.get_unchecked(1), true);
    same(rt, "an index", 0, vob[2], true);
}

/// Reads `011` by its walks, and past its end.
fn check_reads(rt: &impl Abort, vob: &Vob<u8>) {
    same(rt, "empty", 0, vob.is_empty(), false);
    same(rt, "past the end", 0, vob.get(3), None);
    same(rt, "room for it", 0, vob.capacity() >= 3, true);
    same(rt, "the bits", 0, vob.iter().len(), 3);
    same(rt, "the first bit", 0, vob.iter().next(), Some(false));
    same(rt, "the last bit", 0, vob.iter().next_back(), Some(true));
    same(rt, "the first block", 0, vob.iter_storage().next(), Some(6));
    same(rt, "the blocks", 0, vob.blocks().len(), 1);
    check_blocks(rt, vob, 3, &[6]);
}

#[test]
fn bits_are_read_and_written_in_place(rt: HostRuntime) {
    request(&rt, FIRST);
    let Ok(mut vob) = bytes_of(rt.alloc(), "101") else {
        return;
    };
    check_writes(&rt, &mut vob);
    check_reads(&rt, &vob);
    vob.truncate(2);
    same(&rt, "the last bit", 0, vob.pop(), Some(true));
    check_blocks(&rt, &vob, 1, &[0]);
    tell(&rt, true);
}

/// `or`, `xor` and `and` of `101` and `110`, in place.
fn check_combined(rt: &impl Abort, vob: &mut Vob<u8>, other: &Vob<u8>) {
    assert!(rt; vob.len() == other.len());
    same(rt, "or", 0, vob.or(other), true);
    check_blocks(rt, vob, 3, &[7]);
    assert!(rt; vob.len() == other.len());
    same(rt, "xor", 0, vob.xor(other), true);
    check_blocks(rt, vob, 3, &[4]);
    assert!(rt; vob.len() == other.len());
    same(rt, "and", 0, vob.and(other), true);
    check_blocks(rt, vob, 3, &[0]);
}

#[test]
fn bits_are_combined_in_place(rt: HostRuntime) {
    request(&rt, FIRST);
    let Ok(mut vob) = bytes_of(rt.alloc(), "101") else {
        return;
    };
    let Ok(other) = bytes_of(rt.alloc(), "110") else {
        return;
    };
    check_combined(&rt, &mut vob, &other);
    tell(&rt, true);
}

#[test]
fn bits_are_turned_in_place(rt: HostRuntime) {
    request(&rt, FIRST);
    let Ok(mut vob) = bytes_of(rt.alloc(), "110100000") else {
        return;
    };
    vob.reverse();
    check_blocks(&rt, &vob, 9, &[0b1010_0000, 1]);
    vob.rotate_left(6);
    check_blocks(&rt, &vob, 9, &[0b0000_0110, 1]);
    // which is 6 modulo 9
    vob.rotate_right(usize::MAX);
    check_blocks(&rt, &vob, 9, &[0b1010_0000, 1]);
    tell(&rt, true);
}

/// `or`, `and`, `xor` and `and_not` of false bits with others: `and` alone changes none here.
fn check_kernels(rt: &impl Abort, none: &mut Vob, other: &Vob) {
    assert!(rt; none.len() == other.len());
    same(rt, "or", 0, none.or(other), true);
    check_blocks(rt, none, other.len(), other.get_storage());
    assert!(rt; none.len() == other.len());
    same(rt, "and", 0, none.and(other), false);
    check_blocks(rt, none, other.len(), other.get_storage());
    assert!(rt; none.len() == other.len());
    same(rt, "xor", 0, none.xor(other), true);
    same(rt, "no bit", 0, none.first_set(), None);
    assert!(rt; none.len() == other.len());
    same(rt, "or", 0, none.or(other), true);
    assert!(rt; none.len() == other.len());
    same(rt, "and_not", 0, none.and_not(other), true);
    same(rt, "no bit", 0, none.first_set(), None);
}

#[test]
fn words_are_combined_in_place_by_lanes(rt: HostRuntime) {
    request(&rt, FIRST);
    let Ok(mut none) = Vob::from_elem(rt.alloc(), false, 64 * 530) else {
        return;
    };
    let Ok(mut other) = Vob::from_elem(rt.alloc(), true, 64 * 530) else {
        return;
    };
    // 530, 528, 513, 512, 511, 33, 32, 17, 16, 15 and 1 blocks: whole turns of 16, and some with a rest.
    for len in [
        33920, 33792, 32832, 32768, 32704, 2112, 2048, 1088, 1024, 960, 64,
    ] {
        none.truncate(len);
        other.truncate(len);
        if other.len() > 1 {
            other.set(1, false);
        }
        check_kernels(&rt, &mut none, &other);
    }
    tell(&rt, true);
}

/// Appends the blocks of another Vob, for which there is room.
fn append(vob: &mut Vob<u8>, other: &Vob<u8>) -> Result<(), VobError> {
    vob.reserve(other.len())?;
    vob.append_blocks(&mut other.blocks(), other.len());
    Ok(())
}

/// Refuses to cut `101` past its end, takes all its bits, and appends `110` to them.
fn check_moved(rt: &impl Abort, vob: &mut Vob<u8>, other: &Vob<u8>) {
    let refusal = vob.split_off(4).err();
    same(rt, "past the end", 0, refusal, Some(VobError::PastEnd));
    check_blocks(rt, vob, 3, &[5]);
    let none = vob.split_off(3).expect(rt, "no bits");
    check_blocks(rt, &none, 0, &[]);
    let drained = vob.drain(3..).expect(rt, "no bits");
    check_blocks(rt, &drained, 0, &[]);
    let mut all = vob.split_off(0).expect(rt, "all bits");
    check_blocks(rt, vob, 0, &[]);
    check_blocks(rt, &all, 3, &[5]);
    append(&mut all, other).expect(rt, "there is room");
    check_blocks(rt, &all, 6, &[29]);
}

#[test]
fn bits_move_in_the_room_that_there_is(rt: HostRuntime) {
    request(&rt, FIRST);
    let Ok(mut vob) = bytes_of(rt.alloc(), "101") else {
        return;
    };
    let Ok(other) = bytes_of(rt.alloc(), "110") else {
        return;
    };
    check_moved(&rt, &mut vob, &other);
    tell(&rt, true);
}

/// Adds no bits, and two within the capacity.
fn grow(vob: &mut Vob<u8>) -> Result<(), VobError> {
    vob.extend_from_slice(&[])?;
    vob.extend(None)?;
    vob.resize(5, true)
}

#[test]
fn all_bits_change_in_place(rt: HostRuntime) {
    request(&rt, FIRST);
    let Ok(mut vob) = bytes_of(rt.alloc(), "101") else {
        return;
    };
    vob.negate();
    check_blocks(&rt, &vob, 3, &[2]);
    vob.set_all(true);
    check_blocks(&rt, &vob, 3, &[7]);
    same(&rt, "growth within the room", 0, grow(&mut vob), Ok(()));
    check_blocks(&rt, &vob, 5, &[31]);
    vob.clear();
    check_blocks(&rt, &vob, 0, &[]);
    tell(&rt, true);
}

/// `101` or `110`, and then and `110`, which is all of it.
fn check_operators(rt: &impl Abort, vob: Vob<u8>, other: &Vob<u8>) {
    let mut vob = vob;
    same(rt, "unequal", 0, vob != *other, true);
    assert!(rt; vob.len() == other.len());
    vob |= other;
    check_blocks(rt, &vob, 3, &[7]);
    assert!(rt; vob.len() == other.len());
    let both = vob & other;
    same(rt, "equal", 0, both == *other, true);
    check_blocks(rt, &both, 3, &[3]);
}

/// `101` and `110`, of that all but `110`, and then or and xor `110`.
fn check_other_operators(rt: &impl Abort, vob: Vob<u8>, other: &Vob<u8>) {
    let mut vob = vob;
    assert!(rt; vob.len() == other.len());
    vob &= other;
    check_blocks(rt, &vob, 3, &[1]);
    assert!(rt; vob.len() == other.len());
    vob ^= other;
    check_blocks(rt, &vob, 3, &[2]);
    assert!(rt; vob.len() == other.len());
    let either = vob | other;
    check_blocks(rt, &either, 3, &[3]);
    assert!(rt; either.len() == other.len());
    check_blocks(rt, &(either ^ other), 3, &[0]);
}

#[test]
fn other_operators_change_their_left_side(rt: HostRuntime) {
    request(&rt, FIRST);
    let Ok(vob) = bytes_of(rt.alloc(), "101") else {
        return;
    };
    let Ok(other) = bytes_of(rt.alloc(), "110") else {
        return;
    };
    check_other_operators(&rt, vob, &other);
    tell(&rt, true);
}

/// Returns the hash of the Vob.
fn hash_of(vob: &Vob<u8>) -> u64 {
    let mut state = DefaultHasher::new();
    vob.hash(&mut state);
    state.finish()
}

#[test]
fn equal_bits_are_hashed_alike_in_place(rt: HostRuntime) {
    request(&rt, FIRST);
    let Ok(vob) = bytes_of(rt.alloc(), "101") else {
        return;
    };
    let Ok(like) = bytes_of(rt.alloc(), "101") else {
        return;
    };
    same(&rt, "the hashes", 0, hash_of(&vob), hash_of(&like));
    tell(&rt, true);
}

#[test]
fn operators_change_their_left_side(rt: HostRuntime) {
    request(&rt, FIRST);
    let Ok(vob) = bytes_of(rt.alloc(), "101") else {
        return;
    };
    let Ok(other) = bytes_of(rt.alloc(), "110") else {
        return;
    };
    check_operators(&rt, vob, &other);
    tell(&rt, true);
}

/// Raw storage whose used bits are past the length, masked and taken.
fn taken(rt: &impl Abort, raw: RawVob<u8>) -> Vob<u8> {
    let mut raw = raw;
    raw.set_len(2);
    same_list(rt, "the blocks", raw.get_storage(), &[7]);
    let mut raw = raw
        .into_vob()
        .err()
        .expect(rt, "a used bit is past the length");
    assert!(rt; raw.fits());
    raw.mask_last_block();
    same(rt, "the length", 0, raw.len(), 2);
    raw.into_vob().ok().expect(rt, "no bit is past the length")
}

/// Counts of all walks over `11`.
fn check_counts(rt: &impl Abort, vob: &Vob<u8>) {
    same(rt, "set bits", 0, vob.iter_set_bits(..).count(), 2);
    same(rt, "unset bits", 0, vob.iter_unset_bits(..).count(), 0);
    same(rt, "the bits", 0, vob.iter().count(), 2);
    same(rt, "the blocks", 0, vob.iter_storage().count(), 1);
}

#[test]
fn raw_storage_is_taken_in_place(rt: HostRuntime) {
    request(&rt, FIRST);
    let Ok(vob) = bytes_of(rt.alloc(), "111") else {
        return;
    };
    let vob = taken(&rt, vob.into_raw());
    check_blocks(&rt, &vob, 2, &[3]);
    check_counts(&rt, &vob);
    tell(&rt, true);
}

/// Blocks that are written through their loan, and taken.
fn check_parts(rt: &impl Abort, blocks: Vec<u8>) {
    let mut raw = RawVob::from_parts(3, blocks);
    if let Some(first) = raw.get_storage_mut().first_mut() {
        *first = 6;
    }
    let vob = raw.into_vob().ok().expect(rt, "the blocks fit");
    check_blocks(rt, &vob, 3, &[6]);
}

#[test]
fn parts_are_taken_in_place(rt: HostRuntime) {
    request(&rt, FIRST);
    let Ok(blocks) = [5u8].to_vec(rt.alloc()) else {
        return;
    };
    check_parts(&rt, blocks);
    tell(&rt, true);
}

#[test]
fn a_record_is_taken_in_place(rt: HostRuntime) {
    request(&rt, FIRST);
    let Ok(vob) = Vob::from_elem(rt.alloc(), true, 65) else {
        return;
    };
    let record = vob.into_record();
    same(&rt, "the length", 0, record.len, 65);
    let vob = record.into_vob().ok().expect(&rt, "it is canonical");
    check_blocks(&rt, &vob, 65, &[usize::MAX, 1]);
    tell(&rt, true);
}
