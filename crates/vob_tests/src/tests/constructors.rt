//! Vobs that constructors make, by length and blocks, and how much room they have.
use super::support::{
    check_bits, check_blocks, check_equal, check_made, filled, push, same, vob_of, write,
};
use std::process::Abort;
use vob::{Vob, VobError};

#[test]
fn nothing_has_no_blocks(rt: HostRuntime) {
    let alloc = rt.alloc();
    check_blocks(&rt, &Vob::new(alloc), 0, &[]);
    check_made(&rt, Vob::with_capacity(alloc, 0), 0, &[]);
    check_made(&rt, Vob::from_elem(alloc, true, 0), 0, &[]);
    check_made(&rt, Vob::from_slice(alloc, &[]), 0, &[]);
    check_made(&rt, Vob::from_bytes(alloc, &[]), 0, &[]);
    check_made(&rt, Vob::from_iter(alloc, None), 0, &[]);
    check_made(&rt, vob::vob!(alloc;), 0, &[]);
    check_made(&rt, Vob::new(alloc).clone(), 0, &[]);
}

#[test]
fn nothing_is_empty_and_has_no_room(rt: HostRuntime) {
    let alloc = rt.alloc();
    let empty = vob::vob!(alloc;).expect(&rt, "memory");
    same(&rt, "empty", 0, empty.is_empty(), true);
    let roomless = Vob::with_capacity(alloc, 0).expect(&rt, "memory");
    same(&rt, "no room", 0, roomless.capacity(), 0);
}

#[test]
fn a_new_vob_takes_memory_with_its_first_bit(rt: HostRuntime) {
    let mut vob = Vob::new(rt.alloc());
    same(&rt, "no room", 0, vob.capacity(), 0);
    push(&rt, &mut vob, true);
    check_blocks(&rt, &vob, 1, &[1]);
    // A length that can't be is refused.
    push(&rt, &mut vob, false);
    let refused = vob.reserve(usize::MAX);
    same(&rt, "reserve", 0, refused, Err(VobError::TooLong));
    check_blocks(&rt, &vob, 2, &[1]);
}

#[test]
fn one_bit_many_times_leaves_no_dirt(rt: HostRuntime) {
    let alloc = rt.alloc();
    let all = usize::MAX;
    check_made(&rt, Vob::from_elem(alloc, true, 129), 129, &[all, all, 1]);
    check_made(&rt, Vob::from_elem(alloc, true, 128), 128, &[all, all]);
    check_made(&rt, Vob::from_elem(alloc, false, 65), 65, &[0, 0]);
    let wide = Vob::<u128>::from_elem_with_storage_type(alloc, true, 129);
    check_made(&rt, wide, 129, &[u128::MAX, 1]);
    let bytes = Vob::<u8>::from_elem_with_storage_type(alloc, true, 13);
    check_made(&rt, bytes, 13, &[255, 31]);
}

/// The Vob of these bytes.
fn of_bytes(rt: &(impl Abort + AllocGlobal), bytes: &[u8]) -> Vob {
    Vob::from_bytes(rt.alloc(), bytes).expect(rt, "memory")
}

#[test]
fn bytes_give_their_greatest_bit_first(rt: HostRuntime) {
    let two = of_bytes(&rt, &[0b1010_0000, 0b0001_0010]);
    check_blocks(&rt, &two, 16, &[18437]);
    check_bits(&rt, &two, "1010000000010010");
    check_blocks(&rt, &of_bytes(&rt, &[0x80, 0x01, 0xff]), 24, &[16744449]);
    let eight = [0xa0, 0x12, 0x35, 0xca, 0x31, 0x95, 0x7c, 0x51];
    check_blocks(&rt, &of_bytes(&rt, &eight), 64, &[0x8a3e_a98c_53ac_4805]);
    let nine = [0xa0, 0x12, 0x35, 0xca, 0x31, 0x95, 0x7c, 0x51, 0x80];
    check_blocks(&rt, &of_bytes(&rt, &nine), 72, &[0x8a3e_a98c_53ac_4805, 1]);
}

/// The Vob of these bits.
fn of_slice(rt: &(impl Abort + AllocGlobal), bits: &[bool]) -> Vob {
    Vob::from_slice(rt.alloc(), bits).expect(rt, "memory")
}

#[test]
fn items_and_bits_are_kept_in_order(rt: HostRuntime) {
    let alloc = rt.alloc();
    let items = Vob::from_iter(alloc, [true, true, false]).expect(&rt, "memory");
    check_blocks(&rt, &items, 3, &[3]);
    check_made(&rt, items.clone(), 3, &[3]);
    let text = format!(in alloc; "{items:?}").expect(&rt, "memory");
    same(&rt, "as text", 0, text.as_str(), "Vob[110]");
    let mut ones = [true; 65];
    ones[1] = false;
    let first = usize::MAX - 2;
    check_blocks(&rt, &of_slice(&rt, &ones), 65, &[first, 1]);
    check_made(&rt, Vob::from_iter(alloc, ones), 65, &[first, 1]);
}

#[test]
fn the_macro_has_three_forms(rt: HostRuntime) {
    let alloc = rt.alloc();
    check_made(&rt, vob::vob!(alloc; false, true), 2, &[2]);
    check_made(&rt, vob::vob!(alloc; false, true, false,), 3, &[2]);
    check_made(&rt, vob::vob!(alloc; true; 2), 2, &[3]);
}

#[test]
fn bits_listed_are_bits_pushed(rt: HostRuntime) {
    let alloc = rt.alloc();
    let one = vob::vob!(alloc; true).expect(&rt, "memory");
    check_blocks(&rt, &one, 1, &[1]);
    same(&rt, "empty", 1, one.is_empty(), false);
    let mut pushed = Vob::with_capacity(alloc, 0).expect(&rt, "memory");
    push(&rt, &mut pushed, true);
    push(&rt, &mut pushed, false);
    let listed = vob::vob!(alloc; true, false).expect(&rt, "memory");
    check_equal(&rt, &pushed, &listed, true);
}

#[test]
fn listed_bits_can_be_read_and_set(rt: HostRuntime) {
    let alloc = rt.alloc();
    let mut three = vob::vob!(alloc; false, true, false).expect(&rt, "memory");
    same(&rt, "bit", 2, write(&mut three, 2, true), Some(true));
    check_blocks(&rt, &three, 3, &[6]);
    let two = vob::vob!(alloc; false, true).expect(&rt, "memory");
    assert!(rt; two.len() == 2);
    same(&rt, "by index", 0, [two[0], two[1]], [false, true]);
}

#[test]
fn a_bit_that_is_set_makes_two_equal(rt: HostRuntime) {
    let alloc = rt.alloc();
    let mut two = vob::vob!(alloc; true, false).expect(&rt, "memory");
    same(&rt, "bit", 1, write(&mut two, 1, true), Some(true));
    let ones = vob::vob!(alloc; true; 2).expect(&rt, "memory");
    let zeros = vob::vob!(alloc; false; 2).expect(&rt, "memory");
    check_equal(&rt, &two, &ones, true);
    check_equal(&rt, &two, &zeros, false);
}

#[test]
fn room_is_made_counted_from_the_length(rt: HostRuntime) {
    let alloc = rt.alloc();
    let roomy = Vob::with_capacity(alloc, 65).expect(&rt, "memory");
    same(&rt, "room for 65 bits", 0, roomy.capacity() >= 128, true);
    let mut vob = Vob::new(alloc);
    vob.reserve(10).expect(&rt, "memory");
    let room = vob.capacity();
    same(&rt, "room for ten bits", 0, room >= 64, true);
    vob.reserve(10).expect(&rt, "memory");
    same(&rt, "room that is there already", 0, vob.capacity(), room);
    push(&rt, &mut vob, true);
    vob.reserve(64).expect(&rt, "memory");
    let fits = vob.capacity() >= 128;
    same(&rt, "room for 64 bits behind one", 0, fits, true);
    vob.shrink_to_fit();
    check_blocks(&rt, &vob, 1, &[1]);
}

#[test]
fn what_fills_the_room_or_is_taken_off_leaves_it(rt: HostRuntime) {
    let mut vob = vob_of::<u8>(&rt, "");
    vob.reserve(9).expect(&rt, "memory");
    let room = vob.capacity();
    for _ in 0..9 {
        push(&rt, &mut vob, true);
    }
    check_blocks(&rt, &vob, 9, &[255, 1]);
    same(&rt, "capacity after pushes", 9, vob.capacity(), room);
    let mut vob = filled::<usize>(&rt, true, 200);
    let room = vob.capacity();
    vob.truncate(65);
    same(&rt, "capacity after a cut", 65, vob.capacity(), room);
    vob.clear();
    same(&rt, "capacity after a clear", 0, vob.capacity(), room);
    check_blocks(&rt, &vob, 0, &[]);
}
