//! The free stretches of two calendars, and what one Vob unsets in another.
use super::support::{check_bits, same};
use vob::Vob;
use vob_slots::calendar::{Calendar, common_stretches};
use vob_slots::loops::clear_those;

#[test]
fn calendars_share_their_free_stretches(rt: HostRuntime) {
    let mut first = Calendar::new(rt.alloc(), 10).expect(&rt, "memory");
    let mut second = Calendar::new(rt.alloc(), 10).expect(&rt, "memory");
    same(&rt, "booked", 0, first.book(0, 3), true);
    same(&rt, "booked twice in part", 2, first.book(2, 5), false);
    same(&rt, "booked past the end", 9, first.book(9, 11), false);
    same(&rt, "booked", 5, first.book(5, 6), true);
    same(&rt, "booked", 3, second.book(3, 4), true);
    same(&rt, "booked", 8, second.book(8, 9), true);
    // Slots 4, 6, 7 and 9 are free in both.
    let all = common_stretches(rt.alloc(), &first, &second, 0).expect(&rt, "memory");
    same(&rt, "stretches", 0, all.as_slice(), &[4..5, 6..8, 9..10]);
    let long = common_stretches(rt.alloc(), &first, &second, 2).expect(&rt, "memory");
    same(&rt, "of two slots", 2, long.as_slice(), &[6..8]);
    first.free(5, 6);
    let freed = common_stretches(rt.alloc(), &first, &second, 3).expect(&rt, "memory");
    same(&rt, "of three slots", 3, freed.as_slice(), &[4..8]);
}

/// A loop over the set bits of one unsets these in another, and no other.
#[test]
fn loop_unsets_those_of_another(rt: HostRuntime) {
    let mut vob = Vob::from_elem(rt.alloc(), true, 5).expect(&rt, "memory");
    vob.set(2, false);
    let mut others = Vob::from_elem(rt.alloc(), false, 5).expect(&rt, "memory");
    others.set(1, true);
    others.set(3, true);
    clear_those(&mut vob, &others);
    check_bits(&rt, &vob, "10001");
}
