//! Slots: refused, a call leaves them as they were.
use crate::tests::support::{FIRST, given, request, same, tell};
use std::alloc::AllocError;
use vob::VobError;
use vob_slots::calendar::{Calendar, common_stretches};
use vob_slots::slots::Slots;

#[test]
fn slots_are_made_or_refused(rt: HostRuntime) {
    request(&rt, FIRST);
    let slots = given(&rt, Slots::new(rt.alloc(), 64), AllocError);
    let made = slots.is_some();
    if let Some(slots) = slots {
        same(&rt, "the free slots", 0, slots.free_count(), 64);
    }
    tell(&rt, made);
}

#[test]
fn calendars_are_made_by_one_request(rt: HostRuntime) {
    request(&rt, FIRST);
    let calendar = given(&rt, Calendar::new(rt.alloc(), 70), AllocError);
    tell(&rt, calendar.is_some());
    if let Some(calendar) = calendar {
        same(&rt, "each slot", 70, calendar.is_free(0, 70), true);
        same(&rt, "one past them", 71, calendar.is_free(0, 71), false);
    }
}

// A list that is collected asks for less if its first request is refused, and is whole then.
#[test]
fn stretches_in_common_are_listed_by_one_request(rt: HostRuntime) {
    request(&rt, FIRST - 2);
    let mut first = Calendar::new(rt.alloc(), 10).expect(&rt, "memory");
    let mut second = Calendar::new(rt.alloc(), 10).expect(&rt, "memory");
    same(&rt, "booked", 0, first.book(0, 3), true);
    same(&rt, "booked", 5, second.book(5, 6), true);
    let stretches = common_stretches(rt.alloc(), &first, &second, 1);
    let stretches = given(&rt, stretches, AllocError);
    same(&rt, "the first calendar", 2, first.is_free(2, 3), false);
    same(&rt, "the first calendar", 3, first.is_free(3, 10), true);
    same(&rt, "the second one", 4, second.is_free(4, 6), false);
    same(&rt, "the second one", 6, second.is_free(6, 10), true);
    tell(&rt, stretches.is_some());
    if let Some(stretches) = stretches {
        same(&rt, "stretches", 0, stretches.as_slice(), &[3..5, 6..10]);
    }
}

#[test]
fn slots_grow_or_stay(rt: HostRuntime) {
    request(&rt, FIRST - 3);
    let mut slots = Slots::new(rt.alloc(), 64).expect(&rt, "memory");
    same(&rt, "a slot", 0, slots.alloc(), Some(0));
    let grown = given(&rt, slots.grow(64), VobError::Memory).is_some();
    let (len, free) = if grown { (128, 127) } else { (64, 63) };
    same(&rt, "the slots", 0, slots.len(), len);
    same(&rt, "the free slots", 0, slots.free_count(), free);
    same(&rt, "the next slot", 0, slots.alloc(), Some(1));
    tell(&rt, grown);
}
