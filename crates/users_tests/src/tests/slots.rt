//! Slots by hand, and by scripts of calls, against a list of whether each is taken.
use super::support::{check_bits, same, vob_of};
use std::process::Abort;
use vob_slots::slots::Slots;
use vob_slots::take_slot::take_slot;

/// How many slots the scripts begin with.
const SLOTS: usize = 70;

/// The first `count` places in a row that are all free, place by place.
fn plain_run(taken: &[bool], count: usize) -> Option<usize> {
    if count == 0 {
        return Some(0);
    }
    let mut free: usize = 0;
    for (slot, is_taken) in taken.iter().enumerate() {
        free = if *is_taken { 0 } else { free.saturating_add(1) };
        if free >= count {
            return slot.checked_sub(count - 1);
        }
    }
    None
}

/// Marks the places of a row that are there.
fn mark(taken: &mut [bool], start: usize, count: usize, value: bool) {
    for (slot, is_taken) in taken.iter_mut().enumerate() {
        if slot >= start && slot - start < count {
            *is_taken = value;
        }
    }
}

/// Makes one call that the drawn number picks, and compares its answer.
fn call(rt: &impl Abort, slots: &mut Slots, taken: &mut [bool], drawn: usize) {
    let slot = drawn % 73;
    let count = drawn / 73 % 9;
    let was_taken = taken.get(slot).copied();
    match drawn / 1000 % 7 {
        0 => {
            same(
                rt,
                "taken",
                slot,
                slots.take(slot),
                was_taken == Some(false),
            );
            mark(taken, slot, 1, true);
        }
        1 => {
            same(
                rt,
                "given back",
                slot,
                slots.free(slot),
                was_taken == Some(true),
            );
            mark(taken, slot, 1, false);
        }
        2 => {
            let wanted = plain_run(taken, count);
            same(rt, "run", count, slots.alloc_run(count), wanted);
            mark(taken, wanted.unwrap_or(SLOTS), count, true);
        }
        3 if slot + count <= slots.len() => {
            slots.free_run(slot, count);
            mark(taken, slot, count, false);
        }
        _ => {
            let wanted = plain_run(taken, 1);
            same(rt, "slot", slot, slots.alloc(), wanted);
            mark(taken, wanted.unwrap_or(SLOTS), 1, true);
        }
    }
}

/// Compares each slot, and both walks.
fn check_slots(rt: &(impl Abort + AllocGlobal), slots: &Slots, taken: &[bool]) {
    let mut full = Vec::new(rt.alloc());
    let mut free = Vec::new(rt.alloc());
    for (slot, is_taken) in taken.iter().enumerate() {
        same(rt, "whether taken", slot, slots.is_taken(slot), *is_taken);
        let list = if *is_taken { &mut full } else { &mut free };
        list.push(slot).expect(rt, "memory");
    }
    same(rt, "past the end", 0, slots.is_taken(taken.len()), false);
    same(rt, "free", 0, slots.free_count(), free.len());
    let walk = slots.taken().collect(rt.alloc()).expect(rt, "memory");
    same(rt, "the taken ones", 0, walk, full);
    let walk = slots.free_slots().collect(rt.alloc()).expect(rt, "memory");
    same(rt, "the free ones", 0, walk, free);
}

#[test]
fn scripts_by_a_seed_agree_with_a_list(rt: HostRuntime) {
    for seed in 0..20 {
        let mut slots = Slots::new(rt.alloc(), SLOTS).expect(&rt, "memory");
        let mut taken = [false; SLOTS];
        let mut drawn: usize = seed;
        for _ in 0..200 {
            drawn = drawn
                .wrapping_mul(6364136223846793005)
                .wrapping_add(1442695040888963407);
            call(&rt, &mut slots, &mut taken, drawn >> 20);
        }
        check_slots(&rt, &slots, &taken);
    }
}

/// Takes all of so many slots, and gives three back, which are the next ones then.
fn check_full(rt: &(impl Abort + AllocGlobal), count: usize) {
    let mut slots = Slots::new(rt.alloc(), count).expect(rt, "memory");
    same(rt, "all", count, slots.alloc_run(count), Some(0));
    same(rt, "none", count, slots.alloc(), None);
    let (middle, last) = (count / 2, count.saturating_sub(1));
    for slot in [last, 0, middle] {
        same(rt, "given back", slot, slots.free(slot), true);
    }
    for slot in [0, middle, last] {
        same(rt, "the next", count, slots.alloc(), Some(slot));
    }
    same(rt, "none again", count, slots.alloc(), None);
}

// A word has 64 slots, and a word of the first summary stands for 4,096.
#[test]
fn slots_of_a_full_arena_come_again(rt: HostRuntime) {
    for count in [3, 64, 65, 128, 4095, 4096, 4097, 8200] {
        check_full(&rt, count);
    }
}

#[test]
fn slots_that_grow_are_free_behind_the_others(rt: HostRuntime) {
    for (count, more) in [(63, 1), (63, 2), (64, 1), (64, 64), (4095, 2), (4096, 4097)] {
        let mut slots = Slots::new(rt.alloc(), count).expect(&rt, "memory");
        same(&rt, "all", count, slots.alloc_run(count), Some(0));
        slots.grow(more).expect(&rt, "memory");
        same(&rt, "free", count, slots.free_count(), more);
        same(&rt, "the next", count, slots.alloc(), Some(count));
        same(&rt, "given back", count, slots.free(0), true);
        same(&rt, "the next", more, slots.alloc(), Some(0));
        same(
            &rt,
            "the others",
            count,
            slots.alloc_run(more.saturating_sub(1)).is_some(),
            true,
        );
        same(&rt, "none", count, slots.alloc(), None);
    }
}

#[test]
fn free_slots_are_taken_from_the_first_on(rt: HostRuntime) {
    let mut taken = vob_of(&rt, "1010");
    for (at, slot) in [Some(1), Some(3), None].into_iter().enumerate() {
        same(&rt, "slot", at, take_slot(&mut taken), slot);
    }
    check_bits(&rt, &taken, "1111");
}

#[test]
fn a_slot_that_is_given_back_comes_again(rt: HostRuntime) {
    let mut slots = Slots::new(rt.alloc(), 3).expect(&rt, "memory");
    same(&rt, "slot", 0, slots.alloc(), Some(0));
    same(&rt, "slot", 1, slots.alloc(), Some(1));
    same(&rt, "given back", 0, slots.free(0), true);
    same(&rt, "given back twice", 0, slots.free(0), false);
    same(&rt, "given back past the end", 3, slots.free(3), false);
    same(&rt, "free", 0, slots.free_count(), 2);
    same(&rt, "slot", 2, slots.alloc(), Some(0));
    same(&rt, "slot", 3, slots.alloc(), Some(2));
    same(&rt, "slot", 4, slots.alloc(), None);
    slots.grow(2).expect(&rt, "memory");
    same(&rt, "slot", 5, slots.alloc(), Some(3));
    same(&rt, "free", 1, slots.free_count(), 1);
    same(&rt, "slots", 0, slots.len(), 5);
}
