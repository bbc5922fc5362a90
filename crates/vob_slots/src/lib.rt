//! Slots and calendars, and loops over set bits: worked users of packed vectors of bits.
#![tactic(auto)]

pub mod calendar;
pub mod loops;
pub mod search;
pub mod slots;
pub mod summary;
pub mod take_slot;
