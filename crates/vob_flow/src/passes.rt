//! Passes over sets that draw from one another. A set is looked at again only once one that it draws
//! from grew.
ghost use Rattle.std.specs.Prelude.{◌≡◌, ◌↔◌, ◌⊎◌, ◌<◌, ℕ, true, length, replicate, slice_index_or, All, Any};
ghost use Rattle.vob_block.specs.Packing.{item};
ghost use Rattle.vob_flow.specs.Draws.{AreLeast, FitMasks, TakePasses, mask_of};
ghost use Rattle.vob_flow.specs.Gains.{HadLook, HasGained, IsDrawnOf, IsLetThrough};
ghost use Rattle.vob_flow.specs.Passes.{HadTurns};
ghost use Rattle.vob_flow.specs.Schedules.{IsSchedule, place_of};

use crate::draw::Masks;
use crate::schedule::Schedule;
use vob::Vob;
use vob_rows::{BitRows, Graph};

/// Adds to a set what its mask lets through of another of them, and returns whether that was more.
#[inline(always)]
fn add_from(sets: &mut BitRows, set: usize, source: usize, masks: Masks<'_>) -> bool
    requires set { set < length sets.old.rows }
    requires source { source < length sets.old.rows }
    requires masks { FitMasks (length sets.old.rows) sets.old.columns masks }
    ensures gained { HasGained sets.old.rows set
        (IsLetThrough sets.old.rows (mask_of masks.entry set) source) sets.new.rows result }
    ensures columns { sets.new.columns ≡ sets.old.columns }
{
    // Each set is as long as there are columns: a proof knows it from this call.
    let _columns = sets.columns();
    match masks {
        Masks::All => sets.or_row(set, source),
        Masks::Keep(kept) => sets.or_row_and(set, source, &kept.row(set)),
        Masks::Without(others) => sets.or_row_and_not(set, source, &others.row(set)),
    }
}

/// Adds to a set what it draws from some sets, and returns whether that was more.
fn draw_set(sets: &mut BitRows, set: usize, from: &[usize], masks: Masks<'_>) -> bool
    requires set { set < length sets.old.rows }
    requires from { All (λ source. source < length sets.old.rows) from.now }
    requires masks { FitMasks (length sets.old.rows) sets.old.columns masks }
    ensures gained { HasGained sets.old.rows set
        (IsDrawnOf sets.old.rows (mask_of masks.entry set) from.now) sets.new.rows result }
    ensures columns { sets.new.columns ≡ sets.old.columns }
{
    let mut grew = false;
    for source in from {
        grew |= add_from(sets, set, *source, masks);
    }
    grew
}

/// Lets some sets wait for a look. `pending` has a bit for each place.
fn wait(users: &[usize], places: &[usize], pending: &mut Vob)
    requires users { All (λ user. user < length places.now) users.now }
    requires places { All (λ place. place < length pending.old.bits) places.now }
    ensures len { length pending.new.bits ≡ length pending.old.bits }
    ensures each { (p : ℕ) → (item pending.new.bits p ≡ true) ↔ ((item pending.old.bits p ≡ true)
        ⊎ Any (λ user. place_of places.now user ≡ p) users.now) }
{
    for user in users {
        pending.set(places[*user], true);
    }
}

/// Looks at the set at a place, which waits for it: the set gets what it draws, and if that was more,
/// those that draw from it wait. Returns whether it was.
#[inline(always)]
fn look(
    sets: &mut BitRows,
    at: usize,
    graph: &Graph,
    schedule: &Schedule,
    masks: Masks<'_>,
    pending: &mut Vob,
) -> bool
    requires waits { item pending.old.bits at ≡ true }
    requires count { length graph.now ≡ length sets.old.rows }
    requires schedule { IsSchedule graph.now schedule.now }
    requires masks { FitMasks (length sets.old.rows) sets.old.columns masks }
    requires pending { length pending.old.bits ≡ length schedule.now.order.items }
    ensures look { HadLook graph.now (mask_of masks.entry) schedule.now.order.items
        schedule.now.places.items sets.old.rows pending.old.bits at sets.new.rows pending.new.bits
        result }
    ensures columns { sets.new.columns ≡ sets.old.columns }
{
    let set = schedule.order[at];
    pending.set(at, false);
    let grew = draw_set(sets, set, graph.next(set), masks);
    if grew {
        wait(schedule.users.next(set), &schedule.places, pending);
    }
    grew
}

/// Looks at each set that waits, in their order, and returns whether one of them grew.
fn pass(
    sets: &mut BitRows,
    graph: &Graph,
    schedule: &Schedule,
    masks: Masks<'_>,
    pending: &mut Vob,
) -> bool
    requires count { length graph.now ≡ length sets.old.rows }
    requires schedule { IsSchedule graph.now schedule.now }
    requires masks { FitMasks (length sets.old.rows) sets.old.columns masks }
    requires pending { length pending.old.bits ≡ length schedule.now.order.items }
    ensures pass { HadTurns (place_of schedule.now.places.items) schedule.now.order.items graph.now
        (mask_of masks.entry) sets.old.rows pending.old.bits sets.new.rows pending.new.bits result
        (length schedule.now.order.items) }
    ensures columns { sets.new.columns ≡ sets.old.columns }
{
    let mut grew = false;
    let mut from = 0;
    'looks: while let Some(at) = pending.next_set(from) {
        grew |= look(sets, at, graph, schedule, masks, pending);
        from = at + 1;
    }
    grew
}

/// Goes over all sets until none grows, and returns how often.
pub(crate) fn settle(
    sets: &mut BitRows,
    graph: &Graph,
    schedule: &Schedule,
    masks: Masks<'_>,
    pending: &mut Vob,
) -> u128
    requires count { length graph.now ≡ length sets.old.rows }
    requires schedule { IsSchedule graph.now schedule.now }
    requires masks { FitMasks (length sets.old.rows) sets.old.columns masks }
    requires pending { pending.old.bits ≡ replicate (length schedule.now.order.items) true }
    ensures least { AreLeast graph.now (mask_of masks.entry) sets.old.rows sets.new.rows }
    ensures passes { TakePasses graph.now (mask_of masks.entry) sets.old.rows sets.new.rows result }
    ensures columns { sets.new.columns ≡ sets.old.columns }
{
    // Each set is as long as there are columns, and both counts are in the range of their types: a
    // proof knows it from these calls.
    let _places = sets.columns();
    let _count = sets.rows();
    let mut passes = 1;
    'passes: while pass(sets, graph, schedule, masks, pending) {
        passes += 1;
    }
    passes
}
