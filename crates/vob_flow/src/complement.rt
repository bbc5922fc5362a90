//! The greatest sets that meet an equation at each node of a graph: the complements of the least ones
//! of what they lack.
ghost use Rattle.std.specs.Prelude.{◌≡◌, ◌≢◌, ◌↔◌, ◌<◌, false, true, length, replicate, Err, IfErr, IfOk, IsOk, IsTrue, OnErr, OnOk};
ghost use Rattle.vob_flow.specs.Available.{IsEntry};
ghost use Rattle.vob_flow.specs.Changes.{Becomes, EachBecomes, IsLacking, IsOut};
ghost use Rattle.vob_flow.specs.Draws.{FitMasks, IsIn, mask_of};
ghost use Rattle.vob_flow.specs.Greatest.{AreGreatest, IsPassCount, mask_from};
ghost use Rattle.vob_flow.specs.Schedules.{IsSchedule};
ghost use Rattle.vob_flow.specs.SolveFaults.{MayRefuseSets};

use crate::draw::Masks;
use crate::faults::{SolveError, check_masks};
use crate::passes::settle;
use crate::schedule::{Schedule, schedule_of};
use std::alloc::{AllocError, Global};
use vob::Vob;
use vob_rows::{BitRows, Graph};

/// Takes the places off a set that its mask lets through.
fn take_kept(sets: &mut BitRows, set: usize, masks: Masks<'_>)
    requires set { set < length sets.old.rows }
    requires masks { FitMasks (length sets.old.rows) sets.old.columns masks }
    ensures left { Becomes sets.old.rows set
        (λ v. IsIn sets.old.rows set v × (mask_of masks.entry set v ≡ false)) sets.new.rows }
    ensures columns { sets.new.columns ≡ sets.old.columns }
{
    // Each set is as long as there are columns: a proof knows it from this call.
    let _columns = sets.columns();
    match masks {
        Masks::All => sets.fill_row(set, false),
        Masks::Keep(kept) => {
            sets.and_not_with(set, &kept.row(set));
        }
        Masks::Without(others) => {
            sets.and_with(set, &others.row(set));
        }
    }
}

/// Whether a set is that of the entry.
fn is_entry(set: usize, entry: Option<usize>) -> bool
    ensures { IsTrue result ↔ IsEntry entry set }
{
    match entry {
        Some(node) => set == node,
        None => false,
    }
}

/// Turns a set into the places that it neither starts with nor has let through by its mask.
fn turn_start(sets: &mut BitRows, set: usize, masks: Masks<'_>, entry: Option<usize>)
    requires set { set < length sets.old.rows }
    requires masks { FitMasks (length sets.old.rows) sets.old.columns masks }
    ensures lacking { Becomes sets.old.rows set
        (IsLacking (mask_from entry masks.entry) sets.old.rows set) sets.new.rows }
    ensures columns { sets.new.columns ≡ sets.old.columns }
{
    sets.negate_row(set);
    if is_entry(set, entry) {
        return;
    }
    take_kept(sets, set, masks);
}

/// Makes each set what it lacks at first.
fn turn_starts(sets: &mut BitRows, masks: Masks<'_>, entry: Option<usize>)
    requires { FitMasks (length sets.old.rows) sets.old.columns masks }
    ensures lacking { EachBecomes sets.old.rows (IsLacking (mask_from entry masks.entry) sets.old.rows)
        sets.new.rows (length sets.old.rows) }
    ensures columns { sets.new.columns ≡ sets.old.columns }
{
    for set in 0..sets.rows() {
        turn_start(sets, set, masks, entry);
    }
}

/// Negates each bit of each set.
fn negate_each(sets: &mut BitRows)
    ensures negated { EachBecomes sets.old.rows (IsOut sets.old.rows) sets.new.rows
        (length sets.old.rows) }
    ensures columns { sets.new.columns ≡ sets.old.columns }
{
    for set in 0..sets.rows() {
        sets.negate_row(set);
    }
}

/// Makes some sets the greatest that meet their equations, beside a copy of what they start with. A
/// set draws of what it lacks from the same sets, and not what it starts with.
pub(crate) fn lose(
    sets: &mut BitRows,
    graph: &Graph,
    schedule: &Schedule,
    masks: Masks<'_>,
    entry: Option<usize>,
    starts: &BitRows,
    pending: &mut Vob,
) -> u128
    requires count { length graph.now ≡ length sets.old.rows }
    requires schedule { IsSchedule graph.now schedule.now }
    requires masks { FitMasks (length sets.old.rows) sets.old.columns masks }
    requires starts { starts.now ≡ sets.old }
    requires pending { pending.old.bits ≡ replicate (length schedule.now.order.items) true }
    ensures greatest { AreGreatest sets.old.columns graph.now
        (mask_from entry masks.entry) sets.old.rows sets.new.rows }
    ensures passes { IsPassCount sets.old.columns graph.now
        (mask_from entry masks.entry) sets.old.rows sets.new.rows result }
    ensures columns { sets.new.columns ≡ sets.old.columns }
{
    // Each set is as long as there are columns, and each edge leads to a node: a proof knows it from
    // these calls.
    let _columns = sets.columns();
    let _nodes = graph.nodes();
    turn_starts(sets, masks, entry);
    let passes = settle(sets, graph, schedule, Masks::Without(starts), pending);
    negate_each(sets);
    passes
}

/// Does that with an order of its own. No sets take no memory.
pub(crate) fn solve_beside(
    alloc: Global,
    sets: &mut BitRows,
    graph: &Graph,
    masks: Masks<'_>,
    entry: Option<usize>,
    starts: &BitRows,
) -> Result<u128, AllocError>
    requires count { length graph.now ≡ length sets.old.rows }
    requires masks { FitMasks (length sets.old.rows) sets.old.columns masks }
    requires starts { starts.now ≡ sets.old }
    ensures greatest { OnOk result (AreGreatest sets.old.columns graph.now
        (mask_from entry masks.entry) sets.old.rows sets.new.rows) }
    ensures passes { IfOk result (IsPassCount sets.old.columns graph.now
        (mask_from entry masks.entry) sets.old.rows sets.new.rows) }
    ensures columns { sets.new.columns ≡ sets.old.columns }
    ensures err { OnErr result (sets.new ≡ sets.old) }
    ensures nothing { length sets.old.rows ≡ 0 → IsOk result }
{
    // Each set is as long as there are columns: a proof knows it from this call.
    let _columns = sets.columns();
    if graph.nodes() == 0 {
        return Ok(0);
    }
    let schedule = schedule_of(alloc, graph)?;
    let mut pending = Vob::from_elem(alloc, true, schedule.order.len())?;
    Ok(lose(sets, graph, &schedule, masks, entry, starts, &mut pending))
}

/// Makes some sets the greatest that meet their equations. No sets take no memory.
pub(crate) fn solve_greatest(
    alloc: Global,
    sets: &mut BitRows,
    graph: &Graph,
    masks: Masks<'_>,
    entry: Option<usize>,
) -> Result<u128, AllocError>
    requires count { length graph.now ≡ length sets.old.rows }
    requires masks { FitMasks (length sets.old.rows) sets.old.columns masks }
    ensures greatest { OnOk result (AreGreatest sets.old.columns graph.now
        (mask_from entry masks.entry) sets.old.rows sets.new.rows) }
    ensures passes { IfOk result (IsPassCount sets.old.columns graph.now
        (mask_from entry masks.entry) sets.old.rows sets.new.rows) }
    ensures columns { sets.new.columns ≡ sets.old.columns }
    ensures err { OnErr result (sets.new ≡ sets.old) }
    ensures nothing { length sets.old.rows ≡ 0 → IsOk result }
{
    let starts = sets.clone()?;
    solve_beside(alloc, sets, graph, masks, entry, &starts)
}

/// Makes each set the greatest that has what it starts with, and of its mask the places that all sets
/// have that it draws from. Returns the number of passes over all sets. Set n draws from the sets that
/// the edges of node n lead to; the graph must have a node for each set. A set that draws from none has
/// all of its mask, but nothing is let through to the entry, if there is one.
///
/// Fails as `least` does. A failed call changes nothing.
pub fn greatest(
    alloc: Global,
    sets: &mut BitRows,
    graph: &Graph,
    masks: Masks<'_>,
    entry: Option<usize>,
) -> Result<u128, SolveError>
    requires { length graph.now ≡ length sets.old.rows }
    ensures greatest { OnOk result (AreGreatest sets.old.columns graph.now
        (mask_from entry masks.entry) sets.old.rows sets.new.rows) }
    ensures passes { IfOk result (IsPassCount sets.old.columns graph.now
        (mask_from entry masks.entry) sets.old.rows sets.new.rows) }
    ensures columns { sets.new.columns ≡ sets.old.columns }
    ensures err { OnErr result (sets.new ≡ sets.old) }

    // The masks are checked first, and memory is asked for only if there are sets.
    ensures fit { OnOk result (FitMasks (length sets.old.rows) sets.old.columns masks.entry) }
    ensures bad_masks { (result ≡ Err SolveError.BadMasks)
        ↔ (¬ FitMasks (length sets.old.rows) sets.old.columns masks.entry) }
    ensures no_entry { result ≢ Err SolveError.BadEntry }
    ensures refused { IfErr result
        (MayRefuseSets (length sets.old.rows) sets.old.columns masks.entry) }
{
    check_masks(sets, masks)?;
    let passes = solve_greatest(alloc, sets, graph, masks, entry)?;
    Ok(passes)
}
