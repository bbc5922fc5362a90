//! The least sets that meet an equation at each node of a graph.
ghost use Rattle.std.specs.Prelude.{◌≡◌, ◌≢◌, ◌↔◌, length, Err, IfErr, IfOk, IsOk, OnErr, OnOk};
ghost use Rattle.vob_flow.specs.Draws.{AreLeast, FitMasks, TakePasses, mask_of};
ghost use Rattle.vob_flow.specs.SolveFaults.{MayRefuseSets};

use crate::draw::Masks;
use crate::faults::{SolveError, check_masks};
use crate::passes::settle;
use crate::schedule::schedule_of;
use std::alloc::{AllocError, Global};
use vob::Vob;
use vob_rows::{BitRows, Graph};

/// Adds to some sets what they draw from one another. No sets take no memory.
pub(crate) fn solve(
    alloc: Global,
    sets: &mut BitRows,
    graph: &Graph,
    masks: Masks<'_>,
) -> Result<u128, AllocError>
    requires count { length graph.now ≡ length sets.old.rows }
    requires masks { FitMasks (length sets.old.rows) sets.old.columns masks }
    ensures least { OnOk result
        (AreLeast graph.now (mask_of masks.entry) sets.old.rows sets.new.rows) }
    ensures passes { IfOk result
        (TakePasses graph.now (mask_of masks.entry) sets.old.rows sets.new.rows) }
    ensures columns { sets.new.columns ≡ sets.old.columns }
    ensures err { OnErr result (sets.new ≡ sets.old) }
    ensures nothing { length sets.old.rows ≡ 0 → IsOk result }
{
    if sets.rows() == 0 {
        return Ok(0);
    }
    let schedule = schedule_of(alloc, graph)?;
    let mut pending = Vob::from_elem(alloc, true, schedule.order.len())?;
    Ok(settle(sets, graph, &schedule, masks, &mut pending))
}

/// Adds to each set what its mask lets through of the sets that it draws from, until none grows.
/// Returns the number of passes over all sets. A set is looked at again only once one that it draws
/// from grew. Set n draws from the sets that the edges of node n lead to; the graph must have a node
/// for each set.
///
/// Fails if there isn't a mask for each set, with a bit for each of its places, or if memory runs out.
/// A failed call changes nothing.
pub fn least(
    alloc: Global,
    sets: &mut BitRows,
    graph: &Graph,
    masks: Masks<'_>,
) -> Result<u128, SolveError>
    requires { length graph.now ≡ length sets.old.rows }
    ensures least { OnOk result
        (AreLeast graph.now (mask_of masks.entry) sets.old.rows sets.new.rows) }
    ensures passes { IfOk result
        (TakePasses graph.now (mask_of masks.entry) sets.old.rows sets.new.rows) }
    ensures columns { sets.new.columns ≡ sets.old.columns }
    ensures err { OnErr result (sets.new ≡ sets.old) }

    // The masks are checked first, and memory is asked for only if there are sets.
    ensures fit { OnOk result (FitMasks (length sets.old.rows) sets.old.columns masks.entry) }
    ensures bad_masks { (result ≡ Err SolveError.BadMasks)
        ↔ (¬ FitMasks (length sets.old.rows) sets.old.columns masks.entry) }
    ensures no_entry { result ≢ Err SolveError.BadEntry }
    ensures refused { IfErr result
        (MayRefuseSets (length sets.old.rows) sets.old.columns masks.entry) }
{
    check_masks(sets, masks)?;
    let passes = solve(alloc, sets, graph, masks)?;
    Ok(passes)
}
