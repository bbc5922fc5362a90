//! What holds on all paths of a flow graph: available and very busy expressions.
ghost use Rattle.std.specs.Prelude.{◌≡◌, ◌≢◌, ◌↔◌, ◌<◌, ℕ, None, Some, length, Err, IfErr, IfOk, IsOk, OnErr};
ghost use Rattle.vob_flow.specs.Available.{AreAvailable, AreVeryBusy, HoldOnAll, IsEntry};
ghost use Rattle.vob_flow.specs.Draws.{FitMasks, HaveShape, IsIn, mask_of};
ghost use Rattle.vob_flow.specs.SolveFaults.{IsNoNode, MayRefuseFlows, MayRefuseSets};

use crate::complement::solve_beside;
use crate::draw::Masks;
use crate::faults::{SolveError, check_entry, check_masks};
use crate::gather::intersect_each;
use std::alloc::{AllocError, Global};
use vob_rows::{BitRows, Graph};

/// Clears the set of the entry, if there is one.
pub(crate) fn clear_entry(sets: &mut BitRows, entry: Option<usize>)
    ensures shape { HaveShape sets.old.rows sets.new.rows }
    ensures cleared { (n v : ℕ)
        → IsIn sets.new.rows n v ↔ (IsIn sets.old.rows n v × (¬ IsEntry entry n)) }
    ensures columns { sets.new.columns ≡ sets.old.columns }
{
    // Each set is as long as there are columns: a proof knows it from this call.
    let _columns = sets.columns();
    let Some(node) = entry else {
        return;
    };
    if node < sets.rows() {
        sets.fill_row(node, false);
    }
}

/// Makes the far side of each node what the equations ask for, and returns the near sides. These hold
/// what the far sides start with until it isn't needed. No sets take no memory.
fn solve_on_all(
    alloc: Global,
    far: &mut BitRows,
    graph: &Graph,
    masks: Masks<'_>,
    entry: Option<usize>,
) -> Result<BitRows, AllocError>
    requires count { length graph.now ≡ length far.old.rows }
    requires masks { FitMasks (length far.old.rows) far.old.columns masks }
    ensures hold { IfOk result (λ near. HoldOnAll far.old.columns entry graph.now
        (mask_of masks.entry) far.old.rows near.rows far.new.rows) }
    ensures near { IfOk result (λ near. near.columns ≡ far.old.columns) }
    ensures columns { far.new.columns ≡ far.old.columns }
    ensures err { OnErr result (far.new ≡ far.old) }
    ensures nothing { length far.old.rows ≡ 0 → IsOk result }
{
    // Each set is as long as there are columns: a proof knows it from this call.
    let _columns = far.columns();
    let mut near = far.clone()?;
    solve_beside(alloc, far, graph, masks, entry, &near)?;
    intersect_each(&mut near, graph, far);
    clear_entry(&mut near, entry);
    Ok(near)
}

/// Returns the expressions that are available at the start of each node: those that were computed on
/// each path to it from the entry, and not killed since. Nothing is available at the start of the
/// entry, whatever leads back to it. `ends` are the expressions that each node generates, and become
/// those that are available at its end. The edges of `before` lead from a node to those that come
/// before it; `masks` say which expressions each node kills, by `Masks::Without`. A node to which no
/// path leads from the entry has everything at its start.
///
/// Fails as `least` does, and if there are nodes and the entry isn't one. A failed call changes
/// nothing.
pub fn available_expressions(
    alloc: Global,
    entry: usize,
    ends: &mut BitRows,
    before: &Graph,
    masks: Masks<'_>,
) -> Result<BitRows, SolveError>
    requires { length before.now ≡ length ends.old.rows }
    ensures available { IfOk result (λ starts. AreAvailable ends.old.columns entry before.now
        (mask_of masks.entry) ends.old.rows starts.rows ends.new.rows) }
    ensures columns { IfOk result (λ starts. starts.columns ≡ ends.old.columns) }
    ensures same_columns { ends.new.columns ≡ ends.old.columns }
    ensures err { OnErr result (ends.new ≡ ends.old) }
    ensures bad_masks { (result ≡ Err SolveError.BadMasks)
        ↔ (¬ FitMasks (length ends.old.rows) ends.old.columns masks.entry) }
    ensures bad_entry { (result ≡ Err SolveError.BadEntry)
        ↔ (FitMasks (length ends.old.rows) ends.old.columns masks.entry
        × IsNoNode (length ends.old.rows) entry) }
    ensures refused { IfErr result
        (MayRefuseFlows entry (length ends.old.rows) ends.old.columns masks.entry) }
{
    check_masks(ends, masks)?;
    check_entry(ends.rows(), entry)?;
    let starts = solve_on_all(alloc, ends, before, masks, Some(entry))?;
    Ok(starts)
}

/// Returns the expressions that are very busy at the end of each node: those that are used on each
/// path from it, before they are killed. `starts` are those that each node uses, and become those
/// that are very busy at its start. The edges of `next` lead from a node to those that come next;
/// `masks` say which expressions each node kills, by `Masks::Without`. A node from which no edge leads
/// has everything at its end, so the mask of an exit keeps nothing.
///
/// Fails as `least` does. A failed call changes nothing.
pub fn very_busy_expressions(
    alloc: Global,
    starts: &mut BitRows,
    next: &Graph,
    masks: Masks<'_>,
) -> Result<BitRows, SolveError>
    requires { length next.now ≡ length starts.old.rows }
    ensures busy { IfOk result (λ ends. AreVeryBusy starts.old.columns next.now
        (mask_of masks.entry) starts.old.rows starts.new.rows ends.rows) }
    ensures columns { IfOk result (λ ends. ends.columns ≡ starts.old.columns) }
    ensures same_columns { starts.new.columns ≡ starts.old.columns }
    ensures err { OnErr result (starts.new ≡ starts.old) }
    ensures bad_masks { (result ≡ Err SolveError.BadMasks)
        ↔ (¬ FitMasks (length starts.old.rows) starts.old.columns masks.entry) }
    ensures no_entry { result ≢ Err SolveError.BadEntry }
    ensures refused { IfErr result
        (MayRefuseSets (length starts.old.rows) starts.old.columns masks.entry) }
{
    check_masks(starts, masks)?;
    let ends = solve_on_all(alloc, starts, next, masks, None)?;
    Ok(ends)
}
