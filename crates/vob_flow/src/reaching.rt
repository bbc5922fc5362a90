//! Reaching definitions: which definitions may still hold at each node of a flow graph.
ghost use Rattle.std.specs.Prelude.{◌≡◌, ◌≢◌, ◌↔◌, length, Err, IfErr, IfOk, OnErr};
ghost use Rattle.vob_flow.specs.Draws.{FitMasks, mask_of};
ghost use Rattle.vob_flow.specs.Reaching.{AreReaching};
ghost use Rattle.vob_flow.specs.SolveFaults.{MayRefuseSets};

use crate::draw::Masks;
use crate::faults::{SolveError, check_masks};
use crate::gather::gather_each;
use crate::solver::solve;
use std::alloc::Global;
use vob_rows::{BitRows, Graph};

/// Returns the definitions that reach the start of each node: those that were made on some path to
/// it, and not killed since. `ends` are those that each node generates, and become those that reach
/// its end. The edges of `before` lead from a node to those that come before it; `masks` say which
/// definitions each node kills, by `Masks::Without`.
///
/// Fails as `least` does. A failed call changes nothing.
pub fn reaching_definitions(
    alloc: Global,
    ends: &mut BitRows,
    before: &Graph,
    masks: Masks<'_>,
) -> Result<BitRows, SolveError>
    requires { length before.now ≡ length ends.old.rows }
    ensures reaching { IfOk result (λ starts. AreReaching before.now (mask_of masks.entry)
        ends.old.rows starts.rows ends.new.rows) }
    ensures columns { IfOk result (λ starts. starts.columns ≡ ends.old.columns) }
    ensures same_columns { ends.new.columns ≡ ends.old.columns }
    ensures err { OnErr result (ends.new ≡ ends.old) }
    ensures bad_masks { (result ≡ Err SolveError.BadMasks)
        ↔ (¬ FitMasks (length ends.old.rows) ends.old.columns masks.entry) }
    ensures no_entry { result ≢ Err SolveError.BadEntry }
    ensures refused { IfErr result
        (MayRefuseSets (length ends.old.rows) ends.old.columns masks.entry) }
{
    check_masks(ends, masks)?;
    let mut starts = BitRows::new(alloc, ends.rows(), ends.columns())?;
    solve(alloc, ends, before, masks)?;
    gather_each(&mut starts, before, ends);
    Ok(starts)
}
