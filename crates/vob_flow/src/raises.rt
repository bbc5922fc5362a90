//! Which errors the functions of a program may return: an analysis of one's own, by `least`.
ghost use Rattle.std.specs.Prelude.{◌≡◌, length, OnErr, OnOk};
ghost use Rattle.vob_flow.specs.Draws.{AreLeast, mask_of};

use crate::draw::Masks;
use crate::faults::SolveError;
use crate::solver::least;
use std::alloc::Global;
use vob_rows::{BitRows, Graph};

/// Adds to the errors that each function raises those that come from the functions that it calls
/// and that it doesn't handle. The edges of `calls` lead from a function to those that it calls;
/// `masks` say which errors each handles, by `Masks::Without`.
pub fn add_raised(
    alloc: Global,
    raised: &mut BitRows,
    calls: &Graph,
    masks: Masks<'_>,
) -> Result<(), SolveError>
    requires { length calls.now ≡ length raised.old.rows }
    ensures raised { OnOk result
        (AreLeast calls.now (mask_of masks.entry) raised.old.rows raised.new.rows) }
    ensures err { OnErr result (raised.new ≡ raised.old) }
{
    least(alloc, raised, calls, masks)?;
    Ok(())
}
