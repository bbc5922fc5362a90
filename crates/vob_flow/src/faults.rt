//! What can be wrong with sets that draw from one another.
ghost use Rattle.std.specs.Prelude.{◌≡◌, ◌↔◌, ◌<◌, length, IsTrue, IfErr, OnOk};
ghost use Rattle.vob_flow.specs.Draws.{FitMasks};
ghost use Rattle.vob_flow.specs.SolveFaults.{IsEntryFault, IsMaskFault};

use crate::draw::Masks;
use std::alloc::AllocError;
use std::{error, fmt};
use vob_rows::BitRows;

/// Why a call on sets that draw from one another failed.
#[derive(Clone, Copy, Debug, PartialEq, Eq)]
pub enum SolveError {
    /// There was no memory for the sets.
    Memory,
    /// There isn't one mask for each set, or masks don't have a bit for each of the places.
    BadMasks,
    /// There are nodes, and the entry isn't one.
    BadEntry,
}

impl fmt::Display for SolveError {
    ghost use Rattle.std.specs.Prelude.{Some};
    ghost use Rattle.vob_flow.specs.SolveFaults.{solve_error_text};

    ghost output = { λ error. Some (solve_error_text error) };

    fn fmt<W: fmt::Write>(&self, f: &mut fmt::Formatter<W>) -> fmt::Result {
        match self {
            SolveError::Memory => f.write_str("out of memory"),
            SolveError::BadMasks => f.write_str("the masks don't fit the sets"),
            SolveError::BadEntry => f.write_str("the entry is no node"),
        }
    }
}

impl error::Error for SolveError {}

impl From<AllocError> for SolveError {
    ghost use Rattle.std.specs.Prelude.{◌≡◌};
    ghost use Rattle.vob_flow.specs.declared.faults.SolveError.TheVariants.{Memory};

    ghost from_gives = { λ _ refusal. refusal ≡ Memory };

    fn from(_: AllocError) -> SolveError {
        SolveError::Memory
    }
}

/// Whether rows are as many as some sets, with a bit for each of their places.
fn fit(sets: &BitRows, rows: &BitRows) -> bool
    ensures { IsTrue result ↔ ((length rows.now.rows ≡ length sets.now.rows)
        × (rows.now.columns ≡ sets.now.columns)) }
{
    rows.rows() == sets.rows() && rows.columns() == sets.columns()
}

/// Whether there is a mask for each set, with a bit for each of its places.
fn fit_masks(sets: &BitRows, masks: Masks<'_>) -> bool
    ensures { IsTrue result ↔ FitMasks (length sets.now.rows) sets.now.columns masks.entry }
{
    match masks {
        Masks::All => true,
        Masks::Keep(kept) => fit(sets, kept),
        Masks::Without(others) => fit(sets, others),
    }
}

/// Fails if there isn't a mask for each set, with a bit for each of its places.
pub(crate) fn check_masks(sets: &BitRows, masks: Masks<'_>) -> Result<(), SolveError>
    ensures ok { OnOk result (FitMasks (length sets.now.rows) sets.now.columns masks.entry) }
    ensures err { IfErr result
        (IsMaskFault (length sets.now.rows) sets.now.columns masks.entry) }
{
    if !fit_masks(sets, masks) {
        return Err(SolveError::BadMasks);
    }
    Ok(())
}

/// Fails if there are nodes and the entry isn't one.
pub(crate) fn check_entry(nodes: usize, entry: usize) -> Result<(), SolveError>
    ensures ok { OnOk result (0 < nodes → entry < nodes) }
    ensures err { IfErr result (IsEntryFault nodes entry) }
{
    if nodes > 0 && entry >= nodes {
        return Err(SolveError::BadEntry);
    }
    Ok(())
}
