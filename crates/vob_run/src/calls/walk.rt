//! The commands that walk over the indices of a Vob's bits of one value, within a range.
ghost use Rattle.std.specs.Prelude.{◌≡◌, IfOk, length};
ghost use Rattle.vob_walk.specs.Matches.{matches};
ghost use Rattle.vob_walk.specs.Walk.{answers};
ghost use Rattle.vob_run.specs.Answer.{answer_of};
ghost use Rattle.vob_run.specs.Call.{Walk, Count};
ghost use Rattle.vob_run.specs.Run.{lists, IsStep};

use crate::calls::refused;
use crate::command::Reply;
use std::alloc::{AllocError, Global};
use std::ops::Bound;
use vob::{End, Vob, VobError, deal};
use vob_block::Kernel;

/// Which indices a command asks for: those of the bits of this value, within these bounds.
#[derive(Clone, Copy)]
pub(crate) struct Selection {
    pub value: bool,
    pub bounds: (Bound<usize>, Bound<usize>),
}

// What the pulls at a fresh walk return, in a vector that has room for one index a pull.
fn dealt<T: Kernel>(
    alloc: Global,
    vob: &Vob<T>,
    selection: Selection,
    pulls: &[End],
) -> Result<Vec<Option<usize>>, AllocError>
    ensures { IfOk result (λ indices. indices.items ≡ answers
        (matches vob.now.bits selection.value selection.bounds.0 selection.bounds.1) pulls.now) }
{
    let mut indices = Vec::with_capacity(alloc, pulls.len())?;
    if selection.value {
        deal(
            &mut vob.iter_set_bits(selection.bounds),
            pulls,
            &mut indices,
        )?;
    } else {
        deal(
            &mut vob.iter_unset_bits(selection.bounds),
            pulls,
            &mut indices,
        )?;
    }
    Ok(indices)
}

pub(crate) fn walk<T: Kernel>(
    alloc: Global,
    vobs: &[Vob<T>],
    which: usize,
    selection: Selection,
    pulls: &[End],
) -> Reply<T>
    ensures { IsStep T.BITS (lists vobs.now)
        (Walk which selection.value selection.bounds.0 selection.bounds.1 pulls.now)
        (answer_of T.number result) (lists vobs.now) }
{
    let Some(vob) = vobs.get(which) else {
        return Reply::Skipped;
    };
    match dealt(alloc, vob, selection, pulls) {
        Ok(indices) => Reply::Dealt(indices),
        Err(refusal) => refused(VobError::from(refusal)),
    }
}

// How many indices a fresh walk gives.
fn matching<T: Kernel>(vob: &Vob<T>, selection: Selection) -> usize
    ensures { result
        ≡ length (matches vob.now.bits selection.value selection.bounds.0 selection.bounds.1) }
{
    if selection.value {
        vob.iter_set_bits(selection.bounds).count()
    } else {
        vob.iter_unset_bits(selection.bounds).count()
    }
}

pub(crate) fn count<T: Kernel>(vobs: &[Vob<T>], which: usize, selection: Selection) -> Reply<T>
    ensures { IsStep T.BITS (lists vobs.now)
        (Count which selection.value selection.bounds.0 selection.bounds.1)
        (answer_of T.number result) (lists vobs.now) }
{
    match vobs.get(which) {
        Some(vob) => Reply::Number(matching(vob, selection)),
        None => Reply::Skipped,
    }
}
