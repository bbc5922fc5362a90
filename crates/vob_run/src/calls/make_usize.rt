//! The commands that make a Vob of the default block type.
ghost use Rattle.std.specs.Prelude.{◌≡◌, IfOk, IfErr};
ghost use Rattle.vob.specs.Refusal.{refusal_number};
ghost use Rattle.vob_run.specs.Answer.{usize_answer_of, refused};
ghost use Rattle.vob_run.specs.Call.{Fresh, WithCapacity, Fill, FromBytes, FromSlice, FromItems, FromRecord};
ghost use Rattle.vob_run.specs.Placed.{IsPlaced};
ghost use Rattle.vob_run.specs.Run.{lists, IsStep};

use crate::calls::make::{made, placed};
use crate::calls::raw::{copied, taken};
use crate::calls::refused;
use crate::command::Reply;
use std::alloc::Global;
use vob::{Vob, VobError, VobRecord};

// Puts a Vob at the end of the list, if it was made.
fn added(vobs: &mut Vec<Vob<usize>>, vob: Result<Vob<usize>, VobError>) -> Reply<usize>
    ensures ok { IfOk vob (λ v.
        IsPlaced vobs.old.items v (usize_answer_of result) vobs.new.items) }
    ensures err { IfErr vob (λ refusal.
        (usize_answer_of result ≡ refused (refusal_number refusal))
        × (vobs.new.items ≡ vobs.old.items)) }
{
    match vob {
        Ok(vob) => placed(vobs, vob),
        Err(refusal) => refused(refusal),
    }
}

pub(crate) fn fresh(alloc: Global, vobs: &mut Vec<Vob<usize>>) -> Reply<usize>
    ensures { IsStep 64 (lists vobs.old.items) Fresh (usize_answer_of result)
        (lists vobs.new.items) }
{
    placed(vobs, Vob::new(alloc))
}

pub(crate) fn with_capacity(
    alloc: Global,
    vobs: &mut Vec<Vob<usize>>,
    capacity: usize,
) -> Reply<usize>
    ensures { IsStep 64 (lists vobs.old.items) (WithCapacity capacity)
        (usize_answer_of result) (lists vobs.new.items) }
{
    made(vobs, Vob::with_capacity(alloc, capacity))
}

pub(crate) fn fill(
    alloc: Global,
    vobs: &mut Vec<Vob<usize>>,
    value: bool,
    len: usize,
) -> Reply<usize>
    ensures { IsStep 64 (lists vobs.old.items) (Fill value len) (usize_answer_of result)
        (lists vobs.new.items) }
{
    made(vobs, Vob::from_elem(alloc, value, len))
}

pub(crate) fn from_bytes(alloc: Global, vobs: &mut Vec<Vob<usize>>, bytes: &[u8]) -> Reply<usize>
    ensures { IsStep 64 (lists vobs.old.items) (FromBytes bytes.now)
        (usize_answer_of result) (lists vobs.new.items) }
{
    added(vobs, Vob::from_bytes(alloc, bytes))
}

pub(crate) fn from_slice(alloc: Global, vobs: &mut Vec<Vob<usize>>, bits: &[bool]) -> Reply<usize>
    ensures { IsStep 64 (lists vobs.old.items) (FromSlice bits.now)
        (usize_answer_of result) (lists vobs.new.items) }
{
    made(vobs, Vob::from_slice(alloc, bits))
}

pub(crate) fn from_items(alloc: Global, vobs: &mut Vec<Vob<usize>>, bits: &[bool]) -> Reply<usize>
    ensures { IsStep 64 (lists vobs.old.items) (FromItems bits.now)
        (usize_answer_of result) (lists vobs.new.items) }
{
    added(vobs, Vob::from_iter(alloc, bits.iter().copied()))
}

pub(crate) fn from_record(
    alloc: Global,
    vobs: &mut Vec<Vob<usize>>,
    len: usize,
    blocks: &[usize],
) -> Reply<usize>
    ensures { IsStep 64 (lists vobs.old.items) (FromRecord len blocks.now)
        (usize_answer_of result) (lists vobs.new.items) }
{
    match copied(alloc, blocks) {
        Ok(vec) => taken(vobs, VobRecord { len, vec }.into_vob()),
        Err(refusal) => refused(VobError::from(refusal)),
    }
}
