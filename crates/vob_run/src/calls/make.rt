//! The commands that make a Vob, at the end of the list.
ghost use Rattle.std.specs.Prelude.{◌≡◌, IfOk, OnErr};
ghost use Rattle.vob_run.specs.Answer.{answer_of, refused};
ghost use Rattle.vob_run.specs.Call.{New, FromElem, Copy, SplitOff, Drain};
ghost use Rattle.vob_run.specs.Placed.{IsPlaced};
ghost use Rattle.vob_run.specs.Run.{lists, IsStep};

use crate::calls::refused;
use crate::command::Reply;
use std::alloc::{AllocError, Global};
use std::ops::Bound;
use vob::{Vob, VobError};
use vob_block::Kernel;

// Puts a Vob at the end of the list, if there is room for it.
pub(super) fn placed<T: Kernel>(vobs: &mut Vec<Vob<T>>, vob: Vob<T>) -> Reply<T>
    ensures { IsPlaced vobs.old.items vob (answer_of T.number result) vobs.new.items }
{
    let which = vobs.len();
    if vobs.reserve(1).is_err() {
        return refused(VobError::Memory);
    }
    vobs.push_reserved(vob);
    Reply::Made(which)
}

// Puts a Vob at the end of the list, if memory for it was there.
pub(super) fn made<T: Kernel>(vobs: &mut Vec<Vob<T>>, vob: Result<Vob<T>, AllocError>) -> Reply<T>
    ensures ok { IfOk vob (λ v.
        IsPlaced vobs.old.items v (answer_of T.number result) vobs.new.items) }
    ensures err { OnErr vob ((answer_of T.number result ≡ refused 2)
        × (vobs.new.items ≡ vobs.old.items)) }
{
    match vob {
        Ok(vob) => placed(vobs, vob),
        Err(refusal) => refused(VobError::from(refusal)),
    }
}

pub(crate) fn new<T: Kernel>(alloc: Global, vobs: &mut Vec<Vob<T>>, capacity: usize) -> Reply<T>
    ensures { IsStep T.BITS (lists vobs.old.items) (New capacity)
        (answer_of T.number result) (lists vobs.new.items) }
{
    made(vobs, Vob::new_with_storage_type(alloc, capacity))
}

pub(crate) fn from_elem<T: Kernel>(
    alloc: Global,
    vobs: &mut Vec<Vob<T>>,
    value: bool,
    len: usize,
) -> Reply<T>
    ensures { IsStep T.BITS (lists vobs.old.items) (FromElem value len)
        (answer_of T.number result) (lists vobs.new.items) }
{
    made(vobs, Vob::from_elem_with_storage_type(alloc, value, len))
}

pub(crate) fn copy<T: Kernel>(vobs: &mut Vec<Vob<T>>, which: usize) -> Reply<T>
    ensures { IsStep T.BITS (lists vobs.old.items) (Copy which)
        (answer_of T.number result) (lists vobs.new.items) }
{
    if which >= vobs.len() {
        return Reply::Skipped;
    }
    let copy = vobs[which].clone();
    made(vobs, copy)
}

pub(crate) fn split_off<T: Kernel>(vobs: &mut Vec<Vob<T>>, which: usize, index: usize) -> Reply<T>
    ensures { IsStep T.BITS (lists vobs.old.items) (SplitOff which index)
        (answer_of T.number result) (lists vobs.new.items) }
{
    let count = vobs.len();
    if which >= count {
        return Reply::Skipped;
    }
    // This is refused before memory is, also before room in the list.
    if index > vobs[which].len() {
        return refused(VobError::PastEnd);
    }
    if vobs.reserve(1).is_err() {
        return refused(VobError::Memory);
    }
    match vobs[which].split_off(index) {
        Ok(rest) => {
            vobs.push_reserved(rest);
            Reply::Made(count)
        }
        Err(refusal) => refused(refusal),
    }
}

pub(crate) fn drain<T: Kernel>(
    vobs: &mut Vec<Vob<T>>,
    which: usize,
    bounds: (Bound<usize>, Bound<usize>),
) -> Reply<T>
    ensures { IsStep T.BITS (lists vobs.old.items) (Drain which bounds.0 bounds.1)
        (answer_of T.number result) (lists vobs.new.items) }
{
    let count = vobs.len();
    if which >= count {
        return Reply::Skipped;
    }
    if vobs.reserve(1).is_err() {
        return refused(VobError::Memory);
    }
    match vobs[which].drain(bounds) {
        Ok(taken) => {
            vobs.push_reserved(taken);
            Reply::Made(count)
        }
        Err(refusal) => refused(VobError::from(refusal)),
    }
}
