//! The commands that read a Vob.
ghost use Rattle.std.specs.Prelude.{◌≡◌, IfOk, map};
ghost use Rattle.vob_block.specs.Packing.{packing};
ghost use Rattle.vob_run.specs.Answer.{answer_of};
ghost use Rattle.vob_run.specs.Call.{GetBit, GetUnchecked, IndexBit, Length, IsEmpty, Bits, Storage};
ghost use Rattle.vob_run.specs.Run.{lists, IsStep};

use crate::calls::refused;
use crate::command::Reply;
use std::alloc::{AllocError, Global};
use vob::{Vob, VobError};
use vob_block::Kernel;

pub(crate) fn get_bit<T: Kernel>(vobs: &[Vob<T>], which: usize, index: usize) -> Reply<T>
    ensures { IsStep T.BITS (lists vobs.now) (GetBit which index)
        (answer_of T.number result) (lists vobs.now) }
{
    match vobs.get(which) {
        Some(vob) => Reply::Bit(vob.get(index)),
        None => Reply::Skipped,
    }
}

pub(crate) fn get_unchecked<T: Kernel>(vobs: &[Vob<T>], which: usize, index: usize) -> Reply<T>
    ensures { IsStep T.BITS (lists vobs.now) (GetUnchecked which index)
        (answer_of T.number result) (lists vobs.now) }
{
    let Some(vob) = vobs.get(which) else {
        return Reply::Skipped;
    };
    if index >= vob.len() {
        return Reply::Skipped;
    }
    Reply::Flag(vob.get_unchecked(index))
}

pub(crate) fn index_bit<T: Kernel>(vobs: &[Vob<T>], which: usize, index: usize) -> Reply<T>
    ensures { IsStep T.BITS (lists vobs.now) (IndexBit which index)
        (answer_of T.number result) (lists vobs.now) }
{
    let Some(vob) = vobs.get(which) else {
        return Reply::Skipped;
    };
    if index >= vob.len() {
        return Reply::Skipped;
    }
    Reply::Flag(vob[index])
}

pub(crate) fn length<T: Kernel>(vobs: &[Vob<T>], which: usize) -> Reply<T>
    ensures { IsStep T.BITS (lists vobs.now) (Length which)
        (answer_of T.number result) (lists vobs.now) }
{
    match vobs.get(which) {
        Some(vob) => Reply::Number(vob.len()),
        None => Reply::Skipped,
    }
}

pub(crate) fn is_empty<T: Kernel>(vobs: &[Vob<T>], which: usize) -> Reply<T>
    ensures { IsStep T.BITS (lists vobs.now) (IsEmpty which)
        (answer_of T.number result) (lists vobs.now) }
{
    match vobs.get(which) {
        Some(vob) => Reply::Flag(vob.is_empty()),
        None => Reply::Skipped,
    }
}

// Returns the bits, in a vector that has room for all of them by one request, or that request's
// failure. `collect` would then ask for less.
fn bits_of<T: Kernel>(alloc: Global, vob: &Vob<T>) -> Result<Vec<bool>, AllocError>
    ensures { IfOk result (λ bits. bits.items ≡ vob.now.bits) }
{
    let mut bits = Vec::with_capacity(alloc, vob.len())?;
    bits.extend(vob.iter())?;
    Ok(bits)
}

pub(crate) fn bits<T: Kernel>(alloc: Global, vobs: &[Vob<T>], which: usize) -> Reply<T>
    ensures { IsStep T.BITS (lists vobs.now) (Bits which)
        (answer_of T.number result) (lists vobs.now) }
{
    let Some(vob) = vobs.get(which) else {
        return Reply::Skipped;
    };
    match bits_of(alloc, vob) {
        Ok(bits) => Reply::BitList(bits),
        Err(refusal) => refused(VobError::from(refusal)),
    }
}

// The blocks, in a vector that has room for all of them by one request.
fn blocks_of<T: Kernel>(alloc: Global, vob: &Vob<T>) -> Result<Vec<T>, AllocError>
    ensures { IfOk result (λ blocks. map T.number blocks.items ≡ packing vob.now.bits T.BITS) }
{
    let mut blocks = Vec::with_capacity(alloc, vob.len().div_ceil(T::BITS))?;
    blocks.extend(vob.iter_storage())?;
    Ok(blocks)
}

pub(crate) fn storage<T: Kernel>(alloc: Global, vobs: &[Vob<T>], which: usize) -> Reply<T>
    ensures { IsStep T.BITS (lists vobs.now) (Storage which)
        (answer_of T.number result) (lists vobs.now) }
{
    let Some(vob) = vobs.get(which) else {
        return Reply::Skipped;
    };
    match blocks_of(alloc, vob) {
        Ok(blocks) => Reply::BlockList(blocks),
        Err(refusal) => refused(VobError::from(refusal)),
    }
}
