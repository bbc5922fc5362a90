//! The commands that take blocks as they come: they are taken only if they are canonical.
ghost use Rattle.std.specs.Prelude.{◌≡◌, ◌==◌, ◌&&◌, not, true, map, length, IfOk, OnErr};
ghost use Rattle.vob_block.specs.Packing.{need};
ghost use Rattle.vob_run.specs.Answer.{answer_of, refused};
ghost use Rattle.vob_run.specs.Call.{FromRaw};
ghost use Rattle.vob_run.specs.Blocks.{masked};
ghost use Rattle.vob_run.specs.Placed.{IsPlaced};
ghost use Rattle.vob_run.specs.Run.{lists, IsStep};

use crate::calls::make::placed;
use crate::calls::refused;
use crate::command::Reply;
use std::alloc::{AllocError, Global};
use vob::{RawVob, Vob, VobError};
use vob_block::Kernel;

// A copy of some blocks, by one request.
pub(super) fn copied<T: Kernel>(alloc: Global, blocks: &[T]) -> Result<Vec<T>, AllocError>
    ensures { IfOk result (λ copy. copy.items ≡ blocks.now) }
{
    let mut copy = Vec::with_capacity(alloc, blocks.len())?;
    copy.extend_from_slice(blocks)?;
    Ok(copy)
}

// Puts a Vob at the end of the list, if its blocks were taken.
pub(super) fn taken<T: Kernel, E: Drop>(vobs: &mut Vec<Vob<T>>, vob: Result<Vob<T>, E>) -> Reply<T>
    ensures ok { IfOk vob (λ v.
        IsPlaced vobs.old.items v (answer_of T.number result) vobs.new.items) }
    ensures err { OnErr vob ((answer_of T.number result ≡ refused 3)
        × (vobs.new.items ≡ vobs.old.items)) }
{
    match vob {
        Ok(vob) => placed(vobs, vob),
        Err(_) => Reply::Refused(3),
    }
}

// The storage with its unused bits made 0, if that is asked for.
fn masked_raw<T: Kernel>(raw: RawVob<T>, mask: bool) -> RawVob<T>
    requires { mask ≡ true → length raw.blocks ≡ need raw.len T.BITS }
    ensures len { result.len ≡ raw.len }
    ensures blocks { map T.number result.blocks
        ≡ masked T.BITS raw.len mask (map T.number raw.blocks) }
{
    let mut raw = raw;
    if mask {
        raw.mask_last_block();
    }
    raw
}

// Whether the blocks are as many as the bits need, or aren't to be masked.
fn can_take<T: Kernel>(blocks: &[T], len: usize, mask: bool) -> bool
    ensures { not result ≡ (mask && not (length blocks.now == need len T.BITS)) }
{
    !mask || blocks.len() == len.div_ceil(T::BITS)
}

pub(crate) fn from_raw<T: Kernel>(
    alloc: Global,
    vobs: &mut Vec<Vob<T>>,
    len: usize,
    mask: bool,
    blocks: &[T],
) -> Reply<T>
    ensures { IsStep T.BITS (lists vobs.old.items) (FromRaw len mask (map T.number blocks.now))
        (answer_of T.number result) (lists vobs.new.items) }
{
    if !can_take(blocks, len, mask) {
        return Reply::Skipped;
    }
    match copied(alloc, blocks) {
        Ok(copy) => taken(
            vobs,
            masked_raw(RawVob::from_parts(len, copy), mask).into_vob(),
        ),
        Err(refusal) => refused(VobError::from(refusal)),
    }
}
