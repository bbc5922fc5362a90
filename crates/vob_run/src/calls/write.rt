//! The commands that change a Vob in its place.
ghost use Rattle.vob_run.specs.Answer.{answer_of};
ghost use Rattle.vob_run.specs.Call.{Push, Pop, SetBit, SetUnchecked, Truncate, Clear, SetAll, Negate};
ghost use Rattle.vob_run.specs.Run.{lists, IsStep};

use crate::calls::reply_to;
use crate::command::Reply;
use vob::Vob;
use vob_block::Kernel;

pub(crate) fn push<T: Kernel>(vobs: &mut Vec<Vob<T>>, which: usize, value: bool) -> Reply<T>
    ensures { IsStep T.BITS (lists vobs.old.items) (Push which value)
        (answer_of T.number result) (lists vobs.new.items) }
{
    let Some(vob) = vobs.get_mut(which) else {
        return Reply::Skipped;
    };
    reply_to(vob.push(value))
}

pub(crate) fn pop<T: Kernel>(vobs: &mut Vec<Vob<T>>, which: usize) -> Reply<T>
    ensures { IsStep T.BITS (lists vobs.old.items) (Pop which)
        (answer_of T.number result) (lists vobs.new.items) }
{
    let Some(vob) = vobs.get_mut(which) else {
        return Reply::Skipped;
    };
    Reply::Bit(vob.pop())
}

pub(crate) fn set_bit<T: Kernel>(
    vobs: &mut Vec<Vob<T>>,
    which: usize,
    index: usize,
    value: bool,
) -> Reply<T>
    ensures { IsStep T.BITS (lists vobs.old.items) (SetBit which index value)
        (answer_of T.number result) (lists vobs.new.items) }
{
    let Some(vob) = vobs.get_mut(which) else {
        return Reply::Skipped;
    };
    if index >= vob.len() {
        return Reply::Skipped;
    }
    Reply::Flag(vob.set(index, value))
}

pub(crate) fn set_unchecked<T: Kernel>(
    vobs: &mut Vec<Vob<T>>,
    which: usize,
    index: usize,
    value: bool,
) -> Reply<T>
    ensures { IsStep T.BITS (lists vobs.old.items) (SetUnchecked which index value)
        (answer_of T.number result) (lists vobs.new.items) }
{
    let Some(vob) = vobs.get_mut(which) else {
        return Reply::Skipped;
    };
    if index >= vob.len() {
        return Reply::Skipped;
    }
    Reply::Flag(vob.set_unchecked(index, value))
}

pub(crate) fn truncate<T: Kernel>(vobs: &mut Vec<Vob<T>>, which: usize, len: usize) -> Reply<T>
    ensures { IsStep T.BITS (lists vobs.old.items) (Truncate which len)
        (answer_of T.number result) (lists vobs.new.items) }
{
    let Some(vob) = vobs.get_mut(which) else {
        return Reply::Skipped;
    };
    vob.truncate(len);
    Reply::Done
}

pub(crate) fn clear<T: Kernel>(vobs: &mut Vec<Vob<T>>, which: usize) -> Reply<T>
    ensures { IsStep T.BITS (lists vobs.old.items) (Clear which)
        (answer_of T.number result) (lists vobs.new.items) }
{
    let Some(vob) = vobs.get_mut(which) else {
        return Reply::Skipped;
    };
    vob.clear();
    Reply::Done
}

pub(crate) fn set_all<T: Kernel>(vobs: &mut Vec<Vob<T>>, which: usize, value: bool) -> Reply<T>
    ensures { IsStep T.BITS (lists vobs.old.items) (SetAll which value)
        (answer_of T.number result) (lists vobs.new.items) }
{
    let Some(vob) = vobs.get_mut(which) else {
        return Reply::Skipped;
    };
    vob.set_all(value);
    Reply::Done
}

pub(crate) fn negate<T: Kernel>(vobs: &mut Vec<Vob<T>>, which: usize) -> Reply<T>
    ensures { IsStep T.BITS (lists vobs.old.items) (Negate which)
        (answer_of T.number result) (lists vobs.new.items) }
{
    let Some(vob) = vobs.get_mut(which) else {
        return Reply::Skipped;
    };
    vob.negate();
    Reply::Done
}
