//! The commands that add bits to a Vob, or change how many it has room for.
ghost use Rattle.std.specs.Prelude.{◌≡◌, ◌≢◌, ◌↔◌, ◌+◌, ◌<◌, ◌++◌, length, OnOk, OnErr, Err};
ghost use Rattle.vob_block.specs.Packing.{need};
ghost use Rattle.vob_run.specs.Answer.{answer_of};
ghost use Rattle.vob_run.specs.Call.{Resize, ExtendSlice, ExtendItems, Reserve, Shrink};
ghost use Rattle.vob_run.specs.Run.{lists, IsStep};

use crate::calls::reply_to;
use crate::command::Reply;
use vob::{Vob, VobError};
use vob_block::Kernel;

pub(crate) fn reserve<T: Kernel>(
    vobs: &mut Vec<Vob<T>>,
    which: usize,
    additional: usize,
) -> Reply<T>
    ensures { IsStep T.BITS (lists vobs.old.items) (Reserve which additional)
        (answer_of T.number result) (lists vobs.new.items) }
{
    let Some(vob) = vobs.get_mut(which) else {
        return Reply::Skipped;
    };
    reply_to(vob.reserve(additional))
}

pub(crate) fn shrink<T: Kernel>(vobs: &mut Vec<Vob<T>>, which: usize) -> Reply<T>
    ensures { IsStep T.BITS (lists vobs.old.items) (Shrink which)
        (answer_of T.number result) (lists vobs.new.items) }
{
    let Some(vob) = vobs.get_mut(which) else {
        return Reply::Skipped;
    };
    vob.shrink_to_fit();
    Reply::Done
}

pub(crate) fn resize<T: Kernel>(
    vobs: &mut Vec<Vob<T>>,
    which: usize,
    len: usize,
    value: bool,
) -> Reply<T>
    ensures { IsStep T.BITS (lists vobs.old.items) (Resize which len value)
        (answer_of T.number result) (lists vobs.new.items) }
{
    let Some(vob) = vobs.get_mut(which) else {
        return Reply::Skipped;
    };
    reply_to(vob.resize(len, value))
}

pub(crate) fn extend_slice<T: Kernel>(
    vobs: &mut Vec<Vob<T>>,
    which: usize,
    bits: &Vec<bool>,
) -> Reply<T>
    ensures { IsStep T.BITS (lists vobs.old.items) (ExtendSlice which bits.now.items)
        (answer_of T.number result) (lists vobs.new.items) }
{
    let Some(vob) = vobs.get_mut(which) else {
        return Reply::Skipped;
    };
    reply_to(vob.extend_from_slice(bits))
}

// Adds the bits one by one, once there is room for all of them.
fn add_items<T: Kernel>(vob: &mut Vob<T>, bits: &[bool]) -> Result<(), VobError>
    ensures ok { OnOk result (vob.new.bits ≡ vob.old.bits ++ bits.now) }
    ensures err { OnErr result (vob.new.bits ≡ vob.old.bits) }
    ensures too_long { (result ≡ Err VobError.TooLong)
        ↔ (usize.MAX < length vob.old.bits + length bits.now) }
    ensures memory { result ≡ Err VobError.Memory → need (length vob.old.bits) T.BITS
        < need (length vob.old.bits + length bits.now) T.BITS }
    ensures past_end { result ≢ Err VobError.PastEnd }
{
    vob.reserve(bits.len())?;
    vob.extend(bits.iter().copied())
}

pub(crate) fn extend_items<T: Kernel>(
    vobs: &mut Vec<Vob<T>>,
    which: usize,
    bits: &Vec<bool>,
) -> Reply<T>
    ensures { IsStep T.BITS (lists vobs.old.items) (ExtendItems which bits.now.items)
        (answer_of T.number result) (lists vobs.new.items) }
{
    let Some(vob) = vobs.get_mut(which) else {
        return Reply::Skipped;
    };
    reply_to(add_items(vob, bits))
}
