//! A list of commands, run in order.
ghost use Rattle.std.specs.Prelude.{◌≡◌, [], ◌++◌, map, OnOk, OnErr, IsOk};
ghost use Rattle.vob_run.specs.Answer.{Answer, answer_of, usize_answer_of};
ghost use Rattle.vob_run.specs.Commands.{call_of, usize_call_of};
ghost use Rattle.vob_run.specs.Run.{lists, IsStep, IsRun};

use crate::calls::pair::Connective;
use crate::calls::walk::Selection;
use crate::calls::{grow, make, make_usize, pair, raw, read, walk, write};
pub use crate::command::{Command, Reply, UsizeCommand};
use std::alloc::{AllocError, Global};
use vob::Vob;
use vob_block::Kernel;

// Runs one command.
fn run_one<T: Kernel>(alloc: Global, vobs: &mut Vec<Vob<T>>, command: &Command<T>) -> Reply<T>
    ensures { IsStep T.BITS (lists vobs.old.items) (call_of T.number command.now)
        (answer_of T.number result) (lists vobs.new.items) }
{
    match *command {
        Command::New { capacity } => make::new(alloc, vobs, capacity),
        Command::FromElem { value, len } => make::from_elem(alloc, vobs, value, len),
        Command::Copy { which } => make::copy(vobs, which),
        Command::FromRaw {
            len,
            mask,
            ref blocks,
        } => raw::from_raw(alloc, vobs, len, mask, blocks),
        Command::SplitOff { which, index } => make::split_off(vobs, which, index),
        Command::Drain { which, bounds } => make::drain(vobs, which, bounds),
        Command::ExtendVob { which, other } => pair::extend_vob(vobs, which, other),
        Command::And { which, other } => pair::combine(vobs, Connective::And, which, other),
        Command::Or { which, other } => pair::combine(vobs, Connective::Or, which, other),
        Command::Xor { which, other } => pair::combine(vobs, Connective::Xor, which, other),
        Command::AndNew { which, other } => pair::combine_new(vobs, Connective::And, which, other),
        Command::OrNew { which, other } => pair::combine_new(vobs, Connective::Or, which, other),
        Command::XorNew { which, other } => pair::combine_new(vobs, Connective::Xor, which, other),
        Command::Equal { which, other } => pair::equal(vobs, which, other),
        Command::Push { which, value } => write::push(vobs, which, value),
        Command::Pop { which } => write::pop(vobs, which),
        Command::SetBit {
            which,
            index,
            value,
        } => write::set_bit(vobs, which, index, value),
        Command::SetUnchecked {
            which,
            index,
            value,
        } => write::set_unchecked(vobs, which, index, value),
        Command::Truncate { which, len } => write::truncate(vobs, which, len),
        Command::Clear { which } => write::clear(vobs, which),
        Command::SetAll { which, value } => write::set_all(vobs, which, value),
        Command::Negate { which } => write::negate(vobs, which),
        Command::Resize { which, len, value } => grow::resize(vobs, which, len, value),
        Command::ExtendSlice { which, ref bits } => grow::extend_slice(vobs, which, bits),
        Command::ExtendItems { which, ref bits } => grow::extend_items(vobs, which, bits),
        Command::Reserve { which, additional } => grow::reserve(vobs, which, additional),
        Command::Shrink { which } => grow::shrink(vobs, which),
        Command::GetBit { which, index } => read::get_bit(vobs, which, index),
        Command::GetUnchecked { which, index } => read::get_unchecked(vobs, which, index),
        Command::IndexBit { which, index } => read::index_bit(vobs, which, index),
        Command::Length { which } => read::length(vobs, which),
        Command::IsEmpty { which } => read::is_empty(vobs, which),
        Command::Bits { which } => read::bits(alloc, vobs, which),
        Command::Storage { which } => read::storage(alloc, vobs, which),
        Command::Walk {
            which,
            value,
            bounds,
            ref pulls,
        } => walk::walk(alloc, vobs, which, Selection { value, bounds }, pulls),
        Command::Count {
            which,
            value,
            bounds,
        } => walk::count(vobs, which, Selection { value, bounds }),
    }
}

/// Runs the commands in order on the numbered Vobs, and appends one reply for each. Fails if there
/// is no memory for the replies; then no command was run. A command that fails, or that names no
/// Vob, changes nothing and has its own reply.
pub fn run<T: Kernel>(
    alloc: Global,
    commands: &[Command<T>],
    vobs: &mut Vec<Vob<T>>,
    replies: &mut Vec<Reply<T>>,
) -> Result<(), AllocError>
    ensures ok { OnOk result ((added : _) × (replies.new.items ≡ replies.old.items ++ added)
        × IsRun T.BITS (lists vobs.old.items) (map (call_of T.number) commands.now)
        (map (answer_of T.number) added) (lists vobs.new.items)) }
    ensures vobs_stay { OnErr result (vobs.new.items ≡ vobs.old.items) }
    ensures replies_stay { OnErr result (replies.new.items ≡ replies.old.items) }
    ensures nothing { commands.now ≡ [] → IsOk result }
{
    replies.reserve(commands.len())?;
    for command in commands {
        let reply = run_one(alloc, vobs, command);
        replies.push_reserved(reply);
    }
    Ok(())
}

// Runs one command on Vobs of the default block type.
fn run_one_usize(alloc: Global, vobs: &mut Vec<Vob<usize>>, command: &UsizeCommand) -> Reply<usize>
    ensures { IsStep 64 (lists vobs.old.items) (usize_call_of command.now)
        (usize_answer_of result) (lists vobs.new.items) }
{
    match command {
        UsizeCommand::Common(command) => run_one(alloc, vobs, command),
        UsizeCommand::Fresh => make_usize::fresh(alloc, vobs),
        UsizeCommand::WithCapacity { capacity } => make_usize::with_capacity(
            alloc, vobs, *capacity,
        ),
        UsizeCommand::Fill { value, len } => make_usize::fill(alloc, vobs, *value, *len),
        UsizeCommand::FromBytes { bytes } => make_usize::from_bytes(alloc, vobs, bytes),
        UsizeCommand::FromSlice { bits } => make_usize::from_slice(alloc, vobs, bits),
        UsizeCommand::FromItems { bits } => make_usize::from_items(alloc, vobs, bits),
        UsizeCommand::FromRecord { len, blocks } => make_usize::from_record(
            alloc, vobs, *len, blocks,
        ),
    }
}

/// Runs the commands in order on the numbered Vobs of the default block type, and appends one reply
/// for each, as `run` does.
pub fn run_usize(
    alloc: Global,
    commands: &[UsizeCommand],
    vobs: &mut Vec<Vob<usize>>,
    replies: &mut Vec<Reply<usize>>,
) -> Result<(), AllocError>
    ensures ok { OnOk result ((added : _) × (replies.new.items ≡ replies.old.items ++ added)
        × IsRun 64 (lists vobs.old.items) (map usize_call_of commands.now)
        (map usize_answer_of added) (lists vobs.new.items)) }
    ensures vobs_stay { OnErr result (vobs.new.items ≡ vobs.old.items) }
    ensures replies_stay { OnErr result (replies.new.items ≡ replies.old.items) }
    ensures nothing { commands.now ≡ [] → IsOk result }
{
    replies.reserve(commands.len())?;
    for command in commands {
        let reply = run_one_usize(alloc, vobs, command);
        replies.push_reserved(reply);
    }
    Ok(())
}
