//! Runs of commands: if memory is refused before the first, none is run. If it is refused to one
//! command, all is as if that one was skipped. Else all is as after the same run.
use crate::tests::support::{FIRST, request, same, same_list, tell};
use std::alloc::{AllocError, Global};
use std::ops::Bound::{Excluded, Included, Unbounded};
use std::process::Abort;
use vob::{End, RawVob, Vob};
use vob_block::Kernel;
use vob_run::run::{run, run_usize};
use vob_run::{Command, Reply, UsizeCommand};

/// The commands of one kind of run.
trait Runs: Drop {
    /// What the Vobs store their bits in.
    type Stored: Kernel;

    /// A command that Vobs of every block type have.
    fn common(command: Command<Self::Stored>) -> Self;

    /// The blocks of the bits `110100101`.
    fn nine(alloc: Global) -> Result<Vec<Self::Stored>, AllocError>;

    /// Runs the commands.
    fn run_all(
        alloc: Global,
        commands: &[Self],
        vobs: &mut Vec<Vob<Self::Stored>>,
        replies: &mut Vec<Reply<Self::Stored>>,
    ) -> Result<(), AllocError>;
}

impl Runs for Command<u8> {
    type Stored = u8;

    fn common(command: Command<u8>) -> Command<u8> {
        command
    }

    fn nine(alloc: Global) -> Result<Vec<u8>, AllocError> {
        [75, 1].to_vec(alloc)
    }

    fn run_all(
        alloc: Global,
        commands: &[Command<u8>],
        vobs: &mut Vec<Vob<u8>>,
        replies: &mut Vec<Reply<u8>>,
    ) -> Result<(), AllocError> {
        run(alloc, commands, vobs, replies)
    }
}

impl Runs for UsizeCommand {
    type Stored = usize;

    fn common(command: Command<usize>) -> UsizeCommand {
        UsizeCommand::Common(command)
    }

    fn nine(alloc: Global) -> Result<Vec<usize>, AllocError> {
        [331].to_vec(alloc)
    }

    fn run_all(
        alloc: Global,
        commands: &[UsizeCommand],
        vobs: &mut Vec<Vob<usize>>,
        replies: &mut Vec<Reply<usize>>,
    ) -> Result<(), AllocError> {
        run_usize(alloc, commands, vobs, replies)
    }
}

/// Which command wanted memory that wasn't there, if one did; no other did.
fn refused_at<T: Kernel>(rt: &impl Abort, replies: &[Reply<T>]) -> Option<usize> {
    let mut found = None;
    for (at, reply) in replies.iter().enumerate() {
        if let Reply::Refused(2) = reply {
            same(rt, "one request is refused", 0, found, None);
            found = Some(at);
        }
    }
    found
}

/// Puts a command that is skipped in the place of this one, and its reply.
fn skip<C: Runs>(rt: &impl Abort, at: usize, commands: &mut [C], replies: &mut [Reply<C::Stored>]) {
    let skipped = C::common(Command::Pop { which: usize::MAX });
    *commands.get_mut(at).expect(rt, "a command") = skipped;
    *replies.get_mut(at).expect(rt, "its reply") = Reply::Skipped;
}

/// Compares what a run left with what the same commands leave once more. If none was refused, one
/// may be refused now, and there is nothing to compare.
fn check_again<C: Runs>(
    rt: &(impl Abort + AllocGlobal),
    was_refused: bool,
    commands: &[C],
    vobs: &[Vob<C::Stored>],
    replies: &[Reply<C::Stored>],
) {
    let mut left = Vec::new(rt.alloc());
    let mut answered = Vec::new(rt.alloc());
    let ran = C::run_all(rt.alloc(), commands, &mut left, &mut answered);
    if ran.is_ok() && refused_at(rt, &answered).is_none() {
        same_list(rt, "the replies", replies, &answered);
        same_list(rt, "the Vobs", vobs, &left);
    } else {
        same(rt, "one request is refused", 0, was_refused, false);
    }
}

/// Whether all commands were run, and none wanted memory that wasn't there.
fn is_run<C: Runs>(rt: &(impl Abort + AllocGlobal), commands: Result<Vec<C>, AllocError>) -> bool {
    let Ok(mut commands) = commands else {
        return false;
    };
    let mut vobs = Vec::new(rt.alloc());
    let mut replies = Vec::new(rt.alloc());
    if C::run_all(rt.alloc(), &commands, &mut vobs, &mut replies).is_err() {
        same(rt, "the Vobs of no run", 0, vobs.len(), 0);
        same(rt, "the replies of no run", 0, replies.len(), 0);
        return false;
    }
    same(rt, "the replies", 0, replies.len(), commands.len());
    let refused = refused_at(rt, &replies);
    if let Some(at) = refused {
        skip(rt, at, &mut commands, &mut replies);
    }
    check_again(rt, refused.is_some(), &commands, &vobs, &replies);
    refused.is_none()
}

/// Nine commands that each take a bit off Vob 0.
fn pops<C: Runs>(alloc: Global) -> Result<Vec<C>, AllocError> {
    let mut commands = Vec::with_capacity(alloc, 9)?;
    for _ in 0..9 {
        commands.push(C::common(Command::Pop { which: 0 }))?;
    }
    Ok(commands)
}

/// The Vob of these nine bits.
fn vob_of_nine<C: Runs>(rt: &impl Abort, alloc: Global) -> Result<Vob<C::Stored>, AllocError> {
    let raw = RawVob::from_parts(9, C::nine(alloc)?);
    Ok(raw.into_vob().ok().expect(rt, "nine bits"))
}

/// Whether nine pops at nine bits were run, and appended replies to one that was there. If not, the
/// bits and the reply are as they were.
fn are_popped<C: Runs>(rt: &impl Abort, alloc: Global) -> Result<bool, AllocError> {
    let pops: Vec<C> = pops(alloc)?;
    let mut vobs = Vec::with_capacity(alloc, 1)?;
    let wanted = vob_of_nine::<C>(rt, alloc)?;
    vobs.push(vob_of_nine::<C>(rt, alloc)?)?;
    let mut replies = Vec::with_capacity(alloc, 1)?;
    replies.push(Reply::Done)?;
    if C::run_all(alloc, &pops, &mut vobs, &mut replies).is_ok() {
        same(rt, "the replies", 0, replies.len(), 10);
        return Ok(true);
    }
    same_list(rt, "the reply of before", &replies, &[Reply::Done]);
    same_list(rt, "the Vob of before", &vobs, &[wanted]);
    Ok(false)
}

#[test]
fn a_run_that_is_refused_leaves_all_of_before(rt: HostRuntime) {
    // Those for the commands, the list of Vobs and what is wanted aren't refused.
    request(&rt, FIRST - 3);
    tell(&rt, are_popped::<Command<u8>>(&rt, rt.alloc()) == Ok(true));
}

#[test]
fn a_run_of_words_that_is_refused_leaves_all_of_before(rt: HostRuntime) {
    request(&rt, FIRST - 3);
    tell(&rt, are_popped::<UsizeCommand>(&rt, rt.alloc()) == Ok(true));
}

/// Commands that make Vobs of their own, or of other Vobs' bits.
fn makers<C: Runs>(alloc: Global) -> Result<Vec<C>, AllocError> {
    let value = true;
    let blocks = C::nine(alloc)?;
    let mut commands = Vec::with_capacity(alloc, 7)?;
    commands.push(C::common(Command::New { capacity: 9 }))?;
    commands.push(C::common(Command::FromElem { value, len: 9 }))?;
    commands.push(C::common(Command::Copy { which: 1 }))?;
    let (len, mask) = (9, false);
    commands.push(C::common(Command::FromRaw { len, mask, blocks }))?;
    commands.push(C::common(Command::SplitOff { which: 3, index: 5 }))?;
    let bounds = (Included(2), Excluded(5));
    commands.push(C::common(Command::Drain { which: 3, bounds }))?;
    commands.push(C::common(Command::Length { which: 5 }))?;
    Ok(commands)
}

/// Whether they were run, after `behind` requests.
fn are_made<C: Runs>(rt: &(impl Abort + AllocGlobal), behind: usize) -> bool {
    request(rt, behind);
    is_run(rt, makers::<C>(rt.alloc()))
}

#[test]
fn vobs_are_made_or_refused(rt: HostRuntime) {
    tell(&rt, are_made::<Command<u8>>(&rt, FIRST));
}

#[test]
fn vobs_of_words_are_made_or_refused(rt: HostRuntime) {
    tell(&rt, are_made::<UsizeCommand>(&rt, FIRST));
}

/// Commands that each make room after whole blocks, for more than the room before; the last gives it back.
fn growers<C: Runs>(alloc: Global) -> Result<Vec<C>, AllocError> {
    let (which, value) = (0, true);
    let slice = [true; 399].to_vec(alloc)?;
    let items = [false; 599].to_vec(alloc)?;
    let mut commands = Vec::with_capacity(alloc, 9)?;
    // False bits show that a refused call kept them: what is appended to them is true.
    let kept = Command::FromElem {
        value: false,
        len: 128,
    };
    commands.push(C::common(kept))?;
    commands.push(C::common(Command::FromElem { value, len: 3999 }))?;
    commands.push(C::common(Command::Push { which, value }))?;
    let len = 299;
    commands.push(C::common(Command::Resize { which, len, value }))?;
    commands.push(C::common(Command::ExtendSlice { which, bits: slice }))?;
    commands.push(C::common(Command::ExtendItems { which, bits: items }))?;
    commands.push(C::common(Command::ExtendVob { which, other: 1 }))?;
    let additional = 19999;
    commands.push(C::common(Command::Reserve { which, additional }))?;
    commands.push(C::common(Command::Shrink { which }))?;
    Ok(commands)
}

/// Whether they were run, after `behind` requests.
fn are_grown<C: Runs>(rt: &(impl Abort + AllocGlobal), behind: usize) -> bool {
    request(rt, behind);
    is_run(rt, growers::<C>(rt.alloc()))
}

#[test]
fn vobs_grow_or_are_refused(rt: HostRuntime) {
    tell(&rt, are_grown::<Command<u8>>(&rt, FIRST));
}

#[test]
fn vobs_of_words_grow_or_are_refused(rt: HostRuntime) {
    tell(&rt, are_grown::<UsizeCommand>(&rt, FIRST));
}

/// Commands that combine two Vobs in a new one, and such that return a list.
fn readers<C: Runs>(alloc: Global) -> Result<Vec<C>, AllocError> {
    let (which, other, value) = (0, 1, true);
    let pulls = [End::Front, End::Back].to_vec(alloc)?;
    let bounds = (Unbounded, Unbounded);
    let mut commands = Vec::with_capacity(alloc, 8)?;
    commands.push(C::common(Command::FromElem { value, len: 9 }))?;
    commands.push(C::common(Command::Copy { which }))?;
    commands.push(C::common(Command::AndNew { which, other }))?;
    commands.push(C::common(Command::OrNew { which, other }))?;
    commands.push(C::common(Command::XorNew { which, other }))?;
    commands.push(C::common(Command::Bits { which }))?;
    commands.push(C::common(Command::Storage { which }))?;
    let walk = Command::Walk {
        which,
        value,
        bounds,
        pulls,
    };
    commands.push(C::common(walk))?;
    Ok(commands)
}

/// Whether they were run, after `behind` requests.
fn are_answered<C: Runs>(rt: &(impl Abort + AllocGlobal), behind: usize) -> bool {
    request(rt, behind);
    is_run(rt, readers::<C>(rt.alloc()))
}

#[test]
fn lists_are_answered_or_refused(rt: HostRuntime) {
    tell(&rt, are_answered::<Command<u8>>(&rt, FIRST));
}

#[test]
fn lists_of_words_are_answered_or_refused(rt: HostRuntime) {
    tell(&rt, are_answered::<UsizeCommand>(&rt, FIRST));
}

/// Commands that only Vobs of the default block type have, and one that all have.
fn makers_of_words(alloc: Global) -> Result<Vec<UsizeCommand>, AllocError> {
    let bits = [true, false, true].to_vec(alloc)?;
    let items = [true, false, true].to_vec(alloc)?;
    let bytes = [160].to_vec(alloc)?;
    let blocks = [5].to_vec(alloc)?;
    let mut commands = Vec::with_capacity(alloc, 8)?;
    commands.push(UsizeCommand::Fresh)?;
    commands.push(UsizeCommand::WithCapacity { capacity: 65 })?;
    commands.push(UsizeCommand::Fill {
        value: true,
        len: 65,
    })?;
    commands.push(UsizeCommand::FromBytes { bytes })?;
    commands.push(UsizeCommand::FromSlice { bits })?;
    commands.push(UsizeCommand::FromItems { bits: items })?;
    commands.push(UsizeCommand::FromRecord { len: 3, blocks })?;
    commands.push(UsizeCommand::Common(Command::Copy { which: 2 }))?;
    Ok(commands)
}

#[test]
fn makers_of_words_are_run_or_refused(rt: HostRuntime) {
    request(&rt, FIRST);
    tell(&rt, is_run(&rt, makers_of_words(rt.alloc())));
}

/// Runs no commands.
fn check_no_run(rt: &(impl Abort + AllocGlobal)) {
    let mut vobs: Vec<Vob<u8>> = Vec::new(rt.alloc());
    let mut replies: Vec<Reply<u8>> = Vec::new(rt.alloc());
    let ran = run(rt.alloc(), &[], &mut vobs, &mut replies);
    same(rt, "no commands", 0, ran, Ok(()));
    let mut vobs = Vec::new(rt.alloc());
    let mut replies = Vec::new(rt.alloc());
    let ran = run_usize(rt.alloc(), &[], &mut vobs, &mut replies);
    same(rt, "no commands", 0, ran, Ok(()));
}

#[test]
fn no_commands_take_no_memory(rt: HostRuntime) {
    request(&rt, FIRST);
    check_no_run(&rt);
    tell(&rt, true);
}
