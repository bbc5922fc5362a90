//! Runs of commands on Vobs of bytes, which the program's lines don't reach.
use super::support::same;
use std::ops::Bound::{Excluded, Included, Unbounded};
use std::process::Abort;
use std::slice;
use vob::{End, Vob};
use vob_run::run::{run, run_usize};
use vob_run::{Command, Reply, UsizeCommand};

/// Runs the commands on no Vobs, and compares the replies as they print.
fn check_run(rt: &(impl Abort + AllocGlobal), commands: &[Command<u8>], replies: &str) {
    let mut vobs: Vec<Vob<u8>> = Vec::new(rt.alloc());
    let mut answered: Vec<Reply<u8>> = Vec::new(rt.alloc());
    run(rt.alloc(), commands, &mut vobs, &mut answered).expect(rt, "memory");
    let text = format!(in rt.alloc(); "{answered:?}").expect(rt, "memory");
    same(rt, "replies", 0, text.as_str(), replies);
}

/// Adds a command.
fn add(rt: &(impl Abort + AllocGlobal), commands: &mut Vec<Command<u8>>, command: Command<u8>) {
    commands.push(command).expect(rt, "memory");
}

/// Adds commands that walk over Vob 0 and count in it.
fn add_walks(rt: &(impl Abort + AllocGlobal), commands: &mut Vec<Command<u8>>) {
    let which = 0;
    let bounds = (Unbounded, Unbounded);
    let mut pulls = Vec::new(rt.alloc());
    for _ in 0..4 {
        pulls.push(End::Front).expect(rt, "memory");
        pulls.push(End::Back).expect(rt, "memory");
    }
    let value = true;
    let walk = Command::Walk {
        which,
        value,
        bounds,
        pulls,
    };
    add(rt, commands, walk);
    let value = false;
    let count = Command::Count {
        which,
        value,
        bounds,
    };
    add(rt, commands, count);
}

/// Commands that make Vob 0 of the ten bits `1011011101`.
fn commands_of_ten(rt: &(impl Abort + AllocGlobal)) -> Vec<Command<u8>> {
    let mut commands = Vec::new(rt.alloc());
    let (which, value) = (0, true);
    let none = Command::FromElem {
        value: false,
        len: 10,
    };
    add(rt, &mut commands, none);
    for index in [0, 2, 3, 5, 6, 7, 9] {
        let set = Command::SetBit {
            which,
            index,
            value,
        };
        add(rt, &mut commands, set);
    }
    commands
}

/// Makes a Vob of ten bits, walks over it, and cuts and joins it.
fn check_mixed(rt: &(impl Abort + AllocGlobal)) {
    let which = 0;
    let mut commands: Vec<Command<u8>> = commands_of_ten(rt);
    add_walks(rt, &mut commands);
    add(rt, &mut commands, Command::SplitOff { which, index: 5 });
    add(rt, &mut commands, Command::Bits { which });
    add(rt, &mut commands, Command::Bits { which: 1 });
    add(rt, &mut commands, Command::ExtendVob { which, other: 1 });
    add(rt, &mut commands, Command::Bits { which });
    add(rt, &mut commands, Command::And { which, other: 0 });
    let (index, value) = (9, true);
    let set = Command::SetBit {
        which: 1,
        index,
        value,
    };
    add(rt, &mut commands, set);
    add(rt, &mut commands, Command::GetBit { which: 7, index: 0 });
    add(rt, &mut commands, Command::And { which, other: 1 });
    check_run(
        rt,
        &commands,
        "[Made(0), Flag(true), Flag(true), Flag(true), Flag(true), Flag(true), Flag(true), \
            Flag(true), Dealt([Some(0), Some(9), Some(2), Some(7), Some(3), Some(6), Some(5), \
            None]), Number(3), Made(1), BitList([true, false, true, true, false]), \
            BitList([true, true, true, false, true]), Done, BitList([true, false, true, true, \
            false, true, true, true, false, true]), Skipped, Skipped, Skipped, Skipped]",
    );
}

/// Takes three of ten bits out, then none, and refuses a cut past the end of what is left.
fn check_drained(rt: &(impl Abort + AllocGlobal)) {
    let which = 0;
    let mut commands: Vec<Command<u8>> = commands_of_ten(rt);
    let bounds = (Included(2), Excluded(5));
    add(rt, &mut commands, Command::Drain { which, bounds });
    add(rt, &mut commands, Command::Bits { which });
    add(rt, &mut commands, Command::Bits { which: 1 });
    add(rt, &mut commands, Command::SplitOff { which, index: 8 });
    let bounds = (Included(3), Excluded(1));
    add(rt, &mut commands, Command::Drain { which, bounds });
    add(rt, &mut commands, Command::Length { which: 2 });
    let bounds = (Unbounded, Unbounded);
    add(rt, &mut commands, Command::Drain { which: 3, bounds });
    check_run(
        rt,
        &commands,
        "[Made(0), Flag(true), Flag(true), Flag(true), Flag(true), Flag(true), Flag(true), \
            Flag(true), Made(1), BitList([true, false, true, true, true, false, true]), \
            BitList([true, true, false]), Refused(4), Made(2), Number(0), Skipped]",
    );
}

#[test]
fn each_command_has_its_reply(rt: HostRuntime) {
    check_mixed(&rt);
    check_drained(&rt);
}

#[test]
fn numbers_that_no_vob_has_are_skipped(rt: HostRuntime) {
    let mut commands: Vec<Command<u8>> = Vec::new(rt.alloc());
    let which = 1;
    let value = true;
    add(&rt, &mut commands, Command::New { capacity: 9 });
    add(&rt, &mut commands, Command::Push { which, value });
    add(&rt, &mut commands, Command::GetBit { which, index: 0 });
    add(&rt, &mut commands, Command::Length { which: usize::MAX });
    add(&rt, &mut commands, Command::Bits { which: 2 });
    add(&rt, &mut commands, Command::Storage { which });
    let replies = "[Made(0), Skipped, Skipped, Skipped, Skipped, Skipped]";
    check_run(&rt, &commands, replies);
}

#[test]
fn commands_are_named_in_the_module_of_their_calls(rt: HostRuntime) {
    let mut vobs: Vec<Vob<u8>> = Vec::new(rt.alloc());
    let mut replies = Vec::new(rt.alloc());
    let new = Command::New { capacity: 0 };
    let commands = slice::from_ref(&new);
    run(rt.alloc(), commands, &mut vobs, &mut replies).expect(&rt, "memory");
    same(&rt, "new", 0, replies.pop(), Some(Reply::Made(0)));
    let mut words: Vec<Vob> = Vec::new(rt.alloc());
    let mut replies = Vec::new(rt.alloc());
    let commands = slice::from_ref(&UsizeCommand::Fresh);
    run_usize(rt.alloc(), commands, &mut words, &mut replies).expect(&rt, "memory");
    same(&rt, "fresh", 0, replies.pop(), Some(Reply::Made(0)));
}
