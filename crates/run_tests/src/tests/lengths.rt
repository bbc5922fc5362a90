//! Runs over many lengths, at each block type, where memory is there: no command is refused, and the
//! room asked for is made.
use super::support::same;
use std::alloc::{AllocError, Global};
use std::ops::Bound::{Excluded, Included, Unbounded};
use std::process::Abort;
use vob::{End, Vob};
use vob_block::Kernel;
use vob_run::run::{run, run_usize};
use vob_run::{Command, Reply, UsizeCommand};

/// Commands that make Vobs of about `len` bits, each in another way.
fn makers<T: Kernel>(alloc: Global, len: usize) -> Result<Vec<Command<T>>, AllocError> {
    let value = true;
    let mut commands = Vec::new(alloc);
    commands.push(Command::New { capacity: len })?;
    commands.push(Command::FromElem { value, len })?;
    commands.push(Command::Copy { which: 1 })?;
    commands.push(Command::AndNew { which: 1, other: 2 })?;
    commands.push(Command::OrNew { which: 1, other: 2 })?;
    commands.push(Command::XorNew { which: 1, other: 2 })?;
    let index = len / 2;
    commands.push(Command::SplitOff { which: 3, index })?;
    let bounds = (Included(index), Excluded(len));
    commands.push(Command::Drain { which: 4, bounds })?;
    Ok(commands)
}

/// Commands that add to Vob 1, and return what is in Vob 2.
fn growers<T: Kernel>(alloc: Global, len: usize) -> Result<Vec<Command<T>>, AllocError> {
    let (which, other, value) = (1, 2, true);
    let slice = Vec::from_elem(alloc, value, len)?;
    let items = Vec::from_elem(alloc, value, len)?;
    let pulls = Vec::from_elem(alloc, End::Front, len)?;
    let bounds = (Unbounded, Unbounded);
    let mut commands = Vec::new(alloc);
    commands.push(Command::Push { which, value })?;
    commands.push(Command::ExtendSlice { which, bits: slice })?;
    commands.push(Command::ExtendItems { which, bits: items })?;
    commands.push(Command::ExtendVob { which, other })?;
    let more = len.saturating_mul(5);
    commands.push(Command::Resize {
        which,
        len: more,
        value,
    })?;
    // One bit past whole blocks, where they are whole; and past what growing alone makes room for.
    let additional = len.saturating_mul(25).saturating_add(1);
    commands.push(Command::Reserve { which, additional })?;
    commands.push(Command::Bits { which: other })?;
    commands.push(Command::Storage { which: other })?;
    commands.push(Command::Walk {
        which: other,
        value,
        bounds,
        pulls,
    })?;
    Ok(commands)
}

/// For how many items the list of a reply has room, and how many it holds.
fn room_of<T: Kernel>(reply: &Reply<T>) -> (usize, usize) {
    match reply {
        Reply::BitList(list) => (list.capacity(), list.len()),
        Reply::BlockList(list) => (list.capacity(), list.len()),
        Reply::Dealt(list) => (list.capacity(), list.len()),
        _ => (0, 0),
    }
}

/// Compares that no reply is a refusal, and that the room of a list is as large as the list.
fn check_replies<T: Kernel>(rt: &impl Abort, len: usize, replies: &[Reply<T>], count: usize) {
    same(rt, "replies of length", len, replies.len(), count);
    for reply in replies {
        if let Reply::Refused(reason) = reply {
            same(rt, "a refusal at length", len, *reason, 0);
        }
        let (room, count) = room_of(reply);
        same(rt, "room for a list of length", len, room, count);
    }
}

/// Compares that a Vob has room for at least `room` bits.
fn check_room<T: Kernel>(rt: &impl Abort, vobs: &[Vob<T>], which: usize, room: usize) {
    let found = vobs.get(which).expect(rt, "a Vob");
    same(rt, "room for", room, found.capacity() >= room, true);
}

/// Runs all of them at this length.
fn check_length<T: Kernel>(rt: &(impl Abort + AllocGlobal), len: usize) {
    let mut vobs: Vec<Vob<T>> = Vec::new(rt.alloc());
    let mut replies = Vec::new(rt.alloc());
    let makers = makers(rt.alloc(), len).expect(rt, "memory");
    run(rt.alloc(), &makers, &mut vobs, &mut replies).expect(rt, "memory");
    check_replies(rt, len, &replies, 8);
    check_room(rt, &vobs, 0, len);
    let growers = growers(rt.alloc(), len).expect(rt, "memory");
    run(rt.alloc(), &growers, &mut vobs, &mut replies).expect(rt, "memory");
    check_replies(rt, len, &replies, 17);
    check_room(rt, &vobs, 1, len.saturating_mul(30).saturating_add(1));
}

/// Commands that make Vobs of words of about `len` bits or blocks, by the calls that these alone have.
fn makers_of_words(alloc: Global, len: usize) -> Result<Vec<UsizeCommand>, AllocError> {
    let value = true;
    let bits = Vec::from_elem(alloc, value, len)?;
    let items = Vec::from_elem(alloc, value, len)?;
    let bytes = Vec::from_elem(alloc, 255, len)?;
    let blocks = Vec::from_elem(alloc, usize::MAX, len)?;
    let copy = Vec::from_elem(alloc, usize::MAX, len)?;
    let places = len.saturating_mul(64);
    let mut commands = Vec::new(alloc);
    commands.push(UsizeCommand::WithCapacity { capacity: len })?;
    commands.push(UsizeCommand::Fill { value, len })?;
    commands.push(UsizeCommand::FromSlice { bits })?;
    commands.push(UsizeCommand::FromItems { bits: items })?;
    commands.push(UsizeCommand::FromBytes { bytes })?;
    commands.push(UsizeCommand::FromRecord {
        len: places,
        blocks,
    })?;
    commands.push(UsizeCommand::Common(Command::FromRaw {
        len: places,
        mask: true,
        blocks: copy,
    }))?;
    Ok(commands)
}

/// Runs those at this length.
fn check_words(rt: &(impl Abort + AllocGlobal), len: usize) {
    let mut vobs = Vec::new(rt.alloc());
    let mut replies = Vec::new(rt.alloc());
    let makers = makers_of_words(rt.alloc(), len).expect(rt, "memory");
    run_usize(rt.alloc(), &makers, &mut vobs, &mut replies).expect(rt, "memory");
    check_replies(rt, len, &replies, 7);
    check_room(rt, &vobs, 0, len);
}

#[test]
fn no_length_is_refused_where_memory_is_there(rt: HostRuntime) {
    for len in 0..130 {
        check_length::<u8>(&rt, len);
    }
    for len in [1, 2, 63, 64, 65, 128, 192, 193, 256, 257, 512, 1000, 4097] {
        check_length::<u16>(&rt, len);
        check_length::<u32>(&rt, len);
        check_length::<u64>(&rt, len);
        check_length::<u128>(&rt, len);
        check_length::<usize>(&rt, len);
        check_words(&rt, len);
    }
}
