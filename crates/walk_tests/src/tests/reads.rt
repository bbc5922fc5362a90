//! How many blocks a walk reads, said by contracts: at most one for each index that it gave and each
//! block of its range. No block is read twice. A walk over runs reads each block once, but one twice
//! if both ends are pulled.
ghost use Rattle.std.specs.Prelude.{◌≡◌, ◌+◌, ◌≤◌, [], length, None, IfOk};
ghost use Rattle.vob_walk.specs.Walk.{given_count};

use super::support::{filled, same, vob_of};
use std::alloc::AllocError;
use std::ops::Range;
use std::process::Abort;
use vob::{End, IterSetBits, IterUnsetBits, Runs, Vob, deal};

/// Pulls at the set bits of ten bits, which two bytes hold.
fn set_of_ten<'a>(
    vob: &'a Vob<u8>,
    pulls: &[End],
    answers: &mut Vec<Option<usize>>,
) -> Result<IterSetBits<'a, u8>, AllocError>
    requires ten { length vob.now.bits ≡ 10 }
    requires empty { answers.old.items ≡ [] }
    ensures given { IfOk result (λ walk. walk.reads ≤ given_count answers.new.items + 2) }
    ensures held { IfOk result (λ walk. walk.reads ≤ 2) }
{
    let mut walk = vob.iter_set_bits(..);
    deal(&mut walk, pulls, answers)?;
    Ok(walk)
}

/// Pulls at the unset bits of ten bits, which two bytes hold.
fn unset_of_ten<'a>(
    vob: &'a Vob<u8>,
    pulls: &[End],
    answers: &mut Vec<Option<usize>>,
) -> Result<IterUnsetBits<'a, u8>, AllocError>
    requires ten { length vob.now.bits ≡ 10 }
    requires empty { answers.old.items ≡ [] }
    ensures given { IfOk result (λ walk. walk.reads ≤ given_count answers.new.items + 2) }
    ensures held { IfOk result (λ walk. walk.reads ≤ 2) }
{
    let mut walk = vob.iter_unset_bits(..);
    deal(&mut walk, pulls, answers)?;
    Ok(walk)
}

/// Pulls at the set bits of 24 bits, which three bytes hold.
fn set_of_24<'a>(
    vob: &'a Vob<u8>,
    pulls: &[End],
    answers: &mut Vec<Option<usize>>,
) -> Result<IterSetBits<'a, u8>, AllocError>
    requires many { length vob.now.bits ≡ 24 }
    requires empty { answers.old.items ≡ [] }
    ensures given { IfOk result (λ walk. walk.reads ≤ given_count answers.new.items + 3) }
    ensures held { IfOk result (λ walk. walk.reads ≤ 3) }
{
    let mut walk = vob.iter_set_bits(..);
    deal(&mut walk, pulls, answers)?;
    Ok(walk)
}

/// What a walk over the set bits of no bits gives at its ends: it reads nothing.
fn ends_of_none<'a>(vob: &'a Vob<u8>) -> (Option<usize>, Option<usize>, IterSetBits<'a, u8>)
    requires none { length vob.now.bits ≡ 0 }
    ensures { result.0 ≡ None → result.1 ≡ None → result.2.reads ≡ 0 }
{
    let mut walk = vob.iter_set_bits(..);
    let first = walk.next();
    let last = walk.next_back();
    (first, last, walk)
}

/// The third run of ten bits, which two bytes hold, and the walk after it.
fn third_of_ten<'a>(vob: &'a Vob<u8>) -> (Option<Range<usize>>, Runs<'a, u8>)
    requires ten { length vob.now.bits ≡ 10 }
    ensures { result.1.reads ≤ 2 }
{
    let mut runs = vob.runs();
    runs.next();
    runs.next();
    let third = runs.next();
    (third, runs)
}

/// The first run of ten bits, which two bytes hold, the last but one, and the walk after them.
fn ends_of_ten<'a>(vob: &'a Vob<u8>) -> (Option<Range<usize>>, Option<Range<usize>>, Runs<'a, u8>)
    requires ten { length vob.now.bits ≡ 10 }
    ensures { result.2.reads ≤ 3 }
{
    let mut runs = vob.runs();
    runs.next_back();
    let first = runs.next();
    let last = runs.next_back();
    (first, last, runs)
}

/// Pulls at both ends in turn until none of ten bits is left: seven are set, three are unset.
fn check_ten(rt: &(impl Abort + AllocGlobal), vob: &Vob<u8>) {
    let (front, back) = (End::Front, End::Back);
    let turns = [front, back, front, back, front, back, front, back];
    let mut answers = Vec::new(rt.alloc());
    assert!(rt; vob.len() == 10);
    let walk = set_of_ten(vob, &turns, &mut answers).expect(rt, "memory");
    same(rt, "set bits left", 0, walk.count(), 0);
    same(rt, "the last but one", 0, answers.get(6), Some(&Some(5)));
    let mut answers = Vec::new(rt.alloc());
    assert!(rt; vob.len() == 10);
    let walk = unset_of_ten(vob, &turns[1..5], &mut answers).expect(rt, "memory");
    same(rt, "unset bits left", 0, walk.count(), 0);
    same(rt, "the last but one", 0, answers.get(2), Some(&Some(4)));
}

/// Compares the indices that pulls at the front of 24 bits gave, which are all of this value.
fn check_24(rt: &(impl Abort + AllocGlobal), value: bool, pulls: &[End], last: Option<usize>) {
    let many = filled::<u8>(rt, value, 24);
    let mut answers = Vec::new(rt.alloc());
    assert!(rt; many.len() == 24);
    let walk = set_of_24(&many, pulls, &mut answers).expect(rt, "memory");
    same(rt, "set bits left", 24, walk.count(), 0);
    same(rt, "the last given", 24, answers.last(), Some(&last));
}

#[test]
fn blocks_in_hand_are_not_read_again(rt: HostRuntime) {
    check_ten(&rt, &vob_of(&rt, "1011011101"));
    check_24(&rt, false, &[End::Front; 2], None);
    check_24(&rt, true, &[End::Front; 24], Some(23));
    let ten = vob_of(&rt, "1011011101");
    assert!(rt; ten.len() == 10);
    let (third, mut runs) = third_of_ten(&ten);
    let found = (third, runs.next());
    same(
        &rt,
        "the last two runs",
        0,
        found,
        (Some(5..8), Some(9..10)),
    );
    let ten = vob_of(&rt, "1011011101");
    assert!(rt; ten.len() == 10);
    let (first, last, mut runs) = ends_of_ten(&ten);
    let found = (first, last, runs.next_back());
    let wanted = (Some(0..1), Some(5..8), Some(2..4));
    same(&rt, "the others", 0, found, wanted);
    let none = vob_of::<u8>(&rt, "");
    assert!(rt; none.len() == 0);
    let (first, last, walk) = ends_of_none(&none);
    same(&rt, "the ends of none", 0, (first, last), (None, None));
    same(&rt, "left of none", 0, walk.count(), 0);
}
