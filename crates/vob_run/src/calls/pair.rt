//! The commands on two Vobs.
ghost use Rattle.std.specs.Prelude.{◌≡◌, ◌≢◌, ◌↔◌, ◌<◌, length, slice_get, slice_set, IsTrue, IfOk, Some};
ghost use Rattle.std.specs.Borrow.{sem, LendsBoth, Array};
ghost use Rattle.vob_block.specs.Pointwise.{pointwise};
ghost use Rattle.vob_run.specs.Answer.{answer_of};
ghost use Rattle.vob_run.specs.Pairs.{operator, combining, combining_new};
ghost use Rattle.vob_run.specs.Call.{ExtendVob, Equal};
ghost use Rattle.vob_run.specs.Run.{lists, IsStep};

use crate::calls::make::made;
use crate::calls::reply_to;
use crate::command::Reply;
use std::alloc::AllocError;
use vob::Vob;
use vob_block::Kernel;

/// How the bits of two Vobs are combined.
#[derive(Clone, Copy)]
pub(crate) enum Connective {
    And,
    Or,
    Xor,
}

impl Connective {
    // Puts the bits into the first Vob, and returns whether one changed.
    fn change<T: Kernel>(self, vob: &mut Vob<T>, other: &Vob<T>) -> bool
        requires { length vob.old.bits ≡ length other.now.bits }
        ensures bits { vob.new.bits ≡ pointwise (operator self) vob.old.bits other.now.bits }
        ensures changed { IsTrue result ↔ (vob.new.bits ≢ vob.old.bits) }
    {
        match self {
            Connective::And => vob.and(other),
            Connective::Or => vob.or(other),
            Connective::Xor => vob.xor(other),
        }
    }

    // Makes a Vob of the bits.
    fn made_of<T: Kernel>(self, vob: &Vob<T>, other: &Vob<T>) -> Result<Vob<T>, AllocError>
        requires { length vob.now.bits ≡ length other.now.bits }
        ensures { IfOk result (λ made.
            made.bits ≡ pointwise (operator self) vob.now.bits other.now.bits) }
    {
        match self {
            Connective::And => vob & other,
            Connective::Or => vob | other,
            Connective::Xor => vob ^ other,
        }
    }
}

// Two different items of a slice.
fn two_of<X>(items: &mut [X], first: usize, second: usize) -> (&mut X, &mut X)
    requires different { first ≢ second }
    requires first { first < length items.old }
    requires second { second < length items.old }
    ensures* writes_back { sem 𝓛 (LendsBoth (Array X.row 0) X.row X.row items.entry result
        (λ x y. slice_set (slice_set items.old first x) second y)) }
    ensures first { slice_get items.old first ≡ Some result.0.now }
    ensures second { slice_get items.old second ≡ Some result.1.now }
{
    if first < second {
        let (front, back) = items.split_at_mut(second);
        (&mut front[first], &mut back[0])
    } else {
        let (front, back) = items.split_at_mut(first);
        (&mut back[0], &mut front[second])
    }
}

// Whether these are the numbers of two Vobs.
fn are_two<T: Kernel>(vobs: &[Vob<T>], which: usize, other: usize) -> bool
    ensures { IsTrue result
        ↔ (which ≢ other) × (which < length vobs.now) × (other < length vobs.now) }
{
    which != other && which < vobs.len() && other < vobs.len()
}

pub(crate) fn extend_vob<T: Kernel>(vobs: &mut Vec<Vob<T>>, which: usize, other: usize) -> Reply<T>
    ensures { IsStep T.BITS (lists vobs.old.items) (ExtendVob which other)
        (answer_of T.number result) (lists vobs.new.items) }
{
    if !are_two(vobs, which, other) {
        return Reply::Skipped;
    }
    let (vob, other) = two_of(vobs, which, other);
    reply_to(vob.extend_from_vob(other))
}

pub(crate) fn combine<T: Kernel>(
    vobs: &mut Vec<Vob<T>>,
    how: Connective,
    which: usize,
    other: usize,
) -> Reply<T>
    ensures { IsStep T.BITS (lists vobs.old.items) (combining how which other)
        (answer_of T.number result) (lists vobs.new.items) }
{
    if !are_two(vobs, which, other) {
        return Reply::Skipped;
    }
    let (vob, other) = two_of(vobs, which, other);
    if vob.len() != other.len() {
        return Reply::Skipped;
    }
    Reply::Flag(how.change(vob, other))
}

pub(crate) fn combine_new<T: Kernel>(
    vobs: &mut Vec<Vob<T>>,
    how: Connective,
    which: usize,
    other: usize,
) -> Reply<T>
    ensures { IsStep T.BITS (lists vobs.old.items) (combining_new how which other)
        (answer_of T.number result) (lists vobs.new.items) }
{
    if !are_two(vobs, which, other) {
        return Reply::Skipped;
    }
    let first = &vobs[which];
    let second = &vobs[other];
    if first.len() != second.len() {
        return Reply::Skipped;
    }
    let combined = how.made_of(first, second);
    made(vobs, combined)
}

pub(crate) fn equal<T: Kernel>(vobs: &[Vob<T>], which: usize, other: usize) -> Reply<T>
    ensures { IsStep T.BITS (lists vobs.now) (Equal which other)
        (answer_of T.number result) (lists vobs.now) }
{
    if !are_two(vobs, which, other) {
        return Reply::Skipped;
    }
    Reply::Flag(vobs[which] == vobs[other])
}
