//! What the tests share: Vobs of digits and of patterns, and what is compared. Proofs of assertions
//! and of calls with long contracts take long. So most tests assert, and take memory, by these.
ghost use Rattle.std.specs.Iterator.{IsFinite, YieldsFirst, item_count};

use std::alloc::Global;
use std::fmt::Debug;
use std::marker::Model;
use std::ops::RangeBounds;
use std::process::Abort;
use vob::{Vob, VobError};
use vob_block::Kernel;

/// Compares a result with what is wanted; the number says where: at which bit or which length.
pub fn same<V: PartialEq + Debug + Drop>(
    rt: &impl Abort,
    what: &str,
    at: usize,
    found: V,
    wanted: V,
) {
    assert_eq!(rt; found, wanted, "{what}, {at}");
}

/// Compares a list of blocks or of results with what is wanted.
pub fn same_list<V: PartialEq + Debug>(rt: &impl Abort, what: &str, found: &[V], wanted: &[V]) {
    assert_eq!(rt; found, wanted, "{what}");
}

/// All that a walk gives, in its order.
pub fn listed<V: Drop, W: Iterator<Item = V>>(rt: &(impl Abort + AllocGlobal), walk: W) -> Vec<V>
    requires ends { W.can_next walk × IsFinite (W.remaining walk) }
{
    walk.collect(rt.alloc()).expect(rt, "memory")
}

/// Appends a bit.
pub fn push<T: Kernel>(rt: &impl Abort, vob: &mut Vob<T>, value: bool) {
    vob.push(value).expect(rt, "memory");
}

/// Makes the length `len`, by bits of this value.
pub fn resize<T: Kernel>(rt: &impl Abort, vob: &mut Vob<T>, len: usize, value: bool) {
    vob.resize(len, value).expect(rt, "memory");
}

/// Appends the bits of another Vob.
pub fn join<T: Kernel>(rt: &impl Abort, vob: &mut Vob<T>, other: &Vob<T>) {
    vob.extend_from_vob(other).expect(rt, "memory");
}

/// The bits of a range, which leave the Vob.
pub fn drained<R: RangeBounds<usize>>(rt: &impl Abort, vob: &mut Vob<u8>, range: R) -> Vob<u8> {
    vob.drain(range).expect(rt, "memory")
}

/// A Vob with the same bits.
pub fn copy_of<T: Kernel>(rt: &impl Abort, vob: &Vob<T>) -> Vob<T> {
    vob.clone().expect(rt, "memory")
}

/// A Vob of one bit many times.
pub fn filled<T: Kernel>(rt: &(impl Abort + AllocGlobal), value: bool, len: usize) -> Vob<T> {
    let made = Vob::<T>::from_elem_with_storage_type(rt.alloc(), value, len);
    made.expect(rt, "memory")
}

/// The Vob of these digits, index 0 first.
pub fn vob_of<T: Kernel>(rt: &(impl Abort + AllocGlobal), digits: &str) -> Vob<T> {
    let mut vob = Vob::<T>::new_with_storage_type(rt.alloc(), 0).expect(rt, "memory");
    for digit in digits.as_bytes() {
        push(rt, &mut vob, *digit == b'1');
    }
    vob
}

/// Bit `index` of the pattern with this seed. With seed 3 no bit is true.
pub fn pattern_bit(seed: usize, index: usize) -> bool {
    let place = index % 5;
    place.wrapping_mul(place).wrapping_add(seed % 5) % 5 < 2
}

/// The first `len` bits of the pattern with this seed.
pub fn pattern<T: Kernel>(rt: &(impl Abort + AllocGlobal), seed: usize, len: usize) -> Vob<T> {
    let mut vob = Vob::<T>::new_with_storage_type(rt.alloc(), 0).expect(rt, "memory");
    for index in 0..len {
        push(rt, &mut vob, pattern_bit(seed, index));
    }
    vob
}

/// The bits from `start` to below `end` of the pattern with this seed.
pub fn pattern_list(
    rt: &(impl Abort + AllocGlobal),
    seed: usize,
    start: usize,
    end: usize,
) -> Vec<bool> {
    let mut bits = Vec::new(rt.alloc());
    for index in start..end {
        bits.push(pattern_bit(seed, index)).expect(rt, "memory");
    }
    bits
}

/// The bits that pattern 1 has once each index `i` takes the bit of index `from(i)`, and is unset if
/// there is none.
pub fn moved<F: Fn(usize) -> Option<usize>>(
    rt: &(impl Abort + AllocGlobal),
    len: usize,
    from: F,
) -> Vec<bool>
    requires { F.IsAlwaysCallable from }
{
    let mut bits = Vec::new(rt.alloc());
    for index in 0..len {
        let bit = match from(index) {
            Some(old) => pattern_bit(1, old),
            None => false,
        };
        bits.push(bit).expect(rt, "memory");
    }
    bits
}

/// The digits of the first `len` bits of the pattern with this seed.
pub fn pattern_digits(rt: &(impl Abort + AllocGlobal), seed: usize, len: usize) -> String {
    let mut digits = String::new(rt.alloc());
    for index in 0..len {
        let digit = if pattern_bit(seed, index) { '1' } else { '0' };
        digits.push(digit).expect(rt, "memory");
    }
    digits
}

/// Compares the length and the blocks.
pub fn check_blocks<T: Kernel>(rt: &impl Abort, vob: &Vob<T>, len: usize, blocks: &[T]) {
    same(rt, "the length", len, vob.len(), len);
    same_list(rt, "the blocks", vob.get_storage(), blocks);
}

/// Compares the length and the blocks of a Vob that was made.
pub fn check_made<T: Kernel, E: Debug + Drop>(
    rt: &impl Abort,
    made: Result<Vob<T>, E>,
    len: usize,
    blocks: &[T],
) {
    check_blocks(rt, &made.expect(rt, "memory"), len, blocks);
}

/// Compares the length and the blocks with those of another Vob.
pub fn check_same<T: Kernel>(rt: &impl Abort, vob: &Vob<T>, wanted: &Vob<T>) {
    check_blocks(rt, vob, wanted.len(), wanted.get_storage());
}

/// Compares the length and the blocks with those of the Vob of these bits.
pub fn check_list(rt: &(impl Abort + AllocGlobal), vob: &Vob<u8>, bits: &[bool]) {
    let mut wanted = vob_of::<u8>(rt, "");
    for bit in bits {
        push(rt, &mut wanted, *bit);
    }
    check_same(rt, vob, &wanted);
}

/// Compares by both operators.
pub fn check_equal<T: Kernel>(rt: &impl Abort, vob: &Vob<T>, other: &Vob<T>, equal: bool) {
    same(rt, "==", vob.len(), vob == other, equal);
    same(rt, "!=", vob.len(), vob != other, !equal);
}

/// Compares the length and each bit with these digits.
pub fn check_bits<T: Kernel>(rt: &impl Abort, vob: &Vob<T>, digits: &str) {
    same(rt, "the length", 0, vob.len(), digits.len());
    for (index, digit) in digits.as_bytes().iter().enumerate() {
        same(rt, "bit", index, vob.get(index), Some(*digit == b'1'));
    }
}

/// `set`, with the length tested first.
pub fn write<T: Kernel>(vob: &mut Vob<T>, index: usize, value: bool) -> Option<bool> {
    if index < vob.len() {
        Some(vob.set(index, value))
    } else {
        None
    }
}

/// The items of a slice, with a lower bound of its own as the hint.
#[derive(Drop)]
pub struct Hinted<'a> {
    pub rest: &'a [bool],
    pub lower: usize,
}

impl<'a> Model for Hinted<'a> {
    ghost use Rattle.std.specs.Prelude.{Bool, List};

    ghost Value = { List Bool };

    ghost view = { λ walk. walk.rest.now };
}

impl<'a> Iterator for Hinted<'a> {
    type Item = bool;

    ghost next_gives = { YieldsFirst (λ rest. rest) };

    ghost remaining = { item_count (λ rest. rest) };

    fn next(&mut self) -> Option<bool> {
        let (first, rest) = self.rest.split_first()?;
        self.rest = rest;
        Some(*first)
    }

    fn size_hint(&self) -> (usize, Option<usize>) {
        (self.lower.min(self.rest.len()), None)
    }
}

/// How many requests are made before those of a test. `tools/check/refuse` refuses the next one,
/// and makes fewer before them in its copies of a test, so that each of the test's own is refused
/// in turn.
pub const FIRST: usize = 100;

/// Makes `times` requests for memory, before those of a test.
pub fn request(rt: &(impl Abort + AllocGlobal), times: usize) {
    for _ in 0..times {
        let room = Vec::<u8>::with_capacity(rt.alloc(), 1).expect(rt, "memory for nothing");
        same(rt, "the room", 0, room.capacity() > 0, true);
    }
}

/// Prints `answered` if all calls of a test returned Ok.
pub fn tell(rt: &(impl Abort + Print), answered: bool) {
    if answered {
        println!(rt; "answered").expect(rt, "output");
    }
}

/// What a call gave, or nothing if memory was refused, its one refusal here.
pub fn given<V: Drop, E: PartialEq + Debug + Drop>(
    rt: &impl Abort,
    called: Result<V, E>,
    memory: E,
) -> Option<V> {
    match called {
        Ok(value) => Some(value),
        Err(refusal) => {
            same(rt, "the refusal", 0, refusal, memory);
            None
        }
    }
}

/// The Vob of these digits in bytes, by one request.
pub fn bytes_of(alloc: Global, digits: &str) -> Result<Vob<u8>, VobError> {
    let mut vob = Vob::<u8>::new_with_storage_type(alloc, 0)?;
    for digit in digits.as_bytes() {
        vob.push(*digit == b'1')?;
    }
    Ok(vob)
}
