//! What the tests share: Vobs of digits and of patterns, what is compared, and a check at each
//! block type. Proofs of assertions and of calls with long contracts take long. So most tests
//! assert, and take memory, by these.
ghost use Rattle.std.specs.Iterator.{IsFinite};

use std::alloc::Global;
use std::fmt::Debug;
use std::process::Abort;
use vob::{Vob, VobError};
use vob_block::Kernel;

macro_rules! at_each_block_type {
    ($check:ident($($argument:expr),*)) => {{
        $check::<u8>($($argument),*);
        $check::<u16>($($argument),*);
        $check::<u32>($($argument),*);
        $check::<u64>($($argument),*);
        $check::<u128>($($argument),*);
        $check::<usize>($($argument),*);
    }};
}

pub(super) use at_each_block_type;

/// Compares a result with what is wanted; the number says where: at which bit or which length.
pub fn same<V: PartialEq + Debug + Drop>(
    rt: &impl Abort,
    what: &str,
    at: usize,
    found: V,
    wanted: V,
) {
    assert_eq!(rt; found, wanted, "{what}, {at}");
}

/// Compares a list of blocks or of results with what is wanted.
pub fn same_list<V: PartialEq + Debug>(rt: &impl Abort, what: &str, found: &[V], wanted: &[V]) {
    assert_eq!(rt; found, wanted, "{what}");
}

/// Lists all that a walk gives, in its order.
pub fn listed<V: Drop, W: Iterator<Item = V>>(rt: &(impl Abort + AllocGlobal), walk: W) -> Vec<V>
    requires ends { W.can_next walk × IsFinite (W.remaining walk) }
{
    walk.collect(rt.alloc()).expect(rt, "memory")
}

/// Makes the Vob of these digits, index 0 first.
pub fn vob_of<T: Kernel>(rt: &(impl Abort + AllocGlobal), digits: &str) -> Vob<T> {
    Vob::<T>::from_digits(rt.alloc(), digits).expect(rt, "digits")
}

/// Makes a Vob of one bit many times.
pub fn filled<T: Kernel>(rt: &(impl Abort + AllocGlobal), value: bool, len: usize) -> Vob<T> {
    let made = Vob::<T>::from_elem_with_storage_type(rt.alloc(), value, len);
    made.expect(rt, "memory")
}

/// Appends a bit.
pub fn push<T: Kernel>(rt: &impl Abort, vob: &mut Vob<T>, value: bool) {
    vob.push(value).expect(rt, "memory");
}

/// Bit `index` of the pattern with this seed. With seed 3 no bit is true.
pub fn pattern_bit(seed: usize, index: usize) -> bool {
    let place = index % 5;
    place.wrapping_mul(place).wrapping_add(seed % 5) % 5 < 2
}

/// Makes the first `len` bits of the pattern with this seed.
pub fn pattern<T: Kernel>(rt: &(impl Abort + AllocGlobal), seed: usize, len: usize) -> Vob<T> {
    let mut vob = Vob::<T>::new_with_storage_type(rt.alloc(), 0).expect(rt, "memory");
    for index in 0..len {
        push(rt, &mut vob, pattern_bit(seed, index));
    }
    vob
}

/// `set`, with the length tested first.
pub fn write<T: Kernel>(vob: &mut Vob<T>, index: usize, value: bool) -> Option<bool> {
    if index < vob.len() {
        Some(vob.set(index, value))
    } else {
        None
    }
}

/// How many requests are made before those of a test. `tools/check/refuse` refuses the next one,
/// and makes fewer before them in its copies of a test, so that each of the test's own is refused
/// in turn.
pub const FIRST: usize = 100;

/// Makes `times` requests for memory, before those of a test.
pub fn request(rt: &(impl Abort + AllocGlobal), times: usize) {
    for _ in 0..times {
        let room = Vec::<u8>::with_capacity(rt.alloc(), 1).expect(rt, "memory for nothing");
        same(rt, "the room", 0, room.capacity() > 0, true);
    }
}

/// Prints `answered` if all calls of a test returned Ok.
pub fn tell(rt: &(impl Abort + Print), answered: bool) {
    if answered {
        println!(rt; "answered").expect(rt, "output");
    }
}

/// The Vob of these digits in bytes, by one request.
pub fn bytes_of(alloc: Global, digits: &str) -> Result<Vob<u8>, VobError> {
    let mut vob = Vob::<u8>::new_with_storage_type(alloc, 0)?;
    for digit in digits.as_bytes() {
        vob.push(*digit == b'1')?;
    }
    Ok(vob)
}
