//! What the tests share: what is compared, and requests for memory. Proofs of assertions take long.
//! So most tests assert by these.
use std::fmt::{Debug, Display};
use std::process::Abort;

/// Compares a result with what is wanted; the number says where: at which bit or which length.
pub fn same<V: PartialEq + Debug + Drop>(
    rt: &impl Abort,
    what: &str,
    at: usize,
    found: V,
    wanted: V,
) {
    assert_eq!(rt; found, wanted, "{what}, {at}");
}

/// Compares a list of blocks or of results with what is wanted.
pub fn same_list<V: PartialEq + Debug>(rt: &impl Abort, what: &str, found: &[V], wanted: &[V]) {
    assert_eq!(rt; found, wanted, "{what}");
}

/// Compares an error as text.
pub fn check_error<E: Display + Drop>(rt: &(impl Abort + AllocGlobal), error: E, wanted: &str) {
    let text = format!(in rt.alloc(); "{error}").expect(rt, "memory");
    same(rt, "an error", 0, text.as_str(), wanted);
}

/// How many requests are made before those of a test. `tools/check/refuse` refuses the next one,
/// and makes fewer before them in its copies of a test, so that each of the test's own is refused
/// in turn.
pub const FIRST: usize = 100;

/// Makes `times` requests for memory, before those of a test.
pub fn request(rt: &(impl Abort + AllocGlobal), times: usize) {
    for _ in 0..times {
        let room = Vec::<u8>::with_capacity(rt.alloc(), 1).expect(rt, "memory for nothing");
        same(rt, "the room", 0, room.capacity() > 0, true);
    }
}

/// Prints `answered` if all calls of a test returned Ok.
pub fn tell(rt: &(impl Abort + Print), answered: bool) {
    if answered {
        println!(rt; "answered").expect(rt, "output");
    }
}

/// What a call gave, or nothing if memory was refused, its one refusal here.
pub fn given<V: Drop, E: PartialEq + Debug + Drop>(
    rt: &impl Abort,
    called: Result<V, E>,
    memory: E,
) -> Option<V> {
    match called {
        Ok(value) => Some(value),
        Err(refusal) => {
            same(rt, "the refusal", 0, refusal, memory);
            None
        }
    }
}
