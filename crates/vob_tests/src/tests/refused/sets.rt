//! A set of indices, a Vob of digits, and bytes of one: refused, they say why.
use crate::tests::support::{FIRST, check_blocks, given, request, same, same_list, tell};
use std::alloc::AllocError;
use std::process::Abort;
use vob::{DigitsError, IndicesError, Vob, VobError};

/// Whether bits were given, which then are the first, the ninth and no other of nine.
fn is_first_and_last(rt: &impl Abort, vob: Option<Vob<u8>>) -> bool {
    let Some(vob) = vob else {
        return false;
    };
    check_blocks(rt, &vob, 9, &[3, 1]);
    true
}

#[test]
fn indices_and_digits_are_made_or_refused(rt: HostRuntime) {
    request(&rt, FIRST);
    let set = Vob::from_indices(rt.alloc(), 9, &[8, 0, 1]);
    let set = is_first_and_last(&rt, given(&rt, set, IndicesError::Memory));
    let digits = Vob::from_digits(rt.alloc(), "110000001");
    let digits = is_first_and_last(&rt, given(&rt, digits, DigitsError::Memory));
    // named whether its memory is refused, as in the third copy of the test, or not
    let outside = Vob::<u8>::from_indices(rt.alloc(), 9, &[8, 9, 10]).err();
    let first = IndicesError::OutOfRange { position: 1 };
    same(&rt, "an index past the end", 0, outside, Some(first));
    tell(&rt, set && digits);
}

#[test]
fn bytes_are_written_or_refused(rt: HostRuntime) {
    request(&rt, FIRST);
    let Ok(vob) = Vob::from_slice(rt.alloc(), &[true, true, false]) else {
        return;
    };
    let bytes = given(&rt, vob.to_bytes(rt.alloc()), AllocError);
    let written = bytes.is_some();
    if let Some(bytes) = bytes {
        same_list(&rt, "the bytes", &bytes, &[0b1100_0000]);
    }
    tell(&rt, written);
}

#[test]
fn low_bytes_are_read_and_written_or_refused(rt: HostRuntime) {
    request(&rt, FIRST);
    let vob = given(
        &rt,
        Vob::from_le_bytes(rt.alloc(), &[3, 1]),
        VobError::Memory,
    );
    let Some(vob) = vob else {
        return;
    };
    check_blocks(&rt, &vob, 16, &[0x103]);
    let bytes = given(&rt, vob.to_le_bytes(rt.alloc()), AllocError);
    let written = bytes.is_some();
    if let Some(bytes) = bytes {
        same_list(&rt, "the bytes", &bytes, &[3, 1]);
    }
    tell(&rt, written);
}
