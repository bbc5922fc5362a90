//! A Vob as digits and as bytes, and as serde writes and reads it within a struct; errors as text.
use super::support::{check_bits, check_same, pattern, pattern_digits, same, vob_of};
use serde::{Deserialize, Serialize};
use std::alloc::Global;
use std::fmt::Display;
use std::process::Abort;
use vob::{DigitsError, IndicesError, Vob, VobError};

/// A pattern of each length up to 130 is written as its digits, which are read back.
fn check_digits(rt: &(impl Abort + AllocGlobal)) {
    for len in 0..131 {
        let vob = pattern::<u8>(rt, 1, len);
        let digits = pattern_digits(rt, 1, len);
        let text = format!(in rt.alloc(); "{vob} {vob:?}").expect(rt, "memory");
        let wanted = format!(in rt.alloc(); "{digits} Vob[{digits}]").expect(rt, "memory");
        same(rt, "as text", len, text.as_str(), wanted.as_str());
        let read = Vob::<u8>::from_digits(rt.alloc(), digits.as_str()).expect(rt, "digits");
        check_same(rt, &read, &vob);
    }
}

/// The bytes of a Vob, which are as many as its bits need, are read as its bits and false ones.
fn check_bytes(rt: &(impl Abort + AllocGlobal), vob: &Vob) {
    let bytes = vob.to_bytes(rt.alloc()).expect(rt, "memory");
    same(rt, "bytes", vob.len(), bytes.len(), vob.len().div_ceil(8));
    let mut back = Vob::from_bytes(rt.alloc(), bytes.as_slice()).expect(rt, "memory");
    same(rt, "behind", vob.len(), back.next_set(vob.len()), None);
    back.truncate(vob.len());
    check_same(rt, &back, vob);
}

#[test]
fn digits_and_bytes_are_read_back(rt: HostRuntime) {
    check_digits(&rt);
    for len in 0..200 {
        check_bytes(&rt, &pattern(&rt, 2, len));
    }
    // The first byte that is no digit is named.
    let texts = ["2", "1\n", "01x1y", "0101010101é", "10 1", ""];
    let wanted = [Some(0), Some(1), Some(2), Some(10), Some(2), None];
    for (text, at) in texts.iter().zip(wanted) {
        let refused = Vob::<u8>::from_digits(rt.alloc(), text).err();
        same(&rt, text, 0, refused, at.map(DigitsError::BadDigit));
    }
}

/// The rows, the columns and the cells of a table that are shown.
#[derive(Drop, PartialEq, Serialize, Deserialize)]
struct Shown {
    rows: Vob<u8>,
    columns: Vob<u64>,
    cells: Vob<u128>,
}

/// Reads one from JSON. Blocks that don't fit a length are an error there.
fn shown_of(alloc: Global, text: &str) -> Result<Shown, serde_json::Error> {
    serde_json::from_str(alloc, text)
}

/// What is written is read as the same again. Returns the text.
fn check_shown(rt: &(impl Abort + AllocGlobal), shown: Shown) -> String {
    let text = serde_json::to_string(rt.alloc(), &shown).ok();
    let text = text.expect(rt, "written");
    let read = shown_of(rt.alloc(), text.as_str()).ok().expect(rt, "read");
    same(rt, "a struct", read.rows.len(), read == shown, true);
    text
}

#[test]
fn a_struct_with_vobs_is_written_and_read_and_dirty_storage_is_not(rt: HostRuntime) {
    let shown = Shown {
        rows: vob_of(&rt, "110000001"),
        columns: vob_of(&rt, "110"),
        cells: vob_of(&rt, ""),
    };
    let wanted = "{\"rows\":{\"len\":9,\"vec\":[3,1]},\"columns\":{\"len\":3,\"vec\":[3]},\
        \"cells\":{\"len\":0,\"vec\":[]}}";
    same(&rt, "a struct", 0, check_shown(&rt, shown).as_str(), wanted);
    for len in 0..131 {
        let shown = Shown {
            rows: pattern(&rt, 1, len),
            columns: pattern(&rt, 1, len),
            cells: pattern(&rt, 1, len),
        };
        check_shown(&rt, shown);
    }
    for text in [
        "{\"len\":9,\"vec\":[1,2]}",
        "{\"len\":9,\"vec\":[1]}",
        "{\"len\":0,\"vec\":[0]}",
        "{\"len\":8,\"vec\":[256]}",
        "{\"len\":18446744073709551615,\"vec\":[]}",
        "{\"vec\":[1]}",
    ] {
        let read: Option<Vob<u8>> = serde_json::from_str(rt.alloc(), text).ok();
        same(&rt, text, 0, read.is_none(), true);
    }
}

/// The bits of a text and one more, or any error.
fn bits_of(alloc: Global, text: &str) -> Result<Vob, anyhow::Error> {
    let mut vob: Vob = Vob::from_digits(alloc, text)?;
    vob.push(true)?;
    Ok(vob)
}

/// Compares an error as text.
fn check_error<E: Display + Drop>(rt: &(impl Abort + AllocGlobal), error: E, wanted: &str) {
    let text = format!(in rt.alloc(); "{error}").expect(rt, "memory");
    same(rt, "an error", 0, text.as_str(), wanted);
}

#[test]
fn errors_say_why_and_go_into_any_error(rt: HostRuntime) {
    check_error(&rt, VobError::TooLong, "the length would pass usize::MAX");
    check_error(&rt, VobError::Memory, "out of memory");
    check_error(&rt, VobError::PastEnd, "the index is past the end");
    check_error(&rt, IndicesError::Memory, "out of memory");
    let index = IndicesError::OutOfRange { position: 3 };
    let past = "the index at position 3 is at or past the length";
    check_error(&rt, index, past);
    check_error(&rt, DigitsError::Memory, "out of memory");
    let digit = DigitsError::BadDigit(7);
    check_error(&rt, digit, "neither 0 nor 1 at index 7");
    let read = bits_of(rt.alloc(), "10").ok().expect(&rt, "bits");
    check_bits(&rt, &read, "101");
    let error = bits_of(rt.alloc(), "1 0").err().expect(&rt, "an error");
    check_error(&rt, error, "neither 0 nor 1 at index 1");
}
