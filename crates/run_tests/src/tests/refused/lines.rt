//! A conversation over eight lines, into room that is there: what is written where a request is refused.
use crate::tests::support::{FIRST, request, same, same_list, tell};
use std::process::Abort;
use vob_lines::converse;

/// Makes a Vob, puts `101` into it, and asks for its bits, blocks, length, and a bit past its end.
const LINES: &[u8] = b"new 0\npush 0 1\npush 0 0\npush 0 1\nbits 0\nblocks 0\nlen 0\nget 0 3\n";

/// What was refused, and what is written then. A Vob that isn't made makes the rest name none.
const ANSWERS: [(&str, &str); 6] = [
    ("the input, the commands or the replies", "memory\n"),
    (
        "the list of Vobs",
        "refused 2\nskipped\nskipped\nskipped\nskipped\nskipped\nskipped\nskipped\n",
    ),
    (
        "the first block",
        "vob 0\nrefused 2\ndone\ndone\nbits 01\nblocks 2\nnumber 2\nbit none\n",
    ),
    (
        "the list of bits",
        "vob 0\ndone\ndone\ndone\nrefused 2\nblocks 5\nnumber 3\nbit none\n",
    ),
    (
        "the list of blocks",
        "vob 0\ndone\ndone\ndone\nbits 101\nrefused 2\nnumber 3\nbit none\n",
    ),
    (
        "nothing",
        "vob 0\ndone\ndone\ndone\nbits 101\nblocks 5\nnumber 3\nbit none\n",
    ),
];

/// What was refused, where this is all that was written.
fn refused_by(rt: &impl Abort, written: &[u8]) -> &'static str {
    for (refused, answer) in &ANSWERS {
        if written == answer.as_bytes() {
            return refused;
        }
    }
    let text = str::from_utf8(written).unwrap_or("bytes that are no text");
    panic!(rt; "no answer of these lines: {text}");
}

/// Prints what was refused, and whether all succeeded, after `behind` requests.
fn check_lines(rt: &(impl Abort + AllocGlobal + Print), behind: usize) {
    request(rt, behind);
    let Ok(mut written) = Vec::with_capacity(rt.alloc(), 100) else {
        return;
    };
    let mut input = LINES;
    let status = converse(rt.alloc(), &mut input, &mut written);
    let refused = refused_by(rt, &written);
    let whole = if refused == "the input, the commands or the replies" {
        3
    } else {
        0
    };
    same(rt, "the status", 0, status, whole);
    if refused == "nothing" {
        tell(rt, true);
    } else {
        println!(rt; "refused: {refused}").expect(rt, "output");
    }
}

#[test]
fn lines_are_answered_or_refused(rt: HostRuntime) {
    check_lines(&rt, FIRST);
}

/// Whether a bad line is reported, of lines for whose input there is memory; else `memory` is. The room
/// for what is written and the input take a request each.
fn is_bad_line_told(rt: &(impl Abort + AllocGlobal), lines: &[u8], told: &[u8]) -> bool {
    let mut written = Vec::with_capacity(rt.alloc(), 100).expect(rt, "memory");
    let mut input = lines;
    let status = converse(rt.alloc(), &mut input, &mut written);
    let is_told = status != 3;
    let (text, wanted) = if is_told {
        (told, 2)
    } else {
        (b"memory\n".as_slice(), 3)
    };
    same(rt, "the status", 0, status, wanted);
    same_list(rt, "what is written", &written, text);
    is_told
}

// Memory that is refused for the command of the first line comes before the bad line.
#[test]
fn a_bad_second_line_is_found_by_one_request(rt: HostRuntime) {
    request(&rt, FIRST - 2);
    tell(&rt, is_bad_line_told(&rt, b"new 0\nfoo\n", b"bad line 2\n"));
}

// The list of the second line would take a request.
#[test]
fn lines_after_a_bad_one_take_no_memory(rt: HostRuntime) {
    request(&rt, FIRST - 2);
    let is_told = is_bad_line_told(&rt, b"foo\nslice 1\n", b"bad line 1\n");
    same(&rt, "the bad line is told", 0, is_told, true);
    tell(&rt, is_told);
}
