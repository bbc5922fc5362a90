//! Readers and writers that fail, are interrupted, never end, or take a few bytes a call.

use crate::converse;
use std::io;
use std::io::{ErrorKind, Read, Write};
use std::process::Abort;

/// A reader that always has one more space, and counts how often it is read.
#[derive(Drop)]
struct Spaces {
    reads: usize,
}

impl Read for Spaces {
    fn read(&mut self, buf: &mut [u8]) -> io::Result<usize> {
        self.reads = self.reads.saturating_add(1);
        if buf.is_empty() {
            return Ok(0);
        }
        buf[0] = b' ';
        Ok(1)
    }
}

#[test]
fn reading_ends_though_the_input_does_not(rt: HostRuntime) {
    let mut input = Spaces { reads: 0 };
    let mut written = Vec::new(rt.alloc());
    assert_eq!(rt; converse(rt.alloc(), &mut input, &mut written), 1);
    assert!(rt; written.is_empty(), "nothing is written");
    assert_eq!(rt; input.reads, 1048576);
}

/// A reader of one byte at a time and a writer, which fail in this way after a number of calls, and
/// go on. The next call doesn't report a failure that is passed over.
#[derive(Drop)]
struct Failing<'a> {
    input: &'a [u8],
    calls_left: usize,
    kind: ErrorKind,
}

impl Failing<'_> {
    fn call(&mut self) -> io::Result<()> {
        match self.calls_left.checked_sub(1) {
            Some(left) => {
                self.calls_left = left;
                Ok(())
            }
            None => {
                self.calls_left = usize::MAX;
                Err(io::Error::from(self.kind))
            }
        }
    }
}

impl Read for Failing<'_> {
    fn read(&mut self, buf: &mut [u8]) -> io::Result<usize> {
        self.call()?;
        if buf.is_empty() {
            return Ok(0);
        }
        let Some((first, rest)) = self.input.split_first() else {
            return Ok(0);
        };
        buf[0] = *first;
        self.input = rest;
        Ok(1)
    }
}

impl Write for Failing<'_> {
    fn write(&mut self, buf: &[u8]) -> io::Result<usize> {
        self.call()?;
        Ok(buf.len())
    }

    fn flush(&mut self) -> io::Result<()> {
        Ok(())
    }
}

/// How a call fails. One that was interrupted isn't tried again, since a reader or a writer may be
/// interrupted without end.
const KINDS: [ErrorKind; 2] = [ErrorKind::Other, ErrorKind::Interrupted];

/// Lines of 63 bytes, and what comes of them.
const LINES: &[u8] = b"new 0\npush 0 1\npush 0 0\npush 0 1\nbits 0\nblocks 0\nlen 0\nget 0 3\n";

const ANSWERS: &[u8] = b"vob 0\ndone\ndone\ndone\nbits 101\nblocks 5\nnumber 3\nbit none\n";

/// What comes of an input that fails in each way after `reads` reads, if there are more.
fn expect_after(
    rt: &(impl Abort + AllocGlobal),
    reads: usize,
    input: &[u8],
    output: &[u8],
    status: u8,
) {
    for kind in KINDS {
        let calls_left = reads;
        let mut failing = Failing {
            input,
            calls_left,
            kind,
        };
        let mut written = Vec::new(rt.alloc());
        let ended = converse(rt.alloc(), &mut failing, &mut written);
        assert_eq!(rt; ended, status, "after {reads} reads: {kind}");
        assert_eq!(rt; written.as_slice(), output, "after {reads} reads: {kind}");
    }
}

#[test]
fn a_failed_read_is_told_by_the_status_alone(rt: HostRuntime) {
    // Each byte and the end take a read.
    for reads in 0..64 {
        expect_after(&rt, reads, LINES, b"", 1);
    }
    expect_after(&rt, 64, LINES, ANSWERS, 0);
    for reads in 0..13 {
        expect_after(&rt, reads, b"new 0\nfoo 0\n", b"", 1);
    }
    expect_after(&rt, 13, b"new 0\nfoo 0\n", b"bad line 2\n", 2);
}

/// What comes of lines that take `writes` writes, if one fails in this way after `calls_left` of
/// them.
fn expect_written(
    rt: &(impl Abort + AllocGlobal),
    lines: &[u8],
    writes: usize,
    calls_left: usize,
    status: u8,
    kind: ErrorKind,
) {
    let input = b"".as_slice();
    let mut output = Failing {
        input,
        calls_left,
        kind,
    };
    let ended = converse(rt.alloc(), &mut { lines }, &mut output);
    let wanted = if calls_left < writes { 1 } else { status };
    assert_eq!(rt;
        ended,
        wanted,
        "after {calls_left} writes of {writes}: {kind}"
    );
}

#[test]
fn a_failed_write_is_told_by_the_status(rt: HostRuntime) {
    // Replies of more than two pieces take three writes.
    for (lines, writes, status) in [
        (LINES, 1, 0),
        (b"foo\n", 1, 2),
        (b"elem 1 9000\nbits 0\n", 3, 0),
    ] {
        for calls_left in 0..=writes {
            for kind in KINDS {
                expect_written(&rt, lines, writes, calls_left, status, kind);
            }
        }
    }
}

/// A writer that takes at most `most` bytes a call, and counts its calls.
#[derive(Drop)]
struct Sipping {
    most: usize,
    calls: usize,
    taken: Vec<u8>,
}

impl Write for Sipping {
    fn write(&mut self, buf: &[u8]) -> io::Result<usize> {
        self.calls = self.calls.saturating_add(1);
        let count = buf.len().min(self.most);
        self.taken.extend_from_slice(&buf[..count])?;
        Ok(count)
    }

    fn flush(&mut self) -> io::Result<()> {
        Ok(())
    }
}

/// What a writer takes of a Vob of 9000 true bits: `vob 0`, `bits ` and the digits, with a line feed
/// each. It is 6 + 9006 bytes, in pieces of at most 4096.
fn expect_taken(
    rt: &(impl Abort + AllocGlobal),
    most: usize,
    calls: usize,
    bytes: usize,
    status: u8,
) {
    let taken = Vec::new(rt.alloc());
    let mut output = Sipping {
        most,
        calls: 0,
        taken,
    };
    let ended = converse(
        rt.alloc(),
        &mut b"elem 1 9000\nbits 0\n".as_slice(),
        &mut output,
    );
    assert_eq!(rt; ended, status, "{most} bytes a call");
    assert_eq!(rt; output.calls, calls, "{most} bytes a call");
    assert_eq!(rt; output.taken.len(), bytes, "{most} bytes a call");
    for (place, byte) in output.taken.iter().enumerate() {
        let head = b"vob 0\nbits ".get(place);
        let wanted = *head.unwrap_or(if place == 9011 { &b'\n' } else { &b'1' });
        assert_eq!(rt; *byte, wanted, "byte {place}");
    }
}

#[test]
fn replies_are_written_whatever_a_call_takes(rt: HostRuntime) {
    // Pieces of 4096, 4096 and 820 bytes.
    expect_taken(&rt, usize::MAX, 3, 9012, 0);
    expect_taken(&rt, 4095, 5, 9012, 0);
    expect_taken(&rt, 7, 1290, 9012, 0);
    expect_taken(&rt, 1, 9012, 9012, 0);
    // A call that takes nothing has failed.
    expect_taken(&rt, 0, 1, 0, 1);
}
