//! Input of several reads, long words, many commands, and lists of several blocks.

use super::expect;
use crate::converse;
use std::alloc::{AllocError, Global};
use std::io;
use std::io::Read;
use std::process::Abort;

/// This text, `times` times.
fn repeated(alloc: Global, text: &str, times: usize) -> Result<Vec<u8>, AllocError> {
    let mut all = Vec::new(alloc);
    for _ in 0..times {
        all.extend_from_slice(text.as_bytes())?;
    }
    Ok(all)
}

/// A first text, a second one `times` times, and a last one.
fn text_of(
    rt: &(impl Abort + AllocGlobal),
    first: &str,
    second: &str,
    times: usize,
    last: &str,
) -> Vec<u8> {
    let mut text = Vec::new(rt.alloc());
    let middle = repeated(rt.alloc(), second, times).expect(rt, "memory");
    text.extend_from_slice(first.as_bytes())
        .expect(rt, "memory");
    text.extend_from_slice(&middle).expect(rt, "memory");
    text.extend_from_slice(last.as_bytes()).expect(rt, "memory");
    text
}

/// 2000 pushes, in lines of nine bytes, so that lines lie across the ends of reads.
fn pushes(rt: &(impl Abort + AllocGlobal)) -> Vec<u8> {
    text_of(rt, "new 0\n", "push 0 1\n", 2000, "count 0 1 5..1995\n")
}

/// What comes of them.
fn pushed(rt: &(impl Abort + AllocGlobal)) -> Vec<u8> {
    text_of(rt, "vob 0\n", "done\n", 2000, "number 1990\n")
}

#[test]
fn lines_lie_across_the_ends_of_reads(rt: HostRuntime) {
    let input = pushes(&rt);
    assert!(rt; input.len() > 16384, "more than four reads");
    expect(&rt, &input, &pushed(&rt), 0);
}

#[test]
fn words_are_as_long_as_they_come(rt: HostRuntime) {
    // A number of a hundred digits, 300 bits, 150 pulls, and 60 bytes of 120 digits.
    let input = text_of(&rt, "new ", "0", 99, "7\nlen 0\n");
    expect(&rt, &input, b"vob 0\nnumber 0\n", 0);
    let input = text_of(&rt, "slice ", "101", 100, "\nbits 0\n");
    let output = text_of(&rt, "vob 0\nbits ", "101", 100, "\n");
    expect(&rt, &input, &output, 0);
    let input = text_of(&rt, "elem 1 1\nwalk 0 1 .. ", "F", 150, "\n");
    let output = text_of(&rt, "vob 0\ndealt 0", " none", 149, "\n");
    expect(&rt, &input, &output, 0);
    let input = text_of(&rt, "bytes ", "80", 60, "\nbits 0\n");
    let output = text_of(&rt, "vob 0\nbits ", "10000000", 60, "\n");
    expect(&rt, &input, &output, 0);
}

#[test]
fn lists_of_several_blocks_are_written_whole(rt: HostRuntime) {
    // 300 true bits are four whole words and 44 bits of a fifth.
    let output = text_of(
        &rt,
        "vob 0\nblocks",
        " 18446744073709551615",
        4,
        " 17592186044415\n",
    );
    expect(&rt, b"elem 1 300\nblocks 0\n", &output, 0);
    let input = text_of(
        &rt,
        "raw 300 0",
        " 18446744073709551615",
        4,
        " 17592186044415\nlen 0\n",
    );
    expect(&rt, &input, b"vob 0\nnumber 300\n", 0);
}

/// A reader that gives a few bytes at a time, and notes whether each read asked for 4096.
#[derive(Drop)]
struct Pieces<'a> {
    input: &'a [u8],
    most: usize,
    asked_alike: bool,
}

impl Read for Pieces<'_> {
    fn read(&mut self, buf: &mut [u8]) -> io::Result<usize> {
        if buf.len() != 4096 {
            self.asked_alike = false;
        }
        let count = self.most.min(self.input.len()).min(buf.len());
        let (given, rest) = self.input.split_at(count);
        buf[..count].copy_from_slice(given);
        self.input = rest;
        Ok(count)
    }
}

/// What comes of the pushes if at most `most` bytes come at a time.
fn check_pieces(rt: &(impl Abort + AllocGlobal), most: usize) {
    let input = pushes(rt);
    let mut pieces = Pieces {
        input: &input,
        most,
        asked_alike: true,
    };
    let mut written = Vec::new(rt.alloc());
    let ended = converse(rt.alloc(), &mut pieces, &mut written);
    assert_eq!(rt; ended, 0, "in pieces of {most}");
    assert!(rt; written == pushed(rt), "in pieces of {most}");
    assert!(rt; pieces.asked_alike, "each read asks for 4096 bytes");
}

#[test]
fn reading_goes_on_after_short_reads(rt: HostRuntime) {
    for most in [1, 7, 4095, 4096] {
        check_pieces(&rt, most);
    }
}
