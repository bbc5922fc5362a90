//! What no clause says: the words of the table, each command once, and when a status comes.

mod large;
mod rows;
mod streams;

use crate::converse;
use std::alloc::{AllocError, Global};
use std::process::Abort;

/// What comes of these bytes, against what is wanted.
fn expect(rt: &(impl Abort + AllocGlobal), input: &[u8], output: &[u8], status: u8) {
    let mut written = Vec::new(rt.alloc());
    let mut rest = input;
    let ended = converse(rt.alloc(), &mut rest, &mut written);
    let text = str::from_utf8(input).unwrap_or("bytes that are no text");
    assert_eq!(rt; written.as_slice(), output, "output of {text:?}");
    assert_eq!(rt; ended, status, "status of {text:?}");
}

/// A text of the lines that stand here between semicolons.
fn lines(alloc: Global, text: &str) -> Result<Vec<u8>, AllocError> {
    let mut lines = Vec::new(alloc);
    for line in text.split("; ") {
        lines.extend_from_slice(line.as_bytes())?;
        lines.push(b'\n')?;
    }
    Ok(lines)
}

/// What comes of the lines of each row, against the lines that are wanted; all of them are run.
fn expect_rows(rt: &(impl Abort + AllocGlobal), rows: &[(&str, &str)]) {
    for (input, output) in rows {
        let input = lines(rt.alloc(), input).expect(rt, "memory");
        let output = lines(rt.alloc(), output).expect(rt, "memory");
        expect(rt, &input, &output, 0);
    }
}

#[test]
fn single_bits_are_pushed_set_and_taken_off(rt: HostRuntime) {
    expect_rows(
        &rt,
        &[
            (
                "new 0; push 0 1; push 0 0; push 0 1; bits 0; blocks 0; len 0; get 0 3",
                "vob 0; done; done; done; bits 101; blocks 5; number 3; bit none",
            ),
            (
                "new 0; push 0 1; push 0 1; push 0 1; push 0 1; push 0 1; \
                    push 0 1; push 0 1; push 0 1; push 0 1; blocks 0",
                "vob 0; done; done; done; done; done; done; done; done; done; blocks 511",
            ),
            (
                "new 8; blocks 0; new 0; get 1 0",
                "vob 0; blocks -; vob 1; bit none",
            ),
            (
                "new 0; push 0 1; push 0 0; push 0 1; set 0 1 1; set 0 1 1; set 0 3 1; pop 0; \
                    truncate 0 9; truncate 0 1; bits 0; blocks 0; pop 0; pop 0; empty 0",
                "vob 0; done; done; done; true; false; skipped; bit 1; \
                    done; done; bits 1; blocks 1; bit 1; bit none; true",
            ),
            (
                "new 0; push 0 0; setu 0 0 1; getu 0 0; index 0 0; get 0 0; getu 0 1; index 0 1; \
                    setu 0 1 0; empty 0",
                "vob 0; done; true; true; true; bit 1; skipped; skipped; \
                    skipped; false",
            ),
        ],
    );
}

#[test]
fn every_way_to_make_a_vob_is_a_line(rt: HostRuntime) {
    expect_rows(
        &rt,
        &[
            (
                "bytes a012; blocks 0; len 0; bits 0",
                "vob 0; blocks 18437; number 16; bits 1010000000010010",
            ),
            (
                "bytes a01235ca31957c51; blocks 0; bytes -; len 1; bytes Ff; blocks 2",
                "vob 0; blocks 9961585845954430981; vob 1; number 0; vob 2; blocks 255",
            ),
            (
                "fresh; bits 0; blocks 0; pop 0; walk 0 0 .. -",
                "vob 0; bits -; blocks -; bit none; dealt -",
            ),
            (
                "slice 101; reserve 0 18446744073709551615; len 0",
                "vob 0; refused 1; number 3",
            ),
            (
                "record 3 13; raw 3 0 13; raw 3 1 13; raw 3 1 5 0; bits 0",
                "refused 3; refused 3; vob 0; skipped; bits 101",
            ),
            (
                "record 0; raw 0 0; raw 0 1; record 64 0 0; raw 65 0 0 1; blocks 3; slice -; len 4",
                "vob 0; vob 1; vob 2; refused 3; vob 3; blocks 0 1; vob 4; number 0",
            ),
            (
                "elem 1 2; room 65; fill 1 2; items 101; clone 3; fresh; append 5 10; fresh; \
                    extend 6 01; fresh; resize 7 2 1; reserve 0 200; andnew 0 2; xornew 0 2; \
                    record 3 5; bits 4; bits 5; bits 6; bits 7; bits 8; bits 9; bits 10",
                "vob 0; vob 1; vob 2; vob 3; vob 4; vob 5; done; vob 6; done; vob 7; done; done; \
                    vob 8; vob 9; vob 10; bits 101; bits 10; bits 01; bits 11; bits 11; bits 00; \
                    bits 101",
            ),
        ],
    );
}

#[test]
fn whole_vobs_are_joined_cut_filled_and_compared(rt: HostRuntime) {
    expect_rows(
        &rt,
        &[
            (
                "slice 100; slice 010; or 0 1; ornew 0 1; equal 0 2",
                "vob 0; vob 1; true; vob 2; true",
            ),
            (
                "slice 100; slice 110; and 0 1; bits 0; slice 101; slice 011; xor 2 3; bits 2; \
                    equal 0 1",
                "vob 0; vob 1; false; bits 100; vob 2; vob 3; true; bits 110; false",
            ),
            (
                "elem 0 3; setall 0 1; bits 0; negate 0; bits 0; shrink 0; clear 0; len 0; empty 0",
                "vob 0; done; bits 111; done; bits 000; done; done; number 0; true",
            ),
            (
                "slice 1011011101; drain 0 2..5; bits 0; bits 1; split 0 8; split 0 7; \
                    drain 0 3..1; drain 5 ..",
                "vob 0; vob 1; bits 1011101; bits 110; refused 4; vob 2; vob 3; skipped",
            ),
            (
                "slice 1011011101; drain 0 9..=18446744073709551615; bits 0; bits 1; \
                    drain 0 >0..=2; bits 0; bits 2; drain 0 ..; bits 0; bits 3; drain 0 ..; bits 4",
                "vob 0; vob 1; bits 101101110; bits 1; vob 2; bits 1101110; bits 01; vob 3; \
                    bits -; bits 1101110; vob 4; bits -",
            ),
            (
                "slice 101; split 0 5; bits 0; split 0 3; bits 0; bits 1; join 0 0; join 0 2; \
                    join 0 1; bits 0",
                "vob 0; refused 4; bits 101; vob 1; bits 101; bits -; skipped; skipped; done; \
                    bits 101",
            ),
        ],
    );
}

#[test]
fn walks_are_pulled_at_both_ends(rt: HostRuntime) {
    expect_rows(
        &rt,
        &[
            (
                "slice 1011011101; walk 0 1 .. FBFBFBFB; count 0 0 ..; split 0 5; bits 0; bits 1; \
                    join 0 1; bits 0; and 0 0; set 1 9 1; get 7 0; and 0 1",
                "vob 0; dealt 0 9 2 7 3 6 5 none; number 3; vob 1; bits 10110; bits 11101; \
                    done; bits 1011011101; skipped; skipped; skipped; skipped",
            ),
            (
                "elem 0 10; set 0 0 1; set 0 2 1; set 0 3 1; set 0 5 1; set 0 6 1; set 0 7 1; \
                    set 0 9 1; walk 0 1 .. FBFBFBFB; count 0 0 ..",
                "vob 0; true; true; true; true; true; true; true; \
                    dealt 0 9 2 7 3 6 5 none; number 3",
            ),
            (
                "slice 101; walk 0 1 ..=18446744073709551615 FFF; \
                    walk 0 1 >18446744073709551615.. F; count 0 0 3..1",
                "vob 0; dealt 0 2 none; dealt none; number 0",
            ),
            (
                "slice 101; walk 0 1 >0..=2 FF; walk 0 0 >0..=2 FF; count 0 1 >1..01; \
                    count 0 1 1..; count 0 1 0..2; count 0 1 0..=002; walk 0 1 ..2 BB; \
                    walk 1 1 .. -; count 1 1 ..",
                "vob 0; dealt 2 none; dealt 1 none; number 0; number 1; \
                    number 1; number 2; dealt 0 none; skipped; skipped",
            ),
        ],
    );
}

#[test]
fn no_other_line_is_read(rt: HostRuntime) {
    for line in [
        b"push 0\n".as_slice(),
        b"push 0 1 1\n",
        b"push 0 2\n",
        b"push 0 01\n",
        b"Push 0 1\n",
        b"slice\n",
        b"slice 012\n",
        b"slice 1-\n",
        b"slice --\n",
        b"bytes a0f\n",
        b"bytes 0g\n",
        b"bytes +f\n",
        b"bytes\n",
        b"fresh 0\n",
        b"raw 0\n",
        b"raw 0 0 -\n",
        b"raw 0 2 0\n",
        b"raw x 0 0\n",
        b"record 0 0 x\n",
        b"record x 0\n",
        b"append x 1\n",
        b"extend 0 1 1\n",
        b"items 1 1\n",
        b"bytes 00 00\n",
        b"walk x 1 .. F\n",
        b"walk 0 2 .. F\n",
        b"walk 0 1 .. F F\n",
        b"walk 0 1 .. X\n",
        b"walk 0 1 .. f\n",
        b"walk 0 1 ..\n",
        b"walk 0 1 5 F\n",
        b"walk 0 1 5... F\n",
        b"walk 0 1 =1.. F\n",
        b"walk 0 1 ..>1 F\n",
        b"walk 0 1 >.. F\n",
        b"walk 0 1 ..= F\n",
        b"walk 0 1 +1.. F\n",
        b"walk 0 1 0 .. F\n",
        b"count 0 1\n",
        b"count 0 1 . .\n",
        b"count 0 1 ..=18446744073709551616\n",
        b"drain 0\n",
        b"drain 0 5\n",
        b"drain 0 1 ..\n",
        b"drain 0 .. 1\n",
        b"new\n",
        b"new +1\n",
        b"new -1\n",
        b"new 0x1\n",
        b"new\t0\n",
        b"new 0 \xc3\xa9\n",
        b"new \xff\n",
        b"new 0\r\r\n",
        b"new 0\r",
        b"newt 0\n",
        b"0\n",
    ] {
        expect(&rt, line, b"bad line 1\n", 2);
    }
}

#[test]
fn the_first_bad_line_is_told_alone(rt: HostRuntime) {
    expect(&rt, b"new 0\npush 0 2\n", b"bad line 2\n", 2);
    expect(&rt, b"new 0\nfoo\n", b"bad line 2\n", 2);
    expect(&rt, b"\n\nfoo\nbar\n", b"bad line 3\n", 2);
    expect(&rt, b"  \n\r\nfoo", b"bad line 3\n", 2);
    expect(
        &rt,
        b"len 18446744073709551615\nlen 18446744073709551616\n",
        b"bad line 2\n",
        2,
    );
}

#[test]
fn lines_are_read_whatever_their_spaces_and_ends(rt: HostRuntime) {
    expect(&rt, b"", b"", 0);
    expect(&rt, b"\n \n\r\n", b"", 0);
    expect(
        &rt,
        b"  new   007  \nnew 0\r\nbits 0",
        b"vob 0\nvob 1\nbits -\n",
        0,
    );
    expect(&rt, b"len 18446744073709551615\n", b"skipped\n", 0);
    expect(&rt, b"len 0\n", b"skipped\n", 0);
}
