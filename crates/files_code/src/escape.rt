//! Names of any bytes as parts of programs in ASCII.

use crate::form::Form;
use std::alloc::Global;
use std::io;
use std::io::Write;

/// How many bytes of a name a string holds in C, which promises 4,095.
const MOST: usize = 4000;

/// Writes `\` and the three octal digits of a byte.
fn put_octal<W: Write>(output: &mut W, byte: u8) -> io::Result<()> {
    write!(output, "\\{byte:03o}")
}

/// Writes a byte as it is if it is printable ASCII, or else by its digits.
fn put_byte<W: Write>(output: &mut W, byte: u8) -> io::Result<()> {
    match byte {
        b' '..=b'~' => output.write_all(std::slice::from_ref(&byte)),
        _ => put_octal(output, byte),
    }
}

/// Writes a name for a comment that goes to the end of its line. A line that ends with `\` or with `??/`
/// would go on in C.
pub fn put_comment<W: Write>(output: &mut W, name: &[u8]) -> io::Result<()> {
    let Some((last, others)) = name.split_last() else {
        return Ok(());
    };
    for byte in others.iter() {
        put_byte(output, *byte)?;
    }
    match *last {
        b'\\' | b'/' => put_octal(output, *last),
        _ => put_byte(output, *last),
    }
}

/// Writes a name as a string of C, which has its bytes. A `?` is escaped too, as two begin a trigraph.
fn put_c_string<W: Write>(output: &mut W, name: &[u8]) -> io::Result<()> {
    output.write_all(b"\"")?;
    for byte in name.iter().take(MOST) {
        if matches!(*byte, b'"' | b'\\' | b'?') {
            output.write_all(b"\\")?;
        }
        put_byte(output, *byte)?;
    }
    output.write_all(b"\"")
}

/// Writes a character of a string of Rust.
fn put_rust_character<W: Write>(output: &mut W, character: char) -> io::Result<()> {
    match character {
        '"' | '\\' => write!(output, "\\{character}"),
        ' '..='~' => write!(output, "{character}"),
        _ => {
            let code = character as u32;
            write!(output, "\\u{{{code:x}}}")
        }
    }
}

/// Writes a name as a string of Rust. Bytes that aren't UTF-8 become the character U+FFFD.
fn put_rust_string<W: Write>(alloc: Global, output: &mut W, name: &[u8]) -> io::Result<()> {
    let text = String::from_utf8_lossy(alloc, name)?;
    output.write_all(b"\"")?;
    for character in text.chars() {
        put_rust_character(output, character)?;
    }
    output.write_all(b"\"")
}

/// Writes a name as a string.
pub fn put_string<W: Write>(
    alloc: Global,
    output: &mut W,
    form: Form,
    name: &[u8],
) -> io::Result<()> {
    match form {
        Form::C => put_c_string(output, name),
        Form::Rust => put_rust_string(alloc, output, name),
    }
}
