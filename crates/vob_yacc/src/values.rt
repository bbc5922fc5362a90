//! The values that the code of an action names: `$$`, and those of symbols by numbers, as `$1`.

use crate::literal::with_digit;
use crate::text_error::Stop;
use std::alloc::Global;

/// What the byte at hand stands within.
#[derive(Clone, Copy)]
enum Part {
    Code,
    Slash,
    Line,
    Comment { star: bool },
    Quoted { quote: u8, escaped: bool },
    Dollar,
    Tag { dash: bool },
    Number { value: usize },
}

/// The values so far.
#[derive(Drop)]
struct Scanner {
    part: Part,
    has_own: bool,
    numbers: Vec<usize>,
}

impl Scanner {
    /// Takes a byte of plain code.
    fn begin(&mut self, byte: u8) {
        self.part = match byte {
            b'/' => Part::Slash,
            b'"' | b'\'' => Part::Quoted {
                quote: byte,
                escaped: false,
            },
            b'$' => Part::Dollar,
            _ => Part::Code,
        };
    }

    /// Takes the byte after a `$`, or after the type that follows it.
    fn dollar(&mut self, byte: u8) {
        self.part = match byte {
            b'<' => Part::Tag { dash: false },
            b'0'..=b'9' => Part::Number {
                value: byte.saturating_sub(b'0') as usize,
            },
            _ => Part::Code,
        };
        self.has_own = self.has_own || byte == b'$';
    }

    /// Takes a byte of a number, or the one after it.
    fn number(&mut self, value: usize, byte: u8) -> Result<(), Stop> {
        if byte.is_ascii_digit() {
            let digit = byte.saturating_sub(b'0') as usize;
            self.part = Part::Number {
                value: with_digit(value, 10, digit),
            };
            return Ok(());
        }
        self.begin(byte);
        self.numbers.push(value)?;
        Ok(())
    }

    /// Takes a byte.
    fn step(&mut self, byte: u8) -> Result<(), Stop> {
        match self.part {
            Part::Code => self.begin(byte),
            Part::Slash if byte == b'/' => self.part = Part::Line,
            Part::Slash if byte == b'*' => self.part = Part::Comment { star: false },
            Part::Slash => self.begin(byte),
            Part::Line if byte == b'\n' => self.part = Part::Code,
            Part::Comment { star: true } if byte == b'/' => self.part = Part::Code,
            Part::Comment { .. } => self.part = Part::Comment { star: byte == b'*' },
            Part::Quoted {
                quote,
                escaped: false,
            } if byte == quote => self.part = Part::Code,
            Part::Quoted { quote, escaped } => self.part = Part::Quoted {
                quote,
                escaped: byte == b'\\' && !escaped,
            },
            Part::Dollar => self.dollar(byte),
            Part::Tag { dash: false } if byte == b'>' => self.part = Part::Dollar,
            Part::Tag { .. } => self.part = Part::Tag { dash: byte == b'-' },
            Part::Number { value } => self.number(value, byte)?,
            Part::Line => {}
        }
        Ok(())
    }
}

/// Returns whether code names the value of its own rule, and the numbers of the symbols whose values it
/// names. What stands in comments and between quotes doesn't count.
pub(crate) fn values_of(alloc: Global, code: &[u8]) -> Result<(bool, Vec<usize>), Stop> {
    let mut scanner = Scanner {
        part: Part::Code,
        has_own: false,
        numbers: Vec::new(alloc),
    };
    for byte in code {
        scanner.step(*byte)?;
    }
    Ok((scanner.has_own, scanner.numbers))
}
