//! Numbers, and the characters of quoted words with their escapes.

use std::alloc::{AllocError, Global};

/// The greatest number that a token can have.
const GREATEST: usize = 0x7fff_ffff;

/// An escape under way, with the value of its digits so far.
#[derive(Clone, Copy)]
enum Escape {
    Nothing,
    Began,
    Octal { value: usize, digits: usize },
    Hex { value: usize, digits: usize },
    Unicode { value: usize, left: usize },
}

/// The characters so far: how many there are, and the last one.
#[derive(Drop)]
struct Characters {
    count: usize,
    last: u8,
    escape: Escape,
}

/// Returns the value of a hexadecimal digit.
fn digit(byte: u8) -> Option<usize> {
    (byte as char).to_digit(16).map(|value| value as usize)
}

/// Returns a value with one more digit.
pub(crate) fn with_digit(value: usize, base: usize, digit: usize) -> usize {
    value.saturating_mul(base).saturating_add(digit)
}

/// Returns the character that a letter stands for behind `\`.
fn escaped(byte: u8) -> Option<u8> {
    match byte {
        b'a' => Some(7),
        b'b' => Some(8),
        b't' => Some(9),
        b'n' => Some(10),
        b'v' => Some(11),
        b'f' => Some(12),
        b'r' => Some(13),
        b'"' | b'\'' | b'?' | b'\\' => Some(byte),
        _ => None,
    }
}

impl Characters {
    /// Adds a character. There is none for 0, nor above 255.
    fn add(&mut self, value: usize) -> Option<()> {
        self.last = u8::try_from(value).ok().filter(|code| *code > 0)?;
        self.count = self.count.saturating_add(1);
        self.escape = Escape::Nothing;
        Some(())
    }

    /// Takes a byte outside of escapes.
    fn plain(&mut self, byte: u8) -> Option<()> {
        if byte == b'\\' {
            self.escape = Escape::Began;
            return Some(());
        }
        self.add(byte as usize)
    }

    /// Takes the byte behind `\`.
    fn begin(&mut self, byte: u8) -> Option<()> {
        self.escape = match byte {
            b'0'..=b'7' => Escape::Octal {
                value: digit(byte)?,
                digits: 1,
            },
            b'x' => Escape::Hex {
                value: 0,
                digits: 0,
            },
            b'u' => Escape::Unicode { value: 0, left: 4 },
            b'U' => Escape::Unicode { value: 0, left: 8 },
            _ => return self.add(escaped(byte)? as usize),
        };
        Some(())
    }

    /// Ends an escape that has all its digits.
    fn end(&mut self) -> Option<()> {
        match self.escape {
            Escape::Nothing => Some(()),
            Escape::Octal { value, .. } => self.add(value),
            Escape::Hex { value, digits } if digits > 0 => self.add(value),
            _ => None,
        }
    }

    /// Takes a byte. Returns nothing if it is wrong in an escape.
    fn step(&mut self, byte: u8) -> Option<()> {
        match (self.escape, digit(byte)) {
            (Escape::Nothing, _) => self.plain(byte),
            (Escape::Began, _) => self.begin(byte),
            (Escape::Octal { value, digits }, Some(digit)) if digits < 3 && digit < 8 => {
                self.escape = Escape::Octal {
                    value: with_digit(value, 8, digit),
                    digits: digits.saturating_add(1),
                };
                Some(())
            }
            (Escape::Hex { value, digits }, Some(digit)) => {
                self.escape = Escape::Hex {
                    value: with_digit(value, 16, digit),
                    digits: digits.saturating_add(1),
                };
                Some(())
            }
            (Escape::Unicode { value, left }, digit) => {
                let value = with_digit(value, 16, digit?);
                if left <= 1 {
                    return self.add(value);
                }
                self.escape = Escape::Unicode {
                    value,
                    left: left.saturating_sub(1),
                };
                Some(())
            }
            _ => {
                self.end()?;
                self.plain(byte)
            }
        }
    }
}

/// Returns the characters of a word between its quotes, or nothing if an escape is wrong.
fn characters_of(word: &[u8]) -> Option<Characters> {
    let mut characters = Characters {
        count: 0,
        last: 0,
        escape: Escape::Nothing,
    };
    for byte in unquoted(word) {
        characters.step(*byte)?;
    }
    characters.end()?;
    Some(characters)
}

/// Returns a word without its first and its last byte.
pub(crate) fn unquoted(word: &[u8]) -> &[u8] {
    word.get(1..word.len().saturating_sub(1))
        .unwrap_or_default()
}

/// Whether the escapes of a quoted word are right.
pub(crate) fn is_right(word: &[u8]) -> bool {
    characters_of(word).is_some()
}

/// Returns the character that a word is between its quotes, if it is one: that of `'+'` or of `'\n'`.
pub fn character_of(word: &[u8]) -> Option<u8> {
    let characters = characters_of(word)?;
    if characters.count == 1 {
        Some(characters.last)
    } else {
        None
    }
}

/// Returns the number that a word is, by decimal digits or by hexadecimal ones behind `0x`.
pub(crate) fn number_of(word: &[u8]) -> Option<usize> {
    let (base, digits) = match word {
        [b'0', b'x' | b'X', digits @ ..] => (16, digits),
        _ => (10, word),
    };
    if digits.is_empty() {
        return None;
    }
    let mut number = 0usize;
    for byte in digits {
        let digit = digit(*byte).filter(|digit| *digit < base)?;
        number = with_digit(number, base, digit);
    }
    Some(number).filter(|number| *number <= GREATEST)
}

/// Returns the letter that stands for a character behind `\`.
fn letter_of(character: u8) -> Option<u8> {
    match character {
        7 => Some(b'a'),
        8 => Some(b'b'),
        9 => Some(b't'),
        10 => Some(b'n'),
        11 => Some(b'v'),
        12 => Some(b'f'),
        13 => Some(b'r'),
        b'\'' | b'\\' => Some(character),
        _ => None,
    }
}

/// Returns the name of the terminal that a character is, as bison writes it: with quotes, and by an
/// escape if it can't be printed.
pub(crate) fn character_name(alloc: Global, character: u8) -> Result<Vec<u8>, AllocError> {
    if let Some(letter) = letter_of(character) {
        return [b'\'', b'\\', letter, b'\''].to_vec(alloc);
    }
    if character == b' ' || character.is_ascii_graphic() {
        return [b'\'', character, b'\''].to_vec(alloc);
    }
    let octal = format!(in alloc; "'\\{character:03o}'")?;
    octal.as_bytes().to_vec(alloc)
}
