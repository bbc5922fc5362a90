//! What a single word stands for: one function for each kind of word.

ghost use Rattle.std.specs.Prelude.{◌≡◌, ◌≢◌, ℕ, List, ◌∷◌, [], ◌++◌, codes, IfOk, IfSome, IfNone, IsErrOf};
ghost use Rattle.vob_lines.specs.Errors.{OnlyUnreadable};
ghost use Rattle.vob_lines.specs.Spelling.{digit, initial, letters, IsPair, IsRange, IsStart, IsEnd, Writes, WritesBytes};

use crate::line::{LineError, first_place};
use std::alloc::Global;
use std::ops::Bound;
use vob::End;

/// The number that a word stands for: decimal digits alone, at most `usize::MAX`.
pub fn number_of(word: &[u8]) -> Result<usize, LineError>
    ensures ok { IfOk result (λ n. Writes word.now n) }
    ensures err { OnlyUnreadable result ((n : ℕ) → Writes word.now n → ⊥) }
{
    // `parse` takes a sign.
    if word.starts_with(b"+") {
        return Err(LineError::Unreadable);
    }
    let Ok(text) = str::from_utf8(word) else {
        return Err(LineError::Unreadable);
    };
    text.parse().map_err(|_| LineError::Unreadable)
}

/// The bit that a word stands for: `0` or `1`.
pub fn bit_of(word: &[u8]) -> Result<bool, LineError>
    ensures ok { IfOk result (λ value. word.now ≡ digit value ∷ []) }
    ensures err { OnlyUnreadable result ((value : _) → word.now ≢ digit value ∷ []) }
{
    match word {
        b"0" => Ok(false),
        b"1" => Ok(true),
        _ => Err(LineError::Unreadable),
    }
}

/// A value that one letter stands for.
pub trait Letter: Sized {
    ghost letter: { Self → ℕ };

    /// The value of a letter.
    fn read(byte: u8) -> Option<Self>
        ensures some { IfSome result (λ value. byte ≡ letter value) }
        ensures none { IfNone result ((value : Self) → byte ≢ letter value) };
}

impl Letter for bool {
    ghost letter = { digit };

    fn read(byte: u8) -> Option<bool> {
        match byte {
            b'0' => Some(false),
            b'1' => Some(true),
            _ => None,
        }
    }
}

impl Letter for End {
    ghost letter = { initial };

    fn read(byte: u8) -> Option<End> {
        match byte {
            b'F' => Some(End::Front),
            b'B' => Some(End::Back),
            _ => None,
        }
    }
}

/// The values that a word stands for: a letter for each, or a dash for none.
pub fn letters_of<T: Letter + Drop>(alloc: Global, word: &[u8]) -> Result<Vec<T>, LineError>
    ensures ok { IfOk result (λ values. word.now ≡ letters T.letter values.items) }
    ensures err { IsErrOf result LineError.Unreadable →
        (values : List T) → word.now ≢ letters T.letter values }
{
    let mut values = Vec::new(alloc);
    if word == b"-".as_slice() {
        return Ok(values);
    }
    if word.is_empty() {
        return Err(LineError::Unreadable);
    }
    for byte in word {
        let value = T::read(*byte).ok_or(LineError::Unreadable)?;
        values.push(value)?;
    }
    Ok(values)
}

/// The byte of two hexadecimal digits.
fn byte_of(high: u8, low: u8) -> Option<u8>
    ensures some { IfSome result (λ byte. IsPair high low byte) }
    ensures none { IfNone result ((byte : ℕ) → IsPair high low byte → ⊥) }
{
    let high = (high as char).to_digit(16)?;
    let low = (low as char).to_digit(16)?;
    Some((16 * high + low) as u8)
}

/// The bytes that a word stands for: two hexadecimal digits for each, or a dash for none.
pub fn bytes_of(alloc: Global, word: &[u8]) -> Result<Vec<u8>, LineError>
    ensures ok { IfOk result (λ bytes. WritesBytes word.now bytes.items) }
    ensures err { IsErrOf result LineError.Unreadable →
        (bytes : List ℕ) → WritesBytes word.now bytes → ⊥ }
{
    let mut bytes = Vec::new(alloc);
    if word == b"-".as_slice() {
        return Ok(bytes);
    }
    if word.is_empty() || word.len() % 2 != 0 {
        return Err(LineError::Unreadable);
    }
    for k in 0..word.len() / 2 {
        let byte = byte_of(word[2 * k], word[2 * k + 1]).ok_or(LineError::Unreadable)?;
        bytes.push(byte)?;
    }
    Ok(bytes)
}

/// Returns where a range begins, by the text before its dots.
fn start_of(text: &[u8]) -> Result<Bound<usize>, LineError>
    ensures ok { IfOk result (λ start. IsStart text.now start) }
    ensures err { OnlyUnreadable result ((start : _) → IsStart text.now start → ⊥) }
{
    if text.is_empty() {
        return Ok(Bound::Unbounded);
    }
    match text.strip_prefix(b">") {
        Some(digits) => Ok(Bound::Excluded(number_of(digits)?)),
        None => Ok(Bound::Included(number_of(text)?)),
    }
}

/// Reads the end of a range, from the text after its dots.
fn end_of(text: &[u8]) -> Result<Bound<usize>, LineError>
    ensures ok { IfOk result (λ end. IsEnd text.now end) }
    ensures err { OnlyUnreadable result ((end : _) → IsEnd text.now end → ⊥) }
{
    if text.is_empty() {
        return Ok(Bound::Unbounded);
    }
    match text.strip_prefix(b"=") {
        Some(digits) => Ok(Bound::Included(number_of(digits)?)),
        None => Ok(Bound::Excluded(number_of(text)?)),
    }
}

/// Returns the text before the first two dots of a word, and the text after them.
fn around_dots(word: &[u8]) -> Result<(&[u8], &[u8]), LineError>
    ensures ok { IfOk result (λ parts. word.now ≡ parts.0.now ++ (codes ".." ++ parts.1.now)) }
    ensures alone { IfOk result (λ parts. (start end : _) → (range : IsRange word.now start end)
        → (parts.0.now ≡ range.front) × (parts.1.now ≡ range.back)) }
    ensures err { OnlyUnreadable result ((start end : _) → IsRange word.now start end → ⊥) }
{
    let (front, back) = word.split_at(first_place(word, b'.'));
    let back = back.strip_prefix(b"..").ok_or(LineError::Unreadable)?;
    Ok((front, back))
}

/// The range that a word stands for: a start, two dots, an end.
pub fn range_of(word: &[u8]) -> Result<(Bound<usize>, Bound<usize>), LineError>
    ensures ok { IfOk result (λ bounds. IsRange word.now bounds.0 bounds.1) }
    ensures err { OnlyUnreadable result ((start end : _) → IsRange word.now start end → ⊥) }
{
    let (front, back) = around_dots(word)?;
    Ok((start_of(front)?, end_of(back)?))
}
