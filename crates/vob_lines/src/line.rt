//! Lines of the input: how they and their words are cut, and why one gives no command.

ghost use Rattle.std.specs.Prelude.{◌≡◌, ◌==◌, ◌≤◌, ◌<◌, ◌↔◌, [], ◌∷◌, length, drop, IsTrue};
ghost use Rattle.std.specs.List.{prefix_len, position_or_len};
ghost use Rattle.std.specs.Str.Lines.{strip_carriage_return};
ghost use Rattle.vob_lines.specs.Cuts.{is_space, lines_of, words_of};
ghost use Rattle.vob_lines.specs.declared.line.LineError.TheVariants.{Memory};

use std::alloc::{AllocError, AllocFailed};

/// Why a line gives no command.
#[derive(Clone, Copy, Debug, PartialEq, Eq)]
pub enum LineError {
    /// No command reads as the line.
    Unreadable,
    /// Memory was refused for the command.
    Memory,
}

impl From<AllocError> for LineError {
    ghost from_gives = { λ _ error. error ≡ Memory };

    fn from(_: AllocError) -> LineError {
        LineError::Memory
    }
}

impl<T: Drop> From<AllocFailed<T>> for LineError {
    ghost from_gives = { λ _ error. error ≡ Memory };

    fn from(_: AllocFailed<T>) -> LineError {
        LineError::Memory
    }
}

/// How many spaces a line begins with.
fn leading_spaces(line: &[u8]) -> usize
    ensures count { result ≡ prefix_len is_space line.now }
    ensures within { result ≤ length line.now }
{
    line.iter().take_while(|byte| **byte == b' ').count()
}

/// A line without its leading spaces.
#[tactic(auto, using(std::proofs::lemmas::List::take_rest))]
pub fn past_spaces(line: &[u8]) -> &[u8]
    ensures { result.now ≡ drop (prefix_len is_space line.now) line.now }
{
    &line[leading_spaces(line)..]
}

/// Where a byte stands first, or how many bytes there are.
pub fn first_place(bytes: &[u8], wanted: u8) -> usize
    ensures place { result ≡ position_or_len (λ byte. byte == wanted) bytes.now }
    ensures within { result ≤ length bytes.now }
{
    bytes.iter().take_while(|byte| **byte != wanted).count()
}

/// Whether a line has no words.
pub fn is_blank(line: &[u8]) -> bool
    ensures { IsTrue result ↔ (words_of line.now ≡ []) }
{
    past_spaces(line).is_empty()
}

/// Returns the first line of a text, and the text after it.
pub fn cut_line(text: &[u8]) -> (&[u8], &[u8])
    requires { 0 < length text.now }
    ensures line { lines_of text.now ≡ result.0.now ∷ lines_of result.1.now }
    ensures shorter { length result.1.now < length text.now }
{
    let end = first_place(text, b'\n');
    if end == text.len() {
        return (text, &[]);
    }
    (without_return(&text[..end]), &text[end + 1..])
}

/// A line without the carriage return that it may end with.
fn without_return(line: &[u8]) -> &[u8]
    ensures { result.now ≡ strip_carriage_return line.now }
{
    match line.split_last() {
        Some((last, front)) if *last == b'\r' => front,
        _ => line,
    }
}
