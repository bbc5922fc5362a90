//! IDs that stand without quotes: names, numerals and keywords.
ghost use Rattle.std.specs.Prelude.{◌≡◌, ◌||◌, ◌<◌, ◌≤◌, ℕ, length, slice_index, IfNone, IfSome};
ghost use Rattle.std.specs.Char.{is_ascii_digit};
ghost use Rattle.std.specs.List.{list_all, list_any, prefix_len};
ghost use Rattle.files_dot.specs.declared.token.Mark.{Mark};
ghost use Rattle.files_dot.specs.Ids.{IsKeyword, bare_length, is_bare, is_fraction, is_in_name, is_letter, is_name, is_numeral, is_unsigned};

use crate::token::Mark;

/// Returns a byte of a text, or 0 past its end.
pub fn byte_at(text: &[u8], index: usize) -> u8
    ensures value { result ≡ slice_index text.now index }
    ensures within { 0 < result → index < length text.now }
{
    if index < text.len() {
        return text[index];
    }
    0
}

/// Returns whether a byte is a letter of names.
fn is_letter(byte: u8) -> bool
    ensures { result ≡ is_letter byte }
{
    byte.is_ascii_alphabetic() || byte == b'_' || byte >= 128
}

/// Returns whether a byte stands in a name.
fn is_in_name(byte: u8) -> bool
    ensures { result ≡ is_in_name byte }
{
    is_letter(byte) || byte.is_ascii_digit()
}

/// Returns whether a byte stands in a name or a numeral.
fn is_bare(byte: u8) -> bool
    ensures { result ≡ is_bare byte }
{
    is_in_name(byte) || byte == b'.'
}

/// Returns how many bytes of names and numerals a text begins with.
fn run_length(text: &[u8]) -> usize
    ensures count { result ≡ prefix_len is_bare text.now }
    ensures within { result ≤ length text.now }
{
    text.iter().take_while(|byte| is_bare(**byte)).count()
}

/// Returns how many bytes of an ID a text begins with: `-` perhaps, and bytes of names and numerals.
pub fn bare_length(text: &[u8]) -> usize
    ensures count { result ≡ bare_length text.now }
    ensures within { result ≤ length text.now }
{
    if byte_at(text, 0) == b'-' {
        return 1 + run_length(&text[1..]);
    }
    run_length(text)
}

/// Returns whether all bytes stand in names.
fn are_in_name(text: &[u8]) -> bool
    ensures { result ≡ list_all is_in_name text.now }
{
    text.iter().all(|byte| is_in_name(*byte))
}

/// Returns whether a text is a name.
fn is_name(text: &[u8]) -> bool
    ensures { result ≡ is_name text.now }
{
    let Some((first, others)) = text.split_first() else {
        return false;
    };
    is_letter(*first) && are_in_name(others)
}

/// Returns how many digits a text begins with.
fn digits(text: &[u8]) -> usize
    ensures count { result ≡ prefix_len is_ascii_digit text.now }
    ensures within { result ≤ length text.now }
{
    text.iter().take_while(|byte| byte.is_ascii_digit()).count()
}

/// Returns whether a text has digits alone.
fn are_digits(text: &[u8]) -> bool
    ensures { result ≡ list_all is_ascii_digit text.now }
{
    text.iter().all(|byte| byte.is_ascii_digit())
}

/// Returns whether a text has a digit.
fn has_digit(text: &[u8]) -> bool
    ensures { result ≡ list_any is_ascii_digit text.now }
{
    text.iter().any(|byte| byte.is_ascii_digit())
}

/// Returns whether a text is empty, or a point and digits.
fn is_fraction(text: &[u8]) -> bool
    ensures { result ≡ is_fraction text.now }
{
    let Some((first, others)) = text.split_first() else {
        return true;
    };
    *first == b'.' && are_digits(others)
}

/// Returns whether a text is a numeral without its `-`.
fn is_unsigned(text: &[u8]) -> bool
    ensures { result ≡ is_unsigned text.now }
{
    has_digit(text) && is_fraction(&text[digits(text)..])
}

/// Returns whether a text is a numeral.
fn is_numeral(text: &[u8]) -> bool
    ensures { result ≡ is_numeral text.now }
{
    if byte_at(text, 0) == b'-' {
        return is_unsigned(&text[1..]);
    }
    is_unsigned(text)
}

/// Returns whether a text is a name or a numeral.
pub fn is_bare_id(text: &[u8]) -> bool
    ensures { result ≡ (is_name text.now || is_numeral text.now) }
{
    is_name(text) || is_numeral(text)
}

/// Returns the keyword that a text is, without regard to case, or `None` if it is none.
pub fn keyword_of(text: &[u8]) -> Option<Mark>
    ensures some { IfSome result (IsKeyword text.now) }
    ensures none { IfNone result ((mark : Mark) → ¬ IsKeyword text.now mark) }
{
    if text.eq_ignore_ascii_case(b"strict") {
        return Some(Mark::Strict);
    }
    if text.eq_ignore_ascii_case(b"graph") {
        return Some(Mark::Graph);
    }
    if text.eq_ignore_ascii_case(b"digraph") {
        return Some(Mark::Digraph);
    }
    if text.eq_ignore_ascii_case(b"node") {
        return Some(Mark::Node);
    }
    if text.eq_ignore_ascii_case(b"edge") {
        return Some(Mark::Edge);
    }
    if text.eq_ignore_ascii_case(b"subgraph") {
        return Some(Mark::Subgraph);
    }
    None
}
