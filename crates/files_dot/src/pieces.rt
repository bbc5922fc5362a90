//! How long the pieces of a text are: comments and HTML strings.
ghost use Rattle.std.specs.Prelude.{◌≡◌, ◌+◌, ◌<◌, ◌≤◌, ℕ, length, IfNone, IfSome};
ghost use Rattle.files_dot.specs.Pieces.{IsBlank, IsCommentEnd, IsFirst, IsHtmlEnd, line_length, open_after};
ghost use Rattle.files_dot.specs.Tokens.{NoBlank};

use crate::bare::byte_at;

/// Returns how many bytes are on the line that a text begins with.
fn line_length(text: &[u8]) -> usize
    ensures count { result ≡ line_length text.now }
    ensures within { result ≤ length text.now }
{
    text.iter().take_while(|byte| **byte != b'\n').count()
}

/// Returns where the first `*/` of a text begins, or `None` if there is none.
fn comment_end(text: &[u8]) -> Option<usize>
    ensures some { IfSome result (λ k. IsFirst (IsCommentEnd text.now) k) }
    ensures none { IfNone result ((k : ℕ) → ¬ IsCommentEnd text.now k) }
    ensures within { IfSome result (λ k. k + 2 ≤ length text.now) }
{
    'places: for k in 0..text.len() {
        if byte_at(text, k) == b'*' && byte_at(text, k + 1) == b'/' {
            return Some(k);
        }
    }
    None
}

/// Returns how many bytes of white space or of a comment a text begins with, and 0 if none.
pub fn blank_length(text: &[u8], begins_line: bool) -> usize
    ensures blank { 0 < result → IsBlank begins_line text.now result }
    ensures none { result ≡ 0 → NoBlank begins_line text.now }
    ensures within { result ≤ length text.now }
{
    let first = byte_at(text, 0);
    if first.is_ascii_whitespace() {
        return 1;
    }
    if first == b'#' && begins_line {
        return line_length(text);
    }
    if first != b'/' {
        return 0;
    }
    let second = byte_at(text, 1);
    if second == b'/' {
        return line_length(text);
    }
    if second != b'*' {
        return 0;
    }
    match comment_end(&text[2..]) {
        Some(inside) => inside + 4,
        None => 0,
    }
}

/// Returns how many brackets are open after a byte.
fn open_after(open_ones: usize, byte: u8) -> usize
    requires some { 0 < open_ones }
    requires few { open_ones < usize.MAX }
    ensures count { result ≡ open_after open_ones byte }
    ensures few { result ≤ open_ones + 1 }
{
    if byte == b'<' {
        return open_ones + 1;
    }
    if byte == b'>' {
        return open_ones - 1;
    }
    open_ones
}

/// Returns how many bytes come up to the `>` that closes a bracket before them, that included, or
/// `None` if there is none.
pub fn html_end(text: &[u8]) -> Option<usize>
    ensures some { IfSome result (λ k. IsFirst (IsHtmlEnd text.now) k) }
    ensures none { IfNone result ((k : ℕ) → ¬ IsHtmlEnd text.now k) }
    ensures within { IfSome result (λ k. k ≤ length text.now) }
{
    let mut open_ones = 1;
    'bytes: for (i, byte) in text.iter().enumerate() {
        open_ones = open_after(open_ones, *byte);
        if open_ones == 0 {
            return Some(i + 1);
        }
    }
    None
}
