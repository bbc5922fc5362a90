//! Strings in double quotes.
ghost use Rattle.std.specs.Prelude.{◌≡◌, ◌++◌, ◌<◌, ℕ, false, length, take, IfNone, IfOk, IfSome};
ghost use Rattle.files_dot.specs.Pieces.{IsFirst, IsQuote, escapes, stands_for, text_of};

use std::alloc::AllocError;

/// Adds what a byte between quotes stands for. Returns whether it is a backslash that the next byte
/// belongs to. Fails if memory runs out.
fn put_byte(text: &mut Vec<u8>, byte: u8, is_escaped: bool) -> Result<bool, AllocError>
    ensures next { IfOk result (λ after. after ≡ escapes is_escaped byte) }
    ensures text { IfOk result (λ after. text.new.items ≡ text.old.items ++ stands_for is_escaped byte) }
{
    if !is_escaped && byte == b'\\' {
        return Ok(true);
    }
    if is_escaped && byte == b'\n' {
        return Ok(false);
    }
    if is_escaped && byte != b'"' {
        text.push(b'\\')?;
    }
    text.push(byte)?;
    Ok(false)
}

/// Adds what stands before the closing quote of a string. Returns how many bytes that are, or `None`
/// if the string has no closing quote. Fails if memory runs out.
pub fn read_quoted(text: &mut Vec<u8>, inside: &[u8]) -> Result<Option<usize>, AllocError>
    ensures some { IfOk result (λ found. IfSome found (λ k. IsFirst (IsQuote inside.now) k)) }
    ensures text { IfOk result (λ found. IfSome found (λ k.
        text.new.items ≡ text.old.items ++ text_of false (take k inside.now))) }
    ensures none { IfOk result (λ found. IfNone found ((k : ℕ) → ¬ IsQuote inside.now k)) }
    ensures within { IfOk result (λ found. IfSome found (λ k. k < length inside.now)) }
{
    let mut is_escaped = false;
    'bytes: for (i, byte) in inside.iter().enumerate() {
        if !is_escaped && *byte == b'"' {
            return Ok(Some(i));
        }
        is_escaped = put_byte(text, *byte, is_escaped)?;
    }
    Ok(None)
}
