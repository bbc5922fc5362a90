//! Strings of JSON.
ghost use Rattle.std.specs.Prelude.{◌≡◌, IfOk, OnOk};
ghost use Rattle.std.specs.Io.KnownBytes.{Appends};
ghost use Rattle.std.specs.String.{string_bytes};
ghost use Rattle.files_forms.specs.Forms.{AreJson, comma, first_of, is_first, json_name};

use files_text::Names;
use serde_json::Value;
use std::alloc::{AllocError, Global};
use std::io;
use std::io::Write;

/// Returns a name as a string of JSON, quotes included. Bytes that aren't UTF-8 become U+FFFD. Fails if
/// memory runs out.
pub fn name_json(alloc: Global, name: &[u8]) -> Result<String, AllocError>
    ensures { IfOk result (λ text. string_bytes text ≡ json_name name.now) }
{
    let text = String::from_utf8_lossy(alloc, name)?;
    let value = Value::String(text);
    value.to_string(alloc)
}

/// Writes a comma, unless what follows is the first of some items. Fails if the output does.
pub fn put_comma<W: Write>(output: &mut W, is_first: bool) -> io::Result<()>
    ensures { OnOk result (Appends (W.contents output.old) (W.contents output.new)
        (comma is_first)) }
{
    if is_first {
        return Ok(());
    }
    output.write_all(b",")
}

/// Returns whether a number is the first of some.
pub fn is_first(first: Option<usize>, number: usize) -> bool
    ensures { result ≡ is_first first number }
{
    match first {
        Some(first) => first == number,
        None => false,
    }
}

/// Returns the first of some numbers, or `None` if there is none.
pub fn first_of(numbers: &[usize]) -> Option<usize>
    ensures { result ≡ first_of numbers.now }
{
    match numbers.first() {
        Some(first) => Some(*first),
        None => None,
    }
}

/// Returns each of some names as a string of JSON. Fails if memory runs out.
pub fn names_json(alloc: Global, names: &Names<'_>) -> Result<Vec<String>, AllocError>
    ensures { IfOk result (λ texts. AreJson names.now texts.items) }
{
    let mut texts = Vec::with_capacity(alloc, names.len())?;
    for number in 0..names.len() {
        texts.push(name_json(alloc, names.name(number))?)?;
    }
    Ok(texts)
}
