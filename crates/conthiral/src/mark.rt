//! The line of a text that a fault is in, with a mark below the place.

use std::alloc::{AllocError, Global};
use std::fs::File;
use std::io;
use std::io::{BufRead, BufReader};
use std::rt::Files;
use unicode_width::UnicodeWidthStr;

/// How many bytes of a line are shown at most before a place, and how many after it.
const BEFORE: usize = 60;

const AFTER: usize = 40;

/// Reads a line of a file, counted from 1.
pub fn read_line<R: Files + AllocGlobal>(rt: &R, file: &str, line: usize) -> io::Result<Vec<u8>> {
    let alloc = rt.alloc();
    let mut reader = BufReader::new(alloc, File::open(rt, file)?)?;
    let mut text = Vec::new(alloc);
    for _ in 0..line {
        text.clear();
        reader.read_until(b'\n', &mut text)?;
    }
    Ok(text)
}

/// Returns where the character begins that the byte at a place is of. It has four bytes at most.
fn character_start(text: &[u8], place: usize) -> usize {
    for back in 0..4 {
        let start = place.saturating_sub(back);
        match text.get(start) {
            Some(byte) if *byte & 0xc0 == 0x80 => {}
            _ => return start,
        }
    }
    place
}

/// Returns a text as a terminal shows it on one line: a control character is a space.
fn shown(alloc: Global, text: &[u8]) -> Result<String, AllocError> {
    let text = String::from_utf8_lossy(alloc, text)?;
    let mut shown = String::new(alloc);
    for character in text.as_str().chars() {
        shown.push(if character.is_control() {
            ' '
        } else {
            character
        })?;
    }
    Ok(shown)
}

/// Returns a line, and below it a mark at the column of a byte, counted from 1. Of a long line only
/// the surroundings are shown.
pub fn marked(alloc: Global, line: &[u8], column: usize) -> Result<String, AllocError> {
    let place = character_start(line, column.saturating_sub(1).min(line.len()));
    let start = character_start(line, place.saturating_sub(BEFORE));
    let end = character_start(line, place.saturating_add(AFTER).min(line.len()));
    let cut = if start > 0 { ".." } else { "" };
    let before = shown(alloc, line.get(start..place).unwrap_or_default())?;
    let after = shown(alloc, line.get(place..end).unwrap_or_default())?;
    let width = cut.len().saturating_add(before.as_str().width());
    let space = " ".repeat(alloc, width)?;
    format!(in alloc; "  {cut}{before}{}\n  {space}^", after.as_str().trim_end())
}
