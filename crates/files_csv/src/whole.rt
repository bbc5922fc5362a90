//! A text of CSV, read by whole rows.
ghost use Rattle.std.specs.Prelude.{◌≡◌, ◌≢◌, ◌↔◌, ◌==◌, ◌+◌, ◌<◌, ◌≤◌, ◌++◌, [], ℕ, List, None, Some, count_by, drop, length, take, true, false, IfOk, IfSome, MatchBool, MatchResult, OnOk};
ghost use Rattle.std.specs.Bool.{IsTrue};
ghost use Rattle.std.specs.Io.KnownBytes.{Consumes, IsAtEnd, Keeps, ReadConsumes};
ghost use Rattle.std.specs.Io.{ReadsAtMost};
ghost use Rattle.files_csv.specs.Parts.{StandsNext};
ghost use Rattle.files_csv.specs.Progress.{AreGone, HasRead, HasReadTo, HasRefused, HasScanned, RefusesAfter};
ghost use Rattle.files_csv.specs.Refused.{IsRefused, column_after, line_after};
ghost use Rattle.files_csv.specs.Rows.{IsBody, IsCsv, mark};
ghost use Rattle.files_csv.specs.Whole.{IsFresh, KeepsText, LeavesText, rows_at_hand, unread};
ghost use Rattle.files_text.specs.Faults.{IsLine};

use crate::quotes::{MARK, Part, cell_start};
use files_text::Fault;
use std::alloc::{AllocError, Global};
use std::io;
use std::io::{ErrorKind, Read};

/// How many bytes are read at once.
const CHUNK: usize = 1 << 16;

/// A reader of a text that gives whole rows alone, up to the first byte that RFC 4180 refuses. Such
/// is a quote in a cell without quotes, more after a closing quote, a quote that isn't closed, or a
/// carriage return without a line feed. A read fails there.
///
/// It keeps the rows that the last reads gave, so that a fault in a cell has its line and column.
#[derive(Drop)]
pub struct WholeRows<R> {
    input: R,
    // The first `filled` bytes are the text from the beginning of a line on.
    text: Vec<u8>,
    filled: usize,
    // How many of these are whole rows, and how many were given.
    whole: usize,
    given: usize,
    // What the byte after these stands in, and the place where its cell begins.
    part: Part,
    cell: usize,
    // What comes before them in the input.
    bytes: u64,
    lines: usize,
    refused: Option<Refused>,
}

/// The line and the column of the first byte that is refused, and what was expected there.
#[derive(Clone, Copy)]
struct Refused {
    line: usize,
    column: usize,
    expected: &'static str,
}

/// Reads bytes to a place of a text and after it, and returns how many.
fn read_from<R: Read>(input: &mut R, text: &mut [u8], from: usize) -> io::Result<usize>
    requires { from ≤ length text.old }
    ensures before { take from text.new ≡ take from text.old }
    ensures len { length text.new ≡ length text.old }
    ensures bound { IfOk result (λ count. count ≤ length (drop from text.new)) }
    ensures bytes { ReadConsumes (R.remaining input.old) (R.remaining input.new)
        result (drop from text.new) }
{
    input.read(&mut text[from..])
}

/// Returns how many lines end in a text.
fn line_feeds(text: &[u8]) -> usize
    ensures { result ≡ count_by (λ byte. byte == 10) text.now }
{
    text.iter().filter(|byte| **byte == b'\n').count()
}

/// Returns the column of what comes after a text, counted from 1.
fn column(text: &[u8]) -> usize
    ensures { result ≡ column_after text.now }
{
    let mut start = text.len();
    while start > 0 && text[start - 1] != b'\n' {
        start -= 1;
    }
    text.len() - start + 1
}

/// Returns whether a text begins with the mark of UTF-8.
fn has_mark(text: &[u8]) -> bool
    ensures { IsTrue result ↔ ((rest : List ℕ) × (text.now ≡ mark ++ rest)) }
{
    text.len() >= 3 && text[0] == 0xef && text[1] == 0xbb && text[2] == 0xbf
}

impl<R: Read> WholeRows<R> {
    /// Makes the reader of the rows of a text.
    pub fn new(alloc: Global, input: R) -> WholeRows<R>
        ensures unread { Keeps (R.remaining input) (unread R.remaining result) }
        ensures progress { (text : List ℕ) → R.remaining input ≡ Some text →
            HasRead R.remaining text result }
    {
        WholeRows {
            input,
            text: Vec::new(alloc),
            filled: 0,
            whole: 0,
            given: 0,
            part: Part::Mark(0),
            cell: 0,
            bytes: 0,
            lines: 0,
            refused: None,
        }
    }

    /// Returns the whole rows that weren't given.
    fn rows(&self) -> &[u8]
        ensures { result.now ≡ rows_at_hand self.now }
    {
        let end = self.whole.min(self.filled).min(self.text.len());
        self.text.get(self.given..end).unwrap_or_default()
    }

    /// Forgets the bytes that were given. Each row that begins in them ends in them.
    fn forget(&mut self)
        ensures fresh { IsFresh self.new }
        ensures unread { Keeps (unread R.remaining self.old) (unread R.remaining self.new) }
        ensures progress { (text : List ℕ) → rows_at_hand self.old ≡ [] →
            HasRead R.remaining text self.old → HasRead R.remaining text self.new }
    {
        let filled = self.filled.min(self.text.len());
        let given = self.given.min(filled);
        self.lines = self.lines.saturating_add(line_feeds(&self.text[..given]));
        self.bytes = self.bytes.saturating_add(given as u64);
        self.text.copy_within(given..filled, 0);
        self.filled = filled - given;
        self.whole = self.whole.saturating_sub(given);
        self.cell = self.cell.saturating_sub(given);
        self.given = 0;
    }

    /// Makes room to read more of the text.
    fn make_room(&mut self) -> Result<(), AllocError>
        requires { IsFresh self.old }
        ensures fresh { IsFresh self.new }
        ensures same { KeepsText self.old self.new }
        ensures room { OnOk result (self.new.filled < length self.new.text.items) }
    {
        let len = self.filled.saturating_add(CHUNK);
        if len <= self.text.len() {
            return Ok(());
        }
        self.text.resize(len, 0)
    }

    /// Reads more of the text, and returns how many bytes.
    fn read_more(&mut self) -> io::Result<usize>
        requires { IsFresh self.old }
        ensures fresh { IsFresh self.new }
        ensures unread { Keeps (unread R.remaining self.old) (unread R.remaining self.new) }
        ensures filled { MatchResult result (λ count. self.new.filled ≡ self.old.filled + count)
            (λ _. self.new.filled ≡ self.old.filled) }
        ensures end { IfOk result (λ count. count ≡ 0 → IsAtEnd (R.remaining self.new.input)) }
        ensures refused { self.new.refused ≡ self.old.refused }
        ensures progress { (text : List ℕ) → HasRead R.remaining text self.old →
            HasReadTo R.remaining text self.new self.old.filled }
    {
        self.make_room()?;
        let count = read_from(&mut self.input, &mut self.text, self.filled)?;
        self.filled += count;
        Ok(count)
    }

    /// Finds the rows that are whole among the bytes from a place on.
    fn scan(&mut self, from: usize)
        ensures same { LeavesText self.old self.new }
        ensures progress { (text : List ℕ) → self.old.refused ≡ None →
            HasReadTo R.remaining text self.old from → HasRead R.remaining text self.new }
    {
        for at in from..self.filled.min(self.text.len()) {
            if self.refuses(at) {
                return;
            }
        }
    }

    /// Looks at the byte at a place, and returns whether it is refused.
    #[inline(always)]
    fn refuses(&mut self, at: usize) -> bool
        requires { at < length self.old.text.items }
        ensures same { LeavesText self.old self.new }
        ensures progress { (text : List ℕ) → at < self.old.filled →
            HasScanned R.remaining text self.old at → MatchBool result
            (HasRefused text self.new) (HasScanned R.remaining text self.new (at + 1)) }
    {
        let next = match self.part.after(self.text[at]) {
            Ok(next) => next,
            Err(expected) => {
                self.refuse(at, expected);
                return true;
            }
        };
        self.stand(next, at + 1);
        false
    }

    /// Takes what the byte at a place stands in.
    #[inline(always)]
    fn stand(&mut self, next: Part, place: usize)
        ensures same { LeavesText self.old self.new }
        ensures progress { (text : List ℕ) (at : ℕ) → place ≡ at + 1 → at < self.old.filled →
            (has : HasScanned R.remaining text self.old at) →
            StandsNext next (has.gone ++ take (at + 1) self.old.text.items)
            (length has.gone + self.old.cell) → HasScanned R.remaining text self.new (at + 1) }
    {
        match next {
            Part::End => {
                self.part = Part::Start;
                self.cell = place;
                self.whole = place;
            }
            Part::Start => {
                self.part = Part::Start;
                self.cell = place;
            }
            _ => self.part = next,
        }
    }

    /// Refuses the byte at a place.
    fn refuse(&mut self, at: usize, expected: &'static str)
        ensures same { LeavesText self.old self.new }
        ensures refused { (gone body : List ℕ) → AreGone self.old gone →
            at ≤ length self.old.text.items → IsBody (gone ++ take at self.old.text.items) body →
            RefusesAfter self.new body expected.now }
    {
        let (line, column) = self.line_and_column(at);
        self.refused = Some(Refused {
            line,
            column,
            expected,
        });
    }

    /// Takes what is left for a row, at the end of the text.
    fn end(&mut self)
        ensures same { LeavesText self.old self.new }
        ensures progress { (text : List ℕ) → self.old.refused ≡ None →
            IsAtEnd (R.remaining self.old.input) → HasRead R.remaining text self.old →
            HasRead R.remaining text self.new }
    {
        match self.part {
            Part::Quoted => self.refuse(self.cell, "a closing `\"`"),
            Part::Return => self.refuse(self.filled, "a line feed after a carriage return"),
            _ => self.whole = self.filled,
        }
    }

    /// Gives as many bytes of the whole rows as there is room for, and returns their number.
    fn give(&mut self, buf: &mut [u8]) -> usize
        ensures bound { result ≤ length buf.new }
        ensures bytes { Consumes (unread R.remaining self.old) (unread R.remaining self.new)
            (take result buf.new) }
        ensures some { rows_at_hand self.old ≢ [] → result ≡ 0 → length buf.new ≡ 0 }
        ensures progress { (text : List ℕ) → HasRead R.remaining text self.old →
            HasRead R.remaining text self.new }
    {
        let rows = self.rows();
        let count = rows.len().min(buf.len());
        buf[..count].copy_from_slice(&rows[..count]);
        self.given += count;
        count
    }

    /// Reads until there is a whole row that wasn't given, and returns whether there is one.
    fn fill(&mut self) -> io::Result<bool>
        ensures unread { Keeps (unread R.remaining self.old) (unread R.remaining self.new) }
        ensures some { IfOk result (λ more. more ≡ true → rows_at_hand self.new ≢ []) }
        ensures end { IfOk result (λ more. more ≡ false → IsAtEnd (unread R.remaining self.new)) }
        ensures progress { (text : List ℕ) → HasRead R.remaining text self.old →
            HasRead R.remaining text self.new }
        ensures is_csv { IfOk result (λ more. more ≡ false → (text : List ℕ) →
            HasRead R.remaining text self.old → IsCsv text) }
    {
        if !self.rows().is_empty() {
            return Ok(true);
        }
        self.forget();
        for _ in 0..usize::MAX {
            if !self.rows().is_empty() {
                return Ok(true);
            }
            if self.refused.is_some() {
                return Err(io::Error::from(ErrorKind::InvalidData));
            }
            let from = self.filled;
            match self.read_more() {
                Ok(0) if self.filled == 0 => return Ok(false),
                Ok(0) => self.end(),
                Ok(_) => self.scan(from),
                Err(error) if error.kind() == ErrorKind::Interrupted => {}
                Err(error) => return Err(error),
            }
        }
        Err(io::Error::from(ErrorKind::InvalidData))
    }

    /// Returns what the first byte of a row stands in.
    fn first_part(&self, start: usize) -> Part {
        if self.bytes == 0 && start == 0 {
            Part::Mark(0)
        } else {
            Part::Start
        }
    }

    /// Returns bytes at hand, without the mark if they begin the text.
    fn without_mark<'a>(&self, text: &'a [u8]) -> &'a [u8]
        ensures start { self.now.bytes ≡ 0 → (rest : List ℕ) → text.now ≡ mark ++ rest →
            result.now ≡ rest }
        ensures later { (self.now.bytes ≡ 0 → (rest : List ℕ) → text.now ≢ mark ++ rest) →
            result.now ≡ text.now }
    {
        if self.bytes == 0 && has_mark(text) {
            return &text[MARK.len()..];
        }
        text
    }

    /// Returns the line and the column of a place, counted from 1. A column is a byte.
    fn line_and_column(&self, at: usize) -> (usize, usize)
        ensures { (gone body : List ℕ) → AreGone self.now gone → at ≤ length self.now.text.items →
            IsBody (gone ++ take at self.now.text.items) body →
            (result.0 ≡ line_after body) × (result.1 ≡ column_after body) }
    {
        let before = self.without_mark(&self.text[..at.min(self.text.len())]);
        let lines = self.lines.saturating_add(line_feeds(before));
        (lines.saturating_add(1), column(before))
    }

    /// Returns the place where the row begins that was read from a byte of the input on. Blank lines
    /// before the row are passed over.
    fn row_start(&self, byte: u64) -> usize {
        let from = usize::try_from(byte.saturating_sub(self.bytes)).unwrap_or(self.filled);
        for at in from..self.filled.min(self.text.len()) {
            if self.text[at] != b'\n' && self.text[at] != b'\r' {
                return at;
            }
        }
        self.filled
    }

    /// Returns the line and the column where a cell begins of the row that was read from a byte of
    /// the input on. The row is the last one that was given.
    pub fn cell_place(&self, byte: u64, cell: usize) -> (usize, usize) {
        let start = self.row_start(byte);
        let row = self.text.get(start..).unwrap_or_default();
        let at = start.saturating_add(cell_start(row, self.first_part(start), cell));
        self.line_and_column(at)
    }

    /// Returns the fault of the byte that is refused, if one was found.
    pub fn fault(&self) -> Option<Fault>
        ensures { (text : List ℕ) → HasRead R.remaining text self.now → IfSome result (λ fault.
            (line column : ℕ) × (expected : List ℕ) × IsRefused text line column expected
            × IsLine fault line column expected) }
    {
        let Refused {
            line,
            column,
            expected,
        } = self.refused?;
        Some(Fault::Line {
            line,
            column,
            expected,
        })
    }
}

impl<R: Read> Read for WholeRows<R> {
    ghost remaining = { unread R.remaining };

    fn read(&mut self, buf: &mut [u8]) -> io::Result<usize>
        ensures bound { ReadsAtMost result buf.new }
        ensures bytes { ReadConsumes (unread R.remaining self.old) (unread R.remaining self.new)
            result buf.new }
        ensures progress { (text : List ℕ) → HasRead R.remaining text self.old →
            HasRead R.remaining text self.new }
        ensures is_csv { IfOk result (λ count. count ≡ 0 → 0 < length buf.new → (text : List ℕ) →
            HasRead R.remaining text self.old → IsCsv text) }
    {
        if !self.fill()? {
            return Ok(0);
        }
        Ok(self.give(buf))
    }
}
