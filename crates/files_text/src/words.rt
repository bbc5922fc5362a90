//! The words of a text in lines, with their places.
ghost use Rattle.std.specs.Prelude.{◌≡◌, ◌≢◌, ◌⊎◌, ◌==◌, ◌<◌, ◌≤◌, ◌+◌, List, [], ◌∷◌, drop, map, take, length, codes, min, not, IfErr, IfOk, IfSome, IfNone, OnOk};
ghost use Rattle.std.specs.Bool.{OnTrue, OnFalse};
ghost use Rattle.std.specs.List.{prefix_len};
ghost use Rattle.files_text.specs.Faults.{IsLine};
ghost use Rattle.files_text.specs.Words.{AreLeft, BeginsWord, IsMarkOrName, Token, is_letter, token_of};

use crate::fault::Fault;
use std::alloc::{AllocError, Global};
use std::marker::Model;

/// A word, and the line and the column where it begins, counted from 1. A column is a byte of its
/// line.
#[derive(Clone, Copy)]
pub struct Word<'a> {
    pub text: &'a [u8],
    pub line: usize,
    pub column: usize,
}

impl Word<'_> {
    /// Returns the column right after the word, counted from 1, in bytes.
    pub fn end(&self) -> usize
        ensures { result ≡ min (self.now.column + length self.now.text.now) usize.MAX }
    {
        self.column.saturating_add(self.text.len())
    }

    /// Returns the fault of the word in the place of something else.
    pub fn unexpected(&self, expected: &'static str) -> Fault
        ensures { IsLine result self.now.line self.now.column expected.now }
    {
        Fault::Line {
            line: self.line,
            column: self.column,
            expected,
        }
    }

    /// Fails if the word is a comma. `Words` makes one a word if commas are marks.
    pub fn check_no_comma(&self) -> Result<(), Fault>
        ensures ok { OnOk result (self.now.text.now ≢ codes ",") }
        ensures err { IfErr result (λ fault. (self.now.text.now ≡ codes ",")
            × IsLine fault self.now.line self.now.column
            (codes "white space, as no name has a comma")) }
    {
        if self.text == b",".as_slice() {
            return Err(self.unexpected("white space, as no name has a comma"));
        }
        Ok(())
    }
}

/// Returns whether a byte is a letter of names.
fn is_letter(byte: u8, marks: &[u8]) -> bool
    ensures { result ≡ is_letter marks.now byte }
{
    !byte.is_ascii_whitespace() && !marks.contains(&byte)
}

/// Returns how many letters a text begins with.
fn letters(text: &[u8], marks: &[u8]) -> usize
    ensures count { result ≡ prefix_len (is_letter marks.now) text.now }
    ensures within { result ≤ length text.now }
{
    text.iter()
        .take_while(|byte| is_letter(**byte, marks))
        .count()
}

/// Returns how many bytes are on the line that a text begins with.
fn line_length(text: &[u8]) -> usize
    ensures count { result ≡ prefix_len (λ byte. not (byte == 10)) text.now }
    ensures within { result ≤ length text.now }
{
    text.iter().take_while(|byte| **byte != b'\n').count()
}

/// Returns how many bytes the word has that a text begins with.
fn word_length(text: &[u8], marks: &[u8]) -> usize
    requires { BeginsWord text.now }
    ensures word { IsMarkOrName marks.now (take result text.now) (drop result text.now) }
    ensures within { result ≤ length text.now }
{
    if marks.contains(&text[0]) {
        return 1;
    }
    letters(text, marks)
}

/// The words of a text that are left. A contract sees the rest of the text, and where that begins.
#[derive(Drop)]
pub struct Words<'a> {
    rest: &'a [u8],
    marks: &'a [u8],
    // How many line feeds are before the rest, and how many bytes on its line.
    line_feeds: usize,
    before: usize,
}

impl<'a> Model for Words<'a> {
    ghost use Rattle.std.specs.Prelude.{◌+◌, ◌≤◌, length};
    ghost use Rattle.std.below.core.specs.declared.int.usize.TheConstants.{MAX};
    ghost use Rattle.files_text.specs.Words.{Rest};

    ghost Value = { Rest };

    ghost view = { λ words. record {
      text = words.rest.now;
      marks = words.marks.now;
      line = words.line_feeds + 1;
      column = words.before + 1;
    } };

    ghost invariant = { λ words. (words.line_feeds + length words.rest.now ≤ MAX)
        × (words.before + length words.rest.now ≤ MAX) };
}

impl<'a> Words<'a> {
    /// Returns the words of a text. White space separates them; each of the bytes `marks` is a word of
    /// its own. A word that begins with `#` begins a comment, up to the end of its line.
    pub fn new(text: &'a [u8], marks: &'a [u8]) -> Words<'a>
        ensures { result ≡ record { text = text.now; marks = marks.now; line = 1; column = 1 } }
    {
        Words {
            rest: text,
            marks,
            line_feeds: 0,
            before: 0,
        }
    }

    /// Passes some bytes of a line.
    fn pass(&mut self, count: usize)
        requires { count ≤ length self.old.text }
        ensures { self.new ≡ record self.old {
          text = drop count self.old.text;
          column = self.old.column + count;
        } }
    {
        self.rest = &self.rest[count..];
        self.before += count;
    }

    /// Passes a line feed.
    fn pass_line_feed(&mut self)
        requires { 0 < length self.old.text }
        ensures { self.new ≡ record self.old {
          text = drop 1 self.old.text;
          line = self.old.line + 1;
          column = 1;
        } }
    {
        self.rest = &self.rest[1..];
        self.line_feeds += 1;
        self.before = 0;
    }

    /// Passes a byte of white space or a comment. Returns whether one was next.
    fn pass_blank(&mut self) -> bool
        ensures passed { OnTrue result ((words : List Token)
            → AreLeft self.new words → AreLeft self.old words) }
        ensures shorter { OnTrue result (length self.new.text < length self.old.text) }
        ensures word { OnFalse result ((self.new ≡ self.old)
            × ((self.new.text ≡ []) ⊎ BeginsWord self.new.text)) }
    {
        match self.rest.first() {
            Some(b'\n') => self.pass_line_feed(),
            Some(b'#') => self.pass(line_length(self.rest)),
            Some(byte) if byte.is_ascii_whitespace() => self.pass(1),
            _ => return false,
        }
        true
    }

    /// Returns the word that is next, or `None` at the end.
    fn take_word(&mut self) -> Option<Word<'a>>
        requires { (self.old.text ≡ []) ⊎ BeginsWord self.old.text }
        ensures some { IfSome result (λ word.
            (words : List Token) → AreLeft self.new words → AreLeft self.old (token_of word ∷ words)) }
        ensures shorter { IfSome result (λ word. length self.new.text < length self.old.text) }
        ensures none { IfNone result (AreLeft self.old []) }
    {
        if self.rest.is_empty() {
            return None;
        }
        let count = word_length(self.rest, self.marks);
        let word = Word {
            text: &self.rest[..count],
            line: self.line_feeds + 1,
            column: self.before + 1,
        };
        self.pass(count);
        Some(word)
    }

    /// Returns the next word, or `None` after the last.
    pub fn next(&mut self) -> Option<Word<'a>>
        ensures some { IfSome result (λ word.
            (words : List Token) → AreLeft self.new words → AreLeft self.old (token_of word ∷ words)) }
        ensures shorter { IfSome result (λ word. length self.new.text < length self.old.text) }
        ensures none { IfNone result (AreLeft self.old []) }
    {
        'blanks: while self.pass_blank() {}
        self.take_word()
    }

    /// Returns the words that are left, in their order. Fails if memory runs out.
    pub fn collect(self, alloc: Global) -> Result<Vec<Word<'a>>, AllocError>
        ensures { IfOk result (λ all. AreLeft self.entry (map token_of all.items)) }
    {
        let mut words = self;
        let mut all = Vec::new(alloc);
        'words: while let Some(word) = words.next() {
            all.push(word)?;
        }
        Ok(all)
    }
}
