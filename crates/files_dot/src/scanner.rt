//! The tokens of a text, with their places.
ghost use Rattle.std.specs.Prelude.{◌≡◌, ◌≢◌, ◌==◌, ◌+◌, ◌<◌, ◌≤◌, ℕ, List, None, drop, length, slice_index, take, IfErr, IfOk, OnOk};
ghost use Rattle.std.specs.Bool.{OnFalse, OnTrue};
ghost use Rattle.std.below.core.specs.declared.int.usize.TheConstants.{MAX};
ghost use Rattle.files_dot.specs.Ids.{mark_at};
ghost use Rattle.files_dot.specs.Places.{behind};
ghost use Rattle.files_dot.specs.Scanning.{IsNext, IsNotQuoted, IsStopped, IsStoppedBehind, TakesQuoted, TakesStrings, TakesWord};
ghost use Rattle.files_dot.specs.Tokens.{AreBlanks, IsPlus, NoBlank, expected_for};
ghost use Rattle.files_dot.specs.declared.place.Place.{Place};

use crate::bare::{bare_length, byte_at, is_bare_id, keyword_of};
use crate::pieces::{blank_length, html_end};
use crate::place::{Place, behind};
use crate::quoted::read_quoted;
use crate::token::{Token, Word, mark_length, mark_of};
use files_text::Fault;
use std::alloc::{AllocError, Global};

/// The rest of a text, and the place where it begins.
#[derive(Drop)]
pub struct Scanner<'a> {
    pub rest: &'a [u8],
    pub place: Place,
    ghost lines: { place.line + length rest.now ≤ MAX },
    ghost columns: { place.column + length rest.now ≤ MAX },
}

/// Returns what is expected where a byte begins no token.
fn expected_for(first: u8) -> &'static str
    ensures { result.now ≡ expected_for first }
{
    if first == b'<' {
        return "an HTML string with its closing `>`";
    }
    if first == b'/' {
        return "a comment, with its closing `*/` if it begins with `/*`";
    }
    "a name, a numeral, a string or a mark"
}

impl<'a> Scanner<'a> {
    /// Passes some bytes.
    fn pass(&mut self, count: usize)
        requires { count ≤ length self.old.rest.now }
        ensures rest { self.new.rest.now ≡ drop count self.old.rest.now }
        ensures place { self.new.place ≡ behind self.old.place (take count self.old.rest.now) }
    {
        let place = behind(self.place, &self.rest[..count]);
        self.rest = &self.rest[count..];
        self.place = place;
    }

    /// Passes a byte of white space or a comment. Returns whether one was next.
    fn pass_blank(&mut self) -> bool
        ensures passed { OnTrue result ((to : Place) → (rest : List ℕ)
            → AreBlanks self.new.place self.new.rest.now to rest
            → AreBlanks self.old.place self.old.rest.now to rest) }
        ensures shorter { OnTrue result (length self.new.rest.now < length self.old.rest.now) }
        ensures same { OnFalse result ((self.new.rest.now ≡ self.old.rest.now)
            × (self.new.place ≡ self.old.place)) }
        ensures none { OnFalse result
            (NoBlank (self.new.place.column == 1) self.new.rest.now) }
    {
        let count = blank_length(self.rest, self.place.column == 1);
        if count == 0 {
            return false;
        }
        self.pass(count);
        true
    }

    /// Passes white space and comments.
    pub fn pass_blanks(&mut self)
        ensures blanks { AreBlanks self.old.place self.old.rest.now self.new.place self.new.rest.now }
        ensures none { NoBlank (self.new.place.column == 1) self.new.rest.now }
        ensures shorter { length self.new.rest.now ≤ length self.old.rest.now }
    {
        'blanks: while self.pass_blank() {}
    }

    /// Adds the text of a string in quotes. Fails if none is next.
    fn take_quoted(&mut self, text: &mut Vec<u8>) -> Result<(), Fault>
        ensures ok { OnOk result (TakesQuoted self.old.place self.old.rest.now text.old.items
            text.new.items self.new.place self.new.rest.now) }
        ensures shorter { OnOk result (length self.new.rest.now < length self.old.rest.now) }
        ensures err { IfErr result (IsNotQuoted self.old.place self.old.rest.now) }
    {
        if byte_at(self.rest, 0) != b'"' {
            return Err(
                self.place
                    .unexpected("a string in double quotes, to be joined"),
            );
        }
        match read_quoted(text, &self.rest[1..])? {
            Some(inside) => {
                self.pass(inside + 2);
                Ok(())
            }
            None => Err(self.place.unexpected("a string with its closing `\"`")),
        }
    }

    /// Passes a byte, and white space and comments behind it.
    fn pass_sign(&mut self)
        requires { 0 < length self.old.rest.now }
        ensures blanks { AreBlanks (behind self.old.place (take 1 self.old.rest.now))
            (drop 1 self.old.rest.now) self.new.place self.new.rest.now }
        ensures shorter { length self.new.rest.now ≤ length self.old.rest.now }
    {
        self.pass(1);
        self.pass_blanks();
    }

    /// Passes a `+`, and white space and comments on both sides. Returns whether a `+` was next.
    fn pass_plus(&mut self) -> bool
        ensures plus { OnTrue result (IsPlus self.old.place self.old.rest.now self.new.place
            self.new.rest.now) }
        ensures none { OnFalse result (AreBlanks self.old.place self.old.rest.now self.new.place
            self.new.rest.now) }
        ensures shorter { length self.new.rest.now ≤ length self.old.rest.now }
    {
        self.pass_blanks();
        if byte_at(self.rest, 0) != b'+' {
            return false;
        }
        self.pass_sign();
        true
    }

    /// Returns the text of strings in quotes that `+` joins.
    fn take_string(&mut self, alloc: Global) -> Result<Vec<u8>, Fault>
        requires { slice_index self.old.rest.now 0 ≡ 34 }
        ensures ok { IfOk result (λ text. TakesStrings self.old.place self.old.rest.now text.items
            self.new.place self.new.rest.now) }
        ensures shorter { OnOk result (length self.new.rest.now < length self.old.rest.now) }
        ensures err { IfErr result (IsStopped self.old.place self.old.rest.now) }
    {
        let mut text = Vec::new(alloc);
        self.take_quoted(&mut text)?;
        'joined: while self.pass_plus() {
            self.take_quoted(&mut text)?;
        }
        Ok(text)
    }

    /// Returns bytes that are an ID as they stand.
    fn take_bytes(&mut self, alloc: Global, count: usize) -> Result<Vec<u8>, AllocError>
        requires { count ≤ length self.old.rest.now }
        ensures text { IfOk result (λ text. text.items ≡ take count self.old.rest.now) }
        ensures rest { OnOk result (self.new.rest.now ≡ drop count self.old.rest.now) }
        ensures place { OnOk result (self.new.place
            ≡ behind self.old.place (take count self.old.rest.now)) }
    {
        let text = self.rest[..count].to_vec(alloc)?;
        self.pass(count);
        Ok(text)
    }

    /// Returns the name, the numeral or the keyword that is next.
    fn take_bare(&mut self, alloc: Global) -> Result<Word, Fault>
        requires some { 0 < length self.old.rest.now }
        requires no_blank { NoBlank (self.old.place.column == 1) self.old.rest.now }
        requires no_quote { slice_index self.old.rest.now 0 ≢ 34 }
        requires no_html { slice_index self.old.rest.now 0 ≢ 60 }
        requires no_mark { mark_at self.old.rest.now ≡ None }
        ensures ok { IfOk result (λ word. TakesWord self.old.place self.old.rest.now word
            self.new.place self.new.rest.now) }
        ensures err { IfErr result (IsStopped self.old.place self.old.rest.now) }
    {
        let count = bare_length(self.rest);
        let text = &self.rest[..count];
        if let Some(mark) = keyword_of(text) {
            self.pass(count);
            return Ok(Word::Sign(mark));
        }
        if !is_bare_id(text) {
            return Err(self.place.unexpected(expected_for(self.rest[0])));
        }
        let text = self.take_bytes(alloc, count)?;
        Ok(Word::Id(text))
    }

    /// Returns the HTML string that is next.
    fn take_html(&mut self, alloc: Global) -> Result<Word, Fault>
        requires { slice_index self.old.rest.now 0 ≡ 60 }
        ensures ok { IfOk result (λ word. TakesWord self.old.place self.old.rest.now word
            self.new.place self.new.rest.now) }
        ensures err { IfErr result (IsStopped self.old.place self.old.rest.now) }
    {
        let first = byte_at(self.rest, 0);
        match html_end(&self.rest[1..]) {
            Some(inside) => {
                let text = self.take_bytes(alloc, inside + 1)?;
                Ok(Word::Id(text))
            }
            None => Err(self.place.unexpected(expected_for(first))),
        }
    }

    /// Returns the string in quotes that is next.
    fn take_joined(&mut self, alloc: Global) -> Result<Word, Fault>
        requires { slice_index self.old.rest.now 0 ≡ 34 }
        ensures ok { IfOk result (λ word. TakesWord self.old.place self.old.rest.now word
            self.new.place self.new.rest.now) }
        ensures err { IfErr result (IsStopped self.old.place self.old.rest.now) }
    {
        let text = self.take_string(alloc)?;
        Ok(Word::Id(text))
    }

    /// Returns the word that is next.
    fn take_word(&mut self, alloc: Global) -> Result<Word, Fault>
        requires some { 0 < length self.old.rest.now }
        requires no_blank { NoBlank (self.old.place.column == 1) self.old.rest.now }
        ensures ok { IfOk result (λ word. TakesWord self.old.place self.old.rest.now word
            self.new.place self.new.rest.now) }
        ensures err { IfErr result (IsStopped self.old.place self.old.rest.now) }
    {
        let first = byte_at(self.rest, 0);
        if first == b'"' {
            return self.take_joined(alloc);
        }
        if first == b'<' {
            return self.take_html(alloc);
        }
        match mark_of(first, byte_at(self.rest, 1)) {
            Some(mark) => {
                self.pass(mark_length(mark));
                Ok(Word::Sign(mark))
            }
            None => self.take_bare(alloc),
        }
    }

    /// Returns the next token, or `None` after the last.
    pub fn next(&mut self, alloc: Global) -> Result<Option<Token>, Fault>
        ensures ok { IfOk result (λ found. IsNext self.old.place self.old.rest.now found
            self.new.place self.new.rest.now) }
        ensures err { IfErr result (IsStoppedBehind self.old.place self.old.rest.now) }
    {
        self.pass_blanks();
        if self.rest.is_empty() {
            return Ok(None);
        }
        let place = self.place;
        let word = self.take_word(alloc)?;
        Ok(Some(Token { word, place }))
    }
}
