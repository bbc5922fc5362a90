//! The words of a condition, and the columns where they begin.
ghost use Rattle.std.specs.Prelude.{◌≡◌, ◌↔◌, ◌≤◌, ◌+◌, ◌&&◌, [], Some, not, drop, map, length, slice_get, IfErr, IfOk, IsTrue};
ghost use Rattle.std.below.core.specs.declared.int.usize.TheConstants.{MAX};
ghost use Rattle.std.specs.Char.{is_ascii_control, is_ascii_whitespace};
ghost use Rattle.std.specs.List.{prefix_len};
ghost use Rattle.files_condition.specs.Places.{IsWordFault};
ghost use Rattle.files_condition.specs.Scanning.{BeginsMark, BeginsPlain, EndsWhite, IsNext, IsUnclosedHere, has_equal, is_inside, mark_of};
ghost use Rattle.files_condition.specs.Words.{AreWords, AreWordsOf, IsWordText, column_of, is_plain, spelling, token_of};

use crate::condition::{Operand, Relation};
use crate::fault::ConditionFault;
use std::alloc::Global;

/// How many words a condition has at most.
const MOST_WORDS: usize = 1000;

/// A mark of a condition.
#[derive(Clone, Copy)]
pub enum Mark {
    And,
    Or,
    Not,
    Open,
    Close,
    Compares(Relation),
}

/// A word of a condition: a name or a value, or a mark and the column where it begins, counted
/// from 1.
#[derive(Clone, Copy)]
pub enum Word<'a> {
    Text(Operand<'a>),
    Sign(Mark, usize),
}

/// Returns whether a text may stand in a condition without quotes.
pub fn is_word(text: &[u8]) -> bool
    ensures { IsTrue result ↔ IsWordText text.now }
{
    !text.is_empty() && text.iter().all(|byte| is_letter(*byte))
}

/// Returns whether a byte stands in a word without quotes, and isn't a control character.
fn is_letter(byte: u8) -> bool
    ensures { result ≡ (is_plain byte && not (is_ascii_control byte)) }
{
    is_plain(byte) && !byte.is_ascii_control()
}

/// Returns whether a byte stands in a word without quotes.
fn is_plain(byte: u8) -> bool
    ensures { result ≡ is_plain byte }
{
    !byte.is_ascii_whitespace() && !b"&|!()=<>\"".contains(&byte)
}

/// Returns how many bytes of white space a text begins with.
fn white(text: &[u8]) -> usize
    ensures count { result ≡ prefix_len is_ascii_whitespace text.now }
    ensures within { result ≤ length text.now }
{
    text.iter()
        .take_while(|byte| byte.is_ascii_whitespace())
        .count()
}

/// Returns how many bytes of a word without quotes a text begins with.
fn plain(text: &[u8]) -> usize
    ensures count { result ≡ prefix_len is_plain text.now }
    ensures within { result ≤ length text.now }
{
    text.iter().take_while(|byte| is_plain(**byte)).count()
}

/// Returns how many bytes come before the first quote of a text.
fn inside(text: &[u8]) -> usize
    ensures count { result ≡ prefix_len is_inside text.now }
    ensures within { result ≤ length text.now }
{
    text.iter().take_while(|byte| **byte != b'"').count()
}

/// Returns the mark that a byte begins, or `None` if it begins none.
fn mark_of(first: u8, with_equal: bool) -> Option<Mark>
    ensures { result ≡ mark_of first with_equal }
{
    if first == b'&' {
        return Some(Mark::And);
    }
    if first == b'|' {
        return Some(Mark::Or);
    }
    if first == b'(' {
        return Some(Mark::Open);
    }
    if first == b')' {
        return Some(Mark::Close);
    }
    if first == b'=' {
        return Some(Mark::Compares(Relation::Equal));
    }
    if first == b'!' {
        return Some(if with_equal {
            Mark::Compares(Relation::NotEqual)
        } else {
            Mark::Not
        });
    }
    if first == b'<' {
        return Some(Mark::Compares(if with_equal {
            Relation::LessOrEqual
        } else {
            Relation::Less
        }));
    }
    if first == b'>' {
        return Some(Mark::Compares(if with_equal {
            Relation::GreaterOrEqual
        } else {
            Relation::Greater
        }));
    }
    None
}

/// Returns how many bytes a mark has.
fn mark_length(mark: Mark) -> usize
    ensures { result ≡ length (spelling mark) }
{
    match mark {
        Mark::Compares(Relation::NotEqual) => 2,
        Mark::Compares(Relation::LessOrEqual) => 2,
        Mark::Compares(Relation::GreaterOrEqual) => 2,
        _ => 1,
    }
}

/// The words of a text that are left, and the column where they begin, counted from 1.
#[derive(Drop)]
struct Words<'a> {
    rest: &'a [u8],
    at: usize,
    ghost within: { at + length rest.now ≤ MAX },
}

impl<'a> Words<'a> {
    /// Passes some bytes.
    fn pass(&mut self, count: usize)
        requires { count ≤ length self.old.rest.now }
        ensures rest { self.new.rest.now ≡ drop count self.old.rest.now }
        ensures at { self.new.at ≡ self.old.at + count }
    {
        self.rest = &self.rest[count..];
        self.at += count;
    }

    /// Passes white space.
    fn pass_white(&mut self)
        ensures white { AreWords self.old.at self.old.rest.now [] self.new.at self.new.rest.now }
        ensures dark { EndsWhite self.new.rest.now }
    {
        let count = white(self.rest);
        self.pass(count);
    }

    /// Returns the name or the value in quotes that is next. Fails if its last quote isn't there.
    fn take_quoted(&mut self) -> Result<Word<'a>, ConditionFault>
        requires { Some 34 ≡ slice_get self.old.rest.now 0 }
        ensures ok { IfOk result (λ word.
            IsNext self.old.at self.old.rest.now (Some word) self.new.at self.new.rest.now) }
        ensures err { IfErr result (λ fault. IsUnclosedHere self.old.at self.old.rest.now fault) }
    {
        let text = &self.rest[1..];
        let count = inside(text);
        if count == text.len() {
            return Err(ConditionFault::Word {
                column: self.at + self.rest.len(),
                expected: "a closing `\"`",
            });
        }
        let word = Word::Text(Operand {
            text: &text[..count],
            at: self.at,
            is_quoted: true,
        });
        self.pass(count + 2);
        Ok(word)
    }

    /// Returns the name or the value without quotes that is next.
    fn take_plain(&mut self) -> Word<'a>
        requires { BeginsPlain self.old.rest.now }
        ensures { IsNext self.old.at self.old.rest.now (Some result) self.new.at self.new.rest.now }
    {
        let count = plain(self.rest);
        let word = Word::Text(Operand {
            text: &self.rest[..count],
            at: self.at,
            is_quoted: false,
        });
        self.pass(count);
        word
    }

    /// Returns the mark that is next.
    fn take_mark(&mut self, mark: Mark) -> Word<'a>
        requires { BeginsMark mark self.old.rest.now }
        ensures { IsNext self.old.at self.old.rest.now (Some result) self.new.at self.new.rest.now }
    {
        let word = Word::Sign(mark, self.at);
        self.pass(mark_length(mark));
        word
    }

    /// Returns whether `=` is the second byte.
    fn has_equal(&self) -> bool
        ensures { result ≡ has_equal (drop 1 self.now.rest.now) }
    {
        match self.rest.get(1) {
            Some(byte) => *byte == b'=',
            None => false,
        }
    }

    /// Returns the word that is next, or `None` at the end. Fails if a quote isn't closed.
    fn take(&mut self) -> Result<Option<Word<'a>>, ConditionFault>
        requires { EndsWhite self.old.rest.now }
        ensures ok { IfOk result (λ found.
            IsNext self.old.at self.old.rest.now found self.new.at self.new.rest.now) }
        ensures err { IfErr result (λ fault. IsUnclosedHere self.old.at self.old.rest.now fault) }
    {
        let Some(first) = self.rest.first() else {
            return Ok(None);
        };
        let first = *first;
        if first == b'"' {
            return Ok(Some(self.take_quoted()?));
        }
        if let Some(mark) = mark_of(first, self.has_equal()) {
            return Ok(Some(self.take_mark(mark)));
        }
        Ok(Some(self.take_plain()))
    }

    /// Returns the next word, or `None` after the last. Fails if a quote isn't closed.
    fn next(&mut self) -> Result<Option<Word<'a>>, ConditionFault>
        ensures ok { IfOk result (λ found.
            IsNext self.old.at self.old.rest.now found self.new.at self.new.rest.now) }
        ensures err { IfErr result (λ fault. IsUnclosedHere self.old.at self.old.rest.now fault) }
    {
        self.pass_white();
        let found = self.take()?;
        Ok(found)
    }
}

impl Word<'_> {
    /// Returns the column where it begins, counted from 1.
    pub fn column(&self) -> usize
        ensures { result ≡ column_of (token_of self.now) }
    {
        match self {
            Word::Text(operand) => operand.at,
            Word::Sign(_, at) => *at,
        }
    }
}

/// Returns the words of a condition. Fails if a quote isn't closed, after 1000 words, or if memory
/// runs out.
pub fn words_of(alloc: Global, text: &[u8]) -> Result<Vec<Word<'_>>, ConditionFault>
    ensures ok { IfOk result (λ words. AreWordsOf text.now (map token_of words.items)) }
    ensures err { IfErr result (λ fault. IsWordFault text.now fault) }
{
    let mut left = Words { rest: text, at: 1 };
    let mut words = Vec::new(alloc);
    'words: while let Some(word) = left.next()? {
        if words.len() >= MOST_WORDS {
            return Err(ConditionFault::Word {
                column: word.column(),
                expected: "at most 1000 words",
            });
        }
        words.push(word)?;
    }
    Ok(words)
}
