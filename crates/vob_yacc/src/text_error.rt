//! What is wrong with a grammar file, and where.

use std::alloc::{AllocError, AllocFailed};
use std::{error, fmt};
use vob_lr::GrammarError;

/// What is wrong with a grammar file.
#[derive(Clone, Copy, Debug, PartialEq, Eq)]
pub enum TextFault {
    /// There was no memory.
    Memory,
    /// A character begins no word.
    BadCharacter,
    /// A quote, a comment, a brace, a bracket or a prologue isn't closed.
    Unclosed,
    /// A directive that this reader doesn't know.
    UnknownDirective,
    /// A word that can't stand where it does.
    Unexpected,
    /// There are no rules.
    NoRules,
    /// A name that is neither a token nor the left side of a rule.
    Undefined,
    /// A token with rules, a nonterminal that is used as a token, or a start symbol that is a token.
    NotANonterminal,
    /// A second precedence or a second number for a token, or a second type for a symbol.
    Redeclared,
    /// A token whose number another has.
    CodeTaken,
    /// A second start symbol.
    SecondStart,
    /// `%empty` in a rule that has symbols or actions within it.
    NotEmpty,
    /// Other tables than those of LALR(1) are asked for.
    OnlyLalr,
    /// The start symbol derives no text.
    DerivesNothing,
}

/// What is wrong with a grammar file, with the line and the column where, counted from 1. A column is
/// a byte of its line.
#[derive(Clone, Copy, Debug, PartialEq, Eq)]
pub struct TextError {
    pub line: usize,
    pub column: usize,
    pub fault: TextFault,
}

/// What is wrong, and before which byte.
#[derive(Clone, Copy, Debug)]
pub(crate) struct Stop {
    pub at: usize,
    pub fault: TextFault,
}

impl Stop {
    /// The same by line and column.
    pub(crate) fn in_lines(self, text: &[u8]) -> TextError {
        let (line, column) = place_of(text, self.at);
        TextError {
            line,
            column,
            fault: self.fault,
        }
    }
}

/// Returns the line and the column of a byte, counted from 1.
pub(crate) fn place_of(text: &[u8], at: usize) -> (usize, usize) {
    let mut line = 1usize;
    let mut column = 1usize;
    for byte in text.iter().take(at) {
        if *byte == b'\n' {
            line = line.saturating_add(1);
            column = 1;
        } else {
            column = column.saturating_add(1);
        }
    }
    (line, column)
}

impl From<AllocError> for Stop {
    fn from(_: AllocError) -> Stop {
        Stop {
            at: 0,
            fault: TextFault::Memory,
        }
    }
}

impl<T: Drop> From<AllocFailed<T>> for Stop {
    fn from(_: AllocFailed<T>) -> Stop {
        Stop {
            at: 0,
            fault: TextFault::Memory,
        }
    }
}

impl From<GrammarError> for Stop {
    // Rules that were read name symbols that are there.
    fn from(_: GrammarError) -> Stop {
        Stop {
            at: 0,
            fault: TextFault::Memory,
        }
    }
}

impl fmt::Display for TextFault {
    fn fmt<W: fmt::Write>(&self, f: &mut fmt::Formatter<W>) -> fmt::Result {
        f.write_str(match self {
            TextFault::Memory => "out of memory",
            TextFault::BadCharacter => "a character that begins no word",
            TextFault::Unclosed => "this isn't closed",
            TextFault::UnknownDirective => "an unknown directive",
            TextFault::Unexpected => "this word can't stand here",
            TextFault::NoRules => "there are no rules",
            TextFault::Undefined => "neither a token nor a name with rules",
            TextFault::NotANonterminal => "a name can't be a token and have rules",
            TextFault::Redeclared => "this has another precedence, number or type already",
            TextFault::CodeTaken => "another token has this one's number",
            TextFault::SecondStart => "there is a start symbol already",
            TextFault::NotEmpty => "%empty in a rule that isn't empty",
            TextFault::OnlyLalr => "only LALR(1) tables are made",
            TextFault::DerivesNothing => "the start symbol derives no text",
        })
    }
}

impl fmt::Display for TextError {
    fn fmt<W: fmt::Write>(&self, f: &mut fmt::Formatter<W>) -> fmt::Result {
        let line = self.line;
        let column = self.column;
        let fault = self.fault;
        write!(f, "line {line}, column {column}: {fault}")
    }
}

impl error::Error for TextError {}
