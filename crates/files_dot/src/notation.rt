//! The notations in which a graph stands in a text.
ghost use Rattle.std.specs.Prelude.{◌≡◌, IfNone, IfSome};
ghost use Rattle.std.specs.Bool.{OnFalse, OnTrue};
ghost use Rattle.files_dot.specs.Ids.{IsKeyword, bare_in};
ghost use Rattle.files_dot.specs.Notations.{BeginsGraph, IsIn, is_graph_word};
ghost use Rattle.files_dot.specs.declared.token.Mark.{Mark};

use crate::bare::{bare_length, keyword_of};
use crate::place::Place;
use crate::scanner::Scanner;
use crate::token::Mark;

/// A notation in which a graph stands in a text.
#[derive(Clone, Copy, PartialEq, Eq)]
pub enum Notation {
    /// Lines, in the way of the program that reads them.
    Lines,
    /// DOT, the language of Graphviz.
    Dot,
}

/// The names of the notations.
pub static NOTATIONS: [&str; 2] = ["dot", "lines"];

impl Notation {
    /// Returns the notation with a name, one of `NOTATIONS`, or `None` if there is none.
    pub fn of(name: &str) -> Option<Notation> {
        match name {
            "dot" => Some(Notation::Dot),
            "lines" => Some(Notation::Lines),
            _ => None,
        }
    }
}

/// Returns the keyword that a text begins with, or `None` if it begins with none.
fn first_keyword(text: &[u8]) -> Option<Mark>
    ensures some { IfSome result (IsKeyword (bare_in text.now)) }
    ensures none { IfNone result ((mark : Mark) → ¬ IsKeyword (bare_in text.now) mark) }
{
    keyword_of(&text[..bare_length(text)])
}

/// Returns whether a graph can begin with a keyword, if it may be undirected.
fn is_graph_word(mark: Mark) -> bool
    ensures { result ≡ is_graph_word mark }
{
    match mark {
        Mark::Strict | Mark::Graph | Mark::Digraph => true,
        _ => false,
    }
}

/// Returns whether a text begins as a graph in DOT does: with `strict`, `graph` or `digraph`, behind
/// white space and comments.
fn begins_graph(text: &[u8]) -> bool
    ensures begins { OnTrue result (BeginsGraph text.now) }
    ensures other { OnFalse result (¬ BeginsGraph text.now) }
{
    let mut scanner = Scanner {
        rest: text,
        place: Place { line: 1, column: 1 },
    };
    scanner.pass_blanks();
    match first_keyword(scanner.rest) {
        Some(mark) => is_graph_word(mark),
        None => false,
    }
}

/// Returns the notation of a text: the one that is said, or else DOT if the text begins as a graph in
/// DOT does.
pub fn notation_of(said: Option<Notation>, text: &[u8]) -> Notation
    ensures { IsIn said text.now result }
{
    if let Some(notation) = said {
        return notation;
    }
    if begins_graph(text) {
        return Notation::Dot;
    }
    Notation::Lines
}
