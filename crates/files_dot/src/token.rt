//! The tokens of DOT.
ghost use Rattle.std.specs.Prelude.{◌≡◌};
ghost use Rattle.files_dot.specs.Ids.{mark_length, mark_of};

use crate::place::Place;

/// A keyword or a mark.
#[derive(Clone, Copy)]
pub enum Mark {
    Strict,
    Graph,
    Digraph,
    Node,
    Edge,
    Subgraph,
    OpenBrace,
    CloseBrace,
    OpenBracket,
    CloseBracket,
    Semicolon,
    Comma,
    Equal,
    Colon,
    /// `->`
    Arrow,
    /// `--`
    Line,
}

/// What stands in a text: an ID, by its text, or a keyword or a mark.
#[derive(Drop)]
pub enum Word {
    Id(Vec<u8>),
    Sign(Mark),
}

/// A word, and the place where it begins.
#[derive(Drop)]
pub struct Token {
    pub word: Word,
    pub place: Place,
}

/// Returns the mark that a byte begins, by the byte after it, or `None` if it begins none.
pub fn mark_of(first: u8, second: u8) -> Option<Mark>
    ensures { result ≡ mark_of first second }
{
    if first == b'{' {
        return Some(Mark::OpenBrace);
    }
    if first == b'}' {
        return Some(Mark::CloseBrace);
    }
    if first == b'[' {
        return Some(Mark::OpenBracket);
    }
    if first == b']' {
        return Some(Mark::CloseBracket);
    }
    if first == b';' {
        return Some(Mark::Semicolon);
    }
    if first == b',' {
        return Some(Mark::Comma);
    }
    if first == b'=' {
        return Some(Mark::Equal);
    }
    if first == b':' {
        return Some(Mark::Colon);
    }
    if first == b'-' && second == b'>' {
        return Some(Mark::Arrow);
    }
    if first == b'-' && second == b'-' {
        return Some(Mark::Line);
    }
    None
}

/// Returns how many bytes a mark has.
pub fn mark_length(mark: Mark) -> usize
    ensures { result ≡ mark_length mark }
{
    match mark {
        Mark::Arrow => 2,
        Mark::Line => 2,
        _ => 1,
    }
}
