//! The stages of a graph as it is read.
ghost use Rattle.std.specs.Prelude.{◌≡◌};
ghost use Rattle.files_dot.specs.Reading.{follow_id, follow_mark, is_ready};

use crate::token::Mark;

/// What comes next in a graph, where nothing that was read matters.
#[derive(Clone, Copy)]
pub enum Stage {
    /// `strict` or `digraph`.
    Begin,
    /// `digraph`.
    AfterStrict,
    /// The name of the graph, or `{`.
    AfterDigraph,
    /// `{`, after the name of the graph.
    AfterName,
    /// A statement or `}`.
    Statement,
    /// `;`, a statement or `}`.
    Ended,
    /// The value of an attribute of the graph.
    AfterEqual,
    /// `[`, after `graph`, `node` or `edge`.
    AfterKeyword,
    /// An attribute or `]`.
    InList,
    /// `=`, after the name of an attribute.
    AfterKey,
    /// The value of an attribute.
    AfterKeyEqual,
    /// `,`, `;`, an attribute or `]`.
    AfterValue,
    /// `[`, `;`, a statement or `}`.
    AfterList,
    /// The end of the text.
    Done,
}

/// Returns the stage after an ID.
pub fn follow_id(stage: Stage) -> Option<Stage>
    ensures { result ≡ follow_id stage }
{
    match stage {
        Stage::AfterDigraph => Some(Stage::AfterName),
        Stage::AfterEqual => Some(Stage::Ended),
        Stage::InList => Some(Stage::AfterKey),
        Stage::AfterValue => Some(Stage::AfterKey),
        Stage::AfterKeyEqual => Some(Stage::AfterValue),
        _ => None,
    }
}

/// Returns the stage after a mark at the begin of a text.
fn from_begin(mark: Mark) -> Option<Stage>
    ensures { result ≡ follow_mark Stage.Begin mark }
{
    match mark {
        Mark::Strict => Some(Stage::AfterStrict),
        Mark::Digraph => Some(Stage::AfterDigraph),
        _ => None,
    }
}

/// Returns the stage after a mark behind `strict`.
fn from_strict(mark: Mark) -> Option<Stage>
    ensures { result ≡ follow_mark Stage.AfterStrict mark }
{
    match mark {
        Mark::Digraph => Some(Stage::AfterDigraph),
        _ => None,
    }
}

/// Returns the stage after a mark behind `digraph`.
fn from_digraph(mark: Mark) -> Option<Stage>
    ensures { result ≡ follow_mark Stage.AfterDigraph mark }
{
    match mark {
        Mark::OpenBrace => Some(Stage::Statement),
        _ => None,
    }
}

/// Returns the stage after a mark behind the name of a graph.
fn from_name(mark: Mark) -> Option<Stage>
    ensures { result ≡ follow_mark Stage.AfterName mark }
{
    match mark {
        Mark::OpenBrace => Some(Stage::Statement),
        _ => None,
    }
}

/// Returns the stage after a mark behind `graph`, `node` or `edge`.
fn from_keyword(mark: Mark) -> Option<Stage>
    ensures { result ≡ follow_mark Stage.AfterKeyword mark }
{
    match mark {
        Mark::OpenBracket => Some(Stage::InList),
        _ => None,
    }
}

/// Returns the stage after a mark where an attribute may be.
fn from_bracket(mark: Mark) -> Option<Stage>
    ensures { result ≡ follow_mark Stage.InList mark }
{
    match mark {
        Mark::CloseBracket => Some(Stage::AfterList),
        _ => None,
    }
}

/// Returns the stage after a mark behind an attribute.
fn from_value(mark: Mark) -> Option<Stage>
    ensures { result ≡ follow_mark Stage.AfterValue mark }
{
    match mark {
        Mark::CloseBracket => Some(Stage::AfterList),
        Mark::Comma => Some(Stage::InList),
        Mark::Semicolon => Some(Stage::InList),
        _ => None,
    }
}

/// Returns the stage after a mark behind the name of an attribute.
fn from_key(mark: Mark) -> Option<Stage>
    ensures { result ≡ follow_mark Stage.AfterKey mark }
{
    match mark {
        Mark::Equal => Some(Stage::AfterKeyEqual),
        _ => None,
    }
}

/// Returns the stage after a mark behind attributes.
fn from_list(mark: Mark) -> Option<Stage>
    ensures { result ≡ follow_mark Stage.AfterList mark }
{
    match mark {
        Mark::OpenBracket => Some(Stage::InList),
        Mark::Semicolon => Some(Stage::Statement),
        _ => None,
    }
}

/// Returns the stage after a mark behind a statement.
fn from_ended(mark: Mark) -> Option<Stage>
    ensures { result ≡ follow_mark Stage.Ended mark }
{
    match mark {
        Mark::Semicolon => Some(Stage::Statement),
        _ => None,
    }
}

/// Returns the stage after a mark.
pub fn follow_mark(stage: Stage, mark: Mark) -> Option<Stage>
    ensures { result ≡ follow_mark stage mark }
{
    match stage {
        Stage::Begin => from_begin(mark),
        Stage::AfterStrict => from_strict(mark),
        Stage::AfterDigraph => from_digraph(mark),
        Stage::AfterName => from_name(mark),
        Stage::AfterKeyword => from_keyword(mark),
        Stage::InList => from_bracket(mark),
        Stage::AfterValue => from_value(mark),
        Stage::AfterKey => from_key(mark),
        Stage::AfterList => from_list(mark),
        Stage::Ended => from_ended(mark),
        _ => None,
    }
}

/// Returns whether a statement can begin.
pub fn is_ready(stage: Stage) -> bool
    ensures { result ≡ is_ready stage }
{
    match stage {
        Stage::Statement => true,
        Stage::Ended => true,
        Stage::AfterList => true,
        _ => false,
    }
}

impl Stage {
    /// Returns what is expected next.
    pub fn expected(self) -> &'static str {
        match self {
            Stage::Begin => "`digraph`, as only directed graphs are read",
            Stage::AfterStrict => "`digraph`, as only directed graphs are read",
            Stage::AfterDigraph => "the name of the graph or `{`",
            Stage::AfterName => "`{`",
            Stage::Statement => "a statement or `}`",
            Stage::Ended => "`;`, a statement or `}`",
            Stage::AfterEqual => "the value of the attribute",
            Stage::AfterKeyword => "`[`",
            Stage::InList => "an attribute or `]`",
            Stage::AfterKey => "`=`",
            Stage::AfterKeyEqual => "the value of the attribute",
            Stage::AfterValue => "`,`, `;`, an attribute or `]`",
            Stage::AfterList => "`[`, `;`, a statement or `}`",
            Stage::Done => "the end of the text",
        }
    }
}
