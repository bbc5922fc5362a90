//! A graph as it is read, a token after another.
ghost use Rattle.std.specs.Prelude.{◌≡◌, ◌++◌, None, Some, drop, if◌then◌else◌, IfErr, IfOk, OnOk};
ghost use Rattle.files_text.specs.Names.{names_in};
ghost use Rattle.files_dot.specs.Graphs.{between};
ghost use Rattle.files_dot.specs.Held.{edges_of, names_of};
ghost use Rattle.files_dot.specs.Reading.{IsRefused, closing, edges_to, follow, opened, reached, start, starts, step, step_end, step_stage};
ghost use Rattle.files_dot.specs.States.{end_of, level_of, levels_of, state_of};
ghost use Rattle.files_dot.specs.Tokens.{id, sign, token_of, word_of};

use crate::nodes::{lead, nodes_since};
use crate::place::Place;
use crate::stage::{Stage, follow_id, follow_mark, is_ready};
use crate::token::{Mark, Token, Word};
use files_text::Fault;
use std::alloc::{AllocError, Global};

/// An end of an edge that was read: the nodes mentioned since a number of others, and what may
/// follow it.
#[derive(Clone, Copy)]
pub struct End {
    /// How many mentions come before it.
    start: usize,
    /// Whether it may be the name of an attribute instead.
    may_be_name: bool,
    /// How many `:` may follow.
    colons: usize,
}

/// What comes next in a graph.
#[derive(Drop)]
pub enum Next<'a> {
    At(Stage),
    /// What may follow an end of an edge.
    AfterEnd(End),
    /// A port of an end.
    AfterColon(End),
    /// The end to which edges lead from nodes.
    AfterArrow(Vec<&'a [u8]>),
    /// The name of a subgraph, unless it was read, or `{`. Edges may lead to it from nodes.
    AfterSubgraph(Option<Vec<&'a [u8]>>, bool),
}

/// A subgraph that is open: how many mentions come before it, and the nodes from which edges lead
/// to it.
#[derive(Drop)]
pub struct Level<'a> {
    start: usize,
    tails: Option<Vec<&'a [u8]>>,
}

/// What was read before the token at hand.
#[derive(Drop)]
pub struct Reader<'a> {
    alloc: Global,
    /// The names of nodes, as they stand in the text.
    pub mentions: Vec<&'a [u8]>,
    pub edges: Vec<(&'a [u8], &'a [u8])>,
    levels: Vec<Level<'a>>,
}

/// Returns what is expected after an end.
fn expected_after_end(word: &Word) -> &'static str {
    match word {
        Word::Sign(Mark::Line) => "`->`",
        _ => "`->`, `[`, `;`, a statement or `}`",
    }
}

impl Next<'_> {
    /// Returns what is expected next.
    pub fn expected(&self) -> &'static str {
        match self {
            Next::At(stage) => stage.expected(),
            Next::AfterEnd(_) => "`->`, `[`, `;`, a statement or `}`",
            Next::AfterColon(_) => "the name of a port",
            Next::AfterArrow(_) => "a node or a subgraph",
            Next::AfterSubgraph(_, true) => "`{`",
            Next::AfterSubgraph(_, false) => "the name of the subgraph or `{`",
        }
    }
}

/// Returns the stage after a word.
fn follow(stage: Stage, word: &Word) -> Option<Stage>
    ensures { result ≡ follow stage (word_of word.now) }
{
    match word {
        Word::Id(_) => follow_id(stage),
        Word::Sign(mark) => follow_mark(stage, *mark),
    }
}

/// Adds the edges to the nodes mentioned behind a number of others, from nodes if any lead there.
fn lead_to<'a>(
    alloc: Global,
    edges: &mut Vec<(&'a [u8], &'a [u8])>,
    mentions: &[&'a [u8]],
    level: &Level<'a>,
) -> Result<(), AllocError>
    ensures { OnOk result (edges_of edges.new.items ≡ edges_of edges.old.items
        ++ edges_to (level_of level.now).tails
        (names_in (drop level.now.start (names_of mentions.now)))) }
{
    match &level.tails {
        Some(tails) => {
            let heads = nodes_since(alloc, mentions, level.start)?;
            lead(edges, tails, &heads)
        }
        None => Ok(()),
    }
}

impl<'a> Reader<'a> {
    /// Returns what was read before the first token.
    pub fn new(alloc: Global) -> Reader<'a>
        ensures { state_of (Next.At Stage.Begin) result ≡ start }
    {
        Reader {
            alloc,
            mentions: Vec::new(alloc),
            edges: Vec::new(alloc),
            levels: Vec::new(alloc),
        }
    }

    /// Takes the first node of a statement, or the name of an attribute.
    fn begin(&mut self, name: &'a [u8]) -> Result<Next<'a>, Fault>
        ensures ok { IfOk result (λ later. starts (state_of (Next.At Stage.Begin) self.old) (id name.now)
            ≡ Some (state_of later self.new)) }
        ensures err { IfErr result (λ fault. fault ≡ Fault.Memory) }
    {
        let start = self.mentions.len();
        self.mentions.push(name)?;
        Ok(Next::AfterEnd(End {
            start,
            may_be_name: true,
            colons: 2,
        }))
    }

    /// Takes a node to which edges lead.
    fn reach(&mut self, tails: &[&'a [u8]], name: &'a [u8]) -> Result<Next<'a>, Fault>
        ensures ok { IfOk result (λ later.
            reached (state_of (Next.At Stage.Begin) self.old) (names_of tails.now) name.now
            ≡ state_of later self.new) }
        ensures err { IfErr result (λ fault. fault ≡ Fault.Memory) }
    {
        let start = self.mentions.len();
        self.mentions.push(name)?;
        lead(&mut self.edges, tails, &[name])?;
        Ok(Next::AfterEnd(End {
            start,
            may_be_name: false,
            colons: 2,
        }))
    }

    /// Opens a subgraph to which no edges lead.
    fn open(&mut self) -> Result<Next<'a>, Fault>
        ensures ok { IfOk result (λ later. opened (state_of (Next.At Stage.Begin) self.old) None
            ≡ state_of later self.new) }
        ensures err { IfErr result (λ fault. fault ≡ Fault.Memory) }
    {
        let start = self.mentions.len();
        self.levels.push(Level { start, tails: None })?;
        Ok(Next::At(Stage::Statement))
    }

    /// Opens a subgraph to which edges lead.
    fn open_from(&mut self, tails: Vec<&'a [u8]>) -> Result<Next<'a>, Fault>
        ensures ok { IfOk result (λ later.
            opened (state_of (Next.At Stage.Begin) self.old) (Some (names_of tails.entry.items))
            ≡ state_of later self.new) }
        ensures err { IfErr result (λ fault. fault ≡ Fault.Memory) }
    {
        let start = self.mentions.len();
        self.levels.push(Level {
            start,
            tails: Some(tails),
        })?;
        Ok(Next::At(Stage::Statement))
    }

    /// Closes the subgraph or the graph that is open.
    fn close(&mut self) -> Result<Next<'a>, Fault>
        ensures ok { IfOk result (λ later. closing (state_of (Next.At Stage.Begin) self.old)
            (levels_of self.old.levels.items) ≡ state_of later self.new) }
        ensures err { IfErr result (λ fault. fault ≡ Fault.Memory) }
    {
        let Some(level) = self.levels.pop() else {
            return Ok(Next::At(Stage::Done));
        };
        lead_to(self.alloc, &mut self.edges, &self.mentions, &level)?;
        Ok(Next::AfterEnd(End {
            start: level.start,
            may_be_name: false,
            colons: 0,
        }))
    }

    /// Takes a mark that begins a statement, or `}`.
    fn start_with(
        &mut self,
        mark: Mark,
        place: Place,
        expected: &'static str,
    ) -> Result<Next<'a>, Fault>
        ensures ok { IfOk result (λ later.
            starts (state_of (Next.At Stage.Begin) self.old) (sign mark)
            ≡ Some (state_of later self.new)) }
        ensures err { IfErr result (λ fault. IsRefused
            (state_of (Next.At Stage.Statement) self.old) (record { word = sign mark; place = place })
            fault) }
    {
        match mark {
            Mark::Graph => Ok(Next::At(Stage::AfterKeyword)),
            Mark::Node => Ok(Next::At(Stage::AfterKeyword)),
            Mark::Edge => Ok(Next::At(Stage::AfterKeyword)),
            Mark::Subgraph => Ok(Next::AfterSubgraph(None, false)),
            Mark::OpenBrace => self.open(),
            Mark::CloseBrace => self.close(),
            _ => Err(place.unexpected(expected)),
        }
    }

    /// Takes the first token of a statement, or `}`.
    fn take_first(&mut self, token: &'a Token, expected: &'static str) -> Result<Next<'a>, Fault>
        ensures ok { IfOk result (λ later.
            starts (state_of (Next.At Stage.Begin) self.old) (word_of token.now.word)
            ≡ Some (state_of later self.new)) }
        ensures err { IfErr result (λ fault. IsRefused
            (state_of (Next.At Stage.Statement) self.old) (token_of token.now) fault) }
    {
        match &token.word {
            Word::Id(name) => self.begin(name),
            Word::Sign(mark) => self.start_with(*mark, token.place, expected),
        }
    }

    /// Takes a token at a stage.
    fn take_at(
        &mut self,
        stage: Stage,
        token: &'a Token,
        expected: &'static str,
    ) -> Result<Next<'a>, Fault>
        ensures ok { IfOk result (λ later.
            step_stage (state_of (Next.At stage) self.old) stage (word_of token.now.word)
            ≡ Some (state_of later self.new)) }
        ensures err { IfErr result (λ fault.
            IsRefused (state_of (Next.At stage) self.old) (token_of token.now) fault) }
    {
        if let Some(later) = follow(stage, &token.word) {
            return Ok(Next::At(later));
        }
        if !is_ready(stage) {
            return Err(token.place.unexpected(expected));
        }
        self.take_first(token, expected)
    }

    /// Takes a `->` after an end.
    fn leave(&mut self, end: End) -> Result<Next<'a>, Fault>
        ensures ok { IfOk result (λ later.
            step_end (state_of (Next.AfterEnd end) self.old) (end_of end) (sign Mark.Arrow)
            ≡ Some (state_of later self.new)) }
        ensures err { IfErr result (λ fault. fault ≡ Fault.Memory) }
    {
        let tails = nodes_since(self.alloc, &self.mentions, end.start)?;
        Ok(Next::AfterArrow(tails))
    }

    /// Takes a mark after an end of an edge.
    fn follow_end(&mut self, end: End, mark: Mark, token: &'a Token) -> Result<Next<'a>, Fault>
        requires { word_of token.now.word ≡ sign mark }
        ensures ok { IfOk result (λ later.
            step_end (state_of (Next.AfterEnd end) self.old) (end_of end) (sign mark)
            ≡ Some (state_of later self.new)) }
        ensures err { IfErr result (λ fault.
            IsRefused (state_of (Next.AfterEnd end) self.old) (token_of token.now) fault) }
    {
        let expected = expected_after_end(&token.word);
        match mark {
            Mark::Arrow => self.leave(end),
            Mark::Equal => {
                if !end.may_be_name {
                    return Err(token.place.unexpected(expected));
                }
                self.mentions.truncate(end.start);
                Ok(Next::At(Stage::AfterEqual))
            }
            Mark::Colon => {
                if end.colons == 0 {
                    return Err(token.place.unexpected(expected));
                }
                Ok(Next::AfterColon(End {
                    start: end.start,
                    may_be_name: false,
                    colons: end.colons - 1,
                }))
            }
            Mark::OpenBracket => Ok(Next::At(Stage::InList)),
            _ => self.take_at(Stage::Ended, token, expected),
        }
    }

    /// Takes a token after an end of an edge.
    fn take_after_end(&mut self, end: End, token: &'a Token) -> Result<Next<'a>, Fault>
        ensures ok { IfOk result (λ later.
            step_end (state_of (Next.AfterEnd end) self.old) (end_of end) (word_of token.now.word)
            ≡ Some (state_of later self.new)) }
        ensures err { IfErr result (λ fault.
            IsRefused (state_of (Next.AfterEnd end) self.old) (token_of token.now) fault) }
    {
        match &token.word {
            Word::Id(_) => self.take_at(Stage::Ended, token, ""),
            Word::Sign(mark) => self.follow_end(end, *mark, token),
        }
    }

    /// Takes the end to which edges lead.
    fn take_after_arrow(
        &mut self,
        tails: Vec<&'a [u8]>,
        token: &'a Token,
    ) -> Result<Next<'a>, Fault>
        ensures ok { IfOk result (λ later.
            step (state_of (Next.AfterArrow tails.entry) self.old) (word_of token.now.word)
            ≡ Some (state_of later self.new)) }
        ensures err { IfErr result (λ fault. IsRefused
            (state_of (Next.AfterArrow tails.entry) self.old) (token_of token.now) fault) }
    {
        match &token.word {
            Word::Id(name) => self.reach(&tails, name),
            Word::Sign(Mark::Subgraph) => Ok(Next::AfterSubgraph(Some(tails), false)),
            Word::Sign(Mark::OpenBrace) => self.open_from(tails),
            Word::Sign(_) => Err(token.place.unexpected("a node or a subgraph")),
        }
    }

    /// Takes a token after `subgraph`.
    fn take_after_subgraph(
        &mut self,
        tails: Option<Vec<&'a [u8]>>,
        is_named: bool,
        token: &'a Token,
        expected: &'static str,
    ) -> Result<Next<'a>, Fault>
        ensures ok { IfOk result (λ later.
            step (state_of (Next.AfterSubgraph tails.entry is_named) self.old)
            (word_of token.now.word) ≡ Some (state_of later self.new)) }
        ensures err { IfErr result (λ fault. IsRefused
            (state_of (Next.AfterSubgraph tails.entry is_named) self.old) (token_of token.now)
            fault) }
    {
        match &token.word {
            Word::Id(_) => {
                if is_named {
                    return Err(token.place.unexpected(expected));
                }
                Ok(Next::AfterSubgraph(tails, true))
            }
            Word::Sign(Mark::OpenBrace) => match tails {
                Some(tails) => self.open_from(tails),
                None => self.open(),
            },
            Word::Sign(_) => Err(token.place.unexpected(expected)),
        }
    }

    /// Takes the port of an end.
    fn take_port(&self, end: End, token: &'a Token) -> Result<Next<'a>, Fault>
        ensures ok { IfOk result (λ later.
            step (state_of (Next.AfterColon end) self.now) (word_of token.now.word)
            ≡ Some (state_of later self.now)) }
        ensures err { IfErr result (λ fault.
            IsRefused (state_of (Next.AfterColon end) self.now) (token_of token.now) fault) }
    {
        match &token.word {
            Word::Id(_) => Ok(Next::AfterEnd(End {
                start: end.start,
                may_be_name: false,
                colons: end.colons,
            })),
            Word::Sign(_) => Err(token.place.unexpected("the name of a port")),
        }
    }

    /// Takes a token. Fails if it can't stand there, or if memory runs out.
    pub fn take(&mut self, next: Next<'a>, token: &'a Token) -> Result<Next<'a>, Fault>
        ensures ok { IfOk result (λ later. step (state_of next.entry self.old) (word_of token.now.word)
            ≡ Some (state_of later self.new)) }
        ensures err { IfErr result (λ fault.
            IsRefused (state_of next.entry self.old) (token_of token.now) fault) }
    {
        let expected = next.expected();
        match next {
            Next::At(stage) => self.take_at(stage, token, expected),
            Next::AfterEnd(end) => self.take_after_end(end, token),
            Next::AfterColon(end) => self.take_port(end, token),
            Next::AfterArrow(tails) => self.take_after_arrow(tails, token),
            Next::AfterSubgraph(tails, is_named) => {
                self.take_after_subgraph(tails, is_named, token, expected)
            }
        }
    }
}
