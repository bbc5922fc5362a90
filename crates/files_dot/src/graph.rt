//! Graphs that stand in a text.
ghost use Rattle.std.specs.Prelude.{◌≡◌, map, IfErr, IfOk};
ghost use Rattle.files_text.specs.Names.{names_in};
ghost use Rattle.files_dot.specs.Graphs.{AreNumbers, IsDotGraph, IsGraphFault};
ghost use Rattle.files_dot.specs.Held.{edges_of, names_of};
ghost use Rattle.files_dot.specs.Reading.{is_done};
ghost use Rattle.files_dot.specs.States.{next_of};
ghost use Rattle.files_dot.specs.Tokens.{token_of};

use crate::nodes::numbered;
use crate::reader::{Next, Reader};
use crate::stage::Stage;
use crate::tokens::DotTokens;
use files_text::{Fault, Names};
use std::alloc::{AllocError, Global};

/// Names of nodes, and edges between them by their numbers.
#[derive(Drop)]
pub struct DotGraph<'a> {
    pub names: Names<'a>,
    pub edges: Vec<(usize, usize)>,
}

/// Returns edges by the numbers of their names.
fn numbers_of<'a>(
    alloc: Global,
    names: &Names<'a>,
    edges: &[(&'a [u8], &'a [u8])],
) -> Result<Vec<(usize, usize)>, AllocError>
    ensures { IfOk result (λ numbers. AreNumbers names.now (edges_of edges.now) numbers.items) }
{
    let mut numbers = Vec::new(alloc);
    'edges: for edge in edges {
        // Each end is mentioned.
        let Some(from) = names.find(edge.0) else {
            return Err(AllocError);
        };
        let Some(to) = names.find(edge.1) else {
            return Err(AllocError);
        };
        numbers.push((from, to))?;
    }
    Ok(numbers)
}

/// Returns whether a graph was read.
fn is_done(next: &Next<'_>) -> bool
    ensures { result ≡ is_done (next_of next.now) }
{
    match next {
        Next::At(Stage::Done) => true,
        _ => false,
    }
}

/// Numbers the nodes of a graph that was read.
fn finish<'a>(alloc: Global, reader: &Reader<'a>) -> Result<DotGraph<'a>, AllocError>
    ensures names { IfOk result (λ graph. graph.names ≡ names_in (names_of reader.now.mentions.items)) }
    ensures edges { IfOk result (λ graph. AreNumbers graph.names (edges_of reader.now.edges.items)
        graph.edges.items) }
{
    let names = numbered(alloc, &reader.mentions)?;
    let edges = numbers_of(alloc, &names, &reader.edges)?;
    Ok(DotGraph { names, edges })
}

/// Reads a directed graph.
///
/// Its nodes are numbered in the order in which they are first mentioned. Its edges stand in the
/// order in which they are read: an edge to a subgraph leads to each node that is mentioned between
/// its braces. Attributes and ports are passed over.
///
/// Fails at the first token that can't stand where it does, or if memory runs out.
pub fn read_dot(alloc: Global, text: &DotTokens) -> Result<DotGraph<'_>, Fault>
    ensures ok { IfOk result (λ graph. IsDotGraph (map token_of text.now.tokens.items) graph.names
        graph.edges.items) }
    ensures err { IfErr result (IsGraphFault (map token_of text.now.tokens.items) text.now.end) }
{
    let mut reader = Reader::new(alloc);
    let mut next = Next::At(Stage::Begin);
    'tokens: for token in text.tokens.iter() {
        next = reader.take(next, token)?;
    }
    if !is_done(&next) {
        return Err(text.end.unexpected(next.expected()));
    }
    let graph = finish(alloc, &reader)?;
    Ok(graph)
}
