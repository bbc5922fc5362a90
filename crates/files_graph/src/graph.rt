//! Graphs that stand in a text, as lines or in DOT.
ghost use Rattle.std.specs.Prelude.{◌↔◌, ◌≡◌, ◌<◌, ℕ, List, [], length, map, slice_index_or, Contains, IfErr, IfOk};
ghost use Rattle.files_dot.specs.Graphs.{IsGraphFault};
ghost use Rattle.files_dot.specs.Tokens.{AreDotTokens, token_of};
ghost use Rattle.files_dot.specs.declared.notation.Notation.{Notation};
ghost use Rattle.files_dot.specs.declared.notation.Notation.TheVariants.{Dot, Lines};
ghost use Rattle.files_graph.specs.Graphs.{HasPairs, IsGraphOf, IsUnread};

use crate::edges::{NamedEdges, read_edges};
use files_dot::{DotTokens, read_dot};
use files_text::{Fault, Names};
use std::alloc::{AllocError, Global};
use vob_rows::Graph;

/// A graph whose nodes have names.
#[derive(Drop)]
pub struct NamedGraph<'a> {
    pub names: Names<'a>,
    pub next: Graph,
}

/// Makes the graph of edges that join nodes. Fails if memory runs out.
pub(crate) fn graph_of(
    alloc: Global,
    nodes: usize,
    edges: &[(usize, usize)],
) -> Result<Graph, AllocError>
    requires { (n m : ℕ) → Contains edges.now (n, m) → (n < nodes) × (m < nodes) }
    ensures nodes { IfOk result (λ graph. length graph ≡ nodes) }
    ensures each { IfOk result (λ graph. (n m : ℕ) → n < nodes →
        Contains (slice_index_or graph n []) m ↔ Contains edges.now (n, m)) }
{
    match Graph::from_edges(alloc, nodes, edges) {
        Ok(graph) => Ok(graph),
        // Each edge joins nodes.
        Err(_) => Err(AllocError),
    }
}

/// Makes the graph of edges between names. Fails if memory runs out.
fn joined(alloc: Global, read: NamedEdges<'_>) -> Result<NamedGraph<'_>, AllocError>
    requires { (n m : ℕ) → Contains read.edges.items (n, m)
        → (n < length read.names) × (m < length read.names) }
    ensures { IfOk result (λ graph. (notation : Notation) (text : List ℕ)
        → HasPairs notation text read.entry.names read.entry.edges.items
        → IsGraphOf notation text graph.names graph.next) }
{
    let next = graph_of(alloc, read.names.len(), &read.edges)?;
    Ok(NamedGraph {
        names: read.names,
        next,
    })
}

/// Reads a graph in lines: two names a line, of the nodes from which and to which an edge leads.
///
/// Fails at the first line that has a comma, one name or more than two, or if memory runs out.
pub fn read_lines(alloc: Global, text: &[u8]) -> Result<NamedGraph<'_>, Fault>
    ensures ok { IfOk result (λ graph. IsGraphOf Lines text.now graph.names graph.next) }
    ensures err { IfErr result (λ fault. IsUnread Lines text.now fault) }
{
    let read = read_edges(alloc, text)?;
    let graph = joined(alloc, read)?;
    Ok(graph)
}

/// Reads a directed graph from the tokens of a text in DOT.
///
/// Fails at the first token that can't stand where it does, or if memory runs out.
pub fn read_tokens(alloc: Global, tokens: &DotTokens) -> Result<NamedGraph<'_>, Fault>
    ensures ok { IfOk result (λ graph. (text : List ℕ)
        → AreDotTokens text (map token_of tokens.now.tokens.items) tokens.now.end
        → IsGraphOf Dot text graph.names graph.next) }
    ensures err { IfErr result (IsGraphFault (map token_of tokens.now.tokens.items) tokens.now.end) }
{
    let read = read_dot(alloc, tokens)?;
    let edges = NamedEdges {
        names: read.names,
        edges: read.edges,
    };
    let graph = joined(alloc, edges)?;
    Ok(graph)
}
