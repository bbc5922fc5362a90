//! The tree of dominators as a graph in DOT.
ghost use Rattle.std.specs.Prelude.{◌≡◌, ℕ, List, length, IfErr, OnOk};
ghost use Rattle.std.specs.Io.KnownBytes.{Appends};
ghost use Rattle.files_text.specs.Printed.{Writes};
ghost use Rattle.vob_flow.specs.Dominators.{IsDominatorTree};
ghost use Rattle.vob_rows.specs.Graph.{LeadToNodes};
ghost use Rattle.files_flow.specs.Analyses.{IsOutputFault, ListsTree};
ghost use Rattle.files_flow.specs.FlowText.{AreLines};
ghost use Rattle.files_flow.specs.Flows.{IsInRange};
ghost use Rattle.files_flow.specs.Problems.{lists_of};
ghost use Rattle.files_flow.specs.Trees.{IsEdgeOf, IsTree, edge_line, node_line, node_lines};

use crate::dominance::tree_of;
use crate::flow::FlowGraph;
use crate::problem::nodes_before;
use files_forms::put_label;
use files_text::{Fault, Names};
use std::alloc::Global;
use std::io;
use std::io::Write;
use vob_flow::DominatorTree;

/// Writes a node.
fn put_node<W: Write>(output: &mut W, names: &Names<'_>, node: usize) -> io::Result<()>
    ensures { OnOk result (Appends (W.contents output.old) (W.contents output.new)
        (node_line names.now node)) }
{
    output.write_all(b"  ")?;
    put_label(output, names.name(node))?;
    output.write_all(b";\n")
}

/// Writes all nodes.
fn put_nodes<W: Write>(output: &mut W, names: &Names<'_>) -> io::Result<()>
    ensures { OnOk result (Appends (W.contents output.old) (W.contents output.new)
        (node_lines names.now)) }
{
    for node in 0..names.len() {
        put_node(output, names, node)?;
    }
    Ok(())
}

/// Writes an edge to a node from the one above it, if there is one.
fn put_edge<W: Write>(
    output: &mut W,
    names: &Names<'_>,
    above: Option<usize>,
    node: usize,
) -> io::Result<()>
    ensures { OnOk result (Appends (W.contents output.old) (W.contents output.new)
        (edge_line names.now above node)) }
{
    let Some(from) = above else {
        return Ok(());
    };
    output.write_all(b"  ")?;
    put_label(output, names.name(from))?;
    output.write_all(b" -> ")?;
    put_label(output, names.name(node))?;
    output.write_all(b";\n")
}

/// Writes an edge to each node from its immediate dominator.
fn put_edges<W: Write>(output: &mut W, names: &Names<'_>, tree: &DominatorTree) -> io::Result<()>
    ensures { OnOk result ((before : List (List ℕ)) → IsDominatorTree before 0 tree.now
        → Writes (W.contents output.old) (W.contents output.new)
        (AreLines (IsEdgeOf before names.now) (length names.now))) }
{
    for node in 0..names.len() {
        put_edge(output, names, tree.immediate(node), node)?;
    }
    Ok(())
}

/// Writes an edge to each node from its immediate dominator, given the nodes that come before each.
fn list_edges<W: Write>(
    alloc: Global,
    names: &Names<'_>,
    before: &[Vec<usize>],
    output: &mut W,
) -> Result<(), Fault>
    requires nodes { length before.now ≡ length names.now }
    requires edges { LeadToNodes (lists_of before.now) (length before.now) }
    ensures ok { OnOk result (Writes (W.contents output.old) (W.contents output.new)
        (AreLines (IsEdgeOf (lists_of before.now) names.now) (length names.now))) }
    ensures err { IfErr result IsOutputFault }
{
    if before.is_empty() {
        return Ok(());
    }
    let tree = tree_of(alloc, before)?;
    put_edges(output, names, &tree)?;
    Ok(())
}

/// Writes all nodes, and an edge to each from its immediate dominator, given the nodes that come before
/// each.
pub(crate) fn list_tree<W: Write>(
    alloc: Global,
    names: &Names<'_>,
    before: &[Vec<usize>],
    output: &mut W,
) -> Result<(), Fault>
    requires nodes { length before.now ≡ length names.now }
    requires edges { LeadToNodes (lists_of before.now) (length before.now) }
    ensures ok { OnOk result (Writes (W.contents output.old) (W.contents output.new)
        (IsTree (lists_of before.now) names.now)) }
    ensures err { IfErr result IsOutputFault }
{
    output.write_all(b"digraph {\n")?;
    put_nodes(output, names)?;
    list_edges(alloc, names, before, output)?;
    output.write_all(b"}\n")?;
    Ok(())
}

/// Writes the tree of the dominators of a flow graph.
pub(crate) fn print_tree<W: Write>(
    alloc: Global,
    graph: &FlowGraph<'_>,
    output: &mut W,
) -> Result<(), Fault>
    requires { IsInRange graph.now }
    ensures ok { OnOk result (Writes (W.contents output.old) (W.contents output.new)
        (ListsTree graph.now)) }
    ensures err { IfErr result IsOutputFault }
{
    let before = nodes_before(alloc, &graph.nodes)?;
    list_tree(alloc, &graph.names, &before, output)?;
    Ok(())
}
