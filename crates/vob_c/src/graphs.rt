//! Graphs as two arrays: the ends of all edges, node by node, and how many ends stand before those of
//! each node.
ghost use Rattle.std.specs.Prelude.{◌≡◌, ◌↔◌, ◌≤◌, ℕ, ◌<◌, ◌++◌, length, map, IfOk, IsTrue, OnOk};
ghost use Rattle.std.specs.List.{between};
ghost use Rattle.vob_rows.specs.Ends.{lists_of};
ghost use Rattle.vob_c.specs.Graphs.{AreEdgesOf, AreNodes, AreOffsets};
ghost use Rattle.vob_c.specs.Status.{TellsRange};

use crate::status::{LENGTH, OK, RANGE};
use std::alloc::{AllocError, Global};
use vob_rows::{Graph, all_below};

/// Returns whether the offsets of some nodes fit the ends.
pub(crate) fn are_offsets(offsets: &[usize], ends: &[usize], nodes: usize) -> bool
    ensures { IsTrue result ↔ AreOffsets nodes offsets.now ends.now }
{
    if offsets.len() == 0 || offsets.len() - 1 != nodes {
        return false;
    }
    if offsets[0] != 0 || offsets[nodes] != ends.len() {
        return false;
    }
    for node in 0..nodes {
        if offsets[node] > offsets[node + 1] {
            return false;
        }
    }
    true
}

/// Returns the status of the two arrays of a graph with some nodes.
pub(crate) fn status_of_graph(offsets: &[usize], ends: &[usize], nodes: usize) -> u8
    ensures { TellsRange result (AreOffsets nodes offsets.now ends.now) (AreNodes nodes ends.now) }
{
    if !are_offsets(offsets, ends, nodes) {
        return LENGTH;
    }
    if all_below(ends, nodes) { OK } else { RANGE }
}

/// Returns the numbers from one place to below another.
pub(crate) fn part(numbers: &[usize], start: usize, end: usize) -> &[usize]
    requires order { start ≤ end }
    requires inside { end ≤ length numbers.now }
    ensures { result.now ≡ between start end numbers.now }
{
    &numbers[start..end]
}

/// Appends the edges from a node to some ends.
fn push_edges(
    node: usize,
    ends: &[usize],
    edges: &mut Vec<(usize, usize)>,
) -> Result<(), AllocError>
    ensures { OnOk result
        (edges.new.items ≡ edges.old.items ++ map (λ end. (node, end)) ends.now) }
{
    for end in ends {
        edges.push((node, *end))?;
    }
    Ok(())
}

/// Returns the edges of all nodes, node by node.
fn edges_of(
    alloc: Global,
    offsets: &[usize],
    ends: &[usize],
    nodes: usize,
) -> Result<Vec<(usize, usize)>, AllocError>
    requires { AreOffsets nodes offsets.now ends.now }
    ensures { IfOk result (λ edges. AreEdgesOf (lists_of offsets.now ends.now) nodes edges.items) }
{
    let mut edges = Vec::with_capacity(alloc, ends.len())?;
    for node in 0..nodes {
        push_edges(
            node,
            part(ends, offsets[node], offsets[node + 1]),
            &mut edges,
        )?;
    }
    Ok(edges)
}

/// Returns the graph that two arrays are. Fails if memory runs out.
pub(crate) fn graph_of(
    alloc: Global,
    offsets: &[usize],
    ends: &[usize],
    nodes: usize,
) -> Result<Graph, AllocError>
    requires offsets { AreOffsets nodes offsets.now ends.now }
    ensures lists { IfOk result (λ graph. graph ≡ lists_of offsets.now ends.now) }
    ensures count { IfOk result (λ graph. length graph ≡ nodes) }
{
    let edges = edges_of(alloc, offsets, ends, nodes)?;
    match Graph::from_edges(alloc, nodes, &edges) {
        Ok(graph) => Ok(graph),
        Err(_) => Err(AllocError),
    }
}
