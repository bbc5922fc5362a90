//! Graphs: refused, a call leaves what it works on as it was.
use crate::tests::support::{FIRST, given, request, same, tell};
use std::alloc::{AllocError, Global};
use vob_rows::{Graph, GraphError};

/// Lists of two nodes: the second for the first, and both for the second.
fn lists_of(alloc: Global) -> Result<Vec<Vec<usize>>, AllocError> {
    let mut lists = Vec::with_capacity(alloc, 2)?;
    lists.push([1].to_vec(alloc)?)?;
    lists.push([0, 1].to_vec(alloc)?)?;
    Ok(lists)
}

#[test]
fn graphs_are_made_or_refused(rt: HostRuntime) {
    request(&rt, FIRST - 3);
    let lists = lists_of(rt.alloc()).expect(&rt, "memory");
    let graph = given(
        &rt,
        Graph::from_lists(rt.alloc(), &lists),
        GraphError::Memory,
    );
    let made = graph.is_some();
    if let Some(graph) = graph {
        same(&rt, "the nodes", 0, graph.nodes(), 2);
    }
    tell(&rt, made);
}

#[test]
fn graphs_are_reversed_or_refused(rt: HostRuntime) {
    request(&rt, FIRST - 2);
    let graph = Graph::from_edges(rt.alloc(), 2, &[(0, 1), (1, 1)]).expect(&rt, "a graph");
    let reversed = given(&rt, graph.reversed(rt.alloc()), AllocError);
    let made = reversed.is_some();
    if let Some(reversed) = reversed {
        same(&rt, "the nodes", 0, reversed.nodes(), 2);
    }
    tell(&rt, made);
}
