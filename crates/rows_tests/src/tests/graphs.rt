//! Graphs made of lists and of edges: what they hold, and what is refused.
use super::support::{check_error, same, same_list};
use std::process::Abort;
use vob_rows::{Graph, GraphError};

/// Lists of nodes.
pub fn lists_of(rt: &(impl Abort + AllocGlobal), rows: &[&[usize]]) -> Vec<Vec<usize>> {
    let mut lists = Vec::new(rt.alloc());
    for row in rows {
        lists
            .push(row.to_vec(rt.alloc()).expect(rt, "memory"))
            .expect(rt, "memory");
    }
    lists
}

/// Makes the graph of some lists, and compares it with them.
fn check(rt: &(impl Abort + AllocGlobal), rows: &[&[usize]]) {
    let lists = lists_of(rt, rows);
    let graph = Graph::from_lists(rt.alloc(), &lists).expect(rt, "a graph");
    check_next(rt, &graph, rows);
}

#[test]
fn a_graph_is_its_lists(rt: HostRuntime) {
    check(&rt, &[]);
    check(&rt, &[&[]]);
    check(&rt, &[&[0, 0]]);
    check(&rt, &[&[2, 1], &[], &[0, 0, 2], &[]]);
}

/// Compares the refusal of some lists.
fn refuses(rt: &(impl Abort + AllocGlobal), rows: &[&[usize]], wanted: GraphError) {
    let lists = lists_of(rt, rows);
    match Graph::from_lists(rt.alloc(), &lists) {
        Ok(graph) => same(rt, "no graph", 0, graph.nodes(), usize::MAX),
        Err(error) => same(rt, "the refusal", 0, error, wanted),
    }
}

#[test]
fn the_first_node_with_a_bad_edge_is_named(rt: HostRuntime) {
    refuses(&rt, &[&[1]], GraphError::BadNext { node: 0 });
    refuses(
        &rt,
        &[&[1, 0], &[0, 3], &[9]],
        GraphError::BadNext { node: 1 },
    );
}

/// Compares the nodes that come next to each node of a graph.
fn check_next(rt: &impl Abort, graph: &Graph, rows: &[&[usize]]) {
    same(rt, "the nodes", 0, graph.nodes(), rows.len());
    for (node, row) in rows.iter().enumerate() {
        if node < graph.nodes() {
            same_list(rt, "the next nodes", graph.next(node), row);
        }
    }
}

#[test]
fn a_graph_has_its_edges_in_their_order(rt: HostRuntime) {
    let edges = [(0, 2), (3, 0), (1, 2), (0, 1), (0, 0)];
    let graph = Graph::from_edges(rt.alloc(), 4, &edges).expect(&rt, "a graph");
    check_next(&rt, &graph, &[&[2, 1, 0], &[2], &[], &[0]]);
    let reversed = graph.reversed(rt.alloc()).expect(&rt, "memory");
    check_next(&rt, &reversed, &[&[0, 3], &[0], &[0, 1], &[]]);
    let none = Graph::from_edges(rt.alloc(), 0, &[]).expect(&rt, "a graph");
    check_next(&rt, &none, &[]);
}

/// Compares the refusal of some edges between three nodes.
fn refuses_edges(rt: &(impl Abort + AllocGlobal), edges: &[(usize, usize)], edge: usize) {
    match Graph::from_edges(rt.alloc(), 3, edges) {
        Ok(graph) => same(rt, "no graph", 0, graph.nodes(), usize::MAX),
        Err(error) => same(rt, "the refusal", 0, error, GraphError::BadEdge { edge }),
    }
}

#[test]
fn the_first_bad_edge_is_named(rt: HostRuntime) {
    refuses_edges(&rt, &[(3, 0)], 0);
    refuses_edges(&rt, &[(0, 2), (1, 3), (7, 7)], 1);
}

#[test]
fn refusals_say_where(rt: HostRuntime) {
    check_error(&rt, GraphError::Memory, "out of memory");
    check_error(
        &rt,
        GraphError::BadNext { node: 4 },
        "node 4 leads to no node",
    );
    check_error(
        &rt,
        GraphError::BadEdge { edge: 2 },
        "edge 2 joins no nodes",
    );
}
