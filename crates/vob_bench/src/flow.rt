//! Workloads on graphs: which variables are live at the nodes of a flow graph, and the closure of lists.

use crate::checksum::{checksum_all, sample};
use crate::rounds::Missing;
use std::alloc::{AllocError, Global};
use vob_flow::live::{Flow, LiveRows, live_rows};
use vob_flow::{Masks, available_expressions, closure};
use vob_rows::{BitRows, Graph};

/// A graph of four numbers a node: what it reads, what it writes, and two nodes that may come next.
fn nodes_of(alloc: Global, numbers: &[usize]) -> Result<Vec<Flow>, AllocError> {
    let mut nodes = Vec::new(alloc);
    for node in 0..numbers.len() / 4 {
        let at = 4 * node;
        let reads = numbers[at..at + 1].to_vec(alloc)?;
        let writes = numbers[at + 1..at + 2].to_vec(alloc)?;
        let next = numbers[at + 2..at + 4].to_vec(alloc)?;
        nodes.push(Flow {
            reads,
            writes,
            next,
        })?;
    }
    Ok(nodes)
}

/// The sets of the graph a round, and the checksum of those before its nodes.
#[inline(never)]
pub(crate) fn live(
    alloc: Global,
    numbers: &[usize],
    vars: usize,
    rounds: usize,
) -> Result<u64, Missing> {
    let mut times: u64 = 0;
    let mut last = BitRows::new(alloc, 0, 0)?;
    let nodes = nodes_of(alloc, numbers)?;
    for _ in 0..rounds {
        let Ok(found) = live_rows(alloc, vars, &nodes) else {
            return Err(Missing::Memory);
        };
        let LiveRows {
            before,
            after: _,
            rounds: _,
        } = found;
        times = times.wrapping_add(1);
        last = before;
    }
    Ok(checksum_all(&last.to_vobs(alloc)?, times))
}

/// The edges to the nodes before each node of a graph of four numbers a node.
fn edges_before(alloc: Global, numbers: &[usize]) -> Result<Vec<(usize, usize)>, AllocError> {
    let mut edges = Vec::new(alloc);
    for number in 0..numbers.len() {
        if 2 <= number % 4 {
            edges.push((numbers[number], number / 4))?;
        }
    }
    Ok(edges)
}

/// The graph of these edges.
fn nodes_before(alloc: Global, numbers: &[usize]) -> Result<Graph, Missing> {
    let edges = edges_before(alloc, numbers)?;
    Graph::from_edges(alloc, numbers.len() / 4, &edges).or(Err(Missing::Memory))
}

/// A set for each node, of the number at this place of its four.
fn sets_at(
    alloc: Global,
    numbers: &[usize],
    place: usize,
    len: usize,
) -> Result<BitRows, AllocError> {
    let mut sets = BitRows::new(alloc, numbers.len() / 4, len)?;
    for (node, four) in numbers.chunks(4).enumerate() {
        let number = four.get(place).copied().unwrap_or(len);
        if node < sets.rows() && number < sets.columns() {
            sets.set(node, number, true);
        }
    }
    Ok(sets)
}

/// Which expressions are available at the ends of the nodes a round, and the checksum of these sets.
#[inline(never)]
pub(crate) fn available(
    alloc: Global,
    numbers: &[usize],
    expressions: usize,
    rounds: usize,
) -> Result<u64, Missing> {
    let mut times: u64 = 0;
    let mut last = BitRows::new(alloc, 0, 0)?;
    let before = nodes_before(alloc, numbers)?;
    let entry = (0..before.nodes())
        .find(|node| before.next(*node).is_empty())
        .unwrap_or(0);
    for _ in 0..rounds {
        let kills = sets_at(alloc, numbers, 1, expressions)?;
        let mut ends = sets_at(alloc, numbers, 0, expressions)?;
        if before.nodes() != ends.rows() {
            return Err(Missing::Name);
        }
        let masks = Masks::Without(&kills);
        if available_expressions(alloc, entry, &mut ends, &before, masks).is_err() {
            return Err(Missing::Memory);
        }
        times = times.wrapping_add(1);
        last = ends;
    }
    Ok(checksum_all(&last.to_vobs(alloc)?, times))
}

/// Edges of two numbers each: from which node, and to which.
fn edges_of(alloc: Global, steps: &[usize]) -> Result<Vec<(usize, usize)>, AllocError> {
    let mut edges = Vec::with_capacity(alloc, steps.len() / 2)?;
    for step in 0..steps.len() / 2 {
        edges.push((steps[2 * step], steps[2 * step + 1]))?;
    }
    Ok(edges)
}

/// The graph of these edges.
fn graph_of(alloc: Global, steps: &[usize], nodes: usize) -> Result<Graph, Missing> {
    let edges = edges_of(alloc, steps)?;
    Graph::from_edges(alloc, nodes, &edges).or(Err(Missing::Memory))
}

/// The closure of a graph a round, and the checksum of its sets.
#[inline(never)]
pub(crate) fn close_lists(
    alloc: Global,
    steps: &[usize],
    nodes: usize,
    rounds: usize,
) -> Result<u64, Missing> {
    let mut times: u64 = 0;
    let mut last = BitRows::new(alloc, 0, 0)?;
    for round in 0..rounds {
        let sets = closure(alloc, &graph_of(alloc, steps, nodes)?)?;
        let node = if nodes == 0 { 0 } else { round % nodes };
        if node < sets.rows() {
            let set = sets.row(node).to_vob(alloc)?;
            times = times.wrapping_add(sample(&set, round) as u64);
        }
        last = sets;
    }
    Ok(checksum_all(&last.to_vobs(alloc)?, times))
}
