//! The graph that some nodes of another make, with one node in place of all others.
ghost use Rattle.std.specs.Prelude.{◌≡◌, ◌↔◌, ◌+◌, ◌<◌, ◌++◌, ℕ, length, map, All, AllPairs, Contains, IfOk, IsTrue, OnOk};
ghost use Rattle.vob_flow.specs.Available.{IsEntry};
ghost use Rattle.vob_flow.specs.Touched.{AreNoted, IsChosen, IsChosenEdge, place_in};

use crate::touched::push_where;
use std::alloc::{AllocError, Global};
use vob_rows::Graph;

/// Notes the place of each of some nodes, which rise, in their list.
pub(crate) fn note_places(nodes: &[usize], places: &mut [usize])
    requires rise { AllPairs (λ n m. n < m) nodes.now }
    requires inside { All (λ n. n < length places.old) nodes.now }
    ensures noted { AreNoted nodes.now (length nodes.now) places.new }
    ensures len { length places.new ≡ length places.old }
{
    for place in 0..nodes.len() {
        places[nodes[place]] = place;
    }
}

/// Returns the place of each of some nodes, which rise and are below `count`, in their list.
pub(crate) fn noted_places(
    alloc: Global,
    nodes: &[usize],
    count: usize,
) -> Result<Vec<usize>, AllocError>
    requires rise { AllPairs (λ n m. n < m) nodes.now }
    requires inside { All (λ n. n < count) nodes.now }
    ensures { IfOk result (λ places. AreNoted nodes.now (length nodes.now) places.items) }
{
    let mut places = Vec::with_capacity(alloc, count)?;
    places.resize(count, 0)?;
    note_places(nodes, &mut places);
    Ok(places)
}

/// Returns the place of a node in a list, or the length of the list if it isn't there.
pub(crate) fn place_of(nodes: &[usize], places: &[usize], node: usize) -> usize
    requires rise { AllPairs (λ n m. n < m) nodes.now }
    requires noted { AreNoted nodes.now (length nodes.now) places.now }
    ensures { result ≡ place_in nodes.now node }
{
    if node >= places.len() {
        return nodes.len();
    }
    let place = places[node];
    if place >= nodes.len() {
        return nodes.len();
    }
    if nodes[place] != node {
        return nodes.len();
    }
    place
}

/// Appends edges from `at` to the places of some nodes.
fn push_chosen(
    ends: &[usize],
    at: usize,
    nodes: &[usize],
    places: &[usize],
    edges: &mut Vec<(usize, usize)>,
) -> Result<(), AllocError>
    requires rise { AllPairs (λ n m. n < m) nodes.now }
    requires noted { AreNoted nodes.now (length nodes.now) places.now }
    ensures { OnOk result
        (edges.new.items ≡ edges.old.items ++ map (λ end. (at, place_in nodes.now end)) ends.now) }
{
    for end in ends {
        edges.push((at, place_of(nodes, places, *end)))?;
    }
    Ok(())
}

/// Whether a node is the entry, if there is one.
fn is_entry(entry: Option<usize>, node: usize) -> bool
    ensures { IsTrue result ↔ IsEntry entry node }
{
    match entry {
        Some(entry) => node == entry,
        None => false,
    }
}

/// Returns the edges of the graph that some nodes make.
fn chosen_edges(
    alloc: Global,
    graph: &Graph,
    nodes: &[usize],
    places: &[usize],
    entry: Option<usize>,
) -> Result<Vec<(usize, usize)>, AllocError>
    requires rise { AllPairs (λ n m. n < m) nodes.now }
    requires inside { All (λ n. n < length graph.now) nodes.now }
    requires noted { AreNoted nodes.now (length nodes.now) places.now }
    ensures { IfOk result (λ edges. (i j : ℕ) → Contains edges.items (i, j)
        ↔ ((i < length nodes.now) × IsChosenEdge entry graph.now nodes.now i j)) }
{
    let mut edges = Vec::new(alloc);
    for at in 0..nodes.len() {
        push_chosen(graph.next(nodes[at]), at, nodes, places, &mut edges)?;
        push_where(is_entry(entry, nodes[at]), (at, nodes.len()), &mut edges)?;
    }
    Ok(edges)
}

/// Returns the graph that some nodes make, in the order of their list, with a last node that stands for
/// all others. An edge from the entry leads there too.
pub(crate) fn chosen_graph(
    alloc: Global,
    graph: &Graph,
    nodes: &[usize],
    places: &[usize],
    entry: Option<usize>,
) -> Result<Graph, AllocError>
    requires rise { AllPairs (λ n m. n < m) nodes.now }
    requires inside { All (λ n. n < length graph.now) nodes.now }
    requires noted { AreNoted nodes.now (length nodes.now) places.now }
    ensures { IfOk result (IsChosen entry graph.now nodes.now) }
{
    let Some(count) = nodes.len().checked_add(1) else {
        return Err(AllocError);
    };
    let edges = chosen_edges(alloc, graph, nodes, places, entry)?;
    match Graph::from_edges(alloc, count, &edges) {
        Ok(chosen) => Ok(chosen),
        Err(_) => Err(AllocError),
    }
}
