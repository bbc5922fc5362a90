//! The components of a graph by numbers: those to which edges lead have lower ones.
ghost use Rattle.std.specs.Prelude.{◌≡◌, ◌<◌, ℕ, length, IfOk};
ghost use Rattle.vob_flow.specs.Components.{AreComponents};
ghost use Rattle.files_graph.specs.Parts.{AreFirsts, AreNumbered, ArePlaces, AreTops, at};

use std::alloc::{AllocError, Global};
use vob_flow::Components;
use vob_rows::Graph;

/// Returns the first place of each node among those of components.
fn places_of(
    alloc: Global,
    graph: &Graph,
    components: &Components,
) -> Result<Vec<usize>, AllocError>
    requires { AreComponents graph.now components.now }
    ensures { IfOk result (λ places.
        ArePlaces (length graph.now) components.now.nodes.items places.items) }
{
    let nodes = &components.nodes;
    let mut places = Vec::with_capacity(alloc, graph.nodes())?;
    places.resize(graph.nodes(), 0)?;
    for back in 0..nodes.len() {
        let place = nodes.len() - 1 - back;
        let node = nodes[place];
        places[node] = place;
    }
    Ok(places)
}

/// Returns the highest place of a node with each root.
fn tops_of(alloc: Global, roots: &[usize], places: &[usize]) -> Result<Vec<usize>, AllocError>
    requires roots { (n : ℕ) → n < length roots.now → at roots.now n < length roots.now }
    requires places { length places.now ≡ length roots.now }
    ensures { IfOk result (λ tops. AreTops roots.now places.now (length roots.now) tops.items) }
{
    let mut tops = Vec::with_capacity(alloc, roots.len())?;
    tops.resize(roots.len(), 0)?;
    for node in 0..roots.len() {
        let root = roots[node];
        if tops[root] < places[node] {
            tops[root] = places[node];
        }
    }
    Ok(tops)
}

/// Numbers the components of a graph. Returns the number of each node's.
pub(crate) fn numbers_of(
    alloc: Global,
    graph: &Graph,
    components: &Components,
) -> Result<Vec<usize>, AllocError>
    requires { AreComponents graph.now components.now }
    ensures { IfOk result (λ numbers. AreNumbered graph.now numbers.items) }
{
    // The ends of edges are nodes: a proof knows it from this call.
    let count = graph.nodes();
    let places = places_of(alloc, graph, components)?;
    let roots = &components.roots;
    let tops = tops_of(alloc, roots, &places)?;
    let mut numbers = Vec::with_capacity(alloc, count)?;
    for node in 0..roots.len() {
        numbers.push(tops[roots[node]])?;
    }
    Ok(numbers)
}

/// Returns the first node with each number.
pub(crate) fn firsts_of(alloc: Global, numbers: &[usize]) -> Result<Vec<usize>, AllocError>
    requires { (n : ℕ) → n < length numbers.now → at numbers.now n < length numbers.now }
    ensures { IfOk result (λ firsts. AreFirsts numbers.now 0 firsts.items) }
{
    let mut firsts = Vec::with_capacity(alloc, numbers.len())?;
    firsts.resize(numbers.len(), 0)?;
    for back in 0..numbers.len() {
        let node = numbers.len() - 1 - back;
        firsts[numbers[node]] = node;
    }
    Ok(firsts)
}
