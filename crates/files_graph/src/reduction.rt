//! The fewest edges that have the closure of a graph.
//!
//! Nodes that lead to one another are a component. Edges between components join their first nodes,
//! and only those that no path through a third component stands for. The nodes of a component stand
//! on one cycle, in their order.
ghost use Rattle.std.specs.Prelude.{◌≡◌, ◌≢◌, ◌↔◌, ◌⊎◌, ◌<◌, ℕ, [], ◌∷◌, ◌++◌, length, AllPairs, Contains, IfOk, IsTrue, OnOk};
ghost use Rattle.vob_flow.specs.Closure.{IsEdge};
ghost use Rattle.files_graph.specs.ClosureText.{IsBefore};
ghost use Rattle.files_graph.specs.Direct.{LeadsDown};
ghost use Rattle.files_graph.specs.Parts.{AreDirect, AreFirsts, AreLasts, AreLinks, AreNumbered, IsLastOf, IsLinkOf, IsNextOf, JoinsFirsts, at};
ghost use Rattle.files_graph.specs.Reduction.{IsReduced};

use crate::direct::direct_edges;
use crate::graph::graph_of;
use crate::parts::{firsts_of, numbers_of};
use std::alloc::{AllocError, Global};
use vob_flow::strong_components;
use vob_rows::Graph;

/// Appends the edges from the component of a node to others to which its edges lead.
fn put_links(
    graph: &Graph,
    numbers: &[usize],
    node: usize,
    links: &mut Vec<(usize, usize)>,
) -> Result<(), AllocError>
    requires there { node < length graph.now }
    requires long { length numbers.now ≡ length graph.now }
    ensures { OnOk result ((p q : ℕ) → Contains links.new.items (p, q)
        ↔ (Contains links.old.items (p, q) ⊎ IsLinkOf graph.now numbers.now node p q)) }
{
    let part = numbers[node];
    let ends = graph.next(node);
    for end in ends {
        let other = numbers[*end];
        if part != other {
            links.push((part, other))?;
        }
    }
    Ok(())
}

/// Returns the edges between components, in numbers.
fn links_of(alloc: Global, graph: &Graph, numbers: &[usize]) -> Result<Graph, AllocError>
    requires { AreNumbered graph.now numbers.now }
    ensures links { IfOk result (AreLinks graph.now numbers.now) }
    ensures down { IfOk result LeadsDown }
    ensures count { IfOk result (λ links. length links ≡ length graph.now) }
{
    let mut links = Vec::new(alloc);
    for node in 0..graph.nodes() {
        put_links(graph, numbers, node, &mut links)?;
    }
    let made = graph_of(alloc, graph.nodes(), &links)?;
    Ok(made)
}

/// Appends an edge between the first nodes with two numbers.
fn put_joined(
    firsts: &[usize],
    from: usize,
    to: usize,
    edges: &mut Vec<(usize, usize)>,
) -> Result<(), AllocError>
    requires from { from < length firsts.now }
    requires to { to < length firsts.now }
    ensures { OnOk result (edges.new.items
        ≡ edges.old.items ++ (at firsts.now from, at firsts.now to) ∷ []) }
{
    edges.push((firsts[from], firsts[to]))?;
    Ok(())
}

/// Does that for each of some edges between numbers.
fn put_between(
    links: &[(usize, usize)],
    firsts: &[usize],
    edges: &mut Vec<(usize, usize)>,
) -> Result<(), AllocError>
    requires { (p q : ℕ) → Contains links.now (p, q)
        → (p < length firsts.now) × (q < length firsts.now) }
    ensures { OnOk result ((a b : ℕ) → Contains edges.new.items (a, b)
        ↔ (Contains edges.old.items (a, b) ⊎ JoinsFirsts links.now firsts.now a b)) }
{
    for at in 0..links.len() {
        let (from, to) = links[at];
        put_joined(firsts, from, to, edges)?;
    }
    Ok(())
}

/// Appends an edge from each node to the next one with its number. Returns the last node with each.
fn put_next(
    alloc: Global,
    numbers: &[usize],
    firsts: &[usize],
    edges: &mut Vec<(usize, usize)>,
) -> Result<Vec<usize>, AllocError>
    requires inside { (n : ℕ) → n < length numbers.now → at numbers.now n < length numbers.now }
    requires firsts { AreFirsts numbers.now 0 firsts.now }
    ensures lasts { IfOk result (λ lasts.
        AreLasts numbers.now (length numbers.now) lasts.items) }
    ensures edges { OnOk result ((a b : ℕ) → Contains edges.new.items (a, b)
        ↔ (Contains edges.old.items (a, b) ⊎ IsNextOf numbers.now (length numbers.now) a b)) }
{
    let mut lasts = Vec::with_capacity(alloc, numbers.len())?;
    lasts.resize(numbers.len(), 0)?;
    for node in 0..numbers.len() {
        let number = numbers[node];
        if firsts[number] != node {
            edges.push((lasts[number], node))?;
        }
        lasts[number] = node;
    }
    Ok(lasts)
}

/// Returns whether a node is on a cycle, where its component has this first node.
fn is_on_cycle(graph: &Graph, node: usize, first: usize) -> bool
    requires { node < length graph.now }
    ensures { IsTrue result ↔ ((first ≢ node) ⊎ IsEdge graph.now node node) }
{
    if first != node {
        return true;
    }
    graph.next(node).contains(&node)
}

/// Appends an edge from the last node with each number to the first, if they are on a cycle.
fn put_back(
    graph: &Graph,
    numbers: &[usize],
    firsts: &[usize],
    lasts: &[usize],
    edges: &mut Vec<(usize, usize)>,
) -> Result<(), AllocError>
    requires long { length numbers.now ≡ length graph.now }
    requires inside { (n : ℕ) → n < length numbers.now → at numbers.now n < length numbers.now }
    requires firsts { length firsts.now ≡ length numbers.now }
    requires lasts { length lasts.now ≡ length numbers.now }
    ensures { OnOk result ((a b : ℕ) → Contains edges.new.items (a, b)
        ↔ (Contains edges.old.items (a, b)
        ⊎ IsLastOf graph.now numbers.now firsts.now lasts.now (length numbers.now) a b)) }
{
    for node in 0..numbers.len() {
        let number = numbers[node];
        let first = firsts[number];
        if lasts[number] == node && is_on_cycle(graph, node, first) {
            edges.push((node, first))?;
        }
    }
    Ok(())
}

/// Returns the edges that are to be, given the number of each node's component.
fn edges_of(
    alloc: Global,
    graph: &Graph,
    numbers: &[usize],
    links: &[(usize, usize)],
) -> Result<Vec<(usize, usize)>, AllocError>
    requires numbers { AreNumbered graph.now numbers.now }
    requires links { AreDirect graph.now numbers.now links.now }
    ensures { IfOk result (λ edges.
        (a b : ℕ) → Contains edges.items (a, b) ↔ IsReduced graph.now a b) }
{
    // The ends of edges are nodes: a proof knows it from this call.
    let _nodes = graph.nodes();
    let firsts = firsts_of(alloc, numbers)?;
    let mut edges = Vec::new(alloc);
    put_between(links, &firsts, &mut edges)?;
    let lasts = put_next(alloc, numbers, &firsts, &mut edges)?;
    put_back(graph, numbers, &firsts, &lasts, &mut edges)?;
    Ok(edges)
}

/// Returns the edges of a reduction of a graph, in their order: the fewest that have its closure.
pub fn reduction(alloc: Global, graph: &Graph) -> Result<Vec<(usize, usize)>, AllocError>
    ensures order { IfOk result (λ edges. AllPairs IsBefore edges.items) }
    ensures each { IfOk result (λ edges.
        (a b : ℕ) → Contains edges.items (a, b) ↔ IsReduced graph.now a b) }
{
    let numbers = numbers_of(alloc, graph, &strong_components(alloc, graph)?)?;
    let links = links_of(alloc, graph, &numbers)?;
    let direct = direct_edges(alloc, &links)?;
    let mut edges = edges_of(alloc, graph, &numbers, &direct)?;
    edges.sort_unstable();
    // Each edge stands once already: a proof knows it from this call.
    edges.dedup();
    Ok(edges)
}
