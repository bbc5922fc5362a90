//! The nodes of a graph to which some places may come.
ghost use Rattle.std.specs.Prelude.{◌≡◌, ◌+◌, ◌<◌, ◌≤◌, ◌∷◌, ◌++◌, ℕ, [], true, cond, length, map, All, Contains, IfOk, OnOk};
ghost use Rattle.std.specs.List.{range_with_len};
ghost use Rattle.std.specs.declared.ops.Bound.TheVariants.{Unbounded, Excluded};
ghost use Rattle.vob_block.specs.Packing.{item};
ghost use Rattle.vob_walk.specs.Matches.{matches};
ghost use Rattle.vob_rows.specs.Graph.{IsReversed};
ghost use Rattle.vob_flow.specs.Lists.{IsBelowEach, lists_of};
ghost use Rattle.vob_flow.specs.Touched.{AreOwners, AreSpread, AreSpreadFrom, IsFed, IsSpread};

use crate::lists::Paths;
use crate::paths::reach;
use std::alloc::{AllocError, Global};
use vob::Vob;
use vob_rows::Graph;

/// Returns the set of nodes at which nothing holds that doesn't come there.
fn fed_nodes(alloc: Global, users: &Graph, paths: Paths) -> Result<Vob, AllocError>
    ensures len { IfOk result (λ set. length set.bits ≡ length users.now) }
    ensures each { IfOk result (λ set. (n : ℕ) → item set.bits n ≡ true → IsFed paths users.now n) }
{
    match paths {
        Paths::Some => Vob::from_elem(alloc, true, users.nodes()),
        Paths::All => Vob::from_elem(alloc, false, users.nodes()),
        Paths::AllFrom(entry) => {
            if entry < users.nodes() {
                reach(alloc, users, &[entry])
            } else {
                Vob::from_elem(alloc, false, users.nodes())
            }
        }
    }
}

/// Appends an edge to a node from each of some numbers, counted from `first`.
fn push_edges(
    numbers: &[usize],
    first: usize,
    node: usize,
    edges: &mut Vec<(usize, usize)>,
) -> Result<(), AllocError>
    requires { All (λ number. first + number ≤ usize.MAX) numbers.now }
    ensures { OnOk result (edges.new.items
        ≡ edges.old.items ++ map (λ number. (first + number, node)) numbers.now) }
{
    for number in numbers {
        edges.push((first + *number, node))?;
    }
    Ok(())
}

/// Appends an edge, if it is there.
pub(crate) fn push_where(
    there: bool,
    edge: (usize, usize),
    edges: &mut Vec<(usize, usize)>,
) -> Result<(), AllocError>
    ensures { OnOk result (edges.new.items ≡ edges.old.items ++ cond there (edge ∷ []) []) }
{
    if there {
        edges.push(edge)?;
    }
    Ok(())
}

/// Returns the edges along which places spread.
fn spread_edges(
    alloc: Global,
    graph: &Graph,
    users: &Graph,
    generates: &[Vec<usize>],
    places: usize,
    paths: Paths,
) -> Result<Vec<(usize, usize)>, AllocError>
    requires users { IsReversed graph.now users.now }
    requires fit { length generates.now ≡ length graph.now }
    requires inside { IsBelowEach places (lists_of generates.now) }
    requires small { length graph.now + places ≤ usize.MAX }
    ensures { IfOk result (λ edges. AreSpread paths graph.now (lists_of generates.now) users.now places
        (length graph.now) (λ n m. Contains edges.items (n, m))) }
{
    // Each edge leads to a node: a proof knows it from this call.
    let nodes = graph.nodes();
    let fed = fed_nodes(alloc, users, paths)?;
    let mut edges = Vec::new(alloc);
    for node in 0..nodes {
        push_edges(graph.next(node), 0, node, &mut edges)?;
        push_edges(&generates[node], nodes, node, &mut edges)?;
        push_where(!fed.get_unchecked(node), (nodes + places, node), &mut edges)?;
    }
    Ok(edges)
}

/// Returns the graph along which places spread. Its first nodes are those of the other graph, and lead to
/// the nodes that draw from them. Behind them each place leads to the nodes that generate it, and a last
/// node to those where a place may hold that doesn't come there.
pub(crate) fn spread_of(
    alloc: Global,
    graph: &Graph,
    generates: &[Vec<usize>],
    places: usize,
    paths: Paths,
) -> Result<Graph, AllocError>
    requires fit { length generates.now ≡ length graph.now }
    requires inside { IsBelowEach places (lists_of generates.now) }
    ensures { IfOk result (IsSpread paths graph.now (lists_of generates.now) places) }
{
    let Some(last) = graph.nodes().checked_add(places) else {
        return Err(AllocError);
    };
    let Some(count) = last.checked_add(1) else {
        return Err(AllocError);
    };
    let users = graph.reversed(alloc)?;
    let edges = spread_edges(alloc, graph, &users, generates, places, paths)?;
    match Graph::from_edges(alloc, count, &edges) {
        Ok(spread) => Ok(spread),
        Err(_) => Err(AllocError),
    }
}

/// Returns a graph of variables and, behind them, places, in which each place leads to the variables that
/// have it.
pub(crate) fn owners_of(
    alloc: Global,
    by_variable: &[Vec<usize>],
    places: usize,
) -> Result<Graph, AllocError>
    requires { IsBelowEach places (lists_of by_variable.now) }
    ensures { IfOk result (AreOwners (lists_of by_variable.now) places) }
{
    let Ok(apart) = Graph::from_edges(alloc, by_variable.len(), &[]) else {
        return Err(AllocError);
    };
    let owners = spread_of(alloc, &apart, by_variable, places, Paths::Some)?;
    Ok(owners)
}

/// Returns some numbers from `first` on.
pub(crate) fn numbers_from(
    alloc: Global,
    first: usize,
    count: usize,
) -> Result<Vec<usize>, AllocError>
    requires { first + count ≤ usize.MAX }
    ensures { IfOk result (λ list. list.items ≡ range_with_len first count) }
{
    (first..first + count).collect(alloc)
}

/// Returns some numbers from `first` on, and a last one.
fn numbers_and(
    alloc: Global,
    first: usize,
    count: usize,
    last: usize,
) -> Result<Vec<usize>, AllocError>
    requires { first + count ≤ usize.MAX }
    ensures { IfOk result (λ list. list.items ≡ range_with_len first count ++ last ∷ []) }
{
    let mut list = numbers_from(alloc, first, count)?;
    list.push(last)?;
    Ok(list)
}

/// Returns the indices of the set bits below `end`, in rising order.
fn members_below(alloc: Global, set: &Vob, end: usize) -> Result<Vec<usize>, AllocError>
    ensures { IfOk result (λ list. list.items ≡ matches set.now.bits true Unbounded (Excluded end)) }
{
    set.iter_set_bits(..end).collect(alloc)
}

/// Returns the nodes, in rising order, to which places from `start` on may come, or where such a place may
/// hold that doesn't come there.
pub(crate) fn touched_nodes(
    alloc: Global,
    spread: &Graph,
    nodes: usize,
    places: usize,
    start: usize,
    count: usize,
) -> Result<Vec<usize>, AllocError>
    requires size { length spread.now ≡ nodes + places + 1 }
    requires inside { start + count ≤ places }
    ensures { IfOk result (λ list. AreSpreadFrom spread.now nodes places start count list.items) }
{
    // The number of nodes is in the range of its type: a proof knows it from this call.
    let _nodes = spread.nodes();
    let from = numbers_and(alloc, nodes + start, count, nodes + places)?;
    let touched = reach(alloc, spread, &from)?;
    let list = members_below(alloc, &touched, nodes)?;
    Ok(list)
}
