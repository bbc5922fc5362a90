//! Dataflow problems of a flow graph.
ghost use Rattle.std.specs.Prelude.{◌≡◌, ◌∷◌, [], length, map, replicate, slice_index_or, IfOk, OnOk};
ghost use Rattle.std.specs.List.{range_with_len};
ghost use Rattle.vob_rows.specs.Graph.{LeadToNodes};
ghost use Rattle.files_flow.specs.Problems.{AreBefore, IsAddedTo, IsLiveProblem, lists_of};

use crate::flow::FlowGraph;
use files_text::Names;
use std::alloc::{AllocError, Global};
use vob_flow::Paths;
use vob_flow::live::Flow;
use vob_rows::Graph;

/// A dataflow problem.
#[derive(Drop)]
pub struct Problem {
    /// Which paths it asks about, along the nodes from which each draws.
    pub paths: Paths,
    /// Whether a node draws from those that come before it.
    pub is_forward: bool,
    /// What the places are called.
    pub labels: Vec<Vec<u8>>,
    /// The places that each node generates.
    pub generates: Vec<Vec<usize>>,
    /// The places of each variable.
    pub by_variable: Vec<Vec<usize>>,
    /// The variables that each node writes, of which it kills all places.
    pub writes: Vec<Vec<usize>>,
    /// The nodes from which each draws.
    pub from: Vec<Vec<usize>>,
}

/// Makes the graph in which the edges of each node lead to the nodes in its list. Fails if memory runs
/// out.
pub fn graph_of(alloc: Global, lists: &[Vec<usize>]) -> Result<Graph, AllocError>
    requires { LeadToNodes (lists_of lists.now) (length lists.now) }
    ensures { IfOk result (λ graph. graph ≡ lists_of lists.now) }
{
    match Graph::from_lists(alloc, lists) {
        Ok(graph) => Ok(graph),
        // Each edge leads to a node.
        Err(_) => Err(AllocError),
    }
}

/// Returns copies of names.
pub fn labels_of(alloc: Global, names: &Names<'_>) -> Result<Vec<Vec<u8>>, AllocError>
    ensures { IfOk result (λ labels. lists_of labels.items ≡ names.now) }
{
    let mut labels = Vec::new(alloc);
    for number in 0..names.len() {
        labels.push(names.name(number).to_vec(alloc)?)?;
    }
    Ok(labels)
}

/// Returns the given number of empty lists.
pub fn empty_lists(alloc: Global, count: usize) -> Result<Vec<Vec<usize>>, AllocError>
    ensures { IfOk result (λ lists. lists_of lists.items ≡ replicate count []) }
{
    let mut lists = Vec::new(alloc);
    for _ in 0..count {
        lists.push(Vec::new(alloc))?;
    }
    Ok(lists)
}

/// Adds a number to the list with another number, if there is one.
pub fn add_to(lists: &mut [Vec<usize>], list: usize, number: usize) -> Result<(), AllocError>
    ensures { OnOk result (IsAddedTo (list ∷ []) number (lists_of lists.old) (lists_of lists.new)) }
{
    if list < lists.len() {
        lists[list].push(number)?;
    }
    Ok(())
}

/// Adds a number to the lists with some numbers.
pub fn add_to_each(
    lists: &mut [Vec<usize>],
    some: &[usize],
    number: usize,
) -> Result<(), AllocError>
    ensures { OnOk result (IsAddedTo some.now number (lists_of lists.old) (lists_of lists.new)) }
{
    for list in some {
        add_to(lists, *list, number)?;
    }
    Ok(())
}

/// Returns the list with a number, or an empty one if there is none.
pub fn list_at(lists: &[Vec<usize>], list: usize) -> &[usize]
    ensures { result.now ≡ slice_index_or (lists_of lists.now) list [] }
{
    match lists.get(list) {
        Some(numbers) => numbers,
        None => &[],
    }
}

/// The variables that each node reads, those that it writes, and the nodes that come next.
#[derive(Drop)]
pub struct NodeLists {
    pub reads: Vec<Vec<usize>>,
    pub writes: Vec<Vec<usize>>,
    pub next: Vec<Vec<usize>>,
}

/// Returns copies of the lists of each node.
pub fn node_lists(alloc: Global, nodes: &[Flow]) -> Result<NodeLists, AllocError>
    ensures reads { IfOk result (λ made. lists_of made.reads.items ≡ map (λ node. node.reads.items) nodes.now) }
    ensures writes { IfOk result (λ made. lists_of made.writes.items ≡ map (λ node. node.writes.items) nodes.now) }
    ensures next { IfOk result (λ made. lists_of made.next.items ≡ map (λ node. node.next.items) nodes.now) }
{
    let mut reads = Vec::with_capacity(alloc, nodes.len())?;
    let mut writes = Vec::with_capacity(alloc, nodes.len())?;
    let mut next = Vec::with_capacity(alloc, nodes.len())?;
    for node in 0..nodes.len() {
        reads.push(nodes[node].reads.to_vec(alloc)?)?;
        writes.push(nodes[node].writes.to_vec(alloc)?)?;
        next.push(nodes[node].next.to_vec(alloc)?)?;
    }
    Ok(NodeLists {
        reads,
        writes,
        next,
    })
}

/// Returns for each number below a count the list of it alone.
fn single_lists(alloc: Global, count: usize) -> Result<Vec<Vec<usize>>, AllocError>
    ensures { IfOk result (λ lists. lists_of lists.items ≡ map (λ number. number ∷ []) (range_with_len 0 count)) }
{
    let mut lists = Vec::with_capacity(alloc, count)?;
    for number in 0..count {
        lists.push(vec![in alloc; number]?)?;
    }
    Ok(lists)
}

/// Returns for each node the nodes that come before it.
pub fn nodes_before(alloc: Global, nodes: &[Flow]) -> Result<Vec<Vec<usize>>, AllocError>
    ensures { IfOk result (λ before. AreBefore nodes.now (lists_of before.items)) }
{
    let mut before = empty_lists(alloc, nodes.len())?;
    for number in 0..nodes.len() {
        add_to_each(&mut before, &nodes[number].next, number)?;
    }
    Ok(before)
}

/// Returns the problem of the variables that may still be read. A node reads some before it writes.
pub fn live_problem(alloc: Global, graph: &FlowGraph<'_>) -> Result<Problem, AllocError>
    ensures { IfOk result (λ problem. IsLiveProblem graph.now problem) }
{
    let labels = labels_of(alloc, &graph.variables)?;
    let by_variable = single_lists(alloc, graph.variables.len())?;
    let lists = node_lists(alloc, &graph.nodes)?;
    Ok(Problem {
        paths: Paths::Some,
        is_forward: false,
        labels,
        generates: lists.reads,
        by_variable,
        writes: lists.writes,
        from: lists.next,
    })
}
