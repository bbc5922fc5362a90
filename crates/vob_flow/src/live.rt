//! Which variables a program still needs at each of its steps: a dataflow analysis, backward along
//! the edges.
ghost use Rattle.std.specs.Prelude.{◌≡◌, ◌≢◌, ◌↔◌, ◌<◌, ◌++◌, ℕ, [], length, map, All, IsTrue, IfOk, IfErr, OnOk, IsOk, Err};
ghost use Rattle.vob_flow.specs.FlowFaults.{IsBadNext, IsBadVariable, IsFlowFault, IsSound, MayRefuseNodes, NamesVariables};
ghost use Rattle.vob_flow.specs.Draws.{IsIn};
ghost use Rattle.vob_flow.specs.Live.{AreLive, AreLiveRows, bits_of};
ghost use Rattle.vob_flow.specs.LiveDraws.{AreEdges, IsFlowGraph, Reads, Writes};

use crate::draw::Masks;
use crate::gather::gather_each;
use crate::solver::solve;
use std::alloc::{AllocError, Global};
use std::{error, fmt};
use vob::Vob;
use vob_rows::{BitRows, Graph, all_below};

/// A node of a flow graph: the variables that it reads, those that it then writes, and the nodes
/// that may come next.
#[derive(Drop)]
pub struct Flow {
    pub reads: Vec<usize>,
    pub writes: Vec<usize>,
    pub next: Vec<usize>,
}

/// The variables that are live before each node and after it, and how many passes over all nodes
/// found them.
#[derive(Debug, Drop)]
pub struct Live {
    pub before: Vec<Vob<usize>>,
    pub after: Vec<Vob<usize>>,
    pub rounds: u128,
}

/// The same in rows: row n of each has the variables that are live before node n, or after it.
#[derive(Drop)]
pub struct LiveRows {
    pub before: BitRows,
    pub after: BitRows,
    pub rounds: u128,
}

/// Why `liveness` failed.
#[derive(Clone, Copy, Debug, PartialEq, Eq)]
pub enum LiveError {
    /// There was no memory for the sets.
    Memory,
    /// A node reads or writes what isn't a variable.
    BadVariable { node: usize },
    /// What comes next to a node isn't a node.
    BadNext { node: usize },
}

impl LiveError {
    ghost use Rattle.std.specs.Prelude.{◌≡◌};
    ghost use Rattle.vob_flow.specs.FlowFaults.{live_error_number};

    /// The number of the refusal: 2 for `Memory`, 5 for `BadVariable`, 6 for `BadNext`.
    pub fn number(&self) -> u8
        ensures { result ≡ live_error_number self.now }
    {
        match self {
            LiveError::Memory => 2,
            LiveError::BadVariable { node: _ } => 5,
            LiveError::BadNext { node: _ } => 6,
        }
    }
}

impl fmt::Display for LiveError {
    ghost use Rattle.std.specs.Prelude.{Some};
    ghost use Rattle.vob_flow.specs.FlowFaults.{live_error_text};

    ghost output = { λ error. Some (live_error_text error) };

    fn fmt<W: fmt::Write>(&self, f: &mut fmt::Formatter<W>) -> fmt::Result {
        match self {
            LiveError::Memory => f.write_str("out of memory"),
            LiveError::BadVariable { node } => write!(f, "node {node} names no variable"),
            LiveError::BadNext { node } => write!(f, "node {node} leads to no node"),
        }
    }
}

impl error::Error for LiveError {}

impl From<AllocError> for LiveError {
    ghost use Rattle.std.specs.Prelude.{◌≡◌};
    ghost use Rattle.vob_flow.specs.declared.live.LiveError.TheVariants.{Memory};

    ghost from_gives = { λ _ refusal. refusal ≡ Memory };

    fn from(_: AllocError) -> LiveError {
        LiveError::Memory
    }
}

/// Whether a node reads and writes variables alone.
fn names_variables(vars: usize, flow: &Flow) -> bool
    ensures { IsTrue result ↔ NamesVariables vars flow.now }
{
    all_below(&flow.reads, vars) && all_below(&flow.writes, vars)
}

/// Whether each node names variables and nodes alone, or else what is wrong with the first that
/// doesn't.
fn check_nodes(vars: usize, nodes: &[Flow]) -> Result<(), LiveError>
    ensures ok { OnOk result (All (IsSound vars nodes.now) nodes.now) }
    ensures err { IfErr result (IsFlowFault vars nodes.now) }
{
    for node in 0..nodes.len() {
        let flow = &nodes[node];
        if !names_variables(vars, flow) {
            return Err(LiveError::BadVariable { node });
        }
        if !all_below(&flow.next, nodes.len()) {
            return Err(LiveError::BadNext { node });
        }
    }
    Ok(())
}

/// Returns the variables that each node reads.
fn read_sets(alloc: Global, vars: usize, nodes: &[Flow]) -> Result<BitRows, AllocError>
    requires { All (IsSound vars nodes.now) nodes.now }
    ensures reads { IfOk result (λ sets. (n v : ℕ) → IsIn sets.rows n v ↔ Reads nodes.now n v) }
    ensures count { IfOk result (λ sets. length sets.rows ≡ length nodes.now) }
    ensures columns { IfOk result (λ sets. sets.columns ≡ vars) }
    ensures nothing { nodes.now ≡ [] → IsOk result }
{
    let mut sets = BitRows::new(alloc, nodes.len(), vars)?;
    for node in 0..nodes.len() {
        sets.set_indices(node, &nodes[node].reads);
    }
    Ok(sets)
}

/// Returns the variables that each node writes.
fn write_sets(alloc: Global, vars: usize, nodes: &[Flow]) -> Result<BitRows, AllocError>
    requires { All (IsSound vars nodes.now) nodes.now }
    ensures writes { IfOk result (λ sets. (n v : ℕ) → IsIn sets.rows n v ↔ Writes nodes.now n v) }
    ensures count { IfOk result (λ sets. length sets.rows ≡ length nodes.now) }
    ensures columns { IfOk result (λ sets. sets.columns ≡ vars) }
{
    let mut sets = BitRows::new(alloc, nodes.len(), vars)?;
    for node in 0..nodes.len() {
        sets.set_indices(node, &nodes[node].writes);
    }
    Ok(sets)
}

/// Appends the edges from a node to some others.
fn push_edges(
    node: usize,
    next: &[usize],
    edges: &mut Vec<(usize, usize)>,
) -> Result<(), AllocError>
    ensures { OnOk result
        (edges.new.items ≡ edges.old.items ++ map (λ end. (node, end)) next.now) }
{
    for end in next {
        edges.push((node, *end))?;
    }
    Ok(())
}

/// Returns the edges from each node to those that come next.
fn edges_of(alloc: Global, nodes: &[Flow]) -> Result<Vec<(usize, usize)>, AllocError>
    ensures { IfOk result (λ edges. AreEdges nodes.now (length nodes.now) edges.items) }
{
    let mut edges = Vec::with_capacity(alloc, nodes.len())?;
    for node in 0..nodes.len() {
        push_edges(node, &nodes[node].next, &mut edges)?;
    }
    Ok(edges)
}

/// Returns the graph whose edges lead from each node to those that come next.
fn graph_of(alloc: Global, nodes: &[Flow]) -> Result<Graph, AllocError>
    ensures { IfOk result (IsFlowGraph nodes.now) }
{
    let edges = edges_of(alloc, nodes)?;
    match Graph::from_edges(alloc, nodes.len(), &edges) {
        Ok(graph) => Ok(graph),
        Err(_) => Err(AllocError),
    }
}

/// Returns the least sets that meet the flow equations, of nodes that name variables and nodes alone.
/// No nodes take no memory.
fn solve_live(alloc: Global, vars: usize, nodes: &[Flow]) -> Result<LiveRows, AllocError>
    requires { All (IsSound vars nodes.now) nodes.now }
    ensures live { IfOk result (AreLiveRows vars nodes.now) }
    ensures nothing { nodes.now ≡ [] → IsOk result }
{
    let mut before = read_sets(alloc, vars, nodes)?;
    if nodes.is_empty() {
        let none = BitRows::new(alloc, 0, vars)?;
        return Ok(LiveRows {
            before,
            after: none,
            rounds: 0,
        });
    }
    let next = graph_of(alloc, nodes)?;
    let writes = write_sets(alloc, vars, nodes)?;
    // Each set is as long as there are columns: a proof knows it from this call.
    let _columns = before.columns();
    let rounds = solve(alloc, &mut before, &next, Masks::Without(&writes))?;
    // What is live after takes the memory of what is written.
    drop(writes);
    let mut after = BitRows::new(alloc, nodes.len(), vars)?;
    gather_each(&mut after, &next, &before);
    Ok(LiveRows {
        before,
        after,
        rounds,
    })
}

/// Returns the least sets that meet the flow equations, in rows, as `liveness` does in Vobs.
pub fn live_rows(alloc: Global, vars: usize, nodes: &[Flow]) -> Result<LiveRows, LiveError>
    ensures live { IfOk result (AreLiveRows vars nodes.now) }

    // The nodes are checked first, and memory is asked for only if there are nodes.
    ensures bad_variable { (node : ℕ)
        → (result ≡ Err (LiveError.BadVariable node)) ↔ IsBadVariable vars nodes.now node }
    ensures bad_next { (node : ℕ)
        → (result ≡ Err (LiveError.BadNext node)) ↔ IsBadNext vars nodes.now node }
    ensures refused { IfErr result (MayRefuseNodes vars nodes.now) }
{
    check_nodes(vars, nodes)?;
    let live = solve_live(alloc, vars, nodes)?;
    Ok(live)
}

/// Returns the rows in Vobs.
fn in_vobs(alloc: Global, live: LiveRows) -> Result<Live, AllocError>
    ensures before { IfOk result (λ made. bits_of made.before.items ≡ live.before.rows) }
    ensures after { IfOk result (λ made. bits_of made.after.items ≡ live.after.rows) }
    ensures rounds { IfOk result (λ made. made.rounds ≡ live.rounds) }
    ensures nothing { live.before.rows ≡ [] → live.after.rows ≡ [] → IsOk result }
{
    let before = live.before.to_vobs(alloc)?;
    let after = live.after.to_vobs(alloc)?;
    Ok(Live {
        before,
        after,
        rounds: live.rounds,
    })
}

/// Returns the least sets that meet the flow equations. After a node is live what is live before a
/// node that comes next; before it what it reads, and what is live after it and not written there.
/// Fails with the first node that names a variable or a node that isn't there, or if memory runs
/// out.
pub fn liveness(alloc: Global, vars: usize, nodes: &[Flow]) -> Result<Live, LiveError>
    ensures live { IfOk result (AreLive vars nodes.now) }

    // The nodes are checked first, and memory is asked for only if there are nodes.
    ensures bad_variable { (node : ℕ)
        → (result ≡ Err (LiveError.BadVariable node)) ↔ IsBadVariable vars nodes.now node }
    ensures bad_next { (node : ℕ)
        → (result ≡ Err (LiveError.BadNext node)) ↔ IsBadNext vars nodes.now node }
    ensures memory { result ≡ Err LiveError.Memory → nodes.now ≢ [] }
    ensures refused { IfErr result (MayRefuseNodes vars nodes.now) }
{
    match live_rows(alloc, vars, nodes) {
        Ok(rows) => Ok(in_vobs(alloc, rows)?),
        Err(refusal) => Err(refusal),
    }
}
