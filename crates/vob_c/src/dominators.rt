//! The nodes that every path from the entry of a flow graph to a node passes. A graph is two arrays: the
//! edges of node i lead to the nodes from `ends[offsets[i]]` to below `ends[offsets[i + 1]]`. So there is one
//! offset more than nodes; the first is 0, they rise, and the last is the number of ends.
ghost use Rattle.std.specs.Prelude.{◌≡◌, ◌≢◌, ◌<◌, ◌≤◌, ℕ, List, length, slice_index_or, IfOk};
ghost use Rattle.vob_flow.specs.Dominators.{IsDominatorTree, IsImmediate};
ghost use Rattle.vob_rows.specs.Ends.{lists_of};
ghost use Rattle.vob_rows.specs.Graph.{IsReversed};
ghost use Rattle.vob_c.specs.Found.{found_below};
ghost use Rattle.vob_c.specs.Graphs.{AreImmediate, AreNodes, AreOffsets};
ghost use Rattle.vob_c.specs.Status.{TellsOrMemory, TellsRange};

use crate::graphs::{graph_of, status_of_graph};
use crate::status::{MEMORY, OK, RANGE};
use std::alloc::Global;
use vob_flow::{DominatorTree, SolveError, dominator_tree};

/// Returns the tree of the dominators of a graph's nodes. Fails if memory runs out.
fn tree_of(
    alloc: Global,
    offsets: &[usize],
    ends: &[usize],
    nodes: usize,
    entry: usize,
) -> Result<DominatorTree, SolveError>
    requires offsets { AreOffsets nodes offsets.now ends.now }
    ensures tree { IfOk result (λ tree. (before : List (List ℕ))
        × IsReversed (lists_of offsets.now ends.now) before × IsDominatorTree before entry tree) }
    ensures count { IfOk result (λ tree. length tree.reached ≡ nodes) }
{
    let graph = graph_of(alloc, offsets, ends, nodes)?;
    let before = graph.reversed(alloc)?;
    let tree = dominator_tree(alloc, entry, &before)?;
    Ok(tree)
}

/// Writes the immediate dominator of each node, or the number of nodes for a node that has none.
fn write_immediate(tree: &DominatorTree, immediate: &mut [usize])
    requires { length immediate.old ≡ length tree.now.reached }
    ensures { (lists before : List (List ℕ)) (entry : ℕ) → IsReversed lists before
        → IsDominatorTree before entry tree.now → AreImmediate lists entry immediate.new }
{
    let nodes = immediate.len();
    for node in 0..nodes {
        immediate[node] = tree.immediate(node).unwrap_or(nodes);
    }
}

/// Writes into `immediate` the immediate dominator of each node: the nearest of the nodes, but itself, that
/// every path from the entry to it passes. Writes the number of nodes for the entry, and for a node to which
/// no path leads.
#[unsafe(no_mangle)]
pub extern "C" fn conthiral_dominators(
    alloc: Global,
    offsets: &[usize],
    ends: &[usize],
    entry: usize,
    immediate: &mut [usize],
) -> u8
    ensures status { TellsOrMemory (λ told. TellsRange told
        (AreOffsets (length immediate.old) offsets.now ends.now)
        (AreNodes (length immediate.old) ends.now × (entry < length immediate.old))) result }
    ensures immediate { result ≡ 0
        → AreImmediate (lists_of offsets.now ends.now) entry immediate.new }
    ensures refused { result ≢ 0 → immediate.new ≡ immediate.old }
{
    let nodes = immediate.len();
    let status = status_of_graph(offsets, ends, nodes);
    if status != OK {
        return status;
    }
    if entry >= nodes {
        return RANGE;
    }
    let Ok(tree) = tree_of(alloc, offsets, ends, nodes, entry) else {
        return MEMORY;
    };
    write_immediate(&tree, immediate);
    OK
}
