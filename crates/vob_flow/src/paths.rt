//! The nodes to which the paths of a graph lead.
ghost use Rattle.std.specs.Prelude.{◌<◌, length, All, IfOk, OnOk};
ghost use Rattle.vob_flow.specs.Reach.{AreReached, HaveEntered};

use std::alloc::{AllocError, Global};
use vob::Vob;
use vob_rows::Graph;

/// Marks nodes as reached, and lets those wait that weren't.
pub(crate) fn enter_all(
    nodes: &[usize],
    reached: &mut Vob,
    waiting: &mut Vec<usize>,
) -> Result<(), AllocError>
    requires { All (λ node. node < length reached.old.bits) nodes.now }
    ensures { OnOk result (HaveEntered nodes.now reached.old.bits waiting.old.items
        reached.new.bits waiting.new.items) }
{
    for node in nodes {
        if reached.set(*node, true) {
            waiting.push(*node)?;
        }
    }
    Ok(())
}

/// Returns the set of the nodes that a path of any number of edges leads to from some nodes. Fails if
/// memory runs out.
pub fn reach(alloc: Global, next: &Graph, from: &[usize]) -> Result<Vob, AllocError>
    requires { All (λ node. node < length next.now) from.now }
    ensures { IfOk result (λ set. AreReached next.now from.now set.bits) }
{
    let mut reached = Vob::from_elem(alloc, false, next.nodes())?;
    let mut waiting = Vec::with_capacity(alloc, next.nodes())?;
    enter_all(from, &mut reached, &mut waiting)?;
    'turns: while let Some(node) = waiting.pop() {
        enter_all(next.next(node), &mut reached, &mut waiting)?;
    }
    Ok(reached)
}
