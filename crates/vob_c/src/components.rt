//! The strong components of a graph: two nodes are in one exactly if paths lead from each to the other.
ghost use Rattle.std.specs.Prelude.{◌≡◌, ◌≢◌, ◌<◌, ℕ, length, IfOk, OnErr};
ghost use Rattle.vob_flow.specs.Components.{AreComponents, component_of};
ghost use Rattle.vob_rows.specs.Ends.{lists_of};
ghost use Rattle.vob_c.specs.Components.{AreNumbered, AreTurned, HaveNumbers, IsGiven, number_of};
ghost use Rattle.vob_c.specs.Graphs.{AreNodes, AreOffsets};
ghost use Rattle.vob_c.specs.Status.{TellsOrMemory, TellsRange};

use crate::graphs::{graph_of, status_of_graph};
use crate::status::{MEMORY, OK};
use std::alloc::{AllocError, Global};
use vob_flow::{Components, strong_components};
use vob_rows::Graph;

/// Gives a root the next number if it has none, and returns how many have one.
fn give_number(numbers: &mut Vec<usize>, root: usize, count: usize) -> usize
    requires root { root < length numbers.old.items }
    requires count { count < length numbers.old.items }
    ensures { IsGiven numbers.old.items root count numbers.new.items result }
{
    if numbers[root] != numbers.len() {
        return count;
    }
    numbers[root] = count;
    count + 1
}

/// Returns a number for the root of each component, and how many there are. The component that stands last
/// gets the first number.
fn numbers_of(
    alloc: Global,
    graph: &Graph,
    found: &Components,
) -> Result<(Vec<usize>, usize), AllocError>
    requires { AreComponents graph.now found.now }
    ensures { IfOk result (λ made. HaveNumbers graph.now found.now.roots.items found.now.nodes.items 0
        made.0.items made.1) }
{
    let nodes = graph.nodes();
    let mut numbers = Vec::with_capacity(alloc, nodes)?;
    numbers.resize(nodes, nodes)?;
    let mut count = 0;
    for step in 0..found.nodes.len() {
        let node = found.nodes[found.nodes.len() - 1 - step];
        count = give_number(&mut numbers, found.roots[node], count);
    }
    Ok((numbers, count))
}

/// Writes the number of each node's component: the last number that its root can have becomes the first.
fn write_numbers(roots: &[usize], numbers: &[usize], count: usize, component: &mut [usize])
    requires long { length component.old ≡ length roots.now }
    requires roots { (n : ℕ) → n < length roots.now → component_of roots.now n < length numbers.now }
    requires below { (n : ℕ) → n < length roots.now
        → number_of numbers.now (component_of roots.now n) < count }
    ensures { AreTurned roots.now numbers.now count component.new }
{
    for node in 0..component.len() {
        component[node] = count - 1 - numbers[roots[node]];
    }
}

/// Writes the number of each node's component, and returns how many components there are. Fails if memory
/// runs out, and then writes nothing.
fn number_nodes(
    alloc: Global,
    offsets: &[usize],
    ends: &[usize],
    component: &mut [usize],
) -> Result<usize, AllocError>
    requires offsets { AreOffsets (length component.old) offsets.now ends.now }
    ensures numbered { IfOk result
        (AreNumbered (lists_of offsets.now ends.now) component.new) }
    ensures refused { OnErr result (component.new ≡ component.old) }
{
    let graph = graph_of(alloc, offsets, ends, component.len())?;
    let found = strong_components(alloc, &graph)?;
    let (numbers, count) = numbers_of(alloc, &graph, &found)?;
    write_numbers(&found.roots, &numbers, count, component);
    Ok(count)
}

/// Writes into `component` the number of each node's component, and into `count` how many there are. They are
/// numbered from 0 on, so that an edge from one component to another leads to a lower number.
#[unsafe(no_mangle)]
pub extern "C" fn conthiral_components(
    alloc: Global,
    offsets: &[usize],
    ends: &[usize],
    component: &mut [usize],
    count: &mut usize,
) -> u8
    ensures status { TellsOrMemory (λ told. TellsRange told
        (AreOffsets (length component.old) offsets.now ends.now)
        (AreNodes (length component.old) ends.now)) result }
    ensures components { result ≡ 0
        → AreNumbered (lists_of offsets.now ends.now) component.new count.new }
    ensures refused { result ≢ 0
        → (component.new ≡ component.old) × (count.new ≡ count.old) }
{
    let status = status_of_graph(offsets, ends, component.len());
    if status != OK {
        return status;
    }
    let Ok(found) = number_nodes(alloc, offsets, ends, component) else {
        return MEMORY;
    };
    *count = found;
    OK
}
