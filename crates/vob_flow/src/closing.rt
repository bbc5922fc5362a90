//! The transitive closure of a graph, one component after another.
ghost use Rattle.std.specs.Prelude.{◌≡◌, ◌⊎◌, ◌<◌, ℕ, length, All, Contains, IfOk, IsOk};
ghost use Rattle.vob_flow.specs.Changes.{EachGets, Gets};
ghost use Rattle.vob_flow.specs.Closing.{AreDrawn, IsDrawnBy};
ghost use Rattle.vob_flow.specs.Closure.{IsClosure};
ghost use Rattle.vob_flow.specs.Components.{AreComponents, component_of};
ghost use Rattle.vob_flow.specs.Draws.{IsIn};

use crate::components::{Components, strong_components};
use std::alloc::{AllocError, Global};
use vob_rows::{BitRows, Graph};

/// Adds to the set at a root what is at the roots of the other components that some nodes are in.
fn draw_others(sets: &mut BitRows, root: usize, ends: &[usize], roots: &[usize])
    requires root { root < length sets.old.rows }
    requires ends { All (λ end. end < length roots.now) ends.now }
    requires roots { All (λ other. other < length sets.old.rows) roots.now }
    ensures drawn { Gets sets.old.rows root (IsDrawnBy sets.old.rows roots.now root ends.now)
        sets.new.rows }
    ensures columns { sets.new.columns ≡ sets.old.columns }
{
    for end in ends {
        // Each set is as long as there are columns: a proof knows it from this call.
        let _columns = sets.columns();
        let other = roots[*end];
        if other != root {
            sets.or_row(root, other);
        }
    }
}

/// Adds to the set at the root of a node's component where the edges of the node lead, and what is at
/// the roots of other components that they lead to.
fn draw_ends(sets: &mut BitRows, root: usize, ends: &[usize], roots: &[usize])
    requires root { root < length sets.old.rows }
    requires columns { All (λ end. end < sets.old.columns) ends.now }
    requires ends { All (λ end. end < length roots.now) ends.now }
    requires roots { All (λ other. other < length sets.old.rows) roots.now }
    ensures drawn { Gets sets.old.rows root (λ v. Contains ends.now v
        ⊎ IsDrawnBy sets.old.rows roots.now root ends.now v) sets.new.rows }
    ensures columns { sets.new.columns ≡ sets.old.columns }
{
    sets.set_indices(root, ends);
    draw_others(sets, root, ends, roots);
}

/// Gives the set at the root of each component the nodes to which paths of one edge or more lead.
fn close_roots(sets: &mut BitRows, graph: &Graph, parts: &Components)
    requires parts { AreComponents graph.now parts.now }
    requires count { length sets.old.rows ≡ length graph.now }
    requires columns { sets.old.columns ≡ length graph.now }
    requires blank { (n m : ℕ) → ¬ IsIn sets.old.rows n m }
    ensures drawn { AreDrawn graph.now parts.now.roots.items parts.now.nodes.items
        (length parts.now.nodes.items) sets.new.rows }
    ensures count { length sets.new.rows ≡ length sets.old.rows }
    ensures columns { sets.new.columns ≡ sets.old.columns }
{
    // The ends of edges are nodes: a proof knows it from this call.
    let _nodes = graph.nodes();
    for k in 0..parts.nodes.len() {
        let node = parts.nodes[k];
        draw_ends(sets, parts.roots[node], graph.next(node), &parts.roots);
    }
}

/// Adds to each set the one at the root of its component.
fn spread(sets: &mut BitRows, roots: &[usize])
    requires count { length sets.old.rows ≡ length roots.now }
    requires inside { All (λ root. root < length roots.now) roots.now }
    requires roots { (n : ℕ) → n < length roots.now
        → component_of roots.now (component_of roots.now n) ≡ component_of roots.now n }
    ensures spread { EachGets sets.old.rows (λ n. IsIn sets.old.rows (component_of roots.now n))
        sets.new.rows (length roots.now) }
    ensures columns { sets.new.columns ≡ sets.old.columns }
{
    for node in 0..roots.len() {
        // Each set is as long as there are columns: a proof knows it from this call.
        let _columns = sets.columns();
        sets.or_row(node, roots[node]);
    }
}

/// Returns for each node the set of the nodes to which a path of one edge or more leads from it. Fails
/// if memory runs out; no nodes take none.
///
/// The nodes of a strongly connected component share a row until all rows are found. Each gets a copy
/// of it then.
pub fn closure(alloc: Global, next: &Graph) -> Result<BitRows, AllocError>
    ensures closure { IfOk result (λ sets. IsClosure next.now sets.rows) }
    ensures columns { IfOk result (λ sets. sets.columns ≡ length next.now) }
    ensures nothing { length next.now ≡ 0 → IsOk result }
{
    let count = next.nodes();
    let mut sets = BitRows::new(alloc, count, count)?;
    if count == 0 {
        return Ok(sets);
    }
    let parts = strong_components(alloc, next)?;
    close_roots(&mut sets, next, &parts);
    spread(&mut sets, &parts.roots);
    // Each set is as long as there are columns: a proof knows it from this call.
    let _columns = sets.columns();
    Ok(sets)
}
