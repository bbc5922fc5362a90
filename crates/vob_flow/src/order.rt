//! The order in which sets have their turns: those that a set draws from before it, where no cycle
//! leads back.
ghost use Rattle.std.specs.Prelude.{◌≡◌, ◌+◌, ◌<◌, ◌≤◌, ℕ, [], ◌∷◌, ◌++◌, true, false, length, slice_index_or, All, None, IfOk, IfSome, OnOk};
ghost use Rattle.vob.specs.Bits.{IsWritten};
ghost use Rattle.vob_block.specs.Packing.{item};
ghost use Rattle.vob_flow.specs.Order.{IsNextUnseen, IsPostorder, IsSearched, IsVisited, SeesMore, root_of, sets_of, steps_left, visit_of};
ghost use Rattle.vob_flow.specs.Turns.{IsOrder};

use std::alloc::{AllocError, Global};
use vob::Vob;
use vob_rows::Graph;

/// A set that waits until those that it draws from are in the order, and how many of them were
/// looked at.
#[derive(Clone, Copy)]
struct Visit {
    set: usize,
    looked: usize,
}

/// Returns the first of some sets, after those that were looked at, that wasn't seen, and how many
/// are looked at then.
fn next_unseen(from: &[usize], looked: usize, seen: &Vob) -> Option<Visit>
    requires { All (λ set. set < length seen.now.bits) from.now }
    ensures inside { IfSome result (λ next. next.set < length seen.now.bits) }
    ensures unseen { IfSome result (λ next. item seen.now.bits next.set ≡ false) }
    ensures next { IfSome result (IsNextUnseen from.now looked seen.now.bits) }
    ensures none { result ≡ None → (j : ℕ) → looked ≤ j → j < length from.now
        → item seen.now.bits (slice_index_or from.now j 0) ≡ true }
{
    for k in looked..from.len() {
        let set = from[k];
        if !seen.get_unchecked(set) {
            return Some(Visit { set, looked: k + 1 });
        }
    }
    None
}

/// Marks a set as seen, and lets it wait for those that it draws from.
fn enter(set: usize, seen: &mut Vob, stack: &mut Vec<Visit>) -> Result<(), AllocError>
    requires { set < length seen.old.bits }
    ensures seen { IsWritten seen.old.bits set true seen.new.bits }
    ensures stack { OnOk result (stack.new.items ≡ stack.old.items ++ visit_of set 0 ∷ []) }
{
    seen.set(set, true);
    stack.push(Visit { set, looked: 0 })?;
    Ok(())
}

/// Goes on with the set that waited last: to a set that it draws from, or into the order.
fn advance(
    top: Visit,
    graph: &Graph,
    seen: &mut Vob,
    stack: &mut Vec<Visit>,
    order: &mut Vec<usize>,
) -> Result<(), AllocError>
    requires visited { IsVisited (length graph.now) seen.old.bits
        (sets_of stack.old.items ++ top.set ∷ []) order.old.items }
    requires searched { IsSearched graph.now seen.old.bits (stack.old.items ++ top ∷ [])
        order.old.items }
    ensures visited { OnOk result (IsVisited (length graph.now) seen.new.bits
        (sets_of stack.new.items) order.new.items) }
    ensures searched { OnOk result (IsSearched graph.now seen.new.bits stack.new.items
        order.new.items) }
    ensures seen { OnOk result (SeesMore seen.old.bits seen.new.bits) }
    ensures fewer { OnOk result (steps_left seen.new.bits (sets_of stack.new.items)
        < steps_left seen.old.bits (sets_of stack.old.items) + 1) }
{
    let from = graph.next(top.set);
    if let Some(next) = next_unseen(from, top.looked, seen) {
        stack.push(Visit {
            set: top.set,
            looked: next.looked,
        })?;
        enter(next.set, seen, stack)?;
        Ok(())
    } else {
        order.push(top.set)?;
        Ok(())
    }
}

/// Puts a set and those that it draws from into the order, as far as they weren't seen.
fn order_from(
    root: usize,
    graph: &Graph,
    seen: &mut Vob,
    stack: &mut Vec<Visit>,
    order: &mut Vec<usize>,
) -> Result<(), AllocError>
    requires root { root < length graph.now }
    requires visited { IsVisited (length graph.now) seen.old.bits [] order.old.items }
    requires searched { IsSearched graph.now seen.old.bits [] order.old.items }
    requires empty { stack.old.items ≡ [] }
    ensures visited { OnOk result (IsVisited (length graph.now) seen.new.bits [] order.new.items) }
    ensures searched { OnOk result (IsSearched graph.now seen.new.bits [] order.new.items) }
    ensures empty { OnOk result (stack.new.items ≡ []) }
    ensures seen { OnOk result (SeesMore seen.old.bits seen.new.bits) }
    ensures root { OnOk result (item seen.new.bits root ≡ true) }
{
    if seen.get_unchecked(root) {
        return Ok(());
    }
    enter(root, seen, stack)?;
    'visits: while let Some(top) = stack.pop() {
        advance(top, graph, seen, stack, order)?;
    }
    Ok(())
}

/// How many of some numbers are below `end`.
fn count_below(numbers: &[usize], end: usize) -> usize {
    numbers.iter().filter(|number| **number < end).count()
}

/// Whether most draws are from sets with lower numbers, so that what is drawn flows up. An order then
/// begins at the last set, and else at the first: each set is right, but one that no path leads on from
/// lets a pass carry on furthest.
fn flows_up(graph: &Graph) -> bool {
    let mut below: usize = 0;
    let mut all: usize = 0;
    for set in 0..graph.nodes() {
        let from = graph.next(set);
        below = below.saturating_add(count_below(from, set));
        all = all.saturating_add(from.len());
    }
    below > all / 2
}

/// Returns the set from which the order goes on after `step` others: from the last one down, or from
/// the first one up.
fn root_at(from_last: bool, count: usize, step: usize) -> usize
    requires { step < count }
    ensures root { result ≡ root_of from_last count step }
    ensures inside { result < count }
{
    if from_last { count - 1 - step } else { step }
}

/// Returns an order that names each set once: those that a set draws from before it, where no cycle
/// leads back to it. Fails if memory runs out.
pub(crate) fn postorder(alloc: Global, graph: &Graph) -> Result<Vec<usize>, AllocError>
    ensures each_once { IfOk result (λ order. IsOrder (length graph.now) order.items) }
    ensures post { IfOk result (λ order. IsPostorder graph.now order.items) }
{
    let count = graph.nodes();
    let mut seen = Vob::from_elem(alloc, false, count)?;
    let mut stack = Vec::with_capacity(alloc, count)?;
    let mut order = Vec::with_capacity(alloc, count)?;
    let from_last = flows_up(graph);
    for step in 0..count {
        let root = root_at(from_last, count, step);
        order_from(root, graph, &mut seen, &mut stack, &mut order)?;
    }
    Ok(order)
}
