//! The expressions of a flow graph: what its nodes read.
ghost use Rattle.std.specs.Prelude.{◌≡◌, ◌↔◌, ◌<◌, ◌++◌, ◌∷◌, ℕ, true, List, [], cond, length, map, slice_index_or, Contains, IfOk, IsTrue, OnOk};
ghost use Rattle.std.specs.List.{AllZip, flat_map};
ghost use Rattle.vob_block.specs.Packing.{item};
ghost use Rattle.vob_rows.specs.Graph.{LeadToNodes};
ghost use Rattle.files_text.specs.Names.{IsNumbered, with_name};
ghost use Rattle.files_text.specs.Printed.{name_at};
ghost use Rattle.files_flow.specs.Expressions.{AreReachedBefore, AreTransposed, IsLasting, IsOwn, Meet, expression_label, expressions_of, reads_any};
ghost use Rattle.files_flow.specs.Available.{IsAvailableProblem, IsBusyProblem, after_of};
ghost use Rattle.files_flow.specs.Problems.{IsAddedTo, lists_of, next_of};

use crate::flow::FlowGraph;
use crate::problem::{Problem, add_to_each, empty_lists, graph_of, node_lists};
use files_text::Names;
use indexmap::IndexSet;
use std::alloc::{AllocError, AllocFailed, Global};
use std::marker::Model;
use vob::Vob;
use vob_flow::live::Flow;
use vob_flow::{Paths, reach};

/// Lists of variables that are read, each with its number. Contracts see the list of them.
#[derive(Drop)]
pub struct Expressions<'a> {
    lists: IndexSet<&'a [usize]>,
}

impl<'a> Model for Expressions<'a> {
    ghost use Rattle.std.specs.Prelude.{ℕ, List, map};

    ghost Value = { List (List ℕ) };

    ghost view = { λ set. map (λ list. list.now) set.lists.keys };
}

impl<'a> Expressions<'a> {
    /// Returns no expressions.
    fn new(alloc: Global) -> Expressions<'a>
        ensures { result ≡ [] }
    {
        Expressions {
            lists: IndexSet::new(alloc),
        }
    }

    /// Returns how many expressions there are.
    fn len(&self) -> usize
        ensures { result ≡ length self.now }
    {
        self.lists.len()
    }

    /// Returns the number of an expression, counted from 0. A new one is added as the last one. Fails
    /// if memory runs out.
    fn number(&mut self, list: &'a [usize]) -> Result<usize, AllocFailed<&'a [usize]>>
        ensures { IfOk result (λ number. IsNumbered self.old list.now number self.new) }
    {
        let (number, _) = self.lists.insert_full(list)?;
        Ok(number)
    }

    /// Returns the variables of the expression with a number, or none if there is none.
    fn list(&self, number: usize) -> &'a [usize]
        ensures { result.now ≡ name_at self.now number }
    {
        match self.lists.get_index(number) {
            Some(list) => *list,
            None => &[],
        }
    }
}

/// Returns the number of what a node reads, if it reads anything. A new expression is added.
fn own_of<'a>(
    alloc: Global,
    expressions: &mut Expressions<'a>,
    reads: &'a [usize],
) -> Result<Vec<usize>, AllocError>
    ensures own { IfOk result (λ own. IsOwn expressions.new reads.now own.items) }
    ensures added { OnOk result (expressions.new
        ≡ cond (reads_any reads.now) (with_name expressions.old reads.now) expressions.old) }
{
    let mut own = Vec::new(alloc);
    if reads.is_empty() {
        return Ok(own);
    }
    own.push(expressions.number(reads)?)?;
    Ok(own)
}

/// The expressions of nodes, and for each node the number of its own.
#[derive(Drop)]
struct Numbered<'a> {
    expressions: Expressions<'a>,
    own: Vec<Vec<usize>>,
}

/// Numbers the expressions of nodes.
fn number_all(alloc: Global, nodes: &[Flow]) -> Result<Numbered<'_>, AllocError>
    ensures all { IfOk result (λ made. made.expressions ≡ expressions_of nodes.now) }
    ensures own { IfOk result (λ made.
        AllZip (λ node. IsOwn made.expressions node.reads.items) nodes.now (lists_of made.own.items)) }
{
    let mut expressions = Expressions::new(alloc);
    let mut own = Vec::new(alloc);
    for node in 0..nodes.len() {
        own.push(own_of(alloc, &mut expressions, &nodes[node].reads)?)?;
    }
    Ok(Numbered { expressions, own })
}

/// Writes the names of variables to a label, a space before each.
fn add_names(label: &mut Vec<u8>, variables: &Names<'_>, others: &[usize]) -> Result<(), AllocError>
    ensures { OnOk result (label.new.items ≡ label.old.items
        ++ flat_map (λ variable. 32 ∷ name_at variables.now variable) others.now) }
{
    for variable in others {
        label.push(b' ')?;
        label.extend_from_slice(variables.name(*variable))?;
    }
    Ok(())
}

/// Returns how an expression is called: `(a b)` for one that reads a and b.
fn label_of(alloc: Global, variables: &Names<'_>, reads: &[usize]) -> Result<Vec<u8>, AllocError>
    ensures { IfOk result (λ label. label.items ≡ expression_label variables.now reads.now) }
{
    let Some((first, others)) = reads.split_first() else {
        return b"()".to_vec(alloc);
    };
    let mut label = b"(".to_vec(alloc)?;
    label.extend_from_slice(variables.name(*first))?;
    add_names(&mut label, variables, others)?;
    label.push(b')')?;
    Ok(label)
}

/// Returns how each expression is called.
fn expression_labels(
    alloc: Global,
    variables: &Names<'_>,
    expressions: &Expressions<'_>,
) -> Result<Vec<Vec<u8>>, AllocError>
    ensures { IfOk result (λ labels. lists_of labels.items ≡ map (expression_label variables.now) expressions.now) }
{
    let mut labels = Vec::new(alloc);
    for number in 0..expressions.len() {
        labels.push(label_of(alloc, variables, expressions.list(number))?)?;
    }
    Ok(labels)
}

/// Returns for each variable the expressions that read it.
fn readers_of(
    alloc: Global,
    variables: usize,
    expressions: &Expressions<'_>,
) -> Result<Vec<Vec<usize>>, AllocError>
    ensures { IfOk result (λ lists. AreTransposed variables expressions.now (lists_of lists.items)) }
{
    let mut lists = empty_lists(alloc, variables)?;
    for number in 0..expressions.len() {
        add_to_each(&mut lists, expressions.list(number), number)?;
    }
    Ok(lists)
}

/// Returns whether two lists have a number in common.
fn meet(some: &[usize], others: &[usize]) -> bool
    ensures { IsTrue result ↔ Meet some.now others.now }
{
    some.iter().any(|number| others.contains(number))
}

/// Returns the number of the expression of a node, unless the node writes a variable of it.
fn lasting_of(alloc: Global, own: &[usize], node: &Flow) -> Result<Vec<usize>, AllocError>
    ensures { IfOk result (λ lasting. (expressions : List (List ℕ)) → IsOwn expressions node.now.reads.items own.now
        → IsLasting expressions node.now lasting.items) }
{
    if meet(&node.writes, &node.reads) {
        return Ok(Vec::new(alloc));
    }
    Ok(own.to_vec(alloc)?)
}

/// Returns those for each node.
fn lasting(alloc: Global, own: &[Vec<usize>], nodes: &[Flow]) -> Result<Vec<Vec<usize>>, AllocError>
    requires { length own.now ≡ length nodes.now }
    ensures { IfOk result (λ lists. (expressions : List (List ℕ))
        → AllZip (λ node. IsOwn expressions node.reads.items) nodes.now (lists_of own.now)
        → AllZip (IsLasting expressions) nodes.now (lists_of lists.items)) }
{
    let mut lists = Vec::new(alloc);
    for node in 0..nodes.len() {
        lists.push(lasting_of(alloc, &own[node], &nodes[node])?)?;
    }
    Ok(lists)
}

/// Adds a number to the lists with some numbers if a node was reached.
fn add_if(
    is_reached: bool,
    lists: &mut [Vec<usize>],
    some: &[usize],
    number: usize,
) -> Result<(), AllocError>
    ensures { OnOk result (IsAddedTo (cond is_reached some.now []) number (lists_of lists.old) (lists_of lists.new)) }
{
    if is_reached {
        add_to_each(lists, some, number)?;
    }
    Ok(())
}

/// Returns whether a set has a node.
fn is_in(set: &Vob, node: usize) -> bool
    ensures { result ≡ item set.now.bits node }
{
    match set.get(node) {
        Some(bit) => bit,
        None => false,
    }
}

/// Returns for each node those of some that come before it.
fn chosen_before(alloc: Global, nodes: &[Flow], chosen: &Vob) -> Result<Vec<Vec<usize>>, AllocError>
    ensures { IfOk result (λ before. (length before.items ≡ length nodes.now) × ((n m : ℕ) → n < length nodes.now
        → Contains (slice_index_or (lists_of before.items) n []) m
        ↔ (Contains (next_of nodes.now m) n × (item chosen.now.bits m ≡ true)))) }
{
    let mut before = empty_lists(alloc, nodes.len())?;
    for number in 0..nodes.len() {
        add_if(
            is_in(chosen, number),
            &mut before,
            &nodes[number].next,
            number,
        )?;
    }
    Ok(before)
}

/// Returns for each node those that come before it and that a path from the entry reaches.
fn reached_before(alloc: Global, nodes: &[Flow]) -> Result<Vec<Vec<usize>>, AllocError>
    requires { LeadToNodes (map (λ node. node.next.items) nodes.now) (length nodes.now) }
    ensures { IfOk result (λ before. AreReachedBefore nodes.now (lists_of before.items)) }
{
    if nodes.is_empty() {
        return Ok(Vec::new(alloc));
    }
    let next = graph_of(alloc, &node_lists(alloc, nodes)?.next)?;
    let reached = reach(alloc, &next, &[0])?;
    let before = chosen_before(alloc, nodes, &reached)?;
    Ok(before)
}

/// Returns the nodes that come after one, or a border if there are none.
fn after_of(alloc: Global, next: &[usize], border: usize) -> Result<Vec<usize>, AllocError>
    ensures { IfOk result (λ after. after.items ≡ after_of border next.now) }
{
    if next.is_empty() {
        return Ok(vec![in alloc; border]?);
    }
    next.to_vec(alloc)
}

/// Returns those for each node, and none after the border.
fn nodes_after(alloc: Global, nodes: &[Flow], border: usize) -> Result<Vec<Vec<usize>>, AllocError>
    ensures { IfOk result (λ after. lists_of after.items
        ≡ map (λ node. after_of border node.next.items) nodes.now ++ [] ∷ []) }
{
    let mut after = Vec::new(alloc);
    for node in 0..nodes.len() {
        after.push(after_of(alloc, &nodes[node].next, border)?)?;
    }
    after.push(Vec::new(alloc))?;
    Ok(after)
}

/// Returns the problem of the expressions that were computed on all paths from the entry to a node. A
/// node computes what it reads, before it writes, and ends all that read what it writes. Nodes that
/// read the same variables in the same order share one.
pub fn available_problem(alloc: Global, graph: &FlowGraph<'_>) -> Result<Problem, AllocError>
    requires { LeadToNodes (map (λ node. node.next.items) graph.now.nodes.items) (length graph.now.nodes.items) }
    ensures { IfOk result (λ problem. IsAvailableProblem graph.now problem) }
{
    let made = number_all(alloc, &graph.nodes)?;
    Ok(Problem {
        paths: Paths::AllFrom(0),
        is_forward: true,
        labels: expression_labels(alloc, &graph.variables, &made.expressions)?,
        generates: lasting(alloc, &made.own, &graph.nodes)?,
        by_variable: readers_of(alloc, graph.variables.len(), &made.expressions)?,
        writes: node_lists(alloc, &graph.nodes)?.writes,
        from: reached_before(alloc, &graph.nodes)?,
    })
}

/// Adds an empty list.
fn add_empty(alloc: Global, lists: &mut Vec<Vec<usize>>) -> Result<(), AllocError>
    ensures { OnOk result (lists_of lists.new.items ≡ lists_of lists.old.items ++ [] ∷ []) }
{
    lists.push(Vec::new(alloc))?;
    Ok(())
}

/// Returns the problem of the expressions that will be computed on all paths from a node. After a node
/// with no next one comes a border, where there are none.
pub fn busy_problem(alloc: Global, graph: &FlowGraph<'_>) -> Result<Problem, AllocError>
    ensures { IfOk result (λ problem. IsBusyProblem graph.now problem) }
{
    let border = graph.nodes.len();
    let Numbered {
        expressions,
        own: mut generates,
    } = number_all(alloc, &graph.nodes)?;
    let mut writes = node_lists(alloc, &graph.nodes)?.writes;
    add_empty(alloc, &mut generates)?;
    add_empty(alloc, &mut writes)?;
    Ok(Problem {
        paths: Paths::AllFrom(border),
        is_forward: false,
        labels: expression_labels(alloc, &graph.variables, &expressions)?,
        generates,
        by_variable: readers_of(alloc, graph.variables.len(), &expressions)?,
        writes,
        from: nodes_after(alloc, &graph.nodes, border)?,
    })
}
