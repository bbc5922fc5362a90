//! The definitions of a flow graph: what its nodes write.
ghost use Rattle.std.specs.Prelude.{◌≡◌, ◌++◌, codes, map, IfOk, OnOk};
ghost use Rattle.files_flow.specs.Problems.{lists_of};
ghost use Rattle.files_flow.specs.Definitions.{AreGrouped, IsReachingProblem, definition_label, definitions_at, definitions_of};

use crate::flow::FlowGraph;
use crate::problem::{Problem, add_to, empty_lists, node_lists, nodes_before};
use files_text::Names;
use std::alloc::{AllocError, Global};
use vob_flow::Paths;
use vob_flow::live::Flow;

/// Adds a definition for each variable that a node writes.
fn add_writes(
    definitions: &mut Vec<(usize, usize)>,
    node: usize,
    writes: &[usize],
) -> Result<(), AllocError>
    ensures { OnOk result (definitions.new.items ≡ definitions.old.items ++ definitions_at node writes.now) }
{
    for variable in writes {
        definitions.push((node, *variable))?;
    }
    Ok(())
}

/// Returns the definitions of a flow graph, node by node: a node and a variable that it writes.
fn definitions_of(alloc: Global, nodes: &[Flow]) -> Result<Vec<(usize, usize)>, AllocError>
    ensures { IfOk result (λ made. made.items ≡ definitions_of nodes.now) }
{
    let mut definitions = Vec::new(alloc);
    for node in 0..nodes.len() {
        add_writes(&mut definitions, node, &nodes[node].writes)?;
    }
    Ok(definitions)
}

/// Returns for each node the numbers of its definitions.
fn by_node(
    alloc: Global,
    nodes: usize,
    definitions: &[(usize, usize)],
) -> Result<Vec<Vec<usize>>, AllocError>
    ensures { IfOk result (λ lists. AreGrouped nodes (map (λ made. made.0) definitions.now) (lists_of lists.items)) }
{
    let mut lists = empty_lists(alloc, nodes)?;
    for number in 0..definitions.len() {
        add_to(&mut lists, definitions[number].0, number)?;
    }
    Ok(lists)
}

/// Returns for each variable the numbers of its definitions.
fn by_variable(
    alloc: Global,
    variables: usize,
    definitions: &[(usize, usize)],
) -> Result<Vec<Vec<usize>>, AllocError>
    ensures { IfOk result (λ lists. AreGrouped variables (map (λ made. made.1) definitions.now) (lists_of lists.items)) }
{
    let mut lists = empty_lists(alloc, variables)?;
    for number in 0..definitions.len() {
        add_to(&mut lists, definitions[number].1, number)?;
    }
    Ok(lists)
}

/// Returns how a definition is called: `x@n` for what node n writes to x.
fn label_of(alloc: Global, variable: &[u8], node: &[u8]) -> Result<Vec<u8>, AllocError>
    ensures { IfOk result (λ label. label.items ≡ variable.now ++ codes "@" ++ node.now) }
{
    let mut label = variable.to_vec(alloc)?;
    label.push(b'@')?;
    label.extend_from_slice(node)?;
    Ok(label)
}

/// Returns how each definition is called.
fn labels(
    alloc: Global,
    names: &Names<'_>,
    variables: &Names<'_>,
    definitions: &[(usize, usize)],
) -> Result<Vec<Vec<u8>>, AllocError>
    ensures { IfOk result (λ labels. lists_of labels.items
        ≡ map (definition_label names.now variables.now) definitions.now) }
{
    let mut labels = Vec::new(alloc);
    for number in 0..definitions.len() {
        let (node, variable) = definitions[number];
        labels.push(label_of(alloc, variables.name(variable), names.name(node))?)?;
    }
    Ok(labels)
}

/// Returns the problem of the definitions that may still hold. A node makes those of what it writes,
/// and ends all others of these variables.
pub fn reaching_problem(alloc: Global, graph: &FlowGraph<'_>) -> Result<Problem, AllocError>
    ensures { IfOk result (λ problem. IsReachingProblem graph.now problem) }
{
    let definitions = definitions_of(alloc, &graph.nodes)?;
    Ok(Problem {
        paths: Paths::Some,
        is_forward: true,
        labels: labels(alloc, &graph.names, &graph.variables, &definitions)?,
        generates: by_node(alloc, graph.nodes.len(), &definitions)?,
        by_variable: by_variable(alloc, graph.variables.len(), &definitions)?,
        writes: node_lists(alloc, &graph.nodes)?.writes,
        from: nodes_before(alloc, &graph.nodes)?,
    })
}
