//! Flow graphs whose nodes stand in a text.
ghost use Rattle.std.specs.Prelude.{◌≡◌, ◌<◌, ◌∷◌, ◌++◌, [], List, Some, length, map, slice_get, All, IfErr, IfOk, OnOk};
ghost use Rattle.files_text.specs.Words.{token_of};
ghost use Rattle.files_flow.specs.Flows.{IsFlowOf, names_for};
ghost use Rattle.files_flow.specs.FlowFaults.{IsUnread};
ghost use Rattle.files_flow.specs.Nodes.{Mention, mention_of};
ghost use Rattle.files_flow.specs.Numbering.{AreDistinct, AreSound, AreUnnumbered, HasMore, HaveSaid, IsEmpty, IsNone, IsUnnumbered, with_number, with_variable};

use crate::fault::FlowFault;
use crate::nodes::{Kind, Nodes, Use, read_nodes};
use files_text::{Names, Word};
use std::alloc::{AllocError, Global};
use vob_flow::live::Flow;

/// A flow graph, and the names of its nodes and of its variables. The first node is the entry.
#[derive(Drop)]
pub struct FlowGraph<'a> {
    pub names: Names<'a>,
    pub variables: Names<'a>,
    pub nodes: Vec<Flow>,
}

/// Adds a number to a list that doesn't have it.
fn add_new(numbers: &mut Vec<usize>, number: usize) -> Result<(), AllocError>
    ensures { OnOk result (numbers.new.items ≡ with_number numbers.old.items number) }
{
    if numbers.contains(&number) {
        return Ok(());
    }
    numbers.push(number)?;
    Ok(())
}

/// Adds a number to the list of a node for a kind of names.
fn add_to_flow(flow: &mut Flow, kind: Kind, number: usize) -> Result<(), AllocError>
    ensures { OnOk result (HasMore kind number flow.old flow.new) }
{
    match kind {
        Kind::Reads => add_new(&mut flow.reads, number),
        Kind::Writes => add_new(&mut flow.writes, number),
        Kind::Next => add_new(&mut flow.next, number),
    }
}

/// Returns nodes that read, write and lead to nothing.
fn empty_flows(alloc: Global, count: usize) -> Result<Vec<Flow>, AllocError>
    ensures count { IfOk result (λ made. length made.items ≡ count) }
    ensures empty { IfOk result (λ made. All IsEmpty made.items) }
{
    let mut nodes = Vec::new(alloc);
    for _ in 0..count {
        nodes.push(Flow {
            reads: Vec::new(alloc),
            writes: Vec::new(alloc),
            next: Vec::new(alloc),
        })?;
    }
    Ok(nodes)
}

/// Returns the number of the node with a name.
fn node_number(alloc: Global, names: &Names<'_>, name: &Word<'_>) -> Result<usize, FlowFault>
    ensures ok { IfOk result (λ number. slice_get names.now number ≡ Some name.now.text.now) }
    ensures err { IfErr result (IsNone names.now (token_of name.now)) }
{
    let Some(number) = names.find(name.text) else {
        return Err(FlowFault::NoNode {
            line: name.line,
            column: name.column,
            name: String::from_utf8_lossy(alloc, name.text)?,
        });
    };
    Ok(number)
}

/// Returns the number of a name that a node reads, writes or leads to. A new variable is added.
fn number_of<'a>(
    alloc: Global,
    names: &Names<'a>,
    variables: &mut Names<'a>,
    said: &Use<'a>,
) -> Result<usize, FlowFault>
    ensures ok { IfOk result (λ number. slice_get
        (names_for names.now variables.new said.now.kind) number ≡ Some said.now.name.text.now) }
    ensures variables { OnOk result (variables.new ≡ with_variable variables.old (mention_of said.now)) }
    ensures err { IfErr result (IsUnnumbered names.now (mention_of said.now)) }
{
    match said.kind {
        Kind::Reads | Kind::Writes => Ok(variables.number(said.name.text)?),
        Kind::Next => node_number(alloc, names, &said.name),
    }
}

/// Adds the number of a name to the lists of a node.
fn add_use<'a>(
    alloc: Global,
    names: &Names<'a>,
    variables: &mut Names<'a>,
    nodes: &mut [Flow],
    said: &Use<'a>,
) -> Result<(), FlowFault>
    requires { said.now.node < length nodes.old }
    ensures ok { OnOk result ((mentions : List Mention) → AreDistinct names.now
        → HaveSaid names.now variables.old nodes.old mentions
        → HaveSaid names.now variables.new nodes.new (mentions ++ mention_of said.now ∷ [])) }
    ensures err { IfErr result (IsUnnumbered names.now (mention_of said.now)) }
{
    let number = number_of(alloc, names, variables, said)?;
    add_to_flow(&mut nodes[said.node], said.kind, number)?;
    Ok(())
}

/// Makes the flow graph of nodes that were read. Fails at the first name to which a node leads and that
/// no node has.
fn link<'a>(alloc: Global, read: Nodes<'a>) -> Result<FlowGraph<'a>, FlowFault>
    requires { AreSound read.names (map mention_of read.uses.items) }
    ensures names { IfOk result (λ graph. graph.names ≡ read.entry.names) }
    ensures ok { IfOk result (λ graph. HaveSaid graph.names graph.variables graph.nodes.items
        (map mention_of read.entry.uses.items)) }
    ensures err { IfErr result (AreUnnumbered read.entry.names (map mention_of read.entry.uses.items)) }
{
    let mut variables = Names::new(alloc);
    let mut nodes = empty_flows(alloc, read.names.len())?;
    for number in 0..read.uses.len() {
        add_use(
            alloc,
            &read.names,
            &mut variables,
            &mut nodes,
            &read.uses[number],
        )?;
    }
    Ok(FlowGraph {
        names: read.names,
        variables,
        nodes,
    })
}

/// Reads a flow graph. A line is a node: its name, a colon, and parts that begin with `reads`,
/// `writes` or `next`, with `;` between them.
///
/// Fails at the first word that can't stand where it does, as a comma, or the name of a node that
/// another has. Fails then at the first name after `next` that no node has. Fails too if memory runs
/// out.
pub fn read_flow(alloc: Global, text: &[u8]) -> Result<FlowGraph<'_>, FlowFault>
    ensures ok { IfOk result (λ graph. IsFlowOf text.now graph) }
    ensures err { IfErr result (λ fault. IsUnread text.now fault) }
{
    let read = read_nodes(alloc, text)?;
    link(alloc, read)
}
