//! The closure of a graph: its edges, what one node leads to, and the fewest edges with the same
//! closure.
ghost use Rattle.std.specs.Prelude.{◌≡◌, ◌↔◌, ◌⊎◌, ℕ, true, length, slice_get, Some, Contains, IfErr, IfOk, OnOk};
ghost use Rattle.std.specs.List.{flat_map};
ghost use Rattle.std.specs.Io.KnownBytes.{Appends};
ghost use Rattle.vob_block.specs.Packing.{item};
ghost use Rattle.vob_flow.specs.Closure.{Leads};
ghost use Rattle.files_dot.specs.declared.notation.Notation.TheVariants.{Dot, Lines};
ghost use Rattle.files_text.specs.Printed.{Writes, members};
ghost use Rattle.files_text.specs.declared.fault.Fault.TheVariants.{Memory};
ghost use Rattle.files_graph.specs.Closures.{FailsBy, FailsOf, FailsOn, IsNamed, WritesPart, WritesPartOf};
ghost use Rattle.files_graph.specs.ClosureText.{ListsEdges, ListsNodes, ListsPart, edges_from, edges_of};
ghost use Rattle.files_graph.specs.GraphForms.{edge_item, edges_text, node_item, nodes_text};
ghost use Rattle.files_forms.specs.Forms.{first_of};
ghost use Rattle.files_graph.specs.declared.closure.Part.TheVariants.{Edges, Fewest, From};
ghost use Rattle.files_graph.specs.declared.fault.GraphFault.TheVariants.{Text};
ghost use Rattle.files_graph.specs.Reduction.{IsReduced};

use crate::fault::GraphFault;
use crate::form::{FormNames, GraphForm};
use crate::graph::{NamedGraph, read_lines, read_tokens};
use crate::reduction::reduction;
use files_dot::{Notation, dot_tokens, notation_of};
use std::alloc::{AllocError, Global};
use std::io;
use std::io::Write;
use vob::Vob;
use vob_flow::{closure, reach};
use vob_rows::{BitRows, Row};

/// What is printed of a closure.
#[derive(Clone, Copy)]
pub enum Part<'a> {
    /// Its edges.
    Edges,
    /// The nodes to which the node with a name leads.
    From(&'a str),
    /// The fewest edges that have the same closure.
    Fewest,
}

/// Returns the first edge that some sets stand for, or `None` if all are empty.
fn first_edge(sets: &BitRows) -> Option<(usize, usize)>
    ensures { result ≡ first_of (edges_of sets.now.rows 0 (length sets.now.rows)) }
{
    for from in 0..sets.rows() {
        if let Some(to) = sets.row(from).iter_set_bits(..).next() {
            return Some((from, to));
        }
    }
    None
}

/// Writes the edges from a node to those in a set.
fn put_edges<W: Write>(
    output: &mut W,
    names: &FormNames<'_>,
    first: Option<(usize, usize)>,
    from: usize,
    set: &Row<'_>,
) -> io::Result<()>
    ensures { OnOk result (Appends (W.contents output.old) (W.contents output.new)
        (flat_map (edge_item names.now.form names.now.names first) (edges_from from set.now))) }
{
    for node in set.iter_set_bits(..) {
        names.put_edge(output, first, from, node)?;
    }
    Ok(())
}

/// Writes the edges from each node to those in its set.
fn put_sets<W: Write>(
    output: &mut W,
    names: &FormNames<'_>,
    first: Option<(usize, usize)>,
    sets: &BitRows,
) -> io::Result<()>
    ensures { OnOk result (Appends (W.contents output.old) (W.contents output.new)
        (flat_map (edge_item names.now.form names.now.names first)
        (edges_of sets.now.rows 0 (length sets.now.rows)))) }
{
    for from in 0..sets.rows() {
        put_edges(output, names, first, from, &sets.row(from))?;
    }
    Ok(())
}

/// Writes the edges for which sets stand, in a form.
fn put_edge_sets<W: Write>(output: &mut W, names: &FormNames<'_>, sets: &BitRows) -> io::Result<()>
    ensures { OnOk result (Appends (W.contents output.old) (W.contents output.new)
        (edges_text names.now.form names.now.names
        (edges_of sets.now.rows 0 (length sets.now.rows)))) }
{
    let first = first_edge(sets);
    names.put_before_edges(output)?;
    put_sets(output, names, first, sets)?;
    names.put_tail(output)
}

/// Writes the nodes in a set.
fn put_nodes<W: Write>(
    output: &mut W,
    names: &FormNames<'_>,
    first: Option<usize>,
    set: &Vob,
) -> io::Result<()>
    ensures { OnOk result (Appends (W.contents output.old) (W.contents output.new)
        (flat_map (node_item names.now.form names.now.names first) (members set.now.bits))) }
{
    for node in set.iter_set_bits(..) {
        names.put_node(output, first, node)?;
    }
    Ok(())
}

/// Writes the nodes in a set, in a form.
fn put_node_set<W: Write>(output: &mut W, names: &FormNames<'_>, set: &Vob) -> io::Result<()>
    ensures { OnOk result (Appends (W.contents output.old) (W.contents output.new)
        (nodes_text names.now.form names.now.names (members set.now.bits))) }
{
    let first = set.iter_set_bits(..).next();
    names.put_nodes_head(output)?;
    put_nodes(output, names, first, set)?;
    names.put_tail(output)
}

/// Writes the edges of the closure of a graph. An edge of it stands for a path of one edge or more.
fn print_edges<W: Write>(
    alloc: Global,
    graph: &NamedGraph<'_>,
    form: Option<GraphForm>,
    output: &mut W,
) -> Result<(), GraphFault>
    ensures ok { OnOk result (Writes (W.contents output.old) (W.contents output.new)
        (ListsEdges form graph.now.names (Leads graph.now.next))) }
    ensures err { IfErr result (λ fault. FailsOn graph.now.names Edges fault
        (W.contents output.old) (W.contents output.new)) }
{
    let sets = closure(alloc, &graph.next)?;
    let names = FormNames::new(alloc, &graph.names, form)?;
    put_edge_sets(output, &names, &sets)?;
    Ok(())
}

/// Returns the fault of a name that no node has.
fn no_node(alloc: Global, name: &str) -> Result<GraphFault, AllocError>
    ensures { IfOk result (IsNamed name.now) }
{
    Ok(GraphFault::Name(String::from_str(alloc, name)?))
}

/// Returns the nodes to which a path of one edge or more leads from the node with a name.
fn nodes_from(alloc: Global, graph: &NamedGraph<'_>, from: &str) -> Result<Vob, GraphFault>
    requires { length graph.now.next ≡ length graph.now.names }
    ensures ok { IfOk result (λ set. (node : ℕ) × (slice_get graph.now.names node ≡ Some from.now)
        × ((n : ℕ) → (item set.bits n ≡ true) ↔ Leads graph.now.next node n)) }
    ensures err { IfErr result (λ fault. (fault ≡ Text Memory)
        ⊎ ((¬ Contains graph.now.names from.now) × IsNamed from.now fault)) }
{
    let Some(node) = graph.names.find(from.as_bytes()) else {
        return Err(no_node(alloc, from)?);
    };
    Ok(reach(alloc, &graph.next, graph.next.next(node))?)
}

/// Writes the nodes to which a path of one edge or more leads from the node with a name.
fn print_nodes<W: Write>(
    alloc: Global,
    graph: &NamedGraph<'_>,
    from: &str,
    form: Option<GraphForm>,
    output: &mut W,
) -> Result<(), GraphFault>
    requires { length graph.now.next ≡ length graph.now.names }
    ensures ok { OnOk result ((node : ℕ) × (slice_get graph.now.names node ≡ Some from.now)
        × Writes (W.contents output.old) (W.contents output.new) (ListsNodes form graph.now.names
        (Leads graph.now.next node))) }
    ensures err { IfErr result (λ fault. FailsOn graph.now.names (From from.entry) fault
        (W.contents output.old) (W.contents output.new)) }
{
    let nodes = nodes_from(alloc, graph, from)?;
    let names = FormNames::new(alloc, &graph.names, form)?;
    put_node_set(output, &names, &nodes)?;
    Ok(())
}

/// Writes some edges.
fn put_listed<W: Write>(
    output: &mut W,
    names: &FormNames<'_>,
    first: Option<(usize, usize)>,
    edges: &[(usize, usize)],
) -> io::Result<()>
    ensures { OnOk result (Appends (W.contents output.old) (W.contents output.new)
        (flat_map (edge_item names.now.form names.now.names first) edges.now)) }
{
    for (from, to) in edges {
        names.put_edge(output, first, *from, *to)?;
    }
    Ok(())
}

/// Returns the first of some edges, or `None` if there is none.
fn first_listed(edges: &[(usize, usize)]) -> Option<(usize, usize)>
    ensures { result ≡ first_of edges.now }
{
    match edges.first() {
        Some(edge) => Some(*edge),
        None => None,
    }
}

/// Writes some edges, in a form.
fn put_edge_list<W: Write>(
    output: &mut W,
    names: &FormNames<'_>,
    edges: &[(usize, usize)],
) -> io::Result<()>
    ensures { OnOk result (Appends (W.contents output.old) (W.contents output.new)
        (edges_text names.now.form names.now.names edges.now)) }
{
    names.put_before_edges(output)?;
    put_listed(output, names, first_listed(edges), edges)?;
    names.put_tail(output)
}

/// Writes the fewest edges that have the same closure as a graph.
fn print_fewest<W: Write>(
    alloc: Global,
    graph: &NamedGraph<'_>,
    form: Option<GraphForm>,
    output: &mut W,
) -> Result<(), GraphFault>
    ensures ok { OnOk result (Writes (W.contents output.old) (W.contents output.new)
        (ListsEdges form graph.now.names (IsReduced graph.now.next))) }
    ensures err { IfErr result (λ fault. FailsOn graph.now.names Fewest fault
        (W.contents output.old) (W.contents output.new)) }
{
    let edges = reduction(alloc, &graph.next)?;
    let names = FormNames::new(alloc, &graph.names, form)?;
    put_edge_list(output, &names, &edges)?;
    Ok(())
}

/// Writes a part of the closure of a graph.
fn print_part<W: Write>(
    alloc: Global,
    graph: &NamedGraph<'_>,
    part: Part<'_>,
    form: Option<GraphForm>,
    output: &mut W,
) -> Result<(), GraphFault>
    requires { length graph.now.next ≡ length graph.now.names }
    ensures ok { OnOk result (Writes (W.contents output.old) (W.contents output.new)
        (ListsPart form graph.now.names graph.now.next part.entry)) }
    ensures err { IfErr result (λ fault. FailsOn graph.now.names part.entry fault
        (W.contents output.old) (W.contents output.new)) }
{
    match part {
        Part::Edges => print_edges(alloc, graph, form, output),
        Part::From(from) => print_nodes(alloc, graph, from, form, output),
        Part::Fewest => print_fewest(alloc, graph, form, output),
    }
}

/// Reads a graph in lines, and writes a part of its closure.
fn print_lines<W: Write>(
    alloc: Global,
    text: &[u8],
    part: Part<'_>,
    form: Option<GraphForm>,
    output: &mut W,
) -> Result<(), GraphFault>
    ensures ok { OnOk result (WritesPartOf Lines text.now part.entry form (W.contents output.old)
        (W.contents output.new)) }
    ensures err { IfErr result (λ fault. FailsOf Lines text.now part.entry fault
        (W.contents output.old) (W.contents output.new)) }
{
    let graph = read_lines(alloc, text)?;
    print_part(alloc, &graph, part, form, output)?;
    Ok(())
}

/// Reads a graph in DOT, and writes a part of its closure.
fn print_dot<W: Write>(
    alloc: Global,
    text: &[u8],
    part: Part<'_>,
    form: Option<GraphForm>,
    output: &mut W,
) -> Result<(), GraphFault>
    ensures ok { OnOk result (WritesPartOf Dot text.now part.entry form (W.contents output.old)
        (W.contents output.new)) }
    ensures err { IfErr result (λ fault. FailsOf Dot text.now part.entry fault
        (W.contents output.old) (W.contents output.new)) }
{
    let tokens = dot_tokens(alloc, text)?;
    let graph = read_tokens(alloc, &tokens)?;
    print_part(alloc, &graph, part, form, output)?;
    Ok(())
}

/// Reads a graph in a notation, and writes a part of its closure.
fn print_in<W: Write>(
    alloc: Global,
    notation: Notation,
    text: &[u8],
    part: Part<'_>,
    form: Option<GraphForm>,
    output: &mut W,
) -> Result<(), GraphFault>
    ensures ok { OnOk result (WritesPartOf notation text.now part.entry form (W.contents output.old)
        (W.contents output.new)) }
    ensures err { IfErr result (λ fault. FailsOf notation text.now part.entry fault
        (W.contents output.old) (W.contents output.new)) }
{
    match notation {
        Notation::Lines => print_lines(alloc, text, part, form, output),
        Notation::Dot => print_dot(alloc, text, part, form, output),
    }
}

/// Reads a graph, and writes a part of its closure, as lines or in a form. The graph stands in the
/// notation that is said, or else in DOT if the text begins as a graph in DOT does. Returns the status,
/// 0. Equal texts give equal bytes.
///
/// Fails at the first line that isn't an edge, or at the first place where a text in DOT is no directed
/// graph, if the graph has no node with the name, or if memory runs out. Nothing is written then. Fails
/// too if the output can't be written.
pub fn print_closure<W: Write>(
    alloc: Global,
    text: &[u8],
    said: Option<Notation>,
    part: Part<'_>,
    form: Option<GraphForm>,
    output: &mut W,
) -> Result<u8, GraphFault>
    ensures status { IfOk result (λ status. status ≡ 0) }
    ensures ok { OnOk result (WritesPart said text.now part.entry form (W.contents output.old)
        (W.contents output.new)) }
    ensures err { IfErr result (λ fault. FailsBy said text.now part.entry fault
        (W.contents output.old) (W.contents output.new)) }
{
    let notation = notation_of(said, text);
    print_in(alloc, notation, text, part, form, output)?;
    Ok(0)
}
