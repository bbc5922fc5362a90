//! Dominators of a graph in DOT.
ghost use Rattle.std.specs.Prelude.{◌≡◌, ◌<◌, ℕ, List, true, length, Contains, IfErr, IfOk, OnOk};
ghost use Rattle.files_dot.specs.declared.notation.Notation.TheVariants.{Dot};
ghost use Rattle.files_flow.specs.Analyses.{FailsOf, IsOutputFault, can_read};
ghost use Rattle.files_flow.specs.DotFlows.{AreDominanceLines, AreFrom, ListsDominance, WritesDominance};
ghost use Rattle.files_flow.specs.FlowForms.{IsFramed};
ghost use Rattle.files_flow.specs.Problems.{lists_of};
ghost use Rattle.files_text.specs.Printed.{Writes};
ghost use Rattle.vob_rows.specs.Graph.{LeadToNodes};

use crate::analysis::Analysis;
use crate::dominance::{list_dominators, list_immediate};
use crate::fault::FlowFault;
use crate::form::{FlowForm, put_either};
use crate::problem::{add_to, empty_lists};
use crate::tree::list_tree;
use files_dot::{DotGraph, dot_tokens, read_dot};
use files_text::{Fault, Names};
use std::alloc::{AllocError, Global};
use std::io::Write;

/// Returns for each node those from which edges lead to it. Fails if memory runs out.
fn nodes_from(
    alloc: Global,
    count: usize,
    edges: &[(usize, usize)],
) -> Result<Vec<Vec<usize>>, AllocError>
    ensures { IfOk result (λ before. AreFrom count edges.now (lists_of before.items)) }
{
    let mut before = empty_lists(alloc, count)?;
    for number in 0..edges.len() {
        let (from, to) = edges[number];
        add_to(&mut before, to, from)?;
    }
    Ok(before)
}

/// Writes the lines of an analysis of dominators, given the nodes that come before each.
fn list_lines<W: Write>(
    alloc: Global,
    names: &Names<'_>,
    before: &[Vec<usize>],
    analysis: Analysis,
    json: bool,
    output: &mut W,
) -> Result<(), Fault>
    requires reads { can_read Dot analysis ≡ true }
    requires nodes { length before.now ≡ length names.now }
    requires edges { LeadToNodes (lists_of before.now) (length before.now) }
    ensures ok { OnOk result (Writes (W.contents output.old) (W.contents output.new)
        (AreDominanceLines analysis json (lists_of before.now) names.now)) }
    ensures err { IfErr result IsOutputFault }
{
    match analysis {
        Analysis::Dominators => list_dominators(alloc, names, before, json, output),
        Analysis::Immediate => list_immediate(alloc, names, before, json, output),
        // Others aren't asked for.
        _ => Ok(()),
    }
}

/// Writes them as lines or as JSON.
fn list_framed<W: Write>(
    alloc: Global,
    names: &Names<'_>,
    before: &[Vec<usize>],
    analysis: Analysis,
    json: bool,
    output: &mut W,
) -> Result<(), Fault>
    requires reads { can_read Dot analysis ≡ true }
    requires nodes { length before.now ≡ length names.now }
    requires edges { LeadToNodes (lists_of before.now) (length before.now) }
    ensures ok { OnOk result (Writes (W.contents output.old) (W.contents output.new)
        (IsFramed json (AreDominanceLines analysis json (lists_of before.now) names.now))) }
    ensures err { IfErr result IsOutputFault }
{
    put_either(output, json, b"{\"nodes\": [", b"")?;
    list_lines(alloc, names, before, analysis, json, output)?;
    put_either(output, json, b"\n]}\n", b"")?;
    Ok(())
}

/// Writes them in a form.
fn list_in<W: Write>(
    alloc: Global,
    names: &Names<'_>,
    before: &[Vec<usize>],
    analysis: Analysis,
    form: Option<FlowForm>,
    output: &mut W,
) -> Result<(), Fault>
    requires reads { can_read Dot analysis ≡ true }
    requires nodes { length before.now ≡ length names.now }
    requires edges { LeadToNodes (lists_of before.now) (length before.now) }
    ensures ok { OnOk result (Writes (W.contents output.old) (W.contents output.new)
        (ListsDominance analysis form (lists_of before.now) names.now)) }
    ensures err { IfErr result IsOutputFault }
{
    match form {
        None => list_framed(alloc, names, before, analysis, false, output),
        Some(FlowForm::Json) => list_framed(alloc, names, before, analysis, true, output),
        Some(FlowForm::Dot) => list_tree(alloc, names, before, output),
    }
}

/// Writes an analysis of the dominators of a graph that was read.
fn print_graph<W: Write>(
    alloc: Global,
    graph: &DotGraph<'_>,
    analysis: Analysis,
    form: Option<FlowForm>,
    output: &mut W,
) -> Result<(), Fault>
    requires reads { can_read Dot analysis ≡ true }
    requires inside { (n m : ℕ) → Contains graph.now.edges.items (n, m)
        → (n < length graph.now.names) × (m < length graph.now.names) }
    ensures ok { OnOk result ((before : List (List ℕ))
        × AreFrom (length graph.now.names) graph.now.edges.items before
        × Writes (W.contents output.old) (W.contents output.new)
        (ListsDominance analysis form before graph.now.names)) }
    ensures err { IfErr result IsOutputFault }
{
    let before = nodes_from(alloc, graph.names.len(), &graph.edges)?;
    list_in(alloc, &graph.names, &before, analysis, form, output)?;
    Ok(())
}

/// Reads a graph in DOT, and writes an analysis of its dominators. The first node is the entry.
pub(crate) fn print_dot<W: Write>(
    alloc: Global,
    text: &[u8],
    analysis: Analysis,
    form: Option<FlowForm>,
    output: &mut W,
) -> Result<(), FlowFault>
    requires { can_read Dot analysis ≡ true }
    ensures ok { OnOk result (WritesDominance text.now analysis form (W.contents output.old)
        (W.contents output.new)) }
    ensures err { IfErr result (λ fault. FailsOf Dot text.now analysis form fault
        (W.contents output.old) (W.contents output.new)) }
{
    let tokens = dot_tokens(alloc, text)?;
    let graph = read_dot(alloc, &tokens)?;
    print_graph(alloc, &graph, analysis, form, output)?;
    Ok(())
}
