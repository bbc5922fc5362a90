//! What holds before and after each node of a flow graph.
ghost use Rattle.std.specs.Prelude.{◌≡◌, true, [], slice_index_or, IfErr, IfOk, OnOk};
ghost use Rattle.std.specs.Io.KnownBytes.{Appends};
ghost use Rattle.files_dot.specs.declared.notation.Notation.TheVariants.{Lines};
ghost use Rattle.files_text.specs.Printed.{Writes};
ghost use Rattle.files_flow.specs.Analyses.{FailsBy, FailsOf, IsOutputFault, ListsAnalysis, ListsIn, WritesAnalysis, WritesLines, WritesOf, can_read, can_write};
ghost use Rattle.files_flow.specs.Flows.{IsInRange};
ghost use Rattle.files_flow.specs.Problems.{IsSolved, IsSound, lists_of};
ghost use Rattle.files_flow.specs.FlowForms.{IsFramed, labels_text};
ghost use Rattle.files_flow.specs.FlowText.{ListsLive, ListsReaching, ListsSolution, set_text, sides_text};
ghost use Rattle.files_flow.specs.Available.{ListsAvailable, ListsBusy};

use crate::definitions::reaching_problem;
use crate::dominance::{print_dominators, print_immediate};
use crate::dot::print_dot;
use crate::expressions::{available_problem, busy_problem};
use crate::fault::FlowFault;
use crate::flow::{FlowGraph, read_flow};
use crate::form::{FlowForm, put_either, put_label, put_node_head};
use crate::problem::{Problem, graph_of, live_problem};
use crate::tree::print_tree;
use files_dot::{Notation, notation_of};
use files_forms::{first_of, is_first};
use files_text::{Fault, Names};
use std::alloc::{AllocError, Global};
use std::io::Write;
use vob_flow::{Lists, SparseSides, solve_lists};
use vob_rows::SparseRows;

/// An analysis of a flow graph.
#[derive(Clone, Copy, PartialEq, Eq)]
pub enum Analysis {
    /// The variables that may still be read.
    Live,
    /// The definitions that may still hold.
    Reaching,
    /// The expressions that were computed on all paths to here.
    Available,
    /// The expressions that will be computed on all paths from here.
    Busy,
    /// The nodes that all paths from the entry pass.
    Dominators,
    /// The nearest of them.
    Immediate,
}

/// The names of the analyses.
pub static ANALYSES: [&str; 6] = [
    "live",
    "reaching",
    "available",
    "busy",
    "dominators",
    "immediate",
];

impl Analysis {
    /// Returns the analysis with a name, one of `ANALYSES`, or `None` if there is none.
    pub fn of(name: &str) -> Option<Analysis> {
        match name {
            "live" => Some(Analysis::Live),
            "reaching" => Some(Analysis::Reaching),
            "available" => Some(Analysis::Available),
            "busy" => Some(Analysis::Busy),
            "dominators" => Some(Analysis::Dominators),
            "immediate" => Some(Analysis::Immediate),
            _ => None,
        }
    }
}

/// Solves a problem: returns the least sets that meet its equations, or the greatest ones if it asks
/// about all paths. Fails if memory runs out.
fn solve(alloc: Global, problem: &Problem) -> Result<SparseSides, AllocError>
    requires { IsSound problem.now }
    ensures { IfOk result (λ sides. IsSolved problem.now sides.near.rows sides.far.rows) }
{
    let from = graph_of(alloc, &problem.from)?;
    let lists = Lists {
        places: problem.labels.len(),
        generates: &problem.generates,
        by_variable: &problem.by_variable,
        writes: &problem.writes,
    };
    match solve_lists(alloc, &lists, &from, problem.paths) {
        Ok(sides) => Ok(sides),
        // The lists are those of nodes, places and variables.
        Err(_) => Err(AllocError),
    }
}

/// Returns the label of a place, or nothing if there is none.
fn label_at(labels: &[Vec<u8>], place: usize) -> &[u8]
    ensures { result.now ≡ slice_index_or (lists_of labels.now) place [] }
{
    match labels.get(place) {
        Some(label) => label,
        None => b"",
    }
}

/// Writes the labels of some places.
fn put_labels<W: Write>(
    alloc: Global,
    output: &mut W,
    json: bool,
    labels: &[Vec<u8>],
    places: &[usize],
) -> Result<(), Fault>
    ensures ok { OnOk result (Appends (W.contents output.old) (W.contents output.new)
        (labels_text json (lists_of labels.now) places.now)) }
    ensures err { IfErr result IsOutputFault }
{
    let first = first_of(places);
    for place in places {
        let is_first = is_first(first, *place);
        put_label(alloc, output, json, is_first, label_at(labels, *place))?;
    }
    Ok(())
}

/// Writes the labels of the places of a node, if it has any.
fn put_places<W: Write>(
    alloc: Global,
    output: &mut W,
    json: bool,
    labels: &[Vec<u8>],
    sets: &SparseRows,
    node: usize,
) -> Result<(), Fault>
    ensures ok { OnOk result (Appends (W.contents output.old) (W.contents output.new)
        (set_text json (lists_of labels.now) sets.now.rows node)) }
    ensures err { IfErr result IsOutputFault }
{
    if node < sets.rows() {
        let places = sets.members(alloc, node)?;
        put_labels(alloc, output, json, labels, &places)?;
    }
    Ok(())
}

/// Writes what holds before and after each node, a node a line.
fn put_sides<W: Write>(
    alloc: Global,
    output: &mut W,
    json: bool,
    names: &Names<'_>,
    labels: &[Vec<u8>],
    before: &SparseRows,
    after: &SparseRows,
) -> Result<(), Fault>
    ensures ok { OnOk result (Appends (W.contents output.old) (W.contents output.new)
        (sides_text json names.now (lists_of labels.now) before.now.rows after.now.rows)) }
    ensures err { IfErr result IsOutputFault }
{
    for node in 0..names.len() {
        put_node_head(alloc, output, json, names, node)?;
        put_either(output, json, b",\"before\":[", b": before")?;
        put_places(alloc, output, json, labels, before, node)?;
        put_either(output, json, b"],\"after\":[", b"; after")?;
        put_places(alloc, output, json, labels, after, node)?;
        put_either(output, json, b"]}", b"\n")?;
    }
    Ok(())
}

/// Writes the solution of a problem before and after each node with a name.
fn print_solution<W: Write>(
    alloc: Global,
    names: &Names<'_>,
    problem: &Problem,
    json: bool,
    output: &mut W,
) -> Result<(), Fault>
    requires { IsSound problem.now }
    ensures ok { OnOk result (Writes (W.contents output.old) (W.contents output.new)
        (ListsSolution json names.now problem.now)) }
    ensures err { IfErr result IsOutputFault }
{
    let sides = solve(alloc, problem)?;
    if problem.is_forward {
        put_sides(
            alloc,
            output,
            json,
            names,
            &problem.labels,
            &sides.near,
            &sides.far,
        )?;
        return Ok(());
    }
    put_sides(
        alloc,
        output,
        json,
        names,
        &problem.labels,
        &sides.far,
        &sides.near,
    )?;
    Ok(())
}

/// Writes the variables that may still be read before and after each node.
fn print_live<W: Write>(
    alloc: Global,
    graph: &FlowGraph<'_>,
    json: bool,
    output: &mut W,
) -> Result<(), Fault>
    requires { IsInRange graph.now }
    ensures ok { OnOk result (Writes (W.contents output.old) (W.contents output.new)
        (ListsLive json graph.now)) }
    ensures err { IfErr result IsOutputFault }
{
    let problem = live_problem(alloc, graph)?;
    print_solution(alloc, &graph.names, &problem, json, output)?;
    Ok(())
}

/// Writes the definitions that may still hold before and after each node.
fn print_reaching<W: Write>(
    alloc: Global,
    graph: &FlowGraph<'_>,
    json: bool,
    output: &mut W,
) -> Result<(), Fault>
    requires { IsInRange graph.now }
    ensures ok { OnOk result (Writes (W.contents output.old) (W.contents output.new)
        (ListsReaching json graph.now)) }
    ensures err { IfErr result IsOutputFault }
{
    let problem = reaching_problem(alloc, graph)?;
    print_solution(alloc, &graph.names, &problem, json, output)?;
    Ok(())
}

/// Writes the expressions that were computed on all paths from the entry before and after each node.
fn print_available<W: Write>(
    alloc: Global,
    graph: &FlowGraph<'_>,
    json: bool,
    output: &mut W,
) -> Result<(), Fault>
    requires { IsInRange graph.now }
    ensures ok { OnOk result (Writes (W.contents output.old) (W.contents output.new)
        (ListsAvailable json graph.now)) }
    ensures err { IfErr result IsOutputFault }
{
    let problem = available_problem(alloc, graph)?;
    print_solution(alloc, &graph.names, &problem, json, output)?;
    Ok(())
}

/// Writes the expressions that will be computed on all paths before and after each node.
fn print_busy<W: Write>(
    alloc: Global,
    graph: &FlowGraph<'_>,
    json: bool,
    output: &mut W,
) -> Result<(), Fault>
    requires { IsInRange graph.now }
    ensures ok { OnOk result (Writes (W.contents output.old) (W.contents output.new)
        (ListsBusy json graph.now)) }
    ensures err { IfErr result IsOutputFault }
{
    let problem = busy_problem(alloc, graph)?;
    print_solution(alloc, &graph.names, &problem, json, output)?;
    Ok(())
}

/// Writes what an analysis finds at each node.
fn print_analysis<W: Write>(
    alloc: Global,
    graph: &FlowGraph<'_>,
    analysis: Analysis,
    json: bool,
    output: &mut W,
) -> Result<(), Fault>
    requires { IsInRange graph.now }
    ensures ok { OnOk result (Writes (W.contents output.old) (W.contents output.new)
        (ListsAnalysis analysis json graph.now)) }
    ensures err { IfErr result IsOutputFault }
{
    match analysis {
        Analysis::Live => print_live(alloc, graph, json, output),
        Analysis::Reaching => print_reaching(alloc, graph, json, output),
        Analysis::Available => print_available(alloc, graph, json, output),
        Analysis::Busy => print_busy(alloc, graph, json, output),
        Analysis::Dominators => print_dominators(alloc, graph, json, output),
        Analysis::Immediate => print_immediate(alloc, graph, json, output),
    }
}

/// Writes what an analysis finds at each node, as lines or as JSON.
fn print_framed<W: Write>(
    alloc: Global,
    graph: &FlowGraph<'_>,
    analysis: Analysis,
    json: bool,
    output: &mut W,
) -> Result<(), Fault>
    requires { IsInRange graph.now }
    ensures ok { OnOk result (Writes (W.contents output.old) (W.contents output.new)
        (IsFramed json (ListsAnalysis analysis json graph.now))) }
    ensures err { IfErr result IsOutputFault }
{
    put_either(output, json, b"{\"nodes\": [", b"")?;
    print_analysis(alloc, graph, analysis, json, output)?;
    put_either(output, json, b"\n]}\n", b"")?;
    Ok(())
}

/// Writes what an analysis finds, in a form: in DOT the tree of dominators.
fn print_listed<W: Write>(
    alloc: Global,
    graph: &FlowGraph<'_>,
    analysis: Analysis,
    form: Option<FlowForm>,
    output: &mut W,
) -> Result<(), Fault>
    requires { IsInRange graph.now }
    ensures ok { OnOk result (Writes (W.contents output.old) (W.contents output.new)
        (ListsIn analysis form graph.now)) }
    ensures err { IfErr result IsOutputFault }
{
    match form {
        None => print_framed(alloc, graph, analysis, false, output),
        Some(FlowForm::Json) => print_framed(alloc, graph, analysis, true, output),
        Some(FlowForm::Dot) => print_tree(alloc, graph, output),
    }
}

/// Reads a flow graph in lines, and writes what an analysis finds.
fn print_lines<W: Write>(
    alloc: Global,
    text: &[u8],
    analysis: Analysis,
    form: Option<FlowForm>,
    output: &mut W,
) -> Result<(), FlowFault>
    ensures ok { OnOk result
        (WritesLines text.now analysis form (W.contents output.old) (W.contents output.new)) }
    ensures err { IfErr result (λ fault. FailsOf Lines text.now analysis form fault
        (W.contents output.old) (W.contents output.new)) }
{
    let graph = read_flow(alloc, text)?;
    print_listed(alloc, &graph, analysis, form, output)?;
    Ok(())
}

/// Returns whether a text in a notation can be analysed.
fn can_read(notation: Notation, analysis: Analysis) -> bool
    ensures { result ≡ can_read notation analysis }
{
    match notation {
        Notation::Lines => true,
        Notation::Dot => match analysis {
            Analysis::Dominators | Analysis::Immediate => true,
            _ => false,
        },
    }
}

/// Returns whether an analysis can be written in a form.
fn can_write(analysis: Analysis, form: Option<FlowForm>) -> bool
    ensures { result ≡ can_write analysis form }
{
    match form {
        Some(FlowForm::Dot) => match analysis {
            Analysis::Immediate => true,
            _ => false,
        },
        _ => true,
    }
}

/// Reads a flow graph in a notation, and writes what an analysis finds, in a form.
fn print_in<W: Write>(
    alloc: Global,
    notation: Notation,
    text: &[u8],
    analysis: Analysis,
    form: Option<FlowForm>,
    output: &mut W,
) -> Result<(), FlowFault>
    requires { can_read notation analysis ≡ true }
    ensures ok { OnOk result (WritesOf notation text.now analysis form (W.contents output.old)
        (W.contents output.new)) }
    ensures err { IfErr result (λ fault. FailsOf notation text.now analysis form fault
        (W.contents output.old) (W.contents output.new)) }
{
    match notation {
        Notation::Lines => print_lines(alloc, text, analysis, form, output),
        Notation::Dot => print_dot(alloc, text, analysis, form, output),
    }
}

/// Reads a flow graph, and writes what an analysis finds at each node, as lines or in a form: in DOT
/// the tree of immediate dominators. The flow graph stands in the notation that is said, or else in DOT
/// if the text begins as a graph in DOT does. Returns the status, 0. Equal texts give equal bytes.
///
/// Fails if a graph in DOT is to be analysed for its variables, or if another analysis than immediate
/// dominators is to be written in DOT. Fails at the first word of lines that can't stand where it does,
/// or else at the first name to which a node leads that no node has; or at the first place where a text
/// in DOT is no directed graph. Nothing is written then. Fails too if memory runs out, or if the output
/// can't be written.
pub fn print_flow<W: Write>(
    alloc: Global,
    text: &[u8],
    said: Option<Notation>,
    analysis: Analysis,
    form: Option<FlowForm>,
    output: &mut W,
) -> Result<u8, FlowFault>
    ensures status { IfOk result (λ status. status ≡ 0) }
    ensures ok { OnOk result (WritesAnalysis said text.now analysis form (W.contents output.old)
        (W.contents output.new)) }
    ensures err { IfErr result (λ fault. FailsBy said text.now analysis form fault
        (W.contents output.old) (W.contents output.new)) }
{
    let notation = notation_of(said, text);
    if !can_read(notation, analysis) {
        return Err(FlowFault::NoVariables);
    }
    if !can_write(analysis, form) {
        return Err(FlowFault::NoTree);
    }
    print_in(alloc, notation, text, analysis, form, output)?;
    Ok(0)
}
