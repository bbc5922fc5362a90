//! What the words of the command line ask for.

use crate::command::STANDARD_INPUT;
use crate::fault::Fault;
use clap::ArgMatches;
use files_code::Form;
use files_dot::Notation;
use files_filter::Shows;
use files_flow::{Analysis, FlowForm};
use files_graph::{GraphForm, Part};
use files_parse::TreeForm;
use files_report::ReportForm;

/// A form of a grammar for other programs.
#[derive(Clone, Copy)]
pub enum GrammarForm {
    /// A parser.
    Parser(Form),
    /// A report.
    Report(ReportForm),
}

/// How a table is read and written: what stands between cells, the names of the columns that are
/// written, with commas between, if not all are, and whether rows are objects of JSON.
#[derive(Clone, Copy)]
pub struct RowLayout<'a> {
    pub delimiter: u8,
    pub columns: Option<&'a str>,
    pub is_json: bool,
}

/// What the words ask for. Each task names the file that it reads.
#[derive(Clone, Copy)]
pub enum Task<'a> {
    /// The sets of a grammar, and its states if they are asked for; or the grammar in another form.
    Grammar {
        file: &'a str,
        states: bool,
        form: Option<GrammarForm>,
    },
    /// The derivation of the tokens in a file by a grammar in another, as its rules or as a tree.
    Parse {
        form: Option<TreeForm>,
        file: &'a str,
        grammar: &'a str,
    },
    /// A part of the closure of a graph.
    Closure {
        file: &'a str,
        said: Option<Notation>,
        part: Part<'a>,
        form: Option<GraphForm>,
    },
    /// An analysis of a flow graph.
    Flow {
        file: &'a str,
        said: Option<Notation>,
        analysis: Analysis,
        form: Option<FlowForm>,
    },
    /// The rows of a table of which a condition is true.
    Filter {
        file: &'a str,
        layout: RowLayout<'a>,
        condition: &'a str,
        shows: Shows,
    },
}

/// Returns the form in which a grammar is to be printed, if one is asked for.
fn form_of(matches: &ArgMatches<'_>) -> Option<GrammarForm> {
    let name = matches.get_str("output")?;
    match Form::of(name) {
        Some(form) => Some(GrammarForm::Parser(form)),
        None => Some(GrammarForm::Report(ReportForm::of(name)?)),
    }
}

/// Returns the form in which a tree is to be printed, if one is asked for.
fn tree_form_of(matches: &ArgMatches<'_>) -> Option<TreeForm> {
    TreeForm::of(matches.get_str("output")?)
}

/// Returns the notation in which a graph is said to stand, if any.
fn notation_of(matches: &ArgMatches<'_>) -> Option<Notation> {
    Notation::of(matches.get_str("input")?)
}

/// Returns the form in which a graph is to be printed, if one is asked for.
fn graph_form_of(matches: &ArgMatches<'_>) -> Option<GraphForm> {
    GraphForm::of(matches.get_str("output")?)
}

/// Returns the form in which an analysis is to be printed, if one is asked for.
fn flow_form_of(matches: &ArgMatches<'_>) -> Option<FlowForm> {
    FlowForm::of(matches.get_str("output")?)
}

/// Returns what of a closure is to be printed.
fn part_of<'a>(matches: &ArgMatches<'a>) -> Part<'a> {
    if matches.get_flag("reduce") {
        return Part::Fewest;
    }
    match matches.get_str("from") {
        Some(from) => Part::From(from),
        None => Part::Edges,
    }
}

/// Returns how a table is read and written.
fn layout_of<'a>(matches: &ArgMatches<'a>) -> RowLayout<'a> {
    let delimiter = match matches.get_str("delimiter") {
        Some("tab") => b'\t',
        Some(";") => b';',
        Some(":") => b':',
        Some("|") => b'|',
        _ => b',',
    };
    RowLayout {
        delimiter,
        columns: matches.get_str("select"),
        is_json: matches.get_str("output").is_some(),
    }
}

/// Returns what a filter is to print.
fn shows_of(matches: &ArgMatches<'_>) -> Shows {
    if matches.get_flag("quiet") {
        Shows::Nothing
    } else if matches.get_flag("count") {
        Shows::Count
    } else {
        page_of(matches)
    }
}

/// How many rows a page has, if that isn't said.
const PAGE_ROWS: usize = 20;

/// Returns which page is to be printed, or all rows.
fn page_of(matches: &ArgMatches<'_>) -> Shows {
    let number = matches.get_one::<usize>("page");
    let rows = matches.get_one::<usize>("page-size");
    if number.is_none() && rows.is_none() {
        return Shows::Rows;
    }
    Shows::Page {
        number: number.unwrap_or(1),
        rows: rows.unwrap_or(PAGE_ROWS),
    }
}

/// Returns what the words ask for, or `None` if they name no task.
pub fn task_of<'a>(matches: &ArgMatches<'a>) -> Option<Task<'a>> {
    let (name, own) = matches.subcommand()?;
    let file = own.get_str("file").unwrap_or(STANDARD_INPUT);
    match name {
        "grammar" => Some(Task::Grammar {
            file,
            states: own.get_flag("states"),
            form: form_of(own),
        }),
        "parse" => Some(Task::Parse {
            form: tree_form_of(own),
            file,
            grammar: own.get_str("grammar")?,
        }),
        "closure" => Some(Task::Closure {
            file,
            said: notation_of(own),
            part: part_of(own),
            form: graph_form_of(own),
        }),
        "flow" => Some(Task::Flow {
            file,
            said: notation_of(own),
            analysis: Analysis::of(own.get_str("analysis")?)?,
            form: flow_form_of(own),
        }),
        "filter" => Some(Task::Filter {
            file,
            layout: layout_of(own),
            condition: own.get_str("condition")?,
            shows: shows_of(own),
        }),
        _ => None,
    }
}

/// Returns what messages call a file.
pub fn shown_name(file: &str) -> &str {
    if file == STANDARD_INPUT {
        "standard input"
    } else {
        file
    }
}

impl<'a> Task<'a> {
    /// Returns what messages call the file with a fault.
    pub fn file_name(&self, fault: &Fault) -> &'a str {
        let file = match self {
            Task::Parse { grammar, .. } if fault.is_of_grammar() => return grammar,
            _ => self.file(),
        };
        shown_name(file)
    }

    /// Returns the name of the file that a fault is in.
    pub fn file_with(&self, fault: &Fault) -> &'a str {
        match self {
            Task::Parse { grammar, .. } if fault.is_of_grammar() => grammar,
            _ => self.file(),
        }
    }

    /// Returns the condition of `filter`.
    pub fn condition(&self) -> Option<&'a str> {
        match self {
            Task::Filter { condition, .. } => Some(condition),
            _ => None,
        }
    }

    /// Returns the name of the file that the task reads.
    pub fn file(&self) -> &'a str {
        match self {
            Task::Grammar { file, .. }
            | Task::Parse { file, .. }
            | Task::Closure { file, .. }
            | Task::Flow { file, .. }
            | Task::Filter { file, .. } => file,
        }
    }
}
