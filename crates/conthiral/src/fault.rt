//! Why a command fails, and how that is said.

use files_filter::FilterFault;
use files_flow::FlowFault;
use files_grammar::GrammarFault;
use files_graph::GraphFault;
use std::{fmt, io};

/// Why a command fails.
#[derive(Drop)]
pub enum Fault {
    /// A text can't be read or written.
    Text(files_text::Fault),
    /// The grammar file can't be read.
    GrammarInput(io::Error),
    /// `grammar` or `parse` fails.
    Grammar(GrammarFault),
    /// `closure` fails.
    Graph(GraphFault),
    /// `flow` fails.
    Flow(FlowFault),
    /// `filter` fails.
    Filter(FilterFault),
}

/// Returns the line and the column of a fault of a text, if it has a place.
fn place_of(fault: &files_text::Fault) -> Option<(usize, usize)> {
    match fault {
        files_text::Fault::Line { line, column, .. } => Some((*line, *column)),
        _ => None,
    }
}

impl Fault {
    /// Returns whether the fault is in a grammar file.
    pub fn is_of_grammar(&self) -> bool {
        match self {
            Fault::GrammarInput(_) => true,
            Fault::Grammar(fault) => fault.is_of_grammar(),
            _ => false,
        }
    }

    /// Returns the line and the column of the fault in the file that was read, if it has a place there.
    pub fn place(&self) -> Option<(usize, usize)> {
        match self {
            Fault::Text(fault)
            | Fault::Grammar(GrammarFault::Text(fault))
            | Fault::Graph(GraphFault::Text(fault))
            | Fault::Flow(FlowFault::Text(fault))
            | Fault::Filter(FilterFault::Text(fault)) => place_of(fault),
            Fault::Grammar(GrammarFault::Grammar(error)) => Some((error.line, error.column)),
            Fault::Filter(FilterFault::Cell(wrong)) => Some((wrong.line, wrong.column)),
            Fault::Grammar(GrammarFault::Token { line, column, .. })
            | Fault::Grammar(GrammarFault::Endless { line, column })
            | Fault::Flow(FlowFault::NoNode { line, column, .. })
            | Fault::Flow(FlowFault::Twice { line, column, .. })
            | Fault::Filter(FilterFault::Twice { line, column, .. }) => Some((*line, *column)),
            _ => None,
        }
    }

    /// Returns the column of the fault in the condition of `filter`, if it has a place there.
    pub fn column_of_condition(&self) -> Option<usize> {
        match self {
            Fault::Filter(FilterFault::Condition { column, .. })
            | Fault::Filter(FilterFault::Column { column, .. }) => Some(*column),
            _ => None,
        }
    }

    /// Returns whether the reader of the output went away, which is no fault of anybody.
    pub fn is_closed_pipe(&self) -> bool {
        match self {
            Fault::Text(fault)
            | Fault::Grammar(GrammarFault::Text(fault))
            | Fault::Graph(GraphFault::Text(fault))
            | Fault::Flow(FlowFault::Text(fault))
            | Fault::Filter(FilterFault::Text(fault)) => fault.is_closed_pipe(),
            _ => false,
        }
    }
}

impl From<files_text::Fault> for Fault {
    fn from(fault: files_text::Fault) -> Fault {
        Fault::Text(fault)
    }
}

impl From<io::Error> for Fault {
    fn from(error: io::Error) -> Fault {
        Fault::Text(files_text::Fault::Output(error))
    }
}

impl From<GrammarFault> for Fault {
    fn from(fault: GrammarFault) -> Fault {
        Fault::Grammar(fault)
    }
}

impl From<GraphFault> for Fault {
    fn from(fault: GraphFault) -> Fault {
        Fault::Graph(fault)
    }
}

impl From<FlowFault> for Fault {
    fn from(fault: FlowFault) -> Fault {
        Fault::Flow(fault)
    }
}

impl From<FilterFault> for Fault {
    fn from(fault: FilterFault) -> Fault {
        Fault::Filter(fault)
    }
}

/// A fault, with the name of the file that was read.
#[derive(Drop)]
pub struct Report<'a> {
    pub file: &'a str,
    pub fault: &'a Fault,
}

impl fmt::Display for Report<'_> {
    fn fmt<W: fmt::Write>(&self, f: &mut fmt::Formatter<W>) -> fmt::Result {
        let file = self.file;
        match self.fault {
            Fault::Text(fault) => fault.write(f, file),
            Fault::GrammarInput(error) => write!(f, "{file}: {error}"),
            Fault::Grammar(fault) => fault.write(f, file),
            Fault::Graph(fault) => fault.write(f, file),
            Fault::Flow(fault) => fault.write(f, file),
            Fault::Filter(fault) => fault.write(f, file),
        }
    }
}
