//! Why no analysis is written, and how that is said.

use files_text::Fault;
use std::alloc::{AllocError, AllocFailed};
use std::{fmt, io};

/// Why no analysis is written.
#[derive(Debug, Drop)]
pub enum FlowFault {
    /// A text can't be read or written.
    Text(Fault),
    /// No node has the name that stands at a line and a column after `next`.
    NoNode {
        line: usize,
        column: usize,
        name: String,
    },
    /// A second node has the name that stands at a line and a column.
    Twice {
        line: usize,
        column: usize,
        name: String,
    },
    /// A graph in DOT has no variables, so that dominators alone can be found in it.
    NoVariables,
    /// Immediate dominators alone are a tree, which can be written in DOT.
    NoTree,
}

impl FlowFault {
    /// Writes what is wrong. `file` is what the file with the flow graph is called. Fails if `f` does.
    pub fn write<W: fmt::Write>(&self, f: &mut fmt::Formatter<W>, file: &str) -> fmt::Result {
        match self {
            FlowFault::Text(fault) => fault.write(f, file),
            FlowFault::NoNode { line, column, name } => {
                write!(f, "{file}:{line}:{column}: no node is called {name}")
            }
            FlowFault::Twice { line, column, name } => {
                write!(f, "{file}:{line}:{column}: a second node is called {name}")
            }
            FlowFault::NoVariables => write!(
                f,
                "{file}: a graph in DOT has no variables: dominators and immediate alone read it"
            ),
            FlowFault::NoTree => {
                f.write_str("--output dot prints the tree of --analysis immediate alone")
            }
        }
    }
}

impl From<Fault> for FlowFault {
    ghost use Rattle.std.specs.Prelude.{◌≡◌};
    ghost use Rattle.files_flow.specs.declared.fault.FlowFault.TheVariants.{Text};

    ghost from_gives = { λ fault result. result ≡ Text fault };

    fn from(fault: Fault) -> FlowFault {
        FlowFault::Text(fault)
    }
}

impl From<AllocError> for FlowFault {
    ghost use Rattle.std.specs.Prelude.{◌≡◌};
    ghost use Rattle.files_flow.specs.declared.fault.FlowFault.TheVariants.{Text};
    ghost use Rattle.files_text.specs.declared.fault.Fault.TheVariants.{Memory};

    ghost from_gives = { λ _ result. result ≡ Text Memory };

    fn from(_: AllocError) -> FlowFault {
        FlowFault::Text(Fault::Memory)
    }
}

impl<T: Drop> From<AllocFailed<T>> for FlowFault {
    ghost use Rattle.std.specs.Prelude.{◌≡◌};
    ghost use Rattle.files_flow.specs.declared.fault.FlowFault.TheVariants.{Text};
    ghost use Rattle.files_text.specs.declared.fault.Fault.TheVariants.{Memory};

    ghost from_gives = { λ _ result. result ≡ Text Memory };

    fn from(_: AllocFailed<T>) -> FlowFault {
        FlowFault::Text(Fault::Memory)
    }
}

impl From<io::Error> for FlowFault {
    ghost use Rattle.std.specs.Prelude.{◌≡◌};
    ghost use Rattle.files_flow.specs.declared.fault.FlowFault.TheVariants.{Text};
    ghost use Rattle.files_text.specs.declared.fault.Fault.TheVariants.{Output};

    ghost from_gives = { λ error result. result ≡ Text (Output error) };

    fn from(error: io::Error) -> FlowFault {
        FlowFault::Text(Fault::Output(error))
    }
}
