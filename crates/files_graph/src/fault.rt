//! Why no closure is written, and how that is said.

use files_text::Fault;
use std::alloc::AllocError;
use std::{fmt, io};

/// Why no closure is written.
#[derive(Debug, Drop)]
pub enum GraphFault {
    /// A text can't be read or written.
    Text(Fault),
    /// The graph has no node with this name.
    Name(String),
}

impl GraphFault {
    /// Writes what is wrong. `file` is what the file with the graph is called. Fails if `f` does.
    pub fn write<W: fmt::Write>(&self, f: &mut fmt::Formatter<W>, file: &str) -> fmt::Result {
        match self {
            GraphFault::Text(fault) => fault.write(f, file),
            GraphFault::Name(name) => write!(f, "{file}: no node is called {name}"),
        }
    }
}

impl From<Fault> for GraphFault {
    ghost use Rattle.std.specs.Prelude.{◌≡◌};
    ghost use Rattle.files_graph.specs.declared.fault.GraphFault.TheVariants.{Text};

    ghost from_gives = { λ fault result. result ≡ Text fault };

    fn from(fault: Fault) -> GraphFault {
        GraphFault::Text(fault)
    }
}

impl From<AllocError> for GraphFault {
    ghost use Rattle.std.specs.Prelude.{◌≡◌};
    ghost use Rattle.files_graph.specs.declared.fault.GraphFault.TheVariants.{Text};
    ghost use Rattle.files_text.specs.declared.fault.Fault.TheVariants.{Memory};

    ghost from_gives = { λ _ result. result ≡ Text Memory };

    fn from(_: AllocError) -> GraphFault {
        GraphFault::Text(Fault::Memory)
    }
}

impl From<io::Error> for GraphFault {
    ghost use Rattle.std.specs.Prelude.{◌≡◌};
    ghost use Rattle.files_graph.specs.declared.fault.GraphFault.TheVariants.{Text};
    ghost use Rattle.files_text.specs.declared.fault.Fault.TheVariants.{Output};

    ghost from_gives = { λ error result. result ≡ Text (Output error) };

    fn from(error: io::Error) -> GraphFault {
        GraphFault::Text(Fault::Output(error))
    }
}
