//! Why a text can't be read or written, and how that is said.

use std::alloc::{AllocError, AllocFailed};
use std::{fmt, io};

/// Why a text can't be read or written.
#[derive(Debug, Drop)]
pub enum Fault {
    /// There was no memory.
    Memory,
    /// The input can't be read.
    Input(io::Error),
    /// The output can't be written.
    Output(io::Error),
    /// A line isn't in its form: where, and what was expected there. The line and the column are
    /// counted from 1. A column is a byte of its line.
    Line {
        line: usize,
        column: usize,
        expected: &'static str,
    },
}

impl Fault {
    /// Returns whether the reader of the output went away, which is no fault of anybody.
    pub fn is_closed_pipe(&self) -> bool {
        match self {
            Fault::Output(error) => error.kind() == io::ErrorKind::BrokenPipe,
            _ => false,
        }
    }

    /// Writes what is wrong. `file` is what the file that was read is called. Fails if `f` does.
    pub fn write<W: fmt::Write>(&self, f: &mut fmt::Formatter<W>, file: &str) -> fmt::Result {
        match self {
            Fault::Memory => f.write_str("out of memory"),
            Fault::Input(error) => write!(f, "{file}: {error}"),
            Fault::Output(error) => write!(f, "standard output: {error}"),
            Fault::Line {
                line,
                column,
                expected,
            } => write!(f, "{file}:{line}:{column}: expected {expected}"),
        }
    }
}

impl From<AllocError> for Fault {
    ghost use Rattle.std.specs.Prelude.{◌≡◌};
    ghost use Rattle.files_text.specs.declared.fault.Fault.TheVariants.{Memory};

    ghost from_gives = { λ _ fault. fault ≡ Memory };

    fn from(_: AllocError) -> Fault {
        Fault::Memory
    }
}

impl<T: Drop> From<AllocFailed<T>> for Fault {
    ghost use Rattle.std.specs.Prelude.{◌≡◌};
    ghost use Rattle.files_text.specs.declared.fault.Fault.TheVariants.{Memory};

    ghost from_gives = { λ _ fault. fault ≡ Memory };

    fn from(_: AllocFailed<T>) -> Fault {
        Fault::Memory
    }
}

impl From<io::Error> for Fault {
    ghost use Rattle.std.specs.Prelude.{◌≡◌};
    ghost use Rattle.files_text.specs.declared.fault.Fault.TheVariants.{Output};

    ghost from_gives = { λ error fault. fault ≡ Output error };

    fn from(error: io::Error) -> Fault {
        Fault::Output(error)
    }
}
