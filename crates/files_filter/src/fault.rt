//! Why no rows are written, and how that is said.

use files_condition::ConditionFault;
use files_text::Fault;
use std::alloc::{AllocError, AllocFailed};
use std::{fmt, io};

/// A cell that isn't a number: where it stands, the name of its column, and what it is.
#[derive(Debug, Drop)]
pub struct WrongCell {
    pub line: usize,
    pub column: usize,
    pub name: String,
    pub cell: String,
}

/// Why no rows are written. Lines and columns of a text are counted from 1.
#[derive(Debug, Drop)]
pub enum FilterFault {
    /// A text can't be read or written.
    Text(Fault),
    /// A condition isn't in its form: before which column of it, and what was expected there.
    Condition {
        column: usize,
        expected: &'static str,
    },
    /// A condition asks at a column of it about a name that no column of the table has. The names are
    /// those of the first ones.
    Column {
        column: usize,
        name: String,
        names: String,
    },
    /// No column of the table has a name that is selected. The names are those of the first ones.
    Selected {
        name: String,
        names: String,
    },
    /// A column without a name is to be written in JSON: its number among those written, from 1.
    Nameless {
        column: usize,
    },
    /// A second column has a name.
    Twice {
        line: usize,
        column: usize,
        name: String,
    },
    /// The row that begins on a line has a number of cells, and not as many as the header.
    Row {
        line: usize,
        cells: u64,
        header: u64,
    },
    /// A cell isn't a number.
    Cell(WrongCell),
    /// The rows of a table haven't the same length.
    Columns,
}

impl WrongCell {
    /// Writes what is wrong. `file` is what the file with the table is called. Fails if `f` does.
    fn write<W: fmt::Write>(&self, f: &mut fmt::Formatter<W>, file: &str) -> fmt::Result {
        let WrongCell {
            line,
            column,
            name,
            cell,
        } = self;
        write!(
            f,
            "{file}:{line}:{column}: expected a number in column {name}, found {cell}"
        )
    }
}

impl FilterFault {
    /// Writes what is wrong. `file` is what the file with the table is called. Fails if `f` does.
    pub fn write<W: fmt::Write>(&self, f: &mut fmt::Formatter<W>, file: &str) -> fmt::Result {
        match self {
            FilterFault::Text(fault) => fault.write(f, file),
            FilterFault::Condition { column, expected } => {
                write!(f, "the condition:{column}: expected {expected}")
            }
            FilterFault::Column {
                column,
                name,
                names,
            } => write!(
                f,
                "the condition:{column}: no column is called {name}; the columns are {names}"
            ),
            FilterFault::Selected { name, names } => {
                write!(f, "no column is called {name}; the columns are {names}")
            }
            FilterFault::Nameless { column } => {
                write!(f, "{file}: column {column} has no name, which JSON needs")
            }
            FilterFault::Twice { line, column, name } => {
                write!(
                    f,
                    "{file}:{line}:{column}: a second column is called {name}"
                )
            }
            FilterFault::Row {
                line,
                cells,
                header,
            } => write!(
                f,
                "{file}:{line}: expected {header} cells, as in the header, found {cells}"
            ),
            FilterFault::Cell(wrong) => wrong.write(f, file),
            FilterFault::Columns => write!(f, "{file}: the rows differ in length"),
        }
    }
}

impl From<ConditionFault> for FilterFault {
    ghost use Rattle.std.specs.Prelude.{◌≡◌};
    ghost use Rattle.files_filter.specs.FilterFaults.{fault_of};

    ghost from_gives = { λ given fault. fault ≡ fault_of given };

    fn from(fault: ConditionFault) -> FilterFault {
        match fault {
            ConditionFault::Memory => FilterFault::Text(Fault::Memory),
            ConditionFault::Word { column, expected } => FilterFault::Condition {
                column,
                expected,
            },
        }
    }
}

impl From<AllocError> for FilterFault {
    ghost use Rattle.std.specs.Prelude.{◌≡◌};
    ghost use Rattle.files_text.specs.declared.fault.Fault.TheVariants.{Memory};
    ghost use Rattle.files_filter.specs.declared.fault.FilterFault.TheVariants.{Text};

    ghost from_gives = { λ _ fault. fault ≡ Text Memory };

    fn from(_: AllocError) -> FilterFault {
        FilterFault::Text(Fault::Memory)
    }
}

impl<T: Drop> From<AllocFailed<T>> for FilterFault {
    ghost use Rattle.std.specs.Prelude.{◌≡◌};
    ghost use Rattle.files_text.specs.declared.fault.Fault.TheVariants.{Memory};
    ghost use Rattle.files_filter.specs.declared.fault.FilterFault.TheVariants.{Text};

    ghost from_gives = { λ _ fault. fault ≡ Text Memory };

    fn from(_: AllocFailed<T>) -> FilterFault {
        FilterFault::Text(Fault::Memory)
    }
}

impl From<io::Error> for FilterFault {
    ghost use Rattle.std.specs.Prelude.{◌≡◌};
    ghost use Rattle.files_text.specs.declared.fault.Fault.TheVariants.{Output};
    ghost use Rattle.files_filter.specs.declared.fault.FilterFault.TheVariants.{Text};

    ghost from_gives = { λ error fault. fault ≡ Text (Output error) };

    fn from(error: io::Error) -> FilterFault {
        FilterFault::Text(Fault::Output(error))
    }
}

/// What can go wrong as rows are written.
impl From<csv::Error> for FilterFault {
    ghost use Rattle.files_filter.specs.RowFaults.{IsOutputFault};

    ghost from_gives = { λ _ fault. IsOutputFault fault };

    fn from(error: csv::Error) -> FilterFault {
        match error.into_kind() {
            csv::ErrorKind::Io(error) if error.kind() == io::ErrorKind::OutOfMemory =>
                FilterFault::Text(Fault::Memory),
            csv::ErrorKind::Io(error) => FilterFault::Text(Fault::Output(error)),
            csv::ErrorKind::UnequalLengths { .. } => FilterFault::Columns,
            _ => FilterFault::Text(Fault::Memory),
        }
    }
}
