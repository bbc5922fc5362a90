//! Why nothing is written of a grammar, and how that is said.

use files_text::Fault;
use std::alloc::{AllocError, AllocFailed};
use std::{fmt, io};
use vob_lr::GrammarError;
use vob_yacc::TextError;

/// Why nothing is written of a grammar, or of tokens that it is to derive.
#[derive(Debug, Drop)]
pub enum GrammarFault {
    /// A text can't be read or written. If it is read, it is that of the tokens.
    Text(Fault),
    /// The text is no grammar.
    Grammar(TextError),
    /// The sets of the grammar weren't found.
    Rules(GrammarError),
    /// A token, or the end, doesn't fit: the line and the column where it stands, counted from 1, what it
    /// is, and what would fit there.
    Token {
        line: usize,
        column: usize,
        name: String,
        expected: String,
    },
    /// A parser reduces without end before a token, or the end: the line and the column where it stands,
    /// counted from 1.
    Endless {
        line: usize,
        column: usize,
    },
}

impl GrammarFault {
    /// Returns whether the fault is in the grammar, and not in the tokens.
    pub fn is_of_grammar(&self) -> bool {
        matches!(self, GrammarFault::Grammar(_) | GrammarFault::Rules(_))
    }

    /// Writes what is wrong. `file` is what the file with the fault is called. Fails if `f` does.
    pub fn write<W: fmt::Write>(&self, f: &mut fmt::Formatter<W>, file: &str) -> fmt::Result {
        match self {
            GrammarFault::Text(fault) => fault.write(f, file),
            GrammarFault::Grammar(error) => write_grammar(f, file, error),
            GrammarFault::Rules(error) => write!(f, "{file}: {error}"),
            GrammarFault::Token {
                line,
                column,
                name,
                expected,
            } => {
                write!(f, "{file}:{line}:{column}: unexpected {name}")?;
                if expected.is_empty() {
                    return Ok(());
                }
                write!(f, "; expected {expected}")
            }
            GrammarFault::Endless { line, column } => write!(
                f,
                "{file}:{line}:{column}: a parser by this grammar reduces without end here"
            ),
        }
    }
}

/// Writes what is wrong with a grammar, and where.
fn write_grammar<W: fmt::Write>(
    f: &mut fmt::Formatter<W>,
    file: &str,
    error: &TextError,
) -> fmt::Result {
    let line = error.line;
    let column = error.column;
    let fault = error.fault;
    write!(f, "{file}:{line}:{column}: {fault}")
}

impl From<AllocError> for GrammarFault {
    ghost use Rattle.std.specs.Prelude.{◌≡◌};
    ghost use Rattle.files_text.specs.declared.fault.Fault.TheVariants.{Memory};
    ghost use Rattle.files_grammar.specs.declared.fault.GrammarFault.TheVariants.{Text};

    ghost from_gives = { λ _ result. result ≡ Text Memory };

    fn from(_: AllocError) -> GrammarFault {
        GrammarFault::Text(Fault::Memory)
    }
}

impl<T: Drop> From<AllocFailed<T>> for GrammarFault {
    ghost use Rattle.std.specs.Prelude.{◌≡◌};
    ghost use Rattle.files_text.specs.declared.fault.Fault.TheVariants.{Memory};
    ghost use Rattle.files_grammar.specs.declared.fault.GrammarFault.TheVariants.{Text};

    ghost from_gives = { λ _ result. result ≡ Text Memory };

    fn from(_: AllocFailed<T>) -> GrammarFault {
        GrammarFault::Text(Fault::Memory)
    }
}

impl From<io::Error> for GrammarFault {
    ghost use Rattle.std.specs.Prelude.{◌≡◌};
    ghost use Rattle.files_text.specs.declared.fault.Fault.TheVariants.{Output};
    ghost use Rattle.files_grammar.specs.declared.fault.GrammarFault.TheVariants.{Text};

    ghost from_gives = { λ error result. result ≡ Text (Output error) };

    fn from(error: io::Error) -> GrammarFault {
        GrammarFault::Text(Fault::Output(error))
    }
}

impl From<TextError> for GrammarFault {
    ghost use Rattle.std.specs.Prelude.{◌≡◌};
    ghost use Rattle.files_grammar.specs.declared.fault.GrammarFault.TheVariants.{Grammar};

    ghost from_gives = { λ error result. result ≡ Grammar error };

    fn from(error: TextError) -> GrammarFault {
        GrammarFault::Grammar(error)
    }
}

impl From<GrammarError> for GrammarFault {
    ghost use Rattle.std.specs.Prelude.{◌≡◌};
    ghost use Rattle.files_grammar.specs.GrammarFaults.{fault_of};

    ghost from_gives = { λ error result. result ≡ fault_of error };

    fn from(error: GrammarError) -> GrammarFault {
        match error {
            GrammarError::Memory => GrammarFault::Text(Fault::Memory),
            _ => GrammarFault::Rules(error),
        }
    }
}
