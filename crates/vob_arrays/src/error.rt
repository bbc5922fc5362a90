//! Why tokens weren't parsed by arrays.

use std::alloc::AllocError;
use std::{error, fmt};
use vob_lr::ParseError;

/// Why some tokens weren't parsed by arrays.
#[derive(Clone, Copy, Debug, PartialEq, Eq)]
pub enum ArraysError {
    /// An action is by a rule that isn't there: the arrays are those of no table.
    NoTable,
    /// What stopped the parser that the arrays are of.
    Parse(ParseError),
}

impl fmt::Display for ArraysError {
    ghost use Rattle.std.specs.Prelude.{Some};
    ghost use Rattle.vob_arrays.specs.Drives.{arrays_error_text};

    ghost output = { λ error. Some (arrays_error_text error) };

    fn fmt<W: fmt::Write>(&self, f: &mut fmt::Formatter<W>) -> fmt::Result {
        match self {
            ArraysError::NoTable => f.write_str("the arrays are no table"),
            ArraysError::Parse(error) => write!(f, "{error}"),
        }
    }
}

impl error::Error for ArraysError {}

impl From<AllocError> for ArraysError {
    ghost use Rattle.std.specs.Prelude.{◌≡◌};
    ghost use Rattle.vob_lr.specs.declared.parse.ParseError.TheVariants.{Memory};
    ghost use Rattle.vob_arrays.specs.declared.error.ArraysError.TheVariants.{Parse};

    ghost from_gives = { λ _ refusal. refusal ≡ Parse Memory };

    fn from(_: AllocError) -> ArraysError {
        ArraysError::Parse(ParseError::Memory)
    }
}
