//! Why a call on a Vob was refused.
ghost use Rattle.vob.specs.declared.error.VobError.TheVariants.{Memory};

use std::alloc::AllocError;
use std::error::Error;
use std::fmt;

/// Why a call was refused. vob 4.0.1 panics in place of `TooLong`, ends the process in place of
/// `Memory`, and gives an empty Vob in place of `PastEnd`.
#[derive(Clone, Copy, Debug, PartialEq, Eq)]
pub enum VobError {
    /// The new length would exceed `usize::MAX`.
    TooLong,
    /// Memory ran out.
    Memory,
    /// An index was above the length. Only `split_off` fails so.
    PastEnd,
}

impl fmt::Display for VobError {
    ghost use Rattle.std.specs.Prelude.{Some};
    ghost use Rattle.vob.specs.Texts.{vob_error_text};

    ghost output = { λ error. Some (vob_error_text error) };

    fn fmt<W: fmt::Write>(&self, f: &mut fmt::Formatter<W>) -> fmt::Result {
        f.write_str(match self {
            VobError::TooLong => "the length would pass usize::MAX",
            VobError::Memory => "out of memory",
            VobError::PastEnd => "the index is past the end",
        })
    }
}

impl Error for VobError {}

impl VobError {
    ghost use Rattle.std.specs.Prelude.{◌≡◌};
    ghost use Rattle.vob.specs.Refusal.{refusal_number};

    /// Returns the number of the refusal: 1 for `TooLong`, 2 for `Memory`, 4 for `PastEnd`. The
    /// number 3 is for storage that isn't canonical, which is returned as it came.
    pub fn number(self) -> u8
        ensures { result ≡ refusal_number self }
    {
        match self {
            VobError::TooLong => 1,
            VobError::Memory => 2,
            VobError::PastEnd => 4,
        }
    }
}

impl From<AllocError> for VobError {
    ghost use Rattle.std.specs.Prelude.{◌≡◌};

    ghost from_gives = { λ _ refusal. refusal ≡ Memory };

    fn from(_: AllocError) -> VobError {
        VobError::Memory
    }
}

/// Why a call with indices failed.
#[derive(Clone, Copy, Debug, PartialEq, Eq)]
pub enum IndicesError {
    /// Memory ran out.
    Memory,
    /// An index was at or past the length.
    OutOfRange {
        /// Where the first such index stands among those given, counted from 0.
        position: usize,
    },
}

impl fmt::Display for IndicesError {
    ghost use Rattle.std.specs.Prelude.{Some};
    ghost use Rattle.vob.specs.Texts.{indices_error_text};

    ghost output = { λ error. Some (indices_error_text error) };

    fn fmt<W: fmt::Write>(&self, f: &mut fmt::Formatter<W>) -> fmt::Result {
        match self {
            IndicesError::Memory => f.write_str("out of memory"),
            IndicesError::OutOfRange { position } => {
                write!(
                    f,
                    "the index at position {position} is at or past the length"
                )
            }
        }
    }
}

impl Error for IndicesError {}

impl From<AllocError> for IndicesError {
    ghost use Rattle.std.specs.Prelude.{◌≡◌};
    ghost use Rattle.vob.specs.declared.error.IndicesError.TheVariants.{Memory};

    ghost from_gives = { λ _ refusal. refusal ≡ Memory };

    fn from(_: AllocError) -> IndicesError {
        IndicesError::Memory
    }
}
