//! Why a text is no condition.

use std::alloc::{AllocError, AllocFailed};

/// Why a text is no condition.
#[derive(Debug, Drop)]
pub enum ConditionFault {
    /// There was no memory.
    Memory,
    /// A word can't stand where it does: at which column, counted from 1, and what was expected
    /// there.
    Word {
        column: usize,
        expected: &'static str,
    },
}

impl From<AllocError> for ConditionFault {
    ghost use Rattle.std.specs.Prelude.{◌≡◌};
    ghost use Rattle.files_condition.specs.declared.fault.ConditionFault.TheVariants.{Memory};

    ghost from_gives = { λ _ result. result ≡ Memory };

    fn from(_: AllocError) -> ConditionFault {
        ConditionFault::Memory
    }
}

impl<T: Drop> From<AllocFailed<T>> for ConditionFault {
    ghost use Rattle.std.specs.Prelude.{◌≡◌};
    ghost use Rattle.files_condition.specs.declared.fault.ConditionFault.TheVariants.{Memory};

    ghost from_gives = { λ _ result. result ≡ Memory };

    fn from(_: AllocFailed<T>) -> ConditionFault {
        ConditionFault::Memory
    }
}
