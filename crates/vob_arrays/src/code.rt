//! An action of a table as a number: 4 times the state or the rule, and what is done by it.
ghost use Rattle.std.specs.Prelude.{◌≡◌, ◌+◌, ◌*◌, ◌<◌, IfOk};

use std::alloc::AllocError;

/// Enters a state.
pub(crate) const ENTER: usize = 0;

/// Reduces by a rule.
pub(crate) const REDUCE: usize = 1;

/// Enters a state, or accepts if all tokens are read.
pub(crate) const ACCEPT: usize = 2;

/// Returns the number of an action. Fails if no `usize` is that number.
pub(crate) fn code_of(number: usize, kind: usize) -> Result<usize, AllocError>
    requires { kind < 4 }
    ensures { IfOk result (λ code. code ≡ 4 * number + kind) }
{
    if number >= usize::MAX / 4 {
        return Err(AllocError);
    }
    Ok(4 * number + kind)
}
