//! Whether a handle ends in a state, by what the contracts of `vob_lr` say.
ghost use Rattle.std.specs.Prelude.{◌≡◌, false, true, IfOk, Some};
ghost use Rattle.vob_lr.specs.Handles.{HasHandle};

use std::alloc::Global;
use vob_lr::{GrammarError, Lookaheads, laws, productive};

/// Returns whether a handle of a rule ends in a state with a terminal behind it, or `None` if some
/// nonterminal derives no tokens.
///
/// Fails if memory runs out.
pub fn has_handle(
    alloc: Global,
    found: &Lookaheads<'_>,
    state: usize,
    terminal: usize,
    rule: usize,
) -> Result<Option<bool>, GrammarError>
    ensures yes { IfOk result (λ answer. answer ≡ Some true
        → HasHandle found.now state terminal rule) }
    ensures no { IfOk result (λ answer. answer ≡ Some false
        → ¬ HasHandle found.now state terminal rule) }
{
    // A proof has the law and what it asks for by these calls.
    laws::reductions_are_of_handles();
    let _states = found.automaton();
    let set = productive(alloc, found.items().grammar())?;
    if !set.all() {
        return Ok(None);
    }
    Ok(Some(found.reduces(state, terminal, rule)))
}
