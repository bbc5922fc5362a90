//! Whether tokens are a sentence, by what the contracts of `vob_lr` say.
ghost use Rattle.std.specs.Prelude.{◌≡◌, ◌↔◌, false, true, IfOk, Some};
ghost use Rattle.vob_lr.specs.Derivations.{IsSentence};

use std::alloc::{AllocError, Global};
use vob_lr::{ParseError, Table, laws};

/// Returns whether tokens are a sentence of a table's grammar, or `None` if the grammar isn't LALR(1).
///
/// Fails if memory runs out.
pub fn is_sentence(
    alloc: Global,
    table: &Table<'_>,
    tokens: &[usize],
) -> Result<Option<bool>, AllocError>
    ensures yes { IfOk result (λ answer. answer ≡ Some true
        → IsSentence table.now.machine.grammar.rules.items tokens.now) }
    ensures no { IfOk result (λ answer. answer ≡ Some false
        → ¬ IsSentence table.now.machine.grammar.rules.items tokens.now) }
{
    // A proof has the laws by these calls.
    laws::sentences_have_parses();
    laws::errors_are_early();
    laws::too_long_is_no_sentence();
    let _states = table.lookaheads();
    if !table.conflicts(alloc)?.is_empty() || !table.decided(alloc)?.is_empty() {
        return Ok(None);
    }
    let Some(error) = table.parse(alloc, tokens).err() else {
        return Ok(Some(true));
    };
    match error {
        ParseError::Memory => Err(AllocError),
        ParseError::Unexpected { at: _ } => Ok(Some(false)),
        ParseError::TooLong => Ok(Some(false)),
    }
}
