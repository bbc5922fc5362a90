//! What a parser expects behind tokens.
ghost use Rattle.std.specs.Prelude.{◌≡◌, ℕ, Err, IfOk};
ghost use Rattle.vob_lr.specs.Expected.{Acts, AreExpected, AreTerminals};
ghost use Rattle.vob_lr.specs.Languages.{MoreThanSuffice};
ghost use Rattle.vob_lr.specs.Stops.{IsUnexpected};

use crate::parse::{ParseError, Run};
use crate::table::Table;
use std::alloc::{AllocError, Global};
use vob::Vob;

impl Table<'_> {
    /// Returns a bit for each terminal: whether an action stands in a state if it is ahead.
    fn acted(&self, alloc: Global, state: usize) -> Result<Vob, AllocError>
        ensures { IfOk result (λ set. AreTerminals self.now (Acts self.now state) set.bits) }
    {
        let terminals = self.lookaheads().items().grammar().terminals;
        let mut set = Vob::from_elem(alloc, false, terminals)?;
        for terminal in 0..terminals {
            set.set(terminal, self.chosen(state, terminal).is_some());
        }
        Ok(set)
    }

    /// Returns what a parser expects behind tokens: a bit for each terminal, and for the end at 0. It is
    /// true if an action stands in the state that the parser is in once it has read the tokens. So each
    /// terminal that can stand there is in the set, if the grammar is LALR(1): see `laws::expected_are_all`.
    /// Others may be, since states of LALR(1) share lookaheads.
    ///
    /// Behind the tokens before one that `parse` names, it tells what could stand there. Fails as `parse`
    /// does if the tokens don't begin a sentence.
    pub fn expected(&self, alloc: Global, tokens: &[usize]) -> Result<Vob, ParseError>
        ensures expected { IfOk result (λ set. AreExpected self.now tokens.now set.bits) }
        ensures unexpected { (n : ℕ) → result ≡ Err (ParseError.Unexpected n)
            → IsUnexpected self.now tokens.now n }
        ensures too_long { result ≡ Err ParseError.TooLong
            → MoreThanSuffice self.now tokens.now }
    {
        let reductions = self.most_reductions(tokens.len());
        match self.run_over(alloc, tokens, reductions) {
            Ok(run) => {
                let set = self.acted(alloc, run.state())?;
                Ok(set)
            }
            // So many rules don't fit in memory.
            Err(ParseError::TooLong) if reductions == usize::MAX => Err(ParseError::Memory),
            Err(error) => Err(error),
        }
    }
}
