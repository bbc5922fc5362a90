//! The states that a parser may enter, with the numbers that bison gives them.
ghost use Rattle.std.specs.Prelude.{◌≡◌, ◌↔◌, ℕ, ◌<◌, length, IfOk, Some};
ghost use Rattle.vob_lr.specs.Entered.{IsEntered};
ghost use Rattle.vob_lr.specs.Those.{AreThose};
ghost use Rattle.files_text.specs.Printed.{members};
ghost use Rattle.files_grammar.specs.ActionText.{HasNumber};

use std::alloc::{AllocError, Global};
use std::marker::Model;
use vob::Vob;
use vob_lr::Table;

/// The states that a parser may enter, in rising order. Each one's number is its place among them.
#[derive(Drop)]
pub struct States {
    entered: Vec<usize>,
}

impl Model for States {
    ghost use Rattle.std.specs.Prelude.{ℕ, ◌<◌, List, AllPairs};

    ghost Value = { List ℕ };

    ghost view = { λ states. states.entered.items };

    ghost invariant = { λ states. AllPairs (λ p q. p < q) states.entered.items };
}

/// Returns the members of a set, in rising order.
fn listed(alloc: Global, set: &Vob) -> Result<Vec<usize>, AllocError>
    ensures { IfOk result (λ list. list.items ≡ members set.now.bits) }
{
    let mut list = Vec::new(alloc);
    for member in set.iter_set_bits(..) {
        list.push(member)?;
    }
    Ok(list)
}

impl States {
    /// Numbers the states of a table. Fails if memory runs out.
    pub fn of(alloc: Global, table: &Table<'_>) -> Result<States, AllocError>
        ensures { IfOk result (AreThose (IsEntered table.now)) }
    {
        let set = table.entered(alloc)?;
        let entered = listed(alloc, &set)?;
        Ok(States { entered })
    }

    /// Returns how many states there are without the others.
    pub fn count(&self) -> usize
        ensures { result ≡ length self.now }
    {
        self.entered.len()
    }

    /// Returns the number of a state, or `None` if a parser doesn't enter it.
    pub fn number(&self, state: usize) -> Option<usize>
        ensures { (n : ℕ) → (result ≡ Some n) ↔ HasNumber self.now state n }
    {
        self.entered.binary_search(&state).ok()
    }

    /// Returns the state with a number, which must be one.
    pub fn state(&self, number: usize) -> usize
        requires { number < length self.now }
        ensures { HasNumber self.now result number }
    {
        self.entered[number]
    }
}
