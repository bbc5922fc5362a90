//! The symbols behind the dots of a set of items.
ghost use Rattle.std.specs.Prelude.{◌≡◌, ◌+◌, ◌≤◌, length, IfOk};
ghost use Rattle.vob_lr.specs.Expansions.{Gains};
ghost use Rattle.vob_lr.specs.Faults.{IsWellFormed};
ghost use Rattle.vob_lr.specs.Ahead.{AreAhead, HasAhead, number_of};

use crate::grammar::Symbol;
use crate::items::Items;
use std::alloc::{AllocError, Global};
use vob::Vob;

/// Returns the number of a symbol, where the terminals come first.
fn symbol_number(terminals: usize, symbol: Symbol) -> usize
    requires { number_of terminals symbol ≤ usize.MAX }
    ensures { result ≡ number_of terminals symbol }
{
    match symbol {
        Symbol::Terminal(terminal) => terminal,
        Symbol::Nonterminal(nonterminal) => terminals + nonterminal,
    }
}

/// Returns how many symbols a grammar has. Fails if no length counts them.
fn symbol_count(items: &Items<'_>) -> Result<usize, AllocError>
    ensures { IfOk result (λ count. count ≡ items.now.terminals + items.now.nonterminals) }
{
    let grammar = items.grammar();
    match grammar.terminals.checked_add(grammar.nonterminals) {
        Some(count) => Ok(count),
        None => Err(AllocError),
    }
}

/// Adds the number of the symbol behind the dot of an item, if there is one.
fn look(items: &Items<'_>, number: usize, ahead: &mut Vob)
    requires rules { IsWellFormed items.now }
    requires long { length ahead.old.bits ≡ items.now.terminals + items.now.nonterminals }
    ensures { Gains (HasAhead items.now number) ahead.old.bits ahead.new.bits }
{
    // The length is in the range of its type: a proof knows it from this read.
    let _len = ahead.len();
    match items.next(number) {
        None => {}
        Some(symbol) => {
            ahead.set(symbol_number(items.grammar().terminals, symbol), true);
        }
    }
}

/// Returns the numbers of the symbols behind the dots of some items, with a bit for each symbol.
pub(crate) fn ahead_of(alloc: Global, items: &Items<'_>, set: &[usize]) -> Result<Vob, AllocError>
    requires { IsWellFormed items.now }
    ensures { IfOk result (λ ahead. AreAhead items.now set.now ahead.bits) }
{
    let places = symbol_count(items)?;
    let mut ahead = Vob::from_elem(alloc, false, places)?;
    for place in 0..set.len() {
        look(items, set[place], &mut ahead);
    }
    Ok(ahead)
}
