//! Tables of parsers as arrays of numbers.
ghost use Rattle.std.specs.Prelude.{◌≡◌, ◌↔◌, ℕ, ◌+◌, slice_get, IfNone, IfSome, IsTrue, Some};
ghost use Rattle.vob_lr.specs.Accepting.{Accepts};
ghost use Rattle.vob_lr.specs.Lookaheads.{HasMove};
ghost use Rattle.vob_lr.specs.Tables.{TableView, chosen_at};
ghost use Rattle.vob_lr.specs.declared.grammar.Symbol.TheVariants.{Nonterminal};
ghost use Rattle.vob_arrays.specs.Arrays.{HasEntry, IsActionAt, IsTableOf, owned_view};

use crate::code::{ACCEPT, REDUCE};
use std::marker::Model;
use vob_lr::Action;

/// A table of a parser as arrays that another owns. A contract sees the arrays.
///
/// Terminals have their numbers as symbols, and nonterminal n is symbol `terminals + n`. An action is
/// four times a number, and 0, 1 or 2: it enters the state with the number, reduces by the rule, or
/// enters the state but accepts if all tokens are read.
#[derive(Drop)]
pub struct Arrays<'a> {
    terminals: usize,
    offsets: &'a [usize],
    symbols: &'a [usize],
    actions: &'a [usize],
    left: &'a [usize],
    lengths: &'a [usize],
}

impl<'a> Model for Arrays<'a> {
    ghost use Rattle.vob_arrays.specs.Views.{TableArrays};

    ghost Value = { TableArrays };

    ghost view = { λ a. record {
      terminals = a.terminals;
      offsets = a.offsets.now;
      symbols = a.symbols.now;
      actions = a.actions.now;
      left = a.left.now;
      lengths = a.lengths.now;
    } };
}

/// A table of a parser as arrays of numbers.
#[derive(Drop)]
pub struct OwnedArrays {
    /// How many terminals there are.
    pub terminals: usize,
    /// Where the entries of each state begin among all, and where the last ones end.
    pub offsets: Vec<usize>,
    /// The symbol of each entry: terminals have their numbers, and nonterminals come after them.
    pub symbols: Vec<usize>,
    /// What is done at each entry.
    pub actions: Vec<usize>,
    /// The symbol of each rule's left side.
    pub left: Vec<usize>,
    /// The number of symbols on each rule's right side.
    pub lengths: Vec<usize>,
    /// The symbols on the right sides of all rules, rule by rule. A parser needs none of them.
    pub right: Vec<usize>,
}

impl OwnedArrays {
    /// Returns the arrays, lent.
    pub fn arrays(&self) -> Arrays<'_>
        ensures { result ≡ owned_view self.now }
    {
        Arrays::new(
            self.terminals,
            &self.offsets,
            &self.symbols,
            &self.actions,
            &self.left,
            &self.lengths,
        )
    }
}

impl<'a> Arrays<'a> {
    /// Returns a table of some arrays. They may be any: `parse` tests what it reads.
    pub fn new(
        terminals: usize,
        offsets: &'a [usize],
        symbols: &'a [usize],
        actions: &'a [usize],
        left: &'a [usize],
        lengths: &'a [usize],
    ) -> Arrays<'a>
        ensures { result ≡ record {
          terminals = terminals;
          offsets = offsets.now;
          symbols = symbols.now;
          actions = actions.now;
          left = left.now;
          lengths = lengths.now;
        } }
    {
        Arrays {
            terminals,
            offsets,
            symbols,
            actions,
            left,
            lengths,
        }
    }

    /// Returns what is done in a state at a symbol, or `None` if there is no such entry.
    fn entry(&self, state: usize, symbol: usize) -> Option<usize>
        ensures some { IfSome result (HasEntry self.now state symbol) }
        ensures none { IfNone result ((action : ℕ) → ¬ HasEntry self.now state symbol action) }
    {
        let start = *self.offsets.get(state)?;
        let last = *self.offsets.get(state + 1)?;
        let end = last.min(self.symbols.len()).min(self.actions.len());
        for place in start..end {
            if self.symbols[place] == symbol {
                return Some(self.actions[place]);
            }
        }
        None
    }

    /// Returns what is done in a state with a terminal ahead, or `None` if there is no such entry.
    fn terminal_entry(&self, state: usize, terminal: usize) -> Option<usize>
        ensures { (table : TableView) → IsTableOf table self.now → (action : ℕ)
            → (result ≡ Some action) ↔ IsActionAt table state terminal action }
    {
        if terminal >= self.terminals {
            return None;
        }
        self.entry(state, terminal)
    }

    /// Returns what a parser does in a state when a terminal is ahead. The end is shifted as other
    /// terminals are.
    pub(crate) fn chosen(&self, state: usize, terminal: usize) -> Option<Action>
        ensures { (table : TableView) → IsTableOf table self.now
            → result ≡ chosen_at table.cells state terminal }
    {
        let action = self.terminal_entry(state, terminal)?;
        if action % 4 == REDUCE {
            return Some(Action::Reduce(action / 4));
        }
        Some(Action::Shift(action / 4))
    }

    /// Returns whether a parser accepts in a state with the end ahead.
    pub(crate) fn accepts_at(&self, state: usize) -> bool
        ensures { (table : TableView) → IsTableOf table self.now
            → IsTrue result ↔ Accepts table state 0 }
    {
        match self.terminal_entry(state, 0) {
            Some(action) => action % 4 == ACCEPT,
            None => false,
        }
    }

    /// Returns the state that a parser enters from a state by the symbol of a nonterminal, or `None` if
    /// there is none.
    pub(crate) fn next(&self, state: usize, symbol: usize) -> Option<usize>
        ensures some { IfSome result (λ to. (table : TableView) (nonterminal : ℕ)
            → IsTableOf table self.now → symbol ≡ self.now.terminals + nonterminal
            → HasMove table.machine.moves state (Nonterminal nonterminal) to) }
        ensures none { IfNone result ((table : TableView) (nonterminal to : ℕ)
            → IsTableOf table self.now → symbol ≡ self.now.terminals + nonterminal
            → ¬ HasMove table.machine.moves state (Nonterminal nonterminal) to) }
    {
        let action = self.entry(state, symbol)?;
        Some(action / 4)
    }

    /// Returns the symbol of a rule's left side, or `None` if there is no such rule.
    pub(crate) fn left(&self, rule: usize) -> Option<usize>
        ensures { result ≡ slice_get self.now.left rule }
    {
        self.left.get(rule).copied()
    }

    /// Returns the number of symbols on a rule's right side, or `None` if there is no such rule.
    pub(crate) fn length(&self, rule: usize) -> Option<usize>
        ensures { result ≡ slice_get self.now.lengths rule }
    {
        self.lengths.get(rule).copied()
    }
}
