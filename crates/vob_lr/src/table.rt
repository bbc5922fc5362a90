//! The table of a parser.
ghost use Rattle.std.specs.Prelude.{◌≡◌, ◌≢◌, ◌↔◌, ◌⊎◌, ℕ, [], length, None, slice_get, slice_index_or, Some, IfNone, IfOk, IfSome, IsTrue};
ghost use Rattle.vob_lr.specs.Accepting.{Accepts};
ghost use Rattle.vob_lr.specs.Languages.{Suffice};
ghost use Rattle.vob_lr.specs.Stops.{IsSound};
ghost use Rattle.vob_lr.specs.Tables.{AreRowsOfCells, chosen_at};

use crate::bound::{Bound, bound_of};
use crate::cells::CellRow;
use crate::lookaheads::Lookaheads;
use crate::precedence::Precedence;
use crate::rows::Source;
use std::alloc::{AllocError, Global};
use std::marker::Model;

/// What a parser does in a state when a terminal is ahead.
#[derive(Clone, Copy, Debug, PartialEq, Eq)]
pub enum Action {
    /// Reads the terminal, and enters a state.
    Shift(usize),
    /// Replaces the right side of a rule by its left side.
    Reduce(usize),
    /// With the end ahead, nothing is left to read: in the state that the end leads to, rule 0 is
    /// complete. A driver stops, and what it has for the start symbol is the result.
    Accept,
}

/// What a parser may do in a state when a terminal is ahead: enter a state, and reduce by rules, the
/// lower numbers first. More than one in all is a conflict.
#[derive(Drop)]
pub struct Cell {
    pub shift: Option<usize>,
    pub reduces: Vec<usize>,
}

/// A state and a terminal with more than one action, before precedence decides or after.
#[derive(Clone, Copy, Debug, PartialEq, Eq)]
pub struct Conflict {
    pub state: usize,
    pub terminal: usize,
}

/// The table of a parser: for each state and each terminal what it may do. A contract sees the
/// states and the cells.
#[derive(Drop)]
pub struct Table<'a> {
    lookaheads: Lookaheads<'a>,
    rows: Vec<CellRow>,
    // How many reductions suffice for a sentence.
    bound: Bound,
}

impl<'a> Model for Table<'a> {
    ghost use Rattle.std.below.core.specs.declared.int.usize.TheConstants.{MAX};
    ghost use Rattle.vob_lr.specs.Sizes.{IsBound};
    ghost use Rattle.vob_lr.specs.Stops.{IsSound};
    ghost use Rattle.vob_lr.specs.Tables.{TableView};

    ghost Value = { TableView };

    ghost view = { λ a. record { machine = a.lookaheads; cells = a.rows.items } };

    ghost invariant = { λ a. IsSound (record { machine = a.lookaheads; cells = a.rows.items })
        × IsBound MAX a.lookaheads.grammar.rules.items a.bound.base a.bound.each };
}

impl Cell {
    ghost use Rattle.vob_lr.specs.Conflicts.{IsConflict};
    ghost use Rattle.vob_lr.specs.Tables.{chosen};

    /// Returns whether a parser may do more than one thing.
    pub fn is_conflict(&self) -> bool
        ensures { IsTrue result ↔ IsConflict self.now }
    {
        match self.shift {
            Some(_) => !self.reduces.is_empty(),
            None => self.reduces.len() > 1,
        }
    }

    /// Returns what a parser does of what it may: it shifts, or else reduces by the lowest rule.
    pub fn action(&self) -> Option<Action>
        ensures { result ≡ chosen self.now.shift self.now.reduces.items }
    {
        if let Some(state) = self.shift {
            return Some(Action::Shift(state));
        }
        if self.reduces.is_empty() {
            return None;
        }
        Some(Action::Reduce(self.reduces[0]))
    }
}

impl<'a> Table<'a> {
    /// Makes the table of a grammar's states. Each terminal and each rule has the precedence at its
    /// number, or none behind the end of the list. Between a shift and a reduction the one that
    /// binds more tightly stays, as in yacc and bison; if both bind alike, the associativity of the
    /// terminal decides. What it leaves to choose is a conflict.
    ///
    /// Fails if memory runs out. A cell with an action takes 16 bytes; each of a state that differs
    /// from its others takes about 80 more.
    pub fn new(
        alloc: Global,
        lookaheads: Lookaheads<'a>,
        terminals: &[Option<Precedence>],
        rules: &[Option<Precedence>],
    ) -> Result<Table<'a>, AllocError>
        ensures machine { IfOk result (λ table. table.machine ≡ lookaheads.entry) }
        ensures cells { IfOk result (λ table. AreRowsOfCells table.machine terminals.now rules.now
            (length table.machine.sets) table.cells) }
    {
        // A proof knows from this call what the states are.
        let _states = lookaheads.automaton();
        let source = Source {
            lookaheads: &lookaheads,
            terminals,
            rules,
        };
        let rows = source.rows(alloc)?;
        let bound = bound_of(alloc, lookaheads.items().grammar())?;
        Ok(Table {
            lookaheads,
            rows,
            bound,
        })
    }

    /// Returns the states, with the lookaheads of their items.
    pub fn lookaheads(&self) -> &Lookaheads<'a>
        ensures machine { result.now ≡ self.now.machine }
        ensures sound { IsSound self.now }
    {
        &self.lookaheads
    }

    /// Returns how many reductions suffice for each sentence of so many tokens, or `usize::MAX` if no
    /// number counts them.
    pub fn most_reductions(&self, tokens: usize) -> usize
        ensures { (result ≡ usize.MAX)
            ⊎ Suffice self.now.machine.grammar.rules.items tokens result }
    {
        let more = self.bound.each.saturating_mul(tokens);
        self.bound.base.saturating_add(more)
    }

    /// Returns what a parser may do in a state when a terminal is ahead, or `None` if there is no
    /// such state or terminal.
    pub fn cell(&self, state: usize, terminal: usize) -> Option<&Cell>
        ensures some { IfSome result (λ cell.
            slice_get (slice_index_or self.now.cells state []) terminal ≡ Some cell.now) }
        ensures none { IfNone result (
            slice_get (slice_index_or self.now.cells state []) terminal ≡ None) }
    {
        self.rows.get(state)?.get(terminal)
    }

    /// Returns what a parser does there of what it may, or `None` if it does nothing. The end is
    /// shifted as other terminals are.
    pub(crate) fn chosen(&self, state: usize, terminal: usize) -> Option<Action>
        ensures { result ≡ chosen_at self.now.cells state terminal }
    {
        self.cell(state, terminal)?.action()
    }

    /// Returns whether a parser would shift the end, and accepts by it.
    fn accepts_at(&self, state: usize, terminal: usize) -> bool
        ensures { IsTrue result ↔ Accepts self.now state terminal }
    {
        if terminal != 0 {
            return false;
        }
        match self.chosen(state, terminal) {
            Some(Action::Shift(to)) => self.is_end(to),
            _ => false,
        }
    }

    /// Returns what a parser does in a state when a terminal is ahead, or `None` if it does nothing. It
    /// accepts where it would shift the end, and rule 0 is complete then.
    ///
    /// A driver begins with state 0 on its stack. By a shift it pushes a state, and takes the next token;
    /// terminal 0 comes after the last. By a reduction it pops a state for each symbol of the right side,
    /// and pushes what `Lookaheads::next` returns for the left side. At `Accept` it is done, and at
    /// `None` the token doesn't fit. If the left side of rule 0 stands on a right side, as in no
    /// grammar file, only `parse` tells where a sentence ends.
    pub fn action(&self, state: usize, terminal: usize) -> Option<Action>
        ensures accept { (result ≡ Some Action.Accept) ↔ Accepts self.now state terminal }
        ensures others { result ≢ Some Action.Accept
            → result ≡ chosen_at self.now.cells state terminal }
    {
        if self.accepts_at(state, terminal) {
            return Some(Action::Accept);
        }
        self.chosen(state, terminal)
    }
}
