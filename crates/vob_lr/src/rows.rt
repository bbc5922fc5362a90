//! The rows of a parser's table.
ghost use Rattle.std.specs.Prelude.{◌<◌, [], length, slice_index_or, AllPairs, IfOk};
ghost use Rattle.vob_lr.specs.Lookaheads.{Reduces};
ghost use Rattle.vob_lr.specs.Those.{AreThose};
ghost use Rattle.vob_lr.specs.Tables.{AreCells, AreRowsOfCells, IsCell};
ghost use Rattle.vob_lr.specs.ItemSets.{HasComplete};

use crate::cells::CellRow;
use crate::grammar::Symbol;
use crate::items::Items;
use crate::lookaheads::Lookaheads;
use crate::precedence::{Precedence, precedence_at, resolve};
use crate::table::Cell;
use std::alloc::{AllocError, Global};

/// What the cells of a table are made from: the states of a grammar, and the precedences of its
/// terminals and of its rules.
#[derive(Clone, Copy)]
pub(crate) struct Source<'t, 'a> {
    pub lookaheads: &'t Lookaheads<'a>,
    pub terminals: &'t [Option<Precedence>],
    pub rules: &'t [Option<Precedence>],
}

/// Returns the rules whose complete items a set has. The set must rise.
fn completed(alloc: Global, items: &Items<'_>, set: &[usize]) -> Result<Vec<usize>, AllocError>
    requires { AllPairs (λ i j. i < j) set.now }
    ensures { IfOk result (λ rules.
        AreThose (HasComplete items.now.rules.items set.now) rules.items) }
{
    let mut rules = Vec::new(alloc);
    for place in 0..set.len() {
        if let Some(rule) = items.completed(set[place]) {
            rules.push(rule)?;
        }
    }
    Ok(rules)
}

/// Returns the rules whose complete items a state has: none if there is no such state.
pub(crate) fn complete_rules(
    alloc: Global,
    lookaheads: &Lookaheads<'_>,
    state: usize,
) -> Result<Vec<usize>, AllocError>
    ensures { IfOk result (λ rules. AreThose (HasComplete lookaheads.now.grammar.rules.items
        (slice_index_or lookaheads.now.sets state [])) rules.items) }
{
    match lookaheads.automaton().sets.get(state) {
        Some(set) => completed(alloc, lookaheads.items(), set),
        None => Ok(Vec::new(alloc)),
    }
}

/// Returns those of a state's complete rules by which a parser may reduce if a terminal is ahead.
fn reduces_at(
    alloc: Global,
    lookaheads: &Lookaheads<'_>,
    state: usize,
    terminal: usize,
    complete: &[usize],
) -> Result<Vec<usize>, AllocError>
    requires { AreThose (HasComplete lookaheads.now.grammar.rules.items
        (slice_index_or lookaheads.now.sets state [])) complete.now }
    ensures { IfOk result (λ rules.
        AreThose (Reduces lookaheads.now state terminal) rules.items) }
{
    // The sets are states: a proof knows it from this.
    let _automaton = lookaheads.automaton();
    let mut rules = Vec::new(alloc);
    for place in 0..complete.len() {
        if lookaheads.reduces(state, terminal, complete[place]) {
            rules.push(complete[place])?;
        }
    }
    Ok(rules)
}

impl Source<'_, '_> {
    /// Returns what a parser may do in a state if a terminal is ahead.
    fn cell(
        &self,
        alloc: Global,
        state: usize,
        terminal: usize,
        complete: &[usize],
    ) -> Result<Cell, AllocError>
        requires { AreThose (HasComplete self.now.lookaheads.now.grammar.rules.items
            (slice_index_or self.now.lookaheads.now.sets state [])) complete.now }
        ensures { IfOk result (λ cell. IsCell self.now.lookaheads.now self.now.terminals.now
            self.now.rules.now state terminal cell) }
    {
        let shift = self.lookaheads.next(state, Symbol::Terminal(terminal));
        let rules = reduces_at(alloc, self.lookaheads, state, terminal, complete)?;
        let precedence = precedence_at(self.terminals, terminal);
        resolve(alloc, shift, rules, self.rules, precedence)
    }

    /// Returns the row of a state.
    fn row(&self, alloc: Global, state: usize) -> Result<CellRow, AllocError>
        ensures { IfOk result (λ row. AreCells self.now.lookaheads.now self.now.terminals.now
            self.now.rules.now state self.now.lookaheads.now.grammar.terminals row) }
    {
        let complete = complete_rules(alloc, self.lookaheads, state)?;
        let mut row = CellRow::new(alloc);
        for terminal in 0..self.lookaheads.items().grammar().terminals {
            row = row.with(self.cell(alloc, state, terminal, &complete)?)?;
        }
        Ok(row)
    }

    /// Returns the rows of all states.
    pub fn rows(&self, alloc: Global) -> Result<Vec<CellRow>, AllocError>
        ensures { IfOk result (λ rows. AreRowsOfCells self.now.lookaheads.now
            self.now.terminals.now self.now.rules.now (length self.now.lookaheads.now.sets)
            rows.items) }
    {
        let states = self.lookaheads.automaton().sets.len();
        let mut rows = Vec::new(alloc);
        for state in 0..states {
            rows.push(self.row(alloc, state)?)?;
        }
        Ok(rows)
    }
}
