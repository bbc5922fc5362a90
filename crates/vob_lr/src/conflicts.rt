//! Where a table has more than one action, and where precedence left one out.
ghost use Rattle.std.specs.Prelude.{◌≡◌, ◌↔◌, ℕ, ◌+◌, [], slice_index_or, IfOk, IsTrue, OnOk, Some};
ghost use Rattle.vob_lr.specs.Conflicts.{AreConflicts, AreDecided, AreLeftOut, ArePlacesBefore, ComesBefore, HasActionAt, IsAt, IsConflictAt, IsLeftOut};
ghost use Rattle.vob_lr.specs.ItemSets.{HasComplete};
ghost use Rattle.vob_lr.specs.Those.{AreInOrder, AreThose};
ghost use Rattle.vob_lr.specs.declared.table.Action.TheVariants.{Reduce, Shift};

use crate::grammar::Symbol;
use crate::rows::complete_rules;
use crate::table::{Action, Cell, Conflict, Table};
use std::alloc::{AllocError, Global};

/// What is asked of a state and a terminal.
#[derive(Clone, Copy)]
enum Question {
    /// Whether the table has more than one action.
    Undecided,
    /// Whether precedence left one out.
    Decided,
}

impl Table<'_> {
    /// Returns whether there is more than one action in a state at a terminal.
    fn is_conflict_at(&self, state: usize, terminal: usize) -> bool
        ensures { IsTrue result
            ↔ IsConflictAt self.now.cells (record { state = state; terminal = terminal }) }
    {
        match self.cell(state, terminal) {
            Some(cell) => cell.is_conflict(),
            None => false,
        }
    }

    /// Returns whether the cell of a state and a terminal has an action.
    pub(crate) fn has(&self, state: usize, terminal: usize, action: Action) -> bool
        ensures { IsTrue result ↔ HasActionAt self.now.cells state terminal action }
    {
        let Some(cell) = self.cell(state, terminal) else {
            return false;
        };
        match action {
            Action::Shift(to) => cell.shift == Some(to),
            Action::Reduce(rule) => cell.reduces.contains(&rule),
            Action::Accept => false,
        }
    }

    /// Returns the state to which a shift that is left out leads, or `None` if none is.
    fn shift_left_out(&self, state: usize, terminal: usize) -> Option<usize>
        ensures { (p : ℕ) → (result ≡ Some p) ↔ IsLeftOut self.now state terminal (Shift p) }
    {
        let to = self.lookaheads().next(state, Symbol::Terminal(terminal))?;
        if self.has(state, terminal, Action::Shift(to)) {
            return None;
        }
        Some(to)
    }

    /// Returns whether a reduction is left out.
    fn is_rule_left_out(&self, state: usize, terminal: usize, rule: usize) -> bool
        ensures { IsTrue result ↔ IsLeftOut self.now state terminal (Reduce rule) }
    {
        self.lookaheads().reduces(state, terminal, rule)
            && !self.has(state, terminal, Action::Reduce(rule))
    }

    /// Returns those of a state's complete rules that are left out.
    fn rules_left_out(
        &self,
        alloc: Global,
        state: usize,
        terminal: usize,
        complete: &[usize],
    ) -> Result<Vec<usize>, AllocError>
        requires { AreThose (HasComplete self.now.machine.grammar.rules.items
            (slice_index_or self.now.machine.sets state [])) complete.now }
        ensures { IfOk result (λ rules.
            AreThose (λ r. IsLeftOut self.now state terminal (Reduce r)) rules.items) }
    {
        // A proof knows from this call that the state has the items of these rules.
        let _states = self.lookaheads();
        let mut rules = Vec::new(alloc);
        for place in 0..complete.len() {
            if self.is_rule_left_out(state, terminal, complete[place]) {
                rules.push(complete[place])?;
            }
        }
        Ok(rules)
    }

    /// Returns what is left out at a terminal, by a state's complete rules.
    fn left_out_of(
        &self,
        alloc: Global,
        state: usize,
        terminal: usize,
        complete: &[usize],
    ) -> Result<Cell, AllocError>
        requires { AreThose (HasComplete self.now.machine.grammar.rules.items
            (slice_index_or self.now.machine.sets state [])) complete.now }
        ensures { IfOk result (AreLeftOut self.now state terminal) }
    {
        Ok(Cell {
            shift: self.shift_left_out(state, terminal),
            reduces: self.rules_left_out(alloc, state, terminal, complete)?,
        })
    }

    /// Returns what a parser might do in a state when a terminal is ahead, had precedence not left it
    /// out of the table.
    ///
    /// Fails if memory runs out.
    pub fn left_out(&self, alloc: Global, state: usize, terminal: usize) -> Result<Cell, AllocError>
        ensures { IfOk result (AreLeftOut self.now state terminal) }
    {
        let complete = complete_rules(alloc, self.lookaheads(), state)?;
        self.left_out_of(alloc, state, terminal, &complete)
    }

    /// Answers a question of a state and a terminal, by the state's complete rules.
    fn is_at(
        &self,
        alloc: Global,
        question: Question,
        place: Conflict,
        complete: &[usize],
    ) -> Result<bool, AllocError>
        requires { AreThose (HasComplete self.now.machine.grammar.rules.items
            (slice_index_or self.now.machine.sets place.state [])) complete.now }
        ensures { IfOk result (λ yes. IsTrue yes ↔ IsAt self.now question place) }
    {
        match question {
            Question::Undecided => Ok(self.is_conflict_at(place.state, place.terminal)),
            Question::Decided => {
                let cell = self.left_out_of(alloc, place.state, place.terminal, complete)?;
                Ok(cell.action().is_some())
            }
        }
    }

    /// Adds the places of a state to those of the states before it.
    fn add_places(
        &self,
        alloc: Global,
        question: Question,
        state: usize,
        found: &mut Vec<Conflict>,
    ) -> Result<(), AllocError>
        requires { ArePlacesBefore self.now question (record { state = state; terminal = 0 })
            found.old.items }
        ensures { OnOk result (ArePlacesBefore self.now question
            (record { state = state + 1; terminal = 0 }) found.new.items) }
    {
        let complete = complete_rules(alloc, self.lookaheads(), state)?;
        for terminal in 0..self.lookaheads().items().grammar().terminals {
            let place = Conflict { state, terminal };
            if self.is_at(alloc, question, place, &complete)? {
                found.push(place)?;
            }
        }
        Ok(())
    }

    /// Returns the states and terminals of which the answer is yes.
    fn places(&self, alloc: Global, question: Question) -> Result<Vec<Conflict>, AllocError>
        ensures { IfOk result (λ found.
            AreInOrder ComesBefore (IsAt self.now question) found.items) }
    {
        let mut found = Vec::new(alloc);
        for state in 0..self.lookaheads().automaton().sets.len() {
            self.add_places(alloc, question, state, &mut found)?;
        }
        Ok(found)
    }

    /// Returns the states and terminals for which there is more than one action: state by state, and
    /// of a state the lower terminal first.
    ///
    /// Fails if memory runs out.
    pub fn conflicts(&self, alloc: Global) -> Result<Vec<Conflict>, AllocError>
        ensures { IfOk result (λ found. AreConflicts self.now.cells found.items) }
    {
        self.places(alloc, Question::Undecided)
    }

    /// Returns the states and terminals for which precedence left an action out, in the same order.
    /// If there are none, and no conflicts, the grammar is LALR(1): `laws::accepted_are_sentences`
    /// says what a parser accepts then.
    ///
    /// Fails if memory runs out.
    pub fn decided(&self, alloc: Global) -> Result<Vec<Conflict>, AllocError>
        ensures { IfOk result (λ found. AreDecided self.now found.items) }
    {
        self.places(alloc, Question::Decided)
    }
}
