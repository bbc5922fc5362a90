//! What a parser may do in a state, as bison reports it: what precedence decides, rule by rule.

use files_grammar::{GrammarFile, States};
use std::alloc::{AllocError, Global};
use vob_lr::{Associativity, Item, Lookaheads, Precedence, Symbol};

/// How precedence decides between a shift and a rule.
#[derive(Clone, Copy, PartialEq, Eq)]
pub enum Decision {
    /// For the shift: its terminal binds more tightly.
    Shift,
    /// For the rule: it binds more tightly.
    Rule,
    /// For the rule: both bind alike, and group on the left.
    Left,
    /// For the shift: both bind alike, and group on the right.
    Right,
    /// For neither: both bind alike, and don't group.
    Neither,
}

/// A decision of precedence between the shift of a terminal and a rule.
#[derive(Clone, Copy)]
pub struct Solved {
    pub rule: usize,
    pub terminal: usize,
    pub decision: Decision,
}

/// A move: the number of the symbol, and that of the state that follows.
#[derive(Clone, Copy)]
pub struct Step {
    pub symbol: usize,
    pub to: usize,
}

/// A rule by which a parser may reduce, and the terminals that are left to it.
#[derive(Drop)]
pub struct Reducer {
    pub rule: usize,
    pub lookaheads: Vec<usize>,
}

/// What a parser may do in a state. One that is consistent has one rule and no shift: then the parser
/// needs no terminal to know what to do.
#[derive(Drop)]
pub struct StateReport {
    pub items: Vec<Item>,
    pub shifts: Vec<Step>,
    pub gotos: Vec<Step>,
    pub reducers: Vec<Reducer>,
    pub is_consistent: bool,
    /// The terminals that precedence makes errors.
    pub errors: Vec<usize>,
    pub solved: Vec<Solved>,
}

/// Returns how precedence decides, if it does.
fn decision_of(rule: Option<Precedence>, terminal: Option<Precedence>) -> Option<Decision> {
    let rule = rule?;
    let terminal = terminal?;
    if terminal.level < rule.level {
        return Some(Decision::Rule);
    }
    if rule.level < terminal.level {
        return Some(Decision::Shift);
    }
    match terminal.associativity {
        Associativity::Left => Some(Decision::Left),
        Associativity::Right => Some(Decision::Right),
        Associativity::Neither => Some(Decision::Neither),
        Associativity::Unstated => None,
    }
}

impl Decision {
    /// Returns whether the shift stays.
    fn keeps_shift(self) -> bool {
        matches!(self, Decision::Shift | Decision::Right)
    }

    /// Returns whether the rule stays.
    fn keeps_rule(self) -> bool {
        matches!(self, Decision::Rule | Decision::Left)
    }
}

/// Returns the terminals that may follow an item once it is complete.
fn lookaheads_of(
    alloc: Global,
    states: &Lookaheads<'_>,
    state: usize,
    item: usize,
) -> Result<Vec<usize>, AllocError> {
    let mut lookaheads = Vec::new(alloc);
    if let Some(set) = states.of(state, item) {
        for terminal in set.iter_set_bits(..) {
            lookaheads.push(terminal)?;
        }
    }
    Ok(lookaheads)
}

impl StateReport {
    /// Returns what there is to do in a state by the items and moves alone. Fails if memory runs out.
    fn plain(
        alloc: Global,
        machine: &Lookaheads<'_>,
        states: &States,
        state: usize,
    ) -> Result<StateReport, AllocError> {
        let mut report = StateReport {
            items: Vec::new(alloc),
            shifts: Vec::new(alloc),
            gotos: Vec::new(alloc),
            reducers: Vec::new(alloc),
            is_consistent: false,
            errors: Vec::new(alloc),
            solved: Vec::new(alloc),
        };
        report.add_items(alloc, machine, state)?;
        report.add_moves(machine, states, state)?;
        report.is_consistent = report.reducers.len() == 1 && report.shifts.is_empty();
        Ok(report)
    }

    /// Adds the items of a state, and the rules of those that are complete.
    fn add_items(
        &mut self,
        alloc: Global,
        machine: &Lookaheads<'_>,
        state: usize,
    ) -> Result<(), AllocError> {
        let Some(set) = machine.automaton().sets.get(state) else {
            return Ok(());
        };
        for number in set.iter() {
            if *number >= machine.items().len() {
                continue;
            }
            self.items.push(machine.items().item(*number))?;
            if let Some(rule) = machine.items().completed(*number) {
                let lookaheads = lookaheads_of(alloc, machine, state, *number)?;
                self.reducers.push(Reducer { rule, lookaheads })?;
            }
        }
        Ok(())
    }

    /// Adds the moves of a state to those that a parser may enter.
    fn add_moves(
        &mut self,
        machine: &Lookaheads<'_>,
        states: &States,
        state: usize,
    ) -> Result<(), AllocError> {
        let Some(moves) = machine.automaton().moves.get(state) else {
            return Ok(());
        };
        for own in moves.iter() {
            // A state that a parser doesn't enter has no number, and is none of those that are written.
            let to = states.number(own.state).unwrap_or(usize::MAX);
            match own.symbol {
                Symbol::Terminal(symbol) => self.shifts.push(Step { symbol, to })?,
                Symbol::Nonterminal(symbol) => self.gotos.push(Step { symbol, to })?,
            }
        }
        Ok(())
    }

    /// Returns whether a terminal can be shifted.
    fn shifts(&self, terminal: usize) -> bool {
        self.shifts.iter().any(|step| step.symbol == terminal)
    }

    /// Takes away the shift of a terminal.
    fn drop_shift(&mut self, terminal: usize) {
        self.shifts.retain(|step| step.symbol != terminal);
    }

    /// Lets precedence decide between a rule and the shift of a terminal. Returns whether the rule stays.
    fn decide(
        &mut self,
        rule: usize,
        terminal: usize,
        decided: Option<Decision>,
    ) -> Result<bool, AllocError> {
        let Some(decision) = decided else {
            return Ok(true);
        };
        self.solved.push(Solved {
            rule,
            terminal,
            decision,
        })?;
        if decision == Decision::Neither {
            self.errors.push(terminal)?;
        }
        if !decision.keeps_shift() {
            self.drop_shift(terminal);
        }
        Ok(decision.keeps_rule())
    }

    /// Lets precedence decide between a rule and all shifts. Returns the terminals that are left to it.
    fn left_of(
        &mut self,
        alloc: Global,
        file: &GrammarFile,
        reducer: &Reducer,
    ) -> Result<Vec<usize>, AllocError> {
        let mut left = Vec::new(alloc);
        let precedence = file.rule_precedence(reducer.rule);
        for terminal in reducer.lookaheads.iter() {
            let decided = match self.shifts(*terminal) {
                true => decision_of(precedence, file.precedence(*terminal)),
                false => None,
            };
            if self.decide(reducer.rule, *terminal, decided)? {
                left.push(*terminal)?;
            }
        }
        Ok(left)
    }

    /// Returns what there is to do in a state once precedence has decided, rule by rule as in bison. Fails if
    /// memory runs out.
    pub fn of(
        alloc: Global,
        file: &GrammarFile,
        machine: &Lookaheads<'_>,
        states: &States,
        state: usize,
    ) -> Result<StateReport, AllocError> {
        let mut report = StateReport::plain(alloc, machine, states, state)?;
        if report.is_consistent {
            return Ok(report);
        }
        let mut reducers = std::mem::replace(&mut report.reducers, Vec::new(alloc));
        for reducer in reducers.iter_mut() {
            reducer.lookaheads = report.left_of(alloc, file, reducer)?;
        }
        report.reducers = reducers;
        Ok(report)
    }
}
