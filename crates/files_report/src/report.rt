//! What is reported of a grammar: its states, and what of it is of use.

use crate::reductions::{Reduction, Reductions, set};
use crate::state::StateReport;
use files_grammar::{GrammarFile, States};
use std::alloc::{AllocError, Global};
use vob_lr::{Rule, Symbol, Table};

/// A state with its reductions.
#[derive(Drop)]
pub struct FullState {
    pub own: StateReport,
    pub reductions: Vec<Reduction>,
    pub default: Option<usize>,
}

/// The states that a parser may enter, with the numbers of bison; the rules by which it may reduce, with the
/// terminals from which they have their precedence; the terminals in the order of their codes, and which of
/// them stand in rules or after `%prec`.
#[derive(Drop)]
pub struct Report {
    pub states: Vec<FullState>,
    pub is_made: Vec<bool>,
    pub rule_terminals: Vec<Option<usize>>,
    pub codes: Vec<(usize, usize)>,
    pub is_used: Vec<bool>,
}

/// Notes the terminals of a rule.
fn note_rule(is_used: &mut [bool], rule: &Rule) {
    for symbol in rule.right.iter() {
        if let Symbol::Terminal(terminal) = symbol {
            set(is_used, *terminal);
        }
    }
}

/// Returns which terminals stand in a rule that is of use, or after `%prec`. The end and `error` are always
/// of use.
fn used_terminals(alloc: Global, file: &GrammarFile) -> Result<Vec<bool>, AllocError> {
    let mut is_used = Vec::new(alloc);
    is_used.resize(file.grammar.terminals, false)?;
    set(&mut is_used, 0);
    set(&mut is_used, file.details.error);
    for rule in file.grammar.rules.iter() {
        note_rule(&mut is_used, rule);
    }
    for terminal in file.details.rule_terminals.iter() {
        set(&mut is_used, terminal.unwrap_or(0));
    }
    for left in file.left_out.rules.iter() {
        set(&mut is_used, left.terminal.unwrap_or(0));
    }
    Ok(is_used)
}

/// Returns the terminal from which each rule has its precedence: that of `%prec`, or else the last one.
fn rule_terminals(alloc: Global, file: &GrammarFile) -> Result<Vec<Option<usize>>, AllocError> {
    let mut terminals = Vec::new(alloc);
    for (rule, own) in file.grammar.rules.iter().zip(&file.details.rule_terminals) {
        terminals.push(own.or(last_terminal(rule)))?;
    }
    Ok(terminals)
}

/// Returns the last terminal of a rule.
fn last_terminal(rule: &Rule) -> Option<usize> {
    let mut last = None;
    for symbol in rule.right.iter() {
        if let Symbol::Terminal(terminal) = symbol {
            last = Some(*terminal);
        }
    }
    last
}

/// Returns the codes of terminals in their order, with the terminals.
fn ordered_codes(alloc: Global, file: &GrammarFile) -> Result<Vec<(usize, usize)>, AllocError> {
    let mut codes = Vec::new(alloc);
    for (terminal, code) in file.details.codes.iter().enumerate() {
        codes.push((*code, terminal))?;
    }
    codes.sort()?;
    Ok(codes)
}

impl Report {
    /// Returns what is to be reported of a file. Fails if memory runs out.
    pub fn of(
        alloc: Global,
        file: &GrammarFile,
        table: &Table<'_>,
        states: &States,
    ) -> Result<Report, AllocError> {
        let mut report = Report {
            states: Vec::new(alloc),
            is_made: Vec::new(alloc),
            rule_terminals: rule_terminals(alloc, file)?,
            codes: ordered_codes(alloc, file)?,
            is_used: used_terminals(alloc, file)?,
        };
        // A parser that does all that conflicts leave makes each reduction.
        let makes_all = file.details.is_ambiguous;
        report.is_made.resize(file.grammar.rules.len(), makes_all)?;
        for number in 0..states.count() {
            report.add_state(alloc, file, table, states, number)?;
        }
        Ok(report)
    }

    /// Adds a state.
    fn add_state(
        &mut self,
        alloc: Global,
        file: &GrammarFile,
        table: &Table<'_>,
        states: &States,
        number: usize,
    ) -> Result<(), AllocError> {
        if number >= states.count() {
            return Ok(());
        }
        let state = states.state(number);
        let own = StateReport::of(alloc, file, table.lookaheads(), states, state)?;
        let reductions = Reductions::of(alloc, &own, file.grammar.terminals, file.details.error)?;
        reductions.note_made(alloc, &mut self.is_made)?;
        self.states.push(FullState {
            reductions: reductions.listed(alloc)?,
            default: reductions.default,
            own,
        })?;
        Ok(())
    }
}
