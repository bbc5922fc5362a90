//! The reductions of a state as bison reports them: the default one, and those that a parser doesn't make.

use crate::state::StateReport;
use std::alloc::{AllocError, Global};

/// A reduction by a rule if a terminal is ahead, or by default. If it isn't made, something else is.
#[derive(Clone, Copy)]
pub struct Reduction {
    pub terminal: Option<usize>,
    pub rule: usize,
    pub is_made: bool,
}

/// The reductions of a state: the terminals that are shifted or errors, those of each rule in turn, and the
/// rule by which a parser reduces if none is ahead.
#[derive(Drop)]
pub struct Reductions {
    is_taken: Vec<bool>,
    pairs: Vec<(usize, usize)>,
    pub default: Option<usize>,
}

/// Returns whether a list says yes of a number.
pub fn is_set(list: &[bool], number: usize) -> bool {
    list.get(number).copied().unwrap_or(false)
}

/// Lets a list say yes of a number.
pub fn set(list: &mut [bool], number: usize) {
    if let Some(own) = list.get_mut(number) {
        *own = true;
    }
}

impl Reductions {
    /// Returns the reductions of a state. `error` is the terminal by which parsers recover. Fails if memory
    /// runs out.
    pub fn of(
        alloc: Global,
        state: &StateReport,
        terminals: usize,
        error: usize,
    ) -> Result<Reductions, AllocError> {
        let mut reductions = Reductions {
            is_taken: Vec::new(alloc),
            pairs: Vec::new(alloc),
            default: None,
        };
        reductions.is_taken.resize(terminals, false)?;
        for step in state.shifts.iter() {
            set(&mut reductions.is_taken, step.symbol);
        }
        for terminal in state.errors.iter() {
            set(&mut reductions.is_taken, *terminal);
        }
        if !state.is_consistent {
            reductions.add_pairs(state)?;
        }
        reductions.default = reductions.default_of(alloc, state, error)?;
        Ok(reductions)
    }

    /// Adds the terminals of each rule, and sorts them by the terminals.
    fn add_pairs(&mut self, state: &StateReport) -> Result<(), AllocError> {
        for reducer in state.reducers.iter() {
            for terminal in reducer.lookaheads.iter() {
                self.pairs.push((*terminal, reducer.rule))?;
            }
        }
        self.pairs.sort()
    }

    /// Returns the rules that are made, each as often as a terminal leads to it.
    fn made(&self, alloc: Global) -> Result<Vec<usize>, AllocError> {
        let mut made = Vec::new(alloc);
        let mut previous = None;
        for (terminal, rule) in self.pairs.iter() {
            if previous != Some(*terminal) && !is_set(&self.is_taken, *terminal) {
                made.push(*rule)?;
            }
            previous = Some(*terminal);
        }
        Ok(made)
    }

    /// Returns the rule by which a parser reduces by default: the one to which most terminals lead.
    fn default_of(
        &self,
        alloc: Global,
        state: &StateReport,
        error: usize,
    ) -> Result<Option<usize>, AllocError> {
        if state.shifts.iter().any(|step| step.symbol == error) {
            return Ok(None);
        }
        if state.is_consistent {
            return Ok(state.reducers.first().map(|reducer| reducer.rule));
        }
        let made = self.made(alloc)?;
        let mut most = 0;
        let mut default = None;
        for reducer in state.reducers.iter() {
            let count = made.iter().filter(|rule| **rule == reducer.rule).count();
            if count > most {
                most = count;
                default = Some(reducer.rule);
            }
        }
        Ok(default)
    }

    /// Lets a list say yes of the rules that are made in the state.
    pub fn note_made(&self, alloc: Global, is_made: &mut [bool]) -> Result<(), AllocError> {
        for rule in self.made(alloc)?.iter() {
            set(is_made, *rule);
        }
        if let Some(rule) = self.default {
            set(is_made, rule);
        }
        Ok(())
    }

    /// Returns the reductions, those by default last. A terminal of the default reduction has none of its own,
    /// unless other rules want it too. Fails if memory runs out.
    pub fn listed(&self, alloc: Global) -> Result<Vec<Reduction>, AllocError> {
        let mut listed = Vec::new(alloc);
        let mut at = None;
        let mut is_decided = false;
        let mut by_default = None;
        for (terminal, rule) in self.pairs.iter() {
            if at != Some(*terminal) {
                at = Some(*terminal);
                is_decided = is_set(&self.is_taken, *terminal);
                by_default = None;
            }
            if !is_decided && self.default == Some(*rule) {
                by_default = at;
            } else {
                push_default(&mut listed, by_default.take(), self.default)?;
                listed.push(Reduction {
                    terminal: at,
                    rule: *rule,
                    is_made: !is_decided,
                })?;
            }
            is_decided = true;
        }
        if let Some(rule) = self.default {
            listed.push(Reduction {
                terminal: None,
                rule,
                is_made: true,
            })?;
        }
        Ok(listed)
    }
}

/// Adds a reduction by the default rule, if a terminal is ahead.
fn push_default(
    listed: &mut Vec<Reduction>,
    terminal: Option<usize>,
    default: Option<usize>,
) -> Result<(), AllocError> {
    if let (Some(_), Some(rule)) = (terminal, default) {
        listed.push(Reduction {
            terminal,
            rule,
            is_made: true,
        })?;
    }
    Ok(())
}
