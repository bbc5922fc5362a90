//! A parser under way.
ghost use Rattle.std.specs.Prelude.{◌≡◌, ◌<◌, drop, length, reverse, IfOk, OnOk};
ghost use Rattle.vob_lr.specs.Parses.{beginning, replaced, shifted, top};

use std::alloc::{AllocError, Global};
use std::marker::Model;

/// A parser under way: the states on its stack, how many tokens it has read, and the rules by which
/// it reduced. The newest state and the newest rule are last. A contract sees them first.
#[derive(Drop)]
pub(crate) struct Run {
    states: Vec<usize>,
    read: usize,
    reduced: Vec<usize>,
}

impl Model for Run {
    ghost use Rattle.std.specs.Prelude.{reverse};
    ghost use Rattle.vob_lr.specs.Parses.{Config};

    ghost Value = { Config };

    ghost view = { λ a. record {
      states = reverse a.states.items;
      read = a.read;
      reduced = reverse a.reduced.items;
    } };
}

impl Run {
    /// Returns a parser that has read nothing.
    pub fn new(alloc: Global) -> Result<Run, AllocError>
        ensures { IfOk result (λ run. run ≡ beginning) }
    {
        let mut states = Vec::new(alloc);
        states.push(0)?;
        Ok(Run {
            states,
            read: 0,
            reduced: Vec::new(alloc),
        })
    }

    /// Returns the newest state, or 0 if there is none.
    pub fn state(&self) -> usize
        ensures { result ≡ top self.now.states }
    {
        match self.states.last() {
            Some(state) => *state,
            None => 0,
        }
    }

    /// Returns how many states there are.
    pub fn depth(&self) -> usize
        ensures { result ≡ length self.now.states }
    {
        self.states.len()
    }

    /// Returns how many tokens were read.
    pub fn read(&self) -> usize
        ensures { result ≡ self.now.read }
    {
        self.read
    }

    /// Returns how many reductions there were.
    pub fn reductions(&self) -> usize
        ensures { result ≡ length self.now.reduced }
    {
        self.reduced.len()
    }

    /// Returns the rules by which it reduced, the newest last.
    pub fn into_rules(self) -> Vec<usize>
        ensures { reverse result.items ≡ self.reduced }
    {
        self.reduced
    }

    /// Reads a token, and enters a state.
    pub fn shift(&mut self, state: usize) -> Result<(), AllocError>
        requires { self.old.read < usize.MAX }
        ensures { OnOk result (self.new ≡ shifted state self.old) }
    {
        self.states.push(state)?;
        self.read += 1;
        Ok(())
    }

    /// Leaves the newest states, all of them if there are no more.
    pub fn leave(&mut self, count: usize)
        ensures { self.new ≡ record self.old { states = drop count self.old.states } }
    {
        let left = self.states.len().saturating_sub(count);
        self.states.truncate(left);
    }

    /// Enters a state by a rule.
    pub fn enter(&mut self, rule: usize, state: usize) -> Result<(), AllocError>
        ensures { OnOk result (self.new ≡ replaced rule 0 state self.old) }
    {
        self.states.push(state)?;
        self.reduced.push(rule)?;
        Ok(())
    }
}
