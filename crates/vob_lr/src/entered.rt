//! The states that a parser may enter.
ghost use Rattle.std.specs.Prelude.{◌↔◌, ◌<◌, length, map, IfOk, IsTrue};
ghost use Rattle.vob_lr.specs.Entered.{AreEntered, AreTargets, AreTargetsBelow, IsLeft};
ghost use Rattle.vob_flow.specs.Lists.{lists_of};

use crate::grammar::Symbol;
use crate::state::Move;
use crate::table::{Action, Table};
use std::alloc::{AllocError, Global};
use vob::Vob;
use vob_flow::reach;
use vob_rows::Graph;

impl Table<'_> {
    /// Returns whether a move of a state is left.
    fn is_left(&self, state: usize, step: &Move) -> bool
        ensures { IsTrue result ↔ IsLeft self.now.cells state step.now.symbol step.now.state }
    {
        match step.symbol {
            Symbol::Terminal(terminal) => self.has(state, terminal, Action::Shift(step.state)),
            Symbol::Nonterminal(_) => true,
        }
    }

    /// Returns the states to which the moves of a state that are left lead.
    fn targets(&self, alloc: Global, state: usize) -> Result<Vec<usize>, AllocError>
        requires { state < length self.now.machine.sets }
        ensures { IfOk result (λ list. AreTargets self.now state list.items) }
    {
        let moves = &self.lookaheads().automaton().moves[state];
        let mut list = Vec::new(alloc);
        for place in 0..moves.len() {
            let step = &moves[place];
            if self.is_left(state, step) {
                list.push(step.state)?;
            }
        }
        Ok(list)
    }

    /// Returns those of all states.
    fn all_targets(&self, alloc: Global) -> Result<Vec<Vec<usize>>, AllocError>
        ensures { IfOk result (λ lists.
            AreTargetsBelow self.now (length self.now.machine.sets) (lists_of lists.items)) }
    {
        let mut lists = Vec::new(alloc);
        for state in 0..self.lookaheads().automaton().sets.len() {
            lists.push(self.targets(alloc, state)?)?;
        }
        Ok(lists)
    }

    /// Returns a bit for each state: whether moves by nonterminals and shifts of the table lead to it
    /// from state 0. A parser enters no other state. bison leaves the others out, and numbers those
    /// that stay in their order.
    ///
    /// Fails if memory runs out.
    pub fn entered(&self, alloc: Global) -> Result<Vob, AllocError>
        ensures { IfOk result (λ set. AreEntered self.now set.bits) }
    {
        // A proof knows from this call that there is a state.
        let _states = self.lookaheads();
        let lists = self.all_targets(alloc)?;
        let Ok(graph) = Graph::from_lists(alloc, &lists) else {
            return Err(AllocError);
        };
        let set = reach(alloc, &graph, &[0])?;
        Ok(set)
    }
}
