//! The lookaheads of a grammar's states, by which a parser knows when an item is complete.
ghost use Rattle.std.specs.Prelude.{◌≡◌, ◌↔◌, ℕ, [], Err, IfErr, IfNone, IfOk, IfSome, IsTrue, OnOk, Some};
ghost use Rattle.vob_flow.specs.Lists.{lists_of};
ghost use Rattle.vob_lr.specs.Faults.{IsBadRule, IsWellFormed, MayRefuseGrammar};
ghost use Rattle.vob_lr.specs.Flows.{HaveLookaheads};
ghost use Rattle.vob_lr.specs.ItemSets.{HasItem};
ghost use Rattle.vob_lr.specs.Lookaheads.{AreLookaheads, HasMove, Reduces, machine_of};
ghost use Rattle.vob_lr.specs.Rounds.{rows_of};
ghost use Rattle.vob_lr.specs.States.{AreStates};

use crate::closure::expansion_equations;
use crate::empty::solve_nullable;
use crate::first::solve_first;
use crate::flows::Flows;
use crate::grammar::{Grammar, GrammarError, Symbol, check_rules};
use crate::items::Items;
use crate::nodes::{Nodes, offsets_of};
use crate::state::{Automaton, find_move, states};
use std::alloc::{AllocError, Global};
use std::marker::Model;
use vob_rows::{BitRows, Row};

/// The states of a grammar, and for each item of each state its lookaheads: the terminals that may
/// follow once it is complete. A contract sees the grammar, its states and their moves.
#[derive(Drop)]
pub struct Lookaheads<'a> {
    items: Items<'a>,
    automaton: Automaton,
    // The number of the first node of each state.
    offsets: Vec<usize>,
    // A set for each node, with a bit for each terminal.
    rows: BitRows,
}

impl<'a> Model for Lookaheads<'a> {
    ghost use Rattle.vob_lr.specs.Flows.{AreFilled};
    ghost use Rattle.vob_lr.specs.Lookaheads.{Machine, machine_of};

    ghost Value = { Machine };

    ghost view = { λ a. machine_of a.items a.automaton };

    ghost invariant = { λ a.
        AreFilled (machine_of a.items a.automaton) a.offsets.items a.rows.rows };
}

/// Returns the lookaheads of the nodes of a grammar with sound rules.
fn solve_lookaheads(
    alloc: Global,
    items: &Items<'_>,
    automaton: &Automaton,
    nodes: &Nodes<'_>,
) -> Result<BitRows, AllocError>
    requires rules { IsWellFormed items.now }
    requires states { AreStates items.now.rules.items (lists_of automaton.now.sets.items)
        (rows_of automaton.now.moves.items) }
    requires nodes { nodes.now ≡ lists_of automaton.now.sets.items }
    ensures { IfOk result (λ rows.
        HaveLookaheads (machine_of items.now automaton.now) rows.rows) }
{
    let grammar = items.grammar();
    let nullable = solve_nullable(alloc, grammar)?;
    let first = solve_first(alloc, grammar, &nullable)?;
    let opens = expansion_equations(alloc, grammar, items)?;
    let flows = Flows {
        items,
        nullable: &nullable,
        first: &first,
        opens: &opens,
        nodes,
        moves: &automaton.moves,
    };
    let equations = flows.equations(alloc)?;
    let rows = equations.solve(alloc)?;
    Ok(rows)
}

impl<'a> Lookaheads<'a> {
    /// Finds the states of a grammar, and their lookaheads.
    ///
    /// Fails if there is no rule, with the first rule that names a symbol that isn't there, or if
    /// memory runs out.
    pub fn new(alloc: Global, grammar: &'a Grammar) -> Result<Lookaheads<'a>, GrammarError>
        ensures grammar { IfOk result (λ made. made.grammar ≡ grammar.now) }
        ensures sound { OnOk result (IsWellFormed grammar.now) }

        // The rules are checked first.
        ensures no_rule { (result ≡ Err GrammarError.NoRule) ↔ (grammar.now.rules.items ≡ []) }
        ensures bad_symbol { (rule : ℕ)
            → (result ≡ Err (GrammarError.BadSymbol rule)) ↔ IsBadRule grammar.now rule }
        ensures refused { IfErr result (MayRefuseGrammar grammar.now) }
    {
        let automaton = states(alloc, grammar)?;
        check_rules(grammar)?;
        let offsets = offsets_of(alloc, &automaton.sets)?;
        let nodes = Nodes {
            sets: &automaton.sets,
            offsets: &offsets,
        };
        let items = Items::new(alloc, grammar)?;
        let rows = solve_lookaheads(alloc, &items, &automaton, &nodes)?;
        Ok(Lookaheads {
            items,
            automaton,
            offsets,
            rows,
        })
    }

    /// Returns the items, with their numbers.
    pub fn items(&self) -> &Items<'a>
        ensures { result.now ≡ self.now.grammar }
    {
        &self.items
    }

    /// Returns the states.
    pub fn automaton(&self) -> &Automaton
        ensures machine { machine_of self.now.grammar result.now ≡ self.now }
        ensures states { AreStates self.now.grammar.rules.items self.now.sets self.now.moves }
        ensures rules { IsWellFormed self.now.grammar }
    {
        &self.automaton
    }

    /// Returns the state to which a state moves by a symbol, or `None` if it doesn't.
    pub fn next(&self, state: usize, symbol: Symbol) -> Option<usize>
        ensures { (p : ℕ) → (result ≡ Some p) ↔ HasMove self.now.moves state symbol p }
    {
        find_move(self.automaton.moves.get(state)?, symbol)
    }

    /// Returns the lookaheads of an item of a state, with a bit for each terminal, or `None` if the
    /// state doesn't have the item.
    pub fn of(&self, state: usize, item: usize) -> Option<Row<'_>>
        ensures some { IfSome result (λ set. AreLookaheads self.now state item set) }
        ensures none { IfNone result (¬ HasItem self.now.sets state item) }
    {
        let nodes = Nodes {
            sets: &self.automaton.sets,
            offsets: &self.offsets,
        };
        let number = nodes.number_if(state, item)?;
        Some(self.rows.row(number))
    }

    /// Returns whether a parser may reduce by a rule in a state if a terminal is ahead: whether it is
    /// a lookahead of the rule's complete item.
    pub fn reduces(&self, state: usize, terminal: usize, rule: usize) -> bool
        ensures { IsTrue result ↔ Reduces self.now state terminal rule }
    {
        if rule >= self.items.grammar().rules.len() {
            return false;
        }
        match self.of(state, self.items.complete(rule)) {
            Some(set) => set.get(terminal) == Some(true),
            None => false,
        }
    }
}
