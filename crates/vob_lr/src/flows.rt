//! How lookaheads flow between the items of states: what each item starts with, and which others it
//! draws from.
ghost use Rattle.std.specs.Prelude.{◌≡◌, ◌+◌, ◌<◌, ℕ, [], drop, length, slice_index_or, Contains, IfOk, OnOk};
ghost use Rattle.vob_lr.specs.Behind.{IsOfTrailer, IsTrailer};
ghost use Rattle.vob_lr.specs.Equations.{AreEquations, GainEach};
ghost use Rattle.vob_lr.specs.Faults.{IsRuleOf};
ghost use Rattle.vob_lr.specs.Flows.{FlowsFrom, FlowsOf, FlowsTo, IsKept, IsKeptBy, IsOpened};
ghost use Rattle.vob_lr.specs.Expansions.{Has};
ghost use Rattle.vob_lr.specs.Walked.{IsOfFirst, IsOfMember};
ghost use Rattle.vob_lr.specs.ItemSets.{HasItem};
ghost use Rattle.vob_lr.specs.Items.{HasNext};
ghost use Rattle.vob_lr.specs.Nodes.{member_total, node};
ghost use Rattle.vob_lr.specs.declared.grammar.Symbol.TheVariants.{Nonterminal};

use crate::equations::Equations;
use crate::follow::put_before;
use crate::grammar::{Rule, Symbol};
use crate::items::Items;
use crate::nodes::Nodes;
use crate::state::{Move, is_by};
use std::alloc::{AllocError, Global};
use std::marker::Model;
use vob::Vob;
use vob_rows::{BitRows, Row};

/// What lookaheads are found by. A contract sees the grammar, its states and their moves.
#[derive(Drop)]
pub(crate) struct Flows<'a> {
    pub items: &'a Items<'a>,
    pub nullable: &'a Vob,
    pub first: &'a BitRows,
    // The set of each nonterminal starts with the first items of its rules.
    pub opens: &'a Equations,
    pub nodes: &'a Nodes<'a>,
    pub moves: &'a [Vec<Move>],
}

impl<'a> Model for Flows<'a> {
    ghost use Rattle.vob_lr.specs.Flows.{HasTables};
    ghost use Rattle.vob_lr.specs.Lookaheads.{Machine};
    ghost use Rattle.vob_lr.specs.Rounds.{rows_of};

    ghost Value = { Machine };

    ghost view = { λ a. record { grammar = a.items.now; sets = a.nodes.now; moves = rows_of a.moves.now } };

    ghost invariant = { λ a. HasTables
        (record { grammar = a.items.now; sets = a.nodes.now; moves = rows_of a.moves.now })
        a.nullable.now.bits a.first.now.rows a.opens.now.starts };
}

impl<'a> Flows<'a> {
    /// Makes of a set the terminals that can begin the symbols behind one of a right side. Returns
    /// whether these can all become empty.
    fn begin(&self, rule: &Rule, dot: usize, begins: &mut Vob) -> bool
        requires rule { IsRuleOf self.now.grammar rule.now }
        requires dot { dot < length rule.now.right.items }
        requires begins { length begins.old.bits ≡ self.now.grammar.terminals }
        ensures len { length begins.new.bits ≡ length begins.old.bits }
        ensures trailer { IsTrailer self.now.grammar.rules.items
            (drop (dot + 1) rule.now.right.items) begins.new.bits result }
    {
        begins.set_all(false);
        let mut empty = true;
        for back in 0..rule.right.len() - 1 - dot {
            let symbol = &rule.right[rule.right.len() - 1 - back];
            empty = put_before(self.nullable, self.first, symbol, begins, empty);
        }
        empty
    }

    /// Lets items of a state start with some terminals, and draw from a node if `empty`.
    fn open_items(
        &self,
        state: usize,
        opened: &Row<'_>,
        from: usize,
        begins: &Vob,
        empty: bool,
        equations: &mut Equations,
    ) -> Result<(), AllocError>
        requires opened { (i : ℕ) → Has opened.now i → HasItem self.now.sets state i }
        requires sets { length equations.old.starts ≡ member_total self.now.sets }
        requires places { length begins.now.bits ≡ equations.old.places }
        ensures { OnOk result (GainEach (IsOfMember opened.now
            (λ i n y. (node self.now.sets state i ≡ n) × IsOfTrailer from begins.now.bits empty y))
            equations.old equations.new) }
    {
        for item in opened.iter_set_bits(..) {
            let to = self.nodes.number(state, item);
            equations.add_trailer(to, begins, empty, from)?;
        }
        Ok(())
    }

    /// Does that for the items that one with a nonterminal behind its dot brings. They start with
    /// what can begin the symbols behind it. If these can become empty, they draw from the item.
    fn open(
        &self,
        state: usize,
        number: usize,
        nonterminal: usize,
        begins: &mut Vob,
        equations: &mut Equations,
    ) -> Result<(), AllocError>
        requires item { HasItem self.now.sets state number }
        requires next { HasNext self.now.grammar.rules.items number (Nonterminal nonterminal) }
        requires begins { length begins.old.bits ≡ self.now.grammar.terminals }
        requires sets { length equations.old.starts ≡ member_total self.now.sets }
        requires places { equations.old.places ≡ self.now.grammar.terminals }
        ensures len { length begins.new.bits ≡ length begins.old.bits }
        ensures opened { OnOk result (GainEach (IsOpened self.now state number)
            equations.old equations.new) }
    {
        let item = self.items.item(number);
        let rule = &self.items.grammar().rules[item.rule];
        let empty = self.begin(rule, item.dot, begins);
        let from = self.nodes.number(state, number);
        let opened = self.opens.starts(nonterminal);
        self.open_items(state, &opened, from, begins, empty, equations)
    }

    /// Lets the item behind one draw from it in the state that a move leads to, if the move is by
    /// the symbol behind its dot.
    fn keep_by(
        &self,
        state: usize,
        number: usize,
        symbol: Symbol,
        by: Move,
        equations: &mut Equations,
    ) -> Result<(), AllocError>
        requires item { HasItem self.now.sets state number }
        requires next { HasNext self.now.grammar.rules.items number symbol }
        requires by { Contains (slice_index_or self.now.moves state []) by }
        requires sets { length equations.old.starts ≡ member_total self.now.sets }
        ensures { OnOk result (GainEach (IsKeptBy self.now state number symbol by)
            equations.old equations.new) }
    {
        // The number of items is in the range of its type: a proof knows it from this read.
        let _len = self.items.len();
        if !is_by(by, symbol) {
            return Ok(());
        }
        let from = self.nodes.number(state, number);
        let to = self.nodes.number(by.state, number + 1);
        equations.draw(to, from)
    }

    /// Does that for all moves of the state.
    fn keep(
        &self,
        state: usize,
        number: usize,
        symbol: Symbol,
        equations: &mut Equations,
    ) -> Result<(), AllocError>
        requires item { HasItem self.now.sets state number }
        requires next { HasNext self.now.grammar.rules.items number symbol }
        requires sets { length equations.old.starts ≡ member_total self.now.sets }
        ensures { OnOk result (GainEach (IsKept self.now state number)
            equations.old equations.new) }
    {
        let moves = self.moves;
        let row = &moves[state];
        for step in 0..row.len() {
            self.keep_by(state, number, symbol, row[step], equations)?;
        }
        Ok(())
    }

    /// Does both for an item of a state.
    fn flow(
        &self,
        state: usize,
        number: usize,
        begins: &mut Vob,
        equations: &mut Equations,
    ) -> Result<(), AllocError>
        requires item { HasItem self.now.sets state number }
        requires begins { length begins.old.bits ≡ self.now.grammar.terminals }
        requires sets { length equations.old.starts ≡ member_total self.now.sets }
        requires places { equations.old.places ≡ self.now.grammar.terminals }
        ensures len { length begins.new.bits ≡ length begins.old.bits }
        ensures flows { OnOk result (GainEach (FlowsFrom self.now state number)
            equations.old equations.new) }
    {
        let symbol = match self.items.next(number) {
            Some(symbol) => symbol,
            None => return Ok(()),
        };
        self.keep(state, number, symbol, equations)?;
        match symbol {
            Symbol::Terminal(_) => Ok(()),
            Symbol::Nonterminal(a) => self.open(state, number, a, begins, equations),
        }
    }

    /// Does both for all items of a state.
    fn flow_state(
        &self,
        state: usize,
        begins: &mut Vob,
        equations: &mut Equations,
    ) -> Result<(), AllocError>
        requires state { state < length self.now.sets }
        requires begins { length begins.old.bits ≡ self.now.grammar.terminals }
        requires sets { length equations.old.starts ≡ member_total self.now.sets }
        requires places { equations.old.places ≡ self.now.grammar.terminals }
        ensures len { length begins.new.bits ≡ length begins.old.bits }
        ensures flows { OnOk result (GainEach (FlowsOf self.now state)
            equations.old equations.new) }
    {
        let items = self.nodes.items(state);
        for place in 0..items.len() {
            self.flow(state, items[place], begins, equations)?;
        }
        Ok(())
    }

    /// Does both for all items of all states.
    fn flow_all(&self, begins: &mut Vob, equations: &mut Equations) -> Result<(), AllocError>
        requires begins { length begins.old.bits ≡ self.now.grammar.terminals }
        requires sets { length equations.old.starts ≡ member_total self.now.sets }
        requires places { equations.old.places ≡ self.now.grammar.terminals }
        ensures { OnOk result
            (GainEach (IsOfFirst (length self.now.sets) (λ q n y. FlowsOf self.now q n y))
            equations.old equations.new) }
    {
        for state in 0..self.moves.len() {
            self.flow_state(state, begins, equations)?;
        }
        Ok(())
    }

    /// Returns what the nodes start with, and which others each draws from.
    pub fn equations(&self, alloc: Global) -> Result<Equations, AllocError>
        ensures { IfOk result
            (AreEquations (member_total self.now.sets) self.now.grammar.terminals (FlowsTo self.now)) }
    {
        let terminals = self.items.grammar().terminals;
        let mut begins = Vob::from_elem(alloc, false, terminals)?;
        let mut equations = Equations::new(alloc, self.nodes.len(), terminals)?;
        self.flow_all(&mut begins, &mut equations)?;
        Ok(equations)
    }
}
