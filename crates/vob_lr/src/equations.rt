//! Sets of terminals, each with some to start with and others to draw from: the least such sets.
ghost use Rattle.std.specs.Prelude.{◌≡◌, ◌<◌, [], false, length, replicate, slice_index_or, IfOk, OnOk};
ghost use Rattle.vob.specs.Vobs.{AreOfLength};
ghost use Rattle.vob_lr.specs.Behind.{IsOfTrailer};
ghost use Rattle.vob_lr.specs.Equations.{AreSolved, At, GainEach, HasAt, IsTerminalOf};
ghost use Rattle.vob_lr.specs.Heads.{HasPlace};
ghost use Rattle.vob_lr.specs.declared.grammar.Symbol.TheVariants.{Nonterminal, Terminal};

use crate::grammar::Symbol;
use std::alloc::{AllocError, Global};
use std::marker::Model;
use vob::Vob;
use vob_flow::{Masks, least};
use vob_rows::{BitRows, Graph, Row};

/// What some sets start with, and from which others they draw. A contract sees the sets, how many
/// places each has, and an edge from a set to each that it draws from.
#[derive(Drop)]
pub(crate) struct Equations {
    starts: BitRows,
    edges: Vec<(usize, usize)>,
}

impl Model for Equations {
    ghost use Rattle.vob_lr.specs.Equations.{AreFromSets, System};

    ghost Value = { System };

    ghost view = { λ e. record {
      starts = e.starts.rows;
      places = e.starts.columns;
      edges = e.edges.items;
    } };

    ghost invariant = { λ e. AreFromSets e.starts.rows e.edges.items };
}

impl Equations {
    /// Makes equations of sets with these places each, which start with nothing and draw from none.
    pub fn new(alloc: Global, sets: usize, places: usize) -> Result<Equations, AllocError>
        ensures starts { IfOk result (λ made.
            made.starts ≡ replicate sets (replicate places false)) }
        ensures places { IfOk result (λ made. made.places ≡ places) }
        ensures edges { IfOk result (λ made. made.edges ≡ []) }
    {
        let starts = BitRows::new(alloc, sets, places)?;
        let edges = Vec::new(alloc);
        Ok(Equations { starts, edges })
    }

    /// Returns what a set starts with.
    pub fn starts(&self, set: usize) -> Row<'_>
        requires { set < length self.now.starts }
        ensures { result ≡ slice_index_or self.now.starts set [] }
    {
        self.starts.row(set)
    }

    /// Lets a set start with a terminal.
    pub fn start(&mut self, set: usize, terminal: usize)
        requires set { set < length self.old.starts }
        requires place { terminal < self.old.places }
        ensures { GainEach (At set (λ x. Terminal terminal ≡ x)) self.old self.new }
    {
        // Each set has as many places: a proof knows it from this call.
        let _places = self.starts.columns();
        self.starts.set(set, terminal, true);
    }

    /// Lets a set start with some terminals.
    fn start_with(&mut self, set: usize, terminals: &Vob)
        requires set { set < length self.old.starts }
        requires long { length terminals.now.bits ≡ self.old.places }
        ensures { GainEach (At set (IsTerminalOf terminals.now.bits)) self.old self.new }
    {
        // Each set has as many places: a proof knows it from this call.
        let _places = self.starts.columns();
        self.starts.or_with(set, &Row::of(terminals));
    }

    /// Lets a set draw from another.
    pub fn draw(&mut self, set: usize, from: usize) -> Result<(), AllocError>
        requires { set < length self.old.starts }
        ensures { OnOk result (GainEach (At set (λ x. Nonterminal from ≡ x)) self.old self.new) }
    {
        self.edges.push((set, from))?;
        Ok(())
    }

    /// Lets a set start with a terminal, or draw from the set of a nonterminal.
    pub fn add(&mut self, set: usize, symbol: &Symbol) -> Result<(), AllocError>
        requires set { set < length self.old.starts }
        requires place { HasPlace self.old.places symbol.now }
        ensures { OnOk result (GainEach (At set (λ x. symbol.now ≡ x)) self.old self.new) }
    {
        match symbol {
            Symbol::Terminal(terminal) => {
                self.start(set, *terminal);
                Ok(())
            }
            Symbol::Nonterminal(nonterminal) => self.draw(set, *nonterminal),
        }
    }

    /// Lets a set start with what can begin some symbols, and draw from another where they can become
    /// empty.
    pub fn add_trailer(
        &mut self,
        set: usize,
        begins: &Vob,
        empty: bool,
        from: usize,
    ) -> Result<(), AllocError>
        requires set { set < length self.old.starts }
        requires long { length begins.now.bits ≡ self.old.places }
        ensures { OnOk result
            (GainEach (At set (IsOfTrailer from begins.now.bits empty)) self.old self.new) }
    {
        self.start_with(set, begins);
        if !empty {
            return Ok(());
        }
        self.draw(set, from)
    }

    /// Returns sets that have what they start with, and what they draw from one another.
    pub fn solve(self, alloc: Global) -> Result<BitRows, AllocError>
        ensures count { IfOk result (λ made. length made.rows ≡ length self.starts) }
        ensures columns { IfOk result (λ made. made.columns ≡ self.places) }
        ensures long { IfOk result (λ made. AreOfLength self.places made.rows) }
        ensures solved { IfOk result (λ made. AreSolved (HasAt self) made.rows) }
    {
        let Equations { starts, edges } = self;
        let mut sets = starts;
        let Ok(graph) = Graph::from_edges(alloc, sets.rows(), &edges) else {
            return Err(AllocError);
        };
        let Ok(_) = least(alloc, &mut sets, &graph, Masks::All) else {
            return Err(AllocError);
        };
        // Each set has as many places: a proof knows it from this call.
        let _places = sets.columns();
        Ok(sets)
    }
}
