//! Which nonterminals of a grammar derive themselves.
ghost use Rattle.std.specs.Prelude.{◌≡◌, ◌≢◌, ◌↔◌, ◌<◌, ℕ, [], length, IfErr, IfNone, IfOk, IfSome, IsTrue, OnOk, Err};
ghost use Rattle.vob_lr.specs.Cycles.{DerivesItself, IsLowest};
ghost use Rattle.vob_lr.specs.Faults.{IsBadRule, IsWellFormed, MayRefuseRules};
ghost use Rattle.vob_lr.specs.Units.{AreUnits, GainEdges, IsAlone, IsByOne, IsUnitBy, LeadsBack, total_weight, weight};

use crate::empty::{is_null, number_at, solve_nullable};
use crate::grammar::{Grammar, GrammarError, Rule, Symbol, check_rules};
use std::alloc::{AllocError, Global};
use vob::Vob;
use vob_flow::strong_components;
use vob_rows::Graph;

/// Returns 0 for a nonterminal of a set, and 1 for any other symbol.
fn weigh(nullable: &Vob, symbol: &Symbol) -> usize
    ensures { result ≡ weight nullable.now.bits symbol.now }
{
    if is_null(nullable, symbol) { 0 } else { 1 }
}

/// Returns how many of some symbols aren't nonterminals of a set.
fn weigh_all(nullable: &Vob, symbols: &[Symbol]) -> usize
    ensures { result ≡ total_weight nullable.now.bits symbols.now }
{
    let mut total: usize = 0;
    for symbol in symbols {
        total += weigh(nullable, symbol);
    }
    total
}

/// Adds an edge from the left side of a rule to a symbol of its right side, if that is a nonterminal
/// and all of the right side's weight is its own.
fn add_unit(
    left: usize,
    total: usize,
    nullable: &Vob,
    symbol: &Symbol,
    edges: &mut Vec<(usize, usize)>,
) -> Result<(), AllocError>
    ensures { OnOk result (GainEdges (IsAlone nullable.now.bits left total symbol.now)
        edges.old.items edges.new.items) }
{
    if total != weigh(nullable, symbol) {
        return Ok(());
    }
    if let Symbol::Nonterminal(nonterminal) = symbol {
        edges.push((left, *nonterminal))?;
    }
    Ok(())
}

/// Does that for all symbols on the right side of a rule.
fn add_units(rule: &Rule, nullable: &Vob, edges: &mut Vec<(usize, usize)>) -> Result<(), AllocError>
    ensures { OnOk result (GainEdges (IsUnitBy nullable.now.bits rule.now)
        edges.old.items edges.new.items) }
{
    let total = weigh_all(nullable, &rule.right);
    for symbol in &rule.right {
        add_unit(rule.left, total, nullable, symbol, edges)?;
    }
    Ok(())
}

/// Returns an edge from the left side of each rule to each nonterminal on its right side beside which
/// there are nonterminals of a set alone.
fn units(alloc: Global, rules: &[Rule], nullable: &Vob) -> Result<Vec<(usize, usize)>, AllocError>
    ensures { IfOk result (λ edges.
        GainEdges (IsByOne (IsUnitBy nullable.now.bits) rules.now) [] edges.items) }
{
    let mut edges = Vec::new(alloc);
    for rule in rules {
        add_units(rule, nullable, &mut edges)?;
    }
    Ok(edges)
}

/// Returns a graph of the nonterminals: an edge leads from one to another if the other stands on a
/// right side of it, and all beside it there can become empty.
fn unit_graph(alloc: Global, grammar: &Grammar) -> Result<Graph, AllocError>
    requires { IsWellFormed grammar.now }
    ensures units { IfOk result (AreUnits grammar.now.rules.items) }
    ensures nodes { IfOk result (λ graph. length graph ≡ grammar.now.nonterminals) }
{
    let nullable = solve_nullable(alloc, grammar)?;
    let edges = units(alloc, &grammar.rules, &nullable)?;
    match Graph::from_edges(alloc, grammar.nonterminals, &edges) {
        Ok(graph) => Ok(graph),
        Err(_) => Err(AllocError),
    }
}

/// Returns whether an edge leads from a node to one of its component.
fn leads_back(graph: &Graph, roots: &[usize], node: usize) -> bool
    requires { node < length graph.now }
    ensures { IsTrue result ↔ LeadsBack graph.now roots.now node }
{
    let root = number_at(roots, node);
    graph
        .next(node)
        .iter()
        .any(|end| number_at(roots, *end) == root)
}

/// Returns the lowest node from which an edge leads to one of its component, or `None` if there is
/// none.
fn lowest_back(graph: &Graph, roots: &[usize]) -> Option<usize>
    ensures some { IfSome result (IsLowest (LeadsBack graph.now roots.now)) }
    ensures none { IfNone result
        ((n : ℕ) → n < length graph.now → ¬ LeadsBack graph.now roots.now n) }
{
    for node in 0..graph.nodes() {
        if leads_back(graph, roots, node) {
            return Some(node);
        }
    }
    None
}

/// Returns the lowest nonterminal of a grammar with sound rules that derives itself.
fn solve_cycle(alloc: Global, grammar: &Grammar) -> Result<Option<usize>, AllocError>
    requires { IsWellFormed grammar.now }
    ensures some { IfOk result (λ found.
        IfSome found (IsLowest (DerivesItself grammar.now.rules.items))) }
    ensures none { IfOk result (λ found.
        IfNone found ((a : ℕ) → ¬ DerivesItself grammar.now.rules.items a)) }
{
    let graph = unit_graph(alloc, grammar)?;
    let parts = strong_components(alloc, &graph)?;
    Ok(lowest_back(&graph, &parts.roots))
}

/// Returns the lowest nonterminal that derives itself by one step or more, or `None` if none does. A
/// sentence with such a nonterminal in a derivation has derivations without end.
///
/// Fails with the first rule that names a symbol that isn't there, or if memory runs out.
pub fn cycle(alloc: Global, grammar: &Grammar) -> Result<Option<usize>, GrammarError>
    ensures some { IfOk result (λ found.
        IfSome found (IsLowest (DerivesItself grammar.now.rules.items))) }
    ensures none { IfOk result (λ found.
        IfNone found ((a : ℕ) → ¬ DerivesItself grammar.now.rules.items a)) }

    // The rules are checked first, and memory is asked for only if there are nonterminals.
    ensures bad_symbol { (rule : ℕ)
        → (result ≡ Err (GrammarError.BadSymbol rule)) ↔ IsBadRule grammar.now rule }
    ensures memory { result ≡ Err GrammarError.Memory → grammar.now.nonterminals ≢ 0 }
    ensures refused { IfErr result (MayRefuseRules grammar.now) }
{
    check_rules(grammar)?;
    if grammar.nonterminals == 0 {
        return Ok(None);
    }
    let found = solve_cycle(alloc, grammar)?;
    Ok(found)
}
