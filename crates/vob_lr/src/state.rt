//! The states of the automaton of a grammar, and the moves between them.
ghost use Rattle.std.specs.Prelude.{◌≡◌, ◌↔◌, ℕ, ◌<◌, [], length, slice_index_or, AllPairs, Contains, Err, IfErr, IfOk, IsTrue, Some};
ghost use Rattle.vob_flow.specs.Lists.{lists_of};
ghost use Rattle.vob_lr.specs.Faults.{IsBadRule, MayRefuseGrammar};
ghost use Rattle.vob_lr.specs.Ahead.{AreAhead, symbol_with};
ghost use Rattle.vob_lr.specs.Rounds.{AreMovesFrom, AreSome, HasEntered, rows_of};
ghost use Rattle.vob_lr.specs.States.{AreStates, Precedes};

use crate::closure::Closures;
use crate::grammar::{Grammar, GrammarError, Symbol};
use indexmap::IndexSet;
use std::alloc::{AllocError, Global};
use vob::Vob;

/// A move of a state: the symbol that the dot passes, and the number of the state that follows.
#[derive(Clone, Copy, Debug, PartialEq, Eq)]
pub struct Move {
    pub symbol: Symbol,
    pub state: usize,
}

/// The states of a grammar, numbered from 0 on: the numbers of each one's items, in rising order, and
/// its moves.
#[derive(Drop)]
pub struct Automaton {
    pub sets: Vec<Vec<usize>>,
    pub moves: Vec<Vec<Move>>,
}

/// Returns the symbol with a number.
fn symbol_at(terminals: usize, number: usize) -> Symbol
    ensures { result ≡ symbol_with terminals number }
{
    if number < terminals {
        Symbol::Terminal(number)
    } else {
        Symbol::Nonterminal(number - terminals)
    }
}

/// Returns the number of a set of items among others, to which it is added if it isn't there.
fn enter(sets: &mut IndexSet<Vec<usize>>, set: Vec<usize>) -> Result<usize, AllocError>
    ensures { IfOk result (λ state. HasEntered (lists_of sets.old.keys) set.items
        (lists_of sets.new.keys) state) }
{
    let Ok((state, _)) = sets.insert_full(set) else {
        return Err(AllocError);
    };
    Ok(state)
}

/// Returns the moves of a state by the symbols with some numbers. Adds the states that follow to
/// those that were found.
fn moves_by(
    alloc: Global,
    closures: &Closures<'_>,
    sets: &mut IndexSet<Vec<usize>>,
    from: usize,
    ahead: &Vob,
) -> Result<Vec<Move>, AllocError>
    requires from { from < length sets.old.keys }
    requires some { AreSome closures.now.rules.items (lists_of sets.old.keys) }
    requires ahead { AreAhead closures.now (slice_index_or (lists_of sets.old.keys) from [])
        ahead.now.bits }
    ensures { IfOk result (λ moves. AreMovesFrom closures.now (lists_of sets.old.keys) from
        (lists_of sets.new.keys) moves.items) }
{
    let terminals = closures.items().grammar().terminals;
    let mut moves = Vec::new(alloc);
    for number in ahead.iter_set_bits(..) {
        let symbol = symbol_at(terminals, number);
        let next = closures.goto(alloc, &sets[from], symbol)?;
        let state = enter(sets, next)?;
        moves.push(Move { symbol, state })?;
    }
    Ok(moves)
}

/// Does that for all symbols behind its dots.
fn moves_from(
    alloc: Global,
    closures: &Closures<'_>,
    sets: &mut IndexSet<Vec<usize>>,
    from: usize,
) -> Result<Vec<Move>, AllocError>
    requires from { from < length sets.old.keys }
    requires some { AreSome closures.now.rules.items (lists_of sets.old.keys) }
    ensures { IfOk result (λ moves. AreMovesFrom closures.now (lists_of sets.old.keys) from
        (lists_of sets.new.keys) moves.items) }
{
    let ahead = closures.ahead(alloc, &sets[from])?;
    moves_by(alloc, closures, sets, from, &ahead)
}

/// Returns whether a move is by a symbol.
pub(crate) fn is_by(by: Move, symbol: Symbol) -> bool
    ensures { IsTrue result ↔ (by.symbol ≡ symbol) }
{
    by.symbol == symbol
}

/// Returns whether a symbol comes before another: a terminal before a nonterminal, and of a kind the
/// lower number.
fn comes_before(one: Symbol, other: Symbol) -> bool
    ensures { IsTrue result ↔ Precedes one other }
{
    match (one, other) {
        (Symbol::Terminal(t), Symbol::Terminal(u)) => t < u,
        (Symbol::Terminal(_), Symbol::Nonterminal(_)) => true,
        (Symbol::Nonterminal(_), Symbol::Terminal(_)) => false,
        (Symbol::Nonterminal(a), Symbol::Nonterminal(b)) => a < b,
    }
}

/// Returns the state to which one of some moves leads by a symbol, or `None` if none does. The moves
/// must be in the order of their symbols.
pub(crate) fn find_move(moves: &[Move], symbol: Symbol) -> Option<usize>
    requires { AllPairs (λ one other. Precedes one.symbol other.symbol) moves.now }
    ensures { (p : ℕ) → (result ≡ Some p)
        ↔ Contains moves.now (record { symbol = symbol; state = p }) }
{
    let mut start = 0;
    let mut end = moves.len();
    'halves: while start < end {
        let middle = start + (end - start) / 2;
        let found = moves[middle];
        if is_by(found, symbol) {
            return Some(found.state);
        }
        if comes_before(found.symbol, symbol) {
            start = middle + 1;
        } else {
            end = middle;
        }
    }
    None
}

/// Returns sets as a list.
fn listed(alloc: Global, sets: IndexSet<Vec<usize>>) -> Result<Vec<Vec<usize>>, AllocError>
    ensures { IfOk result (λ list. list.items ≡ sets.keys) }
{
    sets.into_iter().collect(alloc)
}

/// Returns the states of a grammar that has a rule.
fn states_of(alloc: Global, closures: &Closures<'_>) -> Result<Automaton, AllocError>
    requires { 0 < length closures.now.rules.items }
    ensures { IfOk result (λ made. AreStates closures.now.rules.items
        (lists_of made.sets.items) (rows_of made.moves.items)) }
{
    let mut sets = IndexSet::new(alloc);
    enter(&mut sets, closures.start(alloc)?)?;
    let mut moves = Vec::new(alloc);
    'rounds: while moves.len() < sets.len() {
        let row = moves_from(alloc, closures, &mut sets, moves.len())?;
        moves.push(row)?;
    }
    let sets = listed(alloc, sets)?;
    Ok(Automaton { sets, moves })
}

/// Returns the states of a grammar's automaton, and the moves of each: terminals first, and lower
/// numbers first. State 0 is the start: the closure of rule 0 with the dot before all. As in bison,
/// rule 0 should be that of a nonterminal of its own: the start symbol, and the terminal for the
/// end. States are numbered as a breadth-first walk finds them.
///
/// Fails if there is no rule, with the first rule that names a symbol that isn't there, or if
/// memory runs out.
pub fn states(alloc: Global, grammar: &Grammar) -> Result<Automaton, GrammarError>
    ensures states { IfOk result (λ made. AreStates grammar.now.rules.items
        (lists_of made.sets.items) (rows_of made.moves.items)) }

    // The rules are checked first.
    ensures no_rule { (result ≡ Err GrammarError.NoRule) ↔ (grammar.now.rules.items ≡ []) }
    ensures bad_symbol { (rule : ℕ)
        → (result ≡ Err (GrammarError.BadSymbol rule)) ↔ IsBadRule grammar.now rule }
    ensures refused { IfErr result (MayRefuseGrammar grammar.now) }
{
    if grammar.rules.is_empty() {
        return Err(GrammarError::NoRule);
    }
    let closures = Closures::new(alloc, grammar)?;
    let made = states_of(alloc, &closures)?;
    Ok(made)
}
