//! Items, closures and states of grammars worked by hand.
use super::grammar::{empty, grammar_of};
use super::support::{same, same_list};
use std::process::Abort;
use vob_lr::{Closures, GrammarError, Item, Items, Move, Symbol, states};

/// The names of nonterminals and of terminals, rules, and for each state its items and its moves, by
/// the name of a symbol and the number of a state.
struct Row {
    names: (&'static str, &'static str),
    rules: &'static [&'static str],
    items: &'static [&'static [usize]],
    moves: &'static [&'static [(u8, usize)]],
}

#[rattlefmt::skip]
const GRAMMARS: [Row; 5] = [
    // The grammar of the textbooks, whose automaton has 12 states. S stands for E', i for id. The
    // items of rule 0 are 0 and 1, and those of the others begin at 2, 6, 8, 12, 14 and 18.
    Row { names: ("SETF", "+*()i"), rules: &["S=E", "E=E+T", "E=T", "T=T*F", "T=F", "F=(E)", "F=i"],
        items: &[&[0, 2, 6, 8, 12, 14, 18], &[2, 6, 8, 12, 14, 15, 18], &[19], &[1, 3], &[7, 9],
            &[13], &[3, 16], &[4, 8, 12, 14, 18], &[10, 14, 18], &[17], &[5, 9], &[11]],
        moves: &[&[(b'(', 1), (b'i', 2), (b'E', 3), (b'T', 4), (b'F', 5)],
            &[(b'(', 1), (b'i', 2), (b'E', 6), (b'T', 4), (b'F', 5)], &[], &[(b'+', 7)], &[(b'*', 8)],
            &[], &[(b'+', 7), (b')', 9)], &[(b'(', 1), (b'i', 2), (b'T', 10), (b'F', 5)],
            &[(b'(', 1), (b'i', 2), (b'F', 11)], &[], &[(b'*', 8)], &[]] },
    // A is empty: its item is complete at once.
    Row { names: ("SA", "b"), rules: &["S=Ab", "A="],
        items: &[&[0, 3], &[1], &[2]], moves: &[&[(b'A', 1)], &[(b'b', 2)], &[]] },
    // A becomes A.
    Row { names: ("SA", "a"), rules: &["S=A", "A=A", "A=a"],
        items: &[&[0, 2, 4], &[5], &[1, 3]], moves: &[&[(b'a', 1), (b'A', 2)], &[], &[]] },
    // A state leads to itself. The start has the item of rule 0 alone.
    Row { names: ("S", "a"), rules: &["S=aS", "S="],
        items: &[&[0], &[0, 1, 3], &[2]],
        moves: &[&[(b'a', 1)], &[(b'a', 1), (b'S', 2)], &[]] },
    // B has no rule.
    Row { names: ("SB", ""), rules: &["S=B"], items: &[&[0], &[1]], moves: &[&[(b'B', 1)], &[]] },
];

/// The name of a symbol, or 0 if it has none.
fn name_of(names: (&str, &str), symbol: Symbol) -> u8 {
    match symbol {
        Symbol::Terminal(terminal) => byte(names.1, terminal),
        Symbol::Nonterminal(nonterminal) => byte(names.0, nonterminal),
    }
}

/// A byte of a text, or 0.
fn byte(text: &str, index: usize) -> u8 {
    text.as_bytes().get(index).copied().unwrap_or(0)
}

/// Compares what follows a set by a symbol with the numbers of its items.
fn check_goto(
    rt: &(impl Abort + AllocGlobal),
    closures: &Closures<'_>,
    set: &[usize],
    symbol: Symbol,
    items: &[usize],
) {
    let next = closures.goto(rt.alloc(), set, symbol).expect(rt, "a set");
    same_list(rt, "the items that follow", &next, items);
}

/// Compares moves with the names of their symbols and the numbers of their states.
fn check_moves(rt: &impl Abort, names: (&str, &str), moves: &[Move], wanted: &[(u8, usize)]) {
    same(rt, "the moves", 0, moves.len(), wanted.len());
    for (own, (name, state)) in moves.iter().zip(wanted) {
        same(rt, "a symbol", *state, name_of(names, own.symbol), *name);
        same(rt, "a state", *state, own.state, *state);
    }
}

/// Compares the states of the grammar of a row.
fn check_states(rt: &(impl Abort + AllocGlobal), row: &Row) {
    let made = states(rt.alloc(), &grammar_of(rt, row.names, row.rules)).expect(rt, "states");
    same(rt, "the states", 0, made.sets.len(), row.items.len());
    same(rt, "the moves", 0, made.moves.len(), row.moves.len());
    for (set, items) in made.sets.iter().zip(row.items) {
        same_list(rt, "the items", set, items);
    }
    for (moves, wanted) in made.moves.iter().zip(row.moves) {
        check_moves(rt, row.names, moves, wanted);
    }
}

#[test]
fn states_are_those_of_the_textbook(rt: HostRuntime) {
    for row in &GRAMMARS {
        check_states(&rt, row);
    }
}

#[test]
fn items_are_numbered_rule_by_rule(rt: HostRuntime) {
    let row = &GRAMMARS[0];
    let grammar = grammar_of(&rt, row.names, row.rules);
    let items = Items::new(rt.alloc(), &grammar).expect(&rt, "items");
    same(&rt, "the items", 0, items.len(), 20);
    let found = items.number(Item { rule: 5, dot: 3 });
    same(&rt, "a number", 17, found, Some(17));
    let found = items.number(Item { rule: 5, dot: 4 });
    same(&rt, "a number", 18, found, None);
    let found = items.number(Item { rule: 7, dot: 0 });
    same(&rt, "a number", 20, found, None);
}

#[test]
fn a_symbol_that_is_not_ahead_leaves_nothing(rt: HostRuntime) {
    let row = &GRAMMARS[0];
    let grammar = grammar_of(&rt, row.names, row.rules);
    let closures = Closures::new(rt.alloc(), &grammar).expect(&rt, "closures");
    let start = [0, 2, 6, 8, 12, 14, 18];
    check_goto(&rt, &closures, &start, Symbol::Terminal(0), &[]);
    check_goto(&rt, &closures, &start, Symbol::Terminal(9), &[]);
    check_goto(&rt, &closures, &start, Symbol::Nonterminal(2), &[7, 9]);
    // An item that isn't there has no symbol behind its dot.
    check_goto(&rt, &closures, &[20, usize::MAX], Symbol::Terminal(0), &[]);
}

#[test]
fn a_closure_has_what_stands_behind_the_dots(rt: HostRuntime) {
    let row = &GRAMMARS[0];
    let grammar = grammar_of(&rt, row.names, row.rules);
    let closures = Closures::new(rt.alloc(), &grammar).expect(&rt, "closures");
    assert!(&rt; closures.items().len() == 20);
    let closure = closures.closure(rt.alloc(), &[10]).expect(&rt, "a set");
    same_list(&rt, "the items", &closure, &[10, 14, 18]);
    let closure = closures.closure(rt.alloc(), &[19, 3]).expect(&rt, "a set");
    same_list(&rt, "the items", &closure, &[3, 19]);
}

#[test]
fn a_grammar_without_rules_has_no_states(rt: HostRuntime) {
    let refused = states(rt.alloc(), &empty(&rt, 2, 2)).err();
    same(&rt, "states", 0, refused, Some(GrammarError::NoRule));
    let grammar = grammar_of(&rt, ("A", "a"), &["A=aA", "A=b"]);
    let refused = states(rt.alloc(), &grammar).err();
    let bad = GrammarError::BadSymbol { rule: 1 };
    same(&rt, "states", 1, refused, Some(bad));
}
