//! Lookaheads of grammars worked by hand, and handles by them.
use super::grammar::grammar_of;
use super::support::same;
use crate::handles::has_handle;
use std::process::Abort;
use vob_lr::Lookaheads;

/// The names of nonterminals and of terminals, rules, and for each item of each state, by their
/// numbers, its lookaheads.
struct Row {
    names: (&'static str, &'static str),
    rules: &'static [&'static str],
    ahead: &'static [(usize, usize, &'static str)],
}

#[rattlefmt::skip]
const GRAMMARS: [Row; 4] = [
    // The textbooks' grammar of assignments through pointers. FOLLOW of R has =, but R isn't complete
    // before = in state 4, where the start led by L.
    Row { names: ("ASLR", "$=*i"), rules: &["A=S$", "S=L=R", "S=R", "L=*R", "L=i", "R=L"],
        ahead: &[(0, 0, ""), (0, 3, "$"), (0, 7, "$"), (0, 9, "$="), (0, 12, "$="), (0, 14, "$"),
            (1, 9, "$="), (1, 10, "$="), (1, 12, "$="), (1, 14, "$="), (2, 13, "$="), (3, 1, ""),
            (4, 4, "$"), (4, 15, "$"), (5, 8, "$"), (6, 15, "$="), (7, 11, "$="), (8, 2, ""),
            (9, 5, "$"), (9, 9, "$"), (9, 12, "$"), (9, 14, "$"), (10, 6, "$")] },
    // B can become empty, so what follows S follows A too.
    Row { names: ("ZSAB", "$ab"), rules: &["Z=S$", "S=AB", "A=a", "B=b", "B="],
        ahead: &[(0, 0, ""), (0, 3, "$"), (0, 6, "$b"), (1, 7, "$b"), (2, 1, ""), (3, 4, "$"),
            (3, 8, "$"), (3, 10, "$"), (4, 2, ""), (5, 9, "$"), (6, 5, "$")] },
    // Loops: A becomes A, and its lookaheads come back to it.
    Row { names: ("ZA", "$a"), rules: &["Z=A$", "A=A", "A=a"],
        ahead: &[(0, 0, ""), (0, 3, "$"), (0, 5, "$"), (1, 6, "$"), (2, 1, ""), (2, 4, "$"),
            (3, 2, "")] },
    // LR(1), but not LALR(1): the two ways to e meet in one state, where both A and B end by both.
    Row { names: ("ZSAB", "$abcde"), rules: &["Z=S$", "S=aAd", "S=bBd", "S=aBc", "S=bAc", "A=e", "B=e"],
        ahead: &[(1, 4, "$"), (1, 12, "$"), (1, 19, "d"), (1, 21, "c"), (4, 20, "cd"),
            (4, 22, "cd")] },
];

/// Compares the lookaheads of an item of a state with these terminals.
fn check_ahead(
    rt: &impl Abort,
    found: &Lookaheads<'_>,
    state: usize,
    item: usize,
    terminals: &str,
    wanted: &str,
) {
    let set = found.of(state, item).expect(rt, "the state has the item");
    same(rt, "the terminals", item, set.len(), terminals.len());
    for (number, name) in terminals.as_bytes().iter().enumerate() {
        let has = wanted.as_bytes().contains(name);
        same(rt, "a terminal", item, set.get(number), Some(has));
    }
}

#[test]
fn lookaheads_are_those_of_the_textbook(rt: HostRuntime) {
    for row in &GRAMMARS {
        let grammar = grammar_of(&rt, row.names, row.rules);
        let found = Lookaheads::new(rt.alloc(), &grammar).expect(&rt, "lookaheads");
        for (state, item, wanted) in row.ahead {
            check_ahead(&rt, &found, *state, *item, row.names.1, wanted);
        }
    }
}

#[test]
fn an_item_that_a_state_does_not_have_has_no_lookaheads(rt: HostRuntime) {
    let row = &GRAMMARS[0];
    let grammar = grammar_of(&rt, row.names, row.rules);
    let found = Lookaheads::new(rt.alloc(), &grammar).expect(&rt, "lookaheads");
    for (state, item) in [
        (0, 1),
        (0, 16),
        (4, 3),
        (10, 7),
        (11, 0),
        (usize::MAX, usize::MAX),
    ] {
        same(&rt, "an item", item, found.of(state, item).is_some(), false);
    }
}

#[test]
fn handles_end_where_their_rules_are_reduced_by(rt: HostRuntime) {
    let row = &GRAMMARS[0];
    let grammar = grammar_of(&rt, row.names, row.rules);
    let found = Lookaheads::new(rt.alloc(), &grammar).expect(&rt, "lookaheads");
    // By rule 5 R becomes L. After L the end is next, and after * L also =.
    for (state, terminal, wanted) in [(4, 0, true), (4, 1, false), (6, 1, true), (6, 2, false)] {
        let ends = has_handle(rt.alloc(), &found, state, terminal, 5).expect(&rt, "an answer");
        same(&rt, "a handle", state, ends, Some(wanted));
    }
    // B never ends.
    let grammar = grammar_of(&rt, ("ZAB", "$a"), &["Z=A$", "A=a", "A=B", "B=aB"]);
    let found = Lookaheads::new(rt.alloc(), &grammar).expect(&rt, "lookaheads");
    let ends = has_handle(rt.alloc(), &found, 0, 0, 1).expect(&rt, "an answer");
    same(&rt, "a handle", 0, ends, None);
}
