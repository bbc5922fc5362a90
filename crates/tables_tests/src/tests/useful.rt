//! What is left out of grammars. What is wanted is what bison reports.
use super::support::same;
use super::text::{Row, check_rows};
use std::process::Abort;
use vob_yacc::{LeftOut, Useless, grammar_of};

/// Files with symbols and rules that no text comes from.
#[rattlefmt::skip]
const FILES: [Row; 2] = [
    ("%token A B C D\n%nonassoc A D\n%%\ns: s A s | B t | u | { a } C\nt: t A\n  | B { b } t\nu: B s | v C { c } D %prec A\n\
      v: C\nw: { d } v | w D\nx: t\n",
     "$end error A:n1 B C D:n1",
     "\n $accept : s $end\n s : s A s\n s : u\n $@1 :\n s : $@1 C\n u : B s\n $@3 :\n u : v C $@3 D\n v : C"),
    // Symbols without rules are left out if no rule has them.
    ("%token A\n%nterm <n> n\n%type <n> m\n%start s\n%%\nr: A\ns: A | A s A\n",
     "$end error A",
     "\n $accept : s $end\n s : A\n s : A s A"),
];

/// The nonterminals that are left out of the first file: the name, the line and column of its first rule,
/// and why.
const LEFT: [(&str, usize, usize, Useless); 5] = [
    ("t", 5, 1, Useless::DerivesNothing),
    ("$@2", 6, 7, Useless::Unreachable),
    ("w", 9, 1, Useless::Unreachable),
    ("$@4", 9, 4, Useless::Unreachable),
    ("x", 10, 1, Useless::DerivesNothing),
];

/// The rules that are left out of it: the line and the column of the right side, the rule, and its left side,
/// the nonterminals that stay being counted first.
const LEFT_RULES: [(usize, usize, &str, usize); 8] = [
    (4, 12, "s: B t", 1),
    (5, 4, "t: t A", 6),
    (6, 7, "$@2:", 7),
    (6, 5, "t: B $@2 t", 6),
    (9, 4, "$@4:", 9),
    (9, 4, "w: $@4 v", 8),
    (9, 14, "w: w D", 8),
    (10, 4, "x: t", 10),
];

/// Compares the nonterminals that are left out.
fn check_nonterminals(rt: &impl Abort, left_out: &LeftOut) {
    same(
        rt,
        "the nonterminals",
        0,
        left_out.nonterminals.len(),
        LEFT.len(),
    );
    for (own, (name, line, column, why)) in left_out.nonterminals.iter().zip(&LEFT) {
        same(rt, "a name", *line, own.name.as_slice(), name.as_bytes());
        let found = (own.line, own.column, own.why);
        same(rt, "its place", *line, found, (*line, *column, *why));
    }
}

/// Compares the rules that are left out.
fn check_rules(rt: &impl Abort, left_out: &LeftOut) {
    same(rt, "the rules", 0, left_out.rules.len(), LEFT_RULES.len());
    for (own, (line, column, text, left)) in left_out.rules.iter().zip(&LEFT_RULES) {
        same(rt, "a rule", *line, own.text.as_slice(), text.as_bytes());
        same(rt, "its left side", *line, own.rule.left, *left);
        same(
            rt,
            "its place",
            *line,
            (own.line, own.column),
            (*line, *column),
        );
    }
}

#[test]
fn what_is_useless_is_left_out(rt: HostRuntime) {
    check_rows(&rt, &FILES);
    let (file, _, _) = FILES[0];
    let read = grammar_of(rt.alloc(), file.as_bytes()).expect(&rt, "a grammar");
    check_nonterminals(&rt, &read.left_out);
    check_rules(&rt, &read.left_out);
}
