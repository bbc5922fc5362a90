//! Grammar files that are wrong: each names the line and the column of what can't stand there. Where bison
//! names another column, a comment says so.
use super::support::same;
use std::process::Abort;
use vob_yacc::{TextFault, grammar_of};

/// A file, and the line, the column and the kind of its fault.
type Row = (&'static str, usize, usize, TextFault);

/// Compares where a file is wrong, and how. `at` says which file it is.
fn check_fault(rt: &(impl Abort + AllocGlobal), at: usize, row: &Row) {
    let (file, line, column, fault) = *row;
    let error = grammar_of(rt.alloc(), file.as_bytes())
        .err()
        .expect(rt, "a fault");
    same(rt, "the fault", at, error.fault, fault);
    same(
        rt,
        "its place",
        at,
        (error.line, error.column),
        (line, column),
    );
}

/// Words that begin with nothing that is known, or don't end.
#[rattlefmt::skip]
const WORDS: [Row; 18] = [
    ("%%\ns: 'a' $ ;", 2, 8, TextFault::BadCharacter),
    ("%%\ns: 'a' } ;", 2, 8, TextFault::BadCharacter),
    ("%token A 12a\n%%\ns: A", 1, 10, TextFault::BadCharacter),
    ("%token A 99999999999\n%%\ns: A", 1, 10, TextFault::BadCharacter),
    ("%%\ns: ''", 2, 4, TextFault::BadCharacter),
    ("%%\ns: 'ab'", 2, 4, TextFault::BadCharacter),
    // bison: 2.5
    ("%%\ns: '\\0'", 2, 4, TextFault::BadCharacter),
    ("%%\ns: '\\q'", 2, 4, TextFault::BadCharacter),
    ("%%\ns: \"\\q\"", 2, 4, TextFault::BadCharacter),
    ("%%\ns: '\\x100'", 2, 4, TextFault::BadCharacter),
    ("%%\ns: 'a ;", 2, 4, TextFault::Unclosed),
    ("%%\ns: 'a\n'", 2, 4, TextFault::Unclosed),
    ("%%\ns: { 'a\n' }", 2, 6, TextFault::Unclosed),
    ("%%\ns: { if (x) { } ;", 2, 4, TextFault::Unclosed),
    ("%%\ns: 'a' /* ;", 2, 8, TextFault::Unclosed),
    ("%{ /* %}\n%%\ns: 'a'", 1, 4, TextFault::Unclosed),
    ("%{ '%}'\n%%\ns: 'a'", 1, 1, TextFault::Unclosed),
    ("%token <a A\n%%\ns: A", 1, 8, TextFault::Unclosed),
];

/// Declarations that are no such.
#[rattlefmt::skip]
const DECLARATIONS: [Row; 26] = [
    ("%tokens A\n%%\ns: A;", 1, 1, TextFault::UnknownDirective),
    ("A\n%%\ns: A;", 1, 1, TextFault::Unexpected),
    ("%token IF \"if\" \"iff\"\n%%\ns: IF", 1, 16, TextFault::Unexpected),
    ("%token \"if\"\n%%\ns: \"if\"", 1, 8, TextFault::Unexpected),
    ("%token A \"a\" 5\n%%\ns: A", 1, 14, TextFault::Unexpected),
    ("%left \"==\" 43 A\n%%\ns: A", 1, 12, TextFault::Unexpected),
    ("%token A <t>\n%%\ns: A", 2, 1, TextFault::Unexpected),
    ("%token\n%%\ns: 'a'", 2, 1, TextFault::Unexpected),
    ("%nterm t 5\n%%\ns: t", 1, 10, TextFault::Unexpected),
    ("%nterm '+'\n%%\ns: '+'", 1, 8, TextFault::Unexpected),
    ("%nterm t \"t\"\n%%\ns: t", 1, 10, TextFault::Unexpected),
    ("%expect A\n%%\ns: 'a'", 1, 9, TextFault::Unexpected),
    ("%debug A\n%%\ns: 'a'", 1, 8, TextFault::Unexpected),
    ("%union A\n%%\ns: 'a'", 2, 1, TextFault::Unexpected),
    ("%destructor { d }\n%%\ns: 'a'", 2, 1, TextFault::Unexpected),
    ("%require A\n%%\ns: 'a'", 1, 10, TextFault::Unexpected),
    ("%define\n%%\ns: 'a'", 2, 1, TextFault::Unexpected),
    ("%define lr.type\n%%\ns: 'a'", 1, 1, TextFault::OnlyLalr),
    // These are no faults to bison, which makes other tables by them.
    ("%define lr.type ielr\n%%\ns: 'a'", 1, 17, TextFault::OnlyLalr),
    ("%define lr.type \"canonical-lr\"\n%%\ns: 'a'", 1, 17, TextFault::OnlyLalr),
    ("%define lr.type {ielr}\n%%\ns: 'a'", 1, 17, TextFault::OnlyLalr),
    ("%start s t\n%%\ns: t\nt: 'a'", 1, 10, TextFault::SecondStart),
    // bison: 1.8
    ("%token A\n%start A\n%%\ns: A", 2, 8, TextFault::NotANonterminal),
    ("%start t\n%%\ns: 'a'", 1, 8, TextFault::DerivesNothing),
    ("%token s\n%%\ns: ;", 3, 1, TextFault::NotANonterminal),
    ("%type <x> n\n%%\ns: 'a' n", 1, 11, TextFault::Undefined),
];

/// Tokens that are declared otherwise already.
#[rattlefmt::skip]
const TOKENS: [Row; 14] = [
    ("%token <a> A\n%type <a> A\n%%\ns: A", 2, 11, TextFault::Redeclared),
    ("%type <a> s\n%nterm <b> s\n%%\ns: 'a'", 2, 12, TextFault::Redeclared),
    ("%token A A B\n%left A\n%right B\n%nonassoc A\n%%\ns: A", 4, 1, TextFault::Redeclared),
    ("%left A\n%left A A\n%%\ns: A", 2, 1, TextFault::Redeclared),
    ("%left A B A\n%%\ns: A", 1, 1, TextFault::Redeclared),
    ("%left \"x\"\n%left X\n%token X \"x\"\n%%\ns: X", 2, 1, TextFault::Redeclared),
    ("%token A 300\n%token A 301\n%%\ns: A", 2, 10, TextFault::Redeclared),
    ("%token '+' 44\n%%\ns: A", 1, 12, TextFault::Redeclared),
    ("%token A 300 B 300\n%%\ns: A", 1, 14, TextFault::CodeTaken),
    ("%token A 65\n%%\ns: 'A' A", 3, 4, TextFault::CodeTaken),
    ("%left 'A'\n%token A 0x41\n%%\ns: A", 2, 8, TextFault::CodeTaken),
    ("%token A 0 B 0\n%%\ns: A", 1, 12, TextFault::CodeTaken),
    ("%nterm t\n%token t\n%%\ns: t", 2, 8, TextFault::NotANonterminal),
    ("%token t\n%nterm t\n%%\ns: t", 2, 8, TextFault::NotANonterminal),
];

/// Rules that are no such.
#[rattlefmt::skip]
const RULES: [Row; 26] = [
    ("", 1, 1, TextFault::NoRules),
    ("%token A\n%%\n", 3, 1, TextFault::NoRules),
    ("%%\ns: A;", 2, 4, TextFault::Undefined),
    ("%%\n| 'a' ;", 2, 1, TextFault::Unexpected),
    ("%%\n;\ns: 'a'", 2, 1, TextFault::Unexpected),
    ("%%\ns: 'a'; { a }", 2, 9, TextFault::Unexpected),
    ("%%\n'a': 'a'", 2, 1, TextFault::Unexpected),
    ("%%\ns : : 'a'", 2, 5, TextFault::Unexpected),
    ("%%\ns: 'a' %prec ;", 2, 14, TextFault::Unexpected),
    ("%%\ns: 'a' %prec", 2, 13, TextFault::Unexpected),
    ("%token A\n%left B\n%%\ns: A %prec B %prec B", 4, 20, TextFault::Unexpected),
    ("%token A\n%%\ns: A %prec n\nn: A", 4, 1, TextFault::NotANonterminal),
    ("%token A\n%%\nn: A\ns: A %prec n", 4, 12, TextFault::NotANonterminal),
    ("%token A\n%%\ns: A | A %empty", 3, 10, TextFault::NotEmpty),
    ("%token A\n%%\ns: %empty { a } A", 3, 4, TextFault::NotEmpty),
    ("%%\ns: %empty %empty", 2, 11, TextFault::Unexpected),
    ("%%\ns: 'a' %dprec 1 %dprec 2", 2, 24, TextFault::Unexpected),
    ("%%\ns: 'a' <t> 'a'", 2, 12, TextFault::Unexpected),
    ("%%\ns: 'a'\n%token B\nt: 'a'", 4, 1, TextFault::Unexpected),
    ("%%\ns: 'a'\n%token B", 3, 9, TextFault::Unexpected),
    ("%%\ns: 'a'\n%define x\nt: 'a'", 3, 1, TextFault::Unexpected),
    ("%%\ns: 'a'\n%tokens x;", 3, 1, TextFault::UnknownDirective),
    ("%nterm t\n%%\ns: 'a' t", 3, 1, TextFault::DerivesNothing),
    ("%%\ns: 'a' s | t\nt: s", 2, 1, TextFault::DerivesNothing),
    ("%token A\n%start s\n%%\nt: A\ns: A s", 2, 8, TextFault::DerivesNothing),
    ("%%\ns: 'a'\ns: B", 3, 4, TextFault::Undefined),
];

/// Compares where some files are wrong, and how.
fn check_faults(rt: &(impl Abort + AllocGlobal), rows: &[Row]) {
    for (at, row) in rows.iter().enumerate() {
        check_fault(rt, at, row);
    }
}

#[test]
fn faults_name_the_place_of_a_word(rt: HostRuntime) {
    check_faults(&rt, &WORDS);
}

#[test]
fn faults_name_the_place_of_a_declaration(rt: HostRuntime) {
    check_faults(&rt, &DECLARATIONS);
    check_faults(&rt, &TOKENS);
}

#[test]
fn faults_name_the_place_in_a_rule(rt: HostRuntime) {
    check_faults(&rt, &RULES);
}
