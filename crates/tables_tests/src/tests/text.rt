//! Grammar files of yacc and bison: what they say. What is wanted is what bison reports.
use super::support::same;
use std::alloc::{AllocError, Global};
use std::process::Abort;
use vob_lr::{Associativity, Precedence, Symbol};
use vob_yacc::{GrammarText, grammar_of};

/// A file, its terminals with their precedences, and its rules, one a line.
pub type Row = (&'static str, &'static str, &'static str);

/// Appends the name of a symbol behind a blank.
fn add_name(text: &mut Vec<u8>, file: &GrammarText, symbol: &Symbol) -> Result<(), AllocError> {
    text.push(b' ')?;
    let name = match symbol {
        Symbol::Terminal(terminal) => file.terminals.get(*terminal),
        Symbol::Nonterminal(nonterminal) => file.nonterminals.get(*nonterminal),
    };
    if let Some(name) = name {
        text.extend_from_slice(name)?;
    }
    Ok(())
}

/// Returns the rules of a file, each behind a line end: the name of the left side, `:`, and those of the
/// right side.
fn rules_of(alloc: Global, file: &GrammarText) -> Result<Vec<u8>, AllocError> {
    let mut text = Vec::new(alloc);
    for rule in &file.grammar.rules {
        text.push(b'\n')?;
        add_name(&mut text, file, &Symbol::Nonterminal(rule.left))?;
        text.extend_from_slice(b" :")?;
        for symbol in &rule.right {
            add_name(&mut text, file, symbol)?;
        }
    }
    Ok(text)
}

/// Appends a precedence: `:`, the first letter of its side, and its level.
fn add_precedence(text: &mut Vec<u8>, precedence: Option<Precedence>) -> Result<(), AllocError> {
    let Some(precedence) = precedence else {
        return Ok(());
    };
    text.extend_from_slice(match precedence.associativity {
        Associativity::Left => b":l",
        Associativity::Right => b":r",
        Associativity::Neither => b":n",
        Associativity::Unstated => b":p",
    })?;
    let level = u8::try_from(precedence.level).unwrap_or(9);
    text.push(b'0'.saturating_add(level))?;
    Ok(())
}

/// Returns the terminals of a file, each behind a blank, and with its precedence if it has one.
fn terminals_of(alloc: Global, file: &GrammarText) -> Result<Vec<u8>, AllocError> {
    let mut text = Vec::new(alloc);
    for (number, precedence) in file.precedences.iter().enumerate() {
        add_name(&mut text, file, &Symbol::Terminal(number))?;
        add_precedence(&mut text, *precedence)?;
    }
    Ok(text)
}

/// Compares the terminals and the rules of a file with texts. `at` says which file it is.
fn check_row(rt: &(impl Abort + AllocGlobal), at: usize, row: &Row) {
    let (file, terminals, rules) = *row;
    let read = grammar_of(rt.alloc(), file.as_bytes()).expect(rt, "a grammar");
    let found = terminals_of(rt.alloc(), &read).expect(rt, "memory");
    let own = found.get(1..).unwrap_or_default();
    same(rt, "the terminals", at, own, terminals.as_bytes());
    let found = rules_of(rt.alloc(), &read).expect(rt, "memory");
    same(rt, "the rules", at, found.as_slice(), rules.as_bytes());
    let counts = (read.terminals.len(), read.nonterminals.len());
    let wanted = (read.grammar.terminals, read.grammar.nonterminals);
    same(rt, "as many names", at, counts, wanted);
    let count = read.rule_precedences.len();
    same(
        rt,
        "as many precedences",
        at,
        count,
        read.grammar.rules.len(),
    );
}

/// Compares the terminals and the rules of files with texts.
pub fn check_rows(rt: &(impl Abort + AllocGlobal), rows: &[Row]) {
    for (at, row) in rows.iter().enumerate() {
        check_row(rt, at, row);
    }
}

/// Files, and the level of each rule's precedence, or 0 if it has none.
#[rattlefmt::skip]
const LEVELS: [(&str, &[usize]); 6] = [
    ("%left '+' '-'\n%right '^'\n%nonassoc LESS\n%precedence NEGATION\n%%\n\
      e: e '+' e | e '^' e | '-' e %prec NEGATION | e LESS e | 'n' | e '!' ;",
     &[0, 1, 2, 4, 3, 0, 0]),
    // The last terminal counts, with a precedence or without.
    ("%left '+'\n%left '*'\n%token C\n%%\ne: e '+' e '*' e | e '*' '+' e | e '*' e C e | C { a }",
     &[0, 2, 1, 0, 0]),
    // A token of %prec without a precedence gives none.
    ("%left '+'\n%%\ne: e '+' e %prec N | '+' { a } %prec '+' | 'n'", &[0, 0, 1, 0]),
    // What is declared behind the rules counts too.
    ("%%\ne: e '+' e | 'n'\n%left '+';", &[0, 1, 0]),
    ("%no-default-prec\n%left '+'\n%%\ne: e '+' e | '-' e %prec '+' | 'n'", &[0, 0, 1, 0]),
    ("%no-default-prec\n%left '+'\n%%\ne: e '+' e | 'n'\n%default-prec;", &[0, 1, 0]),
];

/// Compares the levels of a file's rules.
fn check_levels(rt: &(impl Abort + AllocGlobal), at: usize, file: &str, levels: &[usize]) {
    let read = grammar_of(rt.alloc(), file.as_bytes()).expect(rt, "a grammar");
    same(
        rt,
        "the rules",
        at,
        read.rule_precedences.len(),
        levels.len(),
    );
    for (precedence, level) in read.rule_precedences.iter().zip(levels) {
        let found = precedence.map_or(0, |precedence| precedence.level);
        same(rt, "a level", at, found, *level);
    }
}

/// Precedences of rules: that of the last terminal, or of `%prec`.
#[test]
fn rules_have_their_precedences(rt: HostRuntime) {
    for (at, (file, levels)) in LEVELS.iter().enumerate() {
        check_levels(&rt, at, file, levels);
    }
}

/// Files, and the conflicts that they expect.
#[rattlefmt::skip]
const EXPECTED: [(&str, (Option<usize>, Option<usize>)); 5] = [
    ("%%\ns: 'a'", (None, None)),
    ("%expect 1 %expect 2\n%%\ns: 'a' %expect 3", (Some(2), None)),
    // Without %glr-parser bison takes no notice of the second number.
    ("%expect 2 %expect-rr 3\n%%\ns: 'a'", (Some(2), None)),
    ("%glr-parser %expect 2 %expect-rr 3\n%%\ns: 'a'", (Some(2), Some(3))),
    ("%expect_rr 4 %nondeterministic-parser\n%%\ns: 'a'", (None, Some(4))),
];

#[test]
fn files_expect_conflicts(rt: HostRuntime) {
    for (at, (file, wanted)) in EXPECTED.iter().enumerate() {
        let read = grammar_of(rt.alloc(), file.as_bytes()).expect(&rt, "a grammar");
        same(&rt, "conflicts", at, read.expected, *wanted);
    }
}
