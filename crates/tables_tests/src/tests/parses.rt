//! Tokens parsed by tables worked by hand.
use super::cells::table_of;
use super::grammar::grammar_of;
use super::support::{check_error, same};
use std::process::Abort;
use vob_arrays::{ArraysError, arrays_of};
use vob_lr::{Lookaheads, ParseError, Table};

/// The names of nonterminals and of terminals, rules, and texts of terminals, each with the rules
/// that a parser returns, or else the place of the terminal that no action takes.
struct Row {
    names: (&'static str, &'static str),
    rules: &'static [&'static str],
    parsed: &'static [(&'static str, &'static [usize])],
    refused: &'static [(&'static str, usize)],
}

#[rattlefmt::skip]
const GRAMMARS: [Row; 4] = [
    // The textbooks' sums of products. Read backwards, the rules of i+i*i are its rightmost derivation
    // E, E+T, E+T*F, E+T*i, E+F*i, E+i*i, T+i*i, F+i*i, i+i*i.
    Row { names: ("AETF", "$+*()i"), rules: &["A=E$", "E=E+T", "E=T", "T=T*F", "T=F", "F=(E)", "F=i"],
        parsed: &[("i", &[6, 4, 2]), ("i+i*i", &[6, 4, 2, 6, 4, 6, 3, 1]),
            ("i*i+i", &[6, 4, 6, 3, 2, 6, 4, 1]), ("i+i+i", &[6, 4, 2, 6, 4, 1, 6, 4, 1]),
            ("(i)", &[6, 4, 2, 5, 4, 2]), ("(i+i)*i", &[6, 4, 2, 6, 4, 1, 5, 4, 6, 3, 2])],
        // A first part isn't enough, and nothing may follow. The end stands for no token, and a
        // letter without a number for no terminal.
        refused: &[("", 0), ("i+", 2), ("i+i*", 4), ("(i", 2), ("((i)", 4), ("+", 0), ("i+*i", 2),
            ("ii", 1), ("i)", 1), ("(i))", 3), ("()", 1), ("i$", 2), ("$", 0), ("x", 0), ("i+x", 2)] },
    // An else belongs to the inner if: the parser shifts.
    Row { names: ("AS", "$ieo"), rules: &["A=S$", "S=iS", "S=iSeS", "S=o"],
        parsed: &[("o", &[3]), ("io", &[3, 1]), ("ioeo", &[3, 3, 2]), ("iioeo", &[3, 3, 2, 1]),
            ("iioeoeo", &[3, 3, 2, 3, 2])],
        refused: &[("", 0), ("i", 1), ("oeo", 1), ("ioe", 3), ("ioeoeo", 4)] },
    // A rule without symbols is reduced before the first b, or before the end.
    Row { names: ("AS", "$ab"), rules: &["A=S$", "S=aSb", "S="],
        parsed: &[("", &[2]), ("ab", &[2, 1]), ("aaabbb", &[2, 1, 1, 1])],
        refused: &[("a", 1), ("aab", 3), ("b", 0), ("abb", 2), ("aba", 2)] },
    // The nonterminal of rule 0 on a right side, where a token is the end: the parser accepts only
    // what stands alone.
    Row { names: ("AS", "$a"), rules: &["A=S$", "S=a", "S=aA"],
        parsed: &[("a", &[1]), ("aa$", &[1, 0, 2]), ("aaa$$", &[1, 0, 2, 0, 2])],
        refused: &[("", 0), ("aa", 2), ("aaa", 3), ("aaa$", 4)] },
];

/// The numbers of a text's terminals: as many as there are for a letter that is none.
pub fn tokens_of(rt: &(impl Abort + AllocGlobal), terminals: &str, text: &str) -> Vec<usize> {
    let mut tokens = Vec::new(rt.alloc());
    for letter in text.as_bytes() {
        let token = terminals
            .as_bytes()
            .iter()
            .position(|name| name == letter)
            .unwrap_or(terminals.len());
        tokens.push(token).expect(rt, "memory");
    }
    tokens
}

/// Parses a text by these many reductions at most.
fn parse(
    rt: &(impl Abort + AllocGlobal),
    table: &Table<'_>,
    terminals: &str,
    text: &str,
    steps: usize,
) -> Result<Vec<usize>, ParseError> {
    let tokens = tokens_of(rt, terminals, text);
    let parsed = table.parse_within(rt.alloc(), &tokens, steps);
    let arrays = arrays_of(rt.alloc(), table).expect(rt, "memory");
    let by_arrays = arrays.arrays().parse(rt.alloc(), &tokens, steps);
    same(rt, "by arrays", steps, is_same(&parsed, &by_arrays), true);
    parsed
}

/// Returns whether a parser by arrays gave what the one by their table did.
fn is_same(
    parsed: &Result<Vec<usize>, ParseError>,
    by_arrays: &Result<Vec<usize>, ArraysError>,
) -> bool {
    match (parsed, by_arrays) {
        (Ok(rules), Ok(others)) => rules.as_slice() == others.as_slice(),
        (Err(error), Err(ArraysError::Parse(other))) => error == other,
        _ => false,
    }
}

/// Compares the rules of a text with these.
fn check_parsed(
    rt: &(impl Abort + AllocGlobal),
    table: &Table<'_>,
    terminals: &str,
    text: &str,
    rules: &[usize],
) {
    let found = parse(rt, table, terminals, text, rules.len()).expect(rt, "it is parsed");
    same(rt, "how many rules", rules.len(), found.len(), rules.len());
    for (index, rule) in rules.iter().enumerate() {
        same(rt, "a rule", index, found.get(index), Some(rule));
    }
    // They are as few as suffice for so many tokens, so that no number is wanted.
    let tokens = tokens_of(rt, terminals, text);
    let most = table.most_reductions(tokens.len());
    same(rt, "few rules", rules.len(), rules.len() <= most, true);
    let alone = table.parse(rt.alloc(), &tokens).expect(rt, "it is parsed");
    same(rt, "the same", rules.len(), alone.as_slice() == rules, true);
    // One reduction less isn't enough.
    if let Some(fewer) = rules.len().checked_sub(1) {
        let refused = parse(rt, table, terminals, text, fewer).err();
        same(rt, "too few", fewer, refused, Some(ParseError::TooLong));
    }
}

#[test]
fn texts_are_parsed_as_in_the_textbook(rt: HostRuntime) {
    for row in &GRAMMARS {
        let grammar = grammar_of(&rt, row.names, row.rules);
        let table = table_of(&rt, &grammar, &[], &[]);
        for (text, rules) in row.parsed {
            check_parsed(&rt, &table, row.names.1, text, rules);
        }
        for (text, at) in row.refused {
            let refused = parse(&rt, &table, row.names.1, text, 100).err();
            let wanted = Some(ParseError::Unexpected { at: *at });
            same(&rt, "a place", *at, refused, wanted);
            let tokens = tokens_of(&rt, row.names.1, text);
            same(
                &rt,
                "alone",
                *at,
                table.parse(rt.alloc(), &tokens).err(),
                wanted,
            );
        }
    }
}

#[test]
fn reductions_without_end_are_cut_off(rt: HostRuntime) {
    // S needs no symbol, and E may stand before it again and again: E is reduced for ever, since its
    // rule comes first.
    let grammar = grammar_of(&rt, ("ASE", "$"), &["A=S$", "S=ES", "E=", "S="]);
    let table = table_of(&rt, &grammar, &[], &[]);
    for steps in [0usize, 1, 1000] {
        let refused = parse(&rt, &table, "$", "", steps).err();
        same(&rt, "steps", steps, refused, Some(ParseError::TooLong));
    }
    let refused = table.parse(rt.alloc(), &[]).err();
    same(&rt, "no steps", 0, refused, Some(ParseError::TooLong));
}

#[test]
fn refusals_of_a_parser_have_numbers_and_texts(rt: HostRuntime) {
    let at = ParseError::Unexpected { at: 12 };
    for (error, number, text) in [
        (ParseError::Memory, 2u8, "out of memory"),
        (at, 9, "no action takes token 12"),
        (ParseError::TooLong, 10, "too many reductions"),
    ] {
        same(&rt, "a number", 0, error.number(), number);
        check_error(&rt, error, text);
    }
}

#[test]
fn a_parser_is_made_of_a_grammar_file(rt: HostRuntime) {
    let alloc = rt.alloc();
    let text = b"%token NUMBER %left '-' %% sum: sum '-' sum | NUMBER;";
    let file = vob_yacc::grammar_of(alloc, text).expect(&rt, "a grammar");
    let states = Lookaheads::new(alloc, &file.grammar).expect(&rt, "states");
    let made = Table::new(alloc, states, &file.precedences, &file.rule_precedences);
    let table = made.expect(&rt, "a table");
    let conflicts = table.conflicts(alloc).expect(&rt, "conflicts");
    assert_eq!(rt; conflicts.len(), 0);
    // The end is terminal 0, `error` is 1, NUMBER 2 and '-' 3. Rule 0 derives the start and the end.
    let parsed = table.parse(alloc, &[2, 3, 2, 3, 2]);
    let rules = parsed.expect(&rt, "rules");
    // The operator groups to the left: by rule 1 the first difference comes before the third number.
    assert_eq!(rt; rules.as_slice(), [2, 2, 1, 2, 1].as_slice());
}
