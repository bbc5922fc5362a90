//! Which nonterminals of grammars can become empty, which terminals can begin what they become, and
//! which can follow them; which derive tokens, and which themselves. Grammars worked by hand, a
//! long chain, and rules with symbols that aren't there.
use super::support::{check_bits, check_error, same};
use std::process::Abort;
use vob_lr::{Grammar, GrammarError, GrammarSets, Rule, Symbol, cycle, nullable, productive};
use vob_rows::BitRows;

/// A grammar of these numbers of symbols, without a rule.
pub fn empty(rt: &impl AllocGlobal, nonterminals: usize, terminals: usize) -> Grammar {
    Grammar {
        terminals,
        nonterminals,
        rules: Vec::new(rt.alloc()),
    }
}

/// Appends a rule.
fn add(rt: &(impl Abort + AllocGlobal), grammar: &mut Grammar, left: usize, right: &[Symbol]) {
    let right = right.to_vec(rt.alloc()).expect(rt, "memory");
    grammar
        .rules
        .push(Rule { left, right })
        .expect(rt, "memory");
}

/// The place of a name, or a number that no symbol has.
fn place(names: &str, name: u8) -> usize {
    names
        .as_bytes()
        .iter()
        .position(|other| *other == name)
        .unwrap_or(usize::MAX)
}

/// Appends the rule of a text: a name for the left side, and after `=` one for each symbol of the
/// right side. `nonterminals` has the names of the first nonterminals, `terminals` those of the
/// first terminals.
fn add_text(
    rt: &(impl Abort + AllocGlobal),
    grammar: &mut Grammar,
    nonterminals: &str,
    terminals: &str,
    text: &str,
) {
    let mut right = Vec::new(rt.alloc());
    for name in text.as_bytes().iter().skip(2) {
        let nonterminal = place(nonterminals, *name);
        let symbol = if nonterminal == usize::MAX {
            Symbol::Terminal(place(terminals, *name))
        } else {
            Symbol::Nonterminal(nonterminal)
        };
        right.push(symbol).expect(rt, "memory");
    }
    let left = text
        .as_bytes()
        .first()
        .map_or(usize::MAX, |name| place(nonterminals, *name));
    add(rt, grammar, left, &right);
}

/// The grammar of rules. `names` has the names of nonterminals and of terminals.
pub fn grammar_of(rt: &(impl Abort + AllocGlobal), names: (&str, &str), rules: &[&str]) -> Grammar {
    let mut grammar = empty(rt, names.0.len(), names.1.len());
    for text in rules {
        add_text(rt, &mut grammar, names.0, names.1, text);
    }
    grammar
}

/// Compares sets with digits, one for each terminal.
fn check_rows(rt: &(impl Abort + AllocGlobal), sets: &BitRows, rows: &[&str]) {
    let sets = sets.to_vobs(rt.alloc()).expect(rt, "memory");
    same(rt, "the sets", 0, sets.len(), rows.len());
    for (set, digits) in sets.iter().zip(rows) {
        check_bits(rt, set, digits);
    }
}

/// Compares all sets of a grammar with digits: one for each nonterminal that can become empty, and
/// for each nonterminal a row of what can begin it, and one of what can follow it.
fn check_sets(
    rt: &(impl Abort + AllocGlobal),
    grammar: &Grammar,
    null: &str,
    first: &[&str],
    follow: &[&str],
) {
    let sets = GrammarSets::new(rt.alloc(), grammar).expect(rt, "sets");
    check_bits(rt, &sets.nullable, null);
    check_rows(rt, &sets.first, first);
    check_rows(rt, &sets.follow, follow);
}

/// Compares all sets of the grammar of some texts.
fn check_texts(rt: &(impl Abort + AllocGlobal), row: &Row) {
    let grammar = grammar_of(rt, row.names, row.rules);
    check_sets(rt, &grammar, row.null, row.first, row.follow);
}

/// The names of nonterminals and of terminals, rules, which nonterminals can become empty, which
/// terminals can begin each, and which can follow it.
struct Row {
    names: (&'static str, &'static str),
    rules: &'static [&'static str],
    null: &'static str,
    first: &'static [&'static str],
    follow: &'static [&'static str],
}

#[rattlefmt::skip]
const GRAMMARS: [Row; 11] = [
    // The grammar of the textbooks: e stands for E', t for T', i for id. Only e and t have an empty
    // right side. F begins with ( or id, and so does T, and so E and S; e begins with +, t with *.
    // Behind E stand $ and ), and so behind e at its end. Behind T stands e, which begins with + or
    // is empty, and so what stands behind E. Behind F stands t, which begins with * or is empty.
    Row { names: ("SEeTtF", "+*()i$"), null: "001010",
        rules: &["S=E$", "E=Te", "e=+Te", "e=", "T=Ft", "t=*Ft", "t=", "F=(E)", "F=i"],
        first: &["001010", "001010", "100000", "001010", "010000", "001010"],
        follow: &["000000", "000101", "000101", "100101", "100101", "110101"] },
    // B, C and D can each be empty, so A can, and begins with what any of them begins with. A's
    // rule comes first, so that one pass doesn't find it. Behind B stands c, or d where C is empty.
    Row { names: ("ABCD", "bcd"), null: "1111",
        rules: &["A=BCD", "B=b", "B=", "C=c", "C=", "D=d", "D="],
        first: &["111", "100", "010", "001"], follow: &["000", "011", "001", "000"] },
    // C can't be empty here, so that D comes too late, and A isn't nullable.
    Row { names: ("ABCD", "bcd"), null: "0101",
        rules: &["A=BCD", "B=b", "B=", "C=c", "D=d", "D="],
        first: &["110", "100", "010", "001"], follow: &["000", "010", "001", "000"] },
    // After a terminal nothing counts. B stands before x and before y.
    Row { names: ("AB", "xyb"), null: "01", rules: &["A=BxBy", "B=", "B=b"],
        first: &["101", "001"], follow: &["000", "110"] },
    // A b, A b b, .. : A can be empty, so that b begins it.
    Row { names: ("A", "ab"), null: "1", rules: &["A=Ab", "A="], first: &["01"], follow: &["01"] },
    // Here A begins with a alone.
    Row { names: ("A", "ab"), null: "0", rules: &["A=Ab", "A=a"], first: &["10"], follow: &["01"] },
    // A becomes B and B becomes A, each can be empty, and b or $ stands behind A, and so behind B.
    Row { names: ("SAB", "b$"), null: "011", rules: &["S=A$", "A=B", "A=", "B=A", "B=Ab"],
        first: &["11", "10", "10"], follow: &["00", "11", "11"] },
    // Nothing comes to an end here, and the least sets have nothing.
    Row { names: ("AB", "a"), null: "00", rules: &["A=B", "B=A", "A=AA"],
        first: &["0", "0"], follow: &["0", "0"] },
    // Without rules all sets are empty.
    Row { names: ("", ""), null: "", rules: &[], first: &[], follow: &[] },
    Row { names: ("AB", "abc"), null: "00", rules: &[],
        first: &["000", "000"], follow: &["000", "000"] },
    // B has no rule, and so nothing after it counts. It stands before a.
    Row { names: ("AB", "a"), null: "00", rules: &["A=Ba"],
        first: &["0", "0"], follow: &["0", "1"] },
];

#[test]
fn what_can_be_empty_or_begin_or_follow_is_found(rt: HostRuntime) {
    for row in &GRAMMARS {
        check_texts(&rt, row);
    }
}

/// The names of nonterminals and of terminals, rules, and which nonterminals derive tokens.
struct Productive {
    names: (&'static str, &'static str),
    rules: &'static [&'static str],
    found: &'static str,
}

#[rattlefmt::skip]
const PRODUCTIVE: [Productive; 5] = [
    // C never ends, and B becomes it.
    Productive { names: ("ABC", "ab"), rules: &["A=aA", "A=b", "B=Ca", "C=aC"], found: "100" },
    // No token is a list of tokens too.
    Productive { names: ("AB", "a"), rules: &["A=B", "B="], found: "11" },
    // What A becomes is found after it.
    Productive { names: ("ABC", "a"), rules: &["A=BC", "B=C", "C=a"], found: "111" },
    // B has no rule.
    Productive { names: ("AB", "a"), rules: &["A=Ba"], found: "00" },
    Productive { names: ("", ""), rules: &[], found: "" },
];

#[test]
fn what_derives_tokens_is_found(rt: HostRuntime) {
    for row in &PRODUCTIVE {
        let grammar = grammar_of(&rt, row.names, row.rules);
        let found = productive(rt.alloc(), &grammar).expect(&rt, "a set");
        check_bits(&rt, &found, row.found);
    }
}

/// The names of nonterminals and of terminals, rules, and the lowest nonterminal that derives itself.
struct Cyclic {
    names: (&'static str, &'static str),
    rules: &'static [&'static str],
    found: Option<usize>,
}

#[rattlefmt::skip]
const CYCLIC: [Cyclic; 9] = [
    // The textbooks' cycle: A => B => A. B derives itself too.
    Cyclic { names: ("AB", "a"), rules: &["A=B", "A=a", "B=A"], found: Some(0) },
    // S => SE => S, as E becomes empty; on either side of S.
    Cyclic { names: ("SE", "s"), rules: &["S=SE", "S=s", "E="], found: Some(0) },
    Cyclic { names: ("SE", "s"), rules: &["S=ESE", "S=s", "E="], found: Some(0) },
    // S isn't on the cycle that it leads to, and C is.
    Cyclic { names: ("SBC", "a"), rules: &["S=B", "B=C", "C=C", "B=a"], found: Some(2) },
    // A becomes A beside itself: A => AA => A.
    Cyclic { names: ("SA", "a"), rules: &["S=aA", "A=AA", "A="], found: Some(1) },
    // A token always stays beside S, and so does A, which doesn't become empty.
    Cyclic { names: ("SA", "sa"), rules: &["S=SA", "S=Ss", "S=s", "A=a"], found: None },
    // The grammar of sums: each step down to F and up again adds a token.
    Cyclic { names: ("ETF", "+*()i"), found: None,
        rules: &["E=E+T", "E=T", "T=T*F", "T=F", "F=(E)", "F=i"] },
    // What becomes empty alone derives no more than that.
    Cyclic { names: ("SE", "s"), rules: &["S=EE", "S=s", "E="], found: None },
    Cyclic { names: ("", ""), rules: &[], found: None },
];

#[test]
fn what_derives_itself_is_found(rt: HostRuntime) {
    for (place, row) in CYCLIC.iter().enumerate() {
        let grammar = grammar_of(&rt, row.names, row.rules);
        let found = cycle(rt.alloc(), &grammar).expect(&rt, "a search");
        same(&rt, "a nonterminal", place, found, row.found);
    }
}

#[test]
fn a_chain_longer_than_a_block_is_gone_up(rt: HostRuntime) {
    // Nonterminal n may become n + 1, or terminal n: it begins with terminal n and all after it.
    // The last may become empty, and so all can.
    let mut grammar = empty(&rt, 70, 70);
    for n in 0..70 {
        add(&rt, &mut grammar, n, &[Symbol::Terminal(n)]);
        if n < 69 {
            add(&rt, &mut grammar, n, &[Symbol::Nonterminal(n + 1)]);
        }
    }
    add(&rt, &mut grammar, 69, &[]);
    let sets = GrammarSets::new(rt.alloc(), &grammar).expect(&rt, "sets");
    same(&rt, "nullable", 70, sets.nullable.count_ones(), 70);
    same(&rt, "the sets", 70, sets.first.rows(), 70);
    for n in 0..70 {
        for t in 0..70 {
            same(&rt, "terminal", t, sets.first.get(n, t), Some(n <= t));
        }
    }
}

/// Compares that the first rule that isn't one is named.
fn check_bad(rt: &(impl Abort + AllocGlobal), grammar: &Grammar, rule: usize) {
    let refusal = GrammarError::BadSymbol { rule };
    let refused = GrammarSets::new(rt.alloc(), grammar).err();
    same(rt, "sets", rule, refused, Some(refusal));
    let refused = nullable(rt.alloc(), grammar).err();
    same(rt, "nullable", rule, refused, Some(refusal));
    let refused = productive(rt.alloc(), grammar).err();
    same(rt, "productive", rule, refused, Some(refusal));
    let refused = cycle(rt.alloc(), grammar).err();
    same(rt, "cycle", rule, refused, Some(refusal));
}

#[test]
fn the_first_rule_with_a_bad_symbol_is_named(rt: HostRuntime) {
    let mut grammar = empty(&rt, 2, 3);
    let right = [Symbol::Terminal(2), Symbol::Nonterminal(1)];
    add(&rt, &mut grammar, 1, &right);
    check_sets(&rt, &grammar, "00", &["000", "001"], &["000", "000"]);
    let right = [Symbol::Terminal(0), Symbol::Terminal(3)];
    add(&rt, &mut grammar, 0, &right);
    check_bad(&rt, &grammar, 1);
    add(&rt, &mut grammar, 2, &[]);
    check_bad(&rt, &grammar, 1);

    let mut grammar = empty(&rt, 1, 0);
    add(&rt, &mut grammar, 0, &[Symbol::Nonterminal(1)]);
    check_bad(&rt, &grammar, 0);

    let mut grammar = empty(&rt, 0, 1);
    add(&rt, &mut grammar, 0, &[Symbol::Terminal(0)]);
    check_bad(&rt, &grammar, 0);
}

#[test]
fn errors_say_which_rule_is_wrong(rt: HostRuntime) {
    let symbol = GrammarError::BadSymbol { rule: 12 };
    check_error(&rt, symbol, "rule 12 names a symbol that isn't there");
    check_error(&rt, GrammarError::Memory, "out of memory");
    check_error(&rt, GrammarError::NoRule, "there is no rule");
}
