//! Trees of texts, and what is expected behind texts, worked by hand.
use super::cells::table_of;
use super::grammar::grammar_of;
use super::parses::tokens_of;
use super::support::same;
use std::alloc::{AllocError, Global};
use std::process::Abort;
use vob_lr::{Node, Table, Tree};

/// The names of nonterminals and of terminals, rules, and texts of terminals, each with its tree.
struct Row {
    names: (&'static str, &'static str),
    rules: &'static [&'static str],
    trees: &'static [(&'static str, &'static str)],
}

// A nonterminal stands with the tokens that it spans before what is below it.
#[rattlefmt::skip]
const GRAMMARS: [Row; 4] = [
    Row { names: ("AETF", "$+*()i"), rules: &["A=E$", "E=E+T", "E=T", "T=T*F", "T=F", "F=(E)", "F=i"],
        trees: &[("i", "E0-1(T0-1(F0-1(i)))"),
            ("i+i*i", "E0-5(E0-1(T0-1(F0-1(i)))+T2-5(T2-3(F2-3(i))*F4-5(i)))"),
            ("(i)", "E0-3(T0-3(F0-3((E1-2(T1-2(F1-2(i)))))))")] },
    Row { names: ("AS", "$ieo"), rules: &["A=S$", "S=iS", "S=iSeS", "S=o"],
        trees: &[("iioeo", "S0-5(iS1-5(iS2-3(o)eS4-5(o)))")] },
    // A rule without symbols spans no token.
    Row { names: ("ASB", "$ab"), rules: &["A=S$", "S=aSbB", "S=", "B="],
        trees: &[("", "S0-0()"), ("aabb", "S0-4(aS1-3(aS2-2()bB3-3())bB4-4())")] },
    // More than one symbol before the end has as many roots.
    Row { names: ("AS", "$ab"), rules: &["A=SbS$", "S=a"], trees: &[("aba", "S0-1(a)bS2-3(a)")] },
];

/// Appends the node of a rule or a token to a text.
fn add_node(
    alloc: Global,
    text: &mut String,
    row: &Row,
    lefts: &[u8],
    letters: &[u8],
    node: Node,
) -> Result<(), AllocError> {
    let Node { from, to, .. } = node;
    let Some(rule) = node.rule else {
        let letter = letters.get(from).copied().unwrap_or(b'?');
        return text.push(char::from(letter));
    };
    let left = row
        .rules
        .get(rule)
        .and_then(|rule| rule.as_bytes().first().copied());
    let known = left.is_some_and(|left| lefts.contains(&left));
    let left = char::from(if known { left.unwrap_or(b'?') } else { b'?' });
    text.push_str(&format!(in alloc; "{left}{from}-{to}(")?)
}

/// Returns a tree as a text.
fn text_of(alloc: Global, row: &Row, letters: &str, tree: &Tree) -> Result<String, AllocError> {
    let mut text = String::new(alloc);
    // What is still to be written, the first last: a node, or the end of one.
    let mut left = Vec::new(alloc);
    for root in tree.roots().iter().rev() {
        left.push(Some(*root))?;
    }
    for _ in 0..tree.nodes.len().saturating_mul(2) {
        match left.pop() {
            None => return Ok(text),
            Some(None) => text.push(')')?,
            Some(Some(node)) => {
                add_node(
                    alloc,
                    &mut text,
                    row,
                    row.names.0.as_bytes(),
                    letters.as_bytes(),
                    node,
                )?;
                if node.rule.is_some() {
                    left.push(None)?;
                }
                for child in tree.children(node).iter().rev() {
                    left.push(Some(*child))?;
                }
            }
        }
    }
    Ok(text)
}

/// Compares the tree of a text with this.
fn check_tree(
    rt: &(impl Abort + AllocGlobal),
    row: &Row,
    table: &Table<'_>,
    letters: &str,
    wanted: &str,
) {
    let tokens = tokens_of(rt, row.names.1, letters);
    let parsed = table.parse(rt.alloc(), &tokens).expect(rt, "it is parsed");
    let rules = &table.lookaheads().items().grammar().rules;
    let tree = Tree::of(rt.alloc(), rules, &tokens, &parsed).expect(rt, "a tree");
    let count = tokens.len().saturating_add(parsed.len());
    same(rt, "nodes", tokens.len(), tree.nodes.len(), count);
    let text = text_of(rt.alloc(), row, letters, &tree).expect(rt, "memory");
    same(rt, "the tree", tokens.len(), text.as_str(), wanted);
}

#[test]
fn texts_have_trees_with_the_tokens_that_each_node_spans(rt: HostRuntime) {
    for row in &GRAMMARS {
        let grammar = grammar_of(&rt, row.names, row.rules);
        let table = table_of(&rt, &grammar, &[], &[]);
        for (letters, wanted) in row.trees {
            check_tree(&rt, row, &table, letters, wanted);
        }
    }
}

/// The terminals that a parser expects behind a text, and those that it is to expect.
fn check_expected(
    rt: &(impl Abort + AllocGlobal),
    table: &Table<'_>,
    terminals: &str,
    letters: &str,
    wanted: &str,
) {
    let tokens = tokens_of(rt, terminals, letters);
    let set = table.expected(rt.alloc(), &tokens).expect(rt, "a set");
    same(rt, "terminals", tokens.len(), set.len(), terminals.len());
    for (terminal, name) in terminals.as_bytes().iter().enumerate() {
        let is_wanted = wanted.as_bytes().contains(name);
        same(rt, "expected", terminal, set.get(terminal), Some(is_wanted));
    }
}

#[test]
fn what_can_stand_behind_a_text_is_expected(rt: HostRuntime) {
    // Behind `a` no end is expected, though it may follow S.
    let grammar = grammar_of(&rt, ("AS", "$ab"), &["A=S$", "S=aSb", "S="]);
    let table = table_of(&rt, &grammar, &[], &[]);
    for (letters, wanted) in [
        ("", "$a"),
        ("a", "ab"),
        ("aa", "ab"),
        ("aab", "$b"),
        ("ab", "$b"),
    ] {
        check_expected(&rt, &table, "$ab", letters, wanted);
    }
    // No text begins with `b`, and none goes on behind `ab`.
    for (letters, at) in [("b", 0usize), ("abb", 2), ("aba", 2)] {
        let tokens = tokens_of(&rt, "$ab", letters);
        let refused = table.expected(rt.alloc(), &tokens).err();
        same(
            &rt,
            "refused",
            at,
            refused,
            Some(vob_lr::ParseError::Unexpected { at }),
        );
    }
}
