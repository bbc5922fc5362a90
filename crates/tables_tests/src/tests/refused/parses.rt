//! The lookaheads of a grammar, its table, the conflicts, a parse with its tree, and what is expected:
//! each request for memory is refused in turn, or they are whole.
use crate::tests::support::{FIRST, given, request, same, same_list, tell};
use std::alloc::{AllocError, Global};
use std::process::Abort;
use vob_lr::{Conflict, Grammar, GrammarError, Lookaheads, ParseError, Rule, Symbol, Table, Tree};

/// Nonterminal 0 becomes nonterminal 1 and the end. By either of two rules nonterminal 1 becomes
/// nothing, which is a conflict. It takes two requests.
fn grammar(alloc: Global) -> Result<Grammar, AllocError> {
    let mut rules = Vec::with_capacity(alloc, 3)?;
    rules.push(Rule {
        left: 0,
        right: [Symbol::Nonterminal(1), Symbol::Terminal(0)].to_vec(alloc)?,
    })?;
    for _ in 0..2 {
        rules.push(Rule {
            left: 1,
            right: Vec::new(alloc),
        })?;
    }
    Ok(Grammar {
        terminals: 1,
        nonterminals: 2,
        rules,
    })
}

/// The states of a grammar with their lookaheads, or nothing if memory was refused.
fn states<'a>(rt: &(impl Abort + AllocGlobal), grammar: &'a Grammar) -> Option<Lookaheads<'a>> {
    let made = Lookaheads::new(rt.alloc(), grammar);
    given(rt, made, GrammarError::Memory)
}

/// The table of some states, or nothing if memory was refused.
fn table<'a>(rt: &(impl Abort + AllocGlobal), states: Lookaheads<'a>) -> Option<Table<'a>> {
    given(rt, Table::new(rt.alloc(), states, &[], &[]), AllocError)
}

/// Whether conflicts were given, which then are one: in state 0, where the end is ahead.
fn are_conflicts(rt: &(impl Abort + AllocGlobal), table: &Table<'_>) -> bool {
    let Some(found) = given(rt, table.conflicts(rt.alloc()), AllocError) else {
        return false;
    };
    let wanted = Conflict {
        state: 0,
        terminal: 0,
    };
    same_list(rt, "the conflicts", &found, &[wanted]);
    true
}

/// Whether the rules by which no token is parsed were given, which then are rule 1 alone, and their tree.
fn is_parse(rt: &(impl Abort + AllocGlobal), table: &Table<'_>) -> bool {
    let parsed = match table.parse(rt.alloc(), &[]) {
        Ok(parsed) => parsed,
        Err(error) => {
            same(rt, "refused", 0, error, ParseError::Memory);
            return false;
        }
    };
    same_list(rt, "the rules", &parsed, &[1]);
    let rules = &table.lookaheads().items().grammar().rules;
    let Some(tree) = given(rt, Tree::of(rt.alloc(), rules, &[], &parsed), AllocError) else {
        return false;
    };
    same(rt, "nodes", 0, tree.nodes.len(), 1);
    true
}

/// Whether what is expected before all tokens was given, which then is the end.
fn is_expected(rt: &(impl Abort + AllocGlobal), table: &Table<'_>) -> bool {
    let expected = table.expected(rt.alloc(), &[]);
    let Some(set) = given(rt, expected, ParseError::Memory) else {
        return false;
    };
    same(rt, "the end", 0, set.get(0), Some(true));
    true
}

/// Whether all was given, after so many requests and the two of the grammar.
fn are_whole(rt: &(impl Abort + AllocGlobal), behind: usize) -> bool {
    request(rt, behind);
    let grammar = grammar(rt.alloc()).expect(rt, "memory");
    let Some(states) = states(rt, &grammar) else {
        return false;
    };
    let Some(table) = table(rt, states) else {
        return false;
    };
    let conflicts = are_conflicts(rt, &table);
    is_parse(rt, &table) && is_expected(rt, &table) && conflicts
}

#[test]
fn parses_are_found_or_refused(rt: HostRuntime) {
    tell(&rt, are_whole(&rt, FIRST - 2));
}
