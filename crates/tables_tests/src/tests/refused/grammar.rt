//! The sets of a grammar: each request for memory is refused in turn, or they are whole.
use crate::tests::support::{FIRST, request, same, tell};
use std::alloc::{AllocError, Global};
use std::process::Abort;
use vob_lr::{Grammar, GrammarError, GrammarSets, Rule, Symbol, nullable};

/// One nonterminal that becomes nothing, or itself around terminal 1 of two.
fn grammar(alloc: Global) -> Result<Grammar, AllocError> {
    let symbols = [
        Symbol::Nonterminal(0),
        Symbol::Terminal(1),
        Symbol::Nonterminal(0),
    ];
    let mut rules = Vec::with_capacity(alloc, 2)?;
    rules.push(Rule {
        left: 0,
        right: symbols.to_vec(alloc)?,
    })?;
    rules.push(Rule {
        left: 0,
        right: Vec::new(alloc),
    })?;
    Ok(Grammar {
        terminals: 2,
        nonterminals: 1,
        rules,
    })
}

/// Whether sets were given, which then have nonterminal 0 and terminal 1 alone.
fn are_given(rt: &impl Abort, sets: Result<GrammarSets, GrammarError>) -> bool {
    match sets {
        Ok(sets) => {
            same(rt, "nullable", 0, sets.nullable.get(0), Some(true));
            for rows in [&sets.first, &sets.follow] {
                same(rt, "the sets", 0, rows.rows(), 1);
                same(rt, "a terminal", 0, rows.get(0, 0), Some(false));
                same(rt, "a terminal", 0, rows.get(0, 1), Some(true));
            }
            true
        }
        Err(refusal) => {
            same(rt, "the refusal", 0, refusal, GrammarError::Memory);
            false
        }
    }
}

#[test]
fn sets_are_found_or_refused(rt: HostRuntime) {
    request(&rt, FIRST - 2);
    let grammar = grammar(rt.alloc()).expect(&rt, "memory");
    tell(&rt, are_given(&rt, GrammarSets::new(rt.alloc(), &grammar)));
}

#[test]
fn nullables_are_found_by_one_request(rt: HostRuntime) {
    request(&rt, FIRST - 2);
    let grammar = grammar(rt.alloc()).expect(&rt, "memory");
    let found = match nullable(rt.alloc(), &grammar) {
        Ok(set) => {
            same(&rt, "nullable", 0, set.get(0), Some(true));
            true
        }
        Err(refusal) => {
            same(&rt, "the refusal", 0, refusal, GrammarError::Memory);
            false
        }
    };
    tell(&rt, found);
}
