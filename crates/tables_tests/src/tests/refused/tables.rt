//! The states of a grammar: each request for memory is refused in turn, or they are whole.
use crate::tests::support::{FIRST, request, same, tell};
use std::alloc::{AllocError, Global};
use std::process::Abort;
use vob_lr::{Automaton, Closures, Grammar, GrammarError, Rule, Symbol, states};

/// One rule: nonterminal 0 becomes terminal 0.
fn grammar(alloc: Global) -> Result<Grammar, AllocError> {
    let mut rules = Vec::with_capacity(alloc, 1)?;
    rules.push(Rule {
        left: 0,
        right: [Symbol::Terminal(0)].to_vec(alloc)?,
    })?;
    Ok(Grammar {
        terminals: 1,
        nonterminals: 1,
        rules,
    })
}

/// Whether states were given, which then are two.
fn are_given(rt: &impl Abort, made: Result<Automaton, GrammarError>) -> bool {
    match made {
        Ok(made) => {
            same(rt, "the states", 0, made.sets.len(), 2);
            same(rt, "the moves", 0, made.moves.len(), 2);
            true
        }
        Err(refusal) => {
            same(rt, "the refusal", 0, refusal, GrammarError::Memory);
            false
        }
    }
}

/// Whether the states were found, whole, behind so many requests.
fn are_states(rt: &(impl Abort + AllocGlobal), behind: usize) -> bool {
    request(rt, behind);
    let Ok(grammar) = grammar(rt.alloc()) else {
        return false;
    };
    are_given(rt, states(rt.alloc(), &grammar))
}

/// Whether the item behind the first one was found alone.
fn is_passed(alloc: Global, closures: &Closures<'_>) -> Result<bool, AllocError> {
    let next = closures.goto(alloc, &[0], Symbol::Terminal(0))?;
    Ok(next.contains(&1))
}

#[test]
fn gotos_are_found_or_refused(rt: HostRuntime) {
    request(&rt, FIRST - 12);
    let grammar = grammar(rt.alloc()).expect(&rt, "memory");
    let closures = Closures::new(rt.alloc(), &grammar).expect(&rt, "memory");
    let found = match is_passed(rt.alloc(), &closures) {
        Ok(passed) => {
            same(&rt, "the item", 0, passed, true);
            true
        }
        Err(AllocError) => false,
    };
    tell(&rt, found);
}

#[test]
fn states_are_found_or_refused(rt: HostRuntime) {
    tell(&rt, are_states(&rt, FIRST));
}
