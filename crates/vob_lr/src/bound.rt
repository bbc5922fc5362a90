//! How many reductions a sentence needs at most.
ghost use Rattle.std.specs.Prelude.{◌≤◌, length, All, IfOk};
ghost use Rattle.vob_lr.specs.Faults.{IsWellFormed};
ghost use Rattle.vob_lr.specs.Sizes.{IsBound};

use crate::empty::solve_emptied;
use crate::grammar::{Grammar, Rule};
use std::alloc::{AllocError, Global};

/// A number of reductions, and more for each token.
#[derive(Clone, Copy)]
pub(crate) struct Bound {
    pub base: usize,
    pub each: usize,
}

/// Returns the greatest of some numbers, or 0.
fn greatest(numbers: &[usize]) -> usize
    ensures { All (λ n. n ≤ result) numbers.now }
{
    let mut most = 0;
    for place in 0..numbers.len() {
        if numbers[place] > most {
            most = numbers[place];
        }
    }
    most
}

/// Returns how many symbols the longest right side has.
fn widest(rules: &[Rule]) -> usize
    ensures { All (λ rule. length rule.right.items ≤ result) rules.now }
{
    let mut most = 0;
    for place in 0..rules.len() {
        let len = rules[place].right.len();
        if len > most {
            most = len;
        }
    }
    most
}

/// Returns how many reductions suffice for the sentences of a grammar. If a node of a tree has tokens,
/// those of its symbols that become empty take at most `base` reductions with its own. On a way that
/// leads to the same tokens no nonterminal stands twice, and at most as many nodes as there are tokens
/// part them.
pub(crate) fn bound_of(alloc: Global, grammar: &Grammar) -> Result<Bound, AllocError>
    requires { IsWellFormed grammar.now }
    ensures { IfOk result (λ bound.
        IsBound usize.MAX grammar.now.rules.items bound.base bound.each) }
{
    let mut sizes = Vec::new(alloc);
    sizes.resize(grammar.nonterminals, 0)?;
    let emptied = solve_emptied(alloc, grammar, sizes)?;
    let size = greatest(&emptied.sizes);
    let right = size.saturating_mul(widest(&grammar.rules));
    let base = right.saturating_add(size).saturating_add(1);
    let each = base.saturating_mul(grammar.nonterminals).saturating_mul(2);
    Ok(Bound { base, each })
}
