//! Which nonterminals of a grammar can become empty.
ghost use Rattle.std.specs.Prelude.{◌≡◌, ◌≢◌, ◌↔◌, ℕ, ◌<◌, Bool, List, length, slice_index_or, All, Contains, IsTrue, IfErr, IfOk, IsOk, Err};
ghost use Rattle.vob_lr.specs.Faults.{IsBadRule, IsWellFormed, MayRefuseRules};
ghost use Rattle.vob_lr.specs.Grammar.{AreNullable};
ghost use Rattle.vob_lr.specs.declared.grammar.Rule.{Rule};
ghost use Rattle.vob_lr.specs.Passes.{AddsNull, AreEmptied, HasNull, IsNull, IsNullClosed};
ghost use Rattle.vob_lr.specs.Sizes.{AreSized, IsSize};

use crate::grammar::{Grammar, GrammarError, Rule, Symbol, check_rules};
use std::alloc::{AllocError, Global};
use vob::Vob;

/// Whether a symbol is a nonterminal of a set.
pub(crate) fn is_null(nullable: &Vob, symbol: &Symbol) -> bool
    ensures { IsTrue result ↔ IsNull nullable.now.bits symbol.now }
{
    match symbol {
        Symbol::Terminal(_) => false,
        Symbol::Nonterminal(nonterminal) => nullable.get(*nonterminal).unwrap_or(false),
    }
}

/// Whether the right side of a rule has nonterminals of a set alone.
fn all_null(rule: &Rule, nullable: &Vob) -> bool
    ensures { IsTrue result ↔ All (IsNull nullable.now.bits) rule.now.right.items }
{
    rule.right.iter().all(|symbol| is_null(nullable, symbol))
}

/// The nonterminals that become empty. If there is a size for each, it says by how many rules it does:
/// `usize::MAX` if no number counts them.
#[derive(Drop)]
pub(crate) struct Emptied {
    pub nullable: Vob,
    pub sizes: Vec<usize>,
}

/// Returns the number at a place, or 0 behind the end.
pub(crate) fn number_at(numbers: &[usize], place: usize) -> usize
    ensures { result ≡ slice_index_or numbers.now place 0 }
{
    match numbers.get(place) {
        Some(number) => *number,
        None => 0,
    }
}

/// Returns by how many rules a nonterminal becomes empty by a rule, if those of its right side do by
/// their sizes.
fn size_by(rule: &Rule, sizes: &[usize]) -> usize
    ensures { (rules : List Rule) (nullable : List Bool) → Contains rules rule.now
        → AreSized usize.MAX rules nullable sizes.now
        → All (IsNull nullable) rule.now.right.items → IsSize usize.MAX rules rule.now.left result }
{
    let mut size = 1usize;
    for place in 0..rule.right.len() {
        if let Symbol::Nonterminal(nonterminal) = rule.right[place] {
            size = size.saturating_add(number_at(sizes, nonterminal));
        }
    }
    size
}

/// Adds the left side of a rule to a set that has all of its right side, and returns whether that
/// added it.
fn add_null(rule: &Rule, emptied: &mut Emptied) -> bool
    requires { rule.now.left < length emptied.old.nullable.bits }
    ensures len { length emptied.new.nullable.bits ≡ length emptied.old.nullable.bits }
    ensures long { length emptied.new.sizes.items ≡ length emptied.old.sizes.items }
    ensures adds { AddsNull (HasNull rule.now) emptied.old.nullable.bits
        emptied.new.nullable.bits result }
    ensures sound { (rules : List Rule) → Contains rules rule.now
        → AreEmptied rules emptied.old.nullable.bits → AreEmptied rules emptied.new.nullable.bits }
    ensures sized { (rules : List Rule) → Contains rules rule.now
        → AreSized usize.MAX rules emptied.old.nullable.bits emptied.old.sizes.items
        → AreSized usize.MAX rules emptied.new.nullable.bits emptied.new.sizes.items }
{
    if !all_null(rule, &emptied.nullable) || !emptied.nullable.set(rule.left, true) {
        return false;
    }
    if rule.left >= emptied.sizes.len() {
        return true;
    }
    emptied.sizes[rule.left] = size_by(rule, &emptied.sizes);
    true
}

/// Goes over all rules once, and returns whether that added a nonterminal.
fn null_pass(rules: &[Rule], emptied: &mut Emptied) -> bool
    requires { All (λ rule. rule.left < length emptied.old.nullable.bits) rules.now }
    ensures len { length emptied.new.nullable.bits ≡ length emptied.old.nullable.bits }
    ensures long { length emptied.new.sizes.items ≡ length emptied.old.sizes.items }
    ensures adds { AddsNull (IsNullClosed rules.now) emptied.old.nullable.bits
        emptied.new.nullable.bits result }
    ensures sound { AreEmptied rules.now emptied.old.nullable.bits
        → AreEmptied rules.now emptied.new.nullable.bits }
    ensures sized { AreSized usize.MAX rules.now emptied.old.nullable.bits emptied.old.sizes.items
        → AreSized usize.MAX rules.now emptied.new.nullable.bits emptied.new.sizes.items }
{
    let mut grew = false;
    for rule in rules {
        grew |= add_null(rule, emptied);
    }
    grew
}

/// Returns the nonterminals that rules of the grammar's symbols let become empty, and their sizes in
/// the place of others.
pub(crate) fn solve_emptied(
    alloc: Global,
    grammar: &Grammar,
    sizes: Vec<usize>,
) -> Result<Emptied, AllocError>
    requires { IsWellFormed grammar.now }
    ensures nullable { IfOk result (λ emptied. AreNullable grammar.now emptied.nullable.bits) }
    ensures sized { length sizes.items ≡ grammar.now.nonterminals → IfOk result (λ emptied.
        AreSized usize.MAX grammar.now.rules.items emptied.nullable.bits emptied.sizes.items) }
    ensures nothing { grammar.now.nonterminals ≡ 0 → IsOk result }
{
    let nullable = Vob::from_elem(alloc, false, grammar.nonterminals)?;
    let mut emptied = Emptied { nullable, sizes };
    'passes: while null_pass(&grammar.rules, &mut emptied) {}
    Ok(emptied)
}

/// Returns a bit for each nonterminal that rules of the grammar's symbols let become empty.
pub(crate) fn solve_nullable(alloc: Global, grammar: &Grammar) -> Result<Vob, AllocError>
    requires { IsWellFormed grammar.now }
    ensures nullable { IfOk result (λ set. AreNullable grammar.now set.bits) }
    ensures nothing { grammar.now.nonterminals ≡ 0 → IsOk result }
{
    Ok(solve_emptied(alloc, grammar, Vec::new(alloc))?.nullable)
}

/// Returns a bit for each nonterminal, true if it can become empty.
///
/// Fails with the first rule that names a symbol that isn't there, or if memory runs out.
pub fn nullable(alloc: Global, grammar: &Grammar) -> Result<Vob, GrammarError>
    ensures nullable { IfOk result (λ set. AreNullable grammar.now set.bits) }

    // The rules are checked first, and memory is asked for only if there are nonterminals.
    ensures bad_symbol { (rule : ℕ)
        → (result ≡ Err (GrammarError.BadSymbol rule)) ↔ IsBadRule grammar.now rule }
    ensures memory { result ≡ Err GrammarError.Memory → grammar.now.nonterminals ≢ 0 }
    ensures refused { IfErr result (MayRefuseRules grammar.now) }
{
    check_rules(grammar)?;
    let nullable = solve_nullable(alloc, grammar)?;
    Ok(nullable)
}
