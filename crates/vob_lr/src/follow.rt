//! Which terminals can follow the nonterminals of a grammar.
ghost use Rattle.std.specs.Prelude.{◌≡◌, ◌↔◌, ◌⊎◌, ℕ, true, length, IsTrue, IfOk, IsOk, OnOk};
ghost use Rattle.vob_block.specs.Packing.{item};
ghost use Rattle.vob.specs.Vobs.{AreOfLength};
ghost use Rattle.vob_lr.specs.Behind.{HasBehind, IsBehind, IsBelow, IsOfTrailer, IsStart};
ghost use Rattle.vob_lr.specs.Equations.{AreEquations, GainEach};
ghost use Rattle.vob_lr.specs.Faults.{IsRuleOf, IsWellFormed};
ghost use Rattle.vob_lr.specs.Grammar.{AreFirst, AreFollow, AreNullable};
ghost use Rattle.vob_lr.specs.Heads.{HasPlace};
ghost use Rattle.vob_lr.specs.Passes.{IsNull};
ghost use Rattle.vob_lr.specs.declared.grammar.Symbol.TheVariants.{Nonterminal};

use crate::empty::is_null;
use crate::equations::Equations;
use crate::grammar::{Grammar, Rule, Symbol};
use std::alloc::{AllocError, Global};
use vob::Vob;
use vob_rows::{BitRows, Row};

/// Makes of what can begin some symbols what can begin them behind a nonterminal with this row.
fn put_row(vanishes: bool, row: &Row<'_>, begins: &mut Vob)
    requires { length row.now ≡ length begins.old.bits }
    ensures len { length begins.new.bits ≡ length begins.old.bits }
    ensures each { (t : ℕ) → (item begins.new.bits t ≡ true)
        ↔ ((item row.now t ≡ true) ⊎ (IsTrue vanishes × (item begins.old.bits t ≡ true))) }
{
    if !vanishes {
        begins.set_all(false);
    }
    row.or_into(begins);
}

/// Makes of what can begin some symbols what can begin them behind another. Returns whether all can
/// become empty, given whether they can.
pub(crate) fn put_before(
    nullable: &Vob,
    first: &BitRows,
    symbol: &Symbol,
    begins: &mut Vob,
    empty: bool,
) -> bool
    requires place { HasPlace (length begins.old.bits) symbol.now }
    requires below { IsBelow (length first.now.rows) symbol.now }
    requires long { AreOfLength (length begins.old.bits) first.now.rows }
    ensures len { length begins.new.bits ≡ length begins.old.bits }
    ensures each { (t : ℕ) → (item begins.new.bits t ≡ true)
        ↔ (IsStart first.now.rows symbol.now t
        ⊎ (IsNull nullable.now.bits symbol.now × (item begins.old.bits t ≡ true))) }
    ensures empty { IsTrue result ↔ (IsNull nullable.now.bits symbol.now × IsTrue empty) }
{
    let vanishes = is_null(nullable, symbol);
    match symbol {
        Symbol::Terminal(terminal) => {
            begins.set_all(false);
            begins.set(*terminal, true);
        }
        Symbol::Nonterminal(nonterminal) => put_row(vanishes, &first.row(*nonterminal), begins),
    }
    vanishes && empty
}

/// Lets the set of a symbol, if it is a nonterminal, start with what can begin the symbols behind it,
/// and draw from the left side where they can become empty.
fn add_behind(
    left: usize,
    symbol: &Symbol,
    begins: &Vob,
    empty: bool,
    equations: &mut Equations,
) -> Result<(), AllocError>
    requires below { IsBelow (length equations.old.starts) symbol.now }
    requires long { length begins.now.bits ≡ equations.old.places }
    ensures { OnOk result (GainEach
        (λ a y. (symbol.now ≡ Nonterminal a) × IsOfTrailer left begins.now.bits empty y)
        equations.old equations.new) }
{
    match symbol {
        Symbol::Terminal(_) => Ok(()),
        Symbol::Nonterminal(a) => equations.add_trailer(*a, begins, empty, left),
    }
}

/// Does that for the symbols of a right side, from the last one to the first.
fn add_rule(
    grammar: &Grammar,
    nullable: &Vob,
    first: &BitRows,
    rule: &Rule,
    begins: &mut Vob,
    equations: &mut Equations,
) -> Result<(), AllocError>
    requires rule { IsRuleOf grammar.now rule.now }
    requires nullable { AreNullable grammar.now nullable.now.bits }
    requires first { AreFirst grammar.now first.now.rows }
    requires begins { length begins.old.bits ≡ grammar.now.terminals }
    requires sets { length equations.old.starts ≡ grammar.now.nonterminals }
    requires places { equations.old.places ≡ grammar.now.terminals }
    ensures begins { length begins.new.bits ≡ length begins.old.bits }
    ensures behind { OnOk result
        (GainEach (IsBehind grammar.now.rules.items rule.now.left rule.now.right.items)
        equations.old equations.new) }
{
    begins.set_all(false);
    let mut empty = true;
    for back in 0..rule.right.len() {
        let symbol = &rule.right[rule.right.len() - 1 - back];
        add_behind(rule.left, symbol, begins, empty, equations)?;
        empty = put_before(nullable, first, symbol, begins, empty);
    }
    Ok(())
}

/// Does that for the right sides of all rules.
fn add_rules(
    grammar: &Grammar,
    nullable: &Vob,
    first: &BitRows,
    begins: &mut Vob,
    equations: &mut Equations,
) -> Result<(), AllocError>
    requires rules { IsWellFormed grammar.now }
    requires nullable { AreNullable grammar.now nullable.now.bits }
    requires first { AreFirst grammar.now first.now.rows }
    requires begins { length begins.old.bits ≡ grammar.now.terminals }
    requires sets { length equations.old.starts ≡ grammar.now.nonterminals }
    requires places { equations.old.places ≡ grammar.now.terminals }
    ensures { OnOk result
        (GainEach (HasBehind grammar.now.rules.items grammar.now.rules.items)
        equations.old equations.new) }
{
    for rule in &grammar.rules {
        add_rule(grammar, nullable, first, rule, begins, equations)?;
    }
    Ok(())
}

/// Returns what the follow sets start with, and which others each draws from.
fn follow_equations(
    alloc: Global,
    grammar: &Grammar,
    nullable: &Vob,
    first: &BitRows,
) -> Result<Equations, AllocError>
    requires rules { IsWellFormed grammar.now }
    requires nullable { AreNullable grammar.now nullable.now.bits }
    requires first { AreFirst grammar.now first.now.rows }
    ensures { IfOk result (AreEquations grammar.now.nonterminals grammar.now.terminals
        (HasBehind grammar.now.rules.items grammar.now.rules.items)) }
{
    let mut begins = Vob::from_elem(alloc, false, grammar.terminals)?;
    let mut equations = Equations::new(alloc, grammar.nonterminals, grammar.terminals)?;
    add_rules(grammar, nullable, first, &mut begins, &mut equations)?;
    Ok(equations)
}

/// Returns the follow sets of a grammar with sound rules. No nonterminals take no memory.
pub(crate) fn solve_follow(
    alloc: Global,
    grammar: &Grammar,
    nullable: &Vob,
    first: &BitRows,
) -> Result<BitRows, AllocError>
    requires rules { IsWellFormed grammar.now }
    requires nullable { AreNullable grammar.now nullable.now.bits }
    requires first { AreFirst grammar.now first.now.rows }
    ensures follow { IfOk result (λ sets. AreFollow grammar.now sets.rows) }
    ensures columns { IfOk result (λ sets. sets.columns ≡ grammar.now.terminals) }
    ensures nothing { grammar.now.nonterminals ≡ 0 → IsOk result }
{
    if grammar.nonterminals == 0 {
        let none = BitRows::new(alloc, 0, grammar.terminals)?;
        return Ok(none);
    }
    let equations = follow_equations(alloc, grammar, nullable, first)?;
    let sets = equations.solve(alloc)?;
    Ok(sets)
}
