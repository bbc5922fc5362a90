//! Which terminals can begin what the nonterminals of a grammar become.
ghost use Rattle.std.specs.Prelude.{◌≡◌, ◌<◌, length, All, IfOk, IsOk, OnOk};
ghost use Rattle.vob_lr.specs.Equations.{AreEquations, At, GainEach};
ghost use Rattle.vob_lr.specs.Faults.{IsWellFormed};
ghost use Rattle.vob_lr.specs.Grammar.{AreFirst, AreNullable};
ghost use Rattle.vob_lr.specs.Heads.{HasHead, HasPlace, IsHead};

use crate::empty::is_null;
use crate::equations::Equations;
use crate::grammar::{Grammar, Symbol};
use std::alloc::{AllocError, Global};
use vob::Vob;
use vob_rows::BitRows;

/// Lets the set of a left side start with the terminals that stand on a right side behind nullable
/// symbols alone, and draw from the nonterminals that do.
fn add_heads(
    nullable: &Vob,
    right: &[Symbol],
    left: usize,
    equations: &mut Equations,
) -> Result<(), AllocError>
    requires set { left < length equations.old.starts }
    requires places { All (HasPlace equations.old.places) right.now }
    ensures { OnOk result (GainEach (At left (IsHead nullable.now.bits right.now))
        equations.old equations.new) }
{
    for symbol in right {
        equations.add(left, symbol)?;
        if !is_null(nullable, symbol) {
            return Ok(());
        }
    }
    Ok(())
}

/// Does that for the right sides of all rules.
fn add_rules(nullable: &Vob, grammar: &Grammar, equations: &mut Equations) -> Result<(), AllocError>
    requires rules { IsWellFormed grammar.now }
    requires sets { length equations.old.starts ≡ grammar.now.nonterminals }
    requires places { equations.old.places ≡ grammar.now.terminals }
    ensures { OnOk result (GainEach (HasHead nullable.now.bits grammar.now.rules.items)
        equations.old equations.new) }
{
    for rule in &grammar.rules {
        add_heads(nullable, &rule.right, rule.left, equations)?;
    }
    Ok(())
}

/// Returns what the first sets start with, and which others each draws from.
fn first_equations(
    alloc: Global,
    grammar: &Grammar,
    nullable: &Vob,
) -> Result<Equations, AllocError>
    requires { IsWellFormed grammar.now }
    ensures { IfOk result (AreEquations grammar.now.nonterminals grammar.now.terminals
        (HasHead nullable.now.bits grammar.now.rules.items)) }
{
    let mut equations = Equations::new(alloc, grammar.nonterminals, grammar.terminals)?;
    add_rules(nullable, grammar, &mut equations)?;
    Ok(equations)
}

/// Returns the first sets of a grammar with sound rules, given its nullable nonterminals. No
/// nonterminals take no memory.
pub(crate) fn solve_first(
    alloc: Global,
    grammar: &Grammar,
    nullable: &Vob,
) -> Result<BitRows, AllocError>
    requires rules { IsWellFormed grammar.now }
    requires nullable { AreNullable grammar.now nullable.now.bits }
    ensures first { IfOk result (λ sets. AreFirst grammar.now sets.rows) }
    ensures columns { IfOk result (λ sets. sets.columns ≡ grammar.now.terminals) }
    ensures nothing { grammar.now.nonterminals ≡ 0 → IsOk result }
{
    if grammar.nonterminals == 0 {
        let none = BitRows::new(alloc, 0, grammar.terminals)?;
        return Ok(none);
    }
    let equations = first_equations(alloc, grammar, nullable)?;
    let sets = equations.solve(alloc)?;
    Ok(sets)
}
