//! The sets of a grammar's nonterminals.
ghost use Rattle.std.specs.Prelude.{◌≡◌, ◌≢◌, ◌↔◌, ℕ, Err, IfErr, IfOk};
ghost use Rattle.vob_lr.specs.Faults.{IsBadRule, MayRefuseRules};
ghost use Rattle.vob_lr.specs.Grammar.{AreFirst, AreFollow, AreNullable};

use crate::empty::solve_nullable;
use crate::first::solve_first;
use crate::follow::solve_follow;
use crate::grammar::{Grammar, GrammarError, check_rules};
use std::alloc::Global;
use vob::Vob;
use vob_rows::BitRows;

/// Which nonterminals of a grammar can become empty, and the terminals that can begin what each
/// becomes, and that can follow it.
#[derive(Drop)]
pub struct GrammarSets {
    /// A bit for each nonterminal: whether it can become empty.
    pub nullable: Vob,
    /// A row for each nonterminal, with a bit for each terminal: whether it can begin what the
    /// nonterminal becomes.
    pub first: BitRows,
    /// The same: whether the terminal can stand right behind the nonterminal in what some nonterminal
    /// derives.
    pub follow: BitRows,
}

impl GrammarSets {
    /// Finds the sets of a grammar.
    ///
    /// Fails with the first rule that names a symbol that isn't there, or if memory runs out.
    pub fn new(alloc: Global, grammar: &Grammar) -> Result<GrammarSets, GrammarError>
        ensures nullable { IfOk result (λ sets. AreNullable grammar.now sets.nullable.bits) }
        ensures first { IfOk result (λ sets. AreFirst grammar.now sets.first.rows) }
        ensures first_columns { IfOk result (λ sets. sets.first.columns ≡ grammar.now.terminals) }
        ensures follow { IfOk result (λ sets. AreFollow grammar.now sets.follow.rows) }
        ensures follow_columns { IfOk result (λ sets. sets.follow.columns ≡ grammar.now.terminals) }

        // The rules are checked first, and memory is asked for only if there are nonterminals.
        ensures bad_symbol { (rule : ℕ)
            → (result ≡ Err (GrammarError.BadSymbol rule)) ↔ IsBadRule grammar.now rule }
        ensures memory { result ≡ Err GrammarError.Memory → grammar.now.nonterminals ≢ 0 }
        ensures refused { IfErr result (MayRefuseRules grammar.now) }
    {
        check_rules(grammar)?;
        let nullable = solve_nullable(alloc, grammar)?;
        let first = solve_first(alloc, grammar, &nullable)?;
        let follow = solve_follow(alloc, grammar, &nullable, &first)?;
        Ok(GrammarSets {
            nullable,
            first,
            follow,
        })
    }
}
