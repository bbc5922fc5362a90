//! Which nonterminals of a grammar derive some tokens.
ghost use Rattle.std.specs.Prelude.{◌≡◌, ◌≢◌, ◌↔◌, ℕ, [], map, IfErr, IfOk, IsOk, Err};
ghost use Rattle.vob_lr.specs.Derivations.{sides};
ghost use Rattle.vob_lr.specs.Faults.{IsBadRule, MayRefuseRules};
ghost use Rattle.vob_lr.specs.Productive.{TellProductive, bare, nonterminals_in};

use crate::empty::solve_nullable;
use crate::grammar::{Grammar, GrammarError, Rule, Symbol, check_rules};
use std::alloc::{AllocError, Global};
use vob::Vob;

/// Returns the nonterminals among symbols, in their order.
fn nonterminals_of(alloc: Global, symbols: &[Symbol]) -> Result<Vec<Symbol>, AllocError>
    ensures { IfOk result (λ own. own.items ≡ nonterminals_in symbols.now) }
{
    let mut own = Vec::new(alloc);
    for symbol in symbols {
        if let Symbol::Nonterminal(_) = symbol {
            own.push(*symbol)?;
        }
    }
    Ok(own)
}

/// Returns rules without the terminals on their right sides.
fn without_terminals(alloc: Global, rules: &[Rule]) -> Result<Vec<Rule>, AllocError>
    ensures bare { IfOk result (λ own. map sides own.items ≡ map bare rules.now) }
    ensures nothing { rules.now ≡ [] → IsOk result }
{
    let mut own = Vec::new(alloc);
    for rule in rules {
        let left = rule.left;
        let right = nonterminals_of(alloc, &rule.right)?;
        own.push(Rule { left, right })?;
    }
    Ok(own)
}

/// Returns a bit for each nonterminal, true if it derives some tokens. If all are, what is proved of
/// grammars with such nonterminals alone holds: `laws::lookaheads_are_merged`, `laws::errors_are_late`.
///
/// Fails with the first rule that names a symbol that isn't there, or if memory runs out.
pub fn productive(alloc: Global, grammar: &Grammar) -> Result<Vob, GrammarError>
    ensures productive { IfOk result (λ set. TellProductive grammar.now set.bits) }

    // The rules are checked first, and memory is asked for only if there are nonterminals.
    ensures bad_symbol { (rule : ℕ)
        → (result ≡ Err (GrammarError.BadSymbol rule)) ↔ IsBadRule grammar.now rule }
    ensures memory { result ≡ Err GrammarError.Memory → grammar.now.nonterminals ≢ 0 }
    ensures refused { IfErr result (MayRefuseRules grammar.now) }
{
    check_rules(grammar)?;
    // Once terminals are taken for nothing, what derives tokens can become empty.
    let bare = Grammar {
        terminals: 0,
        nonterminals: grammar.nonterminals,
        rules: without_terminals(alloc, &grammar.rules)?,
    };
    let set = solve_nullable(alloc, &bare)?;
    Ok(set)
}
