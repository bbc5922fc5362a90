//! Context-free grammars, and the first rule of one that names a symbol that isn't there.
ghost use Rattle.std.specs.Prelude.{◌↔◌, IsTrue, IfErr, OnOk};
ghost use Rattle.vob_lr.specs.Faults.{IsFault, IsRuleOf, IsSymbol, IsWellFormed};

use std::alloc::AllocError;
use std::{error, fmt};

/// A symbol of a grammar: terminals and nonterminals have numbers from 0 on, each kind its own.
#[derive(Clone, Copy, Debug, PartialEq, Eq)]
pub enum Symbol {
    Terminal(usize),
    Nonterminal(usize),
}

/// A rule: the nonterminal on its left side may become the symbols on its right side.
#[derive(Drop)]
pub struct Rule {
    pub left: usize,
    pub right: Vec<Symbol>,
}

/// A context-free grammar: how many terminals and nonterminals it has, and its rules.
#[derive(Drop)]
pub struct Grammar {
    pub terminals: usize,
    pub nonterminals: usize,
    pub rules: Vec<Rule>,
}

/// Why the sets of a grammar weren't found.
#[derive(Clone, Copy, Debug, PartialEq, Eq)]
pub enum GrammarError {
    /// There was no memory for the sets.
    Memory,
    /// A rule names a terminal or a nonterminal that isn't there.
    BadSymbol { rule: usize },
    /// There is no rule to start from.
    NoRule,
}

impl GrammarError {
    ghost use Rattle.std.specs.Prelude.{◌≡◌};
    ghost use Rattle.vob_lr.specs.Faults.{grammar_error_number};

    /// The number of the refusal: 2 for `Memory`, 7 for `BadSymbol`, 8 for `NoRule`.
    pub fn number(&self) -> u8
        ensures { result ≡ grammar_error_number self.now }
    {
        match self {
            GrammarError::Memory => 2,
            GrammarError::BadSymbol { rule: _ } => 7,
            GrammarError::NoRule => 8,
        }
    }
}

impl fmt::Display for GrammarError {
    ghost use Rattle.std.specs.Prelude.{Some};
    ghost use Rattle.vob_lr.specs.Faults.{grammar_error_text};

    ghost output = { λ error. Some (grammar_error_text error) };

    fn fmt<W: fmt::Write>(&self, f: &mut fmt::Formatter<W>) -> fmt::Result {
        match self {
            GrammarError::Memory => f.write_str("out of memory"),
            GrammarError::BadSymbol { rule } => {
                write!(f, "rule {rule} names a symbol that isn't there")
            }
            GrammarError::NoRule => f.write_str("there is no rule"),
        }
    }
}

impl error::Error for GrammarError {}

impl From<AllocError> for GrammarError {
    ghost use Rattle.std.specs.Prelude.{◌≡◌};
    ghost use Rattle.vob_lr.specs.declared.grammar.GrammarError.TheVariants.{Memory};

    ghost from_gives = { λ _ refusal. refusal ≡ Memory };

    fn from(_: AllocError) -> GrammarError {
        GrammarError::Memory
    }
}

/// Whether a symbol is one of the grammar.
fn is_symbol(grammar: &Grammar, symbol: &Symbol) -> bool
    ensures { IsTrue result
        ↔ IsSymbol grammar.now.terminals grammar.now.nonterminals symbol.now }
{
    match symbol {
        Symbol::Terminal(terminal) => *terminal < grammar.terminals,
        Symbol::Nonterminal(nonterminal) => *nonterminal < grammar.nonterminals,
    }
}

/// Whether a rule names symbols of the grammar alone.
fn is_rule_of(grammar: &Grammar, rule: &Rule) -> bool
    ensures { IsTrue result ↔ IsRuleOf grammar.now rule.now }
{
    rule.left < grammar.nonterminals && rule.right.iter().all(|symbol| is_symbol(grammar, symbol))
}

/// Whether each rule names symbols of the grammar alone, or else the first that doesn't.
pub(crate) fn check_rules(grammar: &Grammar) -> Result<(), GrammarError>
    ensures ok { OnOk result (IsWellFormed grammar.now) }
    ensures err { IfErr result (IsFault grammar.now) }
{
    for rule in 0..grammar.rules.len() {
        if !is_rule_of(grammar, &grammar.rules[rule]) {
            return Err(GrammarError::BadSymbol { rule });
        }
    }
    Ok(())
}
