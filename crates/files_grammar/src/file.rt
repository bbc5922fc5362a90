//! Grammar files, and what is left out of them.
ghost use Rattle.std.specs.Prelude.{◌≡◌, IfErr, IfOk, OnOk};
ghost use Rattle.vob_flow.specs.Lists.{lists_of};
ghost use Rattle.vob_lr.specs.Faults.{IsWellFormed};
ghost use Rattle.files_text.specs.Printed.{name_at};
ghost use Rattle.files_grammar.specs.GrammarFaults.{HasNoTable, IsOfText};
ghost use Rattle.files_grammar.specs.GrammarFiles.{IsTableOf, precedence_of, rule_precedence_of};
ghost use Rattle.files_grammar.specs.Rules.{nonterminal_name, symbol_name, terminal_name};

use crate::fault::GrammarFault;
use std::alloc::{AllocError, Global};
use vob_lr::{Grammar, Lookaheads, Precedence, Symbol, Table, cycle};
use vob_yacc::{Details, GrammarText, LeftNonterminal, LeftOut, LeftRule, Useless, grammar_of};

/// How the file calls the symbols.
#[derive(Drop)]
pub struct SymbolNames {
    pub terminals: Vec<Vec<u8>>,
    /// The names of terminals without their texts in quotes.
    pub identifiers: Vec<Vec<u8>>,
    pub nonterminals: Vec<Vec<u8>>,
}

/// A grammar file as it was read.
#[derive(Drop)]
pub struct GrammarFile {
    pub grammar: Grammar,
    pub names: SymbolNames,
    pub expected: (Option<usize>, Option<usize>),
    precedences: Vec<Option<Precedence>>,
    rule_precedences: Vec<Option<Precedence>>,
    /// What no derivation has.
    pub left_out: LeftOut,
    /// What the file says besides.
    pub details: Details,
}

/// Returns the name with a number, or nothing if there is none.
fn name_at(names: &[Vec<u8>], number: usize) -> &[u8]
    ensures { result.now ≡ name_at (lists_of names.now) number }
{
    match names.get(number) {
        Some(name) => name.as_slice(),
        None => b"",
    }
}

impl SymbolNames {
    /// Returns the name of a terminal.
    pub fn terminal(&self, number: usize) -> &[u8]
        ensures { result.now ≡ terminal_name self.now number }
    {
        name_at(&self.terminals, number)
    }

    /// Returns the name of a nonterminal.
    pub fn nonterminal(&self, number: usize) -> &[u8]
        ensures { result.now ≡ nonterminal_name self.now number }
    {
        name_at(&self.nonterminals, number)
    }

    /// Returns the name of a symbol.
    pub fn of(&self, symbol: Symbol) -> &[u8]
        ensures { result.now ≡ symbol_name self.now symbol }
    {
        match symbol {
            Symbol::Terminal(number) => self.terminal(number),
            Symbol::Nonterminal(number) => self.nonterminal(number),
        }
    }
}

/// Returns the note on a nonterminal that is left out of a file.
fn nonterminal_note(
    alloc: Global,
    file: &str,
    own: &LeftNonterminal,
) -> Result<String, AllocError> {
    let LeftNonterminal {
        line,
        column,
        why,
        ..
    } = own;
    let name = String::from_utf8_lossy(alloc, &own.name)?;
    let why = match why {
        Useless::DerivesNothing => "it derives no text",
        Useless::Unreachable => "the start symbol doesn't lead to it",
    };
    format!(in alloc; "{file}:{line}:{column}: nonterminal {name} is left out: {why}")
}

/// Returns the note on a rule that is left out of a file.
fn rule_note(alloc: Global, file: &str, own: &LeftRule) -> Result<String, AllocError> {
    let LeftRule { line, column, .. } = own;
    let text = String::from_utf8_lossy(alloc, &own.text)?;
    format!(in alloc; "{file}:{line}:{column}: rule left out: {text}")
}

/// Returns the note on a nonterminal that derives itself.
fn cycle_note(alloc: Global, file: &str, name: &[u8]) -> Result<String, AllocError> {
    let name = String::from_utf8_lossy(alloc, name)?;
    format!(in alloc;
        "{file}: nonterminal {name} derives itself, so its texts have parses without end"
    )
}

/// Returns a count with its noun.
fn counted(alloc: Global, count: usize, noun: &str) -> Result<String, AllocError> {
    let end = if count == 1 { "" } else { "s" };
    format!(in alloc; "{count} {noun}{end}")
}

impl GrammarFile {
    /// Reads a grammar file. Fails at the first word that can't stand where it does.
    pub fn read(alloc: Global, text: &[u8]) -> Result<GrammarFile, GrammarFault>
        ensures { IfErr result IsOfText }
    {
        let GrammarText {
            grammar,
            terminals,
            identifiers,
            nonterminals,
            precedences,
            rule_precedences,
            expected,
            left_out,
            details,
        } = grammar_of(alloc, text)?;
        Ok(GrammarFile {
            grammar,
            names: SymbolNames {
                terminals,
                identifiers,
                nonterminals,
            },
            expected,
            precedences,
            rule_precedences,
            left_out,
            details,
        })
    }

    /// Returns the precedence of a terminal, if it has one.
    pub fn precedence(&self, terminal: usize) -> Option<Precedence>
        ensures { result ≡ precedence_of self.now terminal }
    {
        self.precedences.get(terminal).copied().flatten()
    }

    /// Returns the precedence of a rule, if it has one.
    pub fn rule_precedence(&self, rule: usize) -> Option<Precedence>
        ensures { result ≡ rule_precedence_of self.now rule }
    {
        self.rule_precedences.get(rule).copied().flatten()
    }

    /// Makes the table of the grammar. Fails if there is no rule, with the first rule that names a
    /// symbol that isn't there, or if memory runs out.
    pub fn table(&self, alloc: Global) -> Result<Table<'_>, GrammarFault>
        ensures ok { IfOk result (IsTableOf self.now) }
        ensures rules { OnOk result (IsWellFormed self.now.grammar) }
        ensures err { IfErr result (HasNoTable self.now.grammar) }
    {
        let states = Lookaheads::new(alloc, &self.grammar)?;
        Ok(Table::new(alloc, states, &self.precedences, &self.rule_precedences)?)
    }

    /// Returns lines on what is left out, and how much remains: none if nothing is. Then one on the first
    /// nonterminal that derives itself, if there is one. `file` is what the file is called. Fails if
    /// memory runs out.
    pub fn notes(&self, alloc: Global, file: &str) -> Result<Vec<String>, GrammarFault> {
        let mut notes = Vec::new(alloc);
        for own in self.left_out.nonterminals.iter() {
            notes.push(nonterminal_note(alloc, file, own)?)?;
        }
        for own in self.left_out.rules.iter() {
            notes.push(rule_note(alloc, file, own)?)?;
        }
        if !notes.is_empty() {
            notes.push(self.sum(alloc, file)?)?;
        }
        if let Some(number) = cycle(alloc, &self.grammar)? {
            notes.push(cycle_note(alloc, file, self.names.nonterminal(number))?)?;
        }
        Ok(notes)
    }

    /// Returns the note on how much is left out, and how much remains.
    fn sum(&self, alloc: Global, file: &str) -> Result<String, AllocError> {
        let nonterminals = counted(alloc, self.left_out.nonterminals.len(), "nonterminal")?;
        let rules = counted(alloc, self.left_out.rules.len(), "rule")?;
        let others = counted(alloc, self.grammar.nonterminals, "nonterminal")?;
        let other_rules = counted(alloc, self.grammar.rules.len(), "rule")?;
        format!(in alloc;
            "{file}: left out: {nonterminals}, {rules}; {others}, {other_rules} remain"
        )
    }
}
