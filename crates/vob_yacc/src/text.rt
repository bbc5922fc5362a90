//! Grammar files of yacc and bison.

use crate::codes::codes_of;
use crate::reader::Reader;
use crate::rules::RuleText;
use crate::scan::{Token, scan};
use crate::symbols::Numbered;
use crate::text_error::{Stop, TextError, TextFault};
use crate::useful::{LeftOut, PlacedRule, Reduced, Whole, reduce};
use std::alloc::Global;
use vob_lr::{Grammar, Precedence, Rule, Symbol};

/// What a grammar file says. The end is terminal 0, and rule 0 derives the start symbol and the end from
/// nonterminal 0. Other symbols follow, `error` first, unless it is the end. All have their order in
/// bison: terminals that of their declarations, nonterminals and rules that of the rules.
#[derive(Drop)]
pub struct GrammarText {
    pub grammar: Grammar,
    /// The name of each terminal: its text in quotes if it has one.
    pub terminals: Vec<Vec<u8>>,
    /// The name of each terminal without its text: the one by which code calls it, if it has one.
    pub identifiers: Vec<Vec<u8>>,
    /// The name of each nonterminal. That of an action within a rule is a number behind `$@`, or
    /// behind `@` if code names its value.
    pub nonterminals: Vec<Vec<u8>>,
    /// The precedence of each terminal, if the file gives it one.
    pub precedences: Vec<Option<Precedence>>,
    /// The precedence of each rule: that of `%prec`, or of its last terminal.
    pub rule_precedences: Vec<Option<Precedence>>,
    /// The conflicts that `%expect` and `%expect-rr` name. As in bison, the second counts in files with
    /// `%glr-parser` alone.
    pub expected: (Option<usize>, Option<usize>),
    /// The nonterminals and rules that no derivation of a text from the start symbol has.
    pub left_out: LeftOut,
    pub details: Details,
}

/// What a grammar file says that tables don't depend on.
#[derive(Drop)]
pub struct Details {
    /// The terminal `error`.
    pub error: usize,
    /// The number by which a scanner calls each terminal: the one that the file gives it, or the code of its
    /// character, or else 0 for the end, 256 for `error`, and numbers that are greater than all of these. The
    /// first of them is that of tokens that no terminal is.
    pub codes: Vec<usize>,
    /// The type of each terminal, which is in `<>` in the file, or nothing.
    pub terminal_types: Vec<Vec<u8>>,
    /// The type of each nonterminal, or nothing.
    pub nonterminal_types: Vec<Vec<u8>>,
    /// The terminal that `%prec` names in each rule, if it does.
    pub rule_terminals: Vec<Option<usize>>,
    /// Whether the parser is to do all that conflicts leave, by `%glr-parser`.
    pub is_ambiguous: bool,
}

/// Returns the bytes of a word.
fn word<'a>(text: &'a [u8], token: &Token) -> &'a [u8] {
    text.get(token.start..token.end).unwrap_or_default()
}

/// Returns the precedence of a rule: that of the terminal of `%prec`, or that of the last terminal of its
/// right side if `has_default`.
fn precedence_of(
    numbered: &Numbered,
    own: &RuleText,
    right: &[Symbol],
    has_default: bool,
) -> Option<Precedence> {
    let last = right.iter().rev().find(|symbol| is_terminal(symbol));
    let symbol = match own.precedence {
        Some(entry) => numbered.symbol(entry),
        None if has_default => last.copied(),
        None => None,
    };
    match symbol? {
        Symbol::Terminal(terminal) => numbered.precedences.get(terminal).copied().flatten(),
        Symbol::Nonterminal(_) => None,
    }
}

/// Returns the terminal of `%prec` in a rule.
fn terminal_of(numbered: &Numbered, own: &RuleText) -> Option<usize> {
    match numbered.symbol(own.precedence?)? {
        Symbol::Terminal(terminal) => Some(terminal),
        Symbol::Nonterminal(_) => None,
    }
}

/// Whether a symbol is a terminal.
fn is_terminal(symbol: &Symbol) -> bool {
    matches!(symbol, Symbol::Terminal(_))
}

/// Returns a rule by the numbers of its symbols.
fn placed(
    alloc: Global,
    numbered: &Numbered,
    own: &RuleText,
    has_default: bool,
) -> Result<PlacedRule, Stop> {
    let symbols = own.right.iter().filter_map(|entry| numbered.symbol(*entry));
    let right: Vec<Symbol> = symbols.collect(alloc)?;
    let left = match numbered.symbol(own.left) {
        Some(Symbol::Nonterminal(left)) => left,
        _ => 0,
    };
    Ok(PlacedRule {
        precedence: precedence_of(numbered, own, &right, has_default),
        terminal: terminal_of(numbered, own),
        rule: Rule { left, right },
        at: own.at,
    })
}

/// Returns all rules. The first is that of the nonterminal above the start symbol.
fn placed_rules(
    alloc: Global,
    numbered: &Numbered,
    rules: &[RuleText],
    start: usize,
    has_default: bool,
) -> Result<Vec<PlacedRule>, Stop> {
    let mut placed_rules = Vec::new(alloc);
    let right = [Symbol::Nonterminal(start), Symbol::Terminal(0)];
    placed_rules.push(PlacedRule {
        rule: Rule {
            left: 0,
            right: right.to_vec(alloc)?,
        },
        precedence: None,
        terminal: None,
        at: 0,
    })?;
    for own in rules {
        placed_rules.push(placed(alloc, numbered, own, has_default)?)?;
    }
    Ok(placed_rules)
}

/// Returns what a file says that was read to its end.
fn finish(alloc: Global, text: &[u8], reader: Reader<'_>) -> Result<GrammarText, Stop> {
    let Some((start, at)) = reader.start.or(reader.first) else {
        return Err(no_rules(text));
    };
    if reader.first.is_none() {
        return Err(no_rules(text));
    }
    let numbered = reader.symbols.numbered(alloc)?;
    let Some(Symbol::Nonterminal(start)) = numbered.symbol(start) else {
        let fault = TextFault::NotANonterminal;
        return Err(Stop { at, fault });
    };
    let has_default = reader.has_default_precedence;
    let rules = placed_rules(alloc, &numbered, &reader.rules, start, has_default)?;
    let error = numbered.error();
    let codes = codes_of(alloc, &numbered.codes, error)?;
    let whole = Whole {
        terminals: numbered.terminals,
        nonterminals: numbered.nonterminals,
        types: numbered.nonterminal_types,
        places: numbered.places,
        rules,
    };
    let fault = TextFault::DerivesNothing;
    let reduced = reduce(alloc, text, whole)?.ok_or(Stop { at, fault })?;
    let (shift_reduce, reduce_reduce) = reader.expected;
    let Reduced {
        grammar,
        terminals,
        nonterminals,
        types,
        rule_precedences,
        rule_terminals,
        left_out,
    } = reduced;
    Ok(GrammarText {
        grammar,
        terminals,
        identifiers: numbered.identifiers,
        nonterminals,
        precedences: numbered.precedences,
        rule_precedences,
        expected: (shift_reduce, reduce_reduce.filter(|_| reader.is_ambiguous)),
        left_out,
        details: Details {
            error,
            codes,
            terminal_types: numbered.types,
            nonterminal_types: types,
            rule_terminals,
            is_ambiguous: reader.is_ambiguous,
        },
    })
}

/// The refusal of a file without rules.
fn no_rules(text: &[u8]) -> Stop {
    Stop {
        at: text.len(),
        fault: TextFault::NoRules,
    }
}

/// Reads a grammar file.
fn read(alloc: Global, text: &[u8]) -> Result<GrammarText, Stop> {
    let tokens = scan(alloc, text)?;
    let mut reader = Reader::new(alloc)?;
    for token in tokens.iter() {
        reader.take(alloc, word(text, token), token)?;
    }
    reader.finish(alloc, text.len())?;
    finish(alloc, text, reader)
}

/// Reads a grammar file of yacc or bison, as bison 3.8 does: declarations, `%%`, rules, and code that is
/// passed over. Actions are passed over too; one within a rule is a nonterminal that derives nothing.
/// Nonterminals and rules that are of no use are left out.
///
/// Fails at the first word that can't stand where it does, with its line and column. Fails if the start
/// symbol derives no text, and if other tables than those of LALR(1) are asked for.
pub fn grammar_of(alloc: Global, text: &[u8]) -> Result<GrammarText, TextError> {
    read(alloc, text).map_err(|stop| stop.in_lines(text))
}
