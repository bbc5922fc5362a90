//! Which symbols and rules of a grammar are of use: those in some derivation of a text from the start.

use crate::text_error::{Stop, place_of};
use std::alloc::Global;
use vob::Vob;
use vob_lr::{Grammar, Precedence, Rule, Symbol, productive};

/// Why a nonterminal is of no use.
#[derive(Clone, Copy, Debug, PartialEq, Eq)]
pub enum Useless {
    /// It derives no text of terminals.
    DerivesNothing,
    /// No text that the start symbol derives comes from it.
    Unreachable,
}

/// A nonterminal that is left out: its name, its type or nothing, where it is declared or has its first rule,
/// and why.
#[derive(Drop)]
pub struct LeftNonterminal {
    pub name: Vec<u8>,
    pub type_name: Vec<u8>,
    pub line: usize,
    pub column: usize,
    pub why: Useless,
}

/// A rule that is left out, as `sum: sum '+' NUMBER`, the same by the numbers of its symbols, the terminal of
/// its `%prec`, and where its right side begins. The nonterminals that are left out have the numbers after
/// those of the others.
#[derive(Drop)]
pub struct LeftRule {
    pub text: Vec<u8>,
    pub rule: Rule,
    pub terminal: Option<usize>,
    pub line: usize,
    pub column: usize,
}

/// What is left out of a grammar, in the order of the file.
#[derive(Drop)]
pub struct LeftOut {
    pub nonterminals: Vec<LeftNonterminal>,
    pub rules: Vec<LeftRule>,
}

/// A rule with its precedence, the terminal of its `%prec`, and where its right side begins.
#[derive(Drop)]
pub(crate) struct PlacedRule {
    pub rule: Rule,
    pub terminal: Option<usize>,
    pub precedence: Option<Precedence>,
    pub at: usize,
}

/// A grammar with its names and places.
#[derive(Drop)]
pub(crate) struct Whole {
    pub terminals: Vec<Vec<u8>>,
    pub nonterminals: Vec<Vec<u8>>,
    pub types: Vec<Vec<u8>>,
    pub places: Vec<usize>,
    pub rules: Vec<PlacedRule>,
}

/// A grammar without what is of no use, the names and the types of its nonterminals, the precedences of its
/// rules and the terminals of their `%prec`, and what was left out.
#[derive(Drop)]
pub(crate) struct Reduced {
    pub grammar: Grammar,
    pub terminals: Vec<Vec<u8>>,
    pub nonterminals: Vec<Vec<u8>>,
    pub types: Vec<Vec<u8>>,
    pub rule_precedences: Vec<Option<Precedence>>,
    pub rule_terminals: Vec<Option<usize>>,
    pub left_out: LeftOut,
}

/// The nonterminals that derive texts, and those in derivations from the start.
#[derive(Drop)]
struct Useful {
    productive: Vob,
    reached: Vob,
}

/// Returns the nonterminals that derive some text of terminals.
fn productive_of(alloc: Global, whole: &Whole) -> Result<Vob, Stop> {
    let mut rules = Vec::new(alloc);
    for own in whole.rules.iter() {
        rules.push(Rule {
            left: own.rule.left,
            right: own.rule.right.to_vec(alloc)?,
        })?;
    }
    let grammar = Grammar {
        terminals: whole.terminals.len(),
        nonterminals: whole.nonterminals.len(),
        rules,
    };
    Ok(productive(alloc, &grammar)?)
}

/// Whether a set has a symbol, as it has each terminal.
fn has(set: &Vob, symbol: &Symbol) -> bool {
    match symbol {
        Symbol::Terminal(_) => true,
        Symbol::Nonterminal(number) => set.get(*number) == Some(true),
    }
}

impl Useful {
    /// Finds them.
    fn new(alloc: Global, whole: &Whole) -> Result<Useful, Stop> {
        let mut useful = Useful {
            productive: productive_of(alloc, whole)?,
            reached: Vob::from_elem(alloc, false, whole.nonterminals.len())?,
        };
        useful.reach(&Symbol::Nonterminal(0));
        for _ in 0..whole.nonterminals.len() {
            let count = useful.reached.count_ones();
            useful.reach_by_rules(&whole.rules);
            if useful.reached.count_ones() == count {
                break;
            }
        }
        Ok(useful)
    }

    /// Adds a symbol to those in derivations from the start, if it is a nonterminal.
    fn reach(&mut self, symbol: &Symbol) {
        if let Symbol::Nonterminal(number) = symbol {
            if *number < self.reached.len() {
                self.reached.set(*number, true);
            }
        }
    }

    /// Adds the symbols of those rules that are in derivations now.
    fn reach_by_rules(&mut self, rules: &[PlacedRule]) {
        for own in rules.iter() {
            if self.has_rule(&own.rule) {
                self.reach_all(&own.rule.right);
            }
        }
    }

    /// Adds the symbols of a right side.
    fn reach_all(&mut self, right: &[Symbol]) {
        for symbol in right.iter() {
            self.reach(symbol);
        }
    }

    /// Whether a rule is in some derivation of a text from the start.
    fn has_rule(&self, rule: &Rule) -> bool {
        self.reached.get(rule.left) == Some(true)
            && rule
                .right
                .iter()
                .all(|symbol| has(&self.productive, symbol))
    }

    /// Returns why a nonterminal is of no use, if it is of none.
    fn why(&self, nonterminal: usize) -> Option<Useless> {
        if self.productive.get(nonterminal) != Some(true) {
            return Some(Useless::DerivesNothing);
        }
        if self.reached.get(nonterminal) != Some(true) {
            return Some(Useless::Unreachable);
        }
        None
    }
}

/// Returns a rule as text.
fn rule_text(alloc: Global, whole: &Whole, rule: &Rule) -> Result<Vec<u8>, Stop> {
    let mut text = Vec::new(alloc);
    if let Some(name) = whole.nonterminals.get(rule.left) {
        text.extend_from_slice(name)?;
    }
    text.push(b':')?;
    for symbol in rule.right.iter() {
        text.push(b' ')?;
        let name = match symbol {
            Symbol::Terminal(number) => whole.terminals.get(*number),
            Symbol::Nonterminal(number) => whole.nonterminals.get(*number),
        };
        if let Some(name) = name {
            text.extend_from_slice(name)?;
        }
    }
    Ok(text)
}

/// Returns what is left out of a grammar, by the new numbers of its nonterminals: `file` is its text.
fn left_out(
    alloc: Global,
    file: &[u8],
    whole: &Whole,
    useful: &Useful,
    numbers: &[usize],
) -> Result<LeftOut, Stop> {
    let mut left_out = LeftOut {
        nonterminals: Vec::new(alloc),
        rules: left_rules(alloc, file, whole, useful, numbers)?,
    };
    for (number, (name, at)) in whole.nonterminals.iter().zip(&whole.places).enumerate() {
        if let Some(why) = useful.why(number) {
            let (line, column) = place_of(file, *at);
            left_out.nonterminals.push(LeftNonterminal {
                name: name.to_vec(alloc)?,
                type_name: type_of(whole, number).to_vec(alloc)?,
                line,
                column,
                why,
            })?;
        }
    }
    Ok(left_out)
}

/// Returns the type of a nonterminal, or nothing if it has none.
fn type_of(whole: &Whole, nonterminal: usize) -> &[u8] {
    match whole.types.get(nonterminal) {
        Some(tag) => tag.as_slice(),
        None => &[],
    }
}

/// Returns the rules that are left out.
fn left_rules(
    alloc: Global,
    file: &[u8],
    whole: &Whole,
    useful: &Useful,
    numbers: &[usize],
) -> Result<Vec<LeftRule>, Stop> {
    let mut rules = Vec::new(alloc);
    for own in whole.rules.iter().filter(|own| !useful.has_rule(&own.rule)) {
        let (line, column) = place_of(file, own.at);
        let mut rule = Rule {
            left: own.rule.left,
            right: own.rule.right.to_vec(alloc)?,
        };
        renumber(&mut rule, numbers);
        rules.push(LeftRule {
            text: rule_text(alloc, whole, &own.rule)?,
            rule,
            terminal: own.terminal,
            line,
            column,
        })?;
    }
    Ok(rules)
}

/// Gives the symbols of a rule their new numbers.
fn renumber(rule: &mut Rule, numbers: &[usize]) {
    rule.left = numbers.get(rule.left).copied().unwrap_or(0);
    for symbol in rule.right.iter_mut() {
        if let Symbol::Nonterminal(number) = symbol {
            *number = numbers.get(*number).copied().unwrap_or(0);
        }
    }
}

/// Returns the new number of each nonterminal: those that are of use come first.
fn new_numbers(alloc: Global, count: usize, useful: &Useful) -> Result<Vec<usize>, Stop> {
    let kept = (0..count)
        .filter(|number| useful.why(*number).is_none())
        .count();
    let mut next = (0usize, kept);
    let mut numbers = Vec::new(alloc);
    for number in 0..count {
        let own = if useful.why(number).is_none() {
            &mut next.0
        } else {
            &mut next.1
        };
        numbers.push(*own)?;
        *own = own.saturating_add(1);
    }
    Ok(numbers)
}

/// Returns what belongs to the nonterminals that are of use.
fn kept(alloc: Global, all: Vec<Vec<u8>>, useful: &Useful) -> Result<Vec<Vec<u8>>, Stop> {
    let mut kept = Vec::new(alloc);
    for (number, own) in all.into_iter().enumerate() {
        if useful.why(number).is_none() {
            kept.push(own)?;
        }
    }
    Ok(kept)
}

/// Leaves out the nonterminals and rules that are of no use, and numbers the others anew, in their
/// order. Terminals stay. Returns nothing if the start symbol derives no text: then all are of no use.
pub(crate) fn reduce(alloc: Global, file: &[u8], whole: Whole) -> Result<Option<Reduced>, Stop> {
    let useful = Useful::new(alloc, &whole)?;
    if useful.why(0).is_some() {
        return Ok(None);
    }
    let numbers = new_numbers(alloc, whole.nonterminals.len(), &useful)?;
    let left_out = left_out(alloc, file, &whole, &useful, &numbers)?;
    let mut rules = Vec::new(alloc);
    let mut rule_precedences = Vec::new(alloc);
    let mut rule_terminals = Vec::new(alloc);
    let nonterminals = kept(alloc, whole.nonterminals, &useful)?;
    for own in whole.rules {
        if useful.has_rule(&own.rule) {
            let mut rule = own.rule;
            renumber(&mut rule, &numbers);
            rules.push(rule)?;
            rule_precedences.push(own.precedence)?;
            rule_terminals.push(own.terminal)?;
        }
    }
    Ok(Some(Reduced {
        grammar: Grammar {
            terminals: whole.terminals.len(),
            nonterminals: nonterminals.len(),
            rules,
        },
        terminals: whole.terminals,
        nonterminals,
        types: kept(alloc, whole.types, &useful)?,
        rule_precedences,
        rule_terminals,
        left_out,
    }))
}
