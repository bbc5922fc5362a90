//! Reports in XML, element by element as bison 3.8 writes them: the symbols and the rules.

use crate::automaton::put_automaton;
use crate::names::{Shown, text_at};
use crate::reductions::is_set;
use crate::report::Report;
use files_grammar::GrammarFile;
use std::io;
use std::io::Write;
use vob_lr::{Associativity, Precedence, Rule};

/// The version of bison whose report this is.
const VERSION: &str = "3.8.2";

/// What is reported of a grammar, with its names in XML, and the name of its file.
#[derive(Clone, Copy)]
pub struct Xml<'a> {
    pub name: &'a str,
    pub file: &'a GrammarFile,
    pub shown: &'a Shown,
    pub report: &'a Report,
}

/// Writes the symbols of a right side.
fn put_right<W: Write>(output: &mut W, shown: &Shown, rule: &Rule) -> io::Result<()> {
    if rule.right.is_empty() {
        return output.write_all(b"          <empty/>\n");
    }
    for symbol in rule.right.iter() {
        let name = shown.symbol(*symbol);
        writeln!(output, "          <symbol>{name}</symbol>")?;
    }
    Ok(())
}

/// Returns the word for an associativity.
pub fn associativity_word(associativity: Associativity) -> &'static str {
    match associativity {
        Associativity::Left => "left",
        Associativity::Right => "right",
        Associativity::Neither => "nonassoc",
        Associativity::Unstated => "precedence",
    }
}

/// Writes a precedence, if there is one.
fn put_precedence<W: Write>(output: &mut W, precedence: Option<Precedence>) -> io::Result<()> {
    let Some(precedence) = precedence else {
        return Ok(());
    };
    let level = precedence.level;
    let word = associativity_word(precedence.associativity);
    write!(output, " prec=\"{level}\" assoc=\"{word}\"")
}

impl Xml<'_> {
    /// Writes a rule with its number, the terminal of its `%prec`, and whether it is of use.
    fn put_rule<W: Write>(
        &self,
        output: &mut W,
        number: usize,
        rule: &Rule,
        terminal: Option<usize>,
        usefulness: &str,
    ) -> io::Result<()> {
        write!(
            output,
            "      <rule number=\"{number}\" usefulness=\"{usefulness}\""
        )?;
        if let Some(terminal) = terminal {
            let name = self.shown.terminal(terminal);
            write!(output, " percent_prec=\"{name}\"")?;
        }
        let left = self.shown.nonterminal(rule.left);
        writeln!(output, ">\n        <lhs>{left}</lhs>\n        <rhs>")?;
        put_right(output, self.shown, rule)?;
        output.write_all(b"        </rhs>\n      </rule>\n")
    }

    /// Writes the rules, those that are left out last.
    fn put_rules<W: Write>(&self, output: &mut W) -> io::Result<()> {
        let rules = &self.file.grammar.rules;
        output.write_all(b"    <rules>\n")?;
        for (number, rule) in rules.iter().enumerate() {
            let terminal = self.file.details.rule_terminals.get(number);
            let usefulness = match is_set(&self.report.is_made, number) {
                true => "useful",
                false => "useless-in-parser",
            };
            self.put_rule(
                output,
                number,
                rule,
                terminal.copied().flatten(),
                usefulness,
            )?;
        }
        for (place, left) in self.file.left_out.rules.iter().enumerate() {
            let number = rules.len().saturating_add(place);
            self.put_rule(
                output,
                number,
                &left.rule,
                left.terminal,
                "useless-in-grammar",
            )?;
        }
        output.write_all(b"    </rules>\n")
    }

    /// Returns the number that bison gives a terminal: that of tokens that no terminal is comes after `error`.
    fn symbol_number(&self, terminal: usize) -> usize {
        if terminal <= self.file.details.error {
            return terminal;
        }
        terminal.saturating_add(1)
    }

    /// Writes a terminal and its code.
    fn put_terminal<W: Write>(
        &self,
        output: &mut W,
        terminal: usize,
        code: usize,
    ) -> io::Result<()> {
        let number = self.symbol_number(terminal);
        let name = self.shown.terminal(terminal);
        let tag = text_at(&self.shown.terminal_types, terminal);
        let usefulness = match is_set(&self.report.is_used, terminal) {
            true => "useful",
            false => "unused-in-grammar",
        };
        write!(
            output,
            "      <terminal symbol-number=\"{number}\" token-number=\"{code}\" name=\"{name}\""
        )?;
        write!(output, " type=\"{tag}\" usefulness=\"{usefulness}\"")?;
        put_precedence(output, self.file.precedence(terminal))?;
        output.write_all(b"/>\n")
    }

    /// Writes the terminals, in the order of their codes.
    fn put_terminals<W: Write>(&self, output: &mut W) -> io::Result<()> {
        output.write_all(b"    <terminals>\n")?;
        for (code, terminal) in self.report.codes.iter() {
            self.put_terminal(output, *terminal, *code)?;
        }
        output.write_all(b"    </terminals>\n")
    }

    /// Writes the nonterminals, those that are left out last.
    fn put_nonterminals<W: Write>(&self, output: &mut W) -> io::Result<()> {
        output.write_all(b"    <nonterminals>\n")?;
        let count = self.file.names.nonterminals.len();
        let first = self.file.grammar.terminals.saturating_add(1);
        for (place, name) in self.shown.nonterminals.iter().enumerate() {
            let number = first.saturating_add(place);
            let tag = text_at(&self.shown.nonterminal_types, place);
            let usefulness = match place < count {
                true => "useful",
                false => "useless-in-grammar",
            };
            write!(
                output,
                "      <nonterminal symbol-number=\"{number}\" name=\"{name}\""
            )?;
            writeln!(output, " type=\"{tag}\" usefulness=\"{usefulness}\"/>")?;
        }
        output.write_all(b"    </nonterminals>\n")
    }

    /// Writes the report.
    pub fn put<W: Write>(&self, output: &mut W) -> io::Result<()> {
        let name = self.name;
        output.write_all(b"<?xml version=\"1.0\"?>\n\n")?;
        writeln!(
            output,
            "<bison-xml-report version=\"{VERSION}\" bug-report=\"\" url=\"\">\n"
        )?;
        writeln!(output, "  <filename>{name}</filename>\n\n  <grammar>")?;
        self.put_rules(output)?;
        self.put_terminals(output)?;
        self.put_nonterminals(output)?;
        output.write_all(b"  </grammar>\n\n")?;
        put_automaton(output, self)?;
        output.write_all(b"</bison-xml-report>\n")
    }
}
