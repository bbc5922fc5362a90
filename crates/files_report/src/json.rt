//! Reports in JSON: the symbols with their sets, the rules, and the states with what a parser may do.

use crate::names::{Shown, text_at};
use crate::xml::associativity_word;
use files_forms::put_comma;
use files_grammar::{Conflicts, GrammarFile, States};
use std::io;
use std::io::Write;
use vob_lr::{Cell, GrammarSets, Lookaheads, Move, Precedence, Rule, Symbol, Table};
use vob_rows::{BitRows, Row};

/// What is reported of a grammar, with its names in JSON.
#[derive(Clone, Copy)]
pub struct Json<'a> {
    pub file: &'a GrammarFile,
    pub shown: &'a Shown,
    pub sets: &'a GrammarSets,
    pub table: &'a Table<'a>,
    pub states: &'a States,
}

/// Writes the beginning of a line in a list.
fn put_line<W: Write>(output: &mut W, is_first: bool) -> io::Result<()> {
    put_comma(output, is_first)?;
    output.write_all(b"\n")
}

/// Writes a number, or `null` if there is none.
fn put_number<W: Write>(output: &mut W, number: Option<usize>) -> io::Result<()> {
    match number {
        Some(number) => write!(output, "{number}"),
        None => output.write_all(b"null"),
    }
}

/// Writes a precedence, or `null` if there is none.
fn put_precedence<W: Write>(output: &mut W, precedence: Option<Precedence>) -> io::Result<()> {
    let Some(precedence) = precedence else {
        return output.write_all(b"null");
    };
    let level = precedence.level;
    let word = associativity_word(precedence.associativity);
    write!(output, "{{\"level\":{level},\"associativity\":\"{word}\"}}")
}

/// Writes numbers in a list.
fn put_numbers<W: Write>(output: &mut W, numbers: &[usize]) -> io::Result<()> {
    output.write_all(b"[")?;
    for (place, number) in numbers.iter().enumerate() {
        put_comma(output, place == 0)?;
        write!(output, "{number}")?;
    }
    output.write_all(b"]")
}

/// Writes the names of the terminals of a set in a list.
fn put_set<W: Write>(output: &mut W, shown: &Shown, set: &Row<'_>) -> io::Result<()> {
    output.write_all(b"[")?;
    let mut is_first = true;
    for terminal in set.iter_set_bits(..) {
        put_comma(output, is_first)?;
        output.write_all(shown.terminal(terminal).as_bytes())?;
        is_first = false;
    }
    output.write_all(b"]")
}

/// Writes the names of the terminals of a row's set in a list.
fn put_row<W: Write>(
    output: &mut W,
    shown: &Shown,
    sets: &BitRows,
    number: usize,
) -> io::Result<()> {
    if number >= sets.rows() {
        return output.write_all(b"[]");
    }
    put_set(output, shown, &sets.row(number))
}

/// Writes the names of symbols in a list.
fn put_symbols<W: Write>(output: &mut W, shown: &Shown, symbols: &[Symbol]) -> io::Result<()> {
    output.write_all(b"[")?;
    for (place, symbol) in symbols.iter().enumerate() {
        put_comma(output, place == 0)?;
        output.write_all(shown.symbol(*symbol).as_bytes())?;
    }
    output.write_all(b"]")
}

/// Writes a rule.
fn put_rule<W: Write>(
    output: &mut W,
    shown: &Shown,
    rule: &Rule,
    precedence: Option<Precedence>,
) -> io::Result<()> {
    let left = shown.nonterminal(rule.left);
    write!(output, "{{\"left\":{left},\"right\":")?;
    put_symbols(output, shown, &rule.right)?;
    output.write_all(b",\"precedence\":")?;
    put_precedence(output, precedence)?;
    output.write_all(b"}")
}

/// Writes what a parser may do if a terminal is ahead.
fn put_cell<W: Write>(
    output: &mut W,
    shown: &Shown,
    states: &States,
    terminal: usize,
    cell: &Cell,
) -> io::Result<()> {
    let name = shown.terminal(terminal);
    write!(output, "{{\"terminal\":{name},\"shift\":")?;
    let to = match cell.shift {
        Some(state) => states.number(state),
        None => None,
    };
    put_number(output, to)?;
    output.write_all(b",\"reduce\":")?;
    put_numbers(output, &cell.reduces)?;
    output.write_all(b"}")
}

impl Json<'_> {
    /// Writes a terminal.
    fn put_terminal<W: Write>(&self, output: &mut W, terminal: usize) -> io::Result<()> {
        let name = self.shown.terminal(terminal);
        let tag = text_at(&self.shown.terminal_types, terminal);
        let code = self.file.details.codes.get(terminal).copied();
        write!(output, "{{\"name\":{name},\"type\":{tag},\"code\":")?;
        put_number(output, code)?;
        output.write_all(b",\"precedence\":")?;
        put_precedence(output, self.file.precedence(terminal))?;
        output.write_all(b"}")
    }

    /// Writes a nonterminal and its sets.
    fn put_nonterminal<W: Write>(&self, output: &mut W, number: usize) -> io::Result<()> {
        let name = self.shown.nonterminal(number);
        let tag = text_at(&self.shown.nonterminal_types, number);
        let nullable = self.sets.nullable.get(number) == Some(true);
        write!(
            output,
            "{{\"name\":{name},\"type\":{tag},\"nullable\":{nullable},\"first\":"
        )?;
        put_row(output, self.shown, &self.sets.first, number)?;
        output.write_all(b",\"follow\":")?;
        put_row(output, self.shown, &self.sets.follow, number)?;
        output.write_all(b"}")
    }

    /// Writes an item of a state, with its lookaheads if it is complete.
    fn put_item<W: Write>(
        &self,
        output: &mut W,
        machine: &Lookaheads<'_>,
        state: usize,
        number: usize,
    ) -> io::Result<()> {
        if number >= machine.items().len() {
            return Ok(());
        }
        let item = machine.items().item(number);
        let rule = item.rule;
        let dot = item.dot;
        write!(output, "{{\"rule\":{rule},\"dot\":{dot}")?;
        if let (Some(_), Some(set)) = (
            machine.items().completed(number),
            machine.of(state, number),
        ) {
            output.write_all(b",\"lookaheads\":")?;
            put_set(output, self.shown, &set)?;
        }
        output.write_all(b"}")
    }

    /// Writes the items of a state.
    fn put_items<W: Write>(&self, output: &mut W, state: usize) -> io::Result<()> {
        let machine = self.table.lookaheads();
        if let Some(set) = machine.automaton().sets.get(state) {
            for (place, number) in set.iter().enumerate() {
                put_comma(output, place == 0)?;
                self.put_item(output, machine, state, *number)?;
            }
        }
        Ok(())
    }

    /// Writes what a parser may do in a state.
    fn put_cells<W: Write>(&self, output: &mut W, state: usize) -> io::Result<()> {
        let mut is_first = true;
        for terminal in 0..self.file.grammar.terminals {
            if let Some(cell) = self.table.cell(state, terminal) {
                if cell.action().is_some() {
                    put_comma(output, is_first)?;
                    put_cell(output, self.shown, self.states, terminal, cell)?;
                    is_first = false;
                }
            }
        }
        Ok(())
    }

    /// Writes the states that follow a state once a nonterminal is read.
    fn put_gotos<W: Write>(&self, output: &mut W, moves: &[Move]) -> io::Result<()> {
        let mut is_first = true;
        for own in moves {
            if let (Symbol::Nonterminal(nonterminal), Some(to)) = (
                own.symbol,
                self.states.number(own.state),
            ) {
                put_comma(output, is_first)?;
                let name = self.shown.nonterminal(nonterminal);
                write!(output, "{{\"nonterminal\":{name},\"state\":{to}}}")?;
                is_first = false;
            }
        }
        Ok(())
    }

    /// Writes a state.
    fn put_state<W: Write>(&self, output: &mut W, number: usize) -> io::Result<()> {
        if number >= self.states.count() {
            return Ok(());
        }
        let state = self.states.state(number);
        output.write_all(b"{\"items\":[")?;
        self.put_items(output, state)?;
        output.write_all(b"],\"actions\":[")?;
        self.put_cells(output, state)?;
        output.write_all(b"],\"gotos\":[")?;
        if let Some(moves) = self.table.lookaheads().automaton().moves.get(state) {
            self.put_gotos(output, moves)?;
        }
        output.write_all(b"]}")
    }

    /// Writes the terminals.
    fn put_terminals<W: Write>(&self, output: &mut W) -> io::Result<()> {
        output.write_all(b"{\"terminals\": [")?;
        for terminal in 0..self.file.grammar.terminals {
            put_line(output, terminal == 0)?;
            self.put_terminal(output, terminal)?;
        }
        Ok(())
    }

    /// Writes the nonterminals.
    fn put_nonterminals<W: Write>(&self, output: &mut W) -> io::Result<()> {
        output.write_all(b"\n], \"nonterminals\": [")?;
        for number in 0..self.file.grammar.nonterminals {
            put_line(output, number == 0)?;
            self.put_nonterminal(output, number)?;
        }
        Ok(())
    }

    /// Writes the rules.
    fn put_rules<W: Write>(&self, output: &mut W) -> io::Result<()> {
        output.write_all(b"\n], \"rules\": [")?;
        for (number, rule) in self.file.grammar.rules.iter().enumerate() {
            put_line(output, number == 0)?;
            put_rule(output, self.shown, rule, self.file.rule_precedence(number))?;
        }
        Ok(())
    }

    /// Writes the states.
    fn put_states<W: Write>(&self, output: &mut W) -> io::Result<()> {
        output.write_all(b"\n], \"states\": [")?;
        for number in 0..self.states.count() {
            put_line(output, number == 0)?;
            self.put_state(output, number)?;
        }
        Ok(())
    }

    /// Writes the report.
    pub fn put<W: Write>(&self, output: &mut W, conflicts: &Conflicts) -> io::Result<()> {
        self.put_terminals(output)?;
        self.put_nonterminals(output)?;
        self.put_rules(output)?;
        self.put_states(output)?;
        let Conflicts {
            shift_reduce,
            reduce_reduce,
            ..
        } = conflicts;
        writeln!(
            output,
            "\n], \"conflicts\": {{\"shift_reduce\":{shift_reduce},\"reduce_reduce\":{reduce_reduce}}}}}"
        )
    }
}
