//! The table of a parser as arrays of numbers, in which the entries of each state stand together.

use crate::form::Form;
use files_grammar::{GrammarFault, GrammarFile, States};
use files_text::end_line;
use std::alloc::{AllocError, Global};
use std::io;
use std::io::Write;
use vob_lr::{Action, Move, Symbol, Table};

/// The greatest number of a C short.
const SHORT: usize = 32_767;

/// How many numbers stand on a line.
const ON_A_LINE: usize = 16;

/// What a parser does in a state at a symbol: it enters a state, or with a minus sign it reduces by a rule.
/// Terminals have their numbers, and nonterminals come after them.
#[derive(Clone, Copy)]
struct Entry {
    symbol: usize,
    sign: &'static str,
    number: usize,
}

/// The arrays of a parser: the entries of each state that it may enter, in the order of their symbols, and
/// the left side and the length of each rule.
#[derive(Drop)]
pub struct Arrays {
    rows: Vec<Vec<Entry>>,
    left: Vec<usize>,
    length: Vec<usize>,
}

/// An array of numbers: what it is called in C and in Rust, what it has, the greatest number, how many
/// there are, and whether some may be below 0.
#[derive(Clone, Copy)]
struct Head {
    c: &'static str,
    rust: &'static str,
    says: &'static str,
    most: usize,
    count: usize,
    is_signed: bool,
}

/// Returns what a parser does in a state at a terminal. The end is entered as other terminals are.
fn entry_of(table: &Table<'_>, states: &States, state: usize, symbol: usize) -> Option<Entry> {
    let (sign, number) = match table.cell(state, symbol)?.action()? {
        Action::Shift(to) => ("", states.number(to)?),
        Action::Reduce(rule) => ("-", rule),
        Action::Accept => return None,
    };
    Some(Entry {
        symbol,
        sign,
        number,
    })
}

/// Adds the entries of a state at terminals.
fn add_actions(
    row: &mut Vec<Entry>,
    table: &Table<'_>,
    states: &States,
    terminals: usize,
    state: usize,
) -> Result<(), AllocError> {
    for symbol in 0..terminals {
        if let Some(entry) = entry_of(table, states, state, symbol) {
            row.push(entry)?;
        }
    }
    Ok(())
}

/// Adds the entries of a state at nonterminals.
fn add_gotos(
    row: &mut Vec<Entry>,
    states: &States,
    terminals: usize,
    moves: &[Move],
) -> Result<(), AllocError> {
    for own in moves {
        if let (Symbol::Nonterminal(number), Some(state)) = (own.symbol, states.number(own.state)) {
            row.push(Entry {
                symbol: terminals.saturating_add(number),
                sign: "",
                number: state,
            })?;
        }
    }
    Ok(())
}

/// Returns the entries of each state that a parser may enter.
fn rows_of(
    alloc: Global,
    table: &Table<'_>,
    states: &States,
    terminals: usize,
) -> Result<Vec<Vec<Entry>>, AllocError> {
    let mut rows = Vec::new(alloc);
    for (state, moves) in table.lookaheads().automaton().moves.iter().enumerate() {
        if states.number(state).is_some() {
            let mut row = Vec::new(alloc);
            add_actions(&mut row, table, states, terminals, state)?;
            add_gotos(&mut row, states, terminals, moves)?;
            rows.push(row)?;
        }
    }
    Ok(rows)
}

/// Writes a number of an array, after a sign. Each of some numbers begins a line.
fn put_number<W: Write>(output: &mut W, place: usize, sign: &str, number: usize) -> io::Result<()> {
    let before = match place % ON_A_LINE {
        0 if place == 0 => "    ",
        0 => "\n    ",
        _ => " ",
    };
    write!(output, "{before}{sign}{number},")
}

/// Writes some numbers.
fn put_numbers<W: Write>(output: &mut W, numbers: &[usize]) -> io::Result<()> {
    for (place, number) in numbers.iter().enumerate() {
        put_number(output, place, "", *number)?;
    }
    end_line(output)
}

/// Writes the symbols of the entries of a state, or else their actions.
fn put_row<W: Write>(
    output: &mut W,
    state: usize,
    row: &[Entry],
    are_symbols: bool,
) -> io::Result<()> {
    if row.is_empty() {
        return Ok(());
    }
    for (place, entry) in row.iter().enumerate() {
        if are_symbols {
            put_number(output, place, "", entry.symbol)?;
        } else {
            put_number(output, place, entry.sign, entry.number)?;
        }
    }
    writeln!(output, " // state {state}")
}

impl Head {
    /// Returns the type of the numbers.
    fn kind(&self, form: Form) -> &'static str {
        let is_short = self.most <= SHORT;
        match form {
            Form::C if is_short => "short",
            Form::C => "int",
            Form::Rust if self.is_signed && is_short => "i16",
            Form::Rust if self.is_signed => "i32",
            Form::Rust if is_short => "u16",
            Form::Rust => "u32",
        }
    }

    /// Writes what comes before the numbers.
    fn put<W: Write>(&self, output: &mut W, form: Form) -> io::Result<()> {
        let Head {
            c,
            rust,
            says,
            count,
            ..
        } = *self;
        let kind = self.kind(form);
        writeln!(output, "\n// {says}")?;
        match form {
            Form::C => writeln!(output, "static const {kind} parser_{c}[] = {{"),
            Form::Rust => writeln!(output, "static {rust}: [{kind}; {count}] = ["),
        }
    }
}

/// Writes what comes after the numbers of an array.
fn put_end<W: Write>(output: &mut W, form: Form) -> io::Result<()> {
    match form {
        Form::C => output.write_all(b"};\n"),
        Form::Rust => output.write_all(b"];\n"),
    }
}

/// Writes an array of numbers none of which is below 0.
fn put_array<W: Write>(
    output: &mut W,
    form: Form,
    head: Head,
    numbers: &[usize],
) -> io::Result<()> {
    head.put(output, form)?;
    put_numbers(output, numbers)?;
    put_end(output, form)
}

impl Arrays {
    /// Returns the arrays of a parser.
    pub fn of(
        alloc: Global,
        file: &GrammarFile,
        table: &Table<'_>,
        states: &States,
    ) -> Result<Arrays, AllocError> {
        let rules = &file.grammar.rules;
        let left = rules.iter().map(|rule| rule.left);
        let length = rules.iter().map(|rule| rule.right.len());
        Ok(Arrays {
            rows: rows_of(alloc, table, states, file.grammar.terminals)?,
            left: left.collect(alloc)?,
            length: length.collect(alloc)?,
        })
    }

    /// Returns where the entries of each state begin among all, and where the last ones end.
    fn offsets(&self, alloc: Global) -> Result<Vec<usize>, AllocError> {
        let mut offsets = Vec::new(alloc);
        let mut count = 0usize;
        offsets.push(count)?;
        for row in self.rows.iter() {
            count = count.saturating_add(row.len());
            offsets.push(count)?;
        }
        Ok(offsets)
    }

    /// Writes where the entries of each state begin. Returns how many there are.
    fn put_offsets<W: Write>(
        &self,
        alloc: Global,
        output: &mut W,
        form: Form,
    ) -> Result<usize, GrammarFault> {
        let offsets = self.offsets(alloc)?;
        let most = offsets.last().copied().unwrap_or(0);
        let head = Head {
            c: "row",
            rust: "ROW",
            says: "Where the entries of each state begin among all, and where the last ones end.",
            most,
            count: offsets.len(),
            is_signed: false,
        };
        put_array(output, form, head, &offsets)?;
        Ok(most)
    }

    /// Writes the symbols of all entries, or else their actions.
    fn put_rows<W: Write>(
        &self,
        output: &mut W,
        form: Form,
        head: Head,
        are_symbols: bool,
    ) -> io::Result<()> {
        head.put(output, form)?;
        for (state, row) in self.rows.iter().enumerate() {
            put_row(output, state, row, are_symbols)?;
        }
        put_end(output, form)
    }

    /// Writes the symbols of all entries, and their actions.
    fn put_entries<W: Write>(
        &self,
        output: &mut W,
        form: Form,
        symbols: usize,
        count: usize,
    ) -> io::Result<()> {
        let head = Head {
            c: "symbol",
            rust: "SYMBOL",
            says: "The symbol of each entry. Nonterminals come after the terminals.",
            most: symbols,
            count,
            is_signed: false,
        };
        self.put_rows(output, form, head, true)?;
        let head = Head {
            c: "action",
            rust: "ACTION",
            says: "What is done there: above 0 the state that follows, below 0 the rule to reduce by.",
            most: self.rows.len().max(self.left.len()),
            count,
            is_signed: true,
        };
        self.put_rows(output, form, head, false)
    }

    /// Writes the left side and the length of each rule.
    fn put_rules<W: Write>(&self, output: &mut W, form: Form, symbols: usize) -> io::Result<()> {
        let head = Head {
            c: "left",
            rust: "LEFT",
            says: "The nonterminal on the left side of each rule.",
            most: symbols,
            count: self.left.len(),
            is_signed: false,
        };
        put_array(output, form, head, &self.left)?;
        let head = Head {
            c: "length",
            rust: "LENGTH",
            says: "The number of symbols on the right side of each rule.",
            most: self.length.iter().copied().max().unwrap_or(0),
            count: self.length.len(),
            is_signed: false,
        };
        put_array(output, form, head, &self.length)
    }

    /// Writes all arrays.
    pub fn put<W: Write>(
        &self,
        alloc: Global,
        output: &mut W,
        form: Form,
        file: &GrammarFile,
    ) -> Result<(), GrammarFault> {
        let symbols = file
            .grammar
            .terminals
            .saturating_add(file.grammar.nonterminals);
        let count = self.put_offsets(alloc, output, form)?;
        self.put_entries(output, form, symbols, count)?;
        self.put_rules(output, form, symbols)?;
        Ok(())
    }
}
