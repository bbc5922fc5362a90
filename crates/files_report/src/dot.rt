//! Graphs of states in DOT, as bison 3.8 draws them.

use crate::names::Shown;
use crate::reductions::{is_set, set};
use crate::report::{FullState, Report};
use crate::state::Step;
use files_grammar::GrammarFile;
use std::alloc::{AllocError, Global};
use std::io;
use std::io::Write;
use vob_lr::{Item, Rule};

/// What is drawn of a grammar, with its names in DOT, and the name of its file.
#[derive(Clone, Copy)]
pub struct Dot<'a> {
    pub name: &'a str,
    pub file: &'a GrammarFile,
    pub shown: &'a Shown,
    pub report: &'a Report,
}

/// The terminals of a rule in a state by which a parser reduces, and those by which it does something else.
#[derive(Drop)]
pub struct Ends {
    rule: usize,
    made: Vec<usize>,
    other: Vec<usize>,
    is_default: bool,
}

/// Returns the ends of the rules of each state. Fails if memory runs out.
pub fn ends_of(
    alloc: Global,
    report: &Report,
    terminals: usize,
) -> Result<Vec<Vec<Ends>>, AllocError> {
    let mut all = Vec::new(alloc);
    for state in report.states.iter() {
        all.push(state_ends(alloc, state, terminals)?)?;
    }
    Ok(all)
}

/// Returns the ends of the rules of a state.
fn state_ends(alloc: Global, state: &FullState, terminals: usize) -> Result<Vec<Ends>, AllocError> {
    let mut is_taken = Vec::new(alloc);
    is_taken.resize(terminals, false)?;
    for step in state.own.shifts.iter() {
        set(&mut is_taken, step.symbol);
    }
    for terminal in state.own.errors.iter() {
        set(&mut is_taken, *terminal);
    }
    let mut all = Vec::new(alloc);
    for reducer in state.own.reducers.iter() {
        let mut ends = Ends {
            rule: reducer.rule,
            made: Vec::new(alloc),
            other: Vec::new(alloc),
            is_default: state.default == Some(reducer.rule),
        };
        if !state.own.is_consistent {
            ends.add_all(&reducer.lookaheads, &mut is_taken)?;
        }
        all.push(ends)?;
    }
    Ok(all)
}

impl Ends {
    /// Adds terminals, and takes those that no other has taken.
    fn add_all(&mut self, terminals: &[usize], is_taken: &mut [bool]) -> Result<(), AllocError> {
        for terminal in terminals {
            if is_set(is_taken, *terminal) {
                self.other.push(*terminal)?;
            } else {
                self.made.push(*terminal)?;
            }
            set(is_taken, *terminal);
        }
        Ok(())
    }
}

/// Writes a list of terminals as a label.
fn put_list<W: Write>(output: &mut W, shown: &Shown, terminals: &[usize]) -> io::Result<()> {
    output.write_all(b"label=\"[")?;
    for (place, terminal) in terminals.iter().enumerate() {
        if place > 0 {
            output.write_all(b", ")?;
        }
        output.write_all(shown.terminal(*terminal).as_bytes())?;
    }
    output.write_all(b"]\", ")
}

/// Writes a node for the reduction of a state by a rule, and the edge to it. It is of another color if it
/// isn't made.
fn put_reduction<W: Write>(
    output: &mut W,
    shown: &Shown,
    state: usize,
    rule: usize,
    terminals: &[usize],
    is_made: bool,
) -> io::Result<()> {
    let end = if is_made { "" } else { "d" };
    write!(output, "  {state} -> \"{state}R{rule}{end}\" [")?;
    if !terminals.is_empty() {
        put_list(output, shown, terminals)?;
    }
    write!(output, "style=solid]\n \"{state}R{rule}{end}\" [label=\"")?;
    match rule {
        0 => output.write_all(b"Acc")?,
        _ => write!(output, "R{rule}")?,
    }
    let color = match (is_made, rule) {
        (false, _) => 5,
        (true, 0) => 1,
        (true, _) => 3,
    };
    writeln!(
        output,
        "\", fillcolor={color}, shape=diamond, style=filled]"
    )
}

/// Writes an edge for each move by a nonterminal.
fn put_gotos<W: Write>(
    output: &mut W,
    shown: &Shown,
    state: usize,
    steps: &[Step],
) -> io::Result<()> {
    for step in steps {
        let to = step.to;
        let name = shown.nonterminal(step.symbol);
        writeln!(output, "  {state} -> {to} [style=dashed label=\"{name}\"]")?;
    }
    Ok(())
}

/// Writes spaces.
fn put_spaces<W: Write>(output: &mut W, count: usize) -> io::Result<()> {
    for _ in 0..count {
        output.write_all(b" ")?;
    }
    Ok(())
}

impl Dot<'_> {
    /// Writes a left side, or a bar below the same one.
    fn put_left<W: Write>(&self, output: &mut W, left: usize, is_same: bool) -> io::Result<()> {
        if is_same {
            let name = self.file.names.nonterminal(left);
            put_spaces(output, name.len())?;
            return output.write_all(b"| ");
        }
        output.write_all(self.shown.nonterminal(left).as_bytes())?;
        output.write_all(b": ")
    }

    /// Writes the line of an item. `previous` is the left side of the line above.
    fn put_item<W: Write>(
        &self,
        output: &mut W,
        rule: &Rule,
        item: Item,
        previous: Option<usize>,
    ) -> io::Result<()> {
        let number = item.rule;
        write!(output, "{number:3} ")?;
        self.put_left(output, rule.left, previous == Some(rule.left))?;
        for symbol in rule.right.iter().take(item.dot) {
            output.write_all(self.shown.symbol(*symbol).as_bytes())?;
            output.write_all(b" ")?;
        }
        output.write_all("•".as_bytes())?;
        for symbol in rule.right.iter().skip(item.dot) {
            output.write_all(b" ")?;
            output.write_all(self.shown.symbol(*symbol).as_bytes())?;
        }
        output.write_all(b"\\l")
    }

    /// Writes the lines of the items that moves lead to.
    fn put_items<W: Write>(&self, output: &mut W, items: &[Item]) -> io::Result<()> {
        let mut previous = None;
        for item in items.iter().filter(|item| item.dot > 0 || item.rule == 0) {
            if let Some(rule) = self.file.grammar.rules.get(item.rule) {
                self.put_item(output, rule, *item, previous)?;
                previous = Some(rule.left);
            }
        }
        Ok(())
    }

    /// Writes an edge for each move by a terminal.
    fn put_shifts<W: Write>(&self, output: &mut W, state: usize, steps: &[Step]) -> io::Result<()> {
        for step in steps {
            let to = step.to;
            let name = self.shown.terminal(step.symbol);
            if step.symbol == self.file.details.error {
                writeln!(output, "  {state} -> {to} [style=dotted]")?;
            } else {
                writeln!(output, "  {state} -> {to} [style=solid label=\"{name}\"]")?;
            }
        }
        Ok(())
    }

    /// Writes a node for each reduction of a state.
    fn put_reductions<W: Write>(
        &self,
        output: &mut W,
        state: usize,
        ends: &[Ends],
    ) -> io::Result<()> {
        for own in ends {
            if !own.other.is_empty() {
                put_reduction(output, self.shown, state, own.rule, &own.other, false)?;
            }
            if own.is_default {
                put_reduction(output, self.shown, state, own.rule, &[], true)?;
            } else if !own.made.is_empty() {
                put_reduction(output, self.shown, state, own.rule, &own.made, true)?;
            }
        }
        Ok(())
    }

    /// Writes a state and what leads from it.
    fn put_state<W: Write>(
        &self,
        output: &mut W,
        number: usize,
        state: &FullState,
        ends: &[Ends],
    ) -> io::Result<()> {
        write!(output, "  {number} [label=\"State {number}\\n\\l")?;
        self.put_items(output, &state.own.items)?;
        output.write_all(b"\"]\n")?;
        self.put_shifts(output, number, &state.own.shifts)?;
        put_gotos(output, self.shown, number, &state.own.gotos)?;
        self.put_reductions(output, number, ends)
    }

    /// Writes the graph.
    pub fn put<W: Write>(&self, output: &mut W, ends: &[Vec<Ends>]) -> io::Result<()> {
        let name = self.name;
        writeln!(output, "digraph \"{name}\"\n{{")?;
        output.write_all(b"  node [fontname = courier, shape = box, colorscheme = paired6]\n")?;
        output.write_all(b"  edge [fontname = courier]\n\n")?;
        for (number, (state, own)) in self.report.states.iter().zip(ends).enumerate() {
            self.put_state(output, number, state, own)?;
        }
        output.write_all(b"}\n")
    }
}
