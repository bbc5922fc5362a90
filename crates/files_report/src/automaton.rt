//! Reports in XML, element by element as bison 3.8 writes them: the states.

use crate::names::{Shown, text_at};
use crate::reductions::Reduction;
use crate::report::FullState;
use crate::state::{Decision, Solved, StateReport, Step};
use crate::xml::Xml;
use std::io;
use std::io::Write;
use vob_lr::Item;

/// Writes the lookaheads that are left to a rule.
fn put_lookaheads<W: Write>(output: &mut W, shown: &Shown, lookaheads: &[usize]) -> io::Result<()> {
    output.write_all(b"          <lookaheads>\n")?;
    for terminal in lookaheads {
        let name = shown.terminal(*terminal);
        writeln!(output, "            <symbol>{name}</symbol>")?;
    }
    output.write_all(b"          </lookaheads>\n")
}

/// Writes an item. If it is complete and the state isn't consistent, it has lookaheads.
fn put_item<W: Write>(
    output: &mut W,
    shown: &Shown,
    item: Item,
    lookaheads: Option<&[usize]>,
) -> io::Result<()> {
    let Item { rule, dot } = item;
    write!(output, "        <item rule-number=\"{rule}\" dot=\"{dot}\"")?;
    let Some(lookaheads) = lookaheads else {
        return output.write_all(b"/>\n");
    };
    output.write_all(b">\n")?;
    put_lookaheads(output, shown, lookaheads)?;
    output.write_all(b"        </item>\n")
}

/// Writes moves of a kind, by the names of their symbols.
fn put_steps<W: Write>(
    output: &mut W,
    kind: &str,
    steps: &[Step],
    names: &[String],
) -> io::Result<()> {
    for step in steps {
        let to = step.to;
        let name = text_at(names, step.symbol);
        writeln!(
            output,
            "          <transition type=\"{kind}\" symbol=\"{name}\" state=\"{to}\"/>"
        )?;
    }
    Ok(())
}

/// Writes the moves of a state: by terminals, and then by nonterminals.
fn put_transitions<W: Write>(output: &mut W, shown: &Shown, state: &StateReport) -> io::Result<()> {
    if state.shifts.is_empty() && state.gotos.is_empty() {
        return output.write_all(b"        <transitions/>\n");
    }
    output.write_all(b"        <transitions>\n")?;
    put_steps(output, "shift", &state.shifts, &shown.terminals)?;
    put_steps(output, "goto", &state.gotos, &shown.nonterminals)?;
    output.write_all(b"        </transitions>\n")
}

/// Writes the terminals that precedence makes errors.
fn put_errors<W: Write>(output: &mut W, shown: &Shown, errors: &[usize]) -> io::Result<()> {
    if errors.is_empty() {
        return output.write_all(b"        <errors/>\n");
    }
    output.write_all(b"        <errors>\n")?;
    for terminal in errors {
        let name = shown.terminal(*terminal);
        writeln!(
            output,
            "          <error symbol=\"{name}\">nonassociative</error>"
        )?;
    }
    output.write_all(b"        </errors>\n")
}

/// Writes a reduction. That by rule 0 accepts.
fn put_reduction<W: Write>(output: &mut W, shown: &Shown, reduction: &Reduction) -> io::Result<()> {
    let name = match reduction.terminal {
        Some(terminal) => shown.terminal(terminal),
        None => "$default",
    };
    write!(output, "          <reduction symbol=\"{name}\" rule=\"")?;
    match reduction.rule {
        0 => output.write_all(b"accept")?,
        rule => write!(output, "{rule}")?,
    }
    let is_made = reduction.is_made;
    writeln!(output, "\" enabled=\"{is_made}\"/>")
}

/// Writes the reductions of a state.
fn put_reductions<W: Write>(
    output: &mut W,
    shown: &Shown,
    reductions: &[Reduction],
) -> io::Result<()> {
    if reductions.is_empty() {
        return output.write_all(b"        <reductions/>\n");
    }
    output.write_all(b"        <reductions>\n")?;
    for reduction in reductions {
        put_reduction(output, shown, reduction)?;
    }
    output.write_all(b"        </reductions>\n")
}

impl Xml<'_> {
    /// Writes the items of a state.
    fn put_items<W: Write>(&self, output: &mut W, state: &StateReport) -> io::Result<()> {
        output.write_all(b"      <itemset>\n")?;
        for item in state.items.iter() {
            put_item(output, self.shown, *item, self.lookaheads(state, *item))?;
        }
        output.write_all(b"      </itemset>\n")
    }

    /// Returns the lookaheads of an item, if it is complete and a parser needs them.
    fn lookaheads<'s>(&self, state: &'s StateReport, item: Item) -> Option<&'s [usize]> {
        let rule = self.file.grammar.rules.get(item.rule)?;
        if state.is_consistent || item.dot < rule.right.len() {
            return None;
        }
        let reducer = state.reducers.iter().find(|own| own.rule == item.rule)?;
        Some(reducer.lookaheads.as_slice())
    }

    /// Returns the name of the terminal that gives a rule its precedence.
    fn precedence_name(&self, rule: usize) -> &str {
        match self.report.rule_terminals.get(rule).copied().flatten() {
            Some(terminal) => self.shown.terminal(terminal),
            None => "",
        }
    }

    /// Writes how precedence decided.
    fn put_solved<W: Write>(&self, output: &mut W, solved: &Solved) -> io::Result<()> {
        let rule = solved.rule;
        let terminal = self.shown.terminal(solved.terminal);
        let own = self.precedence_name(rule);
        let kind = match solved.decision {
            Decision::Shift | Decision::Right => "shift",
            Decision::Rule | Decision::Left => "reduce",
            Decision::Neither => "error",
        };
        write!(
            output,
            "        <resolution rule=\"{rule}\" symbol=\"{terminal}\" type=\"{kind}\">"
        )?;
        match solved.decision {
            Decision::Shift => write!(output, "{own} &lt; {terminal}")?,
            Decision::Rule => write!(output, "{terminal} &lt; {own}")?,
            Decision::Left => write!(output, "%left {terminal}")?,
            Decision::Right => write!(output, "%right {terminal}")?,
            Decision::Neither => write!(output, "%nonassoc {terminal}")?,
        }
        output.write_all(b"</resolution>\n")
    }

    /// Writes all that precedence decided in a state.
    fn put_all_solved<W: Write>(&self, output: &mut W, solved: &[Solved]) -> io::Result<()> {
        if solved.is_empty() {
            return output.write_all(b"      <solved-conflicts/>\n");
        }
        output.write_all(b"      <solved-conflicts>\n")?;
        for own in solved {
            self.put_solved(output, own)?;
        }
        output.write_all(b"      </solved-conflicts>\n")
    }

    /// Writes a state with its number.
    fn put_state<W: Write>(
        &self,
        output: &mut W,
        number: usize,
        state: &FullState,
    ) -> io::Result<()> {
        let own = &state.own;
        writeln!(output, "\n    <state number=\"{number}\">")?;
        self.put_items(output, own)?;
        output.write_all(b"      <actions>\n")?;
        put_transitions(output, self.shown, own)?;
        put_errors(output, self.shown, &own.errors)?;
        put_reductions(output, self.shown, &state.reductions)?;
        output.write_all(b"      </actions>\n")?;
        self.put_all_solved(output, &own.solved)?;
        output.write_all(b"    </state>\n")
    }
}

/// Writes the states.
pub fn put_automaton<W: Write>(output: &mut W, xml: &Xml<'_>) -> io::Result<()> {
    output.write_all(b"  <automaton>\n")?;
    for (number, state) in xml.report.states.iter().enumerate() {
        xml.put_state(output, number, state)?;
    }
    output.write_all(b"  </automaton>\n")
}
