//! The sets and the states of a grammar, as text.
ghost use Rattle.std.specs.Prelude.{IfErr, IfOk, OnOk};
ghost use Rattle.std.specs.Io.KnownBytes.{Appends};
ghost use Rattle.files_text.specs.Printed.{Writes};
ghost use Rattle.vob_lr.specs.Entered.{IsEntered};
ghost use Rattle.vob_lr.specs.Those.{AreThose};
ghost use Rattle.files_grammar.specs.GrammarFaults.{FailsBy};
ghost use Rattle.files_grammar.specs.GrammarText.{HasStatus, SaysGrammar, SaysWanted, count_line, counts_text, rules_text, shifts_text, symbols_text};

use crate::conflicts::Conflicts;
use crate::fault::GrammarFault;
use crate::file::GrammarFile;
use crate::rules::put_rules;
use crate::sets::put_sets;
use crate::state_text::put_states;
use crate::states::States;
use std::alloc::Global;
use std::io;
use std::io::Write;
use vob_lr::{Grammar, GrammarSets, Table};

/// Writes the line of a count.
fn put_count<W: Write>(output: &mut W, word: &[u8], count: usize) -> io::Result<()>
    ensures { OnOk result (Appends (W.contents output.old) (W.contents output.new)
        (count_line word.now count)) }
{
    output.write_all(word)?;
    writeln!(output, "{count}")
}

/// Writes how many symbols and rules there are.
fn put_symbol_counts<W: Write>(output: &mut W, grammar: &Grammar) -> io::Result<()>
    ensures { OnOk result (Appends (W.contents output.old) (W.contents output.new)
        (symbols_text grammar.now)) }
{
    put_count(output, b"terminals ", grammar.terminals)?;
    put_count(output, b"nonterminals ", grammar.nonterminals)?;
    put_count(output, b"rules ", grammar.rules.len())
}

/// Writes how many conflicts there are with a shift.
fn put_shift_count<W: Write>(output: &mut W, shifts: usize) -> io::Result<()>
    ensures { OnOk result (Appends (W.contents output.old) (W.contents output.new)
        (shifts_text shifts)) }
{
    write!(output, "conflicts {shifts} shift/reduce, ")
}

/// Writes how many rules are too many.
fn put_rule_count<W: Write>(output: &mut W, rules: usize) -> io::Result<()>
    ensures { OnOk result (Appends (W.contents output.old) (W.contents output.new)
        (rules_text rules)) }
{
    writeln!(output, "{rules} reduce/reduce")
}

/// Writes how many symbols, rules, states and conflicts there are.
fn put_counts<W: Write>(
    output: &mut W,
    grammar: &Grammar,
    states: usize,
    conflicts: &Conflicts,
) -> io::Result<()>
    ensures { OnOk result (Appends (W.contents output.old) (W.contents output.new)
        (counts_text grammar.now states conflicts.now.shift_reduce conflicts.now.reduce_reduce)) }
{
    put_symbol_counts(output, grammar)?;
    put_count(output, b"states ", states)?;
    put_shift_count(output, conflicts.shift_reduce)?;
    put_rule_count(output, conflicts.reduce_reduce)
}

/// Writes the rules and the states if they are wanted.
fn put_wanted<W: Write>(
    output: &mut W,
    file: &GrammarFile,
    table: &Table<'_>,
    states: &States,
    wants_states: bool,
) -> io::Result<()>
    requires { AreThose (IsEntered table.now) states.now }
    ensures { OnOk result (Writes (W.contents output.old) (W.contents output.new)
        (SaysWanted wants_states file.now table.now states.now)) }
{
    if !wants_states {
        return Ok(());
    }
    put_rules(output, &file.names, &file.grammar.rules)?;
    put_states(output, &file.names, table, states)?;
    Ok(())
}

/// Returns the status: 1 if there are other conflicts than a file expects, else 0.
fn status_of(file: &GrammarFile, conflicts: &Conflicts) -> u8
    ensures { HasStatus file.now conflicts.now.shift_reduce conflicts.now.reduce_reduce result }
{
    if conflicts.are(file.expected) {
        return 0;
    }
    1
}

/// Writes the counts of a grammar, its conflicts, and the sets of its nonterminals. Writes its rules
/// and states too if they are wanted. Returns the status: 1 if there are other conflicts than the
/// file expects, else 0.
///
/// Fails if the grammar has no rule, with the first rule that names a symbol that isn't there, or
/// if memory runs out. Nothing is written then. Fails too if the output can't be written.
pub fn print_grammar<W: Write>(
    alloc: Global,
    file: &GrammarFile,
    wants_states: bool,
    output: &mut W,
) -> Result<u8, GrammarFault>
    ensures ok { IfOk result (λ status. Writes (W.contents output.old) (W.contents output.new)
        (SaysGrammar file.now wants_states status)) }
    ensures err { IfErr result (λ fault. FailsBy file.now.grammar fault
        (W.contents output.old) (W.contents output.new)) }
{
    let sets = GrammarSets::new(alloc, &file.grammar)?;
    let table = file.table(alloc)?;
    // A proof knows from this call what the states are.
    let _lookaheads = table.lookaheads();
    let states = States::of(alloc, &table)?;
    let conflicts = Conflicts::of(alloc, file, &table, &states)?;
    put_counts(output, &file.grammar, states.count(), &conflicts)?;
    conflicts.put(output, &file.names, &states)?;
    put_sets(output, file, &sets)?;
    put_wanted(output, file, &table, &states, wants_states)?;
    Ok(status_of(file, &conflicts))
}
