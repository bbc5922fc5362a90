//! What a parser may do in a state when a terminal is ahead, as text.
ghost use Rattle.std.specs.Prelude.{◌++◌, codes, Contains, IfSome, OnOk};
ghost use Rattle.std.specs.Fmt.{decimal};
ghost use Rattle.std.specs.Io.KnownBytes.{Appends};
ghost use Rattle.files_text.specs.Printed.{Writes};
ghost use Rattle.files_grammar.specs.ActionText.{SaysActions, SaysShift, others, reduction, reductions};

use crate::states::States;
use std::io;
use std::io::Write;

/// Writes a shift to the state with a number.
fn put_shift_to<W: Write>(output: &mut W, number: usize) -> io::Result<()>
    ensures { OnOk result (Appends (W.contents output.old) (W.contents output.new)
        (codes " shift " ++ decimal number)) }
{
    write!(output, " shift {number}")
}

/// Writes a shift to a state that a parser enters.
fn put_shift<W: Write>(output: &mut W, states: &States, to: usize) -> io::Result<()>
    requires { Contains states.now to }
    ensures { OnOk result (Writes (W.contents output.old) (W.contents output.new)
        (SaysShift states.now to)) }
{
    let Some(number) = states.number(to) else {
        return Ok(());
    };
    put_shift_to(output, number)?;
    Ok(())
}

/// Writes a reduction by a rule.
fn put_reduction<W: Write>(output: &mut W, rule: usize) -> io::Result<()>
    ensures { OnOk result (Appends (W.contents output.old) (W.contents output.new)
        (reduction rule)) }
{
    write!(output, " reduce {rule}")
}

/// Writes reductions by rules, each after a word.
fn put_others<W: Write>(output: &mut W, between: &str, rules: &[usize]) -> io::Result<()>
    ensures { OnOk result (Appends (W.contents output.old) (W.contents output.new)
        (others between.now rules.now)) }
{
    for rule in rules {
        output.write_all(between.as_bytes())?;
        put_reduction(output, *rule)?;
    }
    Ok(())
}

/// Writes reductions by rules with a word between them.
fn put_reductions<W: Write>(output: &mut W, between: &str, rules: &[usize]) -> io::Result<()>
    ensures { OnOk result (Appends (W.contents output.old) (W.contents output.new)
        (reductions between.now rules.now)) }
{
    if let Some((first, others)) = rules.split_first() {
        put_reduction(output, *first)?;
        return put_others(output, between, others);
    }
    Ok(())
}

/// Writes actions with a word between them. A parser must enter the state of the shift.
pub fn put_actions<W: Write>(
    output: &mut W,
    states: &States,
    shift: Option<usize>,
    rules: &[usize],
    between: &str,
) -> io::Result<()>
    requires { IfSome shift (Contains states.now) }
    ensures { OnOk result (Writes (W.contents output.old) (W.contents output.new)
        (SaysActions states.now between.now shift rules.now)) }
{
    let Some(to) = shift else {
        put_reductions(output, between, rules)?;
        return Ok(());
    };
    put_shift(output, states, to)?;
    put_others(output, between, rules)?;
    Ok(())
}
