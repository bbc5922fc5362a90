//! The rules of a grammar, as text.
ghost use Rattle.std.specs.Prelude.{◌++◌, ◌<◌, ◌≤◌, codes, length, OnOk};
ghost use Rattle.std.specs.Fmt.{decimal};
ghost use Rattle.std.specs.List.{flat_map, range_with_len};
ghost use Rattle.std.specs.Io.KnownBytes.{Appends};
ghost use Rattle.files_text.specs.Printed.{Writes};
ghost use Rattle.files_grammar.specs.Rules.{next_name, rule_line};
ghost use Rattle.files_grammar.specs.ItemText.{SaysRule, SaysRules, dotted_rule};
ghost use Rattle.files_grammar.specs.Texts.{AreTexts};

use crate::file::SymbolNames;
use files_text::{end_line, put_name, put_next};
use std::io;
use std::io::Write;
use vob_lr::{Rule, Symbol};

/// Writes symbols, each after a space.
fn put_symbols<W: Write>(output: &mut W, names: &SymbolNames, symbols: &[Symbol]) -> io::Result<()>
    ensures { OnOk result (Appends (W.contents output.old) (W.contents output.new)
        (flat_map (next_name names.now) symbols.now)) }
{
    for symbol in symbols {
        put_next(output, names.of(*symbol))?;
    }
    Ok(())
}

/// Writes the line of a rule: its left side, a colon, and the symbols of its right side. Fails if
/// the output does.
pub fn put_rule<W: Write>(output: &mut W, names: &SymbolNames, rule: &Rule) -> io::Result<()>
    ensures { OnOk result (Appends (W.contents output.old) (W.contents output.new)
        (rule_line names.now rule.now)) }
{
    put_name(output, names.nonterminal(rule.left))?;
    output.write_all(b":")?;
    put_symbols(output, names, &rule.right)?;
    end_line(output)
}

/// Writes a rule with a point for the dot, which must be on its right side.
pub(crate) fn put_dotted<W: Write>(
    output: &mut W,
    names: &SymbolNames,
    rule: &Rule,
    dot: usize,
) -> io::Result<()>
    requires { dot ≤ length rule.now.right.items }
    ensures { OnOk result (Appends (W.contents output.old) (W.contents output.new)
        (dotted_rule names.now rule.now dot)) }
{
    output.write_all(b"  ")?;
    put_name(output, names.nonterminal(rule.left))?;
    output.write_all(b":")?;
    put_symbols(output, names, &rule.right[..dot])?;
    output.write_all(b" .")?;
    put_symbols(output, names, &rule.right[dot..])
}

/// Writes the number of a rule, before its line.
fn put_rule_number<W: Write>(output: &mut W, number: usize) -> io::Result<()>
    ensures { OnOk result (Appends (W.contents output.old) (W.contents output.new)
        (codes "rule " ++ decimal number ++ codes " ")) }
{
    write!(output, "rule {number} ")
}

/// Writes the line of the rule with a number, which must be one.
fn put_numbered<W: Write>(
    output: &mut W,
    names: &SymbolNames,
    rules: &[Rule],
    number: usize,
) -> io::Result<()>
    requires { number < length rules.now }
    ensures { OnOk result (Writes (W.contents output.old) (W.contents output.new)
        (SaysRule names.now rules.now number)) }
{
    put_rule_number(output, number)?;
    put_rule(output, names, &rules[number])?;
    Ok(())
}

/// Writes the rules with their numbers.
fn put_all<W: Write>(output: &mut W, names: &SymbolNames, rules: &[Rule]) -> io::Result<()>
    ensures { OnOk result (Writes (W.contents output.old) (W.contents output.new)
        (AreTexts (SaysRule names.now rules.now) (range_with_len 0 (length rules.now)))) }
{
    for number in 0..rules.len() {
        put_numbered(output, names, rules, number)?;
    }
    Ok(())
}

/// Writes the rules with their numbers, after an empty line.
pub(crate) fn put_rules<W: Write>(
    output: &mut W,
    names: &SymbolNames,
    rules: &[Rule],
) -> io::Result<()>
    ensures { OnOk result (Writes (W.contents output.old) (W.contents output.new)
        (SaysRules names.now rules.now)) }
{
    end_line(output)?;
    put_all(output, names, rules)?;
    Ok(())
}
