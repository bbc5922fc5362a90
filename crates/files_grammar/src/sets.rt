//! The sets of nonterminals, as text.
ghost use Rattle.std.specs.Prelude.{◌≡◌, ◌<◌, [], length, slice_index_or, OnOk};
ghost use Rattle.std.specs.Io.KnownBytes.{Appends};
ghost use Rattle.vob_block.specs.Packing.{item};
ghost use Rattle.vob_lr.specs.Grammar.{AreFirst, AreFollow, AreNullable};
ghost use Rattle.files_text.specs.Printed.{Writes, members};
ghost use Rattle.files_grammar.specs.SetText.{SaysSets, nonterminal_lines, nullable_line, set_line, terminals_text};

use crate::file::{GrammarFile, SymbolNames};
use files_text::{end_line, put_name, put_next};
use std::io;
use std::io::Write;
use vob_lr::GrammarSets;
use vob_rows::{BitRows, Row};

/// Writes the names of some terminals, each after a space.
pub(crate) fn put_terminals<W: Write>(
    output: &mut W,
    names: &SymbolNames,
    set: &Row<'_>,
) -> io::Result<()>
    ensures { OnOk result (Appends (W.contents output.old) (W.contents output.new)
        (terminals_text names.now (members set.now))) }
{
    for terminal in set.iter_set_bits(..) {
        put_next(output, names.terminal(terminal))?;
    }
    Ok(())
}

/// Writes a line: a word, and the names of the terminals of a nonterminal's set.
fn put_set<W: Write>(
    output: &mut W,
    word: &[u8],
    names: &SymbolNames,
    sets: &BitRows,
    number: usize,
) -> io::Result<()>
    requires { number < length sets.now.rows }
    ensures { OnOk result (Appends (W.contents output.old) (W.contents output.new)
        (set_line word.now names.now (members (slice_index_or sets.now.rows number [])))) }
{
    output.write_all(word)?;
    put_terminals(output, names, &sets.row(number))?;
    end_line(output)
}

/// Returns whether a nonterminal can become empty.
fn is_nullable(sets: &GrammarSets, number: usize) -> bool
    ensures { result ≡ item sets.now.nullable.bits number }
{
    sets.nullable.get(number) == Some(true)
}

/// Writes whether a nonterminal can become empty.
fn put_nullable<W: Write>(output: &mut W, is_nullable: bool) -> io::Result<()>
    ensures { OnOk result (Appends (W.contents output.old) (W.contents output.new)
        (nullable_line is_nullable)) }
{
    if is_nullable {
        return output.write_all(b"  nullable yes\n");
    }
    output.write_all(b"  nullable no\n")
}

/// Writes the sets of a nonterminal.
fn put_nonterminal<W: Write>(
    output: &mut W,
    names: &SymbolNames,
    sets: &GrammarSets,
    number: usize,
) -> io::Result<()>
    requires first { number < length sets.now.first.rows }
    requires follow { number < length sets.now.follow.rows }
    ensures { OnOk result (Appends (W.contents output.old) (W.contents output.new)
        (nonterminal_lines names.now number (item sets.now.nullable.bits number)
        (members (slice_index_or sets.now.first.rows number []))
        (members (slice_index_or sets.now.follow.rows number [])))) }
{
    end_line(output)?;
    put_name(output, names.nonterminal(number))?;
    end_line(output)?;
    put_nullable(output, is_nullable(sets, number))?;
    put_set(output, b"  FIRST", names, &sets.first, number)?;
    put_set(output, b"  FOLLOW", names, &sets.follow, number)
}

/// Writes the sets of all nonterminals.
pub(crate) fn put_sets<W: Write>(
    output: &mut W,
    file: &GrammarFile,
    sets: &GrammarSets,
) -> io::Result<()>
    requires nullable { AreNullable file.now.grammar sets.now.nullable.bits }
    requires first { AreFirst file.now.grammar sets.now.first.rows }
    requires follow { AreFollow file.now.grammar sets.now.follow.rows }
    ensures { OnOk result (Writes (W.contents output.old) (W.contents output.new)
        (SaysSets file.now.grammar file.now.names)) }
{
    for number in 0..file.grammar.nonterminals {
        put_nonterminal(output, &file.names, sets, number)?;
    }
    Ok(())
}
