//! A grammar in a form for other programs: its parser in C or in Rust.

use crate::arrays::Arrays;
use crate::escape::put_comment;
use crate::form::Form;
use crate::listing::{put_characters, put_names, put_rules, put_tokens};
use files_grammar::{Conflicts, GrammarFault, GrammarFile, States};
use std::alloc::Global;
use std::io;
use std::io::Write;
use vob_lr::Grammar;

/// Returns the name of a file without its folder.
fn base_name(name: &str) -> &[u8] {
    let bytes = name.as_bytes();
    match bytes.iter().rposition(|byte| *byte == b'/') {
        Some(at) => bytes.get(at.saturating_add(1)..).unwrap_or_default(),
        None => bytes,
    }
}

/// Writes of which grammar a parser is, and in which form.
fn put_title<W: Write>(output: &mut W, name: &str, form: Form) -> io::Result<()> {
    output.write_all(b"// The parser of the grammar in ")?;
    put_comment(output, base_name(name))?;
    let word = form.name();
    writeln!(
        output,
        ", as `conthiral grammar --output {word}` writes it."
    )
}

/// Writes how large a parser is, and how many conflicts were decided.
fn put_head<W: Write>(
    output: &mut W,
    grammar: &Grammar,
    states: usize,
    conflicts: &Conflicts,
) -> io::Result<()> {
    let Grammar {
        terminals,
        nonterminals,
        rules,
    } = grammar;
    let rules = rules.len();
    let Conflicts {
        shift_reduce,
        reduce_reduce,
        ..
    } = conflicts;
    writeln!(
        output,
        "// {terminals} terminals, {nonterminals} nonterminals, {rules} rules, {states} states."
    )?;
    writeln!(
        output,
        "// Conflicts decided by default: {shift_reduce} for a shift, {reduce_reduce} for the lower rule.\n//"
    )
}

/// Writes how many symbols and rules there are, as constants.
fn put_counts<W: Write>(output: &mut W, form: Form, grammar: &Grammar) -> io::Result<()> {
    let terminals = grammar.terminals;
    let nonterminals = grammar.nonterminals;
    let rules = grammar.rules.len();
    match form {
        Form::C => {
            writeln!(output, "    PARSER_TERMINALS = {terminals},")?;
            writeln!(output, "    PARSER_NONTERMINALS = {nonterminals},")?;
            writeln!(output, "    PARSER_RULES = {rules},")
        }
        Form::Rust => {
            writeln!(output, "pub const TERMINALS: usize = {terminals};")?;
            writeln!(output, "pub const NONTERMINALS: usize = {nonterminals};")?;
            writeln!(
                output,
                "#[allow(dead_code)]\npub const RULES: usize = {rules};"
            )
        }
    }
}

/// Writes a parser.
fn put_parser<W: Write>(
    alloc: Global,
    output: &mut W,
    form: Form,
    file: &GrammarFile,
    arrays: &Arrays,
) -> Result<(), GrammarFault> {
    let parts = form.parts();
    output.write_all(parts.usage.as_bytes())?;
    put_counts(output, form, &file.grammar)?;
    output.write_all(parts.tokens.as_bytes())?;
    put_tokens(alloc, output, form, &file.names)?;
    output.write_all(parts.rules.as_bytes())?;
    put_rules(alloc, output, form, file)?;
    output.write_all(parts.characters.as_bytes())?;
    put_characters(output, form, &file.names)?;
    output.write_all(parts.names.as_bytes())?;
    put_names(alloc, output, form, &file.names)?;
    output.write_all(parts.arrays.as_bytes())?;
    arrays.put(alloc, output, form, file)?;
    output.write_all(parts.parser.as_bytes())?;
    output.write_all(parts.push.as_bytes())?;
    Ok(())
}

/// Writes a grammar in a form for other programs. `name` is what its file is called. Returns the status: 1
/// if there are other conflicts than the file expects, else 0. Conflicts that precedence leaves are decided
/// as in bison: for the shift, or else for the rule that comes first.
///
/// Fails if memory runs out, or if the output can't be written.
pub fn print_form<W: Write>(
    alloc: Global,
    file: &GrammarFile,
    name: &str,
    form: Form,
    output: &mut W,
) -> Result<u8, GrammarFault> {
    let table = file.table(alloc)?;
    let states = States::of(alloc, &table)?;
    let conflicts = Conflicts::of(alloc, file, &table, &states)?;
    let arrays = Arrays::of(alloc, file, &table, &states)?;
    put_title(output, name, form)?;
    put_head(output, &file.grammar, states.count(), &conflicts)?;
    put_parser(alloc, output, form, file, &arrays)?;
    Ok(if conflicts.are(file.expected) { 0 } else { 1 })
}
