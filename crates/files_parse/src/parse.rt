//! The derivation of tokens by a grammar, and its tree.
ghost use Rattle.std.specs.Prelude.{◌≡◌, ℕ, map, slice_get, IfErr, IfOk, OnOk};
ghost use Rattle.std.specs.Io.KnownBytes.{Appends};
ghost use Rattle.std.specs.String.{string_bytes};
ghost use Rattle.vob_lr.specs.Derivations.{IsParse};
ghost use Rattle.vob_lr.specs.Stops.{AcceptsBy, IsUnexpected};
ghost use Rattle.files_text.specs.Printed.{Writes};
ghost use Rattle.files_text.specs.Words.{token_of as word_token};
ghost use Rattle.files_grammar.specs.GrammarFaults.{HasNoTable};
ghost use Rattle.files_parse.specs.Failures.{FailsBy};
ghost use Rattle.files_parse.specs.ParseFaults.{IsRefused, called, end_of, place_of};
ghost use Rattle.files_parse.specs.Tokens.{AreWordsOf};
ghost use Rattle.files_parse.specs.Writing.{IsUnwritten};
ghost use Rattle.files_parse.specs.Parses.{HasTable, ListsForm, WritesParse, derivation_text, numbered_line};

use crate::expected::{END, expected_after};
use crate::parser::endless_at;
use crate::tokens::tokens_of;
use crate::tree::{TreeForm, WordTree};
use files_grammar::{GrammarFault, GrammarFile, put_rule};
use files_text::{Fault, Word, Words};
use std::alloc::{AllocError, Global};
use std::io;
use std::io::Write;
use vob_lr::{ParseError, Table, Tree};

/// Returns the line and the column behind the last word, or those where a text begins if it has
/// none.
fn end_of(words: &[Word<'_>]) -> (usize, usize)
    ensures { result ≡ end_of (map word_token words.now) }
{
    match words.last() {
        Some(word) => (word.line, word.end()),
        None => (1, 1),
    }
}

/// Returns the line and the column of a token, or of the end.
fn place_of(words: &[Word<'_>], at: usize) -> (usize, usize)
    ensures { result ≡ place_of (map word_token words.now) at }
{
    match words.get(at) {
        Some(word) => (word.line, word.column),
        None => end_of(words),
    }
}

/// Returns what a token, or the end, is called.
fn called(alloc: Global, words: &[Word<'_>], at: usize) -> Result<String, AllocError>
    ensures { IfOk result (λ name.
        called (slice_get (map word_token words.now) at) ≡ string_bytes name) }
{
    match words.get(at) {
        Some(word) => String::from_utf8_lossy(alloc, word.text),
        None => String::from_str(alloc, END),
    }
}

/// Returns the fault of a token that doesn't fit: where it stands, and what would fit there.
fn unfit(
    alloc: Global,
    file: &GrammarFile,
    table: &Table<'_>,
    words: &[Word<'_>],
    tokens: &[usize],
    at: usize,
) -> Result<GrammarFault, AllocError>
    requires { IsUnexpected table.now tokens.now at }
    ensures { IfOk result (IsRefused table.now file.now.names (map word_token words.now) tokens.now) }
{
    let before = &tokens[..at.min(tokens.len())];
    let expected = expected_after(alloc, table, &file.names, before)?;
    let name = called(alloc, words, at)?;
    let (line, column) = place_of(words, at);
    Ok(GrammarFault::Token {
        line,
        column,
        name,
        expected,
    })
}

/// Returns the fault of a parser that reduces without end before a token, or the end.
fn endless(words: &[Word<'_>], at: usize) -> GrammarFault
    ensures { (line : ℕ) × (column : ℕ) × (result ≡ GrammarFault.Endless line column)
        × (place_of (map word_token words.now) at ≡ (line, column)) }
{
    let (line, column) = place_of(words, at);
    GrammarFault::Endless { line, column }
}

/// Returns the fault of tokens that a parser refuses.
fn refused(
    alloc: Global,
    file: &GrammarFile,
    table: &Table<'_>,
    words: &[Word<'_>],
    tokens: &[usize],
    error: ParseError,
) -> Result<GrammarFault, AllocError>
    requires { (at : ℕ) → error ≡ ParseError.Unexpected at → IsUnexpected table.now tokens.now at }
    ensures { IfOk result (IsRefused table.now file.now.names (map word_token words.now) tokens.now) }
{
    let ParseError::Unexpected { at } = error else {
        return Ok(GrammarFault::Text(Fault::Memory));
    };
    unfit(alloc, file, table, words, tokens, at)
}

/// Returns the rules by which a parser reduces tokens, however many there are.
fn parse_long(
    alloc: Global,
    file: &GrammarFile,
    table: &Table<'_>,
    words: &[Word<'_>],
    tokens: &[usize],
) -> Result<Vec<usize>, GrammarFault>
    ensures derives { IfOk result (λ rules.
        IsParse table.now.machine.grammar.rules.items tokens.now rules.items) }
    ensures accepted { IfOk result (λ rules. AcceptsBy table.now tokens.now rules.items) }
    ensures err { IfErr result (IsRefused table.now file.now.names (map word_token words.now) tokens.now) }
{
    match table.parse_within(alloc, tokens, usize::MAX) {
        Ok(rules) => Ok(rules),
        Err(error) => Err(refused(alloc, file, table, words, tokens, error)?),
    }
}

/// Returns the rules by which a parser reduces tokens. Fails at the first that doesn't fit, or
/// before which it reduces without end.
fn parse_tokens(
    alloc: Global,
    file: &GrammarFile,
    table: &Table<'_>,
    words: &[Word<'_>],
    tokens: &[usize],
) -> Result<Vec<usize>, GrammarFault>
    ensures derives { IfOk result (λ rules.
        IsParse table.now.machine.grammar.rules.items tokens.now rules.items) }
    ensures accepted { IfOk result (λ rules. AcceptsBy table.now tokens.now rules.items) }
    ensures err { IfErr result (IsRefused table.now file.now.names (map word_token words.now) tokens.now) }
{
    let error = match table.parse(alloc, tokens) {
        Ok(rules) => return Ok(rules),
        Err(error) => error,
    };
    if error != ParseError::TooLong {
        return Err(refused(alloc, file, table, words, tokens, error)?);
    }
    // A table with conflicts may need more than suffice.
    let Some(at) = endless_at(alloc, table, tokens)? else {
        return parse_long(alloc, file, table, words, tokens);
    };
    Err(endless(words, at))
}

/// Writes the line of the rule with a number, if there is one.
fn put_numbered<W: Write>(output: &mut W, file: &GrammarFile, number: usize) -> io::Result<()>
    ensures { OnOk result (Appends (W.contents output.old) (W.contents output.new)
        (numbered_line file.now number)) }
{
    match file.grammar.rules.get(number) {
        Some(rule) => put_rule(output, &file.names, rule),
        None => Ok(()),
    }
}

/// Writes the lines of some rules, the last one first.
fn put_derivation<W: Write>(output: &mut W, file: &GrammarFile, rules: &[usize]) -> io::Result<()>
    ensures { OnOk result (Appends (W.contents output.old) (W.contents output.new)
        (derivation_text file.now rules.now)) }
{
    for place in (0..rules.len()).rev() {
        put_numbered(output, file, rules[place])?;
    }
    Ok(())
}

/// Writes the tree of tokens and their parse in a form.
fn put_tree<W: Write>(
    alloc: Global,
    output: &mut W,
    file: &GrammarFile,
    words: &[Word<'_>],
    tokens: &[usize],
    parsed: &[usize],
    form: TreeForm,
) -> Result<(), GrammarFault>
    requires { IsParse file.now.grammar.rules.items tokens.now parsed.now }
    ensures ok { OnOk result (Writes (W.contents output.old) (W.contents output.new)
        (ListsForm file.now (map word_token words.now) tokens.now parsed.now form)) }
    ensures err { IfErr result (λ fault. IsUnwritten fault
        (W.contents output.old) (W.contents output.new)) }
{
    let tree = Tree::of(alloc, &file.grammar.rules, tokens, parsed)?;
    let named = WordTree {
        file,
        words,
        tokens,
        tree: &tree,
    };
    match form {
        TreeForm::Text => {
            named.put_text(alloc, output)?;
            Ok(())
        }
        TreeForm::Dot => {
            named.put_dot(output)?;
            Ok(())
        }
        TreeForm::Json => {
            named.put_json(alloc, output)?;
            Ok(())
        }
    }
}

/// Returns the table of a file's grammar.
fn table_of(alloc: Global, file: &GrammarFile) -> Result<Table<'_>, GrammarFault>
    ensures ok { IfOk result (HasTable file.now) }
    ensures err { IfErr result (HasNoTable file.now.grammar) }
{
    let table = file.table(alloc)?;
    // A proof knows from this call that the actions are those of the grammar's states.
    let _states = table.lookaheads();
    Ok(table)
}

/// Returns the words of a text of tokens. Fails if memory runs out.
fn words_of(alloc: Global, text: &[u8]) -> Result<Vec<Word<'_>>, AllocError>
    ensures { IfOk result (λ words. AreWordsOf text.now (map word_token words.items)) }
{
    Words::new(text, b"").collect(alloc)
}

/// Writes how a grammar derives tokens: the rules of the rightmost derivation from its start symbol,
/// or the tree in a form. Conflicts that precedence leaves are decided as in bison: for the shift, or
/// else for the rule that comes first. Returns the status, 0.
///
/// Fails at the first word that is no terminal, or at the first token that doesn't fit. The fault
/// then lists what fits there: the terminals that the parser takes after the tokens before, in the
/// order of their numbers, the first five by name. Fails at the first token, or the end, before which
/// the parser would reduce without end. Fails too if memory runs out. Nothing is written then. Fails
/// if the output can't be written.
pub fn print_parse<W: Write>(
    alloc: Global,
    file: &GrammarFile,
    text: &[u8],
    form: Option<TreeForm>,
    output: &mut W,
) -> Result<u8, GrammarFault>
    ensures status { IfOk result (λ status. status ≡ 0) }
    ensures ok { OnOk result (WritesParse file.now text.now form
        (W.contents output.old) (W.contents output.new)) }
    ensures err { IfErr result (λ fault. FailsBy file.now text.now fault
        (W.contents output.old) (W.contents output.new)) }
{
    let table = table_of(alloc, file)?;
    let words = words_of(alloc, text)?;
    let tokens = match tokens_of(alloc, file, &words) {
        Ok(tokens) => tokens,
        Err(fault) => return Err(GrammarFault::Text(fault)),
    };
    let rules = parse_tokens(alloc, file, &table, &words, &tokens)?;
    let Some(form) = form else {
        put_derivation(output, file, &rules)?;
        return Ok(0);
    };
    put_tree(alloc, output, file, &words, &tokens, &rules, form)?;
    Ok(0)
}
