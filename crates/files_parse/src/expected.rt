//! Which terminals a parser takes after tokens, and how a message lists them.
ghost use Rattle.std.specs.Prelude.{◌≡◌, ◌≢◌, ◌↔◌, ◌⊎◌, ◌+◌, ◌<◌, ◌++◌, ℕ, List, [], codes, cond, length, map, nat_eq, reverse, IfNone, IfOk, IfSome, IsTrue, OnOk};
ghost use Rattle.std.specs.Fmt.{decimal};
ghost use Rattle.std.specs.String.{string_bytes};
ghost use Rattle.vob_lr.specs.Those.{AreThose};
ghost use Rattle.files_parse.specs.Fitting.{Fits, IsExpected, IsToken, ListsExpected, items_of, joined, separator, shown};
ghost use Rattle.files_parse.specs.Stacks.{HasRead, IsAdded};

use crate::parser::{Outcome, start, take};
use files_grammar::SymbolNames;
use std::alloc::{AllocError, Global};
use vob_lr::Table;

/// How many terminals are named.
const NAMED: usize = 5;

/// What messages call the end of the tokens.
pub(crate) const END: &str = "end of input";

/// Returns the states of a parser that has taken tokens, the newest last, or `None` if it doesn't take
/// them all.
fn after(
    alloc: Global,
    table: &Table<'_>,
    tokens: &[usize],
) -> Result<Option<Vec<usize>>, AllocError>
    ensures some { IfOk result (λ found. IfSome found (λ states.
        HasRead table.now tokens.now (reverse states.items))) }
    ensures none { IfOk result (λ found. IfNone found ((t : ℕ) → ¬ Fits table.now tokens.now t)) }
{
    let mut states = start(alloc)?;
    // A proof knows from these calls that there is no other way for the parser.
    vob_lr::laws::steps_are_one();
    let _states = table.lookaheads();
    for at in 0..tokens.len() {
        match take(table, tokens[at], &mut states)? {
            Outcome::Taken => {}
            Outcome::Refused => return Ok(None),
            Outcome::Endless => return Ok(None),
        }
    }
    Ok(Some(states))
}

/// Returns whether a parser with these states takes a terminal.
fn takes(
    alloc: Global,
    table: &Table<'_>,
    states: &[usize],
    terminal: usize,
) -> Result<bool, AllocError>
    ensures { IfOk result (λ takes. (tokens : List ℕ) → HasRead table.now tokens (reverse states.now)
        → IsTrue takes ↔ Fits table.now tokens terminal) }
{
    // A proof knows from these calls that there is no other way for the parser.
    vob_lr::laws::steps_are_one();
    let _states = table.lookaheads();
    let mut own = states.to_vec(alloc)?;
    match take(table, terminal, &mut own)? {
        Outcome::Taken => Ok(true),
        Outcome::Refused => Ok(false),
        Outcome::Endless => Ok(false),
    }
}

/// Returns whether a terminal is the end, or isn't called `error`.
fn is_token(names: &SymbolNames, terminal: usize) -> bool
    ensures { IsTrue result ↔ IsToken names.now terminal }
{
    terminal == 0 || names.terminal(terminal) != b"error".as_slice()
}

/// Adds a terminal to others if it is a token that a parser with these states takes.
fn add_if_taken(
    alloc: Global,
    table: &Table<'_>,
    names: &SymbolNames,
    states: &[usize],
    terminal: usize,
    terminals: &mut Vec<usize>,
) -> Result<(), AllocError>
    ensures { OnOk result ((tokens : List ℕ) → HasRead table.now tokens (reverse states.now)
        → terminal < length names.now.terminals.items
        → IsAdded (IsExpected table.now names.now tokens) terminal
        terminals.old.items terminals.new.items) }
{
    if !is_token(names, terminal) {
        return Ok(());
    }
    if !takes(alloc, table, states, terminal)? {
        return Ok(());
    }
    terminals.push(terminal)?;
    Ok(())
}

/// Returns the terminals that a parser takes after tokens, but for `error`. Fails if memory runs out.
fn expected(
    alloc: Global,
    table: &Table<'_>,
    names: &SymbolNames,
    tokens: &[usize],
) -> Result<Vec<usize>, AllocError>
    ensures { IfOk result (λ terminals.
        AreThose (IsExpected table.now names.now tokens.now) terminals.items) }
{
    let mut terminals = Vec::new(alloc);
    let Some(states) = after(alloc, table, tokens)? else {
        return Ok(terminals);
    };
    for terminal in 0..names.terminals.len() {
        add_if_taken(alloc, table, names, &states, terminal, &mut terminals)?;
    }
    Ok(terminals)
}

/// Returns what a message calls a terminal.
fn shown(alloc: Global, names: &SymbolNames, terminal: usize) -> Result<String, AllocError>
    ensures { IfOk result (λ text. string_bytes text ≡ shown names.now terminal) }
{
    if terminal == 0 {
        return String::from_str(alloc, END);
    }
    String::from_utf8_lossy(alloc, names.terminal(terminal))
}

/// Returns how many others there are, as an item of a list.
fn others(alloc: Global, count: usize) -> Result<String, AllocError>
    ensures { IfOk result (λ text. string_bytes text
        ≡ decimal count ++ codes " other" ++ cond (nat_eq count 1) [] (codes "s")) }
{
    let mut text = count.to_string(alloc)?;
    text.push_str(" other")?;
    if count == 1 {
        return Ok(text);
    }
    text.push_str("s")?;
    Ok(text)
}

/// Returns the first five terminals, and how many others there are, as items of a list.
fn items(alloc: Global, names: &SymbolNames, terminals: &[usize]) -> Result<Vec<String>, AllocError>
    ensures { IfOk result (λ items. map (λ item. string_bytes item) items.items
        ≡ items_of names.now terminals.now) }
{
    let named = terminals.len().min(NAMED);
    let mut items = Vec::new(alloc);
    for place in 0..named {
        items.push(shown(alloc, names, terminals[place])?)?;
    }
    if terminals.len() > NAMED {
        items.push(others(alloc, terminals.len() - NAMED)?)?;
    }
    Ok(items)
}

/// Returns what comes after an item of a list, by how many follow it.
fn separator(left: usize) -> &'static str
    ensures { result.now ≡ separator left }
{
    match left {
        0 => "",
        1 => " or ",
        _ => ", ",
    }
}

/// Returns items as a list in a sentence. Fails if memory runs out.
fn join(alloc: Global, items: &[String]) -> Result<String, AllocError>
    ensures { IfOk result (λ text. string_bytes text
        ≡ joined (map (λ item. string_bytes item) items.now)) }
{
    let mut text = String::new(alloc);
    for place in 0..items.len() {
        text.push_str(&items[place])?;
        text.push_str(separator(items.len() - place - 1))?;
    }
    Ok(text)
}

/// Returns the terminals that a parser takes after tokens, as `NUMBER, '(' or '-'`. If there are more than
/// five, the others are counted. Fails if memory runs out.
pub(crate) fn expected_after(
    alloc: Global,
    table: &Table<'_>,
    names: &SymbolNames,
    tokens: &[usize],
) -> Result<String, AllocError>
    ensures { IfOk result (λ text.
        ListsExpected table.now names.now tokens.now (string_bytes text)) }
{
    let terminals = expected(alloc, table, names, tokens)?;
    join(alloc, &items(alloc, names, &terminals)?)
}
