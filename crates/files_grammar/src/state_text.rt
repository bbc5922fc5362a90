//! The states that a parser may enter, as text.
ghost use Rattle.std.specs.Prelude.{◌≡◌, ◌↔◌, ◌++◌, ◌<◌, ◌≤◌, [], codes, length, slice_get, slice_index_or, Contains, IfSome, IsTrue, OnOk, Some};
ghost use Rattle.std.specs.Fmt.{decimal};
ghost use Rattle.std.specs.List.{range_with_len};
ghost use Rattle.std.specs.Io.KnownBytes.{Appends};
ghost use Rattle.files_text.specs.Printed.{Writes, line_end, members};
ghost use Rattle.vob_lr.specs.Entered.{IsEntered};
ghost use Rattle.vob_lr.specs.Items.{IsItem, item_total};
ghost use Rattle.vob_lr.specs.ItemSets.{HasItem};
ghost use Rattle.vob_lr.specs.Those.{AreThose};
ghost use Rattle.files_grammar.specs.Rules.{nonterminal_name, terminal_name};
ghost use Rattle.files_grammar.specs.SetText.{terminals_text};
ghost use Rattle.files_grammar.specs.ActionText.{SaysCell, SaysCellAt};
ghost use Rattle.files_grammar.specs.ItemText.{CanReduce, IsShown, SaysAhead, SaysItem, SaysItemAt};
ghost use Rattle.files_grammar.specs.StateText.{IsGoto, SaysMove, SaysState, SaysStates};
ghost use Rattle.files_grammar.specs.Texts.{AreTexts, SaysIf};

use crate::actions::put_actions;
use crate::file::SymbolNames;
use crate::rules::put_dotted;
use crate::sets::put_terminals;
use crate::states::States;
use files_text::{end_line, put_name};
use std::io;
use std::io::Write;
use vob_lr::{Cell, Item, Lookaheads, Move, Rule, Symbol, Table};
use vob_rows::Row;

/// Returns whether an item is shown: its dot is after a symbol, it is the start, or its dot is
/// after all symbols.
fn is_shown(rule: &Rule, item: Item) -> bool
    requires { item.dot ≤ length rule.now.right.items }
    ensures { IsTrue result ↔ IsShown rule.now item }
{
    item.dot > 0 || item.rule == 0 || item.dot >= rule.right.len()
}

/// Returns whether a parser reduces by an item: its dot is after all symbols, and it isn't of
/// rule 0.
fn can_reduce(rule: &Rule, item: Item) -> bool
    requires { item.dot ≤ length rule.now.right.items }
    ensures { IsTrue result ↔ CanReduce rule.now item }
{
    item.dot >= rule.right.len() && item.rule > 0
}

/// Writes the names of terminals in brackets.
fn put_bracketed<W: Write>(output: &mut W, names: &SymbolNames, set: &Row<'_>) -> io::Result<()>
    ensures { OnOk result (Appends (W.contents output.old) (W.contents output.new)
        (codes "  [" ++ terminals_text names.now (members set.now) ++ codes " ]")) }
{
    output.write_all(b"  [")?;
    put_terminals(output, names, set)?;
    output.write_all(b" ]")
}

/// Writes the lookaheads of an item of a state in brackets.
fn put_ahead<W: Write>(
    output: &mut W,
    names: &SymbolNames,
    states: &Lookaheads<'_>,
    state: usize,
    number: usize,
) -> io::Result<()>
    requires { HasItem states.now.sets state number }
    ensures { OnOk result (Writes (W.contents output.old) (W.contents output.new)
        (SaysAhead states.now names.now state number)) }
{
    let Some(set) = states.of(state, number) else {
        return Ok(());
    };
    put_bracketed(output, names, &set)?;
    Ok(())
}

/// Writes them if a parser reduces by the item.
fn put_ahead_if<W: Write>(
    output: &mut W,
    names: &SymbolNames,
    states: &Lookaheads<'_>,
    state: usize,
    number: usize,
    is_wanted: bool,
) -> io::Result<()>
    requires { HasItem states.now.sets state number }
    ensures { OnOk result (Writes (W.contents output.old) (W.contents output.new)
        (SaysIf (IsTrue is_wanted) (SaysAhead states.now names.now state number))) }
{
    if !is_wanted {
        return Ok(());
    }
    put_ahead(output, names, states, state, number)?;
    Ok(())
}

/// Returns the item with a number, which must be one.
fn item_of(states: &Lookaheads<'_>, number: usize) -> Item
    requires { number < item_total states.now.grammar.rules.items }
    ensures { IsItem states.now.grammar.rules.items number result }
{
    states.items().item(number)
}

/// Returns the rule with a number, which must be one.
fn rule_of<'s>(states: &'s Lookaheads<'_>, number: usize) -> &'s Rule
    requires { number < length states.now.grammar.rules.items }
    ensures { slice_get states.now.grammar.rules.items number ≡ Some result.now }
{
    &states.items().grammar().rules[number]
}

/// Writes the line of an item of a state, if it is shown.
fn put_item<W: Write>(
    output: &mut W,
    names: &SymbolNames,
    states: &Lookaheads<'_>,
    state: usize,
    number: usize,
) -> io::Result<()>
    requires there { HasItem states.now.sets state number }
    requires number { number < item_total states.now.grammar.rules.items }
    ensures { OnOk result (Writes (W.contents output.old) (W.contents output.new)
        (SaysItem states.now names.now state number)) }
{
    let item = item_of(states, number);
    let rule = rule_of(states, item.rule);
    if !is_shown(rule, item) {
        return Ok(());
    }
    put_dotted(output, names, rule, item.dot)?;
    put_ahead_if(output, names, states, state, number, can_reduce(rule, item))?;
    end_line(output)?;
    Ok(())
}

/// Writes that of a number, which may be one of no item.
fn put_number<W: Write>(
    output: &mut W,
    names: &SymbolNames,
    states: &Lookaheads<'_>,
    state: usize,
    number: usize,
) -> io::Result<()>
    requires { HasItem states.now.sets state number }
    ensures { OnOk result (Writes (W.contents output.old) (W.contents output.new)
        (SaysItemAt states.now names.now state number)) }
{
    if number >= states.items().len() {
        return Ok(());
    }
    put_item(output, names, states, state, number)?;
    Ok(())
}

/// Returns the numbers of the items of a state, which must be one.
fn set_of<'s>(states: &'s Lookaheads<'_>, state: usize) -> &'s [usize]
    requires { state < length states.now.sets }
    ensures { result.now ≡ slice_index_or states.now.sets state [] }
{
    let set = &states.automaton().sets[state];
    set
}

/// Writes the items of a state that are shown, one a line.
fn put_items<W: Write>(
    output: &mut W,
    names: &SymbolNames,
    states: &Lookaheads<'_>,
    state: usize,
) -> io::Result<()>
    requires { state < length states.now.sets }
    ensures { OnOk result (Writes (W.contents output.old) (W.contents output.new)
        (AreTexts (SaysItemAt states.now names.now state)
        (slice_index_or states.now.sets state []))) }
{
    let set = set_of(states, state);
    for number in set {
        put_number(output, names, states, state, *number)?;
    }
    Ok(())
}

/// Writes the name of a terminal, before its actions.
fn put_terminal<W: Write>(output: &mut W, names: &SymbolNames, terminal: usize) -> io::Result<()>
    ensures { OnOk result (Appends (W.contents output.old) (W.contents output.new)
        (codes "  " ++ terminal_name names.now terminal)) }
{
    output.write_all(b"  ")?;
    put_name(output, names.terminal(terminal))
}

/// Writes what a parser may do if a terminal is ahead, the action that it takes first. A parser
/// must enter the state of a shift.
fn put_cell<W: Write>(
    output: &mut W,
    names: &SymbolNames,
    states: &States,
    terminal: usize,
    cell: &Cell,
) -> io::Result<()>
    requires { IfSome cell.now.shift (Contains states.now) }
    ensures { OnOk result (Writes (W.contents output.old) (W.contents output.new)
        (SaysCell names.now states.now terminal cell.now)) }
{
    let Some(_) = cell.action() else {
        return Ok(());
    };
    put_terminal(output, names, terminal)?;
    put_actions(output, states, cell.shift, &cell.reduces, ",")?;
    end_line(output)?;
    Ok(())
}

/// Writes the same of a state.
fn put_cell_at<W: Write>(
    output: &mut W,
    names: &SymbolNames,
    table: &Table<'_>,
    states: &States,
    state: usize,
    terminal: usize,
) -> io::Result<()>
    requires entered { AreThose (IsEntered table.now) states.now }
    requires state { IsEntered table.now state }
    ensures { OnOk result (Writes (W.contents output.old) (W.contents output.new)
        (SaysCellAt table.now names.now states.now state terminal)) }
{
    // A proof knows from this call that each shift is a move.
    let _states = table.lookaheads();
    let Some(cell) = table.cell(state, terminal) else {
        return Ok(());
    };
    put_cell(output, names, states, terminal, cell)?;
    Ok(())
}

/// Returns how many terminals the grammar of a table has.
pub(crate) fn terminals_of(table: &Table<'_>) -> usize
    ensures { result ≡ table.now.machine.grammar.terminals }
{
    table.lookaheads().items().grammar().terminals
}

/// Returns how many states there are.
pub(crate) fn count_of(states: &Lookaheads<'_>) -> usize
    ensures { result ≡ length states.now.sets }
{
    states.automaton().sets.len()
}

/// Writes what a parser may do in a state.
fn put_cells<W: Write>(
    output: &mut W,
    names: &SymbolNames,
    table: &Table<'_>,
    states: &States,
    state: usize,
) -> io::Result<()>
    requires entered { AreThose (IsEntered table.now) states.now }
    requires state { IsEntered table.now state }
    ensures { OnOk result (Writes (W.contents output.old) (W.contents output.new)
        (AreTexts (SaysCellAt table.now names.now states.now state)
        (range_with_len 0 table.now.machine.grammar.terminals))) }
{
    for terminal in 0..terminals_of(table) {
        put_cell_at(output, names, table, states, state, terminal)?;
    }
    Ok(())
}

/// Writes the state with a number that follows once a nonterminal is read.
fn put_goto<W: Write>(
    output: &mut W,
    names: &SymbolNames,
    nonterminal: usize,
    number: usize,
) -> io::Result<()>
    ensures { OnOk result (Appends (W.contents output.old) (W.contents output.new)
        (codes "  " ++ nonterminal_name names.now nonterminal ++ codes " goto "
        ++ decimal number ++ line_end)) }
{
    output.write_all(b"  ")?;
    put_name(output, names.nonterminal(nonterminal))?;
    writeln!(output, " goto {number}")
}

/// Writes the state that follows by a move, if that is by a nonterminal. A parser must enter it.
fn put_move<W: Write>(
    output: &mut W,
    names: &SymbolNames,
    states: &States,
    own: Move,
) -> io::Result<()>
    requires { IsGoto own.symbol → Contains states.now own.state }
    ensures { OnOk result (Writes (W.contents output.old) (W.contents output.new)
        (SaysMove names.now states.now own)) }
{
    let Symbol::Nonterminal(nonterminal) = own.symbol else {
        return Ok(());
    };
    let Some(number) = states.number(own.state) else {
        return Ok(());
    };
    put_goto(output, names, nonterminal, number)?;
    Ok(())
}

/// Returns the moves of a state, which must be one.
fn moves_of<'s>(states: &'s Lookaheads<'_>, state: usize) -> &'s [Move]
    requires { state < length states.now.sets }
    ensures { result.now ≡ slice_index_or states.now.moves state [] }
{
    let moves = &states.automaton().moves[state];
    moves
}

/// Writes the states that follow a state once a nonterminal is read.
fn put_moves<W: Write>(
    output: &mut W,
    names: &SymbolNames,
    table: &Table<'_>,
    states: &States,
    state: usize,
) -> io::Result<()>
    requires entered { AreThose (IsEntered table.now) states.now }
    requires state { IsEntered table.now state }
    requires inside { state < length table.now.machine.sets }
    ensures { OnOk result (Writes (W.contents output.old) (W.contents output.new)
        (AreTexts (SaysMove names.now states.now)
        (slice_index_or table.now.machine.moves state []))) }
{
    let lookaheads = table.lookaheads();
    let moves = moves_of(lookaheads, state);
    for own in moves {
        put_move(output, names, states, *own)?;
    }
    Ok(())
}

/// Writes the number of a state, after an empty line.
fn put_state_number<W: Write>(output: &mut W, number: usize) -> io::Result<()>
    ensures { OnOk result (Appends (W.contents output.old) (W.contents output.new)
        (line_end ++ codes "state " ++ decimal number ++ line_end)) }
{
    writeln!(output, "\nstate {number}")
}

/// Writes the lines of a state with a number: its items, and what a parser may do.
fn put_state<W: Write>(
    output: &mut W,
    names: &SymbolNames,
    table: &Table<'_>,
    states: &States,
    number: usize,
) -> io::Result<()>
    requires entered { AreThose (IsEntered table.now) states.now }
    requires number { number < length states.now }
    ensures { OnOk result (Writes (W.contents output.old) (W.contents output.new)
        (SaysState table.now names.now states.now number)) }
{
    let state = states.state(number);
    let lookaheads = table.lookaheads();
    put_state_number(output, number)?;
    put_items(output, names, lookaheads, state)?;
    put_cells(output, names, table, states, state)?;
    put_moves(output, names, table, states, state)?;
    Ok(())
}

/// Writes the states that a parser may enter: the items of each, and what a parser may do.
pub(crate) fn put_states<W: Write>(
    output: &mut W,
    names: &SymbolNames,
    table: &Table<'_>,
    states: &States,
) -> io::Result<()>
    requires { AreThose (IsEntered table.now) states.now }
    ensures { OnOk result (Writes (W.contents output.old) (W.contents output.new)
        (SaysStates table.now names.now states.now)) }
{
    for number in 0..states.count() {
        put_state(output, names, table, states, number)?;
    }
    Ok(())
}
