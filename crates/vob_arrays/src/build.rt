//! The arrays of a table.
ghost use Rattle.std.specs.Prelude.{◌≡◌, ◌⊎◌, ◌↔◌, ℕ, ◌+◌, ◌<◌, [], ◌∷◌, ◌++◌, length, map, slice_index_or, IfOk, OnOk, Some};
ghost use Rattle.vob_lr.specs.Accepting.{Accepts};
ghost use Rattle.vob_arrays.specs.Arrays.{IsActionAt, IsEntry, IsMoveEntry, IsTableOf, IsTerminalEntry, owned_view, right_numbers, right_symbols, symbol_number};
ghost use Rattle.vob_arrays.specs.Building.{Appends, AreBuilt};

use crate::arrays::OwnedArrays;
use crate::code::{ACCEPT, ENTER, REDUCE, code_of};
use std::alloc::{AllocError, Global};
use vob_lr::{Action, Move, Rule, Symbol, Table};

/// An entry of a state: what is done at a symbol.
#[derive(Clone, Copy)]
pub(crate) struct Entry {
    pub symbol: usize,
    pub action: usize,
}

/// Returns how a state is entered at a terminal: whether a parser accepts there.
fn kind_of(table: &Table<'_>, state: usize, terminal: usize) -> usize
    ensures { (Accepts table.now state terminal × (result ≡ 2))
        ⊎ ((¬ Accepts table.now state terminal) × (result ≡ 0)) }
{
    match table.action(state, terminal) {
        Some(Action::Accept) => ACCEPT,
        _ => ENTER,
    }
}

/// Returns what a parser does in a state when a terminal is ahead, or `None` if it does nothing.
fn action_of(table: &Table<'_>, state: usize, terminal: usize) -> Result<Option<usize>, AllocError>
    ensures { IfOk result (λ found. (action : ℕ)
        → (found ≡ Some action) ↔ IsActionAt table.now state terminal action) }
{
    let Some(cell) = table.cell(state, terminal) else {
        return Ok(None);
    };
    match cell.action() {
        Some(Action::Shift(to)) => {
            let code = code_of(to, kind_of(table, state, terminal))?;
            Ok(Some(code))
        }
        Some(Action::Reduce(rule)) => {
            let code = code_of(rule, REDUCE)?;
            Ok(Some(code))
        }
        _ => Ok(None),
    }
}

/// Appends the entry of a state at a terminal, if it has one.
fn push_action(
    table: &Table<'_>,
    state: usize,
    terminal: usize,
    entries: &mut Vec<Entry>,
) -> Result<(), AllocError>
    ensures { OnOk result (Appends
        (λ x a. (x ≡ terminal) × IsActionAt table.now state terminal a)
        entries.old.items entries.new.items) }
{
    if let Some(action) = action_of(table, state, terminal)? {
        entries.push(Entry {
            symbol: terminal,
            action,
        })?;
    }
    Ok(())
}

/// Appends the entries of a state at terminals.
fn push_actions(table: &Table<'_>, state: usize, entries: &mut Vec<Entry>) -> Result<(), AllocError>
    ensures { OnOk result
        (Appends (IsTerminalEntry table.now state) entries.old.items entries.new.items) }
{
    for terminal in 0..table.lookaheads().items().grammar().terminals {
        push_action(table, state, terminal, entries)?;
    }
    Ok(())
}

/// Appends the entry of a move, if it is by a nonterminal.
fn push_move(terminals: usize, own: Move, entries: &mut Vec<Entry>) -> Result<(), AllocError>
    ensures { OnOk result
        (Appends (IsMoveEntry terminals (own ∷ [])) entries.old.items entries.new.items) }
{
    if let Symbol::Nonterminal(nonterminal) = own.symbol {
        let Some(symbol) = terminals.checked_add(nonterminal) else {
            return Err(AllocError);
        };
        let action = code_of(own.state, ENTER)?;
        entries.push(Entry { symbol, action })?;
    }
    Ok(())
}

/// Appends the entries of a state at nonterminals.
fn push_moves(terminals: usize, moves: &[Move], entries: &mut Vec<Entry>) -> Result<(), AllocError>
    ensures { OnOk result
        (Appends (IsMoveEntry terminals moves.now) entries.old.items entries.new.items) }
{
    for own in moves {
        push_move(terminals, *own, entries)?;
    }
    Ok(())
}

/// Appends all entries of a state.
fn push_row(table: &Table<'_>, state: usize, entries: &mut Vec<Entry>) -> Result<(), AllocError>
    ensures { OnOk result
        (Appends (IsEntry table.now state) entries.old.items entries.new.items) }
{
    let terminals = table.lookaheads().items().grammar().terminals;
    push_actions(table, state, entries)?;
    match table.lookaheads().automaton().moves.get(state) {
        Some(moves) => push_moves(terminals, moves, entries),
        None => Ok(()),
    }
}

/// Returns where the entries of each state begin and where the last ones end, and the entries.
fn rows_of(alloc: Global, table: &Table<'_>) -> Result<(Vec<usize>, Vec<Entry>), AllocError>
    ensures { IfOk result (λ made. AreBuilt (IsEntry table.now) (length table.now.machine.sets)
        made.0.items made.1.items) }
{
    let states = table.lookaheads().automaton().sets.len();
    let mut offsets = Vec::new(alloc);
    let mut entries = Vec::new(alloc);
    offsets.push(0)?;
    for state in 0..states {
        push_row(table, state, &mut entries)?;
        offsets.push(entries.len())?;
    }
    Ok((offsets, entries))
}

/// Returns the symbols of some entries.
fn symbols_of(alloc: Global, entries: &[Entry]) -> Result<Vec<usize>, AllocError>
    ensures { IfOk result (λ symbols. symbols.items ≡ map (λ entry. entry.symbol) entries.now) }
{
    entries.iter().map(|entry| entry.symbol).collect(alloc)
}

/// Returns the actions of some entries.
fn actions_of(alloc: Global, entries: &[Entry]) -> Result<Vec<usize>, AllocError>
    ensures { IfOk result (λ actions. actions.items ≡ map (λ entry. entry.action) entries.now) }
{
    entries.iter().map(|entry| entry.action).collect(alloc)
}

/// Returns the symbol of the left side of each rule. Fails if memory runs out, or if no `usize` is a
/// symbol.
fn left_of(alloc: Global, terminals: usize, rules: &[Rule]) -> Result<Vec<usize>, AllocError>
    ensures { IfOk result (λ left. left.items ≡ map (λ rule. terminals + rule.left) rules.now) }
{
    let mut left = Vec::with_capacity(alloc, rules.len())?;
    for rule in rules {
        let Some(symbol) = terminals.checked_add(rule.left) else {
            return Err(AllocError);
        };
        left.push(symbol)?;
    }
    Ok(left)
}

/// Returns the number of symbols on the right side of each rule.
fn lengths_of(alloc: Global, rules: &[Rule]) -> Result<Vec<usize>, AllocError>
    ensures { IfOk result (λ lengths.
        lengths.items ≡ map (λ rule. length rule.right.items) rules.now) }
{
    rules.iter().map(|rule| rule.right.len()).collect(alloc)
}

/// Returns the number of a symbol. Fails if no `usize` is that number.
fn number_of(terminals: usize, symbol: Symbol) -> Result<usize, AllocError>
    ensures { IfOk result (λ number. number ≡ symbol_number terminals symbol) }
{
    match symbol {
        Symbol::Terminal(terminal) => Ok(terminal),
        Symbol::Nonterminal(nonterminal) => terminals.checked_add(nonterminal).ok_or(AllocError),
    }
}

/// Appends the numbers of some symbols.
fn push_symbols(
    terminals: usize,
    symbols: &[Symbol],
    numbers: &mut Vec<usize>,
) -> Result<(), AllocError>
    ensures { OnOk result (numbers.new.items
        ≡ numbers.old.items ++ map (symbol_number terminals) symbols.now) }
{
    for symbol in symbols {
        let number = number_of(terminals, *symbol)?;
        numbers.push(number)?;
    }
    Ok(())
}

/// Returns the symbols on the right sides of all rules, rule by rule. Fails if memory runs out, or if
/// no `usize` is a symbol.
fn right_of(alloc: Global, terminals: usize, rules: &[Rule]) -> Result<Vec<usize>, AllocError>
    ensures { IfOk result (λ right. right.items ≡ right_numbers terminals rules.now) }
{
    let mut right = Vec::new(alloc);
    for rule in rules {
        push_symbols(terminals, &rule.right, &mut right)?;
    }
    Ok(right)
}

/// Returns the arrays of a table.
///
/// Fails if memory runs out, or if the terminals, the nonterminals or the states are too many for the
/// numbers of `usize`.
pub fn arrays_of(alloc: Global, table: &Table<'_>) -> Result<OwnedArrays, AllocError>
    ensures table { IfOk result (λ arrays. IsTableOf table.now (owned_view arrays)) }
    ensures right { IfOk result (λ arrays. arrays.right.items ≡ right_symbols table.now) }
{
    let grammar = table.lookaheads().items().grammar();
    let (offsets, entries) = rows_of(alloc, table)?;
    Ok(OwnedArrays {
        terminals: grammar.terminals,
        offsets,
        symbols: symbols_of(alloc, &entries)?,
        actions: actions_of(alloc, &entries)?,
        left: left_of(alloc, grammar.terminals, &grammar.rules)?,
        lengths: lengths_of(alloc, &grammar.rules)?,
        right: right_of(alloc, grammar.terminals, &grammar.rules)?,
    })
}
