//! The conflicts of a table, counted as in bison.
ghost use Rattle.std.specs.Prelude.{◌≡◌, ◌↔◌, ◌+◌, ◌-◌, ◌<◌, [], length, min, None, slice_get, slice_index_or, All, IfNone, IfOk, IfSome, IsTrue, OnOk};
ghost use Rattle.std.specs.Io.KnownBytes.{Appends};
ghost use Rattle.files_text.specs.Printed.{Writes};
ghost use Rattle.vob_lr.specs.Conflicts.{action_count};
ghost use Rattle.vob_lr.specs.Entered.{IsEntered};
ghost use Rattle.vob_lr.specs.Lookaheads.{Reduces};
ghost use Rattle.vob_lr.specs.Tables.{chosen};
ghost use Rattle.vob_lr.specs.Those.{AreThose};
ghost use Rattle.files_grammar.specs.ConflictText.{AreExpected, SaysConflict, SaysConflicts, error_text, place_text, rule_count, shift_count};
ghost use Rattle.files_grammar.specs.Conflicts.{AreConflicts, AreLeft, CanShift, IsChoice, decision, decision_by, decision_in, left_by_error};
ghost use Rattle.files_grammar.specs.ConflictsFound.{AreFoundBefore, ArePrintable, IsCountOf};

use crate::actions::put_actions;
use crate::file::{GrammarFile, SymbolNames};
use crate::state_text::{count_of, terminals_of};
use crate::states::States;
use files_text::{end_line, put_next};
use std::alloc::{AllocError, Global};
use std::io;
use std::io::Write;
use std::marker::Model;
use vob_lr::{Associativity, Cell, Lookaheads, Precedence, Symbol, Table};

/// What is left to a parser in a state if a terminal is ahead: to shift and enter a state, to fail
/// since precedence says so, and to reduce by some rules. It does what comes first.
#[derive(Drop)]
struct Choice {
    state: usize,
    terminal: usize,
    shift: Option<usize>,
    is_error: bool,
    rules: Vec<usize>,
}

impl Model for Choice {
    ghost use Rattle.files_grammar.specs.Conflicts.{Choice as Seen};

    ghost Value = { Seen };

    ghost view = { λ choice. record {
      state = choice.state;
      terminal = choice.terminal;
      shift = choice.shift;
      is_error = choice.is_error;
      rules = choice.rules.items;
    } };
}

/// The conflicts of a table, and how many there are: cells with a shift and a reduction, and
/// reductions that are too many in their cells. No count exceeds `usize::MAX`.
#[derive(Drop)]
pub struct Conflicts {
    pub shift_reduce: usize,
    pub reduce_reduce: usize,
    choices: Vec<Choice>,
}

/// What precedence leaves of a shift and a rule.
#[derive(Clone, Copy, PartialEq, Eq)]
enum Decided {
    One,
    Both,
    Neither,
}

/// Returns what precedence leaves of a shift and a rule that bind alike.
fn decide_alike(associativity: Associativity) -> Decided
    ensures { result ≡ decision_by associativity }
{
    match associativity {
        Associativity::Neither => Decided::Neither,
        Associativity::Unstated => Decided::Both,
        Associativity::Left => Decided::One,
        Associativity::Right => Decided::One,
    }
}

/// Returns what precedence leaves of a shift and a rule.
fn decide(rule: Option<Precedence>, terminal: Option<Precedence>) -> Decided
    ensures { result ≡ decision rule terminal }
{
    let Some(rule) = rule else {
        return Decided::Both;
    };
    let Some(terminal) = terminal else {
        return Decided::Both;
    };
    if rule.level == terminal.level {
        return decide_alike(terminal.associativity);
    }
    Decided::One
}

/// Returns what a file's precedences leave of a shift of a terminal and a rule.
fn decide_in(file: &GrammarFile, terminal: usize, rule: usize) -> Decided
    ensures { result ≡ decision_in file.now terminal rule }
{
    decide(file.rule_precedence(rule), file.precedence(terminal))
}

/// Returns how many rules there are.
fn count_of_rules(states: &Lookaheads<'_>) -> usize
    ensures { result ≡ length states.now.grammar.rules.items }
{
    states.items().grammar().rules.len()
}

/// Returns the rules by which a parser may reduce in a state if a terminal is ahead.
fn rules_at(
    alloc: Global,
    states: &Lookaheads<'_>,
    state: usize,
    terminal: usize,
) -> Result<Vec<usize>, AllocError>
    ensures { IfOk result (λ rules. AreThose (Reduces states.now state terminal) rules.items) }
{
    let mut rules = Vec::new(alloc);
    for rule in 0..count_of_rules(states) {
        if states.reduces(state, terminal, rule) {
            rules.push(rule)?;
        }
    }
    Ok(rules)
}

/// Returns the rules that bison leaves in a cell that precedence makes an error. It compares each
/// rule with the shift, until one removes the shift and goes itself. The rules after that one stay,
/// and of those before it the ones of which precedence says nothing.
fn left_by_error(
    alloc: Global,
    file: &GrammarFile,
    terminal: usize,
    rules: &[usize],
) -> Result<Vec<usize>, AllocError>
    ensures { IfOk result (λ left. left.items
        ≡ left_by_error (decision_in file.now terminal) rules.now) }
{
    let mut left = Vec::new(alloc);
    for place in 0..rules.len() {
        match decide_in(file, terminal, rules[place]) {
            Decided::One => {}
            Decided::Both => left.push(rules[place])?,
            Decided::Neither => {
                left.extend_from_slice(&rules[place + 1..])?;
                return Ok(left);
            }
        }
    }
    Ok(left)
}

/// Returns whether a parser could shift a terminal in a state, by the moves alone.
fn can_shift(states: &Lookaheads<'_>, state: usize, terminal: usize) -> bool
    ensures { IsTrue result ↔ CanShift states.now state terminal }
{
    let Some(_) = states.next(state, Symbol::Terminal(terminal)) else {
        return false;
    };
    true
}

/// Returns whether a cell has no action.
fn has_none(cell: &Cell) -> bool
    ensures { IsTrue result ↔ (chosen cell.now.shift cell.now.reduces.items ≡ None) }
{
    cell.action().is_none()
}

/// Returns whether precedence makes a cell an error: it has no action, and a parser could shift the
/// terminal by the moves alone.
fn is_error(states: &Lookaheads<'_>, cell: &Cell, state: usize, terminal: usize) -> bool
    ensures { IsTrue result ↔ ((chosen cell.now.shift cell.now.reduces.items ≡ None)
        × CanShift states.now state terminal) }
{
    has_none(cell) && can_shift(states, state, terminal)
}

/// Returns the rules that bison leaves in a cell.
fn rules_left(
    alloc: Global,
    file: &GrammarFile,
    table: &Table<'_>,
    cell: &Cell,
    place: (usize, usize),
    is_error: bool,
) -> Result<Vec<usize>, AllocError>
    ensures { IfOk result (λ rules.
        AreLeft file.now table.now place.0 place.1 cell.now is_error rules.items) }
{
    if !is_error {
        return cell.reduces.to_vec(alloc);
    }
    let (state, terminal) = place;
    let all = rules_at(alloc, table.lookaheads(), state, terminal)?;
    left_by_error(alloc, file, terminal, &all)
}

/// Returns what is left to a parser in a state if a terminal is ahead, or `None` if there is no
/// such state or terminal.
fn choice_of(
    alloc: Global,
    file: &GrammarFile,
    table: &Table<'_>,
    state: usize,
    terminal: usize,
) -> Result<Option<Choice>, AllocError>
    ensures some { IfOk result (λ found. IfSome found (λ choice. IsChoice file.now table.now choice
        × (choice.state ≡ state) × (choice.terminal ≡ terminal))) }
    ensures none { IfOk result (λ found. IfNone found
        (slice_get (slice_index_or table.now.cells state []) terminal ≡ None)) }
{
    let Some(cell) = table.cell(state, terminal) else {
        return Ok(None);
    };
    let states = table.lookaheads();
    let is_error = is_error(states, cell, state, terminal);
    let rules = rules_left(alloc, file, table, cell, (state, terminal), is_error)?;
    Ok(Some(Choice {
        state,
        terminal,
        shift: cell.shift,
        is_error,
        rules,
    }))
}

impl Choice {
    /// Returns whether there is more than one thing to do.
    fn is_conflict(&self) -> bool
        ensures { IsTrue result ↔ (1 < action_count self.now.shift self.now.rules) }
    {
        match self.shift {
            Some(_) => !self.rules.is_empty(),
            None => self.rules.len() > 1,
        }
    }

    /// Returns the state.
    fn state(&self) -> usize
        ensures { result ≡ self.now.state }
    {
        self.state
    }

    /// Returns the state of the shift, if there is one.
    fn shift(&self) -> Option<usize>
        ensures { result ≡ self.now.shift }
    {
        self.shift
    }

    /// Returns the rules.
    fn rules(&self) -> &[usize]
        ensures { result.now ≡ self.now.rules }
    {
        &self.rules
    }

    /// Returns how many rules are too many.
    fn surplus(&self) -> usize
        ensures { result ≡ length self.now.rules - 1 }
    {
        self.rules.len().saturating_sub(1)
    }

    /// Writes the number of the state, the terminal, and the words for an error if there is one.
    fn put_place<W: Write>(
        &self,
        output: &mut W,
        names: &SymbolNames,
        state: usize,
    ) -> io::Result<()>
        ensures { OnOk result (Appends (W.contents output.old) (W.contents output.new)
            (place_text names.now state self.now)) }
    {
        write!(output, "state {state}:")?;
        put_next(output, names.terminal(self.terminal))?;
        put_error(output, self.is_error)
    }

    /// Writes what a parser may do. A parser must enter the state, and that of the shift.
    fn put<W: Write>(&self, output: &mut W, names: &SymbolNames, states: &States) -> io::Result<()>
        requires { ArePrintable states.now self.now }
        ensures { OnOk result (Writes (W.contents output.old) (W.contents output.new)
            (SaysConflict names.now states.now self.now)) }
    {
        let Some(number) = states.number(self.state()) else {
            return Ok(());
        };
        self.put_place(output, names, number)?;
        put_actions(output, states, self.shift(), self.rules(), " or")?;
        end_line(output)?;
        Ok(())
    }
}

/// Writes the words for an error if there is one.
fn put_error<W: Write>(output: &mut W, is_error: bool) -> io::Result<()>
    ensures { OnOk result (Appends (W.contents output.old) (W.contents output.new)
        (error_text is_error)) }
{
    if is_error {
        return output.write_all(b" error or");
    }
    Ok(())
}

/// Adds the conflict of a state and a terminal, if there is one.
fn add_choice(
    alloc: Global,
    file: &GrammarFile,
    table: &Table<'_>,
    state: usize,
    terminal: usize,
    choices: &mut Vec<Choice>,
) -> Result<(), AllocError>
    requires entered { IsEntered table.now state }
    requires before { AreFoundBefore file.now table.now state terminal choices.old.items }
    ensures { OnOk result
        (AreFoundBefore file.now table.now state (terminal + 1) choices.new.items) }
{
    let found = choice_of(alloc, file, table, state, terminal)?;
    let Some(choice) = found else {
        return Ok(());
    };
    if !choice.is_conflict() {
        return Ok(());
    }
    choices.push(choice)?;
    Ok(())
}

/// Adds the conflicts of a state that a parser may enter.
fn add_state(
    alloc: Global,
    file: &GrammarFile,
    table: &Table<'_>,
    state: usize,
    choices: &mut Vec<Choice>,
) -> Result<(), AllocError>
    requires entered { IsEntered table.now state }
    requires before { AreFoundBefore file.now table.now state 0 choices.old.items }
    ensures { OnOk result (AreFoundBefore file.now table.now (state + 1) 0 choices.new.items) }
{
    for terminal in 0..terminals_of(table) {
        add_choice(alloc, file, table, state, terminal, choices)?;
    }
    // A proof knows from this call that no cell is behind the last terminal.
    let _states = table.lookaheads();
    Ok(())
}

/// Adds the conflicts of a state if a parser may enter it.
fn add_if_entered(
    alloc: Global,
    file: &GrammarFile,
    table: &Table<'_>,
    states: &States,
    state: usize,
    choices: &mut Vec<Choice>,
) -> Result<(), AllocError>
    requires entered { AreThose (IsEntered table.now) states.now }
    requires before { AreFoundBefore file.now table.now state 0 choices.old.items }
    ensures { OnOk result (AreFoundBefore file.now table.now (state + 1) 0 choices.new.items) }
{
    let Some(_) = states.number(state) else {
        return Ok(());
    };
    add_state(alloc, file, table, state, choices)?;
    Ok(())
}

/// Finds the conflicts in the states that a parser may enter.
fn find_choices(
    alloc: Global,
    file: &GrammarFile,
    table: &Table<'_>,
    states: &States,
) -> Result<Vec<Choice>, AllocError>
    requires { AreThose (IsEntered table.now) states.now }
    ensures { IfOk result (λ choices. AreConflicts file.now table.now choices.items) }
{
    let lookaheads = table.lookaheads();
    let count = count_of(lookaheads);
    let mut choices = Vec::new(alloc);
    for state in 0..count {
        add_if_entered(alloc, file, table, states, state, &mut choices)?;
    }
    Ok(choices)
}

/// Returns how many choices have a shift.
fn count_shifts(choices: &[Choice]) -> usize
    ensures { result ≡ shift_count choices.now }
{
    choices
        .iter()
        .filter(|choice| choice.shift.is_some())
        .count()
}

/// Returns how many rules are too many, at most `usize::MAX`.
fn count_rules(choices: &[Choice]) -> usize
    ensures { result ≡ min (rule_count choices.now) usize.MAX }
{
    let mut count: usize = 0;
    for place in 0..choices.len() {
        count = count.saturating_add(choices[place].surplus());
    }
    count
}

impl Conflicts {
    /// Finds the conflicts of the table of a file, in the states that a parser may enter. Fails if
    /// memory runs out.
    pub fn of(
        alloc: Global,
        file: &GrammarFile,
        table: &Table<'_>,
        states: &States,
    ) -> Result<Conflicts, AllocError>
        requires { AreThose (IsEntered table.now) states.now }
        ensures { IfOk result (IsCountOf file.now table.now) }
    {
        let choices = find_choices(alloc, file, table, states)?;
        Ok(Conflicts {
            shift_reduce: count_shifts(&choices),
            reduce_reduce: count_rules(&choices),
            choices,
        })
    }

    /// Returns whether these are those that a grammar file expects: none if it says nothing.
    pub fn are(&self, expected: (Option<usize>, Option<usize>)) -> bool
        ensures { IsTrue result
            ↔ AreExpected expected self.now.shift_reduce self.now.reduce_reduce }
    {
        self.shift_reduce == expected.0.unwrap_or(0)
            && self.reduce_reduce == expected.1.unwrap_or(0)
    }

    /// Writes the conflicts, one a line: the state, the terminal, and what a parser may do.
    pub fn put<W: Write>(
        &self,
        output: &mut W,
        names: &SymbolNames,
        states: &States,
    ) -> io::Result<()>
        requires { All (ArePrintable states.now) self.now.choices.items }
        ensures { OnOk result (Writes (W.contents output.old) (W.contents output.new)
            (SaysConflicts names.now states.now self.now.choices.items)) }
    {
        for place in 0..self.choices.len() {
            self.choices[place].put(output, names, states)?;
        }
        Ok(())
    }
}
