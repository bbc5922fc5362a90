//! A parser that takes tokens one after another, and the token before which it never ends.
ghost use Rattle.std.specs.Prelude.{◌≡◌, ◌⊎◌, [], ◌∷◌, None, Some, drop, reverse, slice_get, IfNone, IfOk, IfSome, IsTrue};
ghost use Rattle.vob_lr.specs.Parses.{top};
ghost use Rattle.vob_lr.specs.Tables.{chosen_at};
ghost use Rattle.files_parse.specs.Fitting.{NeverEnds};
ghost use Rattle.files_parse.specs.Marks.{HasMark, MayKeep, Repeats};
ghost use Rattle.files_parse.specs.Stacks.{Becomes, IsReduced, IsStep};

use std::alloc::{AllocError, Global};
use vob_lr::{Action, Rule, Symbol, Table};

/// What an action does.
#[derive(Clone, Copy, PartialEq, Eq)]
enum Step {
    Reduced,
    Shifted,
    Nothing,
}

/// What becomes of a token.
#[derive(Clone, Copy, PartialEq, Eq)]
pub(crate) enum Outcome {
    Taken,
    Refused,
    // The parser reduces without end.
    Endless,
}

/// The two newest states of a stack, and how many are below them.
#[derive(Clone, Copy)]
struct Mark {
    state: usize,
    below: usize,
    depth: usize,
}

/// Returns the newest state.
fn newest(states: &[usize]) -> usize
    ensures { result ≡ top (reverse states.now) }
{
    match states.last() {
        Some(state) => *state,
        None => 0,
    }
}

/// Returns the action of a state if a terminal is ahead, or `None` if there is none.
fn action(table: &Table<'_>, state: usize, terminal: usize) -> Option<Action>
    ensures { result ≡ chosen_at table.now.cells state terminal }
{
    table.cell(state, terminal)?.action()
}

/// Returns the rule with a number, or `None` if there is none.
fn rule_at<'a>(table: &'a Table<'_>, number: usize) -> Option<&'a Rule>
    ensures some { IfSome result (λ rule.
        slice_get table.now.machine.grammar.rules.items number ≡ Some rule.now) }
    ensures none { IfNone result (slice_get table.now.machine.grammar.rules.items number ≡ None) }
{
    table.lookaheads().items().grammar().rules.get(number)
}

/// Leaves the newest states.
fn leave(states: &mut Vec<usize>, count: usize)
    ensures { reverse states.new.items ≡ drop count (reverse states.old.items) }
{
    let left = states.len().saturating_sub(count);
    states.truncate(left);
}

/// Reduces by a rule. Returns whether a state follows by it.
fn reduce(table: &Table<'_>, number: usize, states: &mut Vec<usize>) -> Result<bool, AllocError>
    ensures { IfOk result (IsReduced table.now number
        (reverse states.old.items) (reverse states.new.items)) }
{
    let Some(rule) = rule_at(table, number) else {
        return Ok(false);
    };
    leave(states, rule.right.len());
    let symbol = Symbol::Nonterminal(rule.left);
    let Some(state) = table.lookaheads().next(newest(states), symbol) else {
        return Ok(false);
    };
    states.push(state)?;
    Ok(true)
}

/// Does what the table says if a terminal is ahead.
fn act(table: &Table<'_>, terminal: usize, states: &mut Vec<usize>) -> Result<Step, AllocError>
    ensures { IfOk result (IsStep table.now terminal
        (reverse states.old.items) (reverse states.new.items)) }
{
    match action(table, newest(states), terminal) {
        Some(Action::Shift(state)) => {
            states.push(state)?;
            Ok(Step::Shifted)
        }
        Some(Action::Reduce(rule)) => {
            if reduce(table, rule, states)? {
                return Ok(Step::Reduced);
            }
            Ok(Step::Nothing)
        }
        Some(Action::Accept) => Ok(Step::Nothing),
        None => Ok(Step::Nothing),
    }
}

/// Returns the two newest states, or `None` if there are fewer.
fn mark_of(states: &[usize]) -> Option<Mark>
    ensures { HasMark (reverse states.now) result }
{
    if states.len() < 2 {
        return None;
    }
    let depth = states.len() - 2;
    Some(Mark {
        state: states[depth + 1],
        below: states[depth],
        depth,
    })
}

/// Returns whether two states are on top again, and nothing below them was left in between.
fn repeats(mark: Option<Mark>, now: Option<Mark>) -> bool
    ensures { IsTrue result → Repeats mark now }
{
    let (Some(mark), Some(now)) = (mark, now) else {
        return false;
    };
    now.state == mark.state && now.below == mark.below && now.depth >= mark.depth
}

/// Returns which of two marks to go on with. The older one stays, unless something below it was left,
/// or the number of steps is a power of two.
fn newer(mark: Option<Mark>, now: Option<Mark>, count: usize) -> Option<Mark>
    ensures { (result ≡ now) ⊎ MayKeep mark now result }
{
    let (Some(own), Some(other)) = (mark, now) else {
        return now;
    };
    if other.depth < own.depth || count.is_power_of_two() {
        return now;
    }
    mark
}

/// Takes a token: reduces until it is shifted, or no action follows.
///
/// If two states are on top again, and nothing below them was left in between, what led there leads on
/// without end. Each run without end is found so, as the marked states change ever more seldom.
pub(crate) fn take(
    table: &Table<'_>,
    terminal: usize,
    states: &mut Vec<usize>,
) -> Result<Outcome, AllocError>
    ensures { IfOk result (Becomes table.now terminal
        (reverse states.old.items) (reverse states.new.items)) }
{
    let mut mark = mark_of(states);
    for count in 0..usize::MAX {
        match act(table, terminal, states)? {
            Step::Shifted => return Ok(Outcome::Taken),
            Step::Nothing => return Ok(Outcome::Refused),
            Step::Reduced => {}
        }
        let now = mark_of(states);
        if repeats(mark, now) {
            return Ok(Outcome::Endless);
        }
        mark = newer(mark, now, count);
    }
    // So many rules don't fit in memory.
    Err(AllocError)
}

/// Returns the states of a parser that has taken nothing.
pub(crate) fn start(alloc: Global) -> Result<Vec<usize>, AllocError>
    ensures { IfOk result (λ states. reverse states.items ≡ 0 ∷ []) }
{
    let mut states = Vec::new(alloc);
    states.push(0)?;
    Ok(states)
}

/// Returns the number of the first token before which a parser reduces without end, or of the end, if
/// there is one. Fails if memory runs out.
pub(crate) fn endless_at(
    alloc: Global,
    table: &Table<'_>,
    tokens: &[usize],
) -> Result<Option<usize>, AllocError>
    ensures { IfOk result (λ at. IfSome at (NeverEnds table.now tokens.now)) }
{
    let mut states = start(alloc)?;
    for at in 0..tokens.len() {
        match take(table, tokens[at], &mut states)? {
            Outcome::Taken => {}
            Outcome::Refused => return Ok(None),
            Outcome::Endless => return Ok(Some(at)),
        }
    }
    match take(table, 0, &mut states)? {
        Outcome::Taken => Ok(None),
        Outcome::Refused => Ok(None),
        Outcome::Endless => Ok(Some(tokens.len())),
    }
}
