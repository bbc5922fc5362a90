//! Precedences, and which of a shift and a reduction stay by them.
ghost use Rattle.std.specs.Prelude.{◌≡◌, None, slice_index_or, IfOk};
ghost use Rattle.vob_lr.specs.Precedences.{left_of, resolved, stays, stays_by};

use crate::table::Cell;
use std::alloc::{AllocError, Global};

/// On which side operators of one precedence group.
#[derive(Clone, Copy, Debug, PartialEq, Eq)]
pub enum Associativity {
    /// `%left`: `a - b - c` is `(a - b) - c`.
    Left,
    /// `%right`: `a = b = c` is `a = (b = c)`.
    Right,
    /// `%nonassoc`: `a < b < c` is an error.
    Neither,
    /// `%precedence`: nothing is said.
    Unstated,
}

/// How tightly a terminal binds: those of a greater level bind more tightly.
#[derive(Clone, Copy, Debug, PartialEq, Eq)]
pub struct Precedence {
    pub level: usize,
    pub associativity: Associativity,
}

/// Which of a shift and a rule stay.
#[derive(Clone, Copy, Debug, PartialEq, Eq)]
pub(crate) enum Stays {
    Shift,
    Rule,
    Nothing,
    Both,
}

/// Returns the precedence with a number, or `None` if there is none.
pub(crate) fn precedence_at(precedences: &[Option<Precedence>], number: usize) -> Option<Precedence>
    ensures { result ≡ slice_index_or precedences.now number None }
{
    if number < precedences.len() {
        precedences[number]
    } else {
        None
    }
}

/// Returns which of a shift and a rule that bind alike stay.
fn stays_alike(associativity: Associativity) -> Stays
    ensures { result ≡ stays_by associativity }
{
    match associativity {
        Associativity::Left => Stays::Rule,
        Associativity::Right => Stays::Shift,
        Associativity::Neither => Stays::Nothing,
        Associativity::Unstated => Stays::Both,
    }
}

/// Returns which of a shift and a rule stay, by the precedences of the rule and of the terminal.
fn compare(rule: Option<Precedence>, terminal: Option<Precedence>) -> Stays
    ensures { result ≡ stays rule terminal }
{
    let (Some(rule), Some(terminal)) = (rule, terminal) else {
        return Stays::Both;
    };
    if terminal.level < rule.level {
        Stays::Rule
    } else if rule.level < terminal.level {
        Stays::Shift
    } else {
        stays_alike(terminal.associativity)
    }
}

/// Returns what is left of a shift to a state and of rules, as each rule in turn stands against the
/// shift.
fn left(
    alloc: Global,
    state: usize,
    rules: &[usize],
    precedences: &[Option<Precedence>],
    terminal: Option<Precedence>,
) -> Result<Cell, AllocError>
    ensures { IfOk result (λ cell. (cell.shift, cell.reduces.items)
        ≡ left_of (λ r. stays (slice_index_or precedences.now r None) terminal) state rules.now) }
{
    let mut kept = Vec::new(alloc);
    for place in 0..rules.len() {
        match compare(precedence_at(precedences, rules[place]), terminal) {
            Stays::Shift => {}
            Stays::Both => kept.push(rules[place])?,
            Stays::Rule => {
                kept.extend_from_slice(&rules[place..])?;
                return Ok(Cell {
                    shift: None,
                    reduces: kept,
                });
            }
            Stays::Nothing => {
                return Ok(Cell {
                    shift: None,
                    reduces: Vec::new(alloc),
                });
            }
        }
    }
    Ok(Cell {
        shift: Some(state),
        reduces: kept,
    })
}

/// Returns what is left of rules with a shift or without.
pub(crate) fn resolve(
    alloc: Global,
    shift: Option<usize>,
    rules: Vec<usize>,
    precedences: &[Option<Precedence>],
    terminal: Option<Precedence>,
) -> Result<Cell, AllocError>
    ensures { IfOk result (λ cell. (cell.shift, cell.reduces.items)
        ≡ resolved (λ r. stays (slice_index_or precedences.now r None) terminal) shift rules.items) }
{
    match shift {
        None => Ok(Cell {
            shift: None,
            reduces: rules,
        }),
        Some(state) => left(alloc, state, &rules, precedences, terminal),
    }
}
