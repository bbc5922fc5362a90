//! A parser driven by the actions of tables worked by hand.
use super::cells::table_of;
use super::grammar::grammar_of;
use super::parses::tokens_of;
use super::support::same;
use std::alloc::{AllocError, Global};
use vob_lr::{Action, Symbol, Table};

/// The textbooks' grammar of two words `c* d`, whose terminals are `$`, `c` and `d`.
const WORDS: [&str; 4] = ["A=S$", "S=CC", "C=cC", "C=d"];

/// What a driver does with texts: it shifts, or reduces by a rule, and accepts at last if the text
/// is of two words.
const DONE: [(&str, &str); 6] = [
    ("dd", " s r3 s r3 r1 accept"),
    ("cdd", " s s r3 r2 s r3 r1 accept"),
    ("dcd", " s r3 s s r3 r2 r1 accept"),
    ("", ""),
    ("d", " s r3"),
    ("ddd", " s r3 s r3"),
];

/// A driver: the states on its stack, how many tokens it has read, and what it did.
#[derive(Drop)]
struct Driver {
    states: Vec<usize>,
    read: usize,
    done: String,
}

impl Driver {
    /// Returns the newest state.
    fn state(&self) -> usize {
        self.states.last().copied().unwrap_or(0)
    }

    /// Reads a token.
    fn shift(&mut self, state: usize) -> Result<(), AllocError> {
        self.states.push(state)?;
        self.read = self.read.saturating_add(1);
        self.done.push_str(" s")?;
        Ok(())
    }

    /// Notes a reduction.
    fn note(&mut self, alloc: Global, rule: usize) -> Result<(), AllocError> {
        let text = format!(in alloc; " r{rule}")?;
        self.done.push_str(&text)?;
        Ok(())
    }

    /// Replaces the states of a rule's right side by the one that follows. Returns whether one does.
    fn reduce(&mut self, table: &Table<'_>, rule: usize) -> Result<bool, AllocError> {
        let lookaheads = table.lookaheads();
        let Some(own) = lookaheads.items().grammar().rules.get(rule) else {
            return Ok(false);
        };
        let left = self.states.len().saturating_sub(own.right.len());
        self.states.truncate(left);
        let Some(next) = lookaheads.next(self.state(), Symbol::Nonterminal(own.left)) else {
            return Ok(false);
        };
        self.states.push(next)?;
        Ok(true)
    }

    /// Takes one action. Returns whether there may be another.
    fn step(&mut self, alloc: Global, table: &Table<'_>, ahead: usize) -> Result<bool, AllocError> {
        match table.action(self.state(), ahead) {
            Some(Action::Shift(state)) => {
                self.shift(state)?;
                Ok(true)
            }
            Some(Action::Reduce(rule)) => {
                self.note(alloc, rule)?;
                self.reduce(table, rule)
            }
            Some(Action::Accept) => {
                self.done.push_str(" accept")?;
                Ok(false)
            }
            None => Ok(false),
        }
    }
}

/// Returns what a driver does with tokens, until it accepts or can do nothing.
fn driven(alloc: Global, table: &Table<'_>, tokens: &[usize]) -> Result<Driver, AllocError> {
    let mut driver = Driver {
        states: Vec::new(alloc),
        read: 0,
        done: String::new(alloc),
    };
    driver.states.push(0)?;
    for _ in 0..20 {
        let ahead = tokens.get(driver.read).copied().unwrap_or(0);
        if !driver.step(alloc, table, ahead)? {
            break;
        }
    }
    Ok(driver)
}

#[test]
fn a_driver_does_what_the_actions_say(rt: HostRuntime) {
    let grammar = grammar_of(&rt, ("ASC", "$cd"), &WORDS);
    let table = table_of(&rt, &grammar, &[], &[]);
    for (place, (text, wanted)) in DONE.iter().enumerate() {
        let tokens = tokens_of(&rt, "$cd", text);
        let driver = driven(rt.alloc(), &table, &tokens).expect(&rt, "memory");
        same(
            &rt,
            "what a driver does",
            place,
            driver.done.as_str(),
            *wanted,
        );
    }
}

#[test]
fn the_end_is_accepted_and_all_else_is_the_cell_s(rt: HostRuntime) {
    let grammar = grammar_of(&rt, ("ASC", "$cd"), &WORDS);
    let table = table_of(&rt, &grammar, &[], &[]);
    for state in 0..8 {
        for terminal in 0..3 {
            let chosen = table.cell(state, terminal).and_then(|cell| cell.action());
            // State 3 has A: S . $, and there the end would be shifted.
            let accepts = state == 3 && terminal == 0;
            let wanted = if accepts {
                Some(Action::Accept)
            } else {
                chosen
            };
            same(
                &rt,
                "an action",
                state,
                table.action(state, terminal),
                wanted,
            );
        }
    }
    same(&rt, "past the states", 8, table.action(8, 0), None);
    same(&rt, "past the terminals", 3, table.action(0, 3), None);
}
