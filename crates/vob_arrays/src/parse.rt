//! A parser by arrays.
ghost use Rattle.std.specs.Prelude.{◌≡◌, ◌≢◌, ◌↔◌, ℕ, ◌+◌, ◌-◌, ◌<◌, ◌≤◌, length, slice_index, Err, IfErr, IfOk, IsTrue, OnOk};
ghost use Rattle.vob_lr.specs.Parses.{IsAccepted, IsReplaced, Steps};
ghost use Rattle.vob_lr.specs.Stops.{AcceptsBy, IsTooLong, IsUnexpected};
ghost use Rattle.vob_lr.specs.Tables.{TableView};
ghost use Rattle.vob_lr.specs.declared.parse.ParseError.TheVariants.{TooLong, Unexpected};
ghost use Rattle.vob_arrays.specs.Arrays.{IsTableOf};
ghost use Rattle.vob_arrays.specs.Drives.{IsStopBy, left_over};

use crate::arrays::Arrays;
use crate::error::ArraysError;
use crate::run::Run;
use std::alloc::Global;
use vob_lr::{Action, ParseError};

/// Returns the token with an index, or the end behind all of them.
fn token_at(tokens: &[usize], index: usize) -> usize
    ensures { result ≡ slice_index tokens.now index }
{
    match tokens.get(index) {
        Some(token) => *token,
        None => 0,
    }
}

/// Returns that no action takes the token ahead.
fn unexpected(run: &Run) -> ArraysError
    ensures { result ≡ ArraysError.Parse (Unexpected run.now.read) }
{
    ArraysError::Parse(ParseError::Unexpected { at: run.read() })
}

impl Arrays<'_> {
    /// Returns whether a parser accepts the tokens.
    fn accepts(&self, tokens: &[usize], run: &Run) -> bool
        ensures { (table : TableView) → IsTableOf table self.now
            → IsTrue result ↔ IsAccepted table tokens.now run.now }
    {
        if run.read() < tokens.len() {
            return false;
        }
        match self.length(0) {
            Some(length) if length == run.depth() => self.accepts_at(run.state()),
            _ => false,
        }
    }

    /// Reduces by a rule: leaves the states of its right side, and enters the one that follows by its
    /// left side.
    ///
    /// Fails if no state follows, if there would be more than `most` reductions, or if memory runs
    /// out. Fails if there is no such rule.
    fn reduce(&self, rule: usize, most: usize, run: &mut Run) -> Result<(), ArraysError>
        ensures ok { OnOk result ((table : TableView) → IsTableOf table self.now
            → IsReplaced table.machine rule run.old run.new) }
        ensures less { OnOk result (left_over 0 most run.new < left_over 0 most run.old) }
        ensures within { OnOk result (length run.new.reduced ≤ most) }
        ensures read { OnOk result (run.new.read ≡ run.old.read) }
        ensures err { IfErr result (λ error. (table : TableView) → IsTableOf table self.now
            → rule < length table.machine.grammar.rules.items
            → IsStopBy (IsReplaced table.machine rule run.old) most run.old error) }
    {
        let (Some(left), Some(length)) = (self.left(rule), self.length(rule)) else {
            return Err(ArraysError::NoTable);
        };
        run.leave(length);
        let Some(state) = self.next(run.state(), left) else {
            return Err(unexpected(run));
        };
        if run.reductions() >= most {
            return Err(ArraysError::Parse(ParseError::TooLong));
        }
        run.enter(rule, state)?;
        Ok(())
    }

    /// Takes one step.
    ///
    /// Fails if there is none, if it is a reduction after `most` others, or if memory runs out. Fails
    /// if it is by a rule that isn't there.
    fn step(&self, tokens: &[usize], most: usize, run: &mut Run) -> Result<(), ArraysError>
        ensures ok { OnOk result ((table : TableView) → IsTableOf table self.now
            → Steps table tokens.now run.old run.new) }
        ensures less { OnOk result (left_over (length tokens.now) most run.new
            < left_over (length tokens.now) most run.old) }
        ensures within { OnOk result
            (length run.old.reduced ≤ most → length run.new.reduced ≤ most) }
        ensures err { IfErr result (λ error. (table : TableView) → IsTableOf table self.now
            → IsStopBy (Steps table tokens.now run.old) most run.old error) }
    {
        let ahead = token_at(tokens, run.read());
        match self.chosen(run.state(), ahead) {
            Some(Action::Shift(state)) if run.read() < tokens.len() => run.shift(state)?,
            Some(Action::Reduce(rule)) => self.reduce(rule, most, run)?,
            _ => return Err(unexpected(run)),
        }
        Ok(())
    }

    /// Parses tokens, each the number of a terminal, without the end, by at most so many reductions.
    /// Returns the rules by which the parser reduced, in their order: read backwards, they are a
    /// rightmost derivation of the tokens from the start symbol. It does what `Table::parse_within`
    /// does by each table of which these are the arrays: see `laws::ends_are_one`.
    ///
    /// Fails with the index of the first token that no action takes, or the number of tokens if that
    /// is the end. Fails if there are more than so many reductions, or if memory runs out. Of
    /// arrays that are no table nothing is said but that the call returns.
    pub fn parse(
        &self,
        alloc: Global,
        tokens: &[usize],
        most: usize,
    ) -> Result<Vec<usize>, ArraysError>
        ensures accepted { IfOk result (λ rules. (table : TableView) → IsTableOf table self.now
            → AcceptsBy table tokens.now rules.items) }
        ensures within { IfOk result (λ rules. length rules.items ≤ most) }
        ensures unexpected { (n : ℕ) → result ≡ Err (ArraysError.Parse (Unexpected n))
            → (table : TableView) → IsTableOf table self.now → IsUnexpected table tokens.now n }
        ensures too_long { result ≡ Err (ArraysError.Parse TooLong)
            → (table : TableView) → IsTableOf table self.now → IsTooLong table tokens.now most }
        ensures no_table { result ≡ Err ArraysError.NoTable
            → (table : TableView) → ¬ IsTableOf table self.now }
    {
        let mut run = Run::new(alloc)?;
        'steps: while !self.accepts(tokens, &run) {
            self.step(tokens, most, &mut run)?;
        }
        Ok(run.into_rules())
    }
}
