//! A parser by a table.
ghost use Rattle.std.specs.Prelude.{◌≡◌, ◌↔◌, ℕ, ◌<◌, ◌≤◌, [], drop, length, reverse, slice_get, slice_index, slice_index_or, Err, IfErr, IfOk, IsTrue, OnOk, Some};
ghost use Rattle.vob_lr.specs.Derivations.{IsParse};
ghost use Rattle.vob_lr.specs.Expected.{HasRead};
ghost use Rattle.vob_lr.specs.ItemSets.{HasComplete};
ghost use Rattle.vob_lr.specs.Languages.{MoreThanSuffice};
ghost use Rattle.vob_lr.specs.Parses.{IsAccepted, IsLast, IsReached, IsReplaced, Steps, beginning, replaced, shifted, top};
ghost use Rattle.vob_lr.specs.Stops.{AcceptsBy, CanReplace, IsSound, IsStop, IsTooLong, IsUnexpected};

use crate::grammar::{Rule, Symbol};
use crate::table::{Action, Table};
use std::alloc::{AllocError, Global};
use std::marker::Model;
use std::{error, fmt};

/// Why some tokens weren't parsed.
#[derive(Clone, Copy, Debug, PartialEq, Eq)]
pub enum ParseError {
    /// There was no memory for the stack or the rules.
    Memory,
    /// No action takes the token with an index, or the end if the index is the number of tokens.
    Unexpected { at: usize },
    /// There are more reductions than suffice for a sentence, or than were allowed.
    TooLong,
}

impl ParseError {
    ghost use Rattle.std.specs.Prelude.{◌≡◌};
    ghost use Rattle.vob_lr.specs.Stops.{parse_error_number};

    /// The number of the refusal: 2 for `Memory`, 9 for `Unexpected`, 10 for `TooLong`.
    pub fn number(&self) -> u8
        ensures { result ≡ parse_error_number self.now }
    {
        match self {
            ParseError::Memory => 2,
            ParseError::Unexpected { at: _ } => 9,
            ParseError::TooLong => 10,
        }
    }
}

impl fmt::Display for ParseError {
    ghost use Rattle.std.specs.Prelude.{Some};
    ghost use Rattle.vob_lr.specs.Stops.{parse_error_text};

    ghost output = { λ error. Some (parse_error_text error) };

    fn fmt<W: fmt::Write>(&self, f: &mut fmt::Formatter<W>) -> fmt::Result {
        match self {
            ParseError::Memory => f.write_str("out of memory"),
            ParseError::Unexpected { at } => write!(f, "no action takes token {at}"),
            ParseError::TooLong => f.write_str("too many reductions"),
        }
    }
}

impl error::Error for ParseError {}

impl From<AllocError> for ParseError {
    ghost use Rattle.std.specs.Prelude.{◌≡◌};
    ghost use Rattle.vob_lr.specs.declared.parse.ParseError.TheVariants.{Memory};

    ghost from_gives = { λ _ refusal. refusal ≡ Memory };

    fn from(_: AllocError) -> ParseError {
        ParseError::Memory
    }
}

/// Returns the token with an index, or the end behind all of them.
fn token_at(tokens: &[usize], index: usize) -> usize
    ensures { result ≡ slice_index tokens.now index }
{
    match tokens.get(index) {
        Some(token) => *token,
        None => 0,
    }
}

/// A parser under way: the states on its stack, how many tokens it has read, and the rules by which
/// it reduced. The newest state and the newest rule are last. A contract sees them first.
#[derive(Drop)]
pub(crate) struct Run {
    states: Vec<usize>,
    read: usize,
    reduced: Vec<usize>,
}

impl Model for Run {
    ghost use Rattle.std.specs.Prelude.{reverse};
    ghost use Rattle.vob_lr.specs.Parses.{Config};

    ghost Value = { Config };

    ghost view = { λ a. record {
      states = reverse a.states.items;
      read = a.read;
      reduced = reverse a.reduced.items;
    } };
}

impl Run {
    /// Returns a parser that has read nothing.
    fn new(alloc: Global) -> Result<Run, AllocError>
        ensures { IfOk result (λ run. run ≡ beginning) }
    {
        let mut states = Vec::new(alloc);
        states.push(0)?;
        Ok(Run {
            states,
            read: 0,
            reduced: Vec::new(alloc),
        })
    }

    /// Returns the newest state.
    pub(crate) fn state(&self) -> usize
        ensures { result ≡ top self.now.states }
    {
        match self.states.last() {
            Some(state) => *state,
            None => 0,
        }
    }

    /// Returns how many states there are.
    fn depth(&self) -> usize
        ensures { result ≡ length self.now.states }
    {
        self.states.len()
    }

    /// Returns how many tokens were read.
    fn read(&self) -> usize
        ensures { result ≡ self.now.read }
    {
        self.read
    }

    /// Returns how many reductions there were.
    fn reductions(&self) -> usize
        ensures { result ≡ length self.now.reduced }
    {
        self.reduced.len()
    }

    /// Returns the rules by which it reduced, the newest last.
    fn into_rules(self) -> Vec<usize>
        ensures { reverse result.items ≡ self.reduced }
    {
        self.reduced
    }

    /// Reads a token, and enters a state.
    fn shift(&mut self, state: usize) -> Result<(), AllocError>
        requires { self.old.read < usize.MAX }
        ensures { OnOk result (self.new ≡ shifted state self.old) }
    {
        self.states.push(state)?;
        self.read += 1;
        Ok(())
    }

    /// Leaves the newest states.
    fn leave(&mut self, count: usize)
        requires { count ≤ length self.old.states }
        ensures { self.new ≡ record self.old { states = drop count self.old.states } }
    {
        let left = self.states.len() - count;
        self.states.truncate(left);
    }

    /// Enters a state by a rule.
    fn enter(&mut self, rule: usize, state: usize) -> Result<(), AllocError>
        ensures { OnOk result (self.new ≡ replaced rule 0 state self.old) }
    {
        self.states.push(state)?;
        self.reduced.push(rule)?;
        Ok(())
    }
}

impl Table<'_> {
    /// Returns whether a state has rule 0 with its dot behind all, and that many symbols are before
    /// the dot.
    fn is_last(&self, state: usize, count: usize) -> bool
        ensures { IsTrue result ↔ IsLast self.now.machine state count }
    {
        let items = self.lookaheads().items();
        let rules = &items.grammar().rules;
        if rules.is_empty() || rules[0].right.len() != count {
            return false;
        }
        match self.lookaheads().automaton().sets.get(state) {
            Some(set) => set.contains(&items.complete(0)),
            None => false,
        }
    }

    /// Returns whether a state has rule 0 with its dot behind all.
    pub(crate) fn is_end(&self, state: usize) -> bool
        ensures { IsTrue result ↔ HasComplete self.now.machine.grammar.rules.items
            (slice_index_or self.now.machine.sets state []) 0 }
    {
        match self.lookaheads().items().grammar().rules.first() {
            Some(rule) => self.is_last(state, rule.right.len()),
            None => false,
        }
    }

    /// Returns whether a parser accepts the tokens.
    fn accepts(&self, tokens: &[usize], run: &Run) -> bool
        ensures { IsTrue result ↔ IsAccepted self.now tokens.now run.now }
    {
        if run.read() < tokens.len() {
            return false;
        }
        match self.chosen(run.state(), 0) {
            Some(Action::Shift(state)) => self.is_last(state, run.depth()),
            _ => false,
        }
    }

    /// Returns the rule with a number, which must be one.
    fn rule(&self, number: usize) -> &Rule
        requires { number < length self.now.machine.grammar.rules.items }
        ensures { slice_get self.now.machine.grammar.rules.items number ≡ Some result.now }
    {
        &self.lookaheads().items().grammar().rules[number]
    }

    /// Reduces by a rule: leaves the states of its right side, and enters the one that follows by its
    /// left side.
    ///
    /// Fails if no state follows, if there would be more than `steps` reductions, or if memory runs
    /// out.
    fn reduce(&self, rule: usize, steps: usize, run: &mut Run) -> Result<(), ParseError>
        requires { CanReplace self.now.machine.grammar.rules.items rule run.old }
        ensures ok { OnOk result (IsReplaced self.now.machine rule run.old run.new) }
        ensures within { OnOk result (length run.new.reduced ≤ steps) }
        ensures err { IfErr result (IsStop (IsReplaced self.now.machine rule run.old) steps run.old) }
    {
        let own = self.rule(rule);
        run.leave(own.right.len());
        let left = Symbol::Nonterminal(own.left);
        let Some(state) = self.lookaheads().next(run.state(), left) else {
            return Err(ParseError::Unexpected { at: run.read() });
        };
        if run.reductions() >= steps {
            return Err(ParseError::TooLong);
        }
        run.enter(rule, state)?;
        Ok(())
    }

    /// Takes one step, as the table says.
    ///
    /// Fails if there is none, if it is a reduction after `steps` others, or if memory runs out.
    fn step(&self, tokens: &[usize], steps: usize, run: &mut Run) -> Result<(), ParseError>
        requires sound { IsSound self.now }
        requires reached { IsReached self.now tokens.now run.old }
        ensures ok { OnOk result (Steps self.now tokens.now run.old run.new) }
        ensures within { OnOk result
            (length run.old.reduced ≤ steps → length run.new.reduced ≤ steps) }
        ensures err { IfErr result (IsStop (Steps self.now tokens.now run.old) steps run.old) }
    {
        let ahead = token_at(tokens, run.read());
        match self.chosen(run.state(), ahead) {
            Some(Action::Shift(state)) if run.read() < tokens.len() => run.shift(state)?,
            Some(Action::Reduce(rule)) => self.reduce(rule, steps, run)?,
            _ => return Err(ParseError::Unexpected { at: run.read() }),
        }
        Ok(())
    }

    /// Runs a parser until it has read all tokens, and no further.
    ///
    /// Fails as `parse_within` does.
    pub(crate) fn run_over(
        &self,
        alloc: Global,
        tokens: &[usize],
        reductions: usize,
    ) -> Result<Run, ParseError>
        ensures read { IfOk result (HasRead self.now tokens.now) }
        ensures unexpected { (n : ℕ) → result ≡ Err (ParseError.Unexpected n)
            → IsUnexpected self.now tokens.now n }
        ensures too_long { result ≡ Err ParseError.TooLong
            → IsTooLong self.now tokens.now reductions }
    {
        // A proof knows from this call that the actions are those of the states.
        let _states = self.lookaheads();
        let mut run = Run::new(alloc)?;
        'steps: while run.read() < tokens.len() {
            self.step(tokens, reductions, &mut run)?;
        }
        Ok(run)
    }

    /// Parses tokens as `parse` does, but by so many reductions at most: a table with conflicts may
    /// need more than suffice for a sentence.
    ///
    /// Fails as `parse` does, and if there are more than so many reductions.
    pub fn parse_within(
        &self,
        alloc: Global,
        tokens: &[usize],
        reductions: usize,
    ) -> Result<Vec<usize>, ParseError>
        ensures derives { IfOk result (λ rules.
            IsParse self.now.machine.grammar.rules.items tokens.now rules.items) }
        ensures within { IfOk result (λ rules. length rules.items ≤ reductions) }

        // It does what the table says.
        ensures accepted { IfOk result (λ rules. AcceptsBy self.now tokens.now rules.items) }
        ensures unexpected { (n : ℕ) → result ≡ Err (ParseError.Unexpected n)
            → IsUnexpected self.now tokens.now n }
        ensures too_long { result ≡ Err ParseError.TooLong
            → IsTooLong self.now tokens.now reductions }
    {
        // A proof knows from this call that the actions are those of the states.
        let _states = self.lookaheads();
        let mut run = Run::new(alloc)?;
        'steps: while !self.accepts(tokens, &run) {
            self.step(tokens, reductions, &mut run)?;
        }
        Ok(run.into_rules())
    }

    /// Parses tokens, each the number of a terminal, without the end. Returns the rules by which the
    /// parser reduced, in their order: read backwards, they are a rightmost derivation of the tokens
    /// from the start symbol. A table with conflicts that were left shifts, or else reduces by the
    /// lowest rule.
    ///
    /// Fails with the index of the first token that no action takes, or the number of tokens if that
    /// is the end. Fails if there are more reductions than suffice for a sentence of so many tokens: a
    /// grammar with a cycle may need them without end. Fails if memory runs out. If the table has no
    /// conflict and precedence decided none, it fails over a sentence for memory alone: see
    /// `laws::accepted_are_sentences`. Where precedence decided, `laws::operators_nest` says how
    /// operators nest.
    pub fn parse(&self, alloc: Global, tokens: &[usize]) -> Result<Vec<usize>, ParseError>
        ensures derives { IfOk result (λ rules.
            IsParse self.now.machine.grammar.rules.items tokens.now rules.items) }

        // It does what the table says.
        ensures accepted { IfOk result (λ rules. AcceptsBy self.now tokens.now rules.items) }
        ensures unexpected { (n : ℕ) → result ≡ Err (ParseError.Unexpected n)
            → IsUnexpected self.now tokens.now n }
        ensures too_long { result ≡ Err ParseError.TooLong
            → MoreThanSuffice self.now tokens.now }
    {
        let reductions = self.most_reductions(tokens.len());
        let parsed = self.parse_within(alloc, tokens, reductions);
        if reductions == usize::MAX && matches!(parsed, Err(ParseError::TooLong)) {
            // So many rules don't fit in memory.
            return Err(ParseError::Memory);
        }
        parsed
    }
}
