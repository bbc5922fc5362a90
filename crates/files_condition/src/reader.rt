//! Conditions as they are read, a word after another.
ghost use Rattle.std.specs.Prelude.{◌≡◌, [], if◌then◌else◌, IfErr, IfOk, map};
ghost use Rattle.files_condition.specs.Conditions.{asked_of, test_of, tree_of};
ghost use Rattle.files_condition.specs.Places.{after_is, after_not, expected_at};
ghost use Rattle.files_condition.specs.Reading.{IsEnded, IsRefused, IsUnended, after, asking, is_key, start, step};
ghost use Rattle.files_condition.specs.States.{levels_of, state_of, waiting_of};
ghost use Rattle.files_condition.specs.Words.{mark, term_of, token_of};

use crate::condition::{Comparison, Condition, Operand, Question, Relation};
use crate::fault::ConditionFault;
use crate::waiting::{Waiting, with_alternatives};
use crate::words::{Mark, Word};
use std::alloc::{AllocError, Global};
use std::mem;
use vob_filter::filter::Expression;

const OPERAND: &str = "the name of a column, `!` or `(`";

const RELATION: &str = "`=`, `!=`, `<`, `<=`, `>`, `>=` or `is`";

const VALUE: &str = "a value";

const SOME_VALUE: &str = "a value that isn't empty (`NAME is missing` asks for empty cells)";

const JOINT: &str = "`&`, `|`, `)` or the end";

/// What comes next in a condition, and what is at hand.
#[derive(Drop)]
pub enum Next<'a> {
    /// An operand.
    Operand,
    /// A relation, after the name of a column.
    Relation(Operand<'a>),
    /// A value, after the name of a column and a relation.
    Value(Operand<'a>, Relation),
    /// `missing`, or `not` if it may be.
    Missing(Operand<'a>, bool),
    /// `&`, `|`, `)` or the end, after a conjunction.
    Joint(Expression),
}

/// What was read before the word at hand.
#[derive(Drop)]
pub struct Reader<'a> {
    alloc: Global,
    level: Waiting,
    outer: Vec<Waiting>,
    comparisons: Vec<Comparison<'a>>,
}

/// Returns what is expected after `is`, or after `is not`.
fn missing_or_not(may_be_not: bool) -> &'static str
    ensures { result.now ≡ expected_at (if may_be_not then after_is else after_not) [] }
{
    if may_be_not {
        return "`missing` or `not missing`";
    }
    "`missing`"
}

/// Returns whether a name or a value is a word of the language, which stands without quotes.
fn is_key(operand: &Operand<'_>, key: &[u8]) -> bool
    ensures { result ≡ is_key (term_of operand.now) key.now }
{
    !operand.is_quoted && operand.text == key
}

impl<'a> Reader<'a> {
    /// Returns what was read before the first word.
    pub fn new(alloc: Global) -> Reader<'a>
        ensures { state_of Next.Operand result ≡ start }
    {
        Reader {
            alloc,
            level: Waiting::new(),
            outer: Vec::new(alloc),
            comparisons: Vec::new(alloc),
        }
    }

    /// Ends an operand.
    fn end_operand(&mut self, operand: Expression) -> Result<Next<'a>, AllocError>
        ensures { IfOk result (λ next. state_of next self.new
            ≡ after (waiting_of self.old.level) (tree_of operand) (levels_of self.old.outer.items)
            (map test_of self.old.comparisons.items)) }
    {
        let conjunction = self.level.take_operand(self.alloc, operand)?;
        Ok(Next::Joint(conjunction))
    }

    /// Ends a comparison.
    fn ask(
        &mut self,
        column: Operand<'a>,
        question: Question<'a>,
    ) -> Result<Next<'a>, ConditionFault>
        ensures ok { IfOk result (λ next. state_of next self.new
            ≡ asking (state_of Next.Operand self.old)
            (record { column = term_of column.entry; asked = asked_of question.entry })) }
        ensures err { IfErr result (λ fault. fault ≡ ConditionFault.Memory) }
    {
        let number = self.comparisons.len();
        self.comparisons.push(Comparison { column, question })?;
        let next = self.end_operand(Expression::Column(number))?;
        Ok(next)
    }

    /// Takes a `!`.
    fn negate(&mut self) -> Result<Next<'a>, ConditionFault>
        ensures ok { IfOk result (λ next. Some (state_of next self.new)
            ≡ step (state_of Next.Operand self.old) (mark Mark.Not 0)) }
        ensures err { IfErr result (λ fault. fault ≡ ConditionFault.Memory) }
    {
        let Some(negations) = self.level.negations.checked_add(1) else {
            return Err(ConditionFault::Memory);
        };
        self.level.negations = negations;
        Ok(Next::Operand)
    }

    /// Takes a `(`.
    fn open(&mut self) -> Result<Next<'a>, ConditionFault>
        ensures ok { IfOk result (λ next. Some (state_of next self.new)
            ≡ step (state_of Next.Operand self.old) (mark Mark.Open 0)) }
        ensures err { IfErr result (λ fault. fault ≡ ConditionFault.Memory) }
    {
        let level = mem::replace(&mut self.level, Waiting::new());
        self.outer.push(level)?;
        Ok(Next::Operand)
    }

    /// Takes the first word of an operand.
    fn take_operand(&mut self, word: &Word<'a>) -> Result<Next<'a>, ConditionFault>
        ensures ok { IfOk result (λ next. step (state_of Next.Operand self.old) (token_of word.now)
            ≡ Some (state_of next self.new)) }
        ensures err { IfErr result (λ fault.
            IsRefused (state_of Next.Operand self.old) (token_of word.now) fault) }
    {
        match word {
            Word::Text(name) => Ok(Next::Relation(*name)),
            Word::Sign(Mark::Not, _) => self.negate(),
            Word::Sign(Mark::Open, _) => self.open(),
            Word::Sign(_, column) => Err(ConditionFault::Word {
                column: *column,
                expected: OPERAND,
            }),
        }
    }

    /// Takes the word after the name of a column.
    fn take_relation(&self, name: Operand<'a>, word: &Word<'a>) -> Result<Next<'a>, ConditionFault>
        ensures ok { IfOk result (λ next. step (state_of (Next.Relation name.entry) self.now)
            (token_of word.now) ≡ Some (state_of next self.now)) }
        ensures err { IfErr result (λ fault.
            IsRefused (state_of (Next.Relation name.entry) self.now) (token_of word.now) fault) }
    {
        match word {
            Word::Sign(Mark::Compares(relation), _) => Ok(Next::Value(name, *relation)),
            Word::Sign(_, column) => Err(ConditionFault::Word {
                column: *column,
                expected: RELATION,
            }),
            Word::Text(key) => {
                if is_key(key, b"is") {
                    return Ok(Next::Missing(name, true));
                }
                Err(ConditionFault::Word {
                    column: key.at,
                    expected: RELATION,
                })
            }
        }
    }

    /// Takes the value of a comparison, which isn't empty.
    fn take_value(
        &mut self,
        name: Operand<'a>,
        relation: Relation,
        word: &Word<'a>,
    ) -> Result<Next<'a>, ConditionFault>
        ensures ok { IfOk result (λ next. step (state_of (Next.Value name.entry relation) self.old)
            (token_of word.now) ≡ Some (state_of next self.new)) }
        ensures err { IfErr result (λ fault.
            IsRefused (state_of (Next.Value name.entry relation) self.old) (token_of word.now)
            fault) }
    {
        match word {
            Word::Sign(_, column) => Err(ConditionFault::Word {
                column: *column,
                expected: VALUE,
            }),
            Word::Text(value) => {
                if value.text.is_empty() {
                    return Err(ConditionFault::Word {
                        column: value.at,
                        expected: SOME_VALUE,
                    });
                }
                self.ask(name, Question::Compared(relation, *value))
            }
        }
    }

    /// Takes a word after `is`, or after `is not`.
    fn take_missing(
        &mut self,
        name: Operand<'a>,
        may_be_not: bool,
        word: &Word<'a>,
    ) -> Result<Next<'a>, ConditionFault>
        ensures ok { IfOk result (λ next.
            step (state_of (Next.Missing name.entry may_be_not) self.old) (token_of word.now)
            ≡ Some (state_of next self.new)) }
        ensures err { IfErr result (λ fault.
            IsRefused (state_of (Next.Missing name.entry may_be_not) self.old) (token_of word.now)
            fault) }
    {
        match word {
            Word::Sign(_, column) => Err(ConditionFault::Word {
                column: *column,
                expected: missing_or_not(may_be_not),
            }),
            Word::Text(key) => {
                if is_key(key, b"missing") {
                    return self.ask(name, Question::Missing(may_be_not));
                }
                if may_be_not && is_key(key, b"not") {
                    return Ok(Next::Missing(name, false));
                }
                Err(ConditionFault::Word {
                    column: key.at,
                    expected: missing_or_not(may_be_not),
                })
            }
        }
    }

    /// Takes a `|`.
    fn alternate(&mut self, conjunction: Expression) -> Result<Next<'a>, AllocError>
        ensures { IfOk result (λ next. Some (state_of next self.new)
            ≡ step (state_of (Next.Joint conjunction) self.old) (mark Mark.Or 0)) }
    {
        let whole = with_alternatives(self.alloc, self.level.alternatives.take(), conjunction)?;
        self.level = Waiting {
            alternatives: Some(whole),
            factors: None,
            negations: 0,
        };
        Ok(Next::Operand)
    }

    /// Takes a `)` at a column, which must have its `(`.
    fn close(&mut self, conjunction: Expression, column: usize) -> Result<Next<'a>, ConditionFault>
        ensures ok { IfOk result (λ next. step (state_of (Next.Joint conjunction) self.old)
            (mark Mark.Close column) ≡ Some (state_of next self.new)) }
        ensures err { IfErr result (λ fault. IsRefused (state_of (Next.Joint conjunction) self.old)
            (mark Mark.Close column) fault) }
    {
        let Some(last) = self.outer.pop() else {
            return Err(ConditionFault::Word {
                column,
                expected: "`&`, `|` or the end",
            });
        };
        let whole = with_alternatives(self.alloc, self.level.alternatives.take(), conjunction)?;
        self.level = last;
        let next = self.end_operand(whole)?;
        Ok(next)
    }

    /// Takes a word after a conjunction.
    fn take_joint(
        &mut self,
        conjunction: Expression,
        word: &Word<'a>,
    ) -> Result<Next<'a>, ConditionFault>
        ensures ok { IfOk result (λ next. step (state_of (Next.Joint conjunction) self.old)
            (token_of word.now) ≡ Some (state_of next self.new)) }
        ensures err { IfErr result (λ fault.
            IsRefused (state_of (Next.Joint conjunction) self.old) (token_of word.now) fault) }
    {
        match word {
            Word::Sign(Mark::And, _) => {
                self.level.factors = Some(conjunction);
                Ok(Next::Operand)
            }
            Word::Sign(Mark::Or, _) => {
                let next = self.alternate(conjunction)?;
                Ok(next)
            }
            Word::Sign(Mark::Close, column) => self.close(conjunction, *column),
            Word::Sign(_, column) => Err(ConditionFault::Word {
                column: *column,
                expected: JOINT,
            }),
            Word::Text(name) => Err(ConditionFault::Word {
                column: name.at,
                expected: JOINT,
            }),
        }
    }

    /// Takes a word. Fails if it can't stand there, or if memory runs out.
    pub fn take(&mut self, next: Next<'a>, word: &Word<'a>) -> Result<Next<'a>, ConditionFault>
        ensures ok { IfOk result (λ later. step (state_of next.entry self.old) (token_of word.now)
            ≡ Some (state_of later self.new)) }
        ensures err { IfErr result (λ fault.
            IsRefused (state_of next.entry self.old) (token_of word.now) fault) }
    {
        match next {
            Next::Operand => self.take_operand(word),
            Next::Relation(name) => self.take_relation(name, word),
            Next::Value(name, relation) => self.take_value(name, relation, word),
            Next::Missing(name, may_be_not) => self.take_missing(name, may_be_not, word),
            Next::Joint(conjunction) => self.take_joint(conjunction, word),
        }
    }

    /// Ends the condition after its last conjunction.
    fn end(self, conjunction: Expression, end: usize) -> Result<Condition<'a>, ConditionFault>
        ensures ok { IfOk result (λ condition.
            IsEnded (state_of (Next.Joint conjunction) self.entry)
            (map test_of condition.comparisons.items) (tree_of condition.expression)) }
        ensures err { IfErr result (λ fault.
            IsUnended (state_of (Next.Joint conjunction) self.entry) end fault) }
    {
        let Reader {
            alloc,
            level,
            outer,
            comparisons,
        } = self;
        if !outer.is_empty() {
            return Err(ConditionFault::Word {
                column: end,
                expected: "`)`",
            });
        }
        let expression = with_alternatives(alloc, level.alternatives, conjunction)?;
        Ok(Condition {
            comparisons,
            expression,
        })
    }

    /// Ends the condition at a column. Fails if it isn't whole, or if memory runs out.
    pub fn finish(self, next: Next<'a>, end: usize) -> Result<Condition<'a>, ConditionFault>
        ensures ok { IfOk result (λ condition. IsEnded (state_of next.entry self.entry)
            (map test_of condition.comparisons.items) (tree_of condition.expression)) }
        ensures err { IfErr result (λ fault.
            IsUnended (state_of next.entry self.entry) end fault) }
    {
        let expected = match next {
            Next::Operand => OPERAND,
            Next::Relation(_) => RELATION,
            Next::Value(_, _) => VALUE,
            Next::Missing(_, may_be_not) => missing_or_not(may_be_not),
            Next::Joint(conjunction) => return self.end(conjunction, end),
        };
        Err(ConditionFault::Word {
            column: end,
            expected,
        })
    }
}
