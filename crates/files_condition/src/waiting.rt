//! What comes before an operand in its parentheses.
ghost use Rattle.std.specs.Prelude.{◌≡◌, IfOk, OnOk};
ghost use Rattle.files_condition.specs.Conditions.{tree_of};
ghost use Rattle.files_condition.specs.Reading.{conjunction_of, negate, nothing, open_to, with_alternatives, with_factors};
ghost use Rattle.files_condition.specs.States.{option_tree, waiting_of};

use std::alloc::{AllocError, Global};
use vob_filter::filter::Expression;

/// What comes before an operand in its parentheses: what `|` and `&` join to it, and how many `!`.
#[derive(Drop)]
pub struct Waiting {
    pub alternatives: Option<Expression>,
    pub factors: Option<Expression>,
    pub negations: usize,
}

/// Puts an expression under so many `!`.
fn negated(alloc: Global, expression: Expression, count: usize) -> Result<Expression, AllocError>
    ensures { IfOk result (λ made. tree_of made ≡ negate count (tree_of expression)) }
{
    let mut made = expression;
    for _ in 0..count {
        made = Expression::Not(Box::new(alloc, made)?);
    }
    Ok(made)
}

/// Joins an expression to what comes before `&`.
fn with_factors(
    alloc: Global,
    factors: Option<Expression>,
    last: Expression,
) -> Result<Expression, AllocError>
    ensures { IfOk result (λ made.
        tree_of made ≡ with_factors (option_tree factors) (tree_of last)) }
{
    let Some(first) = factors else {
        return Ok(last);
    };
    let first = Box::new(alloc, first)?;
    let last = Box::new(alloc, last)?;
    Ok(Expression::And(first, last))
}

/// Joins an expression to what comes before `|`.
pub fn with_alternatives(
    alloc: Global,
    alternatives: Option<Expression>,
    last: Expression,
) -> Result<Expression, AllocError>
    ensures { IfOk result (λ made.
        tree_of made ≡ with_alternatives (option_tree alternatives) (tree_of last)) }
{
    let Some(first) = alternatives else {
        return Ok(last);
    };
    let first = Box::new(alloc, first)?;
    let last = Box::new(alloc, last)?;
    Ok(Expression::Or(first, last))
}

impl Waiting {
    /// Returns what comes before the first operand.
    pub fn new() -> Waiting
        ensures { waiting_of result ≡ nothing }
    {
        Waiting {
            alternatives: None,
            factors: None,
            negations: 0,
        }
    }

    /// Takes an operand, and returns the conjunction that it ends.
    pub fn take_operand(
        &mut self,
        alloc: Global,
        operand: Expression,
    ) -> Result<Expression, AllocError>
        ensures made { IfOk result (λ made.
            tree_of made ≡ conjunction_of (waiting_of self.old) (tree_of operand)) }
        ensures rest { OnOk result
            (waiting_of self.new ≡ open_to (option_tree self.old.alternatives)) }
    {
        let made = negated(alloc, operand, self.negations)?;
        self.negations = 0;
        let joined = with_factors(alloc, self.factors.take(), made)?;
        Ok(joined)
    }
}
