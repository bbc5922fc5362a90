//! The rows of a table that a condition is true of, by SQL's logic of three values.
ghost use Rattle.std.specs.Prelude.{◌≡◌, ◌↔◌, IfOk, IsTrue};
ghost use Rattle.vob_filter.specs.Filter.{AreRows, HasTruth, IsFilter, true_count};

use crate::column::Column;
use std::alloc::{AllocError, Global};
use vob::Vob;

/// A condition over numbered columns.
#[derive(Drop)]
pub enum Expression {
    Column(usize),
    And(Box<Expression>, Box<Expression>),
    Or(Box<Expression>, Box<Expression>),
    Not(Box<Expression>),
}

/// Returns whether each column has so many rows, as the calls below ask.
pub fn are_rows(columns: &[Column], rows: usize) -> bool
    ensures { IsTrue result ↔ AreRows rows columns.now }
{
    columns.iter().all(|column| column.len() == rows)
}

/// Makes the column of what a condition is in each row. A column that isn't there counts as
/// missing in every row. Holds at most as many columns at once as the condition is deep.
pub fn evaluate(
    alloc: Global,
    expression: &Expression,
    columns: &[Column],
    rows: usize,
) -> Result<Column, AllocError>
    requires { AreRows rows columns.now }
    ensures { IfOk result (λ column. HasTruth expression.now columns.now rows column) }
{
    match expression {
        Expression::Column(number) => match columns.get(*number) {
            Some(column) => column.clone(),
            None => Column::missing(alloc, rows),
        },
        Expression::And(first, second) => {
            let mut column = evaluate(alloc, first, columns, rows)?;
            let other = evaluate(alloc, second, columns, rows)?;
            column.and(&other);
            Ok(column)
        }
        Expression::Or(first, second) => {
            let mut column = evaluate(alloc, first, columns, rows)?;
            let other = evaluate(alloc, second, columns, rows)?;
            column.or(&other);
            Ok(column)
        }
        Expression::Not(inner) => {
            let mut column = evaluate(alloc, inner, columns, rows)?;
            column.not();
            Ok(column)
        }
    }
}

/// Makes the filter that keeps the rows of which a condition is true: neither false nor missing.
/// Bit `i` says whether row `i` is kept.
pub fn select(
    alloc: Global,
    expression: &Expression,
    columns: &[Column],
    rows: usize,
) -> Result<Vob, AllocError>
    requires { AreRows rows columns.now }
    ensures { IfOk result (λ kept. IsFilter expression.now columns.now rows kept.bits) }
{
    let column = evaluate(alloc, expression, columns, rows)?;
    Ok(column.into_true())
}

/// Counts the rows of which a condition is true.
pub fn count(
    alloc: Global,
    expression: &Expression,
    columns: &[Column],
    rows: usize,
) -> Result<usize, AllocError>
    requires { AreRows rows columns.now }
    ensures { IfOk result (λ count. count ≡ true_count expression.now columns.now rows) }
{
    let kept = select(alloc, expression, columns, rows)?;
    Ok(kept.count_ones())
}
