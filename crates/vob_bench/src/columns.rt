//! A workload on columns of values that may be missing: a condition on three of them.

use crate::rounds::Missing;
use std::alloc::{AllocError, Global};
use vob::Vob;
use vob_filter::column::Column;
use vob_filter::filter::{Expression, are_rows, count};

/// The column of the bits of `value`, missing where `present` is unset.
fn column_of(alloc: Global, present: &Vob, value: &Vob) -> Result<Column, AllocError> {
    let mut column = Column::missing(alloc, present.len())?;
    for row in present.iter_set_bits(..) {
        if row < column.len() {
            column.set(row, value.get(row));
        }
    }
    Ok(column)
}

/// (column 0 and column 1) or not column 2.
fn condition(alloc: Global) -> Result<Expression, AllocError> {
    let first = Box::new(alloc, Expression::Column(0))?;
    let second = Box::new(alloc, Expression::Column(1))?;
    let third = Box::new(alloc, Expression::Column(2))?;
    let both = Box::new(alloc, Expression::And(first, second))?;
    let not = Box::new(alloc, Expression::Not(third))?;
    Ok(Expression::Or(both, not))
}

/// Three columns, each of the values of one Vob, present where the one before it is set.
fn columns_of(
    alloc: Global,
    first: &Vob,
    second: &Vob,
    third: &Vob,
) -> Result<Vec<Column>, AllocError> {
    let mut columns = Vec::with_capacity(alloc, 3)?;
    columns.push(column_of(alloc, first, second)?)?;
    columns.push(column_of(alloc, second, third)?)?;
    columns.push(column_of(alloc, third, first)?)?;
    Ok(columns)
}

/// The columns of two lists of bits and of where these differ.
fn input(alloc: Global, bytes: &[u8], others: &[u8]) -> Result<Vec<Column>, Missing> {
    let first = Vob::from_bytes(alloc, bytes)?;
    let second = Vob::from_bytes(alloc, others)?;
    let mut third = first.clone()?;
    if third.len() == second.len() {
        third.xor(&second);
    }
    let columns = columns_of(alloc, &first, &second, &third)?;
    Ok(columns)
}

/// Counts the rows of which the condition is true a round. Returns the sum, above how many rows there are.
#[inline(never)]
pub(crate) fn filter(
    alloc: Global,
    bytes: &[u8],
    others: &[u8],
    rounds: usize,
) -> Result<u64, Missing> {
    let mut times: u64 = 0;
    let columns = input(alloc, bytes, others)?;
    let condition = condition(alloc)?;
    let rows = columns.first().map_or(0, |column| column.len());
    for _ in 0..rounds {
        if !are_rows(&columns, rows) {
            return Err(Missing::Name);
        }
        times = times.wrapping_add(count(alloc, &condition, &columns, rows)? as u64);
    }
    Ok(times.wrapping_mul(0x1_0000_0000).wrapping_add(rows as u64))
}
