//! The rows of an identity and of a product.
ghost use Rattle.std.specs.Prelude.{◌≡◌, ℕ, ◌+◌, ◌^◌, ◌<◌, ◌≤◌, [], length, IsOk, IfOk};
ghost use Rattle.vob_matrix.specs.Products.{IsDiagonalMarked, IsProduct};
ghost use Rattle.vob_matrix.specs.Unions.{AreLinked};

use crate::unions::{fill_unions, link_by};
use std::alloc::{AllocError, Global};
use vob_rows::BitRows;

/// The least number of rows for which a product takes eight at once. With fewer it takes four.
const MANY_ROWS: usize = 256;

/// Makes bit i of each row i true.
pub(crate) fn mark_diagonal(rows: &mut BitRows)
    requires { rows.old.columns ≡ length rows.old.rows }
    ensures marked { IsDiagonalMarked rows.old.rows rows.new.rows }
    ensures columns { rows.new.columns ≡ rows.old.columns }
{
    for row in 0..rows.rows() {
        // A row is as long as there are columns: a proof knows it from this call.
        let _columns = rows.columns();
        rows.set(row, row, true);
    }
}

/// Adds to each row the rows of `others` that the bits of a row of `by` name, `few` of them after
/// another, by a table of their unions.
fn add_products(
    rows: &mut BitRows,
    by: &BitRows,
    others: &BitRows,
    unions: &mut BitRows,
    few: usize,
)
    requires some { 0 < few }
    requires few { few ≤ 8 }
    requires room { 2 ^ few ≤ length unions.old.rows }
    requires count { length by.now.rows ≡ length rows.old.rows }
    requires inside { by.now.columns ≡ length others.now.rows }
    requires unions { unions.old.columns ≡ rows.old.columns }
    requires others { others.now.columns ≡ rows.old.columns }
    ensures linked { AreLinked rows.old.rows by.now.rows others.now.rows 0
        (length others.now.rows) rows.new.rows }
    ensures columns { rows.new.columns ≡ rows.old.columns }
{
    let mut first = 0;
    'groups: while first < others.rows() {
        let last = first + (others.rows() - first).min(few);
        fill_unions(unions, others, first, last);
        link_by(rows, by, unions, first, last);
        first = last;
    }
}

/// Returns rows with bit j wherever a row of `by` names one of `others` that has it, by a table of
/// `entries` unions of `few` rows.
fn product_by(
    alloc: Global,
    by: &BitRows,
    others: &BitRows,
    few: usize,
    entries: usize,
) -> Result<BitRows, AllocError>
    requires some { 0 < few }
    requires few { few ≤ 8 }
    requires room { 2 ^ few ≤ entries }
    requires fits { by.now.columns ≡ length others.now.rows }
    ensures { IfOk result (λ made. IsProduct by.now others.now made) }
{
    let mut made = BitRows::new(alloc, by.rows(), others.columns())?;
    let mut unions = BitRows::new(alloc, entries, others.columns())?;
    add_products(&mut made, by, others, &mut unions, few);
    Ok(made)
}

/// Returns rows with bit j wherever a row of `by` names one of `others` that has it. No rows take no
/// memory.
pub(crate) fn product_rows(
    alloc: Global,
    by: &BitRows,
    others: &BitRows,
) -> Result<BitRows, AllocError>
    requires fits { by.now.columns ≡ length others.now.rows }
    ensures product { IfOk result (λ made. IsProduct by.now others.now made) }
    ensures nothing { by.now.rows ≡ [] → IsOk result }
{
    if by.rows() == 0 {
        let none = BitRows::new(alloc, 0, others.columns())?;
        return Ok(none);
    }
    if by.rows() < MANY_ROWS {
        product_by(alloc, by, others, 4, 16)
    } else {
        product_by(alloc, by, others, 8, 256)
    }
}
