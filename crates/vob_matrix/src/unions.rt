//! Unions of the rows of a matrix: those of two matrices, and a table of all unions of some rows.
ghost use Rattle.std.specs.Prelude.{◌≡◌, ◌≢◌, ◌↔◌, ℕ, ◌+◌, ◌-◌, ◌*◌, ◌^◌, ◌<◌, ◌≤◌, List, Bool, false, length, IsTrue};
ghost use Rattle.vob_rows.specs.Rows.{row_of};
ghost use Rattle.vob_matrix.specs.Matrix.{entry, AreJoined, HaveShapeOf};
ghost use Rattle.vob_matrix.specs.Unions.{AreDoubled, AreLinked, AreUnions, IsUnionSet};

use vob_rows::{BitRows, Row};

/// Adds to each row the same row of others, and returns whether that added a bit.
pub(crate) fn join_rows(rows: &mut BitRows, others: &BitRows) -> bool
    requires count { length rows.old.rows ≡ length others.now.rows }
    requires columns { rows.old.columns ≡ others.now.columns }
    ensures joined { AreJoined rows.old.rows others.now.rows rows.new.rows }
    ensures columns { rows.new.columns ≡ rows.old.columns }
    ensures changed { IsTrue result ↔ (rows.new.rows ≢ rows.old.rows) }
{
    let mut changed = false;
    for row in 0..others.rows() {
        if rows.or_with(row, &others.row(row)) {
            changed = true;
        }
    }
    changed
}

/// Makes entry `into` of a table the union of entry `from` and a row.
fn set_union(unions: &mut BitRows, into: usize, from: usize, row: &Row<'_>)
    requires from { from < into }
    requires into { into < length unions.old.rows }
    requires long { length row.now ≡ unions.old.columns }
    ensures set { IsUnionSet unions.old.rows into from row.now unions.new.rows }
    ensures columns { unions.new.columns ≡ unions.old.columns }
{
    // Each entry is as long as there are columns: a proof knows it from this call.
    let _columns = unions.columns();
    unions.fill_row(into, false);
    unions.or_row(into, from);
    unions.or_with(into, row);
}

/// Makes the `width` entries from entry `width` on the unions of a row and those before them.
fn double_unions(unions: &mut BitRows, width: usize, row: &Row<'_>)
    requires some { 0 < width }
    requires room { width * 2 ≤ length unions.old.rows }
    requires long { length row.now ≡ unions.old.columns }
    ensures doubled { AreDoubled unions.old.rows width width row.now unions.new.rows }
    ensures columns { unions.new.columns ≡ unions.old.columns }
{
    // The entries are as many as a count can be: a proof knows it from this call.
    let _entries = unions.rows();
    for entry in 0..width {
        set_union(unions, width + entry, entry, row);
    }
}

/// Makes entry m of a table the union of the rows that m names, from row `first` to below `last`:
/// row `first + t` if m has place t. Each entry takes one that is there, and one row.
pub(crate) fn fill_unions(unions: &mut BitRows, rows: &BitRows, first: usize, last: usize)
    requires order { first ≤ last }
    requires inside { last ≤ length rows.now.rows }
    requires room { 2 ^ (last - first) ≤ length unions.old.rows }
    requires columns { unions.old.columns ≡ rows.now.columns }
    ensures count { length unions.new.rows ≡ length unions.old.rows }
    ensures columns { unions.new.columns ≡ unions.old.columns }
    ensures each { AreUnions rows.now.rows first (last - first) unions.new.rows }
{
    // The entries are as many as a count can be: a proof knows it from this call.
    let _entries = unions.rows();
    unions.fill_row(0, false);
    let mut width = 1;
    for row in first..last {
        double_unions(unions, width, &rows.row(row));
        width *= 2;
    }
}

/// Adds an entry of a table to a row. Entry 0 is empty, and isn't looked at.
fn add_union(rows: &mut BitRows, row: usize, unions: &BitRows, named: usize)
    requires row { row < length rows.old.rows }
    requires named { named < length unions.now.rows }
    requires columns { rows.old.columns ≡ unions.now.columns }
    ensures shape { HaveShapeOf rows.old.rows rows.new.rows }
    ensures columns { rows.new.columns ≡ rows.old.columns }
    ensures set { ((j : ℕ) → entry unions.now.rows 0 j ≡ false)
        → IsUnionSet rows.old.rows row row (row_of unions.now.rows named) rows.new.rows }
{
    if named != 0 {
        rows.or_with(row, &unions.row(named));
    }
}

/// Adds to each row the union that its own bits from `first` to below `last` name.
pub(crate) fn link_rows(rows: &mut BitRows, unions: &BitRows, first: usize, last: usize)
    requires order { first ≤ last }
    requires few { last ≤ first + 8 }
    requires inside { last ≤ rows.old.columns }
    requires room { 2 ^ (last - first) ≤ length unions.now.rows }
    requires columns { rows.old.columns ≡ unions.now.columns }
    ensures linked { (others : List (List Bool))
        → AreUnions others first (last - first) unions.now.rows
        → AreLinked rows.old.rows rows.old.rows others first last rows.new.rows }
    ensures columns { rows.new.columns ≡ rows.old.columns }
{
    for row in 0..rows.rows() {
        let named = rows.row(row).load(first..last);
        add_union(rows, row, unions, named);
    }
}

/// Adds to each row the union that the bits of another from `first` to below `last` name.
pub(crate) fn link_by(rows: &mut BitRows, by: &BitRows, unions: &BitRows, first: usize, last: usize)
    requires order { first ≤ last }
    requires few { last ≤ first + 8 }
    requires count { length by.now.rows ≡ length rows.old.rows }
    requires inside { last ≤ by.now.columns }
    requires room { 2 ^ (last - first) ≤ length unions.now.rows }
    requires columns { rows.old.columns ≡ unions.now.columns }
    ensures linked { (others : List (List Bool))
        → AreUnions others first (last - first) unions.now.rows
        → AreLinked rows.old.rows by.now.rows others first last rows.new.rows }
    ensures columns { rows.new.columns ≡ rows.old.columns }
{
    for row in 0..by.rows() {
        let named = by.row(row).load(first..last);
        add_union(rows, row, unions, named);
    }
}
