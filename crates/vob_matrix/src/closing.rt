//! The transitive closure of a matrix, by Warshall's algorithm: one node at a time, or eight at once
//! by a table of the unions of their rows.
ghost use Rattle.std.specs.Prelude.{◌≡◌, ℕ, ◌+◌, ◌-◌, ◌<◌, ◌≤◌, length};
ghost use Rattle.vob_matrix.specs.Matrix.{AreClosed};
ghost use Rattle.vob_matrix.specs.MatrixPaths.{AreClosedWithin, IsClosedThrough, IsLedThrough};

use crate::unions::{fill_unions, link_rows};
use std::alloc::Global;
use vob_rows::BitRows;

/// The least number of rows for which a table of unions pays.
const LEAST_ROWS: usize = 256;

/// Adds row `through` to each row from `first` to below `last` with an edge to that node.
fn lead_through(rows: &mut BitRows, through: usize, first: usize, last: usize)
    requires order { first ≤ last }
    requires through { through < length rows.old.rows }
    requires inside { last ≤ length rows.old.rows }
    ensures led { IsLedThrough rows.old.rows through first last rows.new.rows }
    ensures columns { rows.new.columns ≡ rows.old.columns }
{
    for row in first..last {
        if rows.get(row, through).unwrap_or(false) {
            rows.or_row(row, through);
        }
    }
}

/// Makes the rows from `first` to below `last` hold what paths through these nodes lead to, by
/// Warshall's algorithm. After turn k they hold what paths through those up to k lead to.
fn close_within(rows: &mut BitRows, first: usize, last: usize)
    requires order { first ≤ last }
    requires inside { last ≤ length rows.old.rows }
    ensures closed { AreClosedWithin rows.old.rows first last last rows.new.rows }
    ensures columns { rows.new.columns ≡ rows.old.columns }
{
    for through in first..last {
        lead_through(rows, through, first, last);
    }
}

/// Makes all rows hold what paths through the nodes from `first` to below `last` lead to. Their own
/// rows are closed first. Then each row takes the union of those that it leads to.
fn close_group(rows: &mut BitRows, unions: &mut BitRows, first: usize, last: usize)
    requires order { first ≤ last }
    requires few { last ≤ first + 8 }
    requires inside { last ≤ length rows.old.rows }
    requires nodes { last ≤ rows.old.columns }
    requires table { length unions.old.rows ≡ 256 }
    requires columns { unions.old.columns ≡ rows.old.columns }
    ensures table { length unions.new.rows ≡ 256 }
    ensures unions { unions.new.columns ≡ unions.old.columns }
    ensures closed { IsClosedThrough rows.old.rows first last rows.new.rows }
    ensures columns { rows.new.columns ≡ rows.old.columns }
{
    close_within(rows, first, last);
    fill_unions(unions, rows, first, last);
    link_rows(rows, unions, first, last);
}

/// Makes each row hold all nodes that its node leads to, eight nodes after another. After a group it
/// holds what paths through nodes up to that group lead to.
fn close_by_table(rows: &mut BitRows, unions: &mut BitRows)
    requires table { length unions.old.rows ≡ 256 }
    requires columns { unions.old.columns ≡ rows.old.columns }
    ensures closed { AreClosed rows.old.rows rows.new.rows }
    ensures columns { rows.new.columns ≡ rows.old.columns }
{
    let nodes = rows.rows().min(rows.columns());
    let mut first = 0;
    'groups: while first < nodes {
        let last = first + (nodes - first).min(8);
        close_group(rows, unions, first, last);
        first = last;
    }
}

/// Makes each row hold all nodes that its node leads to. It takes eight nodes at once if there are
/// rows enough and the table's memory is given, and otherwise one at a time.
pub(crate) fn close_rows(alloc: Global, rows: &mut BitRows)
    ensures closed { AreClosed rows.old.rows rows.new.rows }
    ensures columns { rows.new.columns ≡ rows.old.columns }
{
    let nodes = rows.rows();
    let columns = rows.columns();
    if nodes < LEAST_ROWS {
        close_within(rows, 0, nodes);
        return;
    }
    match BitRows::new(alloc, 256, columns) {
        Ok(mut unions) => close_by_table(rows, &mut unions),
        Err(_) => close_within(rows, 0, nodes),
    }
}
