//! A matrix of bits, its transitive closure, products, powers and transpose: a user of rows, of
//! `load` and of the walk over set bits.
ghost use Rattle.std.specs.Prelude.{◌≡◌, ◌≢◌, ◌↔◌, ◌<◌, ◌≤◌, ℕ, [], false, length, map, replicate, slice_get, IsOk, IsTrue, IfOk};
ghost use Rattle.vob.specs.Bits.{GainsBits, IsWritten};
ghost use Rattle.std.proofs.Common.{rules};
ghost use Rattle.std.specs.Bool.{nat_eq};
ghost use Rattle.std.specs.Cmp.Lexicographic.{pointwise};
ghost use Rattle.std.specs.Cmp.Rules.{comparing};
ghost use Rattle.std.specs.Ordering.{eq_of_both, on};
ghost use Rattle.vob.specs.Same.{same_bits};
ghost use Rattle.vob.specs.Vobs.{AreOfLength};
ghost use Rattle.vob_block.specs.Pointwise.{differ};
ghost use Rattle.vob_rows.specs.Rows.{row_of, same_matrix, Matrix};
ghost use Rattle.vob_matrix.specs.Matrix.{AreJoined, entry, GetsRow, AreClosed, IsColumnUnion, IsEntryWritten, IsTransposed};
ghost use Rattle.vob_matrix.specs.Products.{IsIdentity, IsPower, IsProduct};
ghost use Rattle.vob_matrix.specs.MatrixRows.{AreColumnsMarked, IsColumnMarked};

use crate::closing::close_rows;
use crate::products::{mark_diagonal, product_rows};
use crate::tiles::{are_dense, turn_rows};
use crate::unions::join_rows;
use std::alloc::{AllocError, Global};
use std::marker::Model;
use vob::Vob;
use vob_rows::{BitRows, Row};

/// A matrix of bits. Contracts see its rows as lists of bits, and how many columns it has.
#[derive(Debug, Drop)]
pub struct BitMatrix {
    rows: BitRows,
}

impl Model for BitMatrix {
    ghost use Rattle.vob_rows.specs.Rows.{Matrix};

    ghost Value = { Matrix };

    ghost view = { λ matrix. matrix.rows };
}

impl BitMatrix {
    /// A matrix whose entries are all false. Fails if memory runs out, or no length counts its blocks;
    /// no rows take no memory.
    pub fn new(alloc: Global, rows: usize, columns: usize) -> Result<BitMatrix, AllocError>
        ensures entries { IfOk result (λ matrix.
            matrix.rows ≡ replicate rows (replicate columns false)) }
        ensures columns { IfOk result (λ matrix. matrix.columns ≡ columns) }
        ensures nothing { rows ≡ 0 → IsOk result }
    {
        let rows = BitRows::new(alloc, rows, columns)?;
        Ok(BitMatrix { rows })
    }

    /// Returns the matrix of `n` rows and columns whose entries (i, i) are true and the others false.
    /// No rows take no memory.
    pub fn identity(alloc: Global, n: usize) -> Result<BitMatrix, AllocError>
        ensures identity { IfOk result (λ made. IsIdentity n made) }
        ensures nothing { n ≡ 0 → IsOk result }
    {
        let mut rows = BitRows::new(alloc, n, n)?;
        mark_diagonal(&mut rows);
        Ok(BitMatrix { rows })
    }

    /// Makes a matrix with the same entries. Fails if memory runs out; no rows take none.
    pub fn clone(&self) -> Result<BitMatrix, AllocError>
        ensures matrix { IfOk result (λ made. made ≡ self.now) }
        ensures nothing { self.now.rows ≡ [] → IsOk result }
    {
        let rows = self.rows.clone()?;
        Ok(BitMatrix { rows })
    }

    /// Returns the number of rows.
    pub fn rows(&self) -> usize
        ensures { result ≡ length self.now.rows }
    {
        self.rows.rows()
    }

    /// Returns the number of columns.
    pub fn columns(&self) -> usize
        ensures columns { result ≡ self.now.columns }
        ensures long { AreOfLength result self.now.rows }
    {
        self.rows.columns()
    }

    /// Returns entry (`row`, `column`), or `None` past the last row or column.
    pub fn get(&self, row: usize, column: usize) -> Option<bool>
        ensures { result ≡ slice_get (row_of self.now.rows row) column }
    {
        self.rows.get(row, column)
    }

    /// Writes entry (`row`, `column`), and returns whether it changed.
    pub fn set(&mut self, row: usize, column: usize, value: bool) -> bool
        requires row { row < length self.old.rows }
        requires column { column < self.old.columns }
        ensures entries { IsEntryWritten self.old.rows row column value self.new.rows }
        ensures columns { self.new.columns ≡ self.old.columns }
        ensures differs { result ≡ differ (entry self.old.rows row column) value }
        ensures written { IsWritten (row_of self.old.rows row) column value
            (row_of self.new.rows row) }
    {
        // A row is as long as there are columns: a proof knows it from this call.
        let _columns = self.columns();
        self.rows.set(row, column, value)
    }

    /// Returns a row, to be read by the calls of a Vob.
    pub fn row(&self, row: usize) -> Row<'_>
        requires { row < length self.now.rows }
        ensures bits { result ≡ row_of self.now.rows row }
        ensures long { length result ≡ self.now.columns }
    {
        self.rows.row(row)
    }

    /// Adds the true entries of row `from` to row `into`, and returns whether that added one.
    pub fn or_rows(&mut self, into: usize, from: usize) -> bool
        requires into { into < length self.old.rows }
        requires from { from < length self.old.rows }
        ensures entries { GetsRow self.old.rows into from self.new.rows }
        ensures columns { self.new.columns ≡ self.old.columns }
        ensures changed { IsTrue result ↔ (self.new.rows ≢ self.old.rows) }
        ensures more { GainsBits result (row_of self.old.rows into) (row_of self.new.rows into) }
    {
        self.rows.or_row(into, from)
    }

    /// Adds the true entries of another matrix, which must have as many rows and columns, and returns
    /// whether that added one.
    pub fn or(&mut self, other: &BitMatrix) -> bool
        requires rows { length self.old.rows ≡ length other.now.rows }
        requires columns { self.old.columns ≡ other.now.columns }
        ensures entries { AreJoined self.old.rows other.now.rows self.new.rows }
        ensures columns { self.new.columns ≡ self.old.columns }
        ensures changed { IsTrue result ↔ (self.new.rows ≢ self.old.rows) }
    {
        join_rows(&mut self.rows, &other.rows)
    }

    /// Makes entry (i, j) true if a path of one edge or more leads from node i to node j, and false
    /// otherwise. A true entry (i, j) is an edge from i to j. A node without a row leads nowhere.
    /// It is never refused.
    ///
    /// From 256 rows on it takes eight nodes at once, by a table of 256 rows that it asks for. That
    /// takes about an eighth of the row operations. It takes one node at a time if that memory is
    /// refused, or if there are fewer rows.
    pub fn close(&mut self, alloc: Global)
        ensures closure { AreClosed self.old.rows self.new.rows }
        ensures columns { self.new.columns ≡ self.old.columns }
    {
        close_rows(alloc, &mut self.rows);
    }

    /// Returns the Boolean product: entry (i, j) is true if some k has (i, k) in this matrix and (k, j)
    /// in the other. The columns must be as many as the rows of the other. Fails if memory runs out;
    /// without rows none is asked for.
    ///
    /// It takes eight rows of the other at once, by a table of 256 rows, or four by 16 if there are
    /// fewer than 256 rows. A row then costs one row operation for each eight, or four.
    pub fn product(&self, alloc: Global, other: &BitMatrix) -> Result<BitMatrix, AllocError>
        requires fits { self.now.columns ≡ length other.now.rows }
        ensures product { IfOk result (λ made. IsProduct self.now other.now made) }
        ensures nothing { self.now.rows ≡ [] → IsOk result }
    {
        let rows = product_rows(alloc, &self.rows, &other.rows)?;
        Ok(BitMatrix { rows })
    }

    /// Makes entry (i, j) of a new matrix true if a path of exactly `n` edges leads from node i to node
    /// j. That is the product of `n` such matrices, and the identity if `n` is 0. The rows must be as
    /// many as the columns. Fails if memory runs out.
    ///
    /// It takes at most two products for each binary digit of `n` but the first.
    pub fn power(&self, alloc: Global, n: usize) -> Result<BitMatrix, AllocError>
        requires square { length self.now.rows ≡ self.now.columns }
        ensures power { IfOk result (λ made. IsPower self.now n made) }
    {
        let columns = self.columns();
        if n == 0 {
            return BitMatrix::identity(alloc, columns);
        }
        if n == 1 {
            return self.clone();
        }
        let half = self.power(alloc, n / 2)?;
        let square = half.product(alloc, &half)?;
        if n % 2 == 0 {
            return Ok(square);
        }
        let made = square.product(alloc, self)?;
        Ok(made)
    }

    /// Returns the union of some columns, a bit a row: bit i is set if row i has a true entry in one of
    /// them. Bit j of `columns` says whether column j is one. Fails if memory runs out; no rows take none.
    pub fn column_or(&self, alloc: Global, columns: &Vob) -> Result<Vob, AllocError>
        requires { length columns.now.bits ≡ self.now.columns }
        ensures union { IfOk result (λ made. IsColumnUnion self.now.rows columns.now.bits made.bits) }
        ensures nothing { self.now.rows ≡ [] → IsOk result }
    {
        let mut made = Vob::from_elem(alloc, false, self.rows())?;
        mark_rows(&mut made, &self.rows, columns);
        Ok(made)
    }

    /// Returns the matrix with rows and columns exchanged. No columns take no memory.
    ///
    /// It takes tiles of 64 rows by 64 columns at once, or walks over the set bits if there are few.
    pub fn transpose(&self, alloc: Global) -> Result<BitMatrix, AllocError>
        ensures transposed { IfOk result (λ made. IsTransposed self.now made) }
        ensures nothing { self.now.columns ≡ 0 → IsOk result }
    {
        let mut rows = BitRows::new(alloc, self.columns(), self.rows())?;
        fill_columns(&mut rows, &self.rows);
        Ok(BitMatrix { rows })
    }
}

impl PartialEq for BitMatrix {
    ghost eq = { eq_of_both (on (λ (m : Matrix). m.columns) nat_eq)
        (on (λ (m : Matrix). m.rows) (pointwise same_bits)) };

    ghost laws = { Prim.search (comparing, rules) depth 9 };

    /// Returns whether both have the same rows, and as many columns.
    fn eq(&self, other: &BitMatrix) -> bool
        ensures answer { result ≡ same_matrix self.now other.now }
        ensures same { IsTrue result ↔ (self.now ≡ other.now) }
    {
        self.rows == other.rows
    }
}

/// Makes bit i of a Vob whether row i has a bit that a set has.
fn mark_rows(made: &mut Vob, rows: &BitRows, columns: &Vob)
    requires count { length made.old.bits ≡ length rows.now.rows }
    requires long { length columns.now.bits ≡ rows.now.columns }
    ensures { IsColumnUnion rows.now.rows columns.now.bits made.new.bits }
{
    let columns = Row::of(columns);
    for row in 0..rows.rows() {
        let apart = rows.row(row).is_disjoint(&columns);
        made.set(row, !apart);
    }
}

/// Makes the entries of a column true that stand at the set bits of a row.
fn mark_column(rows: &mut BitRows, column: usize, bits: &Row<'_>)
    requires rows { length bits.now ≡ length rows.old.rows }
    requires inside { column < rows.old.columns }
    ensures marked { IsColumnMarked rows.old.rows column bits.now rows.new.rows }
    ensures columns { rows.new.columns ≡ rows.old.columns }
{
    for row in bits.iter_set_bits(..) {
        // A row is as long as there are columns: a proof knows it from this call.
        let _columns = rows.columns();
        rows.set(row, column, true);
    }
}

/// Marks column i at the set bits of row i of `from`, for each of its rows.
fn mark_columns(rows: &mut BitRows, from: &BitRows)
    requires rows { from.now.columns ≡ length rows.old.rows }
    requires columns { rows.old.columns ≡ length from.now.rows }
    ensures marked { AreColumnsMarked rows.old.rows from.now.rows rows.new.rows }
    ensures columns { rows.new.columns ≡ rows.old.columns }
{
    for column in 0..from.rows() {
        mark_column(rows, column, &from.row(column));
    }
}

/// Makes column i of blank rows the row i of others, for each of these: by tiles if they have many
/// bits, and otherwise by a walk over their set bits.
fn fill_columns(rows: &mut BitRows, from: &BitRows)
    requires rows { from.now.columns ≡ length rows.old.rows }
    requires columns { rows.old.columns ≡ length from.now.rows }
    requires blank { (i j : ℕ) → entry rows.old.rows i j ≡ false }
    ensures marked { AreColumnsMarked rows.old.rows from.now.rows rows.new.rows }
    ensures columns { rows.new.columns ≡ rows.old.columns }
{
    // A row is as long as there are columns: a proof knows it from this call.
    let _columns = from.columns();
    if are_dense(from) {
        turn_rows(rows, from);
    } else {
        mark_columns(rows, from);
    }
}
