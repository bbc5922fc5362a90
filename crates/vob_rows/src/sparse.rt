//! Rows of bits of which only blocks with a set bit are kept.
ghost use Rattle.std.specs.Prelude.{◌≡◌, ◌+◌, ◌<◌, ◌≤◌, ◌++◌, [], length, map, replicate, slice_index_or, All, AllPairs, IfOk, OnOk};
ghost use Rattle.vob_rows.specs.Sparse.{block_members, kept_members, members, AreWidened};

use crate::row::Row;
use crate::rows::BitRows;
use std::alloc::{AllocError, Global};
use std::marker::Model;
use vob_block::Blocks;
use vob_walk::IterSetBits;

/// How many bits a block has.
const WIDTH: usize = 64;

/// Rows of bits, all of one length, of which only blocks with a set bit are kept. Columns are added
/// at the end. Contracts see the columns of each row's set bits, in rising order, and how many columns
/// there are.
#[derive(Drop)]
pub struct SparseRows {
    // The blocks of each row, each with the column of its first bit.
    kept: Vec<Vec<(usize, usize)>>,
    // In bits.
    columns: usize,
}

impl Model for SparseRows {
    ghost use Rattle.std.specs.Prelude.{◌<◌, map, All};
    ghost use Rattle.vob_rows.specs.Sparse.{kept_members, SparseMatrix};

    ghost Value = { SparseMatrix };

    ghost view = { λ r. record {
      rows = map (λ kept. kept_members kept.items) r.kept.items;
      columns = r.columns;
    } };

    ghost invariant = { λ r. All (λ row. All (λ column. column < r.columns) row)
        (map (λ kept. kept_members kept.items) r.kept.items) };
}

/// Keeps a block whose first bit is in column `from`, if it has a set bit.
fn keep_block(kept: &mut Vec<(usize, usize)>, from: usize, block: usize) -> Result<(), AllocError>
    ensures { OnOk result (kept_members kept.new.items
        ≡ kept_members kept.old.items ++ block_members (from, block)) }
{
    if block != 0 {
        kept.push((from, block))?;
    }
    Ok(())
}

/// Keeps the blocks of a row, whose first bit is in column `from`, that have a set bit.
fn keep_blocks(kept: &mut Vec<(usize, usize)>, from: usize, row: &Row<'_>) -> Result<(), AllocError>
    requires { from + length row.now ≤ usize.MAX }
    ensures { OnOk result (kept_members kept.new.items
        ≡ kept_members kept.old.items ++ map (◌+◌ from) (members row.now)) }
{
    let blocks = row.get_storage();
    for k in 0..blocks.len() {
        keep_block(kept, from + k * WIDTH, blocks[k])?;
    }
    Ok(())
}

/// Appends the columns of a block's set bits.
fn push_members(from: usize, block: usize, columns: &mut Vec<usize>) -> Result<(), AllocError>
    requires { All (λ column. column ≤ usize.MAX) (block_members (from, block)) }
    ensures { OnOk result
        (columns.new.items ≡ columns.old.items ++ block_members (from, block)) }
{
    let one = [block];
    for place in IterSetBits::over(Blocks::new(&one), WIDTH, ..) {
        columns.push(from + place)?;
    }
    Ok(())
}

impl SparseRows {
    /// Makes rows without columns. Fails if memory runs out.
    pub fn new(alloc: Global, rows: usize) -> Result<SparseRows, AllocError>
        ensures rows { IfOk result (λ made. made.rows ≡ replicate rows []) }
        ensures columns { IfOk result (λ made. made.columns ≡ 0) }
    {
        let mut kept = Vec::with_capacity(alloc, rows)?;
        for _ in 0..rows {
            kept.push(Vec::new(alloc))?;
        }
        Ok(SparseRows { kept, columns: 0 })
    }

    /// Returns the number of rows.
    pub fn rows(&self) -> usize
        ensures { result ≡ length self.now.rows }
    {
        self.kept.len()
    }

    /// Returns the number of columns, which is the length of each row.
    pub fn columns(&self) -> usize
        ensures { result ≡ self.now.columns }
    {
        self.columns
    }

    /// Returns the columns of the set bits of row `i`, in rising order. Fails if memory runs out.
    pub fn members(&self, alloc: Global, i: usize) -> Result<Vec<usize>, AllocError>
        requires { i < length self.now.rows }
        ensures { IfOk result (λ columns. columns.items ≡ slice_index_or self.now.rows i []) }
    {
        // The number of columns is in the range of its type: a proof knows it from this call.
        let _columns = self.columns();
        let mut columns = Vec::new(alloc);
        for (from, block) in &self.kept[i] {
            push_members(*from, *block, &mut columns)?;
        }
        Ok(columns)
    }

    /// Returns these rows with the columns of others after their own. The row with the i-th number has
    /// the bits of row `i` there, and a row without a number has no set bit there. Numbers must rise.
    /// Fails if memory runs out, or no length counts the columns.
    pub fn widened(self, numbers: &[usize], others: &BitRows) -> Result<SparseRows, AllocError>
        requires rise { AllPairs (λ n m. n < m) numbers.now }
        requires inside { All (λ n. n < length self.rows) numbers.now }
        requires enough { length numbers.now ≤ length others.now.rows }
        ensures { IfOk result (AreWidened self numbers.now others.now) }
    {
        let SparseRows { mut kept, columns } = self;
        let Some(total) = columns.checked_add(others.columns()) else {
            return Err(AllocError);
        };
        for i in 0..numbers.len() {
            keep_blocks(&mut kept[numbers[i]], columns, &others.row(i))?;
        }
        Ok(SparseRows {
            kept,
            columns: total,
        })
    }
}
