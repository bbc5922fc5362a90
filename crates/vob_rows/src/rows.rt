//! Rows of bits, all of one length, packed one after another.
ghost use Rattle.std.specs.Prelude.{◌≡◌, ◌≢◌, ◌↔◌, ◌<◌, ◌≤◌, ◌+◌, ◌-◌, ◌∷◌, ◌&&◌, ◌||◌, Bool, [], false, not, length, map, replicate, slice_get, slice_set, All, IsOk, IsTrue, IfOk};
ghost use Rattle.std.proofs.Common.{rules};
ghost use Rattle.std.specs.Bool.{nat_eq};
ghost use Rattle.std.specs.Cmp.Lexicographic.{pointwise as same_lists};
ghost use Rattle.std.specs.Cmp.Rules.{comparing};
ghost use Rattle.std.specs.Ordering.{eq_of_both, on};
ghost use Rattle.vob.specs.Same.{same_bits};
ghost use Rattle.vob_block.specs.Packing.{item, unpacking};
ghost use Rattle.vob_block.specs.Pointwise.{differ, pointwise, without};
ghost use Rattle.vob.specs.Bits.{AreCombined, GainsBits};
ghost use Rattle.vob.specs.Copy.{written_over, IsCopied};
ghost use Rattle.vob.specs.Indices.{IsSetAt};
ghost use Rattle.vob.specs.Vobs.{AreOfLength, bits_of};
ghost use Rattle.vob_rows.specs.Rows.{row_of, same_matrix, Matrix};

use crate::part::{
    combine_at, fill_at, negate_at, or_rows, or_rows_combined, row_blocks, store_at, write_at,
};
use crate::row::Row;
use std::alloc::{AllocError, Global};
use std::marker::Model;
use std::ops::Range;
use vob::Vob;
use vob_block::{And, Combine, Kernel, Or, Without};
use vob_store::room::block_count;
use vob_store::same::same_blocks;

/// Rows of bits, all of one length, packed one after another. Each row begins with a block of its own,
/// and the unused bits of its last block are 0. Contracts see the rows as lists of bits, and how many
/// columns there are.
#[derive(Debug, Drop)]
pub struct BitRows<T: Kernel = usize> {
    blocks: Vec<T>,
    rows: usize,
    // In bits.
    columns: usize,
}

impl<T: Kernel> Model for BitRows<T> {
    ghost use Rattle.std.specs.Prelude.{map};
    ghost use Rattle.vob_rows.specs.Part.{unpacked_rows, AreCanonical};
    ghost use Rattle.vob_rows.specs.Rows.{Matrix};

    ghost Value = { Matrix };

    ghost view = { λ r. record {
      rows = unpacked_rows r.rows r.columns (map T.number r.blocks.items) T.BITS;
      columns = r.columns;
    } };

    ghost invariant = { λ r. AreCanonical r.rows r.columns (map T.number r.blocks.items) T.BITS };
}

impl<T: Kernel> BitRows<T> {
    /// Makes rows whose bits are all false. Fails if memory runs out, or no length counts the blocks;
    /// no rows take no memory.
    pub fn new(alloc: Global, rows: usize, columns: usize) -> Result<BitRows<T>, AllocError>
        ensures rows { IfOk result (λ made. made.rows ≡ replicate rows (replicate columns false)) }
        ensures columns { IfOk result (λ made. made.columns ≡ columns) }
        ensures nothing { rows ≡ 0 → IsOk result }
    {
        let Some(count) = rows.checked_mul(block_count::<T>(columns)) else {
            return Err(AllocError);
        };
        let mut blocks = Vec::with_capacity(alloc, count)?;
        blocks.resize(count, T::ZERO)?;
        Ok(BitRows {
            blocks,
            rows,
            columns,
        })
    }

    /// Makes rows with the same bits. Fails if memory runs out; no rows take none.
    pub fn clone(&self) -> Result<BitRows<T>, AllocError>
        ensures rows { IfOk result (λ made. made ≡ self.now) }
        ensures nothing { self.now.rows ≡ [] → IsOk result }
    {
        let mut blocks = Vec::with_capacity(*self.blocks.allocator(), self.blocks.len())?;
        blocks.extend_from_slice(self.blocks.as_slice())?;
        Ok(BitRows {
            blocks,
            rows: self.rows,
            columns: self.columns,
        })
    }

    /// Returns the number of rows.
    pub fn rows(&self) -> usize
        ensures { result ≡ length self.now.rows }
    {
        self.rows
    }

    /// Returns the number of columns, which is the length of each row.
    pub fn columns(&self) -> usize
        ensures columns { result ≡ self.now.columns }
        ensures long { AreOfLength result self.now.rows }
    {
        self.columns
    }

    /// Returns row `i`, to be read by the calls of a Vob.
    pub fn row(&self, i: usize) -> Row<'_, T>
        requires { i < length self.now.rows }
        ensures bits { result ≡ row_of self.now.rows i }
        ensures long { length result ≡ self.now.columns }
    {
        Row {
            blocks: row_blocks(self.blocks.as_slice(), block_count::<T>(self.columns), i),
            len: self.columns,
        }
    }

    /// Makes rows with the bits of some Vobs, each of which has a bit for each column. Fails if memory
    /// runs out; no Vobs take none.
    pub fn from_vobs(
        alloc: Global,
        columns: usize,
        vobs: &[Vob<T>],
    ) -> Result<BitRows<T>, AllocError>
        requires { AreOfLength columns (bits_of vobs.now) }
        ensures rows { IfOk result (λ made. made.rows ≡ bits_of vobs.now) }
        ensures columns { IfOk result (λ made. made.columns ≡ columns) }
        ensures nothing { vobs.now ≡ [] → IsOk result }
    {
        let mut made = BitRows::new(alloc, vobs.len(), columns)?;
        for i in 0..vobs.len() {
            made.or_with(i, &Row::of(&vobs[i]));
        }
        Ok(made)
    }

    /// Returns each row in a Vob of its own. Fails if memory runs out; no rows take none.
    pub fn to_vobs(&self, alloc: Global) -> Result<Vec<Vob<T>>, AllocError>
        ensures vobs { IfOk result (λ vobs. bits_of vobs.items ≡ self.now.rows) }
        ensures nothing { self.now.rows ≡ [] → IsOk result }
    {
        let mut vobs = Vec::with_capacity(alloc, self.rows())?;
        for i in 0..self.rows() {
            vobs.push(self.row(i).to_vob(alloc)?)?;
        }
        Ok(vobs)
    }

    /// Returns bit `j` of row `i`, or `None` past the last row or column.
    pub fn get(&self, i: usize, j: usize) -> Option<bool>
        ensures { result ≡ slice_get (row_of self.now.rows i) j }
    {
        if i < self.rows() {
            self.row(i).get(j)
        } else {
            None
        }
    }

    /// Writes bit `j` of row `i`, and returns whether it changed.
    pub fn set(&mut self, i: usize, j: usize, value: bool) -> bool
        requires row { i < length self.old.rows }
        requires column { j < self.old.columns }
        ensures rows { self.new.rows
            ≡ slice_set self.old.rows i (slice_set (row_of self.old.rows i) j value) }
        ensures columns { self.new.columns ≡ self.old.columns }
        ensures differs { result ≡ differ (item (row_of self.old.rows i) j) value }
    {
        let count = block_count::<T>(self.columns);
        write_at(self.blocks.as_mut_slice(), count, self.columns, i, j, value)
    }

    /// Writes the first places of a block over the bits of row `i` in a range, place 0 first. The others
    /// are ignored. The range must lie within the columns, and hold at most `T::BITS` bits.
    pub fn store(&mut self, i: usize, range: Range<usize>, word: T)
        requires row { i < length self.old.rows }
        requires order { range.start ≤ range.end }
        requires inside { range.end ≤ self.old.columns }
        requires few { range.end ≤ range.start + T.BITS }
        ensures rows { self.new.rows ≡ slice_set self.old.rows i (written_over range.start
            (unpacking (range.end - range.start) (T.number word ∷ []) T.BITS)
            (row_of self.old.rows i)) }
        ensures each { IsCopied range.start 0 (range.end - range.start) (row_of self.old.rows i)
            (unpacking T.BITS (T.number word ∷ []) T.BITS) (row_of self.new.rows i) }
        ensures columns { self.new.columns ≡ self.old.columns }
    {
        let count = block_count::<T>(self.columns);
        store_at(
            self.blocks.as_mut_slice(),
            count,
            self.columns,
            i,
            range,
            word,
        );
    }

    /// Sets the bits of row `i` at some indices, among which one may stand more than once.
    pub fn set_indices(&mut self, i: usize, indices: &[usize])
        requires row { i < length self.old.rows }
        requires columns { All (λ j. j < self.old.columns) indices.now }
        ensures rows { self.new.rows ≡ slice_set self.old.rows i (row_of self.new.rows i) }
        ensures set { IsSetAt indices.now (row_of self.old.rows i) (row_of self.new.rows i) }
        ensures columns { self.new.columns ≡ self.old.columns }
    {
        for j in indices {
            // Each row is as long as there are columns: a proof knows it from this call.
            let _columns = self.columns();
            self.set(i, *j, true);
        }
    }

    /// Makes each bit of row `i` `value`.
    pub fn fill_row(&mut self, i: usize, value: bool)
        requires { i < length self.old.rows }
        ensures rows { self.new.rows
            ≡ slice_set self.old.rows i (replicate self.old.columns value) }
        ensures columns { self.new.columns ≡ self.old.columns }
    {
        let count = block_count::<T>(self.columns);
        fill_at(self.blocks.as_mut_slice(), count, self.columns, i, value);
    }

    /// Negates each bit of row `i`.
    pub fn negate_row(&mut self, i: usize)
        requires { i < length self.old.rows }
        ensures rows { self.new.rows ≡ slice_set self.old.rows i (map not (row_of self.old.rows i)) }
        ensures columns { self.new.columns ≡ self.old.columns }
    {
        let count = block_count::<T>(self.columns);
        negate_at(self.blocks.as_mut_slice(), count, self.columns, i);
    }

    /// Combines the bits of another row, of other rows or of a Vob, with those of row `i`, and returns
    /// whether a bit changed.
    #[inline(always)]
    fn combine<C: Combine>(&mut self, i: usize, other: &Row<'_, T>) -> bool
        requires row { i < length self.old.rows }
        requires long { length other.now ≡ self.old.columns }
        requires none { C.of_bits false false ≡ false }
        ensures rows { self.new.rows ≡ slice_set self.old.rows i
            (pointwise C.of_bits (row_of self.old.rows i) other.now) }
        ensures columns { self.new.columns ≡ self.old.columns }
        ensures changed { IsTrue result ↔ (self.new.rows ≢ self.old.rows) }
    {
        let count = block_count::<T>(self.columns);
        combine_at::<C, T>(self.blocks.as_mut_slice(), count, i, other.blocks)
    }

    /// Adds the true bits of another row of some, or of a Vob, to row `i`, and returns whether that
    /// added one.
    pub fn or_with(&mut self, i: usize, other: &Row<'_, T>) -> bool
        requires row { i < length self.old.rows }
        requires long { length other.now ≡ self.old.columns }
        ensures rows { self.new.rows ≡ slice_set self.old.rows i
            (pointwise ◌||◌ (row_of self.old.rows i) other.now) }
        ensures columns { self.new.columns ≡ self.old.columns }
        ensures changed { IsTrue result ↔ (self.new.rows ≢ self.old.rows) }
        ensures each { AreCombined ◌||◌ (row_of self.old.rows i) other.now (row_of self.new.rows i) }
        ensures more { GainsBits result (row_of self.old.rows i) (row_of self.new.rows i) }
    {
        // A row is as long as there are columns: a proof knows it from this call.
        let _columns = self.columns();
        self.combine::<Or>(i, other)
    }

    /// Keeps in row `i` the true bits that another one has too, and returns whether that took one off.
    pub fn and_with(&mut self, i: usize, other: &Row<'_, T>) -> bool
        requires row { i < length self.old.rows }
        requires long { length other.now ≡ self.old.columns }
        ensures rows { self.new.rows ≡ slice_set self.old.rows i
            (pointwise ◌&&◌ (row_of self.old.rows i) other.now) }
        ensures columns { self.new.columns ≡ self.old.columns }
        ensures changed { IsTrue result ↔ (self.new.rows ≢ self.old.rows) }
    {
        self.combine::<And>(i, other)
    }

    /// Removes from row `i` the true bits that another one has, and returns whether that took one off.
    pub fn and_not_with(&mut self, i: usize, other: &Row<'_, T>) -> bool
        requires row { i < length self.old.rows }
        requires long { length other.now ≡ self.old.columns }
        ensures rows { self.new.rows ≡ slice_set self.old.rows i
            (pointwise without (row_of self.old.rows i) other.now) }
        ensures columns { self.new.columns ≡ self.old.columns }
        ensures changed { IsTrue result ↔ (self.new.rows ≢ self.old.rows) }
    {
        self.combine::<Without>(i, other)
    }

    /// Adds the true bits of row `from` to another row, and returns whether that added one.
    pub fn or_row(&mut self, into: usize, from: usize) -> bool
        requires into { into < length self.old.rows }
        requires from { from < length self.old.rows }
        ensures rows { self.new.rows ≡ slice_set self.old.rows into
            (pointwise ◌||◌ (row_of self.old.rows into) (row_of self.old.rows from)) }
        ensures columns { self.new.columns ≡ self.old.columns }
        ensures changed { IsTrue result ↔ (self.new.rows ≢ self.old.rows) }
        ensures each { AreCombined ◌||◌ (row_of self.old.rows into) (row_of self.old.rows from)
            (row_of self.new.rows into) }
        ensures more { GainsBits result (row_of self.old.rows into) (row_of self.new.rows into) }
    {
        // A row is as long as there are columns: a proof knows it from this call.
        let _columns = self.columns();
        if into == from {
            return false;
        }
        let count = block_count::<T>(self.columns);
        or_rows(self.blocks.as_mut_slice(), count, into, from)
    }

    /// Adds to a row the bits of row `from` combined with others, and returns whether that added one.
    #[inline(always)]
    fn or_row_with<C: Combine>(&mut self, into: usize, from: usize, other: &Row<'_, T>) -> bool
        requires into { into < length self.old.rows }
        requires from { from < length self.old.rows }
        requires long { length other.now ≡ self.old.columns }
        requires none { C.of_bits false false ≡ false }
        requires absorbs { (bit other : Bool) → (bit || C.of_bits bit other) ≡ bit }
        ensures rows { self.new.rows ≡ slice_set self.old.rows into (pointwise ◌||◌
            (row_of self.old.rows into) (pointwise C.of_bits (row_of self.old.rows from) other.now)) }
        ensures columns { self.new.columns ≡ self.old.columns }
        ensures changed { IsTrue result ↔ (self.new.rows ≢ self.old.rows) }
        ensures more { GainsBits result (row_of self.old.rows into) (row_of self.new.rows into) }
    {
        // A row is as long as there are columns: a proof knows it from this call.
        let _columns = self.columns();
        if into == from {
            return false;
        }
        let count = block_count::<T>(self.columns);
        or_rows_combined::<C, T>(self.blocks.as_mut_slice(), count, into, from, other.blocks)
    }

    /// Adds to a row the bits that row `from` and a mask both have, and returns whether that added one.
    /// The mask is as long as a row.
    pub fn or_row_and(&mut self, into: usize, from: usize, mask: &Row<'_, T>) -> bool
        requires into { into < length self.old.rows }
        requires from { from < length self.old.rows }
        requires long { length mask.now ≡ self.old.columns }
        ensures rows { self.new.rows ≡ slice_set self.old.rows into (pointwise ◌||◌
            (row_of self.old.rows into) (pointwise ◌&&◌ (row_of self.old.rows from) mask.now)) }
        ensures columns { self.new.columns ≡ self.old.columns }
        ensures changed { IsTrue result ↔ (self.new.rows ≢ self.old.rows) }
        ensures more { GainsBits result (row_of self.old.rows into) (row_of self.new.rows into) }
    {
        self.or_row_with::<And>(into, from, mask)
    }

    /// Adds to a row the bits of row `from` that a mask doesn't have, and returns whether that added
    /// one. The mask is as long as a row.
    pub fn or_row_and_not(&mut self, into: usize, from: usize, mask: &Row<'_, T>) -> bool
        requires into { into < length self.old.rows }
        requires from { from < length self.old.rows }
        requires long { length mask.now ≡ self.old.columns }
        ensures rows { self.new.rows ≡ slice_set self.old.rows into (pointwise ◌||◌
            (row_of self.old.rows into) (pointwise without (row_of self.old.rows from) mask.now)) }
        ensures columns { self.new.columns ≡ self.old.columns }
        ensures changed { IsTrue result ↔ (self.new.rows ≢ self.old.rows) }
        ensures more { GainsBits result (row_of self.old.rows into) (row_of self.new.rows into) }
    {
        self.or_row_with::<Without>(into, from, mask)
    }
}

impl<T: Kernel> PartialEq for BitRows<T> {
    ghost eq = { eq_of_both (on (λ (m : Matrix). m.columns) nat_eq)
        (on (λ (m : Matrix). m.rows) (same_lists same_bits)) };

    ghost laws = { Prim.search (comparing, rules) depth 9 };

    /// Returns whether both have the same rows, and as many columns.
    fn eq(&self, other: &BitRows<T>) -> bool
        ensures answer { result ≡ same_matrix self.now other.now }
        ensures same { IsTrue result ↔ (self.now ≡ other.now) }
    {
        if self.rows != other.rows {
            return false;
        }
        if self.columns != other.columns {
            return false;
        }
        same_blocks(self.blocks.as_slice(), other.blocks.as_slice())
    }
}
