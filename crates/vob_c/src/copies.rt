//! Rows of bits copied out of words, and into words.
ghost use Rattle.std.specs.Prelude.{◌≡◌, ◌||◌, ◌+◌, ◌*◌, ◌<◌, ◌≤◌, length, slice_set, IfOk};
ghost use Rattle.vob_block.specs.Packing.{unpacking, IsCanonical};
ghost use Rattle.vob_block.specs.Pointwise.{pointwise};
ghost use Rattle.vob_rows.specs.Part.{with_row};
ghost use Rattle.vob_rows.specs.Rows.{row_of};
ghost use Rattle.vob_c.specs.Rows.{AreCanonicalRows, HasRowWords, rows_in};

use crate::rows::{clear, words_at};
use std::alloc::{AllocError, Global};
use vob::Vob;
use vob_block::Blocks;
use vob_rows::{BitRows, Row};
use vob_store::room::block_count;

/// How many rows there are, and how many bits each has.
#[derive(Clone, Copy)]
pub(crate) struct Shape {
    pub(crate) rows: usize,
    pub(crate) columns: usize,
}

/// Adds to row `i` the bits that words hold. `room` is a Vob to work in.
fn take_row(made: &mut BitRows, i: usize, words: &[usize], room: &mut Vob)
    requires row { i < length made.old.rows }
    requires words { IsCanonical made.old.columns words.now 64 }
    requires room { made.old.columns ≤ room.old.capacity }
    ensures rows { made.new.rows ≡ slice_set made.old.rows i (pointwise ◌||◌
        (row_of made.old.rows i) (unpacking made.old.columns words.now 64)) }
    ensures columns { made.new.columns ≡ made.old.columns }
    ensures room { room.old.capacity ≤ room.new.capacity }
{
    room.clear();
    room.append_blocks(&mut Blocks::new(words), made.columns());
    made.or_with(i, &Row::of(room));
}

/// Returns the rows that words hold. Fails if memory runs out; no rows take none.
pub(crate) fn rows_of(alloc: Global, words: &[usize], shape: Shape) -> Result<BitRows, AllocError>
    requires { AreCanonicalRows shape.rows shape.columns words.now }
    ensures rows { IfOk result
        (λ made. made.rows ≡ rows_in shape.rows shape.columns words.now) }
    ensures columns { IfOk result (λ made. made.columns ≡ shape.columns) }
{
    let mut made = BitRows::new(alloc, shape.rows, shape.columns)?;
    if shape.rows == 0 {
        return Ok(made);
    }
    let count = block_count::<usize>(shape.columns);
    let mut room = Vob::new_with_storage_type(alloc, shape.columns)?;
    for i in 0..shape.rows {
        take_row(&mut made, i, words_at(words, count, i), &mut room);
    }
    Ok(made)
}

/// Writes words over those of row `i`, of `count` words a row.
fn put_words(words: &mut [usize], count: usize, i: usize, row: &[usize])
    requires inside { i * count + count ≤ length words.old }
    requires long { length row.now ≡ count }
    ensures { words.new ≡ with_row count words.old i row.now }
{
    let start = i * count;
    words[start..start + count].copy_from_slice(row);
}

/// Writes rows into words, whatever these hold.
pub(crate) fn write_rows(rows: &BitRows, words: &mut [usize])
    requires { HasRowWords (length rows.now.rows) rows.now.columns words.old }
    ensures canonical { AreCanonicalRows (length rows.now.rows) rows.now.columns words.new }
    ensures rows { rows_in (length rows.now.rows) rows.now.columns words.new ≡ rows.now.rows }
{
    let count = block_count::<usize>(rows.columns());
    clear(words);
    for i in 0..rows.rows() {
        put_words(words, count, i, rows.row(i).get_storage());
    }
}
