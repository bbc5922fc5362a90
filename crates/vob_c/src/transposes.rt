//! Transposes of matrices of bits.
ghost use Rattle.std.specs.Prelude.{◌≡◌, ◌≢◌, ◌<◌, true};
ghost use Rattle.vob_rows.specs.Rows.{row_of};
ghost use Rattle.vob_matrix.specs.Matrix.{IsEntryWritten, IsTransposed};
ghost use Rattle.vob_matrix.specs.MatrixRows.{AreColumnsMarked, IsColumnMarked};
ghost use Rattle.vob_c.specs.Rows.{AreCanonicalRows, HasRowWords, matrix_in, rows_in};
ghost use Rattle.vob_c.specs.Status.{TellsWords};

use crate::rows::{are_canonical, clear, has_row_words, words_at, write_at};
use crate::status::{LENGTH, NOT_CANONICAL, OK};
use vob_block::Blocks;
use vob_store::room::block_count;
use vob_walk::IterSetBits;

/// Makes bit `column` of row `row` true.
fn mark_at(words: &mut [usize], rows: usize, columns: usize, row: usize, column: usize)
    requires canonical { AreCanonicalRows rows columns words.old }
    requires row { row < rows }
    requires column { column < columns }
    ensures canonical { AreCanonicalRows rows columns words.new }
    ensures written { IsEntryWritten (rows_in rows columns words.old) row column true
        (rows_in rows columns words.new) }
{
    write_at(
        words,
        block_count::<usize>(columns),
        columns,
        row,
        column,
        true,
    );
}

/// Marks column `i` at the set bits of row `i` of another matrix.
fn mark_column(made: &mut [usize], words: &[usize], rows: usize, columns: usize, i: usize)
    requires made { AreCanonicalRows columns rows made.old }
    requires words { AreCanonicalRows rows columns words.now }
    requires row { i < rows }
    ensures canonical { AreCanonicalRows columns rows made.new }
    ensures marked { IsColumnMarked (rows_in columns rows made.old) i
        (row_of (rows_in rows columns words.now) i) (rows_in columns rows made.new) }
{
    let row = words_at(words, block_count::<usize>(columns), i);
    for j in IterSetBits::over(Blocks::new(row), columns, ..) {
        mark_at(made, columns, rows, j, i);
    }
}

/// Marks column `i` at the set bits of row `i` of another matrix, for each of its rows.
fn mark_columns(made: &mut [usize], words: &[usize], rows: usize, columns: usize)
    requires made { AreCanonicalRows columns rows made.old }
    requires words { AreCanonicalRows rows columns words.now }
    ensures canonical { AreCanonicalRows columns rows made.new }
    ensures marked { AreColumnsMarked (rows_in columns rows made.old) (rows_in rows columns words.now)
        (rows_in columns rows made.new) }
{
    for i in 0..rows {
        mark_column(made, words, rows, columns, i);
    }
}

/// Makes `made` the transpose. Rows without words aren't counted through.
fn transpose(made: &mut [usize], words: &[usize], rows: usize, columns: usize)
    requires made { HasRowWords columns rows made.old }
    requires words { AreCanonicalRows rows columns words.now }
    ensures canonical { AreCanonicalRows columns rows made.new }
    ensures transposed { IsTransposed (matrix_in rows columns words.now)
        (matrix_in columns rows made.new) }
{
    if made.len() == 0 {
        return;
    }
    clear(made);
    mark_columns(made, words, rows, columns);
}

/// Writes into `made` the matrix with rows and columns exchanged: `columns` rows of `rows` bits. What
/// stood there isn't read.
#[unsafe(no_mangle)]
pub extern "C" fn conthiral_transpose(
    words: &[usize],
    rows: usize,
    columns: usize,
    made: &mut [usize],
) -> u8
    ensures status { TellsWords result (HasRowWords rows columns words.now
        × HasRowWords columns rows made.old) (AreCanonicalRows rows columns words.now) }
    ensures canonical { result ≡ 0 → AreCanonicalRows columns rows made.new }
    ensures transposed { result ≡ 0 → IsTransposed (matrix_in rows columns words.now)
        (matrix_in columns rows made.new) }
    ensures refused { result ≢ 0 → made.new ≡ made.old }
{
    if !has_row_words(words, rows, columns) || !has_row_words(made, columns, rows) {
        return LENGTH;
    }
    if !are_canonical(words, rows, columns) {
        return NOT_CANONICAL;
    }
    transpose(made, words, rows, columns);
    OK
}
