//! Products of matrices of bits: where an edge of the first leads, and then one of the second.
ghost use Rattle.std.specs.Prelude.{◌≡◌, ◌≢◌, ◌+◌, ◌<◌, Bool, List};
ghost use Rattle.vob_matrix.specs.Products.{IsProduct};
ghost use Rattle.vob_c.specs.Linking.{IsRowLinked};
ghost use Rattle.vob_c.specs.Rows.{AreCanonicalRows, HasRowWords, matrix_in, rows_in};
ghost use Rattle.vob_c.specs.Status.{TellsWords};

use crate::rows::{add_words, are_canonical, clear, has_row_words, words_at};
use crate::status::{LENGTH, NOT_CANONICAL, OK};
use vob_store::room::block_count;
use vob_store::single::stored_bit;

/// How many rows a matrix has, how many columns another, and how many columns and rows the two have
/// between them.
#[derive(Clone, Copy)]
struct Sizes {
    rows: usize,
    inner: usize,
    columns: usize,
}

/// Adds row `k` of `second` to row `i` of `made`, if row `i` of `first` has bit `k`.
fn add_named(
    made: &mut [usize],
    first: &[usize],
    second: &[usize],
    sizes: Sizes,
    i: usize,
    k: usize,
)
    requires made { AreCanonicalRows sizes.rows sizes.columns made.old }
    requires first { AreCanonicalRows sizes.rows sizes.inner first.now }
    requires second { AreCanonicalRows sizes.inner sizes.columns second.now }
    requires row { i < sizes.rows }
    requires named { k < sizes.inner }
    ensures canonical { AreCanonicalRows sizes.rows sizes.columns made.new }
    ensures linked { (before : List (List Bool))
        → IsRowLinked before (rows_in sizes.rows sizes.inner first.now)
        (rows_in sizes.inner sizes.columns second.now) i k (rows_in sizes.rows sizes.columns made.old)
        → IsRowLinked before (rows_in sizes.rows sizes.inner first.now)
        (rows_in sizes.inner sizes.columns second.now) i (k + 1)
        (rows_in sizes.rows sizes.columns made.new) }
{
    let width = block_count::<usize>(sizes.inner);
    if !stored_bit(words_at(first, width, i), sizes.inner, k) {
        return;
    }
    let count = block_count::<usize>(sizes.columns);
    add_words(made, count, i, words_at(second, count, k));
}

/// Adds to row `i` of `made` the rows of `second` that row `i` of `first` names.
fn link_row(made: &mut [usize], first: &[usize], second: &[usize], sizes: Sizes, i: usize)
    requires made { AreCanonicalRows sizes.rows sizes.columns made.old }
    requires first { AreCanonicalRows sizes.rows sizes.inner first.now }
    requires second { AreCanonicalRows sizes.inner sizes.columns second.now }
    requires row { i < sizes.rows }
    ensures canonical { AreCanonicalRows sizes.rows sizes.columns made.new }
    ensures linked { IsRowLinked (rows_in sizes.rows sizes.columns made.old)
        (rows_in sizes.rows sizes.inner first.now) (rows_in sizes.inner sizes.columns second.now) i
        sizes.inner (rows_in sizes.rows sizes.columns made.new) }
{
    for k in 0..sizes.inner {
        add_named(made, first, second, sizes, i, k);
    }
}

/// Makes `made` the product. Rows without words aren't counted through.
fn multiply(made: &mut [usize], first: &[usize], second: &[usize], sizes: Sizes)
    requires made { HasRowWords sizes.rows sizes.columns made.old }
    requires first { AreCanonicalRows sizes.rows sizes.inner first.now }
    requires second { AreCanonicalRows sizes.inner sizes.columns second.now }
    ensures canonical { AreCanonicalRows sizes.rows sizes.columns made.new }
    ensures product { IsProduct (matrix_in sizes.rows sizes.inner first.now)
        (matrix_in sizes.inner sizes.columns second.now)
        (matrix_in sizes.rows sizes.columns made.new) }
{
    if made.len() == 0 {
        return;
    }
    clear(made);
    for i in 0..sizes.rows {
        link_row(made, first, second, sizes, i);
    }
}

/// Writes into `made` the Boolean product: bit j of row i is true if `first` has bit k of row i and
/// `second` has bit j of row k, for some k. `first` has `rows` rows of `inner` bits, and `second` has
/// `inner` rows of `columns` bits. What stood in `made` isn't read.
#[unsafe(no_mangle)]
pub extern "C" fn conthiral_product(
    first: &[usize],
    rows: usize,
    inner: usize,
    second: &[usize],
    columns: usize,
    made: &mut [usize],
) -> u8
    ensures status { TellsWords result (HasRowWords rows inner first.now
        × HasRowWords inner columns second.now × HasRowWords rows columns made.old)
        (AreCanonicalRows rows inner first.now × AreCanonicalRows inner columns second.now) }
    ensures canonical { result ≡ 0 → AreCanonicalRows rows columns made.new }
    ensures product { result ≡ 0 → IsProduct (matrix_in rows inner first.now)
        (matrix_in inner columns second.now) (matrix_in rows columns made.new) }
    ensures refused { result ≢ 0 → made.new ≡ made.old }
{
    if !has_row_words(first, rows, inner)
        || !has_row_words(second, inner, columns)
        || !has_row_words(made, rows, columns)
    {
        return LENGTH;
    }
    if !are_canonical(first, rows, inner) || !are_canonical(second, inner, columns) {
        return NOT_CANONICAL;
    }
    let sizes = Sizes {
        rows,
        inner,
        columns,
    };
    multiply(made, first, second, sizes);
    OK
}
