//! Bit matrices: refused, a call leaves what it works on as it was.
use crate::tests::support::{FIRST, given, request, same, tell};
use std::alloc::{AllocError, Global};
use std::process::Abort;
use vob::Vob;
use vob_matrix::matrix::BitMatrix;

#[test]
fn matrices_are_made_or_refused(rt: HostRuntime) {
    request(&rt, FIRST);
    let matrix = given(&rt, BitMatrix::new(rt.alloc(), 1, 2), AllocError);
    let made = matrix.is_some();
    if let Some(matrix) = matrix {
        same(&rt, "an entry", 0, matrix.get(0, 1), Some(false));
    }
    tell(&rt, made);
}

/// A matrix of two rows and a column, true in the second row.
fn column(alloc: Global) -> Result<BitMatrix, AllocError> {
    let mut matrix = BitMatrix::new(alloc, 2, 1)?;
    if matrix.rows() == 2 && matrix.columns() == 1 {
        matrix.set(1, 0, true);
    }
    Ok(matrix)
}

#[test]
fn transposes_are_made_or_refused(rt: HostRuntime) {
    request(&rt, FIRST - 1);
    let matrix = column(rt.alloc()).expect(&rt, "memory");
    let row = given(&rt, matrix.transpose(rt.alloc()), AllocError);
    let transposed = row.is_some();
    if let Some(row) = row {
        same(&rt, "an entry", 0, row.get(0, 0), Some(false));
        same(&rt, "an entry", 0, row.get(0, 1), Some(true));
    }
    tell(&rt, transposed);
}

#[test]
fn unions_of_columns_are_made_or_refused(rt: HostRuntime) {
    request(&rt, FIRST - 2);
    let matrix = column(rt.alloc()).expect(&rt, "memory");
    let all = Vob::from_elem(rt.alloc(), true, 1).expect(&rt, "memory");
    if all.len() == matrix.columns() {
        let union = given(&rt, matrix.column_or(rt.alloc(), &all), AllocError);
        let united = union.is_some();
        if let Some(union) = union {
            same(&rt, "the rows", 0, union.len(), 2);
            same(&rt, "the first row", 0, union.get(0), Some(false));
            same(&rt, "the second row", 0, union.get(1), Some(true));
        }
        tell(&rt, united);
    }
}

/// Whether a matrix was given, whose shape and first entry then are these.
fn is_given(
    rt: &impl Abort,
    made: Result<BitMatrix, AllocError>,
    shape: (usize, usize),
    first: Option<bool>,
) -> bool {
    let Some(made) = given(rt, made, AllocError) else {
        return false;
    };
    same(rt, "the shape", 0, (made.rows(), made.columns()), shape);
    same(rt, "the first entry", 0, made.get(0, 0), first);
    true
}

#[test]
fn identities_and_copies_are_made_or_refused(rt: HostRuntime) {
    request(&rt, FIRST - 1);
    let blank = BitMatrix::new(rt.alloc(), 1, 1).expect(&rt, "memory");
    let identity = BitMatrix::identity(rt.alloc(), 1);
    let one = is_given(&rt, identity, (1, 1), Some(true));
    let copy = is_given(&rt, blank.clone(), (1, 1), Some(false));
    tell(&rt, one && copy);
}

#[test]
fn products_are_made_or_refused(rt: HostRuntime) {
    request(&rt, FIRST - 1);
    let one = BitMatrix::identity(rt.alloc(), 1).expect(&rt, "memory");
    if one.columns() == one.rows() {
        let product = one.product(rt.alloc(), &one);
        tell(&rt, is_given(&rt, product, (1, 1), Some(true)));
    }
}

#[test]
fn powers_are_made_or_refused(rt: HostRuntime) {
    request(&rt, FIRST - 1);
    let one = BitMatrix::identity(rt.alloc(), 1).expect(&rt, "memory");
    if one.rows() == one.columns() {
        let power = one.power(rt.alloc(), 1);
        tell(&rt, is_given(&rt, power, (1, 1), Some(true)));
    }
}
