//! Sparse rows against a formula for each bit, as columns are added behind one another.
use super::rows::{LENGTHS, is_first};
use super::support::{same, same_list};
use std::process::Abort;
use vob_rows::{BitRows, SparseRows};

/// Whether bit `j` of row `i` is set: by a formula, nowhere, or everywhere.
fn is_there(i: usize, j: usize) -> bool {
    match i {
        0 => is_first(0, j),
        1 => false,
        _ => true,
    }
}

/// The rows in which a bit may be set.
const NUMBERS: [usize; 2] = [0, 2];

/// Adds columns with the bits of the formula.
fn widen(rt: &(impl Abort + AllocGlobal), rows: SparseRows, more: usize) -> SparseRows {
    let mut part = BitRows::new(rt.alloc(), 3, more).expect(rt, "memory");
    for (i, number) in NUMBERS.iter().enumerate() {
        for j in 0..more {
            if i < part.rows() && j < part.columns() {
                part.set(i, j, is_there(*number, rows.columns().wrapping_add(j)));
            }
        }
    }
    assert!(rt; rows.rows() == 3);
    assert!(rt; part.rows() == 3);
    rows.widened(&NUMBERS, &part).expect(rt, "memory")
}

/// Compares the set bits of each row with the formula.
fn check(rt: &(impl Abort + AllocGlobal), rows: &SparseRows, columns: usize) {
    same(rt, "the columns", columns, rows.columns(), columns);
    for i in 0..3 {
        let mut wanted = Vec::new(rt.alloc());
        for j in 0..columns {
            if is_there(i, j) {
                wanted.push(j).expect(rt, "memory");
            }
        }
        if i < rows.rows() {
            let found = rows.members(rt.alloc(), i).expect(rt, "memory");
            same_list(rt, "the set bits", &found, &wanted);
        }
    }
}

#[test]
fn columns_stand_behind_those_that_were_there(rt: HostRuntime) {
    for first in LENGTHS {
        for second in LENGTHS {
            let none = SparseRows::new(rt.alloc(), 3).expect(&rt, "memory");
            same(&rt, "the rows", 0, none.rows(), 3);
            let rows = widen(&rt, widen(&rt, none, first), second);
            check(&rt, &rows, first.wrapping_add(second));
        }
    }
}
