//! Every matrix of up to four rows and columns, against a plain program over lists of rows.
use super::matrix::{draw, mark, none, power, times, turned};
use super::support::same;
use std::process::Abort;
use vob_matrix::matrix::BitMatrix;

/// The most rows and columns of a plain matrix.
const MOST: usize = 4;

/// A matrix by its rows: entry (i, j) is digit j of row i in base two, the last digit being 0.
#[derive(Clone, Copy, Drop)]
struct Plain {
    rows: [usize; MOST],
}

/// A plain matrix whose entries are all false.
fn blank() -> Plain {
    Plain { rows: [0; MOST] }
}

/// 1 if an entry is true, else 0.
fn entry(plain: &Plain, row: usize, column: usize) -> usize {
    (plain.rows[row % MOST] >> (column % MOST)) % 2
}

/// The matrix whose rows are the digits of a number in base two, the first row last.
fn plain_of(rows: usize, columns: usize, number: u32) -> Plain {
    let mut plain = blank();
    let mut left = number as usize;
    let base = 1 << (columns % 8);
    for row in 0..rows {
        plain.rows[row % MOST] = left % base;
        left /= base;
    }
    plain
}

/// The union of the rows that a row of another matrix names.
fn union_of(names: usize, plain: &Plain) -> usize {
    let mut row = 0;
    for (through, others) in plain.rows.iter().enumerate() {
        if (names >> through) % 2 == 1 {
            row |= *others;
        }
    }
    row
}

/// The product of two plain matrices.
fn product_of(first: &Plain, second: &Plain) -> Plain {
    let mut made = blank();
    for (row, names) in first.rows.iter().enumerate() {
        made.rows[row % MOST] = union_of(*names, second);
    }
    made
}

/// The matrix of the paths of one to four edges. No shortest path has more.
fn closure_of(plain: &Plain) -> Plain {
    let mut paths = *plain;
    for _ in 1..MOST {
        paths = product_of(&paths, plain);
        for (row, edges) in plain.rows.iter().enumerate() {
            paths.rows[row % MOST] |= *edges;
        }
    }
    paths
}

/// The matrix with rows and columns exchanged.
fn transpose_of(plain: &Plain) -> Plain {
    let mut made = blank();
    for row in 0..MOST {
        for column in 0..MOST {
            made.rows[column % MOST] |= entry(plain, row, column) << (row % MOST);
        }
    }
    made
}

/// The matrix with these entries.
fn matrix_of(
    rt: &(impl Abort + AllocGlobal),
    rows: usize,
    columns: usize,
    plain: &Plain,
) -> BitMatrix {
    let mut matrix = none(rt, rows, columns);
    for row in 0..rows {
        for column in 0..columns {
            if entry(plain, row, column) == 1 {
                mark(&mut matrix, row, column);
            }
        }
    }
    matrix
}

/// Compares the shape and each row.
fn check(rt: &impl Abort, matrix: &BitMatrix, rows: usize, columns: usize, wanted: &Plain) {
    same(rt, "rows", 0, matrix.rows(), rows);
    same(rt, "columns", 0, matrix.columns(), columns);
    for (row, digits) in wanted.rows.iter().enumerate() {
        if row < matrix.rows() {
            let found = matrix.row(row).get_storage().first().copied().unwrap_or(0);
            same(rt, "row", row, found, *digits);
        }
    }
}

/// How many matrices have so many entries, of at most four rows and columns.
fn count_of(entries: usize) -> u32 {
    let mut count: u32 = 1;
    for _ in 0..entries {
        count = count.saturating_mul(2);
    }
    count
}

/// Compares the closure and the transpose of a matrix with those of the plain program.
fn check_alone(rt: &(impl Abort + AllocGlobal), rows: usize, columns: usize, number: u32) {
    let plain = plain_of(rows, columns, number);
    let mut matrix = matrix_of(rt, rows, columns, &plain);
    let across = turned(rt, &matrix);
    check(rt, &across, columns, rows, &transpose_of(&plain));
    matrix.close(rt.alloc());
    check(rt, &matrix, rows, columns, &closure_of(&plain));
}

#[test]
fn every_small_matrix_is_closed_and_transposed(rt: HostRuntime) {
    for rows in 0..=MOST {
        for columns in 0..=MOST {
            for number in 0..count_of(rows * columns) {
                check_alone(&rt, rows, columns, number);
            }
        }
    }
}

/// Compares a product with that of the plain program.
fn check_product(
    rt: &(impl Abort + AllocGlobal),
    shape: (usize, usize, usize),
    first: u32,
    second: u32,
) {
    let (rows, through, columns) = shape;
    let own = plain_of(rows, through, first);
    let other = plain_of(through, columns, second);
    let made = times(
        rt,
        &matrix_of(rt, rows, through, &own),
        &matrix_of(rt, through, columns, &other),
    );
    check(rt, &made, rows, columns, &product_of(&own, &other));
}

#[test]
fn every_small_product_is_that_of_the_plain_program(rt: HostRuntime) {
    for shape in [
        (1, 3, 2),
        (2, 2, 2),
        (3, 1, 3),
        (2, 3, 1),
        (3, 2, 2),
        (0, 2, 1),
        (2, 0, 2),
    ] {
        let (rows, through, columns) = shape;
        for first in 0..count_of(rows * through) {
            for second in 0..count_of(through * columns) {
                check_product(&rt, shape, first, second);
            }
        }
    }
}

/// The number of one of all matrices of four rows and columns, which looks random.
fn any(state: &mut u64) -> u32 {
    u32::try_from(draw(state, 0x1_0000)).unwrap_or(0)
}

// Each of three rows and columns by each seventh of them, and some of four.
#[test]
fn products_of_three_rows_are_those_of_the_plain_program(rt: HostRuntime) {
    for first in 0..512 {
        for part in 0..512 / 7 {
            check_product(&rt, (3, 3, 3), first, 7 * part);
        }
    }
    let mut state: u64 = 3;
    for _ in 0..2000 {
        let first = any(&mut state);
        let second = any(&mut state);
        check_product(&rt, (4, 4, 4), first, second);
    }
}

/// Compares the powers of a square matrix with products of the plain program.
fn check_powers(rt: &(impl Abort + AllocGlobal), nodes: usize, number: u32) {
    let plain = plain_of(nodes, nodes, number);
    let matrix = matrix_of(rt, nodes, nodes, &plain);
    let mut wanted = blank();
    for node in 0..nodes {
        wanted.rows[node % MOST] = 1 << (node % MOST);
    }
    for n in 0..6 {
        check(rt, &power(rt, &matrix, n), nodes, nodes, &wanted);
        wanted = product_of(&wanted, &plain);
    }
}

#[test]
fn powers_of_small_matrices_are_those_of_the_plain_program(rt: HostRuntime) {
    for nodes in 0..MOST {
        for number in 0..count_of(nodes * nodes) {
            check_powers(&rt, nodes, number);
        }
    }
    let mut state: u64 = 5;
    for _ in 0..500 {
        let number = any(&mut state);
        check_powers(&rt, 4, number);
    }
}
