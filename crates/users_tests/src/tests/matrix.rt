//! Bit matrices: closures worked by hand, chains and rings; products, transposes; entries and rows.
use super::support::{check_bits, push, same, vob_of};
use std::process::Abort;
use vob::Vob;
use vob_flow::closure;
use vob_matrix::matrix::BitMatrix;
use vob_rows::Graph;

/// A matrix whose entries are all false.
pub fn none(rt: &(impl Abort + AllocGlobal), rows: usize, columns: usize) -> BitMatrix {
    BitMatrix::new(rt.alloc(), rows, columns).expect(rt, "memory")
}

/// `set` to true, with the ends tested first.
pub fn mark(matrix: &mut BitMatrix, row: usize, column: usize) -> bool {
    row < matrix.rows() && column < matrix.columns() && matrix.set(row, column, true)
}

/// The matrix of these rows of digits.
fn matrix_of(rt: &(impl Abort + AllocGlobal), columns: usize, rows: &[&str]) -> BitMatrix {
    let mut matrix = none(rt, rows.len(), columns);
    for (row, digits) in rows.iter().enumerate() {
        for (column, digit) in digits.as_bytes().iter().enumerate() {
            if *digit == b'1' {
                mark(&mut matrix, row, column);
            }
        }
    }
    matrix
}

/// Compares the number of rows and of columns, and each row, with digits.
pub fn check_rows(rt: &impl Abort, matrix: &BitMatrix, columns: usize, wanted: &[&str]) {
    same(rt, "rows", 0, matrix.rows(), wanted.len());
    same(rt, "columns", 0, matrix.columns(), columns);
    for (row, digits) in wanted.iter().enumerate() {
        if row < matrix.rows() {
            for (column, digit) in digits.as_bytes().iter().enumerate() {
                same(
                    rt,
                    "entry",
                    column,
                    matrix.get(row, column),
                    Some(*digit == b'1'),
                );
            }
        }
    }
}

fn check_closure(rt: &(impl Abort + AllocGlobal), columns: usize, rows: &[&str], wanted: &[&str]) {
    let mut matrix = matrix_of(rt, columns, rows);
    matrix.close(rt.alloc());
    check_rows(rt, &matrix, columns, wanted);
}

#[test]
fn small_graphs_are_closed(rt: HostRuntime) {
    // Nodes 1, 2 and 3 lie on a ring (1 to 3 to 2 to 1), so each leads to all three. Node 3 leads
    // to node 0 too, and so all of them do. Node 0 leads nowhere.
    let (rows, wanted) = (
        ["0000", "0011", "0100", "1010"],
        ["0000", "1111", "1111", "1111"],
    );
    check_closure(&rt, 4, &rows, &wanted);
    // Two ways from node 0 meet in node 3, and no node comes back to itself.
    let (rows, wanted) = (
        ["0110", "0001", "0001", "0000"],
        ["0111", "0001", "0001", "0000"],
    );
    check_closure(&rt, 4, &rows, &wanted);
    // The nodes on the way from 2 to 0 come in the order 2, 1, 3, 0.
    let (rows, wanted) = (
        ["0000", "0001", "0100", "1000"],
        ["0000", "1001", "1101", "1000"],
    );
    check_closure(&rt, 4, &rows, &wanted);
    // One node leads to itself by a step alone.
    check_closure(&rt, 1, &["0"], &["0"]);
    check_closure(&rt, 1, &["1"], &["1"]);
    // Nodes 2 to 4 have no row: 0 leads to 1, and 1 to 4.
    check_closure(&rt, 5, &["01100", "00001"], &["01101", "00001"]);
    // Node 2 has a row, and no column: nothing leads to it.
    check_closure(&rt, 2, &["01", "10", "10"], &["11", "11", "11"]);
    check_closure(&rt, 3, &[], &[]);
    check_closure(&rt, 0, &["", ""], &["", ""]);
}

/// Compares each entry with whether it is wanted.
pub fn check_entry(rt: &impl Abort, matrix: &BitMatrix, row: usize, column: usize, wanted: bool) {
    let found = matrix.get(row, column);
    same(rt, "entry of a row", row, found, Some(wanted));
}

#[test]
fn chains_and_a_ring_longer_than_a_block_are_closed(rt: HostRuntime) {
    // Each node leads to the next one, and so to all after it; or to the one before it; or round a
    // ring. The ring has every node, as 29 and 70 have no common divisor.
    let mut up = none(&rt, 70, 70);
    let mut down = none(&rt, 70, 70);
    let mut ring = none(&rt, 70, 70);
    for node in 0..69 {
        mark(&mut up, node, node + 1);
        mark(&mut down, node + 1, node);
    }
    for node in 0..70 {
        mark(&mut ring, node, (node + 29) % 70);
    }
    up.close(rt.alloc());
    down.close(rt.alloc());
    ring.close(rt.alloc());
    for row in 0..70 {
        for column in 0..70 {
            check_entry(&rt, &up, row, column, row < column);
            check_entry(&rt, &down, row, column, column < row);
            check_entry(&rt, &ring, row, column, true);
        }
    }
}

/// The next of some numbers that look random, below a bound.
pub fn draw(state: &mut u64, bound: usize) -> usize {
    *state = state
        .wrapping_mul(6364136223846793005)
        .wrapping_add(1442695040888963407);
    ((*state >> 33) as usize).checked_rem(bound).unwrap_or(0)
}

/// A matrix with so many entries that look random.
fn random(
    rt: &(impl Abort + AllocGlobal),
    rows: usize,
    columns: usize,
    entries: usize,
) -> BitMatrix {
    let mut matrix = none(rt, rows, columns);
    let mut state: u64 = 7;
    for _ in 0..entries {
        let row = draw(&mut state, rows);
        let column = draw(&mut state, columns);
        mark(&mut matrix, row, column);
    }
    matrix
}

/// For each node the list of those that an edge leads to.
fn lists_of(rt: &(impl Abort + AllocGlobal), matrix: &BitMatrix) -> Vec<Vec<usize>> {
    let mut lists = Vec::new(rt.alloc());
    for row in 0..matrix.rows() {
        let list = matrix.row(row).iter_set_bits(..).collect(rt.alloc());
        lists.push(list.expect(rt, "memory")).expect(rt, "memory");
    }
    lists
}

// From 256 rows on eight nodes are taken at once: all of them, and one or seven behind the others.
#[test]
fn closures_by_a_table_are_those_of_lists(rt: HostRuntime) {
    for nodes in [256, 257, 263] {
        let mut matrix = random(&rt, nodes, nodes, 400);
        let next = Graph::from_lists(rt.alloc(), &lists_of(&rt, &matrix)).expect(&rt, "lists");
        let sets = closure(rt.alloc(), &next).expect(&rt, "sets");
        let wanted = sets.to_vobs(rt.alloc()).expect(&rt, "memory");
        matrix.close(rt.alloc());
        for row in 0..matrix.rows() {
            let found = matrix.row(row).to_vob(rt.alloc()).expect(&rt, "memory");
            same(&rt, "row", row, Some(&found), wanted.get(row));
        }
    }
}

// Each node leads to the one that a 32nd of its number names, and one more.
#[test]
fn chains_with_fewer_columns_than_rows_are_closed(rt: HostRuntime) {
    for columns in [7, 8, 9] {
        let mut matrix = none(&rt, 256, columns);
        for node in 0..256 {
            mark(&mut matrix, node, (node + 1) % 256);
        }
        matrix.close(rt.alloc());
        for row in 0..256 {
            for column in 0..columns {
                // The way from a node below the last column goes up, and the last node leads on to 0.
                let up = row < column;
                check_entry(&rt, &matrix, row, column, up || row == 255);
            }
        }
    }
}

/// The product, with the ends tested first.
pub fn times(rt: &(impl Abort + AllocGlobal), first: &BitMatrix, second: &BitMatrix) -> BitMatrix {
    assert_eq!(rt; first.columns(), second.rows());
    first.product(rt.alloc(), second).expect(rt, "memory")
}

/// The power, with the ends tested first.
pub fn power(rt: &(impl Abort + AllocGlobal), matrix: &BitMatrix, n: usize) -> BitMatrix {
    assert_eq!(rt; matrix.columns(), matrix.rows());
    matrix.power(rt.alloc(), n).expect(rt, "memory")
}

/// Whether an edge and one of others lead from one node to another.
fn has_two(first: &BitMatrix, second: &BitMatrix, row: usize, column: usize) -> bool {
    let mut found = false;
    for through in 0..second.rows() {
        let edge = first.get(row, through) == Some(true);
        found = found || edge && second.get(through, column) == Some(true);
    }
    found
}

// Four rows of the second are taken at once, and eight if the first has 256 rows.
#[test]
fn products_have_an_entry_for_two_edges(rt: HostRuntime) {
    for (rows, through, columns) in [(9, 7, 65), (3, 65, 8), (2, 0, 1), (257, 9, 2), (256, 8, 1)] {
        let first = random(&rt, rows, through, 200);
        let second = random(&rt, through, columns, 40);
        let product = times(&rt, &first, &second);
        for row in 0..rows {
            for column in 0..columns {
                let wanted = has_two(&first, &second, row, column);
                check_entry(&rt, &product, row, column, wanted);
            }
        }
    }
}

/// The matrix with rows and columns exchanged.
pub fn turned(rt: &(impl Abort + AllocGlobal), matrix: &BitMatrix) -> BitMatrix {
    matrix.transpose(rt.alloc()).expect(rt, "memory")
}

// Of half-full ones each tile of 64 by 64 is transposed at once; the others have few set bits.
#[test]
fn tiles_are_exchanged(rt: HostRuntime) {
    let shapes = [
        (1, 64),
        (8, 7),
        (9, 65),
        (63, 64),
        (64, 64),
        (65, 63),
        (65, 129),
        (130, 64),
    ];
    for (rows, columns) in shapes {
        for entries in [rows + columns, rows * columns] {
            let matrix = random(&rt, rows, columns, entries);
            let once = turned(&rt, &matrix);
            same(&rt, "rows", rows, once.rows(), columns);
            same(&rt, "columns", columns, once.columns(), rows);
            for row in 0..rows {
                for column in 0..columns {
                    same(
                        &rt,
                        "row",
                        row,
                        once.get(column, row),
                        matrix.get(row, column),
                    );
                }
            }
        }
    }
}

/// The union of some columns, with the ends tested first.
fn united(rt: &(impl Abort + AllocGlobal), matrix: &BitMatrix, columns: &Vob) -> Vob {
    assert_eq!(rt; columns.len(), matrix.columns());
    matrix.column_or(rt.alloc(), columns).expect(rt, "memory")
}

#[test]
fn columns_are_united(rt: HostRuntime) {
    let matrix = matrix_of(&rt, 4, &["1010", "0111", "0000", "0001"]);
    for (columns, wanted) in [
        ("1000", "1000"),
        ("0010", "1100"),
        ("0101", "0101"),
        ("0000", "0000"),
    ] {
        check_bits(&rt, &united(&rt, &matrix, &vob_of(&rt, columns)), wanted);
    }
    // Without columns no row has one, and without rows there is no bit.
    check_bits(&rt, &united(&rt, &none(&rt, 2, 0), &vob_of(&rt, "")), "00");
    check_bits(&rt, &united(&rt, &none(&rt, 0, 2), &vob_of(&rt, "11")), "");
    // A matrix wider than a block: row i has column i alone.
    let mut matrix = none(&rt, 70, 70);
    let mut even = vob_of(&rt, "");
    for node in 0..70 {
        mark(&mut matrix, node, node);
        push(&rt, &mut even, node % 2 == 0);
    }
    same(
        &rt,
        "each second row",
        0,
        &united(&rt, &matrix, &even),
        &even,
    );
}

/// `or_rows`, with the end tested first.
fn or_rows(matrix: &mut BitMatrix, into: usize, from: usize) -> bool {
    into < matrix.rows() && from < matrix.rows() && matrix.or_rows(into, from)
}

#[test]
fn entries_are_written_and_rows_added(rt: HostRuntime) {
    let mut matrix = none(&rt, 2, 3);
    same(&rt, "a new entry", 0, mark(&mut matrix, 1, 2), true);
    same(&rt, "the same entry", 0, mark(&mut matrix, 1, 2), false);
    check_rows(&rt, &matrix, 3, &["000", "001"]);
    same(&rt, "past the rows", 2, matrix.get(2, 0), None);
    same(&rt, "past the columns", 3, matrix.get(0, 3), None);

    let mut matrix = matrix_of(&rt, 3, &["100", "110", "001"]);
    // Down, up, into a row that has all, and into itself.
    for (into, from, changed) in [(0, 2, true), (1, 0, true), (1, 2, false), (2, 2, false)] {
        let answer = or_rows(&mut matrix, into, from);
        same(&rt, "a row is added to row", into, answer, changed);
    }
    check_rows(&rt, &matrix, 3, &["101", "111", "001"]);
}

/// `or`, with the shapes tested first.
fn join(matrix: &mut BitMatrix, other: &BitMatrix) -> bool {
    matrix.rows() == other.rows() && matrix.columns() == other.columns() && matrix.or(other)
}

#[test]
fn matrices_are_compared_and_joined(rt: HostRuntime) {
    let mut matrix = matrix_of(&rt, 3, &["100", "010"]);
    let other = matrix_of(&rt, 3, &["001", "010"]);
    let wanted = matrix_of(&rt, 3, &["101", "010"]);
    same(&rt, "they are equal", 0, matrix == other, false);
    same(&rt, "entries are added", 0, join(&mut matrix, &other), true);
    same(&rt, "they are equal", 1, matrix == wanted, true);
    same(
        &rt,
        "entries are added",
        1,
        join(&mut matrix, &other),
        false,
    );
    // Without rows the columns count.
    same(
        &rt,
        "they are equal",
        2,
        none(&rt, 0, 2) == none(&rt, 0, 2),
        true,
    );
    same(
        &rt,
        "they are equal",
        3,
        none(&rt, 0, 2) == none(&rt, 0, 3),
        false,
    );
}
