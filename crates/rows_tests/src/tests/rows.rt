//! Rows of all small lengths: each call that writes, against a formula for each bit.
use super::support::same;
use std::process::Abort;
use vob_rows::BitRows;

/// How long the rows are: none, a block of bits and its neighbours, two blocks and theirs.
pub const LENGTHS: [usize; 8] = [0, 1, 5, 63, 64, 65, 128, 130];

/// Whether bit `j` of row `i` is set at first.
pub fn is_first(i: usize, j: usize) -> bool {
    i.wrapping_add(j.wrapping_mul(2)) % 3 == 0
}

/// Whether it is set in other rows.
pub fn is_other(i: usize, j: usize) -> bool {
    i.wrapping_mul(3).wrapping_add(j) % 4 < 2
}

/// What is done to a row.
#[derive(Clone, Copy, Drop)]
enum Call {
    Nothing,
    Fill(bool),
    Negate,
    Or,
    And,
    AndNot,
    OrRow,
    OrRowAnd,
    OrRowAndNot,
}

/// Sets a bit, which must be there.
fn put(rt: &impl Abort, rows: &mut BitRows, i: usize, j: usize, value: bool) {
    if i < rows.rows() && j < rows.columns() {
        let differs = rows.get(i, j) != Some(value);
        same(rt, "whether it changed", j, rows.set(i, j, value), differs);
    }
}

/// Three rows of some length, with the bits of the one or the other formula.
pub fn three(rt: &(impl Abort + AllocGlobal), columns: usize, others: bool) -> BitRows {
    let mut rows = BitRows::new(rt.alloc(), 3, columns).expect(rt, "memory");
    same(rt, "the rows", columns, rows.rows(), 3);
    same(rt, "the columns", columns, rows.columns(), columns);
    for i in 0..3 {
        for j in 0..columns {
            same(rt, "a new bit", j, rows.get(i, j), Some(false));
            let value = if others {
                is_other(i, j)
            } else {
                is_first(i, j)
            };
            put(rt, &mut rows, i, j, value);
        }
        same(rt, "past the row", i, rows.get(i, columns), None);
    }
    same(rt, "past the rows", columns, rows.get(3, 0), None);
    rows
}

/// Calls on the middle row, with the last of others, or with the first and that as a mask. Returns
/// whether the call says that a bit changed.
fn make_call(rows: &mut BitRows, others: &BitRows, what: Call) -> Option<bool> {
    if rows.rows() != 3 || others.rows() != 3 || rows.columns() != others.columns() {
        return None;
    }
    let other = others.row(2);
    match what {
        Call::Nothing => Some(false),
        Call::Fill(value) => {
            rows.fill_row(1, value);
            None
        }
        Call::Negate => {
            rows.negate_row(1);
            None
        }
        Call::Or => Some(rows.or_with(1, &other)),
        Call::And => Some(rows.and_with(1, &other)),
        Call::AndNot => Some(rows.and_not_with(1, &other)),
        Call::OrRow => Some(rows.or_row(1, 0)),
        Call::OrRowAnd => Some(rows.or_row_and(1, 0, &other)),
        Call::OrRowAndNot => Some(rows.or_row_and_not(1, 0, &other)),
    }
}

/// What bit `j` of the middle row is after a call.
fn after(what: Call, j: usize) -> bool {
    let own = is_first(1, j);
    let from = is_first(0, j);
    let other = is_other(2, j);
    match what {
        Call::Nothing => own,
        Call::Fill(value) => value,
        Call::Negate => !own,
        Call::Or => own || other,
        Call::And => own && other,
        Call::AndNot => own && !other,
        Call::OrRow => own || from,
        Call::OrRowAnd => own || (from && other),
        Call::OrRowAndNot => own || (from && !other),
    }
}

/// Makes a call at each length, and compares all bits and what it says.
fn check(rt: &(impl Abort + AllocGlobal), what: Call) {
    for columns in LENGTHS {
        let mut rows = three(rt, columns, false);
        let others = three(rt, columns, true);
        let said = make_call(&mut rows, &others, what);
        let mut changed = false;
        for j in 0..columns {
            same(rt, "a row before", j, rows.get(0, j), Some(is_first(0, j)));
            same(rt, "the row", j, rows.get(1, j), Some(after(what, j)));
            same(rt, "a row after", j, rows.get(2, j), Some(is_first(2, j)));
            changed |= after(what, j) != is_first(1, j);
        }
        if let Some(said) = said {
            same(rt, "whether it changed", columns, said, changed);
        }
    }
}

#[test]
fn bits_are_those_that_were_set(rt: HostRuntime) {
    check(&rt, Call::Nothing);
}

#[test]
fn bits_of_a_row_are_set_at_indices(rt: HostRuntime) {
    let mut rows = BitRows::<usize>::new(rt.alloc(), 3, 70).expect(&rt, "memory");
    if rows.rows() == 3 && rows.columns() == 70 {
        rows.set_indices(1, &[69, 0, 64, 0]);
        rows.set_indices(1, &[]);
        for i in 0..3 {
            for j in 0..70 {
                let wanted = i == 1 && (j == 0 || j == 64 || j == 69);
                same(&rt, "a bit", j, rows.get(i, j), Some(wanted));
            }
        }
    }
}

#[test]
fn a_row_is_filled_and_negated(rt: HostRuntime) {
    check(&rt, Call::Fill(false));
    check(&rt, Call::Fill(true));
    check(&rt, Call::Negate);
}

#[test]
fn a_row_is_combined_with_another(rt: HostRuntime) {
    check(&rt, Call::Or);
    check(&rt, Call::And);
    check(&rt, Call::AndNot);
}

#[test]
fn a_row_gets_what_a_mask_lets_through(rt: HostRuntime) {
    check(&rt, Call::OrRow);
    check(&rt, Call::OrRowAnd);
    check(&rt, Call::OrRowAndNot);
}

#[test]
fn no_rows_take_no_bits(rt: HostRuntime) {
    let rows = BitRows::<usize>::new(rt.alloc(), 0, 70).expect(&rt, "memory");
    same(&rt, "the rows", 0, rows.rows(), 0);
    same(&rt, "the columns", 0, rows.columns(), 70);
    same(&rt, "a bit", 0, rows.get(0, 0), None);
}
