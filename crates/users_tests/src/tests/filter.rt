//! Conditions over columns whose values may be missing: SQL's tables whole, and comparisons at
//! lengths around a byte and a word.
use super::support::{check_bits, same};
use std::process::Abort;
use vob_filter::column::Column;
use vob_filter::compare::{Comparison, compare, compare_known};
use vob_filter::filter::{Expression, are_rows, count, evaluate, select};

/// The value that a letter stands for: true, false, or missing.
fn value_of(letter: u8) -> Option<bool> {
    match letter {
        b't' => Some(true),
        b'f' => Some(false),
        _ => None,
    }
}

/// Makes the column of these letters, the first row's first.
fn column_of(rt: &(impl Abort + AllocGlobal), letters: &str) -> Column {
    let mut column = Column::missing(rt.alloc(), letters.len()).expect(rt, "memory");
    for (row, letter) in letters.as_bytes().iter().enumerate() {
        if row < column.len() {
            column.set(row, value_of(*letter));
        }
    }
    column
}

/// Compares the length and each value with these letters.
fn check_column(rt: &impl Abort, column: &Column, letters: &str) {
    same(rt, "the length", 0, column.len(), letters.len());
    for (row, letter) in letters.as_bytes().iter().enumerate() {
        if row < column.len() {
            same(rt, "row", row, column.get(row), value_of(*letter));
        }
    }
}

#[test]
fn the_tables_are_those_of_sql(rt: HostRuntime) {
    let first = column_of(&rt, "tttfffnnn");
    let second = column_of(&rt, "tfntfntfn");
    let mut both = first.clone().expect(&rt, "memory");
    let mut either = first.clone().expect(&rt, "memory");
    let mut contrary = first.clone().expect(&rt, "memory");
    assert!(rt; both.len() == second.len());
    assert!(rt; either.len() == second.len());
    both.and(&second);
    either.or(&second);
    contrary.not();
    check_column(&rt, &both, "tfnfffnfn");
    check_column(&rt, &either, "ttttfntnn");
    check_column(&rt, &contrary, "ffftttnnn");
    check_column(&rt, &second, "tfntfntfn");
    check_bits(&rt, &both.into_true(), "100000000");
}

/// A condition on two boxes.
fn and(rt: &(impl Abort + AllocGlobal), first: Expression, second: Expression) -> Expression {
    let first = Box::new(rt.alloc(), first).expect(rt, "memory");
    Expression::And(first, Box::new(rt.alloc(), second).expect(rt, "memory"))
}

/// The contrary of a condition.
fn not(rt: &(impl Abort + AllocGlobal), inner: Expression) -> Expression {
    Expression::Not(Box::new(rt.alloc(), inner).expect(rt, "memory"))
}

/// A condition on two boxes.
fn or(rt: &(impl Abort + AllocGlobal), first: Expression, second: Expression) -> Expression {
    let first = Box::new(rt.alloc(), first).expect(rt, "memory");
    Expression::Or(first, Box::new(rt.alloc(), second).expect(rt, "memory"))
}

#[test]
fn conditions_keep_the_rows_of_which_they_are_true(rt: HostRuntime) {
    let mut columns = Vec::new(rt.alloc());
    columns
        .push(column_of(&rt, "tttfffnnn"))
        .expect(&rt, "memory");
    columns
        .push(column_of(&rt, "tfntfntfn"))
        .expect(&rt, "memory");
    assert!(rt; are_rows(&columns, 9));
    assert!(rt; !are_rows(&columns, 8));
    if are_rows(&columns, 9) {
        let both = and(&rt, Expression::Column(0), Expression::Column(1));
        let column = evaluate(rt.alloc(), &both, &columns, 9).expect(&rt, "memory");
        check_column(&rt, &column, "tfnfffnfn");
        // Not both, or the first.
        let all = or(&rt, not(&rt, both), Expression::Column(0));
        let kept = select(rt.alloc(), &all, &columns, 9).expect(&rt, "memory");
        check_bits(&rt, &kept, "111111010");
        let unknown = not(&rt, Expression::Column(2));
        let kept = select(rt.alloc(), &unknown, &columns, 9).expect(&rt, "memory");
        check_bits(&rt, &kept, "000000000");
    }
}

/// The number of a row.
fn number_of(row: usize) -> i64 {
    (row % 11 * 37 % 11) as i64 - 5
}

/// Compares the columns of comparisons of `len` numbers with each comparison by itself.
fn check_compared(rt: &(impl Abort + AllocGlobal), len: usize, comparison: Comparison) {
    let mut values = Vec::new(rt.alloc());
    let mut known = Vec::new(rt.alloc());
    for row in 0..len {
        values.push(number_of(row)).expect(rt, "memory");
        let there = if row % 3 == 1 {
            None
        } else {
            Some(number_of(row))
        };
        known.push(there).expect(rt, "memory");
    }
    let all = compare(rt.alloc(), &values, comparison).expect(rt, "memory");
    let some = compare_known(rt.alloc(), &known, comparison).expect(rt, "memory");
    same(rt, "the length", len, all.len(), len);
    same(rt, "the length", len, some.len(), len);
    for row in 0..len {
        let number = number_of(row);
        let passes = match comparison {
            Comparison::LessThan(limit) => number < limit,
            Comparison::EqualTo(wanted) => number == wanted,
        };
        if row < all.len() && row < some.len() {
            same(rt, "row", row, all.get(row), Some(passes));
            let wanted = if row % 3 == 1 { None } else { Some(passes) };
            same(rt, "known row", row, some.get(row), wanted);
        }
    }
}

#[test]
fn comparisons_are_packed_at_each_length(rt: HostRuntime) {
    for len in [0, 1, 7, 8, 9, 63, 64, 65, 127, 128, 129] {
        check_compared(&rt, len, Comparison::LessThan(0));
        check_compared(&rt, len, Comparison::EqualTo(-2));
    }
}

#[test]
fn rows_of_which_a_condition_is_true_are_counted(rt: HostRuntime) {
    let mut columns = Vec::new(rt.alloc());
    columns.push(column_of(&rt, "tfntf")).expect(&rt, "memory");
    let condition = not(&rt, Expression::Column(0));
    assert!(rt; are_rows(&columns, 5));
    if are_rows(&columns, 5) {
        let rows = count(rt.alloc(), &condition, &columns, 5).expect(&rt, "memory");
        same(&rt, "rows", 0, rows, 2);
    }
}
