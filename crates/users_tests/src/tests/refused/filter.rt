//! Comparisons and conditions: refused, a call leaves the columns as they were.
use crate::tests::support::{FIRST, given, request, same, same_list, tell};
use std::alloc::{AllocError, Global};
use vob_filter::column::Column;
use vob_filter::compare::{Comparison, compare_known};
use vob_filter::filter::{Expression, are_rows, count, select};

/// Makes the column of whether each of three numbers is below 3. The second one is missing.
fn compared(alloc: Global) -> Result<Column, AllocError> {
    let numbers = [Some(1), None, Some(3)];
    compare_known(alloc, &numbers, Comparison::LessThan(3))
}

#[test]
fn numbers_are_compared_or_refused(rt: HostRuntime) {
    request(&rt, FIRST);
    let column = given(&rt, compared(rt.alloc()), AllocError);
    tell(&rt, column.is_some());
    if let Some(column) = column {
        same(&rt, "the length", 0, column.len(), 3);
    }
}

#[test]
fn missing_values_are_made_or_refused(rt: HostRuntime) {
    request(&rt, FIRST);
    let column = given(&rt, Column::missing(rt.alloc(), 65), AllocError);
    tell(&rt, column.is_some());
    if let Some(column) = column {
        same(&rt, "the length", 0, column.len(), 65);
        same_list(&rt, "the rows", column.into_true().get_storage(), &[0, 0]);
    }
}

#[test]
fn columns_are_copied_or_refused(rt: HostRuntime) {
    request(&rt, FIRST - 2);
    let column = compared(rt.alloc()).expect(&rt, "memory");
    let copy = given(&rt, column.clone(), AllocError);
    tell(&rt, copy.is_some());
    if let Some(copy) = copy {
        same_list(&rt, "the rows", copy.into_true().get_storage(), &[0b001]);
    }
    same_list(&rt, "the rows", column.into_true().get_storage(), &[0b001]);
}

#[test]
fn rows_of_a_condition_are_counted_or_refused(rt: HostRuntime) {
    request(&rt, FIRST - 3);
    let mut columns = Vec::with_capacity(rt.alloc(), 1).expect(&rt, "memory");
    let column = compared(rt.alloc()).expect(&rt, "memory");
    columns.push(column).expect(&rt, "room");
    if are_rows(&columns, 3) {
        let rows = count(rt.alloc(), &Expression::Column(0), &columns, 3);
        let rows = given(&rt, rows, AllocError);
        tell(&rt, rows.is_some());
        same(&rt, "the rows", 0, rows.unwrap_or(1), 1);
    }
}

#[test]
fn conditions_select_rows_or_are_refused(rt: HostRuntime) {
    request(&rt, FIRST - 4);
    let mut columns = Vec::with_capacity(rt.alloc(), 1).expect(&rt, "memory");
    let column = compared(rt.alloc()).expect(&rt, "memory");
    columns.push(column).expect(&rt, "room");
    let first = Box::new(rt.alloc(), Expression::Column(0)).expect(&rt, "memory");
    let condition = Expression::Not(first);
    if are_rows(&columns, 3) {
        let kept = given(&rt, select(rt.alloc(), &condition, &columns, 3), AllocError);
        tell(&rt, kept.is_some());
        if let Some(kept) = kept {
            same_list(&rt, "the rows", kept.get_storage(), &[0b100]);
        }
    }
}
