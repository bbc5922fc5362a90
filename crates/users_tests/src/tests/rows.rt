//! The rows of a filter.
use super::support::{check_bits, same, vob_of};
use vob::Vob;
use vob_filter::rows::{count_between, count_rows, kept_rows, page, page_back, select};

#[test]
fn a_filter_keeps_the_rows_of_its_set_bits(rt: HostRuntime) {
    let filter = vob_of(&rt, "01011");
    let rows = kept_rows(rt.alloc(), &filter).expect(&rt, "memory");
    same(&rt, "rows", 0, rows.as_slice(), &[1, 3, 4]);
    let none = kept_rows(rt.alloc(), &Vob::new(rt.alloc())).expect(&rt, "memory");
    same(&rt, "rows of no filter", 0, none.as_slice(), &[]);
}

#[test]
fn rows_are_selected_by_columns(rt: HostRuntime) {
    let mut first = Vob::from_elem(rt.alloc(), true, 6).expect(&rt, "memory");
    first.set(2, false);
    let mut second = Vob::from_elem(rt.alloc(), true, 6).expect(&rt, "memory");
    second.set(1, false);
    let mut without = Vob::from_elem(rt.alloc(), false, 6).expect(&rt, "memory");
    without.set(4, true);
    let rows = select(&first, &second, &without).expect(&rt, "memory");
    check_bits(&rt, &rows, "100101");
    same(&rt, "rows", 0, count_rows(&rows), 3);
    let found = count_between(&rows, 1, 5);
    same(&rt, "rows from 1 to below 5", 0, found, 1);
    let next = page(rt.alloc(), &rows, 1, 1).expect(&rt, "memory");
    same(&rt, "a page", 0, next.as_slice(), &[3]);
    let last = page_back(rt.alloc(), &rows, 0, 2).expect(&rt, "memory");
    same(&rt, "the last page", 0, last.as_slice(), &[5, 3]);
    let past = page(rt.alloc(), &rows, 3, 2).expect(&rt, "memory");
    same(&rt, "a page past the last row", 0, past.as_slice(), &[]);
}
