//! The rows of a filter: refused, a call leaves the filter as it was.
use crate::tests::support::{FIRST, given, request, same_list, tell};
use std::alloc::AllocError;
use std::process::Abort;
use vob::Vob;
use vob_filter::rows::{kept_rows, page, page_back, select};

/// Whether rows were given, which then are these.
fn are_given(rt: &impl Abort, rows: Result<Vec<usize>, AllocError>, wanted: &[usize]) -> bool {
    let Some(rows) = given(rt, rows, AllocError) else {
        return false;
    };
    same_list(rt, "the rows", &rows, wanted);
    true
}

// A list that is collected asks for less if its first request is refused, and is whole then.
#[test]
fn rows_of_a_filter_are_selected_by_one_request(rt: HostRuntime) {
    request(&rt, FIRST - 1);
    let filter = Vob::from_slice(rt.alloc(), &[true, false, true]).expect(&rt, "memory");
    let none = given(&rt, select(&filter, &filter, &filter), AllocError);
    let selected = none.is_some();
    if let Some(none) = none {
        same_list(&rt, "the rows", none.get_storage(), &[0]);
    }
    let kept = are_given(&rt, kept_rows(rt.alloc(), &filter), &[0, 2]);
    let first = are_given(&rt, page(rt.alloc(), &filter, 0, 1), &[0]);
    let last = are_given(&rt, page_back(rt.alloc(), &filter, 0, 1), &[2]);
    same_list(&rt, "the filter", filter.get_storage(), &[0b101]);
    tell(&rt, selected && kept && first && last);
}
