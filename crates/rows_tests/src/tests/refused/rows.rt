//! Rows of bits: refused, a call leaves what it works on as it was.
use crate::tests::support::{FIRST, given, request, same, tell};
use std::alloc::AllocError;
use vob::Vob;
use vob_rows::BitRows;

#[test]
fn rows_are_made_or_refused(rt: HostRuntime) {
    request(&rt, FIRST);
    let rows = given(&rt, BitRows::<usize>::new(rt.alloc(), 2, 65), AllocError);
    let made = rows.is_some();
    if let Some(rows) = rows {
        same(&rt, "a bit", 0, rows.get(1, 64), Some(false));
    }
    tell(&rt, made);
}

#[test]
fn rows_are_copied_or_refused(rt: HostRuntime) {
    request(&rt, FIRST - 1);
    let rows = BitRows::<usize>::new(rt.alloc(), 2, 65).expect(&rt, "memory");
    let copy = given(&rt, rows.clone(), AllocError);
    let copied = copy.is_some();
    if let Some(copy) = copy {
        same(&rt, "a bit", 0, copy.get(1, 64), Some(false));
    }
    tell(&rt, copied);
}

#[test]
fn a_row_becomes_a_vob_or_is_refused(rt: HostRuntime) {
    request(&rt, FIRST - 1);
    let rows = BitRows::<usize>::new(rt.alloc(), 1, 65).expect(&rt, "memory");
    if rows.rows() == 1 {
        let vob = given(&rt, rows.row(0).to_vob(rt.alloc()), AllocError);
        let made = vob.is_some();
        if let Some(vob) = vob {
            same(&rt, "the length", 0, vob.len(), 65);
        }
        tell(&rt, made);
    }
}

#[test]
fn rows_become_vobs_or_are_refused(rt: HostRuntime) {
    request(&rt, FIRST - 1);
    let rows = BitRows::<usize>::new(rt.alloc(), 2, 65).expect(&rt, "memory");
    let vobs = given(&rt, rows.to_vobs(rt.alloc()), AllocError);
    let made = vobs.is_some();
    if let Some(vobs) = vobs {
        same(&rt, "rows", 0, vobs.len(), 2);
    }
    tell(&rt, made);
}

#[test]
fn vobs_become_rows_or_are_refused(rt: HostRuntime) {
    request(&rt, FIRST - 1);
    let vob = Vob::<usize>::from_elem(rt.alloc(), true, 65).expect(&rt, "memory");
    let vobs = [vob];
    if vobs[0].len() == 65 {
        let rows = given(&rt, BitRows::from_vobs(rt.alloc(), 65, &vobs), AllocError);
        let made = rows.is_some();
        if let Some(rows) = rows {
            same(&rt, "a bit", 0, rows.get(0, 64), Some(true));
        }
        tell(&rt, made);
    }
}
