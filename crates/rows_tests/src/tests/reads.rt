//! A row reads like a Vob: each call that reads, at all small lengths.
use super::rows::{LENGTHS, is_first, is_other, three};
use super::support::same;
use std::process::Abort;
use vob::Vob;
use vob_rows::{BitRows, Row};

/// Compares what a row says with the formula of the middle row.
fn check_row(rt: &(impl Abort + AllocGlobal), row: &Row<'_>, columns: usize) {
    same(rt, "the length", columns, row.len(), columns);
    let mut count: usize = 0;
    let mut set = row.iter_set_bits(..);
    for j in 0..columns {
        let bit = is_first(1, j);
        same(rt, "a bit", j, row.get(j), Some(bit));
        same(rt, "set bits before", j, row.rank(j), count);
        if bit {
            same(rt, "a set bit", j, set.next(), Some(j));
            count = count.saturating_add(1);
        }
    }
    same(rt, "past the row", columns, row.get(columns), None);
    same(rt, "past the set bits", columns, set.next(), None);
    same(rt, "all set bits", columns, row.count_ones(), count);
}

#[test]
fn a_row_reads_like_a_vob(rt: HostRuntime) {
    for columns in LENGTHS {
        let rows = three(&rt, columns, false);
        if rows.rows() == 3 {
            check_row(&rt, &rows.row(1), columns);
            let vob = rows.row(1).to_vob(rt.alloc()).expect(&rt, "memory");
            check_row(&rt, &Row::of(&vob), columns);
        }
    }
}

#[test]
fn a_row_is_added_to_a_vob(rt: HostRuntime) {
    for columns in LENGTHS {
        let rows = three(&rt, columns, false);
        let others = three(&rt, columns, true);
        if rows.rows() == 3 && others.rows() == 3 {
            let mut vob = rows.row(1).to_vob(rt.alloc()).expect(&rt, "memory");
            let other = others.row(1);
            assert!(rt; other.len() == vob.len());
            let grew = other.or_into(&mut vob);
            let mut is_more = false;
            for j in 0..columns {
                is_more |= is_other(1, j) && !is_first(1, j);
                same(
                    &rt,
                    "a bit",
                    j,
                    vob.get(j),
                    Some(is_first(1, j) || is_other(1, j)),
                );
            }
            same(&rt, "whether it grew", columns, grew, is_more);
        }
    }
}

#[test]
fn the_next_set_bit_of_a_row_is_found(rt: HostRuntime) {
    for columns in LENGTHS {
        let rows = three(&rt, columns, false);
        if rows.rows() == 3 {
            for from in 0..=columns {
                let wanted = (from..columns).find(|j| is_first(1, *j));
                same(&rt, "the next", from, rows.row(1).next_set(from), wanted);
            }
            same(&rt, "past all", 0, rows.row(1).next_set(usize::MAX), None);
        }
    }
}

#[test]
fn rows_become_vobs_and_vobs_rows(rt: HostRuntime) {
    for columns in LENGTHS {
        let rows = three(&rt, columns, false);
        let vobs = rows.to_vobs(rt.alloc()).expect(&rt, "memory");
        same(&rt, "rows", columns, vobs.len(), 3);
        let again = BitRows::from_vobs(rt.alloc(), rows.columns(), &vobs).expect(&rt, "memory");
        same(&rt, "columns", columns, again.columns(), columns);
        for (i, vob) in vobs.iter().enumerate() {
            same(&rt, "the length", i, vob.len(), columns);
            for j in 0..columns {
                same(&rt, "a bit of a Vob", j, vob.get(j), Some(is_first(i, j)));
                same(
                    &rt,
                    "a bit of a row",
                    j,
                    again.get(i, j),
                    Some(is_first(i, j)),
                );
            }
        }
    }
    let none = BitRows::<usize>::from_vobs(rt.alloc(), 5, &[]).expect(&rt, "no memory");
    same(&rt, "no rows", 5, none.rows(), 0);
    same(&rt, "no row's columns", 0, none.columns(), 5);
}

/// Compares rows of two lengths of the first formula and of the other.
fn are_apart(rt: &impl Abort, rows: &BitRows, others: &BitRows, columns: usize) {
    if rows.rows() == 3 && others.rows() == 3 && rows.columns() == others.columns() {
        let mut apart = true;
        for j in 0..columns {
            apart &= !(is_first(0, j) && is_other(1, j));
        }
        let found = rows.row(0).is_disjoint(&others.row(1));
        same(rt, "whether they are disjoint", columns, found, apart);
    }
}

#[test]
fn rows_are_disjoint_or_not(rt: HostRuntime) {
    for columns in LENGTHS {
        let rows = three(&rt, columns, false);
        let others = three(&rt, columns, true);
        are_apart(&rt, &rows, &others, columns);
    }
}

#[test]
fn bits_of_a_row_are_read_as_a_block(rt: HostRuntime) {
    let vob = Vob::<usize>::from_digits(rt.alloc(), "0110100").expect(&rt, "digits");
    let row = Row::of(&vob);
    if row.len() == 7 {
        same(&rt, "no bit", 0, row.load(3..3), 0);
        same(&rt, "three bits", 0, row.load(2..5), 0b101);
        same(&rt, "all bits", 0, row.load(0..7), 0b001_0110);
    }
}
