//! Workloads on a matrix of bits: its transitive closure, by Warshall's way, over rows of their own and
//! by a `BitMatrix`; and its transpose.

use crate::checksum::{checksum_all, checksum_rows};
use crate::rounds::Missing;
use std::alloc::{AllocError, Global};
use vob::Vob;
use vob_matrix::matrix::BitMatrix;

/// Appends a row.
fn push_row(rows: &mut Vec<Vob>, row: Vob) -> Result<(), AllocError> {
    rows.push(row)?;
    Ok(())
}

/// The rows of a matrix.
fn rows_of(alloc: Global, bytes: &[u8], row_bytes: usize) -> Result<Vec<Vob>, Missing> {
    let mut rows = Vec::new(alloc);
    if row_bytes != 0 {
        for row in bytes.chunks(row_bytes) {
            push_row(&mut rows, Vob::from_bytes(alloc, row)?)?;
        }
    }
    Ok(rows)
}

/// A copy of a matrix.
fn copy_of(alloc: Global, rows: &[Vob]) -> Result<Vec<Vob>, Missing> {
    let mut copies = Vec::with_capacity(alloc, rows.len())?;
    for row in rows.iter() {
        push_row(&mut copies, row.clone()?)?;
    }
    Ok(copies)
}

/// Adds the row of node `k` to each row that leads to it, and returns how many rows changed.
#[inline(never)]
fn lead_through(rows: &mut [Vob], k: usize, through: &Vob) -> u64 {
    let mut times: u64 = 0;
    for row in rows.iter_mut() {
        let leads = row.get(k) == Some(true);
        if leads && row.len() == through.len() && row.or(through) {
            times = times.wrapping_add(1);
        }
    }
    times
}

/// Makes each row hold all nodes that it leads to, and returns how many times a row changed.
fn close(rows: &mut [Vob]) -> Result<u64, Missing> {
    let mut times: u64 = 0;
    for k in 0..rows.len() {
        let through = rows[k].clone()?;
        times = times.wrapping_add(lead_through(rows, k, &through));
    }
    Ok(times)
}

/// The closure of a copy a round, and the checksum of its rows.
#[inline(never)]
pub(crate) fn closure(
    alloc: Global,
    bytes: &[u8],
    row_bytes: usize,
    rounds: usize,
) -> Result<u64, Missing> {
    let mut times: u64 = 0;
    let mut last = Vec::new(alloc);
    let rows = rows_of(alloc, bytes, row_bytes)?;
    for _ in 0..rounds {
        let mut closed = copy_of(alloc, &rows)?;
        times = times.wrapping_add(close(&mut closed)?);
        last = closed;
    }
    Ok(checksum_all(&last, times))
}

/// The graph of `nodes` nodes with edges of two numbers each: from which node, and to which.
fn graph_of(alloc: Global, steps: &[usize], nodes: usize) -> Result<BitMatrix, AllocError> {
    let mut matrix = BitMatrix::new(alloc, nodes, nodes)?;
    for step in 0..steps.len() / 2 {
        let from = steps[2 * step];
        let to = steps[2 * step + 1];
        if from < matrix.rows() && to < matrix.columns() {
            matrix.set(from, to, true);
        }
    }
    Ok(matrix)
}

/// The closure of a graph a round, and the checksum of its rows.
#[inline(never)]
pub(crate) fn close_graph(
    alloc: Global,
    steps: &[usize],
    nodes: usize,
    rounds: usize,
) -> Result<u64, Missing> {
    let mut times: u64 = 0;
    let mut last = BitMatrix::new(alloc, 0, 0)?;
    for round in 0..rounds {
        let mut matrix = graph_of(alloc, steps, nodes)?;
        matrix.close(alloc);
        let node = if nodes == 0 { 0 } else { round % nodes };
        times = times.wrapping_add((matrix.get(node, node) == Some(true)) as u64);
        last = matrix;
    }
    Ok(checksum_rows(&last, times))
}

/// The matrix of rows of bytes.
fn matrix_of(alloc: Global, bytes: &[u8], row_bytes: usize) -> Result<BitMatrix, Missing> {
    let rows = rows_of(alloc, bytes, row_bytes)?;
    let columns = rows.first().map_or(0, |row| row.len());
    let mut matrix = BitMatrix::new(alloc, rows.len(), columns)?;
    for row in 0..rows.len() {
        for column in rows[row].iter_set_bits(..) {
            if row < matrix.rows() && column < matrix.columns() {
                matrix.set(row, column, true);
            }
        }
    }
    Ok(matrix)
}

/// The transpose a round, and the checksum of its rows.
#[inline(never)]
pub(crate) fn transpose(
    alloc: Global,
    bytes: &[u8],
    row_bytes: usize,
    rounds: usize,
) -> Result<u64, Missing> {
    let mut times: u64 = 0;
    let mut last = BitMatrix::new(alloc, 0, 0)?;
    let matrix = matrix_of(alloc, bytes, row_bytes)?;
    for round in 0..rounds {
        let turned = matrix.transpose(alloc)?;
        times = times.wrapping_add((turned.get(0, round) == Some(true)) as u64);
        last = turned;
    }
    Ok(checksum_rows(&last, times))
}
