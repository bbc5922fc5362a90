//! Workloads for a benchmark, called from another language by name. Each builds its Vobs once, then
//! does one call or one list of calls a round. It returns a checksum, so that a compiler leaves out
//! nothing that is timed. `NONE` is returned if memory runs out or no workload has the name.
#![tactic(auto)]

mod bits;
mod checksum;
mod columns;
mod flow;
mod matrix;
mod pair;
mod plain;
mod rounds;
mod slots;
mod walk;
mod whole;

use std::alloc::Global;

/// Greater than any checksum of a whole run.
const NONE: u64 = u64::MAX;

/// Calls on one bit after another, and on a slice of bits, which the bytes hold too.
#[unsafe(no_mangle)]
pub extern "C" fn vob_bench_bits(
    alloc: Global,
    name: &[u8],
    bits: &[bool],
    bytes: &[u8],
    indices: &[usize],
    rounds: usize,
) -> u64 {
    bits::run(alloc, name, bits, bytes, indices, rounds).unwrap_or(NONE)
}

/// Calls on all bits, or on a range of them.
#[unsafe(no_mangle)]
pub extern "C" fn vob_bench_whole(alloc: Global, name: &[u8], bytes: &[u8], rounds: usize) -> u64 {
    whole::run(alloc, name, bytes, rounds).unwrap_or(NONE)
}

/// Calls on indices.
#[unsafe(no_mangle)]
pub extern "C" fn vob_bench_walk(alloc: Global, name: &[u8], bytes: &[u8], rounds: usize) -> u64 {
    walk::run(alloc, name, bytes, rounds).unwrap_or(NONE)
}

/// Calls on two Vobs.
#[unsafe(no_mangle)]
pub extern "C" fn vob_bench_pair(
    alloc: Global,
    name: &[u8],
    bytes: &[u8],
    others: &[u8],
    rounds: usize,
) -> u64 {
    pair::run(alloc, name, bytes, others, rounds).unwrap_or(NONE)
}

/// Calls on two Vobs of `u64`, whose kernels have no lanes.
#[unsafe(no_mangle)]
pub extern "C" fn vob_bench_plain(
    alloc: Global,
    name: &[u8],
    bytes: &[u8],
    others: &[u8],
    rounds: usize,
) -> u64 {
    plain::run(alloc, name, bytes, others, rounds).unwrap_or(NONE)
}

/// The transitive closure of a bit matrix whose rows have `row_bytes` bytes.
#[unsafe(no_mangle)]
pub extern "C" fn vob_bench_closure(
    alloc: Global,
    bytes: &[u8],
    row_bytes: usize,
    rounds: usize,
) -> u64 {
    matrix::closure(alloc, bytes, row_bytes, rounds).unwrap_or(NONE)
}

/// The transitive closure of a `BitMatrix` of `nodes` nodes, with edges of two numbers each.
#[unsafe(no_mangle)]
pub extern "C" fn vob_bench_matrix(
    alloc: Global,
    steps: &[usize],
    nodes: usize,
    rounds: usize,
) -> u64 {
    matrix::close_graph(alloc, steps, nodes, rounds).unwrap_or(NONE)
}

/// The transitive closure of a graph given by lists, with edges of two numbers each.
#[unsafe(no_mangle)]
pub extern "C" fn vob_bench_lists(
    alloc: Global,
    steps: &[usize],
    nodes: usize,
    rounds: usize,
) -> u64 {
    flow::close_lists(alloc, steps, nodes, rounds).unwrap_or(NONE)
}

/// Which of `vars` variables are live at the nodes of a flow graph, of four numbers each.
#[unsafe(no_mangle)]
pub extern "C" fn vob_bench_live(
    alloc: Global,
    numbers: &[usize],
    vars: usize,
    rounds: usize,
) -> u64 {
    flow::live(alloc, numbers, vars, rounds).unwrap_or(NONE)
}

/// Which of `expressions` expressions are available at the ends of the nodes of a flow graph, of four
/// numbers each.
#[unsafe(no_mangle)]
pub extern "C" fn vob_bench_available(
    alloc: Global,
    numbers: &[usize],
    expressions: usize,
    rounds: usize,
) -> u64 {
    flow::available(alloc, numbers, expressions, rounds).unwrap_or(NONE)
}

/// The transpose of a bit matrix whose rows have `row_bytes` bytes.
#[unsafe(no_mangle)]
pub extern "C" fn vob_bench_transpose(
    alloc: Global,
    bytes: &[u8],
    row_bytes: usize,
    rounds: usize,
) -> u64 {
    matrix::transpose(alloc, bytes, row_bytes, rounds).unwrap_or(NONE)
}

/// Slots that are taken and given back, by the steps of a script.
#[unsafe(no_mangle)]
pub extern "C" fn vob_bench_slots(
    alloc: Global,
    steps: &[usize],
    slots: usize,
    rounds: usize,
) -> u64 {
    slots::script(alloc, steps, slots, rounds).unwrap_or(NONE)
}

/// An arena of slots, of which two are given back and taken again.
#[unsafe(no_mangle)]
pub extern "C" fn vob_bench_arena(alloc: Global, slots: usize, rounds: usize) -> u64 {
    slots::arena(alloc, slots, rounds).unwrap_or(NONE)
}

/// How many rows of three columns meet a condition.
#[unsafe(no_mangle)]
pub extern "C" fn vob_bench_columns(
    alloc: Global,
    bytes: &[u8],
    others: &[u8],
    rounds: usize,
) -> u64 {
    columns::filter(alloc, bytes, others, rounds).unwrap_or(NONE)
}
