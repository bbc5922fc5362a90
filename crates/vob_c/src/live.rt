//! The variables that a program still needs at each node of its flow graph. Row n of bits is of node n, and
//! has a bit for each variable.
ghost use Rattle.std.specs.Prelude.{◌≡◌, ◌≢◌, ◌-◌, length, IfOk};
ghost use Rattle.vob_rows.specs.Ends.{lists_of};
ghost use Rattle.vob_c.specs.Graphs.{AreNodes, AreOffsets};
ghost use Rattle.vob_c.specs.Live.{AreLiveRows};
ghost use Rattle.vob_c.specs.Rows.{AreCanonicalRows, HasRowWords, rows_in};
ghost use Rattle.vob_c.specs.Status.{Tells, TellsOrMemory};

use crate::copies::{Shape, rows_of, write_rows};
use crate::graphs::{are_offsets, graph_of};
use crate::rows::{are_canonical, has_row_words};
use crate::status::{LENGTH, MEMORY, NOT_CANONICAL, OK, RANGE};
use std::alloc::Global;
use vob_flow::{Masks, SolveError, reaching_definitions};
use vob_rows::{BitRows, all_below};

/// Returns the rows of what is live before each node, and of what is live after it. Fails if memory runs out.
fn solve_live(
    alloc: Global,
    offsets: &[usize],
    ends: &[usize],
    shape: Shape,
    reads: &[usize],
    writes: &[usize],
) -> Result<(BitRows, BitRows), SolveError>
    requires offsets { AreOffsets shape.rows offsets.now ends.now }
    requires reads { AreCanonicalRows shape.rows shape.columns reads.now }
    requires writes { AreCanonicalRows shape.rows shape.columns writes.now }
    ensures live { IfOk result (λ live. AreLiveRows (lists_of offsets.now ends.now)
        (rows_in shape.rows shape.columns reads.now)
        (rows_in shape.rows shape.columns writes.now) live.0.rows live.1.rows) }
    ensures before { IfOk result
        (λ live. (length live.0.rows ≡ shape.rows) × (live.0.columns ≡ shape.columns)) }
    ensures after { IfOk result
        (λ live. (length live.1.rows ≡ shape.rows) × (live.1.columns ≡ shape.columns)) }
{
    let next = graph_of(alloc, offsets, ends, shape.rows)?;
    let written = rows_of(alloc, writes, shape)?;
    let mut before = rows_of(alloc, reads, shape)?;
    // What reaches a node along the edges turned around is what is live there.
    let after = reaching_definitions(alloc, &mut before, &next, Masks::Without(&written))?;
    Ok((before, after))
}

/// Writes into `before` and `after` the variables that are live before each node and after it. After a node
/// is live what is live before a node that comes next. Before it is live what it reads, and what is live
/// after it and not written there. Each of the four arrays has a row of `variables` bits for each node. What
/// stood in `before` and `after` isn't read.
#[unsafe(no_mangle)]
pub extern "C" fn conthiral_liveness(
    alloc: Global,
    offsets: &[usize],
    ends: &[usize],
    variables: usize,
    reads: &[usize],
    writes: &[usize],
    before: &mut [usize],
    after: &mut [usize],
) -> u8
    ensures status { TellsOrMemory (λ told. Tells told
        (AreOffsets (length offsets.now - 1) offsets.now ends.now
        × HasRowWords (length offsets.now - 1) variables reads.now
        × HasRowWords (length offsets.now - 1) variables writes.now
        × HasRowWords (length offsets.now - 1) variables before.old
        × HasRowWords (length offsets.now - 1) variables after.old)
        (AreCanonicalRows (length offsets.now - 1) variables reads.now
        × AreCanonicalRows (length offsets.now - 1) variables writes.now)
        (AreNodes (length offsets.now - 1) ends.now)) result }
    ensures canonical { result ≡ 0
        → AreCanonicalRows (length offsets.now - 1) variables before.new
        × AreCanonicalRows (length offsets.now - 1) variables after.new }
    ensures live { result ≡ 0 → AreLiveRows (lists_of offsets.now ends.now)
        (rows_in (length offsets.now - 1) variables reads.now)
        (rows_in (length offsets.now - 1) variables writes.now)
        (rows_in (length offsets.now - 1) variables before.new)
        (rows_in (length offsets.now - 1) variables after.new) }
    ensures refused { result ≢ 0 → (before.new ≡ before.old) × (after.new ≡ after.old) }
{
    let nodes = offsets.len().saturating_sub(1);
    if !are_offsets(offsets, ends, nodes)
        || !has_row_words(reads, nodes, variables)
        || !has_row_words(writes, nodes, variables)
        || !has_row_words(before, nodes, variables)
        || !has_row_words(after, nodes, variables)
    {
        return LENGTH;
    }
    if !are_canonical(reads, nodes, variables) || !are_canonical(writes, nodes, variables) {
        return NOT_CANONICAL;
    }
    if !all_below(ends, nodes) {
        return RANGE;
    }
    let shape = Shape {
        rows: nodes,
        columns: variables,
    };
    let Ok(live) = solve_live(alloc, offsets, ends, shape, reads, writes) else {
        return MEMORY;
    };
    write_rows(&live.0, before);
    write_rows(&live.1, after);
    OK
}
