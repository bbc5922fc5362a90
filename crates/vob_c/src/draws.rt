//! Sets that draw from one another along the edges of a graph: row n of bits is the set of node n, and draws
//! from those of the nodes to which its edges lead.
ghost use Rattle.std.specs.Prelude.{◌≡◌, ◌≢◌, ◌-◌, ℕ, length, IfOk};
ghost use Rattle.vob_flow.specs.Draws.{AreLeast, FitMasks, mask_of};
ghost use Rattle.vob_flow.specs.Greatest.{AreGreatest, away};
ghost use Rattle.vob_rows.specs.Ends.{lists_of};
ghost use Rattle.vob_c.specs.Draws.{lets};
ghost use Rattle.vob_c.specs.Found.{found_below};
ghost use Rattle.vob_c.specs.Graphs.{AreNodes, AreOffsets};
ghost use Rattle.vob_c.specs.Rows.{AreCanonicalRows, HasRowWords, rows_in};
ghost use Rattle.vob_c.specs.Status.{Tells, TellsOrMemory};

use crate::copies::{Shape, rows_of, write_rows};
use crate::graphs::{are_offsets, graph_of};
use crate::rows::{are_canonical, has_row_words};
use crate::status::{LENGTH, MEMORY, NOT_CANONICAL, OK, RANGE};
use std::alloc::Global;
use vob_flow::{Masks, SolveError, greatest, least};
use vob_rows::{BitRows, all_below};

/// Returns the masks that let through what rows have, or what they haven't.
fn masks_of(rows: &BitRows, keep: bool) -> Masks<'_>
    ensures mask { mask_of result ≡ lets keep rows.now.rows }
    ensures fit { FitMasks (length rows.now.rows) rows.now.columns result }
{
    if keep {
        Masks::Keep(rows)
    } else {
        Masks::Without(rows)
    }
}

/// Returns the node that is the entry, or `None` if there is no such node.
fn entry_of(entry: usize, nodes: usize) -> Option<usize>
    ensures { result ≡ found_below nodes entry }
{
    if entry < nodes { Some(entry) } else { None }
}

/// Returns the status of a graph, and of masks and sets for its nodes.
fn status_of_sets(
    offsets: &[usize],
    ends: &[usize],
    shape: Shape,
    masks: &[usize],
    sets: &[usize],
) -> u8
    ensures { Tells result
        (AreOffsets shape.rows offsets.now ends.now × HasRowWords shape.rows shape.columns masks.now
        × HasRowWords shape.rows shape.columns sets.now)
        (AreCanonicalRows shape.rows shape.columns masks.now
        × AreCanonicalRows shape.rows shape.columns sets.now)
        (AreNodes shape.rows ends.now) }
{
    if !are_offsets(offsets, ends, shape.rows)
        || !has_row_words(masks, shape.rows, shape.columns)
        || !has_row_words(sets, shape.rows, shape.columns)
    {
        return LENGTH;
    }
    if !are_canonical(masks, shape.rows, shape.columns)
        || !are_canonical(sets, shape.rows, shape.columns)
    {
        return NOT_CANONICAL;
    }
    if all_below(ends, shape.rows) {
        OK
    } else {
        RANGE
    }
}

/// Returns the least sets. Fails if memory runs out.
fn solve_least(
    alloc: Global,
    offsets: &[usize],
    ends: &[usize],
    shape: Shape,
    masks: &[usize],
    keep: bool,
    sets: &[usize],
) -> Result<BitRows, SolveError>
    requires offsets { AreOffsets shape.rows offsets.now ends.now }
    requires masks { AreCanonicalRows shape.rows shape.columns masks.now }
    requires sets { AreCanonicalRows shape.rows shape.columns sets.now }
    ensures least { IfOk result (λ made. AreLeast (lists_of offsets.now ends.now)
        (lets keep (rows_in shape.rows shape.columns masks.now))
        (rows_in shape.rows shape.columns sets.now) made.rows) }
    ensures shape { IfOk result
        (λ made. (length made.rows ≡ shape.rows) × (made.columns ≡ shape.columns)) }
{
    let graph = graph_of(alloc, offsets, ends, shape.rows)?;
    let kept = rows_of(alloc, masks, shape)?;
    let mut made = rows_of(alloc, sets, shape)?;
    least(alloc, &mut made, &graph, masks_of(&kept, keep))?;
    Ok(made)
}

/// Returns the greatest sets. Fails if memory runs out.
fn solve_greatest(
    alloc: Global,
    offsets: &[usize],
    ends: &[usize],
    entry: usize,
    shape: Shape,
    masks: &[usize],
    keep: bool,
    sets: &[usize],
) -> Result<BitRows, SolveError>
    requires offsets { AreOffsets shape.rows offsets.now ends.now }
    requires masks { AreCanonicalRows shape.rows shape.columns masks.now }
    requires sets { AreCanonicalRows shape.rows shape.columns sets.now }
    ensures greatest { IfOk result (λ made. AreGreatest shape.columns (lists_of offsets.now ends.now)
        (away (found_below shape.rows entry) (lets keep (rows_in shape.rows shape.columns masks.now)))
        (rows_in shape.rows shape.columns sets.now) made.rows) }
    ensures shape { IfOk result
        (λ made. (length made.rows ≡ shape.rows) × (made.columns ≡ shape.columns)) }
{
    let graph = graph_of(alloc, offsets, ends, shape.rows)?;
    let kept = rows_of(alloc, masks, shape)?;
    let mut made = rows_of(alloc, sets, shape)?;
    greatest(
        alloc,
        &mut made,
        &graph,
        masks_of(&kept, keep),
        entry_of(entry, shape.rows),
    )?;
    Ok(made)
}

/// Adds to each set what its mask lets through of the sets that it draws from, until none grows. Row n of
/// `masks` is the mask of set n: it lets through the places that it has with `keep`, and else those that it
/// hasn't. `masks` and `sets` have a row of `columns` bits for each node.
#[unsafe(no_mangle)]
pub extern "C" fn conthiral_least(
    alloc: Global,
    offsets: &[usize],
    ends: &[usize],
    columns: usize,
    masks: &[usize],
    keep: bool,
    sets: &mut [usize],
) -> u8
    ensures status { TellsOrMemory (λ told. Tells told
        (AreOffsets (length offsets.now - 1) offsets.now ends.now
        × HasRowWords (length offsets.now - 1) columns masks.now
        × HasRowWords (length offsets.now - 1) columns sets.old)
        (AreCanonicalRows (length offsets.now - 1) columns masks.now
        × AreCanonicalRows (length offsets.now - 1) columns sets.old)
        (AreNodes (length offsets.now - 1) ends.now)) result }
    ensures canonical { result ≡ 0 → AreCanonicalRows (length offsets.now - 1) columns sets.new }
    ensures least { result ≡ 0 → AreLeast (lists_of offsets.now ends.now)
        (lets keep (rows_in (length offsets.now - 1) columns masks.now))
        (rows_in (length offsets.now - 1) columns sets.old)
        (rows_in (length offsets.now - 1) columns sets.new) }
    ensures refused { result ≢ 0 → sets.new ≡ sets.old }
{
    let rows = offsets.len().saturating_sub(1);
    let shape = Shape { rows, columns };
    let status = status_of_sets(offsets, ends, shape, masks, sets);
    if status != OK {
        return status;
    }
    let Ok(made) = solve_least(alloc, offsets, ends, shape, masks, keep, sets) else {
        return MEMORY;
    };
    write_rows(&made, sets);
    OK
}

/// Makes each set the greatest that has what it starts with, and of its mask the places that all sets have
/// that it draws from. A set that draws from none has all of its mask, but nothing is let through to `entry`,
/// if that is a node. `masks`, `keep` and `sets` are as for `conthiral_least`.
#[unsafe(no_mangle)]
pub extern "C" fn conthiral_greatest(
    alloc: Global,
    offsets: &[usize],
    ends: &[usize],
    entry: usize,
    columns: usize,
    masks: &[usize],
    keep: bool,
    sets: &mut [usize],
) -> u8
    ensures status { TellsOrMemory (λ told. Tells told
        (AreOffsets (length offsets.now - 1) offsets.now ends.now
        × HasRowWords (length offsets.now - 1) columns masks.now
        × HasRowWords (length offsets.now - 1) columns sets.old)
        (AreCanonicalRows (length offsets.now - 1) columns masks.now
        × AreCanonicalRows (length offsets.now - 1) columns sets.old)
        (AreNodes (length offsets.now - 1) ends.now)) result }
    ensures canonical { result ≡ 0 → AreCanonicalRows (length offsets.now - 1) columns sets.new }
    ensures greatest { result ≡ 0 → AreGreatest columns (lists_of offsets.now ends.now)
        (away (found_below (length offsets.now - 1) entry)
        (lets keep (rows_in (length offsets.now - 1) columns masks.now)))
        (rows_in (length offsets.now - 1) columns sets.old)
        (rows_in (length offsets.now - 1) columns sets.new) }
    ensures refused { result ≢ 0 → sets.new ≡ sets.old }
{
    let rows = offsets.len().saturating_sub(1);
    let shape = Shape { rows, columns };
    let status = status_of_sets(offsets, ends, shape, masks, sets);
    if status != OK {
        return status;
    }
    let Ok(made) = solve_greatest(alloc, offsets, ends, entry, shape, masks, keep, sets) else {
        return MEMORY;
    };
    write_rows(&made, sets);
    OK
}
