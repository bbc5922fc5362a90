//! A range cut to the indices below a length: a window from one index to below another, and the
//! blocks that it meets.
ghost use Rattle.std.specs.Prelude.{◌≡◌, ℕ, ◌<◌, ◌≤◌, ◌&&◌, nat_le, nat_lt};
ghost use Rattle.vob_walk.specs.Matches.{from_start, up_to_end, IsRangeOf};
ghost use Rattle.vob_walk.specs.Cursor.{AreBlocksOf};

use std::ops::{Bound, RangeBounds};
use vob_block::BitBlock;

/// Returns the start and the exclusive end of the indices below `len` that belong to a range.
pub fn cut_range<R: RangeBounds<usize>>(range: &R, len: usize) -> (usize, usize)
    ensures ordered { result.0 ≤ result.1 }
    ensures inside { result.1 ≤ len }
    ensures window { R.has_bounds range.now
        → IsRangeOf (R.start_bound range.now) (R.end_bound range.now) len result.0 result.1 }
{
    let stop = past_last_index(range, len);
    (first_index(range, stop), stop)
}

/// Returns the exclusive end of the indices that meet the end of the range, at most `len`.
fn past_last_index<R: RangeBounds<usize>>(range: &R, len: usize) -> usize
    ensures within { result ≤ len }
    ensures meets { R.has_bounds range.now → (i : ℕ)
        → nat_lt i result ≡ (nat_lt i len && up_to_end (R.end_bound range.now) i) }
{
    match range.end_bound() {
        // Compared before one is added, so that nothing wraps.
        Bound::Included(&last) => if last < len { last + 1 } else { len },
        Bound::Excluded(&end) => end.min(len),
        Bound::Unbounded => len,
    }
}

/// Returns the first index that meets the start of the range, at most `stop`.
fn first_index<R: RangeBounds<usize>>(range: &R, stop: usize) -> usize
    ensures within { result ≤ stop }
    ensures meets { R.has_bounds range.now → (i : ℕ)
        → i < stop → nat_le result i ≡ from_start (R.start_bound range.now) i }
{
    match range.start_bound() {
        Bound::Included(&first) => first.min(stop),
        // Compared before one is added, so that nothing wraps.
        Bound::Excluded(&before) => if before < stop { before + 1 } else { stop },
        Bound::Unbounded => 0,
    }
}

/// Returns the first block that holds an index from `start` to below `stop`, and the exclusive end of
/// such blocks.
pub(crate) fn blocks_of<T: BitBlock>(start: usize, stop: usize) -> (usize, usize)
    requires { start ≤ stop }
    ensures { AreBlocksOf T.BITS start stop result.0 result.1 }
{
    if start == stop {
        return (0, 0);
    }
    (start / T::BITS, stop.div_ceil(T::BITS))
}
