//! The rows of a table that a filter keeps, a bit each. A user of the calls on all bits, of `select`,
//! and of walks over set bits.
ghost use Rattle.std.specs.Prelude.{◌≡◌, true, drop, length, reverse, take, IfOk};
ghost use Rattle.std.specs.declared.ops.Bound.TheVariants.{Included, Excluded, Unbounded};
ghost use Rattle.vob.specs.Bits.{count_of};
ghost use Rattle.vob.specs.Vob.{HaveSameLength};
ghost use Rattle.vob_filter.specs.Rows.{IsSelected};
ghost use Rattle.vob_walk.specs.Matches.{matches};

use std::alloc::{AllocError, Global};
use vob::Vob;

/// The rows that `first` and `second` keep and `without` doesn't.
pub fn select(first: &Vob, second: &Vob, without: &Vob) -> Result<Vob, AllocError>
    requires both { HaveSameLength first.now second.now }
    requires third { HaveSameLength first.now without.now }
    ensures { IfOk result (λ rows.
        IsSelected first.now.bits second.now.bits without.now.bits rows.bits) }
{
    let mut rows = first.clone()?;
    rows.and(second);
    rows.and_not(without);
    Ok(rows)
}

/// How many rows are kept.
pub fn count_rows(filter: &Vob) -> usize
    ensures { result ≡ count_of true filter.now.bits }
{
    filter.iter_set_bits(..).count()
}

/// The numbers of the rows that a filter keeps, in order. Bit `i` says whether row `i` is kept.
pub fn kept_rows(alloc: Global, filter: &Vob) -> Result<Vec<usize>, AllocError>
    ensures { IfOk result (λ rows. rows.items ≡ matches filter.now.bits true Unbounded Unbounded) }
{
    filter.iter_set_bits(..).collect(alloc)
}

/// How many rows from `start` to below `end` are kept, by a loop over them.
pub fn count_between(filter: &Vob, start: usize, end: usize) -> usize
    ensures { result ≡ length (matches filter.now.bits true (Included start) (Excluded end)) }
{
    let mut count = 0;
    for _row in filter.iter_set_bits(start..end) {
        count += 1;
    }
    count
}

/// The numbers of at most `count` kept rows, in order, after the first `skip` of them. Finds the
/// first of them by its rank, and doesn't step over those before it.
pub fn page(
    alloc: Global,
    filter: &Vob,
    skip: usize,
    count: usize,
) -> Result<Vec<usize>, AllocError>
    ensures { IfOk result (λ rows. rows.items
        ≡ take count (drop skip (matches filter.now.bits true Unbounded Unbounded))) }
{
    let Some(first) = filter.select(skip) else {
        return Ok(Vec::new(alloc));
    };
    filter.iter_set_bits(first..).take(count).collect(alloc)
}

/// The same from the end: the last row first, before the last `skip` of them. Finds that row by its
/// rank too.
pub fn page_back(
    alloc: Global,
    filter: &Vob,
    skip: usize,
    count: usize,
) -> Result<Vec<usize>, AllocError>
    ensures { IfOk result (λ rows. rows.items
        ≡ take count (drop skip (reverse (matches filter.now.bits true Unbounded Unbounded)))) }
{
    let kept = filter.count_ones();
    if skip >= kept {
        return Ok(Vec::new(alloc));
    }
    let Some(last) = filter.select(kept - 1 - skip) else {
        return Ok(Vec::new(alloc));
    };
    filter
        .iter_set_bits(..=last)
        .rev()
        .take(count)
        .collect(alloc)
}
