//! Columns of comparisons of numbers, a word of results at a time.
ghost use Rattle.std.specs.Prelude.{◌≡◌, ℕ, ℤ, ◌+◌, ◌<◌, ◌≤◌, Bool, List, Some, length, map, int_lt, IfOk, if◌then◌else◌};
ghost use Rattle.std.specs.Option.{is_some};
ghost use Rattle.std.specs.Ordering.{int_eq};
ghost use Rattle.vob_block.specs.Packing.{item};
ghost use Rattle.vob_block.specs.Places.{place};
ghost use Rattle.vob_filter.specs.Comparisons.{compared, holds, holds_known};

use crate::column::{Column, column_of};
use std::alloc::{AllocError, Global};
use vob::Vob;
use vob_block::BitBlock;

/// A comparison of a number with a given one.
#[derive(Clone, Copy, Drop)]
pub enum Comparison {
    LessThan(i64),
    EqualTo(i64),
}

impl Comparison {
    /// Returns whether it holds of a number.
    #[inline]
    pub fn holds(self, value: i64) -> bool
        ensures { result ≡ holds self value }
    {
        match self {
            Comparison::LessThan(limit) => value < limit,
            Comparison::EqualTo(wanted) => value == wanted,
        }
    }
}

/// Rows of a bit each, which is worked out when it is asked for.
trait Rows {
    ghost rows: { Self → List Bool };

    /// Returns the number of rows.
    fn len(&self) -> usize
        ensures { result ≡ length (rows self.now) };

    /// Returns the bit of a row.
    fn bit(&self, row: usize) -> bool
        requires { row < length (rows self.now) }
        ensures { result ≡ item (rows self.now) row };
}

/// Whether a comparison holds of each of some numbers.
#[derive(Drop)]
struct Passing<'a> {
    values: &'a [i64],
    comparison: Comparison,
}

impl Rows for Passing<'_> {
    ghost rows = { λ r. map (holds r.comparison) r.values.now };

    fn len(&self) -> usize {
        self.values.len()
    }

    #[inline]
    fn bit(&self, row: usize) -> bool {
        self.comparison.holds(self.values[row])
    }
}

/// Whether each of some numbers is there.
#[derive(Drop)]
struct Present<'a> {
    values: &'a [Option<i64>],
}

impl Rows for Present<'_> {
    ghost rows = { λ r. map is_some r.values.now };

    fn len(&self) -> usize {
        self.values.len()
    }

    #[inline]
    fn bit(&self, row: usize) -> bool {
        self.values[row].is_some()
    }
}

/// Whether each of some numbers is there and a comparison holds of it.
#[derive(Drop)]
struct PassingKnown<'a> {
    values: &'a [Option<i64>],
    comparison: Comparison,
}

impl Rows for PassingKnown<'_> {
    ghost rows = { λ r. map (holds_known r.comparison) r.values.now };

    fn len(&self) -> usize {
        self.values.len()
    }

    #[inline]
    fn bit(&self, row: usize) -> bool {
        match self.values[row] {
            Some(value) => self.comparison.holds(value),
            None => false,
        }
    }
}

/// Returns the word of which place 0 is a bit, and no other place is true.
#[inline]
fn mark_of(bit: bool) -> usize
    ensures { result ≡ (if bit then 1 else 0) }
{
    if bit { 1 } else { 0 }
}

/// Returns the bits of `count` rows from `start` on, the first in place 0.
fn word_of<R: Rows>(rows: &R, start: usize, count: usize) -> usize
    requires inside { start + count ≤ length (R.rows rows.now) }
    requires few { count ≤ 64 }
    ensures { (j : ℕ) → j < count → place j result ≡ item (R.rows rows.now) (start + j) }
{
    // The number of rows is in the range of its type: a proof knows it from this read.
    let _len = rows.len();
    let mut word = usize::ZERO;
    for row in 0..count {
        let mark = mark_of(rows.bit(start + row));
        word = word.bor(mark.up(row));
    }
    word
}

/// Packs the bits of rows, a word at a time.
fn packed<R: Rows>(alloc: Global, rows: &R) -> Result<Vob, AllocError>
    ensures { IfOk result (λ vob. vob.bits ≡ R.rows rows.now) }
{
    let len = rows.len();
    let mut bits = Vob::from_elem(alloc, false, len)?;
    for k in 0..len.div_ceil(64) {
        let start = 64 * k;
        let count = (len - start).min(64);
        let word = word_of(rows, start, count);
        bits.store(start..start + count, word);
    }
    Ok(bits)
}

/// Makes the column of whether a comparison holds of each number. None is missing.
pub fn compare(alloc: Global, values: &[i64], comparison: Comparison) -> Result<Column, AllocError>
    ensures { IfOk result (λ column. column ≡ map (λ v. Some (holds comparison v)) values.now) }
{
    let present = Vob::from_elem(alloc, true, values.len())?;
    let value = packed(alloc, &Passing { values, comparison })?;
    Ok(column_of(present, value))
}

/// Makes the column of whether a comparison holds of each number, missing where that is missing.
pub fn compare_known(
    alloc: Global,
    values: &[Option<i64>],
    comparison: Comparison,
) -> Result<Column, AllocError>
    ensures { IfOk result (λ column. column ≡ map (compared comparison) values.now) }
{
    let present = packed(alloc, &Present { values })?;
    let value = packed(alloc, &PassingKnown { values, comparison })?;
    Ok(column_of(present, value))
}
