//! Bits with two summaries: one says of each word of 64 bits whether all are set, and another says the
//! same of the words of the first.
ghost use Rattle.std.specs.Prelude.{◌≡◌, ◌↔◌, ◌⊎◌, ℕ, ◌+◌, ◌-◌, ◌/◌, ◌<◌, ◌≤◌, ◌++◌, Bool, Err, IfOk, IfSome, IsTrue, List, OnErr, OnOk, false, length, replicate, slice_set};
ghost use Rattle.std.specs.declared.ops.Bound.TheVariants.{Excluded, Included};
ghost use Rattle.vob.specs.Bits.{IsWritten};
ghost use Rattle.vob.specs.Ranges.{IsChangedWithin, replaced};
ghost use Rattle.vob.specs.Sets.{IsBit, IsNext};
ghost use Rattle.vob_block.specs.Packing.{item};
ghost use Rattle.vob_block.specs.Pointwise.{differ};
ghost use Rattle.vob_slots.specs.Summaries.{IsFull, IsSummary, IsSummaryBut, words};

use crate::search::{Level, Search};
use std::alloc::{AllocError, Global};
use std::marker::Model;
use vob::{Vob, VobError};
use vob_walk::next_index;

/// How many bits a word has.
pub(crate) const WORD: usize = 64;

/// Returns whether each bit of a word is set. A last word may have fewer than 64.
fn is_full(bits: &Vob, word: usize) -> bool
    requires { word < words (length bits.now.bits) }
    ensures { IsTrue result ↔ IsFull bits.now.bits word }
{
    let len = bits.len();
    let start = word * WORD;
    let end = start + (len - start).min(WORD);
    match next_index(&mut bits.blocks(), false, end, start) {
        Some(_) => false,
        None => true,
    }
}

/// Brings the bits of a summary for some words up to date. Returns false only if none changed.
fn renew(bits: &Vob, full: &mut Vob, from: usize, to: usize) -> bool
    requires inside { to ≤ length full.old.bits }
    requires others { IsSummaryBut from to bits.now.bits full.old.bits }
    ensures summary { IsSummary bits.now.bits full.new.bits }
    ensures others { (w : ℕ) → (w < from) ⊎ (to ≤ w) → item full.new.bits w ≡ item full.old.bits w }
    ensures same { result ≡ false → full.new.bits ≡ full.old.bits }
{
    let mut changed = false;
    for word in from..to {
        changed |= full.set(word, is_full(bits, word));
    }
    changed
}

/// Brings a summary up to date after a bit was set to `value`. Returns false only if the summary
/// stays.
fn renew_at(bits: &Vob, full: &mut Vob, index: usize, value: bool) -> bool
    requires inside { index < length bits.now.bits }
    requires unset { value ≡ false → item bits.now.bits index ≡ false }
    requires others { IsSummaryBut (index / 64) (index / 64 + 1) bits.now.bits full.old.bits }
    ensures summary { IsSummary bits.now.bits full.new.bits }
    ensures unset { value ≡ false → item full.new.bits (index / 64) ≡ false }
    ensures others { (w : ℕ) → (w < index / 64) ⊎ (index / 64 < w) →
        item full.new.bits w ≡ item full.old.bits w }
    ensures same { result ≡ false → full.new.bits ≡ full.old.bits }
{
    // A word with an unset bit isn't full: none is looked for.
    let word = index / WORD;
    full.set(word, value && is_full(bits, word))
}

/// Bits with two summaries, by which the first unset bit is found in a few reads. Contracts see the
/// bits.
#[derive(Drop)]
pub struct Summarized {
    bits: Vob,
    // A bit for each word of the bits: whether all of them are set.
    full: Vob,
    // The same of the words of `full`.
    fuller: Vob,
}

impl Model for Summarized {
    ghost use Rattle.std.specs.Prelude.{Bool, List};
    ghost use Rattle.vob_slots.specs.Summaries.{IsSummary};

    ghost Value = { List Bool };

    ghost view = { λ s. s.bits.bits };

    ghost invariant = { λ s. IsSummary s.bits.bits s.full.bits × IsSummary s.full.bits s.fuller.bits };
}

impl Summarized {
    /// Makes `count` unset bits. Fails if memory runs out.
    pub fn new(alloc: Global, count: usize) -> Result<Summarized, AllocError>
        ensures { IfOk result (λ made. made ≡ replicate count false) }
    {
        let first = count.div_ceil(WORD);
        Ok(Summarized {
            bits: Vob::from_elem(alloc, false, count)?,
            full: Vob::from_elem(alloc, false, first)?,
            fuller: Vob::from_elem(alloc, false, first.div_ceil(WORD))?,
        })
    }

    /// Returns how many bits there are.
    pub fn len(&self) -> usize
        ensures { result ≡ length self.now }
    {
        self.bits.len()
    }

    /// Returns the bits.
    pub fn bits(&self) -> &Vob
        ensures { result.now.bits ≡ self.now }
    {
        &self.bits
    }

    /// Returns a search for the first unset bit, before any read.
    pub fn search(&self) -> Search<'_>
        ensures bits { result.bits ≡ self.now }
        ensures reads { result.reads ≡ 0 }
    {
        Search {
            bits: Level::of(&self.bits),
            full: Level::of(&self.full),
            fuller: Level::of(&self.fuller),
        }
    }

    /// Returns the index of the first unset bit.
    pub fn first_unset(&self) -> Option<usize>
        ensures next { IsNext false self.now 0 result }
        ensures inside { IfSome result (λ i. IsBit false self.now i) }
        ensures most { IfSome result (λ i. i < usize.MAX) }
    {
        // The length is in the range of its type: a proof knows it from this read.
        let _len = self.len();
        self.search().first_unset()
    }

    /// Sets a bit, which must be there, to `value`, and returns whether it changed.
    pub fn set(&mut self, index: usize, value: bool) -> bool
        requires { index < length self.old }
        ensures bits { self.new ≡ slice_set self.old index value }
        ensures written { IsWritten self.old index value self.new }
        ensures differs { result ≡ differ (item self.old index) value }
        ensures same { result ≡ false → self.new ≡ self.old }
    {
        // The length is in the range of its type: a proof knows it from this read.
        let _len = self.bits.len();
        if !self.bits.set(index, value) {
            return false;
        }
        let word = index / WORD;
        if renew_at(&self.bits, &mut self.full, index, value) {
            renew_at(&self.full, &mut self.fuller, word, value);
        }
        true
    }

    /// Sets the bits from `start` to below `end`, which must be there, to `value`.
    pub fn set_range(&mut self, start: usize, end: usize, value: bool)
        requires order { start ≤ end }
        requires inside { end ≤ length self.old }
        ensures each { IsChangedWithin (λ _. value) (Included start) (Excluded end) self.old self.new }
        ensures bits { self.new ≡ replaced start end (replicate (end - start) value) self.old }
    {
        self.bits.set_range(start..end, value);
        if start == end {
            return;
        }
        let from = start / WORD;
        let last = (end - 1) / WORD;
        if renew(&self.bits, &mut self.full, from, last + 1) {
            renew(&self.full, &mut self.fuller, from / WORD, last / WORD + 1);
        }
    }

    /// Appends unset bits. No more than a length can count must there be then. Fails if memory runs
    /// out; the bits stay.
    pub fn grow(&mut self, more: usize) -> Result<(), VobError>
        requires { length self.old + more ≤ usize.MAX }
        ensures ok { OnOk result (self.new ≡ self.old ++ replicate more false) }
        ensures err { OnErr result (self.new ≡ self.old) }
        ensures memory { OnErr result ((result ≡ Err VobError.Memory) × (0 < more)) }
    {
        if more == 0 {
            return Ok(());
        }
        let len = self.bits.len();
        let end = len + more;
        let first = (end - 1) / WORD + 1;
        let second = (first - 1) / WORD + 1;
        let mut full = self.full.clone()?;
        full.resize(first, false)?;
        let mut fuller = self.fuller.clone()?;
        fuller.resize(second, false)?;
        self.bits.resize(end, false)?;
        renew(&self.bits, &mut full, len / WORD, first);
        renew(&full, &mut fuller, len / WORD / WORD, second);
        self.full = full;
        self.fuller = fuller;
        Ok(())
    }
}
