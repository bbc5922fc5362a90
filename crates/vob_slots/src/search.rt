//! Searches for the first unset bit by two summaries, of which contracts count the reads.
ghost use Rattle.std.specs.Prelude.{◌≡◌, ◌+◌, ◌-◌, ◌/◌, ◌≤◌, false, length, option_map, unwrap_or};
ghost use Rattle.vob.specs.Sets.{IsNext};
ghost use Rattle.vob_slots.specs.Summaries.{words};

use crate::summary::WORD;
use std::marker::Model;
use vob::Vob;
use vob_block::Blocks;
use vob_walk::next_index;

/// Bits that are read by blocks. Contracts see the bits, and how many blocks were read.
#[derive(Drop)]
pub(crate) struct Level<'a> {
    blocks: Blocks<'a, usize>,
    len: usize,
}

impl<'a> Model for Level<'a> {
    ghost use Rattle.std.specs.Prelude.{◌≡◌, map};
    ghost use Rattle.vob_block.specs.Packing.{packing, unpacking};
    ghost use Rattle.vob_slots.specs.Summaries.{Seen};

    ghost Value = { Seen };

    ghost view = { λ l. record { bits = unpacking l.len (map (λ block. block) l.blocks.items) 64; reads = l.blocks.reads } };

    ghost invariant = { λ l. map (λ block. block) l.blocks.items
        ≡ packing (unpacking l.len (map (λ block. block) l.blocks.items) 64) 64 };
}

impl<'a> Level<'a> {
    /// Returns the bits of a Vob, none of whose blocks was read.
    pub fn of(vob: &'a Vob) -> Level<'a>
        ensures bits { result.bits ≡ vob.now.bits }
        ensures reads { result.reads ≡ 0 }
    {
        Level {
            blocks: vob.blocks(),
            len: vob.len(),
        }
    }

    /// Returns the index of the first unset bit at or above `from`.
    fn next_unset(&mut self, from: usize) -> Option<usize>
        ensures next { IsNext false self.old.bits from result }
        ensures bits { self.new.bits ≡ self.old.bits }
        ensures reads { self.new.reads ≤ self.old.reads
            + (unwrap_or (option_map (λ i. i / 64 + 1) result) (words (length self.old.bits)) - from / 64) }
    {
        next_index(&mut self.blocks, false, self.len, from)
    }

    /// Returns how many bits there are.
    fn len(&self) -> usize
        ensures { result ≡ length self.now.bits }
    {
        self.len
    }
}

/// A search by two summaries. Contracts see the bits that are searched, and how many blocks were read of
/// them and of the summaries.
#[derive(Drop)]
pub struct Search<'a> {
    pub(crate) bits: Level<'a>,
    pub(crate) full: Level<'a>,
    pub(crate) fuller: Level<'a>,
}

impl<'a> Model for Search<'a> {
    ghost use Rattle.std.specs.Prelude.{◌+◌};
    ghost use Rattle.vob_slots.specs.Summaries.{IsSummary, Seen};

    ghost Value = { Seen };

    ghost view = { λ s. record { bits = s.bits.bits; reads = s.bits.reads + s.full.reads + s.fuller.reads } };

    ghost invariant = { λ s. IsSummary s.bits.bits s.full.bits × IsSummary s.full.bits s.fuller.bits };
}

impl Search<'_> {
    /// Returns the index of the first unset bit. Reads at most one block of the bits, one of the first
    /// summary, and those of the second: one for each 2^18 bits.
    pub fn first_unset(&mut self) -> Option<usize>
        ensures next { IsNext false self.old.bits 0 result }
        ensures bits { self.new.bits ≡ self.old.bits }
        ensures reads { self.new.reads ≤ self.old.reads
            + (words (words (words (length self.old.bits))) + 2) }
    {
        // The lengths are in the range of their type: a proof knows it from these reads.
        let (_bits, _full) = (self.bits.len(), self.full.len());
        let Some(group) = self.fuller.next_unset(0) else {
            return None;
        };
        let Some(word) = self.full.next_unset(group * WORD) else {
            return None;
        };
        self.bits.next_unset(word * WORD)
    }
}
