//! Blocks to be read, with a count of the reads that contracts alone see. The module is private, so
//! that no other code reads past the count: a tick stands beside each block that is read.
ghost use Rattle.std.specs.Prelude.{◌≡◌, ◌+◌, ◌<◌, ◌≤◌, length, take, drop, slice_get, Some};

use std::marker::Model;
use std::mem;
use std::snapshot::Snapshot;

/// How often something was done, seen by contracts alone. It has no bytes when it runs.
#[derive(Drop)]
struct Count {
    // The count before the last time, or none.
    before: Snapshot<Option<Count>>,
}

impl Model for Count {
    ghost use Rattle.std.specs.Prelude.{ℕ};
    ghost use Rattle.vob_block.specs.Reading.{one_more};

    ghost Value = { ℕ };

    ghost view = { λ c. one_more c.before.value };

    ghost size = { λ n. n };

    ghost use Rattle.std.proofs.Common.{arith};

    ghost size_decreases = { λ c h. Prim.grind arith };
}

impl Count {
    fn zero() -> Count
        ensures { result ≡ 0 }
    {
        Count {
            before: Snapshot::of(&None),
        }
    }

    fn tick(&mut self)
        ensures { self.new ≡ self.old + 1 }
    {
        let before = Some(mem::replace(self, Count::zero()));
        *self = Count {
            before: Snapshot::of(&before),
        };
    }

    /// Eight times in one, as a loop would have to say how far it is.
    fn tick_eight(&mut self)
        ensures { self.new ≡ self.old + 8 }
    {
        self.tick();
        self.tick();
        self.tick();
        self.tick();
        self.tick();
        self.tick();
        self.tick();
        self.tick();
    }
}

/// Blocks to be read, the one with bit 0 first. Contracts see how many were read; when it runs it is
/// a slice and nothing more. It can't be copied, and lends nothing of what it holds.
#[derive(Drop)]
pub struct Blocks<'a, T> {
    slice: &'a [T],
    count: Count,
}

impl<'a, T> Model for Blocks<'a, T> {
    ghost use Rattle.vob_block.specs.Reading.{Reading, reading_code};

    ghost Value = { Reading T };

    ghost coded = { reading_code T.code };

    ghost view = { λ b. record { items = b.slice.now; reads = b.count } };
}

impl<'a, T: Copy> Blocks<'a, T> {
    /// Returns these blocks with a read count of 0.
    pub fn new(slice: &'a [T]) -> Blocks<'a, T>
        ensures items { result.items ≡ slice.now }
        ensures reads { result.reads ≡ 0 }
    {
        Blocks {
            slice,
            count: Count::zero(),
        }
    }

    /// Returns the number of blocks. No block is read.
    pub fn len(&self) -> usize
        ensures { result ≡ length self.now.items }
    {
        self.slice.len()
    }

    /// Reads block `k`.
    pub fn block(&mut self, k: usize) -> T
        requires { k < length self.old.items }
        ensures block { slice_get self.old.items k ≡ Some result }
        ensures items { self.new.items ≡ self.old.items }
        ensures reads { self.new.reads ≡ self.old.reads + 1 }
    {
        self.count.tick();
        self.slice[k]
    }

    /// Reads the eight blocks from `k` on.
    pub fn chunk(&mut self, k: usize) -> [T; 8]
        requires { k + 8 ≤ length self.old.items }
        ensures blocks { result ≡ take 8 (drop k self.old.items) }
        ensures items { self.new.items ≡ self.old.items }
        ensures reads { self.new.reads ≡ self.old.reads + 8 }
    {
        self.count.tick_eight();
        *self.slice[k..k + 8].first_chunk::<8>().unwrap()
    }
}
