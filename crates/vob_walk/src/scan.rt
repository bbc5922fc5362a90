//! The blocks of a walk that neither end has read, and the next one from either end that has a bit
//! of the value.
ghost use Rattle.std.specs.Prelude.{◌≡◌, ℕ, ◌+◌, ◌-◌, ◌*◌, ◌^◌, ◌<◌, ◌≤◌, [], ◌++◌, map, length};
ghost use Rattle.vob_block.specs.Packing.{need, unpacking};
ghost use Rattle.std.specs.declared.ops.Bound.{Bound};
ghost use Rattle.vob_walk.specs.Matches.{matches, blocks_met, IsRangeOf};
ghost use Rattle.vob_walk.specs.Cursor.{block_indices, indices_in, unread};
ghost use Rattle.vob_walk.specs.InHand.{IsBlockBits};
ghost use Rattle.vob_walk.specs.Skip.{Reads, beside};

use crate::back_bits::BackBits;
use crate::block_bits::is_zero;
use crate::count::count_between;
use crate::front_bits::FrontBits;
use crate::range::blocks_of;
use crate::skip::{Span, next_other};
use crate::source::Source;
use crate::walk::End;
use crate::window::{Window, block_without, masked};
use std::marker::{Model, PhantomData};
use vob_block::BitBlock;

/// The places of block `k` that the window looks for, and the index of its place 0.
#[inline(always)]
fn bits_in<T: BitBlock>(block: T, k: usize, window: Window) -> (T, usize)
    requires { k * T.BITS < window.stop }
    ensures bits { IsBlockBits T.BITS result.1 (T.number result.0) }
    ensures indices { block_indices T.BITS result.1 (T.number result.0)
        ≡ indices_in T.BITS (T.number block) (k * T.BITS) window.value window.start window.stop }
{
    (masked(block, k, window), k * T::BITS)
}

/// Reads blocks from an end of the span until one has an index to give, and returns its places. If
/// none has, all are read, and no place is true.
#[inline(always)]
fn find<T: BitBlock, S: Source<T>>(blocks: &mut S, window: Window, span: &mut Span) -> (T, usize)
    requires order { span.old.start ≤ span.old.end }
    requires count { span.old.end ≤ length (S.reading blocks.old).items }
    requires below { (k : ℕ) → k < span.old.end → k * T.BITS < window.stop }
    ensures bits { IsBlockBits T.BITS result.1 (T.number result.0) }
    ensures reads { Reads span.old.side T.number
        (λ xs. unread T.BITS xs window.value window.start window.stop)
        (S.reading blocks.old) (S.reading blocks.new)
        span.old.start span.old.end span.new.start span.new.end
        (block_indices T.BITS result.1 (T.number result.0)) }
    ensures none { block_indices T.BITS result.1 (T.number result.0) ≡ []
        → span.new.start ≡ span.new.end }
{
    let skip = block_without(window.value);
    while let Some(found) = next_other(blocks, skip, *span) {
        span.pass(found.0);
        let (word, at) = bits_in(found.1, found.0, window);
        if !is_zero(word) {
            return (word, at);
        }
    }
    span.start = span.end;
    (T::ZERO, 0)
}

/// The blocks that neither end of a walk has read, from `next` to below `end`, and what is looked
/// for in them.
#[derive(Drop)]
pub(crate) struct Unread<T: BitBlock, S: Source<T>> {
    blocks: S,
    window: Window,
    next: usize,
    end: usize,
    kind: PhantomData<T>,
}

impl<T: BitBlock, S: Source<T>> Model for Unread<T, S> {
    ghost use Rattle.std.specs.Prelude.{map, ◌-◌};
    ghost use Rattle.vob_walk.specs.Cursor.{UnreadBlocks, IsUnread, unread};

    ghost Value = { UnreadBlocks };

    ghost view = { λ u. record {
      rest = unread T.BITS (map T.number (S.reading u.blocks).items)
          u.window.value u.window.start u.window.stop u.next u.end;
      reads = (S.reading u.blocks).reads;
      left = u.end - u.next;
    } };

    ghost invariant = { λ u. IsUnread T.BITS (map T.number (S.reading u.blocks).items)
        u.window.stop u.next u.end };
}

impl<T: BitBlock, S: Source<T>> Unread<T, S> {
    /// The blocks of a walk over the indices from `start` to below `stop`, all unread.
    pub(crate) fn over(blocks: S, value: bool, start: usize, stop: usize) -> Unread<T, S>
        requires order { start ≤ stop }
        requires enough { need stop T.BITS ≤ length (S.reading blocks).items }
        ensures rest { (low high : Bound ℕ) (len : ℕ) → IsRangeOf low high len start stop
            → result.rest ≡ matches (unpacking len (map T.number (S.reading blocks).items) T.BITS)
            value low high }
        ensures left { (low high : Bound ℕ) (len : ℕ) → IsRangeOf low high len start stop
            → result.left ≡ blocks_met low high len T.BITS }
        ensures reads { result.reads ≡ (S.reading blocks).reads }

        // Countable by the type of lengths.
        ensures countable { length result.rest < 2 ^ 64 }
    {
        let (next, end) = blocks_of::<T>(start, stop);
        let window = Window { value, start, stop };
        Unread {
            blocks,
            window,
            next,
            end,
            kind: PhantomData,
        }
    }

    /// The places of the next block from an end that has an index, which is read, and the index of
    /// its place 0.
    #[inline(always)]
    fn next_block(&mut self, side: End) -> (T, usize)
        ensures bits { IsBlockBits T.BITS result.1 (T.number result.0) }
        ensures rest { beside side (block_indices T.BITS result.1 (T.number result.0)) self.new.rest
            ≡ self.old.rest }
        ensures none { block_indices T.BITS result.1 (T.number result.0) ≡ [] → self.new.rest ≡ [] }
        ensures falls { self.new.left ≤ self.old.left }
        ensures reads { self.new.reads + self.new.left ≡ self.old.reads + self.old.left }
    {
        let mut span = Span {
            side,
            start: self.next,
            end: self.end,
        };
        let found = find(&mut self.blocks, self.window, &mut span);
        self.next = span.start;
        self.end = span.end;
        found
    }

    /// The indices of the first block that has some, which is read.
    #[inline(always)]
    pub(crate) fn next_bits(&mut self) -> FrontBits<T>
        ensures rest { result ++ self.new.rest ≡ self.old.rest }
        ensures none { result ≡ [] → self.new.rest ≡ [] }
        ensures falls { self.new.left ≤ self.old.left }
        ensures reads { self.new.reads + self.new.left ≡ self.old.reads + self.old.left }
    {
        let (word, at) = self.next_block(End::Front);
        FrontBits::of(word, at)
    }

    /// The indices of the last block that has some, which is read.
    #[inline(always)]
    pub(crate) fn next_back_bits(&mut self) -> BackBits<T>
        ensures rest { self.new.rest ++ result ≡ self.old.rest }
        ensures none { result ≡ [] → self.new.rest ≡ [] }
        ensures falls { self.new.left ≤ self.old.left }
        ensures reads { self.new.reads + self.new.left ≡ self.old.reads + self.old.left }
    {
        let (word, at) = self.next_block(End::Back);
        BackBits::of(word, at)
    }

    /// How many indices these blocks have.
    pub(crate) fn count(self) -> usize
        ensures { result ≡ length self.rest }
    {
        let mut blocks = self.blocks;
        count_between(&mut blocks, self.window, self.next, self.end)
    }
}
