//! The next block, from either end of some blocks, that isn't the one to be skipped. The scans do
//! nothing else, and take four blocks a turn, so that they are no slower than memory is.
ghost use Rattle.std.specs.Prelude.{◌≡◌, ◌+◌, ◌-◌, ◌*◌, ◌<◌, ◌≤◌, length};
ghost use Rattle.vob_walk.specs.Skip.{from_end, other_end, side_start, side_end, Steps, Scans};

use crate::source::Source;
use crate::walk::End;
use vob_block::BitBlock;

/// The blocks from `start` to below `end`, to be taken from one end.
#[derive(Clone, Copy)]
pub(crate) struct Span {
    pub(crate) side: End,
    pub(crate) start: usize,
    pub(crate) end: usize,
}

impl Span {
    /// The number of the block that is taken after `i` others and `j` more.
    #[inline(always)]
    fn nth(self, i: usize, j: usize) -> usize
        requires { self.start + (i + j) < self.end }
        ensures number { result ≡ from_end self.side self.start self.end (i + j) }
        ensures below { result < self.end }
    {
        match self.side {
            End::Front => self.start + i + j,
            End::Back => self.end - 1 - i - j,
        }
    }

    /// The block after `i` others and `j` more, if it isn't `skip`: how many these are, its number and
    /// the block. If `j` is a constant, it is part of an address.
    #[inline(always)]
    fn other_at<T: BitBlock, S: Source<T>>(
        self,
        blocks: &mut S,
        skip: T,
        i: usize,
        j: usize,
    ) -> Option<(usize, usize, T)>
        requires inside { self.start + (i + j) < self.end }
        requires count { self.end ≤ length (S.reading blocks.old).items }
        ensures { Steps T.number skip (from_end self.side self.start self.end)
            (S.reading blocks.old) (S.reading blocks.new) (i + j) (i + j + 1) result }
    {
        let k = self.nth(i, j);
        let block = blocks.read(k);
        if block == skip {
            None
        } else {
            Some((i + j, k, block))
        }
    }

    /// Takes the blocks up to block `k`, which leaves those at its other side.
    #[inline(always)]
    pub(crate) fn pass(&mut self, k: usize)
        requires { k < self.old.end }
        ensures side { self.new.side ≡ self.old.side }
        ensures start { self.new.start ≡ side_start (other_end self.old.side) self.old.start k }
        ensures end { self.new.end ≡ side_end (other_end self.old.side) self.old.end k }
    {
        match self.side {
            End::Front => self.start = k + 1,
            End::Back => self.end = k,
        }
    }
}

/// The first of four blocks after `i` others that isn't `skip`.
#[inline(always)]
fn first_of_four<T: BitBlock, S: Source<T>>(
    blocks: &mut S,
    skip: T,
    span: Span,
    i: usize,
) -> Option<(usize, usize, T)>
    requires inside { span.start + i + 4 ≤ span.end }
    requires count { span.end ≤ length (S.reading blocks.old).items }
    ensures { Steps T.number skip (from_end span.side span.start span.end)
        (S.reading blocks.old) (S.reading blocks.new) i (i + 4) result }
{
    let first = span.other_at(blocks, skip, i, 0);
    if first.is_some() {
        return first;
    }
    let second = span.other_at(blocks, skip, i, 1);
    if second.is_some() {
        return second;
    }
    let third = span.other_at(blocks, skip, i, 2);
    if third.is_some() {
        return third;
    }
    span.other_at(blocks, skip, i, 3)
}

/// The first of `fours` times four blocks.
#[inline(always)]
fn first_of_fours<T: BitBlock, S: Source<T>>(
    blocks: &mut S,
    skip: T,
    span: Span,
    fours: usize,
) -> Option<(usize, usize, T)>
    requires inside { span.start + 4 * fours ≤ span.end }
    requires count { span.end ≤ length (S.reading blocks.old).items }
    ensures { Steps T.number skip (from_end span.side span.start span.end)
        (S.reading blocks.old) (S.reading blocks.new) 0 (4 * fours) result }
{
    for four in 0..fours {
        let found = first_of_four(blocks, skip, span, 4 * four);
        if found.is_some() {
            return found;
        }
    }
    None
}

/// The first of the blocks after `from` others, looked at one by one.
#[inline(always)]
fn first_of_rest<T: BitBlock, S: Source<T>>(
    blocks: &mut S,
    skip: T,
    span: Span,
    from: usize,
) -> Option<(usize, usize, T)>
    requires inside { span.start + from ≤ span.end }
    requires count { span.end ≤ length (S.reading blocks.old).items }
    ensures { Steps T.number skip (from_end span.side span.start span.end)
        (S.reading blocks.old) (S.reading blocks.new) from (span.end - span.start) result }
{
    for i in from..span.end - span.start {
        let found = span.other_at(blocks, skip, i, 0);
        if found.is_some() {
            return found;
        }
    }
    None
}

/// The first of all blocks.
#[inline(always)]
fn first_other<T: BitBlock, S: Source<T>>(
    blocks: &mut S,
    skip: T,
    span: Span,
) -> Option<(usize, usize, T)>
    requires order { span.start ≤ span.end }
    requires count { span.end ≤ length (S.reading blocks.old).items }
    ensures { Steps T.number skip (from_end span.side span.start span.end)
        (S.reading blocks.old) (S.reading blocks.new) 0 (span.end - span.start) result }
{
    let fours = (span.end - span.start) / 4;
    let found = first_of_fours(blocks, skip, span, fours);
    if found.is_some() {
        return found;
    }
    first_of_rest(blocks, skip, span, 4 * fours)
}

/// The first block, from the end that the span is taken from, that isn't `skip`, with its number. No
/// block after it is read.
#[inline(always)]
pub(crate) fn next_other<T: BitBlock, S: Source<T>>(
    blocks: &mut S,
    skip: T,
    span: Span,
) -> Option<(usize, T)>
    requires order { span.start ≤ span.end }
    requires count { span.end ≤ length (S.reading blocks.old).items }
    ensures { Scans span.side T.number skip (S.reading blocks.old) (S.reading blocks.new)
        span.start span.end result }
{
    let Some(found) = first_other(blocks, skip, span) else {
        return None;
    };
    Some((found.1, found.2))
}
