//! Walks over the indices of the set bits, or of the unset ones, within a range, from both ends. A
//! block is read once, when an end first enters it, and its indices are then in hand at that end.
ghost use Rattle.std.specs.Prelude.{◌≡◌, ◌≤◌, ◌∷◌, ◌++◌, [], ⊤, ◌+◌, length, map};
ghost use Rattle.std.specs.Iterator.{YieldsFirst, YieldsLast, MakesProgress, item_count};
ghost use Rattle.vob_block.specs.Packing.{need, unpacking};
ghost use Rattle.vob_walk.specs.Matches.{ForSomeRange};
ghost use Rattle.vob_walk.specs.Walk.{Walk, IsWhole, IsPulled, end_item, without_end};

use crate::back_bits::BackBits;
use crate::front_bits::FrontBits;
use crate::range::cut_range;
use crate::scan::Unread;
use crate::source::Source;
use crate::walk::End;
use std::marker::Model;
use std::ops::RangeBounds;
use vob_block::BitBlock;

/// A walk over the indices of the bits of one value: those in hand at either end, and the blocks
/// between them.
#[derive(Drop)]
pub(crate) struct Cursor<T: BitBlock, S: Source<T>> {
    unread: Unread<T, S>,
    front: FrontBits<T>,
    back: BackBits<T>,
}

impl<T: BitBlock, S: Source<T>> Model for Cursor<T, S> {
    ghost use Rattle.std.specs.Prelude.{◌^◌, ◌<◌, ◌++◌, length};
    ghost use Rattle.vob_walk.specs.Walk.{Walk};
    ghost use Rattle.vob_walk.specs.Cursor.{walk_of};

    ghost Value = { Walk };

    ghost view = { λ c. walk_of c.front c.unread c.back };

    // Countable by the type of lengths.
    ghost invariant = { λ c. length (c.front ++ (c.unread.rest ++ c.back)) < 2 ^ 64 };
}

/// Gives an empty front the indices of the first block that has some, or else what the back has. So
/// the front is empty afterwards only if no index is left at all.
#[inline(always)]
fn fill_front<T: BitBlock, S: Source<T>>(
    unread: &mut Unread<T, S>,
    front: &mut FrontBits<T>,
    back: &mut BackBits<T>,
)
    requires { front.old ≡ [] }
    ensures rest { front.new ++ (unread.new.rest ++ back.new) ≡ front.old ++ (unread.old.rest ++ back.old) }
    ensures empty { front.new ≡ [] → unread.new.rest ++ back.new ≡ [] }
    ensures fewer { length back.new ≤ length back.old }
    ensures falls { unread.new.left ≤ unread.old.left }
    ensures reads { unread.new.reads + unread.new.left ≡ unread.old.reads + unread.old.left }
{
    *front = unread.next_bits();
    if front.is_empty() {
        let (word, at) = back.block();
        *front = FrontBits::of(word, at);
        *back = BackBits::none();
    }
}

/// If the back has no index in hand, gives it those of the last block that has some, or else what
/// the front has. So it has none afterwards only if none is left at all.
#[inline(always)]
fn fill_back<T: BitBlock, S: Source<T>>(
    unread: &mut Unread<T, S>,
    front: &mut FrontBits<T>,
    back: &mut BackBits<T>,
)
    ensures rest { front.new ++ (unread.new.rest ++ back.new) ≡ front.old ++ (unread.old.rest ++ back.old) }
    ensures empty { back.new ≡ [] → front.new ++ unread.new.rest ≡ [] }
    ensures fewer { length front.new ≤ length front.old }
    ensures falls { unread.new.left ≤ unread.old.left }
    ensures reads { unread.new.reads + unread.new.left ≡ unread.old.reads + unread.old.left }
{
    if !back.is_empty() {
        return;
    }
    *back = unread.next_back_bits();
    if back.is_empty() {
        let (word, at) = front.block();
        *back = BackBits::of(word, at);
        *front = FrontBits::none();
    }
}

impl<T: BitBlock, S: Source<T>> Cursor<T, S> {
    /// A walk over the first `len` bits of some blocks, within a range.
    pub(crate) fn over<R: RangeBounds<usize>>(
        blocks: S,
        value: bool,
        len: usize,
        range: &R,
    ) -> Cursor<T, S>
        requires { length (S.reading blocks).items ≡ need len T.BITS }
        ensures whole { R.has_bounds range.now
            → IsWhole result (unpacking len (map T.number (S.reading blocks).items) T.BITS) value
            (R.start_bound range.now) (R.end_bound range.now) T.BITS }
        ensures some { ForSomeRange len (λ low high. IsWhole result
            (unpacking len (map T.number (S.reading blocks).items) T.BITS) value low high T.BITS) }
        ensures reads { result.reads ≡ (S.reading blocks).reads }
    {
        let (start, stop) = cut_range(range, len);
        Cursor {
            unread: Unread::over(blocks, value, start, stop),
            front: FrontBits::none(),
            back: BackBits::none(),
        }
    }

    /// The first index that is left, taken.
    #[inline(always)]
    pub(crate) fn next(&mut self) -> Option<usize>
        ensures steps { YieldsFirst (λ (walk : Walk). walk.rest) self.old result self.new }
        ensures goes { MakesProgress (λ (walk : Walk). ⊤) (item_count (λ (walk : Walk). walk.rest))
            self.old result self.new }
        ensures reads { IsPulled self.old (result ∷ []) self.new }
    {
        // Asked apart, so that a loop over places asks for no run, and one over a run for no block.
        if self.front.has_places() {
            return self.front.next();
        }
        if !self.front.is_empty() {
            return self.front.next();
        }
        fill_front(&mut self.unread, &mut self.front, &mut self.back);
        self.front.next()
    }

    /// The last index that is left, taken.
    #[inline(always)]
    pub(crate) fn next_back(&mut self) -> Option<usize>
        ensures steps { YieldsLast (λ (walk : Walk). walk.rest) self.old result self.new }
        ensures goes { MakesProgress (λ (walk : Walk). ⊤) (item_count (λ (walk : Walk). walk.rest))
            self.old result self.new }
        ensures reads { IsPulled self.old (result ∷ []) self.new }
    {
        // Asked first, so that the loop over a run is one of its own.
        if self.back.is_run() {
            return self.back.next_back();
        }
        fill_back(&mut self.unread, &mut self.front, &mut self.back);
        self.back.next_back()
    }

    /// How many indices are left.
    pub(crate) fn count(self) -> usize
        ensures { result ≡ length self.rest }
    {
        self.front.count() + self.unread.count() + self.back.count()
    }

    /// The first or the last index that is left, taken.
    pub(crate) fn pull(&mut self, side: End) -> Option<usize>
        ensures given { result ≡ end_item side self.old.rest }
        ensures kept { self.new.rest ≡ without_end side self.old.rest }
        ensures reads { IsPulled self.old (result ∷ []) self.new }
    {
        match side {
            End::Front => self.next(),
            End::Back => self.next_back(),
        }
    }
}
