//! One row, borrowed from others or from a Vob, that reads like a Vob.
ghost use Rattle.std.specs.Prelude.{◌≡◌, ◌≢◌, ◌↔◌, ◌||◌, ◌+◌, ◌-◌, ◌^◌, ◌<◌, ◌≤◌, ℕ, [], false, true, drop, length, map, slice_get, take, IfOk, IfSome, IsOk, IsTrue};
ghost use Rattle.std.specs.Iterator.Runs.{YieldsInOrder, YieldsInReverse};
ghost use Rattle.vob_block.specs.Packing.{item, packing, IsCanonical};
ghost use Rattle.vob_block.specs.Places.{place, HasPlaces};
ghost use Rattle.vob_block.specs.Pointwise.{pointwise};
ghost use Rattle.vob_walk.specs.Matches.{ForSomeRange};
ghost use Rattle.vob_walk.specs.Walk.{IsFresh, GivesFirst, GivesLast};
ghost use Rattle.vob.specs.Bits.{AreCombined, count_of};
ghost use Rattle.vob.specs.Sets.{AreDisjoint, HasShared, IsBit, IsNext};

use std::alloc::{AllocError, Global};
use std::marker::Model;
use std::ops::{Range, RangeBounds};
use vob::Vob;
use vob_block::{And, Blocks, Kernel};
use vob_store::combined::has_none;
use vob_store::load_store::bits_at;
use vob_store::single::stored_bit;
use vob_walk::{IterSetBits, count_ones_in, next_index};

/// A list of bits in borrowed blocks: a row of some, or a whole Vob. Contracts see the list.
#[derive(Drop)]
pub struct Row<'a, T: Kernel = usize> {
    pub(crate) blocks: &'a [T],
    // In bits.
    pub(crate) len: usize,
}

impl<'a, T: Kernel> Model for Row<'a, T> {
    ghost use Rattle.std.specs.Prelude.{Bool, List, map};
    ghost use Rattle.vob_block.specs.Packing.{unpacking, IsCanonical};

    ghost Value = { List Bool };

    ghost view = { λ row. unpacking row.len (map T.number row.blocks.now) T.BITS };

    ghost invariant = { λ row. IsCanonical row.len (map T.number row.blocks.now) T.BITS };
}

impl<'a, T: Kernel> Row<'a, T> {
    /// Returns the bits of a Vob.
    pub fn of(vob: &'a Vob<T>) -> Row<'a, T>
        ensures { result ≡ vob.now.bits }
    {
        Row {
            blocks: vob.get_storage(),
            len: vob.len(),
        }
    }

    /// Returns the number of bits.
    pub fn len(&self) -> usize
        ensures { result ≡ length self.now }
    {
        self.len
    }

    /// Returns bit `index`, or `None` past the length.
    pub fn get(&self, index: usize) -> Option<bool>
        ensures { result ≡ slice_get self.now index }
    {
        if index < self.len {
            Some(stored_bit(self.blocks, self.len, index))
        } else {
            None
        }
    }

    /// Returns the blocks, the one with bit 0 first.
    pub fn get_storage(&self) -> &'a [T]
        ensures { map T.number result.now ≡ packing self.now T.BITS }
    {
        self.blocks
    }

    /// Returns the blocks, whose reads contracts count.
    fn blocks(&self) -> Blocks<'_, T>
        ensures blocks { map T.number result.items ≡ packing self.now T.BITS }
        ensures canonical { IsCanonical (length self.now) (map T.number result.items) T.BITS }
        ensures reads { result.reads ≡ 0 }
    {
        Blocks::new(self.blocks)
    }

    /// Counts the set bits below an index, or all if it is past the length.
    pub fn rank(&self, index: usize) -> usize
        ensures { result ≡ count_of true (take index self.now) }
    {
        count_ones_in(&mut self.blocks(), 0, index.min(self.len()))
    }

    /// Counts the set bits.
    pub fn count_ones(&self) -> usize
        ensures { result ≡ count_of true self.now }
    {
        self.rank(self.len())
    }

    /// Returns a walk over the indices of the set bits within a range, in rising order. Every pair of
    /// bounds is accepted, and the range is cut at the length.
    pub fn iter_set_bits<R: RangeBounds<usize>>(&self, range: R) -> IterSetBits<'_, T>
        ensures fresh { R.has_bounds range
            → IsFresh result self.now true (R.start_bound range) (R.end_bound range) T.BITS }
        ensures some { ForSomeRange (length self.now) (λ low high.
            IsFresh result self.now true low high T.BITS) }
        ensures most { length result.rest ≤ length self.now }
        ensures longest { length result.rest ≤ usize.MAX }
        ensures runs { YieldsInOrder GivesFirst (λ walk. walk.rest) }
        ensures runs_back { YieldsInReverse GivesLast (λ walk. walk.rest) }
    {
        IterSetBits::over(self.blocks(), self.len(), range)
    }

    /// Returns the index of the first set bit at or above `from`, which may be past the end.
    pub fn next_set(&self, from: usize) -> Option<usize>
        ensures next { IsNext true self.now from result }
        ensures inside { IfSome result (λ i. IsBit true self.now i) }
        ensures above { IfSome result (λ i. (from ≤ i) × (i < usize.MAX)) }
    {
        next_index(&mut self.blocks(), true, self.len(), from)
    }

    /// Returns whether no bit is set in both. The lengths must be equal.
    pub fn is_disjoint(&self, other: &Row<'_, T>) -> bool
        requires { length self.now ≡ length other.now }
        ensures answer { IsTrue result ↔ AreDisjoint self.now other.now }
        ensures shared { result ≡ false → HasShared self.now other.now }
    {
        has_none::<And, T>(self.blocks, &mut other.blocks())
    }

    /// Adds the set bits to a Vob as long as the row, and returns whether that added one.
    pub fn or_into(&self, vob: &mut Vob<T>) -> bool
        requires { length self.now ≡ length vob.old.bits }
        ensures bits { vob.new.bits ≡ pointwise ◌||◌ vob.old.bits self.now }
        ensures each { AreCombined ◌||◌ vob.old.bits self.now vob.new.bits }
        ensures changed { IsTrue result ↔ (vob.new.bits ≢ vob.old.bits) }
    {
        vob.or_blocks(&mut self.blocks())
    }

    /// Returns the bits of the range as one block, the first bit in place 0, and the places above them
    /// unset. The range must lie within the length, and hold at most `T::BITS` bits.
    pub fn load(&self, range: Range<usize>) -> T
        requires order { range.start ≤ range.end }
        requires inside { range.end ≤ length self.now }
        requires few { range.end ≤ range.start + T.BITS }
        ensures places { HasPlaces T.BITS (T.number result)
            (item (take (range.end - range.start) (drop range.start self.now))) }
        ensures each { (j : ℕ) → j < range.end - range.start
            → place j (T.number result) ≡ item self.now (range.start + j) }
        ensures within { T.number result < 2 ^ T.BITS }
    {
        let mask = T::low_mask(range.end - range.start);
        bits_at(&mut self.blocks(), range.start).band(mask)
    }

    /// Returns the bits in a Vob of their own. Fails if memory runs out; no bits take none.
    pub fn to_vob(&self, alloc: Global) -> Result<Vob<T>, AllocError>
        ensures bits { IfOk result (λ vob. vob.bits ≡ self.now) }
        ensures nothing { self.now ≡ [] → IsOk result }
    {
        let mut vob = Vob::new_with_storage_type(alloc, self.len())?;
        vob.append_blocks(&mut self.blocks(), self.len());
        Ok(vob)
    }
}
