//! The bits of a range changed: made true, made false, or negated, by whole blocks. Only the first
//! and the last block of the range are masked.
ghost use Rattle.std.specs.Prelude.{◌≡◌, ◌≢◌, ◌↔◌, ◌+◌, ◌*◌, ◌^◌, ◌<◌, ◌≤◌, ◌&&◌, Bool, true, false, not, if◌then◌else◌, nat_le, nat_lt, map, length, IsTrue};
ghost use Rattle.vob_block.specs.Places.{place, HasPlaces};
ghost use Rattle.vob_block.specs.Packing.{unpacking, IsCanonical};
ghost use Rattle.vob_store.specs.Range.{HaveSameBits, IsRanged};

use vob_block::BitBlock;

/// A way to change a block.
pub trait Change {
    // What it makes of a bit.
    ghost of_bit: { Bool → Bool };

    /// What it makes of the places that the mask has. The others stay.
    fn block<T: BitBlock>(block: T, mask: T) -> T
        ensures places { HasPlaces T.BITS (T.number result) (λ j. if place j (T.number mask)
            then of_bit (place j (T.number block)) else place j (T.number block)) }
        ensures within { T.number result < 2 ^ T.BITS };
}

/// Makes them true.
pub struct Set;

impl Change for Set {
    ghost of_bit = { λ _. true };

    #[inline(always)]
    fn block<T: BitBlock>(block: T, mask: T) -> T {
        block.bor(mask)
    }
}

/// Makes them false.
pub struct Unset;

impl Change for Unset {
    ghost of_bit = { λ _. false };

    #[inline(always)]
    fn block<T: BitBlock>(block: T, mask: T) -> T {
        block.band(mask.bnot())
    }
}

/// Negates them.
pub struct Negate;

impl Change for Negate {
    ghost of_bit = { not };

    #[inline(always)]
    fn block<T: BitBlock>(block: T, mask: T) -> T {
        block.bxor(mask)
    }
}

/// The places from `from` to below `to`.
fn mask_between<T: BitBlock>(from: usize, to: usize) -> T
    requires from { from ≤ T.BITS }
    requires to { to ≤ T.BITS }
    ensures { HasPlaces T.BITS (T.number result) (λ j. nat_le from j && nat_lt j to) }
{
    T::low_mask(to).band(T::low_mask(from).bnot())
}

/// Changes the places of block `k` from `from` to below `to`, and returns whether the block
/// changed.
fn change_places<C: Change, T: BitBlock>(blocks: &mut [T], k: usize, from: usize, to: usize) -> bool
    requires inside { k < length blocks.old }
    requires from { from ≤ T.BITS }
    requires to { to ≤ T.BITS }
    ensures ranged { IsRanged T.BITS C.of_bit (k * T.BITS + from) (k * T.BITS + to)
        (map T.number blocks.old) (map T.number blocks.new) }
    ensures changed { (result ≡ false)
        ↔ HaveSameBits T.BITS (map T.number blocks.old) (map T.number blocks.new) }
{
    let old = blocks[k];
    old.in_range();
    let new = C::block(old, mask_between(from, to));
    blocks[k] = new;
    old != new
}

/// Changes all places of the blocks from `from` to below `to`, and returns whether one changed.
fn change_blocks<C: Change, T: BitBlock>(blocks: &mut [T], from: usize, to: usize) -> bool
    requires order { from ≤ to }
    requires inside { to ≤ length blocks.old }
    ensures ranged { IsRanged T.BITS C.of_bit (from * T.BITS) (to * T.BITS)
        (map T.number blocks.old) (map T.number blocks.new) }
    ensures changed { (result ≡ false)
        ↔ HaveSameBits T.BITS (map T.number blocks.old) (map T.number blocks.new) }
{
    let mut changed = T::ZERO;
    for k in from..to {
        let old = blocks[k];
        old.in_range();
        let new = C::block(old, T::ONES);
        blocks[k] = new;
        changed = changed.bor(old.bxor(new));
    }
    changed != T::ZERO
}

/// Does the same in two parts. The second begins at a multiple of eight blocks. So no vector of
/// 64-bit blocks crosses a line of the cache there, if the memory begins at one.
fn change_lines<C: Change, T: BitBlock>(blocks: &mut [T], from: usize, to: usize) -> bool
    requires order { from ≤ to }
    requires inside { to ≤ length blocks.old }
    ensures ranged { IsRanged T.BITS C.of_bit (from * T.BITS) (to * T.BITS)
        (map T.number blocks.old) (map T.number blocks.new) }
    ensures changed { (result ≡ false)
        ↔ HaveSameBits T.BITS (map T.number blocks.old) (map T.number blocks.new) }
{
    let line = from + (8 - from % 8).min(to - from);
    let first = change_blocks::<C, T>(blocks, from, line);
    let rest = change_blocks::<C, T>(blocks, line, to);
    first | rest
}

/// Changes the bits from index `start` to below `stop`, and returns whether one changed.
fn change_some<C: Change, T: BitBlock>(blocks: &mut [T], start: usize, stop: usize) -> bool
    requires some { start < stop }
    requires inside { stop ≤ length blocks.old * T.BITS }
    ensures ranged { IsRanged T.BITS C.of_bit start stop
        (map T.number blocks.old) (map T.number blocks.new) }
    ensures changed { (result ≡ false)
        ↔ HaveSameBits T.BITS (map T.number blocks.old) (map T.number blocks.new) }
{
    let width = T::BITS;
    let first = start / width;
    let last = (stop - 1) / width;
    let from = start % width;
    let to = (stop - 1) % width + 1;
    if first == last {
        return change_places::<C, T>(blocks, first, from, to);
    }
    let head = change_places::<C, T>(blocks, first, from, width);
    let middle = change_lines::<C, T>(blocks, first + 1, last);
    let tail = change_places::<C, T>(blocks, last, 0, to);
    head | middle | tail
}

/// Changes the bits from index `start` to below `stop` of `len` bits, and returns whether one
/// changed.
pub fn change_range<C: Change, T: BitBlock>(
    blocks: &mut [T],
    len: usize,
    start: usize,
    stop: usize,
) -> bool
    requires canonical { IsCanonical len (map T.number blocks.old) T.BITS }
    requires order { start ≤ stop }
    requires inside { stop ≤ len }
    ensures canonical { IsCanonical len (map T.number blocks.new) T.BITS }
    ensures ranged { IsRanged T.BITS C.of_bit start stop
        (map T.number blocks.old) (map T.number blocks.new) }
    ensures changed { IsTrue result ↔ (unpacking len (map T.number blocks.new) T.BITS
        ≢ unpacking len (map T.number blocks.old) T.BITS) }
{
    start < stop && change_some::<C, T>(blocks, start, stop)
}
