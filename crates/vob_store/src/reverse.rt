//! Bits put in reverse order within some blocks: a block at a time from both ends.
ghost use Rattle.std.specs.Prelude.{◌+◌, ◌-◌, ◌*◌, ◌^◌, ◌<◌, ◌≤◌, All, map, length};
ghost use Rattle.vob_block.specs.Packing.{bit_at};
ghost use Rattle.vob_block.specs.Places.{place, HasPlaces};
ghost use Rattle.vob_store.specs.Reversing.{AreExchanged, AreReversed, IsHalvable};

use crate::bytes::exchange;
use crate::load_store::{bits_at, write_bits};
use vob_block::{BitBlock, Blocks};

/// A block with its places in reverse order: its halves are exchanged, then the halves of these, down
/// to single places. The mask has the lower half of each two.
fn reversed<T: BitBlock>(block: T) -> T
    requires { IsHalvable T.BITS }
    ensures { HasPlaces T.BITS (T.number result) (λ j. place (T.BITS - 1 - j) (T.number block)) }
{
    let mut all = block;
    let mut mask = T::ONES;
    let mut size = T::BITS;
    while size > 1 {
        size /= 2;
        mask = mask.bxor(mask.up(size));
        all = exchange(all, size, mask);
    }
    all
}

/// The first `count` bits from index `from` on in reverse order, as the low places of a block.
fn reversed_at<T: BitBlock>(own: &[T], from: usize, count: usize) -> T
    requires halvable { IsHalvable T.BITS }
    requires some { 0 < count }
    requires few { count ≤ T.BITS }
    ensures { HasPlaces count (T.number result)
        (λ j. bit_at (map T.number own.now) T.BITS (from + (count - 1 - j))) }
{
    let width = T::BITS;
    reversed(bits_at(&mut Blocks::new(own), from)).down(width - count)
}

/// Exchanges the first `count` bits from index `start` on with the last ones below `end`, each of both
/// in reverse order.
fn exchange_ends<T: BitBlock>(own: &mut [T], start: usize, end: usize, count: usize)
    requires halvable { IsHalvable T.BITS }
    requires some { 0 < count }
    requires few { count ≤ T.BITS }
    requires apart { start + 2 * count ≤ end }
    requires inside { end ≤ length own.old * T.BITS }
    ensures exchanged { AreExchanged T.BITS start end count (map T.number own.old)
        (map T.number own.new) }
    ensures within { All (λ n. n < 2 ^ T.BITS) (map T.number own.new) }
{
    let low = reversed_at(own, start, count);
    let high = reversed_at(own, end - count, count);
    write_bits(own, start, high, count);
    write_bits(own, end - count, low, count);
}

/// Puts the bits from index `start` to below `end` in reverse order.
pub fn reverse_bits_between<T: BitBlock>(own: &mut [T], start: usize, end: usize)
    requires halvable { IsHalvable T.BITS }
    requires order { start ≤ end }
    requires inside { end ≤ length own.old * T.BITS }
    ensures reversed { AreReversed T.BITS start end (map T.number own.old) (map T.number own.new) }
    ensures within { All (λ n. n < 2 ^ T.BITS) (map T.number own.new) }
{
    let width = T::BITS;
    let mut low = start;
    let mut high = end;
    while high - low > 1 {
        let count = width.min((high - low) / 2);
        exchange_ends(own, low, high, count);
        low += count;
        high -= count;
    }
    T::all_in_range(own);
}
