//! What a walk looks for, and the places of a block that it finds there.
ghost use Rattle.std.specs.Prelude.{◌≡◌, ◌+◌, ◌-◌, ◌*◌, ◌^◌, ◌<◌, ◌≤◌, ◌&&◌, if◌then◌else◌, nat_le, nat_lt};
ghost use Rattle.vob_block.specs.Places.{place, HasPlaces};
ghost use Rattle.vob_walk.specs.Matches.{has_value};

use vob_block::BitBlock;

/// What a walk looks for: the bits of one value from index `start` to below `stop`.
#[derive(Clone, Copy)]
pub(crate) struct Window {
    pub(crate) value: bool,
    pub(crate) start: usize,
    pub(crate) stop: usize,
}

/// The block of which no place has the value.
#[inline(always)]
pub(crate) fn block_without<T: BitBlock>(value: bool) -> T
    ensures { T.number result ≡ (if value then 0 else 2 ^ T.BITS - 1) }
{
    if value { T::ZERO } else { T::ONES }
}

/// The places whose bits have the value.
#[inline(always)]
pub(crate) fn bits_of_value<T: BitBlock>(block: T, value: bool) -> T
    ensures places { HasPlaces T.BITS (T.number result)
        (λ j. has_value value (place j (T.number block))) }
    ensures within { T.number result < 2 ^ T.BITS }
{
    if value {
        block.in_range();
        block
    } else {
        block.bnot()
    }
}

/// The places from index `start` on, where place 0 is index `at`.
fn places_from<T: BitBlock>(block: T, at: usize, start: usize) -> T
    ensures places { HasPlaces T.BITS (T.number result)
        (λ j. nat_le start (at + j) && place j (T.number block)) }
    ensures within { T.number result < 2 ^ T.BITS }
{
    if start <= at {
        block.in_range();
        return block;
    }
    let from = start - at;
    if from < T::BITS {
        block.band(T::ONES.up(from))
    } else {
        T::ZERO
    }
}

/// The places below index `stop`, where place 0 is index `at`.
fn places_below<T: BitBlock>(block: T, at: usize, stop: usize) -> T
    requires { at ≤ stop }
    ensures places { HasPlaces T.BITS (T.number result)
        (λ j. nat_lt (at + j) stop && place j (T.number block)) }
    ensures within { T.number result < 2 ^ T.BITS }
{
    let below = stop - at;
    if below < T::BITS {
        block.band(T::low_mask(below))
    } else {
        block.in_range();
        block
    }
}

/// The places of block `k` that the window looks for.
pub(crate) fn masked<T: BitBlock>(block: T, k: usize, window: Window) -> T
    requires { k * T.BITS < window.stop }
    ensures places { HasPlaces T.BITS (T.number result)
        (λ j. nat_le window.start (k * T.BITS + j) && nat_lt (k * T.BITS + j) window.stop
        && has_value window.value (place j (T.number block))) }
    ensures within { T.number result < 2 ^ T.BITS }
{
    let at = k * T::BITS;
    let below = places_below(bits_of_value(block, window.value), at, window.stop);
    places_from(below, at, window.start)
}
