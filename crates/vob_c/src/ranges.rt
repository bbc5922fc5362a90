//! The bits of a range: made one value, negated, moved, or written over others.
ghost use Rattle.std.specs.Prelude.{◌≡◌, ◌≢◌, ◌↔◌, ◌+◌, ◌-◌, ◌≤◌, IsTrue, drop, map, not, replicate, take};
ghost use Rattle.std.specs.declared.ops.Bound.TheVariants.{Included, Excluded};
ghost use Rattle.vob_block.specs.Packing.{unpacking, IsCanonical, Stores};
ghost use Rattle.vob.specs.Copy.{written_over, IsCopied};
ghost use Rattle.vob.specs.Ranges.{replaced, IsChangedWithin};
ghost use Rattle.vob_c.specs.Status.{HasWords, Tells};

use crate::status::{OK, RANGE, has_room, status_between, status_of, status_of_two};
use vob_block::Blocks;
use vob_store::load_store::{Stretch, copy_bits};
use vob_store::range::{Change, Negate, Set, Unset, change_range};
use vob_store::shift::move_bits;

/// Changes the bits from index `start` to below `stop`, and returns whether one changed.
pub(crate) fn change_between<C: Change>(
    words: &mut [usize],
    bits: usize,
    start: usize,
    stop: usize,
) -> bool
    requires canonical { IsCanonical bits words.old 64 }
    requires order { start ≤ stop }
    requires inside { stop ≤ bits }
    ensures stores { Stores 64 bits words.new (replaced start stop
        (map C.of_bit (take (stop - start) (drop start (unpacking bits words.old 64))))
        (unpacking bits words.old 64)) }
    ensures each { IsChangedWithin C.of_bit (Included start) (Excluded stop)
        (unpacking bits words.old 64) (unpacking bits words.new 64) }
    ensures changed { IsTrue result
        ↔ (unpacking bits words.new 64 ≢ unpacking bits words.old 64) }
{
    change_range::<C, usize>(words, bits, start, stop)
}

/// Makes the bits from index `start` to below `stop` `value`, and returns whether one changed.
fn write_between(words: &mut [usize], bits: usize, start: usize, stop: usize, value: bool) -> bool
    requires canonical { IsCanonical bits words.old 64 }
    requires order { start ≤ stop }
    requires inside { stop ≤ bits }
    ensures stores { Stores 64 bits words.new (replaced start stop
        (replicate (stop - start) value) (unpacking bits words.old 64)) }
    ensures changed { IsTrue result
        ↔ (unpacking bits words.new 64 ≢ unpacking bits words.old 64) }
{
    if value {
        change_between::<Set>(words, bits, start, stop)
    } else {
        change_between::<Unset>(words, bits, start, stop)
    }
}

/// Makes the bits from index `start` to below `stop` `value`, and says whether one changed. The range
/// must lie within the bits; it is empty if `start` is `stop`.
#[unsafe(no_mangle)]
pub extern "C" fn conthiral_set_range(
    words: &mut [usize],
    bits: usize,
    start: usize,
    stop: usize,
    value: bool,
    changed: &mut bool,
) -> u8
    ensures status { Tells result (HasWords bits words.old) (IsCanonical bits words.old 64)
        ((start ≤ stop) × (stop ≤ bits)) }
    ensures bits { result ≡ 0 → Stores 64 bits words.new (replaced start stop
        (replicate (stop - start) value) (unpacking bits words.old 64)) }
    ensures changed { result ≡ 0 → (IsTrue changed.new
        ↔ (unpacking bits words.new 64 ≢ unpacking bits words.old 64)) }
    ensures refused { result ≢ 0 → (words.new ≡ words.old) × (changed.new ≡ changed.old) }
{
    let status = status_between(words, bits, start, stop);
    if status != OK {
        return status;
    }
    *changed = write_between(words, bits, start, stop, value);
    OK
}

/// Negates the bits from index `start` to below `stop`. The range must lie within the bits.
#[unsafe(no_mangle)]
pub extern "C" fn conthiral_negate_range(
    words: &mut [usize],
    bits: usize,
    start: usize,
    stop: usize,
) -> u8
    ensures status { Tells result (HasWords bits words.old) (IsCanonical bits words.old 64)
        ((start ≤ stop) × (stop ≤ bits)) }
    ensures bits { result ≡ 0 → Stores 64 bits words.new (replaced start stop
        (map not (take (stop - start) (drop start (unpacking bits words.old 64))))
        (unpacking bits words.old 64)) }
    ensures refused { result ≢ 0 → words.new ≡ words.old }
{
    let status = status_between(words, bits, start, stop);
    if status != OK {
        return status;
    }
    change_between::<Negate>(words, bits, start, stop);
    OK
}

/// Writes `count` bits from index `start` on over those from `at` on, as if all were read first.
pub(crate) fn move_between(words: &mut [usize], bits: usize, at: usize, start: usize, count: usize)
    requires canonical { IsCanonical bits words.old 64 }
    requires source { start + count ≤ bits }
    requires inside { at + count ≤ bits }
    ensures stores { Stores 64 bits words.new (written_over at
        (take count (drop start (unpacking bits words.old 64))) (unpacking bits words.old 64)) }
    ensures each { IsCopied at start count (unpacking bits words.old 64)
        (unpacking bits words.old 64) (unpacking bits words.new 64) }
{
    move_bits(words, at, Stretch { start, count });
}

/// Writes `count` bits from index `start` on over those from `at` on, as if all were read first: the two
/// ranges may overlap. Both must lie within the bits.
#[unsafe(no_mangle)]
pub extern "C" fn conthiral_move(
    words: &mut [usize],
    bits: usize,
    at: usize,
    start: usize,
    count: usize,
) -> u8
    ensures status { Tells result (HasWords bits words.old) (IsCanonical bits words.old 64)
        ((at + count ≤ bits) × (start + count ≤ bits)) }
    ensures bits { result ≡ 0 → Stores 64 bits words.new (written_over at
        (take count (drop start (unpacking bits words.old 64))) (unpacking bits words.old 64)) }
    ensures refused { result ≢ 0 → words.new ≡ words.old }
{
    let status = status_of(words, bits);
    if status != OK {
        return status;
    }
    if !has_room(at, count, bits) || !has_room(start, count, bits) {
        return RANGE;
    }
    move_between(words, bits, at, start, count);
    OK
}

/// Writes `count` bits of `other` from index `start` on over those of `own` from `at` on.
fn copy_between(own: &mut [usize], bits: usize, at: usize, other: &[usize], from: From)
    requires canonical { IsCanonical bits own.old 64 }
    requires theirs { IsCanonical from.bits other.now 64 }
    requires source { from.start + from.count ≤ from.bits }
    requires inside { at + from.count ≤ bits }
    ensures stores { Stores 64 bits own.new (written_over at
        (take from.count (drop from.start (unpacking from.bits other.now 64)))
        (unpacking bits own.old 64)) }
{
    let From { start, count, .. } = from;
    copy_bits(own, at, &mut Blocks::new(other), Stretch { start, count });
}

/// Bits of an array that are copied: how many it has, and which of them.
#[derive(Clone, Copy)]
struct From {
    bits: usize,
    start: usize,
    count: usize,
}

/// Writes `count` bits of `other` from index `start` on over those of `own` from `at` on. Both ranges
/// must lie within the bits of their arrays.
#[unsafe(no_mangle)]
pub extern "C" fn conthiral_copy(
    own: &mut [usize],
    bits: usize,
    at: usize,
    other: &[usize],
    other_bits: usize,
    start: usize,
    count: usize,
) -> u8
    ensures status { Tells result (HasWords bits own.old × HasWords other_bits other.now)
        (IsCanonical bits own.old 64 × IsCanonical other_bits other.now 64)
        ((at + count ≤ bits) × (start + count ≤ other_bits)) }
    ensures bits { result ≡ 0 → Stores 64 bits own.new (written_over at
        (take count (drop start (unpacking other_bits other.now 64))) (unpacking bits own.old 64)) }
    ensures refused { result ≢ 0 → own.new ≡ own.old }
{
    let status = status_of_two(own, bits, other, other_bits);
    if status != OK {
        return status;
    }
    if !has_room(at, count, bits) || !has_room(start, count, other_bits) {
        return RANGE;
    }
    let from = From {
        bits: other_bits,
        start,
        count,
    };
    copy_between(own, bits, at, other, from);
    OK
}
