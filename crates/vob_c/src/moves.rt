//! All bits moved: shifted, reversed or rotated.
ghost use Rattle.std.specs.Prelude.{◌≡◌, ◌≢◌, ◌≤◌, ◌++◌, drop, false, length, min, replicate, reverse, take};
ghost use Rattle.vob_block.specs.Packing.{unpacking, IsCanonical, Stores};
ghost use Rattle.vob.specs.Moves.{rotated, rotated_back, IsReversedBetween};
ghost use Rattle.vob_c.specs.Status.{HasWords, TellsWords};

use crate::ranges::{change_between, move_between};
use crate::status::{OK, status_of};
use vob_store::range::Unset;
use vob_store::reverse::reverse_bits_between;

/// Moves each bit up by `n` indices.
fn shift_up(words: &mut [usize], bits: usize, n: usize)
    requires { IsCanonical bits words.old 64 }
    ensures { Stores 64 bits words.new (take bits (replicate n false ++ unpacking bits words.old 64)) }
{
    let by = n.min(bits);
    move_between(words, bits, by, 0, bits - by);
    change_between::<Unset>(words, bits, 0, by);
}

/// Moves each bit down by `n` indices.
fn shift_down(words: &mut [usize], bits: usize, n: usize)
    requires { IsCanonical bits words.old 64 }
    ensures { Stores 64 bits words.new
        (drop n (unpacking bits words.old 64) ++ replicate (min n bits) false) }
{
    let by = n.min(bits);
    let left = bits - by;
    move_between(words, bits, 0, by, left);
    change_between::<Unset>(words, bits, left, left + by);
}

/// Moves each bit up by `n` indices. The bits below `n` become false, and those that pass the last one
/// are dropped.
#[unsafe(no_mangle)]
pub extern "C" fn conthiral_shift_up(words: &mut [usize], bits: usize, n: usize) -> u8
    ensures status { TellsWords result (HasWords bits words.old) (IsCanonical bits words.old 64) }
    ensures bits { result ≡ 0 → Stores 64 bits words.new
        (take bits (replicate n false ++ unpacking bits words.old 64)) }
    ensures refused { result ≢ 0 → words.new ≡ words.old }
{
    let status = status_of(words, bits);
    if status != OK {
        return status;
    }
    shift_up(words, bits, n);
    OK
}

/// Moves each bit down by `n` indices. The first `n` bits are dropped, and the last `n` become false.
#[unsafe(no_mangle)]
pub extern "C" fn conthiral_shift_down(words: &mut [usize], bits: usize, n: usize) -> u8
    ensures status { TellsWords result (HasWords bits words.old) (IsCanonical bits words.old 64) }
    ensures bits { result ≡ 0 → Stores 64 bits words.new
        (drop n (unpacking bits words.old 64) ++ replicate (min n bits) false) }
    ensures refused { result ≢ 0 → words.new ≡ words.old }
{
    let status = status_of(words, bits);
    if status != OK {
        return status;
    }
    shift_down(words, bits, n);
    OK
}

/// Reverses the order of the bits from index `start` to below `stop`.
fn reverse_between(words: &mut [usize], bits: usize, start: usize, stop: usize)
    requires canonical { IsCanonical bits words.old 64 }
    requires order { start ≤ stop }
    requires inside { stop ≤ bits }
    ensures canonical { IsCanonical bits words.new 64 }
    ensures each { IsReversedBetween start stop (unpacking bits words.old 64)
        (unpacking bits words.new 64) }
{
    reverse_bits_between(words, start, stop);
}

/// Reverses the order of all bits.
fn reverse_all(words: &mut [usize], bits: usize)
    requires { IsCanonical bits words.old 64 }
    ensures { Stores 64 bits words.new (reverse (unpacking bits words.old 64)) }
{
    reverse_between(words, bits, 0, bits);
}

/// Reverses the order of the bits: the last one becomes the first.
#[unsafe(no_mangle)]
pub extern "C" fn conthiral_reverse(words: &mut [usize], bits: usize) -> u8
    ensures status { TellsWords result (HasWords bits words.old) (IsCanonical bits words.old 64) }
    ensures bits { result ≡ 0 → Stores 64 bits words.new (reverse (unpacking bits words.old 64)) }
    ensures refused { result ≢ 0 → words.new ≡ words.old }
{
    let status = status_of(words, bits);
    if status != OK {
        return status;
    }
    reverse_all(words, bits);
    OK
}

/// Puts the first `n` bits after the others: both parts are reversed, and then all bits.
fn rotate_by(words: &mut [usize], bits: usize, n: usize)
    requires canonical { IsCanonical bits words.old 64 }
    requires inside { n ≤ bits }
    ensures { Stores 64 bits words.new
        (drop n (unpacking bits words.old 64) ++ take n (unpacking bits words.old 64)) }
{
    reverse_between(words, bits, 0, n);
    reverse_between(words, bits, n, bits);
    reverse_between(words, bits, 0, bits);
}

/// Rotates the bits down by `n` indices.
fn rotate_down(words: &mut [usize], bits: usize, n: usize)
    requires { IsCanonical bits words.old 64 }
    ensures { Stores 64 bits words.new (rotated n (unpacking bits words.old 64)) }
{
    if bits > 0 {
        rotate_by(words, bits, n % bits);
    }
}

/// Rotates the bits up by `n` indices.
fn rotate_up(words: &mut [usize], bits: usize, n: usize)
    requires { IsCanonical bits words.old 64 }
    ensures { Stores 64 bits words.new (rotated_back n (unpacking bits words.old 64)) }
{
    if bits > 0 {
        rotate_by(words, bits, bits - n % bits);
    }
}

/// Rotates the bits down by `n` indices: the first `n` bits are put after the others. `n` is taken modulo
/// the number of bits.
#[unsafe(no_mangle)]
pub extern "C" fn conthiral_rotate_down(words: &mut [usize], bits: usize, n: usize) -> u8
    ensures status { TellsWords result (HasWords bits words.old) (IsCanonical bits words.old 64) }
    ensures bits { result ≡ 0 → Stores 64 bits words.new (rotated n (unpacking bits words.old 64)) }
    ensures refused { result ≢ 0 → words.new ≡ words.old }
{
    let status = status_of(words, bits);
    if status != OK {
        return status;
    }
    rotate_down(words, bits, n);
    OK
}

/// Rotates the bits up by `n` indices: the last `n` bits are put before the others. `n` is taken modulo
/// the number of bits.
#[unsafe(no_mangle)]
pub extern "C" fn conthiral_rotate_up(words: &mut [usize], bits: usize, n: usize) -> u8
    ensures status { TellsWords result (HasWords bits words.old) (IsCanonical bits words.old 64) }
    ensures bits { result ≡ 0 → Stores 64 bits words.new
        (rotated_back n (unpacking bits words.old 64)) }
    ensures refused { result ≢ 0 → words.new ≡ words.old }
{
    let status = status_of(words, bits);
    if status != OK {
        return status;
    }
    rotate_up(words, bits, n);
    OK
}
