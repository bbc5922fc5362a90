//! The next or the previous index of a bit of one value, and the first stretch of unset bits.
ghost use Rattle.std.specs.Prelude.{◌≡◌, ◌≢◌, ◌+◌, ◌<◌, ◌≤◌};
ghost use Rattle.vob_block.specs.Packing.{unpacking, IsCanonical};
ghost use Rattle.vob.specs.Room.{HasNoRoom, IsFirstRoom};
ghost use Rattle.vob.specs.Sets.{IsNext, IsPrevious};
ghost use Rattle.vob_c.specs.Found.{found_below};
ghost use Rattle.vob_c.specs.Status.{HasWords, Tells, TellsWords};

use crate::status::{OK, RANGE, status_of};
use vob_block::Blocks;
use vob_walk::{Runs, next_index, previous_index};

/// Returns the first index at or above `from` whose bit is `value`, or `bits` if there is none.
fn next_or_end(words: &[usize], bits: usize, value: bool, from: usize) -> usize
    requires { IsCanonical bits words.now 64 }
    ensures next { IsNext value (unpacking bits words.now 64) from (found_below bits result) }
    ensures most { result ≤ bits }
{
    let found = next_index(&mut Blocks::new(words), value, bits, from);
    found.unwrap_or(bits)
}

/// Returns the last index at or below `upto` whose bit is `value`, or `bits` if there is none.
fn previous_or_end(words: &[usize], bits: usize, value: bool, upto: usize) -> usize
    requires { IsCanonical bits words.now 64 }
    ensures previous { IsPrevious value (unpacking bits words.now 64) upto
        (found_below bits result) }
    ensures most { result ≤ bits }
{
    let found = previous_index(&mut Blocks::new(words), value, bits, upto);
    found.unwrap_or(bits)
}

/// Writes into `index` the first index at or above `from` whose bit is `value`, or `bits` if there is
/// none.
#[unsafe(no_mangle)]
pub extern "C" fn conthiral_next(
    words: &[usize],
    bits: usize,
    value: bool,
    from: usize,
    index: &mut usize,
) -> u8
    ensures status { TellsWords result (HasWords bits words.now) (IsCanonical bits words.now 64) }
    ensures next { result ≡ 0
        → IsNext value (unpacking bits words.now 64) from (found_below bits index.new) }
    ensures most { result ≡ 0 → index.new ≤ bits }
    ensures refused { result ≢ 0 → index.new ≡ index.old }
{
    let status = status_of(words, bits);
    if status != OK {
        return status;
    }
    *index = next_or_end(words, bits, value, from);
    OK
}

/// Writes into `index` the last index at or below `upto` whose bit is `value`, or `bits` if there is
/// none.
#[unsafe(no_mangle)]
pub extern "C" fn conthiral_previous(
    words: &[usize],
    bits: usize,
    value: bool,
    upto: usize,
    index: &mut usize,
) -> u8
    ensures status { TellsWords result (HasWords bits words.now) (IsCanonical bits words.now 64) }
    ensures previous { result ≡ 0
        → IsPrevious value (unpacking bits words.now 64) upto (found_below bits index.new) }
    ensures most { result ≡ 0 → index.new ≤ bits }
    ensures refused { result ≢ 0 → index.new ≡ index.old }
{
    let status = status_of(words, bits);
    if status != OK {
        return status;
    }
    *index = previous_or_end(words, bits, value, upto);
    OK
}

/// Returns the least index from which on `count` bits in a row are false, or `bits` if there is none.
fn room_or_end(words: &[usize], bits: usize, count: usize) -> usize
    requires canonical { IsCanonical bits words.now 64 }
    requires some { 0 < count }
    ensures found { result < bits → IsFirstRoom count (unpacking bits words.now 64) result }
    ensures none { result ≡ bits → HasNoRoom count (unpacking bits words.now 64) }
    ensures most { result ≤ bits }
{
    for run in Runs::over(Blocks::new(words), false, 0, bits) {
        if run.end - run.start >= count {
            return run.start;
        }
    }
    bits
}

/// Writes into `index` the least index from which on `count` bits in a row are false, or `bits` if there
/// is none. `count` is at least 1.
#[unsafe(no_mangle)]
pub extern "C" fn conthiral_first_unset_run(
    words: &[usize],
    bits: usize,
    count: usize,
    index: &mut usize,
) -> u8
    ensures status { Tells result (HasWords bits words.now) (IsCanonical bits words.now 64)
        (0 < count) }
    ensures found { result ≡ 0 → index.new < bits
        → IsFirstRoom count (unpacking bits words.now 64) index.new }
    ensures none { result ≡ 0 → index.new ≡ bits → HasNoRoom count (unpacking bits words.now 64) }
    ensures most { result ≡ 0 → index.new ≤ bits }
    ensures refused { result ≢ 0 → index.new ≡ index.old }
{
    let status = status_of(words, bits);
    if status != OK {
        return status;
    }
    if count == 0 {
        return RANGE;
    }
    *index = room_or_end(words, bits, count);
    OK
}
