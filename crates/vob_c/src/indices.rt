//! The indices of the bits of one value, a block of them at a time.
ghost use Rattle.std.specs.Prelude.{◌≡◌, ◌≢◌, drop, length, min, take};
ghost use Rattle.std.specs.declared.ops.Bound.TheVariants.{Included, Unbounded};
ghost use Rattle.vob_block.specs.Packing.{unpacking, IsCanonical};
ghost use Rattle.vob_walk.specs.Matches.{matches};
ghost use Rattle.vob_walk.specs.Walk.{GivesFirst, Walk};
ghost use Rattle.vob_c.specs.Indices.{AreFirst};
ghost use Rattle.vob_c.specs.Status.{HasWords, TellsWords};

use crate::status::{OK, status_of};
use vob_block::Blocks;
use vob_walk::{IterSetBits, IterUnsetBits};

/// Writes the first indices of a walk over set bits into `out`, as many as it has room for, and returns
/// how many.
fn write_set(mut walk: IterSetBits<'_, usize>, out: &mut [usize]) -> usize
    ensures { AreFirst walk.entry.rest out.old out.new result }
{
    for k in 0..out.len() {
        let Some(index) = walk.next() else {
            return k;
        };
        out[k] = index;
    }
    out.len()
}

/// Writes those of a walk over unset bits.
fn write_unset(mut walk: IterUnsetBits<'_, usize>, out: &mut [usize]) -> usize
    ensures { AreFirst walk.entry.rest out.old out.new result }
{
    for k in 0..out.len() {
        let Some(index) = walk.next() else {
            return k;
        };
        out[k] = index;
    }
    out.len()
}

/// Writes the indices from `from` on of the bits that are `value` into `indices`, the least ones first and
/// as many as there is room for, and writes into `count` how many. The rest of the array stays. If the
/// array is full, the next call goes on behind the last index.
#[unsafe(no_mangle)]
pub extern "C" fn conthiral_indices(
    words: &[usize],
    bits: usize,
    value: bool,
    from: usize,
    indices: &mut [usize],
    count: &mut usize,
) -> u8
    ensures status { TellsWords result (HasWords bits words.now) (IsCanonical bits words.now 64) }
    ensures indices { result ≡ 0
        → AreFirst (matches (unpacking bits words.now 64) value (Included from) Unbounded)
        indices.old indices.new count.new }
    ensures refused { result ≢ 0 → (indices.new ≡ indices.old) × (count.new ≡ count.old) }
{
    let status = status_of(words, bits);
    if status != OK {
        return status;
    }
    *count = found_indices(words, bits, value, from, indices);
    OK
}

/// Writes the first indices into `out`, and returns how many.
fn found_indices(words: &[usize], bits: usize, value: bool, from: usize, out: &mut [usize]) -> usize
    requires { IsCanonical bits words.now 64 }
    ensures { AreFirst (matches (unpacking bits words.now 64) value (Included from) Unbounded)
        out.old out.new result }
{
    let blocks = Blocks::new(words);
    if value {
        write_set(IterSetBits::over(blocks, bits, from..), out)
    } else {
        write_unset(IterUnsetBits::over(blocks, bits, from..), out)
    }
}
