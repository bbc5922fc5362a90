//! The digits of bits, a block at a time.
ghost use Rattle.std.specs.Prelude.{◌≡◌, ◌∷◌, ◌≤◌, [], map, length};
ghost use Rattle.std.specs.Fmt.{WritesOnOk};
ghost use Rattle.vob_block.specs.Digits.{digit};
ghost use Rattle.vob_block.specs.Packing.{need, unpacking};

use std::{fmt, str};
use vob_block::BitBlock;

// The most places that a block has.
const MOST: usize = 128;

/// Writes the digits of a block's first places over some bytes.
fn fill_digits<T: BitBlock>(block: T, digits: &mut [u8])
    requires { length digits.old ≤ T.BITS }
    ensures { digits.new
        ≡ map digit (unpacking (length digits.old) (T.number block ∷ []) T.BITS) }
{
    for j in 0..digits.len() {
        digits[j] = if block.bit(j) { b'1' } else { b'0' };
    }
}

/// Writes the digits of the first `count` places of a block.
fn write_block<T: BitBlock, W: fmt::Write>(
    block: T,
    count: usize,
    f: &mut fmt::Formatter<W>,
) -> fmt::Result
    requires { count ≤ T.BITS }
    ensures { WritesOnOk W.write_str_gives f.old result
        (map digit (unpacking count (T.number block ∷ []) T.BITS)) f.new }
{
    let mut buffer = [b'0'; MOST];
    let digits = &mut buffer[..count];
    fill_digits(block, digits);
    let Ok(text) = str::from_utf8(digits) else {
        unreachable!();
    };
    f.write_str(text)
}

/// Writes a digit for each of the first `len` bits of some blocks, that of index 0 first.
pub fn write_digits<T: BitBlock, W: fmt::Write>(
    blocks: &[T],
    len: usize,
    f: &mut fmt::Formatter<W>,
) -> fmt::Result
    requires { length blocks.now ≡ need len T.BITS }
    ensures { WritesOnOk W.write_str_gives f.old result
        (map digit (unpacking len (map T.number blocks.now) T.BITS)) f.new }
{
    let mut left = len;
    for block in blocks {
        let count = left.min(T::BITS);
        write_block(*block, count, f)?;
        left -= count;
    }
    Ok(())
}
