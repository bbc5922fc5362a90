//! How many blocks some bits take, and room for them.
ghost use Rattle.std.specs.Prelude.{◌≡◌, ◌<◌, ◌≤◌, OnOk, OnErr, vec_capacity};
ghost use Rattle.vob_block.specs.Packing.{need};

use std::alloc::AllocError;
use vob_block::BitBlock;

/// How many blocks `len` bits take.
pub fn block_count<T: BitBlock>(len: usize) -> usize
    ensures { result ≡ need len T.BITS }
{
    len.div_ceil(T::BITS)
}

/// Makes room for `total` bits. Memory is asked for only if there is less.
pub fn reserve_bits<T: BitBlock>(blocks: &mut Vec<T>, total: usize) -> Result<(), AllocError>
    ensures items { blocks.new.items ≡ blocks.old.items }
    ensures ok { OnOk result (need total T.BITS ≤ vec_capacity blocks.new) }
    ensures err { OnErr result (vec_capacity blocks.new ≡ vec_capacity blocks.old) }
    ensures full { OnErr result (vec_capacity blocks.old < need total T.BITS) }
    ensures capacity { vec_capacity blocks.old ≤ vec_capacity blocks.new }
    ensures stays { need total T.BITS ≤ vec_capacity blocks.old
        → vec_capacity blocks.new ≡ vec_capacity blocks.old }
{
    let wanted = total.div_ceil(T::BITS);
    if blocks.capacity() < wanted {
        blocks.reserve(wanted - blocks.len())?;
    }
    Ok(())
}
