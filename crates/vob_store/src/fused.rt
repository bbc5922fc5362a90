//! What two slices of blocks combine to, added to a third, in one pass.
ghost use Rattle.std.specs.Prelude.{◌≡◌, ℕ, List, ◌||◌, length, map};
ghost use Rattle.vob_block.specs.Pointwise.{IsCombined, IsPointwise};

use vob_block::{BitBlock, Blocks, Combine};

/// Adds to `own` the places that two others combined have, and returns whether a block changed. Each
/// block of the others is read once.
pub fn or_combined<C: Combine, T: BitBlock>(
    own: &mut [T],
    first: &mut Blocks<'_, T>,
    second: &mut Blocks<'_, T>,
) -> bool
    requires first { length own.old ≡ length first.old.items }
    requires second { length own.old ≡ length second.old.items }
    ensures { (both : List ℕ) → IsPointwise T.BITS C.of_bits (map T.number first.old.items)
        (map T.number second.old.items) both
        → IsCombined T.BITS ◌||◌ (map T.number own.old) both (map T.number own.new) result }
{
    let mut changed = T::ZERO;
    for k in 0..own.len() {
        changed.in_range();
        let old = own[k];
        old.in_range();
        let new = old.bor(C::block(first.block(k), second.block(k)));
        own[k] = new;
        changed = changed.bor(old.bxor(new));
    }
    changed != T::ZERO
}
