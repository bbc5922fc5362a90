//! The first bit of two slices of blocks combined.
ghost use Rattle.std.specs.Prelude.{◌≡◌, ℕ, ◌+◌, ◌/◌, ◌≤◌, true, length, map, option_map, unwrap_or, MatchOption};
ghost use Rattle.vob_store.specs.Combined.{combined_bit, HaveNone, IsFirstCombined};

use vob_block::{BitBlock, Blocks, Combine};

/// The index of the first true bit of both combined. The blocks of `other` are read up to the one that
/// holds it, once each.
pub fn first_combined<C: Combine, T: BitBlock>(
    own: &[T],
    other: &mut Blocks<'_, T>,
) -> Option<usize>
    requires same { length own.now ≡ length other.old.items }
    requires fits { (i : ℕ) → combined_bit C.of_bits T.BITS (map T.number own.now)
        (map T.number other.old.items) i ≡ true → i ≤ usize.MAX }
    ensures found { MatchOption result (HaveNone C.of_bits T.BITS 0 (length own.now)
        (map T.number own.now) (map T.number other.old.items))
        (IsFirstCombined C.of_bits T.BITS (map T.number own.now) (map T.number other.old.items)) }
    ensures items { other.new.items ≡ other.old.items }
    ensures reads { other.new.reads ≡ other.old.reads
        + unwrap_or (option_map (λ i. i / T.BITS + 1) result) (length other.old.items) }
{
    for k in 0..own.len() {
        let block = C::block(own[k], other.block(k));
        if block != T::ZERO {
            let place = block.zeros_low();
            return Some(k * T::BITS + place);
        }
    }
    None
}
