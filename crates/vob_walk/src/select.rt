//! The index of a true bit by its rank, which is the number of true bits below it.
ghost use Rattle.std.specs.Prelude.{◌≡◌, ℕ, ◌+◌, ◌*◌, ◌/◌, ◌<◌, ◌≤◌, true, length, map, option_map, unwrap_or, MatchOption};
ghost use Rattle.vob_block.specs.Packing.{bit_at};
ghost use Rattle.vob_block.specs.Places.{place, true_places};
ghost use Rattle.vob_walk.specs.Count.{ones_between};
ghost use Rattle.vob_walk.specs.Select.{HasRank};

use vob_block::{BitBlock, Blocks};

/// Returns the index of the set bit of this rank, counted from 0, or `None` if there are at most `rank`
/// set bits. Reads the blocks up to the one that holds it, once each. vob 4.0.1 has no public call like
/// it.
pub fn index_of_rank<T: BitBlock>(blocks: &mut Blocks<'_, T>, rank: usize) -> Option<usize>
    requires fits { (i : ℕ) → bit_at (map T.number blocks.old.items) T.BITS i ≡ true
        → i ≤ usize.MAX }
    ensures found { MatchOption result
        (ones_between T.BITS (map T.number blocks.old.items) 0
        (length blocks.old.items * T.BITS) ≤ rank)
        (HasRank T.BITS (map T.number blocks.old.items) rank) }
    ensures reads { blocks.new.reads ≡ blocks.old.reads
        + unwrap_or (option_map (λ i. i / T.BITS + 1) result) (length blocks.old.items) }
    ensures items { blocks.new.items ≡ blocks.old.items }
{
    let mut left = rank;
    for k in 0..blocks.len() {
        let block = blocks.block(k);
        let ones = block.ones_in();
        if left < ones {
            let place = place_of_rank(block, left);
            return Some(k * T::BITS + place);
        }
        left -= ones;
    }
    None
}

/// The true place below which `rank` true ones stand. A count of the places below the middle of
/// those that are left says on which side of it the place is.
fn place_of_rank<T: BitBlock>(block: T, rank: usize) -> usize
    requires { rank < true_places T.BITS (T.number block) }
    ensures inside { result < T.BITS }
    ensures there { place result (T.number block) ≡ true }
    ensures rank { true_places result (T.number block) ≡ rank }
{
    let mut low = 0;
    let mut high = T::BITS;
    while high - low > 1 {
        let middle = low + (high - low) / 2;
        if block.band(T::low_mask(middle)).ones_in() <= rank {
            low = middle;
        } else {
            high = middle;
        }
    }
    low
}
