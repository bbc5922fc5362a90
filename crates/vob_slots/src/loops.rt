//! A loop over the set bits of one vector that writes another.
ghost use Rattle.std.specs.Prelude.{◌≡◌, ◌<◌, ℕ, true, false, length};
ghost use Rattle.vob.specs.Vob.{HaveSameLength};
ghost use Rattle.vob_block.specs.Packing.{item};

use vob::Vob;

/// Unsets the bits that are set in another. `and_not` does so by whole blocks.
#[tactic(auto, using(vob_walk::proofs::IndexLemmas::loop_steps))]
pub fn clear_those(vob: &mut Vob, others: &Vob)
    requires { HaveSameLength vob.old others.now }
    ensures len { length vob.new.bits ≡ length vob.old.bits }
    ensures cleared { (i : ℕ) → i < length others.now.bits → item others.now.bits i ≡ true
        → item vob.new.bits i ≡ false }
    ensures kept { (i : ℕ) → item others.now.bits i ≡ false
        → item vob.new.bits i ≡ item vob.old.bits i }
{
    for i in others.iter_set_bits(..) {
        vob.set(i, false);
    }
}
