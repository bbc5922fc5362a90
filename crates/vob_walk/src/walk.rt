//! Walks over indices, pulled at from both ends, and many pulls at once.
ghost use Rattle.std.specs.Prelude.{◌≡◌, ◌++◌, [], ◌∷◌, IsOk, OnOk, OnErr};
ghost use Rattle.vob_walk.specs.Walk.{Walk, IsPulled, end_item, without_end, answers, left_after};

use std::alloc::AllocError;

/// An end of a walk.
#[derive(Clone, Copy, Debug, PartialEq, Eq)]
pub enum End {
    Front,
    Back,
}

/// A walk over rising indices, which counts the blocks that it reads. vob 4.0.1 has no trait like it.
pub trait IndexWalk {
    // What contracts see of the walk.
    ghost walk: { Self → Walk };

    /// Removes the first or the last index that is left, and returns it.
    fn pull(&mut self, side: End) -> Option<usize>
        ensures given { result ≡ end_item side (walk self.old).rest }
        ensures kept { (walk self.new).rest ≡ without_end side (walk self.old).rest }
        ensures reads { IsPulled (walk self.old) (result ∷ []) (walk self.new) };
}

/// Pulls at a walk, and appends the result of each pull. Room for the results is made first: if memory
/// runs out, nothing was pulled. vob 4.0.1 has no call like it.
pub fn deal<W: IndexWalk>(
    walk: &mut W,
    pulls: &[End],
    out: &mut Vec<Option<usize>>,
) -> Result<(), AllocError>
    ensures ok { OnOk result (out.new.items ≡ out.old.items ++ answers (W.walk walk.old).rest pulls.now) }
    ensures rest { OnOk result ((W.walk walk.new).rest ≡ left_after (W.walk walk.old).rest pulls.now) }
    ensures reads { OnOk result (IsPulled (W.walk walk.old) (answers (W.walk walk.old).rest pulls.now) (W.walk walk.new)) }
    ensures out_stays { OnErr result (out.new.items ≡ out.old.items) }
    ensures walk_stays { OnErr result (walk.new ≡ walk.old) }
    ensures nothing { pulls.now ≡ [] → IsOk result }
{
    out.reserve(pulls.len())?;
    for side in pulls {
        let index = walk.pull(*side);
        out.push_reserved(index);
    }
    Ok(())
}
