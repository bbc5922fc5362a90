//! Pulls at a walk over indices: if refused, they leave the walk and the results that were there.
use crate::tests::support::{FIRST, bytes_of, request, same, same_list, tell};
use std::alloc::{AllocError, Global};
use std::process::Abort;
use vob::{End, IndexWalk, IterSetBits, IterUnsetBits, Vob, count_ones_in, deal};
use vob_block::Blocks;

/// A pull at the front.
fn pulled<W: IndexWalk>(walk: &mut W) -> Option<usize> {
    walk.pull(End::Front)
}

/// Whether many pulls at the back appended `indices`, the last one first, to a result that was
/// there. If not, that result is alone, and the walk's next index is still the first.
fn is_dealt<W: IndexWalk>(
    rt: &impl Abort,
    walk: &mut W,
    answers: &mut Vec<Option<usize>>,
    indices: &[usize],
) -> bool {
    if deal(walk, &[End::Back; 99], answers).is_ok() {
        same(rt, "the answers", 0, answers.len(), 100);
        same(rt, "the first answer", 0, answers.first(), Some(&Some(9)));
        for (answer, index) in answers.iter().skip(1).zip(indices.iter().rev()) {
            same(rt, "an answer", 0, *answer, Some(*index));
        }
        let behind = answers.get(indices.len().saturating_add(1));
        same(rt, "behind the last one", 0, behind, Some(&None));
        same(rt, "the end", 0, pulled(walk), None);
        return true;
    }
    same_list(rt, "the answers", answers, &[Some(9)]);
    same(
        rt,
        "the next index",
        0,
        pulled(walk),
        indices.first().copied(),
    );
    false
}

/// Whether pulls at the walk over the set bits of `1011011` succeeded, of which each end had given
/// one. If not, 3 and 5 are left after the next index.
fn are_set_dealt(rt: &impl Abort, alloc: Global, vob: &Vob<u8>) -> bool {
    let Ok(mut answers) = [Some(9)].to_vec(alloc) else {
        return false;
    };
    let mut walk = vob.iter_set_bits(..);
    same(rt, "the first index", 0, walk.next(), Some(0));
    same(rt, "the last index", 0, walk.next_back(), Some(6));
    let dealt = is_dealt(rt, &mut walk, &mut answers, &[2, 3, 5]);
    let left = if dealt { 0 } else { 2 };
    same(rt, "how many are left", 0, walk.count(), left);
    dealt
}

/// Whether pulls at the walk over its unset bits succeeded. If not, 4 is left after the next index.
fn are_unset_dealt(rt: &impl Abort, alloc: Global, vob: &Vob<u8>) -> bool {
    let Ok(mut answers) = [Some(9)].to_vec(alloc) else {
        return false;
    };
    let mut walk = vob.iter_unset_bits(..);
    let dealt = is_dealt(rt, &mut walk, &mut answers, &[1, 4]);
    let left = if dealt { 0 } else { 1 };
    same(rt, "how many are left", 0, walk.count(), left);
    dealt
}

/// Whether they succeeded after `behind` requests.
fn are_pulls_answered(rt: &(impl Abort + AllocGlobal), behind: usize) -> bool {
    request(rt, behind);
    let Ok(vob) = bytes_of(rt.alloc(), "1011011") else {
        return false;
    };
    let set = are_set_dealt(rt, rt.alloc(), &vob);
    let unset = are_unset_dealt(rt, rt.alloc(), &vob);
    set && unset
}

#[test]
fn pulls_that_are_refused_leave_the_walk(rt: HostRuntime) {
    tell(&rt, are_pulls_answered(&rt, FIRST));
}

/// No pulls at a walk, into no room.
fn deal_none<W: IndexWalk>(alloc: Global, walk: &mut W) -> Result<usize, AllocError> {
    let mut answers = Vec::new(alloc);
    deal(walk, &[], &mut answers)?;
    Ok(answers.len())
}

/// Both walks over the indices of `101`.
fn check_walks(rt: &impl Abort, alloc: Global, vob: &Vob<u8>) {
    let mut set = vob.iter_set_bits(..);
    same(rt, "an index", 0, set.next(), Some(0));
    same(rt, "an index", 0, set.pull(End::Back), Some(2));
    same(rt, "the end", 0, set.next_back(), None);
    let mut unset = vob.iter_unset_bits(..);
    same(rt, "no pulls", 0, deal_none(alloc, &mut unset), Ok(0));
    same(rt, "an index", 0, unset.next_back(), Some(1));
    same(rt, "the end", 0, unset.pull(End::Front), None);
}

/// What all four walks over `101` say is left; copies of two of them.
fn check_copies(rt: &impl Abort, vob: &Vob<u8>) {
    same(
        rt,
        "the bits",
        0,
        vob.iter().clone().size_hint(),
        (3, Some(3)),
    );
    same(
        rt,
        "the blocks",
        0,
        vob.iter_storage().clone().size_hint(),
        (1, Some(1)),
    );
    let set = vob.iter_set_bits(..);
    same(rt, "the set bits", 0, set.size_hint(), (0, None));
    same(rt, "the set bits", 0, set.count(), 2);
    let unset = vob.iter_unset_bits(..);
    same(rt, "the unset bits", 0, unset.size_hint(), (0, None));
    same(rt, "the unset bits", 0, unset.count(), 1);
}

/// Walks over the indices of a block.
fn check_over(rt: &impl Abort) {
    let stored = [5u8];
    let mut set = IterSetBits::over(Blocks::new(&stored), 3, 1..);
    same(rt, "an index", 0, set.next(), Some(2));
    let mut unset = IterUnsetBits::over(Blocks::new(&stored), 3, ..2);
    same(rt, "an index", 0, unset.next(), Some(1));
}

/// A count in a window of a block.
fn check_window(rt: &impl Abort) {
    let mut blocks = Blocks::new(&[3u8]);
    same(
        rt,
        "the true places",
        0,
        count_ones_in(&mut blocks, 0, 2),
        2,
    );
}

#[test]
fn indices_are_walked_in_place(rt: HostRuntime) {
    request(&rt, FIRST);
    let Ok(vob) = bytes_of(rt.alloc(), "101") else {
        return;
    };
    check_walks(&rt, rt.alloc(), &vob);
    check_copies(&rt, &vob);
    check_over(&rt);
    check_window(&rt);
    tell(&rt, true);
}
