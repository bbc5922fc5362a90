//! The paths by which users name types and calls, each used once.
use super::support::{same, vob_of};
use vob::iter::{End, IndexWalk, count_ones_in, deal};
use vob::vob_block::{BitBlock, Block, Blocks};
use vob::{Vob, VobError};

#[test]
fn walks_are_named_at_the_root_and_in_their_module(rt: HostRuntime) {
    let three: Vob<u8> = vob_of(&rt, "101");
    let bits: vob::Iter<'_, u8> = three.iter();
    let same_bits: vob::iter::Iter<'_, u8> = three.iter();
    same(&rt, "bits", 0, [bits.count(), same_bits.count()], [3, 3]);
    let set: vob::IterSetBits<'_, u8> = three.iter_set_bits(..);
    let same_set: vob::iter::IterSetBits<'_, u8> = three.iter_set_bits(..);
    same(&rt, "set bits", 0, [set.count(), same_set.count()], [2, 2]);
    let unset: vob::IterUnsetBits<'_, u8> = three.iter_unset_bits(..);
    let same_unset: vob::iter::IterUnsetBits<'_, u8> = three.iter_unset_bits(..);
    let found = [unset.count(), same_unset.count()];
    same(&rt, "unset bits", 0, found, [1, 1]);
    let blocks: vob::StorageIter<'_, u8> = three.iter_storage();
    let same_blocks: vob::iter::StorageIter<'_, u8> = three.iter_storage();
    let found = [blocks.count(), same_blocks.count()];
    same(&rt, "blocks", 0, found, [1, 1]);
}

/// The number of bits, over any block type.
fn length_of<T: Block>(vob: &Vob<T>) -> usize {
    vob.len()
}

#[test]
fn counts_and_blocks_are_named_by_their_modules(rt: HostRuntime) {
    let mut blocks: Blocks<'_, u8> = Blocks::new(&[5]);
    same(&rt, "ones", 0, count_ones_in(&mut blocks, 0, 0), 0);
    same(&rt, "the width", 8, <u8 as BitBlock>::BITS, 8);
    let length = length_of::<u8>(&vob_of(&rt, "101"));
    same(&rt, "the length", 3, length, 3);
    let refusal: VobError = VobError::TooLong;
    same(&rt, "the number", 1, refusal.number(), 1);
}

#[test]
fn pulls_are_named_in_the_module_of_their_calls(rt: HostRuntime) {
    let three: Vob<u8> = vob_of(&rt, "101");
    let mut answers = Vec::new(rt.alloc());
    deal(&mut three.iter_set_bits(..), &[End::Back], &mut answers).expect(&rt, "memory");
    same(&rt, "answer", 0, answers.pop(), Some(Some(2)));
    let mut walk = three.iter_unset_bits(..);
    let ends = [
        IndexWalk::pull(&mut walk, End::Front),
        IndexWalk::pull(&mut walk, End::Back),
    ];
    same(&rt, "both ends", 0, ends, [Some(1), None]);
}
