//! Joining: the bits of some blocks after those of others. Blocks are stored whole, each made of two
//! neighbours if the offset lies within a block.
ghost use Rattle.std.specs.Prelude.{◌≡◌, ◌≢◌, ◌+◌, ◌*◌, ◌%◌, ◌<◌, ◌≤◌, ◌∷◌, map, length, vec_capacity};
ghost use Rattle.vob_block.specs.Packing.{bit_at, IsCanonical};
ghost use Rattle.vob_block.specs.Reading.{AreReadOnce};
ghost use Rattle.vob_store.specs.Building.{AreBuilt, joined_bit};
ghost use Rattle.vob_store.specs.Joining.{HaveRoom, IsJoined};

use crate::fill::fill_up;
use crate::room::block_count;
use vob_block::{BitBlock, Blocks};

/// Stores the blocks of `other` as they are.
fn join_whole<T: BitBlock>(own: &mut [T], other: &mut Blocks<'_, T>)
    requires { length own.old ≡ length other.old.items }
    ensures built { AreBuilt T.BITS (length own.old) (map T.number own.new)
        (bit_at (map T.number other.old.items) T.BITS) }
    ensures read { AreReadOnce other.old other.new }
{
    for k in 0..own.len() {
        own[k] = other.block(k);
    }
}

/// Stores the bits from place `from` of `first` on, which the blocks of `other` follow. Each block
/// that is stored takes its low places from the block before, and the others from the one just read.
fn join_shifted<T: BitBlock>(own: &mut [T], first: T, other: &mut Blocks<'_, T>, from: usize)
    requires few { length other.old.items ≤ length own.old }
    requires many { length own.old ≤ length other.old.items + 1 }
    requires positive { 0 < from }
    requires below { from < T.BITS }
    ensures built { AreBuilt T.BITS (length own.old) (map T.number own.new)
        (λ i. bit_at (T.number first ∷ map T.number other.old.items) T.BITS (from + i)) }
    ensures read { AreReadOnce other.old other.new }
{
    let mut before = first;
    let count = other.len();
    for k in 0..count {
        let block = other.block(k);
        own[k] = before.funnel_down(block, from);
        before = block;
    }
    if count < own.len() {
        own[count] = before.funnel_down(T::ZERO, from);
    }
}

/// Stores the bits of `other` after the first `used` ones.
fn join_behind<T: BitBlock>(own: &mut [T], used: usize, other: &mut Blocks<'_, T>)
    requires whole { used ≡ 0 → length own.old ≡ length other.old.items }
    requires some { used ≢ 0 → 0 < length own.old }
    requires few { length other.old.items ≤ length own.old }
    requires many { length own.old ≤ length other.old.items + 1 }
    requires below { used < T.BITS }
    ensures built { AreBuilt T.BITS (length own.old) (map T.number own.new)
        (joined_bit T.BITS used (map T.number own.old) (map T.number other.old.items)) }
    ensures read { AreReadOnce other.old other.new }
{
    if used == 0 {
        join_whole(own, other);
    } else {
        let from = T::BITS - used;
        let first = own[0].up(from);
        join_shifted(own, first, other, from);
    }
}

/// Stores the bits of `other` after `len` bits, whose blocks have room for them.
fn join_into<T: BitBlock>(own: &mut [T], len: usize, other: &mut Blocks<'_, T>, more: usize)
    requires room { HaveRoom T.BITS len more (map T.number own.old) (map T.number other.old.items) }
    ensures joined { IsJoined T.BITS len more (map T.number own.old) (map T.number other.old.items)
        (map T.number own.new) }
    ensures read { AreReadOnce other.old other.new }
{
    let width = T::BITS;
    join_behind(&mut own[len / width..], len % width, other);
    T::all_in_range(own);
}

/// Appends the `more` bits of `other` to `len` bits, in the room that is there.
pub fn join<T: BitBlock>(own: &mut Vec<T>, len: usize, other: &mut Blocks<'_, T>, more: usize)
    requires canonical { IsCanonical len (map T.number own.old.items) T.BITS }
    requires other { IsCanonical more (map T.number other.old.items) T.BITS }
    requires fits { len + more ≤ usize.MAX }
    requires room { len + more ≤ vec_capacity own.old * T.BITS }
    ensures joined { IsJoined T.BITS len more (map T.number own.old.items)
        (map T.number other.old.items) (map T.number own.new.items) }
    ensures capacity { vec_capacity own.old ≤ vec_capacity own.new }
    ensures read { AreReadOnce other.old other.new }
{
    fill_up(own, len, block_count::<T>(len + more), false);
    join_into(own, len, other, more);
}

/// Appends the blocks of `more` bits to `len` bits that fill theirs, in the room that is there.
fn join_copied<T: BitBlock>(blocks: &mut Vec<T>, len: usize, others: &[T], more: usize)
    requires canonical { IsCanonical len (map T.number blocks.old.items) T.BITS }
    requires other { IsCanonical more (map T.number others.now) T.BITS }
    requires room { len + more ≤ vec_capacity blocks.old * T.BITS }
    requires full { len % T.BITS ≡ 0 }
    ensures joined { IsJoined T.BITS len more (map T.number blocks.old.items) (map T.number others.now)
        (map T.number blocks.new.items) }
    ensures capacity { vec_capacity blocks.old ≤ vec_capacity blocks.new }
{
    // There is room, so this isn't refused.
    let _ = blocks.extend_from_slice(others);
}

/// Appends the `more` bits of `others` to `len` bits, in the room that is there. After whole blocks
/// the others are copied all at once.
pub fn join_slice<T: BitBlock>(blocks: &mut Vec<T>, len: usize, others: &[T], more: usize)
    requires canonical { IsCanonical len (map T.number blocks.old.items) T.BITS }
    requires other { IsCanonical more (map T.number others.now) T.BITS }
    requires fits { len + more ≤ usize.MAX }
    requires room { len + more ≤ vec_capacity blocks.old * T.BITS }
    ensures joined { IsJoined T.BITS len more (map T.number blocks.old.items) (map T.number others.now)
        (map T.number blocks.new.items) }
    ensures capacity { vec_capacity blocks.old ≤ vec_capacity blocks.new }
{
    if len % T::BITS == 0 {
        join_copied(blocks, len, others, more);
    } else {
        join(blocks, len, &mut Blocks::new(others), more);
    }
}
