//! The kernels: blocks combined with others, and stored.
ghost use Rattle.std.specs.Prelude.{◌≡◌, ◌&&◌, ◌||◌, length, map};
ghost use Rattle.vob_block.specs.Pointwise.{IsCombined, differ, without};
ghost use Rattle.vob_block.specs.Reading.{AreReadOnce};

use crate::bit_block::BitBlock;
use crate::blocks::Blocks;
use crate::combine::{And, Combine, Or, Without, Xor, combine_from};

/// A block type with a loop that combines blocks with others. It is all that a `Vob` asks for.
pub trait Kernel: BitBlock {
    /// Stores in `own` both combined, and returns whether a block changed. Each block of `other` is
    /// read once.
    #[inline(always)]
    fn combine_into<C: Combine>(own: &mut [Self], other: &mut Blocks<'_, Self>) -> bool
        requires { length own.old ≡ length other.old.items }
        ensures combined { IsCombined Self.BITS C.of_bits (map Self.number own.old)
            (map Self.number other.old.items) (map Self.number own.new) result }
        ensures read { AreReadOnce other.old other.new }
    {
        combine_from::<C, Self>(own, other, 0, Self::ZERO) != Self::ZERO
    }

    /// Keeps in `own` the places that both have, and returns whether a block changed. Each block of
    /// `other` is read once.
    final fn and_into(own: &mut [Self], other: &mut Blocks<'_, Self>) -> bool
        requires { length own.old ≡ length other.old.items }
        ensures combined { IsCombined Self.BITS ◌&&◌ (map Self.number own.old) (map Self.number other.old.items)
            (map Self.number own.new) result }
        ensures read { AreReadOnce other.old other.new }
    {
        Self::combine_into::<And>(own, other)
    }

    /// Adds to `own` the places that the other has, and returns whether a block changed. Each block of
    /// `other` is read once.
    final fn or_into(own: &mut [Self], other: &mut Blocks<'_, Self>) -> bool
        requires { length own.old ≡ length other.old.items }
        ensures combined { IsCombined Self.BITS ◌||◌ (map Self.number own.old) (map Self.number other.old.items)
            (map Self.number own.new) result }
        ensures read { AreReadOnce other.old other.new }
    {
        Self::combine_into::<Or>(own, other)
    }

    /// Keeps in `own` the places that exactly one has, and returns whether a block changed. Each block
    /// of `other` is read once.
    final fn xor_into(own: &mut [Self], other: &mut Blocks<'_, Self>) -> bool
        requires { length own.old ≡ length other.old.items }
        ensures combined { IsCombined Self.BITS differ (map Self.number own.old) (map Self.number other.old.items)
            (map Self.number own.new) result }
        ensures read { AreReadOnce other.old other.new }
    {
        Self::combine_into::<Xor>(own, other)
    }

    /// Removes from `own` the places that the other has, and returns whether a block changed. Each
    /// block of `other` is read once.
    final fn and_not_into(own: &mut [Self], other: &mut Blocks<'_, Self>) -> bool
        requires { length own.old ≡ length other.old.items }
        ensures combined { IsCombined Self.BITS without (map Self.number own.old) (map Self.number other.old.items)
            (map Self.number own.new) result }
        ensures read { AreReadOnce other.old other.new }
    {
        Self::combine_into::<Without>(own, other)
    }
}

impl Kernel for u8 {}

impl Kernel for u16 {}

impl Kernel for u32 {}

impl Kernel for u64 {}

impl Kernel for u128 {}
