//! Three types as blocks: `u8`, `u16` and `u32`.
ghost use Rattle.std.specs.Prelude.{◌-◌, ◌^◌};
ghost use Rattle.std.proofs.Common.{refl, ap, arith, eq-eqb, eqb-true, lit<};

use crate::bit_block::BitBlock;
use crate::block::Block;
use crate::word::Word;
use std::hash::Hash;

impl Word for u8 {
    ghost BITS = { 8 };

    const BITS: usize = 8;

    ghost ONE = { 1 };

    const ONE: u8 = 1;

    ghost number = { λ x. x };

    fn in_range(self) {}

    ghost number_law = { λ x. refl };

    ghost width_law = { refl };

    ghost bits_law = { λ x. refl };

    ghost of_bits_number_law = { λ n h. refl };

    ghost one_number_law = { refl };
}

impl BitBlock for u8 {
    ghost BITS = { 8 };

    const BITS: usize = 8;

    ghost ZERO = { 0 };

    const ZERO: u8 = 0;

    ghost ONE = { 1 };

    const ONE: u8 = 1;

    ghost ONES = { 2 ^ 8 - 1 };

    const ONES: u8 = u8::MAX;

    ghost number = { λ x. x };

    ghost of_bits = { λ n. n };

    fn in_range(self) {}

    fn all_in_range(blocks: &[Self]) {}

    #[inline(always)]
    fn band(self, other: Self) -> Self {
        <u8 as Word>::band(self, other)
    }

    #[inline(always)]
    fn bor(self, other: Self) -> Self {
        <u8 as Word>::bor(self, other)
    }

    #[inline(always)]
    fn bxor(self, other: Self) -> Self {
        <u8 as Word>::bxor(self, other)
    }

    #[inline(always)]
    fn bnot(self) -> Self {
        <u8 as Word>::bnot(self)
    }

    #[inline(always)]
    fn up(self, n: usize) -> Self {
        <u8 as Word>::up(self, n)
    }

    #[inline(always)]
    fn down(self, n: usize) -> Self {
        <u8 as Word>::down(self, n)
    }

    #[inline(always)]
    fn rotate_up(self, n: usize) -> Self {
        <u8 as Word>::rotate_up(self, n)
    }

    #[inline(always)]
    fn ones_in(self) -> usize {
        <u8 as Word>::ones_in(self)
    }

    #[inline(always)]
    fn zeros_low(self) -> usize {
        <u8 as Word>::zeros_low(self)
    }

    #[inline(always)]
    fn zeros_high(self) -> usize {
        <u8 as Word>::zeros_high(self)
    }

    #[inline(always)]
    fn without_first(self) -> Self {
        <u8 as Word>::without_first(self)
    }

    ghost equal_law = { λ x y. (eqb-true x y, eq-eqb x y) };

    ghost hash_law = { λ x y e. ap ⟦<u8 as Hash>⟧.hash_input e };

    ghost wide_law = { lit< tt };

    ghost narrow_law = { omega arith };

    ghost power_law = { (3, refl) };

    ghost of_bits_number_law = { λ n h. refl };

    ghost zero_number_law = { refl };

    ghost one_number_law = { refl };

    ghost ones_number_law = { refl };
}

impl Block for u8 {
    ghost number_law = { λ x. refl };

    ghost width_law = { refl };
}

impl Word for u16 {
    ghost BITS = { 16 };

    const BITS: usize = 16;

    ghost ONE = { 1 };

    const ONE: u16 = 1;

    ghost number = { λ x. x };

    fn in_range(self) {}

    ghost number_law = { λ x. refl };

    ghost width_law = { refl };

    ghost bits_law = { λ x. refl };

    ghost of_bits_number_law = { λ n h. refl };

    ghost one_number_law = { refl };
}

impl BitBlock for u16 {
    ghost BITS = { 16 };

    const BITS: usize = 16;

    ghost ZERO = { 0 };

    const ZERO: u16 = 0;

    ghost ONE = { 1 };

    const ONE: u16 = 1;

    ghost ONES = { 2 ^ 16 - 1 };

    const ONES: u16 = u16::MAX;

    ghost number = { λ x. x };

    ghost of_bits = { λ n. n };

    fn in_range(self) {}

    fn all_in_range(blocks: &[Self]) {}

    #[inline(always)]
    fn band(self, other: Self) -> Self {
        <u16 as Word>::band(self, other)
    }

    #[inline(always)]
    fn bor(self, other: Self) -> Self {
        <u16 as Word>::bor(self, other)
    }

    #[inline(always)]
    fn bxor(self, other: Self) -> Self {
        <u16 as Word>::bxor(self, other)
    }

    #[inline(always)]
    fn bnot(self) -> Self {
        <u16 as Word>::bnot(self)
    }

    #[inline(always)]
    fn up(self, n: usize) -> Self {
        <u16 as Word>::up(self, n)
    }

    #[inline(always)]
    fn down(self, n: usize) -> Self {
        <u16 as Word>::down(self, n)
    }

    #[inline(always)]
    fn rotate_up(self, n: usize) -> Self {
        <u16 as Word>::rotate_up(self, n)
    }

    #[inline(always)]
    fn ones_in(self) -> usize {
        <u16 as Word>::ones_in(self)
    }

    #[inline(always)]
    fn zeros_low(self) -> usize {
        <u16 as Word>::zeros_low(self)
    }

    #[inline(always)]
    fn zeros_high(self) -> usize {
        <u16 as Word>::zeros_high(self)
    }

    #[inline(always)]
    fn without_first(self) -> Self {
        <u16 as Word>::without_first(self)
    }

    ghost equal_law = { λ x y. (eqb-true x y, eq-eqb x y) };

    ghost hash_law = { λ x y e. ap ⟦<u16 as Hash>⟧.hash_input e };

    ghost wide_law = { lit< tt };

    ghost narrow_law = { omega arith };

    ghost power_law = { (4, refl) };

    ghost of_bits_number_law = { λ n h. refl };

    ghost zero_number_law = { refl };

    ghost one_number_law = { refl };

    ghost ones_number_law = { refl };
}

impl Block for u16 {
    ghost number_law = { λ x. refl };

    ghost width_law = { refl };
}

impl Word for u32 {
    ghost BITS = { 32 };

    const BITS: usize = 32;

    ghost ONE = { 1 };

    const ONE: u32 = 1;

    ghost number = { λ x. x };

    fn in_range(self) {}

    ghost number_law = { λ x. refl };

    ghost width_law = { refl };

    ghost bits_law = { λ x. refl };

    ghost of_bits_number_law = { λ n h. refl };

    ghost one_number_law = { refl };
}

impl BitBlock for u32 {
    ghost BITS = { 32 };

    const BITS: usize = 32;

    ghost ZERO = { 0 };

    const ZERO: u32 = 0;

    ghost ONE = { 1 };

    const ONE: u32 = 1;

    ghost ONES = { 2 ^ 32 - 1 };

    const ONES: u32 = u32::MAX;

    ghost number = { λ x. x };

    ghost of_bits = { λ n. n };

    fn in_range(self) {}

    fn all_in_range(blocks: &[Self]) {}

    #[inline(always)]
    fn band(self, other: Self) -> Self {
        <u32 as Word>::band(self, other)
    }

    #[inline(always)]
    fn bor(self, other: Self) -> Self {
        <u32 as Word>::bor(self, other)
    }

    #[inline(always)]
    fn bxor(self, other: Self) -> Self {
        <u32 as Word>::bxor(self, other)
    }

    #[inline(always)]
    fn bnot(self) -> Self {
        <u32 as Word>::bnot(self)
    }

    #[inline(always)]
    fn up(self, n: usize) -> Self {
        <u32 as Word>::up(self, n)
    }

    #[inline(always)]
    fn down(self, n: usize) -> Self {
        <u32 as Word>::down(self, n)
    }

    #[inline(always)]
    fn rotate_up(self, n: usize) -> Self {
        <u32 as Word>::rotate_up(self, n)
    }

    #[inline(always)]
    fn ones_in(self) -> usize {
        <u32 as Word>::ones_in(self)
    }

    #[inline(always)]
    fn zeros_low(self) -> usize {
        <u32 as Word>::zeros_low(self)
    }

    #[inline(always)]
    fn zeros_high(self) -> usize {
        <u32 as Word>::zeros_high(self)
    }

    #[inline(always)]
    fn without_first(self) -> Self {
        <u32 as Word>::without_first(self)
    }

    ghost equal_law = { λ x y. (eqb-true x y, eq-eqb x y) };

    ghost hash_law = { λ x y e. ap ⟦<u32 as Hash>⟧.hash_input e };

    ghost wide_law = { lit< tt };

    ghost narrow_law = { omega arith };

    ghost power_law = { (5, refl) };

    ghost of_bits_number_law = { λ n h. refl };

    ghost zero_number_law = { refl };

    ghost one_number_law = { refl };

    ghost ones_number_law = { refl };
}

impl Block for u32 {
    ghost number_law = { λ x. refl };

    ghost width_law = { refl };
}
