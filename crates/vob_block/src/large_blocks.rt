//! Three types as blocks: `u64`, `u128` and `usize`.
ghost use Rattle.std.specs.Prelude.{◌-◌, ◌^◌};
ghost use Rattle.std.proofs.Common.{refl, ap, arith, eq-eqb, eqb-true, lit<};

use crate::bit_block::BitBlock;
use crate::block::Block;
use crate::word::Word;
use std::hash::Hash;

impl Word for u64 {
    ghost BITS = { 64 };

    const BITS: usize = 64;

    ghost ONE = { 1 };

    const ONE: u64 = 1;

    ghost number = { λ x. x };

    fn in_range(self) {}

    ghost number_law = { λ x. refl };

    ghost width_law = { refl };

    ghost bits_law = { λ x. refl };

    ghost of_bits_number_law = { λ n h. refl };

    ghost one_number_law = { refl };
}

impl BitBlock for u64 {
    ghost BITS = { 64 };

    const BITS: usize = 64;

    ghost ZERO = { 0 };

    const ZERO: u64 = 0;

    ghost ONE = { 1 };

    const ONE: u64 = 1;

    ghost ONES = { 2 ^ 64 - 1 };

    const ONES: u64 = u64::MAX;

    ghost number = { λ x. x };

    ghost of_bits = { λ n. n };

    fn in_range(self) {}

    fn all_in_range(blocks: &[Self]) {}

    #[inline(always)]
    fn band(self, other: Self) -> Self {
        <u64 as Word>::band(self, other)
    }

    #[inline(always)]
    fn bor(self, other: Self) -> Self {
        <u64 as Word>::bor(self, other)
    }

    #[inline(always)]
    fn bxor(self, other: Self) -> Self {
        <u64 as Word>::bxor(self, other)
    }

    #[inline(always)]
    fn bnot(self) -> Self {
        <u64 as Word>::bnot(self)
    }

    #[inline(always)]
    fn up(self, n: usize) -> Self {
        <u64 as Word>::up(self, n)
    }

    #[inline(always)]
    fn down(self, n: usize) -> Self {
        <u64 as Word>::down(self, n)
    }

    #[inline(always)]
    fn rotate_up(self, n: usize) -> Self {
        <u64 as Word>::rotate_up(self, n)
    }

    #[inline(always)]
    fn ones_in(self) -> usize {
        <u64 as Word>::ones_in(self)
    }

    #[inline(always)]
    fn zeros_low(self) -> usize {
        <u64 as Word>::zeros_low(self)
    }

    #[inline(always)]
    fn zeros_high(self) -> usize {
        <u64 as Word>::zeros_high(self)
    }

    #[inline(always)]
    fn without_first(self) -> Self {
        <u64 as Word>::without_first(self)
    }

    ghost equal_law = { λ x y. (eqb-true x y, eq-eqb x y) };

    ghost hash_law = { λ x y e. ap ⟦<u64 as Hash>⟧.hash_input e };

    ghost wide_law = { lit< tt };

    ghost narrow_law = { omega arith };

    ghost power_law = { (6, refl) };

    ghost of_bits_number_law = { λ n h. refl };

    ghost zero_number_law = { refl };

    ghost one_number_law = { refl };

    ghost ones_number_law = { refl };
}

impl Block for u64 {
    ghost number_law = { λ x. refl };

    ghost width_law = { refl };
}

impl Word for u128 {
    ghost BITS = { 128 };

    const BITS: usize = 128;

    ghost ONE = { 1 };

    const ONE: u128 = 1;

    ghost number = { λ x. x };

    fn in_range(self) {}

    ghost number_law = { λ x. refl };

    ghost width_law = { refl };

    ghost bits_law = { λ x. refl };

    ghost of_bits_number_law = { λ n h. refl };

    ghost one_number_law = { refl };
}

impl BitBlock for u128 {
    ghost BITS = { 128 };

    const BITS: usize = 128;

    ghost ZERO = { 0 };

    const ZERO: u128 = 0;

    ghost ONE = { 1 };

    const ONE: u128 = 1;

    ghost ONES = { 2 ^ 128 - 1 };

    const ONES: u128 = u128::MAX;

    ghost number = { λ x. x };

    ghost of_bits = { λ n. n };

    fn in_range(self) {}

    fn all_in_range(blocks: &[Self]) {}

    #[inline(always)]
    fn band(self, other: Self) -> Self {
        <u128 as Word>::band(self, other)
    }

    #[inline(always)]
    fn bor(self, other: Self) -> Self {
        <u128 as Word>::bor(self, other)
    }

    #[inline(always)]
    fn bxor(self, other: Self) -> Self {
        <u128 as Word>::bxor(self, other)
    }

    #[inline(always)]
    fn bnot(self) -> Self {
        <u128 as Word>::bnot(self)
    }

    #[inline(always)]
    fn up(self, n: usize) -> Self {
        <u128 as Word>::up(self, n)
    }

    #[inline(always)]
    fn down(self, n: usize) -> Self {
        <u128 as Word>::down(self, n)
    }

    #[inline(always)]
    fn rotate_up(self, n: usize) -> Self {
        <u128 as Word>::rotate_up(self, n)
    }

    #[inline(always)]
    fn ones_in(self) -> usize {
        <u128 as Word>::ones_in(self)
    }

    #[inline(always)]
    fn zeros_low(self) -> usize {
        <u128 as Word>::zeros_low(self)
    }

    #[inline(always)]
    fn zeros_high(self) -> usize {
        <u128 as Word>::zeros_high(self)
    }

    #[inline(always)]
    fn without_first(self) -> Self {
        <u128 as Word>::without_first(self)
    }

    ghost equal_law = { λ x y. (eqb-true x y, eq-eqb x y) };

    ghost hash_law = { λ x y e. ap ⟦<u128 as Hash>⟧.hash_input e };

    ghost wide_law = { lit< tt };

    ghost narrow_law = { omega arith };

    ghost power_law = { (7, refl) };

    ghost of_bits_number_law = { λ n h. refl };

    ghost zero_number_law = { refl };

    ghost one_number_law = { refl };

    ghost ones_number_law = { refl };
}

impl Block for u128 {
    ghost number_law = { λ x. refl };

    ghost width_law = { refl };
}

impl Word for usize {
    ghost BITS = { 64 };

    const BITS: usize = 64;

    ghost ONE = { 1 };

    const ONE: usize = 1;

    ghost number = { λ x. x };

    fn in_range(self) {}

    ghost number_law = { λ x. refl };

    ghost width_law = { refl };

    ghost bits_law = { λ x. refl };

    ghost of_bits_number_law = { λ n h. refl };

    ghost one_number_law = { refl };
}

impl BitBlock for usize {
    ghost BITS = { 64 };

    const BITS: usize = 64;

    ghost ZERO = { 0 };

    const ZERO: usize = 0;

    ghost ONE = { 1 };

    const ONE: usize = 1;

    ghost ONES = { 2 ^ 64 - 1 };

    const ONES: usize = usize::MAX;

    ghost number = { λ x. x };

    ghost of_bits = { λ n. n };

    fn in_range(self) {}

    fn all_in_range(blocks: &[Self]) {}

    #[inline(always)]
    fn band(self, other: Self) -> Self {
        <usize as Word>::band(self, other)
    }

    #[inline(always)]
    fn bor(self, other: Self) -> Self {
        <usize as Word>::bor(self, other)
    }

    #[inline(always)]
    fn bxor(self, other: Self) -> Self {
        <usize as Word>::bxor(self, other)
    }

    #[inline(always)]
    fn bnot(self) -> Self {
        <usize as Word>::bnot(self)
    }

    #[inline(always)]
    fn up(self, n: usize) -> Self {
        <usize as Word>::up(self, n)
    }

    #[inline(always)]
    fn down(self, n: usize) -> Self {
        <usize as Word>::down(self, n)
    }

    #[inline(always)]
    fn rotate_up(self, n: usize) -> Self {
        <usize as Word>::rotate_up(self, n)
    }

    #[inline(always)]
    fn ones_in(self) -> usize {
        <usize as Word>::ones_in(self)
    }

    #[inline(always)]
    fn zeros_low(self) -> usize {
        <usize as Word>::zeros_low(self)
    }

    #[inline(always)]
    fn zeros_high(self) -> usize {
        <usize as Word>::zeros_high(self)
    }

    #[inline(always)]
    fn without_first(self) -> Self {
        <usize as Word>::without_first(self)
    }

    ghost equal_law = { λ x y. (eqb-true x y, eq-eqb x y) };

    ghost hash_law = { λ x y e. ap ⟦<usize as Hash>⟧.hash_input e };

    ghost wide_law = { lit< tt };

    ghost narrow_law = { omega arith };

    ghost power_law = { (6, refl) };

    ghost of_bits_number_law = { λ n h. refl };

    ghost zero_number_law = { refl };

    ghost one_number_law = { refl };

    ghost ones_number_law = { refl };
}

impl Block for usize {
    ghost number_law = { λ x. refl };

    ghost width_law = { refl };
}
