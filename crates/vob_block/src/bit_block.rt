//! A block by its bits alone, with no arithmetic.
ghost use Rattle.std.specs.Prelude.{◌≡◌, ◌≢◌, ◌==◌, ℕ, ◌+◌, ◌-◌, ◌%◌, ◌^◌, ◌<◌, if◌then◌else◌, ◌≤◌};
ghost use Rattle.std.specs.Prelude.{◌&&◌, ◌||◌, ◌↔◌, not, nat_le, nat_lt, IsTrue, All, map};
ghost use Rattle.std.specs.Prelude.{true, false};
ghost use Rattle.vob_block.specs.Places.{place, HasPlaces, HasZerosLow, HasZerosHigh, true_places};
ghost use Rattle.vob_block.specs.Pointwise.{differ};

use std::fmt::Debug;
use std::hash::Hash;

/// An unsigned integer type whose values store `BITS` truth values each: place `j` is the bit of
/// weight `2^j`. It is a parent of `Block`, and has no arithmetic, so that a proof over bits carries
/// none of the parents of `PrimInt`.
pub trait BitBlock: Copy + Eq + Hash + Debug {
    ghost BITS: { ℕ };

    /// The number of places of a block.
    const BITS: usize;

    ghost ZERO: { Self };

    /// No place is true.
    const ZERO: Self;

    ghost ONE: { Self };

    /// Place 0 alone is true.
    const ONE: Self;

    ghost ONES: { Self };

    /// Every place is true.
    const ONES: Self;

    // The number that a block is.
    ghost number: { Self → ℕ };

    // The block of a number.
    ghost of_bits: { ℕ → Self };

    /// Does nothing. Its contract says that a block is in the range of its type, which generic code
    /// can't see.
    fn in_range(self)
        ensures { number self < 2 ^ BITS };

    /// Does nothing. Its contract says that each block of a slice is in the range of its type.
    fn all_in_range(blocks: &[Self])
        ensures { All (λ n. n < 2 ^ BITS) (map number blocks.now) };

    /// Returns the places that both blocks have.
    fn band(self, other: Self) -> Self
        ensures places { HasPlaces BITS (number result) (λ j. place j (number self) && place j (number other)) }
        ensures within { number result < 2 ^ BITS };

    /// Returns the places that either block has.
    fn bor(self, other: Self) -> Self
        ensures places { HasPlaces BITS (number result) (λ j. place j (number self) || place j (number other)) }
        ensures within { number result < 2 ^ BITS };

    /// Returns the places that exactly one of the blocks has.
    fn bxor(self, other: Self) -> Self
        ensures places { HasPlaces BITS (number result)
            (λ j. differ (place j (number self)) (place j (number other))) }
        ensures within { number result < 2 ^ BITS };

    /// Returns the places that the block doesn't have.
    fn bnot(self) -> Self
        ensures places { HasPlaces BITS (number result) (λ j. not (place j (number self))) }
        ensures within { number result < 2 ^ BITS };

    /// Moves each place up by `n`. Places that pass the width are dropped, and the low `n` places are
    /// false.
    fn up(self, n: usize) -> Self
        requires { n < BITS }
        ensures places { HasPlaces BITS (number result) (λ j. nat_le n j && place (j - n) (number self)) }
        ensures within { number result < 2 ^ BITS };

    /// Moves each place down by `n`. The low `n` places are dropped, and the high `n` places are false.
    fn down(self, n: usize) -> Self
        requires { n < BITS }
        ensures places { HasPlaces BITS (number result)
            (λ j. nat_lt (j + n) BITS && place (j + n) (number self)) }
        ensures within { number result < 2 ^ BITS };

    /// Moves each place up by `n`, and the high `n` places to the low end.
    fn rotate_up(self, n: usize) -> Self
        requires positive { 0 < n }
        requires below { n < BITS }
        ensures places { HasPlaces BITS (number result) (λ j. place ((j + (BITS - n)) % BITS) (number self)) }
        ensures within { number result < 2 ^ BITS };

    /// Returns the block that begins at place `from` of `self` and its upper neighbour `high`. It has
    /// the places of `self` from `from` on, then low places of `high`. This is a funnel shift.
    final fn funnel_down(self, high: Self, from: usize) -> Self
        requires positive { 0 < from }
        requires below { from < BITS }
        ensures places { HasPlaces BITS (number result) (λ j. if nat_lt (j + from) BITS
            then place (j + from) (number self) else place (j + from - BITS) (number high)) }
        ensures within { number result < 2 ^ BITS }
    {
        self.down(from).bor(high.up(Self::BITS - from))
    }

    /// Counts the true places.
    fn ones_in(self) -> usize
        ensures { result ≡ true_places BITS (number self) };

    /// Returns the number of trailing zeros, or `BITS` if no place is true.
    fn zeros_low(self) -> usize
        ensures { HasZerosLow BITS (number self) result };

    /// Returns the number of leading zeros, or `BITS` if no place is true.
    fn zeros_high(self) -> usize
        ensures { HasZerosHigh BITS (number self) result };

    /// Clears the least significant true place.
    fn without_first(self) -> Self
        requires { number self ≢ 0 }
        ensures places { (j : ℕ) → HasZerosLow BITS (number self) j → HasPlaces BITS (number result)
            (λ i. if i == j then false else place i (number self)) }
        ensures within { number result < 2 ^ BITS };

    /// Returns the block of which exactly the places below `n` are true.
    final fn low_mask(n: usize) -> Self
        requires { n ≤ BITS }
        ensures places { HasPlaces BITS (number result) (λ j. nat_lt j n) }
        ensures within { number result < 2 ^ BITS }
    {
        if n == 0 {
            Self::ZERO
        } else {
            Self::ONES.down(Self::BITS - n)
        }
    }

    /// Returns place `j`.
    final fn bit(self, j: usize) -> bool
        requires { j < BITS }
        ensures { result ≡ place j (number self) }
    {
        self.band(Self::ONE.up(j)) != Self::ZERO
    }

    // `==` on blocks is `==` on their numbers.
    ghost equal_law: { (x y : Self) → IsTrue (Self.eq x y) ↔ (number x ≡ number y) };

    // Equal numbers feed a hasher the same.
    ghost hash_law: { (x y : Self) → number x ≡ number y → Self.hash_input x ≡ Self.hash_input y };

    // A block has a place.
    ghost wide_law: { 0 < BITS };

    // It has 128 at most, so that their number can be added to.
    ghost narrow_law: { BITS ≤ 128 };

    // They can be halved down to one.
    ghost power_law: { (n : ℕ) × (BITS ≡ 2 ^ n) };

    ghost of_bits_number_law: { (n : ℕ) → n < 2 ^ BITS → number (of_bits n) ≡ n };

    ghost zero_number_law: { number ZERO ≡ 0 };

    ghost one_number_law: { number ONE ≡ 1 };

    ghost ones_number_law: { number ONES ≡ 2 ^ BITS - 1 };
}
