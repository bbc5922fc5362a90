//! What the six types share: the bitwise calls of `PrimInt` do by places what the names say.
ghost use Rattle.std.specs.Prelude.{◌≡◌, ◌≢◌, ◌==◌, ℕ, ◌+◌, ◌-◌, ◌%◌, ◌^◌, ◌<◌, if◌then◌else◌, ◌≤◌, ◌&&◌, ◌||◌, not, nat_le, nat_lt, pos, false};
ghost use Rattle.num_traits.specs.Laws.{bit_len};
ghost use Rattle.vob_block.specs.Places.{place, HasPlaces, HasZerosLow, HasZerosHigh, true_places};
ghost use Rattle.vob_block.specs.Pointwise.{differ};

use num_traits::PrimInt;

/// An unsigned integer type with the arithmetic of `PrimInt`. The six impls of `Block` call it, so that a
/// proof for every block carries no parent of `PrimInt`.
pub(crate) trait Word: PrimInt {
    ghost BITS: { ℕ };

    /// How many places a block has.
    const BITS: usize;

    ghost ONE: { Self };

    /// Place 0 alone is true.
    const ONE: Self;

    // The number that a block is.
    ghost number: { Self → ℕ };

    /// Does nothing: a block is in the range of its type, which generic code can't see.
    fn in_range(self)
        ensures { number self < 2 ^ BITS };

    /// The places that both blocks have.
    #[inline(always)]
    final fn band(self, other: Self) -> Self
        ensures places { HasPlaces BITS (number result) (λ j. place j (number self) && place j (number other)) }
        ensures within { number result < 2 ^ BITS }
    {
        self.in_range();
        other.in_range();
        self & other
    }

    /// The places that either block has.
    #[inline(always)]
    final fn bor(self, other: Self) -> Self
        ensures places { HasPlaces BITS (number result) (λ j. place j (number self) || place j (number other)) }
        ensures within { number result < 2 ^ BITS }
    {
        self.in_range();
        other.in_range();
        self | other
    }

    /// The places that one of the blocks has and the other hasn't.
    #[inline(always)]
    final fn bxor(self, other: Self) -> Self
        ensures places { HasPlaces BITS (number result)
            (λ j. differ (place j (number self)) (place j (number other))) }
        ensures within { number result < 2 ^ BITS }
    {
        self.in_range();
        other.in_range();
        self ^ other
    }

    /// The places that the block doesn't have.
    #[inline(always)]
    final fn bnot(self) -> Self
        ensures places { HasPlaces BITS (number result) (λ j. not (place j (number self))) }
        ensures within { number result < 2 ^ BITS }
    {
        self.in_range();
        !self
    }

    /// Moves each place up by `n`. What passes the width is dropped, and the low `n` places are false.
    #[inline(always)]
    final fn up(self, n: usize) -> Self
        requires { n < BITS }
        ensures places { HasPlaces BITS (number result) (λ j. nat_le n j && place (j - n) (number self)) }
        ensures within { number result < 2 ^ BITS }
    {
        self.in_range();
        self.unsigned_shl(n as u32)
    }

    /// Moves each place down by `n`. The low `n` places are dropped, and the high `n` are false.
    #[inline(always)]
    final fn down(self, n: usize) -> Self
        requires { n < BITS }
        ensures places { HasPlaces BITS (number result)
            (λ j. nat_lt (j + n) BITS && place (j + n) (number self)) }
        ensures within { number result < 2 ^ BITS }
    {
        self.in_range();
        self.unsigned_shr(n as u32)
    }

    /// Moves each place up by `n`, and the `n` places that pass the width to the lowest ones.
    #[inline(always)]
    final fn rotate_up(self, n: usize) -> Self
        requires positive { 0 < n }
        requires below { n < BITS }
        ensures places { HasPlaces BITS (number result) (λ j. place ((j + (BITS - n)) % BITS) (number self)) }
        ensures within { number result < 2 ^ BITS }
    {
        self.in_range();
        self.rotate_left(n as u32)
    }

    /// How many places are true.
    #[inline(always)]
    final fn ones_in(self) -> usize
        ensures { result ≡ true_places BITS (number self) }
    {
        self.in_range();
        self.count_ones() as usize
    }

    /// Returns the first true place, or `BITS` if no place is true.
    #[inline(always)]
    final fn zeros_low(self) -> usize
        ensures { HasZerosLow BITS (number self) result }
    {
        self.in_range();
        self.trailing_zeros() as usize
    }

    /// Returns `BITS - 1` minus the last true place, or `BITS` if no place is true.
    #[inline(always)]
    final fn zeros_high(self) -> usize
        ensures { HasZerosHigh BITS (number self) result }
    {
        self.in_range();
        self.leading_zeros() as usize
    }

    /// The block with its first true place made false. The number of that place isn't waited for.
    #[inline(always)]
    final fn without_first(self) -> Self
        requires { number self ≢ 0 }
        ensures places { (j : ℕ) → HasZerosLow BITS (number self) j → HasPlaces BITS (number result)
            (λ i. if i == j then false else place i (number self)) }
        ensures within { number result < 2 ^ BITS }
    {
        self.in_range();
        let less = self - Self::ONE;
        self.band(less)
    }

    // The number is the one that `PrimInt` states.
    ghost number_law: { (x : Self) → Self.value x ≡ pos (number x) };

    ghost width_law: { BITS ≡ bit_len Self.width };

    ghost bits_law: { (x : Self) → Self.bits_of x ≡ number x };

    ghost of_bits_number_law: { (n : ℕ) → n < 2 ^ BITS → number (Self.of_bits n) ≡ n };

    ghost one_number_law: { number ONE ≡ 1 };
}
