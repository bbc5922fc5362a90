//! The trait of the types that store bits, with the arithmetic of `PrimInt`.
ghost use Rattle.std.specs.Prelude.{◌≡◌, pos};
ghost use Rattle.num_traits.specs.Laws.{bit_len};

use crate::kernel::Kernel;
use num_traits::PrimInt;
use std::fmt::Debug;
use std::hash::Hash;

/// A type that a `Vob` stores its bits in: `u8`, `u16`, `u32`, `u64`, `u128` or `usize`. Its bits are
/// those of `BitBlock`, and its number is the value that `PrimInt` states. A `Vob` asks for its parent
/// `Kernel` alone.
///
/// vob 4.0.1 takes any `T: Debug + PrimInt`, signed types too.
pub trait Block: Kernel + PrimInt + Hash + Debug {
    // The number is the value that `PrimInt` states.
    ghost number_law: { (x : Self) → Self.value x ≡ pos (Self.number x) };

    ghost width_law: { Self.BITS ≡ bit_len Self.width };
}
