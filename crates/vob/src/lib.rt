//! A packed vector of bits: `Vec<bool>` at one bit an item, rounded up to whole blocks.
//!
//! ```
//! ghost use Rattle.std.specs.Prelude.{◌≡◌, ◌+◌, true, false, slice_set, MatchOption, IfSome};
//! ghost use Rattle.vob.specs.Bits.{count_of};
//! ghost use Rattle.vob.specs.Sets.{IsNext};
//!
//! use vob::Vob;
//!
//! /// Takes the first free slot and returns it, or `None` if none is free. A set bit is a taken slot.
//! pub fn take_slot(slots: &mut Vob) -> Option<usize>
//!     ensures first { IsNext false slots.old.bits 0 result }
//!     ensures taken { MatchOption result (slots.new.bits ≡ slots.old.bits)
//!         (λ slot. slots.new.bits ≡ slice_set slots.old.bits slot true) }
//!     ensures fewer { IfSome result (λ _.
//!         count_of false slots.old.bits ≡ count_of false slots.new.bits + 1) }
//! {
//!     let slot = slots.first_unset()?;
//!     slots.set(slot, true);
//!     Some(slot)
//! }
//! ```
//!
//! 1. Bit `i` stands in block `i / T::BITS`, at the place of weight `2^(i % T::BITS)`.
//! 2. The unused bits of the last block are 0 after every call.
//! 3. A call that fits within the capacity never fails. A call that fails leaves all bits as they
//!    were; only `extend` may keep a prefix of its items.
//!
//! In the examples of the calls `alloc` is the allocator, and a test stops by `rt`.
#![tactic(auto)]

pub mod append;
pub mod combined;
pub mod copy;
pub mod edit;
mod error;
pub mod fused;
pub mod iter;
pub mod le_bytes;
pub mod load_store;
mod macros;
pub mod ops;
pub mod order;
pub mod prelude;
pub mod ranges;
pub mod raw;
pub mod reverse;
pub mod runs;
pub mod sets;
pub mod shift;
pub mod text;
pub mod vob;

pub use error::{IndicesError, VobError};
pub use iter::{
    CombinedBits, End, IndexWalk, Iter, IterSetBits, IterUnsetBits, StorageIter, count_ones_in,
    deal,
};
pub use raw::{RawVob, VobRecord};
pub use runs::Runs;
pub use text::DigitsError;
pub use vob::Vob;
pub use vob_block;
