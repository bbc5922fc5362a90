//! The blocks that a bit vector stores its bits in, and the words that say what they hold.
#![tactic(auto)]

pub mod bit_block;
pub mod block;
mod blocks;
pub mod combine;
pub mod kernel;
mod lanes;
mod large_blocks;
mod small_blocks;
mod word;

pub use bit_block::BitBlock;
pub use block::Block;
pub use blocks::Blocks;
pub use combine::{And, Combine, Or, Without, Xor};
pub use kernel::Kernel;
