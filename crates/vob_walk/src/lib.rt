//! Walks over the indices of the set bits or of the unset bits of some blocks, from both ends, and
//! counts.
#![tactic(auto)]

mod back_bits;
mod block_bits;
mod combined;
mod count;
mod cursor;
mod front_bits;
mod index;
mod next;
mod pairs;
pub mod range;
mod runs;
mod scan;
mod select;
mod skip;
mod source;
mod walk;
mod window;

pub use combined::CombinedBits;
pub use count::count_ones_in;
pub use index::{IterSetBits, IterUnsetBits};
pub use next::{Found, block_in_hand, next_in_hand, next_index, previous_in_hand, previous_index};
pub use runs::Runs;
pub use select::index_of_rank;
pub use walk::{End, IndexWalk, deal};
