//! Bits stored in slices and vectors of blocks: the work that a vector of bits does on its fields.
#![tactic(auto)]

pub mod append;
pub mod bytes;
pub mod canonical;
pub mod combined;
pub mod fill;
pub mod first;
pub mod fused;
pub mod gather;
mod last;
pub mod le_bytes;
pub mod load_store;
pub mod mask;
pub mod pack;
pub mod range;
pub mod reverse;
pub mod room;
pub mod same;
pub mod shift;
pub mod single;
pub mod split;
pub mod text;
