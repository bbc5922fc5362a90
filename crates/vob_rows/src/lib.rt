//! Rows of bits, all of one length, in one piece of memory: n sets of m bits each.
#![tactic(auto)]

mod graph;
mod part;
mod row;
mod rows;
mod sparse;

pub use graph::{Graph, GraphError, all_below};
pub use row::Row;
pub use rows::BitRows;
pub use sparse::SparseRows;
