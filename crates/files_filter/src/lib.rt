//! Tables of CSV, and the rows of which a condition is true.
#![tactic(auto)]

mod block;
mod comparing;
mod exchanged;
mod fault;
mod filter;
mod guard;
mod layout;
mod lines;
mod questions;
mod table;

pub use fault::{FilterFault, WrongCell};
pub use filter::{Shows, print_filter};
pub use layout::Format;
