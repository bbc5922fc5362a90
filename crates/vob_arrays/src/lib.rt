//! Tables of parsers as arrays of numbers, and a parser by them.
#![tactic(auto)]

mod arrays;
mod build;
mod code;
mod error;
pub mod laws;
mod parse;
mod run;

pub use arrays::{Arrays, OwnedArrays};
pub use build::arrays_of;
pub use error::ArraysError;
