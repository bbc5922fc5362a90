//! A reader that gives whole rows of CSV alone.
#![tactic(auto)]

pub mod laws;
mod quotes;
mod whole;

pub use whole::WholeRows;
