//! Filters over the rows of a table: columns as Vobs, comparisons, and SQL's logic of three values.
#![tactic(auto)]

pub mod column;
pub mod compare;
pub mod filter;
pub mod rows;
