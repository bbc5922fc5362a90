//! How a grammar derives tokens.
#![tactic(auto)]

mod dot;
mod expected;
mod json;
pub mod laws;
mod lines;
mod parse;
mod parser;
mod terminals;
mod tokens;
mod tree;

pub use parse::print_parse;
pub use tree::{TREE_FORMS, TreeForm};
