//! Directed graphs in DOT, the language of Graphviz.
#![tactic(auto)]

mod bare;
mod graph;
pub mod laws;
mod nodes;
mod notation;
mod pieces;
mod place;
mod quoted;
mod reader;
mod scanner;
mod stage;
mod token;
mod tokens;

pub use graph::{DotGraph, read_dot};
pub use notation::{NOTATIONS, Notation, notation_of};
pub use place::Place;
pub use token::{Mark, Token, Word};
pub use tokens::{DotTokens, dot_tokens};
