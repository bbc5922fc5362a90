//! Graphs that stand in a text, and what is written of their closures.
#![tactic(auto)]

mod closure;
mod direct;
mod edges;
mod fault;
mod form;
mod graph;
pub mod laws;
mod parts;
mod reduction;

pub use closure::{Part, print_closure};
pub use fault::GraphFault;
pub use form::{GRAPH_FORMS, GraphForm};
