//! Flow graphs whose nodes stand in a text, and what is written of their analyses.
#![tactic(auto)]

mod analysis;
mod definitions;
mod dominance;
mod dot;
mod expressions;
mod fault;
mod flow;
mod form;
pub mod laws;
mod nodes;
mod problem;
mod tree;

pub use analysis::{ANALYSES, Analysis, print_flow};
pub use fault::FlowFault;
pub use form::{FLOW_FORMS, FlowForm};
