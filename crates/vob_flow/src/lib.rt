//! The least sets over a graph that meet an equation at each node, and the analyses that are such
//! sets.
#![tactic(auto)]

mod available;
mod chosen;
mod climbing;
mod closing;
mod complement;
mod components;
mod dominance;
mod draw;
mod faults;
mod gather;
pub mod laws;
mod lists;
pub mod live;
mod numbering;
mod order;
mod passes;
mod paths;
pub mod raises;
mod reaching;
mod schedule;
mod solver;
mod spanning;
mod touched;

pub use available::{available_expressions, very_busy_expressions};
pub use closing::closure;
pub use complement::greatest;
pub use components::{Components, strong_components};
pub use dominance::{DominatorTree, dominator_tree, dominators};
pub use draw::Masks;
pub use faults::SolveError;
pub use lists::{Lists, Paths, SparseSides, solve_lists};
pub use paths::reach;
pub use reaching::reaching_definitions;
pub use solver::least;
