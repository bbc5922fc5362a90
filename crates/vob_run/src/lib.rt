//! Commands on numbered bit vectors, run in order with one reply each.
#![tactic(auto)]

mod calls;
pub mod command;
pub mod laws;
pub mod run;

pub use command::{Command, Reply, UsizeCommand};
