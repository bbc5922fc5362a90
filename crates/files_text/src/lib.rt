//! Texts that name things: their words, the names, lines of names that are written, and why a text
//! can't be read.
#![tactic(auto)]

mod fault;
mod names;
mod put;
mod words;

pub use fault::Fault;
pub use names::Names;
pub use put::{end_line, put_name, put_next};
pub use words::{Word, Words};
