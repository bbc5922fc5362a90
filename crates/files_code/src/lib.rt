//! Parsers in C and in Rust for the grammar of a file.
#![tactic(auto)]

mod arrays;
mod c_parser;
mod constants;
mod escape;
mod form;
mod listing;
mod output;
mod rust_parser;

pub use form::{FORMS, Form};
pub use output::print_form;
