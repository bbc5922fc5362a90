//! Tests of the sets of grammars, their tables, parsers and texts; and worked values of the sets.
#![tactic(auto)]

pub mod handles;
pub mod language;
#[cfg(test)]
mod tests;
