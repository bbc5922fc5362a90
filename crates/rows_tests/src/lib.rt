//! Tests of rows of bits, and of graphs.
#![tactic(auto)]

#[cfg(test)]
mod tests;
