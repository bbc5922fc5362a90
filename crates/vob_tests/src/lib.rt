//! Tests of packed vectors of bits; and worked values of the definitions.
#![tactic(auto)]

#[cfg(test)]
mod tests;
