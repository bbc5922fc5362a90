//! Tests of walks over the indices of bits, of counts, searches and runs; and worked values of what
//! walks are defined by.
#![tactic(auto)]

#[cfg(test)]
mod tests;
