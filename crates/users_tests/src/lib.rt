//! Tests of bit matrices, filters, slots and calendars; and worked values of paths in a matrix.
#![tactic(auto)]

#[cfg(test)]
mod tests;
