//! Bit matrices: closures, products, powers and transposes.
#![tactic(auto)]

mod closing;
pub mod laws;
pub mod matrix;
mod products;
mod tiles;
mod unions;
