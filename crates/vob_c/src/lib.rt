//! Calls on bits in words that the caller owns, on graphs and on tables of parsers, for C and for each language that calls C.
#![tactic(auto)]

pub mod bits;
pub mod bytes;
pub mod compare;
pub mod components;
mod copies;
pub mod counts;
pub mod dominators;
pub mod draws;
mod graphs;
pub mod indices;
pub mod live;
pub mod matrices;
pub mod moves;
pub mod parses;
pub mod products;
pub mod ranges;
pub mod reach;
mod rows;
pub mod search;
pub mod sets;
pub mod status;
pub mod tables;
pub mod transposes;
pub mod whole;
