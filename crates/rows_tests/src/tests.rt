//! Rows of all small lengths against a formula for each bit, sparse rows, graphs, and calls that are refused memory.

mod graphs;
mod reads;
mod refused;
mod rows;
mod sparse;
mod support;
