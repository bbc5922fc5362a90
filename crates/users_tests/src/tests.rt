//! Matrices, filters, slots and calendars, by rows worked out by hand and against plain lists; refusals
//! apart.
mod calendars;
mod filter;
mod matrix;
mod refused;
mod rows;
mod slots;
mod small_matrices;
mod support;
