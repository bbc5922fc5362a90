//! Rows worked out by hand, and patterns against one bit after another; refusals apart.
mod block_types;
mod combined;
mod counts;
mod reads;
mod refused;
mod run_ends;
mod runs;
mod sets;
mod support;
mod walk_patterns;
mod walks;
