//! Runs of commands at several block types and many lengths; refusals apart.
mod commands;
mod lengths;
mod refused;
mod support;
