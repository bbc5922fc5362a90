//! Grammars worked by hand, and files of grammars; refusals apart.
mod actions;
mod cells;
mod declarations;
mod details;
mod faults;
mod grammar;
mod lookaheads;
mod parses;
mod refused;
mod rules;
mod support;
mod tables;
mod text;
mod trees;
mod useful;
mod words;
