//! Tests of runs of commands and of conversations by lines; and worked values of each command.
#![tactic(auto)]

#[cfg(test)]
mod tests;
