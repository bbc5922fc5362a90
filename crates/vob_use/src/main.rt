//! Reads command lines from standard input, runs them on numbered bit vectors, and prints a line
//! for each reply.
#![tactic(auto)]

#[cfg(test)]
mod tests;

use std::process::ExitCode;
pub use vob_flow::live;
pub use vob_lines::converse;

fn main(rt: HostRuntime) -> ExitCode {
    ExitCode::from(converse(rt.alloc(), &mut rt.stdin(), &mut rt.stdout()))
}
