//! Puts the sets of this repository to work on files: grammars, graphs, flow graphs and tables.
#![tactic(auto)]

mod command;
mod fault;
mod mark;
mod progress;
mod run;
mod task;

use run::Extras;
use std::io::IsTerminal;
use std::process::ExitCode;

fn main(rt: HostRuntime) -> ExitCode {
    let marks = rt.stderr().is_terminal();
    let progress = marks && !rt.stdout().is_terminal();
    run::run(&rt, Extras { marks, progress })
}
