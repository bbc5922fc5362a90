//! Reports on grammars and their tables that other programs read: XML, JSON and DOT.
#![tactic(auto)]

mod automaton;
mod dot;
mod form;
mod json;
mod names;
mod print;
mod reductions;
mod report;
mod state;
mod xml;

pub use form::{REPORT_FORMS, ReportForm};
pub use print::{Printed, print_report};
