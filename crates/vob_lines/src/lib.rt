//! Lines that read as commands on numbered bit vectors, what is printed for their replies, and a whole
//! conversation over any reader and writer.
#![tactic(auto)]

mod command;
mod keyword;
mod line;
mod piece;
mod session;
mod spelling;
mod text;

pub use command::read_command;
pub use line::LineError;
pub use session::converse;
