//! The laws of the calls of a Vob and of its walks. Each function does nothing: its contract is the law.
#![tactic(auto)]

pub mod lists;
pub mod orders;
pub mod sets;
pub mod shifts;
pub mod storage;
pub mod walks;
