//! Conditions on the columns of a table, and the numbers in its cells.
#![tactic(auto)]

mod condition;
mod fault;
pub mod laws;
mod number;
mod reader;
mod waiting;
mod words;

pub use condition::{Comparison, Condition, Operand, Question, Relation, read_condition};
pub use fault::ConditionFault;
pub use number::Number;
pub use words::is_word;
