//! Grammars in the text of yacc, and what is written of their sets and states.
#![tactic(auto)]

mod actions;
mod conflicts;
mod fault;
mod file;
mod grammar;
mod rules;
mod sets;
mod state_text;
mod states;

pub use conflicts::Conflicts;
pub use fault::GrammarFault;
pub use file::{GrammarFile, SymbolNames};
pub use grammar::print_grammar;
pub use rules::put_rule;
pub use states::States;
