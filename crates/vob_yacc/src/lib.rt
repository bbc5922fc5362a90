//! Grammar files of yacc and bison: their symbols, rules and precedences.
#![tactic(auto)]

mod codes;
mod declare;
mod literal;
mod reader;
mod rules;
mod scan;
mod symbols;
mod text;
mod text_error;
mod useful;
mod values;

pub use literal::character_of;
pub use text::{Details, GrammarText, grammar_of};
pub use text_error::{TextError, TextFault};
pub use useful::{LeftNonterminal, LeftOut, LeftRule, Useless};
