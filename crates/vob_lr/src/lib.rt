//! Sets over the symbols of a context-free grammar, the tables of its LALR(1) parser, and parsing.
#![tactic(auto)]

mod ahead;
mod bare;
mod bound;
mod cells;
mod closure;
mod conflicts;
mod cycles;
mod empty;
mod entered;
mod equations;
mod expected;
mod first;
mod flows;
mod follow;
mod grammar;
mod items;
pub mod laws;
mod lookaheads;
mod nodes;
mod parse;
mod precedence;
mod rows;
mod sets;
mod state;
mod table;
mod tree;

pub use bare::productive;
pub use closure::Closures;
pub use cycles::cycle;
pub use empty::nullable;
pub use grammar::{Grammar, GrammarError, Rule, Symbol};
pub use items::{Item, Items};
pub use lookaheads::Lookaheads;
pub use parse::ParseError;
pub use precedence::{Associativity, Precedence};
pub use sets::GrammarSets;
pub use state::{Automaton, Move, states};
pub use table::{Action, Cell, Conflict, Table};
pub use tree::{Node, Tree};
