//! The forms in which a grammar is written for other programs, and what parsers in all of them have.

use crate::{c_parser, rust_parser};

/// A form in which a grammar is written for other programs.
#[derive(Clone, Copy, PartialEq, Eq)]
pub enum Form {
    /// A parser in C.
    C,
    /// A parser in Rust.
    Rust,
}

/// The parts of a parser that are the same for each grammar. Each is named by what comes after it: `usage` by
/// how many symbols and rules there are. The last two are the parser itself.
pub struct Parts {
    pub usage: &'static str,
    pub tokens: &'static str,
    pub rules: &'static str,
    pub characters: &'static str,
    pub names: &'static str,
    pub arrays: &'static str,
    pub parser: &'static str,
    pub push: &'static str,
}

/// The names of the forms.
pub static FORMS: [&str; 2] = ["c", "rust"];

impl Form {
    /// Returns the parts of a parser in the form.
    pub fn parts(self) -> &'static Parts {
        match self {
            Form::C => &c_parser::PARTS,
            Form::Rust => &rust_parser::PARTS,
        }
    }

    /// Returns the name of the form.
    pub fn name(self) -> &'static str {
        match self {
            Form::C => "c",
            Form::Rust => "rust",
        }
    }

    /// Returns the form with a name, one of `FORMS`, or `None` if there is none.
    pub fn of(name: &str) -> Option<Form> {
        match name {
            "c" => Some(Form::C),
            "rust" => Some(Form::Rust),
            _ => None,
        }
    }
}
