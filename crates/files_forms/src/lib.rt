//! Names in the formats of other programs: labels of DOT and strings of JSON.
#![tactic(auto)]

mod dot;
mod json;

pub use dot::put_label;
pub use json::{first_of, is_first, name_json, names_json, put_comma};
