//! The parts of a parser in Rust that are the same for each grammar.

use crate::form::Parts;

/// The parts. Tokens and rules are modules.
pub static PARTS: Parts = Parts {
    usage: USAGE,
    tokens: TOKENS,
    rules: RULES,
    characters: CHARACTERS,
    names: NAMES,
    arrays: NAMES_END,
    parser: PARSER,
    push: PUSH,
};

/// How the parser is used, as comments.
const USAGE: &str = "\
// Make this file a module, as by `mod tables; use tables::{Parser, rules::*, tokens::*};`. Then
//     let mut parser = Parser::new();
//     for (token, value) in tokens {
//         parser.push(token, value, &mut reduce)?;
//     }
//     let value = parser.finish(&mut reduce)?;
// parses a text: its tokens are TOKEN_.. or `tables::character(b'+')`. For each rule that ends your closure `reduce`
// gets RULE_.. and the values of its right side, and returns that of its left.

";

/// What begins the constants of terminals.
const TOKENS: &str = "
/// The terminals. One that isn't called by a word has its number in a comment.
#[allow(dead_code, non_upper_case_globals)]
pub mod tokens {
";

/// What begins the constants of rules.
const RULES: &str = "}

/// The rules of each nonterminal. If it isn't called by a word, their numbers are in comments.
#[allow(dead_code, non_upper_case_globals)]
pub mod rules {
";

/// What begins the function of characters.
const CHARACTERS: &str = "}

/// Returns the token that is a character in quotes, if there is one.
#[allow(dead_code)]
pub fn character(character: u8) -> Option<usize> {
    match character {
";

/// What ends the function of characters, and begins that of names.
const NAMES: &str = "        _ => None,
    }
}

/// Returns the name of a symbol: a terminal, or `TERMINALS` and a nonterminal.
#[allow(dead_code)]
pub fn name(symbol: usize) -> &'static str {
    static NAMES: [&str; TERMINALS + NONTERMINALS] = [
";

/// What ends the function of names.
const NAMES_END: &str = "    ];
    NAMES[symbol]
}
";

/// What a parser is.
const PARSER: &str = "
/// A token that doesn't fit, or the end of a text that can't end there.
#[derive(Clone, Copy, Debug, PartialEq, Eq)]
pub struct Unexpected;

impl std::fmt::Display for Unexpected {
    fn fmt(&self, f: &mut std::fmt::Formatter<'_>) -> std::fmt::Result {
        f.write_str(\"unexpected token\")
    }
}

impl std::error::Error for Unexpected {}

/// The symbols that were read and not yet reduced: their values, and the state before each and after the last.
pub struct Parser<V> {
    values: Vec<V>,
    states: Vec<usize>,
}

impl<V> Default for Parser<V> {
    fn default() -> Self {
        Parser { values: Vec::new(), states: vec![0] }
    }
}

// Returns the action of a state at a symbol: 0 if there is none.
fn find(state: usize, symbol: usize) -> isize {
    let (start, end) = (ROW[state] as usize, ROW[state + 1] as usize);
    match SYMBOL[start..end].binary_search_by(|own| (*own as usize).cmp(&symbol)) {
        Ok(at) => ACTION[start + at] as isize,
        Err(_) => 0,
    }
}
";

/// How a parser takes tokens.
const PUSH: &str = "
#[allow(dead_code)]
impl<V> Parser<V> {
    /// Returns a parser that has read nothing.
    pub fn new() -> Self {
        Self::default()
    }

    /// Returns whether the parser would take a token. Nothing is reduced.
    pub fn takes(&self, token: usize) -> bool {
        let (mut kept, mut above) = (self.values.len(), Vec::new());
        loop {
            let action = find(*above.last().unwrap_or(&self.states[kept]), token);
            if action >= 0 {
                return action > 0;
            }
            let rule = action.unsigned_abs();
            let length = LENGTH[rule] as usize;
            kept -= length.saturating_sub(above.len());
            above.truncate(above.len().saturating_sub(length));
            let state = *above.last().unwrap_or(&self.states[kept]);
            above.push(find(state, TERMINALS + LEFT[rule] as usize) as usize);
        }
    }

    /// Takes a token and its value. If it doesn't fit, nothing changes. The end, 0, isn't pushed.
    pub fn push(
        &mut self,
        token: usize,
        value: V,
        reduce: impl FnMut(usize, Vec<V>) -> V,
    ) -> Result<(), Unexpected> {
        if token == 0 || !self.takes(token) {
            return Err(Unexpected);
        }
        let state = self.reduce_before(token, reduce);
        self.enter(state, value);
        Ok(())
    }

    /// Ends the text, and returns its value; the parser begins anew. If it can't end here, nothing changes.
    pub fn finish(&mut self, reduce: impl FnMut(usize, Vec<V>) -> V) -> Result<V, Unexpected> {
        if !self.takes(0) {
            return Err(Unexpected);
        }
        self.reduce_before(0, reduce);
        self.states.truncate(1);
        self.values.pop().ok_or(Unexpected)
    }

    // Reduces what ends before a token that fits. Returns the state that the token leads to.
    fn reduce_before(&mut self, token: usize, mut reduce: impl FnMut(usize, Vec<V>) -> V) -> usize {
        loop {
            let action = find(self.states[self.values.len()], token);
            if action >= 0 {
                return action as usize;
            }
            let rule = action.unsigned_abs();
            let depth = self.values.len() - LENGTH[rule] as usize;
            let left = reduce(rule, self.values.split_off(depth));
            self.states.truncate(depth + 1);
            let state = find(self.states[depth], TERMINALS + LEFT[rule] as usize);
            self.enter(state as usize, left);
        }
    }

    // Enters a state by a symbol.
    fn enter(&mut self, state: usize, value: V) {
        self.values.push(value);
        self.states.push(state);
    }
}
";
