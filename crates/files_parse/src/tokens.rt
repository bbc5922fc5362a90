//! The tokens of a text.
ghost use Rattle.std.specs.Prelude.{ℕ, codes, map, IfErr, IfOk};
ghost use Rattle.files_text.specs.Faults.{IsLine};
ghost use Rattle.files_text.specs.Words.{token_of as word_token};
ghost use Rattle.files_parse.specs.ParseFaults.{IsNoTokens};
ghost use Rattle.files_parse.specs.Tokens.{AreTokens, IsTerminal};

use crate::terminals::Terminals;
use files_grammar::GrammarFile;
use files_text::{Fault, Word};
use std::alloc::Global;

/// Returns the token that a word is. Fails if it names no terminal.
fn token_of(terminals: &Terminals<'_>, word: &Word<'_>) -> Result<usize, Fault>
    ensures ok { IfOk result (λ token. IsTerminal terminals.now word.now.text.now token) }
    ensures none { IfErr result (λ _. (token : ℕ)
        → ¬ IsTerminal terminals.now word.now.text.now token) }
    ensures err { IfErr result (λ fault. IsLine fault word.now.line word.now.column
        (codes "a token of the grammar")) }
{
    match terminals.find(word.text) {
        Some(token) => Ok(token),
        None => Err(word.unexpected("a token of the grammar")),
    }
}

/// Returns the tokens that words are. Fails at the first that names no terminal, or if memory runs
/// out.
pub fn tokens_of(alloc: Global, file: &GrammarFile, words: &[Word<'_>]) -> Result<Vec<usize>, Fault>
    ensures ok { IfOk result (λ tokens.
        AreTokens file.now.names (map word_token words.now) tokens.items) }
    ensures err { IfErr result (IsNoTokens file.now.names (map word_token words.now)) }
{
    let terminals = Terminals::of(alloc, &file.names)?;
    let mut tokens = Vec::with_capacity(alloc, words.len())?;
    for word in words {
        tokens.push(token_of(&terminals, word)?)?;
    }
    Ok(tokens)
}
