//! All tokens of a text.
ghost use Rattle.std.specs.Prelude.{map, IfErr, IfOk};
ghost use Rattle.files_dot.specs.Tokens.{AreDotTokens, IsTokenFault, token_of};

use crate::place::Place;
use crate::scanner::Scanner;
use crate::token::Token;
use files_text::Fault;
use std::alloc::Global;

/// The tokens of a text, and the place where it ends.
#[derive(Drop)]
pub struct DotTokens {
    pub tokens: Vec<Token>,
    pub end: Place,
}

/// Returns the tokens of a text in DOT.
///
/// Fails at the first place where white space and comments lead to no token, or if memory runs out.
pub fn dot_tokens(alloc: Global, text: &[u8]) -> Result<DotTokens, Fault>
    ensures ok { IfOk result (λ found. AreDotTokens text.now (map token_of found.tokens.items)
        found.end) }
    ensures err { IfErr result (IsTokenFault text.now) }
{
    let mut scanner = Scanner {
        rest: text,
        place: Place { line: 1, column: 1 },
    };
    let mut tokens = Vec::new(alloc);
    'tokens: while let Some(token) = scanner.next(alloc)? {
        tokens.push(token)?;
    }
    Ok(DotTokens {
        tokens,
        end: scanner.place,
    })
}
