//! Equal texts of tokens give equal bytes. Each function does nothing: its contract is the law.
ghost use Rattle.files_parse.specs.ParseLaws.{OutputsAreOne, TokensAreOne};

use vob_lr::laws::parses_have_one_tree;

/// A text has one list of tokens.
pub fn tokens_are_one()
    ensures { TokensAreOne }
{}

/// What is written for one text in a form is one, if tokens have no two parses. In an LALR(1) grammar they have
/// none: see `vob_lr::laws::sentences_have_one_parse`.
pub fn outputs_are_one()
    ensures { OutputsAreOne }
{
    parses_have_one_tree();
}
