//! Trees of tokens by the grammar of a file, and the forms in which they are written.
ghost use Rattle.std.specs.Prelude.{◌≡◌, map, slice_get};
ghost use Rattle.files_text.specs.Words.{token_of as word_token};
ghost use Rattle.files_parse.specs.NodeNames.{node_name, rule_name, token_name};
ghost use Rattle.files_parse.specs.ParseFaults.{place_or};

use files_grammar::GrammarFile;
use files_text::Word;
use vob_lr::{Node, Tree};

/// A form in which a tree is written.
#[derive(Clone, Copy, PartialEq, Eq)]
pub enum TreeForm {
    /// A node a line, what is below it further in.
    Text,
    /// A graph in DOT.
    Dot,
    /// JSON.
    Json,
}

/// The names of the forms.
pub static TREE_FORMS: [&str; 3] = ["tree", "dot", "json"];

impl TreeForm {
    /// Returns the form with a name, one of `TREE_FORMS`, or `None` if there is none.
    pub fn of(name: &str) -> Option<TreeForm> {
        match name {
            "tree" => Some(TreeForm::Text),
            "dot" => Some(TreeForm::Dot),
            "json" => Some(TreeForm::Json),
            _ => None,
        }
    }
}

/// A tree of words by the grammar of a file.
#[derive(Drop)]
pub struct WordTree<'a> {
    pub file: &'a GrammarFile,
    pub words: &'a [Word<'a>],
    pub tokens: &'a [usize],
    pub tree: &'a Tree,
}

impl WordTree<'_> {
    /// Returns the name of the left side of the rule with a number, or nothing if there is none.
    fn rule_name(&self, rule: usize) -> &[u8]
        ensures { result.now ≡ rule_name self.now.file.now rule }
    {
        match self.file.grammar.rules.get(rule) {
            Some(rule) => self.file.names.nonterminal(rule.left),
            None => b"",
        }
    }

    /// Returns the name of the token with an index, or nothing if there is none.
    fn token_name(&self, at: usize) -> &[u8]
        ensures { result.now
            ≡ token_name self.now.file.now.names (slice_get self.now.tokens.now at) }
    {
        match self.tokens.get(at) {
            Some(token) => self.file.names.terminal(*token),
            None => b"",
        }
    }

    /// Returns the name of a node's symbol.
    pub(crate) fn name(&self, node: &Node) -> &[u8]
        ensures { result.now ≡ node_name self.now.file.now self.now.tokens.now node.now }
    {
        match node.rule {
            Some(rule) => self.rule_name(rule),
            None => self.token_name(node.from),
        }
    }

    /// Returns the line and the column of the token with an index.
    pub(crate) fn place(&self, at: usize) -> (usize, usize)
        ensures { result ≡ place_or (slice_get (map word_token self.now.words.now) at) (0, 0) }
    {
        match self.words.get(at) {
            Some(word) => (word.line, word.column),
            None => (0, 0),
        }
    }
}
