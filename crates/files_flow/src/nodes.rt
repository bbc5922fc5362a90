//! Nodes that stand in a text, one a line: `name: reads a b; writes c; next n m`.
ghost use Rattle.std.specs.Prelude.{◌≡◌, ◌≢◌, ◌⊎◌, ◌++◌, ◌∷◌, [], List, None, Some, map, IfErr, IfNone, IfOk, IfSome, OnOk, codes};
ghost use Rattle.files_text.specs.Faults.{IsLine};
ghost use Rattle.files_text.specs.Words.{Token, token_of};
ghost use Rattle.files_flow.specs.Nodes.{HasNodes, key_of, mention_of};
ghost use Rattle.files_flow.specs.FlowFaults.{IsFaultOf, IsTextFault, IsUnread};
ghost use Rattle.files_flow.specs.Reading.{HasRead};

use crate::fault::FlowFault;
use files_text::{Fault, Names, Word, Words};
use std::alloc::Global;

/// What a node does with the names in a part of its line.
#[derive(Clone, Copy, PartialEq, Eq)]
pub enum Kind {
    /// It reads the variables.
    Reads,
    /// It writes the variables.
    Writes,
    /// It leads to the nodes.
    Next,
}

/// A name in the line of a node, and what the node does with it.
#[derive(Clone, Copy)]
pub struct Use<'a> {
    pub node: usize,
    pub kind: Kind,
    pub name: Word<'a>,
}

/// The names of the nodes of a text, and the other names in their lines.
#[derive(Drop)]
pub struct Nodes<'a> {
    pub names: Names<'a>,
    pub uses: Vec<Use<'a>>,
}

/// Nodes as they are read: the name of the node at hand before its colon, and after it the line and
/// what the part at hand is for.
#[derive(Drop)]
struct Reader<'a> {
    names: Names<'a>,
    uses: Vec<Use<'a>>,
    name: Option<Word<'a>>,
    line: Option<usize>,
    part: Option<Kind>,
}

/// Returns the fault of a name without a colon.
fn no_colon(line: usize, column: usize) -> Fault
    ensures { IsLine result line column (codes "`:` after the name of a node") }
{
    Fault::Line {
        line,
        column,
        expected: "`:` after the name of a node",
    }
}

/// Returns the kind of the part that a word begins, or `None` if it begins none.
fn kind_of(word: &[u8]) -> Option<Kind>
    ensures some { IfSome result (λ kind. word.now ≡ key_of kind) }
    ensures none { IfNone result ((kind : Kind) → word.now ≢ key_of kind) }
{
    if word == b"reads".as_slice() {
        return Some(Kind::Reads);
    }
    if word == b"writes".as_slice() {
        return Some(Kind::Writes);
    }
    if word == b"next".as_slice() {
        return Some(Kind::Next);
    }
    None
}

/// Fails if a word is a mark other than a comma, where the name of a node was expected.
fn check_name(word: &Word<'_>) -> Result<(), Fault>
    ensures ok { OnOk result ((word.now.text.now ≢ codes ":") × (word.now.text.now ≢ codes ";")) }
    ensures err { IfErr result (λ fault. ((word.now.text.now ≡ codes ":") ⊎ (word.now.text.now ≡ codes ";"))
        × IsLine fault word.now.line word.now.column (codes "the name of a node")) }
{
    if word.text == b":".as_slice() {
        return Err(word.unexpected("the name of a node"));
    }
    if word.text == b";".as_slice() {
        return Err(word.unexpected("the name of a node"));
    }
    Ok(())
}

impl<'a> Reader<'a> {
    /// Takes the name of a node, which must be new.
    fn take_name(&mut self, alloc: Global, word: &Word<'a>) -> Result<(), FlowFault>
        requires none { self.old.name ≡ None }
        requires line { self.old.line ≢ Some word.now.line }
        ensures ok { OnOk result ((words : List Token) → HasRead self.old words
            → HasRead self.new (words ++ token_of word.now ∷ [])) }
        ensures err { IfErr result (λ fault. (words : List Token) → HasRead self.old words
            → (rest : List Token) → IsFaultOf (words ++ token_of word.now ∷ rest) fault) }
    {
        word.check_no_comma()?;
        check_name(word)?;
        if self.names.find(word.text).is_some() {
            return Err(FlowFault::Twice {
                line: word.line,
                column: word.column,
                name: String::from_utf8_lossy(alloc, word.text)?,
            });
        }
        self.name = Some(*word);
        Ok(())
    }

    /// Takes the colon after the name of a node.
    fn take_colon(&mut self, name: &Word<'a>, word: &Word<'a>) -> Result<(), Fault>
        requires { self.old.name ≡ Some name.now }
        ensures ok { OnOk result ((words : List Token) → HasRead self.old words
            → HasRead self.new (words ++ token_of word.now ∷ [])) }
        ensures err { IfErr result (λ fault. (words : List Token) → HasRead self.old words
            → (rest : List Token) → IsTextFault (words ++ token_of word.now ∷ rest) fault) }
    {
        if name.line != word.line {
            return Err(no_colon(name.line, name.end()));
        }
        word.check_no_comma()?;
        if word.text != b":".as_slice() {
            return Err(no_colon(word.line, word.column));
        }
        self.names.number(name.text)?;
        self.name = None;
        self.line = Some(word.line);
        self.part = None;
        Ok(())
    }

    /// Takes the first word of a part, or the end of an empty one.
    fn take_key(&mut self, word: &Word<'a>) -> Result<(), Fault>
        requires none { self.old.name ≡ None }
        requires line { self.old.line ≡ Some word.now.line }
        requires part { self.old.part ≡ None }
        ensures ok { OnOk result ((words : List Token) → HasRead self.old words
            → HasRead self.new (words ++ token_of word.now ∷ [])) }
        ensures err { IfErr result (λ fault. (words : List Token) → HasRead self.old words
            → (rest : List Token) → IsTextFault (words ++ token_of word.now ∷ rest) fault) }
    {
        word.check_no_comma()?;
        if word.text == b";".as_slice() {
            return Ok(());
        }
        let Some(kind) = kind_of(word.text) else {
            return Err(word.unexpected("`reads`, `writes`, `next` or `;`"));
        };
        self.part = Some(kind);
        Ok(())
    }

    /// Takes a name of a part, or the mark that ends it.
    fn take_member(&mut self, kind: Kind, word: &Word<'a>) -> Result<(), Fault>
        requires none { self.old.name ≡ None }
        requires line { self.old.line ≡ Some word.now.line }
        requires part { self.old.part ≡ Some kind }
        ensures ok { OnOk result ((words : List Token) → HasRead self.old words
            → HasRead self.new (words ++ token_of word.now ∷ [])) }
        ensures err { IfErr result (λ fault. (words : List Token) → HasRead self.old words
            → (rest : List Token) → IsTextFault (words ++ token_of word.now ∷ rest) fault) }
    {
        word.check_no_comma()?;
        if word.text == b";".as_slice() {
            self.part = None;
            return Ok(());
        }
        if word.text == b":".as_slice() {
            return Err(word.unexpected("a name or `;`"));
        }
        let node = self.names.len().saturating_sub(1);
        self.uses.push(Use {
            node,
            kind,
            name: *word,
        })?;
        Ok(())
    }

    /// Takes a word of the line of a node, after its colon.
    fn take_more(&mut self, word: &Word<'a>) -> Result<(), Fault>
        requires none { self.old.name ≡ None }
        requires line { self.old.line ≡ Some word.now.line }
        ensures ok { OnOk result ((words : List Token) → HasRead self.old words
            → HasRead self.new (words ++ token_of word.now ∷ [])) }
        ensures err { IfErr result (λ fault. (words : List Token) → HasRead self.old words
            → (rest : List Token) → IsTextFault (words ++ token_of word.now ∷ rest) fault) }
    {
        match self.part {
            Some(kind) => self.take_member(kind, word),
            None => self.take_key(word),
        }
    }

    /// Takes a word after the colon of a node, or the name of the next node.
    fn take_other(&mut self, alloc: Global, word: &Word<'a>) -> Result<(), FlowFault>
        requires none { self.old.name ≡ None }
        ensures ok { OnOk result ((words : List Token) → HasRead self.old words
            → HasRead self.new (words ++ token_of word.now ∷ [])) }
        ensures err { IfErr result (λ fault. (words : List Token) → HasRead self.old words
            → (rest : List Token) → IsFaultOf (words ++ token_of word.now ∷ rest) fault) }
    {
        if self.line != Some(word.line) {
            return self.take_name(alloc, word);
        }
        self.take_more(word)?;
        Ok(())
    }

    /// Takes a word.
    fn take(&mut self, alloc: Global, word: &Word<'a>) -> Result<(), FlowFault>
        ensures ok { OnOk result ((words : List Token) → HasRead self.old words
            → HasRead self.new (words ++ token_of word.now ∷ [])) }
        ensures err { IfErr result (λ fault. (words : List Token) → HasRead self.old words
            → (rest : List Token) → IsFaultOf (words ++ token_of word.now ∷ rest) fault) }
    {
        let Some(name) = self.name else {
            return self.take_other(alloc, word);
        };
        self.take_colon(&name, word)?;
        Ok(())
    }

    /// Returns what was read at the end of the text. Fails after a name alone.
    fn finish(self) -> Result<Nodes<'a>, Fault>
        ensures ok { IfOk result (λ read. (read.names ≡ self.entry.names)
            × (read.uses ≡ self.entry.uses) × (self.entry.name ≡ None)) }
        ensures err { IfErr result (λ fault.
            (words : List Token) → HasRead self.entry words → IsTextFault words fault) }
    {
        if let Some(name) = self.name {
            return Err(no_colon(name.line, name.end()));
        }
        Ok(Nodes {
            names: self.names,
            uses: self.uses,
        })
    }
}

/// Reads nodes. A line is a node: its name, a colon, and parts that begin with `reads`, `writes` or
/// `next`, with `;` between them.
///
/// Fails at the first word that can't stand where it does, as a comma, or the name of a node that
/// another has. Fails too if memory runs out.
pub fn read_nodes(alloc: Global, text: &[u8]) -> Result<Nodes<'_>, FlowFault>
    ensures ok { IfOk result (λ read. HasNodes text.now read.names (map mention_of read.uses.items)) }
    ensures err { IfErr result (λ fault. IsUnread text.now fault) }
{
    let mut words = Words::new(text, b":;,");
    let mut reader = Reader {
        names: Names::new(alloc),
        uses: Vec::new(alloc),
        name: None,
        line: None,
        part: None,
    };
    'words: while let Some(word) = words.next() {
        reader.take(alloc, &word)?;
    }
    Ok(reader.finish()?)
}
