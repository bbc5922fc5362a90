//! Edges that stand in a text, one a line.
ghost use Rattle.std.specs.Prelude.{◌≡◌, ◌+◌, [], ◌∷◌, ◌++◌, List, None, Some, IfErr, IfOk, OnOk, codes, length, min};
ghost use Rattle.files_graph.specs.Edges.{HasEdges, IsFaultOf, IsUnread};
ghost use Rattle.files_graph.specs.Reading.{HasRead};
ghost use Rattle.files_text.specs.Faults.{IsLine};
ghost use Rattle.files_text.specs.Words.{Token, token_of};

use files_text::{Fault, Names, Word, Words};
use std::alloc::Global;

/// Names of nodes, and edges between them by their numbers.
#[derive(Drop)]
pub struct NamedEdges<'a> {
    pub names: Names<'a>,
    pub edges: Vec<(usize, usize)>,
}

/// Edges as they are read: the first name of the edge at hand, and the line of the last edge.
#[derive(Drop)]
struct Reader<'a> {
    names: Names<'a>,
    edges: Vec<(usize, usize)>,
    from: Option<Word<'a>>,
    line: Option<usize>,
}

/// The fault of a line with one name.
fn no_second(from: &Word<'_>) -> Fault
    ensures { IsLine result from.now.line (min (from.now.column + length from.now.text.now) usize.MAX)
        (codes "a second name, of the node to which the edge leads") }
{
    Fault::Line {
        line: from.line,
        column: from.end(),
        expected: "a second name, of the node to which the edge leads",
    }
}

impl<'a> Reader<'a> {
    /// Takes the first name of a line.
    fn take_first(&mut self, word: &Word<'a>) -> Result<(), Fault>
        requires { self.old.from ≡ None }
        ensures ok { OnOk result ((words : List Token) → HasRead self.old words
            → HasRead self.new (words ++ token_of word.now ∷ [])) }
        ensures err { IfErr result (λ fault. (words : List Token) → HasRead self.old words
            → (rest : List Token) → IsFaultOf (words ++ token_of word.now ∷ rest) fault) }
    {
        word.check_no_comma()?;
        if self.line == Some(word.line) {
            return Err(word.unexpected("the end of the line after two names"));
        }
        self.from = Some(*word);
        Ok(())
    }

    /// Takes the second name of a line.
    fn take_second(&mut self, from: &Word<'a>, word: &Word<'a>) -> Result<(), Fault>
        requires { self.old.from ≡ Some from.now }
        ensures ok { OnOk result ((words : List Token) → HasRead self.old words
            → HasRead self.new (words ++ token_of word.now ∷ [])) }
        ensures err { IfErr result (λ fault. (words : List Token) → HasRead self.old words
            → (rest : List Token) → IsFaultOf (words ++ token_of word.now ∷ rest) fault) }
    {
        if from.line != word.line {
            return Err(no_second(from));
        }
        word.check_no_comma()?;
        let node = self.names.number(from.text)?;
        let next = self.names.number(word.text)?;
        self.edges.push((node, next))?;
        self.from = None;
        self.line = Some(word.line);
        Ok(())
    }

    /// Takes a word: the first or the second name of a line.
    fn take(&mut self, word: &Word<'a>) -> Result<(), Fault>
        ensures ok { OnOk result ((words : List Token) → HasRead self.old words
            → HasRead self.new (words ++ token_of word.now ∷ [])) }
        ensures err { IfErr result (λ fault. (words : List Token) → HasRead self.old words
            → (rest : List Token) → IsFaultOf (words ++ token_of word.now ∷ rest) fault) }
    {
        match self.from {
            Some(from) => self.take_second(&from, word),
            None => self.take_first(word),
        }
    }

    /// Returns what was read at the end of the text. Fails after a line of one name.
    fn finish(self) -> Result<NamedEdges<'a>, Fault>
        ensures ok { IfOk result (λ read. (read.names ≡ self.entry.names)
            × (read.edges ≡ self.entry.edges) × (self.entry.from ≡ None)) }
        ensures err { IfErr result (λ fault.
            (words : List Token) → HasRead self.entry words → IsFaultOf words fault) }
    {
        if let Some(from) = self.from {
            return Err(no_second(&from));
        }
        Ok(NamedEdges {
            names: self.names,
            edges: self.edges,
        })
    }
}

/// Reads edges: two names a line, of the nodes from which and to which an edge leads.
///
/// Fails at the first line that has a comma, one name or more than two, or if memory runs out.
pub fn read_edges(alloc: Global, text: &[u8]) -> Result<NamedEdges<'_>, Fault>
    ensures ok { IfOk result (λ read. HasEdges text.now read.names read.edges.items) }
    ensures err { IfErr result (λ fault. IsUnread text.now fault) }
{
    let mut words = Words::new(text, b",");
    let mut reader = Reader {
        names: Names::new(alloc),
        edges: Vec::new(alloc),
        from: None,
        line: None,
    };
    'words: while let Some(word) = words.next() {
        reader.take(&word)?;
    }
    reader.finish()
}
