//! Trees as JSON.
ghost use Rattle.std.specs.Prelude.{◌≡◌, ◌+◌, ◌≤◌, ◌++◌, codes, drop, length, map, IfErr, IfOk, OnOk};
ghost use Rattle.std.specs.Fmt.{decimal};
ghost use Rattle.std.specs.List.{flat_map, range_with_len};
ghost use Rattle.std.specs.Io.KnownBytes.{Appends};
ghost use Rattle.files_forms.specs.Forms.{json_name};
ghost use Rattle.files_text.specs.Words.{token_of as word_token};
ghost use Rattle.files_parse.specs.JsonText.{between, fields_by, json_at, json_by, json_text, listed, place_fields, rule_fields, span_fields};
ghost use Rattle.files_parse.specs.JsonNames.{HasNames};
ghost use Rattle.files_parse.specs.NodeNames.{node_name};
ghost use Rattle.files_parse.specs.Writing.{IsUnwritten};

use crate::tree::WordTree;
use files_forms::name_json;
use files_grammar::GrammarFault;
use std::alloc::{AllocError, Global};
use std::io;
use std::io::Write;
use vob_lr::Node;

/// Writes a text before a number, unless it is the first.
fn put_between<W: Write>(output: &mut W, text: &[u8], first: usize, number: usize) -> io::Result<()>
    ensures { OnOk result (Appends (W.contents output.old) (W.contents output.new)
        (between text.now first number)) }
{
    if number <= first {
        return Ok(());
    }
    output.write_all(text)
}

/// Writes a number, and a text before it, unless it is the first.
fn put_next_number<W: Write>(
    output: &mut W,
    text: &[u8],
    first: usize,
    number: usize,
) -> io::Result<()>
    ensures { OnOk result (Appends (W.contents output.old) (W.contents output.new)
        (between text.now first number ++ decimal number)) }
{
    put_between(output, text, first, number)?;
    write!(output, "{number}")
}

/// Writes so many numbers from one on, and a text between each two.
fn put_numbers<W: Write>(output: &mut W, text: &[u8], first: usize, count: usize) -> io::Result<()>
    requires { first + count ≤ usize.MAX }
    ensures { OnOk result (Appends (W.contents output.old) (W.contents output.new)
        (listed text.now first count)) }
{
    for number in first..first + count {
        put_next_number(output, text, first, number)?;
    }
    Ok(())
}

/// Writes the place of a token.
fn put_place_fields<W: Write>(output: &mut W, place: (usize, usize)) -> io::Result<()>
    ensures { OnOk result (Appends (W.contents output.old) (W.contents output.new)
        (place_fields place)) }
{
    let (line, column) = place;
    write!(output, ",\"line\":{line},\"column\":{column}")
}

/// Writes which tokens a node spans.
fn put_span<W: Write>(output: &mut W, node: &Node) -> io::Result<()>
    ensures { OnOk result (Appends (W.contents output.old) (W.contents output.new)
        (span_fields node.now)) }
{
    let Node { from, to, .. } = *node;
    write!(output, ",\"from\":{from},\"to\":{to}}}")
}

impl WordTree<'_> {
    /// Writes the number of a rule, and those of the children of its node.
    fn put_rule_fields<W: Write>(&self, output: &mut W, rule: usize, node: &Node) -> io::Result<()>
        ensures { OnOk result (Appends (W.contents output.old) (W.contents output.new)
            (rule_fields self.now.tree.now.nodes.items node.now rule)) }
    {
        write!(output, ",\"rule\":{rule},\"children\":[")?;
        let first = node.first;
        put_numbers(output, b",", first, self.tree.children(*node).len())?;
        output.write_all(b"]")
    }

    /// Writes what a node has: a rule its number and its children, a token its place.
    fn put_fields<W: Write>(&self, output: &mut W, node: &Node) -> io::Result<()>
        ensures { OnOk result (Appends (W.contents output.old) (W.contents output.new)
            (fields_by (map word_token self.now.words.now) self.now.tree.now.nodes.items node.now
            node.now.rule)) }
    {
        match node.rule {
            Some(rule) => self.put_rule_fields(output, rule, node),
            None => put_place_fields(output, self.place(node.from)),
        }
    }

    /// Returns the names of the nodes in JSON. Fails if memory runs out.
    fn names_json(&self, alloc: Global) -> Result<Vec<String>, AllocError>
        ensures { IfOk result (λ names. HasNames self.now.file.now self.now.tokens.now
            self.now.tree.now.nodes.items names.items) }
    {
        let mut names = Vec::with_capacity(alloc, self.tree.nodes.len())?;
        for number in 0..self.tree.nodes.len() {
            names.push(name_json(alloc, self.name(&self.tree.nodes[number]))?)?;
        }
        Ok(names)
    }

    /// Writes the node with a number, whose name in JSON is at hand, on a line of its own.
    fn put_json_node<W: Write>(
        &self,
        output: &mut W,
        number: usize,
        node: &Node,
        name: &str,
    ) -> io::Result<()>
        requires { name.now ≡ json_name (node_name self.now.file.now self.now.tokens.now node.now) }
        ensures { OnOk result (Appends (W.contents output.old) (W.contents output.new)
            (json_by self.now.file.now (map word_token self.now.words.now) self.now.tokens.now
            self.now.tree.now.nodes.items number (Some node.now))) }
    {
        put_between(output, b",", 0, number)?;
        write!(output, "\n{{\"symbol\":{name}")?;
        self.put_fields(output, node)?;
        put_span(output, node)?;
        Ok(())
    }

    /// Writes all nodes, whose names in JSON are at hand.
    fn put_json_nodes<W: Write>(&self, output: &mut W, names: &[String]) -> io::Result<()>
        requires { HasNames self.now.file.now self.now.tokens.now self.now.tree.now.nodes.items
            names.now }
        ensures { OnOk result (Appends (W.contents output.old) (W.contents output.new)
            (flat_map (json_at self.now.file.now (map word_token self.now.words.now)
            self.now.tokens.now self.now.tree.now.nodes.items)
            (range_with_len 0 (length self.now.tree.now.nodes.items)))) }
    {
        for number in 0..self.tree.nodes.len() {
            self.put_json_node(output, number, &self.tree.nodes[number], &names[number])?;
        }
        Ok(())
    }

    /// Writes the numbers of the roots.
    fn put_roots<W: Write>(&self, output: &mut W) -> io::Result<()>
        ensures { OnOk result (Appends (W.contents output.old) (W.contents output.new)
            (listed (codes ", ") self.now.tree.now.first
            (length (drop self.now.tree.now.first self.now.tree.now.nodes.items)))) }
    {
        let first = self.tree.first;
        put_numbers(output, b", ", first, self.tree.roots().len())
    }

    /// Writes the nodes, one a line, and the numbers of the roots.
    pub(crate) fn put_json<W: Write>(
        &self,
        alloc: Global,
        output: &mut W,
    ) -> Result<(), GrammarFault>
        ensures ok { OnOk result (Appends (W.contents output.old) (W.contents output.new)
            (json_text self.now.file.now (map word_token self.now.words.now) self.now.tokens.now
            self.now.tree.now.nodes.items self.now.tree.now.first)) }
        ensures err { IfErr result (λ fault. IsUnwritten fault
            (W.contents output.old) (W.contents output.new)) }
    {
        let names = self.names_json(alloc)?;
        output.write_all(b"{\"nodes\": [")?;
        self.put_json_nodes(output, &names)?;
        output.write_all(b"\n], \"roots\": [")?;
        self.put_roots(output)?;
        output.write_all(b"]}\n")?;
        Ok(())
    }
}
