//! Trees as text: a line for each node.
ghost use Rattle.std.specs.Prelude.{◌≡◌, ◌++◌, codes, map, reverse, IfErr, IfOk, OnOk};
ghost use Rattle.std.specs.Fmt.{decimal};
ghost use Rattle.std.specs.List.{flat_map, repeat};
ghost use Rattle.std.specs.Io.KnownBytes.{Appends};
ghost use Rattle.files_text.specs.Printed.{Writes, line_end};
ghost use Rattle.files_text.specs.Words.{token_of as word_token};
ghost use Rattle.files_parse.specs.TreeLines.{AreLines, HasLines, ListsLines, line_of_node, on_level};
ghost use Rattle.files_parse.specs.TreeText.{indent, level_text, place_text};
ghost use Rattle.files_parse.specs.Writing.{IsUnwritten};

use crate::tree::WordTree;
use files_grammar::GrammarFault;
use files_text::put_name;
use std::alloc::{AllocError, Global};
use std::io;
use std::io::Write;
use vob_lr::{Node, Tree};

/// How many levels of a tree are indented. The lines of others begin with their level.
const INDENTED: usize = 40;

/// Writes two spaces so many times.
fn put_spaces<W: Write>(output: &mut W, count: usize) -> io::Result<()>
    ensures { OnOk result (Appends (W.contents output.old) (W.contents output.new)
        (repeat count (codes "  "))) }
{
    for _ in 0..count {
        output.write_all(b"  ")?;
    }
    Ok(())
}

/// Writes a level, if it isn't indented.
fn put_number<W: Write>(output: &mut W, level: usize) -> io::Result<()>
    ensures { OnOk result (Appends (W.contents output.old) (W.contents output.new)
        (level_text level)) }
{
    if level <= INDENTED {
        return Ok(());
    }
    write!(output, "({level}) ")
}

/// Writes an indentation for a level.
fn put_level<W: Write>(output: &mut W, level: usize) -> io::Result<()>
    ensures { OnOk result (Appends (W.contents output.old) (W.contents output.new) (indent level)) }
{
    put_number(output, level)?;
    put_spaces(output, level.min(INDENTED))
}

/// Writes the rest of a line: where a token stands.
fn put_place<W: Write>(output: &mut W, place: (usize, usize)) -> io::Result<()>
    ensures { OnOk result (Appends (W.contents output.old) (W.contents output.new)
        (place_text place)) }
{
    let (line, column) = place;
    writeln!(output, " {line}:{column}")
}

/// Writes the rest of a line: the number of a rule.
fn put_rule_number<W: Write>(output: &mut W, rule: usize) -> io::Result<()>
    ensures { OnOk result (Appends (W.contents output.old) (W.contents output.new)
        (codes " rule " ++ decimal rule ++ line_end)) }
{
    writeln!(output, " rule {rule}")
}

/// Puts nodes on top of others, the first on top.
fn put_on_top(
    stack: &mut Vec<(Node, usize)>,
    nodes: &[Node],
    level: usize,
) -> Result<(), AllocError>
    ensures { OnOk result
        (reverse stack.new.items ≡ on_level level nodes.now ++ reverse stack.old.items) }
{
    for place in (0..nodes.len()).rev() {
        stack.push((nodes[place], level))?;
    }
    Ok(())
}

/// Returns the nodes of a tree and their levels, each before what is below it. Fails if memory runs
/// out.
fn lines_of(alloc: Global, tree: &Tree) -> Result<Vec<(Node, usize)>, AllocError>
    requires { HasLines tree.now }
    ensures { IfOk result (λ lines. AreLines tree.now lines.items) }
{
    let mut stack = Vec::new(alloc);
    put_on_top(&mut stack, tree.roots(), 0)?;
    let mut lines = Vec::with_capacity(alloc, tree.nodes.len())?;
    for _ in 0..tree.nodes.len() {
        let Some((node, level)) = stack.pop() else {
            return Ok(lines);
        };
        put_on_top(&mut stack, tree.children(node), level + 1)?;
        lines.push((node, level))?;
    }
    Ok(lines)
}

impl WordTree<'_> {
    /// Writes the line of a node: a rule with its number, a token with its place.
    fn put_line<W: Write>(&self, output: &mut W, node: &Node, level: usize) -> io::Result<()>
        ensures { OnOk result (Appends (W.contents output.old) (W.contents output.new)
            (line_of_node self.now.file.now (map word_token self.now.words.now) self.now.tokens.now
            (node.now, level))) }
    {
        put_level(output, level)?;
        put_name(output, self.name(node))?;
        match node.rule {
            Some(rule) => put_rule_number(output, rule),
            None => put_place(output, self.place(node.from)),
        }
    }

    /// Writes the lines of nodes.
    fn put_lines<W: Write>(&self, output: &mut W, lines: &[(Node, usize)]) -> io::Result<()>
        ensures { OnOk result (Appends (W.contents output.old) (W.contents output.new)
            (flat_map (line_of_node self.now.file.now (map word_token self.now.words.now)
            self.now.tokens.now) lines.now)) }
    {
        for (node, level) in lines {
            self.put_line(output, node, *level)?;
        }
        Ok(())
    }

    /// Writes a line for each node, what is below it after it and further in.
    pub(crate) fn put_text<W: Write>(
        &self,
        alloc: Global,
        output: &mut W,
    ) -> Result<(), GrammarFault>
        requires { HasLines self.now.tree.now }
        ensures ok { OnOk result (Writes (W.contents output.old) (W.contents output.new)
            (ListsLines self.now.file.now (map word_token self.now.words.now) self.now.tokens.now
            self.now.tree.now)) }
        ensures err { IfErr result (λ fault. IsUnwritten fault
            (W.contents output.old) (W.contents output.new)) }
    {
        let lines = lines_of(alloc, self.tree)?;
        self.put_lines(output, &lines)?;
        Ok(())
    }
}
