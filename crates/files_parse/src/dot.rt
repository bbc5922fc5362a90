//! Trees as graphs in DOT.
ghost use Rattle.std.specs.Prelude.{◌+◌, ◌≤◌, length, OnOk};
ghost use Rattle.std.specs.List.{flat_map, range_with_len};
ghost use Rattle.std.specs.Io.KnownBytes.{Appends};
ghost use Rattle.files_parse.specs.DotText.{dot_at, dot_edge, dot_node, dot_text};

use crate::tree::WordTree;
use files_forms::put_label;
use std::io;
use std::io::Write;
use vob_lr::Node;

/// Writes the line of an edge.
fn put_edge<W: Write>(output: &mut W, from: usize, to: usize) -> io::Result<()>
    ensures { OnOk result (Appends (W.contents output.old) (W.contents output.new)
        (dot_edge from to)) }
{
    writeln!(output, "  n{from} -> n{to};")
}

/// Writes the lines of the edges from a node to so many others.
fn put_edges<W: Write>(output: &mut W, from: usize, first: usize, count: usize) -> io::Result<()>
    requires { first + count ≤ usize.MAX }
    ensures { OnOk result (Appends (W.contents output.old) (W.contents output.new)
        (flat_map (dot_edge from) (range_with_len first count))) }
{
    for to in first..first + count {
        put_edge(output, from, to)?;
    }
    Ok(())
}

impl WordTree<'_> {
    /// Writes the lines of a node: its label, and its edges.
    fn put_node<W: Write>(&self, output: &mut W, number: usize, node: &Node) -> io::Result<()>
        ensures { OnOk result (Appends (W.contents output.old) (W.contents output.new)
            (dot_node self.now.file.now self.now.tokens.now self.now.tree.now.nodes.items
            number node.now)) }
    {
        write!(output, "  n{number} [label=")?;
        put_label(output, self.name(node))?;
        output.write_all(b"];\n")?;
        let first = node.first;
        put_edges(output, number, first, self.tree.children(*node).len())
    }

    /// Writes the lines of all nodes.
    fn put_nodes<W: Write>(&self, output: &mut W) -> io::Result<()>
        ensures { OnOk result (Appends (W.contents output.old) (W.contents output.new)
            (flat_map (dot_at self.now.file.now self.now.tokens.now self.now.tree.now.nodes.items)
            (range_with_len 0 (length self.now.tree.now.nodes.items)))) }
    {
        for number in 0..self.tree.nodes.len() {
            self.put_node(output, number, &self.tree.nodes[number])?;
        }
        Ok(())
    }

    /// Writes the nodes and their edges as a graph.
    pub(crate) fn put_dot<W: Write>(&self, output: &mut W) -> io::Result<()>
        ensures { OnOk result (Appends (W.contents output.old) (W.contents output.new)
            (dot_text self.now.file.now self.now.tokens.now self.now.tree.now.nodes.items)) }
    {
        output.write_all(b"digraph tree {\n  ordering=out;\n  node [shape=plain];\n")?;
        self.put_nodes(output)?;
        output.write_all(b"}\n")?;
        Ok(())
    }
}
