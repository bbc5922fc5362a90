//! The forms in which edges and nodes are written.
ghost use Rattle.std.specs.Prelude.{◌≡◌, Some, map, length, IfOk, OnOk};
ghost use Rattle.std.specs.List.{flat_map, range_with_len};
ghost use Rattle.std.specs.Io.KnownBytes.{Appends};
ghost use Rattle.files_forms.specs.Forms.{json_name};
ghost use Rattle.files_text.specs.Printed.{name_at};
ghost use Rattle.files_graph.specs.GraphForms.{all_nodes, before_edges, dot_edge, dot_node, edge_item, edge_line, edges_head, is_first_edge, json_edge, json_node, node_item, nodes_head, tail};
ghost use Rattle.files_graph.specs.declared.form.GraphForm.TheVariants.{Json};

use files_forms::{is_first, names_json, put_comma, put_label};
use files_text::{Names, end_line, put_name, put_next};
use std::alloc::{AllocError, Global};
use std::io;
use std::io::Write;
use std::marker::Model;

/// A form in which a graph is written, other than lines.
#[derive(Clone, Copy, PartialEq, Eq)]
pub enum GraphForm {
    /// A graph in DOT.
    Dot,
    /// JSON.
    Json,
}

/// The names of the forms.
pub static GRAPH_FORMS: [&str; 2] = ["dot", "json"];

impl GraphForm {
    /// Returns the form with a name, one of `GRAPH_FORMS`, or `None` if there is none.
    pub fn of(name: &str) -> Option<GraphForm> {
        match name {
            "dot" => Some(GraphForm::Dot),
            "json" => Some(GraphForm::Json),
            _ => None,
        }
    }
}

/// Names, and the form in which they are written.
#[derive(Drop)]
pub(crate) struct FormNames<'a> {
    names: &'a Names<'a>,
    form: Option<GraphForm>,
    // The names in JSON, if that is the form.
    json: Vec<String>,
}

impl<'a> Model for FormNames<'a> {
    ghost use Rattle.std.specs.Prelude.{◌≡◌, Some};
    ghost use Rattle.files_forms.specs.Forms.{AreJson};
    ghost use Rattle.files_graph.specs.GraphForms.{InForm};
    ghost use Rattle.files_graph.specs.declared.form.GraphForm.TheVariants.{Json};

    ghost Value = { InForm };

    ghost view = { λ own. record { names = own.names.now; form = own.form } };

    ghost invariant = { λ own. own.form ≡ Some Json → AreJson own.names.now own.json.items };
}

/// Returns whether an edge is the first.
fn is_first_edge(first: Option<(usize, usize)>, from: usize, to: usize) -> bool
    ensures { result ≡ is_first_edge first (from, to) }
{
    match first {
        Some((first_from, first_to)) => first_from == from && first_to == to,
        None => false,
    }
}

impl<'a> FormNames<'a> {
    /// Returns names that are to be written in a form, or as lines. Fails if memory runs out.
    pub fn new(
        alloc: Global,
        names: &'a Names<'a>,
        form: Option<GraphForm>,
    ) -> Result<FormNames<'a>, AllocError>
        ensures { IfOk result (λ own. (own.names ≡ names.now) × (own.form ≡ form)) }
    {
        let json = match form {
            Some(GraphForm::Json) => names_json(alloc, names)?,
            _ => Vec::new(alloc),
        };
        Ok(FormNames { names, form, json })
    }

    /// Writes a name in JSON.
    fn put_json<W: Write>(&self, output: &mut W, node: usize) -> io::Result<()>
        ensures { self.now.form ≡ Some Json → OnOk result (Appends (W.contents output.old)
            (W.contents output.new) (name_at (map json_name self.now.names) node)) }
    {
        match self.json.get(node) {
            Some(text) => output.write_all(text.as_bytes()),
            None => Ok(()),
        }
    }

    /// Writes the line of an edge.
    fn put_line<W: Write>(&self, output: &mut W, from: usize, to: usize) -> io::Result<()>
        ensures { OnOk result (Appends (W.contents output.old) (W.contents output.new)
            (edge_line self.now.names (from, to))) }
    {
        put_name(output, self.names.name(from))?;
        put_next(output, self.names.name(to))?;
        end_line(output)
    }

    /// Writes an edge in DOT.
    fn put_dot_edge<W: Write>(&self, output: &mut W, from: usize, to: usize) -> io::Result<()>
        ensures { OnOk result (Appends (W.contents output.old) (W.contents output.new)
            (dot_edge self.now.names (from, to))) }
    {
        output.write_all(b"  ")?;
        put_label(output, self.names.name(from))?;
        output.write_all(b" -> ")?;
        put_label(output, self.names.name(to))?;
        output.write_all(b";\n")
    }

    /// Writes an edge in JSON.
    fn put_json_edge<W: Write>(&self, output: &mut W, from: usize, to: usize) -> io::Result<()>
        ensures { self.now.form ≡ Some Json → OnOk result (Appends (W.contents output.old)
            (W.contents output.new) (json_edge self.now.names (from, to))) }
    {
        output.write_all(b"\n[")?;
        self.put_json(output, from)?;
        output.write_all(b",")?;
        self.put_json(output, to)?;
        output.write_all(b"]")
    }

    /// Writes an edge.
    pub fn put_edge<W: Write>(
        &self,
        output: &mut W,
        first: Option<(usize, usize)>,
        from: usize,
        to: usize,
    ) -> io::Result<()>
        ensures { OnOk result (Appends (W.contents output.old) (W.contents output.new)
            (edge_item self.now.form self.now.names first (from, to))) }
    {
        match self.form {
            None => self.put_line(output, from, to),
            Some(GraphForm::Dot) => self.put_dot_edge(output, from, to),
            Some(GraphForm::Json) => {
                put_comma(output, is_first_edge(first, from, to))?;
                self.put_json_edge(output, from, to)
            }
        }
    }

    /// Writes a node in DOT.
    fn put_dot_node<W: Write>(&self, output: &mut W, node: usize) -> io::Result<()>
        ensures { OnOk result (Appends (W.contents output.old) (W.contents output.new)
            (dot_node self.now.names node)) }
    {
        output.write_all(b"  ")?;
        put_label(output, self.names.name(node))?;
        output.write_all(b";\n")
    }

    /// Writes a node in JSON.
    fn put_json_node<W: Write>(&self, output: &mut W, node: usize) -> io::Result<()>
        ensures { self.now.form ≡ Some Json → OnOk result (Appends (W.contents output.old)
            (W.contents output.new) (json_node self.now.names node)) }
    {
        end_line(output)?;
        self.put_json(output, node)
    }

    /// Writes a node.
    pub fn put_node<W: Write>(
        &self,
        output: &mut W,
        first: Option<usize>,
        node: usize,
    ) -> io::Result<()>
        ensures { OnOk result (Appends (W.contents output.old) (W.contents output.new)
            (node_item self.now.form self.now.names first node)) }
    {
        match self.form {
            None => {
                put_name(output, self.names.name(node))?;
                end_line(output)
            }
            Some(GraphForm::Dot) => self.put_dot_node(output, node),
            Some(GraphForm::Json) => {
                put_comma(output, is_first(first, node))?;
                self.put_json_node(output, node)
            }
        }
    }

    /// Writes what stands before nodes.
    pub fn put_nodes_head<W: Write>(&self, output: &mut W) -> io::Result<()>
        ensures { OnOk result (Appends (W.contents output.old) (W.contents output.new)
            (nodes_head self.now.form)) }
    {
        match self.form {
            None => Ok(()),
            Some(GraphForm::Dot) => output.write_all(b"digraph {\n"),
            Some(GraphForm::Json) => output.write_all(b"{\"nodes\": ["),
        }
    }

    /// Writes each node once.
    fn put_each_node<W: Write>(&self, output: &mut W) -> io::Result<()>
        ensures { OnOk result (Appends (W.contents output.old) (W.contents output.new)
            (flat_map (node_item self.now.form self.now.names (Some 0))
            (range_with_len 0 (length self.now.names)))) }
    {
        for node in 0..self.names.len() {
            self.put_node(output, Some(0), node)?;
        }
        Ok(())
    }

    /// Writes the nodes that stand before edges.
    fn put_all_nodes<W: Write>(&self, output: &mut W) -> io::Result<()>
        ensures { OnOk result (Appends (W.contents output.old) (W.contents output.new)
            (all_nodes self.now.form self.now.names)) }
    {
        match self.form {
            None => Ok(()),
            Some(_) => self.put_each_node(output),
        }
    }

    /// Writes what stands between nodes and edges.
    fn put_edges_head<W: Write>(&self, output: &mut W) -> io::Result<()>
        ensures { OnOk result (Appends (W.contents output.old) (W.contents output.new)
            (edges_head self.now.form)) }
    {
        match self.form {
            Some(GraphForm::Json) => output.write_all(b"\n], \"edges\": ["),
            _ => Ok(()),
        }
    }

    /// Writes what stands before edges.
    pub fn put_before_edges<W: Write>(&self, output: &mut W) -> io::Result<()>
        ensures { OnOk result (Appends (W.contents output.old) (W.contents output.new)
            (before_edges self.now.form self.now.names)) }
    {
        self.put_nodes_head(output)?;
        self.put_all_nodes(output)?;
        self.put_edges_head(output)
    }

    /// Writes what stands behind edges, or nodes without edges.
    pub fn put_tail<W: Write>(&self, output: &mut W) -> io::Result<()>
        ensures { OnOk result (Appends (W.contents output.old) (W.contents output.new)
            (tail self.now.form)) }
    {
        match self.form {
            None => Ok(()),
            Some(GraphForm::Dot) => output.write_all(b"}\n"),
            Some(GraphForm::Json) => output.write_all(b"\n]}\n"),
        }
    }
}
