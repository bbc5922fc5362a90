//! Lines of nodes and labels, or their JSON.
ghost use Rattle.std.specs.Prelude.{IfErr, OnOk};
ghost use Rattle.std.specs.Io.KnownBytes.{Appends};
ghost use Rattle.files_forms.specs.Forms.{json_name};
ghost use Rattle.files_flow.specs.Analyses.{IsOutputFault};
ghost use Rattle.files_flow.specs.FlowForms.{either, label_text, node_head};

use files_forms::{is_first, name_json, put_comma};
use files_text::{Fault, Names, put_name, put_next};
use std::alloc::Global;
use std::io;
use std::io::Write;

/// A form in which an analysis is written, other than lines.
#[derive(Clone, Copy, PartialEq, Eq)]
pub enum FlowForm {
    /// The tree of immediate dominators, a graph in DOT.
    Dot,
    /// JSON.
    Json,
}

/// The names of the forms.
pub static FLOW_FORMS: [&str; 2] = ["dot", "json"];

impl FlowForm {
    /// Returns the form with a name, one of `FLOW_FORMS`, or `None` if there is none.
    pub fn of(name: &str) -> Option<FlowForm> {
        match name {
            "dot" => Some(FlowForm::Dot),
            "json" => Some(FlowForm::Json),
            _ => None,
        }
    }
}

/// Writes a text of JSON, or else of lines.
pub(crate) fn put_either<W: Write>(
    output: &mut W,
    json: bool,
    own: &[u8],
    line: &[u8],
) -> io::Result<()>
    ensures { OnOk result (Appends (W.contents output.old) (W.contents output.new)
        (either json own.now line.now)) }
{
    if json {
        return output.write_all(own);
    }
    output.write_all(line)
}

/// Writes a name as a string of JSON.
fn put_json<W: Write>(alloc: Global, output: &mut W, name: &[u8]) -> Result<(), Fault>
    ensures ok { OnOk result (Appends (W.contents output.old) (W.contents output.new)
        (json_name name.now)) }
    ensures err { IfErr result IsOutputFault }
{
    let text = name_json(alloc, name)?;
    output.write_all(text.as_bytes())?;
    Ok(())
}

/// Writes a label, a comma or a space before it.
pub(crate) fn put_label<W: Write>(
    alloc: Global,
    output: &mut W,
    json: bool,
    is_first: bool,
    label: &[u8],
) -> Result<(), Fault>
    ensures ok { OnOk result (Appends (W.contents output.old) (W.contents output.new)
        (label_text json is_first label.now)) }
    ensures err { IfErr result IsOutputFault }
{
    if json {
        put_comma(output, is_first)?;
        put_json(alloc, output, label)?;
        return Ok(());
    }
    put_next(output, label)?;
    Ok(())
}

/// Writes the name of a node, with which its line begins.
pub(crate) fn put_node_head<W: Write>(
    alloc: Global,
    output: &mut W,
    json: bool,
    names: &Names<'_>,
    node: usize,
) -> Result<(), Fault>
    ensures ok { OnOk result (Appends (W.contents output.old) (W.contents output.new)
        (node_head json names.now node)) }
    ensures err { IfErr result IsOutputFault }
{
    if json {
        put_comma(output, is_first(Some(0), node))?;
        output.write_all(b"\n{\"node\":")?;
        put_json(alloc, output, names.name(node))?;
        return Ok(());
    }
    put_name(output, names.name(node))?;
    Ok(())
}
