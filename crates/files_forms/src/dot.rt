//! Labels of DOT.
ghost use Rattle.std.specs.Prelude.{OnOk};
ghost use Rattle.std.specs.List.{flat_map};
ghost use Rattle.std.specs.Io.KnownBytes.{Appends};
ghost use Rattle.files_forms.specs.Forms.{escaped, label};

use std::io;
use std::io::Write;

/// Writes a byte of a label.
fn put_escaped<W: Write>(output: &mut W, byte: u8) -> io::Result<()>
    ensures { OnOk result (Appends (W.contents output.old) (W.contents output.new) (escaped byte)) }
{
    if byte == b'"' || byte == b'\\' {
        return output.write_all(&[b'\\', byte]);
    }
    output.write_all(&[byte])
}

/// Writes the bytes of a label.
fn put_all_escaped<W: Write>(output: &mut W, name: &[u8]) -> io::Result<()>
    ensures { OnOk result (Appends (W.contents output.old) (W.contents output.new)
        (flat_map escaped name.now)) }
{
    for byte in name {
        put_escaped(output, *byte)?;
    }
    Ok(())
}

/// Writes a name as a label of DOT: between double quotes, a backslash before each double quote and
/// backslash. Fails if the output does.
pub fn put_label<W: Write>(output: &mut W, name: &[u8]) -> io::Result<()>
    ensures { OnOk result (Appends (W.contents output.old) (W.contents output.new)
        (label name.now)) }
{
    output.write_all(b"\"")?;
    put_all_escaped(output, name)?;
    output.write_all(b"\"")
}
