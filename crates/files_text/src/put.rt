//! Pieces of text that all commands write.
ghost use Rattle.std.specs.Prelude.{◌++◌, codes, OnOk};
ghost use Rattle.std.specs.Io.KnownBytes.{Appends};
ghost use Rattle.files_text.specs.Printed.{line_end};

use std::io;
use std::io::Write;

/// Writes a name as it stood in the file. Fails if the output does.
pub fn put_name<W: Write>(output: &mut W, name: &[u8]) -> io::Result<()>
    ensures { OnOk result (Appends (W.contents output.old) (W.contents output.new) name.now) }
{
    output.write_all(name)
}

/// Writes a space and a name. Fails if the output does.
pub fn put_next<W: Write>(output: &mut W, name: &[u8]) -> io::Result<()>
    ensures { OnOk result (Appends (W.contents output.old) (W.contents output.new)
        (codes " " ++ name.now)) }
{
    output.write_all(b" ")?;
    output.write_all(name)
}

/// Writes the end of a line. Fails if the output does.
pub fn end_line<W: Write>(output: &mut W) -> io::Result<()>
    ensures { OnOk result (Appends (W.contents output.old) (W.contents output.new) line_end) }
{
    output.write_all(b"\n")
}
