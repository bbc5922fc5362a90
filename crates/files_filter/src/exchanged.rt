//! A reader of texts with another byte than a comma between cells.
ghost use Rattle.std.specs.Prelude.{◌≡◌, map};
ghost use Rattle.std.specs.Io.{ReadsAtMost};
ghost use Rattle.std.specs.Io.KnownBytes.{ReadConsumes};
ghost use Rattle.files_filter.specs.Exchanged.{exchange, left_exchanged};

use std::io;
use std::io::Read;

/// Returns a comma for a delimiter, a delimiter for a comma, and each other byte as it is.
fn exchange(delimiter: u8, byte: u8) -> u8
    ensures { result ≡ exchange delimiter byte }
{
    if byte == delimiter {
        b','
    } else if byte == b',' {
        delimiter
    } else {
        byte
    }
}

/// Exchanges the bytes of a text.
fn exchange_all(delimiter: u8, text: &mut [u8])
    ensures { text.new ≡ map (exchange delimiter) text.old }
{
    if delimiter == b',' {
        return;
    }
    for byte in text.iter_mut() {
        *byte = exchange(delimiter, *byte);
    }
}

/// A reader that gives a comma for each delimiter of its input, and the delimiter for each comma.
#[derive(Drop)]
pub struct Exchanged<R> {
    pub input: R,
    pub delimiter: u8,
}

impl<R: Read> Read for Exchanged<R> {
    ghost remaining = { left_exchanged R.remaining };

    fn read(&mut self, buf: &mut [u8]) -> io::Result<usize>
        ensures bound { ReadsAtMost result buf.new }
        ensures bytes { ReadConsumes (left_exchanged R.remaining self.old)
            (left_exchanged R.remaining self.new) result buf.new }
    {
        let count = self.input.read(buf)?;
        exchange_all(self.delimiter, &mut buf[..count]);
        Ok(count)
    }
}
