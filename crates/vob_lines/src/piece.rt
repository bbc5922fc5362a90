//! Text on its way out: it waits on the stack, and is written a piece at a time.

ghost use Rattle.std.specs.Prelude.{◌≡◌, ◌+◌, ◌≤◌, ℕ, List, [], ◌++◌, length, take, OnOk};
ghost use Rattle.std.specs.Fmt.{decimal};
ghost use Rattle.vob_lines.specs.Written.{Puts};

use std::io;
use std::io::{ErrorKind, Write};
use std::marker::Model;

/// How many bytes wait at most.
const ROOM: usize = 4096;

/// Writes a text. If that fails, a prefix of it was written.
///
/// Each call of `write` takes a byte at least, so there are no more calls than bytes. A call that
/// was interrupted has failed, as a read has: a writer may be interrupted without end.
pub fn put<W: Write>(output: &mut W, text: &[u8]) -> io::Result<()>
    ensures { Puts result (W.contents output.old) (W.contents output.new) text.now [] }
{
    let mut rest = text;
    while !rest.is_empty() {
        let count = output.write(rest)?;
        if count == 0 {
            return Err(io::Error::from(ErrorKind::WriteZero));
        }
        rest = &rest[count..];
    }
    Ok(())
}

/// Text that waits to be written, seen as its bytes.
#[derive(Drop)]
pub struct Piece {
    bytes: [u8; ROOM],
    len: usize,
}

impl Model for Piece {
    ghost Value = { List ℕ };

    ghost view = { λ piece. take piece.len piece.bytes };

    ghost invariant = { λ piece. piece.len ≤ 4096 };
}

impl Piece {
    /// A piece in which nothing waits.
    pub fn new() -> Piece
        ensures { result ≡ [] }
    {
        Piece {
            bytes: [0; ROOM],
            len: 0,
        }
    }

    /// What waits.
    fn text(&self) -> &[u8]
        ensures { result.now ≡ self.now }
    {
        &self.bytes[..self.len]
    }

    /// How many bytes more may wait.
    fn room(&self) -> usize
        ensures { result + length self.now ≡ 4096 }
    {
        ROOM - self.len
    }

    /// Forgets what waits.
    fn clear(&mut self)
        ensures { self.new ≡ [] }
    {
        self.len = 0;
    }

    /// Appends a text to what waits.
    fn push(&mut self, text: &[u8])
        requires { length self.old + length text.now ≤ 4096 }
        ensures { self.new ≡ self.old ++ text.now }
    {
        let end = self.len + text.len();
        self.bytes[self.len..end].copy_from_slice(text);
        self.len = end;
    }
}

/// Writes what waits.
pub fn write_out<W: Write>(output: &mut W, piece: &mut Piece) -> io::Result<()>
    ensures puts { Puts result (W.contents output.old) (W.contents output.new) piece.old [] }
    ensures none { OnOk result (piece.new ≡ []) }
{
    put(output, piece.text())?;
    piece.clear();
    Ok(())
}

/// Adds a text to what waits. What waits is written first if both don't fit.
pub fn add<W: Write>(output: &mut W, piece: &mut Piece, text: &[u8]) -> io::Result<()>
    requires { length text.now ≤ 4096 }
    ensures { Puts result (W.contents output.old) (W.contents output.new)
        (piece.old ++ text.now) piece.new }
{
    if text.len() <= piece.room() {
        piece.push(text);
        return Ok(());
    }
    write_out(output, piece)?;
    piece.push(text);
    Ok(())
}

/// Adds the decimal digits of a number.
pub fn add_number<W: Write>(output: &mut W, piece: &mut Piece, n: usize) -> io::Result<()>
    ensures { Puts result (W.contents output.old) (W.contents output.new)
        (piece.old ++ decimal n) piece.new }
{
    if n < 10 {
        return add(output, piece, &[b'0' + n as u8]);
    }
    add_number(output, piece, n / 10)?;
    add(output, piece, &[b'0' + (n % 10) as u8])
}

/// Adds a word, and then the decimal digits of a number.
pub fn add_named<W: Write>(
    output: &mut W,
    piece: &mut Piece,
    word: &[u8],
    n: usize,
) -> io::Result<()>
    requires { length word.now ≤ 4096 }
    ensures { Puts result (W.contents output.old) (W.contents output.new)
        (piece.old ++ (word.now ++ decimal n)) piece.new }
{
    add(output, piece, word)?;
    add_number(output, piece, n)
}
