//! The text of each reply.

ghost use Rattle.std.specs.Prelude.{◌≡◌, ◌≤◌, ℕ, List, ◌∷◌, ◌++◌, map, codes, length};
ghost use Rattle.std.specs.Fmt.{decimal};
ghost use Rattle.std.specs.List.{flat_map};
ghost use Rattle.vob_lines.specs.Conversation.{lines_for};
ghost use Rattle.vob_lines.specs.Spelling.{digit, digits};
ghost use Rattle.vob_run.specs.Answer.{usize_answer_of};
ghost use Rattle.vob_lines.specs.Texts.{index_text, line_of, listed, text_of};
ghost use Rattle.vob_lines.specs.Written.{Puts};

use crate::piece::{Piece, add, add_named, add_number};
use std::io;
use std::io::Write;
use vob_run::Reply;

/// Adds a line for each reply.
pub fn add_replies<W: Write>(
    output: &mut W,
    piece: &mut Piece,
    replies: &[Reply<usize>],
) -> io::Result<()>
    ensures { Puts result (W.contents output.old) (W.contents output.new)
        (piece.old ++ lines_for (map usize_answer_of replies.now)) piece.new }
{
    for reply in replies {
        add_line(output, piece, reply)?;
    }
    Ok(())
}

/// Adds the line of a reply.
fn add_line<W: Write>(output: &mut W, piece: &mut Piece, reply: &Reply<usize>) -> io::Result<()>
    ensures { Puts result (W.contents output.old) (W.contents output.new)
        (piece.old ++ line_of (text_of (usize_answer_of reply.now))) piece.new }
{
    add_reply(output, piece, reply)?;
    add(output, piece, b"\n")
}

/// Adds the text of a reply.
fn add_reply<W: Write>(output: &mut W, piece: &mut Piece, reply: &Reply<usize>) -> io::Result<()>
    ensures { Puts result (W.contents output.old) (W.contents output.new)
        (piece.old ++ text_of (usize_answer_of reply.now)) piece.new }
{
    match reply {
        Reply::Done => add(output, piece, b"done"),
        Reply::Bit(None) => add(output, piece, b"bit none"),
        Reply::Bit(Some(false)) => add(output, piece, b"bit 0"),
        Reply::Bit(Some(true)) => add(output, piece, b"bit 1"),
        Reply::Flag(false) => add(output, piece, b"false"),
        Reply::Flag(true) => add(output, piece, b"true"),
        Reply::Number(n) => add_named(output, piece, b"number ", *n),
        Reply::Made(which) => add_named(output, piece, b"vob ", *which),
        Reply::BitList(bits) => add_bit_list(output, piece, bits),
        Reply::BlockList(blocks) => add_list(output, piece, b"blocks ", blocks),
        Reply::Dealt(indices) => add_list(output, piece, b"dealt ", indices),
        Reply::Skipped => add(output, piece, b"skipped"),
        Reply::Refused(reason) => add_named(output, piece, b"refused ", usize::from(*reason)),
    }
}

/// Adds bits as digits, index 0 first.
fn add_bit_list<W: Write>(output: &mut W, piece: &mut Piece, bits: &[bool]) -> io::Result<()>
    ensures { Puts result (W.contents output.old) (W.contents output.new)
        (piece.old ++ (codes "bits " ++ digits bits.now)) piece.new }
{
    add(output, piece, b"bits ")?;
    if bits.is_empty() {
        return add(output, piece, b"-");
    }
    add_digits(output, piece, bits)
}

/// Adds a digit for each bit.
fn add_digits<W: Write>(output: &mut W, piece: &mut Piece, bits: &[bool]) -> io::Result<()>
    ensures { Puts result (W.contents output.old) (W.contents output.new)
        (piece.old ++ map digit bits.now) piece.new }
{
    for bit in bits {
        add(output, piece, &[digit_of(*bit)])?;
    }
    Ok(())
}

/// The digit of a bit.
fn digit_of(bit: bool) -> u8
    ensures { result ≡ digit bit }
{
    if bit { b'1' } else { b'0' }
}

/// What a list is printed of.
pub trait Item: Copy {
    ghost text: { Self → List ℕ };

    /// Adds its text.
    fn add<W: Write>(self, output: &mut W, piece: &mut Piece) -> io::Result<()>
        ensures { Puts result (W.contents output.old) (W.contents output.new)
            (piece.old ++ text self) piece.new };
}

impl Item for usize {
    ghost text = { decimal };

    fn add<W: Write>(self, output: &mut W, piece: &mut Piece) -> io::Result<()> {
        add_number(output, piece, self)
    }
}

impl Item for Option<usize> {
    ghost text = { index_text };

    fn add<W: Write>(self, output: &mut W, piece: &mut Piece) -> io::Result<()> {
        match self {
            Some(index) => add_number(output, piece, index),
            None => add(output, piece, b"none"),
        }
    }
}

/// Adds a word and then a list: its items with one space between, or a dash for none.
fn add_list<T: Item, W: Write>(
    output: &mut W,
    piece: &mut Piece,
    word: &[u8],
    items: &[T],
) -> io::Result<()>
    requires { length word.now ≤ 4096 }
    ensures { Puts result (W.contents output.old) (W.contents output.new)
        (piece.old ++ (word.now ++ listed (map T.text items.now))) piece.new }
{
    add(output, piece, word)?;
    let Some((first, others)) = items.split_first() else {
        return add(output, piece, b"-");
    };
    add_items(output, piece, *first, others)
}

/// Adds a first item and then the others.
fn add_items<T: Item, W: Write>(
    output: &mut W,
    piece: &mut Piece,
    first: T,
    others: &[T],
) -> io::Result<()>
    ensures { Puts result (W.contents output.old) (W.contents output.new)
        (piece.old ++ listed (T.text first ∷ map T.text others.now)) piece.new }
{
    first.add(output, piece)?;
    add_others(output, piece, others)
}

/// Adds a space and its text for each item.
fn add_others<T: Item, W: Write>(output: &mut W, piece: &mut Piece, others: &[T]) -> io::Result<()>
    ensures { Puts result (W.contents output.old) (W.contents output.new)
        (piece.old ++ flat_map (λ other. codes " " ++ other) (map T.text others.now)) piece.new }
{
    for other in others {
        add_other(output, piece, *other)?;
    }
    Ok(())
}

/// Adds a space and an item.
fn add_other<T: Item, W: Write>(output: &mut W, piece: &mut Piece, other: T) -> io::Result<()>
    ensures { Puts result (W.contents output.old) (W.contents output.new)
        (piece.old ++ (codes " " ++ T.text other)) piece.new }
{
    add(output, piece, b" ")?;
    other.add(output, piece)
}
