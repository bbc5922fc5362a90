//! A conversation: the whole input is read, its lines are run as commands, and a line is printed
//! for each reply.

ghost use Rattle.std.specs.Prelude.{◌≡◌, ℕ, List, [], ◌++◌, map, codes, IfOk, IfErr, OnOk, OnErr, IsOk, IsOkUnless};
ghost use Rattle.std.specs.Fmt.{decimal};
ghost use Rattle.vob_run.specs.Run.{IsRun};
ghost use Rattle.vob_run.specs.Call.{Call};
ghost use Rattle.vob_run.specs.Commands.{usize_call_of};
ghost use Rattle.vob_lines.specs.Cuts.{lines_of};
ghost use Rattle.vob_lines.specs.Conversation.{lines_for, IsInput, Answers, Converses};
ghost use Rattle.vob_lines.specs.Reading.{sentences, AllRead};
ghost use Rattle.vob_lines.specs.Texts.{line_of};
ghost use Rattle.vob_lines.specs.Written.{Puts};
ghost use Rattle.vob_lines.specs.Ends.{Ends, Stops, ending_at};
ghost use Rattle.vob_run.specs.Answer.{usize_answer_of};
ghost use Rattle.vob_lines.specs.declared.session.Ending.TheVariants.{Memory};

use crate::command::read_command;
use crate::line::{LineError, cut_line, is_blank};
use crate::piece::{Piece, add, add_named, put, write_out};
use crate::text::add_replies;
use std::alloc::{AllocError, AllocFailed, Global};
use std::io;
use std::io::{Read, Write};
use vob_run::run::run_usize;
use vob_run::{Reply, UsizeCommand};

/// How many bytes each read asks for.
const CHUNK: usize = 4096;

/// How many reads there are at most.
const MOST_READS: usize = 1048576;

/// Why a conversation ends with no reply.
#[derive(Clone, Copy, Debug, PartialEq, Eq)]
enum Ending {
    /// Reading failed, or went on for too long.
    Failed,
    /// The line with this number, counted from 1, reads as no command.
    BadLine(usize),
    /// Memory was refused for the input, the commands or the replies.
    Memory,
}

impl From<AllocError> for Ending {
    ghost from_gives = { λ _ ending. ending ≡ Memory };

    fn from(_: AllocError) -> Ending {
        Ending::Memory
    }
}

impl<T: Drop> From<AllocFailed<T>> for Ending {
    ghost from_gives = { λ _ ending. ending ≡ Memory };

    fn from(_: AllocFailed<T>) -> Ending {
        Ending::Memory
    }
}

impl LineError {
    /// How the conversation ends at the line with this number.
    fn at(self, line: usize) -> Ending
        ensures { result ≡ ending_at self line }
    {
        match self {
            LineError::Unreadable => Ending::BadLine(line),
            LineError::Memory => Ending::Memory,
        }
    }
}

/// Reads all there is, by `MOST_READS` reads at most.
fn read_all<R: Read>(alloc: Global, input: &mut R) -> Result<Vec<u8>, Ending>
    ensures ok { IfOk result (λ text. IsInput (R.remaining input.old) text.items) }
    ensures err { IfErr result (λ ending. (text : List ℕ) × IsInput (R.remaining input.old) text
        × Stops text ending) }
{
    let mut text = Vec::new(alloc);
    let mut chunk = [0u8; CHUNK];
    for _ in 0..MOST_READS {
        let count = input.read(&mut chunk).map_err(|_| Ending::Failed)?;
        if count == 0 {
            return Ok(text);
        }
        text.extend_from_slice(&chunk[..count])?;
    }
    Err(Ending::Failed)
}

/// Reads all lines as commands, up to the first that no command reads as.
fn read_commands(alloc: Global, text: &[u8]) -> Result<Vec<UsizeCommand>, Ending>
    ensures ok { IfOk result (λ commands.
        AllRead (sentences (lines_of text.now)) (map usize_call_of commands.items)) }
    ensures err { IfErr result (λ ending. Ends (lines_of text.now) ending) }
{
    let mut commands = Vec::new(alloc);
    let mut rest = text;
    let mut number = 0;
    while !rest.is_empty() {
        let (line, after) = cut_line(rest);
        number += 1;
        if !is_blank(line) {
            let command = read_command(alloc, line).map_err(|error| error.at(number))?;
            commands.push(command)?;
        }
        rest = after;
    }
    Ok(commands)
}

/// Runs commands, from no Vobs at all.
fn answer(alloc: Global, commands: &[UsizeCommand]) -> Result<Vec<Reply<usize>>, Ending>
    ensures ok { IfOk result (λ replies.
        (after : _) × IsRun 64 [] (map usize_call_of commands.now)
        (map usize_answer_of replies.items) after) }
    ensures err { IsOkUnless result Ending.Memory }
    ensures nothing { commands.now ≡ [] → IsOk result }
{
    let mut vobs = Vec::new(alloc);
    let mut replies = Vec::new(alloc);
    run_usize(alloc, commands, &mut vobs, &mut replies)?;
    Ok(replies)
}

/// Runs the lines of a text.
fn replies_to(alloc: Global, text: &[u8]) -> Result<Vec<Reply<usize>>, Ending>
    ensures ok { IfOk result (λ replies.
        Answers text.now (lines_for (map usize_answer_of replies.items))) }
    ensures err { IfErr result (λ ending. Ends (lines_of text.now) ending) }
{
    let commands = read_commands(alloc, text)?;
    answer(alloc, &commands)
}

/// Reads the whole input and runs its lines.
fn replies_from<R: Read>(alloc: Global, input: &mut R) -> Result<Vec<Reply<usize>>, Ending>
    ensures ok { IfOk result (λ replies. (text : List ℕ) × IsInput (R.remaining input.old) text
        × Answers text (lines_for (map usize_answer_of replies.items))) }
    ensures err { IfErr result (λ ending. (text : List ℕ) × IsInput (R.remaining input.old) text
        × Stops text ending) }
{
    let text = read_all(alloc, input)?;
    replies_to(alloc, &text)
}

/// Writes a line for each reply.
fn write_replies<W: Write>(output: &mut W, replies: &[Reply<usize>]) -> io::Result<()>
    ensures { Puts result (W.contents output.old) (W.contents output.new)
        (lines_for (map usize_answer_of replies.now)) [] }
{
    let mut piece = Piece::new();
    add_replies(output, &mut piece, replies)?;
    write_out(output, &mut piece)
}

/// Writes which line can't be read.
fn write_bad_line<W: Write>(output: &mut W, line: usize) -> io::Result<()>
    ensures { Puts result (W.contents output.old) (W.contents output.new)
        (line_of (codes "bad line " ++ decimal line)) [] }
{
    let mut piece = Piece::new();
    add_named(output, &mut piece, b"bad line ", line)?;
    add(output, &mut piece, b"\n")?;
    write_out(output, &mut piece)
}

/// Returns the status of a conversation if its last text was written, and 1 if not.
fn status_after(written: io::Result<()>, status: u8) -> u8
    ensures ok { OnOk written (result ≡ status) }
    ensures err { OnErr written (result ≡ 1) }
{
    if written.is_ok() { status } else { 1 }
}

/// Reads command lines, and writes a line for each reply. Returns the exit status:
///
/// - 0: each line was read and run;
/// - 1: reading or writing failed, or input hadn't ended after 1,048,576 reads of at most 4096
///   bytes; what is written is a prefix;
/// - 2: a line can't be read, nothing was run, and `bad line` and its number is all that was
///   written;
/// - 3: memory was refused before a line that can't be read was found, nothing was run, and
///   `memory` is all that was written.
///
/// A call of `read` or `write` that was interrupted has failed like any other, and isn't tried
/// again. So has a `write` that took no bytes.
pub fn converse<R: Read, W: Write>(alloc: Global, input: &mut R, output: &mut W) -> u8
    ensures { Converses result (R.remaining input.old)
        (W.contents output.old) (W.contents output.new) }
{
    match replies_from(alloc, input) {
        Ok(replies) => status_after(write_replies(output, &replies), 0),
        Err(Ending::BadLine(line)) => status_after(write_bad_line(output, line), 2),
        Err(Ending::Memory) => status_after(put(output, b"memory\n"), 3),
        Err(Ending::Failed) => 1,
    }
}
