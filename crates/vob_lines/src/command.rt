//! The command that a line reads as: its words, taken off one after another.

ghost use Rattle.std.specs.Prelude.{◌≡◌, ◌≢◌, List, [], ◌∷◌, map, IfOk, OnOk, IsErrOf, ℕ};
ghost use Rattle.vob_run.specs.Call.{Call};
ghost use Rattle.vob_run.specs.Commands.{usize_call_of};
ghost use Rattle.vob_lines.specs.Cuts.{words_of};
ghost use Rattle.vob_lines.specs.Arguments.{number, bit, bits, bytes, range, pulls, AllSpell};
ghost use Rattle.vob_lines.specs.Errors.{OnlyUnreadable, HoldList};
ghost use Rattle.vob_lines.specs.Grammar.{Reads};
ghost use Rattle.vob_lines.specs.Lists.{BeginsAsList};
ghost use Rattle.vob_lines.specs.Kinds.{a_number, a_bit, some_bits, some_bytes, a_range};
ghost use Rattle.vob_lines.specs.Kinds.{some_pulls, nothing, numbers, before, kinds_of, Begins};
ghost use Rattle.vob_lines.specs.Kinds.{Are, Takes, IsLine};
ghost use Rattle.vob_lines.specs.declared.keyword.Keyword.TheVariants.{Fresh, Bytes, Raw, Record, Drain, Walk, Count};

use crate::keyword::Keyword;
use crate::line::{LineError, first_place, is_blank, past_spaces};
use crate::spelling::{bit_of, bytes_of, letters_of, number_of, range_of};
use std::alloc::Global;
use std::marker::Model;
use std::ops::Bound;
use vob::End;
use vob_run::{Command, UsizeCommand};

/// The words of a line that are still to be read, seen as their list.
#[derive(Drop)]
struct Words<'a> {
    rest: &'a [u8],
}

impl<'a> Model for Words<'a> {
    ghost Value = { List (List ℕ) };

    ghost view = { λ words. words_of words.rest.now };
}

/// One word each.
impl<'a> Words<'a> {
    /// The first word.
    fn word(&mut self) -> Result<&'a [u8], LineError>
        ensures ok { IfOk result (λ word. self.old ≡ word.now ∷ self.new) }
        ensures err { OnlyUnreadable result (self.old ≡ []) }
    {
        let rest = past_spaces(self.rest);
        if rest.is_empty() {
            return Err(LineError::Unreadable);
        }
        let (word, rest) = rest.split_at(first_place(rest, b' '));
        self.rest = rest;
        Ok(word)
    }

    /// The first word as a number.
    fn number(&mut self) -> Result<usize, LineError>
        ensures ok { IfOk result (λ n. Takes self.old (number n) self.new) }
        ensures err { OnlyUnreadable result (Begins self.old a_number → ⊥) }
    {
        number_of(self.word()?)
    }

    /// The first word as a bit.
    fn bit(&mut self) -> Result<bool, LineError>
        ensures ok { IfOk result (λ value. Takes self.old (bit value) self.new) }
        ensures err { OnlyUnreadable result (Begins self.old a_bit → ⊥) }
    {
        bit_of(self.word()?)
    }

    /// The first word as a list of bits.
    fn bits(&mut self, alloc: Global) -> Result<Vec<bool>, LineError>
        ensures ok { IfOk result (λ values. Takes self.old (bits values.items) self.new) }
        ensures err { IsErrOf result LineError.Unreadable → Begins self.old some_bits → ⊥ }
    {
        letters_of(alloc, self.word()?)
    }

    /// The first word as bytes.
    fn bytes(&mut self, alloc: Global) -> Result<Vec<u8>, LineError>
        ensures ok { IfOk result (λ values. Takes self.old (bytes values.items) self.new) }
        ensures err { IsErrOf result LineError.Unreadable → Begins self.old some_bytes → ⊥ }
    {
        bytes_of(alloc, self.word()?)
    }

    /// The first word as a range.
    fn range(&mut self) -> Result<(Bound<usize>, Bound<usize>), LineError>
        ensures ok { IfOk result (λ bounds. Takes self.old (range bounds.0 bounds.1) self.new) }
        ensures err { OnlyUnreadable result (Begins self.old a_range → ⊥) }
    {
        range_of(self.word()?)
    }

    /// The first word as the ends of a walk to pull at.
    fn pulls(&mut self, alloc: Global) -> Result<Vec<End>, LineError>
        ensures ok { IfOk result (λ ends. Takes self.old (pulls ends.items) self.new) }
        ensures err { IsErrOf result LineError.Unreadable → Begins self.old some_pulls → ⊥ }
    {
        letters_of(alloc, self.word()?)
    }

    /// Refuses words that are left.
    fn end(&self) -> Result<(), LineError>
        ensures ok { OnOk result (self.now ≡ []) }
        ensures err { OnlyUnreadable result (self.now ≢ []) }
    {
        if is_blank(self.rest) {
            Ok(())
        } else {
            Err(LineError::Unreadable)
        }
    }
}

/// All words that are left.
impl<'a> Words<'a> {
    /// Numbers, to the end.
    fn numbers(&mut self, alloc: Global) -> Result<Vec<usize>, LineError>
        ensures ok { IfOk result (λ values. AllSpell self.old (map number values.items)) }
        ensures err { IsErrOf result LineError.Unreadable → Are self.old numbers → ⊥ }
    {
        let mut values = Vec::new(alloc);
        while !is_blank(self.rest) {
            values.push(self.number()?)?;
        }
        Ok(values)
    }

    /// One number.
    fn one_number(&mut self) -> Result<usize, LineError>
        ensures ok { IfOk result (λ n. AllSpell self.old (number n ∷ [])) }
        ensures err { OnlyUnreadable result (Are self.old (before a_number nothing) → ⊥) }
    {
        let n = self.number()?;
        self.end()?;
        Ok(n)
    }

    /// Two numbers.
    fn two_numbers(&mut self) -> Result<(usize, usize), LineError>
        ensures ok { IfOk result (λ pair. AllSpell self.old (number pair.0 ∷ number pair.1 ∷ [])) }
        ensures err { OnlyUnreadable result (Are self.old (before a_number (before a_number nothing)) → ⊥) }
    {
        let first = self.number()?;
        let second = self.number()?;
        self.end()?;
        Ok((first, second))
    }

    /// A bit and a number.
    fn bit_and_number(&mut self) -> Result<(bool, usize), LineError>
        ensures ok { IfOk result (λ pair. AllSpell self.old (bit pair.0 ∷ number pair.1 ∷ [])) }
        ensures err { OnlyUnreadable result (Are self.old (before a_bit (before a_number nothing)) → ⊥) }
    {
        let value = self.bit()?;
        let n = self.number()?;
        self.end()?;
        Ok((value, n))
    }

    /// A number and a bit.
    fn number_and_bit(&mut self) -> Result<(usize, bool), LineError>
        ensures ok { IfOk result (λ pair. AllSpell self.old (number pair.0 ∷ bit pair.1 ∷ [])) }
        ensures err { OnlyUnreadable result (Are self.old (before a_number (before a_bit nothing)) → ⊥) }
    {
        let n = self.number()?;
        let value = self.bit()?;
        self.end()?;
        Ok((n, value))
    }

    /// Two numbers and a bit.
    fn two_numbers_and_bit(&mut self) -> Result<(usize, usize, bool), LineError>
        ensures ok { IfOk result (λ three. AllSpell self.old
            (number three.0 ∷ number three.1 ∷ bit three.2 ∷ [])) }
        ensures err { OnlyUnreadable result (Are self.old
            (before a_number (before a_number (before a_bit nothing))) → ⊥) }
    {
        let first = self.number()?;
        let second = self.number()?;
        let value = self.bit()?;
        self.end()?;
        Ok((first, second, value))
    }

    /// A list of bits.
    fn bit_list(&mut self, alloc: Global) -> Result<Vec<bool>, LineError>
        ensures ok { IfOk result (λ values. AllSpell self.old (bits values.items ∷ [])) }
        ensures err { IsErrOf result LineError.Unreadable →
            Are self.old (before some_bits nothing) → ⊥ }
    {
        let values = self.bits(alloc)?;
        self.end()?;
        Ok(values)
    }

    /// A number and a list of bits.
    fn number_and_bit_list(&mut self, alloc: Global) -> Result<(usize, Vec<bool>), LineError>
        ensures ok { IfOk result (λ pair. AllSpell self.old
            (number pair.0 ∷ bits pair.1.items ∷ [])) }
        ensures err { IsErrOf result LineError.Unreadable →
            Are self.old (before a_number (before some_bits nothing)) → ⊥ }
    {
        let n = self.number()?;
        let values = self.bits(alloc)?;
        self.end()?;
        Ok((n, values))
    }
}

/// The commands that have a form of their own: the keyword is read already.
impl<'a> Words<'a> {
    /// The command of `fresh`.
    fn fresh(&mut self) -> Result<UsizeCommand, LineError>
        ensures ok { IfOk result (λ command. IsLine Fresh self.old (usize_call_of command)) }
        ensures err { OnlyUnreadable result (Are self.old (kinds_of Fresh) → ⊥) }
    {
        self.end()?;
        Ok(UsizeCommand::Fresh)
    }

    /// The command of `bytes`.
    fn from_bytes(&mut self, alloc: Global) -> Result<UsizeCommand, LineError>
        ensures ok { IfOk result (λ command. IsLine Bytes self.old (usize_call_of command)) }
        ensures err { IsErrOf result LineError.Unreadable → Are self.old (kinds_of Bytes) → ⊥ }
    {
        let bytes = self.bytes(alloc)?;
        self.end()?;
        Ok(UsizeCommand::FromBytes { bytes })
    }

    /// The command of `raw`.
    fn from_raw(&mut self, alloc: Global) -> Result<UsizeCommand, LineError>
        ensures ok { IfOk result (λ command. IsLine Raw self.old (usize_call_of command)) }
        ensures err { IsErrOf result LineError.Unreadable → Are self.old (kinds_of Raw) → ⊥ }
    {
        let len = self.number()?;
        let mask = self.bit()?;
        let blocks = self.numbers(alloc)?;
        Ok(UsizeCommand::Common(Command::FromRaw { len, mask, blocks }))
    }

    /// The command of `record`.
    fn from_record(&mut self, alloc: Global) -> Result<UsizeCommand, LineError>
        ensures ok { IfOk result (λ command. IsLine Record self.old (usize_call_of command)) }
        ensures err { IsErrOf result LineError.Unreadable → Are self.old (kinds_of Record) → ⊥ }
    {
        let len = self.number()?;
        let blocks = self.numbers(alloc)?;
        Ok(UsizeCommand::FromRecord { len, blocks })
    }

    /// The command of `drain`.
    fn drain(&mut self) -> Result<UsizeCommand, LineError>
        ensures ok { IfOk result (λ command. IsLine Drain self.old (usize_call_of command)) }
        ensures err { OnlyUnreadable result (Are self.old (kinds_of Drain) → ⊥) }
    {
        let which = self.number()?;
        let bounds = self.range()?;
        self.end()?;
        Ok(UsizeCommand::Common(Command::Drain { which, bounds }))
    }

    /// The command of `walk`.
    fn walk(&mut self, alloc: Global) -> Result<UsizeCommand, LineError>
        ensures ok { IfOk result (λ command. IsLine Walk self.old (usize_call_of command)) }
        ensures err { IsErrOf result LineError.Unreadable → Are self.old (kinds_of Walk) → ⊥ }
    {
        let which = self.number()?;
        let value = self.bit()?;
        let bounds = self.range()?;
        let pulls = self.pulls(alloc)?;
        self.end()?;
        Ok(UsizeCommand::Common(Command::Walk {
            which,
            value,
            bounds,
            pulls,
        }))
    }

    /// The command of `count`.
    fn count(&mut self) -> Result<UsizeCommand, LineError>
        ensures ok { IfOk result (λ command. IsLine Count self.old (usize_call_of command)) }
        ensures err { OnlyUnreadable result (Are self.old (kinds_of Count) → ⊥) }
    {
        let which = self.number()?;
        let value = self.bit()?;
        let bounds = self.range()?;
        self.end()?;
        Ok(UsizeCommand::Common(Command::Count {
            which,
            value,
            bounds,
        }))
    }

    /// Reads the command of a keyword from the words after it.
    fn command(&mut self, alloc: Global, keyword: Keyword) -> Result<UsizeCommand, LineError>
        ensures ok { IfOk result (λ command. IsLine keyword self.old (usize_call_of command)) }
        ensures err { IsErrOf result LineError.Unreadable → Are self.old (kinds_of keyword) → ⊥ }
        ensures memory { IsErrOf result LineError.Memory → HoldList (kinds_of keyword) }
    {
        match keyword {
            Keyword::Fresh => self.fresh(),
            Keyword::Number(word) => Ok(word.command(self.one_number()?)),
            Keyword::NumberNumber(word) => {
                let (which, n) = self.two_numbers()?;
                Ok(word.command(which, n))
            }
            Keyword::BitNumber(word) => {
                let (value, len) = self.bit_and_number()?;
                Ok(word.command(value, len))
            }
            Keyword::NumberBit(word) => {
                let (which, value) = self.number_and_bit()?;
                Ok(word.command(which, value))
            }
            Keyword::NumberNumberBit(word) => {
                let (which, n, value) = self.two_numbers_and_bit()?;
                Ok(word.command(which, n, value))
            }
            Keyword::BitList(word) => Ok(word.command(self.bit_list(alloc)?)),
            Keyword::NumberBitList(word) => {
                let (which, values) = self.number_and_bit_list(alloc)?;
                Ok(word.command(which, values))
            }
            Keyword::Bytes => self.from_bytes(alloc),
            Keyword::Raw => self.from_raw(alloc),
            Keyword::Record => self.from_record(alloc),
            Keyword::Drain => self.drain(),
            Keyword::Walk => self.walk(alloc),
            Keyword::Count => self.count(),
        }
    }
}

/// Returns the command that a line reads as. Fails with `Unreadable` if it reads as none, and with
/// `Memory` if that runs out for a list.
pub fn read_command(alloc: Global, line: &[u8]) -> Result<UsizeCommand, LineError>
    ensures found { IfOk result (λ command. Reads (words_of line.now) (usize_call_of command)) }
    ensures one { IfOk result (λ command. (other : Call) → Reads (words_of line.now) other →
        other ≡ usize_call_of command) }
    ensures only { IsErrOf result LineError.Unreadable →
        (call : Call) → Reads (words_of line.now) call → ⊥ }
    ensures memory { IsErrOf result LineError.Memory → BeginsAsList (words_of line.now) }
{
    let mut words = Words { rest: line };
    let keyword = Keyword::named(words.word()?).ok_or(LineError::Unreadable)?;
    words.command(alloc, keyword)
}
