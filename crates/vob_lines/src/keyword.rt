//! The first words of lines, and the command of each with the values after it.

ghost use Rattle.std.specs.Prelude.{◌≡◌, [], ◌∷◌};
ghost use Rattle.vob_run.specs.Commands.{usize_call_of};
ghost use Rattle.vob_lines.specs.Arguments.{number, bit, bits};
ghost use Rattle.vob_lines.specs.Grammar.{form, form_of};
ghost use Rattle.vob_lines.specs.Keywords.{word_of, keyword_named};

use vob_run::{Command, UsizeCommand};

/// The first word of a line, by the kinds of the words after it.
#[derive(Clone, Copy)]
pub enum Keyword {
    Fresh,
    Number(Number),
    NumberNumber(NumberNumber),
    BitNumber(BitNumber),
    NumberBit(NumberBit),
    NumberNumberBit(NumberNumberBit),
    BitList(BitList),
    NumberBitList(NumberBitList),
    Bytes,
    Raw,
    Record,
    Drain,
    Walk,
    Count,
}

/// The words before one number.
#[derive(Clone, Copy)]
pub enum Number {
    New,
    Clone,
    Room,
    Pop,
    Len,
    Empty,
    Clear,
    Negate,
    Shrink,
    Bits,
    Blocks,
}

/// The words before two numbers.
#[derive(Clone, Copy)]
pub enum NumberNumber {
    Get,
    GetUnchecked,
    Index,
    Truncate,
    Join,
    Split,
    And,
    Or,
    Xor,
    AndNew,
    OrNew,
    XorNew,
    Equal,
    Reserve,
}

/// The words before a bit and a number.
#[derive(Clone, Copy)]
pub enum BitNumber {
    Elem,
    Fill,
}

/// The words before a number and a bit.
#[derive(Clone, Copy)]
pub enum NumberBit {
    Push,
    SetAll,
}

/// The words before two numbers and a bit.
#[derive(Clone, Copy)]
pub enum NumberNumberBit {
    Set,
    SetUnchecked,
    Resize,
}

/// The words before a list of bits.
#[derive(Clone, Copy)]
pub enum BitList {
    Slice,
    Items,
}

/// The words before a number and a list of bits.
#[derive(Clone, Copy)]
pub enum NumberBitList {
    Append,
    Extend,
}

impl Keyword {
    const ALL: [Keyword; 43] = [
        Keyword::Fresh,
        Keyword::Number(Number::New),
        Keyword::Number(Number::Clone),
        Keyword::Number(Number::Room),
        Keyword::Number(Number::Pop),
        Keyword::Number(Number::Len),
        Keyword::Number(Number::Empty),
        Keyword::Number(Number::Clear),
        Keyword::Number(Number::Negate),
        Keyword::Number(Number::Shrink),
        Keyword::Number(Number::Bits),
        Keyword::Number(Number::Blocks),
        Keyword::NumberNumber(NumberNumber::Get),
        Keyword::NumberNumber(NumberNumber::GetUnchecked),
        Keyword::NumberNumber(NumberNumber::Index),
        Keyword::NumberNumber(NumberNumber::Truncate),
        Keyword::NumberNumber(NumberNumber::Join),
        Keyword::NumberNumber(NumberNumber::Split),
        Keyword::NumberNumber(NumberNumber::And),
        Keyword::NumberNumber(NumberNumber::Or),
        Keyword::NumberNumber(NumberNumber::Xor),
        Keyword::NumberNumber(NumberNumber::AndNew),
        Keyword::NumberNumber(NumberNumber::OrNew),
        Keyword::NumberNumber(NumberNumber::XorNew),
        Keyword::NumberNumber(NumberNumber::Equal),
        Keyword::NumberNumber(NumberNumber::Reserve),
        Keyword::BitNumber(BitNumber::Elem),
        Keyword::BitNumber(BitNumber::Fill),
        Keyword::NumberBit(NumberBit::Push),
        Keyword::NumberBit(NumberBit::SetAll),
        Keyword::NumberNumberBit(NumberNumberBit::Set),
        Keyword::NumberNumberBit(NumberNumberBit::SetUnchecked),
        Keyword::NumberNumberBit(NumberNumberBit::Resize),
        Keyword::BitList(BitList::Slice),
        Keyword::BitList(BitList::Items),
        Keyword::NumberBitList(NumberBitList::Append),
        Keyword::NumberBitList(NumberBitList::Extend),
        Keyword::Bytes,
        Keyword::Raw,
        Keyword::Record,
        Keyword::Drain,
        Keyword::Walk,
        Keyword::Count,
    ];

    /// Its text.
    pub fn word(self) -> &'static str
        ensures { result.now ≡ word_of self }
    {
        match self {
            Keyword::Fresh => "fresh",
            Keyword::Number(word) => word.text(),
            Keyword::NumberNumber(word) => word.text(),
            Keyword::BitNumber(BitNumber::Elem) => "elem",
            Keyword::BitNumber(BitNumber::Fill) => "fill",
            Keyword::NumberBit(NumberBit::Push) => "push",
            Keyword::NumberBit(NumberBit::SetAll) => "setall",
            Keyword::NumberNumberBit(NumberNumberBit::Set) => "set",
            Keyword::NumberNumberBit(NumberNumberBit::SetUnchecked) => "setu",
            Keyword::NumberNumberBit(NumberNumberBit::Resize) => "resize",
            Keyword::BitList(BitList::Slice) => "slice",
            Keyword::BitList(BitList::Items) => "items",
            Keyword::NumberBitList(NumberBitList::Append) => "append",
            Keyword::NumberBitList(NumberBitList::Extend) => "extend",
            Keyword::Bytes => "bytes",
            Keyword::Raw => "raw",
            Keyword::Record => "record",
            Keyword::Drain => "drain",
            Keyword::Walk => "walk",
            Keyword::Count => "count",
        }
    }

    /// The keyword with this text.
    pub fn named(word: &[u8]) -> Option<Keyword>
        ensures { result ≡ keyword_named word.now }
    {
        Keyword::ALL
            .iter()
            .copied()
            .find(|keyword| keyword.word().as_bytes() == word)
    }
}

impl Number {
    /// Its text.
    fn text(self) -> &'static str
        ensures { result.now ≡ word_of (Keyword.Number self) }
    {
        match self {
            Number::New => "new",
            Number::Clone => "clone",
            Number::Room => "room",
            Number::Pop => "pop",
            Number::Len => "len",
            Number::Empty => "empty",
            Number::Clear => "clear",
            Number::Negate => "negate",
            Number::Shrink => "shrink",
            Number::Bits => "bits",
            Number::Blocks => "blocks",
        }
    }

    /// Its command.
    pub fn command(self, n: usize) -> UsizeCommand
        ensures { form_of (usize_call_of result)
            ≡ form (word_of (Keyword.Number self)) (number n ∷ []) }
    {
        UsizeCommand::Common(match self {
            Number::Room => return UsizeCommand::WithCapacity { capacity: n },
            Number::New => Command::New { capacity: n },
            Number::Clone => Command::Copy { which: n },
            Number::Pop => Command::Pop { which: n },
            Number::Len => Command::Length { which: n },
            Number::Empty => Command::IsEmpty { which: n },
            Number::Clear => Command::Clear { which: n },
            Number::Negate => Command::Negate { which: n },
            Number::Shrink => Command::Shrink { which: n },
            Number::Bits => Command::Bits { which: n },
            Number::Blocks => Command::Storage { which: n },
        })
    }
}

impl NumberNumber {
    /// Its text.
    fn text(self) -> &'static str
        ensures { result.now ≡ word_of (Keyword.NumberNumber self) }
    {
        match self {
            NumberNumber::Get => "get",
            NumberNumber::GetUnchecked => "getu",
            NumberNumber::Index => "index",
            NumberNumber::Truncate => "truncate",
            NumberNumber::Join => "join",
            NumberNumber::Split => "split",
            NumberNumber::And => "and",
            NumberNumber::Or => "or",
            NumberNumber::Xor => "xor",
            NumberNumber::AndNew => "andnew",
            NumberNumber::OrNew => "ornew",
            NumberNumber::XorNew => "xornew",
            NumberNumber::Equal => "equal",
            NumberNumber::Reserve => "reserve",
        }
    }

    /// Its command.
    pub fn command(self, which: usize, n: usize) -> UsizeCommand
        ensures { form_of (usize_call_of result)
            ≡ form (word_of (Keyword.NumberNumber self)) (number which ∷ number n ∷ []) }
    {
        UsizeCommand::Common(match self {
            NumberNumber::Get => Command::GetBit { which, index: n },
            NumberNumber::GetUnchecked => Command::GetUnchecked { which, index: n },
            NumberNumber::Index => Command::IndexBit { which, index: n },
            NumberNumber::Truncate => Command::Truncate { which, len: n },
            NumberNumber::Join => Command::ExtendVob { which, other: n },
            NumberNumber::Split => Command::SplitOff { which, index: n },
            NumberNumber::And => Command::And { which, other: n },
            NumberNumber::Or => Command::Or { which, other: n },
            NumberNumber::Xor => Command::Xor { which, other: n },
            NumberNumber::AndNew => Command::AndNew { which, other: n },
            NumberNumber::OrNew => Command::OrNew { which, other: n },
            NumberNumber::XorNew => Command::XorNew { which, other: n },
            NumberNumber::Equal => Command::Equal { which, other: n },
            NumberNumber::Reserve => Command::Reserve {
                which,
                additional: n,
            },
        })
    }
}

impl BitNumber {
    /// Its command.
    pub fn command(self, value: bool, len: usize) -> UsizeCommand
        ensures { form_of (usize_call_of result)
            ≡ form (word_of (Keyword.BitNumber self)) (bit value ∷ number len ∷ []) }
    {
        match self {
            BitNumber::Elem => UsizeCommand::Common(Command::FromElem { value, len }),
            BitNumber::Fill => UsizeCommand::Fill { value, len },
        }
    }
}

impl NumberBit {
    /// Its command.
    pub fn command(self, which: usize, value: bool) -> UsizeCommand
        ensures { form_of (usize_call_of result)
            ≡ form (word_of (Keyword.NumberBit self)) (number which ∷ bit value ∷ []) }
    {
        UsizeCommand::Common(match self {
            NumberBit::Push => Command::Push { which, value },
            NumberBit::SetAll => Command::SetAll { which, value },
        })
    }
}

impl NumberNumberBit {
    /// Its command.
    pub fn command(self, which: usize, n: usize, value: bool) -> UsizeCommand
        ensures { form_of (usize_call_of result)
            ≡ form (word_of (Keyword.NumberNumberBit self)) (number which ∷ number n ∷ bit value ∷ []) }
    {
        UsizeCommand::Common(match self {
            NumberNumberBit::Set => Command::SetBit {
                which,
                index: n,
                value,
            },
            NumberNumberBit::SetUnchecked => Command::SetUnchecked {
                which,
                index: n,
                value,
            },
            NumberNumberBit::Resize => Command::Resize {
                which,
                len: n,
                value,
            },
        })
    }
}

impl BitList {
    /// Its command.
    pub fn command(self, values: Vec<bool>) -> UsizeCommand
        ensures { form_of (usize_call_of result)
            ≡ form (word_of (Keyword.BitList self)) (bits values.items ∷ []) }
    {
        match self {
            BitList::Slice => UsizeCommand::FromSlice { bits: values },
            BitList::Items => UsizeCommand::FromItems { bits: values },
        }
    }
}

impl NumberBitList {
    /// Its command.
    pub fn command(self, which: usize, values: Vec<bool>) -> UsizeCommand
        ensures { form_of (usize_call_of result)
            ≡ form (word_of (Keyword.NumberBitList self)) (number which ∷ bits values.items ∷ []) }
    {
        UsizeCommand::Common(match self {
            NumberBitList::Append => Command::ExtendSlice {
                which,
                bits: values,
            },
            NumberBitList::Extend => Command::ExtendItems {
                which,
                bits: values,
            },
        })
    }
}
