//! A Vob as text, a digit for each bit, that of index 0 first; and as bytes. vob 4.0.1 has `Debug`
//! alone.
ghost use Rattle.std.specs.Prelude.{◌≡◌, ◌≤◌, ◌↔◌, ℕ, ◌-◌, ◌*◌, ◌++◌, [], map, length, replicate, false, All, Some, None, Err, IsTrue, IsOk, IfOk};
ghost use Rattle.vob_block.specs.Bytes.{bytes_list};
ghost use Rattle.vob_block.specs.Packing.{need};
ghost use Rattle.vob_block.specs.Digits.{digit, IsDigit, IsFirstBad};
ghost use Rattle.vob.specs.Texts.{debug_text, digits_error_text};
ghost use Rattle.vob.specs.declared.text.DigitsError.TheVariants.{BadDigit, Memory};

use crate::vob::Vob;
use std::alloc::{AllocError, Global};
use std::error::Error;
use std::fmt;
use vob_block::Kernel;
use vob_store::bytes::block_bytes;
use vob_store::text::write_digits;

/// Why a text wasn't read as bits.
#[derive(Clone, Copy, Debug, PartialEq, Eq)]
pub enum DigitsError {
    /// The byte at this index is neither `0` nor `1`, and all before it are.
    BadDigit(usize),
    /// Memory ran out.
    Memory,
}

impl fmt::Display for DigitsError {
    ghost output = { λ error. Some (digits_error_text error) };

    fn fmt<W: fmt::Write>(&self, f: &mut fmt::Formatter<W>) -> fmt::Result {
        match self {
            DigitsError::BadDigit(index) => write!(f, "neither 0 nor 1 at index {index}"),
            DigitsError::Memory => f.write_str("out of memory"),
        }
    }
}

impl Error for DigitsError {}

impl From<AllocError> for DigitsError {
    ghost from_gives = { λ _ refusal. refusal ≡ Memory };

    fn from(_: AllocError) -> DigitsError {
        DigitsError::Memory
    }
}

impl<T: Kernel> fmt::Display for Vob<T> {
    ghost output = { λ vob. Some (map digit vob.bits) };

    /// Writes a digit for each bit, that of index 0 first, and nothing else. `from_digits` reads
    /// it back.
    fn fmt<W: fmt::Write>(&self, f: &mut fmt::Formatter<W>) -> fmt::Result {
        write_digits(self.vec.as_slice(), self.len, f)
    }
}

impl<T: Kernel> fmt::Debug for Vob<T> {
    ghost debug_output = { λ vob. Some (debug_text vob.bits) };

    /// Writes `Vob[`, a digit for each bit, that of index 0 first, and `]`, as vob 4.0.1 does.
    fn fmt<W: fmt::Write>(&self, f: &mut fmt::Formatter<W>) -> fmt::Result {
        f.write_str("Vob[")?;
        write_digits(self.vec.as_slice(), self.len, f)?;
        f.write_str("]")
    }
}

/// Whether a byte is the digit of a bit.
fn is_digit(byte: u8) -> bool
    ensures { IsTrue result ↔ IsDigit byte }
{
    byte == b'0' || byte == b'1'
}

/// The index of the first byte that isn't the digit of a bit.
fn first_bad(text: &[u8]) -> Option<usize>
    ensures none { result ≡ None → All IsDigit text.now }
    ensures some { (at : ℕ) → result ≡ Some at → IsFirstBad text.now at }
{
    for index in 0..text.len() {
        if !is_digit(text[index]) {
            return Some(index);
        }
    }
    None
}

/// Adds the bits of some digits to an empty Vob, in the room that is there.
fn push_digits<T: Kernel>(vob: &mut Vob<T>, digits: &[u8])
    requires empty { vob.old.bits ≡ [] }
    requires digits { All IsDigit digits.now }
    requires room { length digits.now ≤ vob.old.capacity }
    ensures { map digit vob.new.bits ≡ digits.now }
{
    for byte in digits {
        // There is room, so this isn't refused.
        let _ = vob.push(*byte == b'1');
    }
}

impl<T: Kernel> Vob<T> {
    /// Makes a Vob of the bits of some digits, that of index 0 first. Fails at the first byte
    /// that is neither `0` nor `1`, and names its index. Fails if memory runs out; no digits take
    /// none.
    ///
    /// ```
    /// let vob: Vob = Vob::from_digits(alloc, "101")?;
    /// assert_eq!(rt; vob.get(1), Some(false));
    /// ```
    pub fn from_digits(alloc: Global, text: &str) -> Result<Vob<T>, DigitsError>
        ensures bits { IfOk result (λ vob. map digit vob.bits ≡ text.now) }
        ensures bad { (at : ℕ) → (result ≡ Err (BadDigit at)) ↔ IsFirstBad text.now at }
        ensures nothing { text.now ≡ [] → IsOk result }
    {
        let digits = text.as_bytes();
        if let Some(index) = first_bad(digits) {
            return Err(DigitsError::BadDigit(index));
        }
        let mut vob = Vob::new_with_storage_type(alloc, digits.len())?;
        push_digits(&mut vob, digits);
        Ok(vob)
    }
}

impl Vob<usize> {
    /// Returns the bytes of the bits, the most significant bit of each byte first, with the
    /// unused bits of the last byte 0. `from_bytes` reads them back, unused bits too. Fails if
    /// memory runs out; no bits take none.
    ///
    /// ```
    /// let vob = vob::vob!(alloc; true, false, true)?;
    /// assert_eq!(rt; vob.to_bytes(alloc)?.as_slice(), [0b1010_0000].as_slice());
    /// ```
    pub fn to_bytes(&self, alloc: Global) -> Result<Vec<u8>, AllocError>
        ensures bits { IfOk result (λ bytes. bytes_list bytes.items ≡ self.now.bits
            ++ replicate (8 * need (length self.now.bits) 8 - length self.now.bits) false) }
        ensures count { IfOk result (λ bytes. length bytes.items ≡ need (length self.now.bits) 8) }
        ensures nothing { self.now.bits ≡ [] → IsOk result }
    {
        block_bytes(alloc, self.vec.as_slice(), self.len)
    }
}
