//! A Vob of some bytes, and the bytes of one, the least significant bit of each byte first. vob 4.0.1
//! has neither call.
ghost use Rattle.std.specs.Prelude.{◌≡◌, ◌≢◌, ◌↔◌, ℕ, ◌*◌, ◌<◌, [], length, Err, IsOk, IfOk};
ghost use Rattle.vob_block.specs.Packing.{item, need, bit_at, packing, unpacking};

use crate::error::VobError;
use crate::vob::Vob;
use std::alloc::{AllocError, Global};
use vob_block::BitBlock;
use vob_store::le_bytes::{low_block_bytes, low_byte_blocks};

impl Vob<usize> {
    /// Makes a Vob of the bits of some bytes, the least significant bit of each byte first: bit `i` is
    /// bit `i % 8` of byte `i / 8`. `from_bytes` takes the most significant one first. Fails if eight
    /// times the number of bytes exceeds `usize::MAX`. Fails if memory runs out; no bytes take none.
    ///
    /// ```
    /// let vob = Vob::from_le_bytes(alloc, &[0b0000_0101])?;
    /// assert_eq!(rt; vob.get(2), Some(true));
    /// ```
    pub fn from_le_bytes(alloc: Global, slice: &[u8]) -> Result<Vob<usize>, VobError>
        ensures bits { IfOk result (λ vob. vob.bits ≡ unpacking (8 * length slice.now) slice.now 8) }

        // `to_le_bytes` gives the same bytes back.
        ensures back { IfOk result (λ vob. packing vob.bits 8 ≡ slice.now) }
        ensures too_long { (result ≡ Err VobError.TooLong) ↔ (usize.MAX < 8 * length slice.now) }
        ensures past_end { result ≢ Err VobError.PastEnd }
        ensures nothing { slice.now ≡ [] → IsOk result }
    {
        if slice.len() > usize::MAX / 8 {
            return Err(VobError::TooLong);
        }
        // Each byte is below 256: a proof knows it from this call.
        u8::all_in_range(slice);
        let vec = low_byte_blocks(alloc, slice)?;
        Ok(Vob {
            len: 8 * slice.len(),
            vec,
        })
    }

    /// Returns the bytes of the bits, the least significant bit of each byte first: bit `i` is bit
    /// `i % 8` of byte `i / 8`. The unused bits of the last byte are 0. `from_le_bytes` reads them
    /// back, unused bits too. Fails if memory runs out; no bits take none.
    ///
    /// ```
    /// let vob = vob::vob!(alloc; true, false, true)?;
    /// assert_eq!(rt; vob.to_le_bytes(alloc)?.as_slice(), [0b101].as_slice());
    /// ```
    pub fn to_le_bytes(&self, alloc: Global) -> Result<Vec<u8>, AllocError>
        ensures bytes { IfOk result (λ bytes. bytes.items ≡ packing self.now.bits 8) }
        ensures count { IfOk result (λ bytes. length bytes.items ≡ need (length self.now.bits) 8) }

        // The unused bits are those past the length, which are false.
        ensures each { IfOk result (λ bytes.
            (i : ℕ) → bit_at bytes.items 8 i ≡ item self.now.bits i) }
        ensures nothing { self.now.bits ≡ [] → IsOk result }
    {
        low_block_bytes(alloc, self.vec.as_slice(), self.len)
    }
}
