//! Raw storage: a length and blocks without a promise, and the tested way back to a Vob.
ghost use Rattle.std.specs.Prelude.{◌≡◌, ◌↔◌, map, length, IsTrue, IsOk, IfOk, IfErr};
ghost use Rattle.vob_block.specs.Packing.{need, packing, unpacking, IsCanonical};
ghost use Rattle.vob.specs.Serialized.{WritesBits};

use crate::vob::Vob;
use serde::{Described, Deserialize, Deserializer, Format, Serialize, Serializer};
use std::alloc::Global;
use std::marker::Model;
use vob_block::Kernel;
use vob_store::canonical::{is_canonical, mask};

/// Returns the Vob of `len` bits in these blocks if they are canonical, and the blocks if not.
fn vob_of_parts<T: Kernel>(len: usize, vec: Vec<T>) -> Result<Vob<T>, Vec<T>>
    ensures taken { IsOk result ↔ IsCanonical len (map T.number vec.items) T.BITS }
    ensures bits { IfOk result (λ vob. vob.bits ≡ unpacking len (map T.number vec.items) T.BITS) }
    ensures back { IfErr result (λ returned. returned ≡ vec) }
{
    if !is_canonical(vec.as_slice(), len) {
        return Err(vec);
    }
    Ok(Vob { len, vec })
}

/// A length in bits and some blocks, which needn't fit one another. vob 4.0.1 changes these in
/// the Vob itself, and tests nothing.
#[derive(Debug, Drop)]
pub struct RawVob<T> {
    len: usize,
    vec: Vec<T>,
}

impl<T> Model for RawVob<T> {
    ghost use Rattle.vob.specs.Raw.{RawStorage};

    ghost Value = { RawStorage T };

    ghost view = { λ raw. record { len = raw.len; blocks = raw.vec.items } };
}

impl<T: Kernel> RawVob<T> {
    ghost use Rattle.std.specs.Borrow.{Lends, sem};
    ghost use Rattle.vob.specs.contracts.raw.RawVob.{the_row};
    ghost use Rattle.vob.specs.RawLends.{blocks_row};

    /// Takes a length and some blocks as they are.
    pub fn from_parts(len: usize, vec: Vec<T>) -> RawVob<T>
        ensures len { result.len ≡ len }
        ensures blocks { result.blocks ≡ vec.items }
    {
        RawVob { len, vec }
    }

    /// Returns the length in bits.
    pub fn len(&self) -> usize
        ensures { result ≡ self.now.len }
    {
        self.len
    }

    /// Returns the blocks.
    pub fn get_storage(&self) -> &[T]
        ensures { result.now ≡ self.now.blocks }
    {
        self.vec.as_slice()
    }

    /// Returns the blocks, to be changed. The length stays. vob 4.0.1 has this as an unsafe call
    /// on the Vob.
    pub fn get_storage_mut(&mut self) -> &mut Vec<T>
        ensures blocks { result.now.items ≡ self.old.blocks }
        ensures* lends { sem 𝓛 (Lends (the_row T.row) (blocks_row T.row) self.entry result
            (λ w. record { len = self.old.len; blocks = w.items })) }
    {
        &mut self.vec
    }

    /// Sets the length, and leaves the blocks. vob 4.0.1 has this as an unsafe call on the Vob.
    pub fn set_len(&mut self, len: usize)
        ensures len { self.new.len ≡ len }
        ensures blocks { self.new.blocks ≡ self.old.blocks }
    {
        self.len = len;
    }

    /// Returns whether there are as many blocks as the length needs.
    pub fn fits(&self) -> bool
        ensures { IsTrue result ↔ (length self.now.blocks ≡ need self.now.len T.BITS) }
    {
        self.vec.len() == self.len.div_ceil(T::BITS)
    }

    /// Clears the unused bits of the last block. The blocks must fit the length; vob 4.0.1 panics
    /// if they don't, or masks another block.
    pub fn mask_last_block(&mut self)
        requires fits { length self.old.blocks ≡ need self.old.len T.BITS }
        ensures len { self.new.len ≡ self.old.len }
        ensures blocks { map T.number self.new.blocks
            ≡ packing (unpacking self.old.len (map T.number self.old.blocks) T.BITS) T.BITS }
    {
        mask(&mut self.vec, self.len);
    }

    /// Returns the Vob with these bits if the blocks fit and their unused bits are 0, and else
    /// this value again. Looks at the last block alone, and takes no memory.
    pub fn into_vob(self) -> Result<Vob<T>, RawVob<T>>
        ensures taken { IsOk result ↔ IsCanonical self.len (map T.number self.blocks) T.BITS }
        ensures bits { IfOk result (λ vob.
            vob.bits ≡ unpacking self.len (map T.number self.blocks) T.BITS) }
        ensures back { IfErr result (λ returned. returned ≡ self) }
    {
        match vob_of_parts(self.len, self.vec) {
            Ok(vob) => Ok(vob),
            Err(vec) => Err(RawVob { len: self.len, vec }),
        }
    }
}

impl<T: Kernel> Vob<T> {
    /// Returns the length and the blocks, with no promise from here on. Takes no memory.
    pub fn into_raw(self) -> RawVob<T>
        ensures len { result.len ≡ length self.bits }
        ensures blocks { map T.number result.blocks ≡ packing self.bits T.BITS }
    {
        RawVob {
            len: self.len,
            vec: self.vec,
        }
    }
}

/// A length in bits and some blocks, in the form in which serde writes a Vob. It is for a program
/// that wants refused storage back: `into_vob` returns it, and reading a Vob drops it with an
/// error. A record that was read promises nothing. vob 4.0.1 reads a Vob with any length and any
/// blocks.
#[derive(Debug, Drop, Serialize, Deserialize)]
pub struct VobRecord<T = usize> {
    /// The length in bits.
    pub len: usize,
    /// The blocks, the one with bit 0 first.
    pub vec: Vec<T>,
}

impl VobRecord {
    /// Returns the Vob with these bits if the blocks fit and their unused bits are 0, and else
    /// this record again. Looks at the last block alone, and takes no memory.
    pub fn into_vob(self) -> Result<Vob<usize>, VobRecord>
        ensures taken { IsOk result ↔ IsCanonical self.len self.vec.items 64 }
        ensures bits { IfOk result (λ vob. vob.bits ≡ unpacking self.len self.vec.items 64) }
        ensures back { IfErr result (λ returned. returned ≡ self) }
    {
        match vob_of_parts(self.len, self.vec) {
            Ok(vob) => Ok(vob),
            Err(vec) => Err(VobRecord { len: self.len, vec }),
        }
    }
}

impl Vob<usize> {
    /// Returns the length and the blocks, to be written. Takes no memory.
    pub fn into_record(self) -> VobRecord
        ensures len { result.len ≡ length self.bits }
        ensures blocks { result.vec.items ≡ packing self.bits 64 }
    {
        VobRecord {
            len: self.len,
            vec: self.vec,
        }
    }
}

impl<T: Kernel + Described> Described for Vob<T> {
    ghost writes = { λ vob. WritesBits T.writes T.number T.BITS vob.bits };
}

impl<T: Kernel + Serialize> Serialize for Vob<T> {
    /// Writes the length in bits and the blocks, as a `VobRecord` is written.
    fn serialize<S: Serializer>(&self, out: &mut S) -> Result<(), S::Error> {
        out.begin_map(Some(2))?;
        out.key("len")?;
        self.len.serialize(out)?;
        out.key("vec")?;
        self.vec.serialize(out)?;
        out.end_map()?;
        Ok(())
    }
}

impl<'de, T: Kernel + Deserialize<'de>> Deserialize<'de> for Vob<T> {
    /// Reads what `serialize` writes. It is an error of the format if `RawVob::into_vob` doesn't take
    /// that length and these blocks.
    fn deserialize<F: Format>(
        alloc: Global,
        from: &mut Deserializer<'de, '_, F>,
    ) -> Result<Vob<T>, F::Error> {
        let read = VobRecord::<T>::deserialize(alloc, from)?;
        match RawVob::from_parts(read.len, read.vec).into_vob() {
            Ok(vob) => Ok(vob),
            Err(_) => Err(from.custom("the blocks are not the storage of a Vob of that length")),
        }
    }
}
