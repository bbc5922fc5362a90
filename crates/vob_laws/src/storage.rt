//! Laws of storage: how many blocks bits need, and that canonical ones are the packing.
ghost use Rattle.vob_laws.specs.PackingLaws.{CanonicalIsPacked, LoadGivesStored, LowBytesGiveBits};
ghost use Rattle.vob_laws.specs.PackingLaws.{NeedIsLeast};

/// The blocks that `n` bits need hold them, and no fewer blocks do.
pub fn need_is_least()
    ensures { NeedIsLeast }
{}

/// Storage is canonical exactly if its blocks are as many as its bits need, and are the packing of
/// the bits that they hold.
pub fn canonical_is_packed()
    ensures { CanonicalIsPacked }
{}

/// What `load` returns of a range after a `store` there is the stored block's remainder by `2^n`,
/// for a range of `n` bits. So it is the block itself where the places from `n` on are unset.
pub fn load_gives_stored()
    ensures { LoadGivesStored }
{}

/// The bytes of a list hold its bits, and then as many unset ones as fill the last byte. So
/// `from_le_bytes` of what `to_le_bytes` gave, cut at the length, has the bits, if both succeed.
pub fn low_bytes_give_bits()
    ensures { LowBytesGiveBits }
{}
