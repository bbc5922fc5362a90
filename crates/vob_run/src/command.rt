//! The commands that `run` and `run_usize` take, and the replies that they give.
use std::ops::Bound;
use vob::End;

/// A call on numbered Vobs. `which` and `other` are numbers of Vobs, counted from 0 in the order of
/// the list; lengths, indices and capacities are in bits. A Vob that is made comes at the end of
/// the list. vob 4.0.1 has no commands.
#[derive(Debug, Drop)]
pub enum Command<T> {
    /// Makes an empty Vob with room for `capacity` bits: `Vob::new_with_storage_type`.
    New {
        capacity: usize,
    },
    /// Makes a Vob of `len` times `value`: `Vob::from_elem_with_storage_type`.
    FromElem {
        value: bool,
        len: usize,
    },
    /// Makes a Vob with the same bits: `Vob::clone`.
    Copy {
        which: usize,
    },
    /// Makes a Vob of `len` bits in a copy of these blocks, by `RawVob::from_parts` and `into_vob`.
    /// If `mask`, and if the length needs as many blocks, `mask_last_block` is called between them.
    /// `Refused(3)` if the blocks are not the length's canonical ones.
    FromRaw {
        len: usize,
        mask: bool,
        blocks: Vec<T>,
    },
    /// Appends a bit: `Vob::push`.
    Push {
        which: usize,
        value: bool,
    },
    /// Takes the last bit off: `Vob::pop`.
    Pop {
        which: usize,
    },
    /// Reads a bit: `Vob::get`.
    GetBit {
        which: usize,
        index: usize,
    },
    /// Reads a bit below the length: `Vob::get_unchecked`. Skipped past the end.
    GetUnchecked {
        which: usize,
        index: usize,
    },
    /// Reads a bit below the length: `Index`. Skipped past the end.
    IndexBit {
        which: usize,
        index: usize,
    },
    /// Writes a bit below the length: `Vob::set`. Skipped past the end.
    SetBit {
        which: usize,
        index: usize,
        value: bool,
    },
    /// Writes a bit below the length: `Vob::set_unchecked`. Skipped past the end.
    SetUnchecked {
        which: usize,
        index: usize,
        value: bool,
    },
    /// Counts the bits: `Vob::len`.
    Length {
        which: usize,
    },
    /// Returns whether there are no bits: `Vob::is_empty`.
    IsEmpty {
        which: usize,
    },
    /// Keeps the first `len` bits: `Vob::truncate`.
    Truncate {
        which: usize,
        len: usize,
    },
    /// Takes off all bits: `Vob::clear`.
    Clear {
        which: usize,
    },
    /// Makes every bit `value`: `Vob::set_all`.
    SetAll {
        which: usize,
        value: bool,
    },
    /// Negates every bit: `Vob::negate`.
    Negate {
        which: usize,
    },
    /// Cuts the bits to `len`, or adds bits of `value` up to `len`: `Vob::resize`.
    Resize {
        which: usize,
        len: usize,
        value: bool,
    },
    /// Appends these bits: `Vob::extend_from_slice`.
    ExtendSlice {
        which: usize,
        bits: Vec<bool>,
    },
    /// Appends these bits one by one, once there is room for all of them:
    /// `Vob::reserve` and `Vob::extend`.
    ExtendItems {
        which: usize,
        bits: Vec<bool>,
    },
    /// Appends the bits of another Vob: `Vob::extend_from_vob`. Skipped if both
    /// numbers are the same.
    ExtendVob {
        which: usize,
        other: usize,
    },
    /// Keeps the bits below `index`, and makes a Vob of the others: `Vob::split_off`. `Refused(4)`
    /// if `index` is past the end.
    SplitOff {
        which: usize,
        index: usize,
    },
    /// Takes the bits of a range out, and makes a Vob of them: `Vob::drain`.
    Drain {
        which: usize,
        bounds: (Bound<usize>, Bound<usize>),
    },
    /// Keeps the bits that both have: `Vob::and`. Skipped if the numbers are the same or the
    /// lengths differ.
    And {
        which: usize,
        other: usize,
    },
    /// Adds the bits that the other has: `Vob::or`. Skipped if the numbers are the same or the
    /// lengths differ.
    Or {
        which: usize,
        other: usize,
    },
    /// Keeps the bits that exactly one has: `Vob::xor`. Skipped if the numbers are
    /// the same or the lengths differ.
    Xor {
        which: usize,
        other: usize,
    },
    /// Makes a Vob of the bits that both have: `&` on two references. Skipped if
    /// the numbers are the same or the lengths differ.
    AndNew {
        which: usize,
        other: usize,
    },
    /// Makes a Vob of the bits that either has: `|` on two references. Skipped if
    /// the numbers are the same or the lengths differ.
    OrNew {
        which: usize,
        other: usize,
    },
    /// Makes a Vob of the bits that exactly one has: `^` on two references. Skipped if the numbers
    /// are the same or the lengths differ.
    XorNew {
        which: usize,
        other: usize,
    },
    /// Returns whether both have the same bits: `==`. Skipped if the numbers are the same.
    Equal {
        which: usize,
        other: usize,
    },
    /// Makes room for `additional` bits more: `Vob::reserve`.
    Reserve {
        which: usize,
        additional: usize,
    },
    /// Gives unused room back: `Vob::shrink_to_fit`.
    Shrink {
        which: usize,
    },
    /// Reads all bits: `Vob::iter`.
    Bits {
        which: usize,
    },
    /// Reads all blocks: `Vob::iter_storage`.
    Storage {
        which: usize,
    },
    /// Pulls at a walk over the indices within a range whose bits are `value`, at one end after
    /// another: `Vob::iter_set_bits` or `Vob::iter_unset_bits`, and `deal`.
    Walk {
        which: usize,
        value: bool,
        bounds: (Bound<usize>, Bound<usize>),
        pulls: Vec<End>,
    },
    /// Counts the indices that the same walk gives: its `count`.
    Count {
        which: usize,
        value: bool,
        bounds: (Bound<usize>, Bound<usize>),
    },
}

/// A call on numbered Vobs of the default block type, also by the calls that only these have.
#[derive(Debug, Drop)]
pub enum UsizeCommand {
    /// A call that Vobs of every block type have.
    Common(Command<usize>),
    /// Makes an empty Vob: `Vob::new`.
    Fresh,
    /// Makes an empty Vob with room for `capacity` bits: `Vob::with_capacity`.
    WithCapacity { capacity: usize },
    /// Makes a Vob of `len` times `value`: `Vob::from_elem`.
    Fill { value: bool, len: usize },
    /// Makes a Vob of the bits of these bytes, the most significant bit of each byte first:
    /// `Vob::from_bytes`.
    FromBytes { bytes: Vec<u8> },
    /// Makes a Vob of these bits: `Vob::from_slice`.
    FromSlice { bits: Vec<bool> },
    /// Makes a Vob of these bits, taken one by one: `Vob::from_iter`.
    FromItems { bits: Vec<bool> },
    /// Makes a Vob of `len` bits in a copy of these blocks: `VobRecord::into_vob`. `Refused(3)`
    /// if the blocks are not the length's canonical ones.
    FromRecord { len: usize, blocks: Vec<usize> },
}

/// What a command returns.
#[derive(Debug, PartialEq, Drop)]
pub enum Reply<T> {
    /// The call was made, and returns nothing.
    Done,
    /// A bit, or `None` if the index is past the end or there is nothing to pop.
    Bit(Option<bool>),
    /// The bit at an index that has to be there, whether something is so, or whether a bit changed.
    Flag(bool),
    /// A count.
    Number(usize),
    /// The number of the Vob that was made.
    Made(usize),
    /// All bits, index 0 first.
    BitList(Vec<bool>),
    /// All blocks, the one with bit 0 first.
    BlockList(Vec<T>),
    /// An index for each pull, or `None` if no index was left.
    Dealt(Vec<Option<usize>>),
    /// No Vob has that number, or the call's condition doesn't hold; nothing was done.
    Skipped,
    /// The call was refused, and all Vobs are as they were. The numbers are those of
    /// `VobError::number`, or 3 for blocks that aren't the canonical ones of their length.
    Refused(u8),
}
