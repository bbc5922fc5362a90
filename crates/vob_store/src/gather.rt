//! Items of an iterator put into blocks: as many as a block has room for are gathered first, and then
//! stored.
ghost use Rattle.std.specs.Prelude.{◌≡◌, ◌+◌, ◌≤◌, ◌++◌, Bool, List, length, map};
ghost use Rattle.std.specs.Bool.{OnFalse};
ghost use Rattle.std.specs.Iterator.{IsFinite};
ghost use Rattle.vob_block.specs.Packing.{unpacking, IsCanonical, Stores};
ghost use Rattle.vob_store.specs.Gathering.{Gathers, Gives, GoesOn};

use crate::last::extend_last;
use crate::single::first_place;
use vob_block::BitBlock;

/// Items in the first places of a block.
#[derive(Drop)]
struct Gathered<T> {
    block: T,
    taken: Taken,
}

/// Items that were taken from an iterator.
#[derive(Clone, Copy)]
pub struct Taken {
    /// The number of items.
    pub count: usize,
    /// Whether the iterator ended.
    pub ended: bool,
}

/// Takes items until there are `room` of them or the iterator ends.
fn gather<T: BitBlock, I: Iterator<Item = bool>>(items: &mut I, room: usize) -> Gathered<T>
    requires room { room ≤ T.BITS }
    requires can { I.can_next items.old }
    requires ends { IsFinite (I.remaining items.old) }
    ensures gathered { Gathers I.next_gives items.old items.new room T.BITS
        (T.number result.block) result.taken.count result.taken.ended }
    ensures goes_on { OnFalse result.taken.ended
        (GoesOn I.can_next I.remaining items.old items.new) }
{
    let mut block = T::ZERO;
    for count in 0..room {
        let Some(bit) = items.next() else {
            let taken = Taken { count, ended: true };
            return Gathered { block, taken };
        };
        let mark: T = first_place(bit);
        block = block.bor(mark.up(count));
    }
    let taken = Taken {
        count: room,
        ended: false,
    };
    Gathered { block, taken }
}

/// Takes items for the places that the last block has left, and puts them there.
pub fn fill_last<T: BitBlock, I: Iterator<Item = bool>>(
    blocks: &mut [T],
    len: usize,
    items: &mut I,
) -> Taken
    requires canonical { IsCanonical len (map T.number blocks.old) T.BITS }
    requires can { I.can_next items.old }
    requires ends { IsFinite (I.remaining items.old) }
    ensures fits { len + result.count ≤ usize.MAX }
    ensures added { (bits : List Bool) × (length bits ≡ result.count)
        × Gives I.next_gives items.old bits items.new result.ended
        × Stores T.BITS (len + result.count) (map T.number blocks.new)
        (unpacking len (map T.number blocks.old) T.BITS ++ bits) }
    ensures goes_on { OnFalse result.ended
        (GoesOn I.can_next I.remaining items.old items.new) }
{
    let width = T::BITS;
    let used = len % width;
    if used == 0 {
        return Taken {
            count: 0,
            ended: false,
        };
    }
    let room = (width - used).min(usize::MAX - len);
    let Gathered { block, taken } = gather(items, room);
    extend_last(blocks, len, block);
    taken
}
