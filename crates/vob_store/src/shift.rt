//! Bits moved within some blocks: those of a stretch written over those from another index on, as if
//! all of them were read first.
ghost use Rattle.std.specs.Prelude.{◌+◌, ◌*◌, ◌%◌, ◌^◌, ◌<◌, ◌≤◌, ◌≡◌, All, drop, length, map, take};
ghost use Rattle.vob_store.specs.Copying.{AreCopied};

use crate::load_store::{Stretch, bits_at, write_part};
use vob_block::{BitBlock, Blocks};

/// Writes the bits of a stretch over those from `at` on, in one block.
fn move_part<T: BitBlock>(own: &mut [T], at: usize, cut: Stretch)
    requires one { at % T.BITS + cut.count ≤ T.BITS }
    requires inside { at + cut.count ≤ length own.old * T.BITS }
    ensures { AreCopied T.BITS at cut.start cut.count (map T.number own.old)
        (map T.number own.old) (map T.number own.new) }
{
    let bits = bits_at(&mut Blocks::new(own), cut.start);
    write_part(own, at, bits, cut.count);
}

/// Stores the blocks of the bits from place `places` of block `from` on, from block `first` on, the
/// first one first.
fn move_each_down<T: BitBlock>(
    own: &mut [T],
    first: usize,
    from: usize,
    places: usize,
    count: usize,
)
    requires positive { 0 < places }
    requires below { places < T.BITS }
    requires order { first ≤ from }
    requires inside { from + count < length own.old }
    ensures { AreCopied T.BITS (first * T.BITS) (from * T.BITS + places) (count * T.BITS)
        (map T.number own.old) (map T.number own.old) (map T.number own.new) }
{
    for k in 0..count {
        own[first + k] = own[from + k].funnel_down(own[from + k + 1], places);
    }
}

/// The same, the last one first.
fn move_each_up<T: BitBlock>(own: &mut [T], first: usize, from: usize, places: usize, count: usize)
    requires positive { 0 < places }
    requires below { places < T.BITS }
    requires order { from < first }
    requires inside { first + count ≤ length own.old }
    ensures { AreCopied T.BITS (first * T.BITS) (from * T.BITS + places) (count * T.BITS)
        (map T.number own.old) (map T.number own.old) (map T.number own.new) }
{
    for done in 0..count {
        let k = count - 1 - done;
        own[first + k] = own[from + k].funnel_down(own[from + k + 1], places);
    }
}

/// Returns the eight blocks from `k` on.
#[inline(always)]
fn eight_blocks<T: BitBlock>(own: &[T], k: usize) -> [T; 8]
    requires { k + 8 ≤ length own.now }
    ensures { result ≡ take 8 (drop k own.now) }
{
    Blocks::new(own).chunk(k)
}

/// Stores eight blocks of the bits from place `places` of block `from` on, from block `first` on. All
/// are read before one is written, so a compiler makes several at once.
#[inline(always)]
fn move_eight<T: BitBlock>(own: &mut [T], first: usize, from: usize, places: usize)
    requires positive { 0 < places }
    requires below { places < T.BITS }
    requires room { first + 8 ≤ length own.old }
    requires inside { from + 8 < length own.old }
    ensures { AreCopied T.BITS (first * T.BITS) (from * T.BITS + places) (8 * T.BITS)
        (map T.number own.old) (map T.number own.old) (map T.number own.new) }
{
    let low = eight_blocks(own, from);
    let high = eight_blocks(own, from + 1);
    for j in 0..8 {
        own[first + j] = low[j].funnel_down(high[j], places);
    }
}

/// Stores so many times eight blocks, the first ones first.
fn move_eights_down<T: BitBlock>(
    own: &mut [T],
    first: usize,
    from: usize,
    places: usize,
    turns: usize,
)
    requires positive { 0 < places }
    requires below { places < T.BITS }
    requires order { first ≤ from }
    requires inside { from + turns * 8 < length own.old }
    ensures { AreCopied T.BITS (first * T.BITS) (from * T.BITS + places) (turns * 8 * T.BITS)
        (map T.number own.old) (map T.number own.old) (map T.number own.new) }
{
    for turn in 0..turns {
        move_eight(own, first + turn * 8, from + turn * 8, places);
    }
}

/// The same, the last ones first.
fn move_eights_up<T: BitBlock>(
    own: &mut [T],
    first: usize,
    from: usize,
    places: usize,
    turns: usize,
)
    requires positive { 0 < places }
    requires below { places < T.BITS }
    requires order { from < first }
    requires inside { first + turns * 8 ≤ length own.old }
    ensures { AreCopied T.BITS (first * T.BITS) (from * T.BITS + places) (turns * 8 * T.BITS)
        (map T.number own.old) (map T.number own.old) (map T.number own.new) }
{
    for done in 0..turns {
        let turn = turns - 1 - done;
        move_eight(own, first + turn * 8, from + turn * 8, places);
    }
}

/// Stores the blocks of the bits from place `places` of block `from` on, from block `first` on: eight
/// at a time, and then the rest.
fn move_down<T: BitBlock>(own: &mut [T], first: usize, from: usize, places: usize, count: usize)
    requires positive { 0 < places }
    requires below { places < T.BITS }
    requires order { first ≤ from }
    requires inside { from + count < length own.old }
    ensures { AreCopied T.BITS (first * T.BITS) (from * T.BITS + places) (count * T.BITS)
        (map T.number own.old) (map T.number own.old) (map T.number own.new) }
{
    let turns = count / 8;
    let done = turns * 8;
    move_eights_down(own, first, from, places, turns);
    move_each_down(own, first + done, from + done, places, count - done);
}

/// The same, the last ones first.
fn move_up<T: BitBlock>(own: &mut [T], first: usize, from: usize, places: usize, count: usize)
    requires positive { 0 < places }
    requires below { places < T.BITS }
    requires order { from < first }
    requires inside { first + count ≤ length own.old }
    ensures { AreCopied T.BITS (first * T.BITS) (from * T.BITS + places) (count * T.BITS)
        (map T.number own.old) (map T.number own.old) (map T.number own.new) }
{
    let turns = count / 8;
    let done = turns * 8;
    move_each_up(own, first + done, from + done, places, count - done);
    move_eights_up(own, first, from, places, turns);
}

/// Stores the blocks of a stretch, from block `first` on.
fn move_whole<T: BitBlock>(own: &mut [T], first: usize, blocks: Stretch)
    requires inside { first + blocks.count ≤ length own.old }
    requires source { blocks.start + blocks.count * T.BITS ≤ length own.old * T.BITS }
    ensures { AreCopied T.BITS (first * T.BITS) blocks.start (blocks.count * T.BITS)
        (map T.number own.old) (map T.number own.old) (map T.number own.new) }
{
    let width = T::BITS;
    let from = blocks.start / width;
    let places = blocks.start % width;
    if places == 0 {
        own.copy_within(from..from + blocks.count, first);
    } else if first <= from {
        move_down(own, first, from, places, blocks.count);
    } else {
        move_up(own, first, from, places, blocks.count);
    }
}

/// Writes the bits of a stretch over those from `at` on, as if all of them were read first. What is
/// written over others of them is written last.
pub fn move_bits<T: BitBlock>(own: &mut [T], at: usize, cut: Stretch)
    requires inside { at + cut.count ≤ length own.old * T.BITS }
    requires source { cut.start + cut.count ≤ length own.old * T.BITS }
    requires end { at + cut.count ≤ usize.MAX }
    requires source_end { cut.start + cut.count ≤ usize.MAX }
    ensures moved { AreCopied T.BITS at cut.start cut.count (map T.number own.old)
        (map T.number own.old) (map T.number own.new) }
    ensures within { All (λ n. n < 2 ^ T.BITS) (map T.number own.new) }
{
    let width = T::BITS;
    let Stretch { start, count } = cut;
    let head = count.min(width - at % width);
    let first = Stretch { start, count: head };
    let blocks = Stretch {
        start: start + head,
        count: (count - head) / width,
    };
    let done = head + blocks.count * width;
    let rest = Stretch {
        start: start + done,
        count: count - done,
    };
    if at <= start {
        move_part(own, at, first);
        move_whole(own, (at + head) / width, blocks);
        move_part(own, at + done, rest);
    } else {
        move_part(own, at + done, rest);
        move_whole(own, (at + head) / width, blocks);
        move_part(own, at, first);
    }
    T::all_in_range(own);
}
