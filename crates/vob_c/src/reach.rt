//! The nodes of a graph to which paths lead from some of them.
ghost use Rattle.std.specs.Prelude.{◌≡◌, ◌≢◌, ◌<◌, ◌||◌, false, true, replicate, slice_set};
ghost use Rattle.vob_block.specs.Packing.{unpacking, IsCanonical, Stores};
ghost use Rattle.vob_block.specs.Pointwise.{pointwise};
ghost use Rattle.vob_rows.specs.Rows.{row_of};
ghost use Rattle.vob_c.specs.Reached.{AreReachedFrom, IsNextTurn};
ghost use Rattle.vob_c.specs.Rows.{AreCanonicalRows, HasRowWords, rows_in};
ghost use Rattle.vob_c.specs.Status.{HasWords, TellsWords};

use crate::rows::{are_canonical, has_row_words, words_at};
use crate::status::{LENGTH, NOT_CANONICAL, OK};
use vob_block::{Blocks, Kernel, Or, Without};
use vob_store::canonical::is_canonical;
use vob_store::fill::fill;
use vob_store::first::first_combined;
use vob_store::mask::mask_last;
use vob_store::room::block_count;
use vob_store::single::write_bit;

/// Makes each bit false, whatever the words hold.
fn blank(words: &mut [usize], bits: usize)
    requires { HasWords bits words.old }
    ensures { Stores 64 bits words.new (replicate bits false) }
{
    mask_last(words, bits);
    fill(words, bits, false);
}

/// Returns the first node that was reached and had no turn, or `size` if there is none.
fn next_turn(reached: &[usize], turned: &[usize], size: usize) -> usize
    requires reached { IsCanonical size reached.now 64 }
    requires turned { IsCanonical size turned.now 64 }
    ensures { IsNextTurn size (unpacking size reached.now 64) (unpacking size turned.now 64) result }
{
    let found = first_combined::<Without, usize>(reached, &mut Blocks::new(turned));
    found.unwrap_or(size)
}

/// Marks the nodes to which a node's edges lead as reached: it has its turn.
fn take_turn(words: &[usize], size: usize, reached: &mut [usize], turned: &mut [usize], node: usize)
    requires words { AreCanonicalRows size size words.now }
    requires reached { IsCanonical size reached.old 64 }
    requires turned { IsCanonical size turned.old 64 }
    requires node { node < size }
    ensures reached { Stores 64 size reached.new (pointwise ◌||◌ (unpacking size reached.old 64)
        (row_of (rows_in size size words.now) node)) }
    ensures turned { Stores 64 size turned.new
        (slice_set (unpacking size turned.old 64) node true) }
{
    write_bit(turned, size, node, true);
    let row = words_at(words, block_count::<usize>(size), node);
    usize::combine_into::<Or>(reached, &mut Blocks::new(row));
}

/// Marks all nodes to which paths lead, one after another. No node had its turn.
fn spread(words: &[usize], size: usize, reached: &mut [usize], turned: &mut [usize])
    requires words { AreCanonicalRows size size words.now }
    requires reached { IsCanonical size reached.old 64 }
    requires turned { Stores 64 size turned.old (replicate size false) }
    ensures canonical { IsCanonical size reached.new 64 }
    ensures reached { AreReachedFrom (rows_in size size words.now) (unpacking size reached.old 64)
        (unpacking size reached.new 64) }
{
    let mut node = next_turn(reached, turned, size);
    'turns: while node < size {
        take_turn(words, size, reached, turned, node);
        node = next_turn(reached, turned, size);
    }
}

/// Adds to the set `reached` each node to which a path of edges leads from a node of it, in a matrix of
/// `size` rows of `size` bits. `turned` has as many words as `reached`: room to work in, whatever it holds.
#[unsafe(no_mangle)]
pub extern "C" fn conthiral_reach(
    words: &[usize],
    size: usize,
    reached: &mut [usize],
    turned: &mut [usize],
) -> u8
    ensures status { TellsWords result
        (HasRowWords size size words.now × HasWords size reached.old × HasWords size turned.old)
        (AreCanonicalRows size size words.now × IsCanonical size reached.old 64) }
    ensures canonical { result ≡ 0 → IsCanonical size reached.new 64 }
    ensures reached { result ≡ 0 → AreReachedFrom (rows_in size size words.now)
        (unpacking size reached.old 64) (unpacking size reached.new 64) }
    ensures refused { result ≢ 0 → (reached.new ≡ reached.old) × (turned.new ≡ turned.old) }
{
    let count = block_count::<usize>(size);
    if !has_row_words(words, size, size) || reached.len() != count || turned.len() != count {
        return LENGTH;
    }
    if !are_canonical(words, size, size) || !is_canonical(reached, size) {
        return NOT_CANONICAL;
    }
    blank(turned, size);
    spread(words, size, reached, turned);
    OK
}
