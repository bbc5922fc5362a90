//! Matrices of bits, one row after another, each in as many words as its bits need. Bit j of row i says
//! whether an edge leads from node i to node j.
ghost use Rattle.std.specs.Prelude.{◌≡◌, ◌≢◌, ◌↔◌, ◌+◌, ◌<◌, Bool, List, IsTrue};
ghost use Rattle.vob_matrix.specs.Matrix.{AreClosed};
ghost use Rattle.vob_matrix.specs.MatrixPaths.{IsLedThrough};
ghost use Rattle.vob_c.specs.Gains.{HaveGained};
ghost use Rattle.vob_c.specs.Rows.{AreCanonicalRows, HasRowWords, rows_in};
ghost use Rattle.vob_c.specs.Status.{TellsWords};

use crate::rows::{add_row, status_of_rows, words_at};
use crate::status::OK;
use vob_store::room::block_count;
use vob_store::single::stored_bit;

/// Adds row `through` to another if that has an edge to this node, and returns whether a bit changed.
fn lead_row(words: &mut [usize], size: usize, row: usize, through: usize) -> bool
    requires canonical { AreCanonicalRows size size words.old }
    requires row { row < size }
    requires through { through < size }
    ensures canonical { AreCanonicalRows size size words.new }
    ensures led { (rows : List (List Bool))
        → IsLedThrough rows through 0 row (rows_in size size words.old)
        → IsLedThrough rows through 0 (row + 1) (rows_in size size words.new) }
    ensures gained { HaveGained result (rows_in size size words.old) (rows_in size size words.new) }
{
    let count = block_count::<usize>(size);
    if row == through || !stored_bit(words_at(words, count, row), size, through) {
        return false;
    }
    add_row(words, count, row, through)
}

/// Adds row `through` to each row with an edge to this node, and returns whether a bit changed.
fn lead_through(words: &mut [usize], size: usize, through: usize) -> bool
    requires canonical { AreCanonicalRows size size words.old }
    requires through { through < size }
    ensures canonical { AreCanonicalRows size size words.new }
    ensures led { IsLedThrough (rows_in size size words.old) through 0 size
        (rows_in size size words.new) }
    ensures gained { HaveGained result (rows_in size size words.old) (rows_in size size words.new) }
{
    let mut changed = false;
    for row in 0..size {
        changed |= lead_row(words, size, row, through);
    }
    changed
}

/// Makes each row hold all nodes that its node leads to, by Warshall's algorithm, and returns whether a
/// bit changed. After turn k it holds what paths through the nodes up to k lead to.
fn close_rows(words: &mut [usize], size: usize) -> bool
    requires { AreCanonicalRows size size words.old }
    ensures canonical { AreCanonicalRows size size words.new }
    ensures closed { AreClosed (rows_in size size words.old) (rows_in size size words.new) }
    ensures gained { HaveGained result (rows_in size size words.old) (rows_in size size words.new) }
{
    let mut changed = false;
    for through in 0..size {
        changed |= lead_through(words, size, through);
    }
    changed
}

/// Makes bit j of row i true wherever a path of one edge or more leads from node i to node j, of a matrix
/// of `size` rows of `size` bits. Says whether a bit changed: if none did, the relation was transitive.
#[tactic(auto, using(crate::proofs::GainLemmas::gained_flag))]
#[unsafe(no_mangle)]
pub extern "C" fn conthiral_close(words: &mut [usize], size: usize, changed: &mut bool) -> u8
    ensures status { TellsWords result (HasRowWords size size words.old)
        (AreCanonicalRows size size words.old) }
    ensures canonical { result ≡ 0 → AreCanonicalRows size size words.new }
    ensures closed { result ≡ 0
        → AreClosed (rows_in size size words.old) (rows_in size size words.new) }
    ensures changed { result ≡ 0 → (IsTrue changed.new
        ↔ (rows_in size size words.new ≢ rows_in size size words.old)) }
    ensures refused { result ≢ 0 → (words.new ≡ words.old) × (changed.new ≡ changed.old) }
{
    let status = status_of_rows(words, size, size);
    if status != OK {
        return status;
    }
    *changed = close_rows(words, size);
    OK
}
