//! Laws of calls that move bits: shifts, rotations, and bits that are put in and taken out.
ghost use Rattle.vob_laws.specs.MoveLaws.{DownAfterUp, FlipTwice, InsertUndoesRemove};
ghost use Rattle.vob_laws.specs.MoveLaws.{RemoveUndoesInsert, ReverseTwice, RotateBack, RotateByLengths};
ghost use Rattle.vob_laws.specs.MoveLaws.{RotationsAdd, UpAfterDown};

/// Flipping a bit twice leaves the list. So two calls of `flip` with one index leave the bits.
pub fn flip_twice()
    ensures { FlipTwice }
{}

/// Bits moved up by `n` and down again are as they were, but for the last `n`, which are unset. So
/// `shl` and then `shr` by one count drop those that passed the length, and no other.
pub fn down_after_up()
    ensures { DownAfterUp }
{}

/// Bits moved down by `n` and up again are as they were, but for the first `n`, which are unset. So
/// it is for `shr` and then `shl` by one count.
pub fn up_after_down()
    ensures { UpAfterDown }
{}

/// Reversing a list twice leaves it, and so do two calls of `reverse`.
pub fn reverse_twice()
    ensures { ReverseTwice }
{}

/// A list rotated by `n` and back is the list. So `rotate_left` and `rotate_right` by one count
/// undo each other, in either order and at any count.
pub fn rotate_back()
    ensures { RotateBack }
{}

/// A rotation either way by a multiple of the length leaves the list.
pub fn rotate_by_lengths()
    ensures { RotateByLengths }
{}

/// Two rotations one way are one by the sum of both counts, as a whole number. So they commute.
pub fn rotations_add()
    ensures { RotationsAdd }
{}

/// Removing the bit that `insert_bit` put in returns it and leaves the list as it was before.
pub fn remove_undoes_insert()
    ensures { RemoveUndoesInsert }
{}

/// Inserting the bit that `remove` returned at its index leaves the list as it was before.
pub fn insert_undoes_remove()
    ensures { InsertUndoesRemove }
{}
