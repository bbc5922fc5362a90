//! What follows from the contracts. Each function does nothing: its contract is the law.
ghost use Rattle.vob_arrays.specs.Ends.{EndsAreOne};

use vob_lr::laws::steps_are_one;

/// A parser ends in one way. So `Arrays::parse` returns rules exactly if the table accepts by them, if they
/// are no more than are allowed and memory doesn't run out.
pub fn ends_are_one()
    ensures { EndsAreOne }
{
    steps_are_one();
}
