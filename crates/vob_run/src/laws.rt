//! What runs obey, stated over lists alone. The functions do nothing.
ghost use Rattle.vob_run.specs.Widths.{RunIsItsSteps, SameAtEveryWidth};

/// A run that speaks of no blocks, and in which memory never ran out, is the steps of its commands
/// one after another. No block width occurs in them.
pub fn run_is_its_steps()
    ensures { RunIsItsSteps }
{}

/// Commands that speak of no blocks have the same replies at every block type and leave the same
/// lists, unless memory runs out.
pub fn same_at_every_width()
    ensures { SameAtEveryWidth }
{}
