//! Laws of Vobs as sets of indices: ranks, differences, runs and combined walks.
ghost use Rattle.vob_laws.specs.SetLaws.{CombinedMatchesExactly, CombinedWalkIsOwn, DifferenceIsAndNot};
ghost use Rattle.vob_laws.specs.SetLaws.{NoneIsCounted, RankUndoesSelect, RoomLiesInOneRun, RunsAreMaximal};
ghost use Rattle.vob_laws.specs.SetLaws.{SelectUndoesRank, UnsetRunsAreMaximal, WalkGivesRuns};

/// The rank of an index that `select` gave is the number that it was given for.
pub fn rank_undoes_select()
    ensures { RankUndoesSelect }
{}

/// What `select` gives for the rank of a set bit is that bit's index.
pub fn select_undoes_rank()
    ensures { SelectUndoesRank }
{}

/// A difference is "and" with the other negated, so `and_not` leaves what `and` with a negated copy
/// leaves.
pub fn difference_is_and_not()
    ensures { DifferenceIsAndNot }
{}

/// Bits are all unset exactly if no set one is counted. So `is_disjoint` returns true exactly if
/// `count_and` returns 0, and `is_subset` exactly if `count_and_not` does.
pub fn none_is_counted()
    ensures { NoneIsCounted }
{}

/// The list that `runs()` gives has each run once, in order and as long as it can be, and no other
/// list has. So the set bits are those of its ranges.
pub fn runs_are_maximal()
    ensures { RunsAreMaximal }
{}

/// Each range that `unset_runs()` gives has unset bits alone, and those beside it are set or not
/// there.
pub fn unset_runs_are_maximal()
    ensures { UnsetRunsAreMaximal }
{}

/// A walk over runs that begins at index 0 and goes on up to `None` gives each run once, in order.
pub fn walk_gives_runs()
    ensures { WalkGivesRuns }
{}

/// Unset bits in a row lie within one of the ranges that `unset_runs()` gives, if there are some.
pub fn room_lies_in_one_run()
    ensures { RoomLiesInOneRun }
{}

/// A walk over two Vobs combined gives an index exactly if it is below the length, and its two bits
/// make a set one. `intersection` wants both set, and `union` either. `difference` wants the first
/// alone, and `symmetric_difference` exactly one.
pub fn combined_matches_exactly()
    ensures { CombinedMatchesExactly }
{}

/// The walk that `intersection` returns is the one over the set bits that `and` leaves. So it is
/// for `union` and `or`, `difference` and `and_not`, `symmetric_difference` and `xor`.
pub fn combined_walk_is_own()
    ensures { CombinedWalkIsOwn }
{}
