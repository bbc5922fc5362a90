//! Laws of walks: each index and each run is given once.
ghost use Rattle.vob_walk.specs.Laws.{FirstMatchIsLeast, MatchesAddUp, MatchesAreCounted};
ghost use Rattle.vob_walk.specs.Laws.{MatchesAreFew, MatchesExactly, MatchesFillTheRange};
ghost use Rattle.vob_walk.specs.Laws.{MatchesRise, MatchesShareNoIndex, NoMatchIsNone};
ghost use Rattle.vob_walk.specs.Laws.{NoneIsForGood};
ghost use Rattle.vob_walk.specs.Once.{EachIsGivenOnce, MatchesAreGivenOnce, NoneComesLast};
ghost use Rattle.vob_walk.specs.RunsBack.{RunsAreGivenOnce, WalkBackGivesRuns};

/// A walk over runs that goes on from the back up to `None` gives each run once, the last one first.
pub fn walk_back_gives_runs()
    ensures { WalkBackGivesRuns }
{}

/// Pulls at both ends of a walk over runs give no run twice or in parts, and leave none out: the runs
/// are what the front gave, what is left, and what the back gave in reverse.
pub fn runs_are_given_once()
    ensures { RunsAreGivenOnce }
{}

/// No index matches both values, so walks over the set and the unset bits of one range give no index
/// both.
pub fn matches_share_no_index()
    ensures { MatchesShareNoIndex }
{}

/// Each index of a bit within a range matches one of the two values, and nothing else matches.
pub fn matches_fill_the_range()
    ensures { MatchesFillTheRange }
{}

/// So the indices that match either value are as many as those within the range.
pub fn matches_add_up()
    ensures { MatchesAddUp }
{}

/// An index is given if it is below the length and within the range, and its bit has the value.
pub fn matches_exactly()
    ensures { MatchesExactly }
{}

/// Each index that is given is above those before it.
pub fn matches_rise()
    ensures { MatchesRise }
{}

/// The first index that is given is that of a bit of the value, and no such bit of the range is
/// before it.
pub fn first_match_is_least()
    ensures { FirstMatchIsLeast }
{}

/// If no index is given, no bit within the range has the value.
pub fn no_match_is_none()
    ensures { NoMatchIsNone }
{}

/// Over all indices, as many are given as bits have the value.
pub fn matches_are_counted()
    ensures { MatchesAreCounted }
{}

/// No more indices are given than there are bits, so a count of them is no overflow.
pub fn matches_are_few()
    ensures { MatchesAreFew }
{}

/// A walk over indices that returned `None` at either end returns `None` at both from then on.
pub fn none_is_for_good()
    ensures { NoneIsForGood }
{}

/// What the front gave, what is left, and what the back gave in reverse are the list of the walk:
/// each index is given once.
pub fn each_is_given_once()
    ensures { EachIsGivenOnce }
{}

/// So at a walk that has given no index yet, they are the indices that match.
pub fn matches_are_given_once()
    ensures { MatchesAreGivenOnce }
{}

/// After a pull that gave `None` no index is left, and both ends together gave every index.
pub fn none_comes_last()
    ensures { NoneComesLast }
{}
