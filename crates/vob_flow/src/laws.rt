//! The laws of the solver. Each function does nothing: its contract is the law.
ghost use Rattle.vob_flow.specs.Laws.{GreatestIsGreatestSolution, LeastIsLeastSolution};

/// The sets that `least` leaves are within those of every solution, so they are the least solution.
pub fn least_is_least_solution()
    ensures { LeastIsLeastSolution }
{}

/// The sets that `greatest` leaves have what every solution has, so they are the greatest solution.
pub fn greatest_is_greatest_solution()
    ensures { GreatestIsGreatestSolution }
{}
