//! The law of closures and powers. Its function does nothing: its contract is the law.
ghost use Rattle.vob_matrix.specs.Products.{ClosureIsOfPowers};

/// The closure of a square matrix has entry (i, j) exactly if some power above 0 has it. So what `close`
/// leaves is what `power(1)`, `power(2)` and so on give, taken together.
pub fn closure_is_of_powers()
    ensures { ClosureIsOfPowers }
{}
