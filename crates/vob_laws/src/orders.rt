//! Laws of the order of two Vobs.
ghost use Rattle.vob_laws.specs.OrderLaws.{OrderIsStrict, OrderIsTotal, OrderIsTransitive};

/// Of two lists one comes before the other, or they are equal.
pub fn order_is_total()
    ensures { OrderIsTotal }
{}

/// Two lists compare as `Equal` exactly if they are equal, and as `Greater` exactly if the other
/// comes first. So `cmp` returns `Equal` exactly if `==` is true.
pub fn order_is_strict()
    ensures { OrderIsStrict }
{}

/// A list that comes before another comes before all that the other comes before. So Vobs can be
/// sorted.
pub fn order_is_transitive()
    ensures { OrderIsTransitive }
{}
