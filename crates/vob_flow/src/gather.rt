//! What is in some of many sets, or in all of them.
ghost use Rattle.std.specs.Prelude.{◌≡◌, ◌<◌, ℕ, [], length, slice_index_or, All};
ghost use Rattle.vob_flow.specs.Changes.{Becomes, EachBecomes, Gets};
ghost use Rattle.vob_flow.specs.Draws.{HaveShape, IsIn, IsInSome};
ghost use Rattle.vob_flow.specs.Gathered.{AreGathered};
ghost use Rattle.vob_flow.specs.Greatest.{IsInAll};

use vob_rows::{BitRows, Graph};

/// Adds to a set what is in some of the sets with these numbers.
fn gather(sums: &mut BitRows, sum: usize, from: &[usize], sets: &BitRows)
    requires sum { sum < length sums.old.rows }
    requires from { All (λ m. m < length sets.now.rows) from.now }
    requires columns { sums.old.columns ≡ sets.now.columns }
    ensures got { Gets sums.old.rows sum (IsInSome sets.now.rows from.now) sums.new.rows }
    ensures columns { sums.new.columns ≡ sums.old.columns }
{
    // Each set is as long as there are columns: a proof knows it from these calls.
    let _columns = sets.columns();
    for set in from {
        let _columns = sums.columns();
        sums.or_with(sum, &sets.row(*set));
    }
}

/// Adds to each of some empty sets what is in some of the sets that its node's edges lead to.
pub(crate) fn gather_each(sums: &mut BitRows, graph: &Graph, sets: &BitRows)
    requires count { length graph.now ≡ length sums.old.rows }
    requires nodes { length graph.now ≡ length sets.now.rows }
    requires columns { sums.old.columns ≡ sets.now.columns }
    requires empty { (n v : ℕ) → ¬ IsIn sums.old.rows n v }
    ensures gathered { AreGathered graph.now sets.now.rows sums.new.rows }
    ensures shape { HaveShape sums.old.rows sums.new.rows }
    ensures columns { sums.new.columns ≡ sums.old.columns }
{
    for sum in 0..graph.nodes() {
        gather(sums, sum, graph.next(sum), sets);
    }
}

/// Makes a set what is in each of the sets with these numbers; in each of none is everything.
fn intersect(commons: &mut BitRows, common: usize, from: &[usize], sets: &BitRows)
    requires common { common < length commons.old.rows }
    requires from { All (λ m. m < length sets.now.rows) from.now }
    requires columns { commons.old.columns ≡ sets.now.columns }
    ensures common { Becomes commons.old.rows common (IsInAll sets.now.rows from.now) commons.new.rows }
    ensures columns { commons.new.columns ≡ commons.old.columns }
{
    // Each set is as long as there are columns: a proof knows it from these calls.
    let _columns = sets.columns();
    let _lengths = commons.columns();
    commons.fill_row(common, true);
    for set in from {
        let _columns = commons.columns();
        commons.and_with(common, &sets.row(*set));
    }
}

/// Makes each set what is in each of the sets that its node's edges lead to.
pub(crate) fn intersect_each(commons: &mut BitRows, graph: &Graph, sets: &BitRows)
    requires count { length graph.now ≡ length commons.old.rows }
    requires nodes { length graph.now ≡ length sets.now.rows }
    requires columns { commons.old.columns ≡ sets.now.columns }
    ensures common { EachBecomes commons.old.rows
        (λ n. IsInAll sets.now.rows (slice_index_or graph.now n [])) commons.new.rows
        (length graph.now) }
    ensures columns { commons.new.columns ≡ commons.old.columns }
{
    for common in 0..graph.nodes() {
        intersect(commons, common, graph.next(common), sets);
    }
}
