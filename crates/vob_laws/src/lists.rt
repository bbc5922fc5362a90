//! Laws of calls that change lists of bits: what undoes what, and when two lists are equal.
ghost use Rattle.vob_laws.specs.Laws.{DigitsGiveBits, DrainFromIsSplit, EqualWhereListsAre};
ghost use Rattle.vob_laws.specs.Laws.{EqualWhereStorageIs, JoinIsPushes, JoinUndoesCut, NegateTwice};
ghost use Rattle.vob_laws.specs.Laws.{NegatedAnd, PointwiseChangesBits, SetChangesBit};
ghost use Rattle.vob_laws.specs.Laws.{UnequalWherePlacesDiffer, XorOfEqual};

/// Cutting a list and joining the parts gives it back. So a `split_off` and an `extend_from_vob` of
/// the part leave the old bits if both succeed.
pub fn join_undoes_cut()
    ensures { JoinUndoesCut }
{}

/// Draining from an index to the length or past it leaves the bits below the index and gives the
/// others. So `drain(at..)` and `split_off(at)` leave and give the same bits if both succeed.
pub fn drain_from_is_split()
    ensures { DrainFromIsSplit }
{}

/// Joining a list leaves what pushing each of its bits in order leaves.
pub fn join_is_pushes()
    ensures { JoinIsPushes }
{}

/// The test of two lists is true exactly if they are equal, and so is `==` of two Vobs.
pub fn equal_where_lists_are()
    ensures { EqualWhereListsAre }
{}

/// Lists are equal exactly if their lengths and their blocks are. So two Vobs of one block type are
/// equal exactly if `len` and `get_storage` are.
pub fn equal_where_storage_is()
    ensures { EqualWhereStorageIs }
{}

/// Lists of one length are unequal exactly if they differ at some index.
pub fn unequal_where_places_differ()
    ensures { UnequalWherePlacesDiffer }
{}

/// A list combined with another changes exactly if some bit does, so `and`, `or` and `xor` return
/// true exactly then.
pub fn pointwise_changes_bits()
    ensures { PointwiseChangesBits }
{}

/// A written bit changes a list exactly if it was another, so `set` returns true exactly if the list
/// changed.
pub fn set_changes_bit()
    ensures { SetChangesBit }
{}

/// Negating every bit twice leaves the list.
pub fn negate_twice()
    ensures { NegateTwice }
{}

/// Two equal lists differ nowhere, so `xor` with an equal Vob leaves no bit true.
pub fn xor_of_equal()
    ensures { XorOfEqual }
{}

/// What not both have is what either hasn't: the `and` of two lists, negated, is the `or` of
/// both negated.
pub fn negated_and()
    ensures { NegatedAnd }
{}

/// The digits that `{}` writes are those of one list alone, and none of them is bad. So `from_digits`
/// gives the bits back, unless memory is refused.
pub fn digits_give_bits()
    ensures { DigitsGiveBits }
{}
