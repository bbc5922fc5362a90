//! The nodes of a graph over the items of states: each item of each state is one, with a number.
ghost use Rattle.std.specs.Prelude.{◌≡◌, ◌+◌, ◌<◌, ℕ, [], length, slice_index_or, AllPairs, Contains, IfNone, IfOk, IfSome};
ghost use Rattle.vob_flow.specs.Lists.{lists_of};
ghost use Rattle.vob_lr.specs.ItemSets.{HasItem};
ghost use Rattle.vob_lr.specs.Nodes.{AreOffsets, member_total, node, place_of};

use std::alloc::{AllocError, Global};
use std::marker::Model;

/// Sets of items whose members are numbered from 0 on: set by set, and item by item. A contract
/// sees the sets.
#[derive(Drop)]
pub(crate) struct Nodes<'a> {
    pub sets: &'a [Vec<usize>],
    // How many members the sets before each have; the last counts all.
    pub offsets: &'a [usize],
}

impl<'a> Model for Nodes<'a> {
    ghost use Rattle.std.specs.Prelude.{List, ℕ, length};
    ghost use Rattle.vob_flow.specs.Lists.{lists_of};
    ghost use Rattle.vob_lr.specs.Nodes.{AreOffsets, AreRising};

    ghost Value = { List (List ℕ) };

    ghost view = { λ a. lists_of a.sets.now };

    ghost invariant = { λ a. AreRising (lists_of a.sets.now)
        × AreOffsets (lists_of a.sets.now) (length a.sets.now) a.offsets.now };
}

/// Returns how many members the sets before each have, and how many all have. Fails if memory runs
/// out, or no length counts them.
pub(crate) fn offsets_of(alloc: Global, sets: &[Vec<usize>]) -> Result<Vec<usize>, AllocError>
    ensures { IfOk result (λ offsets.
        AreOffsets (lists_of sets.now) (length sets.now) offsets.items) }
{
    let mut offsets = Vec::new(alloc);
    offsets.push(0)?;
    let mut total: usize = 0;
    for state in 0..sets.len() {
        match total.checked_add(sets[state].len()) {
            Some(sum) => total = sum,
            None => return Err(AllocError),
        }
        offsets.push(total)?;
    }
    Ok(offsets)
}

/// Returns where a number stands in a list that rises, or `None` if it isn't there.
pub(crate) fn find(list: &[usize], number: usize) -> Option<usize>
    requires { AllPairs (λ n m. n < m) list.now }
    ensures some { IfSome result (λ place.
        Contains list.now number × (place ≡ place_of list.now number)) }
    ensures none { IfNone result (¬ Contains list.now number) }
{
    match list.binary_search(&number) {
        Ok(place) => Some(place),
        Err(_) => None,
    }
}

impl<'a> Nodes<'a> {
    /// Returns how many nodes there are.
    pub fn len(&self) -> usize
        ensures { result ≡ member_total self.now }
    {
        let (sets, offsets) = (self.sets, self.offsets);
        offsets[sets.len()]
    }

    /// Returns the number of an item of a state, or `None` if the state doesn't have it.
    pub fn number_if(&self, state: usize, item: usize) -> Option<usize>
        ensures some { IfSome result (λ number. HasItem self.now state item
            × (number ≡ node self.now state item) × (number < member_total self.now)) }
        ensures none { IfNone result (¬ HasItem self.now state item) }
    {
        let (sets, offsets) = (self.sets, self.offsets);
        let place = find(sets.get(state)?, item)?;
        // The end of the state's numbers is in the range of its type: a proof knows it from this.
        let _end = offsets[state + 1];
        Some(offsets[state] + place)
    }

    /// Returns the number of an item of a state, which it must have.
    pub fn number(&self, state: usize, item: usize) -> usize
        requires { HasItem self.now state item }
        ensures number { result ≡ node self.now state item }
        ensures inside { result < member_total self.now }
    {
        match self.number_if(state, item) {
            Some(number) => number,
            // It isn't so: the state has the item.
            None => 0,
        }
    }

    /// Returns the items of a state.
    pub fn items(&self, state: usize) -> &'a [usize]
        requires { state < length self.now }
        ensures { result.now ≡ slice_index_or self.now state [] }
    {
        let sets = self.sets;
        &sets[state]
    }
}
