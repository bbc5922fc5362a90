//! Where two Vobs differ first, and the order that this gives. vob 4.0.1 has none of these calls.
ghost use Rattle.std.specs.Prelude.{Some};
ghost use Rattle.std.specs.Ordering.{bool_cmp};
ghost use Rattle.std.specs.Cmp.{bool_cmp_total, on_po, on_total};
ghost use Rattle.std.proofs.Common.{refl, sym};
ghost use Rattle.std.specs.Cmp.Lexicographic.{lists_agrees, lists_po, lists_ties, lists_total};
ghost use Rattle.std.specs.Cmp.Lexicographic.{slice_cmp, slice_partial_cmp};
ghost use Rattle.vob.specs.Order.{IsDifference, bits_ordered, bits_tied};

use crate::vob::Vob;
use std::cmp::Ordering;
use vob_block::{Blocks, Kernel, Xor};
use vob_store::first::first_combined;
use vob_store::room::block_count;

impl<T: Kernel> Vob<T> {
    /// Returns the first index below both lengths at which the bits differ. `None` means that one list
    /// of bits begins the other. Reads each block at most once.
    ///
    /// ```
    /// let vob = vob::vob!(alloc; true, false)?;
    /// let other = vob::vob!(alloc; true, true, true)?;
    /// assert_eq!(rt; vob.first_difference(&other), Some(1));
    /// assert_eq!(rt; vob.first_difference(&vob), None);
    /// ```
    pub fn first_difference(&self, other: &Vob<T>) -> Option<usize>
        ensures first { IsDifference self.now.bits other.now.bits result }
    {
        let shorter = self.len.min(other.len);
        let blocks = block_count::<T>(shorter);
        let (own, _) = self.vec.as_slice().split_at(blocks);
        let (theirs, _) = other.vec.as_slice().split_at(blocks);
        let index = first_combined::<Xor, T>(own, &mut Blocks::new(theirs))?;
        if index < shorter { Some(index) } else { None }
    }
}

impl<T: Kernel> PartialOrd for Vob<T> {
    ghost partial_cmp = { λ vob other. slice_partial_cmp (λ bit bit'. Some (bool_cmp bit bit'))
        vob.bits other.bits };

    ghost laws = { on_po (λ vob. vob.bits) (lists_po bits_ordered) };

    /// Returns the order that `cmp` returns.
    fn partial_cmp(&self, other: &Vob<T>) -> Option<Ordering> {
        Some(self.cmp(other))
    }
}

impl<T: Kernel> Ord for Vob<T> {
    ghost cmp = { λ vob other. slice_cmp bool_cmp vob.bits other.bits };

    ghost total = { on_total (λ vob. vob.bits) (lists_total bool_cmp_total) };

    ghost matches_partial_cmp = { λ vob other. lists_agrees (λ _ _. refl) vob.bits other.bits };

    ghost matches_eq = { λ vob other. lists_ties bool_cmp (λ a b. sym (bits_tied a b))
        vob.bits other.bits };

    /// Returns the order of the lists of bits, as that of two `Vec<bool>`: the first bits that differ
    /// decide, and an unset bit comes first. If none differ, the shorter list comes first.
    fn cmp(&self, other: &Vob<T>) -> Ordering {
        match self.first_difference(other) {
            Some(index) if self.get_unchecked(index) => Ordering::Greater,
            Some(_) => Ordering::Less,
            None => self.len.cmp(&other.len),
        }
    }
}
