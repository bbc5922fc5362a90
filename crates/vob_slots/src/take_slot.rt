//! Taking the first free slot.

ghost use Rattle.std.specs.Prelude.{◌≡◌, ◌+◌, true, false, slice_set, MatchOption, IfSome};
ghost use Rattle.vob.specs.Bits.{count_of};
ghost use Rattle.vob.specs.Sets.{IsNext};

use vob::Vob;

/// Takes the first free slot and returns it, or `None` if none is free. A set bit is a taken slot.
pub fn take_slot(slots: &mut Vob) -> Option<usize>
    ensures first { IsNext false slots.old.bits 0 result }
    ensures taken { MatchOption result (slots.new.bits ≡ slots.old.bits)
        (λ slot. slots.new.bits ≡ slice_set slots.old.bits slot true) }
    ensures fewer { IfSome result (λ _.
        count_of false slots.old.bits ≡ count_of false slots.new.bits + 1) }
{
    let slot = slots.first_unset()?;
    slots.set(slot, true);
    Some(slot)
}
