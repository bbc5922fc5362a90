//! Iterators with size hints of their own, and what growing by their items leaves.
ghost use Rattle.std.specs.Iterator.{YieldsFirst, item_count};

use super::support::{Hinted, check_blocks, check_same, same, vob_of};
use std::marker::Model;
use vob::{Vob, VobError};

/// As many true bits as are left, with their number as both hints.
#[derive(Drop)]
struct Countdown {
    left: usize,
}

impl Model for Countdown {
    ghost use Rattle.std.specs.Prelude.{Bool, true, List, replicate};

    ghost Value = { List Bool };

    ghost view = { λ walk. replicate walk.left true };
}

impl Iterator for Countdown {
    type Item = bool;

    ghost next_gives = { YieldsFirst (λ rest. rest) };

    ghost remaining = { item_count (λ rest. rest) };

    fn next(&mut self) -> Option<bool> {
        if self.left == 0 {
            return None;
        }
        self.left -= 1;
        Some(true)
    }

    fn size_hint(&self) -> (usize, Option<usize>) {
        (self.left, Some(self.left))
    }
}

#[test]
fn all_items_come_behind_the_bits(rt: HostRuntime) {
    let items = [true, true, false];
    let mut vob = vob_of::<usize>(&rt, "101");
    let (rest, lower) = (items.as_slice(), 0);
    vob.extend(Hinted { rest, lower }).expect(&rt, "memory");
    check_blocks(&rt, &vob, 6, &[29]);
    vob.truncate(9);
    check_blocks(&rt, &vob, 6, &[29]);
    vob.truncate(4);
    check_blocks(&rt, &vob, 4, &[13]);
    // More come than the hint promised.
    let items = [true, true, false, true, false];
    let mut vob = Vob::new(rt.alloc());
    let (rest, lower) = (items.as_slice(), 2);
    vob.extend(Hinted { rest, lower }).expect(&rt, "memory");
    check_blocks(&rt, &vob, 5, &[11]);
}

#[test]
fn a_hint_that_cannot_be_met_is_refused_first(rt: HostRuntime) {
    let most = usize::MAX;
    for (digits, left, refusal, grown) in [
        ("1", most, VobError::TooLong, "1111"),
        ("01", most - 1, VobError::TooLong, "01111"),
        ("01", most - 2, VobError::Memory, "01111"),
        ("", most, VobError::Memory, "111"),
    ] {
        let mut vob = vob_of::<usize>(&rt, digits);
        let refused = vob.extend(Countdown { left });
        same(&rt, digits, left, refused, Err(refusal));
        check_same(&rt, &vob, &vob_of(&rt, digits));
        vob.extend(Countdown { left: 3 }).expect(&rt, "memory");
        check_same(&rt, &vob, &vob_of(&rt, grown));
    }
    let refused = Vob::from_iter(rt.alloc(), Countdown { left: most }).err();
    same(&rt, "refused", most, refused, Some(VobError::Memory));
}
