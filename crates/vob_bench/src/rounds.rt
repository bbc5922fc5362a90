//! The loop of the workloads.

use std::alloc::AllocError;
use vob::VobError;

/// Why a workload has no checksum.
#[derive(Clone, Copy, Debug)]
pub(crate) enum Missing {
    Memory,
    Name,
}

impl From<AllocError> for Missing {
    fn from(_: AllocError) -> Missing {
        Missing::Memory
    }
}

impl From<VobError> for Missing {
    fn from(_: VobError) -> Missing {
        Missing::Memory
    }
}

/// Finds a value once a round, and gives the checksum of the sum of these values and of the Vob that is
/// left. What reads as a closure is the body of a loop, which takes less to prove.
macro_rules! each_round {
    ($vob:ident, $rounds:ident, |$round:ident| $value:expr) => {{
        let mut sum: u64 = 0;
        for $round in 0..$rounds {
            let value: u64 = $value;
            sum = sum.wrapping_add(value);
        }
        Ok(checksum(&$vob, sum))
    }};
}

pub(crate) use each_round;
