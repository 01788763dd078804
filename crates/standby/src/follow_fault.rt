//! Why a standby does not follow.

use admission::Verdict;
use requirement_table::Mask;
use std::alloc::AllocError;
use thiserror::Error;

/// Why a standby does not follow what it is told. It is unchanged then, and can go on.
#[derive(Clone, Copy, PartialEq, Eq, Debug, Error)]
pub enum FollowFault {
    /// The change is refused by the standby's own table.
    #[error("the change is refused: {verdict:?}")]
    Refused {
        /// What the standby would answer to it.
        verdict: Verdict,
    },
    /// The frames are not the trigger of the next cycle.
    #[error("no trigger of cycle {cycle}")]
    Trigger {
        /// The next cycle of the standby.
        cycle: u64,
    },
    /// The trigger flags other slots than those that are planned.
    #[error("the trigger of cycle {cycle} flags {heard:?}, and {planned:?} is planned")]
    Differs {
        /// The next cycle of the standby.
        cycle: u64,
        /// The slots that the trigger flags.
        heard: Mask,
        /// The slots that the standby would flag.
        planned: Mask,
    },
    /// The trigger says another length of the synchronous window than that of the flagged slots, both in bit times.
    #[error("a window of {l} bit times for slots that need {sum}")]
    Window {
        /// The length that the trigger says.
        l: u32,
        /// The sum of the flagged slots' worst lengths.
        sum: u32,
    },
    /// There is no memory for the change, or for one event more.
    #[error("out of memory")]
    Memory,
}

impl From<AllocError> for FollowFault {
    ghost use Rattle.std.specs.Prelude.{◌≡◌};
    ghost use Rattle.standby.specs.declared.follow_fault.FollowFault.TheVariants.{Memory};

    ghost from_gives = { λ _ fault. fault ≡ Memory };

    fn from(_: AllocError) -> FollowFault {
        FollowFault::Memory
    }
}
