//! Why there is no certificate of a table.

use std::alloc::AllocError;
use thiserror::Error;

/// Why there is no certificate of a table.
#[derive(Clone, Copy, PartialEq, Eq, Debug, Error)]
pub enum CertifyFault {
    /// An instance would miss its deadline.
    #[error("the instance of slot {slot} that is released in cycle {release} would be missed in cycle {cycle}")]
    Miss {
        /// The slot, 0 to 95.
        slot: u8,
        /// The cycle of the instance's release.
        release: u64,
        /// Its last cycle, in which it would not be sent.
        cycle: u64,
    },
    /// No repeat of the plan was found.
    #[error("no repeat of the plan within {walked} cycles")]
    NoRepeat {
        /// How many cycles were walked.
        walked: u64,
    },
    /// There is no memory for the states or the masks.
    #[error("out of memory")]
    Memory,
}

impl From<AllocError> for CertifyFault {
    ghost use Rattle.std.specs.Prelude.{◌≡◌};
    ghost use Rattle.admission.specs.declared.certify_fault.CertifyFault.TheVariants.{Memory};

    ghost from_gives = { λ _ fault. fault ≡ Memory };

    fn from(_: AllocError) -> CertifyFault {
        CertifyFault::Memory
    }
}
