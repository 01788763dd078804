//! Why a text is not that of a plan.

use std::alloc::AllocFailed;
use thiserror::Error;

/// Why no plan was read.
#[derive(Clone, Copy, PartialEq, Eq, Debug, Error)]
pub enum PlanTextFault {
    /// The text is not that of a plan.
    #[error("line {number}")]
    Line {
        /// The first line, from 1, that breaks the form: where the text ends early, the line that is missing or has no
        /// line feed; where text follows the last line, the line after it.
        number: u64,
    },
    /// There was no memory for the masks.
    #[error("out of memory")]
    Memory,
}

impl<T: Drop> From<AllocFailed<T>> for PlanTextFault {
    ghost use Rattle.std.specs.Prelude.{◌≡◌};
    ghost use Rattle.plan_check.specs.declared.text_fault.PlanTextFault.TheVariants.{Memory};

    ghost from_gives = { λ _ fault. fault ≡ Memory };

    fn from(_failed: AllocFailed<T>) -> PlanTextFault {
        PlanTextFault::Memory
    }
}
