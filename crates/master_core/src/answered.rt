//! The answer of a core.

use admission::{Trail, Verdict};

/// The answer to a change.
#[derive(Drop, Debug)]
pub struct Answered {
    /// The cycle from which the change was planned.
    pub from: u64,
    pub verdict: Verdict,
    /// Where an instance would miss its deadline, the slots that are flagged from `from` to the cycle of the miss.
    pub trail: Trail,
}
