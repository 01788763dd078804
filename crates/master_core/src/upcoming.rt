//! What a master would open next.

use planner_policies::PlanState;
use requirement_table::Mask;

/// What a master would open next.
#[derive(Clone, Copy, PartialEq, Eq, Debug)]
pub struct Upcoming {
    /// The slots that it would flag.
    pub mask: Mask,
    /// The length of their synchronous window, in bit times.
    pub l: u32,
    /// The state that it would have behind the opening.
    pub next: PlanState,
}
