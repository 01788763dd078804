//! The state of a planning, and a miss.

use requirement_table::Mask;

/// What a planning has to know before a cycle.
#[derive(Clone, Copy, PartialEq, Eq, Debug)]
pub struct PlanState {
    /// The cycle that is planned next.
    pub cycle: u64,
    /// The slots with an instance that was released before the cycle and is not planned yet.
    pub pending: Mask,
}

/// An instance that is not planned by its last cycle.
#[derive(Clone, Copy, PartialEq, Eq, Debug)]
pub struct Miss {
    /// The slot, 0 to 95.
    pub slot: u8,
    /// The cycle in which the instance was released.
    pub release: u64,
    /// Its last cycle, in which it is left.
    pub cycle: u64,
}
