//! The plan of an elementary cycle: which of the pending instances of the table are sent in it. One of three policies
//! orders them, and one of two fillings takes of them what fits the window.
//!
//! A planning goes from cycle to cycle by its state, the slots that have an instance pending before the cycle. Time is
//! counted in elementary cycles from 0, and lengths in bit times. A cycle number handed to any call is below 2^42.
#![tactic(auto)]

pub mod due;
pub mod laws;
pub mod line;
mod planning;
mod ranking;
mod state;

pub use planning::{
    PlannedCycle, Taken, cycle_mask, is_held, plan_cycle, plan_of_line, plan_with_width, valid,
};
pub use ranking::{Ranked, rank, rank_list};
pub use state::{Miss, PlanState};

/// Which of the pending instances a cycle takes, in their order.
#[derive(Clone, Copy, PartialEq, Eq, Debug)]
pub enum Fill {
    /// The first ones, as many as fit the window together: what stands after one that does not fit is not taken.
    Prefix,
    /// Each one that still fits in what the taken ones leave of the window.
    Skip,
}

/// The order in which pending instances are taken. The least key goes first; keys are compared from left to right.
#[derive(Clone, Copy, PartialEq, Eq, Debug)]
pub enum Policy {
    /// Rate monotonic: period, priority, slot.
    Rm,
    /// Deadline monotonic: deadline, priority, slot.
    Dm,
    /// Earliest deadline first: release and deadline together, priority, slot.
    Edf,
}
