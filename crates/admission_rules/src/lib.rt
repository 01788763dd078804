//! The rules by which changes of the table of an FTT-CAN master are judged. They stand in a crate of their
//! own, so that the readers of files and the bus know nothing of how a change is judged.
#![tactic(auto)]

use planner_policies::{Fill, Policy};

/// What a master judges changes by.
#[derive(Clone, Copy, PartialEq, Eq, Debug)]
pub struct Rules {
    /// The number of nodes, 1 to 30; they are numbered from 0.
    pub nodes: u8,
    /// The number of slots, 40 or 96; they are numbered from 0.
    pub slots: u8,
    /// The order in which pending instances are planned.
    pub policy: Policy,
    /// Which of them a cycle takes, in that order.
    pub fill: Fill,
    /// The length of the largest synchronous window, 55 to 16,383 bit times.
    pub window: u32,
    /// The number of cycles within which a repeat of the plan has to be found, 1 to 100,000.
    pub horizon: u64,
}
