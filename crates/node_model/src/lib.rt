//! One node of a bus with FTT-CAN: what it knows, what it does with a frame that it hears, and what it offers.
//!
//! All times are bit times from 0, below 2^60. Cycles are elementary cycles from 0, below 2^42.
#![tactic(auto)]

mod ahead;
mod cycle;
mod due;
mod entries;
pub mod laws;
mod node;
mod online;
mod slots_due;

pub use node::{Node, last_bit};
pub use online::OpenCycle;
