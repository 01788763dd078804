//! A standby: a second master of an FTT-CAN bus. It is told the accepted changes and hears the triggers, and goes on
//! where the first master is gone.
//!
//! Cycles are elementary cycles, counted from 0. The lengths of windows are bit times.
#![tactic(auto)]

mod follow_fault;
pub mod laws;
mod standby;
mod told;

pub use follow_fault::FollowFault;
pub use standby::Standby;
pub use told::{Frames, Told, follow};
pub use trigger_codec::{Heard, hear};
