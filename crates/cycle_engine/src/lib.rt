//! One elementary cycle on the bus: its trigger frames, the requests in its asynchronous window, and the frames of its
//! flagged slots.
//!
//! All times are bit times from 0, below 2^60.
#![tactic(auto)]

mod cycle;
mod joint;
pub mod laws;
mod nodes;
mod segment;
mod stations;
mod sync_window;

pub use cycle::{run_cycle, run_cycle_in, run_cycle_into};
pub use nodes::Nodes;
pub use segment::{CycleFrames, Segment};
