//! The run of a shared master: one dispatcher opens cycles and runs each on a simulated bus, while up to 8 operators
//! have their scripts answered, all of them threads.
//!
//! Cycles are elementary cycles, counted from 0; times are bit times.
#![tactic(auto)]

mod closing;
mod crew;
mod dispatching;
mod frames;
mod operating;
mod points;
mod running;
mod script;
mod sharing;

pub use closing::{EndedRun, run_whole};
pub use frames::{FrameList, Run};
pub use points::{Gate, OpenGate, Point};
pub use running::run_live;
pub use script::{ActList, Script};
pub use sharing::OPERATORS;
