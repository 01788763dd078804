//! A run whose master is replaced midway: after so many opened cycles the first master is dropped, and its standby goes
//! on.
//!
//! Cycles are elementary cycles, counted from 0.
#![tactic(auto)]

mod following;
mod handed;
mod handing;

pub use handing::replay_handed;
