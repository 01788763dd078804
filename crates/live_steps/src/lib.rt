//! The steps of a file, answered by threads: the dispatcher opens as many cycles as all counts together ask for, and
//! each operator has its own steps answered, in their order, while it does.
//!
//! Cycles are elementary cycles, counted from 0; times are bit times.
#![tactic(auto)]

mod parting;
mod running;

pub use running::live;
