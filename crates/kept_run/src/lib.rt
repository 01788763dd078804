//! What is promised of every run of a master and a bus, and the laws by which a run keeps it: where a history and a
//! trace keep the promise so far, one call more, or one cycle more that is opened and run, keeps it.
//!
//! Cycles are elementary cycles, counted from 0; times are bit times.
#![tactic(auto)]

pub mod laws;
