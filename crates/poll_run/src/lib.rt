//! A run in which polled slots carry requests of a streams file: its log, and then what became of each request.
//!
//! Cycles are elementary cycles, counted from 0. Arrivals and starts of frames are bit times from 0.
#![tactic(auto)]

pub mod laws;
mod polled;
mod polling;
mod request_rows;

pub use polling::replay_polled;
