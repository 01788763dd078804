//! Frames one after the other on a CAN bus without errors (CAN 2.0 Part A, arbitration): whenever
//! the bus is free and something is offered, the offered frame with the least identifier is sent
//! whole. All times are bit times.
#![tactic(auto)]

pub mod laws;
mod line;
mod line_fault;
mod recording;
mod stations;

pub use line::run_until;
pub use line_fault::LineFault;
pub use recording::{line_bits, read_line};
pub use stations::Stations;
