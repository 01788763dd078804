//! Bounds of asynchronous frames on a bus that is disturbed.
//!
//! The bound of a stream is that of `async_bound` with a longer window and with disturbances as two streams more. The laws
//! say that each request starts within it.
#![tactic(auto)]

mod faults;
pub mod laws;

pub use faults::fault_streams;
