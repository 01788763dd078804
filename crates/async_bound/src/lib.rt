//! How long an asynchronous request waits at most for the start of its frame, from numbers alone: the layout of the
//! cycles, and the streams to which the requests belong. That runs keep to it is proved in `bounded_runs`.
//!
//! All times and lengths are bit times.
#![tactic(auto)]

mod bound;
pub mod laws;
mod stream;

pub use bound::start_bound;
pub use stream::{BurstStream, are_streams};
