//! How long asynchronous requests wait in runs: where requests belong to streams, each of them starts within the bound
//! of its stream, in every run that is kept. `are_of_streams` tests whether requests belong to streams.
//!
//! All times and lengths are bit times.
#![tactic(auto)]

pub mod laws;
mod of_streams;

pub use of_streams::{StrayFault, StrayWhy, are_of_streams};
