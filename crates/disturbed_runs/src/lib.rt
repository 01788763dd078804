//! Runs on a bus that is disturbed: what is lost at most, and what is kept all the same.
//!
//! The laws take any trace and any list of outages. The functions say how much room a window needs. All times and lengths
//! are bit times.
#![tactic(auto)]

pub mod laws;
mod reserve;

pub use reserve::{cost_of_cut, errors_within, reserve_for, waits_of};
