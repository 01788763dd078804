//! The report of a run: what was sent of each entry and of each owner's requests, and how wide the synchronous
//! windows were.
//!
//! Cycles are elementary cycles, counted from 0; widths are bit times.
#![tactic(auto)]

mod counts;
mod current;
pub mod laws;
mod load;
mod rows;
mod sent;
mod tally;
mod text;

pub use text::report;
