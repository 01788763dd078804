//! Whole commands of fttcan for C: from bytes to bytes.
//!
//! [`fttcan_run`] carries out the words of a call over four files in memory, and [`fttcan_audit`] audits the text of a log.
//! Neither starts a thread, so `live` is no command here. C owes what it owes any function: each pointer is not null, stands
//! for as many bytes as its count says, and no room overlaps anything else of the call.
#![tactic(auto)]

mod audit;
mod given;
mod run;
#[cfg(test)]
mod tests;
mod words;

pub use audit::fttcan_audit;
pub use run::fttcan_run;
