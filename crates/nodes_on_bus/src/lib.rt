//! Nodes in processes of their own on a bus that may be disturbed: what their drivers owe, and what is kept then.
//!
//! The laws take any trace, and what each node knows at each time. All times and lengths are bit times.
#![tactic(auto)]

pub mod laws;
