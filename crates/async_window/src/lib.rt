//! The asynchronous window of an elementary cycle: requests to send frames in it, and the mailboxes in which they wait.
//!
//! All times are bit times from 0, below 2^60.
#![tactic(auto)]

mod firsts;
pub mod laws;
mod mailbox;
mod mailboxes;
mod places;
mod request;
mod tournament;
mod window;

pub use mailboxes::{Mailboxes, Offer, Soon};
pub use request::{Owner, Request};
