//! A node in use: the node of the bus model, in a process of its own and for as many cycles as one likes. It hears a real
//! bus, takes requests and bytes while it runs, and takes all its memory when it is made.
//!
//! Times are bit times from the start of the cycle in which the node is. Its driver counts them from the start of the first
//! trigger frame that it heard.
#![tactic(auto)]

mod due;
mod flight;
mod known_bytes;
pub mod laws;
mod node;
mod offers;
mod trigger;
mod waiting;

pub use due::Due;
pub use flight::{Loaded, Ticket};
pub use node::{LiveNode, Put, Settings};
pub use offers::LiveOffer;
pub use trigger::Heard;
