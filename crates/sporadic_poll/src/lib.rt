//! Sporadic streams by polling: the instances of a slot carry requests of a file in place of their numbers.
//!
//! Times are bit times, and releases are elementary cycles, both from 0.
#![tactic(auto)]

mod current;
mod fate;
pub mod laws;
mod polled_bytes;
mod polled_nodes;
mod queues;
mod reading;
mod rides;
mod stream;
mod stream_fault;
pub mod stream_laws;

pub use fate::{Fate, Ride};
pub use polled_bytes::PolledBytes;
pub use polled_nodes::{PolledNodes, run_polled};
pub use queues::Queues;
pub use reading::read_streams;
pub use rides::Rides;
pub use stream::{Stream, StreamBytes};
pub use stream_fault::{StreamFault, StreamWhy};
