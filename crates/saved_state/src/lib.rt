//! The bytes of a saved state of a master: what is kept of it while it does not run.
#![tactic(auto)]

mod crc;
pub mod laws;
mod numbers;
mod reading;
mod writing;

pub use crc::checksum;
pub use reading::{ReadFault, read};
pub use writing::write;
