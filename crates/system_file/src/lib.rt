//! The system file as a value: what it means, and exactly why a file is refused.
#![tactic(auto)]

mod owners;
mod system;
mod system_fault;
mod system_sections;

pub use owners::OwnerList;
pub use system::{System, read_system};
pub use system_fault::{PathText, SystemFault};
