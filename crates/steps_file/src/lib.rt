//! The steps file as values: what its rows mean, and exactly why a file is refused.
#![tactic(auto)]

mod step_fault;
pub mod step_laws;
mod step_list;
mod step_rows;
mod steps;

pub use step_fault::{StepFault, StepWhy};
pub use step_list::StepList;
pub use steps::{Step, read_steps};
