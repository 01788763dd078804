//! What a call asks for, from its words and the bytes of the files that they name, and why it asks for nothing.
#![tactic(auto)]

mod fetching;
mod inputs;
mod loading;
mod reading;
mod stopping;
mod tasks;

pub use inputs::{LogText, StreamList};
pub use loading::load;
pub use stopping::{Refusal, Stop};
pub use tasks::{Job, Task};
