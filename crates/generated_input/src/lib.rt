//! The input that a number makes: a system, steps and requests, as the readers of their files give
//! them.
#![tactic(auto)]

mod generating;

pub use generating::{GENERATED_SLOTS, Generated, generate};
