//! Sets of small numbers, as numbers: a set has i where bit i is 1. Sets of slots are a type, `Mask`, and sets of rows
//! are numbers of two words of the processor.
#![tactic(auto)]

pub mod laws;
pub mod rows;
mod slots;
mod words;

pub use slots::{Mask, common, difference, least_slot, union, without_least};
pub use words::of_words;
