//! A list of steps that a value holds.

use crate::steps::Step;
use items::Items;

/// A list of steps that a value holds. Contracts see the list.
pub type StepList = Items<Step>;
