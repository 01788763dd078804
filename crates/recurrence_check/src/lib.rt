//! The first repeat of a walk from state to state: the least number of steps after which it is in a
//! state that is the same as an earlier one. Which states are the same is the walk's own rule,
//! which it proves to be symmetric and transitive and to be kept by every step.
#![tactic(auto)]

mod by_keys;
mod compared;
mod walk;
mod walk_end;

pub use by_keys::{PLACES, lasso_keyed};
pub use compared::lasso;
pub use walk::{Keyed, Stretch, Walk};
pub use walk_end::{Repeat, WalkEnd};
