//! A planning that goes from cycle to cycle, by a wheel of coming releases: a cycle costs what is released in it, and not
//! what there are entries.
//!
//! Time is counted in elementary cycles from 0, and lengths in bit times. A cycle number handed to any call is below
//! 2^42.
#![tactic(auto)]

mod ahead;
mod copying;
mod demand;
mod dues;
mod filling;
mod near;
mod picking;
mod planner;
mod releases;
mod rows;
mod taking;
mod wheel;

pub use ahead::Ahead;
pub use demand::fits_each;
pub use planner::{CyclePlan, Planner};
