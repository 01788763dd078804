//! The table of synchronous requirements of an FTT-CAN master: entries and how they are placed, the
//! instances that a placed entry releases, and sets of slots.
//!
//! Time is counted in elementary cycles from 0. A cycle number handed to any call is below 2^42.
#![tactic(auto)]

mod entries;
mod instances;
pub mod laws;
mod lists;

pub use bit_sets::Mask;
pub use entries::{Entry, Order, Placed, PlacedList};
pub use instances::{Payload, Sendable, cost, current, current_instance, due, exists, releases};
pub use lists::{
    copy_with_room, drop_over, first_over, is_over, is_over_in_range, not_over, put_near,
    released_in, well_placed,
};
pub use profile::MOST_SLOTS;
