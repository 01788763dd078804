//! Changes of the table of an FTT-CAN master: entries are added, removed and changed from a start cycle on, while what
//! was released before is still sent.
//!
//! Time is counted in elementary cycles from 0.
#![tactic(auto)]

mod applying;
pub mod laws;
mod malformed;
mod operations;
mod pruning;
mod rules;
mod slots;
mod table;

pub use applying::apply;
pub use malformed::{ApplyFault, Why};
pub use operations::{Act, Change, Op, Ops};
pub use pruning::prune;
pub use table::PlacedTable;
