//! The log of a run: the text of a master's history and of the frames that were sent on the bus.
//!
//! Cycles are elementary cycles, counted from 0; times are bit times.
#![tactic(auto)]

mod comparing;
mod entries;
mod frames;
mod gathering;
pub mod laws;
mod log;
mod recent;
mod rows;
mod streaming;

pub use comparing::{behind_end, behind_event};
pub use gathering::Gathered;
pub use log::log_text;
pub use recent::{Recent, last_from, least_rows, row_len};
pub use rows::{open_told, until_of};
pub use streaming::{event_rows, put_end_row, put_event_rows};
