//! The run of a steps file. One driver takes the steps; it drives a master alone, the table that is asked for, or a
//! master with the nodes of a simulated bus, whose log is heard while the run goes on.
//!
//! Cycles are elementary cycles, counted from 0; times are bit times.
#![tactic(auto)]

mod answering;
mod asked;
mod bus;
mod counting;
mod cut;
mod driver;
pub mod laws;
mod listener;
mod logging;
mod replaying;
mod runs;

pub use answering::answer;
pub use asked::asked_table;
pub use bus::{Bus, fresh_nodes, in_ranges};
pub use counting::count_plain_calls;
pub use cut::Cut;
pub use driver::{Driven, drive};
pub use listener::{Listener, ToSink};
pub use logging::log_run;
pub use replaying::{ReplayedRun, Tailed, Written, replay, replay_tail, replay_to};
pub use runs::Runs;
