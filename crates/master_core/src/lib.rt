//! The master of an FTT-CAN bus as a state machine: it answers changes of the table and looks, opens elementary cycles,
//! and keeps the history of all of these.
//!
//! Cycles are elementary cycles, counted from 0.
#![tactic(auto)]

mod all_placed;
mod answer;
mod answered;
mod apart;
mod core_plans;
mod cores;
mod event;
mod journal;
pub mod laws;
mod lean;
mod lean_plans;
mod master;
mod opened;
mod past;
mod planning;
mod refusals;
mod room;
mod saved;
mod table;
mod told_repeat;
mod upcoming;

pub use answered::Answered;
pub use apart::{Planned, Snapshot, plan_apart};
pub use core_plans::{CorePlanned, CoreSnapshot};
pub use cores::{Core, MOST_KEPT};
pub use event::Event;
pub use lean::LeanMaster;
pub use master::Master;
pub use refusals::{all_accepted, refuses_nothing};
pub use saved::Saved;
pub use upcoming::Upcoming;
