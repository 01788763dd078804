//! A master shared by threads. One dispatcher opens its cycles, and up to 8 operators ask for changes and look, each
//! with a pass of its own, all behind one turn lock. So there is one history of all calls, and the calls of each pass
//! stand in it in their order.
//!
//! Cycles are elementary cycles, counted from 0.
#![tactic(auto)]

mod desk;
mod fault;
mod kept;
pub mod laws;
mod live;
mod operators;
mod passes;
mod pauses;
mod tries;
mod turns;
mod waits;
mod within;

pub use fault::{SettleFault, TryFault};
pub use live::LiveMaster;
pub use passes::{DispatcherPass, OperatorPass};
pub use within::FoundOpening;
