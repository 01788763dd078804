//! The top of fttcan: the commands, from the words of a call and the files that they name to the bytes that are written.
#![tactic(auto)]

mod auditing;
mod by_threads;
mod choosing;
mod gathered;
mod program;
mod rows;
mod status;
mod stop;
mod streamed;
mod summary;
mod work;

pub use by_threads::live;
pub use gathered::flushed;
pub use live_run::{Gate, OpenGate, Point};
pub use program::plain;
pub use status::Status;
