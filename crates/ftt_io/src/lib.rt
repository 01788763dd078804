//! Reading named files and writing bytes, behind two small traits.
//!
//! A [`Shelf`] is fetched from by name and a [`Sink`] is put to. Each counts its faults, so a program
//! above them can say of each answer whether the outside world was at fault. [`MemShelf`] and
//! [`MemSink`] are both of them in memory, and fail where a test wants it. [`FileShelf`] and
//! [`StdSink`] are the real ones.
//!
//! Each count is a `u64` that stays at its greatest value. It is said to have risen where it is
//! higher than before, or stands there.
#![tactic(auto)]

mod calls;
mod fetch;
mod file_shelf;
mod mem_shelf;
mod mem_sink;
mod put;
mod std_sink;

pub use fetch::{FetchFault, Shelf};
pub use file_shelf::FileShelf;
pub use mem_shelf::MemShelf;
pub use mem_sink::MemSink;
pub use put::{Failed, Sink, write_all};
pub use std_sink::StdSink;
