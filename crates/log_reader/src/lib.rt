//! The rows of a log as values, the text of each, and the reader of a log.
//!
//! Cycles are elementary cycles, counted from 0; times are bit times.
#![tactic(auto)]

mod lanes;
pub mod laws;
mod log_fault;
mod log_reading;
mod reader;
mod row;
mod row_bytes;
mod row_fields;
mod row_reading;
mod written;

pub use log_fault::LogFault;
pub use log_reading::{check_log, read_log};
pub use reader::LogReader;
pub use row::{LogRow, LogVerdict, OpenRow};
pub use written::strip_prefix;
