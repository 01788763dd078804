//! fttcan for C: what a window needs for disturbances on the bus.
//!
//! Each export answers a status, and writes its result through a reference. It tests all that it is handed. After a
//! status other than `OK` the result is as before.
#![tactic(auto)]

mod reserves;

pub use c_values::{ExportRefusal, OK};
pub use reserves::{fttcan_errors_within, fttcan_reserve};
