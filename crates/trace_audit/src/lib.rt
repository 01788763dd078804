//! The audit of a log: whether rows are all rows of a whole run of a system, steps and requests. Nothing of the log's
//! maker is trusted: each event of the rows is done again.
//!
//! Cycles are elementary cycles, counted from 0; times are bit times.
#![tactic(auto)]

mod ahead;
mod asked;
mod audit_fault;
mod auditing;
mod auditor;
mod event_rows;
pub mod laws;
mod log_audit;
mod rerun;
mod same_rows;
mod states;
mod step_acts;

pub use audit_fault::AuditFault;
pub use auditing::{audit, audit_text};
