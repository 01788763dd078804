//! Auditing the rows of a log.

use log_reader::read_log;
use requests_file::read_requests;
use std::alloc::{AllocError, Global};
use steps_file::read_steps;
use system_file::read_system;
use trace_audit::audit;

/// What stands before a line `+`, and what stands behind it.
fn parts(text: &str) -> (&str, &str) {
    text.split_once("+\n").unwrap_or(("", text))
}

/// Audits the rows of a log against a system, steps and requests, and tells the answer. These are read from their texts,
/// which stand in the order system, steps, requests, log, with a line `+` between two.
pub fn tell(alloc: Global, given: &str, told: &mut String) -> Result<(), AllocError> {
    let (system, rest) = parts(given);
    let (steps, rest) = parts(rest);
    let (requests, log) = parts(rest);
    let Ok(system) = read_system(alloc, system.as_bytes()) else {
        return writeln!(told, "no system");
    };
    let Ok(steps) = read_steps(alloc, steps.as_bytes()) else {
        return writeln!(told, "no steps");
    };
    let Ok(requests) = read_requests(alloc, requests.as_bytes(), system.owners.as_slice()) else {
        return writeln!(told, "no requests");
    };
    let Ok(rows) = read_log(alloc, log.as_bytes()) else {
        return writeln!(told, "no log");
    };
    match audit(alloc, &system, &steps, &requests, &rows) {
        Ok(()) => writeln!(told, "ok"),
        Err(fault) => writeln!(told, "{fault}"),
    }
}
