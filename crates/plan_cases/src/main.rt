//! The cases of the crates that plan, and of the standby, where no whole command shows them: what public functions answer,
//! beside answers that were worked out by hand. For each table of `data/` one line is printed.
//!
//! Behind the tables a master is asked for some changes, each again where it is refused memory. With the word
//! `asked_again` that is all.
//!
//! Cycles are elementary cycles, and lengths are bit times.
#![tactic(auto)]

mod admission_calls;
mod asking;
mod changes;
mod fault_calls;
mod lean_calls;
mod list_calls;
mod master_calls;
mod numbers;
mod plans;
mod saved_calls;
mod standby_calls;
mod table_calls;
mod walk_calls;

use cases::show;
use plans::Plans;
use saved_calls::Saves;
use standby_calls::Standbys;
use std::io;
use std::process::ExitCode;

/// The tables about entries.
const TABLES: [&str; 6] = [
    "requirement_table",
    "recurrence_check",
    "planner_policies",
    "admission",
    "master_core",
    "faults",
];

fn main(rt: HostRuntime) -> ExitCode {
    match run(&rt) {
        Ok(true) => ExitCode::from(0),
        Ok(false) => ExitCode::from(1),
        Err(_) => ExitCode::from(2),
    }
}

/// Runs the tables where there are no words, and asks a master again. Tells whether all cases have passed.
fn run(rt: &HostRuntime) -> io::Result<bool> {
    let passed = !asking::asked_words(rt)?.is_empty() || all_shown(rt)?;
    asking::told(rt)?;
    Ok(passed)
}

/// Prints the line of each table, and tells whether all cases have passed.
fn all_shown(rt: &HostRuntime) -> io::Result<bool> {
    let mut passed = show(rt, "standby", Standbys::new())?;
    passed = show(rt, "saved_state", Saves)? && passed;
    for name in TABLES {
        passed = show(rt, name, Plans::new(rt.alloc()))? && passed;
    }
    Ok(passed)
}
