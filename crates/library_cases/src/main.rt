//! Runs the cases of the libraries below the commands. They are about files, sinks, streams, values that a reader
//! makes, rows that are read back, the turn lock, and the shared master. The program prints one line for each table:
//! `ok NAME:` and how many cases it has, or `FAILED NAME:` and the first case that fails.
//!
//! A table is a file of cases, which were worked out by hand; what it tells is the same for every schedule of its
//! threads. With no words the program takes each table of the folder that it runs in. With words, each of them is the
//! name of a table.
#![tactic(auto)]

mod desk;
mod inputs;
mod locks;
mod logs;
mod marks;
mod masters;
mod shelves;
mod sinks;
mod streams;
mod tables;

use cases::words;
use std::io;
use std::process::ExitCode;
use std::sync::Wait;
use std::thread::Threads;
use tables::{all_names, shown};

fn main(rt: HostRuntime) -> ExitCode {
    match run_tables(&rt, &rt) {
        Ok(true) => ExitCode::from(0),
        Ok(false) => ExitCode::from(1),
        Err(_) => ExitCode::from(2),
    }
}

/// Runs the tables that are asked for, prints the line of each, and tells whether all cases have passed. An error is one
/// of the words, of the output or of memory.
fn run_tables<T: Threads + Wait + Sync>(rt: &HostRuntime, threads: &T) -> io::Result<bool> {
    let mut names = words(rt)?;
    if names.is_empty() {
        names = all_names(rt.alloc())?;
    }
    let mut all_passed = true;
    for name in names.iter() {
        all_passed = shown(rt, threads, name.as_str())? && all_passed;
    }
    Ok(all_passed)
}
