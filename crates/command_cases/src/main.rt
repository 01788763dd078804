//! Runs the cases of whole calls. It prints one line for each: `ok NAME`, or `FAILED NAME:` and the first thing that
//! differs. The line of a table has the number of its cases too.
//!
//! A call is a folder with input files, the words of a call, and what it is to write: a file `expected.log` or
//! `expected.err`. A table is a file of cases, which were worked out by hand: replays over streams, plans that are cut
//! short, calls by threads, runs of a shared master, and logs that are audited row by row. What it tells is the same for
//! every schedule of its threads.
//!
//! With no words the program takes each call two levels below the folder that it runs in, in the order of the names, and
//! then each table. With words, each of them is the folder of a call, or `tables/NAME`.
#![tactic(auto)]

mod answer;
mod asked;
mod audits;
mod calling;
mod fault;
mod folder;
mod gates;
mod lone;
mod prefixes;
mod replays;
mod runs;
mod tables;

use asked::{RunKind, asked_cases, kind_of};
use cases::show;
use std::io;
use std::process::ExitCode;
use std::sync::Wait;
use std::thread::Threads;
use tables::TopicTable;

fn main(rt: HostRuntime) -> ExitCode {
    match run_cases(&rt, &rt) {
        Ok(true) => ExitCode::from(0),
        Ok(false) => ExitCode::from(1),
        Err(_) => ExitCode::from(2),
    }
}

/// Prints the line of a path, and tells whether its cases have passed.
fn shown<T: Threads + Wait + Sync>(rt: &HostRuntime, threads: &T, path: &str) -> io::Result<bool> {
    match kind_of(path) {
        RunKind::Call => tell(rt, path, calling::failure(rt, path)?),
        RunKind::Cases(topic) => show(rt, path, TopicTable { rt, threads, topic }),
    }
}

/// Prints the line of a call's folder: `ok PATH`, or `FAILED PATH:` and why it fails. Tells whether it has passed.
fn tell(rt: &HostRuntime, path: &str, failure: Option<String>) -> io::Result<bool> {
    match failure {
        None => {
            println!(rt; "ok {path}")?;
            Ok(true)
        }
        Some(reason) => {
            println!(rt; "FAILED {path}: {reason}")?;
            Ok(false)
        }
    }
}

/// Runs the cases that are asked for, prints the line of each path, and tells whether all have passed. An error is one of
/// the folders, of the output or of memory.
fn run_cases<T: Threads + Wait + Sync>(rt: &HostRuntime, threads: &T) -> io::Result<bool> {
    let mut all_passed = true;
    for path in asked_cases(rt)?.iter() {
        all_passed = shown(rt, threads, path.as_str())? && all_passed;
    }
    Ok(all_passed)
}
