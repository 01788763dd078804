//! Reading the input files, and generating their values.

use crate::marks::plain;
use async_window::{Owner, Request};
use change_protocol::{Act, Op};
use generated_input::{Generated, generate};
use requests_file::read_requests;
use requirement_table::Entry;
use std::alloc::{AllocError, Global};
use steps_file::{Step, read_steps};
use system_file::{System, read_system};

/// The identifiers that have owners where requests are read.
const OWNERS: [Owner; 2] = [Owner { id: 0x7EF, node: 3 }, Owner { id: 0x200, node: 0 }];

/// Puts the lines of a system.
fn put_system(told: &mut String, system: &System) -> Result<(), AllocError> {
    let layout = system.layout;
    let rules = system.rules;
    let (cycle, turnaround, window) = (layout.cycle(), layout.turnaround(), layout.window());
    writeln!(
        told,
        "cycle {cycle}, turnaround {turnaround}, window {window}"
    )?;
    writeln!(told, "{rules:?}")?;
    for owner in system.owners.as_slice() {
        writeln!(told, "{owner:?}")?;
    }
    Ok(())
}

/// Reads a system file.
pub fn system(alloc: Global, given: &str, told: &mut String) -> Result<(), AllocError> {
    let text = plain(alloc, given)?;
    match read_system(alloc, text.as_bytes()) {
        Ok(system) => put_system(told, &system),
        Err(fault) => told.push_str(fault.message(alloc)?.as_str()),
    }
}

/// Puts the line of a step.
fn put_step(told: &mut String, step: &Step) -> Result<(), AllocError> {
    match step {
        Step::Cycle { count } => writeln!(told, "cycle {count}"),
        Step::Act {
            caller,
            act: Act::Ask { change },
        } => {
            let (start, ops) = (change.start, change.ops.as_slice());
            writeln!(told, "ask by {caller} from {start}: {ops:?}")
        }
        Step::Act {
            caller,
            act: Act::Look,
        } => writeln!(told, "look by {caller}"),
    }
}

/// Puts the lines of steps.
fn put_steps(told: &mut String, steps: &[Step]) -> Result<(), AllocError> {
    for step in steps {
        put_step(told, step)?;
    }
    Ok(())
}

/// Reads a steps file, of whose last line the line feed is left out.
pub fn steps(alloc: Global, given: &str, told: &mut String) -> Result<(), AllocError> {
    let text = plain(alloc, given.trim_end())?;
    match read_steps(alloc, text.as_bytes()) {
        Ok(steps) => put_steps(told, steps.as_slice()),
        Err(fault) => told.push_str(fault.message(alloc)?.as_str()),
    }
}

/// Puts the lines of requests.
fn put_requests(told: &mut String, requests: &[Request]) -> Result<(), AllocError> {
    for request in requests {
        let (at, id) = (request.at, request.frame.id());
        let bytes = request.frame.bytes();
        writeln!(told, "at {at}, identifier {id:x}, bytes {bytes:?}")?;
    }
    Ok(())
}

/// Reads a requests file, of whose last line the line feed is left out.
pub fn requests(alloc: Global, given: &str, told: &mut String) -> Result<(), AllocError> {
    let text = plain(alloc, given.trim_end())?;
    match read_requests(alloc, text.as_bytes(), &OWNERS) {
        Ok(requests) => put_requests(told, requests.as_slice()),
        Err(fault) => told.push_str(fault.message(alloc)?.as_str()),
    }
}

/// A number and one digit more, to base 31.
fn with(total: u64, digit: u64) -> u64 {
    total.wrapping_mul(31).wrapping_add(digit)
}

/// A number with the fields of an entry as further digits.
fn with_entry(total: u64, entry: Entry) -> u64 {
    let total = with(with(total, u64::from(entry.slot)), u64::from(entry.node));
    let total = with(with(total, u64::from(entry.length)), u64::from(entry.phase));
    let total = with(
        with(total, u64::from(entry.period)),
        u64::from(entry.deadline),
    );
    with(total, u64::from(entry.priority))
}

/// A number with the fields of an operation as further digits. No operation but `Add` is generated.
fn with_op(total: u64, op: &Op) -> u64 {
    match op {
        Op::Add { entry } => with_entry(total, *entry),
        _ => 0,
    }
}

/// A number with the fields of a step as further digits. No look is generated.
fn with_step(total: u64, step: &Step) -> u64 {
    match step {
        Step::Cycle { count } => with(total, *count),
        Step::Act {
            caller,
            act: Act::Ask { change },
        } => {
            let total = with(with(total, u64::from(*caller)), change.start);
            change.ops.as_slice().iter().fold(total, with_op)
        }
        _ => 0,
    }
}

/// A number with arrival, identifier, number of bytes and bytes of a request as further digits.
fn with_request(total: u64, request: &Request) -> u64 {
    let frame = request.frame;
    let total = with(with(total, request.at), u64::from(frame.id()));
    let total = with(total, u64::from(frame.dlc()));
    frame
        .bytes()
        .iter()
        .fold(total, |total, byte| with(total, u64::from(*byte)))
}

/// Puts the policy of a generated input, and the sums of its steps and of its requests.
fn put_sums(told: &mut String, made: &Generated) -> Result<(), AllocError> {
    let policy = made.system.rules.policy;
    let steps = made.steps.as_slice().iter().fold(0, with_step);
    let requests = made.requests.as_slice().iter().fold(0, with_request);
    writeln!(told, "{policy:?}, steps {steps}, requests {requests}")
}

/// Generates the inputs of the numbers.
pub fn generated(alloc: Global, given: &str, told: &mut String) -> Result<(), AllocError> {
    for number in given.lines() {
        let made = generate(alloc, number.parse().unwrap_or(0))?;
        put_sums(told, &made)?;
    }
    Ok(())
}
