//! A master that is asked again where a call was refused memory.
//!
//! Nothing refuses memory where the program is run by itself. Where a test refuses an allocation, a line `again` goes to
//! the error sink for the call, and what is printed must be the same: the failed call has changed nothing.

ghost use Rattle.std.specs.Prelude.{◌≤◌};

use crate::changes;
use admission::{Rules, Verdict};
use cases::words;
use change_protocol::Change;
use master_core::{Master, plan_apart};
use planner_policies::{Fill, Policy};
use profile::OPENINGS_END;
use std::alloc::{AllocError, Global};
use std::io;

/// A call is made so many times at most.
const TRIES: u8 = 4;

/// The rules of all changes.
const RULES: Rules = Rules {
    nodes: 1,
    slots: 40,
    policy: Policy::Rm,
    fill: Fill::Prefix,
    window: 270,
    horizon: 500,
};

/// Says that a call was refused memory and is made again.
fn again(rt: &HostRuntime) -> io::Result<()> {
    eprintln!(rt; "again")
}

/// The words of this call.
pub fn asked_words(rt: &HostRuntime) -> io::Result<Vec<String>> {
    for _ in 0..TRIES {
        match words(rt) {
            Ok(words) => return Ok(words),
            Err(_) => again(rt)?,
        }
    }
    Err(io::Error::from(AllocError))
}

/// Prints what a master answers to each change, and the cycles that it opens after each. Then it prints the certificate
/// of the table.
pub fn told(rt: &HostRuntime) -> io::Result<()> {
    let mut master = made(rt)?;
    asked(rt, &mut master)?;
    certified(rt, &master)
}

/// Prints what a master answers to each change, and the cycles that it opens after each.
fn asked(rt: &HostRuntime, master: &mut Master) -> io::Result<()> {
    for number in 0..=changes::LAST {
        answered(rt, master, number)?;
        opened(rt, master)?;
        opened(rt, master)?;
        opened(rt, master)?;
    }
    Ok(())
}

/// A master of the rules, without an event.
fn made(rt: &HostRuntime) -> io::Result<Master> {
    for _ in 0..TRIES {
        match Master::new(rt.alloc(), RULES) {
            Ok(master) => return Ok(master),
            Err(_) => again(rt)?,
        }
    }
    Err(io::Error::from(AllocError))
}

/// Prints the verdict on the change with this number, from the next cycle on.
fn answered(rt: &HostRuntime, master: &mut Master, number: u64) -> io::Result<()> {
    for _ in 0..TRIES {
        match verdict(rt.alloc(), master, number) {
            Ok(verdict) => return println!(rt; "{verdict:?}"),
            Err(_) => again(rt)?,
        }
    }
    Err(io::Error::from(AllocError))
}

/// The verdict on the change with this number. The last one of them is planned apart and then settled.
fn verdict(alloc: Global, master: &mut Master, number: u64) -> Result<Verdict, AllocError> {
    let change = changes::change(alloc, number, master.next())?;
    if number < changes::LAST {
        master.submit(alloc, 1, &change)
    } else {
        apart(alloc, master, &change)
    }
}

/// The verdict on a change that is planned apart and then settled.
fn apart(alloc: Global, master: &mut Master, change: &Change) -> Result<Verdict, AllocError> {
    let snapshot = master.snapshot(alloc)?;
    let planned = plan_apart(alloc, &snapshot, change)?;
    master.settle(alloc, 1, change, planned)
}

/// Opens the next cycle, where there is one, and prints it.
fn opened(rt: &HostRuntime, master: &mut Master) -> io::Result<()> {
    for _ in 0..TRIES {
        match master.reserve(rt.alloc(), 1) {
            Ok(()) => return open(rt, master),
            Err(_) => again(rt)?,
        }
    }
    Err(io::Error::from(AllocError))
}

/// Opens the next cycle, where there is one and room for the event, and prints it.
fn open(rt: &HostRuntime, master: &mut Master) -> io::Result<()>
    requires spare { 1 ≤ master.old.spare }
{
    if master.next() >= OPENINGS_END {
        return Ok(());
    }
    let order = master.open();
    println!(rt;
        "open {} {} {}",
        order.cycle,
        order.mask.bits(),
        order.learned.is_some()
    )
}

/// Prints the certificate of the table.
fn certified(rt: &HostRuntime, master: &Master) -> io::Result<()> {
    for _ in 0..TRIES {
        match plan_text(rt.alloc(), master) {
            Ok(text) => return print!(rt; "{text}"),
            Err(_) => again(rt)?,
        }
    }
    Err(io::Error::from(AllocError))
}

/// The text of the certificate of the table.
fn plan_text(alloc: Global, master: &Master) -> Result<String, AllocError> {
    let certificate = master.certificate(alloc)?;
    format!(in alloc; "{certificate:?}\n")
}
