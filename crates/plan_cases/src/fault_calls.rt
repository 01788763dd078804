//! Faults as they are printed.

use crate::numbers::number;
use change_protocol::{ApplyFault, Change, Ops, Why, apply};
use plan_check::{Breach, PlanTextFault};
use recurrence_check::WalkEnd;
use std::alloc::{AllocError, Global};

/// The text of the fault with this number.
pub fn answer(alloc: Global, numbers: &str) -> Result<String, AllocError> {
    match number(numbers) {
        0 => breach(alloc, &Breach::BadLoop { slot: 1 }),
        1 => breach(alloc, &Breach::NotReleased { cycle: 1, slot: 2 }),
        2 => breach(alloc, &Breach::TooWide { cycle: 1, sum: 2 }),
        3 => breach(
            alloc,
            &Breach::Missed {
                slot: 1,
                release: 2,
                cycle: 3,
            },
        ),
        4 => breach(alloc, &Breach::NotClosed { slot: 1 }),
        5 => format!(in alloc; "{}", PlanTextFault::Line { number: 9 }),
        6 => format!(in alloc; "{}", WalkEnd::Memory),
        7 => busy(alloc),
        8 => unasked(alloc),
        _ => Ok(String::new(alloc)),
    }
}

/// The text of a breach.
fn breach(alloc: Global, breach: &Breach) -> Result<String, AllocError> {
    format!(in alloc; "{breach}")
}

/// Why a change is not applied that asks for a slot which is taken for a while.
fn busy(alloc: Global) -> Result<String, AllocError> {
    let why = Why::SlotBusy { until: Some(12) };
    format!(in alloc; "{}", ApplyFault::Malformed { op: 1, why })
}

/// Why a change with no operation is not applied, for which no steps file can ask.
fn unasked(alloc: Global) -> Result<String, AllocError> {
    let change = Change {
        start: 1 << 40,
        ops: Ops::of(Vec::new(alloc)),
    };
    match apply(alloc, &[], 3, 40, &change) {
        Ok(_) => Ok(String::new(alloc)),
        Err(fault) => format!(in alloc; "{fault}"),
    }
}
