//! Calls of a master that keeps the last event of its history alone, beside those of one that keeps all events.

ghost use Rattle.admission.specs.Verdict.{IsRules};

use crate::admission_calls::{known, rules};
use crate::numbers::{first, number};
use admission::Rules;
use change_protocol::{Change, Op, Ops};
use master_core::LeanMaster;
use profile::OPENINGS_END;
use requirement_table::Placed;
use std::alloc::{AllocError, Global};

/// How often the entries are added and ended.
const ROUNDS: usize = 40;

/// Whether the verdicts and the orders of both masters are the same where these entries are added and ended again and
/// again. Then how many entries a master has that is made of the one which keeps all events, and how many the other one
/// keeps: WINDOW HORIZON.
pub fn answer(alloc: Global, placed: &[Placed], numbers: &str) -> Result<String, AllocError> {
    let (window, horizon) = first(numbers);
    let rules = rules(window, number(horizon));
    if !known(&rules) {
        return Ok(String::new(alloc));
    }
    let mut all = String::new(alloc);
    let keeping = asked(alloc, rules, true, placed, &mut all)?;
    let mut last = String::new(alloc);
    let lean = asked(alloc, rules, false, placed, &mut last)?;
    let few = lean.placed().len();
    let whole = match keeping.into_master() {
        Some(master) => master.placed().len(),
        None => 0,
    };
    format!(in alloc; "{} {whole} {few}", all == last)
}

/// A master that was asked to add and to end the entries again and again. Each verdict and each order is told.
fn asked(
    alloc: Global,
    rules: Rules,
    keeps: bool,
    placed: &[Placed],
    told: &mut String,
) -> Result<LeanMaster, AllocError>
    requires rules { IsRules rules }
{
    let mut master = LeanMaster::new(alloc, rules, keeps)?;
    for _ in 0..ROUNDS {
        round(alloc, &mut master, placed, told)?;
    }
    Ok(master)
}

/// Adds the entries, adds them once more, which is refused, and ends them.
fn round(
    alloc: Global,
    master: &mut LeanMaster,
    placed: &[Placed],
    told: &mut String,
) -> Result<(), AllocError> {
    go_on(alloc, master, adding(alloc, placed)?, told)?;
    go_on(alloc, master, adding(alloc, placed)?, told)?;
    go_on(alloc, master, ending(alloc, placed)?, told)
}

/// Asks for these operations from the next cycle on, and opens that cycle. Tells the verdict and the order.
fn go_on(
    alloc: Global,
    master: &mut LeanMaster,
    ops: Ops,
    told: &mut String,
) -> Result<(), AllocError> {
    let start = master.next();
    let verdict = master.submit(alloc, 1, &Change { start, ops })?;
    writeln!(told, "{verdict:?}")?;
    master.reserve(alloc, 1)?;
    if master.next() >= OPENINGS_END {
        return Ok(());
    }
    let order = master.open();
    let (cycle, mask, l) = (order.cycle, order.mask.bits(), order.l);
    writeln!(told, "{cycle} {mask} {l}")
}

/// The operations that add these entries.
fn adding(alloc: Global, placed: &[Placed]) -> Result<Ops, AllocError> {
    let mut operations = Vec::new(alloc);
    for placed in placed {
        operations.push(Op::Add {
            entry: placed.entry,
        })?;
    }
    Ok(Ops::of(operations))
}

/// The operations that end the entries of these slots.
fn ending(alloc: Global, placed: &[Placed]) -> Result<Ops, AllocError> {
    let mut operations = Vec::new(alloc);
    for placed in placed {
        operations.push(Op::Remove {
            slot: placed.entry.slot,
        })?;
    }
    Ok(Ops::of(operations))
}
