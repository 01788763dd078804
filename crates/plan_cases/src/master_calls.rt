//! Calls of a master.

ghost use Rattle.std.specs.Prelude.{◌≡◌, []};

use crate::admission_calls::{known, rules, rules_of};
use crate::numbers::{self, first, number};
use admission::Verdict;
use change_protocol::{Change, Op, Ops};
use master_core::{Event, Master, plan_apart};
use planner_policies::Fill;
use profile::OPENINGS_END;
use requirement_table::{Entry, MOST_SLOTS, Mask, Placed};
use std::alloc::{AllocError, Global};

/// How a master stands that was asked to add these entries, before it opens a cycle and after that, and its rules: WINDOW
/// HORIZON.
pub fn shown(alloc: Global, placed: &[Placed], numbers: &str) -> Result<String, AllocError> {
    let (window, horizon) = first(numbers);
    let rules = rules(window, number(horizon));
    if !known(&rules) {
        return Ok(String::new(alloc));
    }
    let mut master = Master::new(alloc, rules)?;
    add(alloc, &mut master, 0, placed)?;
    states(alloc, &mut master)
}

/// How a master stands before it opens a cycle and after that, and its rules.
fn states(alloc: Global, master: &mut Master) -> Result<String, AllocError> {
    let before = state(alloc, master)?;
    open(alloc, master)?;
    let after = state(alloc, master)?;
    format!(in alloc; "{before}, {after}, {:?}", master.rules())
}

/// What a new master with this filling answers to a change that adds these entries from cycle 0 on, and the numbers of
/// the sets of slots that go with that: SLOTS WINDOW HORIZON.
pub fn added(
    alloc: Global,
    fill: Fill,
    placed: &[Placed],
    numbers: &str,
) -> Result<String, AllocError> {
    let (slots, rest) = first(numbers);
    let (window, horizon) = first(rest);
    let rules = rules_of(slots, fill, window, number(horizon));
    if !known(&rules) {
        return Ok(String::new(alloc));
    }
    let mut master = Master::new(alloc, rules)?;
    let verdict = add(alloc, &mut master, 0, placed)?;
    let masks = masks(alloc, &master, &verdict)?;
    format!(in alloc; "{verdict:?} {masks:?}")
}

/// The numbers of the sets of slots that go with the last verdict of a master: those of the certificate where the change
/// is accepted, and else those of the plan up to the miss.
fn masks(alloc: Global, master: &Master, verdict: &Verdict) -> Result<Vec<u128>, AllocError> {
    if verdict.is_accepted() {
        let certificate = master.certificate(alloc)?;
        numbers::bits(alloc, certificate.masks())
    } else {
        numbers::bits(alloc, last_trail(master))
    }
}

/// What is answered to a change that adds these entries from cycle START on. It is planned apart before cycle 0 and
/// settled after two cycles, and where OTHER is a slot, after a change that adds an entry in that slot. Then the cycle
/// from which it was planned: WINDOW HORIZON START OTHER.
pub fn settled(alloc: Global, placed: &[Placed], numbers: &str) -> Result<String, AllocError> {
    let (window, rest) = first(numbers);
    let (horizon, rest) = first(rest);
    let (start, other) = first(rest);
    let rules = rules(window, horizon);
    if !known(&rules) {
        return Ok(String::new(alloc));
    }
    let mut master = Master::new(alloc, rules)?;
    let change = adding(alloc, start, placed)?;
    settled_later(alloc, &mut master, &change, number(other))
}

/// What a master without an event answers to a change that is planned apart, and settled after what happens meanwhile.
fn settled_later(
    alloc: Global,
    master: &mut Master,
    change: &Change,
    other: u64,
) -> Result<String, AllocError>
    requires new { master.old.history ≡ [] }
{
    let snapshot = master.snapshot(alloc)?;
    let planned = plan_apart(alloc, &snapshot, change)?;
    let verdict = planned.verdict();
    go_on(alloc, master, other)?;
    let settled = master.settle(alloc, 1, change, planned)?;
    let from = last_from(master);
    format!(in alloc; "{verdict:?}, {settled:?} from {from:?}")
}

/// Opens two cycles, and adds an entry in a slot.
fn go_on(alloc: Global, master: &mut Master, other: u64) -> Result<(), AllocError>
    ensures rules { master.new.rules ≡ master.old.rules }
{
    open(alloc, master)?;
    open(alloc, master)?;
    add_other(alloc, master, other)
}

/// Asks a master to add these entries from cycle `start` on.
fn add(
    alloc: Global,
    master: &mut Master,
    start: u64,
    placed: &[Placed],
) -> Result<Verdict, AllocError>
    ensures rules { master.new.rules ≡ master.old.rules }
{
    let change = adding(alloc, start, placed)?;
    master.submit(alloc, 1, &change)
}

/// A change that adds these entries from cycle `start` on.
fn adding(alloc: Global, start: u64, placed: &[Placed]) -> Result<Change, AllocError> {
    let mut operations = Vec::new(alloc);
    for placed in placed {
        operations.push(Op::Add {
            entry: placed.entry,
        })?;
    }
    Ok(Change {
        start,
        ops: Ops::of(operations),
    })
}

/// Opens the next cycle.
fn open(alloc: Global, master: &mut Master) -> Result<(), AllocError>
    ensures rules { master.new.rules ≡ master.old.rules }
{
    master.reserve(alloc, 1)?;
    if master.next() < OPENINGS_END {
        master.open();
    }
    Ok(())
}

/// Adds an entry without bytes in this slot, of period 1, from the next cycle on. A greater number is no slot.
fn add_other(alloc: Global, master: &mut Master, slot: u64) -> Result<(), AllocError>
    ensures rules { master.new.rules ≡ master.old.rules }
{
    if slot >= u64::from(MOST_SLOTS) {
        return Ok(());
    }
    let entry = Entry {
        slot: slot as u8,
        node: 0,
        length: 0,
        phase: 0,
        period: 1,
        deadline: 1,
        priority: 0,
    };
    let start = master.next();
    let placed = [Placed {
        entry,
        origin: start,
        end: None,
    }];
    let change = adding(alloc, start, &placed)?;
    master.submit(alloc, 2, &change)?;
    Ok(())
}

/// The cycle from which the last change of the history was planned, where that is its last event.
fn last_from(master: &Master) -> Option<u64> {
    match master.history().last() {
        Some(Event::Submit { from, .. }) => Some(*from),
        _ => None,
    }
}

/// The plan that goes with the last event of the history, where that is a change.
fn last_trail(master: &Master) -> &[Mask] {
    match master.history().last() {
        Some(Event::Submit { trail, .. }) => trail.as_slice(),
        _ => &[],
    }
}

/// The next cycle, the number of the set of slots that are pending before it, and that of those to be flagged in it.
fn state(alloc: Global, master: &Master) -> Result<String, AllocError> {
    let state = master.state();
    if master.next() >= OPENINGS_END {
        return Ok(String::new(alloc));
    }
    let planned = master.planned();
    format!(in alloc;
        "{} {} {}",
        state.cycle,
        state.pending.bits(),
        planned.bits()
    )
}
