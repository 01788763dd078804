//! Runs of one node, with no requests and one operator.

ghost use Rattle.std.specs.Prelude.{◌≡◌, ◌≤◌, ◌<◌, length};
ghost use Rattle.profile.specs.Limits.{first_slots, openings_end};
ghost use Rattle.admission.specs.Verdict.{IsRules};

use crate::gates::{HeldPoints, HoldingGate};
use admission_rules::Rules;
use change_protocol::{Act, Change, Op, Ops};
use cycle_engine::Nodes;
use cycle_layout::Layout;
use live_master::LiveMaster;
use live_run::{ActList, Gate, Script, run_live};
use master_core::{Event, Master};
use planner_policies::{Fill, Policy};
use profile::FIRST_SLOTS;
use requirement_table::Entry;
use std::alloc::{AllocError, Global};
use std::sync::Wait;
use std::thread::Threads;

/// Rules of one node and 40 slots, with windows of 135 bit times.
fn rules() -> Rules
    ensures rules { IsRules result }
    ensures nodes { result.nodes ≡ 1 }
    ensures slots { result.slots ≡ first_slots }
    ensures window { result.window ≡ 135 }
{
    Rules {
        nodes: 1,
        slots: FIRST_SLOTS,
        policy: Policy::Rm,
        fill: Fill::Prefix,
        window: 135,
        horizon: 10_000,
    }
}

/// The change that is asked for: an entry without data, with an instance in each cycle from 100 on.
fn change(alloc: Global) -> Result<Change, AllocError> {
    let entry = Entry {
        slot: 0,
        node: 0,
        length: 0,
        phase: 0,
        period: 1,
        deadline: 1,
        priority: 0,
    };
    let ops = Ops::of(Vec::from_slice(alloc, &[Op::Add { entry }])?);
    Ok(Change { start: 100, ops })
}

/// A run of so many cycles of 1,000 bit times, in which one operator has this script answered. The master has the
/// history that the dispatcher's pass has seen.
fn run<T: Threads + Wait + Sync, G: Gate>(
    threads: &T,
    alloc: Global,
    cycles: u64,
    script: Script,
    gate: &G,
) -> Result<Master, AllocError>
    requires cycles { cycles < openings_end }
{
    let Ok(layout) = Layout::new(1_000, 0, 135, FIRST_SLOTS) else {
        return Err(AllocError);
    };
    layout.is_in_range();
    let mut scripts = Vec::new(alloc);
    scripts.push(script)?;
    let (shared, mut pass) = LiveMaster::new(alloc, rules())?;
    let nodes = Nodes::new(alloc, layout, 1, &[], &[])?;
    run_live(
        threads, alloc, &shared, &mut pass, nodes, cycles, scripts, gate,
    )?;
    Ok(shared.close(pass))
}

/// The script of an operator that asks for a change which starts in cycle 100. Where a cycle is to be held for it, the
/// operator looks first.
fn script(alloc: Global, held: HeldPoints) -> Result<Script, AllocError> {
    let mut acts = Vec::new(alloc);
    if let HeldPoints::Cycle = held {
        acts.push(Act::Look)?;
    }
    acts.push(Act::Ask {
        change: change(alloc)?,
    })?;
    Ok(Script {
        acts: ActList::of(acts),
    })
}

/// The last event of a history, where that is a change: its verdict, and whether it was planned from a cycle that was
/// opened before it.
fn put_last_change(told: &mut String, master: &Master) -> Result<(), AllocError> {
    let next = master.next();
    match master.history().last() {
        Some(Event::Submit { from, verdict, .. }) => {
            let earlier = *from < next;
            writeln!(
                told,
                "{next} cycles, {verdict:?}, planned earlier: {earlier}"
            )
        }
        _ => writeln!(told, "the last event is no change"),
    }
}

/// Tells of a run whose gate holds threads in this way.
fn held_run<T: Threads + Wait + Sync>(
    alloc: Global,
    threads: &T,
    held: HeldPoints,
    told: &mut String,
) -> Result<(), AllocError> {
    let cycles = match held {
        HeldPoints::Cycle => 4,
        HeldPoints::Plan => 2,
    };
    let gate = HoldingGate::new(held);
    let master = run(threads, alloc, cycles, script(alloc, held)?, &gate)?;
    if gate.is_given_up() {
        return writeln!(told, "given up");
    }
    put_last_change(told, &master)
}

/// Tells of a run. What is given is what its gate holds: a cycle that is open, or a plan.
pub fn tell<T: Threads + Wait + Sync>(
    alloc: Global,
    threads: &T,
    given: &str,
    told: &mut String,
) -> Result<(), AllocError> {
    match given.trim_end() {
        "held" => held_run(alloc, threads, HeldPoints::Cycle, told),
        "planned" => held_run(alloc, threads, HeldPoints::Plan, told),
        _ => Ok(()),
    }
}
