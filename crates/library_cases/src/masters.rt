//! The calls of a shared master by one thread.

ghost use Rattle.std.specs.Prelude.{◌≡◌};
ghost use Rattle.profile.specs.Limits.{first_slots};
ghost use Rattle.turn_lock.specs.Passes.{IsOfLock};
ghost use Rattle.admission.specs.Verdict.{IsRules};

use admission_rules::Rules;
use change_protocol::{Change, Op, Ops};
use live_master::{DispatcherPass, LiveMaster, OperatorPass};
use master_core::Event;
use planner_policies::{Fill, Policy};
use profile::{FIRST_SLOTS, OPENINGS_END};
use requirement_table::Entry;
use std::alloc::{AllocError, Global};

/// Rules of one node and 40 slots, with windows of 135 bit times.
fn rules() -> Rules
    ensures rules { IsRules result }
    ensures nodes { result.nodes ≡ 1 }
    ensures slots { result.slots ≡ first_slots }
    ensures window { result.window ≡ 135 }
{
    Rules {
        nodes: 1,
        slots: FIRST_SLOTS,
        policy: Policy::Rm,
        fill: Fill::Prefix,
        window: 135,
        horizon: 10_000,
    }
}

/// The change that is asked for: an entry without data, with an instance in each cycle from this one on.
fn change(alloc: Global, start: u64) -> Result<Change, AllocError> {
    let entry = Entry {
        slot: 0,
        node: 0,
        length: 0,
        phase: 0,
        period: 1,
        deadline: 1,
        priority: 0,
    };
    let ops = Ops::of(Vec::from_slice(alloc, &[Op::Add { entry }])?);
    Ok(Change { start, ops })
}

/// Looks once.
fn look(
    alloc: Global,
    shared: &LiveMaster,
    operator: &mut OperatorPass,
    told: &mut String,
) -> Result<(), AllocError>
    requires of { IsOfLock shared.now operator.old }
    ensures of { IsOfLock shared.now operator.new }
{
    match shared.try_look(alloc, operator) {
        Ok(next) => writeln!(told, "next {next}"),
        Err(fault) => writeln!(told, "{fault:?}"),
    }
}

/// Has the change answered.
fn submit(
    alloc: Global,
    shared: &LiveMaster,
    operator: &mut OperatorPass,
    told: &mut String,
) -> Result<(), AllocError>
    requires of { IsOfLock shared.now operator.old }
    ensures of { IsOfLock shared.now operator.new }
{
    let change = change(alloc, 0)?;
    match shared.try_submit(alloc, operator, &change) {
        Ok(verdict) => writeln!(told, "{verdict:?}"),
        Err(fault) => writeln!(told, "{fault:?}"),
    }
}

/// Opens a cycle.
fn open(
    alloc: Global,
    shared: &LiveMaster,
    dispatcher: &mut DispatcherPass,
    told: &mut String,
) -> Result<(), AllocError>
    requires of { IsOfLock shared.now dispatcher.old }
    ensures of { IsOfLock shared.now dispatcher.new }
    ensures out { dispatcher.new.view.out ≡ dispatcher.old.view.out }
{
    if dispatcher.cycles() >= OPENINGS_END {
        return Ok(());
    }
    match shared.try_open(alloc, dispatcher) {
        Ok(order) => {
            let (cycle, bits) = (order.cycle, order.mask.bits());
            writeln!(told, "cycle {cycle}, slots {bits}")
        }
        Err(fault) => writeln!(told, "{fault:?}"),
    }
}

/// Tells the numbers of both passes.
fn count(
    dispatcher: &DispatcherPass,
    operator: &OperatorPass,
    told: &mut String,
) -> Result<(), AllocError> {
    let (made, out) = (dispatcher.made(), dispatcher.out());
    let (cycles, caller) = (dispatcher.cycles(), operator.caller());
    writeln!(
        told,
        "operator {caller}, made {made}, out {out}, cycles {cycles}"
    )
}

/// Makes the call of a word, and tells its answer.
fn call(
    alloc: Global,
    shared: &LiveMaster,
    dispatcher: &mut DispatcherPass,
    operator: &mut OperatorPass,
    word: &str,
    told: &mut String,
) -> Result<(), AllocError>
    requires dispatcher { IsOfLock shared.now dispatcher.old }
    requires operator { IsOfLock shared.now operator.old }
    ensures dispatcher { IsOfLock shared.now dispatcher.new }
    ensures operator { IsOfLock shared.now operator.new }
    ensures out { dispatcher.new.view.out ≡ dispatcher.old.view.out }
{
    match word {
        "look" => look(alloc, shared, operator, told),
        "submit" => submit(alloc, shared, operator, told),
        "open" => open(alloc, shared, dispatcher, told),
        _ => count(dispatcher, operator, told),
    }
}

/// Makes the calls of the words, and tells the answer of each.
fn call_all(
    alloc: Global,
    shared: &LiveMaster,
    dispatcher: &mut DispatcherPass,
    operator: &mut OperatorPass,
    words: &str,
    told: &mut String,
) -> Result<(), AllocError>
    requires dispatcher { IsOfLock shared.now dispatcher.old }
    requires operator { IsOfLock shared.now operator.old }
    ensures dispatcher { IsOfLock shared.now dispatcher.new }
    ensures operator { IsOfLock shared.now operator.new }
    ensures out { dispatcher.new.view.out ≡ dispatcher.old.view.out }
{
    for word in words.split_ascii_whitespace() {
        call(alloc, shared, dispatcher, operator, word, told)?;
    }
    Ok(())
}

/// Puts the line of an event of the history.
fn put_event(told: &mut String, event: &Event) -> Result<(), AllocError> {
    match event {
        Event::Open { cycle, mask } => {
            let bits = mask.bits();
            writeln!(told, "open {cycle}: slots {bits}")
        }
        Event::Submit {
            caller,
            change,
            verdict,
            ..
        } => {
            let start = change.start;
            writeln!(told, "submit by {caller}, start {start}: {verdict:?}")
        }
        Event::Look { caller, next } => writeln!(told, "look by {caller}: next {next}"),
    }
}

/// Puts the lines of a history.
fn put_history(told: &mut String, history: &[Event]) -> Result<(), AllocError> {
    for event in history {
        put_event(told, event)?;
    }
    Ok(())
}

/// Makes the calls of the words at a shared master with one operator, and closes it. The answers are told, and then the
/// history.
pub fn told(alloc: Global, words: &str, told: &mut String) -> Result<(), AllocError> {
    let (shared, mut dispatcher) = LiveMaster::new(alloc, rules())?;
    let mut operator = shared.operator(&mut dispatcher);
    call_all(alloc, &shared, &mut dispatcher, &mut operator, words, told)?;
    shared.retire(&mut dispatcher, operator);
    let master = shared.close(dispatcher);
    put_history(told, master.history())
}
