//! The operators' part of a run.

ghost use Rattle.std.specs.Prelude.{◌≡◌, ◌++◌, ◌∷◌, [], OnOk, map};
ghost use Rattle.change_protocol.specs.declared.operations.Act.TheVariants as act_of;
ghost use Rattle.turn_lock.specs.Passes.{IsOfLock};
ghost use Rattle.live_master.specs.Passes.{IsPassOf};
ghost use Rattle.master_core.specs.Calls.{asked, call_of};

use crate::points::{Gate, Point};
use change_protocol::{Act, Change};
use live_master::{LiveMaster, OperatorPass};
use std::alloc::{AllocError, Global};
use std::sync::Wait;

/// Has a change answered. It is planned from the entries that the master keeps, with no turn held, behind a point of
/// the gate.
fn ask<R: Wait, G: Gate>(
    rt: &R,
    alloc: Global,
    shared: &LiveMaster,
    pass: &mut OperatorPass,
    change: &Change,
    gate: &G,
) -> Result<(), AllocError>
    requires of { IsOfLock shared.now pass.old }
    ensures answered { OnOk result (map call_of pass.new.view.mine
        ≡ map call_of pass.old.view.mine ++ asked pass.old.view.number (act_of.Ask change.now) ∷ []) }
    ensures number { pass.new.view.number ≡ pass.old.view.number }
    ensures standing { IsPassOf shared.now pass.new }
{
    let snapshot = shared.kept_snapshot(rt, alloc, pass)?;
    gate.pass(Point::Planning {
        caller: pass.caller(),
    });
    let planned = match snapshot.plan(alloc, change) {
        Ok(planned) => planned,
        Err(_full) => return Err(AllocError),
    };
    shared.settle_kept(rt, alloc, pass, planned)?;
    Ok(())
}

/// Has a look answered.
fn look<R: Wait>(
    rt: &R,
    alloc: Global,
    shared: &LiveMaster,
    pass: &mut OperatorPass,
) -> Result<(), AllocError>
    requires of { IsOfLock shared.now pass.old }
    ensures answered { OnOk result (map call_of pass.new.view.mine
        ≡ map call_of pass.old.view.mine ++ asked pass.old.view.number act_of.Look ∷ []) }
    ensures number { pass.new.view.number ≡ pass.old.view.number }
    ensures standing { IsPassOf shared.now pass.new }
{
    shared.look(rt, alloc, pass)?;
    Ok(())
}

/// Has an act answered.
fn answer<R: Wait, G: Gate>(
    rt: &R,
    alloc: Global,
    shared: &LiveMaster,
    pass: &mut OperatorPass,
    act: &Act,
    gate: &G,
) -> Result<(), AllocError>
    requires of { IsOfLock shared.now pass.old }
    ensures answered { OnOk result (map call_of pass.new.view.mine
        ≡ map call_of pass.old.view.mine ++ asked pass.old.view.number act.now ∷ []) }
    ensures number { pass.new.view.number ≡ pass.old.view.number }
    ensures standing { IsPassOf shared.now pass.new }
{
    match act {
        Act::Ask { change } => ask(rt, alloc, shared, pass, change, gate),
        Act::Look => look(rt, alloc, shared, pass),
    }
}

/// Has the acts answered, in their order.
///
/// # Errors
///
/// Only where memory runs out.
pub fn operate<R: Wait, G: Gate>(
    rt: &R,
    alloc: Global,
    shared: &LiveMaster,
    pass: &mut OperatorPass,
    acts: &[Act],
    gate: &G,
) -> Result<(), AllocError>
    requires of { IsPassOf shared.now pass.old }
    ensures answered { OnOk result (map call_of pass.new.view.mine
        ≡ map call_of pass.old.view.mine ++ map (asked pass.old.view.number) acts.now) }
    ensures number { pass.new.view.number ≡ pass.old.view.number }
    ensures standing { IsPassOf shared.now pass.new }
{
    for act in acts {
        answer(rt, alloc, shared, pass, act, gate)?;
        gate.pass(Point::Answered {
            caller: pass.caller(),
        });
    }
    Ok(())
}
