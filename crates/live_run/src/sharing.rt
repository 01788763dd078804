//! The threads of a run.

ghost use Rattle.std.specs.Prelude.{◌≡◌, ◌+◌, ◌<◌, length, OnOk};
ghost use Rattle.profile.specs.Limits.{openings_end};
ghost use Rattle.master_core.specs.History.{next_of};
ghost use Rattle.kept_run.specs.Setting.{Setting};
ghost use Rattle.live_master.specs.Passes.{IsPassOf};
ghost use Rattle.live_run.specs.Crew.{AreDone, AreHired, IsHired};
ghost use Rattle.live_run.specs.Running.{CanDispatch, IsRunning, KeepsPasses};
ghost use Rattle.live_run.specs.Left.{numbers_of};
ghost use Rattle.cycle_engine.specs.Nodes.{states_of};

use crate::crew::{Operator, take_part};
use crate::dispatching::{LiveBus, dispatch};
use crate::points::Gate;
use crate::script::Script;
use live_master::{DispatcherPass, LiveMaster};
use std::alloc::{AllocError, Global};
use std::sync::Wait;
use std::thread;
use std::thread::Threads;

/// The most operators of a run.
pub const OPERATORS: usize = 8;

/// Has the script of each operator's place answered, each in a thread of its own.
fn operate_all<T: Threads + Wait + Sync, G: Gate>(
    rt: &T,
    alloc: Global,
    shared: &LiveMaster,
    operators: &mut [Operator],
    scripts: &[Script],
    gate: &G,
)
    requires hired { AreHired shared.now operators.old }
    requires scripts { length scripts.now ≡ length operators.old }
    ensures done { AreDone shared.now scripts.now operators.new }
    ensures length { length operators.new ≡ length operators.old }
{
    thread::for_each_mut(
        rt,
        operators,
        OPERATORS,
        &|place: usize, operator: &mut Operator| -> ()
            requires { (place < length scripts.now) × IsHired shared.now (place + 1) operator.now }
        { take_part(rt, alloc, shared, operator, &scripts[place], gate) },
    );
}

/// Runs the dispatcher beside the operators.
pub fn share<T: Threads + Wait + Sync, G: Gate>(
    rt: &T,
    alloc: Global,
    shared: &LiveMaster,
    pass: &mut DispatcherPass,
    bus: &mut LiveBus,
    cycles: u64,
    operators: &mut [Operator],
    scripts: &[Script],
    gate: &G,
) -> Result<(), AllocError>
    requires of { IsPassOf shared.now pass.old }
    requires dispatcher { pass.old.view.number ≡ 0 }
    requires none { next_of pass.old.view.mine ≡ 0 }
    requires cycles { cycles < openings_end }
    requires running { CanDispatch shared.now pass.old.view.seen bus.old }
    requires hired { AreHired shared.now operators.old }
    requires scripts { length scripts.now ≡ length operators.old }
    ensures running { (setting : Setting) → IsRunning setting shared.now pass.old.view.seen bus.old
        → IsRunning setting shared.now pass.new.view.seen bus.new }
    ensures numbers { numbers_of (states_of bus.new.nodes.nodes) ≡ numbers_of (states_of bus.old.nodes.nodes) }
    ensures cycles { OnOk result (next_of pass.new.view.mine ≡ cycles) }
    ensures stays { KeepsPasses pass.old.view pass.new.view }
    ensures standing { IsPassOf shared.now pass.new }
    ensures done { AreDone shared.now scripts.now operators.new }
    ensures length { length operators.new ≡ length operators.old }
{
    let (ran, ()) = thread::join_mut(
        rt,
        &mut || -> Result<(), AllocError>
            requires { IsPassOf shared.now pass.now × (pass.now.view.number ≡ 0)
                × (next_of pass.now.view.mine ≡ 0) × (cycles < openings_end)
                × CanDispatch shared.now pass.now.view.seen bus.now }
        { dispatch(rt, alloc, shared, pass, bus, cycles, gate) },
        &mut || -> ()
            requires { (AreHired shared.now operators.now) × (length scripts.now ≡ length operators.now) }
        { operate_all(rt, alloc, shared, operators, scripts, gate) },
    );
    ran
}
