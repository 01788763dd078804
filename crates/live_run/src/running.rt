//! The run of a shared master.

ghost use Rattle.std.specs.Prelude.{◌≡◌, ◌<◌, ◌≤◌, IfOk, length};
ghost use Rattle.profile.specs.Limits.{openings_end};
ghost use Rattle.kept_run.specs.Setting.{IsSetting, Setting};
ghost use Rattle.live_master.specs.Passes.{IsPassOf};
ghost use Rattle.live_run.specs.Live.{AreFresh, IsFirstPass, IsLiveRun};
ghost use Rattle.live_run.specs.Left.{left_at, numbers_of};
ghost use Rattle.cycle_engine.specs.Nodes.{states_of};

use crate::crew::{hire, retire_all};
use crate::dispatching::LiveBus;
use crate::frames::{FrameList, Run};
use crate::points::Gate;
use crate::script::Script;
use crate::sharing::share;
use cycle_engine::Nodes;
use kept_run::laws::{beginning, calls_between, promise};
use live_master::laws::{events_in_histories, openings_of_dispatchers};
use live_master::{DispatcherPass, LiveMaster};
use std::alloc::{AllocError, Global};
use std::sync::Wait;
use std::thread::Threads;

/// Runs a shared master: one dispatcher opens `cycles` cycles, below 2^41, and runs each on the bus of `nodes`, while
/// the operators have their scripts answered, up to 8, each in a thread of its own. The script at place `k`, from 0, is
/// that of operator `k` + 1.
///
/// `pass` and `nodes` are as they were made, in a setting with the shared master's rules: its largest window is that of
/// the nodes' layout. Each cycle's opening passes the gate before the cycle is run and once it was run, and each act
/// once it was answered. A change passes it besides before it is planned, with no turn held.
///
/// Afterwards no operator is out, also after an error. What the pass has seen is then the history of the run: it has
/// the calls of the dispatcher and of each script, in their orders, and with the trace it keeps what is promised of
/// every run.
///
/// # Errors
///
/// Only where memory runs out. Some calls were answered then.
pub fn run_live<T: Threads + Wait + Sync, G: Gate>(
    rt: &T,
    alloc: Global,
    shared: &LiveMaster,
    pass: &mut DispatcherPass,
    nodes: Nodes,
    cycles: u64,
    scripts: Vec<Script>,
    gate: &G,
) -> Result<Run, AllocError>
    ghost setting: { Setting }
    requires setting { IsSetting setting }
    requires rules { shared.now.fixed ≡ setting.rules }
    requires pass { IsFirstPass shared.now pass.old }
    requires nodes { AreFresh setting nodes }
    requires cycles { cycles < openings_end }
    requires scripts { length scripts.items ≤ 8 }
    ensures run { IfOk result (λ run. IsLiveRun setting cycles scripts.items pass.new.view run) }
    ensures left { IfOk result (λ run. run.left
        ≡ left_at setting.owners setting.requests run.trace (numbers_of (states_of nodes.nodes))) }
    ensures out { pass.new.view.out ≡ 0 }
    ensures standing { IsPassOf shared.now pass.new }
{
    beginning();
    calls_between();
    promise();
    events_in_histories();
    openings_of_dispatchers();
    let mut bus = LiveBus {
        nodes,
        trace: Vec::new(alloc),
    };
    let mut operators = hire(alloc, shared, pass, scripts.len())?;
    let ran = share(
        rt,
        alloc,
        shared,
        pass,
        &mut bus,
        cycles,
        operators.as_mut_slice(),
        scripts.as_slice(),
        gate,
    );
    let answered = retire_all(shared, pass, operators);
    ran?;
    if !answered {
        return Err(AllocError);
    }
    let left = bus.nodes.left();
    Ok(Run {
        trace: FrameList::of(bus.trace),
        left,
    })
}
