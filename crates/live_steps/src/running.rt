//! The run of a steps file by threads.

ghost use Rattle.std.specs.Prelude.{◌≡◌, IfOk};
ghost use Rattle.requests_file.specs.RequestsFile.{AreLegal};
ghost use Rattle.steps_file.specs.StepsFile.{AreLegalSteps};
ghost use Rattle.system_file.specs.SystemFile.{IsSystem};
ghost use Rattle.live_run.specs.Left.{left_of};
ghost use Rattle.live_steps.specs.Live.{IsLive};

use crate::parting::part;
use async_window::Request;
use live_master::laws::events_in_histories;
use live_run::{EndedRun, Gate, run_whole};
use std::alloc::{AllocError, Global};
use std::sync::Wait;
use std::thread::Threads;
use steps_file::Step;
use system_file::System;

/// Has the steps of a file answered on the bus of a system with these requests, by a dispatcher and eight operators in
/// threads of their own, which share a master. Each passes the gate as in a run of `live_run`.
///
/// # Errors
///
/// Only where memory runs out.
pub fn live<T: Threads + Wait + Sync, G: Gate>(
    rt: &T,
    alloc: Global,
    system: &System,
    steps: Vec<Step>,
    requests: &[Request],
    gate: &G,
) -> Result<EndedRun, AllocError>
    requires system { IsSystem system.now }
    requires steps { AreLegalSteps steps.items }
    requires requests { AreLegal system.now.owners requests.now }
    ensures run { IfOk result
        (λ ended. IsLive system.now steps.items requests.now ended.master.history ended.run.trace) }
    ensures rules { IfOk result (λ ended. ended.master.rules ≡ system.now.rules) }
    ensures left { IfOk result
        (λ ended. ended.run.left ≡ left_of system.now.owners requests.now ended.run.trace) }
{
    events_in_histories();
    let parts = part(alloc, steps)?;
    run_whole(
        rt,
        alloc,
        system.rules,
        system.layout,
        system.owners.as_slice(),
        requests,
        parts.cycles,
        parts.scripts,
        gate,
    )
}
