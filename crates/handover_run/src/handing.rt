//! The run of a steps file whose master is replaced midway, with its log put to a sink.

ghost use Rattle.std.specs.Prelude.{◌≤◌, IfErr, IfOk, IsErrOf};
ghost use Rattle.ftt_io.specs.Counts.{Rose};
ghost use Rattle.system_file.specs.SystemFile.{IsSystem};
ghost use Rattle.requests_file.specs.RequestsFile.{AreLegal};
ghost use Rattle.steps_file.specs.StepsFile.{AreLegalSteps};
ghost use Rattle.replay_run.specs.Begun.{IsRunBegun};
ghost use Rattle.replay_run.specs.Run.{IsRun};
ghost use Rattle.replay_run.specs.Whole.{IsCutOff, IsHeard, IsLogOf};
ghost use Rattle.replay_run.specs.Written.{IsRunCut, IsWritten};
ghost use Rattle.handover_run.specs.HandedOver.{IsHandedLog};

use crate::handed::Handed;
use async_window::Request;
use ftt_io::Sink;
use kept_run::laws::{beginning, promise};
use replay_run::{Cut, Listener, ToSink, in_ranges, log_run};
use std::alloc::Global;
use steps_file::Step;
use system_file::System;

/// Answers the steps of a file on the bus of a system with these requests, and has the log heard meanwhile. After `at`
/// opened cycles the standby goes on. Answers whether each change was accepted.
fn log_handed<L: Listener>(
    alloc: Global,
    system: &System,
    steps: &[Step],
    requests: &[Request],
    at: u64,
    listener: &mut L,
) -> Result<bool, Cut>
    requires system { IsSystem system.now }
    requires steps { AreLegalSteps steps.now }
    requires requests { AreLegal system.now.owners requests.now }
    ensures heard { IfOk result
        (λ quiet. IsHeard L.heard (IsHandedLog system.now steps.now requests.now quiet) listener.old listener.new) }
    ensures cut { IfErr result (IsCutOff L.heard L.broke (IsRunBegun system.now steps.now requests.now)
        (IsLogOf (IsRun system.now steps.now requests.now)) listener.old listener.new) }
{
    promise();
    beginning();
    in_ranges(system, requests);
    let mut handed = Handed::begin(alloc, system, requests, at)?;
    log_run(alloc, &mut handed, steps, listener)?;
    Ok(handed.quiet)
}

/// Answers the steps of a file, in their order, on the bus of a system with these requests, and puts the log meanwhile,
/// as [`replay_to`](replay_run::replay_to) does. After `at` opened cycles the first master is dropped. Its standby goes
/// on, which was told the accepted changes and heard the triggers. Where fewer cycles are opened nothing is handed
/// over. The rows are those of the one run of the steps, for every `at`. Answers whether each change was accepted.
///
/// # Errors
///
/// `Memory` where memory runs out: then the sink took all rows of the calls that were answered before. `Write` where
/// the sink fails: then it took the first bytes of the rows of a run that was begun, or of the whole log.
pub fn replay_handed<O: Sink>(
    alloc: Global,
    system: &System,
    steps: &[Step],
    requests: &[Request],
    at: u64,
    out: &mut O,
) -> Result<bool, Cut>
    requires system { IsSystem system.now }
    requires steps { AreLegalSteps steps.now }
    requires requests { AreLegal system.now.owners requests.now }
    ensures faults_never_fall { O.faults out.old ≤ O.faults out.new }
    ensures written { IfOk result (λ quiet. IsWritten (IsHandedLog system.now steps.now requests.now quiet)
        (O.told_bytes out.old) (O.told_bytes out.new)) }
    ensures cut { IfErr result (IsRunCut (IsRunBegun system.now steps.now requests.now)
        (IsLogOf (IsRun system.now steps.now requests.now)) (O.told_bytes out.old) (O.told_bytes out.new)) }
    ensures failed { IsErrOf result Cut.Write → Rose (O.faults out.old) (O.faults out.new) }
{
    let mut sink = ToSink { out };
    let quiet = log_handed(alloc, system, steps, requests, at, &mut sink)?;
    Ok(quiet)
}
