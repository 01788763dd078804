//! The log of a run, written while the run goes on, and what stands behind it.

ghost use Rattle.std.specs.Prelude.{◌≡◌, ◌≤◌, ℕ, List, Option, None, IfOk, IsErrOf, OnErr, OnOk, is_some};
ghost use Rattle.ftt_io.specs.Counts.{Rose};
ghost use Rattle.ftt_io.specs.Puts.{Puts, PutsPrefix};
ghost use Rattle.sporadic_poll.specs.StreamsFile.{AreLegalStreams};
ghost use Rattle.asked_files.specs.Asked.{IsJob};
ghost use Rattle.asked_files.specs.declared.tasks.Task.{Task};
ghost use Rattle.fttcan_top.specs.Ends.{IsCarried, IsOfReport};
ghost use Rattle.fttcan_top.specs.Output.{IsDoneStatus, PutsPart, Tells};

use crate::rows::put_rows;
use crate::status::Status;
use crate::work::status_when;
use asked_files::{Job, Stop, StreamList};
use async_window::{Owner, Request};
use ftt_io::Sink;
use handover_run::replay_handed;
use poll_run::replay_polled;
use replay_run::laws::rows_so_far;
use replay_run::{Cut, Written, replay_to};
use std::alloc::{AllocError, Global};

/// The report of a run, where its frames were kept; else no text.
pub(crate) fn report_of(
    alloc: Global,
    run: Written,
    owners: &[Owner],
    requests: &[Request],
) -> Result<Vec<u8>, AllocError>
    requires events { run.master.keeps ≡ is_some run.trace }
    ensures report { IfOk result
        (λ text. IsOfReport run owners.now requests.now (λ report. text.items ≡ report)) }
{
    let Written { master, trace } = run;
    match trace {
        None => Ok(Vec::new(alloc)),
        Some(trace) => match master.into_master() {
            Some(master) => plan_report::report(alloc, &master, trace.as_slice(), owners, requests),
            None => unreachable!(),
        },
    }
}

/// Puts the report of a run, where its frames were kept.
fn put_report<O: Sink>(
    alloc: Global,
    run: Written,
    owners: &[Owner],
    requests: &[Request],
    out: &mut O,
) -> Result<(), Cut>
    requires events { run.master.keeps ≡ is_some run.trace }
    ensures faults_never_fall { O.faults out.old ≤ O.faults out.new }
    ensures all { OnOk result
        (IsOfReport run owners.now requests.now (Puts (O.told_bytes out.old) (O.told_bytes out.new))) }
    ensures prefix { OnErr result
        (IsOfReport run owners.now requests.now (PutsPrefix (O.told_bytes out.old) (O.told_bytes out.new))) }
    ensures failed { IsErrOf result Cut.Write → Rose (O.faults out.old) (O.faults out.new) }
{
    let text = report_of(alloc, run, owners, requests)?;
    put_rows(out, text.as_slice())?;
    Ok(())
}

/// Runs the steps and writes the log meanwhile, and the report behind it where that is asked for. Answers the status of
/// the run.
///
/// The rows of an event are put when its cycle was run, so what is put is never searched or kept. The frames are kept
/// for the report alone.
///
/// # Errors
///
/// Here and in the two functions below `Memory` where memory runs out, and `Write` where the sink fails.
pub fn write_log<O: Sink>(
    alloc: Global,
    job: &Job,
    report: bool,
    out: &mut O,
) -> Result<Status, Cut>
    requires job { IsJob job.now }
    ensures faults_never_fall { O.faults out.old ≤ O.faults out.new }
    ensures done { IfOk result IsDoneStatus }
    ensures tells { IfOk result
        (λ status. Tells (Task.Log job.now None report) status (O.told_bytes out.old) (O.told_bytes out.new)) }
    ensures cut { OnErr result (PutsPart (Task.Log job.now None report) (O.told_bytes out.old) (O.told_bytes out.new)) }
    ensures failed { IsErrOf result Cut.Write → Rose (O.faults out.old) (O.faults out.new) }
{
    rows_so_far();
    let owners = job.system.owners.as_slice();
    let requests = job.requests.as_slice();
    let steps = job.steps.as_slice();
    let run = replay_to(alloc, &job.system, steps, requests, report, out)?;
    let accepted = run.master.all_accepted();
    put_report(alloc, run, owners, requests, out)?;
    Ok(status_when(accepted))
}

/// Runs the steps, has the standby take over after `at` opened cycles, and writes the log meanwhile. Answers the status
/// of the run.
pub fn write_handed<O: Sink>(alloc: Global, job: &Job, at: u32, out: &mut O) -> Result<Status, Cut>
    requires job { IsJob job.now }
    ensures faults_never_fall { O.faults out.old ≤ O.faults out.new }
    ensures done { IfOk result IsDoneStatus }
    ensures tells { IfOk result
        (λ status. Tells (Task.Handover job.now at) status (O.told_bytes out.old) (O.told_bytes out.new)) }
    ensures cut { OnErr result (PutsPart (Task.Handover job.now at) (O.told_bytes out.old) (O.told_bytes out.new)) }
    ensures failed { IsErrOf result Cut.Write → Rose (O.faults out.old) (O.faults out.new) }
{
    rows_so_far();
    let steps = job.steps.as_slice();
    let requests = job.requests.as_slice();
    let accepted = replay_handed(alloc, &job.system, steps, requests, u64::from(at), out)?;
    Ok(status_when(accepted))
}

/// Runs the steps with these requests in the frames of polled slots, and writes the log meanwhile, and then what became
/// of each request. Answers the status of the run.
pub fn write_polled<O: Sink>(
    alloc: Global,
    job: &Job,
    streams: StreamList,
    out: &mut O,
) -> Result<Status, Cut>
    requires job { IsJob job.now }
    requires streams { AreLegalStreams job.now.system.rules.slots streams }
    ensures faults_never_fall { O.faults out.old ≤ O.faults out.new }
    ensures done { IfOk result IsDoneStatus }
    ensures tells { IfOk result
        (λ status. Tells (Task.Poll job.now streams) status (O.told_bytes out.old) (O.told_bytes out.new)) }
    ensures cut { OnErr result (PutsPart (Task.Poll job.now streams) (O.told_bytes out.old) (O.told_bytes out.new)) }
    ensures failed { IsErrOf result Cut.Write → Rose (O.faults out.old) (O.faults out.new) }
{
    poll_run::laws::rows_so_far();
    let streams = streams.into_vec();
    let accepted = replay_polled(alloc, &job.system, job.steps.as_slice(), streams, out)?;
    Ok(status_when(accepted))
}

/// How a run ended that was written while it went on, as an answer to a task.
pub fn as_answer(ended: Result<Status, Cut>) -> Result<Status, Stop>
    requires done { IfOk ended IsDoneStatus }
    ensures done { IfOk result IsDoneStatus }
    ensures carried { (asked_for : Task) (faults faults_after : ℕ) (old new : Option (List ℕ))
        → IfOk ended (λ status. Tells asked_for status old new) → OnErr ended (PutsPart asked_for old new)
        → (IsErrOf ended Cut.Write → Rose faults faults_after)
        → IsCarried asked_for (Rose faults faults_after) old new result }
{
    match ended {
        Ok(status) => Ok(status),
        Err(Cut::Memory) => Err(Stop::Memory),
        Err(Cut::Write) => Err(Stop::Write),
    }
}
