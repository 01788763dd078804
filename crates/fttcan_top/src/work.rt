//! What is done of what was asked: the answer to a task as a text, before it is written.

ghost use Rattle.std.specs.Prelude.{◌≡◌, ◌≤◌, if◌then◌else◌, Some, IfOk, string_bytes};
ghost use Rattle.ftt_io.specs.Counts.{Rose};
ghost use Rattle.asked_files.specs.Asked.{IsJob};
ghost use Rattle.asked_files.specs.declared.tasks.Task.{Task};
ghost use Rattle.asked_files.specs.Inputs.{IsToCheck};
ghost use Rattle.fttcan_top.specs.Ends.{IsCarried};
ghost use Rattle.fttcan_top.specs.Output.{IsCheckText, IsDoneStatus, IsLiveLog, IsLog, IsOutput, IsPlanText, IsSummary, breach_line, report_if};

use crate::rows::put_rows;
use crate::status::Status;
use crate::streamed::report_of;
use crate::summary::summary_of;
use asked_files::{Job, Stop};
use async_window::{Owner, Request};
use bus_trace::log_text;
use can_frame::TimedFrame;
use ftt_io::Sink;
use generated_input::generate;
use live_run::{EndedRun, Gate};
use master_core::{Event, Master, all_accepted};
use plan_check::{Breach, Certificate, check, write_plan};
use replay_run::{Tailed, answer, asked_table, replay, replay_tail};
use std::alloc::{AllocError, Global};
use std::sync::Wait;
use std::thread::Threads;

/// The answer to a task.
#[derive(Drop)]
pub struct Outcome {
    /// The status of a call that writes it whole.
    pub status: Status,
    pub text: Vec<u8>,
}

/// The status of a run, each of whose changes was accepted or not.
pub fn status_when(accepted: bool) -> Status
    ensures status { result ≡ if accepted then Status.Done else Status.Refused }
    ensures done { IsDoneStatus result }
{
    if accepted {
        Status::Done
    } else {
        Status::Refused
    }
}

/// The report of a run, where it is asked for.
fn report_if(
    alloc: Global,
    report: bool,
    master: &Master,
    trace: &[TimedFrame],
    owners: &[Owner],
    requests: &[Request],
) -> Result<Vec<u8>, AllocError>
    ensures report { IfOk result
        (λ text. text.items ≡ report_if report master.now.history trace.now owners.now requests.now) }
{
    if report {
        plan_report::report(alloc, master, trace, owners, requests)
    } else {
        Ok(Vec::new(alloc))
    }
}

/// Runs the steps, and answers with so many of the last rows of the log, and with the report after them where that is
/// asked for. The other rows are dropped while the run goes on.
pub fn tail_of(alloc: Global, job: &Job, count: u16, report: bool) -> Result<Outcome, AllocError>
    requires job { IsJob job.now }
    ensures log { IfOk result (λ outcome. IsLog job.now (Some count) report outcome.status outcome.text.items) }
    ensures done { IfOk result (λ outcome. IsDoneStatus outcome.status) }
{
    let system = &job.system;
    let owners = job.system.owners.as_slice();
    let steps = job.steps.as_slice();
    let requests = job.requests.as_slice();
    let count = usize::from(count);
    let Tailed { run, rows } = replay_tail(alloc, system, steps, requests, report, count)?;
    let accepted = run.master.all_accepted();
    let behind = report_of(alloc, run, owners, requests)?;
    let mut text = rows;
    text.extend_from_slice(behind.as_slice())?;
    Ok(Outcome {
        status: status_when(accepted),
        text,
    })
}

/// Runs the steps by threads, each of which passes the gate, and answers with the log, and with the report behind it
/// where that is asked for.
pub fn live_log_of<T: Threads + Wait + Sync, G: Gate>(
    rt: &T,
    alloc: Global,
    job: Job,
    report: bool,
    gate: &G,
) -> Result<Outcome, AllocError>
    requires job { IsJob job }
    ensures log { IfOk result (λ outcome. IsLiveLog job report outcome.status outcome.text.items) }
    ensures done { IfOk result (λ outcome. IsDoneStatus outcome.status) }
{
    let Job {
        system,
        steps,
        requests,
    } = job;
    let owners = system.owners.as_slice();
    let requests = requests.as_slice();
    let steps = steps.into_vec();
    let EndedRun { master, run } = live_steps::live(rt, alloc, &system, steps, requests, gate)?;
    let history = master.history();
    let trace = run.trace.as_slice();
    let mut text = log_text(alloc, history, trace)?;
    let rows = report_if(alloc, report, &master, trace, owners, requests)?;
    text.extend_from_slice(rows.as_slice())?;
    let status = status_when(all_accepted(history));
    Ok(Outcome { status, text })
}

/// Runs the input that a number makes, and answers with the summary.
pub fn summary_of_made(alloc: Global, number: u32) -> Result<Outcome, AllocError>
    ensures summary { IfOk result (λ outcome. IsSummary number outcome.status outcome.text.items) }
    ensures done { IfOk result (λ outcome. IsDoneStatus outcome.status) }
{
    let made = generate(alloc, number)?;
    let requests = made.requests.as_slice();
    let run = replay(alloc, &made.system, made.steps.as_slice(), requests)?;
    let text = summary_of(
        alloc,
        number,
        run.master.history(),
        run.trace.as_slice(),
        requests.len(),
    )?;
    let (status, text) = (Status::Done, text.into_bytes());
    Ok(Outcome { status, text })
}

/// Has a master answer the steps, and answers with the plan of the table that stands then.
pub fn plan_of(alloc: Global, job: &Job) -> Result<Outcome, AllocError>
    requires job { IsJob job.now }
    ensures plan { IfOk result (λ outcome. IsPlanText job.now outcome.status outcome.text.items) }
    ensures done { IfOk result (λ outcome. IsDoneStatus outcome.status) }
{
    let master = answer(alloc, &job.system.rules, job.steps.as_slice())?;
    let certificate = master.certificate(alloc)?;
    let text = write_plan(alloc, &certificate)?;
    Ok(Outcome {
        status: status_when(all_accepted(master.history())),
        text,
    })
}

/// The line of a breach.
fn breach_line(alloc: Global, breach: &Breach) -> Result<String, AllocError>
    ensures line { IfOk result (λ text. string_bytes text ≡ breach_line breach.now) }
{
    match breach {
        Breach::BadLoop { slot } => format!(in alloc; "no,badloop,{slot}\n"),
        Breach::NotReleased { cycle, slot } => {
            format!(in alloc; "no,notreleased,{cycle},{slot}\n")
        }
        Breach::TooWide { cycle, sum } => format!(in alloc; "no,toowide,{cycle},{sum}\n"),
        Breach::Missed {
            slot,
            release,
            cycle,
        } => format!(in alloc; "no,missed,{slot},{release},{cycle}\n"),
        Breach::NotClosed { slot } => format!(in alloc; "no,notclosed,{slot}\n"),
    }
}

/// Checks a plan against the table that the steps ask for.
pub fn check_of(alloc: Global, job: &Job, certificate: &Certificate) -> Result<Outcome, AllocError>
    requires job { IsJob job.now }
    requires certificate { IsToCheck certificate.now }
    ensures answer { IfOk result
        (λ outcome. IsCheckText job.now certificate.now outcome.status outcome.text.items) }
    ensures done { IfOk result (λ outcome. IsDoneStatus outcome.status) }
{
    let rules = &job.system.rules;
    let placed = asked_table(alloc, rules, job.steps.as_slice())?;
    match check(placed.as_slice(), rules.window, certificate) {
        Ok(()) => Ok(Outcome {
            status: Status::Done,
            text: b"yes\n".to_vec(alloc)?,
        }),
        Err(breach) => Ok(Outcome {
            status: Status::No,
            text: breach_line(alloc, &breach)?.into_bytes(),
        }),
    }
}

/// Writes an answer that was worked out, row by row.
pub fn put_answer<O: Sink>(answer: Result<Outcome, AllocError>, out: &mut O) -> Result<Status, Stop>
    requires done { IfOk answer (λ outcome. IsDoneStatus outcome.status) }
    ensures faults_never_fall { O.faults out.old ≤ O.faults out.new }
    ensures done { IfOk result IsDoneStatus }
    ensures carried { (asked_for : Task)
        → IfOk answer (λ outcome. IsOutput asked_for outcome.status outcome.text.items)
        → IsCarried asked_for (Rose (O.faults out.old) (O.faults out.new))
        (O.told_bytes out.old) (O.told_bytes out.new) result }
{
    match answer {
        Ok(outcome) => match put_rows(out, outcome.text.as_slice()) {
            Ok(()) => Ok(outcome.status),
            Err(_) => Err(Stop::Write),
        },
        Err(_) => Err(Stop::Memory),
    }
}
