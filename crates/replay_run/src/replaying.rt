//! The run of a steps file: with its trace, with its log put to a sink, or with the last rows of its log.

ghost use Rattle.std.specs.Prelude.{◌≡◌, ◌≤◌, Some, IfErr, IfOk, IsErrOf, is_some};
ghost use Rattle.ftt_io.specs.Counts.{Rose};
ghost use Rattle.system_file.specs.SystemFile.{IsSystem};
ghost use Rattle.requests_file.specs.RequestsFile.{AreLegal};
ghost use Rattle.steps_file.specs.StepsFile.{AreLegalSteps};
ghost use Rattle.replay_run.specs.Begun.{IsRunBegun};
ghost use Rattle.replay_run.specs.Run.{IsRun};
ghost use Rattle.replay_run.specs.Whole.{IsLogOf};
ghost use Rattle.replay_run.specs.Written.{HasLastRows, IsKeptLog, IsRunCut, IsWritten};

use crate::bus::Bus;
use crate::cut::Cut;
use crate::listener::{Silence, Tail, ToSink};
use crate::logging::log_steps;
use async_window::Request;
use can_frame::TimedFrame;
use ftt_io::Sink;
use master_core::{LeanMaster, Master};
use std::alloc::{AllocError, Global};
use steps_file::Step;
use system_file::System;

/// A run behind its last step.
#[derive(Drop)]
pub struct ReplayedRun {
    /// The master, with all calls and their answers.
    pub master: Master,
    /// The frames on the bus, in the order of their starts.
    pub trace: Vec<TimedFrame>,
}

/// A run behind its last step, whose log was written.
#[derive(Drop)]
pub struct Written {
    /// The master. It keeps all calls and their answers where the frames are kept, and else the last one alone.
    pub master: LeanMaster,
    /// The frames on the bus, in the order of their starts, where they are kept.
    pub trace: Option<Vec<TimedFrame>>,
}

/// A run behind its last step, and the last rows of its log.
#[derive(Drop)]
pub struct Tailed {
    /// The run.
    pub run: Written,
    /// The rows.
    pub rows: Vec<u8>,
}

/// Answers the steps of a file, in their order, on the bus of a system with these requests. The history answers the
/// steps, and history and trace keep what is promised.
///
/// # Errors
///
/// Only where memory runs out.
pub fn replay(
    alloc: Global,
    system: &System,
    steps: &[Step],
    requests: &[Request],
) -> Result<ReplayedRun, AllocError>
    requires system { IsSystem system.now }
    requires steps { AreLegalSteps steps.now }
    requires requests { AreLegal system.now.owners requests.now }
    ensures run { IfOk result (λ run. IsRun system.now steps.now requests.now run.master.history run.trace.items) }
    ensures rules { IfOk result (λ run. run.master.rules ≡ system.now.rules) }
{
    match log_steps(alloc, system, steps, requests, true, &mut Silence) {
        Ok(Bus { master, trace, .. }) => match trace {
            Some(trace) => match master.into_master() {
                Some(master) => Ok(ReplayedRun { master, trace }),
                None => unreachable!(),
            },
            None => unreachable!(),
        },
        Err(_) => Err(AllocError),
    }
}

/// Answers the steps of a file, in their order, on the bus of a system with these requests, and puts the log meanwhile:
/// the rows of each event when it was answered and its cycle was run, those of a cycle together, and then the last
/// row. The frames and all events are kept where `keeps` says so. Else it takes memory for the placed entries
/// that are still needed, the nodes, the last event and one cycle alone.
///
/// # Errors
///
/// `Memory` where memory runs out: then the sink took all rows of the calls that were answered. `Write` where the sink
/// fails: then it took the first bytes of the rows of a run that was begun, or of the whole log.
pub fn replay_to<O: Sink>(
    alloc: Global,
    system: &System,
    steps: &[Step],
    requests: &[Request],
    keeps: bool,
    out: &mut O,
) -> Result<Written, Cut>
    requires system { IsSystem system.now }
    requires steps { AreLegalSteps steps.now }
    requires requests { AreLegal system.now.owners requests.now }
    ensures faults_never_fall { O.faults out.old ≤ O.faults out.new }
    ensures written { IfOk result (λ run. IsWritten
        (IsKeptLog system.now steps.now requests.now run.master.history run.trace)
        (O.told_bytes out.old) (O.told_bytes out.new)) }
    ensures rules { IfOk result (λ run. run.master.rules ≡ system.now.rules) }
    ensures kept { IfOk result (λ run. is_some run.trace ≡ keeps) }
    ensures events { IfOk result (λ run. run.master.keeps ≡ keeps) }
    ensures cut { IfErr result (IsRunCut (IsRunBegun system.now steps.now requests.now)
        (IsLogOf (IsRun system.now steps.now requests.now)) (O.told_bytes out.old) (O.told_bytes out.new)) }
    ensures failed { IsErrOf result Cut.Write → Rose (O.faults out.old) (O.faults out.new) }
{
    let mut sink = ToSink { out };
    let bus = log_steps(alloc, system, steps, requests, keeps, &mut sink)?;
    Ok(Written {
        master: bus.master,
        trace: bus.trace,
    })
}

/// Answers the steps of a file, in their order, on the bus of a system with these requests, and keeps so many of the
/// last rows of the log. The frames and all events are kept where `keeps` says so. Else it takes memory for the placed
/// entries that are still needed, the nodes, one event with its rows, one cycle, and the last rows alone.
///
/// # Errors
///
/// Only where memory runs out.
pub fn replay_tail(
    alloc: Global,
    system: &System,
    steps: &[Step],
    requests: &[Request],
    keeps: bool,
    rows: usize,
) -> Result<Tailed, AllocError>
    requires system { IsSystem system.now }
    requires steps { AreLegalSteps steps.now }
    requires requests { AreLegal system.now.owners requests.now }
    ensures tail { IfOk result (λ tailed. HasLastRows system.now steps.now requests.now
        tailed.run.master.history tailed.run.trace rows tailed.rows.items) }
    ensures rules { IfOk result (λ tailed. tailed.run.master.rules ≡ system.now.rules) }
    ensures kept { IfOk result (λ tailed. is_some tailed.run.trace ≡ keeps) }
    ensures events { IfOk result (λ tailed. tailed.run.master.keeps ≡ keeps) }
{
    let mut tail = Tail::new(alloc, rows);
    match log_steps(alloc, system, steps, requests, keeps, &mut tail) {
        Ok(Bus { master, trace, .. }) => Ok(Tailed {
            run: Written { master, trace },
            rows: tail.text(alloc)?,
        }),
        Err(_) => Err(AllocError),
    }
}
