//! The run of a steps file in which polled slots carry requests, with its log and the rows of the requests put to a sink.

ghost use Rattle.std.specs.Prelude.{◌≡◌, ◌≤◌, Bool, length, OnErr, OnOk, IfErr, IfOk, IsErrOf};
ghost use Rattle.ftt_io.specs.Counts.{Rose};
ghost use Rattle.ftt_io.specs.Puts.{Puts, PutsPrefix};
ghost use Rattle.system_file.specs.SystemFile.{IsSystem};
ghost use Rattle.steps_file.specs.StepsFile.{AreLegalSteps};
ghost use Rattle.replay_run.specs.Whole.{IsCutOff, IsHeard, IsLogOf};
ghost use Rattle.replay_run.specs.Written.{IsRunCut, IsWritten};
ghost use Rattle.replay_run.specs.declared.cut.Cut.TheVariants.{Write};
ghost use Rattle.sporadic_poll.specs.StreamsFile.{AreLegalStreams};
ghost use Rattle.poll_run.specs.RequestRows.{request_rows};
ghost use Rattle.poll_run.specs.Whole.{IsPollLog, IsPollOutput, IsPolledRunBegun, IsRunWithFates};

use crate::polled::Polled;
use crate::request_rows::put_request_rows;
use ftt_io::Sink;
use kept_run::laws::{beginning, promise};
use master_core::laws::opened_cycles;
use replay_run::{Cut, Listener, ToSink, in_ranges, log_run};
use sporadic_poll::Stream;
use sporadic_poll::laws::{one_ride, rides_of_openings};
use std::alloc::Global;
use steps_file::Step;
use system_file::System;

/// Answers the steps of a file on the bus of a system whose polled slots carry these requests, and has the log heard
/// meanwhile.
fn log_polled<L: Listener>(
    alloc: Global,
    system: &System,
    steps: &[Step],
    streams: Vec<Stream>,
    listener: &mut L,
) -> Result<Polled, Cut>
    requires system { IsSystem system.now }
    requires steps { AreLegalSteps steps.now }
    requires streams { AreLegalStreams system.now.rules.slots streams.items }
    ensures heard { IfOk result
        (λ polled. IsHeard L.heard (IsPollLog system.now steps.now streams.items polled) listener.old listener.new) }
    ensures cut { IfErr result (IsCutOff L.heard L.broke (IsPolledRunBegun system.now steps.now streams.items)
        (IsLogOf (IsRunWithFates system.now steps.now streams.items)) listener.old listener.new) }
{
    promise();
    beginning();
    one_ride();
    rides_of_openings();
    opened_cycles();
    in_ranges(system, &[]);
    let mut polled = Polled::begin(alloc, system, streams, steps)?;
    log_run(alloc, &mut polled, steps, listener)?;
    Ok(polled)
}

/// Puts the rows of the requests behind the log of a run. Answers whether each change of the run was accepted.
fn put_end<O: Sink>(polled: &Polled, out: &mut O) -> Result<bool, Cut>
    requires each { length polled.now.rides.fates ≡ length polled.now.rides.queued.streams }
    ensures faults_never_fall { O.faults out.old ≤ O.faults out.new }
    ensures all { OnOk result (Puts (O.told_bytes out.old) (O.told_bytes out.new)
        (request_rows 1 polled.now.rides.queued.streams polled.now.rides.fates)) }
    ensures quiet { IfOk result (λ quiet. quiet ≡ polled.now.quiet) }
    ensures write { IfErr result (λ cut. cut ≡ Write) }
    ensures failed { OnErr result (Rose (O.faults out.old) (O.faults out.new)) }
    ensures prefix { OnErr result (PutsPrefix (O.told_bytes out.old) (O.told_bytes out.new)
        (request_rows 1 polled.now.rides.queued.streams polled.now.rides.fates)) }
{
    put_request_rows(out, polled.rides.streams(), polled.rides.fates())?;
    Ok(polled.quiet)
}

/// Answers the steps of a file, in their order, on the bus of a system without asynchronous requests. Each slot of which
/// there are requests is polled: its frames carry requests in place of instance numbers. The log of this run is put
/// meanwhile, the rows of a cycle together. Behind it, in the order of the file, stands a row for each request:
/// `ride,SLOT,NUMBER,RELEASE,CYCLE` where its instance was sent, else `waits,SLOT,NUMBER`. NUMBER is its place in the
/// file, from 1. CYCLE is the cycle in which the instance was sent that was released in RELEASE. Answers whether each
/// change was accepted.
///
/// # Errors
///
/// `Memory` where memory runs out: then the sink took all rows of the calls that were answered before. `Write` where
/// the sink fails: then it took the first bytes of the rows of a run that was begun, or of the whole text.
pub fn replay_polled<O: Sink>(
    alloc: Global,
    system: &System,
    steps: &[Step],
    streams: Vec<Stream>,
    out: &mut O,
) -> Result<bool, Cut>
    requires system { IsSystem system.now }
    requires steps { AreLegalSteps steps.now }
    requires streams { AreLegalStreams system.now.rules.slots streams.items }
    ensures faults_never_fall { O.faults out.old ≤ O.faults out.new }
    ensures written { IfOk result (λ quiet. IsWritten (IsPollOutput system.now steps.now streams.items quiet)
        (O.told_bytes out.old) (O.told_bytes out.new)) }
    ensures cut { IfErr result (IsRunCut (IsPolledRunBegun system.now steps.now streams.items)
        (λ text. (quiet : Bool) × IsPollOutput system.now steps.now streams.items quiet text)
        (O.told_bytes out.old) (O.told_bytes out.new)) }
    ensures failed { IsErrOf result Cut.Write → Rose (O.faults out.old) (O.faults out.new) }
{
    let mut sink = ToSink { out };
    let polled = log_polled(alloc, system, steps, streams, &mut sink)?;
    put_end(&polled, sink.out)
}
