//! The top call: from the words of a call and the files that they name to the bytes that are written.

ghost use Rattle.std.specs.Prelude.{◌≡◌, ◌≤◌, ◌⊎◌, true, false, length, map, string_bytes, IfOk, IsErrOf, OnErr, None};
ghost use Rattle.ftt_io.specs.Counts.{Rose};
ghost use Rattle.command_words.specs.Words.{command_of};
ghost use Rattle.asked_files.specs.Asked.{IsTask, is_live};
ghost use Rattle.asked_files.specs.Loads.{Fetches, sources_of};
ghost use Rattle.fttcan_top.specs.Ends.{Answers, Ended, IsCarried};
ghost use Rattle.fttcan_top.specs.Output.{IsDoneStatus, IsOutput, PutsPart, Tells, is_streamed};

use crate::auditing::audit_of;
use crate::choosing::choice_of;
use crate::status::Status;
use crate::stop::tell;
use crate::streamed::{as_answer, write_handed, write_log, write_polled};
use crate::work::{Outcome, check_of, plan_of, put_answer, summary_of_made, tail_of};
use asked_files::{Stop, Task, load};
use ftt_io::{Shelf, Sink};
use replay_run::Cut;
use std::alloc::{AllocError, Global};

/// Whether what is asked for is written while its run goes on.
fn is_streamed(task: &Task) -> bool
    ensures streamed { result ≡ is_streamed task.now }
{
    match task {
        Task::Log(_, None, _) | Task::Handover(..) | Task::Poll(..) => true,
        Task::Log(_, Some(_), _) | Task::Table(_) | Task::Check(..) | Task::Summary(_) => false,
        Task::Live(..) | Task::Choice(..) | Task::Audit(..) => false,
    }
}

/// Does what was asked, where the answer is written when it is worked out.
fn answer_of(alloc: Global, task: Task) -> Result<Outcome, AllocError>
    requires task { IsTask task }
    requires alone { is_live task ≡ false }
    requires whole { is_streamed task ≡ false }
    ensures output { IfOk result (λ outcome. IsOutput task outcome.status outcome.text.items) }
    ensures done { IfOk result (λ outcome. IsDoneStatus outcome.status) }
{
    match task {
        Task::Log(job, tail, report) => match tail {
            Some(count) => tail_of(alloc, &job, count, report),
            None => unreachable!(),
        },
        Task::Table(job) => plan_of(alloc, &job),
        Task::Check(job, certificate) => check_of(alloc, &job, &certificate),
        Task::Summary(number) => summary_of_made(alloc, number),
        Task::Live(..) => unreachable!(),
        Task::Choice(job, wish) => choice_of(alloc, &job, &wish),
        Task::Handover(..) => unreachable!(),
        Task::Audit(job, log) => audit_of(alloc, &job, &log),
        Task::Poll(..) => unreachable!(),
    }
}

/// Does what was asked, where the answer is written while its run goes on.
fn write_streamed<O: Sink>(alloc: Global, task: Task, out: &mut O) -> Result<Status, Cut>
    requires task { IsTask task }
    requires streamed { is_streamed task ≡ true }
    ensures faults_never_fall { O.faults out.old ≤ O.faults out.new }
    ensures done { IfOk result IsDoneStatus }
    ensures tells { IfOk result (λ status. Tells task status (O.told_bytes out.old) (O.told_bytes out.new)) }
    ensures cut { OnErr result (PutsPart task (O.told_bytes out.old) (O.told_bytes out.new)) }
    ensures failed { IsErrOf result Cut.Write → Rose (O.faults out.old) (O.faults out.new) }
{
    match task {
        Task::Log(job, tail, report) => match tail {
            None => write_log(alloc, &job, report, out),
            Some(_) => unreachable!(),
        },
        Task::Handover(job, at) => write_handed(alloc, &job, at, out),
        Task::Poll(job, streams) => write_polled(alloc, &job, streams, out),
        Task::Table(_) | Task::Check(..) | Task::Summary(_) => unreachable!(),
        Task::Live(..) | Task::Choice(..) | Task::Audit(..) => unreachable!(),
    }
}

/// Does what was asked, and writes the answer.
fn carry_out<O: Sink>(alloc: Global, task: Task, out: &mut O) -> Result<Status, Stop>
    requires task { IsTask task }
    requires alone { is_live task ≡ false }
    ensures faults_never_fall { O.faults out.old ≤ O.faults out.new }
    ensures done { IfOk result IsDoneStatus }
    ensures carried { IsCarried task (Rose (O.faults out.old) (O.faults out.new))
        (O.told_bytes out.old) (O.told_bytes out.new) result }
{
    if is_streamed(&task) {
        as_answer(write_streamed(alloc, task, out))
    } else {
        put_answer(answer_of(alloc, task), out)
    }
}

/// Carries out the words of a call.
fn call<S: Shelf, O: Sink>(
    alloc: Global,
    words: &[String],
    shelf: &mut S,
    out: &mut O,
) -> Result<Status, Stop>
    ensures done { IfOk result IsDoneStatus }
    ensures ended { Ended (command_of (map string_bytes words.now)) (S.told_files shelf.old) (S.fetches shelf.old)
        (S.fetches shelf.new) (Rose (S.faults shelf.old) (S.faults shelf.new))
        (Rose (O.faults out.old) (O.faults out.new)) (O.told_bytes out.old) (O.told_bytes out.new) result }
    ensures command { command_of (map string_bytes words.now) ≡ None
        → IsErrOf result Stop.Words ⊎ IsErrOf result Stop.Memory }
    ensures fetched { Fetches S.told_files S.fetches S.faults shelf.old shelf.new
        (length (sources_of (command_of (map string_bytes words.now)))) }
    ensures out_faults_never_fall { O.faults out.old ≤ O.faults out.new }
{
    let task = load(alloc, false, words, shelf)?;
    carry_out(alloc, task, out)
}

/// Carries out the words of a call, the program's name left out. Lines on what went wrong go to `err`; a failure of
/// `err` changes no status.
///
/// - `replay SYSTEM STEPS` runs the steps of a file in the system of another and writes the log to `out`, and `replay
///   SYSTEM STEPS REQUESTS` with the requests of a third; with `--tail N`, from 1 to 10,000, only the last N rows of
///   the log, and with `--report` the report behind it.
/// - `admit SYSTEM STEPS` has a master answer the steps, with no bus, and writes the plan of the table that stands
///   then, from cycle 0 on.
/// - `check SYSTEM STEPS PLAN` checks such a plan against the changes of the steps, and writes `yes` or the first
///   breach.
/// - `gen NUMBER` makes an input from a number of 0 to 4,294,967,295, runs it and writes a summary; it reads no file.
/// - `elastic SYSTEM STEPS WISHES` has a master answer the steps, with no bus, and writes which periods of the wish it
///   would accept first then, or why it chose none.
/// - `handover SYSTEM STEPS AT` and `handover SYSTEM STEPS AT REQUESTS` run as `replay` does, with AT from 0 to 20,000.
///   After AT cycles were opened the first master is dropped. Its standby goes on, which was told the accepted changes
///   and heard the triggers. What is written is what `replay` writes.
/// - `poll SYSTEM STEPS STREAMS` runs as `replay` does without requests. The frames of the slots that the third file
///   names carry its requests in place of instance numbers. Behind the log a row tells of each request in which cycle it
///   was sent, or that it waits.
/// - `audit SYSTEM STEPS LOG` and `audit SYSTEM STEPS LOG REQUESTS` write `yes` where the rows of the log are all rows of
///   a whole run of the steps, as `replay` and `live` write them. Otherwise they write the least number of first rows
///   that cannot stand. Rows can stand where the history that is read from them is that of a run whose log begins with
///   them. Where all rows can stand, and are not all rows of a whole run, they write `unfinished`. Nothing of the log's
///   maker is trusted.
pub fn plain<S: Shelf, O: Sink, R: Sink>(
    alloc: Global,
    words: &[String],
    shelf: &mut S,
    out: &mut O,
    err: &mut R,
) -> Status
    ensures answers { Answers (command_of (map string_bytes words.now))
        (S.told_files shelf.old) (S.told_files shelf.new)
        (S.fetches shelf.old) (S.fetches shelf.new) (S.faults shelf.old) (S.faults shelf.new)
        (O.told_bytes out.old) (O.told_bytes out.new) (O.faults out.old) (O.faults out.new)
        (R.told_bytes err.old) (R.told_bytes err.new) (R.faults err.old) (R.faults err.new) result }
{
    let ended = call(alloc, words, shelf, out);
    tell(alloc, &ended, err)
}
