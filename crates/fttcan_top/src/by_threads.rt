//! The top call of a run by threads: from the words of a call and the files that they name to the bytes that are
//! written.

ghost use Rattle.std.specs.Prelude.{◌≡◌, ◌≤◌, ◌⊎◌, length, map, string_bytes, IfOk, IsErrOf, None};
ghost use Rattle.ftt_io.specs.Counts.{Rose};
ghost use Rattle.command_words.specs.Words.{live_of};
ghost use Rattle.asked_files.specs.Loads.{Fetches, sources_of};
ghost use Rattle.fttcan_top.specs.Ends.{Answers, Ended};
ghost use Rattle.fttcan_top.specs.Output.{IsDoneStatus};

use crate::status::Status;
use crate::stop::tell;
use crate::work::{live_log_of, put_answer};
use asked_files::{Stop, Task, load};
use ftt_io::{Shelf, Sink};
use live_run::Gate;
use std::alloc::Global;
use std::sync::Wait;
use std::thread::Threads;

/// Carries out the words of a call.
fn call<T: Threads + Wait + Sync, S: Shelf, O: Sink, G: Gate>(
    rt: &T,
    alloc: Global,
    words: &[String],
    shelf: &mut S,
    out: &mut O,
    gate: &G,
) -> Result<Status, Stop>
    ensures done { IfOk result IsDoneStatus }
    ensures ended { Ended (live_of (map string_bytes words.now)) (S.told_files shelf.old) (S.fetches shelf.old)
        (S.fetches shelf.new) (Rose (S.faults shelf.old) (S.faults shelf.new))
        (Rose (O.faults out.old) (O.faults out.new)) (O.told_bytes out.old) (O.told_bytes out.new) result }
    ensures command { live_of (map string_bytes words.now) ≡ None
        → IsErrOf result Stop.Words ⊎ IsErrOf result Stop.Memory }
    ensures fetched { Fetches S.told_files S.fetches S.faults shelf.old shelf.new
        (length (sources_of (live_of (map string_bytes words.now)))) }
    ensures out_faults_never_fall { O.faults out.old ≤ O.faults out.new }
{
    let task = load(alloc, true, words, shelf)?;
    match task {
        Task::Live(job, report) => put_answer(live_log_of(rt, alloc, job, report, gate), out),
        _ => unreachable!(),
    }
}

/// Carries out the words of a call whose first word is `live`, the program's name left out. Lines on what went wrong go
/// to `err`; a failure of `err` changes no status.
///
/// `live SYSTEM STEPS [REQUESTS] [--report]` runs the steps of a file in the system of another, with the requests of a
/// third where one is named. One thread opens and runs as many cycles as all `cycle` rows together ask for. Each
/// operator has its own rows answered, in their order, in a thread of its own. The log of the history that stands in
/// the end goes to `out`, and behind it with `--report` the report. Each thread passes the gate at the points of
/// [`Point`](crate::Point).
///
/// The call may wait for its threads; what it promises holds if it returns.
pub fn live<T: Threads + Wait + Sync, S: Shelf, O: Sink, R: Sink, G: Gate>(
    rt: &T,
    alloc: Global,
    words: &[String],
    shelf: &mut S,
    out: &mut O,
    err: &mut R,
    gate: &G,
) -> Status
    ensures answers { Answers (live_of (map string_bytes words.now)) (S.told_files shelf.old) (S.told_files shelf.new)
        (S.fetches shelf.old) (S.fetches shelf.new) (S.faults shelf.old) (S.faults shelf.new)
        (O.told_bytes out.old) (O.told_bytes out.new) (O.faults out.old) (O.faults out.new)
        (R.told_bytes err.old) (R.told_bytes err.new) (R.faults err.old) (R.faults err.new) result }
{
    let ended = call(rt, alloc, words, shelf, out, gate);
    tell(alloc, &ended, err)
}
