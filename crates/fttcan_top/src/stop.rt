//! What is said of why a call stopped before it was done.

ghost use Rattle.std.specs.Prelude.{◌≡◌, ◌≤◌, IfOk};
ghost use Rattle.ftt_io.specs.Counts.{Rose};
ghost use Rattle.fttcan_top.specs.Ends.{IsStatusOf, refusal_of};
ghost use Rattle.fttcan_top.specs.Output.{IsDoneStatus, Says, message_of};

use crate::status::Status;
use asked_files::Stop;
use command_words::usage;
use ftt_io::{Sink, write_all};
use std::alloc::Global;

/// The line where memory ran out.
const OUT_OF_MEMORY: &str = "out of memory\n";

/// Puts a text to the error sink, whose failure changes nothing, and answers the status.
pub fn say<R: Sink>(err: &mut R, text: &str, status: Status) -> Status
    ensures status { result ≡ status }
    ensures said { Says (R.told_bytes err.old) (R.told_bytes err.new)
        (Rose (R.faults err.old) (R.faults err.new)) text.now }
    ensures faults_never_fall { R.faults err.old ≤ R.faults err.new }
{
    let _ = write_all(err, text.as_bytes());
    status
}

/// Says on the error sink why the call stopped, where it did, and answers its status. Where memory runs out for the
/// line of a refused file, it ends so.
pub fn tell<R: Sink>(alloc: Global, ended: &Result<Status, Stop>, err: &mut R) -> Status
    requires done { IfOk ended.now IsDoneStatus }
    ensures status { IsStatusOf ended.now result }
    ensures message { Says (R.told_bytes err.old) (R.told_bytes err.new) (Rose (R.faults err.old) (R.faults err.new))
        (message_of result (refusal_of ended.now)) }
    ensures faults_never_fall { R.faults err.old ≤ R.faults err.new }
{
    match ended {
        Ok(status) => *status,
        Err(Stop::Words) => say(err, usage(), Status::Words),
        Err(Stop::Input(refusal)) => match refusal.line(alloc) {
            Ok(line) => say(err, line.as_str(), Status::Input),
            Err(_) => say(err, OUT_OF_MEMORY, Status::Memory),
        },
        Err(Stop::Read) => say(err, "read fault\n", Status::Read),
        Err(Stop::Write) => say(err, "write fault\n", Status::Write),
        Err(Stop::Memory) => say(err, OUT_OF_MEMORY, Status::Memory),
    }
}
