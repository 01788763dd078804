//! The end of a call whose output is gathered.

ghost use Rattle.std.specs.Prelude.{◌≡◌, ◌≤◌, ◌⊎◌, [], codes};
ghost use Rattle.std.specs.Io.Buffered.{writer_buffer, writer_contents};
ghost use Rattle.ftt_io.specs.Counts.{Rose};
ghost use Rattle.ftt_io.specs.Puts.{Stays};
ghost use Rattle.fttcan_top.specs.Output.{IsDoneStatus, Says};

use crate::status::Status;
use crate::stop::say;
use ftt_io::{Sink, StdSink};
use std::io::{BufWriter, Write};

/// Writes the rest of a gathered output, behind [`plain`](crate::plain) or [`live`](crate::live), and answers how the
/// call ends: with the status that it had there, or with [`Status::Write`] where something was done and its output
/// could not be written to the end. That is told to `err`.
pub fn flushed<W: Write + Drop, R: Sink>(
    status: Status,
    out: &mut StdSink<BufWriter<W>>,
    err: &mut R,
) -> Status
    // How it ended; where something was done nothing of its output is held back.
    ensures status { (result ≡ status)
        ⊎ (IsDoneStatus status × (result ≡ Status.Write) × Rose out.old.faults out.new.faults) }
    ensures written { IsDoneStatus result → writer_buffer out.new.writer ≡ [] }

    // What was put to `out`, and to `err`; where nothing was done, nothing is written of what is held back.
    ensures untouched { (IsDoneStatus status → ⊥) → out.new ≡ out.old }
    ensures nothing { Stays (writer_contents W.contents out.old.writer) (writer_contents W.contents out.new.writer) }
    ensures quiet { result ≡ status → R.told_bytes err.new ≡ R.told_bytes err.old }
    ensures message { (result ≡ status → ⊥)
        → Says (R.told_bytes err.old) (R.told_bytes err.new) (Rose (R.faults err.old) (R.faults err.new))
        (codes "write fault\n") }

    // No count falls.
    ensures out_faults_never_fall { out.old.faults ≤ out.new.faults }
    ensures err_faults_never_fall { R.faults err.old ≤ R.faults err.new }
{
    match status {
        Status::Done | Status::Refused | Status::No => {}
        stopped => return stopped,
    }
    match out.flush() {
        Ok(()) => status,
        Err(_) => say(err, "write fault\n", Status::Write),
    }
}
