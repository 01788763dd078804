//! Whether a log is that of a whole run, as a text.

ghost use Rattle.std.specs.Prelude.{IfOk};
ghost use Rattle.asked_files.specs.Asked.{IsJob};
ghost use Rattle.asked_files.specs.Inputs.{IsLogText};
ghost use Rattle.fttcan_top.specs.Output.{IsAuditText, IsDoneStatus};

use crate::status::Status;
use crate::work::Outcome;
use asked_files::{Job, LogText};
use std::alloc::{AllocError, Global};
use trace_audit::{AuditFault, audit_text};

/// Audits the text of a log, and answers with `yes` where its rows are all rows of a whole run of the steps. Otherwise it
/// answers with the least number of first rows that cannot stand. Where all rows can stand it answers with `unfinished`.
pub fn audit_of(alloc: Global, job: &Job, log: &LogText) -> Result<Outcome, AllocError>
    requires job { IsJob job.now }
    requires log { IsLogText log.now }
    ensures answer { IfOk result (λ outcome. IsAuditText job.now log.now outcome.status outcome.text.items) }
    ensures done { IfOk result (λ outcome. IsDoneStatus outcome.status) }
{
    let steps = job.steps.as_slice();
    let requests = job.requests.as_slice();
    let log = log.as_slice();
    match audit_text(alloc, &job.system, steps, requests, log) {
        Ok(()) => Ok(Outcome {
            status: Status::Done,
            text: b"yes\n".to_vec(alloc)?,
        }),
        Err(AuditFault::Row { number }) => Ok(Outcome {
            status: Status::No,
            text: format!(in alloc; "no,row,{number}\n")?.into_bytes(),
        }),
        Err(AuditFault::Unfinished) => Ok(Outcome {
            status: Status::No,
            text: b"no,unfinished\n".to_vec(alloc)?,
        }),
        Err(AuditFault::Memory) => Err(AllocError),
    }
}
