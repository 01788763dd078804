//! The audit of a log: of its rows, and of its text.

ghost use Rattle.std.specs.Prelude.{◌≡◌, IfNone, IfOk, IfSome, List, MatchResult, true, ℕ};
ghost use Rattle.async_window.specs.declared.request.Request.{Request};
ghost use Rattle.requests_file.specs.RequestsFile.{AreLegal};
ghost use Rattle.steps_file.specs.StepsFile.{AreLegalSteps};
ghost use Rattle.system_file.specs.SystemFile.{IsSystem};
ghost use Rattle.system_file.specs.declared.system.System.{System};
ghost use Rattle.log_reader.specs.LogReading.{HasReadRows, ReadsRow};
ghost use Rattle.log_reader.specs.Row.{AreRowsOf};
ghost use Rattle.log_reader.specs.declared.row.LogRow.{LogRow};
ghost use Rattle.trace_audit.specs.Audit.{IsAuditFault, IsAudited};
ghost use Rattle.trace_audit.specs.Auditing.{IsWrittenLog};

use crate::audit_fault::AuditFault;
use crate::log_audit::LogAudit;
use async_window::Request;
use bus_trace::Gathered;
use log_reader::laws::{one_log, written_rows};
use log_reader::{LogFault, LogReader, LogRow};
use std::alloc::{AllocError, Global};
use steps_file::Step;
use system_file::System;

/// Audits the rows of a log against a system, steps and requests as they are read. It trusts nothing of the log's
/// maker: each event of the rows is done again, and the frames of each cycle are those that the nodes send.
///
/// It takes time for the events and their cycles, as a replay does, and for the plans of the changes. Each step is passed
/// once for each operator. It takes memory for the requests, the table, the history, the rows of the last event, and the
/// states of the plan since a change was accepted last.
///
/// # Errors
///
/// `Row` with the least number of first rows that cannot stand; `Unfinished` where there is no such number and the rows
/// are not all rows of a whole run; `Memory` where memory runs out.
pub fn audit(
    alloc: Global,
    system: &System,
    steps: &[Step],
    requests: &[Request],
    rows: &[LogRow],
) -> Result<(), AuditFault>
    requires system { IsSystem system.now }
    requires steps { AreLegalSteps steps.now }
    requires requests { AreLegal system.now.owners requests.now }
    ensures answer { MatchResult result (λ _. IsAudited system.now steps.now requests.now rows.now)
        (IsAuditFault system.now steps.now requests.now rows.now) }
{
    let mut audit = LogAudit::begin(alloc, system, steps, requests)?;
    for (place, line) in rows.iter().enumerate() {
        if !audit.take(alloc, steps, line)? {
            let number = place as u64 + 1;
            return Err(AuditFault::Row { number });
        }
    }
    audit.finish(steps)
}

/// The next row of a text that is the rows of a log.
///
/// # Errors
///
/// Only where memory runs out.
fn next_row(reader: &mut LogReader<'_>) -> Result<Option<LogRow>, AllocError>
    requires log { (bytes : List ℕ) × (read : List LogRow) × (rows : List LogRow)
        × HasReadRows bytes reader.old read × AreRowsOf bytes rows }
    ensures more { IfOk result (λ found. IfSome found (λ row. (bytes : List ℕ) (rows : List LogRow)
        → HasReadRows bytes reader.old rows → ReadsRow bytes reader.old reader.new rows row)) }
    ensures all { IfOk result (λ found. IfNone found ((bytes : List ℕ) (rows : List LogRow)
        → HasReadRows bytes reader.old rows → AreRowsOf bytes rows)) }
{
    one_log();
    match reader.next_row() {
        Ok(found) => Ok(found),
        Err(LogFault::Memory) => Err(AllocError),
        Err(LogFault::Row { .. }) => unreachable!(),
    }
}

/// Whether a text is the texts of rows that are all rows of a whole run, one after the other. The rows of each event are
/// made as text and compared with the bytes, and none is read. Where the answer is no, nothing is said of the text.
///
/// # Errors
///
/// Only where memory runs out.
fn is_written_log(
    alloc: Global,
    system: &System,
    steps: &[Step],
    requests: &[Request],
    text: &[u8],
) -> Result<bool, AllocError>
    requires system { IsSystem system.now }
    requires steps { AreLegalSteps steps.now }
    requires requests { AreLegal system.now.owners requests.now }
    ensures yes { IfOk result (λ yes. yes ≡ true → IsWrittenLog system.now steps.now requests.now text.now) }
{
    let mut audit = LogAudit::begin(alloc, system, steps, requests)?;
    let mut room = Gathered::behind(Vec::new(alloc));
    let mut rest = text;
    while !rest.is_empty() {
        match audit.take_written(alloc, steps, &mut room, rest)? {
            Some(later) => rest = later,
            None => return Ok(false),
        }
    }
    match audit.finish(steps) {
        Ok(()) => Ok(true),
        Err(_) => Ok(false),
    }
}

/// Audits the text of a log whose rows are read one after the other.
///
/// # Errors
///
/// As [`audit`].
fn audit_read(
    alloc: Global,
    system: &System,
    steps: &[Step],
    requests: &[Request],
    text: &[u8],
) -> Result<(), AuditFault>
    requires system { IsSystem system.now }
    requires steps { AreLegalSteps steps.now }
    requires requests { AreLegal system.now.owners requests.now }
    requires text { (rows : List LogRow) × AreRowsOf text.now rows }
    ensures answer { (rows : List LogRow) → AreRowsOf text.now rows
        → MatchResult result (λ _. IsAudited system.now steps.now requests.now rows)
        (IsAuditFault system.now steps.now requests.now rows) }
{
    one_log();
    let mut audit = LogAudit::begin(alloc, system, steps, requests)?;
    let mut reader = LogReader::new(alloc, text);
    while let Some(line) = next_row(&mut reader)? {
        if !audit.take(alloc, steps, &line)? {
            let number = reader.count();
            return Err(AuditFault::Row { number });
        }
    }
    audit.finish(steps)
}

/// Audits the text of a log, as `audit` does its rows. As long as the text is that of a whole run, as such a log is
/// written, its bytes alone are compared. Otherwise its rows are read from the first one on, and none is kept: beside the
/// memory that `audit` takes, there is one record of the text.
///
/// # Errors
///
/// As [`audit`].
pub fn audit_text(
    alloc: Global,
    system: &System,
    steps: &[Step],
    requests: &[Request],
    text: &[u8],
) -> Result<(), AuditFault>
    requires system { IsSystem system.now }
    requires steps { AreLegalSteps steps.now }
    requires requests { AreLegal system.now.owners requests.now }
    requires text { (rows : List LogRow) × AreRowsOf text.now rows }
    ensures answer { (rows : List LogRow) → AreRowsOf text.now rows
        → MatchResult result (λ _. IsAudited system.now steps.now requests.now rows)
        (IsAuditFault system.now steps.now requests.now rows) }
{
    one_log();
    written_rows();
    if is_written_log(alloc, system, steps, requests, text)? {
        return Ok(());
    }
    audit_read(alloc, system, steps, requests, text)
}
