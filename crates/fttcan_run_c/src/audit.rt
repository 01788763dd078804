//! The audit of a log in memory.

ghost use Rattle.std.specs.Prelude.{◌≡◌, ◌≢◌, ◌⊎◌, ℕ, List, MatchResult, IfErr, IfOk, OnOk, Ok, Err};
ghost use Rattle.async_window.specs.declared.request.Owner.{Owner};
ghost use Rattle.requests_file.specs.RequestsFile.{AreLegal, requests_of};
ghost use Rattle.requests_file.specs.declared.request_fault.RequestFault.{RequestFault};
ghost use Rattle.steps_file.specs.StepsFile.{AreLegalSteps, steps_of};
ghost use Rattle.steps_file.specs.declared.step_fault.StepFault.{StepFault};
ghost use Rattle.system_file.specs.SystemFile.{IsSystem, system_of};
ghost use Rattle.system_file.specs.declared.system_fault.SystemFault.{SystemFault};
ghost use Rattle.log_reader.specs.Row.{AreRowsOf, IsFirstFaultyRow};
ghost use Rattle.log_reader.specs.declared.row.LogRow.{LogRow};
ghost use Rattle.trace_audit.specs.Audit.{IsAudited, IsFirstBreak, IsUnfinished};
ghost use Rattle.fttcan_run_c.specs.Audited.{AreMeant, IsAuditStopped, IsTextRefused, StopsFor};

use async_window::{Owner, Request};
use log_reader::{LogFault, check_log};
use requests_file::{RequestFault, read_requests};
use std::alloc::Global;
use steps_file::{Step, StepFault, read_steps};
use system_file::{System, SystemFault, read_system};
use trace_audit::{AuditFault, audit_text};

/// Why an audit does not answer that a log is one of a whole run.
#[derive(Clone, Copy, PartialEq, Eq, Debug)]
enum Stopped {
    /// Memory ran out.
    Memory,
    /// A text is refused.
    Text,
    /// The first so many rows cannot stand.
    Row {
        /// The least such number.
        number: u64,
    },
    /// All rows can stand, and they are not all rows of a whole run.
    Unfinished,
}

/// The system of a text.
fn system_in(alloc: Global, bytes: &[u8]) -> Result<System, Stopped>
    ensures ok { IfOk result (λ system. system_of bytes.now ≡ Ok system) }
    ensures valid { IfOk result IsSystem }
    ensures stopped { IfErr result (StopsFor ((fault : SystemFault) × (system_of bytes.now ≡ Err fault))) }
{
    match read_system(alloc, bytes) {
        Ok(system) => Ok(system),
        Err(SystemFault::Memory) => Err(Stopped::Memory),
        Err(_) => Err(Stopped::Text),
    }
}

/// The steps of a text.
fn steps_in(alloc: Global, bytes: &[u8]) -> Result<Vec<Step>, Stopped>
    ensures ok { IfOk result (λ steps. steps_of bytes.now ≡ Ok steps.items) }
    ensures valid { IfOk result (λ steps. AreLegalSteps steps.items) }
    ensures stopped { IfErr result (StopsFor ((fault : StepFault) × (steps_of bytes.now ≡ Err fault))) }
{
    match read_steps(alloc, bytes) {
        Ok(steps) => Ok(steps),
        Err(StepFault::Memory) => Err(Stopped::Memory),
        Err(_) => Err(Stopped::Text),
    }
}

/// The requests of a text, for these owners.
fn requests_in(alloc: Global, bytes: &[u8], owners: &[Owner]) -> Result<Vec<Request>, Stopped>
    ensures ok { IfOk result (λ requests. requests_of owners.now bytes.now ≡ Ok requests.items) }
    ensures valid { IfOk result (λ requests. AreLegal owners.now requests.items) }
    ensures stopped { IfErr result
        (StopsFor ((fault : RequestFault) × (requests_of owners.now bytes.now ≡ Err fault))) }
{
    match read_requests(alloc, bytes, owners) {
        Ok(requests) => Ok(requests),
        Err(RequestFault::Memory) => Err(Stopped::Memory),
        Err(_) => Err(Stopped::Text),
    }
}

/// Whether the records of a text are those of rows of a log.
fn rows_in(alloc: Global, bytes: &[u8]) -> Result<(), Stopped>
    ensures ok { OnOk result ((rows : List LogRow) × AreRowsOf bytes.now rows) }
    ensures stopped { IfErr result (StopsFor ((number : ℕ) × IsFirstFaultyRow bytes.now number)) }
{
    match check_log(alloc, bytes) {
        Ok(()) => Ok(()),
        Err(LogFault::Row { .. }) => Err(Stopped::Text),
        Err(LogFault::Memory) => Err(Stopped::Memory),
    }
}

/// Audits a log against a system, steps and requests, each a text.
fn audited(
    alloc: Global,
    system: &[u8],
    steps: &[u8],
    log: &[u8],
    requests: &[u8],
) -> Result<(), Stopped>
    ensures answer { MatchResult result (λ _. AreMeant system.now steps.now log.now requests.now IsAudited)
        (IsAuditStopped system.now steps.now log.now requests.now) }
{
    let system = system_in(alloc, system)?;
    let steps = steps_in(alloc, steps)?;
    rows_in(alloc, log)?;
    let requests = requests_in(alloc, requests, system.owners.as_slice())?;
    match audit_text(alloc, &system, steps.as_slice(), requests.as_slice(), log) {
        Ok(()) => Ok(()),
        Err(AuditFault::Row { number }) => Err(Stopped::Row { number }),
        Err(AuditFault::Unfinished) => Err(Stopped::Unfinished),
        Err(AuditFault::Memory) => Err(Stopped::Memory),
    }
}

/// Audits the text of a log against the texts of a system, of steps and of requests, as the command `audit` does. Where
/// there are no bytes of requests there are no requests. No text has a limit of its bytes.
///
/// The answer is 0 where the rows of the log are all rows of a whole run; 10 where some first rows cannot stand, and `row`
/// is then the least number of such rows; 11 where all rows can stand and are not all rows of a whole run; 9 where one of
/// the texts is refused; and 1 where memory runs out. `row` is as before, but where the answer is 10.
#[unsafe(no_mangle)]
pub extern "C" fn fttcan_audit(
    alloc: Global,
    system: &[u8],
    steps: &[u8],
    log: &[u8],
    requests: &[u8],
    row: &mut u64,
) -> u32
    ensures answers { (result ≡ 0) ⊎ (result ≡ 1) ⊎ (result ≡ 9) ⊎ (result ≡ 10) ⊎ (result ≡ 11) }
    ensures yes { result ≡ 0 → AreMeant system.now steps.now log.now requests.now IsAudited }
    ensures text { result ≡ 9 → IsTextRefused system.now steps.now log.now requests.now }
    ensures no { result ≡ 10 → AreMeant system.now steps.now log.now requests.now
        (λ system steps requests rows. IsFirstBreak system steps requests rows row.new) }
    ensures unfinished { result ≡ 11 → AreMeant system.now steps.now log.now requests.now IsUnfinished }
    ensures row_stays { result ≢ 10 → row.new ≡ row.old }
{
    match audited(alloc, system, steps, log, requests) {
        Ok(()) => 0,
        Err(Stopped::Memory) => 1,
        Err(Stopped::Text) => 9,
        Err(Stopped::Row { number }) => {
            *row = number;
            10
        }
        Err(Stopped::Unfinished) => 11,
    }
}
