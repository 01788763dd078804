//! Laws about audits. Each function has an empty body but for calls of other laws, and its contract is the law.

ghost use Rattle.std.specs.Prelude.{◌≡◌, ◌++◌, List, ℕ};
ghost use Rattle.can_frame.specs.declared.data_frame.TimedFrame.{TimedFrame};
ghost use Rattle.async_window.specs.declared.request.Request.{Request};
ghost use Rattle.requests_file.specs.RequestsFile.{AreLegal};
ghost use Rattle.steps_file.specs.declared.steps.Step.{Step};
ghost use Rattle.system_file.specs.SystemFile.{IsSystem};
ghost use Rattle.system_file.specs.declared.system.System.{System};
ghost use Rattle.master_core.specs.declared.event.Event.{Event};
ghost use Rattle.live_steps.specs.Live.{IsLive};
ghost use Rattle.bus_trace.specs.Log.{log_text};
ghost use Rattle.bus_trace.specs.LogRows.{log_rows};
ghost use Rattle.log_reader.specs.Row.{AreRowsOf};
ghost use Rattle.log_reader.specs.declared.row.LogRow.{LogRow};
ghost use Rattle.trace_audit.specs.Audit.{AllStand, IsAuditFault, IsRunOf, IsWholeLog};
ghost use Rattle.trace_audit.specs.declared.audit_fault.AuditFault.{AuditFault};
ghost use Rattle.trace_audit.specs.declared.audit_fault.AuditFault.TheVariants.{Memory};

use admission::laws::one_verdict;
use bus_trace::laws::{frames_by_cycle, logs_are_rows};
use kept_run::laws::{promise, requests_of_owners, triggers_count_cycles};
use log_reader::laws::one_log;
use replay_run::laws::legal_runs;

/// All rows of a whole run can stand, and so can each number of the first of them. So the audit of such a log names no
/// row.
pub fn whole_logs_stand()
    ensures stand { (system : System) (steps : List Step) (requests : List Request) (rows : List LogRow)
        → IsSystem system → AreLegal system.owners requests → IsWholeLog system steps requests rows
        → AllStand system steps requests rows }
{
    frames_by_cycle();
    legal_runs();
    requests_of_owners();
    triggers_count_cycles();
}

/// The rows of a log and the steps have one run: two runs of the steps whose logs have the same rows have the same
/// history and the same trace. So have two runs by threads, also where one text is the rows of both logs.
pub fn one_run_of_a_log()
    ensures runs { (system : System) (steps : List Step) (requests : List Request) (one other : List Event)
        (trace second : List TimedFrame) → IsSystem system → AreLegal system.owners requests
        → IsRunOf system steps requests one trace → IsRunOf system steps requests other second
        → log_rows one trace ≡ log_rows other second → (one ≡ other) × (trace ≡ second) }
    ensures live { (system : System) (steps : List Step) (requests : List Request) (one other : List Event)
        (trace second : List TimedFrame)
        → IsLive system steps requests one trace → IsLive system steps requests other second
        → log_rows one trace ≡ log_rows other second → (one ≡ other) × (trace ≡ second) }
    ensures text { (system : System) (steps : List Step) (requests : List Request) (one other : List Event)
        (trace second : List TimedFrame) (bytes : List ℕ)
        → IsLive system steps requests one trace → IsLive system steps requests other second
        → AreRowsOf bytes (log_rows one trace) → AreRowsOf bytes (log_rows other second)
        → (one ≡ other) × (trace ≡ second) }
{
    legal_runs();
    one_log();
    one_verdict();
    promise();
    requests_of_owners();
}

/// The log that a text begins with, and the steps, have one run, whatever stands after it. Two runs by threads are given,
/// the text of each of whose logs is its rows. Where one text begins with both logs, they are one run, and what stands
/// after them is the same. So the report after a log of `live` takes nothing from what the log determines.
pub fn one_run_of_a_text()
    ensures runs { (system : System) (steps : List Step) (requests : List Request) (one other : List Event)
        (trace second : List TimedFrame) (after later : List ℕ)
        → IsLive system steps requests one trace → IsLive system steps requests other second
        → AreRowsOf (log_text one trace) (log_rows one trace) → AreRowsOf (log_text other second) (log_rows other second)
        → log_text one trace ++ after ≡ log_text other second ++ later
        → (log_rows one trace ≡ log_rows other second) × (one ≡ other) × (trace ≡ second) × (after ≡ later) }
{
    logs_are_rows();
    one_run_of_a_log();
}

/// The rows of the log of a run by threads are all rows of a whole run. All that is said of a run by threads holds of the
/// history and trace of a whole log. So an audit of the log of a run by threads has no fault but want of memory.
pub fn live_logs_are_whole()
    ensures whole { (system : System) (steps : List Step) (requests : List Request) (history : List Event)
        (trace : List TimedFrame) → IsLive system steps requests history trace
        → IsWholeLog system steps requests (log_rows history trace) }
    ensures live { (system : System) (steps : List Step) (requests : List Request) (rows : List LogRow)
        → IsSystem system → AreLegal system.owners requests → (log : IsWholeLog system steps requests rows)
        → IsLive system steps requests log.history log.trace }
    ensures no_fault { (system : System) (steps : List Step) (requests : List Request) (history : List Event)
        (trace : List TimedFrame) (fault : AuditFault) → IsSystem system → AreLegal system.owners requests
        → IsLive system steps requests history trace
        → IsAuditFault system steps requests (log_rows history trace) fault → fault ≡ Memory }
{
    legal_runs();
    promise();
    requests_of_owners();
    whole_logs_stand();
}
