//! An audit of all rows of a log, one after the other.

ghost use Rattle.std.specs.Prelude.{◌≡◌, [], IfOk, IfSome, List, MatchResult, false, length, true};
ghost use Rattle.async_window.specs.declared.request.Request.{Request};
ghost use Rattle.requests_file.specs.RequestsFile.{AreLegal};
ghost use Rattle.steps_file.specs.StepsFile.{AreLegalSteps};
ghost use Rattle.steps_file.specs.declared.steps.Step.{Step};
ghost use Rattle.system_file.specs.SystemFile.{IsSystem};
ghost use Rattle.system_file.specs.declared.system.System.{System};
ghost use Rattle.log_reader.specs.declared.row.LogRow.{LogRow};
ghost use Rattle.log_reader.specs.declared.row.LogRow.TheVariants as row;
ghost use Rattle.trace_audit.specs.Audit.{IsAuditFault, IsAudited};
ghost use Rattle.trace_audit.specs.Auditing.{AreRowsHeard, CanHear, Hears, TakesWritten};

use crate::asked::{AskedEvent, asked_ahead};
use crate::audit_fault::AuditFault;
use crate::auditor::Auditor;
use admission::laws::one_verdict;
use async_window::Request;
use bus_trace::laws::frames_by_cycle;
use bus_trace::{Gathered, behind_end};
use kept_run::laws::{promise, triggers_count_cycles};
use log_reader::LogRow;
use replay_run::laws::legal_runs;
use std::alloc::{AllocError, Global};
use steps_file::Step;
use system_file::System;

/// An audit of the rows of a log up to one of them, all of which can stand.
#[derive(Drop)]
pub struct LogAudit {
    /// What they say, done again.
    pub auditor: Auditor,
    /// Whether the last row of a log is among them.
    pub ended: bool,
}

impl LogAudit {
    /// Before any row.
    ///
    /// # Errors
    ///
    /// Only where memory runs out.
    pub fn begin(
        alloc: Global,
        system: &System,
        steps: &[Step],
        requests: &[Request],
    ) -> Result<LogAudit, AllocError>
        requires system { IsSystem system.now }
        requires steps { AreLegalSteps steps.now }
        requires requests { AreLegal system.now.owners requests.now }
        ensures heard { IfOk result (AreRowsHeard system.now steps.now requests.now []) }
    {
        let auditor = Auditor::begin(alloc, system, steps, requests)?;
        Ok(LogAudit {
            auditor,
            ended: false,
        })
    }

    /// Takes the last row of a log behind rows that do not end it: whether it can stand there.
    fn take_end(&mut self, next: u64) -> bool
        requires going_on { self.old.ended ≡ false }
        ensures hears { (steps : List Step) → Hears steps self.old self.new (row.End next) result }
    {
        legal_runs();
        triggers_count_cycles();
        frames_by_cycle();
        promise();
        let stands = self.auditor.can_end(next);
        self.ended = stands;
        stands
    }

    /// Takes a row behind the last one of a log: it cannot stand there.
    fn take_behind(&mut self, line: &LogRow) -> bool
        requires ended { self.old.ended ≡ true }
        ensures hears { (steps : List Step) → Hears steps self.old self.new line.now result }
    {
        legal_runs();
        triggers_count_cycles();
        frames_by_cycle();
        false
    }

    /// Takes the next row: whether the rows can stand with it.
    ///
    /// # Errors
    ///
    /// Only where memory runs out.
    pub fn take(&mut self, alloc: Global, steps: &[Step], line: &LogRow) -> Result<bool, AllocError>
        requires steps { AreLegalSteps steps.now }
        requires can { CanHear steps.now self.old }
        ensures hears { IfOk result (Hears steps.now self.old self.new line.now) }
    {
        if self.ended {
            return Ok(self.take_behind(line));
        }
        match line {
            LogRow::End { next } => Ok(self.take_end(*next)),
            _ => self.auditor.take(alloc, steps, line),
        }
    }

    /// Does the event again that a text may ask for: what stands after its rows, where the text begins with them.
    ///
    /// # Errors
    ///
    /// Only where memory runs out.
    fn take_event_written<'a>(
        &mut self,
        alloc: Global,
        steps: &[Step],
        asked: AskedEvent,
        room: &mut Gathered,
        text: &'a [u8],
    ) -> Result<Option<&'a [u8]>, AllocError>
        requires steps { AreLegalSteps steps.now }
        requires can { CanHear steps.now self.old }
        requires going_on { self.old.ended ≡ false }
        requires none_left { self.old.auditor.came ≡ length self.old.auditor.rows.items }
        ensures on { IfOk result (λ found. IfSome found
            (λ rest. TakesWritten steps.now self.old self.new text.now rest.now)) }
    {
        one_verdict();
        promise();
        if !self.auditor.rerun.follow_asked(alloc, steps, asked)? {
            return Ok(None);
        }
        Ok(self.auditor.rerun.behind_rows(room, text))
    }

    /// Takes the last row of a log, where a text begins with it and it can stand there: what stands after it.
    fn take_end_written<'a>(&mut self, room: &mut Gathered, text: &'a [u8]) -> Option<&'a [u8]>
        requires going_on { self.old.ended ≡ false }
        ensures on { IfSome result (λ rest. (steps : List Step)
            → TakesWritten steps self.old self.new text.now rest.now) }
    {
        let next = self.auditor.rerun.master.next();
        if !self.take_end(next) {
            return None;
        }
        behind_end(room, text, next)
    }

    /// Takes the rows of the event, or the last row, with which a text begins, where they are in the form in which they are
    /// written and can stand there: what stands after them. No row of the text is read. The rows are gathered in `room`.
    ///
    /// # Errors
    ///
    /// Only where memory runs out.
    pub fn take_written<'a>(
        &mut self,
        alloc: Global,
        steps: &[Step],
        room: &mut Gathered,
        text: &'a [u8],
    ) -> Result<Option<&'a [u8]>, AllocError>
        requires steps { AreLegalSteps steps.now }
        requires can { CanHear steps.now self.old }
        ensures on { IfOk result (λ found. IfSome found
            (λ rest. TakesWritten steps.now self.old self.new text.now rest.now)) }
    {
        if self.ended {
            return Ok(None);
        }
        if !self.auditor.has_none_left() {
            return Ok(None);
        }
        match asked_ahead(text) {
            Some(AskedEvent::End) => Ok(self.take_end_written(room, text)),
            Some(asked) => self.take_event_written(alloc, steps, asked, room, text),
            None => Ok(None),
        }
    }

    /// The answer where these are all rows.
    ///
    /// # Errors
    ///
    /// `Unfinished` where the rows do not end a log, and where not all has happened that the steps ask for.
    pub fn finish(&self, steps: &[Step]) -> Result<(), AuditFault>
        requires steps { AreLegalSteps steps.now }
        ensures answer { (system : System) (requests : List Request) (rows : List LogRow)
            → AreRowsHeard system steps.now requests rows self.now
            → MatchResult result (λ _. IsAudited system steps.now requests rows)
            (IsAuditFault system steps.now requests rows) }
    {
        promise();
        if !self.ended {
            return Err(AuditFault::Unfinished);
        }
        if !self.auditor.is_whole(steps) {
            return Err(AuditFault::Unfinished);
        }
        Ok(())
    }
}
