//! An audit row by row.

ghost use Rattle.std.specs.Prelude.{◌≡◌, ◌<◌, [], IfOk, List, false, length, sum_by, true};
ghost use Rattle.async_window.specs.declared.request.Request.{Request};
ghost use Rattle.master_core.specs.History.{next_of};
ghost use Rattle.requests_file.specs.RequestsFile.{AreLegal};
ghost use Rattle.steps_file.specs.StepsFile.{AreLegalSteps, count_of};
ghost use Rattle.system_file.specs.SystemFile.{IsSystem};
ghost use Rattle.system_file.specs.declared.system.System.{System};
ghost use Rattle.log_reader.specs.declared.row.LogRow.{LogRow};
ghost use Rattle.trace_audit.specs.Auditing.{AnswersAllActs, CanAudit, IsAuditing, TakesRow, is_end};

use crate::event_rows::is_at;
use crate::rerun::Rerun;
use crate::step_acts::{acts_of, calls_of, cycles_of};
use admission::laws::one_verdict;
use async_window::Request;
use bus_trace::laws::frames_by_cycle;
use kept_run::laws::{promise, triggers_count_cycles};
use log_reader::LogRow;
use master_core::Event;
use replay_run::laws::legal_runs;
use std::alloc::{AllocError, Global};
use steps_file::Step;
use system_file::System;

/// What the rows so far say, done again, and what must follow them.
#[derive(Drop)]
pub struct Auditor {
    /// The run that they say.
    pub rerun: Rerun,
    /// The rows of its last event.
    pub rows: Vec<LogRow>,
    /// How many of these have come.
    pub came: usize,
}

/// Whether the history has all acts that the steps of a file ask of each operator.
fn answers_all(history: &[Event], steps: &[Step]) -> bool
    ensures all { result ≡ true → AnswersAllActs steps.now history.now }
    ensures not_all { result ≡ false → AnswersAllActs steps.now history.now → ⊥ }
{
    for operator in 1..9 {
        if calls_of(history, operator) != acts_of(steps, operator) {
            return false;
        }
    }
    true
}

impl Auditor {
    /// Before any row.
    ///
    /// # Errors
    ///
    /// Only where memory runs out.
    pub fn begin(
        alloc: Global,
        system: &System,
        steps: &[Step],
        requests: &[Request],
    ) -> Result<Auditor, AllocError>
        requires system { IsSystem system.now }
        requires steps { AreLegalSteps steps.now }
        requires requests { AreLegal system.now.owners requests.now }
        ensures auditing { IfOk result (IsAuditing system.now steps.now requests.now []) }
    {
        Ok(Auditor {
            rerun: Rerun::begin(alloc, system, steps, requests)?,
            rows: Vec::new(alloc),
            came: 0,
        })
    }

    /// Takes a row while rows of the last event are left: whether it is the first of them.
    fn take_left(&mut self, line: &LogRow) -> bool
        requires left { self.old.came < length self.old.rows.items }
        ensures takes { (steps : List Step) → TakesRow steps self.old self.new line.now result }
    {
        legal_runs();
        triggers_count_cycles();
        frames_by_cycle();
        let stands = is_at(self.rows.as_slice(), self.came, line);
        self.came += 1;
        stands
    }

    /// Takes a row while no row of the last event is left: whether it is the first one of an event with which the run
    /// can go on. Then it goes on with it.
    ///
    /// # Errors
    ///
    /// Only where memory runs out.
    fn take_event(
        &mut self,
        alloc: Global,
        steps: &[Step],
        line: &LogRow,
    ) -> Result<bool, AllocError>
        requires steps { AreLegalSteps steps.now }
        requires can { CanAudit steps.now self.old }
        requires none_left { self.old.came ≡ length self.old.rows.items }
        requires not_end { is_end line.now ≡ false }
        ensures takes { IfOk result (TakesRow steps.now self.old self.new line.now) }
    {
        legal_runs();
        triggers_count_cycles();
        frames_by_cycle();
        one_verdict();
        promise();
        if !self.rerun.follow(alloc, steps, line)? {
            return Ok(false);
        }
        let rows = self.rerun.rows(alloc)?;
        let stands = is_at(rows.as_slice(), 0, line);
        self.rows = rows;
        self.came = 1;
        Ok(stands)
    }

    /// Takes a row that is not the last one of a log: whether the rows can stand with it.
    ///
    /// # Errors
    ///
    /// Only where memory runs out.
    pub fn take(&mut self, alloc: Global, steps: &[Step], line: &LogRow) -> Result<bool, AllocError>
        requires steps { AreLegalSteps steps.now }
        requires can { CanAudit steps.now self.old }
        requires not_end { is_end line.now ≡ false }
        ensures takes { IfOk result (TakesRow steps.now self.old self.new line.now) }
    {
        if self.came < self.rows.len() {
            return Ok(self.take_left(line));
        }
        self.take_event(alloc, steps, line)
    }

    /// Whether no row of the last event is left.
    pub fn has_none_left(&self) -> bool
        ensures none_left { result ≡ true → self.now.came ≡ length self.now.rows.items }
    {
        self.came == self.rows.len()
    }

    /// Whether the last row of a log may follow, with this number of cycles: no row of the last event is left, and so
    /// many cycles were opened.
    pub fn can_end(&self, next: u64) -> bool
        ensures left { result ≡ true → self.now.came ≡ length self.now.rows.items }
        ensures next { result ≡ true → next ≡ next_of self.now.rerun.master.history }
        ensures none { result ≡ false → self.now.came ≡ length self.now.rows.items
            → next ≡ next_of self.now.rerun.master.history → ⊥ }
    {
        self.came == self.rows.len() && next == self.rerun.master.next()
    }

    /// Whether all that the steps of a file ask for has happened. All events are kept.
    pub fn is_whole(&self, steps: &[Step]) -> bool
        requires steps { AreLegalSteps steps.now }
        ensures opened { result ≡ true → next_of self.now.rerun.master.history ≡ sum_by count_of steps.now }
        ensures answered { result ≡ true → AnswersAllActs steps.now self.now.rerun.master.history }
        ensures none { result ≡ false → self.now.rerun.master.keeps ≡ true
            → next_of self.now.rerun.master.history ≡ sum_by count_of steps.now
            → AnswersAllActs steps.now self.now.rerun.master.history → ⊥ }
    {
        if self.rerun.master.next() != cycles_of(steps) {
            return false;
        }
        match self.rerun.master.history() {
            Some(history) => answers_all(history, steps),
            None => false,
        }
    }
}
