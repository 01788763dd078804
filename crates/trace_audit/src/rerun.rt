//! A run that is done again, event by event, as the rows of a log ask for it.

ghost use Rattle.std.specs.Prelude.{◌≡◌, ◌++◌, ◌∷◌, ◌≤◌, ◌<◌, [], IfOk, IfSome, List, OnOk, false, true, ℕ};
ghost use Rattle.std.specs.Prelude.{sum_by};
ghost use Rattle.profile.specs.Limits.{most_cycles};
ghost use Rattle.can_frame.specs.declared.data_frame.TimedFrame.{TimedFrame};
ghost use Rattle.async_window.specs.declared.request.Request.{Request};
ghost use Rattle.admission.specs.declared.verdict.Verdict.{Verdict};
ghost use Rattle.requests_file.specs.RequestsFile.{AreLegal};
ghost use Rattle.steps_file.specs.StepsFile.{AreLegalSteps, count_of};
ghost use Rattle.system_file.specs.SystemFile.{IsSystem};
ghost use Rattle.system_file.specs.declared.system.System.{System};
ghost use Rattle.master_core.specs.declared.event.Event.{Event};
ghost use Rattle.master_core.specs.declared.event.Event.TheVariants.{Submit, Look};
ghost use Rattle.master_core.specs.History.{IsLegal, IsRight, IsRightAnswer, next_of};
ghost use Rattle.replay_run.specs.Progress.{EndsIn};
ghost use Rattle.bus_trace.specs.EventRows.{told_at};
ghost use Rattle.bus_trace.specs.Logged.{IsEventNear};
ghost use Rattle.log_reader.specs.Row.{opened_row};
ghost use Rattle.log_reader.specs.declared.row.LogRow.{LogRow};
ghost use Rattle.log_reader.specs.declared.row.LogRow.TheVariants as row;
ghost use Rattle.log_reader.specs.declared.row.LogVerdict.{LogVerdict};
ghost use Rattle.log_reader.specs.declared.row.OpenRow.{OpenRow};
ghost use Rattle.trace_audit.specs.Ahead.{AreStepsAhead};
ghost use Rattle.trace_audit.specs.Again.{Asks, CanGoOn, EndsNear, IsAgain, IsRerunBroughtOn, IsRerunOpened};
ghost use Rattle.bus_trace.specs.Compared.{BeginsWith};
ghost use Rattle.trace_audit.specs.States.{KeepsStates};

use crate::ahead::StepsAhead;
use crate::asked::AskedEvent;
use crate::event_rows::rows_of;
use crate::states::{States, keep_answered};
use crate::step_acts::act_at;
use async_window::Request;
use bus_trace::laws::frames_by_cycle;
use bus_trace::{Gathered, behind_event};
use change_protocol::{Act, Change};
use cycle_engine::{Nodes, Segment, run_cycle_in};
use kept_run::laws::{
    beginning, calls_between, cycles_run, orders, requests_of_owners, triggers_count_cycles,
};
use log_reader::LogRow;
use master_core::{Event, LeanMaster};
use replay_run::laws::legal_runs;
use replay_run::{count_plain_calls, fresh_nodes};
use std::alloc::{AllocError, Global};
use steps_file::Step;
use system_file::System;

/// A master and the nodes of its bus, behind some events.
#[derive(Drop)]
pub struct Rerun {
    /// The master, with all events.
    pub master: LeanMaster,
    /// The nodes, with the requests that are not sent.
    pub nodes: Nodes,
    /// The states of the plan from which a change can be planned.
    pub states: States,
    /// What it has before it in the steps.
    pub ahead: StepsAhead,
    /// The length of the synchronous window of the cycle that was opened last, in bit times.
    pub width: u32,
    /// The frames of that cycle.
    pub sent: Segment,
}

/// A master that has answered no call. Memory for so many events is taken at once, where there is any: a hint, without
/// which the history grows as it needs.
fn fresh_master(alloc: Global, system: &System, events: usize) -> Result<LeanMaster, AllocError>
    requires system { IsSystem system.now }
    ensures rules { IfOk result (λ master. master.rules ≡ system.now.rules) }
    ensures history { IfOk result (λ master. master.history ≡ []) }
    ensures placed { IfOk result (λ master. master.placed ≡ []) }
    ensures keeps { IfOk result (λ master. master.keeps ≡ true) }
{
    let mut master = LeanMaster::new(alloc, system.rules, true)?;
    let _ = master.reserve(alloc, events);
    Ok(master)
}

impl Rerun {
    /// A run of no events yet, on the bus of a system with these requests, which has all of these steps before it.
    ///
    /// # Errors
    ///
    /// Only where memory runs out.
    pub fn begin(
        alloc: Global,
        system: &System,
        steps: &[Step],
        requests: &[Request],
    ) -> Result<Rerun, AllocError>
        requires system { IsSystem system.now }
        requires steps { AreLegalSteps steps.now }
        requires requests { AreLegal system.now.owners requests.now }
        ensures again { IfOk result (IsAgain system.now requests.now []) }
        ensures empty { IfOk result (λ rerun. rerun.master.history ≡ []) }
        ensures ahead { IfOk result (λ rerun. AreStepsAhead steps.now rerun.master.history rerun.ahead) }
    {
        beginning();
        requests_of_owners();
        let nodes = fresh_nodes(alloc, system, requests)?;
        let events = count_plain_calls(steps).saturating_add(steps.len());
        let master = fresh_master(alloc, system, events)?;
        let states = States::of(alloc, master.state(), events)?;
        let ahead = StepsAhead::of(steps);
        let sent = Segment::new(alloc, &system.layout)?;
        Ok(Rerun {
            master,
            nodes,
            states,
            ahead,
            width: 0,
            sent,
        })
    }

    /// Answers a change of operator `caller`, 1 to 8, that was planned from the cycle `from`. Where no legal history
    /// goes on with a change that was planned from there, nothing is answered, and the answer is `false`.
    ///
    /// # Errors
    ///
    /// Only where memory runs out.
    fn ask(
        &mut self,
        alloc: Global,
        caller: u8,
        change: &Change,
        from: u64,
    ) -> Result<bool, AllocError>
        requires caller { (1 ≤ caller) × (caller ≤ 8) }
        requires states { let master = self.old.master in
            KeepsStates master.rules master.history master.placed self.old.states }
        requires few { next_of self.old.master.history ≤ most_cycles }
        ensures rules { self.new.master.rules ≡ self.old.master.rules }
        ensures keeps { self.new.master.keeps ≡ self.old.master.keeps }
        ensures nodes { self.new.nodes ≡ self.old.nodes }
        ensures ahead { self.new.ahead ≡ self.old.ahead }
        ensures legal { IfOk result (λ asked. asked ≡ true → IsLegal self.new.master.rules self.new.master.history) }
        ensures event { IfOk result (λ asked. asked ≡ true → (verdict : Verdict) × (trail : List ℕ)
            × (self.new.master.history
            ≡ self.old.master.history ++ Submit caller change.now from verdict trail ∷ [])) }
        ensures states { let master = self.new.master in IfOk result (λ asked. asked ≡ true
            → KeepsStates master.rules master.history master.placed self.new.states) }
        ensures none { IfOk result (λ asked. asked ≡ false → (verdict : Verdict) (trail : List ℕ)
            → IsRightAnswer self.old.master.rules self.old.master.history change.now from verdict trail → ⊥) }
    {
        let Some(state) = self.states.at(from) else {
            return Ok(false);
        };
        let snapshot = self.master.kept_snapshot(alloc, &state)?;
        let planned = match snapshot.plan(alloc, change) {
            Ok(planned) => planned,
            Err(_) => return Err(AllocError),
        };
        let verdict = self.master.settle_kept(alloc, caller, planned)?;
        self.master.placed();
        keep_answered(&mut self.states, verdict, self.master.state())?;
        Ok(true)
    }

    /// Answers a look of operator `caller`, 1 to 8.
    ///
    /// # Errors
    ///
    /// Only where memory runs out.
    fn look(&mut self, alloc: Global, caller: u8) -> Result<(), AllocError>
        requires caller { (1 ≤ caller) × (caller ≤ 8) }
        requires states { let master = self.old.master in
            KeepsStates master.rules master.history master.placed self.old.states }
        ensures rules { self.new.master.rules ≡ self.old.master.rules }
        ensures keeps { self.new.master.keeps ≡ self.old.master.keeps }
        ensures nodes { self.new.nodes ≡ self.old.nodes }
        ensures ahead { self.new.ahead ≡ self.old.ahead }
        ensures legal { IsLegal self.new.master.rules self.new.master.history }
        ensures event { OnOk result (self.new.master.history
            ≡ self.old.master.history ++ Look caller (next_of self.old.master.history) ∷ []) }
        ensures states { let master = self.new.master in
            OnOk result (KeepsStates master.rules master.history master.placed self.new.states) }
    {
        self.master.reserve(alloc, 1)?;
        self.master.look(caller);
        Ok(())
    }

    /// Opens the next cycle and runs it on the bus.
    ///
    /// # Errors
    ///
    /// Only where memory runs out.
    fn open(&mut self, alloc: Global) -> Result<(), AllocError>
        requires going { CanGoOn self.old }
        requires few { next_of self.old.master.history < most_cycles }
        ensures opened { OnOk result ((system : System) (requests : List Request) (trace : List TimedFrame)
            → IsAgain system requests trace self.old → IsRerunOpened system requests trace self.old self.new) }
        ensures ahead { self.new.ahead ≡ self.old.ahead }
    {
        legal_runs();
        orders();
        cycles_run();
        triggers_count_cycles();
        frames_by_cycle();
        self.master.reserve(alloc, 1)?;
        let order = self.master.open();
        self.nodes.reserve_for(alloc, &order.learned)?;
        run_cycle_in(&order, &mut self.nodes, &mut self.sent);
        self.states.push(self.master.state())?;
        self.width = order.l;
        Ok(())
    }

    /// The last event.
    fn last_event(&self) -> &Event
        requires near { EndsNear self.now.master.history }
        ensures last { (event : Event) → EndsIn self.now.master.history event → result.now ≡ event }
        ensures near { IsEventNear result.now }
    {
        self.master.last()
    }

    /// The rows of the last event and of the frames of its cycle, where it opens one.
    ///
    /// # Errors
    ///
    /// Only where memory runs out.
    pub fn rows(&self, alloc: Global) -> Result<Vec<LogRow>, AllocError>
        requires near { EndsNear self.now.master.history }
        ensures rows { IfOk result (λ rows. (event : Event) → EndsIn self.now.master.history event
            → rows.items ≡ told_at self.now.width event self.now.sent) }
    {
        rows_of(alloc, self.last_event(), self.width, self.sent.frames())
    }

    /// What stands after these rows, where a text begins with them: nothing where it does not, or where there is no memory
    /// for them. They are gathered in `room`.
    pub fn behind_rows<'a>(&self, room: &mut Gathered, text: &'a [u8]) -> Option<&'a [u8]>
        requires near { EndsNear self.now.master.history }
        ensures rows { IfSome result (λ rest. (event : Event) → EndsIn self.now.master.history event
            → BeginsWith text.now (told_at self.now.width event self.now.sent) rest.now) }
    {
        behind_event(
            room,
            text,
            self.last_event(),
            self.width,
            self.sent.frames(),
        )
    }

    /// Answers the change that operator `caller` asks next, where it was planned from the cycle `from`: whether no legal
    /// history refuses that.
    fn follow_change(
        &mut self,
        alloc: Global,
        steps: &[Step],
        caller: u8,
        from: u64,
    ) -> Result<bool, AllocError>
        requires steps { AreLegalSteps steps.now }
        requires going { CanGoOn self.old }
        requires ahead { AreStepsAhead steps.now self.old.master.history self.old.ahead }
        requires few { next_of self.old.master.history ≤ sum_by count_of steps.now }
        ensures on { (system : System) (requests : List Request) (trace : List TimedFrame) (told : LogVerdict)
            → IsAgain system requests trace self.old → IfOk result (λ followed. followed ≡ true
            → IsRerunBroughtOn system steps.now requests trace self.old (row.Submit caller from told) self.new) }
        ensures none { IfOk result (λ followed. followed ≡ false → ((told : LogVerdict) (event : Event)
            → IsRight self.old.master.rules self.old.master.history event
            → Asks steps.now self.old.master.history (row.Submit caller from told) event → ⊥)) }
    {
        calls_between();
        let place = self.ahead.take(steps, caller);
        match act_at(steps, caller, place) {
            Some(Act::Ask { change }) => self.ask(alloc, caller, change, from),
            Some(Act::Look) => Ok(false),
            None => Ok(false),
        }
    }

    /// Answers the look that operator `caller` makes next.
    fn follow_look(&mut self, alloc: Global, steps: &[Step], caller: u8) -> Result<bool, AllocError>
        requires steps { AreLegalSteps steps.now }
        requires going { CanGoOn self.old }
        requires ahead { AreStepsAhead steps.now self.old.master.history self.old.ahead }
        requires few { next_of self.old.master.history ≤ sum_by count_of steps.now }
        ensures on { (system : System) (requests : List Request) (trace : List TimedFrame) (next : ℕ)
            → IsAgain system requests trace self.old → IfOk result (λ followed. followed ≡ true
            → IsRerunBroughtOn system steps.now requests trace self.old (row.Look caller next) self.new) }
        ensures none { IfOk result (λ followed. followed ≡ false → ((next : ℕ) (event : Event)
            → IsRight self.old.master.rules self.old.master.history event
            → Asks steps.now self.old.master.history (row.Look caller next) event → ⊥)) }
    {
        calls_between();
        let place = self.ahead.take(steps, caller);
        match act_at(steps, caller, place) {
            Some(Act::Look) => {
                self.look(alloc, caller)?;
                Ok(true)
            }
            Some(Act::Ask { .. }) => Ok(false),
            None => Ok(false),
        }
    }

    /// Opens the next cycle, where all counts together ask for it.
    fn follow_opening(&mut self, alloc: Global, steps: &[Step]) -> Result<bool, AllocError>
        requires steps { AreLegalSteps steps.now }
        requires going { CanGoOn self.old }
        requires ahead { AreStepsAhead steps.now self.old.master.history self.old.ahead }
        requires few { next_of self.old.master.history ≤ sum_by count_of steps.now }
        ensures on { (system : System) (requests : List Request) (trace : List TimedFrame) (opened : OpenRow)
            → IsAgain system requests trace self.old → IfOk result (λ followed. followed ≡ true
            → IsRerunBroughtOn system steps.now requests trace self.old (opened_row opened) self.new) }
        ensures none { IfOk result (λ followed. followed ≡ false → ((opened : OpenRow) (event : Event)
            → IsRight self.old.master.rules self.old.master.history event
            → Asks steps.now self.old.master.history (opened_row opened) event → ⊥)) }
    {
        if self.master.next() >= self.ahead.cycles {
            return Ok(false);
        }
        self.open(alloc)?;
        Ok(true)
    }

    /// Does the event again that a row asks for: of its rows that row must be the first. Where no legal history goes on with
    /// an event that the row asks for, the answer is `false`.
    ///
    /// # Errors
    ///
    /// Only where memory runs out.
    pub fn follow(
        &mut self,
        alloc: Global,
        steps: &[Step],
        line: &LogRow,
    ) -> Result<bool, AllocError>
        requires steps { AreLegalSteps steps.now }
        requires going { CanGoOn self.old }
        requires ahead { AreStepsAhead steps.now self.old.master.history self.old.ahead }
        requires few { next_of self.old.master.history ≤ sum_by count_of steps.now }
        ensures on { (system : System) (requests : List Request) (trace : List TimedFrame)
            → IsAgain system requests trace self.old → IfOk result (λ followed. followed ≡ true
            → IsRerunBroughtOn system steps.now requests trace self.old line.now self.new) }
        ensures none { IfOk result (λ followed. followed ≡ false → ((event : Event)
            → IsRight self.old.master.rules self.old.master.history event
            → Asks steps.now self.old.master.history line.now event → ⊥)) }
    {
        match line {
            LogRow::Submit { caller, from, .. } => self.follow_change(alloc, steps, *caller, *from),
            LogRow::Look { caller, .. } => self.follow_look(alloc, steps, *caller),
            LogRow::Open { .. } => self.follow_opening(alloc, steps),
            LogRow::Plan { .. } => Ok(false),
            LogRow::Frame { .. } => Ok(false),
            LogRow::End { .. } => Ok(false),
        }
    }

    /// Does the event again that the next bytes of a log may ask for. Where it is done, nothing is known of the row that
    /// stands there, and where the answer is `false`, nothing at all.
    ///
    /// # Errors
    ///
    /// Only where memory runs out.
    pub fn follow_asked(
        &mut self,
        alloc: Global,
        steps: &[Step],
        asked: AskedEvent,
    ) -> Result<bool, AllocError>
        requires steps { AreLegalSteps steps.now }
        requires going { CanGoOn self.old }
        requires ahead { AreStepsAhead steps.now self.old.master.history self.old.ahead }
        requires few { next_of self.old.master.history ≤ sum_by count_of steps.now }
        ensures on { (system : System) (requests : List Request) (trace : List TimedFrame)
            → IsAgain system requests trace self.old → IfOk result (λ followed. followed ≡ true
            → (line : LogRow) × IsRerunBroughtOn system steps.now requests trace self.old line self.new) }
    {
        match asked {
            AskedEvent::Change { caller, from } => self.follow_change(alloc, steps, caller, from),
            AskedEvent::Look { caller } => self.follow_look(alloc, steps, caller),
            AskedEvent::Opening => self.follow_opening(alloc, steps),
            AskedEvent::End => Ok(false),
        }
    }
}
