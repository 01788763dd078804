//! The master, which answers calls and opens cycles.

ghost use Rattle.std.specs.Prelude.{◌≡◌, ◌+◌, ◌-◌, ◌^◌, ◌<◌, ◌≤◌, ◌++◌, ◌∷◌, [], List, ℕ};
ghost use Rattle.std.specs.Prelude.{IfOk, OnErr, OnOk, length};
ghost use Rattle.profile.specs.Limits.{cycles_end, openings_end};
ghost use Rattle.change_protocol.specs.Applied.{applied};
ghost use Rattle.planner_policies.specs.Plan.{mask_at, pending_at};
ghost use Rattle.plan_check.specs.PlanKept.{IsTaken};
ghost use Rattle.admission.specs.Certified.{end_of};
ghost use Rattle.admission.specs.Verdict.{IsInTime, IsRules, IsTakenWhereDue, plan_from};
ghost use Rattle.master_core.specs.Answers.{IsAnswer};
ghost use Rattle.master_core.specs.Apart.{CanSettle, IsPlannable, from_of, snapshot_of};
ghost use Rattle.master_core.specs.Certificates.{IsCertificateOfPlan};
ghost use Rattle.master_core.specs.declared.event.Event.TheVariants.{Submit, Look, Open};
ghost use Rattle.master_core.specs.History.{IsLegal, IsPlainlyLegal, accepted_of, next_of, placed_of, plan_of};
ghost use Rattle.master_core.specs.Orders.{IsOrder, IsUpcoming};

use crate::answer::Answer;
use crate::answered::Answered;
use crate::apart::{Planned, Snapshot};
use crate::cores::Core;
use crate::event::Event;
use crate::opened::opened_masks;
use crate::room::{make_room, put};
use crate::table::list_of;
use crate::told_repeat::told_repeat;
use crate::upcoming::Upcoming;
use admission::{CertifyFault, Rules, Verdict, certify, certify_known};
use change_protocol::Change;
use plan_check::Certificate;
use planner_policies::PlanState;
use planner_policies::laws::loops;
use requirement_table::{Mask, Order, Placed};
use std::alloc::{AllocError, Global};
use std::marker::Model;

/// A master. Contracts see its rules, its history, and the number of events that it has room for.
#[derive(Drop, Debug)]
pub struct Master {
    /// It keeps all placed entries.
    pub(crate) core: Core,
    pub(crate) history: Vec<Event>,
    /// The number of further events that the history has room for.
    pub(crate) spare: usize,
}

impl Model for Master {
    ghost use Rattle.std.specs.Prelude.{◌≡◌, false, length, vec_capacity};
    ghost use Rattle.master_core.specs.Cores.{IsStateOf};
    ghost use Rattle.master_core.specs.Keeping.{HasEventRoom, MasterView};

    ghost Value = { MasterView };

    ghost view = { λ m. record { rules = m.core.rules; history = m.history.items; spare = m.spare } };

    ghost invariant = { λ m. IsStateOf m.history.items m.core × (m.core.forgets ≡ false)
        × HasEventRoom (length m.history.items) (vec_capacity m.history) m.spare };
}

impl Master {
    /// A master with these rules, which was not called yet. The rules have 1 to 30 nodes, 40 or 96 slots, a window of 55
    /// to 16,383 bit times and a horizon of 1 to 100,000 cycles.
    ///
    /// # Errors
    ///
    /// Only where memory runs out.
    pub fn new(alloc: Global, rules: Rules) -> Result<Master, AllocError>
        requires rules { IsRules rules }
        ensures rules { IfOk result (λ master. master.rules ≡ rules) }
        ensures history { IfOk result (λ master. master.history ≡ []) }
    {
        let core = Core::new(alloc, rules, false)?;
        Ok(Master {
            core,
            history: Vec::new(alloc),
            spare: 0,
        })
    }

    /// Makes room for so many events, so that as many looks and openings need no memory.
    ///
    /// # Errors
    ///
    /// Only where memory runs out. Nothing is changed then.
    pub fn reserve(&mut self, _alloc: Global, events: usize) -> Result<(), AllocError>
        ensures rules { self.new.rules ≡ self.old.rules }
        ensures history { self.new.history ≡ self.old.history }
        ensures room { OnOk result (events ≤ self.new.spare) }
        ensures kept { self.old.spare ≤ self.new.spare }
        ensures same { OnErr result (self.new.spare ≡ self.old.spare) }
        ensures legal { IsLegal self.new.rules self.new.history }
        ensures few { length self.new.history + self.new.spare < 2 ^ 61 }
    {
        if events > self.spare {
            make_room(&mut self.history, events)?;
            self.spare = events;
        }
        Ok(())
    }

    /// Answers a change that operator `caller` asks for, 1 to 8. It is planned from the next cycle on. The table
    /// changes only where the verdict is `Accepted`. It leaves the room as it was.
    ///
    /// # Errors
    ///
    /// Only where memory runs out. Nothing is changed then, and the call may be made again.
    pub fn submit(
        &mut self,
        alloc: Global,
        caller: u8,
        change: &Change,
    ) -> Result<Verdict, AllocError>
        requires caller { (1 ≤ caller) × (caller ≤ 8) }
        ensures rules { self.new.rules ≡ self.old.rules }
        ensures event { IfOk result (λ verdict. (trail : List ℕ) × (self.new.history
            ≡ self.old.history ++ Submit caller change.now (next_of self.old.history) verdict trail ∷ [])) }
        ensures same { OnErr result (self.new.history ≡ self.old.history) }
        ensures complete { let next = next_of self.old.history in
            let pending = pending_at (plan_of self.old.rules (placed_of self.old.history)) next in
            let plan = plan_from self.old.rules (applied (placed_of self.old.history) change.now) next pending in
            IfOk result (λ verdict. IsInTime self.old.rules (placed_of self.old.history) next change.now
            → IsTakenWhereDue self.old.rules plan verdict) }
        ensures spare { self.new.spare ≡ self.old.spare }
        ensures legal { IsLegal self.new.rules self.new.history }
        ensures plain { IsPlainlyLegal self.old.rules self.old.history
            → IsPlainlyLegal self.new.rules self.new.history }
        ensures few { length self.new.history + self.new.spare < 2 ^ 61 }
    {
        let answer = self.plan_change(alloc, change)?;
        self.make_room()?;
        Ok(self.put_answer(caller, answer))
    }

    /// What a change is planned from, apart from this master.
    ///
    /// # Errors
    ///
    /// Only where memory runs out.
    pub fn snapshot(&self, alloc: Global) -> Result<Snapshot, AllocError>
        ensures snapshot { IfOk result (λ snapshot. snapshot ≡ snapshot_of self.now.rules self.now.history) }
        ensures plannable { IfOk result IsPlannable }
        ensures legal { IsLegal self.now.rules self.now.history }
        ensures few { length self.now.history + self.now.spare < 2 ^ 61 }
    {
        self.core.known();
        let placed = list_of(alloc, self.core.placed())?;
        Ok(Snapshot {
            rules: self.core.rules(),
            placed,
            state: self.core.state(),
            accepted: self.core.accepted(),
        })
    }

    /// Answers a change that operator `caller` asks for, 1 to 8, and that was planned apart, for this change and by
    /// this master's rules.
    ///
    /// Where no change was accepted since its snapshot was taken, that plan decides, from its cycle on: the snapshot
    /// was one of this master. Only a start that has passed since is refused. Where there is room, it takes no memory
    /// then. Else the change is planned anew, from the next cycle on. The table changes only where the verdict is
    /// `Accepted`. It uses one of the room, where there is any.
    ///
    /// # Errors
    ///
    /// Only where memory runs out. The plan is dropped then, and the master is as before.
    pub fn settle(
        &mut self,
        alloc: Global,
        caller: u8,
        change: &Change,
        planned: Planned,
    ) -> Result<Verdict, AllocError>
        requires caller { (1 ≤ caller) × (caller ≤ 8) }
        requires planned { CanSettle self.old.rules self.old.history change.now planned }
        ensures rules { self.new.rules ≡ self.old.rules }
        ensures event { IfOk result (λ verdict. (trail : List ℕ) × (self.new.history
            ≡ self.old.history ++ Submit caller change.now (from_of self.old.history planned) verdict trail ∷ [])) }
        ensures same { OnErr result (self.new.history ≡ self.old.history) }
        ensures room { OnErr result (self.new.spare ≡ self.old.spare) }
        ensures answered { OnErr result (planned.accepted ≡ accepted_of self.old.history → 1 ≤ self.old.spare → ⊥) }
        ensures spare { OnOk result (self.new.spare ≡ self.old.spare - 1) }
        ensures legal { IsLegal self.new.rules self.new.history }
        ensures few { length self.new.history + self.new.spare < 2 ^ 61 }
    {
        let answer = self.settled(alloc, change, planned)?;
        self.make_room_for_one()?;
        Ok(self.put_answer(caller, answer))
    }

    /// The answer to a change that was planned apart: by its plan where no change was accepted since, and else planned
    /// from the next cycle on.
    fn settled(
        &self,
        alloc: Global,
        change: &Change,
        planned: Planned,
    ) -> Result<Answer, AllocError>
        requires planned { CanSettle self.now.rules self.now.history change.now planned }
        ensures answer { IfOk result (IsAnswer self.now.rules self.now.history) }
        ensures change { IfOk result (λ answer. answer.change ≡ change.now) }
        ensures from { IfOk result (λ answer. answer.from ≡ from_of self.now.history planned) }
        ensures answered { OnErr result (planned.accepted ≡ accepted_of self.now.history → ⊥) }
        ensures legal { IsLegal self.now.rules self.now.history }
        ensures few { length self.now.history + self.now.spare < 2 ^ 61 }
    {
        self.core.known();
        if planned.accepted != self.core.accepted() {
            return self.plan_change(alloc, change);
        }
        let Planned { answer, .. } = planned;
        Ok(answer.at_next(alloc, self.core.next()))
    }

    /// Makes room for one event, where there is none. Where memory runs out, nothing is changed.
    fn make_room_for_one(&mut self) -> Result<(), AllocError>
        ensures rules { self.new.rules ≡ self.old.rules }
        ensures history { self.new.history ≡ self.old.history }
        ensures room { OnOk result (self.new.spare ≡ (self.old.spare - 1) + 1) }
        ensures same { OnErr result (self.new.spare ≡ self.old.spare) }
        ensures made { OnErr result (1 ≤ self.old.spare → ⊥) }
        ensures legal { IsLegal self.new.rules self.new.history }
        ensures few { length self.new.history + self.new.spare < 2 ^ 61 }
    {
        if self.spare > 0 {
            return Ok(());
        }
        self.make_room()
    }

    /// Plans a change from the next cycle on, and takes all memory that its answer needs.
    fn plan_change(&self, alloc: Global, change: &Change) -> Result<Answer, AllocError>
        ensures answer { IfOk result (IsAnswer self.now.rules self.now.history) }
        ensures change { IfOk result (λ answer. answer.change ≡ change.now) }
        ensures from { IfOk result (λ answer. answer.from ≡ next_of self.now.history) }
        ensures complete { let next = next_of self.now.history in
            let pending = pending_at (plan_of self.now.rules (placed_of self.now.history)) next in
            let plan = plan_from self.now.rules (applied (placed_of self.now.history) change.now) next pending in
            IfOk result (λ answer. IsInTime self.now.rules (placed_of self.now.history) next change.now
            → IsTakenWhereDue self.now.rules plan answer.verdict) }
        ensures legal { IsLegal self.now.rules self.now.history }
        ensures few { length self.now.history + self.now.spare < 2 ^ 61 }
    {
        self.core.known();
        self.core.plan_change(alloc, change, false)
    }

    /// Makes room for one event more. Where memory runs out, nothing is changed.
    fn make_room(&mut self) -> Result<(), AllocError>
        ensures rules { self.new.rules ≡ self.old.rules }
        ensures history { self.new.history ≡ self.old.history }
        ensures room { OnOk result (self.new.spare ≡ self.old.spare + 1) }
        ensures same { OnErr result (self.new.spare ≡ self.old.spare) }
        ensures legal { IsLegal self.new.rules self.new.history }
        ensures few { length self.new.history + self.new.spare < 2 ^ 61 }
    {
        let events = self.spare + 1;
        make_room(&mut self.history, events)?;
        self.spare = events;
        Ok(())
    }

    /// Puts an answer to operator `caller` behind the history. It takes no memory, and one of the room. The table
    /// changes only where the verdict is `Accepted`.
    fn put_answer(&mut self, caller: u8, answer: Answer) -> Verdict
        requires spare { 1 ≤ self.old.spare }
        requires answer { IsAnswer self.old.rules self.old.history answer }
        ensures rules { self.new.rules ≡ self.old.rules }
        ensures verdict { result ≡ answer.verdict }
        ensures event { self.new.history ≡ self.old.history
            ++ Submit caller answer.change answer.from answer.verdict answer.trail ∷ [] }
        ensures spare { self.new.spare + 1 ≡ self.old.spare }
        ensures legal { IsLegal self.new.rules self.new.history }
        ensures plain { answer.from ≡ next_of self.old.history → IsPlainlyLegal self.old.rules self.old.history
            → IsPlainlyLegal self.new.rules self.new.history }
        ensures few { length self.new.history + self.new.spare < 2 ^ 61 }
    {
        self.core.known();
        let (change, answered) = self.core.put(answer);
        let Answered {
            from,
            verdict,
            trail,
        } = answered;
        put(
            &mut self.history,
            Event::Submit {
                caller,
                change,
                from,
                verdict,
                trail,
            },
        );
        self.spare -= 1;
        verdict
    }

    /// Answers the next cycle to be opened, for operator `caller`, 1 to 8. It takes no memory, and one of the room.
    pub fn look(&mut self, caller: u8) -> u64
        requires caller { (1 ≤ caller) × (caller ≤ 8) }
        requires spare { 1 ≤ self.old.spare }
        ensures rules { self.new.rules ≡ self.old.rules }
        ensures next { result ≡ next_of self.old.history }
        ensures event { self.new.history ≡ self.old.history ++ Look caller result ∷ [] }
        ensures spare { self.new.spare + 1 ≡ self.old.spare }
        ensures legal { IsLegal self.new.rules self.new.history }
        ensures plain { IsPlainlyLegal self.old.rules self.old.history
            → IsPlainlyLegal self.new.rules self.new.history }
        ensures few { length self.new.history + self.new.spare < 2 ^ 61 }
    {
        let next = self.core.next();
        put(&mut self.history, Event::Look { caller, next });
        self.spare -= 1;
        next
    }

    /// Plans and opens the next cycle, below 2^41. No deadline is missed in it, nor in any later one. It takes no
    /// memory, and one of the room.
    pub fn open(&mut self) -> Order
        requires spare { 1 ≤ self.old.spare }
        requires next { next_of self.old.history < openings_end }
        ensures rules { self.new.rules ≡ self.old.rules }
        ensures order { IsOrder self.old.rules self.old.history result }
        ensures event { self.new.history ≡ self.old.history ++ Open result.cycle result.mask ∷ [] }
        ensures spare { self.new.spare + 1 ≡ self.old.spare }
        ensures legal { IsLegal self.new.rules self.new.history }
        ensures plain { IsPlainlyLegal self.old.rules self.old.history
            → IsPlainlyLegal self.new.rules self.new.history }
        ensures few { length self.new.history + self.new.spare < 2 ^ 61 }
    {
        self.core.known();
        let upcoming = self.core.plan_next();
        self.open_upcoming(upcoming)
    }

    /// What `open` would open now; the next cycle is below 2^41. It takes no memory.
    pub fn upcoming(&self) -> Upcoming
        requires next { next_of self.now.history < openings_end }
        ensures upcoming { IsUpcoming self.now.rules self.now.history result }
    {
        self.core.known();
        self.core.upcoming()
    }

    /// Opens the next cycle, below 2^41, as `open` does, by what is upcoming now: the cycle is not planned again. It
    /// takes no memory, and one of the room. Entries that are over by the cycle behind it are planned no more.
    pub fn open_upcoming(&mut self, upcoming: Upcoming) -> Order
        requires spare { 1 ≤ self.old.spare }
        requires next { next_of self.old.history < openings_end }
        requires upcoming { IsUpcoming self.old.rules self.old.history upcoming }
        ensures rules { self.new.rules ≡ self.old.rules }
        ensures order { IsOrder self.old.rules self.old.history result }
        ensures event { self.new.history ≡ self.old.history ++ Open result.cycle result.mask ∷ [] }
        ensures spare { self.new.spare + 1 ≡ self.old.spare }
        ensures legal { IsLegal self.new.rules self.new.history }
        ensures plain { IsPlainlyLegal self.old.rules self.old.history
            → IsPlainlyLegal self.new.rules self.new.history }
        ensures few { length self.new.history + self.new.spare < 2 ^ 61 }
    {
        self.core.known();
        let order = self.core.open_upcoming(upcoming);
        let cycle = order.cycle;
        let mask = order.mask;
        put(&mut self.history, Event::Open { cycle, mask });
        self.spare -= 1;
        order
    }

    /// The slots that `open` would flag now; the next cycle is below 2^41.
    pub fn planned(&self) -> Mask
        requires next { next_of self.now.history < openings_end }
        ensures mask { result
            ≡ mask_at (plan_of self.now.rules (placed_of self.now.history)) (next_of self.now.history) }
    {
        self.core.known();
        self.core.planned()
    }

    /// The next cycle, and the slots that are pending before it: what `open` plans from.
    pub fn state(&self) -> PlanState
        ensures cycle { result.cycle ≡ next_of self.now.history }
        ensures pending { result.pending
            ≡ pending_at (plan_of self.now.rules (placed_of self.now.history)) (next_of self.now.history) }
    {
        self.core.state()
    }

    /// The certificate of the table: its plan from cycle 0 on, before which nothing is pending, up to the end of the
    /// first repeat of the plan that goes on from the next cycle. That repeat is within the horizon of the rules, and
    /// no deadline is missed at any cycle.
    ///
    /// It takes time for the cycles up to the end of the repeat times the entries that are not over, and for the
    /// history. Where a cycle was opened behind the last accepted change, or that change was planned from an earlier one,
    /// the cycles are planned twice: once to find the repeat. The memory is that of the masks, and then of the states.
    ///
    /// # Errors
    ///
    /// Only where memory runs out.
    pub fn certificate(&self, alloc: Global) -> Result<Certificate, AllocError>
        ensures certificate { IfOk result (IsCertificateOfPlan self.now.rules self.now.history) }
        ensures taken { IfOk result (IsTaken (placed_of self.now.history) self.now.rules.window) }
        ensures cycles { IfOk result (λ certificate. end_of certificate ≤ cycles_end) }
    {
        loops();
        self.core.known();
        let rules = self.core.rules();
        let placed = self.core.placed();
        let state = self.core.state();
        let events = self.history.as_slice();
        let opened = opened_masks(alloc, events)?;
        let masks = opened.as_slice();
        if let Some(again) = told_repeat(events, state.cycle) {
            let certificate = certify_known(
                alloc, &rules, placed, masks, &state, again.0, again.1,
            )?;
            return Ok(certificate);
        }
        match certify(alloc, &rules, placed, masks, &state) {
            Ok(certificate) => Ok(certificate),
            Err(CertifyFault::Memory) => Err(AllocError),
            Err(CertifyFault::Miss { .. }) => unreachable!(),
            Err(CertifyFault::NoRepeat { .. }) => unreachable!(),
        }
    }

    /// The next cycle to be opened.
    pub fn next(&self) -> u64
        ensures next { result ≡ next_of self.now.history }
    {
        self.core.next()
    }

    /// The placed entries, in the order of their placing.
    pub fn placed(&self) -> &[Placed]
        ensures list { result.now ≡ placed_of self.now.history }
    {
        self.core.placed()
    }

    /// All calls with their answers, in their order.
    pub fn history(&self) -> &[Event]
        ensures list { result.now ≡ self.now.history }
        ensures legal { IsLegal self.now.rules self.now.history }
        ensures few { length self.now.history + self.now.spare < 2 ^ 61 }
    {
        self.history.as_slice()
    }

    /// The rules by which changes are judged.
    pub fn rules(&self) -> Rules
        ensures rules { result ≡ self.now.rules }
    {
        self.core.rules()
    }
}
