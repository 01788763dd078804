//! Changes that are planned apart from a master that need not keep its history.

ghost use Rattle.std.specs.Prelude.{◌≡◌, ◌+◌, ◌^◌, ◌<◌, ◌≤◌, ◌++◌, ◌∷◌, [], List, ℕ, Bool, true, IfOk, OnErr, length};
ghost use Rattle.profile.specs.Limits.{openings_end};
ghost use Rattle.planner_policies.specs.Plan.{IsValid};
ghost use Rattle.master_core.specs.Apart.{CanSettle, IsPlannable, from_of, snapshot_of};
ghost use Rattle.master_core.specs.Cores.{IsPrunedBefore, IsStateAs};
ghost use Rattle.master_core.specs.declared.event.Event.{Event};
ghost use Rattle.master_core.specs.declared.event.Event.TheVariants.{Submit, Open};
ghost use Rattle.master_core.specs.History.{IsLegal, accepted_of, learned_of, next_of, placed_of};
ghost use Rattle.master_core.specs.Kept.{CanSettleKept, IsSettledAs, kept_behind, kept_from, kept_snapshot, lean_of, state_after};
ghost use Rattle.master_core.specs.Orders.{IsOrder};

use crate::answer::Answer;
use crate::apart::{Planned, Snapshot};
use crate::core_plans::{CorePlanned, CoreSnapshot};
use crate::cores::Core;
use crate::lean::{LeanMaster, put_answer};
use crate::table::list_of;
use admission::Verdict;
use admission::laws::pruned_lists;
use change_protocol::Change;
use planner_policies::PlanState;
use requirement_table::{Order, PlacedList};
use std::alloc::{AllocError, Global};

impl LeanMaster {
    /// The next cycle, and the slots that are pending before it: what `open` plans from.
    pub fn state(&self) -> PlanState
        ensures state { result ≡ state_after self.now.rules self.now.history }
        ensures valid { IsValid self.now.placed result.cycle result.pending }
        ensures near { result.cycle ≤ openings_end }
    {
        self.core.known();
        self.core.state()
    }

    /// What a change is planned from, apart from this master, from a state of its plan on: of the entries that it keeps.
    ///
    /// # Errors
    ///
    /// Only where memory runs out.
    pub fn kept_snapshot(
        &self,
        alloc: Global,
        state: &PlanState,
    ) -> Result<CoreSnapshot, AllocError>
        requires valid { IsValid self.now.placed state.now.cycle state.now.pending }
        requires next { state.now.cycle ≤ openings_end }
        ensures snapshot { IfOk result (λ snapshot. snapshot ≡ kept_snapshot self.now state.now) }
    {
        self.core.known();
        let placed = list_of(alloc, self.core.placed())?;
        Ok(CoreSnapshot {
            snapshot: Snapshot {
                rules: self.core.rules(),
                placed,
                state: *state,
                accepted: self.core.accepted(),
            },
        })
    }

    /// Answers a change that operator `caller` asks for, 1 to 8, and that was planned apart, from a snapshot of the entries
    /// that this master keeps. Where no change was accepted since, that plan decides, from its cycle on: only a start that
    /// has passed since is refused. Else it is planned anew, from the next cycle on. It leaves the room as it was.
    ///
    /// # Errors
    ///
    /// Only where memory runs out. The plan is dropped then, and the master is as before.
    pub fn settle_kept(
        &mut self,
        alloc: Global,
        caller: u8,
        planned: CorePlanned,
    ) -> Result<Verdict, AllocError>
        requires caller { (1 ≤ caller) × (caller ≤ 8) }
        requires planned { CanSettleKept self.old planned }
        ensures rules { self.new.rules ≡ self.old.rules }
        ensures keeps { self.new.keeps ≡ self.old.keeps }
        ensures event { IfOk result (λ verdict. (trail : List ℕ) × (self.new.history ≡ self.old.history
            ++ Submit caller planned.change (kept_from self.old.history planned) verdict trail ∷ [])) }
        ensures placed { IfOk result (λ verdict. self.new.placed
            ≡ kept_behind self.old.placed (kept_from self.old.history planned) planned.change verdict) }
        ensures same { OnErr result (self.new.history ≡ self.old.history) }
        ensures still { OnErr result (self.new.placed ≡ self.old.placed) }
        ensures spare { self.new.spare ≡ self.old.spare }
        ensures legal { IsLegal self.new.rules self.new.history }
        ensures few { length self.new.history + self.new.spare < 2 ^ 61 }
    {
        self.core.known();
        self.journal.known();
        let answer = answer_kept(&self.core, alloc, planned)?;
        let LeanMaster { core, journal, all } = self;
        put_answer(core, journal, all, alloc, caller, answer)
    }

    /// What a change is planned from, apart from this master, which keeps all events: of all placed entries, as
    /// [`Master::snapshot`](crate::Master::snapshot) gives it.
    ///
    /// # Errors
    ///
    /// Only where memory runs out.
    pub fn snapshot(&self, alloc: Global) -> Result<Snapshot, AllocError>
        requires keeps { self.now.keeps ≡ true }
        ensures snapshot { IfOk result (λ snapshot. snapshot ≡ snapshot_of self.now.rules self.now.history) }
        ensures plannable { IfOk result IsPlannable }
        ensures legal { IsLegal self.now.rules self.now.history }
        ensures few { length self.now.history + self.now.spare < 2 ^ 61 }
    {
        self.core.known();
        self.journal.known();
        match &self.all {
            Some(all) => {
                let placed = list_of(alloc, all.placed())?;
                Ok(Snapshot {
                    rules: self.core.rules(),
                    placed,
                    state: self.core.state(),
                    accepted: self.core.accepted(),
                })
            }
            None => unreachable!(),
        }
    }

    /// Answers a change that operator `caller` asks for, 1 to 8, and that was planned apart from a snapshot of all placed
    /// entries, for this change and by this master's rules, as [`Master::settle`](crate::Master::settle) does. If no
    /// other change was accepted since the snapshot, the entries that this master keeps were pruned by no later cycle
    /// than the one from which the change was planned. It leaves the room as it was.
    ///
    /// # Errors
    ///
    /// Only where memory runs out. The plan is dropped then, and the master is as before.
    pub fn settle(
        &mut self,
        alloc: Global,
        caller: u8,
        change: &Change,
        planned: Planned,
    ) -> Result<Verdict, AllocError>
        requires caller { (1 ≤ caller) × (caller ≤ 8) }
        requires planned { CanSettle self.old.rules self.old.history change.now planned }
        requires held { planned.accepted ≡ accepted_of self.old.history
            → IsPrunedBefore planned.from (placed_of self.old.history) self.old.placed }
        ensures rules { self.new.rules ≡ self.old.rules }
        ensures keeps { self.new.keeps ≡ self.old.keeps }
        ensures event { IfOk result (λ verdict. (trail : List ℕ) × (self.new.history
            ≡ self.old.history ++ Submit caller change.now (from_of self.old.history planned) verdict trail ∷ [])) }
        ensures placed { IfOk result (λ verdict. self.new.placed
            ≡ kept_behind self.old.placed (from_of self.old.history planned) change.now verdict) }
        ensures same { OnErr result (self.new.history ≡ self.old.history) }
        ensures still { OnErr result (self.new.placed ≡ self.old.placed) }
        ensures spare { self.new.spare ≡ self.old.spare }
        ensures legal { IsLegal self.new.rules self.new.history }
        ensures few { length self.new.history + self.new.spare < 2 ^ 61 }
    {
        self.core.known();
        self.journal.known();
        let answer = answer_whole(&self.core, alloc, change, planned)?;
        let LeanMaster { core, journal, all } = self;
        put_answer(core, journal, all, alloc, caller, answer)
    }

    /// Plans and opens the next cycle, below 2^41, as `open` does, for nodes that learn all placed entries; the master
    /// keeps all events. It takes one of the room, where there is any.
    ///
    /// # Errors
    ///
    /// Only where memory runs out. Nothing is changed then, but that there may be more room.
    pub fn open_all(&mut self, alloc: Global) -> Result<Order, AllocError>
        requires keeps { self.old.keeps ≡ true }
        requires next { next_of self.old.history < openings_end }
        ensures rules { self.new.rules ≡ self.old.rules }
        ensures keeps { self.new.keeps ≡ self.old.keeps }
        ensures placed { self.new.placed ≡ self.old.placed }
        ensures order { IfOk result (IsOrder self.old.rules self.old.history) }
        ensures event { IfOk result (λ order.
            self.new.history ≡ self.old.history ++ Open order.cycle order.mask ∷ []) }
        ensures same { OnErr result (self.new.history ≡ self.old.history) }
        ensures room { IfOk result (λ order. self.old.spare ≤ self.new.spare + 1) }
        ensures kept_room { OnErr result (self.old.spare ≤ self.new.spare) }
        ensures legal { IsLegal self.new.rules self.new.history }
        ensures few { length self.new.history + self.new.spare < 2 ^ 61 }
    {
        self.reserve(alloc, 1)?;
        let learned = self.all_learned(alloc)?;
        let order = self.open();
        Ok(Order {
            cycle: order.cycle,
            mask: order.mask,
            l: order.l,
            learned,
        })
    }

    /// All placed entries, where the nodes are to learn some; the master keeps all events.
    fn all_learned(&self, alloc: Global) -> Result<Option<PlacedList>, AllocError>
        requires keeps { self.now.keeps ≡ true }
        ensures learned { IfOk result (λ learned. learned ≡ learned_of self.now.history) }
    {
        if !self.core.learns() {
            return Ok(None);
        }
        match &self.all {
            Some(all) => Ok(Some(list_of(alloc, all.placed())?)),
            None => unreachable!(),
        }
    }
}

/// The answer to a change that was planned apart, from a snapshot of the entries that a core keeps: that of its plan where
/// no change was accepted since, and else it is planned anew.
fn answer_kept(core: &Core, alloc: Global, planned: CorePlanned) -> Result<Answer, AllocError>
    ensures settled { IfOk result (λ answer. (history : List Event) (spare : ℕ) (keeps : Bool)
        → IsStateAs true history core.now → CanSettleKept (lean_of core.now history spare keeps) planned
        → IsSettledAs history core.now planned.change (kept_from history planned) answer) }
{
    pruned_lists();
    core.known();
    let CorePlanned { snapshot, answer } = planned;
    if snapshot.accepted != core.accepted() {
        let anew = core.plan_change(alloc, &answer.change, true)?;
        return Ok(anew);
    }
    let answer = answer.at_next(alloc, core.next());
    Ok(answer.kept(true))
}

/// The answer of a core to a change that was planned apart, from a snapshot of all placed entries: that of its plan where
/// no change was accepted since, and else it is planned anew.
fn answer_whole(
    core: &Core,
    alloc: Global,
    change: &Change,
    planned: Planned,
) -> Result<Answer, AllocError>
    ensures settled { IfOk result (λ answer. (history : List Event)
        → IsStateAs true history core.now → CanSettle core.now.rules history change.now planned
        → (planned.accepted ≡ accepted_of history
        → IsPrunedBefore planned.from (placed_of history) core.now.placed)
        → IsSettledAs history core.now change.now (from_of history planned) answer) }
{
    pruned_lists();
    core.known();
    let Planned {
        rules: _,
        accepted,
        answer,
    } = planned;
    if accepted != core.accepted() {
        let anew = core.plan_change(alloc, change, true)?;
        return Ok(anew);
    }
    let answer = answer.at_next(alloc, core.next());
    Ok(answer.kept(true))
}
