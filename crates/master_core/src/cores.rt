//! The core of a master: what it keeps besides its history.

ghost use Rattle.std.specs.Prelude.{◌≡◌, ◌+◌, ◌^◌, ◌<◌, ◌≤◌, ◌++◌, ◌∷◌, [], List, ℕ, true, false, Some, None, Bool, All, IfOk, IfSome, OnErr, OnOk, if◌then◌else◌, is_some, length, option_map};
ghost use Rattle.profile.specs.Limits.{cycles_end, openings_end};
ghost use Rattle.change_protocol.specs.Applied.{applied};
ghost use Rattle.plan_check.specs.PlanKept.{IsTaken};
ghost use Rattle.plan_check.specs.PlanText.{IsTextOfPlan, plan_text};
ghost use Rattle.planner_policies.specs.Plan.{mask_at};
ghost use Rattle.admission.specs.Certified.{IsCertificateFrom, end_of};
ghost use Rattle.admission.specs.Verdict.{IsInTime, IsRules, IsTakenWhereDue, is_accepted, plan_from};
ghost use Rattle.master_core.specs.Answers.{HasNoRoom, IsAnswerAs, IsAnswerTo, entries_of};
ghost use Rattle.master_core.specs.Apart.{IsPlannable};
ghost use Rattle.master_core.specs.CorePlans.{CanSettleFrom, IsAnsweredFrom, IsLedTo, IsSettled, snapshot_of_core};
ghost use Rattle.requirement_table.specs.Table.{IsInRange, IsWellPlaced};
ghost use Rattle.change_protocol.specs.Pruned.{pruned};
ghost use Rattle.master_core.specs.Cores.{IsAnswered, IsCore, IsCoreOrder, IsCoreUpcoming, IsHeld, IsPruned, IsPrunedBefore, IsStateAs, IsStateOf};
ghost use Rattle.master_core.specs.Cores.{CoreView, core_of, saved_of, state_of};
ghost use Rattle.master_core.specs.Cores.{answered_as, answered_by, most_kept, new_core, onward, opened, with_all};
ghost use Rattle.master_core.specs.History.{IsRightAnswer, placed_of};
ghost use Rattle.master_core.specs.declared.event.Event.{Event};
ghost use Rattle.master_core.specs.declared.event.Event.TheVariants.{Submit, Look, Open};

use crate::all_placed::AllPlaced;
use crate::answer::{Answer, answer_of, take_over};
use crate::answered::Answered;
use crate::apart::Snapshot;
use crate::core_plans::{CorePlanned, CoreSnapshot, leads, same_list, same_rules};
use crate::laws::saved_cores;
use crate::planning::plan_next;
use crate::saved::{Saved, can_keep};
use crate::table::{Table, list_of};
use crate::upcoming::Upcoming;
use admission::laws::{certificates_in_range, pruned_lists, safe_states, taken_where_due};
use admission::{CertifyFault, Rules, Verdict, certify_from, safe_list};
use change_protocol::{Change, prune};
use plan_check::Certificate;
use planner_policies::{PlanState, cycle_mask};
use requirement_table::{Mask, Order, Placed, PlacedList};
use std::alloc::{AllocError, Global};
use std::marker::Model;

/// The most entries that a core keeps where it forgets.
pub const MOST_KEPT: usize = 4_096;

/// The core of a master: the rules, the placed entries, where their plan stands, and what the nodes are to learn. It
/// has no history, and its memory does not grow with the cycles that it opens.
#[derive(Drop, Debug)]
pub struct Core {
    rules: Rules,
    table: Table,
    /// The next cycle, and the slots that are pending before it.
    state: PlanState,
    /// The placed entries as the nodes are to learn them, where they changed since the last opening.
    learned: Option<PlacedList>,
    /// The number of changes that were accepted.
    accepted: u64,
    /// Whether `submit` drops the entries that no answer needs any more, and keeps at most 4,096.
    forgets: bool,
}

impl Model for Core {
    ghost use Rattle.master_core.specs.Cores.{CoreView, IsCore, IsRanked};

    ghost Value = { CoreView };

    ghost view = { λ m. record {
      rules = m.rules;
      placed = m.table.placed.items;
      cycle = m.state.cycle;
      pending = m.state.pending;
      learned = m.learned;
      accepted = m.accepted;
      forgets = m.forgets;
    } };

    ghost invariant = { λ m. let core : CoreView = record {
      rules = m.rules;
      placed = m.table.placed.items;
      cycle = m.state.cycle;
      pending = m.state.pending;
      learned = m.learned;
      accepted = m.accepted;
      forgets = m.forgets;
    } in IsCore core × IsRanked core m.table.since m.table.planner.ranking };
}

impl Core {
    /// A core with these rules, which was not called yet. The rules have 1 to 30 nodes, 40 or 96 slots, a window of 55
    /// to 16,383 bit times and a horizon of 1 to 100,000 cycles. Where it forgets, it drops the entries that no answer
    /// needs any more, each time that it accepts a change.
    ///
    /// # Errors
    ///
    /// Only where memory runs out.
    pub fn new(alloc: Global, rules: Rules, forgets: bool) -> Result<Core, AllocError>
        requires rules { IsRules rules }
        ensures core { IfOk result (λ core. core ≡ new_core rules forgets) }
        ensures history { IfOk result (IsStateOf []) }
    {
        let table = Table::of(alloc, Vec::new(alloc), 0, &rules)?;
        Ok(Core {
            rules,
            table,
            state: PlanState {
                cycle: 0,
                pending: Mask::empty(),
            },
            learned: None,
            accepted: 0,
            forgets,
        })
    }

    /// Answers a change, which is planned from the next cycle on. The list changes only where the verdict is
    /// `Accepted`.
    ///
    /// # Errors
    ///
    /// Where memory runs out, and where there is no room for a change that is accepted: 2^64 - 1 changes were accepted
    /// before, or the core forgets and its list would have more than 4,096 entries. Other changes are answered then too.
    /// Nothing is changed, and the call may be made again.
    pub fn submit(&mut self, alloc: Global, change: &Change) -> Result<Answered, AllocError>
        ensures answer { IfOk result (IsAnswered self.old change.now) }
        ensures state { IfOk result (λ answered.
            self.new ≡ answered_by self.old answered.from change.now answered.verdict) }
        ensures same { OnErr result (self.new ≡ self.old) }
        ensures core { OnOk result (IsCore self.new) }
        ensures complete { let plan = plan_from self.old.rules (applied self.old.placed change.now)
            self.old.cycle self.old.pending in
            IfOk result (λ answered. IsInTime self.old.rules self.old.placed self.old.cycle change.now
            → IsTakenWhereDue self.old.rules plan answered.verdict) }
        ensures history { IfOk result (λ answered. (history : List Event) (caller : ℕ) → IsStateOf history self.old
            → IsStateOf (history
            ++ Submit caller change.now answered.from answered.verdict answered.trail ∷ []) self.new) }
    {
        let answer = self.plan_change(alloc, change, self.forgets)?;
        let answered = self.put_where_room(answer)?;
        self.known();
        Ok(answered)
    }

    /// What a change is planned from, apart from this core.
    ///
    /// # Errors
    ///
    /// Only where memory runs out.
    pub fn snapshot(&self, alloc: Global) -> Result<CoreSnapshot, AllocError>
        ensures snapshot { IfOk result (λ snapshot. snapshot ≡ snapshot_of_core self.now) }
        ensures plannable { IfOk result IsPlannable }
    {
        self.known();
        let placed = list_of(alloc, self.table.placed.as_slice())?;
        Ok(CoreSnapshot {
            snapshot: Snapshot {
                rules: self.rules,
                placed,
                state: self.state,
                accepted: self.accepted,
            },
        })
    }

    /// Answers a change that was planned apart. Its plan decides exactly where it leads to this core: the rules, the
    /// entries and the number of accepted changes are those of the snapshot, and the plan from there leads to the next
    /// cycle and what is pending before it. Then the change is planned from the cycle of the snapshot, and only a start
    /// that has passed since is refused. Else it is planned anew, from the next cycle on. So a plan of another core does
    /// no harm.
    ///
    /// # Errors
    ///
    /// As those of `submit`. The plan is dropped then, and the core is as before.
    pub fn settle(&mut self, alloc: Global, planned: CorePlanned) -> Result<Answered, AllocError>
        ensures answer { IfOk result (IsAnsweredFrom self.old planned.change) }
        ensures state { IfOk result (λ answered.
            self.new ≡ answered_by self.old answered.from planned.change answered.verdict) }
        ensures same { OnErr result (self.new ≡ self.old) }
        ensures core { OnOk result (IsCore self.new) }
        ensures settled { IfOk result (IsSettled self.old planned) }
        ensures history { IfOk result (λ answered. (history : List Event) (caller : ℕ) → IsStateOf history self.old
            → CanSettleFrom history self.old.forgets planned.snapshot → IsStateOf (history
            ++ Submit caller planned.change answered.from answered.verdict answered.trail ∷ []) self.new) }
    {
        let CorePlanned { snapshot, answer } = planned;
        if !self.is_led_to(alloc, &snapshot)? {
            return self.submit(alloc, &answer.change);
        }
        pruned_lists();
        taken_where_due();
        let answer = answer.at_next(alloc, self.state.cycle);
        let answer = answer.kept(self.forgets);
        let answered = self.put_where_room(answer)?;
        self.known();
        Ok(answered)
    }

    /// Whether the plan from a snapshot leads to this core, which has the same rules, entries and number of accepted
    /// changes.
    fn is_led_to(&self, alloc: Global, snapshot: &Snapshot) -> Result<bool, AllocError>
        requires plannable { IsPlannable snapshot.now }
        ensures led { IfOk result (λ led. led ≡ true → IsLedTo self.now snapshot.now) }
        ensures apart { IfOk result (λ led. led ≡ false → IsLedTo self.now snapshot.now → ⊥) }
    {
        let placed = self.table.placed.as_slice();
        if snapshot.accepted != self.accepted || snapshot.state.cycle > self.state.cycle {
            return Ok(false);
        }
        if !same_rules(&snapshot.rules, &self.rules) {
            return Ok(false);
        }
        if !same_list(snapshot.placed.as_slice(), placed) {
            return Ok(false);
        }
        leads(alloc, &self.rules, placed, &snapshot.state, &self.state)
    }

    /// Plans a change from the next cycle on, and takes all memory that its answer needs. What it makes is pruned where
    /// `prunes` says so.
    pub(crate) fn plan_change(
        &self,
        alloc: Global,
        change: &Change,
        prunes: bool,
    ) -> Result<Answer, AllocError>
        ensures answer { IfOk result (IsAnswerAs prunes self.now) }
        ensures change { IfOk result (λ answer. answer.change ≡ change.now) }
        ensures answered { IfOk result (λ answer. IsAnswered self.now change.now
            (record { from = answer.from; verdict = answer.verdict; trail = answer.trail })) }
        ensures complete { let plan = plan_from self.now.rules (applied self.now.placed change.now)
            self.now.cycle self.now.pending in
            IfOk result (λ answer. IsInTime self.now.rules self.now.placed self.now.cycle change.now
            → IsTakenWhereDue self.now.rules plan answer.verdict) }
        ensures right { IfOk result (λ answer. (held : Bool) (history : List Event) → IsStateAs held history self.now
            → IsRightAnswer self.now.rules history answer.change answer.from answer.verdict answer.trail) }
    {
        pruned_lists();
        let placed = self.table.placed.as_slice();
        let answer = answer_of(alloc, &self.rules, placed, &self.state, change)?;
        Ok(answer.kept(prunes))
    }

    /// Takes what an answer made, where there is room for it. It takes no memory.
    fn put_where_room(&mut self, answer: Answer) -> Result<Answered, AllocError>
        requires answer { IsAnswerTo self.old answer }
        ensures full { OnErr result (HasNoRoom self.old answer) }
        ensures same { OnErr result (self.new ≡ self.old) }
        ensures answered { IfOk result (λ answered. answered
            ≡ record { from = answer.from; verdict = answer.verdict; trail = answer.trail }) }
        ensures state { OnOk result (self.new ≡ answered_by self.old answer.from answer.change answer.verdict) }
        ensures history { OnOk result ((history : List Event) (caller : ℕ) → IsStateOf history self.old
            → IsHeld self.old.forgets answer.from (placed_of history) self.old.placed
            → IsRightAnswer self.old.rules history answer.change answer.from answer.verdict answer.trail
            → IsStateOf (history
            ++ Submit caller answer.change answer.from answer.verdict answer.trail ∷ []) self.new) }
    {
        if !self.can_count(&answer.verdict) || !self.can_list(&answer) {
            return Err(AllocError);
        }
        let (_, answered) = self.put(answer);
        Ok(answered)
    }

    /// Whether a change with this verdict can be counted, where it is accepted.
    fn can_count(&self, verdict: &Verdict) -> bool
        ensures few { result ≡ true → is_accepted verdict.now ≡ true → self.now.accepted + 1 < 2 ^ 64 }
        ensures full { result ≡ false → (is_accepted verdict.now ≡ true) × (2 ^ 64 ≤ self.now.accepted + 1) }
    {
        !verdict.is_accepted() || self.accepted < u64::MAX
    }

    /// Whether the list that an answer makes may be kept.
    fn can_list(&self, answer: &Answer) -> bool
        ensures short { result ≡ true → self.now.forgets ≡ true → entries_of answer.now.made ≤ most_kept }
        ensures long { result ≡ false → (self.now.forgets ≡ true) × (most_kept < entries_of answer.now.made) }
    {
        !self.forgets || answer.entries() <= MOST_KEPT
    }

    /// Takes what an answer made, whole or pruned, and gives the change back, with what is answered. It takes no memory.
    pub(crate) fn put(&mut self, answer: Answer) -> (Change, Answered)
        requires few { is_accepted answer.verdict ≡ true → self.old.accepted + 1 < 2 ^ 64 }
        requires short { self.old.forgets ≡ true → entries_of answer.made ≤ most_kept }
        requires answer { (prunes : Bool) × IsAnswerAs prunes self.old answer }
        ensures change { result.0 ≡ answer.change }
        ensures answered { result.1
            ≡ record { from = answer.from; verdict = answer.verdict; trail = answer.trail } }
        ensures state { (prunes : Bool) → IsAnswerAs prunes self.old answer
            → self.new ≡ answered_as prunes self.old answer.from answer.change answer.verdict }
        ensures history { (prunes : Bool) (history : List Event) (caller : ℕ) → IsAnswerAs prunes self.old answer
            → IsStateAs prunes history self.old
            → IsHeld prunes answer.from (placed_of history) self.old.placed
            → IsRightAnswer self.old.rules history answer.change answer.from answer.verdict answer.trail
            → IsStateAs prunes (history
            ++ Submit caller answer.change answer.from answer.verdict answer.trail ∷ []) self.new }
    {
        safe_states();
        let Answer {
            change,
            from,
            verdict,
            trail,
            made,
        } = answer;
        take_over(made, &mut self.table, &mut self.learned);
        self.accepted += u64::from(verdict.is_accepted());
        let answered = Answered {
            from,
            verdict,
            trail,
        };
        (change, answered)
    }

    /// Drops the entries that no later answer needs, in place and without memory: those that were over by the cycle from
    /// which the table is planned, where another one of their slot stands behind them.
    pub(crate) fn prune(&mut self)
        ensures pruned { IsPruned self.old self.new }
    {
        safe_states();
        let since = self.table.since;
        prune(&mut self.table.placed, since);
        self.learned = pruned(self.learned.take(), since);
    }

    /// The core with all placed entries in place of those that it keeps, which are all without some that no later answer
    /// needs. It forgets none. It takes no memory.
    pub(crate) fn into_all(self, all: AllPlaced) -> Core
        requires pruned { IsPrunedBefore self.cycle all self.placed }
        requires slots { All (λ p. p.entry.slot < self.rules.slots) all }
        requires nodes { All (λ p. p.entry.node < self.rules.nodes) all }
        ensures core { result ≡ with_all self all }
    {
        safe_states();
        let Core {
            rules,
            table,
            state,
            learned,
            accepted,
            forgets: _,
        } = self;
        let (placed, learned) = all.into_lists(learned.is_some());
        Core {
            rules,
            table: table.with_list(placed, &state),
            state,
            learned,
            accepted,
            forgets: false,
        }
    }

    /// Plans and opens the next cycle, below 2^41. No deadline is missed in it, nor in any later one. It takes no
    /// memory.
    pub fn open(&mut self) -> Order
        requires next { self.old.cycle < openings_end }
        ensures order { IsCoreOrder self.old result }
        ensures state { self.new ≡ opened self.old }
        ensures history { (history : List Event) → IsStateOf history self.old
            → IsStateOf (history ++ Open result.cycle result.mask ∷ []) self.new }
    {
        let upcoming = self.plan_next();
        self.open_upcoming(upcoming)
    }

    /// Plans the next cycle, below 2^41, and leaves the core as it is. It takes no memory.
    pub(crate) fn plan_next(&mut self) -> Upcoming
        requires next { self.old.cycle < openings_end }
        ensures same { self.new ≡ self.old }
        ensures upcoming { IsCoreUpcoming self.old result }
    {
        let planned = self.table.plan_next(self.rules.window, &self.state);
        Upcoming {
            mask: planned.mask,
            l: planned.width,
            next: planned.next,
        }
    }

    /// What `open` would open now; the next cycle is below 2^41. It takes no memory.
    pub fn upcoming(&self) -> Upcoming
        requires next { self.now.cycle < openings_end }
        ensures upcoming { IsCoreUpcoming self.now result }
    {
        let planner_policies::PlannedCycle { mask, width, next } = plan_next(
            self.table.planner.ranked(),
            self.rules.window,
            &self.state,
        );
        Upcoming {
            mask,
            l: width,
            next,
        }
    }

    /// Opens the next cycle, below 2^41, as `open` does, by what is upcoming now: the cycle is not planned again. It
    /// takes no memory.
    pub fn open_upcoming(&mut self, upcoming: Upcoming) -> Order
        requires next { self.old.cycle < openings_end }
        requires upcoming { IsCoreUpcoming self.old upcoming }
        ensures order { IsCoreOrder self.old result }
        ensures state { self.new ≡ opened self.old }
        ensures history { (history : List Event) → IsStateOf history self.old
            → IsStateOf (history ++ Open result.cycle result.mask ∷ []) self.new }
    {
        safe_states();
        let cycle = self.state.cycle;
        let Upcoming { mask, l, next } = upcoming;
        self.table.pass(&next);
        self.state = next;
        Order {
            cycle,
            mask,
            l,
            learned: self.learned.take(),
        }
    }

    /// The slots that `open` would flag now; the next cycle is below 2^41.
    pub fn planned(&self) -> Mask
        requires next { self.now.cycle < openings_end }
        ensures mask { result ≡ mask_at (onward self.now) 0 }
    {
        cycle_mask(self.table.planner.ranked(), self.rules.window, &self.state)
    }

    /// The certificate of the entries: their plan from the next cycle on, with the slots that are pending before it, up
    /// to the end of its first repeat. That is within the horizon, and no deadline is missed at any cycle.
    ///
    /// It takes time for about twice the cycles up to the end of the repeat times the entries that are not over, and
    /// memory for the masks and the states.
    ///
    /// # Errors
    ///
    /// Only where memory runs out.
    pub fn certificate(&self, alloc: Global) -> Result<Certificate, AllocError>
        ensures certificate { IfOk result (IsCertificateFrom self.now.rules self.now.placed (state_of self.now)) }
        ensures taken { IfOk result (IsTaken self.now.placed self.now.rules.window) }
        ensures cycles { IfOk result (λ certificate. end_of certificate ≤ cycles_end) }
        ensures core { IsCore self.now }
        ensures read { IfOk result (λ certificate. IsTextOfPlan (plan_text certificate) certificate) }
    {
        certificates_in_range();
        self.known();
        let placed = self.table.placed.as_slice();
        match certify_from(alloc, &self.rules, placed, &self.state) {
            Ok(certificate) => Ok(certificate),
            Err(CertifyFault::Memory) => Err(AllocError),
            Err(CertifyFault::Miss { .. }) => unreachable!(),
            Err(CertifyFault::NoRepeat { .. }) => unreachable!(),
        }
    }

    /// The core as plain data.
    ///
    /// # Errors
    ///
    /// Only where memory runs out.
    pub fn save(&self, alloc: Global) -> Result<Saved, AllocError>
        ensures saved { IfOk result (λ saved. saved ≡ saved_of self.now) }
        ensures core { IsCore self.now }
        ensures again { IfOk result (λ saved. core_of saved ≡ self.now) }
    {
        saved_cores();
        self.known();
        let placed = list_of(alloc, self.table.placed.as_slice())?;
        Ok(Saved {
            rules: self.rules,
            placed,
            state: self.state,
            accepted: self.accepted,
            forgets: self.forgets,
            learns: self.learned.is_some(),
        })
    }

    /// The core that was saved so. The answer is `None` where no core is saved so: where the rules are out of range, a
    /// deadline would be missed at a later cycle, the plan does not repeat within the horizon, an entry has a slot or a
    /// node that is none of the rules, or there are too many entries. It takes the time and the memory of an answer to a
    /// change.
    ///
    /// # Errors
    ///
    /// Only where memory runs out.
    pub fn restore(alloc: Global, saved: Saved) -> Result<Option<Core>, AllocError>
        ensures found { IfOk result (λ found. IfSome found (λ core. (core ≡ core_of saved) × IsCore core)) }
        ensures complete { IsCore (core_of saved) → IfOk result (λ found. found ≡ Some (core_of saved)) }
        ensures saved { (core : CoreView) → IsCore core → saved ≡ saved_of core
            → IfOk result (λ found. found ≡ Some core) }
    {
        saved_cores();
        let Saved {
            rules,
            placed,
            state,
            accepted,
            forgets,
            learns,
        } = saved;
        state.pending.known();
        if !can_keep(&rules, placed.as_slice(), forgets) {
            return Ok(None);
        }
        let placed = match safe_list(alloc, &rules, placed.into_vec(), &state)? {
            None => return Ok(None),
            Some(placed) => placed,
        };
        let learned = learned_list(alloc, placed.as_slice(), learns)?;
        let table = Table::of(alloc, placed.into_vec(), state.cycle, &rules)?;
        Ok(Some(Core {
            rules,
            table,
            state,
            learned,
            accepted,
            forgets,
        }))
    }

    /// The next cycle to be opened, at most 2^41. An operator who looks at it leaves the core as it is.
    pub fn next(&self) -> u64
        ensures next { result ≡ self.now.cycle }
        ensures near { result ≤ openings_end }
        ensures looked { (history : List Event) (caller : ℕ) → IsStateOf history self.now
            → IsStateOf (history ++ Look caller result ∷ []) self.now }
    {
        self.state.cycle
    }

    /// The next cycle, and the slots that are pending before it: what `open` plans from.
    pub fn state(&self) -> PlanState
        ensures cycle { result.cycle ≡ self.now.cycle }
        ensures pending { result.pending ≡ self.now.pending }
    {
        self.state
    }

    /// The placed entries that are kept, in the order of their placing.
    pub fn placed(&self) -> &[Placed]
        ensures list { result.now ≡ self.now.placed }
        ensures few { self.now.forgets ≡ true → length result.now ≤ most_kept }
    {
        self.table.placed.as_slice()
    }

    /// Whether the nodes are to learn the entries.
    pub(crate) fn learns(&self) -> bool
        ensures learns { result ≡ is_some self.now.learned }
    {
        self.learned.is_some()
    }

    /// Law: what holds of every core.
    pub fn known(&self)
        ensures core { IsCore self.now }
    {
        let _accepted = self.accepted;
    }

    /// The rules by which changes are judged.
    pub fn rules(&self) -> Rules
        ensures rules { result ≡ self.now.rules }
    {
        self.rules
    }

    /// Whether it drops the entries that no answer needs any more.
    pub fn forgets(&self) -> bool
        ensures forgets { result ≡ self.now.forgets }
    {
        self.forgets
    }

    /// The number of changes that were accepted.
    pub fn accepted(&self) -> u64
        ensures accepted { result ≡ self.now.accepted }
    {
        self.accepted
    }
}

/// What the nodes are to learn, without the entries that are over by a cycle and not the last of their slot.
fn pruned(learned: Option<PlacedList>, cycle: u64) -> Option<PlacedList>
    requires in_range { IfSome learned (All IsInRange) }
    ensures pruned { result ≡ option_map (pruned cycle) learned }
{
    match learned {
        None => None,
        Some(list) => {
            let mut list = list.into_vec();
            prune(&mut list, cycle);
            Some(PlacedList::of(list))
        }
    }
}

/// The list, where the nodes are to learn it.
fn learned_list(
    alloc: Global,
    placed: &[Placed],
    learns: bool,
) -> Result<Option<PlacedList>, AllocError>
    ensures learned { IfOk result (λ learned. learned ≡ (if learns then Some placed.now else None)) }
{
    if !learns {
        return Ok(None);
    }
    Ok(Some(list_of(alloc, placed)?))
}
