//! A master that need not keep its history.

ghost use Rattle.std.specs.Prelude.{◌≡◌, ◌+◌, ◌^◌, ◌<◌, ◌≤◌, ◌++◌, ◌∷◌, [], List, ℕ, false, true};
ghost use Rattle.std.specs.Prelude.{IfOk, IfSome, OnErr, OnOk, if◌then◌else◌, is_some, length, option_map};
ghost use Rattle.profile.specs.Limits.{openings_end};
ghost use Rattle.bit_sets.specs.Sets.{most_slots};
ghost use Rattle.change_protocol.specs.Applied.{applied};
ghost use Rattle.change_protocol.specs.Malformed.{IsWellFormed};
ghost use Rattle.planner_policies.specs.Plan.{pending_at};
ghost use Rattle.admission.specs.Verdict.{IsInTime, IsRules, IsTakenWhereDue, IsVerdict, bounds_by, is_accepted, plan_from};
ghost use Rattle.master_core.specs.Accepted.{all_accepted};
ghost use Rattle.master_core.specs.Answers.{IsAnswerAs};
ghost use Rattle.master_core.specs.declared.event.Event.TheVariants.{Submit, Look, Open};
ghost use Rattle.master_core.specs.Cores.{IsPruned, IsPrunedBefore, IsStateAs};
ghost use Rattle.master_core.specs.History.{IsLegal, IsPlainlyLegal, IsRightAnswer, next_of, placed_of, plan_of};
ghost use Rattle.master_core.specs.Journals.{IsLast};
ghost use Rattle.master_core.specs.Kept.{all_of, kept_behind};
ghost use Rattle.master_core.specs.Orders.{IsOrderFor, IsOrderWith, IsUpcoming, StandsFor};

use crate::all_placed::AllPlaced;
use crate::answer::Answer;
use crate::answered::Answered;
use crate::cores::Core;
use crate::event::Event;
use crate::journal::Journal;
use crate::master::Master;
use crate::upcoming::Upcoming;
use admission::laws::taken_where_due;
use admission::{Rules, Verdict};
use change_protocol::Change;
use requirement_table::{Order, Placed};
use std::alloc::{AllocError, Global};
use std::marker::Model;

/// A master that keeps of its history the last event alone, or all events. Contracts see its rules, its whole history,
/// the placed entries that it keeps, the number of events that it has room for, and whether all events are kept.
///
/// It drops the placed entries that no answer and no opening needs any more: each time that a change is accepted, those
/// that are over by the cycle from which it was planned and not the last of their slot. So the time of a change, a look
/// or an opening does not grow with the entries that are over, or with the cycles that it opens. Where the last event
/// alone is kept, its memory does not either. Where all events are kept, so are all placed entries, beside those: a
/// change is applied to these in place.
#[derive(Drop, Debug)]
pub struct LeanMaster {
    /// It keeps the placed entries that are still needed.
    pub(crate) core: Core,
    pub(crate) journal: Journal,
    /// All placed entries, where all events are kept.
    pub(crate) all: Option<AllPlaced>,
}

impl Model for LeanMaster {
    ghost use Rattle.std.specs.Prelude.{◌≡◌, true, false};
    ghost use Rattle.master_core.specs.Cores.{IsStateAs};
    ghost use Rattle.master_core.specs.Journals.{LeanView};
    ghost use Rattle.master_core.specs.Kept.{all_of};

    ghost Value = { LeanView };

    ghost view = { λ m. record {
      rules = m.core.rules;
      history = m.journal.history;
      placed = m.core.placed;
      spare = m.journal.spare;
      keeps = m.journal.keeps;
    } };

    ghost invariant = { λ m. IsStateAs true m.journal.history m.core
        × (m.core.forgets ≡ false) × (m.all ≡ all_of m.journal.keeps m.journal.history) };
}

impl LeanMaster {
    /// A master with these rules, which was not called yet. The rules have 1 to 30 nodes, 40 or 96 slots, a window of 55
    /// to 16,383 bit times and a horizon of 1 to 100,000 cycles. All events will be kept where `keeps` says so, and else
    /// the last one alone.
    ///
    /// # Errors
    ///
    /// Only where memory runs out.
    pub fn new(alloc: Global, rules: Rules, keeps: bool) -> Result<LeanMaster, AllocError>
        requires rules { IsRules rules }
        ensures rules { IfOk result (λ master. master.rules ≡ rules) }
        ensures history { IfOk result (λ master. master.history ≡ []) }
        ensures placed { IfOk result (λ master. master.placed ≡ []) }
        ensures keeps { IfOk result (λ master. master.keeps ≡ keeps) }
    {
        let core = Core::new(alloc, rules, false)?;
        let all = none_yet(alloc, keeps);
        Ok(LeanMaster {
            core,
            journal: Journal::new(alloc, keeps),
            all,
        })
    }

    /// A master with the history of this one. The last event alone is kept from the next call on.
    pub fn of(master: Master) -> LeanMaster
        ensures rules { result.rules ≡ master.rules }
        ensures history { result.history ≡ master.history }
        ensures keeps { result.keeps ≡ false }
    {
        let Master { core, history, .. } = master;
        LeanMaster {
            core: pruned(core),
            journal: Journal::of(history, false),
            all: None,
        }
    }

    /// The master with the same history, where all events are kept. It takes no memory.
    pub fn into_master(self) -> Option<Master>
        ensures rules { IfSome result (λ master. master.rules ≡ self.rules) }
        ensures history { IfSome result (λ master. master.history ≡ self.history) }
        ensures kept { is_some result ≡ self.keeps }
    {
        let LeanMaster { core, journal, all } = self;
        let Some(all) = all else {
            return None;
        };
        match journal.into_events() {
            Some(history) => {
                let core = whole(core, all, history.as_slice());
                Some(Master {
                    core,
                    history,
                    spare: 0,
                })
            }
            None => None,
        }
    }

    /// Makes room for so many events, so that as many looks and openings need no memory.
    ///
    /// # Errors
    ///
    /// Only where memory runs out. Nothing is changed then.
    pub fn reserve(&mut self, _alloc: Global, events: usize) -> Result<(), AllocError>
        ensures rules { self.new.rules ≡ self.old.rules }
        ensures history { self.new.history ≡ self.old.history }
        ensures keeps { self.new.keeps ≡ self.old.keeps }
        ensures placed { self.new.placed ≡ self.old.placed }
        ensures room { OnOk result (events ≤ self.new.spare) }
        ensures kept { self.old.spare ≤ self.new.spare }
        ensures same { OnErr result (self.new.spare ≡ self.old.spare) }
        ensures legal { IsLegal self.new.rules self.new.history }
        ensures few { length self.new.history + self.new.spare < 2 ^ 61 }
    {
        self.journal.reserve(events)
    }

    /// Answers a change that operator `caller` asks for, 1 to 8. It is planned from the next cycle on. The table
    /// changes only where the verdict is `Accepted`. It leaves the room as it was.
    ///
    /// # Errors
    ///
    /// Only where memory runs out. Nothing is changed then, and the call may be made again.
    pub fn submit(
        &mut self,
        alloc: Global,
        caller: u8,
        change: &Change,
    ) -> Result<Verdict, AllocError>
        requires caller { (1 ≤ caller) × (caller ≤ 8) }
        ensures rules { self.new.rules ≡ self.old.rules }
        ensures keeps { self.new.keeps ≡ self.old.keeps }
        ensures event { IfOk result (λ verdict. (trail : List ℕ) × (self.new.history
            ≡ self.old.history ++ Submit caller change.now (next_of self.old.history) verdict trail ∷ [])) }
        ensures placed { IfOk result (λ verdict.
            self.new.placed ≡ kept_behind self.old.placed (next_of self.old.history) change.now verdict) }
        ensures same { OnErr result (self.new.history ≡ self.old.history) }
        ensures still { OnErr result (self.new.placed ≡ self.old.placed) }
        ensures complete { let next = next_of self.old.history in
            let pending = pending_at (plan_of self.old.rules (placed_of self.old.history)) next in
            let plan = plan_from self.old.rules (applied (placed_of self.old.history) change.now) next pending in
            IfOk result (λ verdict. IsInTime self.old.rules (placed_of self.old.history) next change.now
            → IsTakenWhereDue self.old.rules plan verdict) }
        ensures spare { self.new.spare ≡ self.old.spare }
        ensures legal { IsLegal self.new.rules self.new.history }
        ensures plain { IsPlainlyLegal self.old.rules self.old.history
            → IsPlainlyLegal self.new.rules self.new.history }
        ensures few { length self.new.history + self.new.spare < 2 ^ 61 }
    {
        taken_where_due();
        self.core.known();
        self.journal.known();
        let answer = self.core.plan_change(alloc, change, true)?;
        let verdict = answer.verdict;
        let LeanMaster { core, journal, all } = self;
        put_answer(core, journal, all, alloc, caller, answer)?;
        Ok(verdict)
    }

    /// Answers a change that operator `caller` asks for, 1 to 8, as `submit` does. But a change that is refused leaves no
    /// event.
    ///
    /// # Errors
    ///
    /// Only where memory runs out. Nothing is changed then, and the call may be made again.
    pub fn accept(
        &mut self,
        alloc: Global,
        caller: u8,
        change: &Change,
    ) -> Result<Verdict, AllocError>
        requires caller { (1 ≤ caller) × (caller ≤ 8) }
        ensures rules { self.new.rules ≡ self.old.rules }
        ensures keeps { self.new.keeps ≡ self.old.keeps }
        ensures verdict { let next = next_of self.old.history in
            let pending = pending_at (plan_of self.old.rules (placed_of self.old.history)) next in
            IfOk result (IsVerdict self.old.rules (placed_of self.old.history) pending next next change.now) }
        ensures event { IfOk result (λ verdict. is_accepted verdict ≡ true → self.new.history
            ≡ self.old.history ++ Submit caller change.now (next_of self.old.history) verdict [] ∷ []) }
        ensures refused { IfOk result (λ verdict. is_accepted verdict ≡ false → self.new.history ≡ self.old.history) }
        ensures placed { IfOk result (λ verdict.
            self.new.placed ≡ kept_behind self.old.placed (next_of self.old.history) change.now verdict) }
        ensures same { OnErr result (self.new.history ≡ self.old.history) }
        ensures still { OnErr result (self.new.placed ≡ self.old.placed) }
        ensures spare { self.new.spare ≡ self.old.spare }
        ensures legal { IsLegal self.new.rules self.new.history }
        ensures plain { IsPlainlyLegal self.old.rules self.old.history
            → IsPlainlyLegal self.new.rules self.new.history }
        ensures few { length self.new.history + self.new.spare < 2 ^ 61 }
    {
        self.core.known();
        self.journal.known();
        let answer = self.core.plan_change(alloc, change, true)?;
        let verdict = answer.verdict;
        if !verdict.is_accepted() {
            return Ok(verdict);
        }
        let LeanMaster { core, journal, all } = self;
        put_answer(core, journal, all, alloc, caller, answer)?;
        Ok(verdict)
    }

    /// Answers the next cycle to be opened, for operator `caller`, 1 to 8. It takes no memory, and one of the room.
    pub fn look(&mut self, caller: u8) -> u64
        requires caller { (1 ≤ caller) × (caller ≤ 8) }
        requires spare { 1 ≤ self.old.spare }
        ensures rules { self.new.rules ≡ self.old.rules }
        ensures keeps { self.new.keeps ≡ self.old.keeps }
        ensures next { result ≡ next_of self.old.history }
        ensures placed { self.new.placed ≡ self.old.placed }
        ensures event { self.new.history ≡ self.old.history ++ Look caller result ∷ [] }
        ensures spare { self.new.spare + 1 ≡ self.old.spare }
        ensures legal { IsLegal self.new.rules self.new.history }
        ensures plain { IsPlainlyLegal self.old.rules self.old.history
            → IsPlainlyLegal self.new.rules self.new.history }
        ensures few { length self.new.history + self.new.spare < 2 ^ 61 }
    {
        self.core.known();
        let next = self.core.next();
        self.journal.put(Event::Look { caller, next });
        next
    }

    /// Plans and opens the next cycle, below 2^41. No deadline is missed in it, nor in any later one. It takes no
    /// memory, and one of the room.
    pub fn open(&mut self) -> Order
        requires spare { 1 ≤ self.old.spare }
        requires next { next_of self.old.history < openings_end }
        ensures rules { self.new.rules ≡ self.old.rules }
        ensures keeps { self.new.keeps ≡ self.old.keeps }
        ensures order { IsOrderFor self.old.rules self.old.history result }
        ensures learns { IsOrderWith self.old.rules self.old.history self.old.placed result }
        ensures stands { StandsFor (next_of self.old.history) (placed_of self.old.history) self.old.placed }
        ensures placed { self.new.placed ≡ self.old.placed }
        ensures event { self.new.history ≡ self.old.history ++ Open result.cycle result.mask ∷ [] }
        ensures spare { self.new.spare + 1 ≡ self.old.spare }
        ensures legal { IsLegal self.new.rules self.new.history }
        ensures plain { IsPlainlyLegal self.old.rules self.old.history
            → IsPlainlyLegal self.new.rules self.new.history }
        ensures few { length self.new.history + self.new.spare < 2 ^ 61 }
    {
        self.core.known();
        let order = self.core.open();
        let cycle = order.cycle;
        let mask = order.mask;
        self.journal.put(Event::Open { cycle, mask });
        order
    }

    /// What `open` would open now; the next cycle is below 2^41. It takes no memory.
    pub fn upcoming(&self) -> Upcoming
        requires next { next_of self.now.history < openings_end }
        ensures upcoming { IsUpcoming self.now.rules self.now.history result }
    {
        self.core.known();
        self.core.upcoming()
    }

    /// Opens the next cycle, below 2^41, as `open` does, by what is upcoming now: the cycle is not planned again. It
    /// takes no memory, and one of the room. What the nodes are to learn with it is dropped.
    pub fn pass(&mut self, upcoming: Upcoming)
        requires spare { 1 ≤ self.old.spare }
        requires next { next_of self.old.history < openings_end }
        requires upcoming { IsUpcoming self.old.rules self.old.history upcoming }
        ensures rules { self.new.rules ≡ self.old.rules }
        ensures keeps { self.new.keeps ≡ self.old.keeps }
        ensures placed { self.new.placed ≡ self.old.placed }
        ensures event { self.new.history
            ≡ self.old.history ++ Open (next_of self.old.history) upcoming.mask ∷ [] }
        ensures spare { self.new.spare + 1 ≡ self.old.spare }
        ensures legal { IsLegal self.new.rules self.new.history }
        ensures plain { IsPlainlyLegal self.old.rules self.old.history
            → IsPlainlyLegal self.new.rules self.new.history }
        ensures few { length self.new.history + self.new.spare < 2 ^ 61 }
    {
        self.core.known();
        let order = self.core.open_upcoming(upcoming);
        let cycle = order.cycle;
        let mask = order.mask;
        self.journal.put(Event::Open { cycle, mask });
    }

    /// The next cycle to be opened.
    pub fn next(&self) -> u64
        ensures next { result ≡ next_of self.now.history }
    {
        self.core.next()
    }

    /// The placed entries that it keeps, in the order of their placing. They stand for all of them from the next cycle
    /// on.
    pub fn placed(&self) -> &[Placed]
        ensures list { result.now ≡ self.now.placed }
        ensures stands { StandsFor (next_of self.now.history) (placed_of self.now.history) self.now.placed }
        ensures held { IsPrunedBefore (next_of self.now.history) (placed_of self.now.history) self.now.placed }
    {
        self.core.known();
        self.core.placed()
    }

    /// All events, where they are kept.
    pub fn history(&self) -> Option<&[Event]>
        ensures list { IfSome result (λ events. events.now ≡ self.now.history) }
        ensures kept { is_some result ≡ self.now.keeps }
        ensures legal { IsLegal self.now.rules self.now.history }
        ensures few { length self.now.history + self.now.spare < 2 ^ 61 }
    {
        self.journal.known();
        self.journal.events()
    }

    /// The last event of the history, which has one.
    pub fn last(&self) -> &Event
        requires some { 1 ≤ length self.now.history }
        ensures last { IsLast self.now.history result.now }
    {
        self.journal.last()
    }

    /// Whether each change was accepted.
    pub fn all_accepted(&self) -> bool
        ensures test { result ≡ all_accepted self.now.history }
    {
        self.journal.is_quiet()
    }

    /// Whether all events are kept.
    pub fn keeps(&self) -> bool
        ensures keeps { result ≡ self.now.keeps }
    {
        self.journal.keeps()
    }

    /// The rules by which changes are judged.
    pub fn rules(&self) -> Rules
        ensures rules { result ≡ self.now.rules }
    {
        self.core.rules()
    }
}

/// No entry yet, where all are kept.
fn none_yet(alloc: Global, keeps: bool) -> Option<AllPlaced>
    ensures none { result ≡ all_of keeps [] }
{
    if keeps {
        Some(AllPlaced::new(alloc))
    } else {
        None
    }
}

/// The core with all placed entries of these events, after which it is the state. It takes no memory.
fn whole(core: Core, all: AllPlaced, events: &[Event]) -> Core
    requires state { IsStateAs true events.now core }
    requires all { all ≡ placed_of events.now }
    ensures rules { result.rules ≡ core.rules }
    ensures state { IsStateAs false events.now result }
    ensures forgets { result.forgets ≡ false }
{
    core.into_all(all)
}

/// What later answers and openings need of a core.
fn pruned(mut core: Core) -> Core
    ensures pruned { IsPruned core result }
{
    core.prune();
    core
}

/// Puts an answer to operator `caller`, 1 to 8, behind the events, and what it makes in its places: in a core that keeps
/// the entries that are still needed, and in the list of all, where that is kept. It leaves the room as it was.
///
/// # Errors
///
/// Only where memory runs out. Nothing is changed then.
pub(crate) fn put_answer(
    core: &mut Core,
    journal: &mut Journal,
    all: &mut Option<AllPlaced>,
    alloc: Global,
    caller: u8,
    answer: Answer,
) -> Result<Verdict, AllocError>
    requires caller { (1 ≤ caller) × (caller ≤ 8) }
    requires state { IsStateAs true journal.old.history core.old }
    requires forgets { core.old.forgets ≡ false }
    requires all { all.old ≡ all_of journal.old.keeps journal.old.history }
    requires held { IsPrunedBefore answer.from (placed_of journal.old.history) core.old.placed }
    requires answer { IsAnswerAs true core.old answer }
    requires right { IsRightAnswer core.old.rules journal.old.history
        answer.change answer.from answer.verdict answer.trail }
    ensures rules { core.new.rules ≡ core.old.rules }
    ensures forgets { core.new.forgets ≡ false }
    ensures keeps { journal.new.keeps ≡ journal.old.keeps }
    ensures verdict { IfOk result (λ verdict. verdict ≡ answer.verdict) }
    ensures event { OnOk result (journal.new.history ≡ journal.old.history
        ++ Submit caller answer.change answer.from answer.verdict answer.trail ∷ []) }
    ensures placed { OnOk result
        (core.new.placed ≡ kept_behind core.old.placed answer.from answer.change answer.verdict) }
    ensures same { OnErr result (journal.new.history ≡ journal.old.history) }
    ensures still { OnErr result (core.new.placed ≡ core.old.placed) }
    ensures state { IsStateAs true journal.new.history core.new }
    ensures all { all.new ≡ all_of journal.new.keeps journal.new.history }
    ensures spare { journal.new.spare ≡ journal.old.spare }
    ensures few { length journal.new.history + journal.new.spare < 2 ^ 61 }
{
    core.known();
    let rules = core.rules();
    make_ready(journal, all, alloc, &rules, &answer)?;
    Ok(put_event(core, journal, caller, answer))
}

/// Makes room for one event more than there was, and applies the change of an answer to the list of all entries.
///
/// # Errors
///
/// Only where memory runs out. Nothing is changed then.
fn make_ready(
    journal: &mut Journal,
    all: &mut Option<AllPlaced>,
    alloc: Global,
    rules: &Rules,
    answer: &Answer,
) -> Result<(), AllocError>
    requires slots { rules.now.slots ≤ most_slots }
    requires well_formed { IfSome all.old (λ list. is_accepted answer.now.verdict ≡ true
        → IsWellFormed list (bounds_by rules.now) answer.now.change) }
    ensures history { journal.new.history ≡ journal.old.history }
    ensures keeps { journal.new.keeps ≡ journal.old.keeps }
    ensures room { OnOk result (journal.new.spare ≡ journal.old.spare + 1) }
    ensures spare { OnErr result (journal.new.spare ≡ journal.old.spare) }
    ensures applied { OnOk result (all.new ≡ option_map
        (λ list. if is_accepted answer.now.verdict then applied list answer.now.change else list) all.old) }
    ensures same { OnErr result (all.new ≡ all.old) }
    ensures few { length journal.new.history + journal.new.spare < 2 ^ 61 }
{
    journal.known();
    let events = journal.spare() + 1;
    journal.reserve(events)?;
    match apply_answer(all, alloc, rules, answer) {
        Ok(()) => Ok(()),
        Err(failed) => {
            journal.release();
            Err(failed)
        }
    }
}

/// Puts an answer to operator `caller`, 1 to 8, behind the events, for one of which there is room, and what it makes in
/// its place. It takes no memory.
fn put_event(core: &mut Core, journal: &mut Journal, caller: u8, answer: Answer) -> Verdict
    requires caller { (1 ≤ caller) × (caller ≤ 8) }
    requires spare { 1 ≤ journal.old.spare }
    requires state { IsStateAs true journal.old.history core.old }
    requires forgets { core.old.forgets ≡ false }
    requires held { IsPrunedBefore answer.from (placed_of journal.old.history) core.old.placed }
    requires answer { IsAnswerAs true core.old answer }
    requires right { IsRightAnswer core.old.rules journal.old.history
        answer.change answer.from answer.verdict answer.trail }
    ensures rules { core.new.rules ≡ core.old.rules }
    ensures forgets { core.new.forgets ≡ false }
    ensures keeps { journal.new.keeps ≡ journal.old.keeps }
    ensures verdict { result ≡ answer.verdict }
    ensures event { journal.new.history ≡ journal.old.history
        ++ Submit caller answer.change answer.from answer.verdict answer.trail ∷ [] }
    ensures placed { core.new.placed ≡ kept_behind core.old.placed answer.from answer.change answer.verdict }
    ensures state { IsStateAs true journal.new.history core.new }
    ensures spare { journal.new.spare + 1 ≡ journal.old.spare }
    ensures few { length journal.new.history + journal.new.spare < 2 ^ 61 }
{
    core.known();
    journal.known();
    let (change, answered) = core.put(answer);
    let Answered {
        from,
        verdict,
        trail,
    } = answered;
    journal.put(Event::Submit {
        caller,
        change,
        from,
        verdict,
        trail,
    });
    verdict
}

/// Applies the change of an answer to the list of all entries, where it is accepted and the list is kept.
fn apply_answer(
    all: &mut Option<AllPlaced>,
    alloc: Global,
    rules: &Rules,
    answer: &Answer,
) -> Result<(), AllocError>
    requires slots { rules.now.slots ≤ most_slots }
    requires well_formed { IfSome all.old (λ list. is_accepted answer.now.verdict ≡ true
        → IsWellFormed list (bounds_by rules.now) answer.now.change) }
    ensures applied { OnOk result (all.new ≡ option_map
        (λ list. if is_accepted answer.now.verdict then applied list answer.now.change else list) all.old) }
    ensures same { OnErr result (all.new ≡ all.old) }
{
    if !answer.verdict.is_accepted() {
        return Ok(());
    }
    match all {
        Some(list) => list.apply(alloc, rules, &answer.change),
        None => Ok(()),
    }
}
