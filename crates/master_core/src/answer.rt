//! An answer that is not in the history yet.

ghost use Rattle.std.specs.Prelude.{◌≡◌, ◌≤◌, IfOk, IfSome, length};
ghost use Rattle.profile.specs.Limits.{openings_end};
ghost use Rattle.requirement_table.specs.Table.{IsWellPlaced};
ghost use Rattle.change_protocol.specs.Applied.{applied};
ghost use Rattle.planner_policies.specs.Plan.{IsValid};
ghost use Rattle.admission.specs.Verdict.{IsInTime, IsRules, IsTakenWhereDue, plan_from};
ghost use Rattle.master_core.specs.Answers.{AreKept, IsMadeKept, IsPlannedFrom, IsTakenOver};
ghost use Rattle.master_core.specs.Answers.{answer_at, entries_of, is_passed_by};

use crate::table::{Table, copy_of, list_of};
use admission::{Judgement, RankedTable, Rules, Trail, Verdict, decide_ranked};
use change_protocol::{Change, prune};
use planner_policies::PlanState;
use requirement_table::{Placed, PlacedList};
use std::alloc::{AllocError, Global};

/// An answer to a change, with all memory that a master needs to put it into its history.
#[derive(Drop, Debug)]
pub struct Answer {
    /// A copy of the change.
    pub change: Change,
    /// The cycle from which the change was planned.
    pub from: u64,
    pub verdict: Verdict,
    /// Where an instance would miss its deadline, the slots that are flagged from `from` to the cycle of the miss.
    pub trail: Trail,
    /// What an accepted change makes.
    pub made: Option<Made>,
}

/// What an accepted change makes.
#[derive(Drop, Debug)]
pub struct Made {
    /// The new table, planned from the cycle from which the change was planned.
    pub table: Table,
    /// The new list, as the nodes are to learn it.
    pub learned: PlacedList,
}

impl Answer {
    /// The same answer when `next` is the next cycle: a change that breaks no rule and whose start has passed by then
    /// is refused for that. It takes no memory.
    pub fn at_next(self, alloc: Global, next: u64) -> Answer
        ensures same { result ≡ answer_at next self }
    {
        if !is_passed_by(&self.verdict, self.change.start, next) {
            return self;
        }
        let Answer {
            change,
            from,
            verdict: _,
            trail: _,
            made: _,
        } = self;
        let verdict = Verdict::Passed {
            start: change.start,
            next,
        };
        Answer {
            change,
            from,
            verdict,
            trail: Trail::of(Vec::new(alloc)),
            made: None,
        }
    }

    /// The same answer with what is kept of what it makes: where entries are forgotten, the lists are pruned. It takes
    /// no memory.
    pub fn kept(self, forgets: bool) -> Answer
        requires well_placed { IfSome self.made (λ made. IsWellPlaced made.learned) }
        requires same { IfSome self.made (λ made. made.table.placed.items ≡ made.learned) }
        ensures same { result ≡ record self { made = result.made } }
        ensures made { AreKept forgets self.from self.made result.made }
    {
        let Answer {
            change,
            from,
            verdict,
            trail,
            made,
        } = self;
        Answer {
            change,
            from,
            verdict,
            trail,
            made: keep(made, forgets, from),
        }
    }

    /// How many entries the list has that it makes: none where it makes no list.
    pub fn entries(&self) -> usize
        ensures entries { result ≡ entries_of self.now.made }
    {
        match &self.made {
            None => 0,
            Some(made) => made.table.placed.len(),
        }
    }
}

/// Whether a change with this verdict is refused when `next` is the next cycle, since its start has passed by then.
fn is_passed_by(verdict: &Verdict, start: u64, next: u64) -> bool
    ensures passed { result ≡ is_passed_by next start verdict.now }
{
    match verdict {
        Verdict::Malformed { .. } => false,
        _ => start < next,
    }
}

/// Plans a change of a list from a state on, and takes all memory that its answer needs.
pub fn answer_of(
    alloc: Global,
    rules: &Rules,
    placed: &[Placed],
    state: &PlanState,
    change: &Change,
) -> Result<Answer, AllocError>
    requires rules { IsRules rules.now }
    requires well_placed { IsWellPlaced placed.now }
    requires valid { IsValid placed.now state.now.cycle state.now.pending }
    requires next { state.now.cycle ≤ openings_end }
    ensures planned { IfOk result (IsPlannedFrom rules.now placed.now state.now) }
    ensures change { IfOk result (λ answer. answer.change ≡ change.now) }
    ensures well_placed { IfOk result (λ answer. IfSome answer.made (λ made. IsWellPlaced made.learned)) }
    ensures complete { let plan = plan_from rules.now (applied placed.now change.now)
        state.now.cycle state.now.pending in
        IfOk result (λ answer. IsInTime rules.now placed.now state.now.cycle change.now
        → IsTakenWhereDue rules.now plan answer.verdict) }
{
    let Judgement {
        verdict,
        table,
        trail,
    } = decide_ranked(alloc, rules, placed, state, change)?;
    let change = copy_of(alloc, change)?;
    let made = match table {
        None => None,
        Some(table) => Some(made_of(alloc, table)?),
    };
    Ok(Answer {
        change,
        from: state.cycle,
        verdict,
        trail,
        made,
    })
}

/// A table that is planned as it was decided, and its list to be learned.
fn made_of(alloc: Global, table: RankedTable) -> Result<Made, AllocError>
    ensures placed { IfOk result (λ made. made.table.placed.items ≡ made.learned) }
    ensures since { IfOk result (λ made. made.table.since ≡ table.planner.cycle) }
    ensures ranked { IfOk result (λ made. made.table.planner.ranking ≡ table.planner.ranking) }
    ensures learned { IfOk result (λ made. made.learned ≡ table.placed) }
{
    let RankedTable { placed, planner } = table;
    let placed = placed.into_vec();
    let learned = list_of(alloc, placed.as_slice())?;
    let table = Table::planned(placed, planner);
    Ok(Made { table, learned })
}

/// What is kept of what was made, planned from cycle `from` on: where entries are forgotten, both lists are pruned. It
/// takes no memory.
fn keep(made: Option<Made>, forgets: bool, from: u64) -> Option<Made>
    requires well_placed { IfSome made (λ made. IsWellPlaced made.learned) }
    requires same { IfSome made (λ made. made.table.placed.items ≡ made.learned) }
    ensures kept { AreKept forgets from made result }
{
    match made {
        None => None,
        Some(made) => Some(keep_made(made, forgets, from)),
    }
}

/// What is kept of what was made, planned from cycle `from` on.
fn keep_made(made: Made, forgets: bool, from: u64) -> Made
    requires well_placed { IsWellPlaced made.learned }
    requires same { made.table.placed.items ≡ made.learned }
    ensures kept { IsMadeKept forgets from made result }
{
    if !forgets {
        return made;
    }
    let Made { mut table, learned } = made;
    prune(&mut table.placed, from);
    Made {
        learned: refilled(learned, table.placed.as_slice()),
        table,
    }
}

/// A list with these entries, in the memory of a list that has no fewer.
fn refilled(list: PlacedList, placed: &[Placed]) -> PlacedList
    requires room { length placed.now ≤ length list }
    ensures list { result ≡ placed.now }
{
    let mut list = list.into_vec();
    list.truncate(placed.len());
    list.as_mut_slice().copy_from_slice(placed);
    PlacedList::of(list)
}

/// Puts what was made in the place of a table and of a list to be learned. Where nothing was made, both stay.
pub fn take_over(made: Option<Made>, table: &mut Table, learned: &mut Option<PlacedList>)
    ensures { IsTakenOver made table.old table.new learned.old learned.new }
{
    match made {
        None => {}
        Some(made) => {
            let Made {
                table: new,
                learned: list,
            } = made;
            *table = new;
            *learned = Some(list);
        }
    }
}
