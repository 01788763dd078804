//! What is decided of a change.

ghost use Rattle.std.specs.Prelude.{◌≡◌, ◌+◌, ◌<◌, ◌≤◌, ℕ, [], None, IfOk, IfSome};
ghost use Rattle.profile.specs.Limits.{cycles_end, greatest_horizon, openings_end};
ghost use Rattle.bit_sets.specs.Sets.{has_bit};
ghost use Rattle.requirement_table.specs.Table.{IsWellPlaced, not_over};
ghost use Rattle.change_protocol.specs.Applied.{applied};
ghost use Rattle.planner_policies.specs.Plan.{HasNoMiss, HasNoMissIn, IsMissIn, IsValid, going_from, planning_of};
ghost use Rattle.release_wheel.specs.Demand.{demand_in};
ghost use Rattle.release_wheel.specs.Passed.{IsPassed};
ghost use Rattle.admission.specs.Course.{state_in};
ghost use Rattle.admission.specs.Judged.{IsRankedFrom, decision_in};
ghost use Rattle.admission.specs.Verdict.{IsDecision, IsDecisionOnPlan, IsInTime, IsMalformed, IsMissDecision};
ghost use Rattle.admission.specs.Verdict.{IsPlannedUpTo, IsRules, IsSafe, IsTakenWhereDue, plan_from, ranking_by};
ghost use Rattle.admission.specs.Walked.{IsWalked};

use crate::decision::{Decision, Judgement, RankedTable, Trail};
use crate::periods::{bound, period};
use crate::verdict::Verdict;
use crate::walk::PlanWalk;
use admission_rules::Rules;
use change_protocol::{ApplyFault, Change, apply};
use planner_policies::{Miss, PlanState, cycle_mask, rank_list};
use profile::CYCLES_END;
use recurrence_check::{Repeat, WalkEnd, lasso_keyed};
use release_wheel::{Ahead, Planner, fits_each};
use requirement_table::{Mask, Placed, PlacedList, not_over};
use std::alloc::{AllocError, Global};

/// Decides of a change of the table. `state` is the next cycle to be opened, from which the changed table is planned,
/// and the slots that are pending before it.
///
/// The state is valid, and its cycle is at most 2^41. The rules have 1 to 30 nodes, 40 or 96 slots, a window of 55 to
/// 16,383 bit times and a horizon of 1 to 100,000 cycles. It takes time for about the cycles that are walked and the
/// instances that are pending in them, and memory for the states.
///
/// # Errors
///
/// Only where memory runs out, which says nothing of the change.
pub fn decide(
    alloc: Global,
    rules: &Rules,
    placed: &[Placed],
    state: &PlanState,
    change: &Change,
) -> Result<Decision, AllocError>
    requires rules { IsRules rules.now }
    requires well_placed { IsWellPlaced placed.now }
    requires valid { IsValid placed.now state.now.cycle state.now.pending }
    requires next { state.now.cycle ≤ openings_end }
    ensures decision { IfOk result (IsDecision rules.now placed.now state.now.pending state.now.cycle change.now) }
    ensures complete { let plan = plan_from rules.now (applied placed.now change.now)
        state.now.cycle state.now.pending in
        IfOk result (λ decision. IsInTime rules.now placed.now state.now.cycle change.now
        → IsTakenWhereDue rules.now plan decision.verdict) }
    ensures safe { IfOk result (λ decision. IfSome decision.placed
        (λ list. IsSafe rules.now list state.now.cycle state.now.pending)) }
{
    let judgement = decide_ranked(alloc, rules, placed, state, change)?;
    Ok(judgement.decision())
}

/// Does what `decide` does, and gives the planning of an accepted change with it, which goes on from the state. The walk
/// needs it too, so nothing is ranked or filled in again.
///
/// # Errors
///
/// Only where memory runs out, which says nothing of the change.
pub fn decide_ranked(
    alloc: Global,
    rules: &Rules,
    placed: &[Placed],
    state: &PlanState,
    change: &Change,
) -> Result<Judgement, AllocError>
    requires rules { IsRules rules.now }
    requires well_placed { IsWellPlaced placed.now }
    requires valid { IsValid placed.now state.now.cycle state.now.pending }
    requires next { state.now.cycle ≤ openings_end }
    ensures decision { IfOk result (λ judgement. IsDecision rules.now placed.now state.now.pending state.now.cycle
        change.now (decision_in judgement)) }
    ensures complete { let plan = plan_from rules.now (applied placed.now change.now)
        state.now.cycle state.now.pending in
        IfOk result (λ judgement. IsInTime rules.now placed.now state.now.cycle change.now
        → IsTakenWhereDue rules.now plan judgement.verdict) }
    ensures safe { IfOk result (λ judgement. IfSome (decision_in judgement).placed
        (λ list. IsSafe rules.now list state.now.cycle state.now.pending)) }
    ensures ranked { IfOk result (λ judgement. IfSome judgement.table
        (IsRankedFrom rules.now state.now.cycle state.now.pending)) }
{
    let list = match apply(alloc, placed, rules.nodes, rules.slots, change) {
        Ok(list) => list,
        Err(fault) => return malformed(alloc, fault),
    };
    if change.start < state.cycle {
        let verdict = Verdict::Passed {
            start: change.start,
            next: state.cycle,
        };
        return Ok(refusal(alloc, verdict));
    }
    decide_list(alloc, rules, list, state)
}

/// The answer to a change that was not applied.
fn malformed(alloc: Global, fault: ApplyFault) -> Result<Judgement, AllocError>
    ensures decision { IfOk result (λ judgement. IsMalformed fault (decision_in judgement)) }
    ensures none { IfOk result (λ judgement. judgement.table ≡ None) }
{
    match fault {
        ApplyFault::Malformed { op, why } => Ok(refusal(alloc, Verdict::Malformed { op, why })),
        ApplyFault::Memory => Err(AllocError),
    }
}

/// A change that is not taken, with no plan to show.
fn refusal(alloc: Global, verdict: Verdict) -> Judgement
    ensures verdict { result.verdict ≡ verdict }
    ensures none { result.table ≡ None }
    ensures placed { (decision_in result).placed ≡ None }
    ensures trail { result.trail ≡ [] }
{
    Judgement {
        verdict,
        table: None,
        trail: Trail::of(Vec::new(alloc)),
    }
}

/// Decides of the list that a change makes.
pub fn decide_list(
    alloc: Global,
    rules: &Rules,
    list: Vec<Placed>,
    state: &PlanState,
) -> Result<Judgement, AllocError>
    requires rules { IsRules rules.now }
    requires well_placed { IsWellPlaced list.items }
    requires valid { IsValid list.items state.now.cycle state.now.pending }
    requires next { state.now.cycle ≤ openings_end }
    ensures decision { let plan = plan_from rules.now list.items state.now.cycle state.now.pending in
        IfOk result (λ judgement. IsDecisionOnPlan rules.now.horizon plan (decision_in judgement)) }
    ensures complete { let plan = plan_from rules.now list.items state.now.cycle state.now.pending in
        IfOk result (λ judgement. IsTakenWhereDue rules.now plan judgement.verdict) }
    ensures safe { IfOk result (λ judgement. IfSome (decision_in judgement).placed
        (λ list. IsSafe rules.now list state.now.cycle state.now.pending)) }
    ensures ranked { IfOk result (λ judgement. IfSome judgement.table
        (IsRankedFrom rules.now state.now.cycle state.now.pending)) }
{
    let start = planner_of(alloc, rules, list.as_slice(), state)?;
    let walk = walk_over(rules, list.as_slice(), state, &start);
    match lasso_keyed(alloc, &walk, rules.horizon) {
        Ok(Repeat { first, length }) => Ok(Judgement {
            verdict: Verdict::Accepted {
                first: state.cycle + first,
                length,
            },
            table: Some(RankedTable {
                placed: PlacedList::of(list),
                planner: start,
            }),
            trail: Trail::of(Vec::new(alloc)),
        }),
        Err(WalkEnd::Broken { at }) => missed(alloc, &walk, at),
        Err(WalkEnd::NoRepeat { walked }) => {
            let from = state.cycle;
            Ok(refusal(alloc, Verdict::Horizon { from, walked }))
        }
        Err(WalkEnd::Memory) => Err(AllocError),
    }
}

/// The planning of a list from a state on, without the entries that are over.
pub fn planner_of(
    alloc: Global,
    rules: &Rules,
    list: &[Placed],
    state: &PlanState,
) -> Result<Planner, AllocError>
    requires well_placed { IsWellPlaced list.now }
    requires valid { IsValid list.now state.now.cycle state.now.pending }
    requires next { state.now.cycle ≤ openings_end }
    ensures standing { IfOk result (λ planner. planner ≡ record {
      ranking = ranking_by rules.now (not_over state.now.cycle list.now);
      cycle = state.now.cycle;
      pending = state.now.pending;
    }) }
{
    let left = not_over(alloc, list, state.cycle)?;
    let ranked = rank_list(alloc, left, rules.policy, rules.fill)?;
    Planner::new(alloc, ranked, state)
}

/// The walk over the planning of a list, by a planner that has it without the entries that are over.
pub fn walk_over<'a>(
    rules: &Rules,
    _list: &[Placed],
    state: &PlanState,
    start: &'a Planner,
) -> PlanWalk<'a>
    requires horizon { 1 ≤ rules.now.horizon }
    requires well_placed { IsWellPlaced _list.now }
    requires valid { IsValid _list.now state.now.cycle state.now.pending }
    requires next { state.now.cycle ≤ openings_end }
    requires standing { start.now ≡ record {
      ranking = ranking_by rules.now (not_over state.now.cycle _list.now);
      cycle = state.now.cycle;
      pending = state.now.pending;
    } }
    ensures start { result.start.now ≡ start.now }
    ensures walked { IsWalked rules.now _list.now state.now.cycle state.now.pending
        result.start.now.ranking result.window result.first result.bound result.period }
{
    state.pending.known();
    let left = start.ranked().placed();
    let bound = bound(left, state.cycle);
    let period = period(left, rules.horizon);
    let end = walk_end(state.cycle, rules.horizon, bound, period);
    PlanWalk {
        start,
        window: rules.window,
        first: *state,
        bound,
        period,
        fits_until: fits_until(left, rules, state.cycle, end),
    }
}

/// The cycle by which a walk from the cycle `from` on has ended, where nothing is pending behind its first step: there it
/// repeats, or the horizon is reached.
fn walk_end(from: u64, horizon: u64, bound: u64, period: Option<u64>) -> u64
    ensures within { result ≤ from + horizon }
{
    let last = from.saturating_add(horizon);
    match period {
        Some(period) => last.min(bound.saturating_add(period).saturating_add(1)),
        None => last,
    }
}

/// The cycle before which, from `from` on, what is released in each cycle fits the window: the end of the walk, where that
/// is so up to it, and else `from`.
fn fits_until(left: &[Placed], rules: &Rules, from: u64, end: u64) -> u64
    requires well_placed { IsWellPlaced left.now }
    requires from { from ≤ openings_end }
    ensures fits { (c : ℕ) → from ≤ c → c < result → demand_in left.now c ≤ rules.now.window }
    ensures near { result ≤ cycles_end }
{
    let end = end.min(CYCLES_END);
    if fits_each(left, rules.window, from, end) {
        end
    } else {
        from
    }
}

/// The answer where the first miss is in the cycle behind `at` cycles. They are planned once more.
fn missed(alloc: Global, walk: &PlanWalk<'_>, at: u64) -> Result<Judgement, AllocError>
    requires near { at < greatest_horizon }
    requires none_before { let first = walk.now.first in
        HasNoMiss (planning_of walk.now.start.now.ranking walk.now.window first.cycle first.pending) at }
    requires missed { let first = walk.now.first in
        ¬ HasNoMiss (planning_of walk.now.start.now.ranking walk.now.window first.cycle first.pending) (at + 1) }
    ensures missed { let first = walk.now.first in
        IfOk result (λ judgement. IsMissDecision
        (planning_of walk.now.start.now.ranking walk.now.window first.cycle first.pending) at (decision_in judgement)) }
    ensures none { IfOk result (λ judgement. judgement.table ≡ None) }
{
    let (mut masks, mut planner) = plan_cycles(alloc, walk, at)?;
    let state = planner.state();
    masks.push(cycle_mask(planner.ranked(), walk.window, &state))?;
    let Miss {
        slot,
        release,
        cycle,
    } = miss(&mut planner, walk.window);
    Ok(Judgement {
        verdict: Verdict::Miss {
            slot,
            release,
            cycle,
        },
        table: None,
        trail: Trail::of(masks),
    })
}

/// Plans so many cycles, in which nothing is missed: the slots that are planned in them, and the planning behind them.
pub fn plan_cycles<'a>(
    alloc: Global,
    walk: &PlanWalk<'a>,
    cycles: u64,
) -> Result<(Vec<Mask>, Ahead<'a>), AllocError>
    requires near { cycles ≤ greatest_horizon }
    requires none_missed { let first = walk.now.first in
        HasNoMiss (planning_of walk.now.start.now.ranking walk.now.window first.cycle first.pending) cycles }
    ensures planned { let first = walk.now.first in
        IfOk result (λ r. IsPlannedUpTo (planning_of walk.now.start.now.ranking walk.now.window first.cycle first.pending)
        cycles r.0.items (state_in r.1)) }
    ensures entries { IfOk result (λ r. r.1.ranking ≡ walk.now.start.now.ranking) }
{
    let mut masks = Vec::new(alloc);
    walk.first.pending.known();
    let mut planner = walk.planner(alloc)?;
    let mut count = 0;
    while count < cycles {
        let planned = match planner.step(walk.window) {
            Ok(planned) => planned,
            Err(_) => unreachable!(),
        };
        masks.push(planned.mask)?;
        count += 1;
        count += plan_empty(walk, &mut planner, &mut masks, count, cycles)?;
    }
    Ok((masks, planner))
}

/// Plans the cycles behind so many in which nothing is planned, as far as they are known, and no more than `cycles` with
/// those before. The answer is how many they are.
fn plan_empty(
    walk: &PlanWalk<'_>,
    planner: &mut Ahead<'_>,
    masks: &mut Vec<Mask>,
    count: u64,
    cycles: u64,
) -> Result<u64, AllocError>
    requires below { count ≤ cycles }
    requires near { planner.old.cycle + cycles < cycles_end }
    requires entries { planner.old.ranking ≡ walk.now.start.now.ranking }
    requires planned { let first = walk.now.first in
        IsPlannedUpTo (planning_of walk.now.start.now.ranking walk.now.window first.cycle first.pending)
        count masks.old.items (state_in planner.old) }
    ensures planned { let first = walk.now.first in
        IfOk result (λ more. IsPlannedUpTo (planning_of walk.now.start.now.ranking walk.now.window first.cycle first.pending)
        (count + more) masks.new.items (state_in planner.new)) }
    ensures within { IfOk result (λ more. count + more ≤ cycles) }
    ensures entries { planner.new.ranking ≡ walk.now.start.now.ranking }
{
    let here = planner.state().cycle;
    pass_until(planner, here + (cycles - count));
    let more = planner.state().cycle - here;
    for _ in 0..more {
        masks.push(Mask::empty())?;
    }
    Ok(more)
}

/// Passes cycles in which nothing is pending, as far as they are known, and no further than to the cycle `end`.
fn pass_until(planner: &mut Ahead<'_>, end: u64)
    requires onward { planner.old.cycle ≤ end }
    requires end { end < cycles_end }
    ensures standing { planner.new ≡ record planner.old { cycle = planner.new.cycle } }
    ensures onward { planner.old.cycle ≤ planner.new.cycle }
    ensures end { planner.new.cycle ≤ end }
    ensures valid { (c : ℕ) → planner.old.cycle ≤ c → c ≤ planner.new.cycle
        → IsValid planner.old.ranking.placed c planner.old.pending }
    ensures passed { (window c : ℕ) → planner.old.cycle ≤ c → c < planner.new.cycle
        → IsPassed (planning_of planner.old.ranking window c planner.old.pending) }
{
    planner.pass();
    let behind = planner.state();
    if behind.cycle > end {
        let state = PlanState {
            cycle: end,
            pending: behind.pending,
        };
        planner.seek(&state);
    }
}

/// What is missed in the cycle that is planned next.
pub fn miss(planner: &mut Ahead<'_>, window: u32) -> Miss
    requires cycle { planner.old.cycle < cycles_end }
    requires missed { ¬ HasNoMissIn (going_from planner.old window) planner.old.cycle (has_bit planner.old.pending) }
    ensures miss { IsMissIn (going_from planner.old window) planner.old.cycle (has_bit planner.old.pending)
        result.slot result.release }
    ensures cycle { result.cycle ≡ planner.old.cycle }
{
    match planner.step(window) {
        Ok(_) => unreachable!(),
        Err(miss) => miss,
    }
}
