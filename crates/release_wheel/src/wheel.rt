//! A wheel of coming releases, by which a planned cycle costs what is released in it, and not what there are entries.
//!
//! A row is a placed entry, by its place in the order of the policy. The wheel has 64 places. A row whose next release
//! is in cycle c stands at place c % 64, so a cycle looks at the rows of one place. A row of period 1 without an end has
//! an instance in each cycle from its first release on: such rows are one set, and stand at no place. Sets of rows are
//! numbers, so a wheel turns for at most 128 rows. Where it has no room for its rows each cycle is planned plainly.

ghost use Rattle.std.specs.Prelude.{◌≡◌, ◌≢◌, ℕ, ◌+◌, ◌%◌, ◌<◌, ◌≤◌, true, ◌||◌, get_or, length, IfSome, IfOk, IfErr, None};
ghost use Rattle.profile.specs.Limits.{cycles_end};
ghost use Rattle.planner_policies.specs.declared.Policy.TheVariants.{Edf};
ghost use Rattle.planner_policies.specs.Due.{IsPlanned};
ghost use Rattle.planner_policies.specs.Plan.{IsMissIn, IsValid, Ranking, planning_of};
ghost use Rattle.bit_sets.specs.Sets.{has_bit};
ghost use Rattle.requirement_table.specs.Table.{IsWellPlaced};
ghost use Rattle.release_wheel.specs.Passed.{IsPassed};
ghost use Rattle.release_wheel.specs.Wheel.{AreInTime, HasRoom, IsBelow, IsPart, IsPlannedOn, IsWheelKept, IsWheelReady};

use crate::dues::{Dues, Sum};
use crate::filling::fill;
use crate::picking::{pick_rows, soonest_row};
use crate::planner::CyclePlan;
use crate::releases::release;
use crate::rows::{PLACES, Rows, rows_of};
use crate::taking::{Took, take_rows};
use bit_sets::rows::{MOST_ROWS, both, common};
use bit_sets::{difference, union};
use planner_policies::{Miss, PlanState, Policy, Ranked, plan_with_width};
use profile::CYCLES_END;
use requirement_table::Mask;
use std::alloc::{AllocError, Global};

/// Where a planning stands, and the rows that it looks at.
#[derive(Drop, Debug)]
pub struct Wheel {
    /// The policy that orders the instances.
    pub policy: Policy,
    /// Whether the rows are kept. Where they are not, each cycle is planned plainly.
    pub turns: bool,
    /// Before this cycle nothing is released and nothing waits, where it is after the next cycle.
    pub quiet: u64,
    /// The cycle that is planned next.
    pub cycle: u64,
    /// The rows, in the order of the policy.
    pub rows: Rows,
    /// What they have to send.
    pub dues: Dues,
}

/// The wheel of these entries at a valid state. All memory is taken here: for 128 rows where there are more entries.
pub fn wheel_of(alloc: Global, ranked: &Ranked, state: &PlanState) -> Result<Wheel, AllocError>
    requires cycle { state.now.cycle < cycles_end }
    requires valid { IsValid ranked.now.placed state.now.cycle state.now.pending }
    ensures kept { IfOk result (λ wheel. IsWheelKept ranked.now wheel) }
    ensures cycle { IfOk result (λ wheel. wheel.cycle ≡ state.now.cycle) }
    ensures slots { IfOk result (λ wheel. wheel.dues.waiting.slots ≡ state.now.pending) }
{
    let rows = ranked.rows();
    let count = rows.len().min(MOST_ROWS);
    let mut wheel = Wheel {
        policy: ranked.policy(),
        turns: false,
        quiet: 0,
        cycle: state.cycle,
        rows: rows_of(alloc, &rows[..count])?,
        dues: Dues::of_slots(state.pending),
    };
    fill(&mut wheel, ranked, state);
    Ok(wheel)
}

/// Plans the cycle of the wheel within a window of `w` bit times, and goes on to the next one. At a miss all stays.
pub fn step(wheel: &mut Wheel, ranked: &Ranked, w: u32) -> Result<CyclePlan, Miss>
    requires cycle { wheel.old.cycle < cycles_end }
    requires kept { IsWheelKept ranked.now wheel.old }
    ensures planned { let plan = planning_of ranked.now w wheel.old.cycle wheel.old.dues.waiting.slots in IfOk result
        (λ r. IsPlanned plan wheel.old.cycle (has_bit wheel.old.dues.waiting.slots) r.mask r.width wheel.new.dues.waiting.slots) }
    ensures next { IfOk result (λ _. wheel.new.cycle ≡ wheel.old.cycle + 1) }
    ensures missed { let plan = planning_of ranked.now w wheel.old.cycle wheel.old.dues.waiting.slots in IfErr result
        (λ miss. IsMissIn plan wheel.old.cycle (has_bit wheel.old.dues.waiting.slots) miss.slot miss.release) }
    ensures missed_cycle { IfErr result (λ miss. miss.cycle ≡ wheel.old.cycle) }
    ensures same_cycle { IfErr result (λ _. wheel.new.cycle ≡ wheel.old.cycle) }
    ensures same_slots { IfErr result (λ _. wheel.new.dues.waiting.slots ≡ wheel.old.dues.waiting.slots) }
    ensures kept { IsWheelKept ranked.now wheel.new }
{
    let state = PlanState {
        cycle: wheel.cycle,
        pending: wheel.dues.waiting.slots,
    };
    ranked.placed();
    if wheel.cycle < wheel.quiet {
        return Ok(pass(wheel, ranked));
    }
    if !wheel.turns {
        return plan_plainly(wheel, ranked, &state, w);
    }
    release(wheel);
    match take(wheel, ranked, &state, w) {
        Some(plan) => Ok(plan),
        None => plan_plainly(wheel, ranked, &state, w),
    }
}

/// Passes a cycle in which nothing is pending.
fn pass(wheel: &mut Wheel, ranked: &Ranked) -> CyclePlan
    requires cycle { wheel.old.cycle < cycles_end }
    requires kept { IsWheelKept ranked.now wheel.old }
    requires well { IsWellPlaced ranked.now.placed }
    requires quiet { wheel.old.cycle < wheel.old.quiet }
    ensures planned { (window : ℕ) → IsPlanned (planning_of ranked.now window wheel.old.cycle wheel.old.dues.waiting.slots)
        wheel.old.cycle (has_bit wheel.old.dues.waiting.slots) result.mask result.width wheel.new.dues.waiting.slots }
    ensures next { wheel.new.cycle ≡ wheel.old.cycle + 1 }
    ensures same { wheel.new.quiet ≡ wheel.old.quiet }
    ensures empty { (wheel.new.dues.waiting.slots ≡ 0) × (result.mask ≡ 0) }
    ensures kept { IsWheelKept ranked.now wheel.new }
{
    wheel.cycle += 1;
    wheel.dues.waiting.slots = Mask::empty();
    CyclePlan {
        mask: Mask::empty(),
        width: 0,
    }
}

/// Passes the cycles in which nothing is pending, from the next one on, as far as they are known, and no further than to
/// the cycle `until`.
pub fn pass_quiet(wheel: &mut Wheel, ranked: &Ranked, until: u64)
    requires kept { IsWheelKept ranked.now wheel.old }
    ensures until { wheel.old.cycle ≤ until → wheel.new.cycle ≤ until }
    ensures onward { wheel.old.cycle ≤ wheel.new.cycle }
    ensures slots { wheel.new.dues.waiting.slots ≡ wheel.old.dues.waiting.slots }
    ensures valid { (c : ℕ) → wheel.old.cycle ≤ c → c ≤ wheel.new.cycle
        → IsValid ranked.now.placed c wheel.old.dues.waiting.slots }
    ensures passed { (window c : ℕ) → wheel.old.cycle ≤ c → c < wheel.new.cycle
        → IsPassed (planning_of ranked.now window c wheel.old.dues.waiting.slots) }
    ensures kept { IsWheelKept ranked.now wheel.new }
{
    ranked.placed();
    if wheel.dues.waiting.slots.bits() != 0 {
        return;
    }
    let end = wheel.quiet.min(until).min(CYCLES_END);
    while wheel.cycle < end {
        pass(wheel, ranked);
    }
}

/// Goes to another cycle, where nothing is pending. The rows are not kept: the next cycle is planned plainly.
pub fn set_plain(wheel: &mut Wheel, cycle: u64)
    requires cycle { cycle ≤ cycles_end }
    requires empty { wheel.old.dues.waiting.slots ≡ 0 }
    ensures kept { (ranking : Ranking) → IsWheelKept ranking wheel.new }
    ensures cycle { wheel.new.cycle ≡ cycle }
    ensures slots { wheel.new.dues.waiting.slots ≡ wheel.old.dues.waiting.slots }
{
    wheel.cycle = cycle;
    wheel.turns = false;
    wheel.quiet = 0;
}

/// Plans the cycle of the wheel, whose releases are made. `None` where an instance is missed.
fn take(wheel: &mut Wheel, ranked: &Ranked, state: &PlanState, w: u32) -> Option<CyclePlan>
    requires cycle { wheel.old.cycle < cycles_end }
    requires ready { IsWheelReady ranked.now state.now.pending wheel.old }
    ensures planned { IfSome result
        (λ r. IsPlannedOn ranked.now w state.now.pending wheel.old wheel.new r.mask r.width) }
    ensures none { result ≡ None → wheel.new ≡ wheel.old }
{
    if wheel.dues.waiting.cost + wheel.dues.always.cost <= w {
        return Some(take_all(wheel, ranked, state, w));
    }
    take_some(wheel, ranked, state, w)
}

/// Plans the cycle of the state as `plan_with_width` does.
fn plan_plainly(
    wheel: &mut Wheel,
    ranked: &Ranked,
    state: &PlanState,
    w: u32,
) -> Result<CyclePlan, Miss>
    requires cycle { state.now.cycle < cycles_end }
    requires valid { IsValid ranked.now.placed state.now.cycle state.now.pending }
    ensures planned { let plan = planning_of ranked.now w state.now.cycle state.now.pending in IfOk result
        (λ r. IsPlanned plan state.now.cycle (has_bit state.now.pending) r.mask r.width wheel.new.dues.waiting.slots) }
    ensures next { IfOk result (λ _. wheel.new.cycle ≡ state.now.cycle + 1) }
    ensures missed { let plan = planning_of ranked.now w state.now.cycle state.now.pending in IfErr result
        (λ miss. IsMissIn plan state.now.cycle (has_bit state.now.pending) miss.slot miss.release) }
    ensures missed_cycle { IfErr result (λ miss. miss.cycle ≡ state.now.cycle) }
    ensures same_cycle { IfErr result (λ _. wheel.new.cycle ≡ state.now.cycle) }
    ensures same_slots { IfErr result (λ _. wheel.new.dues.waiting.slots ≡ state.now.pending) }
    ensures kept { IsWheelKept ranked.now wheel.new }
{
    match plan_with_width(ranked, w, state) {
        Ok(planned) => {
            fill(wheel, ranked, &planned.next);
            Ok(CyclePlan {
                mask: planned.mask,
                width: planned.width,
            })
        }
        Err(miss) => {
            fill(wheel, ranked, state);
            Err(miss)
        }
    }
}

/// Plans all that is pending, which fits the window together.
fn take_all(wheel: &mut Wheel, ranked: &Ranked, state: &PlanState, w: u32) -> CyclePlan
    requires cycle { wheel.old.cycle < cycles_end }
    requires ready { IsWheelReady ranked.now state.now.pending wheel.old }
    requires fits { wheel.old.dues.waiting.cost + wheel.old.dues.always.cost ≤ w }
    ensures planned { IsPlannedOn ranked.now w state.now.pending wheel.old wheel.new result.mask result.width }
{
    let plan = CyclePlan {
        mask: union(wheel.dues.waiting.slots, wheel.dues.always.slots),
        width: wheel.dues.waiting.cost + wheel.dues.always.cost,
    };
    plan.mask.known();
    wheel.cycle += 1;
    wheel.dues.waiting = Sum::none();
    wheel.dues.soonest = u64::MAX;
    wheel.quiet = quiet_until(
        wheel.rows.places.as_slice(),
        wheel.dues.always.rows,
        wheel.cycle,
    );
    plan
}

/// A cycle before which no place of the wheel from `cycle` on has a row, where no row has an instance in each cycle.
fn quiet_until(places: &[u128], always: u128, cycle: u64) -> u64
    requires places { length places.now ≡ 64 }
    requires cycle { cycle ≤ cycles_end }
    ensures none_always { cycle < result → always ≡ 0 }
    ensures empty { (c : ℕ) → cycle ≤ c → c < result → get_or places.now (c % 64) 0 ≡ 0 }
{
    if always != 0 {
        return 0;
    }
    let mut quiet = cycle;
    for _ in 0..PLACES {
        if places[(quiet % PLACES as u64) as usize] != 0 {
            return quiet;
        }
        quiet += 1;
    }
    quiet
}

/// Plans what the filling takes of what is pending, in key order. `None` where an instance is missed.
fn take_some(wheel: &mut Wheel, ranked: &Ranked, state: &PlanState, w: u32) -> Option<CyclePlan>
    requires cycle { wheel.old.cycle < cycles_end }
    requires ready { IsWheelReady ranked.now state.now.pending wheel.old }
    ensures planned { IfSome result
        (λ r. IsPlannedOn ranked.now w state.now.pending wheel.old wheel.new r.mask r.width) }
    ensures none { result ≡ None → wheel.new ≡ wheel.old }
{
    let took = take_due(wheel, ranked, state, w);
    let soonest = in_time(wheel, took.left)?;
    let all = union(wheel.dues.waiting.slots, wheel.dues.always.slots);
    let pending = difference(all, took.mask);
    pending.known();
    wheel.cycle += 1;
    wheel.quiet = 0;
    wheel.dues.waiting = Sum {
        rows: took.left,
        slots: pending,
        cost: wheel.dues.waiting.cost + wheel.dues.always.cost - took.width,
    };
    wheel.dues.soonest = soonest;
    Some(CyclePlan {
        mask: took.mask,
        width: took.width,
    })
}

/// What the filling takes of the rows with something to send, in key order, within a window of `w` bit times.
fn take_due(wheel: &Wheel, ranked: &Ranked, state: &PlanState, w: u32) -> Took
    requires cycle { wheel.now.cycle < cycles_end }
    requires ready { IsWheelReady ranked.now state.now.pending wheel.now }
    ensures took { IsPart (planning_of ranked.now w wheel.now.cycle state.now.pending) (has_bit state.now.pending)
        wheel.now result.left result.mask result.width }
{
    let due = both(wheel.dues.waiting.rows, wheel.dues.always.rows);
    match wheel.policy {
        Policy::Edf => take_by_deadline(wheel, ranked, state, due, w),
        _ => take_by_row(wheel, ranked, state, due, w),
    }
}

/// What the filling takes of these rows, in the order of the rows, within a window of `w` bit times.
fn take_by_row(wheel: &Wheel, ranked: &Ranked, state: &PlanState, due: u128, w: u32) -> Took
    requires ready { IsWheelReady ranked.now state.now.pending wheel.now }
    requires rows { (row : ℕ) → has_bit due row ≡ (has_bit wheel.now.dues.waiting.rows row || has_bit wheel.now.dues.always.rows row) }
    requires order { wheel.now.policy ≢ Edf }
    ensures took { IsPart (planning_of ranked.now w wheel.now.cycle state.now.pending) (has_bit state.now.pending)
        wheel.now result.left result.mask result.width }
{
    take_rows(wheel.rows.entries.as_slice(), ranked.fill(), due, w)
}

/// What the filling takes of these rows, in the order of their deadlines, within a window of `w` bit times. It is not
/// inlined, so that the other policies are not slowed by it.
#[inline(never)]
fn take_by_deadline(wheel: &Wheel, ranked: &Ranked, state: &PlanState, due: u128, w: u32) -> Took
    requires ready { IsWheelReady ranked.now state.now.pending wheel.now }
    requires rows { (row : ℕ) → has_bit due row ≡ (has_bit wheel.now.dues.waiting.rows row || has_bit wheel.now.dues.always.rows row) }
    requires order { wheel.now.policy ≡ Edf }
    ensures took { IsPart (planning_of ranked.now w wheel.now.cycle state.now.pending) (has_bit state.now.pending)
        wheel.now result.left result.mask result.width }
{
    pick_rows(wheel, ranked.fill(), due, w)
}

/// Where none of the rows that are left is in its last cycle, a cycle that is not above the last cycle of any of them.
fn in_time(wheel: &Wheel, left: u128) -> Option<u64>
    requires room { HasRoom (length wheel.now.rows.entries.items) wheel.now.rows wheel.now.dues }
    requires known { (row : ℕ) → has_bit left row ≡ true
        → (has_bit wheel.now.dues.waiting.rows row || has_bit wheel.now.dues.always.rows row) ≡ true }
    requires soonest { (row : ℕ) → has_bit wheel.now.dues.waiting.rows row ≡ true
        → wheel.now.dues.soonest ≤ get_or wheel.now.rows.lasts.items row 0 }
    ensures in_time { IfSome result (λ soonest. AreInTime wheel.now left soonest) }
{
    if common(left, wheel.dues.always.rows) != 0 {
        return None;
    }
    if wheel.cycle < wheel.dues.soonest {
        return Some(wheel.dues.soonest);
    }
    let soonest = least_last(wheel.rows.lasts.as_slice(), left);
    if soonest <= wheel.cycle {
        return None;
    }
    Some(soonest)
}

/// A cycle that is not above the last cycle of any of these rows.
fn least_last(lasts: &[u64], rows: u128) -> u64
    requires within { IsBelow (length lasts.now) rows }
    ensures least { (row : ℕ) → has_bit rows row ≡ true → result ≤ get_or lasts.now row 0 }
{
    if rows == 0 {
        return u64::MAX;
    }
    lasts[soonest_row(lasts, rows)]
}
