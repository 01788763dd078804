//! The entries that begin soon, of more than a wheel has room for.
//!
//! In each slot at most one entry has begun and is not over. So a wheel has nearly always room for the entries of the
//! next cycle, and most often for those of many cycles.

ghost use Rattle.std.specs.Prelude.{◌≡◌, ℕ, ◌+◌, ◌<◌, ◌≤◌, All, IfSome, IfOk, IfErr, Some};
ghost use Rattle.profile.specs.Limits.{cycles_end};
ghost use Rattle.bit_sets.specs.Sets.{has_bit};
ghost use Rattle.requirement_table.specs.Table.{IsInRange};
ghost use Rattle.planner_policies.specs.Due.{IsPlanned};
ghost use Rattle.planner_policies.specs.Plan.{IsMissIn, IsValid, planning_of};
ghost use Rattle.release_wheel.specs.Near.{HasRows, IsForgotten, IsStanding, at_wheel, until_of};
ghost use Rattle.release_wheel.specs.Passed.{IsPassed};
ghost use Rattle.release_wheel.specs.Wheel.{IsWheelKept};

use crate::filling::fill;
use crate::planner::CyclePlan;
use crate::wheel::{Wheel, pass_quiet, step};
use bit_sets::rows::MOST_ROWS;
use planner_policies::{Miss, PlanState, Ranked};
use requirement_table::laws::entries_that_are_near;
use requirement_table::{Placed, is_over_in_range};
use std::alloc::{AllocError, Global};

/// The numbers of bits that a number of cycles may have, 0 to 64.
const SIZES: usize = 65;

/// The entries that are not over by a cycle and begin before another one. Between them they plan as all entries do.
#[derive(Drop, Debug)]
pub struct Near {
    /// The entries.
    pub ranked: Ranked,
    /// The cycle by which they are not over.
    pub since: u64,
    /// The cycle before which they begin. The wheel is theirs as long as its cycle is before it.
    pub until: u64,
}

/// Room for the entries that begin soon, where there are more than a wheel has room for.
pub fn near_of(alloc: Global, ranked: &Ranked) -> Result<Option<Near>, AllocError>
    ensures none { IfOk result (λ near. IsForgotten near) }
{
    if ranked.rows().len() <= MOST_ROWS {
        return Ok(None);
    }
    Ok(Some(Near {
        ranked: ranked.empty_with_room(alloc, MOST_ROWS)?,
        since: 0,
        until: 0,
    }))
}

/// The entries whose rows the wheel has in a cycle: those that are near, or all.
fn at_wheel<'a>(near: &'a Option<Near>, ranked: &'a Ranked, cycle: u64) -> &'a Ranked
    ensures entries { result.now ≡ at_wheel near.now ranked.now cycle }
{
    match near {
        Some(near) => {
            if cycle < near.until {
                &near.ranked
            } else {
                ranked
            }
        }
        None => ranked,
    }
}

/// The cycle up to which the wheel has these rows.
fn until(near: &Option<Near>) -> u64
    ensures until { result ≡ until_of near.now }
{
    match near {
        Some(near) => near.until,
        None => u64::MAX,
    }
}

/// Goes to a valid state of all entries, without memory. Those that are near are looked for when a cycle is planned.
pub fn go_to(near: &mut Option<Near>, wheel: &mut Wheel, ranked: &Ranked, state: &PlanState)
    requires cycle { state.now.cycle ≤ cycles_end }
    requires valid { IsValid ranked.now.placed state.now.cycle state.now.pending }
    ensures standing { IsStanding ranked.now near.new wheel.new }
    ensures cycle { wheel.new.cycle ≡ state.now.cycle }
    ensures slots { wheel.new.dues.waiting.slots ≡ state.now.pending }
{
    forget(near);
    fill(wheel, ranked, state);
}

/// Takes no entries as near.
pub fn forget(near: &mut Option<Near>)
    ensures none { IsForgotten near.new }
{
    if let Some(near) = near {
        near.until = 0;
    }
}

/// Plans the cycle of the wheel within a window of `w` bit times, by the entries that are near, and goes on to the next
/// one. At a miss all stays.
pub fn step_near(
    near: &mut Option<Near>,
    wheel: &mut Wheel,
    ranked: &Ranked,
    w: u32,
) -> Result<CyclePlan, Miss>
    requires cycle { wheel.old.cycle < cycles_end }
    requires standing { IsStanding ranked.now near.old wheel.old }
    ensures planned { let plan = planning_of ranked.now w wheel.old.cycle wheel.old.dues.waiting.slots in IfOk result
        (λ r. IsPlanned plan wheel.old.cycle (has_bit wheel.old.dues.waiting.slots) r.mask r.width wheel.new.dues.waiting.slots) }
    ensures next { IfOk result (λ _. wheel.new.cycle ≡ wheel.old.cycle + 1) }
    ensures missed { let plan = planning_of ranked.now w wheel.old.cycle wheel.old.dues.waiting.slots in IfErr result
        (λ miss. IsMissIn plan wheel.old.cycle (has_bit wheel.old.dues.waiting.slots) miss.slot miss.release) }
    ensures missed_cycle { IfErr result (λ miss. miss.cycle ≡ wheel.old.cycle) }
    ensures same_cycle { IfErr result (λ _. wheel.new.cycle ≡ wheel.old.cycle) }
    ensures same_slots { IfErr result (λ _. wheel.new.dues.waiting.slots ≡ wheel.old.dues.waiting.slots) }
    ensures standing { IsStanding ranked.now near.new wheel.new }
{
    ranked.placed();
    come_near(near, wheel, ranked);
    step(wheel, at_wheel(near, ranked, wheel.cycle), w)
}

/// Passes cycles in which nothing is pending as `pass_quiet` does, by the entries that are near.
pub fn pass_near(near: &Option<Near>, wheel: &mut Wheel, ranked: &Ranked)
    requires standing { IsStanding ranked.now near.now wheel.old }
    ensures onward { wheel.old.cycle ≤ wheel.new.cycle }
    ensures slots { wheel.new.dues.waiting.slots ≡ wheel.old.dues.waiting.slots }
    ensures valid { (c : ℕ) → wheel.old.cycle ≤ c → c ≤ wheel.new.cycle
        → IsValid ranked.now.placed c wheel.old.dues.waiting.slots }
    ensures passed { (window c : ℕ) → wheel.old.cycle ≤ c → c < wheel.new.cycle
        → IsPassed (planning_of ranked.now window c wheel.old.dues.waiting.slots) }
    ensures standing { IsStanding ranked.now near.now wheel.new }
{
    ranked.placed();
    if wheel.quiet <= wheel.cycle {
        return;
    }
    let until = until(near);
    if until <= wheel.cycle {
        return;
    }
    pass_quiet(wheel, at_wheel(near, ranked, wheel.cycle), until);
}

/// Sees that the wheel has the rows that it needs in its cycle.
fn come_near(near: &mut Option<Near>, wheel: &mut Wheel, ranked: &Ranked)
    requires standing { IsStanding ranked.now near.old wheel.old }
    ensures rows { HasRows ranked.now near.new wheel.new }
    ensures kept { IsWheelKept (at_wheel near.new ranked.now wheel.new.cycle) wheel.new }
    ensures cycle { wheel.new.cycle ≡ wheel.old.cycle }
    ensures slots { wheel.new.dues.waiting.slots ≡ wheel.old.dues.waiting.slots }
{
    if wheel.cycle < until(near) {
        return;
    }
    if let Some(near) = near {
        refill(near, wheel, ranked);
    }
}

/// Takes the entries that are near in the cycle of the wheel, and fills in their rows. Where the wheel has no room for
/// them it is one of all entries.
#[inline(never)]
fn refill(near: &mut Near, wheel: &mut Wheel, ranked: &Ranked)
    requires cycle { wheel.old.cycle ≤ cycles_end }
    requires valid { IsValid ranked.now.placed wheel.old.cycle wheel.old.dues.waiting.slots }
    requires reached { near.old.until ≤ wheel.old.cycle }
    ensures rows { HasRows ranked.now (Some near.new) wheel.new }
    ensures kept { IsWheelKept (at_wheel (Some near.new) ranked.now wheel.new.cycle) wheel.new }
    ensures cycle { wheel.new.cycle ≡ wheel.old.cycle }
    ensures slots { wheel.new.dues.waiting.slots ≡ wheel.old.dues.waiting.slots }
{
    entries_that_are_near();
    let state = PlanState {
        cycle: wheel.cycle,
        pending: wheel.dues.waiting.slots,
    };
    let until = soon(ranked.rows(), wheel.cycle);
    if wheel.cycle < until && near.ranked.take_near(ranked, wheel.cycle, until) {
        near.since = wheel.cycle;
        near.until = until;
        fill(wheel, &near.ranked, &state);
    } else {
        fill(wheel, ranked, &state);
    }
}

/// A cycle before which no more of the entries begin than a wheel has room for, as far as a count of them by the number
/// of bits of the cycles until then shows.
fn soon(rows: &[Placed], cycle: u64) -> u64
    requires in_range { All IsInRange rows.now }
{
    let mut counts = [0u8; SIZES];
    let mut firsts = [u64::MAX; SIZES];
    for row in rows {
        if !is_over_in_range(row, cycle) {
            let size = size_of(row.origin.saturating_sub(cycle));
            counts[size] = counts[size].saturating_add(1);
            firsts[size] = firsts[size].min(row.origin);
        }
    }
    first_beyond(&counts, &firsts)
}

/// The number of bits of a number.
fn size_of(number: u64) -> usize
    ensures size { result < 65 }
{
    (u64::BITS - number.leading_zeros()) as usize
}

/// The first cycle of the first size up to which there are more than a wheel has room for.
fn first_beyond(counts: &[u8; SIZES], firsts: &[u64; SIZES]) -> u64 {
    let mut count: u8 = 0;
    for size in 0..SIZES {
        count = count.saturating_add(counts[size]);
        if usize::from(count) > MOST_ROWS {
            return firsts[size];
        }
    }
    u64::MAX
}
