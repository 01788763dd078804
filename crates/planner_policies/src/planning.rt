//! The plan of one cycle.

ghost use Rattle.std.specs.Prelude.{◌≡◌, ℕ, ◌+◌, ◌^◌, ◌<◌, ◌≤◌, ◌↔◌, nat_eq};
ghost use Rattle.std.specs.Prelude.{sum_by, take, All, IsTrue, IfOk, IfErr, IfSome, length, Some};
ghost use Rattle.planner_policies.specs.declared.Fill.TheVariants.{Prefix, Skip};
ghost use Rattle.std.specs.List.{list_any};
ghost use Rattle.profile.specs.Limits.{cycles_end};
ghost use Rattle.bit_sets.specs.Sets.{has_bit, set_of, most_slots};
ghost use Rattle.requirement_table.specs.Table.{IsInRange, width_in};
ghost use Rattle.planner_policies.specs.Due.{IsAllFitting, IsLeastMissed, IsLineTaken, IsLongestFit, IsPlanned, IsSetOf};
ghost use Rattle.planner_policies.specs.Due.{IsWholeLine, is_held_in, left_of, lesser_miss, taken_of, with_missed};
ghost use Rattle.planner_policies.specs.Plan.{HasNoMissIn, IsMissIn, IsValid, left_after, planned_in, planning_of};

use crate::Fill;
use crate::due::{Due, due_of};
use crate::line::{ALL, FEW, SlotLine};
use crate::ranking::Ranked;
use crate::state::{Miss, PlanState};
use requirement_table::{Mask, Placed, current_instance};

/// Whether a state can be planned from: each pending slot has an instance that was released before the cycle and whose
/// last cycle is not below it.
pub fn valid(ranked: &Ranked, state: &PlanState) -> bool
    requires cycle { state.now.cycle < cycles_end }
    ensures valid { IsTrue result ↔ IsValid ranked.now.placed state.now.cycle state.now.pending }
{
    let mut rest = state.pending;
    let rows = ranked.rows();
    for row in rows {
        if is_held(row, state.cycle) {
            rest = rest.without(row.entry.slot);
        }
    }
    rest.known();
    rest == Mask::empty()
}

/// Whether the entry has an instance that was released before the cycle and may be sent in it. The cycle is at most
/// 2^42.
pub fn is_held(placed: &Placed, cycle: u64) -> bool
    requires in_range { IsInRange placed.now }
    requires cycle { cycle ≤ cycles_end }
    ensures held { result ≡ is_held_in cycle placed.now }
{
    match current_instance(placed, cycle) {
        Some(instance) => instance.release < cycle,
        None => false,
    }
}

/// Plans the cycle of the state, by the policy and the filling of the list, within a window of `w` bit times: the slots
/// that are planned in it, and the state at the next cycle.
///
/// The state is valid.
///
/// # Errors
///
/// An instance is left whose last cycle this is. Of several such instances it is that of the least slot.
pub fn plan_cycle(ranked: &Ranked, w: u32, state: &PlanState) -> Result<(Mask, PlanState), Miss>
    requires cycle { state.now.cycle < cycles_end }
    requires valid { IsValid ranked.now.placed state.now.cycle state.now.pending }
    ensures planned { let plan = planning_of ranked.now w state.now.cycle state.now.pending in
        IfOk result (λ r. r.0 ≡ set_of most_slots (planned_in plan state.now.cycle (has_bit state.now.pending))) }
    ensures next_cycle { IfOk result (λ r. r.1.cycle ≡ state.now.cycle + 1) }
    ensures left { let plan = planning_of ranked.now w state.now.cycle state.now.pending in
        IfOk result
        (λ r. r.1.pending ≡ set_of most_slots (left_after plan state.now.cycle (has_bit state.now.pending))) }
    ensures next_valid { IfOk result (λ r. IsValid ranked.now.placed r.1.cycle r.1.pending) }
    ensures none_missed { let plan = planning_of ranked.now w state.now.cycle state.now.pending in
        IfOk result (λ _. HasNoMissIn plan state.now.cycle (has_bit state.now.pending)) }
    ensures missed { let plan = planning_of ranked.now w state.now.cycle state.now.pending in
        IfErr result (λ miss. IsMissIn plan state.now.cycle (has_bit state.now.pending) miss.slot miss.release) }
    ensures missed_cycle { IfErr result (λ miss. miss.cycle ≡ state.now.cycle) }
{
    let planned = plan_with_width(ranked, w, state)?;
    Ok((planned.mask, planned.next))
}

/// What is planned in a cycle.
#[derive(Clone, Copy, PartialEq, Eq, Debug)]
pub struct PlannedCycle {
    /// The slots that are planned.
    pub mask: Mask,
    /// What they cost together, in bit times: the length of the synchronous window.
    pub width: u32,
    /// The state at the next cycle.
    pub next: PlanState,
}

/// Plans the cycle of the state as `plan_cycle` does, and tells the length of its synchronous window too: at most `w`
/// bit times.
///
/// The state is valid.
///
/// # Errors
///
/// Those of `plan_cycle`.
pub fn plan_with_width(ranked: &Ranked, w: u32, state: &PlanState) -> Result<PlannedCycle, Miss>
    requires cycle { state.now.cycle < cycles_end }
    requires valid { IsValid ranked.now.placed state.now.cycle state.now.pending }
    ensures planned { let plan = planning_of ranked.now w state.now.cycle state.now.pending in
        IfOk result (λ r. r.mask ≡ set_of most_slots (planned_in plan state.now.cycle (has_bit state.now.pending))) }
    ensures width { let plan = planning_of ranked.now w state.now.cycle state.now.pending in
        IfOk result (λ r. r.width ≡ width_in plan.placed state.now.cycle
        (planned_in plan state.now.cycle (has_bit state.now.pending))) }
    ensures fits { IfOk result (λ r. r.width ≤ w) }
    ensures next_cycle { IfOk result (λ r. r.next.cycle ≡ state.now.cycle + 1) }
    ensures left { let plan = planning_of ranked.now w state.now.cycle state.now.pending in
        IfOk result
        (λ r. r.next.pending ≡ set_of most_slots (left_after plan state.now.cycle (has_bit state.now.pending))) }
    ensures next_valid { IfOk result (λ r. IsValid ranked.now.placed r.next.cycle r.next.pending) }
    ensures none_missed { let plan = planning_of ranked.now w state.now.cycle state.now.pending in
        IfOk result (λ _. HasNoMissIn plan state.now.cycle (has_bit state.now.pending)) }
    ensures missed { let plan = planning_of ranked.now w state.now.cycle state.now.pending in
        IfErr result (λ miss. IsMissIn plan state.now.cycle (has_bit state.now.pending) miss.slot miss.release) }
    ensures missed_cycle { IfErr result (λ miss. miss.cycle ≡ state.now.cycle) }
{
    ranked.placed();
    let planned = plan_pending(ranked, w, state)?;
    Ok(planned)
}

/// Plans the cycle of the state as `plan_with_width` does.
fn plan_pending(ranked: &Ranked, w: u32, state: &PlanState) -> Result<PlannedCycle, Miss>
    requires cycle { state.now.cycle < cycles_end }
    requires valid { IsValid ranked.now.placed state.now.cycle state.now.pending }
    ensures planned { let plan = planning_of ranked.now w state.now.cycle state.now.pending in IfOk result
        (λ r. IsPlanned plan state.now.cycle (has_bit state.now.pending) r.mask r.width r.next.pending) }
    ensures next_cycle { IfOk result (λ r. r.next.cycle ≡ state.now.cycle + 1) }
    ensures missed { let plan = planning_of ranked.now w state.now.cycle state.now.pending in
        IfErr result (λ miss. IsMissIn plan state.now.cycle (has_bit state.now.pending) miss.slot miss.release) }
    ensures missed_cycle { IfErr result (λ miss. miss.cycle ≡ state.now.cycle) }
{
    if let Some(all) = all_fitting(ranked, w, state) {
        return Ok(PlannedCycle {
            mask: all.mask,
            width: all.width,
            next: PlanState {
                cycle: state.cycle + 1,
                pending: Mask::empty(),
            },
        });
    }
    if ranked.rows().len() <= FEW {
        plan_rows::<FEW>(ranked, w, state)
    } else {
        plan_rows::<ALL>(ranked, w, state)
    }
}

/// Plans the cycle of the state as `plan_with_width` does, by a line with room for all that is pending.
fn plan_rows<const ROOM: usize>(
    ranked: &Ranked,
    w: u32,
    state: &PlanState,
) -> Result<PlannedCycle, Miss>
    requires cycle { state.now.cycle < cycles_end }
    requires valid { IsValid ranked.now.placed state.now.cycle state.now.pending }
    requires most { ROOM ≤ most_slots }
    requires room { ROOM < most_slots → length ranked.now.placed ≤ ROOM }
    ensures planned { let plan = planning_of ranked.now w state.now.cycle state.now.pending in IfOk result
        (λ r. IsPlanned plan state.now.cycle (has_bit state.now.pending) r.mask r.width r.next.pending) }
    ensures next_cycle { IfOk result (λ r. r.next.cycle ≡ state.now.cycle + 1) }
    ensures missed { let plan = planning_of ranked.now w state.now.cycle state.now.pending in
        IfErr result (λ miss. IsMissIn plan state.now.cycle (has_bit state.now.pending) miss.slot miss.release) }
    ensures missed_cycle { IfErr result (λ miss. miss.cycle ≡ state.now.cycle) }
{
    let line = line_of::<ROOM>(ranked, w, state);
    plan_line(line.as_slice(), ranked.fill(), w, state.cycle)
}

/// The slots that are planned in the cycle of the state, within a window of `w` bit times, whether or not an instance
/// is missed in it.
///
/// The state is valid.
pub fn cycle_mask(ranked: &Ranked, w: u32, state: &PlanState) -> Mask
    requires cycle { state.now.cycle < cycles_end }
    requires valid { IsValid ranked.now.placed state.now.cycle state.now.pending }
    ensures planned { let plan = planning_of ranked.now w state.now.cycle state.now.pending in
        result ≡ set_of most_slots (planned_in plan state.now.cycle (has_bit state.now.pending)) }
{
    if ranked.rows().len() <= FEW {
        mask_of_rows::<FEW>(ranked, w, state)
    } else {
        mask_of_rows::<ALL>(ranked, w, state)
    }
}

/// The slots that `cycle_mask` gives, by a line with room for all that is pending.
fn mask_of_rows<const ROOM: usize>(ranked: &Ranked, w: u32, state: &PlanState) -> Mask
    requires cycle { state.now.cycle < cycles_end }
    requires valid { IsValid ranked.now.placed state.now.cycle state.now.pending }
    requires most { ROOM ≤ most_slots }
    requires room { ROOM < most_slots → length ranked.now.placed ≤ ROOM }
    ensures planned { let plan = planning_of ranked.now w state.now.cycle state.now.pending in
        result ≡ set_of most_slots (planned_in plan state.now.cycle (has_bit state.now.pending)) }
{
    let line = line_of::<ROOM>(ranked, w, state);
    plan_of_line(line.as_slice(), ranked.fill(), w).mask
}

/// The pending instances that a cycle takes.
#[derive(Clone, Copy, PartialEq, Eq, Debug)]
pub struct Taken {
    /// Their slots.
    pub mask: Mask,
    /// What they cost together, in bit times.
    pub width: u32,
}

/// All that is pending in the cycle of the state, where it fits a window of `w` bit times together: then all is planned,
/// and need not be ordered. `None` where it does not fit. `None` too where something was left before the cycle: then most
/// often it does not fit, and no row is looked at twice.
fn all_fitting(ranked: &Ranked, w: u32, state: &PlanState) -> Option<Taken>
    requires cycle { state.now.cycle < cycles_end }
    requires valid { IsValid ranked.now.placed state.now.cycle state.now.pending }
    ensures fitting { let plan = planning_of ranked.now w state.now.cycle state.now.pending in
        IfSome result
        (λ all. IsAllFitting plan state.now.cycle (has_bit state.now.pending) all.mask all.width) }
{
    let rows = ranked.rows();
    let mut mask = Mask::empty();
    if state.pending != mask {
        return None;
    }
    let mut width = 0;
    for row in rows {
        if let Some(due) = due_of(ranked.policy(), row, state) {
            if w - width < due.cost {
                return None;
            }
            width += due.cost;
            mask = mask.with(due.slot);
        }
    }
    mask.known();
    Some(Taken { mask, width })
}

/// The instances that are pending in the cycle of the state, in key order.
fn line_of<const ROOM: usize>(ranked: &Ranked, w: u32, state: &PlanState) -> SlotLine<ROOM>
    requires cycle { state.now.cycle < cycles_end }
    requires valid { IsValid ranked.now.placed state.now.cycle state.now.pending }
    requires room { ROOM < most_slots → length ranked.now.placed ≤ ROOM }
    ensures line { IsWholeLine (planning_of ranked.now w state.now.cycle state.now.pending) state.now.cycle
        (has_bit state.now.pending) result }
{
    let rows = ranked.rows();
    let mut line = SlotLine::<ROOM>::new();
    for row in rows {
        if let Some(due) = due_of(ranked.policy(), row, state) {
            line.put(due);
        }
    }
    line
}

/// Plans a line of instances in a cycle, within a window of `w` bit times.
fn plan_line(line: &[Due], fill: Fill, w: u32, cycle: u64) -> Result<PlannedCycle, Miss>
    requires known { All (λ due. due.slot < most_slots) line.now }
    requires cycle { cycle < cycles_end }
    ensures planned { IfOk result (λ r. IsLineTaken fill w line.now cycle r.mask r.width r.next.pending) }
    ensures next_cycle { IfOk result (λ r. r.next.cycle ≡ cycle + 1) }
    ensures missed { IfErr result (λ miss. IsLeastMissed cycle (left_of fill w line.now) (Some miss)) }
{
    match fill {
        Fill::Prefix => plan_front(line, w, cycle),
        Fill::Skip => plan_each(line, w, cycle),
    }
}

/// What a filling takes of a line of instances in key order, within a window of `w` bit times: at most `w` together.
pub fn plan_of_line(line: &[Due], fill: Fill, w: u32) -> Taken
    requires known { All (λ due. due.slot < most_slots) line.now }
    ensures planned { IsSetOf result.mask (taken_of fill w line.now) }
    ensures width { result.width ≡ sum_by (λ due. due.cost) (taken_of fill w line.now) }
    ensures fits { result.width ≤ w }
{
    match fill {
        Fill::Prefix => plan_of_front(line, w),
        Fill::Skip => plan_of_each(line, w),
    }
}

/// What the filling `Prefix` takes of a line.
fn plan_of_front(line: &[Due], w: u32) -> Taken
    requires known { All (λ due. due.slot < most_slots) line.now }
    ensures planned { IsSetOf result.mask (taken_of Prefix w line.now) }
    ensures width { result.width ≡ sum_by (λ due. due.cost) (taken_of Prefix w line.now) }
    ensures fits { result.width ≤ w }
{
    let front = front_of(line, w);
    Taken {
        mask: front.mask,
        width: front.width,
    }
}

/// What the filling `Skip` takes of a line.
fn plan_of_each(line: &[Due], w: u32) -> Taken
    requires known { All (λ due. due.slot < most_slots) line.now }
    ensures planned { IsSetOf result.mask (taken_of Skip w line.now) }
    ensures width { result.width ≡ sum_by (λ due. due.cost) (taken_of Skip w line.now) }
    ensures fits { result.width ≤ w }
{
    let each = each_of(line, w, 0);
    Taken {
        mask: each.mask,
        width: each.width,
    }
}

/// Plans a line of instances with the filling `Prefix`: its first ones, as many as fit the window together.
fn plan_front(line: &[Due], w: u32, cycle: u64) -> Result<PlannedCycle, Miss>
    requires known { All (λ due. due.slot < most_slots) line.now }
    requires cycle { cycle < cycles_end }
    ensures planned { IfOk result (λ r. IsLineTaken Prefix w line.now cycle r.mask r.width r.next.pending) }
    ensures next_cycle { IfOk result (λ r. r.next.cycle ≡ cycle + 1) }
    ensures missed { IfErr result (λ miss. IsLeastMissed cycle (left_of Prefix w line.now) (Some miss)) }
{
    let front = front_of(line, w);
    let (_, left) = line.split_at(front.count);
    match missed(left, cycle) {
        Some(miss) => Err(miss),
        None => Ok(PlannedCycle {
            mask: front.mask,
            width: front.width,
            next: PlanState {
                cycle: cycle + 1,
                pending: slots_of(left),
            },
        }),
    }
}

/// Plans a line of instances with the filling `Skip`: each one that still fits.
fn plan_each(line: &[Due], w: u32, cycle: u64) -> Result<PlannedCycle, Miss>
    requires known { All (λ due. due.slot < most_slots) line.now }
    requires cycle { cycle < cycles_end }
    ensures planned { IfOk result (λ r. IsLineTaken Skip w line.now cycle r.mask r.width r.next.pending) }
    ensures next_cycle { IfOk result (λ r. r.next.cycle ≡ cycle + 1) }
    ensures missed { IfErr result (λ miss. IsLeastMissed cycle (left_of Skip w line.now) (Some miss)) }
{
    let each = each_of(line, w, cycle);
    match each.least {
        Some(miss) => Err(miss),
        None => Ok(PlannedCycle {
            mask: each.mask,
            width: each.width,
            next: PlanState {
                cycle: cycle + 1,
                pending: each.left,
            },
        }),
    }
}

/// The first instances of a line, as many as fit a window together.
#[derive(Drop)]
struct LineFront {
    /// How many there are.
    count: usize,
    /// What they cost together, in bit times.
    width: u32,
    /// Their slots.
    mask: Mask,
}

/// The first instances of a line, as many as fit a window of `w` bit times together.
fn front_of(line: &[Due], w: u32) -> LineFront
    requires known { All (λ due. due.slot < most_slots) line.now }
    ensures longest { IsLongestFit w line.now result.count }
    ensures width { result.width ≡ sum_by (λ due. due.cost) (take result.count line.now) }
    ensures slots { (slot : ℕ)
        → has_bit result.mask slot ≡ list_any (λ due. nat_eq due.slot slot) (take result.count line.now) }
    ensures below { result.mask < 2 ^ most_slots }
{
    let mut width = 0;
    let mut mask = Mask::empty();
    for (place, due) in line.iter().enumerate() {
        if due.cost > w - width {
            mask.known();
            return LineFront {
                count: place,
                width,
                mask,
            };
        }
        width += due.cost;
        mask = mask.with(due.slot);
    }
    mask.known();
    LineFront {
        count: line.len(),
        width,
        mask,
    }
}

/// What the filling `Skip` takes of a line, and what it leaves.
#[derive(Drop)]
struct Each {
    /// The slots of the instances that are taken.
    mask: Mask,
    /// What these cost together, in bit times.
    width: u32,
    /// The slots of those that are left.
    left: Mask,
    /// Of those that are left in their last cycle, the one of the least slot.
    least: Option<Miss>,
}

/// The instances of a line in a cycle that the filling `Skip` takes, within a window of `w` bit times, and those that it
/// leaves.
fn each_of(line: &[Due], w: u32, cycle: u64) -> Each
    requires known { All (λ due. due.slot < most_slots) line.now }
    ensures width { result.width ≡ sum_by (λ due. due.cost) (taken_of Skip w line.now) }
    ensures fits { result.width ≤ w }
    ensures taken { IsSetOf result.mask (taken_of Skip w line.now) }
    ensures left { IsSetOf result.left (left_of Skip w line.now) }
    ensures least { IsLeastMissed cycle (left_of Skip w line.now) result.least }
{
    let mut width = 0;
    let mut mask = Mask::empty();
    let mut left = Mask::empty();
    let mut least = None;
    for due in line {
        if due.cost <= w - width {
            width += due.cost;
            mask = mask.with(due.slot);
        } else {
            left = left.with(due.slot);
            least = with_missed(least, due, cycle);
        }
    }
    mask.known();
    left.known();
    Each {
        mask,
        width,
        left,
        least,
    }
}

/// Of a miss, where there is one, and that of an instance where this is its last cycle, the one of the lesser slot.
fn with_missed(least: Option<Miss>, due: &Due, cycle: u64) -> Option<Miss>
    ensures result { result ≡ with_missed cycle least due.now }
{
    if due.last == cycle {
        Some(lesser(least, due))
    } else {
        least
    }
}

/// The slots of instances.
fn slots_of(line: &[Due]) -> Mask
    requires known { All (λ due. due.slot < most_slots) line.now }
    ensures slots { (slot : ℕ) → has_bit result slot ≡ list_any (λ due. nat_eq due.slot slot) line.now }
    ensures below { result < 2 ^ most_slots }
{
    let mut slots = Mask::empty();
    for due in line {
        slots = slots.with(due.slot);
    }
    slots.known();
    slots
}

/// Of the instances whose last cycle this is, the one of the least slot.
fn missed(line: &[Due], cycle: u64) -> Option<Miss>
    ensures least { IsLeastMissed cycle line.now result }
{
    let mut least = None;
    for due in line {
        if due.last == cycle {
            least = Some(lesser(least, due));
        }
    }
    least
}

/// Of a miss, where there is one, and that of an instance in its last cycle, the one of the lesser slot.
fn lesser(least: Option<Miss>, due: &Due) -> Miss
    ensures lesser { result ≡ lesser_miss least due.now }
{
    match least {
        Some(miss) if miss.slot < due.slot => miss,
        _ => Miss {
            slot: due.slot,
            release: due.release,
            cycle: due.last,
        },
    }
}
