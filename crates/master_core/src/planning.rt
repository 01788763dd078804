//! The plan of the next cycle.

ghost use Rattle.std.specs.Prelude.{◌≡◌, ◌+◌, ◌<◌};
ghost use Rattle.profile.specs.Limits.{cycles_end};
ghost use Rattle.bit_sets.specs.Sets.{has_bit, set_of, most_slots};
ghost use Rattle.requirement_table.specs.Table.{width_in};
ghost use Rattle.planner_policies.specs.Plan.{HasNoMissIn, IsValid, left_after, planned_in, planning_of};

use planner_policies::{PlanState, PlannedCycle, Ranked, plan_with_width};

/// Plans the cycle of the state, in which no deadline is missed, within a window of `window` bit times.
pub fn plan_next(ranked: &Ranked, window: u32, state: &PlanState) -> PlannedCycle
    requires cycle { state.now.cycle < cycles_end }
    requires valid { IsValid ranked.now.placed state.now.cycle state.now.pending }
    requires in_time { let plan = planning_of ranked.now window state.now.cycle state.now.pending in
        HasNoMissIn plan state.now.cycle (has_bit state.now.pending) }
    ensures mask { let plan = planning_of ranked.now window state.now.cycle state.now.pending in
        result.mask ≡ set_of most_slots (planned_in plan state.now.cycle (has_bit state.now.pending)) }
    ensures width { let plan = planning_of ranked.now window state.now.cycle state.now.pending in
        result.width ≡ width_in ranked.now.placed state.now.cycle
        (planned_in plan state.now.cycle (has_bit state.now.pending)) }
    ensures cycle { result.next.cycle ≡ state.now.cycle + 1 }
    ensures pending { let plan = planning_of ranked.now window state.now.cycle state.now.pending in
        result.next.pending ≡ set_of most_slots (left_after plan state.now.cycle (has_bit state.now.pending)) }
{
    match plan_with_width(ranked, window, state) {
        Ok(planned) => planned,
        Err(_) => unreachable!(),
    }
}
