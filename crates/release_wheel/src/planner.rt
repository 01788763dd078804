//! A planning that goes from cycle to cycle.

ghost use Rattle.std.specs.Prelude.{◌≡◌, ℕ, ◌+◌, ◌<◌, ◌≤◌, IfOk, IfErr, OnOk, OnErr};
ghost use Rattle.profile.specs.Limits.{cycles_end};
ghost use Rattle.bit_sets.specs.Sets.{has_bit, set_of, most_slots};
ghost use Rattle.requirement_table.specs.Table.{IsWellPlaced, not_over, width_in};
ghost use Rattle.planner_policies.specs.Plan.{HasNoMissIn, IsMissIn, IsValid, going_from, left_after, planned_in};
ghost use Rattle.planner_policies.specs.Plan.{planning_of};
ghost use Rattle.release_wheel.specs.Passed.{IsPassed};

use crate::near::{Near, go_to, near_of, pass_near, step_near};
use crate::wheel::{Wheel, wheel_of};
use bit_sets::rows::MOST_ROWS;
use planner_policies::{Miss, PlanState, Ranked};
use requirement_table::Mask;
use requirement_table::laws::entries_that_are_over;
use std::alloc::{AllocError, Global};
use std::marker::Model;

/// What is planned in a cycle.
#[derive(Clone, Copy, PartialEq, Eq, Debug)]
pub struct CyclePlan {
    /// The slots that are planned.
    pub mask: Mask,
    /// What they cost together, in bit times: the length of the synchronous window.
    pub width: u32,
}

/// A planning that goes from cycle to cycle: entries in key order, and the state before a cycle, which is valid.
/// Contracts see the ranking, the cycle and the pending slots.
#[derive(Drop, Debug)]
pub struct Planner {
    pub(crate) ranked: Ranked,
    /// The entries that begin soon, where there are more than the wheel has room for.
    pub(crate) near: Option<Near>,
    pub(crate) wheel: Wheel,
}

impl Model for Planner {
    ghost use Rattle.planner_policies.specs.Plan.{Standing};
    ghost use Rattle.release_wheel.specs.Near.{IsStanding};

    ghost Value = { Standing };

    ghost view = { λ p. record { ranking = p.ranked; cycle = p.wheel.cycle; pending = p.wheel.dues.waiting.slots } };

    ghost invariant = { λ p. IsStanding p.ranked p.near p.wheel };
}

impl Planner {
    /// The planning of these entries from a valid state on. All memory that it needs is taken here.
    pub fn new(alloc: Global, ranked: Ranked, state: &PlanState) -> Result<Planner, AllocError>
        requires cycle { state.now.cycle < cycles_end }
        requires valid { IsValid ranked.placed state.now.cycle state.now.pending }
        ensures standing { IfOk result (λ planner. planner
            ≡ record { ranking = ranked; cycle = state.now.cycle; pending = state.now.pending }) }
    {
        let near = near_of(alloc, &ranked)?;
        let wheel = wheel_of(alloc, &ranked, state)?;
        Ok(Planner {
            ranked,
            near,
            wheel,
        })
    }

    /// The state before the cycle that is planned next.
    pub fn state(&self) -> PlanState
        ensures cycle { result.cycle ≡ self.now.cycle }
        ensures pending { result.pending ≡ self.now.pending }
        ensures valid { IsValid self.now.ranking.placed self.now.cycle self.now.pending }
    {
        PlanState {
            cycle: self.wheel.cycle,
            pending: self.wheel.dues.waiting.slots,
        }
    }

    /// The entries that are planned.
    pub fn ranked(&self) -> &Ranked
        ensures ranking { result.now ≡ self.now.ranking }
        ensures well_placed { IsWellPlaced self.now.ranking.placed }
    {
        self.ranked.placed();
        &self.ranked
    }

    /// Plans the next cycle within a window of `w` bit times, as `plan_with_width` does, and goes on to that after it.
    ///
    /// # Errors
    ///
    /// Those of `plan_with_width`. The planner is then as it was.
    pub fn step(&mut self, w: u32) -> Result<CyclePlan, Miss>
        requires cycle { self.old.cycle < cycles_end }
        ensures planned { let plan = going_from self.old w in
            IfOk result
            (λ r. r.mask ≡ set_of most_slots (planned_in plan self.old.cycle (has_bit self.old.pending))) }
        ensures width { let plan = going_from self.old w in
            IfOk result (λ r. r.width ≡ width_in plan.placed self.old.cycle
            (planned_in plan self.old.cycle (has_bit self.old.pending))) }
        ensures fits { IfOk result (λ r. r.width ≤ w) }
        ensures next { let plan = going_from self.old w in
            OnOk result (self.new ≡ record {
              ranking = self.old.ranking;
              cycle = self.old.cycle + 1;
              pending = set_of most_slots (left_after plan self.old.cycle (has_bit self.old.pending));
            }) }
        ensures next_valid { IsValid self.new.ranking.placed self.new.cycle self.new.pending }
        ensures none_missed { let plan = going_from self.old w in
            IfOk result (λ _. HasNoMissIn plan self.old.cycle (has_bit self.old.pending)) }
        ensures missed { let plan = going_from self.old w in
            IfErr result
            (λ miss. IsMissIn plan self.old.cycle (has_bit self.old.pending) miss.slot miss.release) }
        ensures missed_cycle { IfErr result (λ miss. miss.cycle ≡ self.old.cycle) }
        ensures same { OnErr result (self.new ≡ self.old) }
    {
        step_near(&mut self.near, &mut self.wheel, &self.ranked, w)
    }

    /// Passes cycles in which nothing is pending, from the one that is planned next on: as many of them as are known,
    /// which may be none. So many steps within any window would lead there too.
    pub fn pass(&mut self)
        ensures standing { self.new ≡ record self.old { cycle = self.new.cycle } }
        ensures onward { self.old.cycle ≤ self.new.cycle }
        ensures valid { (c : ℕ) → self.old.cycle ≤ c → c ≤ self.new.cycle
            → IsValid self.old.ranking.placed c self.old.pending }
        ensures passed { (window c : ℕ) → self.old.cycle ≤ c → c < self.new.cycle
            → IsPassed (planning_of self.old.ranking window c self.old.pending) }
    {
        pass_near(&self.near, &mut self.wheel, &self.ranked);
    }

    /// Goes to another valid state of the same entries, without memory.
    pub fn seek(&mut self, state: &PlanState)
        requires cycle { state.now.cycle < cycles_end }
        requires valid { IsValid self.old.ranking.placed state.now.cycle state.now.pending }
        ensures standing { self.new ≡ record {
          ranking = self.old.ranking;
          cycle = state.now.cycle;
          pending = state.now.pending;
        } }
    {
        go_to(&mut self.near, &mut self.wheel, &self.ranked, state);
    }

    /// Drops the entries that are over by `cycle`, in place and without memory. That cycle is not after the one that is
    /// planned next.
    pub fn drop_over(&mut self, cycle: u64)
        requires past { cycle ≤ self.old.cycle }
        ensures standing { self.new ≡ record self.old {
          ranking = record self.old.ranking { placed = not_over cycle self.old.ranking.placed };
        } }
    {
        entries_that_are_over();
        self.ranked.placed();
        self.ranked.drop_over(cycle);
        let state = PlanState {
            cycle: self.wheel.cycle,
            pending: self.wheel.dues.waiting.slots,
        };
        if self.ranked.rows().len() <= MOST_ROWS {
            self.near = None;
        }
        go_to(&mut self.near, &mut self.wheel, &self.ranked, &state);
    }
}
