//! A planning that goes ahead of a planner.

ghost use Rattle.std.specs.Prelude.{◌≡◌, ℕ, ◌+◌, ◌<◌, ◌≤◌, IfOk, IfErr, OnOk, OnErr};
ghost use Rattle.profile.specs.Limits.{cycles_end};
ghost use Rattle.bit_sets.specs.Sets.{has_bit, set_of, most_slots};
ghost use Rattle.requirement_table.specs.Table.{IsWellPlaced, width_in};
ghost use Rattle.planner_policies.specs.Plan.{HasNoMissIn, IsMissIn, IsValid, going_from, left_after, planned_in};
ghost use Rattle.planner_policies.specs.Plan.{planning_of};
ghost use Rattle.release_wheel.specs.Demand.{demand_in};
ghost use Rattle.release_wheel.specs.Passed.{IsPassed, LeavesSame};

use crate::copying::{copy_of, without_rows};
use crate::demand::pass_fitting;
use crate::near::{Near, go_to, near_of, pass_near, step_near};
use crate::planner::{CyclePlan, Planner};
use crate::wheel::{Wheel, wheel_of};
use planner_policies::{Miss, PlanState, Ranked};
use std::alloc::{AllocError, Global};
use std::marker::Model;

/// A planning over the entries of a planner, with a state of its own. The planner stays where it is. Contracts see what
/// they see of a planner.
#[derive(Drop, Debug)]
pub struct Ahead<'a> {
    ranked: &'a Ranked,
    near: Option<Near>,
    wheel: Wheel,
}

impl<'a> Model for Ahead<'a> {
    ghost use Rattle.planner_policies.specs.Plan.{Standing};
    ghost use Rattle.release_wheel.specs.Near.{IsStanding};

    ghost Value = { Standing };

    ghost view = { λ a. record { ranking = a.ranked.now; cycle = a.wheel.cycle; pending = a.wheel.dues.waiting.slots } };

    ghost invariant = { λ a. IsStanding a.ranked.now a.near a.wheel };
}

impl Planner {
    /// A planning over the same entries from the same state on, which does not copy the entries.
    pub fn ahead(&self, alloc: Global) -> Result<Ahead<'_>, AllocError>
        requires cycle { self.now.cycle < cycles_end }
        ensures same { IfOk result (λ ahead. ahead ≡ self.now) }
    {
        match &self.near {
            None => Ok(Ahead {
                ranked: &self.ranked,
                near: None,
                wheel: copy_of(alloc, &self.wheel)?,
            }),
            Some(_) => Ok(Ahead {
                ranked: &self.ranked,
                near: near_of(alloc, &self.ranked)?,
                wheel: wheel_of(alloc, &self.ranked, &self.state())?,
            }),
        }
    }

    /// Does what `ahead` does, without memory, for a planning that passes its cycles. A cycle that it plans takes time for
    /// all entries.
    pub fn ahead_to_pass(&self, alloc: Global) -> Ahead<'_>
        ensures same { result ≡ self.now }
    {
        Ahead {
            ranked: &self.ranked,
            near: None,
            wheel: without_rows(alloc, &self.wheel),
        }
    }
}

impl<'a> Ahead<'a> {
    /// The state before the cycle that is planned next.
    pub fn state(&self) -> PlanState
        ensures cycle { result.cycle ≡ self.now.cycle }
        ensures pending { result.pending ≡ self.now.pending }
        ensures valid { IsValid self.now.ranking.placed self.now.cycle self.now.pending }
    {
        PlanState {
            cycle: self.wheel.cycle,
            pending: self.wheel.dues.waiting.slots,
        }
    }

    /// The entries that are planned.
    pub fn ranked(&self) -> &Ranked
        ensures ranking { result.now ≡ self.now.ranking }
        ensures well_placed { IsWellPlaced self.now.ranking.placed }
    {
        self.ranked.placed();
        self.ranked
    }

    /// Plans the next cycle as `Planner::step` does.
    ///
    /// # Errors
    ///
    /// Those of `Planner::step`.
    pub fn step(&mut self, w: u32) -> Result<CyclePlan, Miss>
        requires cycle { self.old.cycle < cycles_end }
        ensures planned { let plan = going_from self.old w in
            IfOk result
            (λ r. r.mask ≡ set_of most_slots (planned_in plan self.old.cycle (has_bit self.old.pending))) }
        ensures width { let plan = going_from self.old w in
            IfOk result (λ r. r.width ≡ width_in plan.placed self.old.cycle
            (planned_in plan self.old.cycle (has_bit self.old.pending))) }
        ensures fits { IfOk result (λ r. r.width ≤ w) }
        ensures next { let plan = going_from self.old w in
            OnOk result (self.new ≡ record {
              ranking = self.old.ranking;
              cycle = self.old.cycle + 1;
              pending = set_of most_slots (left_after plan self.old.cycle (has_bit self.old.pending));
            }) }
        ensures next_valid { IsValid self.new.ranking.placed self.new.cycle self.new.pending }
        ensures none_missed { let plan = going_from self.old w in
            IfOk result (λ _. HasNoMissIn plan self.old.cycle (has_bit self.old.pending)) }
        ensures missed { let plan = going_from self.old w in
            IfErr result
            (λ miss. IsMissIn plan self.old.cycle (has_bit self.old.pending) miss.slot miss.release) }
        ensures missed_cycle { IfErr result (λ miss. miss.cycle ≡ self.old.cycle) }
        ensures same { OnErr result (self.new ≡ self.old) }
    {
        step_near(&mut self.near, &mut self.wheel, self.ranked, w)
    }

    /// Passes cycles in which nothing is pending as `Planner::pass` does.
    pub fn pass(&mut self)
        ensures standing { self.new ≡ record self.old { cycle = self.new.cycle } }
        ensures onward { self.old.cycle ≤ self.new.cycle }
        ensures valid { (c : ℕ) → self.old.cycle ≤ c → c ≤ self.new.cycle
            → IsValid self.old.ranking.placed c self.old.pending }
        ensures passed { (window c : ℕ) → self.old.cycle ≤ c → c < self.new.cycle
            → IsPassed (planning_of self.old.ranking window c self.old.pending) }
    {
        pass_near(&self.near, &mut self.wheel, self.ranked);
    }

    /// Passes cycles after which the same slots are pending, within a window of `w` bit times, from the one that is planned
    /// next on: as many of them as are known, which may be none. So many steps would lead there too.
    ///
    /// In each cycle before `until` what is released fits the window. Where nothing is pending it is then planned at once,
    /// so all these cycles may be passed. In other states those may be passed that `pass` passes.
    pub fn pass_fitting(&mut self, w: u32, until: u64)
        requires until { until ≤ cycles_end }
        requires fits { (c : ℕ) → self.old.cycle ≤ c → c < until → demand_in self.old.ranking.placed c ≤ w }
        ensures standing { self.new ≡ record self.old { cycle = self.new.cycle } }
        ensures onward { self.old.cycle ≤ self.new.cycle }
        ensures valid { (c : ℕ) → self.old.cycle ≤ c → c ≤ self.new.cycle
            → IsValid self.old.ranking.placed c self.old.pending }
        ensures passed { (c : ℕ) → self.old.cycle ≤ c → c < self.new.cycle
            → LeavesSame (planning_of self.old.ranking w c self.old.pending) }
    {
        if until <= self.wheel.cycle || self.wheel.dues.waiting.slots.bits() != 0 {
            self.pass();
            return;
        }
        pass_fitting(&mut self.near, &mut self.wheel, self.ranked, w, until);
    }

    /// Goes to another valid state of the same entries, without memory.
    pub fn seek(&mut self, state: &PlanState)
        requires cycle { state.now.cycle < cycles_end }
        requires valid { IsValid self.old.ranking.placed state.now.cycle state.now.pending }
        ensures standing { self.new ≡ record {
          ranking = self.old.ranking;
          cycle = state.now.cycle;
          pending = state.now.pending;
        } }
    {
        go_to(&mut self.near, &mut self.wheel, self.ranked, state);
    }
}
