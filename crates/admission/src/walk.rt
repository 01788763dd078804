//! The planning of a list as a walk from state to state.

ghost use Rattle.std.specs.Prelude.{◌≡◌, ◌+◌, ◌^◌, ◌<◌, ◌≤◌, ℕ, IfOk, IfSome, Some, true};
ghost use Rattle.profile.specs.Limits.{cycles_end, openings_end};
ghost use Rattle.bit_sets.specs.Sets.{has_bit};
ghost use Rattle.admission.specs.Course.{is_held_from};
ghost use Rattle.admission.specs.WalkLaws.{GoesOnAlike};
ghost use Rattle.admission.specs.Walked.{AreKeys};
ghost use Rattle.recurrence_check.specs.Keys.{row_places};
ghost use Rattle.release_wheel.specs.Demand.{demand_in};

use planner_policies::PlanState;
use recurrence_check::{Keyed, PLACES, Stretch, Walk};
use release_wheel::{Ahead, Planner};
use std::alloc::{AllocError, Global};

/// The planning of a list of placed entries. It goes on as long as no deadline is missed.
#[derive(Drop)]
pub struct PlanWalk<'a> {
    /// A planner of the entries that stands in the first state, and stays there.
    pub start: &'a Planner,
    /// The length of the largest synchronous window, in bit times.
    pub window: u32,
    /// The first state.
    pub first: PlanState,
    /// The first cycle by which all entries have settled.
    pub bound: u64,
    /// The least common multiple of the periods of the live entries, where it is at most the horizon.
    pub period: Option<u64>,
    /// The cycle before which, from the first one on, what is released in each cycle fits the window.
    pub fits_until: u64,
    ghost cycle: { start.now.cycle ≡ first.cycle },
    ghost pending: { start.now.pending ≡ first.pending },
    ghost near: { first.cycle ≤ openings_end },
    ghost held: { (slot : ℕ) → has_bit first.pending slot ≡ true
        → is_held_from start.now.ranking.placed first.cycle slot ≡ true },
    ghost positive: { (length : ℕ) → period ≡ Some length → 0 < length },
    ghost goes_on: { GoesOnAlike start.now.ranking window bound period },
    ghost fits: { (c : ℕ) → first.cycle ≤ c → c < fits_until → demand_in start.now.ranking.placed c ≤ window },
    ghost fits_end: { fits_until ≤ cycles_end },
}

/// A place on the walk over a planning: a state, and a planning that stands there or at a later cycle. Up to that cycle
/// the same slots are pending, so the states until then differ by their cycles alone.
#[derive(Drop)]
pub struct PlanPlace<'a> {
    /// The state.
    pub state: PlanState,
    /// The planning.
    pub planner: Ahead<'a>,
}

impl<'a> Walk for PlanWalk<'a> {
    type State = PlanState;

    type Here = PlanPlace<'a>;

    ghost use Rattle.std.proofs.Common.{◌-◌};
    ghost use Rattle.admission.specs.Course.{IsGoodState, course_of};
    ghost use Rattle.admission.specs.Walked.{IsOn};
    ghost use Rattle.admission.specs.WalkLaws.{kept, same-symmetric, same-transitive};

    ghost course = { λ walk. course_of walk.start.now.ranking walk.window walk.first walk.bound walk.period };

    ghost is_good = { λ walk state. IsGoodState walk.start.now.ranking walk.first.cycle state };

    ghost number = { λ walk state. state.cycle - walk.first.cycle };

    ghost state_of = { λ here. here.state };

    ghost is_on = { λ walk here. IsOn walk.start.now.ranking walk.window here.planner here.state };

    fn begin(&self, alloc: Global) -> Result<PlanPlace<'a>, AllocError> {
        let mut planner = self.walker(alloc)?;
        planner.pass_fitting(self.window, self.fits_until);
        Ok(PlanPlace {
            state: self.first,
            planner,
        })
    }

    fn state(&self, here: &PlanPlace<'a>) -> PlanState {
        here.state
    }

    fn step(&self, here: &mut PlanPlace<'a>) -> Option<PlanState> {
        if here.state.cycle < here.planner.state().cycle {
            here.state.cycle += 1;
            return Some(here.state);
        }
        match here.planner.step(self.window) {
            Ok(_) => {
                here.state = here.planner.state();
                here.planner.pass_fitting(self.window, self.fits_until);
                Some(here.state)
            }
            Err(_) => None,
        }
    }

    fn same(&self, one: &PlanState, other: &PlanState) -> bool {
        match self.period {
            None => false,
            Some(period) => {
                self.bound <= one.cycle
                    && self.bound <= other.cycle
                    && one.cycle % period == other.cycle % period
                    && one.pending == other.pending
            }
        }
    }

    ghost symmetric = { λ walk one other same. same-symmetric walk.bound walk.period one other same };

    ghost transitive = { λ walk one other third first second.
        same-transitive walk.bound walk.period one other third first second };

    ghost kept = { λ walk one other _ _ _ _ same.
        kept walk.start.now.ranking walk.window walk.bound walk.period walk.goes_on one other same };
}

impl<'a> PlanWalk<'a> {
    /// The planning of the entries from the first state on. It takes all the memory that it needs.
    pub fn planner(&self, alloc: Global) -> Result<Ahead<'a>, AllocError>
        ensures standing { IfOk result (λ planner. planner ≡ record {
          ranking = self.now.start.now.ranking;
          cycle = self.now.first.cycle;
          pending = self.now.first.pending;
        }) }
    {
        self.start.ahead(alloc)
    }

    /// Does what `planner` does. Where the walk passes all cycles it takes no memory.
    fn walker(&self, alloc: Global) -> Result<Ahead<'a>, AllocError>
        ensures standing { IfOk result (λ planner. planner ≡ record {
          ranking = self.now.start.now.ranking;
          cycle = self.now.first.cycle;
          pending = self.now.first.pending;
        }) }
    {
        if self.first.cycle < self.fits_until && self.first.pending.bits() == 0 {
            return Ok(self.start.ahead_to_pass(alloc));
        }
        self.planner(alloc)
    }

    /// As many states behind a state as have no key, or keys whose places go up. Before all of them the same slots are
    /// pending. So they end before the bound, or with the period.
    fn known_behind(&self, state: &PlanState) -> Stretch
        requires next { state.now.cycle + 1 < 2 ^ 64 }
        ensures keys { AreKeys self.now.bound self.now.period state.now result.steps result.key }
        ensures short { IfSome result.key (λ key. key.1 + result.steps ≤ row_places) }
    {
        let Some(period) = self.period else {
            return Stretch {
                steps: u64::MAX,
                key: None,
            };
        };
        let next = state.cycle + 1;
        if next < self.bound {
            return Stretch {
                steps: self.bound - next,
                key: None,
            };
        }
        let place = next % period;
        if place >= PLACES {
            return Stretch {
                steps: 0,
                key: None,
            };
        }
        Stretch {
            steps: period.min(PLACES) - place,
            key: Some((state.pending.bits(), place)),
        }
    }
}

impl<'a> Keyed for PlanWalk<'a> {
    ghost use Rattle.admission.specs.Course.{key_in_period};
    ghost use Rattle.admission.specs.WalkLaws.{keyed};

    ghost key_of = { λ walk state. key_in_period walk.bound walk.period state };

    /// The place is the cycle's place in the period. So the places of a walk are one more at each step, and a row of
    /// them grows at its end, where the walk begins a period.
    fn key(&self, state: &PlanState) -> Option<(u128, u64)> {
        let period = self.period?;
        let settled = self.bound <= state.cycle;
        settled.then_some((state.pending.bits(), state.cycle % period))
    }

    /// A walk that repeats comes to each place of the period.
    fn places(&self) -> u64 {
        self.period.unwrap_or(0)
    }

    fn pass(&self, here: &mut PlanPlace<'a>, most: u64) -> Stretch {
        let ahead = here.planner.state().cycle;
        if ahead <= here.state.cycle {
            return Stretch {
                steps: 0,
                key: None,
            };
        }
        let known = self.known_behind(&here.state);
        let steps = known.steps.min(most).min(ahead - here.state.cycle);
        here.state.cycle += steps;
        Stretch {
            steps,
            key: known.key,
        }
    }

    ghost keyed = { λ walk one other _ _ _ _. keyed walk.bound walk.period one other };
}
