//! What a run has before it in the steps of a file.

ghost use Rattle.std.specs.Prelude.{◌≡◌, ◌++◌, ◌∷◌, ◌==◌, [], ℕ, List, count_by, is_some, slice_get, true};
ghost use Rattle.steps_file.specs.StepsFile.{AreLegalSteps};
ghost use Rattle.master_core.specs.declared.event.Event.{Event};
ghost use Rattle.live_master.specs.Callers.{is_called_by};
ghost use Rattle.live_steps.specs.Live.{acts_of};
ghost use Rattle.trace_audit.specs.Ahead.{AreStepsAhead, act_in};

use crate::step_acts::{cycles_of, place_of_act};
use steps_file::Step;

/// What a run has before it in the steps of a file. It is carried along from event to event, so that no event has to
/// count those before it.
#[derive(Drop)]
pub struct StepsAhead {
    /// How many cycles all counts together ask for.
    pub cycles: u64,
    /// For each operator, 1 to 8, at its number: how many first steps have no act of it that is still to come.
    pub places: [usize; 9],
}

impl StepsAhead {
    /// What a run of no events yet has before it: all steps.
    pub fn of(steps: &[Step]) -> StepsAhead
        requires steps { AreLegalSteps steps.now }
        ensures ahead { AreStepsAhead steps.now [] result }
    {
        StepsAhead {
            cycles: cycles_of(steps),
            places: [0; 9],
        }
    }

    /// Takes the next act of this operator: the place of its step, or one behind all steps where no step is left that
    /// asks something of it.
    pub fn take(&mut self, steps: &[Step], operator: u8) -> usize
        requires steps { AreLegalSteps steps.now }
        ensures act { (history : List Event) → AreStepsAhead steps.now history self.old
            → act_in operator steps.now result
            ≡ slice_get (acts_of operator steps.now) (count_by (is_called_by operator) history) }
        ensures ahead { (history : List Event) (event : Event) → AreStepsAhead steps.now history self.old
            → is_some (act_in operator steps.now result) ≡ true
            → ((caller : ℕ) → is_called_by caller event ≡ (operator == caller))
            → AreStepsAhead steps.now (history ++ event ∷ []) self.new }
    {
        let number = usize::from(operator);
        if number >= self.places.len() {
            return steps.len();
        }
        let place = place_of_act(steps, operator, self.places[number]);
        if place < steps.len() {
            self.places[number] = place + 1;
        }
        place
    }
}
