//! What the steps of a file ask of each operator, and what a history has of it.

ghost use Rattle.std.specs.Prelude.{◌≡◌, ◌≤◌, IfSome, Some, count_by, drop, is_some, length, option_map};
ghost use Rattle.std.specs.Prelude.{slice_get, sum_by, true};
ghost use Rattle.steps_file.specs.StepsFile.{AreLegalSteps, count_of};
ghost use Rattle.live_master.specs.Callers.{is_called_by};
ghost use Rattle.steps_file.specs.declared.steps.Step.{Step};
ghost use Rattle.live_steps.specs.Live.{act_of, acts_of};
ghost use Rattle.trace_audit.specs.Ahead.{act_in};

use change_protocol::Act;
use master_core::Event;
use steps_file::Step;

/// How many cycles all counts together ask for.
pub fn cycles_of(steps: &[Step]) -> u64
    requires steps { AreLegalSteps steps.now }
    ensures sum { result ≡ sum_by count_of steps.now }
{
    let mut cycles = 0;
    for step in steps {
        cycles += count_of(step);
    }
    cycles
}

/// How many cycles a step asks for.
fn count_of(step: &Step) -> u64
    ensures count { result ≡ count_of step.now }
{
    match step {
        Step::Cycle { count } => *count,
        Step::Act { .. } => 0,
    }
}

/// Whether an event is a change or a look of this operator.
fn is_called_by(event: &Event, operator: u8) -> bool
    ensures called { result ≡ is_called_by operator event.now }
{
    match event {
        Event::Submit { caller, .. } => *caller == operator,
        Event::Look { caller, .. } => *caller == operator,
        Event::Open { .. } => false,
    }
}

/// How many changes and looks of this operator a history has.
pub fn calls_of(history: &[Event], operator: u8) -> usize
    ensures count { result ≡ count_by (is_called_by operator) history.now }
{
    let mut calls = 0;
    for event in history {
        calls += usize::from(is_called_by(event, operator));
    }
    calls
}

/// What a step asks of this operator, if anything.
fn act_of(step: &Step, operator: u8) -> Option<&Act>
    ensures act { option_map (λ act. act.now) result ≡ act_of operator step.now }
{
    match step {
        Step::Cycle { .. } => None,
        Step::Act { caller, act } => { if *caller == operator { Some(act) } else { None } }
    }
}

/// What the step at a place asks of this operator, if anything; nothing behind all steps.
pub fn act_at(steps: &[Step], operator: u8, place: usize) -> Option<&Act>
    requires steps { AreLegalSteps steps.now }
    ensures act { option_map (λ act. act.now) result ≡ act_in operator steps.now place }
    ensures some { IfSome result (λ act. 1 ≤ operator) }
    ensures few { IfSome result (λ act. operator ≤ 8) }
{
    match steps.get(place) {
        Some(step) => act_of(step, operator),
        None => None,
    }
}

/// The place of the first step from a place on that asks something of this operator; one behind all steps, where none
/// does.
pub fn place_of_act(steps: &[Step], operator: u8, from: usize) -> usize
    ensures acts { acts_of operator (drop result steps.now) ≡ acts_of operator (drop from steps.now) }
    ensures first { (step : Step) → slice_get steps.now result ≡ Some step → is_some (act_of operator step) ≡ true }
{
    let mut place = from;
    while place < steps.len() && act_of(&steps[place], operator).is_none() {
        place += 1;
    }
    place
}

/// How many acts the steps have of this operator.
pub fn acts_of(steps: &[Step], operator: u8) -> usize
    ensures count { result ≡ length (acts_of operator steps.now) }
{
    let mut acts = 0;
    for step in steps {
        acts += usize::from(act_of(step, operator).is_some());
    }
    acts
}
