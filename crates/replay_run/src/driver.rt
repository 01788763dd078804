//! One driver of steps: it takes the steps of a file one after the other, and makes their calls to what is driven.

ghost use Rattle.std.specs.Prelude.{◌≡◌, ℕ, ◌+◌, ◌<◌, ◌≤◌, ◌++◌, ◌∷◌, [], List, OnOk, IfErr, replicate};
ghost use Rattle.std.specs.List.{flat_map};
ghost use Rattle.profile.specs.Limits.{most_cycles};
ghost use Rattle.steps_file.specs.StepsFile.{AreLegalSteps, IsStep, count_of};
ghost use Rattle.master_core.specs.Calls.{Call, asked, opens};
ghost use Rattle.replay_run.specs.Run.{calls_of};

use change_protocol::Act;
use std::alloc::Global;
use steps_file::Step;

/// What answers the calls of steps, one after the other.
///
/// Its meaning is two relations between what it was before some calls and what it is after them: it has answered these
/// calls, in their order, each once; or it has stopped somewhere within them, for a reason.
pub trait Driven {
    /// Why it stops.
    type Stop: Drop;

    ghost is_ready: { Self → Type 0 };

    ghost cycles: { Self → ℕ };

    ghost goes_on: { Self → List Call → Self → Type 0 };

    ghost stops: { Self → List Call → Self → Self.Stop → Type 0 };

    /// Opens the next cycle. At most 20,000 cycles are opened.
    fn open_cycle(&mut self, alloc: Global) -> Result<(), Self::Stop>
        requires ready { is_ready self.old }
        requires few { cycles self.old < most_cycles }
        ensures goes_on { OnOk result (goes_on self.old (opens ∷ []) self.new) }
        ensures cycles { OnOk result (cycles self.new ≡ cycles self.old + 1) }
        ensures stops { IfErr result (stops self.old (opens ∷ []) self.new) };

    /// Answers an act of operator `caller`, 1 to 8.
    fn answer(&mut self, alloc: Global, caller: u8, act: &Act) -> Result<(), Self::Stop>
        requires ready { is_ready self.old }
        requires few { cycles self.old ≤ most_cycles }
        requires caller { (1 ≤ caller) × (caller ≤ 8) }
        ensures goes_on { OnOk result (goes_on self.old (asked caller act.now ∷ []) self.new) }
        ensures cycles { OnOk result (cycles self.new ≡ cycles self.old) }
        ensures stops { IfErr result (stops self.old (asked caller act.now ∷ []) self.new) };

    /// Passes on what it holds back of the rows that it told. It answers no call meanwhile.
    fn pass_on(&mut self) -> Result<(), Self::Stop>
        ensures goes_on { OnOk result (goes_on self.old [] self.new) }
        ensures cycles { OnOk result (cycles self.new ≡ cycles self.old) }
        ensures stops { IfErr result (stops self.old [] self.new) };

    ghost at_once: { (one : Self) → goes_on one [] one };

    ghost in_turn: { (one other third : Self) (calls later : List Call)
        → goes_on one calls other → goes_on other later third → goes_on one (calls ++ later) third };

    ghost ready_still: { (one other : Self) (calls : List Call)
        → is_ready one → goes_on one calls other → is_ready other };

    ghost stops_later: { (one other third : Self) (calls later more : List Call) (why : Self.Stop)
        → goes_on one calls other → stops other later third why → stops one (calls ++ (later ++ more)) third why };
}

/// Opens so many cycles.
fn open_cycles<D: Driven>(driven: &mut D, alloc: Global, count: u64) -> Result<(), D::Stop>
    requires ready { D.is_ready driven.old }
    requires few { D.cycles driven.old + count ≤ most_cycles }
    ensures goes_on { OnOk result (D.goes_on driven.old (replicate count opens) driven.new) }
    ensures cycles { OnOk result (D.cycles driven.new ≡ D.cycles driven.old + count) }
    ensures stops { IfErr result (D.stops driven.old (replicate count opens) driven.new) }
{
    for _ in 0..count {
        driven.open_cycle(alloc)?;
    }
    Ok(())
}

/// Has an act of operator `caller`, 1 to 8, answered. The rows so far are passed on before, and the act's own when they
/// were told.
///
/// To plan a change may take seconds. So whoever watches the log sees the rows before it, and then the change's own.
fn answer_shown<D: Driven>(
    driven: &mut D,
    alloc: Global,
    caller: u8,
    act: &Act,
) -> Result<(), D::Stop>
    requires ready { D.is_ready driven.old }
    requires few { D.cycles driven.old ≤ most_cycles }
    requires caller { (1 ≤ caller) × (caller ≤ 8) }
    ensures goes_on { OnOk result (D.goes_on driven.old (asked caller act.now ∷ []) driven.new) }
    ensures cycles { OnOk result (D.cycles driven.new ≡ D.cycles driven.old) }
    ensures stops { IfErr result (D.stops driven.old (asked caller act.now ∷ []) driven.new) }
{
    driven.pass_on()?;
    driven.answer(alloc, caller, act)?;
    driven.pass_on()?;
    Ok(())
}

/// Takes a step. A look plans nothing, so no row is passed on for it.
fn take_step<D: Driven>(driven: &mut D, alloc: Global, step: &Step) -> Result<(), D::Stop>
    requires ready { D.is_ready driven.old }
    requires step { IsStep step.now }
    requires few { D.cycles driven.old + count_of step.now ≤ most_cycles }
    ensures goes_on { OnOk result (D.goes_on driven.old (calls_of step.now) driven.new) }
    ensures cycles { OnOk result (D.cycles driven.new ≡ D.cycles driven.old + count_of step.now) }
    ensures stops { IfErr result (D.stops driven.old (calls_of step.now) driven.new) }
{
    match step {
        Step::Cycle { count } => open_cycles(driven, alloc, *count),
        Step::Act { caller, act } => match act {
            Act::Ask { .. } => answer_shown(driven, alloc, *caller, act),
            Act::Look => driven.answer(alloc, *caller, act),
        },
    }
}

/// Takes the steps of a file, in their order, from the first cycle on. What is driven has then answered their calls, or
/// it has stopped within them.
///
/// # Errors
///
/// That of what is driven, at the first call that stops it.
pub fn drive<D: Driven>(driven: &mut D, alloc: Global, steps: &[Step]) -> Result<(), D::Stop>
    requires ready { D.is_ready driven.old }
    requires first { D.cycles driven.old ≡ 0 }
    requires steps { AreLegalSteps steps.now }
    ensures goes_on { OnOk result (D.goes_on driven.old (flat_map calls_of steps.now) driven.new) }
    ensures stops { IfErr result (D.stops driven.old (flat_map calls_of steps.now) driven.new) }
{
    for step in steps {
        take_step(driven, alloc, step)?;
    }
    Ok(())
}
