//! The run of a steps file, whose rows something hears while it goes on, whatever runs.

ghost use Rattle.std.specs.Prelude.{◌≡◌, ◌+◌, ◌∷◌, ◌≤◌, ◌<◌, [], OnOk, OnErr, IfOk, IfErr, is_some};
ghost use Rattle.std.specs.List.{flat_map};
ghost use Rattle.profile.specs.Limits.{most_cycles};
ghost use Rattle.can_frame.specs.declared.data_frame.TimedFrame.{TimedFrame};
ghost use Rattle.system_file.specs.SystemFile.{IsSystem};
ghost use Rattle.requests_file.specs.RequestsFile.{AreLegal};
ghost use Rattle.steps_file.specs.StepsFile.{AreLegalSteps};
ghost use Rattle.master_core.specs.Calls.{asked, opens};
ghost use Rattle.master_core.specs.History.{next_of};
ghost use Rattle.replay_run.specs.Begun.{IsRunBegun};
ghost use Rattle.replay_run.specs.Progress.{CanTellLast};
ghost use Rattle.replay_run.specs.Run.{IsRun, calls_of};
ghost use Rattle.replay_run.specs.Runs.{AnswersAll, AnswersFirst, CanLog, GoesOnLogging, HasRun, HearsLast, IsCutAfter};
ghost use Rattle.replay_run.specs.Whole.{IsCutOff, IsHeard, IsLogOf};
ghost use Rattle.replay_run.specs.Written.{IsKeptLog};

use crate::bus::{Bus, in_ranges};
use crate::cut::Cut;
use crate::driver::{Driven, drive};
use crate::listener::Listener;
use crate::runs::Runs;
use async_window::Request;
use can_frame::TimedFrame;
use change_protocol::Act;
use ftt_io::Failed;
use kept_run::laws::{beginning, promise};
use master_core::LeanMaster;
use std::alloc::Global;
use steps_file::Step;
use system_file::System;

/// A run, and what hears its rows.
#[derive(Drop)]
struct Logged<'a, R, L> {
    run: &'a mut R,
    listener: &'a mut L,
}

/// Tells the rows of a master's last event and of its frames.
///
/// # Errors
///
/// Where the listener breaks off.
fn tell_last<L: Listener>(
    listener: &mut L,
    alloc: Global,
    master: &LeanMaster,
    frames: &[TimedFrame],
) -> Result<(), Failed>
    requires last { CanTellLast master.now.history frames.now }
    ensures heard { OnOk result (HearsLast L.heard master.now.history frames.now listener.old listener.new) }
    ensures broke { OnErr result (HearsLast L.broke master.now.history frames.now listener.old listener.new) }
{
    listener.hear(alloc, master.last(), frames)
}

/// Opens the next cycle, runs it on the bus, and tells its rows. All memory is taken first.
fn open_next<R: Runs, L: Listener>(run: &mut R, listener: &mut L, alloc: Global) -> Result<(), Cut>
    requires ready { CanLog R.goes L.heard run.old listener.old }
    requires few { next_of (R.bus run.old).master.history < most_cycles }
    ensures goes_on { OnOk result
        (GoesOnLogging R.goes L.heard run.old listener.old (opens ∷ []) run.new listener.new) }
    ensures next { OnOk result
        (next_of (R.bus run.new).master.history ≡ next_of (R.bus run.old).master.history + 1) }
    ensures stops { IfErr result
        (IsCutAfter L.heard L.broke R.keeps R.goes run.old listener.old (opens ∷ []) listener.new) }
{
    run.run_cycle(alloc)?;
    tell_last(listener, alloc, &run.bus().master, run.frames())?;
    run.settle();
    Ok(())
}

/// Answers an act of operator `caller`, 1 to 8, and tells its rows.
fn answer_act<R: Runs, L: Listener>(
    run: &mut R,
    listener: &mut L,
    alloc: Global,
    caller: u8,
    act: &Act,
) -> Result<(), Cut>
    requires ready { CanLog R.goes L.heard run.old listener.old }
    requires few { next_of (R.bus run.old).master.history ≤ most_cycles }
    requires caller { (1 ≤ caller) × (caller ≤ 8) }
    ensures goes_on { OnOk result
        (GoesOnLogging R.goes L.heard run.old listener.old (asked caller act.now ∷ []) run.new listener.new) }
    ensures next { OnOk result
        (next_of (R.bus run.new).master.history ≡ next_of (R.bus run.old).master.history) }
    ensures stops { IfErr result
        (IsCutAfter L.heard L.broke R.keeps R.goes run.old listener.old (asked caller act.now ∷ []) listener.new) }
{
    run.answer_act(alloc, caller, act)?;
    tell_last(listener, alloc, &run.bus().master, &[])?;
    Ok(())
}

/// Has the rows so far passed on. No row is told, and no call answered.
fn pass_on<R: Runs, L: Listener>(run: &R, listener: &mut L) -> Result<(), Cut>
    ensures goes_on { OnOk result (GoesOnLogging R.goes L.heard run.now listener.old [] run.now listener.new) }
    ensures stops { IfErr result
        (IsCutAfter L.heard L.broke R.keeps R.goes run.now listener.old [] listener.new) }
{
    listener.pass_on()?;
    Ok(())
}

impl<'a, R: Runs, L: Listener> Driven for Logged<'a, R, L> {
    ghost use Rattle.std.specs.Prelude.{◌≡◌, refl};
    ghost use Rattle.std.proofs.Common.{◌∙◌};
    ghost use Rattle.master_core.specs.History.{next_of};
    ghost use Rattle.replay_run.specs.Runs.{CanLog, GoesOnLogging, IsCutAfter};
    ghost use Rattle.replay_run.specs.Logging.{cut-later, goes-at_once, goes-in_turn, ready-still};

    type Stop = Cut;

    ghost is_ready = { λ logged. CanLog R.goes L.heard logged.run.now logged.listener.now };

    ghost cycles = { λ logged. next_of (R.bus logged.run.now).master.history };

    ghost goes_on = { λ old calls new. (new.run.ghost_name ≡ old.run.ghost_name)
        × (new.listener.ghost_name ≡ old.listener.ghost_name)
        × GoesOnLogging R.goes L.heard old.run.now old.listener.now calls new.run.now new.listener.now };

    ghost stops = { λ old calls new why. (new.run.ghost_name ≡ old.run.ghost_name)
        × (new.listener.ghost_name ≡ old.listener.ghost_name)
        × IsCutAfter L.heard L.broke R.keeps R.goes old.run.now old.listener.now calls new.listener.now why };

    fn open_cycle(&mut self, alloc: Global) -> Result<(), Cut> {
        open_next(self.run, self.listener, alloc)
    }

    fn answer(&mut self, alloc: Global, caller: u8, act: &Act) -> Result<(), Cut> {
        answer_act(self.run, self.listener, alloc, caller, act)
    }

    fn pass_on(&mut self) -> Result<(), Cut> {
        pass_on(self.run, self.listener)
    }

    ghost at_once = { λ one. (refl, refl, goes-at_once R.goes L.heard one.run.now one.listener.now) };

    ghost in_turn = { λ one other third calls later first second. (
      second.0 ∙ first.0,
      second.1 ∙ first.1,
      goes-in_turn R.goes L.heard one.run.now other.run.now third.run.now
          one.listener.now other.listener.now third.listener.now calls later first.2 second.2,
    ) };

    ghost ready_still = { λ one other calls ready on.
        ready-still R.goes L.heard one.run.now other.run.now one.listener.now other.listener.now calls ready on.2 };

    ghost stops_later = { λ one other third calls later more why first second. (
      second.0 ∙ first.0,
      second.1 ∙ first.1,
      cut-later R.goes R.keeps L.heard L.broke one.run.now other.run.now
          one.listener.now other.listener.now third.listener.now calls later more why first.2 second.2,
    ) };
}

/// Has the calls of steps answered by a run that has answered none, and their rows heard.
fn log_calls<R: Runs, L: Listener>(
    alloc: Global,
    run: &mut R,
    steps: &[Step],
    listener: &mut L,
) -> Result<(), Cut>
    requires ready { CanLog R.goes L.heard run.old listener.old }
    requires first { next_of (R.bus run.old).master.history ≡ 0 }
    requires steps { AreLegalSteps steps.now }
    ensures goes_on { OnOk result
        (GoesOnLogging R.goes L.heard run.old listener.old (flat_map calls_of steps.now) run.new listener.new) }
    ensures stops { IfErr result (IsCutAfter L.heard L.broke R.keeps R.goes
        run.old listener.old (flat_map calls_of steps.now) listener.new) }
{
    let mut logged = Logged { run, listener };
    drive(&mut logged, alloc, steps)
}

/// Has the calls of the steps of a file answered, in their order, by a run that has answered none, and has the log heard
/// meanwhile: the rows of each event when it was answered and its cycle was run, and then the last row.
///
/// # Errors
///
/// `Memory` where memory runs out: then all rows of the calls that were answered were heard. `Write` where the listener
/// breaks off.
pub fn log_run<R: Runs, L: Listener>(
    alloc: Global,
    run: &mut R,
    steps: &[Step],
    listener: &mut L,
) -> Result<(), Cut>
    requires fresh { (setting : R.Setting) × R.goes setting [] [] run.old }
    requires first { next_of (R.bus run.old).master.history ≡ 0 }
    requires steps { AreLegalSteps steps.now }
    ensures heard { OnOk result ((setting : R.Setting) → R.goes setting [] [] run.old
        → IsHeard L.heard (IsLogOf (HasRun R.goes setting (flat_map calls_of steps.now) run.new))
        listener.old listener.new) }
    ensures cut { IfErr result (λ why. (setting : R.Setting) → R.goes setting [] [] run.old
        → IsCutOff L.heard L.broke (AnswersFirst R.keeps setting (flat_map calls_of steps.now))
        (IsLogOf (AnswersAll R.keeps setting (flat_map calls_of steps.now))) listener.old listener.new why) }
{
    log_calls(alloc, run, steps, listener)?;
    listener.hear_end(alloc, run.opened())?;
    Ok(())
}

/// Answers the steps of a file, in their order, on the bus of a system with these requests, and has the log heard
/// meanwhile: the rows of each event when it was answered and its cycle was run, and then the last row. The frames and
/// all events are kept where `keeps` says so.
///
/// # Errors
///
/// `Memory` where memory runs out: then all rows of the calls that were answered were heard. `Write` where the listener
/// breaks off.
pub fn log_steps<L: Listener>(
    alloc: Global,
    system: &System,
    steps: &[Step],
    requests: &[Request],
    keeps: bool,
    listener: &mut L,
) -> Result<Bus, Cut>
    requires system { IsSystem system.now }
    requires steps { AreLegalSteps steps.now }
    requires requests { AreLegal system.now.owners requests.now }
    ensures heard { IfOk result (λ bus. IsHeard L.heard (IsKeptLog system.now steps.now requests.now
        bus.master.history bus.trace) listener.old listener.new) }
    ensures rules { IfOk result (λ bus. bus.master.rules ≡ system.now.rules) }
    ensures kept { IfOk result (λ bus. is_some bus.trace ≡ keeps) }
    ensures events { IfOk result (λ bus. bus.master.keeps ≡ keeps) }
    ensures cut { IfErr result (IsCutOff L.heard L.broke (IsRunBegun system.now steps.now requests.now)
        (IsLogOf (IsRun system.now steps.now requests.now)) listener.old listener.new) }
{
    promise();
    beginning();
    in_ranges(system, requests);
    let mut bus = Bus::begin(alloc, system, requests, keeps, steps)?;
    log_run(alloc, &mut bus, steps, listener)?;
    Ok(bus)
}
