//! What runs call by call on a bus: a master with its nodes, one that is replaced midway, or one whose slots are polled.

ghost use Rattle.std.specs.Prelude.{◌≡◌, ◌+◌, ◌<◌, ◌≤◌, ◌∷◌, [], List, OnOk};
ghost use Rattle.profile.specs.Limits.{most_cycles};
ghost use Rattle.can_frame.specs.declared.data_frame.TimedFrame.{TimedFrame};
ghost use Rattle.master_core.specs.Calls.{asked, opens};
ghost use Rattle.master_core.specs.declared.event.Event.{Event};
ghost use Rattle.master_core.specs.History.{next_of};
ghost use Rattle.replay_run.specs.Progress.{CanTellLast};
ghost use Rattle.replay_run.specs.Runs.{CanRun, RunsOn, RunsStill};
ghost use Rattle.replay_run.specs.declared.bus.Bus.{Bus};

use crate::bus::Bus;
use can_frame::TimedFrame;
use change_protocol::Act;
use std::alloc::{AllocError, Global};

/// What runs call by call on a bus.
///
/// Its meaning is a relation between what it stands on, the history of its calls, its trace, and itself. The history is
/// that of the run from its first call on, whoever is the master of the bus now.
pub trait Runs {
    /// What it stands on.
    ghost Setting: { Type 0 };

    ghost goes: { Setting → List Event → List TimedFrame → Self → Type 0 };

    /// What history and trace keep, whatever becomes of the run.
    ghost keeps: { Setting → List Event → List TimedFrame → Type 0 };

    ghost bus: { Self → Bus };

    ghost frames: { Self → List TimedFrame };

    /// The bus. Its master answered the last call.
    fn bus(&self) -> &Bus
        ensures bus { result.now ≡ bus self.now };

    /// The frames of the cycle that was run last.
    fn frames(&self) -> &[TimedFrame]
        ensures frames { result.now ≡ frames self.now };

    /// The number of cycles that were opened.
    fn opened(&self) -> u64
        ensures opened { (setting : Setting) (whole : List Event) (trace : List TimedFrame)
            → goes setting whole trace self.now → result ≡ next_of whole };

    /// Opens the next cycle, and runs it on the bus.
    ///
    /// # Errors
    ///
    /// Only where memory runs out. Then no cycle was run.
    fn run_cycle(&mut self, alloc: Global) -> Result<(), AllocError>
        requires can { CanRun goes self.old }
        requires few { next_of (bus self.old).master.history < most_cycles }
        ensures on { OnOk result
            (RunsOn goes self.old (bus self.new).master.history (frames self.new) (opens ∷ []) self.new) }
        ensures last { OnOk result (CanTellLast (bus self.new).master.history (frames self.new)) }
        ensures next { OnOk result
            (next_of (bus self.new).master.history ≡ next_of (bus self.old).master.history + 1) };

    /// Answers an act of operator `caller`, 1 to 8.
    ///
    /// # Errors
    ///
    /// Only where memory runs out. Then the act is not answered.
    fn answer_act(&mut self, alloc: Global, caller: u8, act: &Act) -> Result<(), AllocError>
        requires can { CanRun goes self.old }
        requires caller { (1 ≤ caller) × (caller ≤ 8) }
        requires few { next_of (bus self.old).master.history ≤ most_cycles }
        ensures on { OnOk result
            (RunsOn goes self.old (bus self.new).master.history [] (asked caller act.now ∷ []) self.new) }
        ensures last { OnOk result (CanTellLast (bus self.new).master.history []) }
        ensures next { OnOk result
            (next_of (bus self.new).master.history ≡ next_of (bus self.old).master.history) };

    /// Does what is due after a cycle, once its rows were told. No call is answered meanwhile.
    fn settle(&mut self)
        requires can { CanRun goes self.old }
        ensures still { RunsStill goes self.old self.new }
        ensures next { next_of (bus self.new).master.history ≡ next_of (bus self.old).master.history };

    ghost going_keeps: { (setting : Setting) (whole : List Event) (trace : List TimedFrame) (one : Self)
        → goes setting whole trace one → keeps setting whole trace };
}

impl Runs for Bus {
    ghost use Rattle.replay_run.specs.Progress.{BusSetting, IsBusAt, IsKeptOnBus, on-bus};

    ghost Setting = { BusSetting };

    ghost goes = { IsBusAt };

    ghost keeps = { λ on. IsKeptOnBus on.setting };

    ghost bus = { λ bus. bus };

    ghost frames = { λ bus. bus.segment };

    fn bus(&self) -> &Bus {
        self
    }

    fn frames(&self) -> &[TimedFrame] {
        self.segment.frames()
    }

    fn opened(&self) -> u64 {
        self.master.next()
    }

    fn run_cycle(&mut self, alloc: Global) -> Result<(), AllocError> {
        self.make_ready(alloc)?;
        self.run_next();
        Ok(())
    }

    fn answer_act(&mut self, alloc: Global, caller: u8, act: &Act) -> Result<(), AllocError> {
        self.answer(alloc, caller, act)
    }

    fn settle(&mut self) {}

    ghost going_keeps = { on-bus };
}
