//! A run whose first master has a standby: the bus, and the standby up to the handover.

ghost use Rattle.std.specs.Prelude.{◌≡◌, ◌+◌, ◌<◌, ◌≤◌, ◌∷◌, [], IfOk, OnOk};
ghost use Rattle.profile.specs.Limits.{most_cycles};
ghost use Rattle.system_file.specs.SystemFile.{IsSystem};
ghost use Rattle.requests_file.specs.RequestsFile.{AreLegal};
ghost use Rattle.master_core.specs.Calls.{asked, opens};
ghost use Rattle.master_core.specs.History.{next_of};
ghost use Rattle.replay_run.specs.Progress.{CanTellLast};
ghost use Rattle.replay_run.specs.Run.{setting_of};
ghost use Rattle.replay_run.specs.Runs.{CanRun, RunsOn, RunsStill};
ghost use Rattle.handover_run.specs.Handed.{IsHanded};

use crate::following::{follow_answer, follow_opening};
use async_window::Request;
use can_frame::TimedFrame;
use change_protocol::Act;
use master_core::{LeanMaster, refuses_nothing};
use replay_run::{Bus, Runs};
use standby::Standby;
use standby::laws::{goes_on, one_core};
use std::alloc::{AllocError, Global};
use system_file::System;

/// A master and the nodes of its bus, behind some calls, with the standby that is to go on after so many opened cycles.
#[derive(Drop)]
pub struct Handed {
    /// The bus, whose master is the first one up to the handover, and the one that took over behind it.
    pub bus: Bus,
    /// The standby, up to the handover.
    standby: Option<Standby>,
    /// So many cycles are opened by the first master.
    at: u64,
    /// No change was refused so far.
    pub quiet: bool,
}

impl Handed {
    /// A run of no calls yet, on the bus of a system with these requests. The standby goes on after `at` opened cycles.
    ///
    /// # Errors
    ///
    /// Only where memory runs out.
    pub fn begin(
        alloc: Global,
        system: &System,
        requests: &[Request],
        at: u64,
    ) -> Result<Handed, AllocError>
        requires system { IsSystem system.now }
        requires requests { AreLegal system.now.owners requests.now }
        ensures begun { IfOk result (IsHanded (setting_of system.now requests.now) [] []) }
    {
        let mut handed = Handed {
            bus: Bus::begin(alloc, system, requests, false, &[])?,
            standby: Some(Standby::new(alloc, system.rules)?),
            at,
            quiet: true,
        };
        handed.hand_over();
        Ok(handed)
    }

    /// Where so many cycles were opened, drops the first master. The standby goes on in its place, with the nodes as
    /// they are.
    fn hand_over(&mut self)
        ensures still { RunsStill IsHanded self.old self.new }
        ensures next { CanRun IsHanded self.old
            → next_of self.new.bus.master.history ≡ next_of self.old.bus.master.history }
    {
        one_core();
        if self.bus.master.next() != self.at {
            return;
        }
        if let Some(standby) = self.standby.take() {
            self.bus.master = LeanMaster::of(standby.take_over());
        }
    }
}

impl Runs for Handed {
    ghost use Rattle.kept_run.specs.Setting.{Setting};
    ghost use Rattle.replay_run.specs.Progress.{IsKeptOnBus};
    ghost use Rattle.handover_run.specs.Handed.{IsHanded, on-bus};

    ghost Setting = { Setting };

    ghost goes = { IsHanded };

    ghost keeps = { IsKeptOnBus };

    ghost bus = { λ handed. handed.bus };

    ghost frames = { λ handed. handed.bus.segment };

    fn bus(&self) -> &Bus {
        &self.bus
    }

    fn frames(&self) -> &[TimedFrame] {
        self.bus.segment.frames()
    }

    fn opened(&self) -> u64 {
        one_core();
        self.bus.master.next()
    }

    /// Opens the next cycle, and runs it on the bus. The standby hears its trigger.
    fn run_cycle(&mut self, alloc: Global) -> Result<(), AllocError> {
        one_core();
        goes_on();
        self.bus.make_ready(alloc)?;
        self.bus.run_next();
        let slots = self.bus.master.rules().slots;
        follow_opening(&mut self.standby, alloc, slots, self.bus.segment.frames())
    }

    /// Answers an act. The standby is told the change where it was accepted.
    fn answer_act(&mut self, alloc: Global, caller: u8, act: &Act) -> Result<(), AllocError> {
        one_core();
        goes_on();
        self.bus.answer(alloc, caller, act)?;
        let event = self.bus.master.last();
        self.quiet = self.quiet & refuses_nothing(event);
        follow_answer(&mut self.standby, alloc, event)
    }

    /// Hands over, once the rows of the last cycle of the first master were told.
    fn settle(&mut self) {
        self.hand_over();
    }

    ghost going_keeps = { on-bus };
}
