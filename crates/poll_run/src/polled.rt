//! A bus whose polled slots carry requests, call by call.

ghost use Rattle.std.specs.Prelude.{◌≡◌, ◌+◌, ◌<◌, ◌≤◌, ◌∷◌, [], IfOk, OnOk};
ghost use Rattle.profile.specs.Limits.{most_cycles};
ghost use Rattle.system_file.specs.SystemFile.{IsSystem};
ghost use Rattle.master_core.specs.Calls.{asked, opens};
ghost use Rattle.master_core.specs.History.{next_of};
ghost use Rattle.replay_run.specs.Progress.{CanTellLast};
ghost use Rattle.replay_run.specs.Run.{setting_of};
ghost use Rattle.sporadic_poll.specs.StreamsFile.{AreLegalStreams};
ghost use Rattle.poll_run.specs.Polling.{CanPoll, IsPolledGoing, PollsOn};

use can_frame::TimedFrame;
use change_protocol::Act;
use cycle_engine::laws::numbers_are_whole;
use cycle_layout::Layout;
use kept_run::laws::{beginning, calls_between, cycles_run};
use master_core::laws::opened_cycles;
use master_core::refuses_nothing;
use profile::MOST_FRAMES;
use replay_run::laws::{opened_frames, rows_appended};
use replay_run::{Bus, Runs};
use sporadic_poll::laws::{one_ride, rides_of_openings};
use sporadic_poll::{Rides, Stream};
use std::alloc::{AllocError, Global};
use steps_file::Step;
use system_file::System;

/// A master and the nodes of its bus, after some calls, and the requests that the instances of polled slots carry.
#[derive(Drop)]
pub struct Polled {
    /// The bus, without requests. On it each instance sends its number.
    pub bus: Bus,
    /// The requests, and what became of them.
    pub rides: Rides,
    layout: Layout,
    /// The frames of the cycle that was run last, with the requests that they carry.
    pub frames: Vec<TimedFrame>,
    /// No change was refused so far.
    pub quiet: bool,
}

impl Polled {
    /// A run of no calls yet, on the bus of a system, where polled slots are to carry these requests. Where there is
    /// memory for it, the history has room for the openings and looks of these steps.
    ///
    /// # Errors
    ///
    /// Only where memory runs out.
    pub fn begin(
        alloc: Global,
        system: &System,
        streams: Vec<Stream>,
        steps: &[Step],
    ) -> Result<Polled, AllocError>
        requires system { IsSystem system.now }
        requires streams { AreLegalStreams system.now.rules.slots streams.items }
        ensures begun { IfOk result (IsPolledGoing (setting_of system.now []) streams.items []) }
        ensures empty { IfOk result (λ polled. polled.bus.master.history ≡ []) }
    {
        beginning();
        Ok(Polled {
            bus: Bus::begin(alloc, system, &[], false, steps)?,
            rides: Rides::new(alloc, streams, system.rules.slots)?,
            layout: system.layout,
            frames: Vec::with_capacity(alloc, MOST_FRAMES)?,
            quiet: true,
        })
    }

    /// Opens the next cycle, and runs it on the bus. The instances that are released in it take their requests.
    ///
    /// # Errors
    ///
    /// Only where memory runs out. Then no cycle was opened.
    pub fn run_next(&mut self, alloc: Global) -> Result<(), AllocError>
        requires can { CanPoll self.old }
        requires few { next_of self.old.bus.master.history < most_cycles }
        ensures on { OnOk result (PollsOn self.old self.new self.new.frames.items (opens ∷ [])) }
        ensures last { OnOk result (CanTellLast self.new.bus.master.history self.new.frames.items) }
        ensures next { OnOk result
            (next_of self.new.bus.master.history ≡ next_of self.old.bus.master.history + 1) }
    {
        cycles_run();
        numbers_are_whole();
        opened_cycles();
        one_ride();
        rides_of_openings();
        opened_frames();
        rows_appended();
        self.bus.make_ready(alloc)?;
        let cycle = self.bus.master.next();
        self.bus.run_next();
        self.rides.carry(
            &self.layout,
            cycle,
            self.bus.master.placed(),
            self.bus.segment.frames(),
            &mut self.frames,
        );
        Ok(())
    }

    /// Answers an act of operator `caller`, 1 to 8.
    ///
    /// # Errors
    ///
    /// Only where memory runs out. Then the act is not answered.
    pub fn answer(&mut self, alloc: Global, caller: u8, act: &Act) -> Result<(), AllocError>
        requires can { CanPoll self.old }
        requires caller { (1 ≤ caller) × (caller ≤ 8) }
        requires few { next_of self.old.bus.master.history ≤ most_cycles }
        ensures on { OnOk result (PollsOn self.old self.new [] (asked caller act.now ∷ [])) }
        ensures last { OnOk result (CanTellLast self.new.bus.master.history []) }
        ensures next { OnOk result
            (next_of self.new.bus.master.history ≡ next_of self.old.bus.master.history) }
    {
        calls_between();
        rows_appended();
        self.bus.answer(alloc, caller, act)?;
        self.quiet = self.quiet & refuses_nothing(self.bus.master.last());
        Ok(())
    }
}

impl Runs for Polled {
    ghost use Rattle.poll_run.specs.Polling.{IsPolledAt, IsPolledOnBus, PollSetting, polled-on-bus};

    ghost Setting = { PollSetting };

    ghost goes = { IsPolledAt };

    ghost keeps = { IsPolledOnBus };

    ghost bus = { λ polled. polled.bus };

    ghost frames = { λ polled. polled.frames.items };

    fn bus(&self) -> &Bus {
        &self.bus
    }

    fn frames(&self) -> &[TimedFrame] {
        self.frames.as_slice()
    }

    fn opened(&self) -> u64 {
        self.bus.master.next()
    }

    fn run_cycle(&mut self, alloc: Global) -> Result<(), AllocError> {
        self.run_next(alloc)
    }

    fn answer_act(&mut self, alloc: Global, caller: u8, act: &Act) -> Result<(), AllocError> {
        self.answer(alloc, caller, act)
    }

    fn settle(&mut self) {}

    ghost going_keeps = { polled-on-bus };
}
