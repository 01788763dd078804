//! A master with the nodes of its bus, call by call. All memory of a cycle is taken before it is opened, so that a cycle
//! that was opened is run.

ghost use Rattle.std.specs.Prelude.{◌≡◌, ◌+◌, ◌<◌, ◌≤◌, ◌++◌, ◌∷◌, []};
ghost use Rattle.std.specs.Prelude.{List, OnOk, OnErr, IfOk, is_some, length, map};
ghost use Rattle.profile.specs.Limits.{most_cycles};
ghost use Rattle.can_frame.specs.declared.data_frame.TimedFrame.{TimedFrame};
ghost use Rattle.change_protocol.specs.declared.operations.Act.TheVariants as act_of;
ghost use Rattle.system_file.specs.SystemFile.{IsSystem};
ghost use Rattle.requests_file.specs.RequestsFile.{AreLegal};
ghost use Rattle.master_core.specs.Calls.{asked, call_of, opens};
ghost use Rattle.master_core.specs.History.{next_of, placed_of};
ghost use Rattle.master_core.specs.Orders.{StandsFor};
ghost use Rattle.kept_run.specs.Progress.{AreNodesReady};
ghost use Rattle.kept_run.specs.Setting.{IsSetting};
ghost use Rattle.cycle_engine.specs.Nodes.{HaveSpare, states_of};
ghost use Rattle.replay_run.specs.Progress.{BeginWithTriggers, BringsOn, CanGo, CanTellLast, GoesStill, HasTraceRoom, IsBusReady, IsGoing};
ghost use Rattle.replay_run.specs.Progress.{KeepsFrames, RunsNext};
ghost use Rattle.replay_run.specs.Run.{setting_of};

use crate::counting::count_plain_calls;
use async_window::Request;
use can_frame::TimedFrame;
use change_protocol::{Act, Change};
use cycle_engine::laws::{next_cycle, numbers_are_whole};
use cycle_engine::{CycleFrames, Nodes, run_cycle_into};
use kept_run::laws::{beginning, calls_between, cycles_run, orders, requests_of_owners};
use master_core::LeanMaster;
use master_core::laws::opened_cycles;
use profile::MOST_FRAMES;
use std::alloc::{AllocError, Global};
use steps_file::Step;
use system_file::System;

/// A master and the nodes of its bus, behind some calls.
#[derive(Drop)]
pub struct Bus {
    /// The master. It keeps all calls and their answers where the frames are kept, and else the last one alone.
    pub master: LeanMaster,
    /// The nodes, with the requests that are not sent.
    nodes: Nodes,
    /// The nodes can learn a list of so many entries without memory.
    spare: usize,
    /// The frames of the cycle that was run last; none before the first one. An answer leaves them. Taking the memory of
    /// the next cycle may drop them.
    pub segment: CycleFrames,
    /// The room for the frames of the next cycle.
    room: Vec<TimedFrame>,
    /// The frames on the bus, in the order of their starts, where they are kept.
    pub trace: Option<Vec<TimedFrame>>,
}

/// These frames, where they are to be kept.
fn kept_frames(frames: Vec<TimedFrame>, keeps: bool) -> Option<Vec<TimedFrame>>
    ensures frames { KeepsFrames result frames.items }
    ensures kept { is_some result ≡ keeps }
{
    if keeps { Some(frames) } else { None }
}

/// Makes room for the frames of one cycle, where they are kept.
fn make_room(trace: &mut Option<Vec<TimedFrame>>) -> Result<(), AllocError>
    ensures same { (past : List TimedFrame) → KeepsFrames trace.old past → KeepsFrames trace.new past }
    ensures kept { is_some trace.new ≡ is_some trace.old }
    ensures room { OnOk result (HasTraceRoom trace.new) }
{
    match trace {
        Some(kept) => kept.reserve(MOST_FRAMES),
        None => Ok(()),
    }
}

/// Appends the frames of a cycle, where they are kept. There is room for them.
fn keep(trace: &mut Option<Vec<TimedFrame>>, frames: &[TimedFrame])
    requires room { HasTraceRoom trace.old }
    requires few { length frames.now ≤ 2128 }
    ensures frames { (past : List TimedFrame)
        → KeepsFrames trace.old past → KeepsFrames trace.new (past ++ frames.now) }
    ensures kept { is_some trace.new ≡ is_some trace.old }
{
    if let Some(kept) = trace {
        kept.extend_from_slice(frames).unwrap();
    }
}

/// Makes the nodes able to learn so many entries without memory, where `spare` is less.
fn make_spare(
    nodes: &mut Nodes,
    spare: &mut usize,
    alloc: Global,
    entries: usize,
) -> Result<(), AllocError>
    requires spare { HaveSpare spare.old nodes.old.nodes }
    ensures spare { HaveSpare spare.new nodes.new.nodes }
    ensures layout { nodes.new.layout ≡ nodes.old.layout }
    ensures same { states_of nodes.new.nodes ≡ states_of nodes.old.nodes }
    ensures entries { OnOk result (entries ≤ spare.new) }
{
    if entries <= *spare {
        return Ok(());
    }
    nodes.reserve(alloc, entries)?;
    *spare = entries;
    Ok(())
}

/// What the runs of a system with these requests stand on is in its ranges.
pub fn in_ranges(system: &System, requests: &[Request])
    requires system { IsSystem system.now }
    requires requests { AreLegal system.now.owners requests.now }
    ensures setting { IsSetting (setting_of system.now requests.now) }
{
    requests_of_owners();
}

/// A master that has answered no call. Where all events are kept, memory for the openings and looks of some steps is
/// taken at once, where there is any: a hint, without which the history grows as it needs.
fn fresh_master(
    alloc: Global,
    system: &System,
    keeps: bool,
    steps: &[Step],
) -> Result<LeanMaster, AllocError>
    requires system { IsSystem system.now }
    ensures rules { IfOk result (λ master. master.rules ≡ system.now.rules) }
    ensures history { IfOk result (λ master. master.history ≡ []) }
    ensures keeps { IfOk result (λ master. master.keeps ≡ keeps) }
{
    let mut master = LeanMaster::new(alloc, system.rules, keeps)?;
    let _ = master.reserve(alloc, count_plain_calls(steps));
    Ok(master)
}

/// The nodes of a system before cycle 0, with these requests.
///
/// # Errors
///
/// Only where memory runs out.
pub fn fresh_nodes(
    alloc: Global,
    system: &System,
    requests: &[Request],
) -> Result<Nodes, AllocError>
    requires system { IsSystem system.now }
    requires requests { AreLegal system.now.owners requests.now }
    ensures ready { IfOk result (AreNodesReady (setting_of system.now requests.now) [] []) }
{
    beginning();
    let System {
        layout,
        rules,
        owners,
    } = system;
    let nodes = Nodes::new(alloc, *layout, rules.nodes, owners.as_slice(), requests)?;
    Ok(nodes)
}

impl Bus {
    /// A run of no calls yet, on the bus of a system with these requests. The frames and all events are kept where
    /// `keeps` says so. Then, where there is memory for it, there is room for the openings and looks of these steps, at
    /// most 65,536.
    ///
    /// # Errors
    ///
    /// Only where memory runs out.
    pub fn begin(
        alloc: Global,
        system: &System,
        requests: &[Request],
        keeps: bool,
        steps: &[Step],
    ) -> Result<Bus, AllocError>
        requires system { IsSystem system.now }
        requires requests { AreLegal system.now.owners requests.now }
        ensures going { IfOk result (IsGoing (setting_of system.now requests.now) []) }
        ensures empty { IfOk result (λ bus. bus.master.history ≡ []) }
        ensures none { IfOk result (λ bus. bus.segment ≡ []) }
        ensures kept { IfOk result (λ bus. is_some bus.trace ≡ keeps) }
    {
        beginning();
        in_ranges(system, requests);
        Ok(Bus {
            nodes: fresh_nodes(alloc, system, requests)?,
            master: fresh_master(alloc, system, keeps, steps)?,
            spare: 0,
            segment: CycleFrames::none(alloc),
            room: Vec::new(alloc),
            trace: kept_frames(Vec::new(alloc), keeps),
        })
    }

    /// Takes all memory that the next cycle needs.
    ///
    /// # Errors
    ///
    /// Only where memory runs out.
    pub fn make_ready(&mut self, alloc: Global) -> Result<(), AllocError>
        requires going { CanGo self.old }
        ensures still { GoesStill self.old self.new }
        ensures ready { OnOk result (IsBusReady self.new) }
    {
        self.master.reserve(alloc, 1)?;
        make_room(&mut self.trace)?;
        self.segment.give_room(&mut self.room, self.nodes.layout())?;
        let entries = self.master.placed().len();
        make_spare(&mut self.nodes, &mut self.spare, alloc, entries)
    }

    /// Opens the next cycle, and runs it on the bus. Its frames are the segment then. It takes no memory.
    pub fn run_next(&mut self)
        requires going { CanGo self.old }
        requires ready { IsBusReady self.old }
        requires few { next_of self.old.master.history < most_cycles }
        ensures on { BringsOn self.old self.new self.new.segment }
        ensures follows { RunsNext self.old self.new self.new.segment }
        ensures few { length self.new.segment ≤ 2128 }
        ensures last { CanTellLast self.new.master.history self.new.segment }
        ensures triggers { BeginWithTriggers self.old.master.rules self.old.master.history self.new.segment }
        ensures calls { map call_of self.new.master.history ≡ map call_of self.old.master.history ++ opens ∷ [] }
        ensures next { next_of self.new.master.history ≡ next_of self.old.master.history + 1 }
        ensures stands { StandsFor (next_of self.old.master.history) (placed_of self.old.master.history)
            self.new.master.placed }
        ensures kept { is_some self.new.trace ≡ is_some self.old.trace }
    {
        orders();
        cycles_run();
        next_cycle();
        numbers_are_whole();
        opened_cycles();
        let order = self.master.open();
        run_cycle_into(&order, &mut self.nodes, &mut self.room);
        self.segment.exchange(&mut self.room);
        keep(&mut self.trace, self.segment.frames());
    }

    /// Answers a change.
    fn ask(&mut self, alloc: Global, caller: u8, change: &Change) -> Result<(), AllocError>
        requires caller { (1 ≤ caller) × (caller ≤ 8) }
        requires few { next_of self.old.master.history ≤ most_cycles }
        ensures on { OnOk result (BringsOn self.old self.new []) }
        ensures last { OnOk result (CanTellLast self.new.master.history []) }
        ensures calls { OnOk result (map call_of self.new.master.history
            ≡ map call_of self.old.master.history ++ asked caller (act_of.Ask change.now) ∷ []) }
        ensures next { OnOk result (next_of self.new.master.history ≡ next_of self.old.master.history) }
        ensures kept { OnOk result (is_some self.new.trace ≡ is_some self.old.trace) }
        ensures segment { self.new.segment ≡ self.old.segment }
        ensures still { OnErr result (GoesStill self.old self.new) }
    {
        calls_between();
        self.master.submit(alloc, caller, change)?;
        Ok(())
    }

    /// Answers a look.
    fn look(&mut self, alloc: Global, caller: u8) -> Result<(), AllocError>
        requires caller { (1 ≤ caller) × (caller ≤ 8) }
        ensures on { OnOk result (BringsOn self.old self.new []) }
        ensures last { OnOk result (CanTellLast self.new.master.history []) }
        ensures calls { OnOk result (map call_of self.new.master.history
            ≡ map call_of self.old.master.history ++ asked caller act_of.Look ∷ []) }
        ensures next { OnOk result (next_of self.new.master.history ≡ next_of self.old.master.history) }
        ensures kept { OnOk result (is_some self.new.trace ≡ is_some self.old.trace) }
        ensures segment { self.new.segment ≡ self.old.segment }
        ensures still { OnErr result (GoesStill self.old self.new) }
    {
        calls_between();
        self.master.reserve(alloc, 1)?;
        self.master.look(caller);
        Ok(())
    }

    /// Answers an act of operator `caller`, 1 to 8.
    ///
    /// # Errors
    ///
    /// Only where memory runs out. Then the act is not answered.
    pub fn answer(&mut self, alloc: Global, caller: u8, act: &Act) -> Result<(), AllocError>
        requires caller { (1 ≤ caller) × (caller ≤ 8) }
        requires few { next_of self.old.master.history ≤ most_cycles }
        ensures on { OnOk result (BringsOn self.old self.new []) }
        ensures last { OnOk result (CanTellLast self.new.master.history []) }
        ensures calls { OnOk result (map call_of self.new.master.history
            ≡ map call_of self.old.master.history ++ asked caller act.now ∷ []) }
        ensures next { OnOk result (next_of self.new.master.history ≡ next_of self.old.master.history) }
        ensures kept { OnOk result (is_some self.new.trace ≡ is_some self.old.trace) }
        ensures segment { self.new.segment ≡ self.old.segment }
        ensures still { OnErr result (GoesStill self.old self.new) }
    {
        match act {
            Act::Ask { change } => self.ask(alloc, caller, change),
            Act::Look => self.look(alloc, caller),
        }
    }
}
