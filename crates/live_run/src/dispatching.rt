//! The dispatcher's part of a run.

ghost use Rattle.std.specs.Prelude.{◌≡◌, ◌+◌, ◌<◌, ◌++◌, ◌∷◌, [], List, IfOk, OnErr, OnOk};
ghost use Rattle.profile.specs.Limits.{openings_end};
ghost use Rattle.master_core.specs.declared.event.Event.{Event};
ghost use Rattle.master_core.specs.declared.event.Event.TheVariants.{Open};
ghost use Rattle.master_core.specs.History.{next_of};
ghost use Rattle.kept_run.specs.Progress.{IsOnTheWay};
ghost use Rattle.kept_run.specs.Setting.{Setting};
ghost use Rattle.live_master.specs.Passes.{IsPassOf};
ghost use Rattle.cycle_engine.specs.Nodes.{CanLearn, HaveSpare, KeepSpare, states_of};
ghost use Rattle.live_run.specs.Running.{CanDispatch, HasFrameRoom, HasOpened, HasSeen, IsBeforeOrder, IsRunning, IsSameBus};
ghost use Rattle.live_run.specs.Running.{KeepsPasses};
ghost use Rattle.live_run.specs.Left.{numbers_of};

use crate::points::{Gate, Point};
use can_frame::TimedFrame;
use cycle_engine::{Nodes, Segment, run_cycle_in};
use kept_run::laws::{calls_between, cycles_run, one_call_more, orders};
use live_master::laws::openings_of_dispatchers;
use live_master::{DispatcherPass, FoundOpening, LiveMaster};
use profile::SHORTEST_FRAME;
use requirement_table::Order;
use std::alloc::{AllocError, Global};
use std::sync::Wait;

/// The bus of a run behind some of its cycles.
#[derive(Drop)]
pub struct LiveBus {
    /// The nodes, with the requests that are not sent.
    pub nodes: Nodes,
    /// The frames so far, in the order of their starts.
    pub trace: Vec<TimedFrame>,
}

/// What a dispatcher keeps for its next cycles, besides its bus.
#[derive(Drop)]
pub struct Room {
    /// The frames of the last cycle, with room for those of the next one.
    pub segment: Segment,
    /// The nodes can learn a list of so many entries without memory.
    pub entries: usize,
}

/// Makes room for the frames of one cycle behind those of the bus.
fn reserve_frames(bus: &mut LiveBus) -> Result<(), AllocError>
    ensures room { OnOk result (HasFrameRoom bus.new) }
    ensures same { IsSameBus bus.old bus.new }
    ensures spare { KeepSpare bus.old.nodes.nodes bus.new.nodes.nodes }
{
    let frames = bus.nodes.layout().cycle() / SHORTEST_FRAME + 1;
    bus.trace.reserve(frames as usize)
}

/// Opens the next cycle, once the nodes of the bus can learn without memory what they are to learn with it. They could
/// learn a list of so many entries before, which is counted anew.
fn open_next<R: Wait>(
    rt: &R,
    alloc: Global,
    shared: &LiveMaster,
    pass: &mut DispatcherPass,
    nodes: &mut Nodes,
    entries: &mut usize,
) -> Result<Order, AllocError>
    requires of { IsPassOf shared.now pass.old }
    requires dispatcher { pass.old.view.number ≡ 0 }
    requires cycles { next_of pass.old.view.mine < openings_end }
    requires spare { HaveSpare entries.old nodes.old.nodes }
    ensures opened { IfOk result (λ order. HasOpened shared.now.fixed pass.old.view.seen pass.new.view.seen order) }
    ensures early { IfOk result (λ order. order.cycle < openings_end) }
    ensures next { OnOk result (next_of pass.new.view.mine ≡ next_of pass.old.view.mine + 1) }
    ensures memory { OnErr result (HasSeen shared.now.fixed pass.old.view.seen pass.new.view.seen) }
    ensures none { OnErr result (next_of pass.new.view.mine ≡ next_of pass.old.view.mine) }
    ensures can_learn { IfOk result (λ order. CanLearn order.learned nodes.new.nodes) }
    ensures spare { HaveSpare entries.new nodes.new.nodes }
    ensures layout { nodes.new.layout ≡ nodes.old.layout }
    ensures same { states_of nodes.new.nodes ≡ states_of nodes.old.nodes }
    ensures stays { KeepsPasses pass.old.view pass.new.view }
    ensures standing { IsPassOf shared.now pass.new }
{
    one_call_more();
    openings_of_dispatchers();
    for _ in rt.forever() {
        match shared.open_within(rt, alloc, pass, *entries)? {
            FoundOpening::Opened { order } => return Ok(order),
            FoundOpening::Short { needed } => {
                nodes.reserve(alloc, needed)?;
                *entries = needed;
            }
        }
    }
    unreachable!()
}

/// Runs the cycle of an order on the bus, without memory.
#[tactic(auto, using(crate::proofs::Lefts::numbers_run))]
fn run_order(order: &Order, bus: &mut LiveBus, segment: &mut Segment)
    requires early { order.now.cycle < openings_end }
    requires before { (setting : Setting) × (history : List Event) × IsBeforeOrder setting history order.now bus.old }
    requires can_learn { CanLearn order.now.learned bus.old.nodes.nodes }
    requires room { HasFrameRoom bus.old }
    ensures ran { (setting : Setting) (history : List Event)
        → IsBeforeOrder setting history order.now bus.old
        → IsOnTheWay setting (history ++ Open order.now.cycle order.now.mask ∷ []) bus.new.trace.items bus.new.nodes }
    ensures numbers { numbers_of (states_of bus.new.nodes.nodes) ≡ numbers_of (states_of bus.old.nodes.nodes) }
    ensures spare { KeepSpare bus.old.nodes.nodes bus.new.nodes.nodes }
{
    orders();
    cycles_run();
    run_cycle_in(order, &mut bus.nodes, segment);
    bus.trace.extend_from_slice(segment.frames()).unwrap();
}

/// Opens the next cycle, and runs it on the bus. All memory is taken first: after an error no cycle was opened.
fn open_cycle<R: Wait, G: Gate>(
    rt: &R,
    alloc: Global,
    shared: &LiveMaster,
    pass: &mut DispatcherPass,
    bus: &mut LiveBus,
    room: &mut Room,
    gate: &G,
) -> Result<(), AllocError>
    requires of { IsPassOf shared.now pass.old }
    requires dispatcher { pass.old.view.number ≡ 0 }
    requires cycles { next_of pass.old.view.mine < openings_end }
    requires running { CanDispatch shared.now pass.old.view.seen bus.old }
    requires spare { HaveSpare room.old.entries bus.old.nodes.nodes }
    ensures running { (setting : Setting) → IsRunning setting shared.now pass.old.view.seen bus.old
        → IsRunning setting shared.now pass.new.view.seen bus.new }
    ensures numbers { numbers_of (states_of bus.new.nodes.nodes) ≡ numbers_of (states_of bus.old.nodes.nodes) }
    ensures next { OnOk result (next_of pass.new.view.mine ≡ next_of pass.old.view.mine + 1) }
    ensures none { OnErr result (next_of pass.new.view.mine ≡ next_of pass.old.view.mine) }
    ensures spare { HaveSpare room.new.entries bus.new.nodes.nodes }
    ensures stays { KeepsPasses pass.old.view pass.new.view }
    ensures standing { IsPassOf shared.now pass.new }
{
    calls_between();
    reserve_frames(bus)?;
    let order = open_next(rt, alloc, shared, pass, &mut bus.nodes, &mut room.entries)?;
    gate.pass(Point::CycleOpen { cycle: order.cycle });
    run_order(&order, bus, &mut room.segment);
    gate.pass(Point::CycleDone { cycle: order.cycle });
    Ok(())
}

/// Opens `cycles` cycles, below 2^41, and runs each on the bus, also where memory runs out: what a cycle needs is taken
/// before it is opened.
///
/// # Errors
///
/// Only where memory runs out. Each cycle that was opened was run then.
pub fn dispatch<R: Wait, G: Gate>(
    rt: &R,
    alloc: Global,
    shared: &LiveMaster,
    pass: &mut DispatcherPass,
    bus: &mut LiveBus,
    cycles: u64,
    gate: &G,
) -> Result<(), AllocError>
    requires of { IsPassOf shared.now pass.old }
    requires dispatcher { pass.old.view.number ≡ 0 }
    requires none { next_of pass.old.view.mine ≡ 0 }
    requires cycles { cycles < openings_end }
    requires running { CanDispatch shared.now pass.old.view.seen bus.old }
    ensures running { (setting : Setting) → IsRunning setting shared.now pass.old.view.seen bus.old
        → IsRunning setting shared.now pass.new.view.seen bus.new }
    ensures numbers { numbers_of (states_of bus.new.nodes.nodes) ≡ numbers_of (states_of bus.old.nodes.nodes) }
    ensures cycles { OnOk result (next_of pass.new.view.mine ≡ cycles) }
    ensures stays { KeepsPasses pass.old.view pass.new.view }
    ensures standing { IsPassOf shared.now pass.new }
{
    let mut room = Room {
        segment: Segment::new(alloc, bus.nodes.layout())?,
        entries: 0,
    };
    for _ in 0..cycles {
        open_cycle(rt, alloc, shared, pass, bus, &mut room, gate)?;
    }
    Ok(())
}
