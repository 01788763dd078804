//! The joint node of a bus as the station on it, and with it the master, which offers the trigger frames of a cycle.

ghost use Rattle.std.specs.Prelude.{◌≡◌, ◌+◌, ◌-◌, ◌/◌, ◌<◌, ◌≤◌, ◌++◌, [], ◌∷◌};
ghost use Rattle.std.specs.Prelude.{Contains, OnOk, Some, drop, length, map, vec_capacity};
ghost use Rattle.std.specs.List.{cons_option};
ghost use Rattle.profile.specs.Limits.{cycles_end, shortest_frame, times_end};
ghost use Rattle.requirement_table.specs.Table.{IsWellPlaced};
ghost use Rattle.node_model.specs.Node.{learnt, with_node};
ghost use Rattle.node_model.specs.Window.{IsInWindow};
ghost use Rattle.async_window.specs.Mailbox.{left};
ghost use Rattle.trigger_codec.specs.Bytes.{frames_left};
ghost use Rattle.arbitration.specs.Arbitration.{AreDistinct};
ghost use Rattle.bus_line.specs.Stations.{IsWake, sooner};
ghost use Rattle.cycle_engine.specs.Stations.{AreDueTriggers, AreNodes, announced, due_from, due_list, frame_by_nodes};
ghost use Rattle.cycle_engine.specs.Stations.{offered_by_nodes, offered_trigger, triggers_after};
ghost use Rattle.cycle_engine.specs.SyncWindow.{IsSentBy};

use crate::sync_window::{self, Fronts};
use arbitration::Contenders;
use bus_line::Stations;
use bus_line::laws::sooner_wake;
use can_frame::{Frame, KnownFront, TimedFrame};
use cycle_layout::Layout;
use node_model::Node;
use requirement_table::{MOST_SLOTS, Placed};
use std::alloc::{AllocError, Global};
use std::marker::Model;
use trigger_codec::{TriggerFrames, frames_behind};

/// The trigger frames of a cycle that are not sent yet.
#[derive(Clone, Copy)]
pub struct DueTriggerFrames {
    /// The time from which on they are offered, in bit times.
    pub at: u64,
    /// The frames, of which the first one is offered.
    pub frames: TriggerFrames,
}

/// The joint node of a bus, and the trigger frames that are offered next, where there are any.
#[derive(Drop)]
pub struct NodeStations {
    layout: Layout,
    node: Node,
    due: Option<DueTriggerFrames>,
    /// For each slot what is known of the first bits of its frames.
    fronts: Fronts,
}

impl Model for NodeStations {
    ghost use Rattle.cycle_engine.specs.Stations.{AreStations, StationsView, due_list, stationed};

    ghost Value = { StationsView };

    ghost view = { λ s. record { layout = s.layout; triggers = due_list s.due; node = s.node } };

    ghost invariant = { λ s. AreStations (stationed (record {
      layout = s.layout;
      triggers = due_list s.due;
      node = s.node;
    })) };
}

impl NodeStations {
    /// The stations without trigger frames.
    pub fn new(layout: Layout, node: Node) -> NodeStations
        requires nodes { AreNodes layout (node.state ∷ []) }
        ensures stations { result ≡ record { layout = layout; triggers = []; node = node } }
    {
        NodeStations {
            layout,
            node,
            due: None,
            fronts: [KnownFront::new(); MOST_SLOTS as usize],
        }
    }

    /// The layout of the bus.
    pub fn layout(&self) -> &Layout
        ensures layout { result.now ≡ self.now.layout }
    {
        &self.layout
    }

    /// What is true of the node. This does nothing: it brings the fact to a proof.
    pub fn are_known(&self)
        ensures known { AreNodes self.now.layout (self.now.node.state ∷ []) }
    {
        let _ = &self.layout;
    }

    /// The number of requests that are not sent.
    pub fn left(&self) -> usize
        ensures left { result ≡ left self.now.node.state.mail }
    {
        self.node.left()
    }

    /// Makes the node able to learn a list of so many entries without memory.
    pub fn reserve(&mut self, alloc: Global, entries: usize) -> Result<(), AllocError>
        ensures room { OnOk result (entries ≤ self.new.node.spare) }
        ensures layout { self.new.layout ≡ self.old.layout }
        ensures same { self.new.node.state ≡ self.old.node.state }
        ensures spare { self.old.node.spare ≤ self.new.node.spare }
    {
        self.node.reserve(alloc, entries)
    }

    /// Hands a list to the node, which takes each entry as its own.
    pub fn learn(&mut self, placed: &[Placed])
        requires well_placed { IsWellPlaced placed.now }
        requires room { length placed.now ≤ self.old.node.spare }
        ensures layout { self.new.layout ≡ self.old.layout }
        ensures learnt { self.new.node.state
            ≡ learnt (map (with_node self.old.node.state.number) placed.now) self.old.node.state }
        ensures spare { self.old.node.spare ≤ self.new.node.spare }
    {
        self.node.learn_all(placed);
    }

    /// Makes trigger frames the next ones, from a time on.
    pub fn announce(&mut self, at: u64, frames: TriggerFrames)
        requires due { AreDueTriggers self.old.layout (due_from at (frames_left frames)) }
        requires next { self.old.node.state.next < cycles_end }
        ensures announced { self.new ≡ record {
          layout = self.old.layout;
          triggers = due_from at (frames_left frames);
          node = self.old.node;
        } }
        ensures known { AreNodes self.new.layout (self.new.node.state ∷ []) }
    {
        self.due = Some(DueTriggerFrames { at, frames });
    }

    /// The frame of the node, where it offers an identifier at a time.
    fn frame_of_node(&self, at: u64, id: u16) -> Frame
        requires time { at < times_end }
        requires offered { Contains (offered_by_nodes (self.now.node.state ∷ []) at) id }
        ensures frame { result ≡ frame_by_nodes (self.now.node.state ∷ []) at id }
        ensures identifier { result.identifier ≡ id }
    {
        self.node.frame(at, id)
    }

    /// Runs the bus over the node in its synchronous window from `from` on, and puts the frames that start before `until`
    /// behind `out`, which has room for them. The trigger frames were sent. The window ends at `until`.
    pub fn run_window(&mut self, from: u64, until: u64, out: &mut Vec<TimedFrame>)
        requires time { until < times_end }
        requires window { IsInWindow from until self.old.node.state }
        requires room { from < until
            → length out.old.items + ((until - from) / shortest_frame + 1) ≤ vec_capacity out.old }
        ensures layout { self.new.layout ≡ self.old.layout }
        ensures sent { IsSentBy (self.old.node.state ∷ [])
            (self.new.node.state ∷ []) from until out.old.items out.new.items }
        ensures capacity { vec_capacity out.old ≤ vec_capacity out.new }
        ensures spare { self.new.node.spare ≡ self.old.node.spare }
    {
        sync_window::run_window(&mut self.node, &mut self.fronts, from, until, out);
        self.due = None;
    }
}

impl Stations for NodeStations {
    ghost use Rattle.std.specs.Prelude.{ℕ};
    ghost use Rattle.cycle_engine.specs.Stations.{Stationed, cycle_line, stationed};

    ghost State = { Stationed };

    ghost line = { cycle_line };

    ghost state = { stationed };

    ghost Fixed = { ℕ };

    ghost fixed = { λ s. s.node.spare };

    fn offers(&self, at: u64, ids: &mut Contenders) {
        ids.clear();
        push_trigger(&self.due, at, ids);
        push_offer(self.node.offer(at), ids);
    }

    fn wake(&self, at: u64) -> Option<u64> {
        sooner_wake();
        sooner(wake_of_trigger(&self.due, at), self.node.next_offer(at))
    }

    fn frame(&self, at: u64, id: u16) -> Frame {
        match self.due {
            Some(due) => {
                if due.frames.next.id() == id {
                    due.frames.next
                } else {
                    self.frame_of_node(at, id)
                }
            }
            None => self.frame_of_node(at, id),
        }
    }

    fn sent(&mut self, sent: &TimedFrame) {
        self.node.hear(sent);
        take_due(&mut self.due, sent.frame.id());
    }
}

/// Adds an identifier to the contenders, where there is one.
fn push_offer(offer: Option<u16>, ids: &mut Contenders)
    requires few { length ids.old ≤ 1 }
    requires distinct { AreDistinct (ids.old ++ cons_option offer []) }
    ensures pushed { ids.new ≡ ids.old ++ cons_option offer [] }
{
    if let Some(id) = offer {
        ids.push(id);
    }
}

/// The sooner of two times, where there is one.
fn sooner(one: Option<u64>, other: Option<u64>) -> Option<u64>
    ensures sooner { result ≡ sooner one other }
{
    match (one, other) {
        (Some(one), Some(other)) => Some(one.min(other)),
        (one, None) => one,
        (None, other) => other,
    }
}

/// Adds the identifier of the first of the trigger frames to no contenders, where it is offered at this time.
fn push_trigger(due: &Option<DueTriggerFrames>, at: u64, ids: &mut Contenders)
    requires empty { ids.old ≡ [] }
    ensures pushed { ids.new ≡ offered_trigger (due_list due.now) at }
{
    if let Some(due) = due {
        if due.at <= at {
            ids.push(due.frames.next.id());
        }
    }
}

/// The least time behind `at` at which the first of the trigger frames is offered while nothing is sent.
fn wake_of_trigger(due: &Option<DueTriggerFrames>, at: u64) -> Option<u64>
    requires time { at < times_end }
    ensures wake { IsWake (offered_trigger (due_list due.now)) at result }
{
    let due = due.as_ref()?;
    Some(due.at.max(at + 1))
}

/// Takes the first of the trigger frames away where it has the identifier of a frame that was sent.
fn take_due(due: &mut Option<DueTriggerFrames>, id: u16)
    ensures left { due_list due.new ≡ triggers_after id (due_list due.old) }
{
    if let Some(first) = due {
        if first.frames.next.id() == id {
            *due = behind(first);
        }
    }
}

/// The trigger frames that are left once the first of them was sent.
fn behind(due: &DueTriggerFrames) -> Option<DueTriggerFrames>
    ensures left { due_list result ≡ drop 1 (due_list (Some due.now)) }
{
    match frames_behind(&due.frames) {
        Some(frames) => Some(DueTriggerFrames { at: due.at, frames }),
        None => None,
    }
}
