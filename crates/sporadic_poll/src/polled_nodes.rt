//! The nodes of a bus whose polled slots carry requests.

ghost use Rattle.std.specs.Prelude.{◌≡◌, ℕ, ◌+◌, ◌*◌, ◌^◌, ◌<◌, ◌≤◌, [], ◌∷◌, ◌++◌, All, IfOk, IfSome, List, OnErr};
ghost use Rattle.std.specs.Prelude.{OnOk, Option, Some, length, option_map};
ghost use Rattle.std.specs.List.{slice_get};
ghost use Rattle.profile.specs.Limits.{cycles_end, most_nodes};
ghost use Rattle.can_frame.specs.declared.data_frame.TimedFrame.{TimedFrame};
ghost use Rattle.requirement_table.specs.declared.entries.Placed.{Placed};
ghost use Rattle.requirement_table.specs.Opening.{Opening};
ghost use Rattle.requirement_table.specs.Table.{IsWellPlaced};
ghost use Rattle.bus_line.specs.Trace.{Follows};
ghost use Rattle.node_model.specs.Node.{fresh_node};
ghost use Rattle.cycle_engine.specs.Nodes.{CanLearn, IsBus, states_of};
ghost use Rattle.cycle_engine.specs.Offered.{offered_in};
ghost use Rattle.sporadic_poll.specs.Polled.{polled_bytes};
ghost use Rattle.sporadic_poll.specs.PolledNodes.{AreBefore, AreNext, HaveHeard, opened_by};
ghost use Rattle.cycle_engine.specs.Joint.{known_by};
ghost use Rattle.sporadic_poll.specs.Rides.{AreFates, AreRidesAt, HaveRidden};

use crate::rides::Rides;
use crate::stream::{Stream, StreamBytes};
use can_frame::TimedFrame;
use cycle_engine::{Nodes, Segment, run_cycle_in};
use cycle_layout::Layout;
use profile::MOST_FRAMES;
use requirement_table::{Order, Placed, PlacedList};
use std::alloc::{AllocError, Global};
use std::marker::Model;

/// The nodes of a bus whose polled slots carry requests. Contracts see the nodes, what is known of the requests, and
/// the placed entries that the nodes learnt last.
#[derive(Drop)]
pub struct PolledNodes {
    nodes: Nodes,
    rides: Rides,
    placed: Vec<Placed>,
}

impl Model for PolledNodes {
    ghost use Rattle.requirement_table.specs.Table.{IsWellPlaced};
    ghost use Rattle.sporadic_poll.specs.PolledNodes.{PolledView};

    ghost Value = { PolledView };

    ghost view = { λ n. record { nodes = n.nodes; riding = n.rides; placed = n.placed.items } };

    ghost invariant = { λ n. IsWellPlaced n.placed.items };
}

/// A copy of requests.
fn copy_of(alloc: Global, streams: &[Stream]) -> Result<Vec<Stream>, AllocError>
    ensures same { IfOk result (λ copy. copy.items ≡ streams.now) }
{
    let mut copy = Vec::with_capacity(alloc, streams.len())?;
    for stream in streams {
        copy.push(Stream {
            at: stream.at,
            slot: stream.slot,
            payload: StreamBytes::of(stream.payload.as_slice().to_vec(alloc)?),
        })?;
    }
    Ok(copy)
}

/// A copy of a list that nodes learn, where there is one.
fn learned_copy(
    alloc: Global,
    learned: &Option<PlacedList>,
) -> Result<Option<Vec<Placed>>, AllocError>
    ensures same { IfOk result (λ copy. option_map (λ list. list.items) copy ≡ learned.now) }
{
    match learned {
        Some(list) => Ok(Some(list.as_slice().to_vec(alloc)?)),
        None => Ok(None),
    }
}

impl PolledNodes {
    /// The nodes 0 to `nodes` - 1 before cycle 0, which is 1 to 30 nodes, with requests that all wait. Each request is
    /// of a slot below the layout's number of slots.
    ///
    /// # Errors
    ///
    /// Only where memory runs out.
    pub fn new(
        alloc: Global,
        layout: Layout,
        nodes: u8,
        streams: &[Stream],
    ) -> Result<PolledNodes, AllocError>
        requires some { 1 ≤ nodes }
        requires few { nodes ≤ most_nodes }
        requires known { All (λ stream. stream.slot < layout.slots) streams.now }
        ensures layout { IfOk result (λ bus. bus.nodes.layout ≡ layout) }
        ensures count { IfOk result (λ bus. length (states_of bus.nodes.nodes) ≡ nodes) }
        ensures each { IfOk result (λ bus. (number : ℕ) → number < nodes
            → slice_get (states_of bus.nodes.nodes) number ≡ Some (fresh_node layout [] [] number)) }
        ensures bus { IfOk result (λ bus. IsBus layout [] [] bus.placed [] 0 (states_of bus.nodes.nodes)) }
        ensures next { IfOk result (AreNext 0) }
        ensures streams { IfOk result (λ bus. bus.riding.queued.streams ≡ streams.now) }
        ensures slots { IfOk result (λ bus. length bus.riding.queued.next ≡ layout.slots) }
        // Nothing was taken or sent before the first cycle.
        ensures fresh { IfOk result (λ bus. (carried : ℕ → ℕ → Option ℕ) → HaveRidden carried 0 bus.riding) }
        ensures fates { IfOk result (λ bus. (carried : ℕ → ℕ → Option ℕ)
            → AreFates streams.now [] carried bus.riding.fates) }
    {
        layout.is_in_range();
        let copy = copy_of(alloc, streams)?;
        Ok(PolledNodes {
            nodes: Nodes::new(alloc, layout, nodes, &[], &[])?,
            rides: Rides::new(alloc, copy, layout.slots())?,
            placed: Vec::new(alloc),
        })
    }

    /// What became of the requests.
    pub fn rides(&self) -> &Rides
        ensures riding { result.now ≡ self.now.riding }
    {
        &self.rides
    }

    /// Takes the memory that the cycle of an order needs of the nodes.
    fn reserve_for(&mut self, alloc: Global, order: &Order) -> Result<(), AllocError>
        ensures room { OnOk result (CanLearn order.now.learned self.new.nodes.nodes) }
        ensures same { states_of self.new.nodes.nodes ≡ states_of self.old.nodes.nodes }
        ensures layout { self.new.nodes.layout ≡ self.old.nodes.layout }
        ensures riding { self.new.riding ≡ self.old.riding }
        ensures placed { self.new.placed ≡ self.old.placed }
    {
        match &order.learned {
            Some(list) => self.nodes.reserve(alloc, list.as_slice().len()),
            None => Ok(()),
        }
    }

    /// Keeps the list that the nodes learn, where there is one.
    fn know(&mut self, learned: Option<Vec<Placed>>)
        requires well_placed { IfSome learned (λ list. IsWellPlaced list.items) }
        ensures placed { self.new.placed ≡ known_by (option_map (λ list. list.items) learned) self.old.placed }
        ensures nodes { self.new.nodes ≡ self.old.nodes }
        ensures riding { self.new.riding ≡ self.old.riding }
    {
        if let Some(list) = learned {
            self.placed = list;
        }
    }
}

/// Runs one cycle on a bus whose polled slots carry requests. The nodes learn the order's list, where there is one, and
/// hear the cycle as by `run_cycle`. Each instance of a polled slot that is released in the cycle takes its request.
/// The frames carry the requests of their instances.
///
/// The conditions are those of `run_cycle`. All memory is taken first: after an error the nodes, the requests and the
/// list are as before, and the call may be made again.
///
/// # Errors
///
/// Only where memory runs out.
pub fn run_polled(
    alloc: Global,
    order: &Order,
    nodes: &mut PolledNodes,
) -> Result<Vec<TimedFrame>, AllocError>
    requires cycle { order.now.cycle < cycles_end }
    requires next { AreNext order.now.cycle nodes.old }
    requires learned { IfSome order.now.learned IsWellPlaced }
    requires window { order.now.l ≤ nodes.old.nodes.layout.window }
    requires slots { order.now.mask < 2 ^ nodes.old.nodes.layout.slots }
    ensures layout { nodes.new.nodes.layout ≡ nodes.old.nodes.layout }
    ensures streams { nodes.new.riding.queued.streams ≡ nodes.old.riding.queued.streams }
    ensures number { length nodes.new.riding.queued.next ≡ length nodes.old.riding.queued.next }
    ensures placed { OnOk result (nodes.new.placed ≡ known_by order.now.learned nodes.old.placed) }
    ensures next { OnOk result (AreNext (order.now.cycle + 1) nodes.new) }
    // The nodes have learnt the list and heard the cycle as by `run_cycle`.
    ensures heard { OnOk result (HaveHeard order.now nodes.old nodes.new) }
    // Instances that are released in the cycle have taken their requests by *Ride*.
    ensures taken { OnOk result ((lengths carried : ℕ → ℕ → Option ℕ)
        → AreRidesAt nodes.old.nodes.layout.cycle nodes.old.riding.queued.streams (opened_by order.now nodes.old.placed)
        lengths carried
        → HaveRidden carried order.now.cycle nodes.old.riding
        → HaveRidden carried (order.now.cycle + 1) nodes.new.riding) }
    // The frames are the part of the polled trace in the order's cycle.
    ensures runs { IfOk result (λ frames. (plain past : List TimedFrame) (lengths carried : ℕ → ℕ → Option ℕ)
        → AreBefore order.now plain nodes.old
        → AreRidesAt nodes.old.nodes.layout.cycle nodes.old.riding.queued.streams (opened_by order.now nodes.old.placed)
        lengths carried
        → HaveRidden carried order.now.cycle nodes.old.riding
        → All (λ sent. sent.start < order.now.cycle * nodes.old.nodes.layout.cycle) past
        → Follows (offered_in (polled_bytes nodes.old.riding.queued.streams carried) nodes.old.nodes.layout []
        (opened_by order.now nodes.old.placed)) past (order.now.cycle * nodes.old.nodes.layout.cycle)
        ((order.now.cycle + 1) * nodes.old.nodes.layout.cycle) frames.items) }
    // What became of the requests is known after this cycle too.
    ensures fates { OnOk result ((openings : List Opening) (plain : List TimedFrame)
        (lengths carried : ℕ → ℕ → Option ℕ)
        → AreBefore order.now plain nodes.old
        → AreRidesAt nodes.old.nodes.layout.cycle nodes.old.riding.queued.streams (opened_by order.now nodes.old.placed)
        lengths carried
        → HaveRidden carried order.now.cycle nodes.old.riding
        → AreFates nodes.old.riding.queued.streams openings carried nodes.old.riding.fates
        → AreFates nodes.old.riding.queued.streams (openings ++ opened_by order.now nodes.old.placed ∷ []) carried
        nodes.new.riding.fates) }
    // After an error they are as before.
    ensures memory { OnErr result (states_of nodes.new.nodes.nodes ≡ states_of nodes.old.nodes.nodes) }
    ensures riding { OnErr result (nodes.new.riding ≡ nodes.old.riding) }
    ensures known { OnErr result (nodes.new.placed ≡ nodes.old.placed) }
{
    let layout = *nodes.nodes.layout();
    layout.is_in_range();
    let mut frames = Vec::with_capacity(alloc, MOST_FRAMES)?;
    let mut plain = Segment::new(alloc, &layout)?;
    let learned = learned_copy(alloc, &order.learned)?;
    nodes.reserve_for(alloc, order)?;
    run_cycle_in(order, &mut nodes.nodes, &mut plain);
    nodes.know(learned);
    let PolledNodes { rides, placed, .. } = nodes;
    rides.carry(
        &layout,
        order.cycle,
        placed.as_slice(),
        plain.frames(),
        &mut frames,
    );
    Ok(frames)
}
