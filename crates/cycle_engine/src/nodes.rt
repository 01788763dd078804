//! The nodes of a bus.

ghost use Rattle.std.specs.Prelude.{◌≡◌, ℕ, ◌+◌, ◌*◌, ◌/◌, ◌^◌, ◌<◌, ◌≤◌, ◌++◌, [], All, AllPairs, Any, IfOk, IfSome, List};
ghost use Rattle.std.specs.Prelude.{OnOk, Some, length, map, slice_get, vec_capacity};
ghost use Rattle.profile.specs.Limits.{arrivals_end, cycles_end, most_nodes, shortest_frame};
ghost use Rattle.can_frame.specs.declared.data_frame.TimedFrame.{TimedFrame};
ghost use Rattle.cycle_layout.specs.Layout.{IsLayout};
ghost use Rattle.requirement_table.specs.declared.entries.Placed.{Placed};
ghost use Rattle.requirement_table.specs.Table.{IsWellPlaced};
ghost use Rattle.requirement_table.specs.Instance.{bytes_of};
ghost use Rattle.async_window.specs.declared.request.Owner.{Owner};
ghost use Rattle.async_window.specs.declared.request.Request.{Request};
ghost use Rattle.async_window.specs.Owners.{AreOwners};
ghost use Rattle.bus_line.specs.Trace.{Follows};
ghost use Rattle.node_model.specs.Node.{fresh_node};
ghost use Rattle.cycle_engine.specs.Joint.{joint_entries, joint_owners, known_by};
ghost use Rattle.cycle_engine.specs.Nodes.{CanLearn, HaveSpare, IsBefore, IsBus, IsNumber, KeepSpare, heard_by};
ghost use Rattle.cycle_engine.specs.Nodes.{learnt_by, left_in, opening_of, states_of};
ghost use Rattle.cycle_engine.specs.Offered.{offered_in};

use crate::joint;
use crate::laws::OneCycle;
use crate::stations::NodeStations;
use async_window::laws::{taking_laws, unsent_laws};
use async_window::{Owner, Request};
use bus_line::laws::same_along;
use can_frame::TimedFrame;
use cycle_layout::Layout;
use node_model::Node;
use node_model::laws::{sends_its_slots, stays_a_node};
use requirement_table::{Order, Placed, PlacedList};
use std::alloc::{AllocError, Global};
use std::marker::Model;

/// The nodes of a bus. Contracts see the layout and the nodes, each with what it knows.
///
/// All nodes hear the same frames, no two own one identifier, and no two may send a slot in one cycle. So one node stands
/// for all of them, the joint node: it owns all identifiers and knows all entries. What each node knows is its part of
/// that.
#[derive(Drop)]
pub struct Nodes {
    /// The joint node as a station on the bus. It has number 0, and so have its owners and its entries.
    stations: NodeStations,
    /// The number of nodes.
    count: u8,
    /// Who owns which identifier.
    owners: Vec<Owner>,
    /// The list that the nodes learnt.
    placed: Vec<Placed>,
}

impl Model for Nodes {
    ghost use Rattle.std.specs.Prelude.{min, vec_capacity};
    ghost use Rattle.cycle_engine.specs.Joint.{IsJoint, parts_of};
    ghost use Rattle.cycle_engine.specs.Nodes.{NodesView};

    ghost Value = { NodesView };

    ghost view = { λ n. record {
      layout = n.stations.layout;
      nodes = parts_of n.owners.items n.placed.items
          (min n.stations.node.spare (vec_capacity n.placed)) n.count n.stations.node.state;
    } };

    ghost invariant = { λ n. IsJoint n.owners.items n.placed.items n.count n.stations.node.state };
}

impl Nodes {
    /// The nodes 0 to `nodes` - 1 before cycle 0, which is 1 to 30 nodes.
    ///
    /// The owners' identifiers are distinct and 0x200 to 0x7EF, each owner's node is below `nodes`, and each request's
    /// identifier has an owner. Arrivals never fall and are below 2^40.
    pub fn new(
        alloc: Global,
        layout: Layout,
        nodes: u8,
        owners: &[Owner],
        requests: &[Request],
    ) -> Result<Nodes, AllocError>
        requires some { 1 ≤ nodes }
        requires few { nodes ≤ most_nodes }
        requires owners { AreOwners owners.now }
        requires numbers { All (λ owner. owner.node < nodes) owners.now }
        requires owned { All (λ request. Any (λ owner. owner.id ≡ request.frame.identifier) owners.now) requests.now }
        requires arrivals { AllPairs (λ one other. one.at ≤ other.at) requests.now }
        requires early { All (λ request. request.at < arrivals_end) requests.now }
        ensures layout { IfOk result (λ bus. bus.layout ≡ layout) }
        ensures count { IfOk result (λ bus. length (states_of bus.nodes) ≡ nodes) }
        ensures each { IfOk result (λ bus. (number : ℕ) → number < nodes
            → slice_get (states_of bus.nodes) number ≡ Some (fresh_node layout owners.now requests.now number)) }
        ensures numbers { IfOk result (λ bus. (number : ℕ) → number < nodes → IsNumber (states_of bus.nodes) number) }
        ensures bus { IfOk result (λ bus. IsBus layout owners.now requests.now [] [] 0 (states_of bus.nodes)) }
    {
        unsent_laws();
        let joint = joint_owners(alloc, owners)?;
        let node = Node::new(alloc, 0, layout, joint.as_slice(), requests)?;
        let kept = owners.to_vec(alloc)?;
        Ok(Nodes {
            stations: NodeStations::new(layout, node),
            count: nodes,
            owners: kept,
            placed: Vec::new(alloc),
        })
    }

    /// The number of requests that are not sent.
    pub fn left(&self) -> usize
        ensures left { result ≡ left_in (states_of self.now.nodes) }
    {
        self.stations.left()
    }

    /// The layout of the bus, without memory: that with which the nodes were made.
    pub fn layout(&self) -> &Layout
        ensures layout { result.now ≡ self.now.layout }
    {
        self.stations.layout()
    }

    /// What is true of the layout. This does nothing: it brings the fact to a proof.
    pub(crate) fn are_known(&self)
        ensures known { IsLayout self.now.layout }
    {
        self.stations.layout().is_in_range();
    }

    /// Makes `spare` of the nodes at least `entries`: then each can learn a list of so many entries without memory.
    pub fn reserve(&mut self, alloc: Global, entries: usize) -> Result<(), AllocError>
        ensures room { OnOk result (HaveSpare entries self.new.nodes) }
        ensures same { states_of self.new.nodes ≡ states_of self.old.nodes }
        ensures layout { self.new.layout ≡ self.old.layout }
        ensures spare { KeepSpare self.old.nodes self.new.nodes }
    {
        let additional = entries.saturating_sub(self.placed.len());
        self.placed.reserve(additional)?;
        self.stations.reserve(alloc, entries)
    }

    /// Makes the nodes able to learn a list without memory, where there is one.
    pub fn reserve_for(
        &mut self,
        alloc: Global,
        learned: &Option<PlacedList>,
    ) -> Result<(), AllocError>
        ensures room { OnOk result (CanLearn learned.now self.new.nodes) }
        ensures same { states_of self.new.nodes ≡ states_of self.old.nodes }
        ensures layout { self.new.layout ≡ self.old.layout }
        ensures spare { KeepSpare self.old.nodes self.new.nodes }
    {
        match learned {
            Some(list) => self.reserve(alloc, list.as_slice().len()),
            None => Ok(()),
        }
    }

    /// Hands the list of an order to the nodes, where there is one, and runs its cycle on the bus. The frames of the cycle
    /// take the place of those of the list, which has room for them.
    pub(crate) fn run(&mut self, order: &Order, frames: &mut Vec<TimedFrame>)
        requires cycle { order.now.cycle < cycles_end }
        requires next { All (λ node. node.next ≡ order.now.cycle) (states_of self.old.nodes) }
        requires learned { IfSome order.now.learned IsWellPlaced }
        requires window { order.now.l ≤ self.old.layout.window }
        requires slots { order.now.mask < 2 ^ self.old.layout.slots }
        requires spare { CanLearn order.now.learned self.old.nodes }
        requires room { self.old.layout.cycle / shortest_frame + 1 ≤ vec_capacity frames.old }
        ensures layout { self.new.layout ≡ self.old.layout }
        ensures heard { states_of self.new.nodes
            ≡ heard_by frames.new.items (learnt_by order.now.learned (states_of self.old.nodes)) }
        ensures next { All (λ node. node.next ≡ order.now.cycle + 1) (states_of self.new.nodes) }
        ensures spare { KeepSpare self.old.nodes self.new.nodes }
        ensures capacity { vec_capacity frames.old ≤ vec_capacity frames.new }
        ensures few { length frames.new.items ≤ self.old.layout.cycle / shortest_frame + 1 }
        ensures runs { (owners : List Owner) (requests : List Request) (placed : List Placed) (past : List TimedFrame)
            → IsBefore self.old.layout owners requests placed past order.now
            (learnt_by order.now.learned (states_of self.old.nodes))
            → Follows (offered_in bytes_of self.old.layout requests (opening_of order.now placed)) past
            (order.now.cycle * self.old.layout.cycle)
            ((order.now.cycle + 1) * self.old.layout.cycle) frames.new.items }
        ensures stand { (owners : List Owner) (requests : List Request) (placed : List Placed) (past : List TimedFrame)
            → IsBefore self.old.layout owners requests placed past order.now
            (learnt_by order.now.learned (states_of self.old.nodes))
            → IsBus self.old.layout owners requests placed (past ++ frames.new.items)
            (order.now.cycle + 1) (states_of self.new.nodes) }
    {
        unsent_laws();
        taking_laws();
        sends_its_slots();
        stays_a_node();
        same_along::<OneCycle, OneCycle>();
        self.stations.are_known();
        self.stations.layout().is_in_range();
        learn(&order.learned, &mut self.placed, &mut self.stations);
        joint::run_cycle(order, &mut self.stations, frames);
    }
}

/// The same owners, of which each has number 0.
fn joint_owners(alloc: Global, owners: &[Owner]) -> Result<Vec<Owner>, AllocError>
    ensures owners { IfOk result (λ joint. joint.items ≡ joint_owners owners.now) }
{
    let mut joint = Vec::with_capacity(alloc, owners.len())?;
    for owner in owners {
        joint.push(Owner { node: 0, ..*owner })?;
    }
    Ok(joint)
}

/// Replaces a list by another one, without memory.
fn copy(list: &[Placed], placed: &mut Vec<Placed>)
    requires room { length list.now ≤ vec_capacity placed.old }
    ensures placed { placed.new.items ≡ list.now }
    ensures capacity { vec_capacity placed.old ≤ vec_capacity placed.new }
{
    placed.clear();
    for p in list {
        placed.push_reserved(*p);
    }
}

/// Hands a list to the joint node, where there is one, without memory.
fn learn(learned: &Option<PlacedList>, placed: &mut Vec<Placed>, stations: &mut NodeStations)
    requires number { stations.old.node.state.number ≡ 0 }
    requires entries { stations.old.node.state.entries ≡ joint_entries placed.old.items }
    requires well_placed { IfSome learned.now IsWellPlaced }
    requires room { IfSome learned.now (λ list. length list ≤ vec_capacity placed.old) }
    requires spare { IfSome learned.now (λ list. length list ≤ stations.old.node.spare) }
    ensures placed { placed.new.items ≡ known_by learned.now placed.old.items }
    ensures layout { stations.new.layout ≡ stations.old.layout }
    ensures learnt { stations.new.node.state ≡ record stations.old.node.state { entries = joint_entries placed.new.items } }
    ensures capacity { vec_capacity placed.old ≤ vec_capacity placed.new }
    ensures spare { stations.old.node.spare ≤ stations.new.node.spare }
{
    if let Some(list) = learned {
        copy(list.as_slice(), placed);
        stations.learn(placed.as_slice());
    }
}
