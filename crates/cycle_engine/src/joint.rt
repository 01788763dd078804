//! One cycle on the bus of the joint node.

ghost use Rattle.std.specs.Prelude.{◌≡◌, ℕ, ◌+◌, ◌*◌, ◌/◌, ◌^◌, ◌<◌, ◌≤◌, ◌++◌, [], ◌∷◌, List, fold, length, vec_capacity};
ghost use Rattle.profile.specs.Limits.{cycles_end, shortest_frame};
ghost use Rattle.can_frame.specs.declared.data_frame.TimedFrame.{TimedFrame};
ghost use Rattle.requirement_table.specs.declared.entries.Placed.{Placed};
ghost use Rattle.requirement_table.specs.Instance.{bytes_of};
ghost use Rattle.async_window.specs.declared.request.Owner.{Owner};
ghost use Rattle.async_window.specs.declared.request.Request.{Request};
ghost use Rattle.trigger_codec.specs.Bytes.{triggers_with};
ghost use Rattle.bus_line.specs.Trace.{Follows};
ghost use Rattle.bus_line.specs.Stations.{offers_of};
ghost use Rattle.node_model.specs.Node.{after_hearing};
ghost use Rattle.cycle_engine.specs.Joint.{BeginsWithTriggers};
ghost use Rattle.cycle_engine.specs.Nodes.{IsBefore, IsBus, opening_of};
ghost use Rattle.cycle_engine.specs.Offered.{offered_in};
ghost use Rattle.cycle_engine.specs.Stations.{announced, cycle_line};
ghost use Rattle.cycle_engine.specs.SyncWindow.{IsBeforeWindow};

use crate::stations::NodeStations;
use bus_line::run_until;
use can_frame::TimedFrame;
use requirement_table::Order;
use trigger_codec::encode_all;

/// Runs the cycle of an order on the bus. The frames of the cycle take the place of those of the list, which has room for
/// them: one for every 47 bit times, and one.
///
/// The order's cycle is the node's next one, below 2^42. `l` is at most the largest synchronous window. The flagged slots
/// are below the layout's number of slots. What the order says of entries is not looked at.
pub fn run_cycle(order: &Order, stations: &mut NodeStations, frames: &mut Vec<TimedFrame>)
    requires cycle { order.now.cycle < cycles_end }
    requires next { stations.old.node.state.next ≡ order.now.cycle }
    requires window { order.now.l ≤ stations.old.layout.window }
    requires slots { order.now.mask < 2 ^ stations.old.layout.slots }
    requires room { stations.old.layout.cycle / shortest_frame + 1 ≤ vec_capacity frames.old }
    ensures layout { stations.new.layout ≡ stations.old.layout }
    ensures heard { stations.new.node.state ≡ fold after_hearing stations.old.node.state frames.new.items }
    ensures next { stations.new.node.state.next ≡ order.now.cycle + 1 }
    ensures spare { stations.new.node.spare ≡ stations.old.node.spare }
    ensures capacity { vec_capacity frames.old ≤ vec_capacity frames.new }
    ensures few { length frames.new.items ≤ stations.old.layout.cycle / shortest_frame + 1 }
    ensures opens { BeginsWithTriggers stations.old.layout order.now frames.new.items }
    ensures runs { (owners : List Owner) (requests : List Request) (placed : List Placed) (past : List TimedFrame)
        → IsBefore stations.old.layout owners requests placed past order.now (stations.old.node.state ∷ [])
        → Follows (offered_in bytes_of stations.old.layout requests (opening_of order.now placed)) past
        (order.now.cycle * stations.old.layout.cycle)
        ((order.now.cycle + 1) * stations.old.layout.cycle) frames.new.items }
    ensures stand { (owners : List Owner) (requests : List Request) (placed : List Placed) (past : List TimedFrame)
        → IsBefore stations.old.layout owners requests placed past order.now (stations.old.node.state ∷ [])
        → IsBus stations.old.layout owners requests placed (past ++ frames.new.items)
        (order.now.cycle + 1) (stations.new.node.state ∷ []) }
{
    order.mask.known();
    stations.are_known();
    frames.clear();
    run(order, stations, frames);
}

/// Runs the bus through the cycle of an order, and puts the frames into `frames`, which has room for them.
fn run(order: &Order, stations: &mut NodeStations, frames: &mut Vec<TimedFrame>)
    requires cycle { order.now.cycle < cycles_end }
    requires next { stations.old.node.state.next ≡ order.now.cycle }
    requires window { order.now.l ≤ stations.old.layout.window }
    requires slots { order.now.mask < 2 ^ stations.old.layout.slots }
    requires empty { frames.old.items ≡ [] }
    requires room { stations.old.layout.cycle / shortest_frame + 1 ≤ vec_capacity frames.old }
    ensures layout { stations.new.layout ≡ stations.old.layout }
    ensures heard { stations.new.node.state ≡ fold after_hearing stations.old.node.state frames.new.items }
    ensures runs { Follows
        (offers_of cycle_line (announced stations.old.layout (order.now.cycle * stations.old.layout.cycle)
        (triggers_with stations.old.layout.slots order.now.cycle order.now.l order.now.mask)
        (stations.old.node.state ∷ [])))
        [] (order.now.cycle * stations.old.layout.cycle)
        ((order.now.cycle + 1) * stations.old.layout.cycle) frames.new.items }
    ensures capacity { vec_capacity frames.old ≤ vec_capacity frames.new }
    ensures spare { stations.new.node.spare ≡ stations.old.node.spare }
{
    stations.are_known();
    let layout = *stations.layout();
    let end = (order.cycle + 1) * u64::from(layout.cycle());
    let from = run_up_to_window(order, stations, frames);
    stations.run_window(from, end, frames);
}

/// Runs the bus through the cycle of an order up to its synchronous window, and puts the frames into `frames`, which has
/// room for them. The answer is the first time in that window at which the bus is free.
fn run_up_to_window(order: &Order, stations: &mut NodeStations, frames: &mut Vec<TimedFrame>) -> u64
    requires cycle { order.now.cycle < cycles_end }
    requires next { stations.old.node.state.next ≡ order.now.cycle }
    requires window { order.now.l ≤ stations.old.layout.window }
    requires slots { order.now.mask < 2 ^ stations.old.layout.slots }
    requires empty { frames.old.items ≡ [] }
    requires room { stations.old.layout.cycle / shortest_frame + 1 ≤ vec_capacity frames.old }
    ensures layout { stations.new.layout ≡ stations.old.layout }
    ensures before_window { IsBeforeWindow stations.old.layout order.now.cycle order.now.l order.now.mask
        (stations.old.node.state ∷ []) (stations.new.node.state ∷ []) frames.new.items result }
    ensures capacity { vec_capacity frames.old ≤ vec_capacity frames.new }
    ensures spare { stations.new.node.spare ≡ stations.old.node.spare }
{
    order.mask.known();
    stations.are_known();
    let layout = *stations.layout();
    layout.is_in_range();
    let start = order.cycle * u64::from(layout.cycle());
    let window = layout.sync_start(order.cycle, order.l);
    let frames_due = encode_all(layout.triggers(), order.cycle, order.l, order.mask);
    stations.announce(start, frames_due);
    window.max(run_until(stations, start, window, frames))
}
