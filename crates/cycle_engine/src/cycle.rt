//! The run of one cycle on the bus.

ghost use Rattle.std.specs.Prelude.{◌≡◌, ◌+◌, ◌*◌, ◌/◌, ◌^◌, ◌<◌, ◌≤◌, ◌++◌, All, IfOk, IfSome, List, OnErr, OnOk};
ghost use Rattle.std.specs.Prelude.{length, vec_capacity};
ghost use Rattle.profile.specs.Limits.{cycles_end, shortest_frame};
ghost use Rattle.can_frame.specs.declared.data_frame.TimedFrame.{TimedFrame};
ghost use Rattle.requirement_table.specs.declared.entries.Placed.{Placed};
ghost use Rattle.requirement_table.specs.Table.{IsWellPlaced};
ghost use Rattle.requirement_table.specs.Instance.{bytes_of};
ghost use Rattle.async_window.specs.declared.request.Owner.{Owner};
ghost use Rattle.async_window.specs.declared.request.Request.{Request};
ghost use Rattle.bus_line.specs.Trace.{Follows};
ghost use Rattle.cycle_engine.specs.Offered.{offered_in};
ghost use Rattle.cycle_engine.specs.Nodes.{CanLearn, IsBefore, IsBus, KeepSpare, heard_by, learnt_by, opening_of};
ghost use Rattle.cycle_engine.specs.Nodes.{states_of};

use crate::nodes::Nodes;
use crate::segment::Segment;
use can_frame::TimedFrame;
use requirement_table::Order;
use std::alloc::{AllocError, Global};

/// Runs one cycle on the bus: the nodes learn the order's list, where there is one, the master sends the trigger frames,
/// and the nodes send what they are to send.
///
/// The order's cycle is the nodes' next one, below 2^42. `l` is the sum of the worst lengths of the flagged slots, and
/// at most the largest synchronous window. The flagged slots are below the layout's number of slots. A list that is
/// learned is well placed. Of each flagged slot some node knows, once the list is learnt, an instance that may be sent in
/// the cycle. All memory is taken first: after an error the nodes are as before, and the call may be made again.
pub fn run_cycle(alloc: Global, order: &Order, nodes: &mut Nodes) -> Result<Segment, AllocError>
    requires cycle { order.now.cycle < cycles_end }
    requires next { All (λ node. node.next ≡ order.now.cycle) (states_of nodes.old.nodes) }
    requires learned { IfSome order.now.learned IsWellPlaced }
    requires window { order.now.l ≤ nodes.old.layout.window }
    requires slots { order.now.mask < 2 ^ nodes.old.layout.slots }
    // The nodes have learnt the list, then heard the frames of the segment, in their order, and nothing else.
    ensures layout { nodes.new.layout ≡ nodes.old.layout }
    ensures heard { IfOk result (λ segment. states_of nodes.new.nodes
        ≡ heard_by segment (learnt_by order.now.learned (states_of nodes.old.nodes))) }
    ensures next { OnOk result (All (λ node. node.next ≡ order.now.cycle + 1) (states_of nodes.new.nodes)) }
    ensures memory { OnErr result (states_of nodes.new.nodes ≡ states_of nodes.old.nodes) }
    ensures spare { KeepSpare nodes.old.nodes nodes.new.nodes }
    // The segment is the part of the CAN trace in the order's cycle, whatever bus the nodes stand for.
    ensures runs { IfOk result
        (λ segment. (owners : List Owner) (requests : List Request) (placed : List Placed) (past : List TimedFrame)
        → IsBefore nodes.old.layout owners requests placed past order.now
        (learnt_by order.now.learned (states_of nodes.old.nodes))
        → Follows (offered_in bytes_of nodes.old.layout requests (opening_of order.now placed)) past
        (order.now.cycle * nodes.old.layout.cycle) ((order.now.cycle + 1) * nodes.old.layout.cycle) segment) }
    // Afterwards they stand for that bus before the next cycle.
    ensures stand { IfOk result
        (λ segment. (owners : List Owner) (requests : List Request) (placed : List Placed) (past : List TimedFrame)
        → IsBefore nodes.old.layout owners requests placed past order.now
        (learnt_by order.now.learned (states_of nodes.old.nodes))
        → IsBus nodes.old.layout owners requests placed (past ++ segment)
        (order.now.cycle + 1) (states_of nodes.new.nodes)) }
{
    let mut segment = Segment::new(alloc, nodes.layout())?;
    nodes.reserve_for(alloc, &order.learned)?;
    run_cycle_in(order, nodes, &mut segment);
    Ok(segment)
}

/// The same without memory, where the nodes can learn the list of the order without memory. The frames of the cycle
/// take the place of those of the segment: no more than one for every 47 bit times of the cycle, and one. Nothing
/// refuses it.
pub fn run_cycle_in(order: &Order, nodes: &mut Nodes, segment: &mut Segment)
    requires cycle { order.now.cycle < cycles_end }
    requires next { All (λ node. node.next ≡ order.now.cycle) (states_of nodes.old.nodes) }
    requires learned { IfSome order.now.learned IsWellPlaced }
    requires window { order.now.l ≤ nodes.old.layout.window }
    requires slots { order.now.mask < 2 ^ nodes.old.layout.slots }
    requires spare { CanLearn order.now.learned nodes.old.nodes }
    ensures layout { nodes.new.layout ≡ nodes.old.layout }
    ensures heard { states_of nodes.new.nodes
        ≡ heard_by segment.new (learnt_by order.now.learned (states_of nodes.old.nodes)) }
    ensures next { All (λ node. node.next ≡ order.now.cycle + 1) (states_of nodes.new.nodes) }
    ensures spare { KeepSpare nodes.old.nodes nodes.new.nodes }
    ensures few { length segment.new ≤ nodes.old.layout.cycle / shortest_frame + 1 }
    ensures runs { (owners : List Owner) (requests : List Request) (placed : List Placed) (past : List TimedFrame)
        → IsBefore nodes.old.layout owners requests placed past order.now
        (learnt_by order.now.learned (states_of nodes.old.nodes))
        → Follows (offered_in bytes_of nodes.old.layout requests (opening_of order.now placed)) past
        (order.now.cycle * nodes.old.layout.cycle) ((order.now.cycle + 1) * nodes.old.layout.cycle) segment.new }
    ensures stand { (owners : List Owner) (requests : List Request) (placed : List Placed) (past : List TimedFrame)
        → IsBefore nodes.old.layout owners requests placed past order.now
        (learnt_by order.now.learned (states_of nodes.old.nodes))
        → IsBus nodes.old.layout owners requests placed (past ++ segment.new)
        (order.now.cycle + 1) (states_of nodes.new.nodes) }
{
    nodes.are_known();
    run_cycle_into(order, nodes, &mut segment.frames);
}

/// The same into a list of frames that has room for those of a cycle of these nodes: one for every 47 bit times, and
/// one. The frames of the cycle take the place of those of the list.
pub fn run_cycle_into(order: &Order, nodes: &mut Nodes, frames: &mut Vec<TimedFrame>)
    requires cycle { order.now.cycle < cycles_end }
    requires next { All (λ node. node.next ≡ order.now.cycle) (states_of nodes.old.nodes) }
    requires learned { IfSome order.now.learned IsWellPlaced }
    requires window { order.now.l ≤ nodes.old.layout.window }
    requires slots { order.now.mask < 2 ^ nodes.old.layout.slots }
    requires spare { CanLearn order.now.learned nodes.old.nodes }
    requires room { nodes.old.layout.cycle / shortest_frame + 1 ≤ vec_capacity frames.old }
    ensures layout { nodes.new.layout ≡ nodes.old.layout }
    ensures heard { states_of nodes.new.nodes
        ≡ heard_by frames.new.items (learnt_by order.now.learned (states_of nodes.old.nodes)) }
    ensures next { All (λ node. node.next ≡ order.now.cycle + 1) (states_of nodes.new.nodes) }
    ensures spare { KeepSpare nodes.old.nodes nodes.new.nodes }
    ensures capacity { vec_capacity frames.old ≤ vec_capacity frames.new }
    ensures few { length frames.new.items ≤ nodes.old.layout.cycle / shortest_frame + 1 }
    ensures runs { (owners : List Owner) (requests : List Request) (placed : List Placed) (past : List TimedFrame)
        → IsBefore nodes.old.layout owners requests placed past order.now
        (learnt_by order.now.learned (states_of nodes.old.nodes))
        → Follows (offered_in bytes_of nodes.old.layout requests (opening_of order.now placed)) past
        (order.now.cycle * nodes.old.layout.cycle) ((order.now.cycle + 1) * nodes.old.layout.cycle) frames.new.items }
    ensures stand { (owners : List Owner) (requests : List Request) (placed : List Placed) (past : List TimedFrame)
        → IsBefore nodes.old.layout owners requests placed past order.now
        (learnt_by order.now.learned (states_of nodes.old.nodes))
        → IsBus nodes.old.layout owners requests placed (past ++ frames.new.items)
        (order.now.cycle + 1) (states_of nodes.new.nodes) }
{
    nodes.run(order, frames);
}
