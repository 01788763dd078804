//! Laws about the definitions of this crate. Each function has an empty body but for calls of other laws, and its
//! contract is the law.

ghost use Rattle.std.specs.Prelude.{◌≡◌, ℕ, ◌+◌, ◌*◌, ◌^◌, ◌<◌, ◌≤◌, List, [], ◌∷◌, ◌++◌, All, AllPairs};
ghost use Rattle.async_window.specs.declared.request.Owner.{Owner};
ghost use Rattle.async_window.specs.Owners.{AreOwners};
ghost use Rattle.async_window.specs.Online.{WereRequests, arrived_by};
ghost use Rattle.node_model.specs.Node.{IsNode, NodeState};
ghost use Rattle.cycle_engine.specs.LiveBus.{IsLiveCycle, IsTriggered, live_offers};
ghost use Rattle.cycle_engine.specs.Nodes.{IsBefore, heard_by, opening_of};
ghost use Rattle.bus_line.specs.Trace.{Follows, free_after};
ghost use Rattle.profile.specs.Limits.{cycles_end};
ghost use Rattle.requirement_table.specs.declared.entries.Order.{Order};
ghost use Rattle.requirement_table.specs.declared.entries.Placed.{Placed};
ghost use Rattle.can_frame.specs.declared.data_frame.TimedFrame.{TimedFrame};
ghost use Rattle.cycle_layout.specs.Layout.{CycleLayout, IsLayout};
ghost use Rattle.async_window.specs.declared.request.Request.{Request};
ghost use Rattle.bus_line.specs.Trace.{end_of};
ghost use Rattle.requirement_table.specs.Instance.{Instance, bytes_of};
ghost use Rattle.requirement_table.specs.Opening.{Opening};
ghost use Rattle.node_model.specs.Opening.{end_of_cycle};
ghost use Rattle.cycle_engine.specs.Cycle.{FitsWindow, FollowsTrace, RunsCycle, RunsCycles};
ghost use Rattle.cycle_engine.specs.Offered.{AreAsynchronous, AreOfDistinctCycles, IsCanTrace, SendsWhole};
ghost use Rattle.cycle_engine.specs.Offered.{offered, offered_in};

use bus_line::laws::Offering;

/// What is offered on the bus in opened cycles, as the laws of the bus speak of it. A setting begins with the bytes that
/// an instance sends.
pub struct OpenedCycles;

impl Offering for OpenedCycles {
    ghost Setting = { (Instance → List ℕ) × CycleLayout × List Request × List Opening };

    ghost offers = { λ setting. offered setting.0 setting.1 setting.2 setting.3 };
}

/// What is offered on the bus in one opened cycle, as the laws of the bus speak of it. A setting begins with the bytes
/// that an instance sends.
pub struct OneCycle;

impl Offering for OneCycle {
    ghost Setting = { (Instance → List ℕ) × CycleLayout × List Request × Opening };

    ghost offers = { λ setting. offered_in setting.0 setting.1 setting.2 setting.3 };
}

/// An instance that sends its number sends as many bytes as its entry's length.
pub fn numbers_are_whole()
    ensures whole { SendsWhole bytes_of }
{}

/// There is only one CAN trace of some opened cycles, whatever bytes an instance sends.
pub fn one_can_trace()
    ensures only_one { (sends : Instance → List ℕ) (layout : CycleLayout) (requests : List Request)
        → (openings : List Opening) (count : ℕ) (one other : List TimedFrame)
        → IsLayout layout → AreAsynchronous requests → AreOfDistinctCycles openings
        → IsCanTrace sends layout requests openings count one
        → IsCanTrace sends layout requests openings count other → one ≡ other }
{}

/// One opened cycle more, whatever bytes an instance sends. Where the trace so far is the CAN trace of the openings so
/// far, all of cycles below the new one, and has ended by its start, and the frames of the new cycle follow it by what is
/// offered in that cycle, then trace and frames are the CAN trace of the openings with the new one. Where each instance
/// sends as many bytes as its entry's length, and the flagged slots each have an instance that may be sent, and together
/// fit into the largest synchronous window, all frames end by the cycle's end, and the cycle sends what its opening says.
pub fn next_cycle()
    ensures can_trace { (sends : Instance → List ℕ) (layout : CycleLayout) (requests : List Request)
        → (openings : List Opening) (opening : Opening) (trace frames : List TimedFrame) → IsLayout layout
        → FollowsTrace sends layout requests openings opening trace frames
        → IsCanTrace sends layout requests (openings ++ opening ∷ []) (opening.cycle + 1) (trace ++ frames) }
    ensures ended { (sends : Instance → List ℕ) (layout : CycleLayout) (requests : List Request)
        → (openings : List Opening) (opening : Opening) (trace frames : List TimedFrame) → IsLayout layout
        → FollowsTrace sends layout requests openings opening trace frames
        → SendsWhole sends → AreAsynchronous requests → FitsWindow layout opening
        → All (λ sent. end_of sent ≤ end_of_cycle layout opening) (trace ++ frames) }
    ensures runs { (sends : Instance → List ℕ) (layout : CycleLayout) (requests : List Request)
        → (openings : List Opening) (opening : Opening) (trace frames : List TimedFrame) → IsLayout layout
        → FollowsTrace sends layout requests openings opening trace frames
        → SendsWhole sends → AreAsynchronous requests → FitsWindow layout opening
        → RunsCycle sends layout opening frames }
    ensures all_run { (sends : Instance → List ℕ) (layout : CycleLayout) (requests : List Request)
        → (openings : List Opening) (opening : Opening) (trace frames : List TimedFrame) → IsLayout layout
        → FollowsTrace sends layout requests openings opening trace frames
        → SendsWhole sends → AreAsynchronous requests → FitsWindow layout opening
        → RunsCycles sends layout openings trace
        → RunsCycles sends layout (openings ++ opening ∷ []) (trace ++ frames) }
{}

/// A cycle of a bus whose nodes take requests while they run, and send bytes of their users. Its trigger frames are sent
/// at its start, one at once behind the other, and all nodes hear each frame. Each node is given the requests that have
/// arrived. What arbitration decides between them is then what is offered in the cycle, where all requests are known.
pub fn live_nodes()
    ensures each { (sends : Instance → List ℕ) (layout : CycleLayout) (owners : List Owner) (requests : List Request)
        (placed : List Placed) (past : List TimedFrame) (order : Order) (nodes : List NodeState) (sent later : List TimedFrame)
        → IsLayout layout → AllPairs (λ one other. one.at ≤ other.at) requests → All IsNode nodes
        → IsBefore layout owners requests placed past order nodes
        → order.cycle < cycles_end → order.l ≤ layout.window → order.mask < 2 ^ layout.slots
        → IsTriggered layout order nodes sent
        → WereRequests (arrived_by (order.cycle * layout.cycle) requests) past
        → Follows (live_offers sends owners requests (opening_of order placed) (past ++ sent) (heard_by sent nodes))
        (past ++ sent) (free_after (order.cycle * layout.cycle) sent) ((order.cycle + 1) * layout.cycle) later
        → IsLiveCycle sends layout owners requests placed past order nodes sent later }
{}
