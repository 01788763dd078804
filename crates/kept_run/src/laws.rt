//! Laws about runs. Each function has an empty body, and its contract is the law.
//!
//! A run keeps two things between its steps: its history and its trace are under way, and its nodes are ready. It
//! begins so, each step keeps it, and whatever is under way keeps what is promised. The setting says what bytes an
//! instance sends; where nodes are ready, each instance sends its number.

ghost use Rattle.std.specs.Prelude.{◌≡◌, ℕ, ◌+◌, ◌*◌, ◌^◌, ◌<◌, ◌≤◌, ◌↔◌, ◌==◌, false, List, [], ◌∷◌, ◌++◌, All, Any, IfSome};
ghost use Rattle.std.specs.Prelude.{AllPairs, filter, length};
ghost use Rattle.profile.specs.Limits.{cycles_end};
ghost use Rattle.async_window.specs.Online.{WereRequests, arrived_by};
ghost use Rattle.bus_line.specs.Trace.{free_after};
ghost use Rattle.node_model.specs.Node.{IsNode, NodeState};
ghost use Rattle.cycle_engine.specs.LiveBus.{IsTriggered, live_offers};
ghost use Rattle.can_frame.specs.declared.data_frame.TimedFrame.{TimedFrame};
ghost use Rattle.requirement_table.specs.declared.entries.Order.{Order};
ghost use Rattle.requirement_table.specs.declared.entries.Placed.{Placed};
ghost use Rattle.requirement_table.specs.Instance.{Instance, bytes_of};
ghost use Rattle.cycle_layout.specs.Layout.{CycleLayout};
ghost use Rattle.requirement_table.specs.Table.{IsWellPlaced};
ghost use Rattle.admission_rules.specs.declared.Rules.{Rules};
ghost use Rattle.master_core.specs.declared.event.Event.{Event};
ghost use Rattle.master_core.specs.declared.event.Event.TheVariants.{Open};
ghost use Rattle.master_core.specs.History.{IsLegal, IsRight, is_open, next_of, placed_of};
ghost use Rattle.master_core.specs.Orders.{IsOrder, IsOrderFor, IsOrderWith, StandsFor};
ghost use Rattle.async_window.specs.declared.request.Owner.{Owner};
ghost use Rattle.async_window.specs.declared.request.Request.{Request};
ghost use Rattle.async_window.specs.Owners.{AreOwners};
ghost use Rattle.bus_line.specs.Trace.{Follows};
ghost use Rattle.cycle_engine.specs.Cycle.{FitsWindow, RunsCycle, cycle_of};
ghost use Rattle.cycle_engine.specs.Nodes.{CanLearn, HaveSpare, IsBus, IsNumber, NodesView};
ghost use Rattle.cycle_engine.specs.Nodes.{heard_by, learnt_by, opening_of, states_of};
ghost use Rattle.cycle_engine.specs.Offered.{AreAsynchronous, SendsWhole, offered_in};
ghost use Rattle.kept_run.specs.Kept.{Kept};
ghost use Rattle.kept_run.specs.Progress.{AreBeforeCycle, AreLiveReady, AreNodesReady, IsUnderWay};
ghost use Rattle.kept_run.specs.Setting.{IsSetting, Setting};
ghost use Rattle.kept_run.specs.Served.{ForgetsEnds};

/// A run that is under way keeps what is promised, whatever bytes an instance sends, if they stay the same where its
/// entry gets an end.
pub fn promise()
    ensures kept { (setting : Setting) (history : List Event) (trace : List TimedFrame)
        → IsSetting setting → ForgetsEnds setting.sends → IsUnderWay setting history trace
        → Kept setting history trace }
{}

/// Requests whose identifiers have owners are asynchronous, as a setting's are to be.
pub fn requests_of_owners()
    ensures asynchronous { (owners : List Owner) (requests : List Request) → AreOwners owners
        → All (λ request. Any (λ owner. owner.id ≡ request.frame.identifier) owners) requests
        → AreAsynchronous requests }
{}

/// A run begins with no calls, no frames, and nodes that know no entries.
pub fn beginning()
    ensures under_way { (setting : Setting) → IsUnderWay setting [] [] }
    ensures ready { (setting : Setting) (nodes : NodesView) → nodes.layout ≡ setting.layout → setting.sends ≡ bytes_of
        → IsBus setting.layout setting.owners setting.requests [] [] 0 (states_of nodes.nodes)
        → ((number : ℕ) → number < setting.rules.nodes → IsNumber (states_of nodes.nodes) number)
        → AreNodesReady setting [] [] nodes }
{}

/// A history is legal with one call more exactly where it is legal and the call is right after it. So what begins a
/// legal history is legal.
pub fn one_call_more()
    ensures legal { (rules : Rules) (history : List Event) (event : Event)
        → IsLegal rules (history ++ event ∷ []) ↔ (IsLegal rules history × IsRight rules history event) }
    ensures front { (rules : Rules) (history later : List Event)
        → IsLegal rules (history ++ later) → IsLegal rules history }
{}

/// Calls that are right and open no cycle, changes and looks, keep a run under way and its nodes ready.
pub fn calls_between()
    ensures under_way { (setting : Setting) (history calls : List Event) (trace : List TimedFrame)
        → All (λ call. is_open call ≡ false) calls
        → IsLegal setting.rules (history ++ calls) → IsUnderWay setting history trace
        → IsUnderWay setting (history ++ calls) trace }
    ensures ready { (setting : Setting) (history calls : List Event) (trace : List TimedFrame) (nodes : NodesView)
        → All (λ call. is_open call ≡ false) calls → IsLegal setting.rules (history ++ calls)
        → AreNodesReady setting history trace nodes → AreNodesReady setting (history ++ calls) trace nodes }
{}

/// An order of the master can be run as it is: its opening is right after the history, its frames fit into the largest
/// window, its flagged slots are slots of the layout, what the nodes are to learn is well placed, and when they have
/// learnt it each flagged slot has a node that knows what to send. Nodes that can learn a list as long as that of the
/// order without memory can learn what the order has for them, so its cycle needs no memory. An order for which nodes
/// learn all placed entries is one for which they learn a list that stands for these.
pub fn orders()
    ensures right { (rules : Rules) (history : List Event) (order : Order) → IsOrderFor rules history order
        → IsRight rules history (Open order.cycle order.mask) }
    ensures next { (setting : Setting) (history : List Event) (trace : List TimedFrame)
        (nodes : NodesView) (order : Order)
        → AreNodesReady setting history trace nodes → IsOrderFor setting.rules history order
        → All (λ node. node.next ≡ order.cycle) (states_of nodes.nodes) }
    ensures learned { (rules : Rules) (history : List Event) (order : Order)
        → IsOrderFor rules history order → IfSome order.learned IsWellPlaced }
    ensures spare { (rules : Rules) (history : List Event) (nodes : NodesView) (list : List Placed) (order : Order)
        → HaveSpare (length list) nodes.nodes → IsOrderWith rules history list order
        → CanLearn order.learned nodes.nodes }
    ensures whole { (rules : Rules) (history : List Event) (order : Order)
        → IsLegal rules history → IsOrder rules history order → IsOrderFor rules history order }
    ensures window { (setting : Setting) (history : List Event) (trace : List TimedFrame)
        (nodes : NodesView) (order : Order)
        → IsSetting setting → AreNodesReady setting history trace nodes
        → IsOrderFor setting.rules history order → order.l ≤ nodes.layout.window }
    ensures slots { (setting : Setting) (history : List Event) (trace : List TimedFrame)
        (nodes : NodesView) (order : Order)
        → IsSetting setting → AreNodesReady setting history trace nodes
        → IsOrderFor setting.rules history order → order.mask < 2 ^ nodes.layout.slots }
    ensures fits { (setting : Setting) (history : List Event) (order : Order)
        → IsSetting setting → IsOrderFor setting.rules history order
        → FitsWindow setting.layout (opening_of order (placed_of history)) }
    ensures before { (setting : Setting) (history : List Event) (trace : List TimedFrame)
        (nodes : NodesView) (order : Order)
        → IsUnderWay setting history trace → AreNodesReady setting history trace nodes
        → IsOrderFor setting.rules history order
        → AreBeforeCycle setting history trace nodes.layout order
        (learnt_by order.learned (states_of nodes.nodes)) }
{}

/// A cycle that is opened right after the history, with whatever slots the plan gives, and whose frames follow the
/// trace by what is offered in it, keeps a run under way, whatever bytes an instance sends, if they are as many as its
/// entry's length. Its frames are what the opening says, and its flagged slots have instances and fit into the window.
/// The run of an order on the bus keeps a run under way and leaves its nodes ready. Frames that follow by what a list
/// offers in a cycle follow by what the whole list offers for which it stands.
pub fn cycles_run()
    ensures opened { (setting : Setting) (history : List Event) (cycle mask : ℕ) (trace frames : List TimedFrame)
        → IsSetting setting → SendsWhole setting.sends
        → IsUnderWay setting history trace → IsLegal setting.rules (history ++ Open cycle mask ∷ [])
        → Follows (offered_in setting.sends setting.layout setting.requests
        (record { cycle = cycle; mask = mask; placed = placed_of history }))
        trace (cycle * setting.layout.cycle) ((cycle + 1) * setting.layout.cycle) frames
        → IsUnderWay setting (history ++ Open cycle mask ∷ []) (trace ++ frames) }
    ensures runs { (setting : Setting) (history : List Event) (cycle mask : ℕ) (trace frames : List TimedFrame)
        → IsSetting setting → SendsWhole setting.sends
        → IsUnderWay setting history trace → IsLegal setting.rules (history ++ Open cycle mask ∷ [])
        → Follows (offered_in setting.sends setting.layout setting.requests
        (record { cycle = cycle; mask = mask; placed = placed_of history }))
        trace (cycle * setting.layout.cycle) ((cycle + 1) * setting.layout.cycle) frames
        → RunsCycle setting.sends setting.layout (record { cycle = cycle; mask = mask; placed = placed_of history })
        frames }
    ensures fits { (setting : Setting) (history : List Event) (cycle mask : ℕ)
        → IsSetting setting → IsLegal setting.rules (history ++ Open cycle mask ∷ [])
        → FitsWindow setting.layout (record { cycle = cycle; mask = mask; placed = placed_of history }) }
    ensures same_offers { (sends : Instance → List ℕ) (layout : CycleLayout) (requests : List Request)
        (cycle mask : ℕ) (whole list : List Placed) (past frames : List TimedFrame) (free until : ℕ)
        → StandsFor cycle whole list
        → Follows (offered_in sends layout requests (record { cycle = cycle; mask = mask; placed = list }))
        past free until frames
        → Follows (offered_in sends layout requests (record { cycle = cycle; mask = mask; placed = whole }))
        past free until frames }
    ensures under_way { (setting : Setting) (history : List Event) (trace frames : List TimedFrame)
        (nodes : NodesView) (order : Order)
        → IsSetting setting → IsUnderWay setting history trace
        → AreNodesReady setting history trace nodes → IsOrderFor setting.rules history order
        → Follows (offered_in bytes_of nodes.layout setting.requests (opening_of order (placed_of history)))
        trace (order.cycle * nodes.layout.cycle) ((order.cycle + 1) * nodes.layout.cycle) frames
        → IsUnderWay setting (history ++ Open order.cycle order.mask ∷ []) (trace ++ frames) }
    ensures ready { (setting : Setting) (history : List Event) (trace frames : List TimedFrame)
        (nodes new : NodesView) (order : Order) (known : List Placed)
        → StandsFor (next_of history) (placed_of history) known
        → IsUnderWay setting history trace → AreNodesReady setting history trace nodes
        → IsOrderFor setting.rules history order
        → new.layout ≡ nodes.layout
        → states_of new.nodes ≡ heard_by frames (learnt_by order.learned (states_of nodes.nodes))
        → IsBus nodes.layout setting.owners setting.requests known
        (trace ++ frames) (order.cycle + 1) (states_of new.nodes)
        → AreNodesReady setting (history ++ Open order.cycle order.mask ∷ []) (trace ++ frames) new }
{}

/// In a run under way the first trigger frames up to a frame, itself included, are one more than the number of the
/// cycle in which it starts: its start divided by the length of a cycle.
pub fn triggers_count_cycles()
    ensures counted { (setting : Setting) (history : List Event) (trace : List TimedFrame)
        → IsSetting setting → IsUnderWay setting history trace
        → (front later : List TimedFrame) (sent : TimedFrame) → trace ≡ front ++ sent ∷ later
        → length (filter (λ other. other.frame.identifier == 0) (front ++ sent ∷ []))
        ≡ cycle_of setting.layout sent + 1 }
{}

/// A cycle of an order on a bus whose nodes take requests while they run and send bytes of their users keeps a run under
/// way: the nodes learnt a list that stands for the placed entries, the trigger frames were sent at the cycle's start and
/// heard by all, and the frames behind them are what arbitration decides between what the nodes offer. So with
/// `promise` it keeps what is promised.
pub fn live_cycles()
    ensures under_way { (setting : Setting) (history : List Event) (trace : List TimedFrame) (order : Order)
        (nodes : List NodeState) (sent later : List TimedFrame)
        → IsSetting setting → SendsWhole setting.sends
        → AllPairs (λ one other. one.at ≤ other.at) setting.requests
        → IsUnderWay setting history trace → IsOrderFor setting.rules history order
        → All IsNode nodes → (before : AreBeforeCycle setting history trace setting.layout order nodes)
        → IsTriggered setting.layout order nodes sent
        → WereRequests (arrived_by (order.cycle * setting.layout.cycle) setting.requests) trace
        → Follows (live_offers setting.sends setting.owners setting.requests (opening_of order before.known)
        (trace ++ sent) (heard_by sent nodes)) (trace ++ sent)
        (free_after (order.cycle * setting.layout.cycle) sent) ((order.cycle + 1) * setting.layout.cycle) later
        → order.cycle < cycles_end
        → IsUnderWay setting (history ++ Open order.cycle order.mask ∷ []) (trace ++ (sent ++ later)) }
    ensures first { (setting : Setting) (nodes : NodesView) → nodes.layout ≡ setting.layout
        → IsBus setting.layout setting.owners setting.requests [] [] 0 (states_of nodes.nodes)
        → ((number : ℕ) → number < setting.rules.nodes → IsNumber (states_of nodes.nodes) number)
        → All IsNode (states_of nodes.nodes) → AreLiveReady setting [] [] nodes }
    ensures answered { (setting : Setting) (trace : List TimedFrame) (nodes : NodesView) (history : List Event) (event : Event)
        → is_open event ≡ false → AreLiveReady setting history trace nodes
        → AreLiveReady setting (history ++ event ∷ []) trace nodes }
    ensures before { (setting : Setting) (history : List Event) (trace : List TimedFrame) (nodes : NodesView) (order : Order)
        → IsUnderWay setting history trace → AreLiveReady setting history trace nodes
        → IsOrderFor setting.rules history order
        → AreBeforeCycle setting history trace setting.layout order (learnt_by order.learned (states_of nodes.nodes)) }
    ensures ready { (setting : Setting) (history : List Event) (trace : List TimedFrame) (nodes new : NodesView)
        (order : Order) (sent later : List TimedFrame)
        → IsSetting setting → SendsWhole setting.sends
        → AllPairs (λ one other. one.at ≤ other.at) setting.requests
        → IsUnderWay setting history trace → AreLiveReady setting history trace nodes
        → IsOrderFor setting.rules history order
        → (before : AreBeforeCycle setting history trace setting.layout order
        (learnt_by order.learned (states_of nodes.nodes)))
        → IsTriggered setting.layout order (learnt_by order.learned (states_of nodes.nodes)) sent
        → Follows (live_offers setting.sends setting.owners setting.requests (opening_of order before.known)
        (trace ++ sent) (heard_by sent (learnt_by order.learned (states_of nodes.nodes)))) (trace ++ sent)
        (free_after (order.cycle * setting.layout.cycle) sent) ((order.cycle + 1) * setting.layout.cycle) later
        → order.cycle < cycles_end → new.layout ≡ setting.layout
        → states_of new.nodes ≡ heard_by (sent ++ later) (learnt_by order.learned (states_of nodes.nodes))
        → AreLiveReady setting (history ++ Open order.cycle order.mask ∷ []) (trace ++ (sent ++ later)) new }
{}
