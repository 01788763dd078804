//! Laws about the definitions of this crate. Each function has an empty body, and its contract is the law.

ghost use Rattle.std.specs.Prelude.{◌≡◌, ◌≢◌, ◌↔◌, ℕ, ◌+◌, ◌/◌, ◌^◌, ◌<◌, ◌≤◌, ◌==◌, ◌&&◌, ◌⊎◌};
ghost use Rattle.std.specs.Prelude.{not, List, [], ◌∷◌, ◌++◌, fold, map, All, MatchOption, None, Some, false, true};
ghost use Rattle.profile.specs.Limits.{cycles_end, first_identifier, greatest_identifier};
ghost use Rattle.can_frame.specs.declared.data_frame.TimedFrame.{TimedFrame};
ghost use Rattle.cycle_layout.specs.Layout.{CycleLayout, IsLayout};
ghost use Rattle.requirement_table.specs.declared.entries.Placed.{Placed};
ghost use Rattle.bit_sets.specs.Sets.{most_slots};
ghost use Rattle.requirement_table.specs.Table.{IsWellPlaced};
ghost use Rattle.trigger_codec.specs.Bytes.{triggers_with};
ghost use Rattle.async_window.specs.declared.request.Owner.{Owner};
ghost use Rattle.async_window.specs.declared.request.Request.{Request};
ghost use Rattle.requirement_table.specs.Opening.{Opening, width_of};
ghost use Rattle.node_model.specs.Opening.{start_of};
ghost use Rattle.node_model.specs.Node.{IsNode, NodeState, after_hearing, after_request, learnt, node_frame};
ghost use Rattle.trigger_kind.specs.Kind.{greatest_trigger, opening_identifier};
ghost use Rattle.node_model.specs.Node.{node_offer};
ghost use Rattle.node_model.specs.Offered.{trigger_frames};
ghost use Rattle.node_model.specs.Window.{IsInWindow, due_frame, is_due_slot};
ghost use Rattle.async_window.specs.Owners.{AreOwners};
ghost use Rattle.async_window.specs.Mailbox.{IsMail};
ghost use Rattle.async_window.specs.Online.{ComeLater, HaveArrived, WereRequests, forgotten};
ghost use Rattle.node_model.specs.Offered.{OffersRequest};
ghost use Rattle.can_frame.specs.DataFrame.{DataFrame};
ghost use Rattle.profile.specs.Limits.{least_asynchronous};
ghost use Rattle.node_model.specs.Online.{AllArrived, after_put, forgetting, serving};
ghost use Rattle.node_model.specs.Own.{AreApart, HasRequest, OffersLeastOwn, StandsIn, StandsOnBus, counting};

/// What a node offers is the least of its own part of what is offered on the bus.
pub fn offers_its_part()
    ensures own_part { (layout : CycleLayout) (owners : List Owner) (requests : List Request) (opening : Opening)
        (past : List TimedFrame) (at : ℕ) (node : NodeState)
        → IsNode node → IsWellPlaced opening.placed
        → StandsIn layout owners requests opening past node → at / layout.cycle ≡ opening.cycle
        → OffersLeastOwn layout owners requests opening past at node }
{}

/// What a node knows as it hears the frames of a cycle: the trigger frames first, and then frames of other identifiers.
/// Between two trigger frames it offers nothing. A frame with an identifier of a trigger frame that such a cycle has not
/// is only counted.
pub fn hears_a_cycle()
    ensures learnt { (layout : CycleLayout) (owners : List Owner) (requests : List Request) (placed other : List Placed)
        (past : List TimedFrame) (next : ℕ) (node : NodeState)
        → StandsOnBus layout owners requests other past next node
        → StandsOnBus layout owners requests placed past next (learnt placed node) }
    ensures trigger { (layout : CycleLayout) (owners : List Owner) (requests : List Request) (opening : Opening)
        (past sent : List TimedFrame) (node : NodeState)
        → AreOwners owners → IsLayout layout → width_of opening ≤ layout.window → opening.mask < 2 ^ layout.slots
        → All (λ earlier. earlier.start < start_of layout opening) past
        → map (λ one. one.frame) sent ≡ trigger_frames layout opening
        → StandsOnBus layout owners requests opening.placed past opening.cycle node
        → StandsIn layout owners requests opening (past ++ sent) (fold after_hearing node sent) }
    ensures between { (node : NodeState) (sent : TimedFrame) (at : ℕ)
        → IsNode node → sent.frame.identifier < opening_identifier node.layout.slots → node.next ≤ at / node.layout.cycle
        → node_offer (after_hearing node sent) at ≡ None }
    ensures only_counted { (node : NodeState) (sent : TimedFrame)
        → IsNode node → opening_identifier node.layout.slots < sent.frame.identifier
        → sent.frame.identifier ≤ greatest_trigger
        → after_hearing node sent ≡ counting node }
    ensures later { (layout : CycleLayout) (owners : List Owner) (requests : List Request) (opening : Opening)
        (past : List TimedFrame) (sent : TimedFrame) (node : NodeState)
        → AreOwners owners → IsWellPlaced opening.placed
        → greatest_trigger < sent.frame.identifier → start_of layout opening ≤ sent.start
        → StandsIn layout owners requests opening past node
        → StandsIn layout owners requests opening (past ++ sent ∷ []) (after_hearing node sent) }
{}

/// Two nodes of different numbers, with the same layout and owners, that last learnt the same list or of which one has
/// learnt none never offer one identifier at the same time.
pub fn nodes_are_apart()
    ensures by_number { (layout : CycleLayout) (owners : List Owner) (requests other_requests : List Request)
        (placed others : List Placed) (past heard : List TimedFrame) (next then : ℕ) (one other : NodeState)
        → one.number ≢ other.number → AreOwners owners → IsWellPlaced placed → (others ≡ placed) ⊎ (others ≡ [])
        → StandsOnBus layout owners requests placed past next one
        → StandsOnBus layout owners other_requests others heard then other
        → AreApart one other }
    ensures learning { (placed : List Placed) (one other : NodeState)
        → one.number ≢ other.number → IsWellPlaced placed → AreApart one other
        → AreApart (learnt placed one) (learnt placed other) }
    ensures hearing { (one other : NodeState) (sent also : TimedFrame) → AreApart one other
        → AreApart (after_hearing one sent) (after_hearing other also) }
    ensures turned { (one other : NodeState) → AreApart one other → AreApart other one }
    ensures never_both { (one other : NodeState) (at id : ℕ) → one.layout ≡ other.layout → IsNode one → IsNode other
        → AreApart one other → node_offer one at ≡ Some id → node_offer other at ≡ Some id → ⊥ }
{}

/// What nodes do with a frame of which one of them has an unsent request: that one takes the request away and counts
/// the frame, and another one that is apart from it only counts the frame.
pub fn hears_a_request()
    ensures own { (node : NodeState) (sent : TimedFrame) → IsNode node → HasRequest node sent.frame.identifier
        → after_hearing node sent ≡ counting (after_request node sent.frame.identifier) }
    ensures others { (one other : NodeState) (sent : TimedFrame) → IsNode one → IsNode other → AreApart one other
        → HasRequest one sent.frame.identifier → after_hearing other sent ≡ counting other }
{}

/// What holds of every node still holds when it learns a list or hears a frame.
pub fn stays_a_node()
    ensures learning { (placed : List Placed) (node : NodeState)
        → IsWellPlaced placed → IsNode node → IsNode (learnt placed node) }
    ensures hearing { (node : NodeState) (sent : TimedFrame)
        → (sent.frame.identifier ≡ opening_identifier node.layout.slots → node.next < cycles_end) → IsNode node
        → IsNode (after_hearing node sent) }
{}

/// A node in the synchronous window of the cycle that is open for it: it offers the least slot that it is to send, and
/// the frame of a slot takes that slot away and no other one. The trigger frames open the cycle.
pub fn sends_its_slots()
    ensures offers { (node : NodeState) (from until at : ℕ) → IsNode node
        → IsInWindow from until node → from ≤ at → at < until
        → MatchOption (node_offer node at) ((slot : ℕ) → slot < most_slots → is_due_slot node slot ≡ false)
        (λ id. (slot : ℕ) × (slot < most_slots) × (id ≡ first_identifier + slot) × (is_due_slot node slot ≡ true)
        × ((other : ℕ) → other < slot → is_due_slot node other ≡ false)) }
    ensures frames { (node : NodeState) (from until at slot : ℕ)
        → IsNode node → IsInWindow from until node → from ≤ at → at < until
        → slot < most_slots → node_frame node at (first_identifier + slot) ≡ due_frame node slot }
    ensures stays { (node : NodeState) (from until : ℕ) (sent : TimedFrame)
        → greatest_trigger < sent.frame.identifier
        → IsInWindow from until node → IsInWindow from until (after_hearing node sent) }
    ensures same_frames { (node : NodeState) (slot other : ℕ) (sent : TimedFrame) → IsNode node
        → sent.frame.identifier ≡ first_identifier + slot → slot < most_slots
        → due_frame (after_hearing node sent) other ≡ due_frame node other }
    ensures takes { (node : NodeState) (slot other : ℕ) (sent : TimedFrame) → IsNode node
        → sent.frame.identifier ≡ first_identifier + slot → slot < most_slots → other < most_slots
        → is_due_slot (after_hearing node sent) other ≡ (not (other == slot) && is_due_slot node other) }
    ensures opens { (node : NodeState) (l mask : ℕ) (sent : List TimedFrame)
        → IsLayout node.layout → l ≤ node.layout.window → mask < 2 ^ node.layout.slots
        → map (λ one. one.frame) sent ≡ triggers_with node.layout.slots node.next l mask
        → (fold after_hearing node sent).opened
        ≡ Some (record { cycle = node.next; width = l; mask = mask; heard = 0 }) }
{}

/// What a node offers is the identifier of a slot or an asynchronous one.
pub fn offers_in_range()
    ensures in_range { (node : NodeState) (at id : ℕ) → IsNode node → node_offer node at ≡ Some id
        → (first_identifier ≤ id) × (id ≤ greatest_identifier) }
{}

/// A node that takes requests while it runs. With one that is put it stands on the bus as with one that was given to it
/// at the start; it may forget when they arrived, since what it has forgotten changes neither what it does with a
/// request or a frame, nor what it offers and sends once they have arrived. Requests that come later change nothing of
/// what is offered before.
pub fn takes_requests()
    ensures put { (layout : CycleLayout) (owners : List Owner) (requests : List Request) (request : Request)
        (opening : Opening) (past : List TimedFrame) (node : NodeState)
        → AreOwners owners → WereRequests requests past
        → StandsIn layout owners requests opening past node
        → StandsIn layout owners (requests ++ request ∷ []) opening past (after_put request node) }
    ensures puts { (request : Request) (node : NodeState)
        → forgetting (after_put request node) ≡ after_put (forgotten request) (forgetting node) }
    ensures hears { (sent : TimedFrame) (node : NodeState)
        → forgetting (after_hearing node sent) ≡ after_hearing (forgetting node) sent }
    ensures given { (owners : List Owner) (given : List Request) (request : Request) (past : List TimedFrame)
        (node : NodeState) → AreOwners owners → WereRequests given past
        → after_put (forgotten request) (serving owners given past node)
        ≡ serving owners (given ++ request ∷ []) past node }
    ensures heard { (owners : List Owner) (given : List Request) (past : List TimedFrame) (sent : TimedFrame)
        (node : NodeState) → AreOwners owners → All (λ p. p.entry.slot < most_slots) node.entries
        → after_hearing (serving owners given past node) sent
        ≡ serving owners given (past ++ sent ∷ []) (after_hearing node sent) }
    ensures serves { (layout : CycleLayout) (owners : List Owner) (requests later : List Request) (opening : Opening)
        (past : List TimedFrame) (at : ℕ) (node : NodeState)
        → AreOwners owners → WereRequests requests past → HaveArrived at requests → ComeLater at later
        → StandsIn layout owners (requests ++ later) opening past node
        → node_offer (serving owners requests past node) at ≡ node_offer node at }
    ensures sends { (layout : CycleLayout) (owners : List Owner) (requests later : List Request) (opening : Opening)
        (past : List TimedFrame) (at id : ℕ) (node : NodeState)
        → AreOwners owners → WereRequests requests past → IsMail (serving owners requests past node).mail
        → StandsIn layout owners (requests ++ later) opening past node
        → node_offer (serving owners requests past node) at ≡ Some id
        → node_frame (serving owners requests past node) at id ≡ node_frame node at id }
    ensures offers { (node : NodeState) (at : ℕ) → AllArrived at node
        → node_offer (forgetting node) at ≡ node_offer node at }
    ensures frames { (node : NodeState) (at id : ℕ) → node_frame (forgetting node) at id ≡ node_frame node at id }
    ensures later { (layout : CycleLayout) (requests later : List Request) (opening : Opening) (past : List TimedFrame)
        (at : ℕ) (frame : DataFrame) → least_asynchronous ≤ frame.identifier → WereRequests requests past
        → ComeLater at later
        → OffersRequest layout (requests ++ later) opening past at frame
        ↔ OffersRequest layout requests opening past at frame }
{}
