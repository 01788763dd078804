//! What follows from the definitions. Each function has an empty body, and its contract is the law.

ghost use Rattle.std.specs.Prelude.{◌≡◌, ℕ, ◌+◌, ◌-◌, ◌*◌, ◌%◌, ◌<◌, ◌≤◌, ◌⊎◌, IfSome, None, Some, false, true, is_some};
ghost use Rattle.profile.specs.Limits.{cycles_end, first_identifier, least_asynchronous};
ghost use Rattle.bit_sets.specs.Sets.{has_bit};
ghost use Rattle.can_frame.specs.DataFrame.{DataFrame};
ghost use Rattle.requirement_table.specs.Table.{instance_in};
ghost use Rattle.trigger_kind.specs.Kind.{opening_identifier};
ghost use Rattle.trigger_codec.specs.declared.message.Second.{Second};
ghost use Rattle.trigger_codec.specs.declared.message.Trigger.{Trigger};
ghost use Rattle.trigger_codec.specs.Bytes.{second_of, trigger_of};
ghost use Rattle.cycle_layout.specs.Layout.{IsLayout};
ghost use Rattle.node_model.specs.Node.{Opened, after_hearing, after_opening, after_request, after_slot, next_trigger};
ghost use Rattle.node_model.specs.Node.{node_offer};
ghost use Rattle.node_model.specs.Online.{after_put, open_now};
ghost use Rattle.live_node.specs.declared.flight.Ticket.{Ticket};
ghost use Rattle.live_node.specs.declared.trigger.Heard.TheVariants.{Again, NotTaken};
ghost use Rattle.live_node.specs.Live.{AreWaiting, LiveView, with_request};
ghost use Rattle.live_node.specs.Hearing.{answer_live, heard_live, said_cycle, timed};
ghost use Rattle.live_node.specs.Sending.{has_set, is_ready, live_offer};
ghost use Rattle.live_node.specs.Tickets.{after_load, after_sent, is_unsent};
ghost use Rattle.live_node.specs.Model.{IsPlain, model_of, request_of};
ghost use Rattle.live_node.specs.Windows.{OffersRequest, OffersSlot, Reaches};

/// What a node offers lies in its windows, whatever else is on the bus: a request in the asynchronous window, with its longest
/// form, and a slot that its trigger flagged in the synchronous window. So where a frame starts at most `off` bit times from
/// a time at which it was offered, it reaches at most so far into what is not its own.
pub fn stays_in_its_windows()
    ensures offers { (view : LiveView) (into id : ℕ) → AreWaiting view.mail → live_offer view into ≡ Some id
        → OffersRequest view into id ⊎ ((slot : ℕ) × OffersSlot view into id slot) }
    ensures nearly { (view : LiveView) (into id start off : ℕ) → AreWaiting view.mail → live_offer view into ≡ Some id
        → start ≤ into + off → into ≤ start + off → Reaches view id start off }
    ensures flagged { (view : LiveView) (slot : ℕ) (opened : Opened) → is_ready view slot ≡ true
        → open_now view.state ≡ Some opened
        → (has_bit opened.mask slot ≡ true) × (is_some (instance_in view.state.entries slot opened.cycle) ≡ true)
        × (has_bit view.sent slot ≡ false) × (has_bit view.loaded slot ≡ false)
        × (view.silent ≡ true → has_set view slot ≡ true) }
{}

/// A node in use finds the cycle of a trigger, whatever number of triggers it missed, where the count of its driver is no
/// further off than it may be. It takes none of a cycle that is further away, and never goes back.
pub fn finds_its_cycle()
    ensures found { (next passed tolerance cycle : ℕ) → tolerance ≤ 127 → next ≤ cycle
        → cycle ≤ next + passed + tolerance → next + passed ≤ cycle + tolerance
        → said_cycle next passed tolerance (cycle % 256) ≡ Some cycle }
    ensures only { (next passed tolerance low : ℕ) → low < 256 → tolerance ≤ 127
        → IfSome (said_cycle next passed tolerance low) (λ cycle. (next ≤ cycle) × (cycle % 256 ≡ low)
        × (cycle ≤ next + passed + tolerance) × (next + passed ≤ cycle + tolerance)) }
{}

/// A trigger frame of the open cycle that comes again changes nothing.
pub fn again_changes_nothing()
    ensures first { (view : LiveView) (passed : ℕ) (frame : DataFrame) (trigger : Trigger) (opened : Opened)
        → frame.identifier ≡ 0 → trigger_of frame ≡ Some trigger → open_now view.state ≡ Some opened
        → view.started ≡ true → passed ≤ view.tolerance → trigger.low ≡ opened.cycle % 256
        → (heard_live passed frame view ≡ view) × (answer_live passed frame view ≡ Again) }
    ensures second { (view : LiveView) (passed : ℕ) (frame : DataFrame) (second : Second) (opened : Opened)
        → frame.identifier ≡ 1 → opening_identifier view.state.layout.slots ≡ 1
        → second_of frame ≡ Some second → open_now view.state ≡ Some opened
        → view.started ≡ true → passed ≤ view.tolerance → second.low ≡ opened.cycle % 256
        → (heard_live passed frame view ≡ view) × (answer_live passed frame view ≡ Again) }
{}

/// When a node in use offers nothing: before it knows its first cycle, behind a trigger frame that it did not take, up to the
/// next one that it does, and behind the end of its cycle.
pub fn is_quiet()
    ensures closed { (view : LiveView) (into : ℕ) → open_now view.state ≡ None → live_offer view into ≡ None }
    ensures not_taken { (view : LiveView) (passed into : ℕ) (frame : DataFrame) → view.started ≡ true
        → answer_live passed frame view ≡ NotTaken → live_offer (heard_live passed frame view) into ≡ None }
    ensures late { (view : LiveView) (into : ℕ) → AreWaiting view.mail → view.state.layout.cycle ≤ into
        → live_offer view into ≡ None }
{}

/// What a ticket counts for: what is told as sent counts once, and what is in flight is not offered.
pub fn tickets_count_once()
    ensures once { (view : LiveView) (ticket : Ticket) → is_unsent view ticket ≡ true
        → is_unsent (after_sent ticket.id view) ticket ≡ false }
    ensures loaded { (view : LiveView) (into later id : ℕ) → AreWaiting view.mail → live_offer view into ≡ Some id
        → live_offer (after_load id view) later ≡ Some id → ⊥ }
{}

/// Where nothing keeps back what a node in use has to send, it offers what the node of the model offers that has its requests
/// and heard what was sent.
pub fn offers_as_the_model()
    ensures offers { (view : LiveView) (into : ℕ) (opened : Opened) → open_now view.state ≡ Some opened
        → IsLayout view.state.layout → opened.width ≤ view.state.layout.window → into < view.state.layout.cycle
        → IsPlain view opened into
        → live_offer view into ≡ node_offer (model_of view) (opened.cycle * view.state.layout.cycle + into) }
{}

/// A node in use does with the trigger frame of its next cycle what the node of the model does, where it missed none by the
/// count of its driver. The open cycle is the one before it, where one is open.
pub fn hears_as_the_model()
    ensures next { (view : LiveView) (passed : ℕ) (frame : DataFrame) (trigger : Trigger) → view.started ≡ true
        → frame.identifier ≡ 0 → passed ≤ view.tolerance → view.tolerance ≤ 127 → view.state.next < cycles_end
        → IfSome (open_now view.state) (λ opened. opened.cycle + 1 ≡ view.state.next)
        → next_trigger view.state frame ≡ Some trigger
        → (heard_live passed frame view).state ≡ after_hearing view.state (timed frame) }
{}

/// With a request that is put, with what is told as sent, and with the trigger frame that opens a cycle, the node of the model
/// that a node in use stands for goes on as the model says. It counts no frame that is told as sent.
pub fn counts_as_the_model()
    ensures put { (frame : DataFrame) (view : LiveView)
        → model_of (with_request frame view) ≡ after_put (request_of frame) (model_of view) }
    ensures request { (view : LiveView) (id : ℕ) → least_asynchronous ≤ id
        → model_of (after_sent id view) ≡ after_request (model_of view) id }
    ensures slot { (view : LiveView) (id : ℕ) → id < least_asynchronous
        → model_of (after_sent id view) ≡ after_slot (model_of view) (id - first_identifier) }
    ensures opening { (view : LiveView) (frame : DataFrame)
        → model_of (record view { state = after_opening view.state frame; sent = 0; loaded = 0 })
        ≡ after_opening (model_of view) frame }
{}
