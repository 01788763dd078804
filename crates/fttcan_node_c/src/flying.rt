//! Frames in flight: loaded into a controller, and told as sent or as withdrawn.

ghost use Rattle.std.specs.Prelude.{◌≡◌, ◌≢◌, None, Some, MatchOption, false, true};
ghost use Rattle.live_node.specs.Sending.{live_offer};
ghost use Rattle.live_node.specs.Tickets.{IsLoaded, after_sent, after_withdrawn, is_flying, is_unsent};
ghost use Rattle.live_node.specs.declared.flight.Loaded.{Loaded as LoadedOf};
ghost use Rattle.fttcan_node_c.specs.Nodes.{Holds, loaded_told, ticket_of};

use crate::plain::{FttLoaded, FttTicket, loaded_out, ticket_in};
use crate::sending::is_behind;
use c_values::{ExportRefusal, OK};
use live_node::{Loaded, Ticket};
use node_handle::{FttNode, HeldNode};
use std::alloc::Global;
use std::mem;

/// Takes the frame that the node offers under an identifier at a time.
fn loaded_in(held: &mut HeldNode, into: u64, id: u16) -> Option<Loaded>
    ensures loaded { MatchOption result ((live_offer held.old.node into ≡ Some id → ⊥) × (held.new ≡ held.old))
        (IsLoaded held.old.node into id held.new.node) }
{
    if is_behind(held, into) {
        return None;
    }
    held.node.load(into as u32, id)
}

/// Takes the frame that the node offers under an identifier at a time, for the controller. The answer is `No` where it does
/// not offer it then.
#[unsafe(no_mangle)]
pub extern "C" fn fttcan_node_load(
    n: &mut FttNode,
    alloc: Global,
    into: u64,
    id: u16,
    loaded: &mut FttLoaded,
) -> u32
    ensures loaded { result ≡ 0 → Holds n.old.value (λ old. Holds n.new.value (λ new. (taken : LoadedOf)
        × IsLoaded old into id new taken × (loaded.new ≡ loaded_told taken))) }
    ensures none { result ≡ 10 → Holds n.old.value (λ node. live_offer node into ≡ Some id → ⊥) }
    ensures same { result ≢ 0 → (n.new.value ≡ n.old.value) × (loaded.new ≡ loaded.old) }
    ensures statuses { result ≢ 0 → result ≢ 10 → result ≡ 7 }
    ensures closed { result ≡ 7 → n.old.value ≡ None }
    ensures empty { n.old.value ≡ None → result ≡ 7 }
{
    let Some(mut held) = mem::replace(n, FttNode::none()).into_box(alloc) else {
        return ExportRefusal::Closed.status();
    };
    let taken = loaded_in(&mut held, into, id);
    *n = FttNode::of(held);
    match taken {
        Some(taken) => {
            *loaded = loaded_out(&taken);
            OK
        }
        None => ExportRefusal::No.status(),
    }
}

/// Tells a node that a frame was sent.
fn sent_by(held: &mut HeldNode, ticket: &Ticket) -> bool
    ensures sent { result ≡ true → (is_unsent held.old.node ticket.now ≡ true)
        × (held.new.node ≡ after_sent ticket.now.id held.old.node) }
    ensures same { result ≡ false → (held.new ≡ held.old) × (is_unsent held.old.node ticket.now ≡ false) }
{
    held.node.sent(ticket)
}

/// Tells the node that the frame of a ticket was sent. The answer is `No` where that changes nothing.
#[unsafe(no_mangle)]
pub extern "C" fn fttcan_node_sent(n: &mut FttNode, alloc: Global, ticket: &FttTicket) -> u32
    ensures sent { result ≡ 0 → Holds n.old.value (λ old. (is_unsent old (ticket_of ticket.now) ≡ true)
        × Holds n.new.value (λ new. new ≡ after_sent ticket.now.id old)) }
    ensures late { result ≡ 10 → Holds n.old.value (λ old. is_unsent old (ticket_of ticket.now) ≡ false) }
    ensures same { result ≢ 0 → n.new.value ≡ n.old.value }
    ensures statuses { result ≢ 0 → result ≢ 10 → result ≡ 7 }
    ensures closed { result ≡ 7 → n.old.value ≡ None }
    ensures empty { n.old.value ≡ None → result ≡ 7 }
{
    let Some(mut held) = mem::replace(n, FttNode::none()).into_box(alloc) else {
        return ExportRefusal::Closed.status();
    };
    let counts = sent_by(&mut held, &ticket_in(ticket));
    *n = FttNode::of(held);
    if counts {
        OK
    } else {
        ExportRefusal::No.status()
    }
}

/// Tells a node that a frame was not sent and will not be.
fn withdrawn_by(held: &mut HeldNode, ticket: &Ticket) -> bool
    ensures withdrawn { result ≡ true → (is_flying held.old.node ticket.now ≡ true)
        × (held.new.node ≡ after_withdrawn ticket.now.id held.old.node) }
    ensures same { result ≡ false → (held.new ≡ held.old) × (is_flying held.old.node ticket.now ≡ false) }
{
    held.node.withdrawn(ticket)
}

/// Tells the node that the frame of a ticket was not sent and will not be. The answer is `No` where it is not in flight.
#[unsafe(no_mangle)]
pub extern "C" fn fttcan_node_withdrawn(n: &mut FttNode, alloc: Global, ticket: &FttTicket) -> u32
    ensures withdrawn { result ≡ 0 → Holds n.old.value (λ old. (is_flying old (ticket_of ticket.now) ≡ true)
        × Holds n.new.value (λ new. new ≡ after_withdrawn ticket.now.id old)) }
    ensures none { result ≡ 10 → Holds n.old.value (λ old. is_flying old (ticket_of ticket.now) ≡ false) }
    ensures same { result ≢ 0 → n.new.value ≡ n.old.value }
    ensures statuses { result ≢ 0 → result ≢ 10 → result ≡ 7 }
    ensures closed { result ≡ 7 → n.old.value ≡ None }
    ensures empty { n.old.value ≡ None → result ≡ 7 }
{
    let Some(mut held) = mem::replace(n, FttNode::none()).into_box(alloc) else {
        return ExportRefusal::Closed.status();
    };
    let counts = withdrawn_by(&mut held, &ticket_in(ticket));
    *n = FttNode::of(held);
    if counts {
        OK
    } else {
        ExportRefusal::No.status()
    }
}
