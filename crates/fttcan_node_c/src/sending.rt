//! What a node offers, and the frames of it.

ghost use Rattle.std.specs.Prelude.{◌≡◌, ◌≢◌, ◌^◌, ◌<◌, ◌≤◌, ℕ, None, Some, MatchOption, false, option_map, true};
ghost use Rattle.async_window.specs.Mailbox.{IsLeastWith};
ghost use Rattle.c_values.specs.Told.{frame_told};
ghost use Rattle.live_node.specs.Sending.{frame_under, live_offer};
ghost use Rattle.live_node.specs.Windows.{IsOffered};
ghost use Rattle.fttcan_node_c.specs.Nodes.{Holds, IsOfferTold, OffersLater};

use crate::plain::{FttOffer, offer_out};
use c_values::{ExportRefusal, FttFrame, OK, frame_out};
use can_frame::Frame;
use live_node::LiveOffer;
use live_node::laws::is_quiet;
use node_handle::{FttNode, HeldNode};
use std::alloc::Global;
use std::mem;

/// From here on times are behind each cycle.
const TIMES_END: u64 = 1 << 32;

/// Whether a time is behind each cycle. Nothing is offered then.
pub(crate) fn is_behind(held: &HeldNode, into: u64) -> bool
    ensures near { result ≡ false → into < 2 ^ 32 }
    ensures quiet { result ≡ true → (later : ℕ) → into ≤ later → live_offer held.now.node later ≡ None }
{
    if into < TIMES_END {
        return false;
    }
    is_quiet();
    held.node.known();
    held.node.layout().is_in_range();
    true
}

/// What the node offers at a time.
fn offered(held: &HeldNode, into: u64) -> Option<LiveOffer>
    ensures offered { MatchOption result (live_offer held.now.node into ≡ None) (IsOffered held.now.node into) }
{
    if is_behind(held, into) {
        return None;
    }
    held.node.offer(into as u32)
}

/// What the node offers at a time, and the last time at which it offers the same. The answer is `No` where that is
/// nothing.
#[unsafe(no_mangle)]
pub extern "C" fn fttcan_node_offer(
    n: &mut FttNode,
    alloc: Global,
    into: u64,
    offer: &mut FttOffer,
) -> u32
    ensures same { n.new.value ≡ n.old.value }
    ensures offered { result ≡ 0 → Holds n.old.value (IsOfferTold into offer.new) }
    ensures none { result ≡ 10 → Holds n.old.value (λ node. live_offer node into ≡ None) }
    ensures untold { result ≢ 0 → offer.new ≡ offer.old }
    ensures statuses { result ≢ 0 → result ≢ 10 → result ≡ 7 }
    ensures closed { result ≡ 7 → n.old.value ≡ None }
    ensures empty { n.old.value ≡ None → result ≡ 7 }
{
    let Some(held) = mem::replace(n, FttNode::none()).into_box(alloc) else {
        return ExportRefusal::Closed.status();
    };
    let found = offered(&held, into);
    *n = FttNode::of(held);
    match found {
        Some(found) => {
            *offer = offer_out(&found);
            OK
        }
        None => ExportRefusal::No.status(),
    }
}

/// The first later time at which the node offers something.
fn next_offered(held: &HeldNode, into: u64) -> Option<u32>
    ensures next { IsLeastWith (OffersLater into held.now.node) result }
{
    if is_behind(held, into) {
        return None;
    }
    held.node.wake(into as u32)
}

/// The first time behind `into` at which the node offers something. The answer is `No` where there is none.
#[unsafe(no_mangle)]
pub extern "C" fn fttcan_node_wake(n: &mut FttNode, alloc: Global, into: u64, time: &mut u64) -> u32
    ensures same { n.new.value ≡ n.old.value }
    ensures next { result ≡ 0 → Holds n.old.value (λ node. IsLeastWith (OffersLater into node) (Some time.new)) }
    ensures none { result ≡ 10 → Holds n.old.value (λ node. IsLeastWith (OffersLater into node) None) }
    ensures untold { result ≢ 0 → time.new ≡ time.old }
    ensures statuses { result ≢ 0 → result ≢ 10 → result ≡ 7 }
    ensures closed { result ≡ 7 → n.old.value ≡ None }
    ensures empty { n.old.value ≡ None → result ≡ 7 }
{
    let Some(held) = mem::replace(n, FttNode::none()).into_box(alloc) else {
        return ExportRefusal::Closed.status();
    };
    let found = next_offered(&held, into);
    *n = FttNode::of(held);
    match found {
        Some(found) => {
            *time = u64::from(found);
            OK
        }
        None => ExportRefusal::No.status(),
    }
}

/// The frame that the node offers under an identifier at a time.
fn framed(held: &HeldNode, into: u64, id: u16) -> Option<Frame>
    ensures frame { MatchOption result (live_offer held.now.node into ≡ Some id → ⊥)
        (λ frame. (live_offer held.now.node into ≡ Some id) × (frame_under held.now.node id ≡ Some frame)) }
{
    if is_behind(held, into) {
        return None;
    }
    held.node.frame(into as u32, id)
}

/// The frame that the node offers under an identifier at a time. The answer is `No` where it does not offer it then.
#[unsafe(no_mangle)]
pub extern "C" fn fttcan_node_frame(
    n: &mut FttNode,
    alloc: Global,
    into: u64,
    id: u16,
    frame: &mut FttFrame,
) -> u32
    ensures same { n.new.value ≡ n.old.value }
    ensures frame { result ≡ 0 → Holds n.old.value (λ node. (live_offer node into ≡ Some id)
        × (option_map frame_told (frame_under node id) ≡ Some frame.new)) }
    ensures none { result ≡ 10 → Holds n.old.value (λ node. live_offer node into ≡ Some id → ⊥) }
    ensures untold { result ≢ 0 → frame.new ≡ frame.old }
    ensures statuses { result ≢ 0 → result ≢ 10 → result ≡ 7 }
    ensures closed { result ≡ 7 → n.old.value ≡ None }
    ensures empty { n.old.value ≡ None → result ≡ 7 }
{
    let Some(held) = mem::replace(n, FttNode::none()).into_box(alloc) else {
        return ExportRefusal::Closed.status();
    };
    let found = framed(&held, into, id);
    *n = FttNode::of(held);
    match found {
        Some(found) => {
            *frame = frame_out(&found);
            OK
        }
        None => ExportRefusal::No.status(),
    }
}
