//! Frames in flight: a frame is loaded into a controller, and then told as sent or as withdrawn.

ghost use Rattle.std.specs.Prelude.{◌≡◌, ◌<◌, ◌≤◌, MatchOption, Some, false, true};
ghost use Rattle.profile.specs.Limits.{least_asynchronous};
ghost use Rattle.bit_sets.specs.Sets.{most_slots};
ghost use Rattle.live_node.specs.Sending.{IsDueUnder, are_users, frame_under, live_offer};
ghost use Rattle.live_node.specs.Tickets.{IsLoaded, after_drop, after_load, after_sent, after_withdrawn, can_drop};
ghost use Rattle.live_node.specs.Tickets.{first_number, is_flying, is_of_slot, is_unsent, ticket_of, with_slot, without_slot};

use crate::node::LiveNode;
use crate::waiting::{fly_at, place_of, pop_at};
use can_frame::Frame;
use profile::{FIRST_IDENTIFIER, LEAST_ASYNCHRONOUS, MOST_SLOTS};
use requirement_table::Mask;

/// Says which frame was loaded.
#[derive(Clone, Copy, PartialEq, Eq, Debug)]
pub struct Ticket {
    /// The identifier.
    pub id: u16,
    /// The cycle in which it was loaded.
    pub cycle: u64,
    /// The number of the request among all that were put under the identifier, from 0; 0 for a slot.
    pub number: u64,
}

/// A frame that is to be loaded into a controller.
#[derive(Clone, Copy, PartialEq, Eq, Debug)]
pub struct Loaded {
    /// The frame.
    pub frame: Frame,
    /// What is told back once it was sent, or withdrawn.
    pub ticket: Ticket,
    /// Whether its bytes are those that were put or set. If not, they are the number of the instance.
    pub users: bool,
}

impl LiveNode {
    /// The frame that the node offers under an identifier, where it offers that one so many bit times behind the start of
    /// its cycle. From then on it is in flight: it is not offered until it is told as withdrawn.
    pub fn load(&mut self, into: u32, id: u16) -> Option<Loaded>
        ensures loaded { MatchOption result ((live_offer self.old into ≡ Some id → ⊥) × (self.new ≡ self.old))
            (IsLoaded self.old into id self.new) }
    {
        let _ = &self.mail;
        match self.frame(into, id) {
            Some(frame) => {
                let ticket = self.ticket(id);
                let users = self.are_users(id);
                self.fly(id);
                Some(Loaded {
                    frame,
                    ticket,
                    users,
                })
            }
            None => None,
        }
    }

    /// The ticket of what the node offers under an identifier.
    fn ticket(&self, id: u16) -> Ticket
        ensures ticket { result ≡ ticket_of self.now id }
    {
        let cycle = match self.node.open_cycle() {
            Some(open_cycle) => open_cycle.cycle,
            None => 0,
        };
        let number = if id >= LEAST_ASYNCHRONOUS {
            self.first_number(id)
        } else {
            0
        };
        Ticket { id, cycle, number }
    }

    /// The number of the first request of an identifier.
    fn first_number(&self, id: u16) -> u64
        ensures number { result ≡ first_number self.now.mail id }
    {
        match place_of(self.mail.as_slice(), id) {
            Some(place) => self.mail[place].number(),
            None => 0,
        }
    }

    /// Whether the bytes of what the node offers under an identifier are the user's.
    fn are_users(&self, id: u16) -> bool
        requires due { id < least_asynchronous → IsDueUnder self.now id }
        ensures users { result ≡ are_users self.now id }
    {
        id >= LEAST_ASYNCHRONOUS || self.has_set((id - FIRST_IDENTIFIER) as u8)
    }

    /// Notes that what the node offers under an identifier is in flight.
    fn fly(&mut self, id: u16)
        requires due { id < least_asynchronous → IsDueUnder self.old id }
        ensures flying { self.new ≡ after_load id self.old }
    {
        if id < LEAST_ASYNCHRONOUS {
            self.loaded = with_slot(self.loaded, (id - FIRST_IDENTIFIER) as u8);
        } else if let Some(place) = place_of(self.mail.as_slice(), id) {
            fly_at(&mut self.mail, place, id, true);
        }
    }

    /// A loaded frame was sent. The answer is whether that changes anything: told twice, or of the slot of another cycle than
    /// the open one, it does not.
    pub fn sent(&mut self, ticket: &Ticket) -> bool
        ensures answer { result ≡ is_unsent self.old ticket.now }
        ensures sent { result ≡ true → self.new ≡ after_sent ticket.now.id self.old }
        ensures same { result ≡ false → self.new ≡ self.old }
    {
        if ticket.id >= LEAST_ASYNCHRONOUS {
            self.sent_request(ticket)
        } else {
            self.sent_slot(ticket)
        }
    }

    /// The same of a request.
    fn sent_request(&mut self, ticket: &Ticket) -> bool
        requires asynchronous { least_asynchronous ≤ ticket.now.id }
        ensures answer { result ≡ is_unsent self.old ticket.now }
        ensures sent { result ≡ true → self.new ≡ after_sent ticket.now.id self.old }
        ensures same { result ≡ false → self.new ≡ self.old }
    {
        let Some(place) = place_of(self.mail.as_slice(), ticket.id) else {
            return false;
        };
        if !self.mail[place].is_first(ticket.number) {
            return false;
        }
        pop_at(&mut self.mail, place, ticket.id);
        true
    }

    /// The same of a slot.
    fn sent_slot(&mut self, ticket: &Ticket) -> bool
        requires synchronous { ticket.now.id < least_asynchronous }
        ensures answer { result ≡ is_unsent self.old ticket.now }
        ensures sent { result ≡ true → self.new ≡ after_sent ticket.now.id self.old }
        ensures same { result ≡ false → self.new ≡ self.old }
    {
        if !self.is_of_slot(ticket) {
            return false;
        }
        let slot = (ticket.id - FIRST_IDENTIFIER) as u8;
        if self.sent.has(slot) {
            return false;
        }
        self.sent = with_slot(self.sent, slot);
        self.loaded = without_slot(self.loaded, slot);
        true
    }

    /// Whether a ticket is one of a slot, in the open cycle.
    fn is_of_slot(&self, ticket: &Ticket) -> bool
        ensures of_slot { result ≡ is_of_slot self.now ticket.now }
    {
        if ticket.id < FIRST_IDENTIFIER || FIRST_IDENTIFIER + u16::from(MOST_SLOTS) <= ticket.id {
            return false;
        }
        match self.node.open_cycle() {
            Some(open_cycle) => open_cycle.cycle == ticket.cycle,
            None => false,
        }
    }

    /// A loaded frame was not sent and will not be: it is offered again. The answer is whether it was in flight.
    pub fn withdrawn(&mut self, ticket: &Ticket) -> bool
        ensures answer { result ≡ is_flying self.old ticket.now }
        ensures withdrawn { result ≡ true → self.new ≡ after_withdrawn ticket.now.id self.old }
        ensures same { result ≡ false → self.new ≡ self.old }
    {
        if ticket.id >= LEAST_ASYNCHRONOUS {
            self.withdrawn_request(ticket)
        } else {
            self.withdrawn_slot(ticket)
        }
    }

    /// The same of a request.
    fn withdrawn_request(&mut self, ticket: &Ticket) -> bool
        requires asynchronous { least_asynchronous ≤ ticket.now.id }
        ensures answer { result ≡ is_flying self.old ticket.now }
        ensures withdrawn { result ≡ true → self.new ≡ after_withdrawn ticket.now.id self.old }
        ensures same { result ≡ false → self.new ≡ self.old }
    {
        let Some(place) = place_of(self.mail.as_slice(), ticket.id) else {
            return false;
        };
        if !self.mail[place].is_first(ticket.number) || !self.mail[place].is_loaded() {
            return false;
        }
        fly_at(&mut self.mail, place, ticket.id, false);
        true
    }

    /// The same of a slot.
    fn withdrawn_slot(&mut self, ticket: &Ticket) -> bool
        requires synchronous { ticket.now.id < least_asynchronous }
        ensures answer { result ≡ is_flying self.old ticket.now }
        ensures withdrawn { result ≡ true → self.new ≡ after_withdrawn ticket.now.id self.old }
        ensures same { result ≡ false → self.new ≡ self.old }
    {
        if !self.is_of_slot(ticket) {
            return false;
        }
        let slot = (ticket.id - FIRST_IDENTIFIER) as u8;
        if !self.loaded.has(slot) {
            return false;
        }
        self.loaded = without_slot(self.loaded, slot);
        true
    }

    /// Drops the first request of an identifier, where one waits that is not in flight. The answer is whether it did.
    pub fn withdraw(&mut self, id: u16) -> bool
        ensures answer { result ≡ can_drop self.old id }
        ensures dropped { result ≡ true → self.new ≡ after_drop id self.old }
        ensures same { result ≡ false → self.new ≡ self.old }
    {
        let Some(place) = place_of(self.mail.as_slice(), id) else {
            return false;
        };
        if !self.mail[place].has_request() || self.mail[place].is_loaded() {
            return false;
        }
        pop_at(&mut self.mail, place, id);
        true
    }
}

/// A set of slots with one more.
fn with_slot(slots: Mask, slot: u8) -> Mask
    requires slot { slot < most_slots }
    ensures set { result ≡ with_slot slot slots }
{
    let more = slots.with(slot);
    more.known();
    more
}

/// A set of slots with one less.
fn without_slot(slots: Mask, slot: u8) -> Mask
    requires slot { slot < most_slots }
    ensures set { result ≡ without_slot slot slots }
{
    let less = slots.without(slot);
    less.known();
    less
}
