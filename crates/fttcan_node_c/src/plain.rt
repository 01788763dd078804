//! What crosses to C for a node: structs of plain numbers, laid out as C does it.

ghost use Rattle.std.specs.Prelude.{◌≡◌};
ghost use Rattle.fttcan_node_c.specs.Nodes.{due_told, heard_told, loaded_told, offer_told, ticket_of};

use c_values::{FttFrame, frame_out};
use live_node::{Due, Heard, LiveOffer, Loaded, Ticket};

/// The status of what finds no room in a node: as many requests wait, or as many entries would be known, as it was made
/// for.
pub const FULL: u32 = 12;

/// How a node is made: how many requests may wait under each of its identifiers, how many entries of its own it can know,
/// its number, 0 to 29, by how many cycles the count of its driver may be off, 0 to 127, and whether it leaves slots silent
/// of which no fitting bytes are set: where `silent` is not 0.
#[repr(C)]
#[derive(Clone, Copy, PartialEq, Eq, Debug)]
pub struct FttSettings {
    pub room: u64,
    pub entries: u64,
    pub number: u8,
    pub tolerance: u8,
    pub silent: u8,
}

/// What a node offers: an identifier, and the last bit time at which its frame may start.
#[repr(C)]
#[derive(Clone, Copy, PartialEq, Eq, Debug)]
pub struct FttOffer {
    pub until: u32,
    pub id: u16,
}

/// Which frame is in flight: that of an identifier, which was loaded in a cycle. Of a request it has the number, counted
/// from 0 under the identifier.
#[repr(C)]
#[derive(Clone, Copy, PartialEq, Eq, Debug)]
pub struct FttTicket {
    pub cycle: u64,
    pub number: u64,
    pub id: u16,
}

/// A frame for the controller, and its ticket. `users` is 1 where its bytes were put or set, and else 0.
#[repr(C)]
#[derive(Clone, Copy, PartialEq, Eq, Debug)]
pub struct FttLoaded {
    pub ticket: FttTicket,
    pub frame: FttFrame,
    pub users: u8,
}

/// A slot that a node owes: the first and the last bit time at which its frame may start, whether it is in flight, and
/// whether its bytes were set, 1 or 0 each.
#[repr(C)]
#[derive(Clone, Copy, PartialEq, Eq, Debug)]
pub struct FttDue {
    pub start: u32,
    pub last: u32,
    pub loaded: u8,
    pub users: u8,
}

/// A ticket that C hands in.
pub fn ticket_in(ticket: &FttTicket) -> Ticket
    ensures value { result ≡ ticket_of ticket.now }
{
    Ticket {
        id: ticket.id,
        cycle: ticket.cycle,
        number: ticket.number,
    }
}

/// What is offered, as C is told it.
pub fn offer_out(offer: &LiveOffer) -> FttOffer
    ensures told { result ≡ offer_told offer.now }
{
    FttOffer {
        until: offer.until,
        id: offer.id,
    }
}

/// A frame in flight, as C is told it.
pub fn loaded_out(loaded: &Loaded) -> FttLoaded
    ensures told { result ≡ loaded_told loaded.now }
{
    FttLoaded {
        ticket: FttTicket {
            cycle: loaded.ticket.cycle,
            number: loaded.ticket.number,
            id: loaded.ticket.id,
        },
        frame: frame_out(&loaded.frame),
        users: u8::from(loaded.users),
    }
}

/// A slot that is owed, as C is told it.
pub fn due_out(due: &Due) -> FttDue
    ensures told { result ≡ due_told due.now }
{
    FttDue {
        start: due.start,
        last: due.last,
        loaded: u8::from(due.loaded),
        users: u8::from(due.users),
    }
}

/// What became of a trigger frame, as C is told it.
pub fn heard_out(heard: Heard) -> u8
    ensures told { result ≡ heard_told heard }
{
    match heard {
        Heard::Opened => 0,
        Heard::Noted => 1,
        Heard::Again => 2,
        Heard::NotTaken => 3,
        Heard::Other => 4,
    }
}
