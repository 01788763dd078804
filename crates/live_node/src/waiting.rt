//! The requests that wait, by their identifiers.

ghost use Rattle.std.specs.Prelude.{◌≡◌, ◌≢◌, ◌+◌, ◌-◌, ◌<◌, ◌≤◌, AllPairs, IfOk, IfSome, None, Some, true};
ghost use Rattle.std.specs.Prelude.{length, is_some, map, slice_get, slice_index_or};
ghost use Rattle.live_node.specs.Live.{Waiting, box_of, has_room, nothing_waits, pushed, with_box};
ghost use Rattle.live_node.specs.Sending.{may_start};
ghost use Rattle.live_node.specs.Tickets.{flying, is_first, without_first};
ghost use Rattle.node_model.specs.Node.{identifiers_of};
ghost use Rattle.stuff_bound.specs.Stuffing.{worst};

use async_window::Owner;
use can_frame::Frame;
use circular_buffer::HeapCircularBuffer;
use cycle_layout::Layout;
use std::alloc::{AllocError, Global};
use std::marker::Model;
use stuff_bound::bound;

/// The requests of one identifier that wait, in the room that was made for them.
#[derive(Drop)]
pub struct Mailbox {
    id: u16,
    frames: HeapCircularBuffer<Frame>,
    /// The number of the first request.
    first: u64,
    /// Whether the first request is in flight.
    loaded: bool,
}

impl Model for Mailbox {
    ghost use Rattle.live_node.specs.Live.{IsWaiting, Waiting};

    ghost Value = { Waiting };

    ghost view = { λ b. record {
      identifier = b.id;
      frames = b.frames.items;
      room = b.frames.capacity;
      first = b.first;
      loaded = b.loaded;
    } };

    ghost invariant = { λ b. IsWaiting (record {
      identifier = b.id;
      frames = b.frames.items;
      room = b.frames.capacity;
      first = b.first;
      loaded = b.loaded;
    }) };
}

impl Mailbox {
    /// No request of an identifier, and room for so many.
    fn new(alloc: Global, id: u16, room: usize) -> Result<Mailbox, AllocError>
        ensures empty { IfOk result (λ mailbox. mailbox ≡ nothing_waits room id) }
    {
        Ok(Mailbox {
            id,
            frames: HeapCircularBuffer::with_capacity(alloc, room)?,
            first: 0,
            loaded: false,
        })
    }

    /// The identifier.
    pub fn id(&self) -> u16
        ensures id { result ≡ self.now.identifier }
    {
        self.id
    }

    /// How many requests wait.
    pub fn len(&self) -> usize
        ensures len { result ≡ length self.now.frames }
    {
        self.frames.len()
    }

    /// The number of the first request.
    pub fn number(&self) -> u64
        ensures number { result ≡ self.now.first }
    {
        self.first
    }

    /// Whether the first request is in flight.
    pub fn is_loaded(&self) -> bool
        ensures loaded { result ≡ self.now.loaded }
    {
        self.loaded
    }

    /// Whether some request waits.
    pub fn has_request(&self) -> bool
        ensures some { result ≡ is_some (slice_get self.now.frames 0) }
    {
        self.first_frame().is_some()
    }

    /// The frame of the first request.
    pub fn first_frame(&self) -> Option<Frame>
        ensures first { result ≡ slice_get self.now.frames 0 }
        ensures own { IfSome result (λ frame. frame.identifier ≡ self.now.identifier) }
    {
        self.frames.front().copied()
    }

    /// Whether some request waits, and the first one has this number.
    pub fn is_first(&self, number: u64) -> bool
        ensures first { result ≡ is_first number self.now }
    {
        self.first == number && self.has_request()
    }

    /// Whether one more request may wait.
    pub fn has_room(&self) -> bool
        ensures room { result ≡ has_room self.now }
    {
        let waiting = self.frames.len();
        waiting < self.frames.capacity() && (waiting as u64) < u64::MAX - self.first
    }

    /// Puts a request behind the others.
    fn push(&mut self, frame: &Frame)
        requires own { frame.now.identifier ≡ self.old.identifier }
        requires room { has_room self.old ≡ true }
        ensures pushed { self.new ≡ pushed frame.now self.old }
    {
        self.frames.push_back(*frame);
    }

    /// Takes the first request away.
    fn pop(&mut self)
        requires some { is_some (slice_get self.old.frames 0) ≡ true }
        ensures popped { self.new ≡ without_first self.old }
    {
        self.frames.pop_front();
        self.first += 1;
        self.loaded = false;
    }

    /// Notes whether the first request is in flight.
    fn fly(&mut self, loaded: bool)
        ensures flying { self.new ≡ flying loaded self.old }
    {
        self.loaded = loaded;
    }

    /// Whether the first request may start so many bit times behind the start of a cycle with a synchronous window of the
    /// length `width`.
    pub fn may_start(&self, layout: &Layout, width: u32, into: u32) -> bool
        requires width { width ≤ layout.now.window }
        ensures may { result ≡ may_start layout.now width into self.now }
    {
        match self.first_frame() {
            Some(frame) => {
                let opened = layout.trigger_part() + layout.turnaround();
                !self.loaded && opened <= into && into <= last_request(layout, width, frame.dlc())
            }
            None => false,
        }
    }
}

/// The last time at which a frame of so many bytes may start before a synchronous window of the length `width`.
pub fn last_request(layout: &Layout, width: u32, bytes: u8) -> u32
    requires width { width ≤ layout.now.window }
    requires bytes { bytes ≤ 8 }
    ensures last { result + worst bytes ≡ layout.now.cycle - width }
{
    layout.is_in_range();
    layout.cycle() - width - bound(bytes)
}

/// Mailboxes for the identifiers that `owners` gives to a number.
pub fn mailboxes(
    alloc: Global,
    number: u8,
    owners: &[Owner],
    room: usize,
) -> Result<Vec<Mailbox>, AllocError>
    ensures empty { IfOk result (λ boxes. boxes.items
        ≡ map (nothing_waits room) (identifiers_of number owners.now)) }
{
    let mut boxes = Vec::new(alloc);
    for owner in owners {
        if owner.node == number {
            boxes.push(Mailbox::new(alloc, owner.id, room)?)?;
        }
    }
    Ok(boxes)
}

/// The place of the requests of an identifier.
pub fn place_of(boxes: &[Mailbox], id: u16) -> Option<usize>
    ensures none { result ≡ None → box_of boxes.now id ≡ None }
    ensures within { IfSome result (λ place. place < length boxes.now) }
    ensures found { (d : Waiting) → IfSome result
        (λ place. box_of boxes.now id ≡ Some (slice_index_or boxes.now place d)) }
    ensures own { (d : Waiting) → IfSome result (λ place. (slice_index_or boxes.now place d).identifier ≡ id) }
{
    for (place, mailbox) in boxes.iter().enumerate() {
        if mailbox.id() == id {
            return Some(place);
        }
    }
    None
}

/// Puts a request behind those of its identifier, which stand at a place.
pub fn push_at(boxes: &mut Vec<Mailbox>, place: usize, frame: &Frame)
    requires place { place < length boxes.old.items }
    requires distinct { AllPairs (λ one other. one.identifier ≢ other.identifier) boxes.old.items }
    requires own { (d : Waiting) → (slice_index_or boxes.old.items place d).identifier ≡ frame.now.identifier }
    requires room { (d : Waiting) → has_room (slice_index_or boxes.old.items place d) ≡ true }
    ensures pushed { boxes.new.items ≡ with_box frame.now.identifier (pushed frame.now) boxes.old.items }
{
    boxes[place].push(frame);
}

/// Takes the first request of an identifier away, whose requests stand at a place.
pub fn pop_at(boxes: &mut Vec<Mailbox>, place: usize, id: u16)
    requires place { place < length boxes.old.items }
    requires distinct { AllPairs (λ one other. one.identifier ≢ other.identifier) boxes.old.items }
    requires own { (d : Waiting) → (slice_index_or boxes.old.items place d).identifier ≡ id }
    requires some { (d : Waiting) → is_some (slice_get (slice_index_or boxes.old.items place d).frames 0) ≡ true }
    ensures popped { boxes.new.items ≡ with_box id without_first boxes.old.items }
{
    let _ = id;
    boxes[place].pop();
}

/// Notes whether the first request of an identifier, whose requests stand at a place, is in flight.
pub fn fly_at(boxes: &mut Vec<Mailbox>, place: usize, id: u16, loaded: bool)
    requires place { place < length boxes.old.items }
    requires distinct { AllPairs (λ one other. one.identifier ≢ other.identifier) boxes.old.items }
    requires own { (d : Waiting) → (slice_index_or boxes.old.items place d).identifier ≡ id }
    ensures flying { boxes.new.items ≡ with_box id (flying loaded) boxes.old.items }
{
    let _ = id;
    boxes[place].fly(loaded);
}
