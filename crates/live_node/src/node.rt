//! A node in use.

ghost use Rattle.std.specs.Prelude.{◌≡◌, ℕ, ◌+◌, ◌&&◌, ◌≤◌, [], IfOk, None, Some, false, true, length, map, min};
ghost use Rattle.std.specs.Prelude.{nat_le, nat_lt, option_map, slice_index_or, slice_set};
ghost use Rattle.profile.specs.Limits.{cycles_end, first_identifier};
ghost use Rattle.bit_sets.specs.Sets.{most_slots};
ghost use Rattle.requirement_table.specs.Table.{IsWellPlaced};
ghost use Rattle.async_window.specs.Owners.{AreOwners};
ghost use Rattle.node_model.specs.Node.{IsNode, entries_of, fresh_node, identifiers_of};
ghost use Rattle.node_model.specs.Online.{cycle_of, open_now};
ghost use Rattle.live_node.specs.Live.{AreWaiting, Learns, Puts, box_of, nothing_waits};
ghost use Rattle.live_node.specs.Hearing.{answer_live, gone_to, heard_live};

use crate::known_bytes::{Origins, Values, keep_bytes, no_origins, none_set, origins_of};
use crate::trigger::{Heard, hear, kept};
use crate::waiting::{Mailbox, mailboxes, place_of, push_at};
use async_window::Owner;
use can_frame::Frame;
use cycle_layout::Layout;
use node_model::{Node, OpenCycle};
use profile::{CYCLES_END, FIRST_IDENTIFIER, MOST_SLOTS};
use requirement_table::{Mask, Placed};
use std::alloc::{AllocError, Global};
use std::marker::Model;

/// The greatest number of cycles by which the count of a driver may be off.
const MOST_OFF: u8 = 127;

/// How a node is made.
#[derive(Clone, Copy, PartialEq, Eq, Debug)]
pub struct Settings {
    /// How many requests may wait under each identifier.
    pub room: usize,
    /// How many entries of its own the node can learn.
    pub entries: usize,
    /// By how many cycles the count of its driver may be off. Above 127 it counts as 127.
    pub tolerance: u8,
    /// Whether a slot is left silent for which no bytes are set, or not as many as its entry says. Otherwise the number of
    /// the instance is sent.
    pub silent: bool,
}

/// What became of a request.
#[derive(Clone, Copy, PartialEq, Eq, Debug)]
pub enum Put {
    /// It waits behind those of its identifier.
    Done,
    /// As many of its identifier wait as may.
    Full,
    /// Its identifier is none of the node's own.
    Strange,
}

/// A node in use. It takes memory when it is made, and not afterwards.
#[derive(Drop)]
pub struct LiveNode {
    pub(crate) node: Node,
    pub(crate) mail: Vec<Mailbox>,
    pub(crate) values: Values,
    origins: Origins,
    /// The slots that were sent in the open cycle.
    pub(crate) sent: Mask,
    /// The slots whose frames are in flight.
    pub(crate) loaded: Mask,
    entries: usize,
    tolerance: u8,
    started: bool,
    pub(crate) silent: bool,
}

impl Model for LiveNode {
    ghost use Rattle.std.specs.Prelude.{◌≤◌};
    ghost use Rattle.live_node.specs.Live.{IsLive, LiveView};

    ghost Value = { LiveView };

    ghost view = { λ n. record {
      state = n.node.state;
      mail = n.mail.items;
      values = n.values;
      origins = n.origins;
      sent = n.sent;
      loaded = n.loaded;
      started = n.started;
      tolerance = n.tolerance;
      entries = n.entries;
      silent = n.silent;
    } };

    ghost invariant = { λ n. IsLive n.mail.items n.entries n.node.spare };
}

impl LiveNode {
    /// A node of a number, in a layout, with the asynchronous identifiers that `owners` gives to its number. It hears no
    /// trigger before it is told the cycle with which it begins.
    ///
    /// The owners' identifiers are distinct and 0x200 to 0x7EF.
    pub fn new(
        alloc: Global,
        number: u8,
        layout: Layout,
        owners: &[Owner],
        settings: &Settings,
    ) -> Result<LiveNode, AllocError>
        requires owners { AreOwners owners.now }
        ensures fresh { IfOk result (λ node. node.state ≡ fresh_node layout [] [] number) }
        ensures mail { IfOk result
            (λ node. node.mail ≡ map (nothing_waits settings.now.room) (identifiers_of number owners.now)) }
        ensures values { IfOk result (λ node. (slot : ℕ) → slice_index_or node.values slot None ≡ None) }
        ensures origins { IfOk result (λ node. (slot : ℕ) → slice_index_or node.origins slot None ≡ None) }
        ensures nothing { IfOk result (λ node. (node.sent ≡ 0) × (node.loaded ≡ 0) × (node.started ≡ false)) }
        ensures settings { IfOk result (λ node. (node.tolerance ≡ min settings.now.tolerance 127)
            × (node.entries ≡ settings.now.entries) × (node.silent ≡ settings.now.silent)) }
    {
        let mail = mailboxes(alloc, number, owners, settings.room)?;
        let mut node = Node::new(alloc, number, layout, &[], &[])?;
        node.reserve(alloc, settings.entries)?;
        Ok(LiveNode {
            node,
            mail,
            values: none_set(),
            origins: no_origins(),
            sent: Mask::empty(),
            loaded: Mask::empty(),
            entries: settings.entries,
            tolerance: settings.tolerance.min(MOST_OFF),
            started: false,
            silent: settings.silent,
        })
    }

    /// What holds of every node in use. This does nothing: it brings the facts to a proof.
    pub fn known(&self)
        ensures node { IsNode self.now.state }
        ensures mail { AreWaiting self.now.mail }
    {
        let _ = &self.mail;
        let _offer = self.node.offer(0);
    }

    /// Replaces the node's entries by those of its number in a list, in any cycle, where these are not too many for it. The
    /// answer is whether they are not. The bytes that were set for a slot are forgotten where the last entry of that slot is
    /// another one than before.
    pub fn learn(&mut self, placed: &[Placed]) -> bool
        requires well_placed { IsWellPlaced placed.now }
        ensures answer { result ≡ nat_le (length (entries_of self.old.state.number placed.now)) self.old.entries }
        ensures learnt { result ≡ true → Learns placed.now self.old self.new }
        ensures same { result ≡ false → self.new ≡ self.old }
    {
        let number = self.node.number();
        if own_entries(number, placed) > self.entries {
            return false;
        }
        self.node.learn_own(placed);
        let origins = origins_of(number, placed);
        keep_bytes(&mut self.values, &self.origins, &origins);
        self.origins = origins;
        true
    }

    /// Goes on with a cycle: the next trigger that is taken is that of this cycle or a later one. No cycle is open then. The
    /// answer is whether it did: a node does not go back.
    pub fn go_to(&mut self, cycle: u64) -> bool
        ensures answer { result ≡ (nat_le self.old.state.next cycle && nat_le cycle cycles_end) }
        ensures gone { result ≡ true → self.new ≡ gone_to cycle self.old }
        ensures same { result ≡ false → self.new ≡ self.old }
    {
        if self.node.next_cycle() <= cycle && cycle <= CYCLES_END {
            self.node.pass_to(cycle);
            self.started = true;
            true
        } else {
            false
        }
    }

    /// Hears a trigger frame. So many cycles have passed without a trigger that was taken, by the clock of the driver, since
    /// the last one that was: 0 where none was missed.
    pub fn trigger(&mut self, frame: &Frame, passed: u32) -> Heard
        ensures answer { result ≡ answer_live passed frame.now self.old }
        ensures heard { self.new ≡ heard_live passed frame.now self.old }
    {
        if !self.started {
            return Heard::NotTaken;
        }
        let heard = hear(&mut self.node, passed, self.tolerance, frame);
        self.sent = kept(heard, self.sent);
        self.loaded = kept(heard, self.loaded);
        heard
    }

    /// Puts a request behind those of its identifier, which are sent in their order.
    pub fn put(&mut self, frame: &Frame) -> Put
        ensures put { Puts self.old frame.now self.new result }
    {
        let Some(place) = place_of(self.mail.as_slice(), frame.id()) else {
            return Put::Strange;
        };
        if !self.mail[place].has_room() {
            return Put::Full;
        }
        push_at(&mut self.mail, place, frame);
        Put::Done
    }

    /// Sets the bytes that frames of a slot have which are loaded from now on, until others are set. They are sent where they
    /// are as many as the slot's entry says. The answer is whether there is such a slot, and they are at most eight.
    pub fn set(&mut self, slot: u8, bytes: &[u8]) -> bool
        ensures answer { result ≡ (nat_lt slot most_slots && nat_le (length bytes.now) 8) }
        ensures set { result ≡ true → self.new ≡ record self.old {
          values = slice_set self.old.values slot
              (Some (record { identifier = first_identifier + slot; bytes = bytes.now }));
        } }
        ensures same { result ≡ false → self.new ≡ self.old }
    {
        if slot >= MOST_SLOTS || bytes.len() > 8 {
            return false;
        }
        match Frame::new(FIRST_IDENTIFIER + u16::from(slot), bytes) {
            Ok(frame) => {
                self.values[usize::from(slot)] = Some(frame);
                true
            }
            Err(_) => unreachable!(),
        }
    }

    /// How many requests of an identifier wait, one in flight included; none where the identifier is not the node's own.
    pub fn waiting(&self, id: u16) -> Option<usize>
        ensures waiting { result ≡ option_map (λ box. length box.frames) (box_of self.now.mail id) }
    {
        match place_of(self.mail.as_slice(), id) {
            Some(place) => Some(self.mail[place].len()),
            None => None,
        }
    }

    /// The least cycle whose trigger the node can take.
    pub fn next_cycle(&self) -> u64
        ensures next { result ≡ self.now.state.next }
        ensures few { result ≤ cycles_end }
    {
        self.node.next_cycle()
    }

    /// The cycle that is open, with the length of its synchronous window and its flagged slots; none between two trigger
    /// frames of one cycle.
    pub fn open_cycle(&self) -> Option<OpenCycle>
        ensures open_cycle { result ≡ option_map cycle_of (open_now self.now.state) }
    {
        self.node.open_cycle()
    }

    /// The layout of the bus.
    pub fn layout(&self) -> Layout
        ensures layout { result ≡ self.now.state.layout }
    {
        self.node.layout()
    }
}

/// How many entries of a list are a node's own.
fn own_entries(number: u8, placed: &[Placed]) -> usize
    ensures count { result ≡ length (entries_of number placed.now) }
{
    let mut count = 0;
    for p in placed {
        if p.entry.node == number {
            count += 1;
        }
    }
    count
}
