//! What a node does while it runs besides what it does with frames: it takes requests, and goes on behind cycles whose
//! trigger frames it did not hear.

ghost use Rattle.std.specs.Prelude.{◌≡◌, ◌↔◌, ◌≤◌, ◌<◌, ◌^◌, ◌&&◌, Contains, IfOk, IfSome, OnErr};
ghost use Rattle.std.specs.Prelude.{false, length, map, nat_lt, option_map, true};
ghost use Rattle.profile.specs.Limits.{arrivals_end, cycles_end};
ghost use Rattle.trigger_kind.specs.Kind.{opening_identifier};
ghost use Rattle.async_window.specs.Mailbox.{left, unsent_of};
ghost use Rattle.node_model.specs.Online.{after_put, cycle_now, cycle_of, open_now, passed_to};

use crate::node::Node;
use async_window::Request;
use cycle_layout::Layout;
use requirement_table::Mask;
use std::alloc::AllocError;

/// The cycle that is open for a node.
#[derive(Clone, Copy)]
pub struct OpenCycle {
    /// Its number.
    pub cycle: u64,
    /// The length of its synchronous window, in bit times.
    pub width: u32,
    /// The slots that its trigger flagged.
    pub mask: Mask,
}

impl Node {
    /// The layout of the bus.
    pub fn layout(&self) -> Layout
        ensures layout { result ≡ self.now.state.layout }
    {
        self.layout
    }

    /// The cycle that the next trigger frames open.
    pub fn next_cycle(&self) -> u64
        ensures next { result ≡ self.now.state.next }
        ensures few { result ≤ cycles_end }
    {
        self.next
    }

    /// The cycle in which the node is, where it heard a trigger frame of it.
    pub fn cycle_now(&self) -> Option<u64>
        ensures cycle { result ≡ cycle_now self.now.state }
        ensures few { IfSome result (λ cycle. cycle ≤ cycles_end) }
    {
        if self.noted.is_some() {
            return Some(self.next);
        }
        match self.opened {
            Some(open_cycle) => Some(open_cycle.cycle),
            None => None,
        }
    }

    /// The cycle that is open for the node, where it has noted no trigger frame of the next one.
    pub fn open_cycle(&self) -> Option<OpenCycle>
        ensures open_cycle { result ≡ option_map cycle_of (open_now self.now.state) }
        ensures few { IfSome result (λ open_cycle. open_cycle.cycle < cycles_end) }
        ensures fits { IfSome result (λ open_cycle. open_cycle.width ≤ self.now.state.layout.window) }
    {
        if self.noted.is_some() {
            return None;
        }
        match self.opened {
            Some(open_cycle) => Some(OpenCycle {
                cycle: open_cycle.cycle,
                width: open_cycle.width,
                mask: open_cycle.mask,
            }),
            None => None,
        }
    }

    /// Whether an asynchronous identifier is one of the node's own.
    pub fn owns(&self, id: u16) -> bool
        ensures owns { result ≡ true ↔ Contains (map (λ box. box.identifier) self.now.state.mail) id }
    {
        self.mailboxes.has(id)
    }

    /// Puts a request behind the unsent ones of its identifier, where fewer than `room` of these are left, and fewer than
    /// 2^32 in all. The answer is whether it did.
    pub fn put(&mut self, request: &Request, room: usize) -> Result<bool, AllocError>
        requires early { request.now.at < arrivals_end }
        requires own { Contains (map (λ box. box.identifier) self.old.state.mail) request.now.frame.identifier }
        ensures room { IfOk result (λ put. put ≡ (nat_lt (left self.old.state.mail) (2 ^ 32)
            && nat_lt (length (unsent_of self.old.state.mail request.now.frame.identifier)) room)) }
        ensures put { IfOk result (λ put. put ≡ true → self.new.state ≡ after_put request.now self.old.state) }
        ensures full { IfOk result (λ put. put ≡ false → self.new.state ≡ self.old.state) }
        ensures same { OnErr result (self.new.state ≡ self.old.state) }
        ensures spare { self.new.spare ≡ self.old.spare }
    {
        self.ahead = None;
        self.mailboxes.put(request, room)
    }

    /// Passes over the cycles below one, of which no trigger frames were heard. No cycle is open for the node then.
    pub fn pass_to(&mut self, cycle: u64)
        requires behind { self.old.state.next ≤ cycle }
        requires few { cycle ≤ cycles_end }
        ensures passed { self.new.state ≡ passed_to cycle self.old.state }
        ensures spare { self.new.spare ≡ self.old.spare }
    {
        self.ahead = None;
        self.noted = None;
        self.opened = None;
        self.next = cycle;
    }
}
