//! One mailbox: the requests of one identifier, first in, first out.

ghost use Rattle.std.specs.Prelude.{◌≡◌, ◌≤◌, [], ◌∷◌, ◌++◌, IfOk, OnErr, OnOk, drop, false, is_some, length, nat_lt};
ghost use Rattle.std.specs.Prelude.{option_map, slice_get, true};
ghost use Rattle.async_window.specs.Tournament.{arrival_within, first_bytes, first_length};

use crate::request::Request;
use can_frame::Frame;
use std::alloc::{AllocError, Global};
use std::marker::Model;

/// An arrival that never comes: it is above all times, which are below 2^60 bit times.
pub const NEVER: u64 = u64::MAX;

/// The greatest number of data bytes of a frame.
pub const MOST_BYTES: u8 = 8;

/// The requests of one identifier, in their order, of which the first ones are sent.
#[derive(Drop)]
pub struct Mailbox {
    id: u16,
    requests: Vec<Request>,
    sent: usize,
}

impl Model for Mailbox {
    ghost use Rattle.std.specs.Prelude.{◌≤◌, drop, length};
    ghost use Rattle.async_window.specs.Mailbox.{Mail};

    ghost Value = { Mail };

    ghost view = { λ b. record { identifier = b.id; unsent = drop b.sent b.requests.items } };

    ghost invariant = { λ b. b.sent ≤ length b.requests.items };
}

impl Mailbox {
    /// The mailbox of an identifier, without a request, with room for so many.
    pub fn new(alloc: Global, id: u16, room: usize) -> Result<Mailbox, AllocError>
        ensures empty { IfOk result (λ mailbox. mailbox ≡ record { identifier = id; unsent = [] }) }
    {
        Ok(Mailbox {
            id,
            requests: Vec::with_capacity(alloc, room)?,
            sent: 0,
        })
    }

    /// Adds a request behind the others.
    pub fn push(&mut self, request: &Request) -> Result<(), AllocError>
        ensures pushed { IfOk result (λ _. self.new
            ≡ record { identifier = self.old.identifier; unsent = self.old.unsent ++ request.now ∷ [] }) }
        ensures same { OnErr result (self.new ≡ self.old) }
    {
        if self.requests.len() < self.requests.capacity() {
            self.requests.push_reserved(*request);
            return Ok(());
        }
        self.requests.push(*request)?;
        Ok(())
    }

    /// Adds a request behind the others where fewer than `room` are not sent, and answers whether it did. What is sent
    /// gives its place back first, so a mailbox that was made with such a room takes no memory.
    pub fn put(&mut self, request: &Request, room: usize) -> Result<bool, AllocError>
        ensures room { IfOk result (λ put. put ≡ nat_lt (length self.old.unsent) room) }
        ensures put { IfOk result (λ put. put ≡ true → self.new
            ≡ record { identifier = self.old.identifier; unsent = self.old.unsent ++ request.now ∷ [] }) }
        ensures full { IfOk result (λ put. put ≡ false → self.new ≡ self.old) }
        ensures same { OnErr result (self.new ≡ self.old) }
    {
        if self.requests.len() - self.sent >= room {
            return Ok(false);
        }
        self.make_room();
        self.push(request)?;
        Ok(true)
    }

    /// Gives back the places of the requests that are sent, where there is no other place.
    fn make_room(&mut self)
        ensures same { self.new ≡ self.old }
    {
        if self.requests.len() == self.requests.capacity() {
            drop_first(&mut self.requests, self.sent);
            self.sent = 0;
        }
    }

    /// The identifier.
    pub fn id(&self) -> u16
        ensures value { result ≡ self.now.identifier }
    {
        self.id
    }

    /// The first request that is not sent.
    pub fn first(&self) -> Option<Request>
        ensures first { result ≡ slice_get self.now.unsent 0 }
    {
        self.requests.get(self.sent).copied()
    }

    /// The frame of the first request that is not sent.
    pub fn frame(&self) -> Option<Frame>
        ensures frame { result ≡ option_map (λ request. request.frame) (slice_get self.now.unsent 0) }
    {
        self.first().map(|request| request.frame)
    }

    /// Whether a request is not sent.
    pub fn has_request(&self) -> bool
        ensures some { result ≡ is_some (slice_get self.now.unsent 0) }
    {
        self.sent < self.requests.len()
    }

    /// The number of data bytes of the first request that is not sent; 0 where there is none.
    pub fn bytes(&self) -> u8
        ensures bytes { result ≡ first_bytes self.now.unsent }
        ensures few { result ≤ 8 }
    {
        match self.first() {
            Some(request) => request.frame.dlc(),
            None => 0,
        }
    }

    /// The same; `NEVER` where there is none.
    pub fn length(&self) -> u64
        ensures length { result ≡ first_length self.now.unsent }
    {
        match self.first() {
            Some(request) => u64::from(request.frame.dlc()),
            None => NEVER,
        }
    }

    /// The arrival of the first request that is not sent, in bit times, where there is one and it has at most so many
    /// data bytes; otherwise `NEVER`.
    pub fn arrival(&self, bytes: u8) -> u64
        ensures value { result ≡ arrival_within bytes self.now.unsent }
    {
        match self.first() {
            Some(request) => {
                if request.frame.dlc() <= bytes {
                    request.at
                } else {
                    NEVER
                }
            }
            None => NEVER,
        }
    }

    /// Takes away the first request that is not sent, where there is one.
    pub fn take_first(&mut self)
        ensures taken { self.new ≡ record { identifier = self.old.identifier; unsent = drop 1 self.old.unsent } }
    {
        if self.sent < self.requests.len() {
            self.sent += 1;
        }
    }
}

/// Drops the first requests of a list, in place.
fn drop_first(requests: &mut Vec<Request>, count: usize)
    requires within { count ≤ length requests.old.items }
    ensures left { requests.new.items ≡ drop count requests.old.items }
{
    requests.drain(..count);
}
