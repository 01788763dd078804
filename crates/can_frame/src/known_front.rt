//! What is known of the bits before the last data byte of a frame. Frames of one slot differ in their last byte, but
//! for one of 256: the bits before it need not be gone through again.

ghost use Rattle.std.specs.Prelude.{◌≡◌, ◌+◌, ◌-◌, ◌*◌, ◌<◌, ◌≤◌, length, true};
ghost use Rattle.std.specs.Int.{bytes_high_first};
ghost use Rattle.profile.specs.Limits.{shortest_frame};
ghost use Rattle.stuff_bound.specs.Stuffing.{worst};
ghost use Rattle.can_frame.specs.Begun.{HasBegun, HaveOneFront, IsKnownFront};
ghost use Rattle.can_frame.specs.Wire.{wire_length};

use crate::data_frame::Frame;
use crate::sending::{Begun, begin_anew, len_after};
use crate::wire_bits::wire_len;
use std::marker::Model;
use stuff_bound::Sender;

/// What is known of the bits before the last data byte of the frame that was measured last.
#[derive(Clone, Copy, Debug)]
pub struct KnownFront {
    /// A frame with these bits, and a data byte behind them.
    frame: Frame,
    /// The number whose low bytes the data bytes of that frame are, without the last of them.
    front: u64,
    /// What they add to the CRC sequence, where one data byte stands behind them.
    sum: u16,
    /// A sender that was given them.
    sender: Sender,
}

impl Model for KnownFront {
    ghost use Rattle.can_frame.specs.Begun.{FrontView, IsKnownFront};

    ghost Value = { FrontView };

    ghost view = { λ k. record { frame = k.frame; front = k.front; sum = k.sum; sender = k.sender } };

    ghost invariant = { λ k. IsKnownFront (record { frame = k.frame; front = k.front; sum = k.sum; sender = k.sender }) };

    ghost inverse = { λ v. record { frame = v.frame; front = v.front; sum = v.sum; sender = v.sender } };
}

impl KnownFront {
    /// What is known before any frame was measured: the bits of the frame of identifier 0 with one data byte.
    pub fn new() -> KnownFront {
        match Frame::new(0, &[0]) {
            Ok(frame) => KnownFront::of(&frame),
            Err(_) => unreachable!(),
        }
    }

    /// What is known of a frame with a data byte.
    fn of(frame: &Frame) -> KnownFront
        requires some { 0 < length frame.now.bytes }
        ensures frame { result.frame ≡ frame.now }
        ensures known { IsKnownFront result }
    {
        let Begun { sum, sender } = begin_anew(frame, usize::from(frame.dlc()) - 1);
        KnownFront {
            frame: *frame,
            front: frame.number() / 256,
            sum,
            sender,
        }
    }

    /// Whether a frame has these bits, and a data byte behind them. Its data bytes are the low ones of a number.
    fn is_of(&self, frame: &Frame, number: u64) -> bool
        requires some { 0 < length frame.now.bytes }
        requires number { bytes_high_first (length frame.now.bytes) number ≡ frame.now.bytes }
        ensures same { result ≡ true → HaveOneFront self.now.frame frame.now }
        ensures known { IsKnownFront self.now }
    {
        self.frame.dlc() == frame.dlc()
            && self.frame.id() == frame.id()
            && self.front == number / 256
    }

    /// Has the bits before the last data byte of a frame known, whose data bytes are the low ones of a number. Only a
    /// copy of the frame is lent further, so that the frame itself can stay in registers.
    fn know(&mut self, frame: &Frame, number: u64)
        requires some { 0 < length frame.now.bytes }
        requires number { bytes_high_first (length frame.now.bytes) number ≡ frame.now.bytes }
        ensures known { HasBegun frame.now (length frame.now.bytes - 1) self.new.sum self.new.sender }
    {
        if !self.is_of(frame, number) {
            let copy = *frame;
            *self = KnownFront::of(&copy);
        }
    }

    /// The wire length of a frame in bit times, as `wire_len` gives it. Where the frame begins with the bits that are
    /// known, these are not gone through again; else they are known afterwards.
    pub fn wire_len(&mut self, frame: &Frame) -> u32
        ensures value { result ≡ wire_length frame.now }
        ensures at_least { shortest_frame + 8 * length frame.now.bytes ≤ result }
        ensures at_most { result ≤ worst (length frame.now.bytes) }
    {
        if frame.dlc() == 0 {
            let copy = *frame;
            return wire_len(&copy);
        }
        let number = frame.number();
        self.know(frame, number);
        let front = Begun {
            sum: self.sum,
            sender: self.sender,
        };
        len_after(frame, front.then(0, (number % 256) as u8))
    }
}
