//! A sender of stuffed bits that is given up to eight bits at once, and counts its stuff bits.

ghost use Rattle.std.specs.Prelude.{◌≡◌, ◌+◌, ◌*◌, ◌%◌, ◌<◌, ◌≤◌, ◌^◌, Bool, List, [], ◌++◌, length, take};
ghost use Rattle.stuff_bound.specs.Stuffing.{stuffed};
ghost use Rattle.stuff_bound.specs.Fields.{bits, bits_of};
ghost use Rattle.stuff_bound.specs.Sending.{WasGiven, step_at};

use crate::steps::{PLACES, STEPS};
use std::marker::Model;

/// What a sender of stuffed bits keeps of the plain bits that it was given: enough to go on, and the number of stuff
/// bits so far. It takes up to eight plain bits at once, and no memory.
///
/// Its clauses speak of every list of plain bits that it was given, in the order of sending, so a caller only says in a
/// proof which one it is.
#[derive(Clone, Copy, Debug, PartialEq, Eq)]
pub struct Sender {
    /// The run of equal bits that it sent last, as the table of steps counts it.
    state: usize,
    /// The number of stuff bits that it has sent.
    stuff_bits: u32,
}

impl Model for Sender {
    ghost use Rattle.std.specs.Prelude.{◌<◌};
    ghost use Rattle.stuff_bound.specs.Sending.{Counted};

    ghost Value = { Counted };

    ghost view = { λ s. record { state = s.state; stuff_bits = s.stuff_bits } };

    ghost invariant = { λ s. s.state < 10 };

    ghost inverse = { λ v. record { state = v.state; stuff_bits = v.stuff_bits } };
}

/// The entry of the table of steps for these bits behind a leading 1.
fn step(marked: usize, state: usize) -> u8
    requires bits { marked < 512 }
    requires state { state < 10 }
    ensures value { result ≡ step_at (16 * marked + state) }
    ensures state { result % 16 < 10 }
    ensures few { result < 48 }
{
    STEPS[PLACES * marked + state]
}

impl Sender {
    /// Before the first bit.
    pub fn new() -> Self
        ensures given { WasGiven result [] }
        ensures none { result.stuff_bits ≡ 0 }
    {
        Sender {
            state: 0,
            stuff_bits: 0,
        }
    }

    /// Once it was given `width` more bits, at most 8, which are the low ones of `value`, the most significant of them
    /// first. They bring two stuff bits at most.
    pub fn then(self, width: u32, value: u8) -> Self
        requires width { width ≤ 8 }
        requires value { value < 2 ^ width }
        requires few { self.stuff_bits < 2 ^ 30 }
        ensures given { (plain : List Bool) → WasGiven self plain → WasGiven result (plain ++ bits width value) }
        ensures few { result.stuff_bits ≤ self.stuff_bits + 2 }
    {
        let step = step((1 << width) + usize::from(value), self.state);
        Sender {
            state: usize::from(step % 16),
            stuff_bits: self.stuff_bits + u32::from(step / 16),
        }
    }

    /// Once it was given the bits of these bytes too, the most significant bit of each byte first.
    pub fn then_bytes(self, bytes: &[u8]) -> Self
        requires few { self.stuff_bits + 2 * length bytes.now < 2 ^ 30 }
        ensures given { (plain : List Bool) → WasGiven self plain → WasGiven result (plain ++ bits_of bytes.now) }
        ensures few { result.stuff_bits ≤ self.stuff_bits + 2 * length bytes.now }
    {
        let mut sender = self;
        for byte in bytes {
            sender = sender.then(8, *byte);
        }
        sender
    }

    /// How many stuff bits it has sent, in bit times.
    pub fn stuff_bits(self) -> u32
        ensures value { result ≡ self.stuff_bits }
        ensures len { (plain : List Bool) → WasGiven self plain → length (stuffed plain) ≡ length plain + result }
        ensures few { (plain : List Bool) → WasGiven self plain → 0 < length plain → 4 * result + 1 ≤ length plain }
    {
        self.stuff_bits
    }
}

/// A sender that was given the first `bits` bits of these bytes, the most significant bit of each byte first.
pub fn after_bits(bytes: &[u8], bits: u32) -> Sender
    requires within { bits ≤ 8 * length bytes.now }
    requires few { bits < 2 ^ 30 }
    ensures given { WasGiven result (take bits (bits_of bytes.now)) }
{
    let whole = (bits / 8) as usize;
    let rest = bits % 8;
    let sender = Sender::new().then_bytes(&bytes[..whole]);
    if rest == 0 {
        return sender;
    }
    sender.then(rest, bytes[whole] >> (8 - rest))
}
