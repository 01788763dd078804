//! A list of bits without memory, with room for the longest frame before stuffing.

ghost use Rattle.std.specs.Prelude.{◌≡◌, ◌+◌, ◌<◌, ◌≤◌, ◌^◌, [], ◌∷◌, ◌++◌, length};
ghost use Rattle.stuff_bound.specs.Fields.{bits};

use std::marker::Model;

/// The most bits that a frame has before stuffing: 34, and 8 for each of 8 data bytes.
const ROOM: usize = 98;

/// Up to 98 bits, in the order of sending.
#[derive(Drop)]
pub struct BitList {
    places: [bool; ROOM],
    len: usize,
}

impl Model for BitList {
    ghost use Rattle.std.specs.Prelude.{◌≡◌, ◌≤◌, Bool, List, length, take};

    ghost Value = { List Bool };

    ghost view = { λ b. take b.len b.places };

    ghost invariant = { λ b. (b.len ≤ 98) × (length b.places ≡ 98) };
}

impl BitList {
    /// No bits.
    pub fn new() -> Self
        ensures value { result ≡ [] }
        ensures len { length result ≡ 0 }
    {
        BitList {
            places: [false; ROOM],
            len: 0,
        }
    }

    /// Puts a bit behind the others.
    pub fn push(&mut self, bit: bool)
        requires room { length self.old < 98 }
        ensures value { self.new ≡ self.old ++ bit ∷ [] }
        ensures len { length self.new ≡ length self.old + 1 }
    {
        self.places[self.len] = bit;
        self.len += 1;
    }

    /// Puts a field of `width` bits behind the others, the most significant bit of `value` first.
    pub fn push_field(&mut self, width: u8, value: u16)
        requires narrow { width ≤ 16 }
        requires room { length self.old + width ≤ 98 }
        ensures value { self.new ≡ self.old ++ bits width value }
        ensures len { length self.new ≡ length self.old + width }
    {
        for place in (0..width).rev() {
            self.push((value >> place) & 1 == 1);
        }
    }

    /// The bits.
    pub fn as_slice(&self) -> &[bool]
        ensures value { result.now ≡ self.now }
    {
        &self.places[..self.len]
    }
}
