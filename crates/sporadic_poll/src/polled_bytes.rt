//! The bytes of a frame that carries a request.

ghost use Rattle.std.specs.Prelude.{◌≡◌, ◌<◌, ◌≤◌, length, None, Some};
ghost use Rattle.sporadic_poll.specs.Ride.{bytes_with};

use std::marker::Model;

/// The greatest number of data bytes of a frame.
const MAX_BYTES: usize = 8;

/// The first byte of a frame that carries a request.
const MARK: u8 = 1;

/// The data bytes of an instance of a polled slot. Contracts see the list.
#[derive(Drop, Debug)]
pub struct PolledBytes {
    bytes: [u8; MAX_BYTES],
    count: usize,
}

impl Model for PolledBytes {
    ghost use Rattle.std.specs.Prelude.{ℕ, List, ◌≤◌, take};

    ghost Value = { List ℕ };

    ghost view = { λ p. take p.count p.bytes };

    ghost invariant = { λ p. p.count ≤ 8 };
}

impl PolledBytes {
    /// The bytes of an instance, of an entry of this length, that took no request: zeros.
    pub fn none(entry_length: u8) -> PolledBytes
        requires few { entry_length ≤ 8 }
        ensures bytes { result ≡ bytes_with entry_length None }
    {
        PolledBytes {
            bytes: [0; MAX_BYTES],
            count: usize::from(entry_length),
        }
    }

    /// The bytes of an instance, of an entry of this length, that took a request with this payload, which has fewer
    /// bytes: a mark, the payload, and zeros.
    pub fn of(entry_length: u8, payload: &[u8]) -> PolledBytes
        requires few { entry_length ≤ 8 }
        requires short { length payload.now < entry_length }
        ensures bytes { result ≡ bytes_with entry_length (Some payload.now) }
    {
        let mut bytes = [0; MAX_BYTES];
        bytes[0] = MARK;
        bytes[1..=payload.len()].copy_from_slice(payload);
        PolledBytes {
            bytes,
            count: usize::from(entry_length),
        }
    }

    /// The bytes, at most eight.
    pub fn as_slice(&self) -> &[u8]
        ensures bytes { result.now ≡ self.now }
        ensures few { length result.now ≤ 8 }
    {
        &self.bytes[..self.count]
    }
}
