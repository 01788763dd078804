//! The data frame, as a value of at most 8 data bytes, and a frame with its place in time.

ghost use Rattle.std.specs.Prelude.{◌≡◌, ◌-◌, ◌<◌, ◌≤◌, ◌++◌, length, replicate, slice_index, IfOk, IfErr};
ghost use Rattle.std.specs.Int.{bytes_high_first};
ghost use Rattle.profile.specs.Limits.{greatest_identifier};
ghost use Rattle.can_frame.specs.DataFrame.{IsFrame};
ghost use Rattle.can_frame.specs.FrameFault.{Refuses};

use profile::GREATEST_IDENTIFIER;
use std::error::Error;
use std::fmt;
use std::marker::Model;

/// The greatest number of data bytes of a frame (CAN 2.0 Part A, data length code).
pub const MAX_BYTES: usize = 8;

/// A data frame: an identifier from 0 to 0x7EF, and 0 to 8 data bytes.
#[derive(Clone, Copy, Debug, PartialEq, Eq)]
pub struct Frame {
    id: u16,
    len: u8,
    bytes: [u8; MAX_BYTES],
}

impl Model for Frame {
    ghost use Rattle.std.specs.Prelude.{◌-◌, ◌++◌, length, take, replicate};
    ghost use Rattle.can_frame.specs.DataFrame.{DataFrame, IsStored};

    ghost Value = { DataFrame };

    ghost view = { λ f. record { identifier = f.id; bytes = take f.len f.bytes } };

    ghost invariant = { λ f. IsStored f.id f.len f.bytes };

    ghost inverse = { λ d. record {
      id = d.identifier;
      len = length d.bytes;
      bytes = d.bytes ++ replicate (8 - length d.bytes) 0;
    } };
}

/// Why there is no such frame.
#[derive(Clone, Copy, Debug, PartialEq, Eq)]
pub enum FrameFault {
    /// The identifier is above 0x7EF.
    IdRange { id: u16 },
    /// There are more than 8 data bytes.
    TooLong { len: usize },
}

impl fmt::Display for FrameFault {
    fn fmt<W: fmt::Write>(&self, f: &mut fmt::Formatter<W>) -> fmt::Result {
        match self {
            FrameFault::IdRange { id } => write!(f, "identifier 0x{id:03x} is above 0x7ef"),
            FrameFault::TooLong { len } => write!(f, "{len} data bytes are more than 8"),
        }
    }
}

impl Error for FrameFault {}

/// The low bytes of a number, the most significant of them first, and zeros behind them: eight places in all.
fn low_bytes(len: u8, number: u64) -> [u8; MAX_BYTES]
    requires few { len ≤ 8 }
    ensures places { result ≡ bytes_high_first len number ++ replicate (8 - len) 0 }
{
    if len == 0 {
        return [0; MAX_BYTES];
    }
    (number << (64 - 8 * u32::from(len))).to_be_bytes()
}

impl Frame {
    /// The frame of an identifier and its data bytes, in the order of sending.
    ///
    /// An identifier above 0x7EF is refused before too many bytes are. It takes no memory.
    pub fn new(id: u16, bytes: &[u8]) -> Result<Frame, FrameFault>
        ensures frame { IfOk result (λ f. f ≡ record { identifier = id; bytes = bytes.now }) }
        ensures legal { IfOk result IsFrame }
        ensures fault { IfErr result (Refuses id bytes.now) }
    {
        if id > GREATEST_IDENTIFIER {
            return Err(FrameFault::IdRange { id });
        }
        if bytes.len() > MAX_BYTES {
            return Err(FrameFault::TooLong { len: bytes.len() });
        }
        let mut places = [0; MAX_BYTES];
        places[..bytes.len()].copy_from_slice(bytes);
        Ok(Frame {
            id,
            len: bytes.len() as u8,
            bytes: places,
        })
    }

    /// The frame of an identifier and the low `len` bytes of a number, the most significant of them first. Nothing
    /// refuses it.
    pub fn of_number(id: u16, len: u8, number: u64) -> Frame
        requires identifier { id ≤ greatest_identifier }
        requires few { len ≤ 8 }
        ensures frame { result ≡ record { identifier = id; bytes = bytes_high_first len number } }
        ensures legal { IsFrame result }
    {
        Frame {
            id,
            len,
            bytes: low_bytes(len, number),
        }
    }

    /// The number whose low bytes the data bytes are, the first of them as the most significant one.
    pub fn number(&self) -> u64
        requires some { 0 < length self.now.bytes }
        ensures bytes { bytes_high_first (length self.now.bytes) result ≡ self.now.bytes }
    {
        u64::from_be_bytes(self.bytes) >> (64 - 8 * u32::from(self.len))
    }

    /// The identifier, at most 0x7EF.
    pub fn id(&self) -> u16
        ensures value { result ≡ self.now.identifier }
        ensures range { result ≤ greatest_identifier }
        ensures legal { IsFrame self.now }
    {
        self.id
    }

    /// The number of data bytes, at most 8: the data length code of the frame.
    pub fn dlc(&self) -> u8
        ensures value { result ≡ length self.now.bytes }
        ensures range { result ≤ 8 }
    {
        self.len
    }

    /// The data bytes, in the order of sending.
    pub fn bytes(&self) -> &[u8]
        ensures value { result.now ≡ self.now.bytes }
        ensures range { length result.now ≤ 8 }
    {
        &self.bytes[..self.len as usize]
    }

    /// The data byte at a place, counted from 0 in the order of sending.
    pub fn byte(&self, place: u8) -> u8
        requires within { place < length self.now.bytes }
        ensures value { result ≡ slice_index self.now.bytes place }
        ensures range { result < 256 }
    {
        self.bytes[place as usize]
    }
}

/// A frame on the bus: its start in bit times, its length in bit times and the frame.
#[derive(Clone, Copy, Debug, PartialEq, Eq)]
pub struct TimedFrame {
    /// The time at which the frame starts, in bit times.
    pub start: u64,
    /// The number of bit times that the frame takes, its intermission included.
    pub len: u32,
    /// The frame that is sent.
    pub frame: Frame,
}

/// A frame whose wire begins some bits.
#[derive(Clone, Copy, Debug, PartialEq, Eq)]
pub struct Front {
    /// The frame.
    pub frame: Frame,
    /// The place of the first bit behind its wire: the number of bits of that wire, its intermission
    /// included.
    pub end: usize,
}
