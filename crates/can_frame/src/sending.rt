//! A frame as a sender of stuffed bits is given it, byte by byte, and as its bytes are added up to the CRC sequence.

ghost use Rattle.std.specs.Prelude.{◌≡◌, ℕ, ◌+◌, ◌*◌, ◌<◌, ◌≤◌, ◌^◌, length, slice_index};
ghost use Rattle.profile.specs.Limits.{shortest_frame};
ghost use Rattle.stuff_bound.specs.Stuffing.{worst};
ghost use Rattle.can_frame.specs.Begun.{HasBegun};
ghost use Rattle.can_frame.specs.DataFrame.{DataFrame};
ghost use Rattle.can_frame.specs.Wire.{wire_length};

use crate::data_frame::Frame;
use crate::sequence::{header_number, header_share, share};
use crate::wire_bits::TRAILER;
use stuff_bound::Sender;

/// What is known of a frame once the bits before its data and its first data bytes were gone through.
#[derive(Clone, Copy, Debug)]
pub struct Begun {
    /// What these bits add to the CRC sequence, where the other data bytes stand behind them.
    pub sum: u16,
    /// A sender that was given these bits.
    pub sender: Sender,
}

impl Begun {
    /// Once the next data byte was gone through too, behind which `behind` data bytes stand.
    pub fn then(self, behind: usize, byte: u8) -> Begun
        requires few { behind < 8 }
        requires counted { self.sender.stuff_bits < 2 ^ 30 }
        ensures begun { (frame : DataFrame) (count : ℕ) → count + (behind + 1) ≡ length frame.bytes
            → byte ≡ slice_index frame.bytes count → HasBegun frame count self.sum self.sender
            → HasBegun frame (count + 1) result.sum result.sender }
        ensures counted { result.sender.stuff_bits ≤ self.sender.stuff_bits + 2 }
    {
        Begun {
            sum: self.sum ^ share(behind, byte),
            sender: self.sender.then(8, byte),
        }
    }
}

/// What is known of a frame once the bits before its data and its first `count` data bytes were gone through.
///
/// The 19 bits before the data go to the sender as 3, 8 and 8 bits, so that each data byte goes in as it is.
#[inline(always)]
pub fn begin(frame: &Frame, count: usize) -> Begun
    requires within { count ≤ length frame.now.bytes }
    ensures begun { HasBegun frame.now count result.sum result.sender }
{
    let header = header_number(frame);
    let mut behind = usize::from(frame.dlc());
    let mut begun = Begun {
        sum: header_share(header, behind),
        sender: Sender::new()
            .then(3, (header / 0x1_0000) as u8)
            .then(8, (header / 0x100 % 0x100) as u8)
            .then(8, (header % 0x100) as u8),
    };
    for byte in &frame.bytes()[..count] {
        behind -= 1;
        begun = begun.then(behind, *byte);
    }
    begun
}

/// The same by a call, for where it is rarely asked.
#[cold]
#[inline(never)]
pub fn begin_anew(frame: &Frame, count: usize) -> Begun
    requires within { count ≤ length frame.now.bytes }
    ensures begun { HasBegun frame.now count result.sum result.sender }
{
    begin(frame, count)
}

/// What is known of a frame of eight data bytes, as each trigger is, once all of them were gone through: without a loop.
pub fn begin_eight(frame: &Frame) -> Begun
    requires eight { length frame.now.bytes ≡ 8 }
    ensures begun { HasBegun frame.now 8 result.sum result.sender }
{
    begin(frame, 0)
        .then(7, frame.byte(0))
        .then(6, frame.byte(1))
        .then(5, frame.byte(2))
        .then(4, frame.byte(3))
        .then(3, frame.byte(4))
        .then(2, frame.byte(5))
        .then(1, frame.byte(6))
        .then(0, frame.byte(7))
}

/// The wire length of a frame in bit times, its three bits of intermission included, once its data bytes were gone
/// through.
pub fn len_after(frame: &Frame, begun: Begun) -> u32
    requires begun { HasBegun frame.now (length frame.now.bytes) begun.sum begun.sender }
    ensures value { result ≡ wire_length frame.now }
    ensures at_least { shortest_frame + 8 * length frame.now.bytes ≤ result }
    ensures at_most { result ≤ worst (length frame.now.bytes) }
{
    let plain = 34 + 8 * u32::from(frame.dlc());
    let sender = begun
        .sender
        .then(7, (begun.sum / 0x100) as u8)
        .then(8, (begun.sum % 0x100) as u8);
    plain + sender.stuff_bits() + TRAILER.len() as u32
}
