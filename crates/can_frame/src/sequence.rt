//! The CRC sequence, as the sum of what each covered byte adds to it (CAN 2.0 Part A, CRC field).
//!
//! Division by the generator leaves of a sum of polynomials the sum of what it leaves of each. So the covered bits are
//! taken as a number, in bytes, and leading zeros add nothing.

ghost use Rattle.std.specs.Prelude.{◌≡◌, ◌+◌, ◌*◌, ◌<◌, ◌^◌, length};
ghost use Rattle.can_frame.specs.Crc.{IsRemainder, IsSequence, sequence_of};
ghost use Rattle.can_frame.specs.Wire.{covered};

use crate::data_frame::Frame;
use crate::shares::SHARES;

/// What a byte adds to the CRC sequence where `behind` bytes stand behind it.
pub fn share(behind: usize, byte: u8) -> u16
    requires few { behind < 11 }
    ensures remainder { IsRemainder (byte * 2 ^ (15 + 8 * behind)) result }
{
    SHARES[256 * behind + usize::from(byte)]
}

/// The 19 bits before the data as a number: the identifier, three dominant bits and the data length code.
pub fn header_number(frame: &Frame) -> u32
    ensures value { result ≡ 128 * frame.now.identifier + length frame.now.bytes }
    ensures range { result < 2 ^ 18 }
{
    128 * u32::from(frame.id()) + u32::from(frame.dlc())
}

/// What the bits before the data add to the CRC sequence where `behind` data bytes stand behind them.
pub fn header_share(header: u32, behind: usize) -> u16
    requires narrow { header < 2 ^ 18 }
    requires few { behind < 9 }
    ensures remainder { IsRemainder (header * 2 ^ (15 + 8 * behind)) result }
{
    share(behind + 2, (header / 0x1_0000) as u8)
        ^ share(behind + 1, (header / 0x100 % 0x100) as u8)
        ^ share(behind, (header % 0x100) as u8)
}

/// The CRC sequence of a frame, 15 bits. It takes no memory.
pub fn crc(frame: &Frame) -> u16
    ensures value { result ≡ sequence_of (covered frame.now) }
    ensures remainder { IsSequence (covered frame.now) result }
    ensures range { result < 2 ^ 15 }
{
    let mut behind = usize::from(frame.dlc());
    let mut sum = header_share(header_number(frame), behind);
    for byte in frame.bytes() {
        behind -= 1;
        sum ^= share(behind, *byte);
    }
    sum
}
