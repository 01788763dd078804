//! The bits of a frame in the order of sending.

ghost use Rattle.std.specs.Prelude.{◌≡◌, ◌+◌, ◌*◌, ◌≤◌, length, IfOk};
ghost use Rattle.profile.specs.Limits.{shortest_frame};
ghost use Rattle.stuff_bound.specs.Stuffing.{worst};
ghost use Rattle.can_frame.specs.DataFrame.{IsFrame};
ghost use Rattle.can_frame.specs.Wire.{covered, plain, wire_of, wire_length};

use crate::bit_list::BitList;
use crate::data_frame::Frame;
use crate::sending::{begin, begin_eight, len_after};
use crate::sequence::crc;
use std::alloc::{AllocError, Global};
use stuff_bound::stuff;

/// A dominant bit, which is 0: it overrides a recessive one.
const DOMINANT: bool = false;

/// The bits behind the stuffed part: CRC delimiter, acknowledgement slot, acknowledgement delimiter,
/// seven bits of end of frame and three of intermission (CAN 2.0 Part A, data frame and interframe space).
pub const TRAILER: [bool; 13] = [
    true, false, true, true, true, true, true, true, true, true, true, true, true,
];

/// The bits from start of frame to the end of data, which the CRC covers.
fn covered_bits(frame: &Frame) -> BitList
    ensures value { result ≡ covered frame.now }
    ensures len { length result ≡ 19 + 8 * length frame.now.bytes }
    ensures legal { IsFrame frame.now }
    ensures few { length result ≤ 83 }
{
    let mut list = BitList::new();
    list.push(DOMINANT); // start of frame
    list.push_field(11, frame.id());
    list.push(DOMINANT); // RTR
    list.push(DOMINANT); // r1
    list.push(DOMINANT); // r0
    list.push_field(4, u16::from(frame.dlc()));
    for place in 0..frame.dlc() {
        list.push_field(8, u16::from(frame.byte(place)));
    }
    list
}

/// The bits that are stuffed: those that the CRC covers, and the CRC sequence.
fn plain_bits(frame: &Frame) -> BitList
    ensures value { result ≡ plain frame.now }
    ensures len { length result ≡ 34 + 8 * length frame.now.bytes }
    ensures legal { IsFrame frame.now }
    ensures few { length result ≤ 98 }
{
    let mut list = covered_bits(frame);
    list.push_field(15, crc(frame));
    list
}

/// The wire length of a frame in bit times, its three bits of intermission included: 47 and 8 for each
/// data byte, and its stuff bits. It takes no memory.
pub fn wire_len(frame: &Frame) -> u32
    ensures value { result ≡ wire_length frame.now }
    ensures at_least { shortest_frame + 8 * length frame.now.bytes ≤ result }
    ensures at_most { result ≤ worst (length frame.now.bytes) }
{
    let bytes = frame.dlc();
    if bytes == 8 {
        len_after(frame, begin_eight(frame))
    } else {
        len_after(frame, begin(frame, usize::from(bytes)))
    }
}

/// The bits of a frame on the wire, in the order of sending, its three bits of intermission included.
pub fn wire(alloc: Global, frame: &Frame) -> Result<Vec<bool>, AllocError>
    ensures value { IfOk result (λ bits. bits.items ≡ wire_of frame.now) }
    ensures legal { IsFrame frame.now }
{
    let list = plain_bits(frame);
    let mut bits = stuff(alloc, list.as_slice())?;
    bits.extend_from_slice(&TRAILER)?;
    Ok(bits)
}
