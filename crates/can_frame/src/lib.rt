//! Data frames of CAN Specification 2.0 Part A with 11-bit identifiers: their fields, their CRC
//! sequence and the bits that they are on the wire, in both directions.
#![tactic(auto)]

mod bit_list;
mod data_frame;
mod known_front;
pub mod laws;
mod reader;
mod sending;
mod sequence;
mod shares;
mod wire_bits;
mod wire_fault;

pub use data_frame::{Frame, FrameFault, Front, MAX_BYTES, TimedFrame};
pub use known_front::KnownFront;
pub use reader::{read_front, read_wire};
pub use sequence::crc;
pub use wire_bits::{wire, wire_len};
pub use wire_fault::WireFault;
