//! The trigger message that opens an elementary cycle of FTT-CAN: the eight data bytes of its frames,
//! in both directions, and what is heard of them. It is one frame with 40 slots, and two with 96:
//! `trigger_kind` says which.
//!
//! The layout of the bytes is this project's own. In the first frame byte 0 is the cycle modulo 256,
//! and bytes 1 and 2 are the length of the synchronous window in bit times, big-endian. Its bytes 3 to
//! 7 are the flags of the slots below 40: slot s is bit s modulo 8 of byte 3 + s div 8, bit 0 being
//! the least significant.
//!
//! In the second frame byte 0 is the cycle modulo 256 too. Its bytes 1 to 7 are the flags of the slots
//! 40 to 95: slot s is bit (s - 40) modulo 8 of byte 1 + (s - 40) div 8.
#![tactic(auto)]

mod heard;
pub mod laws;
mod message;
mod trigger_fault;

pub use heard::{Heard, Noted, first_heard, hear, last_heard};
pub use message::{
    SECOND_IDENTIFIER, Second, TRIGGER_IDENTIFIER, Trigger, TriggerFrames, decode, decode_second,
    encode, encode_all, encode_later, encode_second, flags_of_both, frames_behind,
};
pub use trigger_fault::TriggerFault;
