//! Bit stuffing and the longest frames of a CAN bus (CAN 2.0 Part A).
//!
//! A bit is a `bool`: dominant is `false`, recessive is `true`. The definitions that the contracts
//! cite are in `specs/`: *Stuffing* in `Stuffing.antt`, what is no stuffing in `StuffFault.antt`, both
//! by places in `ByPlace.antt`, and the bits of numbers and bytes in `Fields.antt`.
#![tactic(auto)]

pub mod laws;
mod run;
mod sender;
mod steps;
mod stuffing;

pub use run::BitRun;
pub use sender::Sender;
pub use stuffing::{StuffFault, bound, stuff, stuffed_len, stuffed_len_bytes, unstuff};
