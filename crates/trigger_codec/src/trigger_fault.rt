//! Why a frame is no trigger frame.

use std::error::Error;
use std::fmt;

/// Why a frame is no first trigger frame, or no second one: the first of these that holds.
#[derive(Clone, Copy, Debug, PartialEq, Eq)]
pub enum TriggerFault {
    /// The identifier isn't that of the trigger frame: 0 of the first one, 1 of the second.
    WrongId { id: u16 },
    /// There aren't 8 data bytes.
    WrongLength { dlc: u8 },
    /// The synchronous window is longer than 16,383 bit times. Only a first trigger frame says one.
    Window { l: u32 },
}

impl fmt::Display for TriggerFault {
    fn fmt<W: fmt::Write>(&self, f: &mut fmt::Formatter<W>) -> fmt::Result {
        match self {
            TriggerFault::WrongId { id } => {
                write!(f, "identifier 0x{id:03x} is not that of the trigger frame")
            }
            TriggerFault::WrongLength { dlc } => write!(f, "{dlc} data bytes are not 8"),
            TriggerFault::Window { l } => write!(f, "window of {l} bit times is above 16383"),
        }
    }
}

impl Error for TriggerFault {}
