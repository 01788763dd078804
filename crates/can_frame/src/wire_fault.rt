//! Why bits are not the wire of a frame.

use std::error::Error;
use std::fmt;

/// Why bits are not the wire of a frame. Places are indexes into the bits.
#[derive(Clone, Copy, Debug, PartialEq, Eq)]
pub enum WireFault {
    /// A sixth equal bit stands at a place of the stuffed part.
    Stuff { place: usize },
    /// A fixed bit is wrong, or a data length code is above 8 (the place of its last bit), or an
    /// identifier is above 0x7EF (the place of its seventh bit).
    Form { place: usize },
    /// The CRC sequence that was sent is not that of the bits before it.
    Crc { sent: u16, computed: u16 },
    /// The bits end before the frame does, and none of the above came; `have` is their number.
    Short { have: usize },
    /// A bit follows the third bit of intermission.
    Tail { place: usize },
    /// No memory. This reader takes none, and so never answers it.
    Memory,
}

impl fmt::Display for WireFault {
    fn fmt<W: fmt::Write>(&self, f: &mut fmt::Formatter<W>) -> fmt::Result {
        match self {
            WireFault::Stuff { place } => write!(f, "the sixth of six equal bits at place {place}"),
            WireFault::Form { place } => write!(f, "no frame has this bit at place {place}"),
            WireFault::Crc { sent, computed } => {
                write!(f, "CRC sequence 0x{sent:04x} in place of 0x{computed:04x}")
            }
            WireFault::Short { have } => write!(f, "the frame goes on after its {have} bits"),
            WireFault::Tail { place } => write!(
                f,
                "a bit behind the intermission at place {place}"
            ),
            WireFault::Memory => write!(f, "out of memory"),
        }
    }
}

impl Error for WireFault {}
