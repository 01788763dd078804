//! Why bits are the line of no trace.

use can_frame::WireFault;
use std::alloc::AllocFailed;
use std::error::Error;
use std::fmt;

/// Why no trace was read from the bits of a line.
#[derive(Clone, Copy, Debug, PartialEq, Eq)]
pub enum LineFault {
    /// At the place `start` stands a dominant bit, outside the frames read before, at which no whole
    /// frame begins. `fault` is what a reader finds from there on, with places counted from `start`;
    /// it is never `Tail` nor `Memory`.
    Frame { start: usize, fault: WireFault },
    /// No memory.
    Memory,
}

impl<T: Drop> From<AllocFailed<T>> for LineFault {
    ghost use Rattle.std.specs.Prelude.{◌≡◌};
    ghost use Rattle.bus_line.specs.declared.line_fault.LineFault.TheVariants.{Memory};

    ghost from_gives = { λ _ fault. fault ≡ Memory };

    fn from(_failed: AllocFailed<T>) -> LineFault {
        LineFault::Memory
    }
}

impl fmt::Display for LineFault {
    fn fmt<W: fmt::Write>(&self, f: &mut fmt::Formatter<W>) -> fmt::Result {
        match self {
            LineFault::Frame { start, fault } => write!(f, "no frame at place {start}: {fault}"),
            LineFault::Memory => write!(f, "out of memory"),
        }
    }
}

impl Error for LineFault {}
