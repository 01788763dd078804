//! Why no frames of a file are listed.

ghost use Rattle.std.specs.Prelude.{◌≡◌};

use ftt_io::{Failed, FetchFault};
use std::alloc::{AllocError, AllocFailed};
use std::fmt;

/// Why the frames of a file are not listed.
#[derive(Clone, Copy, Debug, PartialEq, Eq)]
pub enum ListingStop {
    /// No file is named.
    Words,
    /// A file has more than 268,435,455 bytes.
    TooLong,
    /// A byte of a file, at this place from 0, is none of `0`, `1` and line feed.
    NoBit { place: usize },
    /// A file could not be read.
    Read,
    /// The output could not be written.
    Write,
    /// Memory ran out.
    Memory,
}

impl ListingStop {
    /// The exit status of the process, as that of `fttcan`.
    pub fn code(self) -> u8 {
        match self {
            ListingStop::Words => 2,
            ListingStop::TooLong | ListingStop::NoBit { .. } => 3,
            ListingStop::Read => 4,
            ListingStop::Write => 5,
            ListingStop::Memory => 6,
        }
    }
}

impl fmt::Display for ListingStop {
    fn fmt<W: fmt::Write>(&self, f: &mut fmt::Formatter<W>) -> fmt::Result {
        match self {
            ListingStop::Words => write!(f, "usage: line_frames FILE.."),
            ListingStop::TooLong => write!(f, "bits: longer than 268435455 bytes"),
            ListingStop::NoBit { place } => write!(f, "bits: place {place}"),
            ListingStop::Read => write!(f, "read fault"),
            ListingStop::Write => write!(f, "write fault"),
            ListingStop::Memory => write!(f, "out of memory"),
        }
    }
}

impl<T: Drop> From<AllocFailed<T>> for ListingStop {
    ghost use Rattle.line_frames.specs.declared.stop.ListingStop.TheVariants.{Memory};

    ghost from_gives = { λ _ stop. stop ≡ Memory };

    fn from(_failed: AllocFailed<T>) -> ListingStop {
        ListingStop::Memory
    }
}

impl From<AllocError> for ListingStop {
    ghost use Rattle.line_frames.specs.declared.stop.ListingStop.TheVariants.{Memory};

    ghost from_gives = { λ _ stop. stop ≡ Memory };

    fn from(_error: AllocError) -> ListingStop {
        ListingStop::Memory
    }
}

impl From<Failed> for ListingStop {
    ghost use Rattle.line_frames.specs.declared.stop.ListingStop.TheVariants.{Write};

    ghost from_gives = { λ _ stop. stop ≡ Write };

    fn from(_failed: Failed) -> ListingStop {
        ListingStop::Write
    }
}

impl From<FetchFault> for ListingStop {
    ghost use Rattle.line_frames.specs.Stops.{stop_of_fetch};

    ghost from_gives = { λ fault stop. stop ≡ stop_of_fetch fault };

    fn from(fault: FetchFault) -> ListingStop {
        match fault {
            FetchFault::Failed => ListingStop::Read,
            FetchFault::TooLong => ListingStop::TooLong,
            FetchFault::Memory => ListingStop::Memory,
        }
    }
}
