//! Why a text is no log.

ghost use Rattle.std.specs.Prelude.{Some};
ghost use Rattle.log_reader.specs.FaultText.{log_fault_text};

use std::alloc::{AllocError, AllocFailed};
use std::error::Error;
use std::fmt;

/// Why no log was read.
#[derive(Clone, Copy, PartialEq, Eq, Debug)]
pub enum LogFault {
    /// The fields of some record of the text are those of no row.
    Row {
        /// The number of the first such record, from 1.
        number: u64,
    },
    /// There was no memory for the rows.
    Memory,
}

impl fmt::Display for LogFault {
    ghost output = { λ fault. Some (log_fault_text fault) };

    fn fmt<W: fmt::Write>(&self, f: &mut fmt::Formatter<W>) -> fmt::Result {
        match self {
            LogFault::Row { number } => write!(f, "row {number}"),
            LogFault::Memory => write!(f, "out of memory"),
        }
    }
}

impl Error for LogFault {}

impl<T: Drop> From<AllocFailed<T>> for LogFault {
    ghost use Rattle.std.specs.Prelude.{◌≡◌};
    ghost use Rattle.log_reader.specs.declared.log_fault.LogFault.TheVariants.{Memory};

    ghost from_gives = { λ _ fault. fault ≡ Memory };

    fn from(_failed: AllocFailed<T>) -> LogFault {
        LogFault::Memory
    }
}

impl From<AllocError> for LogFault {
    ghost use Rattle.std.specs.Prelude.{◌≡◌};
    ghost use Rattle.log_reader.specs.declared.log_fault.LogFault.TheVariants.{Memory};

    ghost from_gives = { λ _ fault. fault ≡ Memory };

    fn from(_error: AllocError) -> LogFault {
        LogFault::Memory
    }
}
