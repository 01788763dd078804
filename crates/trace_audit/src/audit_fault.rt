//! Why rows are not the log of a whole run.

ghost use Rattle.std.specs.Prelude.{Some};
ghost use Rattle.trace_audit.specs.FaultText.{audit_fault_text};

use std::alloc::{AllocError, AllocFailed};
use std::error::Error;
use std::fmt;

/// Why rows are not the log of a whole run.
#[derive(Clone, Copy, PartialEq, Eq, Debug)]
pub enum AuditFault {
    /// The first so many rows cannot stand: no history that is read from them is that of a run whose log begins with
    /// them.
    Row {
        /// The least such number, which is that of the last of these rows, counted from 1.
        number: u64,
    },
    /// Each number of first rows can stand, and the rows are not all rows of a whole run.
    Unfinished,
    /// Memory ran out, which says nothing of the rows.
    Memory,
}

impl fmt::Display for AuditFault {
    ghost output = { λ fault. Some (audit_fault_text fault) };

    fn fmt<W: fmt::Write>(&self, f: &mut fmt::Formatter<W>) -> fmt::Result {
        match self {
            AuditFault::Row { number } => write!(f, "row {number}"),
            AuditFault::Unfinished => write!(f, "unfinished"),
            AuditFault::Memory => write!(f, "out of memory"),
        }
    }
}

impl Error for AuditFault {}

impl<T: Drop> From<AllocFailed<T>> for AuditFault {
    ghost use Rattle.std.specs.Prelude.{◌≡◌};
    ghost use Rattle.trace_audit.specs.declared.audit_fault.AuditFault.TheVariants.{Memory};

    ghost from_gives = { λ _ fault. fault ≡ Memory };

    fn from(_failed: AllocFailed<T>) -> AuditFault {
        AuditFault::Memory
    }
}

impl From<AllocError> for AuditFault {
    ghost use Rattle.std.specs.Prelude.{◌≡◌};
    ghost use Rattle.trace_audit.specs.declared.audit_fault.AuditFault.TheVariants.{Memory};

    ghost from_gives = { λ _ fault. fault ≡ Memory };

    fn from(_error: AllocError) -> AuditFault {
        AuditFault::Memory
    }
}
