//! What an export answers.

ghost use Rattle.std.specs.Prelude.{◌≡◌, ◌≢◌};
ghost use Rattle.c_values.specs.Refused.{status_of};

use std::alloc::{AllocError, AllocFailed};

/// What was asked for is done.
pub const OK: u32 = 0;

/// Why an export does not do what it is asked for.
#[derive(Clone, Copy, PartialEq, Eq, Debug)]
pub enum ExportRefusal {
    /// Memory ran out, which says nothing of what was asked for. The call may be made again.
    Memory,
    /// An argument is out of its range.
    Argument,
    /// The table is not well placed.
    Table,
    /// The state can't be planned from, or no cycle may be opened any more.
    State,
    /// The caller's room is too small. The count says how much is needed.
    Room,
    /// An instance would miss its deadline in the cycle.
    Miss,
    /// The handle holds nothing, or something of another kind.
    Closed,
    /// The handle holds something already.
    Open,
    /// The text, the bytes or the frames are none of the form.
    Text,
    /// What was given is not what it is said to be: a plan that does not keep its table, a change that a standby
    /// refuses, or a trigger that is not the planned one.
    No,
}

impl ExportRefusal {
    /// The status that C is told.
    pub fn status(self) -> u32
        ensures status { result ≡ status_of self }
        ensures refused { result ≢ 0 }
    {
        match self {
            ExportRefusal::Memory => 1,
            ExportRefusal::Argument => 2,
            ExportRefusal::Table => 3,
            ExportRefusal::State => 4,
            ExportRefusal::Room => 5,
            ExportRefusal::Miss => 6,
            ExportRefusal::Closed => 7,
            ExportRefusal::Open => 8,
            ExportRefusal::Text => 9,
            ExportRefusal::No => 10,
        }
    }
}

impl From<AllocError> for ExportRefusal {
    ghost use Rattle.std.specs.Prelude.{◌≡◌};
    ghost use Rattle.c_values.specs.declared.refusal.ExportRefusal.TheVariants.{Memory};

    ghost from_gives = { λ _ refusal. refusal ≡ Memory };

    fn from(_: AllocError) -> ExportRefusal {
        ExportRefusal::Memory
    }
}
