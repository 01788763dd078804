//! Why a change is malformed.

ghost use Rattle.std.specs.Prelude.{◌≡◌};
ghost use Rattle.change_protocol.specs.Code.{code_of};

use std::alloc::{AllocError, AllocFailed};
use std::error::Error;
use std::fmt;

/// The rule that a malformed change breaks. The rules are tested in this order: the first three of the whole change,
/// and then the others for each operation in its order.
#[derive(Clone, Copy, PartialEq, Eq, Debug)]
pub enum Why {
    /// There is no operation.
    NoOps,
    /// There are more than 16 operations.
    TooManyOps,
    /// The start is 2^40 or more.
    StartRange,
    /// The slot is not below the number of slots.
    SlotRange,
    /// An earlier operation of the change has the slot.
    SlotTwice,
    /// The entry's node is not below the number of nodes.
    NodeUnknown,
    /// The entry's length is above 8.
    LengthRange,
    /// The entry's period is 0.
    PeriodZero,
    /// The entry's deadline is 0 or above its period.
    DeadlineRange,
    /// An added entry finds the slot in use at the start, or the entry to be removed or changed begins only behind the
    /// start.
    SlotBusy {
        /// For an added entry the cycle from which the slot is free, `None` where an entry of the slot is live. For a
        /// removal or a change the origin of the slot's live entry.
        until: Option<u64>,
    },
    /// No entry of the slot is live that could be removed or changed.
    SlotEmpty,
}

impl Why {
    /// The number of the rule, 1 to 11.
    pub fn code(&self) -> u8
        ensures value { result ≡ code_of self.now }
    {
        match self {
            Why::NoOps => 1,
            Why::TooManyOps => 2,
            Why::StartRange => 3,
            Why::SlotRange => 4,
            Why::SlotTwice => 5,
            Why::NodeUnknown => 6,
            Why::LengthRange => 7,
            Why::PeriodZero => 8,
            Why::DeadlineRange => 9,
            Why::SlotBusy { .. } => 10,
            Why::SlotEmpty => 11,
        }
    }
}

impl fmt::Display for Why {
    fn fmt<W: fmt::Write>(&self, f: &mut fmt::Formatter<W>) -> fmt::Result {
        match self {
            Why::NoOps => f.write_str("no operation"),
            Why::TooManyOps => f.write_str("more than 16 operations"),
            Why::StartRange => f.write_str("a start of 2^40 or more"),
            Why::SlotRange => f.write_str("a slot that is not there"),
            Why::SlotTwice => f.write_str("the slot of an earlier operation"),
            Why::NodeUnknown => f.write_str("a node that is not there"),
            Why::LengthRange => f.write_str("a length above 8"),
            Why::PeriodZero => f.write_str("a period of 0"),
            Why::DeadlineRange => f.write_str("a deadline of 0 or above the period"),
            Why::SlotBusy { until: Some(until) } => {
                write!(f, "a slot that allows it only from cycle {until} on")
            }
            Why::SlotBusy { until: None } => f.write_str("a slot with a live entry"),
            Why::SlotEmpty => f.write_str("a slot with no live entry"),
        }
    }
}

/// Why a change was not applied.
#[derive(Clone, Copy, PartialEq, Eq, Debug)]
pub enum ApplyFault {
    /// The change breaks a rule; this is the first one.
    Malformed {
        /// The operation that breaks it, from 0: 0 where there is none or the start is out of range, and 16 where there
        /// are more than 16.
        op: u8,
        /// The rule.
        why: Why,
    },
    /// Memory ran out, which says nothing of the change.
    Memory,
}

impl From<AllocError> for ApplyFault {
    ghost use Rattle.std.specs.Prelude.{◌≡◌};
    ghost use Rattle.change_protocol.specs.declared.malformed.ApplyFault.TheVariants.{Memory};

    ghost from_gives = { λ _ fault. fault ≡ Memory };

    fn from(_: AllocError) -> ApplyFault {
        ApplyFault::Memory
    }
}

impl<T: Drop> From<AllocFailed<T>> for ApplyFault {
    ghost use Rattle.std.specs.Prelude.{◌≡◌};
    ghost use Rattle.change_protocol.specs.declared.malformed.ApplyFault.TheVariants.{Memory};

    ghost from_gives = { λ _ fault. fault ≡ Memory };

    fn from(_: AllocFailed<T>) -> ApplyFault {
        ApplyFault::Memory
    }
}

impl fmt::Display for ApplyFault {
    fn fmt<W: fmt::Write>(&self, f: &mut fmt::Formatter<W>) -> fmt::Result {
        match self {
            ApplyFault::Malformed { op, why } => write!(f, "operation {op}: {why}"),
            ApplyFault::Memory => f.write_str("out of memory"),
        }
    }
}

impl Error for ApplyFault {}
