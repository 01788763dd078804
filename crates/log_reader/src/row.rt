//! The rows of a log as values.

ghost use Rattle.std.specs.Prelude.{◌≡◌};
ghost use Rattle.log_reader.specs.Row.{opened_row};

use can_frame::TimedFrame;
use requirement_table::Mask;

/// A verdict, as a row of a log tells it.
#[derive(Clone, Copy, PartialEq, Eq, Debug)]
pub enum LogVerdict {
    /// The change was taken; from cycle `first` on the plan repeats after `length` cycles.
    Accepted { first: u64, length: u64 },
    /// The change breaks a rule: the operation that breaks the first one, the number of the rule, and the cycle up to
    /// which a slot is in use, which stands behind rule 10 alone.
    Malformed { op: u8, why: u8, until: Option<u64> },
    /// The cycle in which the change was to begin was opened already.
    Passed { start: u64, next: u64 },
    /// An instance would miss its deadline: its slot, the cycle of its release, and its last cycle.
    Miss { slot: u8, release: u64, cycle: u64 },
    /// No repeat of the plan was found: the first cycle that was planned, and how many cycles were walked.
    Horizon { from: u64, walked: u64 },
}

/// What the row of an opened cycle says, as one value.
#[derive(Clone, Copy, PartialEq, Eq, Debug)]
pub struct OpenRow {
    /// The number of the cycle.
    pub cycle: u64,
    /// Its flagged slots.
    pub mask: Mask,
    /// The length of its synchronous window, in bit times.
    pub width: u32,
}

/// A row of a log.
#[derive(Clone, Copy, PartialEq, Eq, Debug)]
pub enum LogRow {
    /// Operator `caller` asked for a change, which was planned from cycle `from` on.
    Submit {
        caller: u8,
        from: u64,
        verdict: LogVerdict,
    },
    /// A cycle that was planned and not opened, and the slots that are flagged in it.
    Plan {
        cycle: u64,
        mask: Mask,
    },
    /// Operator `caller` asked for the next cycle to be opened.
    Look {
        caller: u8,
        next: u64,
    },
    /// An opened cycle, its flagged slots, and the length `l` of its synchronous window, in bit times.
    Open {
        cycle: u64,
        mask: Mask,
        l: u32,
    },
    /// A frame on the bus.
    Frame {
        timed: TimedFrame,
    },
    /// The number of opened cycles.
    End {
        next: u64,
    },
}

impl OpenRow {
    /// The row that says this.
    pub fn row(&self) -> LogRow
        ensures row { result ≡ opened_row self.now }
    {
        LogRow::Open {
            cycle: self.cycle,
            mask: self.mask,
            l: self.width,
        }
    }
}
