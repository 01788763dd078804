//! The answer to a change.

ghost use Rattle.std.specs.Prelude.{◌≡◌};
ghost use Rattle.admission.specs.Verdict.{is_accepted};

use change_protocol::Why;

/// What is answered to a change. The first of these that is true is the answer, in this order.
#[derive(Clone, Copy, PartialEq, Eq, Debug)]
pub enum Verdict {
    /// The change breaks a rule: the operation that breaks the first one, and which one.
    Malformed { op: u8, why: Why },
    /// The cycle in which the change is to begin was opened already.
    Passed { start: u64, next: u64 },
    /// An instance would miss its deadline: its slot, the cycle of its release, and its last cycle, in which it
    /// would not be sent.
    Miss { slot: u8, release: u64, cycle: u64 },
    /// No repeat of the plan was found: the first cycle that was planned, and how many cycles were walked.
    Horizon { from: u64, walked: u64 },
    /// The change is taken. From cycle `first` on the plan repeats after `length` cycles.
    Accepted { first: u64, length: u64 },
}

impl Verdict {
    /// Whether the change was taken.
    pub fn is_accepted(&self) -> bool
        ensures test { result ≡ is_accepted self.now }
    {
        matches!(self, Verdict::Accepted { .. })
    }
}
