//! What a master keeps of each call.

ghost use Rattle.std.specs.Prelude.{◌≡◌};
ghost use Rattle.master_core.specs.History.{accepts, is_open};

use admission::{Trail, Verdict};
use change_protocol::Change;
use requirement_table::Mask;

/// A call of a master with its answer.
#[derive(Drop, Debug)]
pub enum Event {
    /// Operator `caller` asked for a change. It was planned from the cycle `from` on. Where an instance would miss its
    /// deadline, `trail` are the slots that the plan flags in the cycles from `from` to the one of the miss.
    Submit {
        caller: u8,
        change: Change,
        from: u64,
        verdict: Verdict,
        trail: Trail,
    },
    /// Operator `caller` asked which cycle is opened next.
    Look {
        caller: u8,
        next: u64,
    },
    /// A cycle was opened, in which these slots are flagged.
    Open {
        cycle: u64,
        mask: Mask,
    },
}

impl Event {
    /// Whether it opened a cycle.
    pub fn opens_cycle(&self) -> bool
        ensures opens { result ≡ is_open self.now }
    {
        matches!(self, Event::Open { .. })
    }

    /// Whether it accepted a change.
    pub fn accepts(&self) -> bool
        ensures accepts { result ≡ accepts self.now }
    {
        match self {
            Event::Submit { verdict, .. } => verdict.is_accepted(),
            Event::Look { .. } | Event::Open { .. } => false,
        }
    }
}
