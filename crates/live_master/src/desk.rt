//! What lies behind the turn.

ghost use Rattle.std.specs.Prelude.{◌≡◌, ◌<◌, ◌^◌, [], length, true, IfOk};
ghost use Rattle.admission.specs.Verdict.{IsRules};
ghost use Rattle.master_core.specs.Kept.{kept_of};
ghost use Rattle.live_master.specs.Kept.{kept_snapshot_of};

use admission_rules::Rules;
use master_core::{CoreSnapshot, Event, LeanMaster};
use std::alloc::{AllocError, Global};
use turn_lock::Stands;

/// A master behind the turn. It stands for its history, and its rules are the same at every turn.
#[derive(Drop)]
pub struct Desk {
    /// It keeps all events.
    pub master: LeanMaster,
    ghost few: { length master.history < 2 ^ 62 },
    ghost keeps: { master.keeps ≡ true },
    ghost kept: { master.placed ≡ kept_of master.history },
}

impl Stands for Desk {
    ghost use Rattle.live_master.specs.Callers.{number_of};

    type Entry = Event;

    type Fixed = Rules;

    ghost entries = { λ desk. desk.master.history };

    ghost fixed = { λ desk. desk.master.rules };

    ghost number = { λ event. number_of event };

    ghost few = { λ desk. desk.few };
}

impl Desk {
    /// A desk with a master that was not called yet.
    pub fn new(alloc: Global, rules: Rules) -> Result<Desk, AllocError>
        requires rules { IsRules rules }
        ensures rules { IfOk result (λ desk. desk.master.rules ≡ rules) }
        ensures history { IfOk result (λ desk. desk.master.history ≡ []) }
    {
        let master = LeanMaster::new(alloc, rules, true)?;
        Ok(Desk { master })
    }

    /// What a change is planned from, apart from the master: the entries that it keeps, and the state before its next
    /// cycle.
    ///
    /// # Errors
    ///
    /// Only where memory runs out.
    pub fn kept_snapshot(&self, alloc: Global) -> Result<CoreSnapshot, AllocError>
        ensures snapshot { IfOk result (λ snapshot.
            snapshot ≡ kept_snapshot_of self.now.master.rules self.now.master.history) }
    {
        let state = self.master.state();
        self.master.kept_snapshot(alloc, &state)
    }
}
