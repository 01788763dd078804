//! The passes of a shared master.

ghost use Rattle.std.specs.Prelude.{◌≡◌, ◌≤◌};
ghost use Rattle.turn_lock.specs.Passes.{Facts};
ghost use Rattle.master_core.specs.History.{next_of};
ghost use Rattle.live_master.specs.Callers.{number_of};

use crate::desk::Desk;
use std::marker::Model;
use turn_lock::Pass;

/// The place of the one dispatcher at a shared master. It has the number 0, makes and retires operators, and opens
/// cycles. Contracts see it as a pass of the turn lock.
///
/// Where it is dropped, the shared master cannot be closed.
#[derive(Drop)]
pub struct DispatcherPass {
    pub(crate) pass: Pass<Desk>,
    /// The number of cycles that it opened.
    pub(crate) cycles: u64,
}

impl Model for DispatcherPass {
    ghost use Rattle.std.specs.Prelude.{◌≡◌};
    ghost use Rattle.turn_lock.specs.Passes.{Known};
    ghost use Rattle.admission_rules.specs.declared.Rules.{Rules};
    ghost use Rattle.master_core.specs.declared.event.Event.{Event};
    ghost use Rattle.master_core.specs.History.{next_of};
    ghost use Rattle.live_master.specs.Passes.{IsIdle};

    ghost Value = { Known Event Rules };

    ghost view = { λ p. p.pass };

    ghost invariant = { λ p. IsIdle p.pass.view × (p.pass.view.number ≡ 0) × (p.cycles ≡ next_of p.pass.view.mine) };
}

impl DispatcherPass {
    /// How many operators were made with it.
    pub fn made(&self) -> u64
        ensures made { result ≡ self.now.view.made }
        ensures number { self.now.view.number ≡ 0 }
        ensures facts { Facts number_of self.now.view }
    {
        self.pass.made()
    }

    /// How many of these were not retired.
    pub fn out(&self) -> u64
        ensures out { result ≡ self.now.view.out }
        ensures number { self.now.view.number ≡ 0 }
        ensures facts { Facts number_of self.now.view }
    {
        self.pass.out()
    }

    /// How many cycles it opened.
    pub fn cycles(&self) -> u64
        ensures cycles { result ≡ next_of self.now.view.mine }
        ensures number { self.now.view.number ≡ 0 }
        ensures facts { Facts number_of self.now.view }
    {
        self.cycles
    }
}

/// The place of operator `caller`, 1 to 8, at a shared master. Contracts see it as a pass of the turn lock, of that
/// number.
///
/// Where it is dropped, it is never retired, and then the shared master cannot be closed.
#[derive(Drop)]
pub struct OperatorPass {
    pub(crate) pass: Pass<Desk>,
    pub(crate) caller: u8,
}

impl Model for OperatorPass {
    ghost use Rattle.std.specs.Prelude.{◌≡◌, ◌≤◌};
    ghost use Rattle.turn_lock.specs.Passes.{Known};
    ghost use Rattle.admission_rules.specs.declared.Rules.{Rules};
    ghost use Rattle.master_core.specs.declared.event.Event.{Event};
    ghost use Rattle.live_master.specs.Passes.{IsIdle};

    ghost Value = { Known Event Rules };

    ghost view = { λ p. p.pass };

    ghost invariant = { λ p. IsIdle p.pass.view × (p.pass.view.number ≡ p.caller) × (1 ≤ p.caller) × (p.caller ≤ 8) };
}

impl OperatorPass {
    /// The number of its operator, 1 to 8: 1 for the one that was made first.
    pub fn caller(&self) -> u8
        ensures caller { result ≡ self.now.view.number }
        ensures some { 1 ≤ result }
        ensures few { result ≤ 8 }
        ensures facts { Facts number_of self.now.view }
    {
        self.caller
    }
}
